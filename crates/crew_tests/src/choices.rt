//! What parts note of the places where spawned children join, from which paths are settled.

use crate::calls::{CREWS, Crew, THREE, stacks_of};
use crate::traces::singly;
use crate::worked::{EQUAL, RET, S2, S7, SPAWN, TWO_SYNCS};
use spp_crew::{OpenGate, tabled};
use spp_cut::Cut;
use spp_dag::{Choice, Choices, End};
use spp_event::{Event, open_trace, trace_of};
use spp_frame::ProfileFault;
use spp_jobs::Tabled;
use std::alloc::Global;
use std::collections::VecDeque;
use std::sync::Wait;
use std::test::Fail;
use std::thread::Threads;

/// The choices of a run: its ends, its joins, and those with a burden of 3.
#[derive(Clone, Copy)]
pub(crate) struct Wanted<'a> {
    pub(crate) ends: &'a [End],
    pub(crate) joins: &'a [Choice],
    pub(crate) burdened: &'a [Choice],
}

/// Whether the choices at this position are these alone.
fn are_at(told: &Choices, at: usize, wanted: &Wanted<'_>) -> bool {
    let mut more_ends = wanted.ends.iter().filter(|end| end.at as usize == at);
    let same_ends = told.ends.iter().all(|end| more_ends.next() == Some(end));
    same_ends
        && more_ends.next().is_none()
        && joins_are_at(&told.joins, at, wanted.joins)
        && joins_are_at(&told.burdened_joins, at, wanted.burdened)
}

/// Whether of these joins those at this position are told alone.
fn joins_are_at(told: &[Choice], at: usize, joins: &[Choice]) -> bool {
    let mut more = joins.iter().filter(|join| join.at as usize == at);
    told.iter().all(|join| more.next() == Some(join)) && more.next().is_none()
}

/// Whether the choices of so many parts of one event are these, each in the part of its position.
pub(crate) fn are_choices(told: &VecDeque<Choices>, parts: usize, wanted: &Wanted<'_>) -> bool {
    let mut by_part = told.iter().enumerate();
    told.len() == parts && by_part.all(|(at, part)| are_at(part, at, wanted))
}

/// The choices in each part of a cut trace.
fn choices_of<R: Threads + Wait + Sync>(
    rt: &R,
    alloc: Global,
    cut: &Cut<'_, '_>,
    crew: Crew,
) -> Result<VecDeque<Choices>, ProfileFault> {
    let stacks = stacks_of(rt, alloc, cut, crew)?;
    let Tabled { choices, .. } = tabled(rt, alloc, cut, &stacks, crew.workers(), THREE, &OpenGate)?;
    Ok(choices)
}

/// Whether all crews tell these choices of a cut trace in parts of one event.
fn all_tell<R: Threads + Wait + Sync>(
    rt: &R,
    alloc: Global,
    cut: &Cut<'_, '_>,
    wanted: &Wanted<'_>,
) -> bool {
    let parts = cut.parts().len();
    for crew in CREWS {
        let right = match choices_of(rt, alloc, cut, crew) {
            Ok(told) => are_choices(&told, parts, wanted),
            Err(_) => false,
        };
        if !right {
            return false;
        }
    }
    true
}

/// The same of a run of these events; none where an allocation failed.
fn has_choices<R: Threads + Wait + Sync>(
    rt: &R,
    alloc: Global,
    events: &[Event],
    wanted: &Wanted<'_>,
) -> Option<bool> {
    let bytes = trace_of(alloc, events).ok()?;
    let trace = open_trace(alloc, &bytes).ok()?;
    let cut = singly(alloc, &trace)?;
    Some(all_tell(rt, alloc, &cut, wanted))
}

#[test]
fn of_equal_children_the_first_is_taken(rt: HostRuntime) -> Result<(), Fail> {
    let alloc = rt.alloc();
    let ends = [End { at: 2, spawn: 0 }, End { at: 5, spawn: 3 }];
    let joins = [Choice {
        at: 6,
        taken: Some(0),
    }];
    // The second child's way bears the burden of a continuation edge more.
    let burdened = [Choice {
        at: 6,
        taken: Some(3),
    }];
    let wanted = Wanted {
        ends: &ends,
        joins: &joins,
        burdened: &burdened,
    };
    assert_eq!(rt; has_choices(&rt, alloc, &EQUAL, &wanted), Some(true));
    let without = Wanted {
        burdened: &joins,
        ..wanted
    };
    assert_eq!(rt; has_choices(&rt, alloc, &EQUAL, &without), Some(false));
    let exchanged = Wanted {
        ends: &ends,
        joins: &burdened,
        burdened: &joins,
    };
    assert_eq!(rt; has_choices(&rt, alloc, &EQUAL, &exchanged), Some(false));
    Ok(())
}

#[test]
fn a_child_that_weighs_less_is_not_taken(rt: HostRuntime) -> Result<(), Fail> {
    let alloc = rt.alloc();
    let ends = [End { at: 2, spawn: 0 }, End { at: 7, spawn: 5 }];
    let joins = [
        Choice {
            at: 4,
            taken: Some(0),
        },
        Choice { at: 9, taken: None },
    ];
    let wanted = Wanted {
        ends: &ends,
        joins: &joins,
        burdened: &joins,
    };
    assert_eq!(rt; has_choices(&rt, alloc, &TWO_SYNCS, &wanted), Some(true));
    let fewer = Wanted {
        joins: &joins[..1],
        ..wanted
    };
    assert_eq!(rt; has_choices(&rt, alloc, &TWO_SYNCS, &fewer), Some(false));
    Ok(())
}

#[test]
fn a_child_that_waits_at_the_end_joins_in_no_part(rt: HostRuntime) -> Result<(), Fail> {
    let wanted = Wanted {
        ends: &[End { at: 2, spawn: 0 }],
        joins: &[],
        burdened: &[],
    };
    let events = [SPAWN, S7, RET, S2];
    assert_eq!(rt; has_choices(&rt, rt.alloc(), &events, &wanted), Some(true));
    Ok(())
}
