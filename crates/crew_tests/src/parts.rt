//! What is told of small runs in one part and in two: the choices in the parts, and the children that the paths enter.

ghost use Rattle.std.specs.Prelude.{◌≡◌, ◌+◌, ◌<◌, length};
ghost use Rattle.spp_stack.specs.Parts.{AreEntriesOf};

use crate::calls::{Crew, stacks_under};
use crate::worked::{
    BESIDE, CALL, EQUAL, IN_CALL, RET, S1, S2, S3, S5, S6, S7, SPAWN, SYNC, TWO_SYNCS, WAITED,
};
use spp_cut::{Cut, cut_at};
use spp_dag::{Choice, Choices, End};
use spp_event::{Event, open_trace, trace_of};
use spp_frame::ProfileFault;
use spp_maxplus::Burdens;
use spp_pass::run_part;
use spp_path::{Under, settle};
use spp_stack::Entries;
use std::alloc::{AllocError, Global};
use std::sync::Wait;
use std::test::Fail;
use std::thread::Threads;

/// A burden of 3 on continuation edges alone.
const AFTER: Burdens = Burdens {
    continuation: 3,
    join: 0,
};

/// A strand of 9 instructions.
const S9: Event = Event::Strand { count: 9 };

/// A run, with what is noted of it in its parts, and the spawns of the children that its paths enter, worked out by hand:
/// without burdens, and with 3 on continuation edges alone. What joins at the end joins in no part.
struct Run {
    events: &'static [Event],
    /// The returns of spawned children, each a position and that of the spawn.
    ends: &'static [(u32, u32)],
    /// The joins, each a position and that of the spawn of the child that is taken, if one is.
    joins: &'static [(u32, Option<u32>)],
    burdened_joins: &'static [(u32, Option<u32>)],
    entered: &'static [u32],
    burdened_entered: &'static [u32],
}

const RUNS: &[Run] = &[
    Run {
        events: &[],
        ends: &[],
        joins: &[],
        burdened_joins: &[],
        entered: &[],
        burdened_entered: &[],
    },
    // a child that weighs as much as what follows it
    Run {
        events: &[SPAWN, S5, RET, S5, SYNC],
        ends: &[(2, 0)],
        joins: &[(4, Some(0))],
        burdened_joins: &[(4, None)],
        entered: &[0],
        burdened_entered: &[],
    },
    // one that weighs less
    Run {
        events: &[SPAWN, S5, RET, S6, SYNC],
        ends: &[(2, 0)],
        joins: &[(4, None)],
        burdened_joins: &[(4, None)],
        entered: &[],
        burdened_entered: &[],
    },
    Run {
        events: &[SPAWN, S5, RET, S3, SYNC, S1],
        ends: &[(2, 0)],
        joins: &[(4, Some(0))],
        burdened_joins: &[(4, None)],
        entered: &[0],
        burdened_entered: &[],
    },
    Run {
        events: &[SPAWN, S5, RET, S7, SYNC, S1],
        ends: &[(2, 0)],
        joins: &[(4, None)],
        burdened_joins: &[(4, None)],
        entered: &[],
        burdened_entered: &[],
    },
    // a child that joins at the end
    Run {
        events: &[SPAWN, S5, RET, S2],
        ends: &[(2, 0)],
        joins: &[],
        burdened_joins: &[],
        entered: &[0],
        burdened_entered: &[0],
    },
    Run {
        events: &[SPAWN, S7, RET, S2],
        ends: &[(2, 0)],
        joins: &[],
        burdened_joins: &[],
        entered: &[0],
        burdened_entered: &[0],
    },
    // of two equal children the earlier one, unless the burden decides
    Run {
        events: &EQUAL,
        ends: &[(2, 0), (5, 3)],
        joins: &[(6, Some(0))],
        burdened_joins: &[(6, Some(3))],
        entered: &[0],
        burdened_entered: &[3],
    },
    Run {
        events: &[CALL, S5, RET],
        ends: &[],
        joins: &[],
        burdened_joins: &[],
        entered: &[],
        burdened_entered: &[],
    },
    // the outer child's return waits for the inner one
    Run {
        events: &WAITED,
        ends: &[(3, 1), (5, 0)],
        joins: &[(5, Some(1)), (7, Some(0))],
        burdened_joins: &[(5, None), (7, None)],
        entered: &[0, 1],
        burdened_entered: &[],
    },
    // with 9 in place of the 2 the outer child isn't taken
    Run {
        events: &[SPAWN, SPAWN, S3, RET, S1, RET, S9, SYNC, S1],
        ends: &[(3, 1), (5, 0)],
        joins: &[(5, Some(1)), (7, None)],
        burdened_joins: &[(5, None), (7, None)],
        entered: &[],
        burdened_entered: &[],
    },
    Run {
        events: &BESIDE,
        ends: &[(3, 1), (5, 0)],
        joins: &[(4, Some(1)), (7, None)],
        burdened_joins: &[(4, Some(1)), (7, None)],
        entered: &[],
        burdened_entered: &[],
    },
    Run {
        events: &TWO_SYNCS,
        ends: &[(2, 0), (7, 5)],
        joins: &[(4, Some(0)), (9, None)],
        burdened_joins: &[(4, Some(0)), (9, None)],
        entered: &[0],
        burdened_entered: &[0],
    },
    Run {
        events: &IN_CALL,
        ends: &[(2, 0), (6, 4)],
        joins: &[(8, Some(4)), (10, None)],
        burdened_joins: &[(8, Some(4)), (10, None)],
        entered: &[4],
        burdened_entered: &[4],
    },
    // with 9 in place of the 6 the path goes through the first child, and not through the call
    Run {
        events: &[SPAWN, S9, RET, CALL, SPAWN, S5, RET, S1, RET, S2, SYNC],
        ends: &[(2, 0), (6, 4)],
        joins: &[(8, Some(4)), (10, Some(0))],
        burdened_joins: &[(8, Some(4)), (10, None)],
        entered: &[0],
        burdened_entered: &[4],
    },
];

/// The choices that are noted in a part of a cut trace with these stacks.
fn noted(
    alloc: Global,
    cut: &Cut<'_, '_>,
    stacks: &Entries,
    number: usize,
    burdens: Burdens,
) -> Result<Choices, AllocError>
    requires stacks { AreEntriesOf cut.now burdens stacks.now }
    requires part { number < length cut.now.parts }
{
    let part = &cut.parts()[number];
    let told = run_part(alloc, part, stacks.entry(number), burdens)?;
    Ok(told.choices)
}

/// Those in each part, in order.
fn all_noted(
    alloc: Global,
    cut: &Cut<'_, '_>,
    stacks: &Entries,
    burdens: Burdens,
) -> Result<Vec<Choices>, AllocError>
    requires { AreEntriesOf cut.now burdens stacks.now }
{
    let mut choices = Vec::new(alloc);
    for number in 0..cut.parts().len() {
        choices.push(noted(alloc, cut, stacks, number, burdens)?)?;
    }
    Ok(choices)
}

/// Whether these are the joins at positions from `from` to before `end`.
fn are_joins(told: &[Choice], wanted: &[(u32, Option<u32>)], from: u32, end: u32) -> bool {
    let mut here = wanted.iter().filter(|join| from <= join.0 && join.0 < end);
    let same = told
        .iter()
        .all(|join| here.next() == Some(&(join.at, join.taken)));
    same && here.next().is_none()
}

/// Whether these are the ends there.
fn are_ends(told: &[End], wanted: &[(u32, u32)], from: u32, end: u32) -> bool {
    let mut here = wanted
        .iter()
        .filter(|of_run| from <= of_run.0 && of_run.0 < end);
    let same = told.iter().all(|of_part| here.next() == Some(&(of_part.at, of_part.spawn)));
    same && here.next().is_none()
}

/// Whether these are the choices of a run there.
fn are_choices(told: &Choices, run: &Run, from: u32, end: u32) -> bool {
    are_ends(&told.ends, run.ends, from, end)
        && are_joins(&told.joins, run.joins, from, end)
        && are_joins(&told.burdened_joins, run.burdened_joins, from, end)
}

/// Whether these are the choices in the parts of a run.
fn have_choices(cut: &Cut<'_, '_>, told: &[Choices], run: &Run) -> bool {
    let parts = cut.parts();
    let mut pairs = parts.iter().zip(told.iter());
    let same = pairs.all(|(part, choices)| {
        let from = part.first();
        are_choices(choices, run, from, from.saturating_add(part.count()))
    });
    same && parts.len() == told.len()
}

/// Whether a path of a run, settled over these stacks and choices, enters these children.
fn enters(
    alloc: Global,
    stacks: &Entries,
    choices: &[Choices],
    under: Under,
    wanted: &[u32],
) -> Result<bool, AllocError> {
    let parts = choices.len();
    if stacks.parts() != parts {
        return Ok(false);
    }
    let settled = settle(alloc, stacks, choices, under)?;
    let mut spawns = Vec::new(alloc);
    for part in 0..parts {
        spawns.extend_from_slice(settled.entered(part))?;
    }
    Ok(spawns.as_slice() == wanted)
}

/// Whether a run that is cut at these positions has its choices, and its paths their children.
fn is_told<R: Threads + Wait + Sync>(
    rt: &R,
    alloc: Global,
    cut: &Cut<'_, '_>,
    run: &Run,
) -> Result<bool, ProfileFault> {
    let stacks = stacks_under(rt, alloc, cut, Crew::One, AFTER)?;
    let choices = all_noted(alloc, cut, &stacks, AFTER)?;
    Ok(
        have_choices(cut, &choices, run)
            && enters(alloc, &stacks, &choices, Under::Zero, run.entered)?
            && enters(
                alloc,
                &stacks,
                &choices,
                Under::Burdens,
                run.burdened_entered,
            )?,
    )
}

/// Whether it is so of the run in one part, and in two parts however it is cut; none where an allocation failed.
fn is_told_in_parts<R: Threads + Wait + Sync>(rt: &R, alloc: Global, run: &Run) -> Option<bool> {
    let bytes = trace_of(alloc, run.events).ok()?;
    let trace = open_trace(alloc, &bytes).ok()?;
    let whole = cut_at(alloc, &trace, &[]).ok()?;
    let mut right = is_told(rt, alloc, &whole, run) == Ok(true);
    for at in 0..=trace.count() {
        let cut = cut_at(alloc, &trace, &[at]).ok()?;
        right = is_told(rt, alloc, &cut, run) == Ok(true) && right;
    }
    Some(right)
}

#[test]
fn parts_have_their_choices_and_paths_their_children(rt: HostRuntime) -> Result<(), Fail> {
    for (i, run) in RUNS.iter().enumerate() {
        let told = is_told_in_parts(&rt, rt.alloc(), run);
        assert_eq!(rt; told, Some(true), "run {i}");
    }
    Ok(())
}
