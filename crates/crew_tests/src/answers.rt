//! What workers answer to small runs whose numbers are known.

use crate::calls::{CREWS, Call, Crew, EVERY_CALL, THREE, burdened_marks_of, marks_of};
use crate::traces::{evenly, singly, thousand};
use crate::worked::{CALL, DEEP, GOOD, Good, Line, Lines, SPAWN};
use spp_crew::{OpenGate, figures, profile, profile_in_rounds};
use spp_cut::Cut;
use spp_dag::{Figures, Row};
use spp_event::{Event, open_trace, trace_of};
use spp_serial::profile_serial;
use spp_site::{Profile, Table};
use std::alloc::Global;
use std::sync::Wait;
use std::test::Fail;
use std::thread::Threads;

/// The numbers of a row.
fn line_of(row: Row) -> Line {
    [
        u128::from(row.count),
        row.local,
        u128::from(row.site_count),
        row.site_work,
        row.site_span,
        u128::from(row.caller_count),
        row.caller_work,
        row.caller_span,
    ]
}

/// The rows of the root and of the site `A`.
pub(crate) fn lines_of(table: &Table) -> Lines {
    [line_of(table.root_row()), line_of(table.row(0))]
}

/// Whether these are the figures of a run.
fn has_figures<R: Threads + Wait + Sync>(
    rt: &R,
    alloc: Global,
    cut: &Cut<'_, '_>,
    crew: Crew,
    run: &Good<'_>,
) -> bool {
    figures(rt, alloc, cut, crew.workers(), run.burdens, &OpenGate) == Ok(run.figures)
}

/// Whether this is the profile of a run.
fn is_profile(told: &Profile, run: &Good<'_>) -> bool {
    told.figures == run.figures
        && lines_of(&told.dag) == run.dag
        && lines_of(&told.path) == run.path
        && lines_of(&told.burdened_path) == run.burdened_path
}

/// Whether workers, and one thread without them, give a run its profile.
fn has_profile<R: Threads + Wait + Sync>(
    rt: &R,
    alloc: Global,
    cut: &Cut<'_, '_>,
    crew: Crew,
    run: &Good<'_>,
) -> bool {
    let Ok(serial) = profile_serial(alloc, cut.trace(), run.burdens) else {
        return false;
    };
    let Ok(told) = profile(rt, alloc, cut, crew.workers(), run.burdens, &OpenGate) else {
        return false;
    };
    is_profile(&told, run) && is_profile(&serial, run)
}

/// Whether workers give a run its profile in three rounds.
fn has_profile_in_rounds<R: Threads + Wait + Sync>(
    rt: &R,
    alloc: Global,
    cut: &Cut<'_, '_>,
    crew: Crew,
    run: &Good<'_>,
) -> bool {
    match profile_in_rounds(rt, alloc, cut, crew.workers(), run.burdens, &OpenGate) {
        Ok(told) => is_profile(&told, run),
        Err(_) => false,
    }
}

/// Whether the events of a run are marked so.
fn has_marks<R: Threads + Wait + Sync>(
    rt: &R,
    alloc: Global,
    cut: &Cut<'_, '_>,
    crew: Crew,
    run: &Good<'_>,
) -> bool {
    match marks_of(rt, alloc, cut, crew, &OpenGate) {
        Ok((Ok(()), bytes)) => bytes.as_slice() == run.marks,
        _ => false,
    }
}

/// Whether the events of a run are marked so on its burdened path.
fn has_burdened_marks<R: Threads + Wait + Sync>(
    rt: &R,
    alloc: Global,
    cut: &Cut<'_, '_>,
    crew: Crew,
    run: &Good<'_>,
) -> bool {
    match burdened_marks_of(rt, alloc, cut, crew, run.burdens, &OpenGate) {
        Ok((Ok(()), bytes)) => bytes.as_slice() == run.burdened_marks,
        _ => false,
    }
}

/// Whether all crews answer the call rightly.
pub(crate) fn all_answer<R: Threads + Wait + Sync>(
    rt: &R,
    alloc: Global,
    cut: &Cut<'_, '_>,
    run: &Good<'_>,
    call: Call,
) -> bool {
    for crew in CREWS {
        let right = match call {
            Call::Figures => has_figures(rt, alloc, cut, crew, run),
            Call::Profile => has_profile(rt, alloc, cut, crew, run),
            Call::ProfileInRounds => has_profile_in_rounds(rt, alloc, cut, crew, run),
            Call::Marks => has_marks(rt, alloc, cut, crew, run),
            Call::BurdenedMarks => has_burdened_marks(rt, alloc, cut, crew, run),
        };
        if !right {
            return false;
        }
    }
    true
}

/// Whether all crews answer the call rightly where the run is in parts of one event, and in 1, 2, 3 and 7 even parts;
/// none where an allocation failed.
fn is_answered<R: Threads + Wait + Sync>(
    rt: &R,
    alloc: Global,
    run: &Good<'_>,
    call: Call,
) -> Option<bool> {
    let bytes = trace_of(alloc, run.events).ok()?;
    let trace = open_trace(alloc, &bytes).ok()?;
    let mut right = all_answer(rt, alloc, &singly(alloc, &trace)?, run, call);
    for parts in [1, 2, 3, 7] {
        let cut = evenly(alloc, &trace, parts)?;
        right = all_answer(rt, alloc, &cut, run, call) && right;
    }
    Some(right)
}

#[test]
fn runs_have_their_figures(rt: HostRuntime) -> Result<(), Fail> {
    for (i, run) in GOOD.iter().enumerate() {
        let right = is_answered(&rt, rt.alloc(), run, Call::Figures);
        assert_eq!(rt; right, Some(true), "run {i}");
    }
    Ok(())
}

#[test]
fn runs_have_their_profiles(rt: HostRuntime) -> Result<(), Fail> {
    for (i, run) in GOOD.iter().enumerate() {
        let right = is_answered(&rt, rt.alloc(), run, Call::Profile);
        assert_eq!(rt; right, Some(true), "run {i}");
    }
    Ok(())
}

#[test]
fn runs_have_their_profiles_in_three_rounds(rt: HostRuntime) -> Result<(), Fail> {
    for (i, run) in GOOD.iter().enumerate() {
        let right = is_answered(&rt, rt.alloc(), run, Call::ProfileInRounds);
        assert_eq!(rt; right, Some(true), "run {i}");
    }
    Ok(())
}

#[test]
fn the_events_on_the_path_are_marked(rt: HostRuntime) -> Result<(), Fail> {
    for (i, run) in GOOD.iter().enumerate() {
        let right = is_answered(&rt, rt.alloc(), run, Call::Marks);
        assert_eq!(rt; right, Some(true), "run {i}");
    }
    Ok(())
}

#[test]
fn the_events_on_the_burdened_path_are_marked(rt: HostRuntime) -> Result<(), Fail> {
    for (i, run) in GOOD.iter().enumerate() {
        let right = is_answered(&rt, rt.alloc(), run, Call::BurdenedMarks);
        assert_eq!(rt; right, Some(true), "run {i}");
    }
    Ok(())
}

/// Whether all crews answer the call rightly for a thousand frames within one another, opened by that event, in parts
/// of one event; none where an allocation failed.
fn deep_run_is_answered<R: Threads + Wait + Sync>(
    rt: &R,
    alloc: Global,
    open: Event,
    burdened: u128,
    call: Call,
) -> Option<bool> {
    let events = thousand(alloc, open).ok()?;
    let marks = vec![in alloc; 1; 3000].ok()?;
    let run = Good {
        events: &events,
        burdens: THREE,
        figures: Figures {
            work: 1000,
            span: 1000,
            burdened,
        },
        dag: DEEP,
        path: DEEP,
        burdened_path: DEEP,
        marks: &marks,
        burdened_marks: &marks,
    };
    let bytes = trace_of(alloc, &events).ok()?;
    let trace = open_trace(alloc, &bytes).ok()?;
    let cut = singly(alloc, &trace)?;
    Some(all_answer(rt, alloc, &cut, &run, call))
}

#[test]
fn a_thousand_frames_are_open_where_parts_begin(rt: HostRuntime) -> Result<(), Fail> {
    for (open, burdened) in [(CALL, 1000), (SPAWN, 4000)] {
        for call in EVERY_CALL {
            let right = deep_run_is_answered(&rt, rt.alloc(), open, burdened, call);
            assert_eq!(rt; right, Some(true), "{call:?} of {open:?}");
        }
    }
    Ok(())
}
