//! The rounds in which an answer is made, and that workers are at the parts of a round beside each other.

use crate::calls::{CREWS, Call, Crew, EVERY_CALL, THREADED, ask};
use crate::gates::TestGate;
use crate::traces::{evenly, singly};
use crate::worked::WAITED;
use spp_cut::Cut;
use spp_event::{open_trace, trace_of};
use std::alloc::Global;
use std::sync::Wait;
use std::test::Fail;
use std::thread::Threads;

/// How many parts the run has.
const PARTS: u32 = 9;

/// Whether the call is answered, and its gate sees each of so many parts begun once in each of the call's rounds, and
/// nothing else. No worker is held in vain.
fn is_seen<R: Threads + Wait + Sync>(
    rt: &R,
    alloc: Global,
    cut: &Cut<'_, '_>,
    call: Call,
    crew: Crew,
    gate: TestGate,
) -> bool {
    let parts = cut.parts().len() as u32;
    let answer = ask(rt, alloc, cut, call, crew, &gate);
    answer.is_ok() && gate.saw(call.rounds(), parts)
}

/// The same for the run in parts of one event, where the gate may hold a worker: none where an allocation failed.
fn run_is_seen<R: Threads + Wait + Sync>(
    rt: &R,
    alloc: Global,
    call: Call,
    crew: Crew,
    gate: TestGate,
) -> Option<bool> {
    let bytes = trace_of(alloc, &WAITED).ok()?;
    let trace = open_trace(alloc, &bytes).ok()?;
    let cut = singly(alloc, &trace)?;
    Some(is_seen(rt, alloc, &cut, call, crew, gate))
}

#[test]
fn each_part_is_begun_once_in_each_round(rt: HostRuntime) -> Result<(), Fail> {
    for call in EVERY_CALL {
        for crew in CREWS {
            let gate = TestGate::open(rt.alloc());
            let seen = run_is_seen(&rt, rt.alloc(), call, crew, gate);
            assert_eq!(rt; seen, Some(true), "{call:?} by {crew:?}");
        }
    }
    Ok(())
}

/// Whether the call is answered though one worker is held in each round until all other parts have begun, whichever part
/// it holds; none where an allocation failed.
fn others_go_on<R: Threads + Wait + Sync>(
    rt: &R,
    alloc: Global,
    call: Call,
    crew: Crew,
) -> Option<bool> {
    for held in 0..PARTS {
        let gate = TestGate::holding(alloc, held, 0, PARTS);
        if !run_is_seen(rt, alloc, call, crew, gate)? {
            return Some(false);
        }
    }
    Some(true)
}

#[test]
fn a_held_worker_holds_no_other(rt: HostRuntime) -> Result<(), Fail> {
    for call in [Call::Figures, Call::Profile, Call::ProfileInRounds] {
        for crew in THREADED {
            let go_on = others_go_on(&rt, rt.alloc(), call, crew);
            assert_eq!(rt; go_on, Some(true), "{call:?} by {crew:?}");
        }
    }
    // With a worker for each part, each part is marked beside all others.
    let go_on = others_go_on(&rt, rt.alloc(), Call::Marks, Crew::Most);
    assert_eq!(rt; go_on, Some(true));
    Ok(())
}

#[test]
fn two_workers_mark_both_halves_beside_each_other(rt: HostRuntime) -> Result<(), Fail> {
    // The one marks parts 0 to 3, the other 4 to 8. Each is held, in its first part and in its last, until the other has
    // begun all of its own.
    for (held, from, end) in [(0, 4, 9), (3, 4, 9), (4, 0, 4), (8, 0, 4)] {
        let gate = TestGate::holding(rt.alloc(), held, from, end);
        let seen = run_is_seen(&rt, rt.alloc(), Call::Marks, Crew::Two, gate);
        assert_eq!(rt; seen, Some(true), "part {held} is held");
    }
    Ok(())
}

/// Whether two workers answer the call with two parts, of which one is held in each round until the other has begun; none
/// where an allocation failed.
fn two_parts_are_seen<R: Threads + Wait + Sync>(
    rt: &R,
    alloc: Global,
    call: Call,
    held: u32,
) -> Option<bool> {
    let bytes = trace_of(alloc, &WAITED).ok()?;
    let trace = open_trace(alloc, &bytes).ok()?;
    let cut = evenly(alloc, &trace, 2)?;
    let gate = TestGate::holding(alloc, held, 0, 2);
    Some(is_seen(rt, alloc, &cut, call, Crew::Two, gate))
}

#[test]
fn two_workers_are_at_two_parts_at_once(rt: HostRuntime) -> Result<(), Fail> {
    for call in EVERY_CALL {
        for held in [0, 1] {
            let seen = two_parts_are_seen(&rt, rt.alloc(), call, held);
            assert_eq!(rt; seen, Some(true), "{call:?}, part {held} is held");
        }
    }
    Ok(())
}
