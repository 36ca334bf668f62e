//! Of several bad events the first is told, in whatever order the parts are done.

use crate::calls::{CREWS, Call, Crew, EVERY_CALL, THREADED, ask, marks_of};
use crate::gates::TestGate;
use crate::traces::{evenly, singly};
use crate::worked::{CALL, RET, S1, S2, SPAWN};
use spp_crew::OpenGate;
use spp_cut::Cut;
use spp_event::{Event, EventFault, open_trace, trace_of};
use spp_frame::{Fault, ProfileFault, Why};
use std::alloc::{AllocError, Global};
use std::sync::Wait;
use std::test::Fail;
use std::thread::Threads;

/// A run that isn't well-formed.
struct Bad {
    events: &'static [Event],
    /// The positions of the events whose records have no good tag.
    spoiled: &'static [usize],
    /// How many bytes are cut off at the end.
    missing: usize,
    /// Where the first bad event is, and what is wrong there.
    at: u32,
    why: Why,
}

impl Bad {
    /// What is told of the run.
    fn fault(&self) -> ProfileFault {
        ProfileFault::Bad(Fault {
            at: self.at,
            why: self.why,
        })
    }
}

/// Runs with a bad event; most with another one later, in another part where each part is one event.
const BAD: &[Bad] = &[
    // too many returns
    Bad {
        events: &[S1, RET, S2],
        spoiled: &[],
        missing: 0,
        at: 1,
        why: Why::RootReturn,
    },
    Bad {
        events: &[S1, RET, S2, RET, S1],
        spoiled: &[],
        missing: 0,
        at: 1,
        why: Why::RootReturn,
    },
    Bad {
        events: &[SPAWN, RET, RET, RET],
        spoiled: &[],
        missing: 0,
        at: 2,
        why: Why::RootReturn,
    },
    // one return too many, then a frame that is open at the end
    Bad {
        events: &[CALL, S1, S2, RET, RET, CALL],
        spoiled: &[],
        missing: 0,
        at: 4,
        why: Why::RootReturn,
    },
    // frames that are open at the end
    Bad {
        events: &[CALL, S1],
        spoiled: &[],
        missing: 0,
        at: 2,
        why: Why::Unclosed { depth: 1 },
    },
    Bad {
        events: &[SPAWN, SPAWN, RET],
        spoiled: &[],
        missing: 0,
        at: 3,
        why: Why::Unclosed { depth: 1 },
    },
    Bad {
        events: &[CALL, SPAWN, RET, SPAWN],
        spoiled: &[],
        missing: 0,
        at: 4,
        why: Why::Unclosed { depth: 2 },
    },
    // bad records
    Bad {
        events: &[S1, RET, S2],
        spoiled: &[2],
        missing: 0,
        at: 1,
        why: Why::RootReturn,
    },
    Bad {
        events: &[S1, S2, RET, S1],
        spoiled: &[1],
        missing: 0,
        at: 1,
        why: Why::Event(EventFault::Tag),
    },
    Bad {
        events: &[S1, S2, S1, S2, S1],
        spoiled: &[1, 3],
        missing: 0,
        at: 1,
        why: Why::Event(EventFault::Tag),
    },
    Bad {
        events: &[CALL, S1, S2],
        spoiled: &[1],
        missing: 0,
        at: 1,
        why: Why::Event(EventFault::Tag),
    },
    // records that are cut off
    Bad {
        events: &[S1, S1, S1],
        spoiled: &[],
        missing: 9,
        at: 2,
        why: Why::Event(EventFault::Truncated),
    },
    Bad {
        events: &[SPAWN, RET, RET],
        spoiled: &[],
        missing: 20,
        at: 1,
        why: Why::Event(EventFault::Truncated),
    },
    Bad {
        events: &[S1, RET, S1],
        spoiled: &[],
        missing: 1,
        at: 1,
        why: Why::RootReturn,
    },
];

/// Spoils the tag of the record of so many, of which each takes 16 bytes at the end of these.
fn spoil(bytes: &mut [u8], events: usize, at: usize) {
    let behind = events.saturating_sub(at).saturating_mul(16);
    let place = bytes.len().saturating_sub(behind);
    if let Some(tag) = bytes.get_mut(place) {
        *tag = 9;
    }
}

/// The bytes of the run.
fn bytes_of(alloc: Global, run: &Bad) -> Result<Vec<u8>, AllocError> {
    let mut bytes = trace_of(alloc, run.events)?;
    for at in run.spoiled {
        spoil(&mut bytes, run.events.len(), *at);
    }
    bytes.truncate(bytes.len().saturating_sub(run.missing));
    Ok(bytes)
}

/// Whether all calls, by all crews, tell that fault.
fn all_tell<R: Threads + Wait + Sync>(
    rt: &R,
    alloc: Global,
    cut: &Cut<'_, '_>,
    fault: ProfileFault,
) -> bool {
    for crew in CREWS {
        for call in EVERY_CALL {
            if ask(rt, alloc, cut, call, crew, &OpenGate) != Err(fault) {
                return false;
            }
        }
    }
    true
}

/// Whether all calls, by all crews, tell the first bad event where the run is in parts of one event, and in 1, 2 and 3
/// even parts; none where an allocation failed.
fn is_told(rt: &(impl Threads + Wait + Sync), alloc: Global, run: &Bad) -> Option<bool> {
    let bytes = bytes_of(alloc, run).ok()?;
    let trace = open_trace(alloc, &bytes).ok()?;
    let mut told = all_tell(rt, alloc, &singly(alloc, &trace)?, run.fault());
    for parts in [1, 2, 3] {
        let cut = evenly(alloc, &trace, parts)?;
        told = all_tell(rt, alloc, &cut, run.fault()) && told;
    }
    Some(told)
}

#[test]
fn the_first_bad_event_is_told(rt: HostRuntime) -> Result<(), Fail> {
    for (i, run) in BAD.iter().enumerate() {
        let told = is_told(&rt, rt.alloc(), run);
        assert_eq!(rt; told, Some(true), "run {i}");
    }
    Ok(())
}

/// Whether the call tells the fault, which its first round finds, though the worker of a part is held there until all
/// other parts have begun: with two workers all but the last of them are done then.
fn held_tells<R: Threads + Wait + Sync>(
    rt: &R,
    alloc: Global,
    cut: &Cut<'_, '_>,
    call: Call,
    crew: Crew,
    held: u32,
    fault: ProfileFault,
) -> bool {
    let parts = cut.parts().len() as u32;
    let gate = TestGate::holding(alloc, held, 0, parts);
    let answer = ask(rt, alloc, cut, call, crew, &gate);
    answer == Err(fault) && gate.saw(call.first_round(), parts)
}

/// Whether the call tells the fault, whichever part's worker is held.
fn each_held_tells<R: Threads + Wait + Sync>(
    rt: &R,
    alloc: Global,
    cut: &Cut<'_, '_>,
    call: Call,
    crew: Crew,
    fault: ProfileFault,
) -> bool {
    let parts = cut.parts().len() as u32;
    for held in 0..parts {
        if !held_tells(rt, alloc, cut, call, crew, held, fault) {
            return false;
        }
    }
    true
}

/// Whether all calls by so many workers tell the first bad event of a run in parts of one event, whichever part's worker
/// is held; none where an allocation failed.
fn is_told_in_any_order<R: Threads + Wait + Sync>(
    rt: &R,
    alloc: Global,
    run: &Bad,
    crew: Crew,
) -> Option<bool> {
    let bytes = bytes_of(alloc, run).ok()?;
    let trace = open_trace(alloc, &bytes).ok()?;
    let cut = singly(alloc, &trace)?;
    for call in EVERY_CALL {
        if !each_held_tells(rt, alloc, &cut, call, crew, run.fault()) {
            return Some(false);
        }
    }
    Some(true)
}

#[test]
fn the_first_bad_event_is_told_whichever_part_is_done_first(rt: HostRuntime) -> Result<(), Fail> {
    for (i, run) in BAD.iter().enumerate() {
        for crew in THREADED {
            let told = is_told_in_any_order(&rt, rt.alloc(), run, crew);
            assert_eq!(rt; told, Some(true), "run {i} by {crew:?}");
        }
    }
    Ok(())
}

/// Whether `marks` tells the first bad event of a run in parts of one event, and leaves all bytes as they were; none where
/// an allocation failed.
fn leaves_the_bytes<R: Threads + Wait + Sync>(
    rt: &R,
    alloc: Global,
    run: &Bad,
    crew: Crew,
) -> Option<bool> {
    let bytes = bytes_of(alloc, run).ok()?;
    let trace = open_trace(alloc, &bytes).ok()?;
    let cut = singly(alloc, &trace)?;
    let (told, marks) = marks_of(rt, alloc, &cut, crew, &OpenGate).ok()?;
    Some(told == Err(run.fault()) && marks.iter().all(|byte| *byte == 7))
}

#[test]
fn a_bad_run_leaves_the_bytes_as_they_were(rt: HostRuntime) -> Result<(), Fail> {
    for (i, run) in BAD.iter().enumerate() {
        for crew in CREWS {
            let left = leaves_the_bytes(&rt, rt.alloc(), run, crew);
            assert_eq!(rt; left, Some(true), "run {i} by {crew:?}");
        }
    }
    Ok(())
}
