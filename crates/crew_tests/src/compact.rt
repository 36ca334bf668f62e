//! What workers answer to traces of version 2 that are cut at each byte of their bodies.

use crate::answers::all_answer;
use crate::calls::{CREWS, EVERY_CALL, ask};
use crate::traces::{evenly, singly};
use crate::worked::{FORK, GOOD, Good};
use spp_crew::OpenGate;
use spp_cut::{Cut, cut_bytes};
use spp_event::{EventFault, Trace, migrate, open_trace, trace_of};
use spp_frame::{Fault, ProfileFault, Why};
use std::alloc::Global;
use std::sync::Wait;
use std::test::Fail;
use std::thread::Threads;

/// A trace of version 2 cut at each byte of its body and at its end; none where it is of version 1 or an allocation
/// failed.
fn at_each_byte<'t, 'a>(alloc: Global, trace: &'t Trace<'a>) -> Option<Cut<'t, 'a>> {
    if trace.version() != 2 {
        return None;
    }
    let mut cuts = Vec::new(alloc);
    for at in 0..=trace.body_len() {
        cuts.push(at).ok()?;
    }
    cut_bytes(alloc, trace, &cuts).ok()
}

/// Whether all crews answer each call rightly where the run is in version 2, in parts of one event, in three even parts
/// and cut at each byte; none where an allocation failed.
fn is_answered<R: Threads + Wait + Sync>(rt: &R, alloc: Global, run: &Good<'_>) -> Option<bool> {
    let first = trace_of(alloc, run.events).ok()?;
    let first = open_trace(alloc, &first).ok()?;
    let bytes = migrate(alloc, &first).ok()?;
    let trace = open_trace(alloc, &bytes).ok()?;
    let cuts = [
        singly(alloc, &trace)?,
        evenly(alloc, &trace, 3)?,
        at_each_byte(alloc, &trace)?,
    ];
    let mut right = true;
    for cut in &cuts {
        for call in EVERY_CALL {
            right = all_answer(rt, alloc, cut, run, call) && right;
        }
    }
    Some(right)
}

#[test]
fn runs_in_version_2_are_answered(rt: HostRuntime) -> Result<(), Fail> {
    for (i, run) in GOOD.iter().enumerate() {
        let right = is_answered(&rt, rt.alloc(), run);
        assert_eq!(rt; right, Some(true), "run {i}");
    }
    Ok(())
}

/// After how many bytes of its body the run `FORK` is cut off, and the position and the fault of the event that ends
/// there.
const CUT_OFF: &[(usize, u32, EventFault)] = &[
    (0, 0, EventFault::Truncated),
    (1, 0, EventFault::Operand),
    (2, 1, EventFault::Truncated),
    (3, 1, EventFault::Operand),
    (4, 1, EventFault::Operand),
    (5, 2, EventFault::Truncated),
    (6, 2, EventFault::Operand),
    (7, 3, EventFault::Truncated),
    (8, 4, EventFault::Truncated),
    (9, 4, EventFault::Operand),
    (10, 5, EventFault::Truncated),
    (11, 6, EventFault::Truncated),
    (12, 6, EventFault::Operand),
];

/// Whether all crews name this fault as the first, for each call, where the trace is cut at each byte and in parts of
/// one event; none where an allocation failed.
fn is_told<R: Threads + Wait + Sync>(
    rt: &R,
    alloc: Global,
    bytes: &[u8],
    fault: Fault,
) -> Option<bool> {
    let trace = open_trace(alloc, bytes).ok()?;
    let cuts = [singly(alloc, &trace)?, at_each_byte(alloc, &trace)?];
    for cut in &cuts {
        for crew in CREWS {
            for call in EVERY_CALL {
                let told = ask(rt, alloc, cut, call, crew, &OpenGate);
                if told != Err(ProfileFault::Bad(fault)) {
                    return Some(false);
                }
            }
        }
    }
    Some(true)
}

/// Bodies of one event that spell none, and what is wrong with each: a number that begins with the digit 0, one without
/// a last digit, an operand too many, and no tag.
const BAD_BODIES: &[(&[u8], EventFault)] = &[
    (b"\x80\x00\x41", EventFault::Operand),
    (b"\x80\x01", EventFault::Operand),
    (b"\x83\x40", EventFault::Operand),
    (b"\x41", EventFault::Tag),
];

/// What comes before the body in a trace of version 2 of one event, with the names of `FORK`.
const HEADER: &[u8] = b"SPTRACE2\x00\x00\x00\x02\x00\x00\x00\x01\x00\x00\x00\x00\x00\x00\x00\x01\
\x00\x04main\x00\x01f\x00\x01A";

#[test]
fn a_bad_item_is_the_first_fault(rt: HostRuntime) -> Result<(), Fail> {
    for (body, why) in BAD_BODIES {
        let mut bytes = HEADER.to_vec(rt.alloc())?;
        bytes.extend_from_slice(body)?;
        let fault = Fault {
            at: 0,
            why: Why::Event(*why),
        };
        let told = is_told(&rt, rt.alloc(), &bytes, fault);
        assert_eq!(rt; told, Some(true), "{why:?}");
    }
    Ok(())
}

/// The run `FORK` in version 2.
fn forked(alloc: Global) -> Option<Vec<u8>> {
    let bytes = trace_of(alloc, &FORK).ok()?;
    let trace = open_trace(alloc, &bytes).ok()?;
    migrate(alloc, &trace).ok()
}

#[test]
fn an_item_that_is_cut_off_is_the_first_fault(rt: HostRuntime) -> Result<(), Fail> {
    let Some(bytes) = forked(rt.alloc()) else {
        return Err("it is written".into());
    };
    for (len, at, why) in CUT_OFF {
        // The body has 13 bytes.
        let Some(short) = bytes.get(..bytes.len().saturating_sub(13).saturating_add(*len)) else {
            return Err("it has a body".into());
        };
        let fault = Fault {
            at: *at,
            why: Why::Event(*why),
        };
        let told = is_told(&rt, rt.alloc(), short, fault);
        assert_eq!(rt; told, Some(true), "after {len}");
    }
    Ok(())
}
