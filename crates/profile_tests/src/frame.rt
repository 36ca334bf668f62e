use crate::worked::{BAD, FORK, GOOD, RET, S1, SYNC};
use spp_event::{Event, EventFault, open_trace, trace_of};
use spp_frame::{Fault, Why, check};
use std::alloc::{AllocError, Global};
use std::test::Fail;

/// The header of a trace of the functions `main` and `f`, the site `A` and `count` events.
fn header(alloc: Global, count: u8) -> Result<Vec<u8>, AllocError> {
    let mut bytes = b"SPTRACE1\x00\x00\x00\x02\x00\x00\x00\x01\x00\x00\x00\x00\x00\x00\x00".to_vec(
        alloc,
    )?;
    bytes.push(count)?;
    bytes.extend_from_slice(b"\x00\x04main\x00\x01f\x00\x01A")?;
    Ok(bytes)
}

/// What `check` says of the trace that the bytes are, or none where they open as no trace.
fn checked(alloc: Global, bytes: &[u8]) -> Option<Result<u128, Fault>> {
    let trace = open_trace(alloc, bytes).ok()?;
    Some(check(&trace))
}

/// What `check` says of a trace of these events.
fn check_of(alloc: Global, events: &[Event]) -> Result<Option<Result<u128, Fault>>, AllocError> {
    let bytes = trace_of(alloc, events)?;
    Ok(checked(alloc, bytes.as_slice()))
}

#[test]
fn the_work_is_the_sum_of_all_strands(rt: HostRuntime) -> Result<(), Fail> {
    for (i, run) in GOOD.iter().enumerate() {
        let work = run.figures.work;
        assert_eq!(rt;
            check_of(rt.alloc(), run.events)?,
            Some(Ok(work)),
            "run {i}"
        );
    }
    Ok(())
}

#[test]
fn a_bad_run_has_its_first_bad_event(rt: HostRuntime) -> Result<(), Fail> {
    for (i, run) in BAD.iter().enumerate() {
        assert_eq!(rt;
            check_of(rt.alloc(), run.events)?,
            Some(Err(run.fault)),
            "run {i}"
        );
    }
    Ok(())
}

#[test]
fn of_two_bad_events_the_first_is_told(rt: HostRuntime) -> Result<(), Fail> {
    // A return of the root at 1 comes before a record with tag 9 at 2.
    let mut bytes = trace_of(rt.alloc(), &[S1, RET, SYNC])?;
    if let Some(tag) = bytes.get_mut(36 + 32) {
        *tag = 9;
    }
    assert_eq!(rt;
        checked(rt.alloc(), bytes.as_slice()),
        Some(Err(Fault {
            at: 1,
            why: Why::RootReturn
        }))
    );
    Ok(())
}

#[test]
fn a_bad_record_is_a_bad_event(rt: HostRuntime) -> Result<(), Fail> {
    // Three events are claimed, and two and a part of the third are there.
    let mut bytes = header(rt.alloc(), 3)?;
    bytes.extend_from_slice(&[0; 39])?;
    assert_eq!(rt;
        checked(rt.alloc(), bytes.as_slice()),
        Some(Err(Fault {
            at: 2,
            why: Why::Event(EventFault::Truncated)
        }))
    );
    // One byte more than three events have.
    bytes.extend_from_slice(&[0; 10])?;
    assert_eq!(rt; checked(rt.alloc(), bytes.as_slice()), None);
    // A byte of the sync that must be zero isn't.
    let mut bytes = trace_of(rt.alloc(), &FORK)?;
    if let Some(padding) = bytes.get_mut(36 + 5 * 16 + 2) {
        *padding = 1;
    }
    assert_eq!(rt;
        checked(rt.alloc(), bytes.as_slice()),
        Some(Err(Fault {
            at: 5,
            why: Why::Event(EventFault::Padding)
        }))
    );
    Ok(())
}
