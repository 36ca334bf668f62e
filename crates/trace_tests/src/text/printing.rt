//! Traces as text.

use super::{SMALL, TEXT};
use spp_event::{EventFault, open_trace};
use spp_text::{PrintFault, print_text};
use std::alloc::{AllocError, Global};
use std::test::Fail;

/// What printing says of the trace that the bytes are, or none where they open as no trace.
pub(super) fn printed(alloc: Global, bytes: &[u8]) -> Option<Result<String, PrintFault>> {
    let trace = open_trace(alloc, bytes).ok()?;
    Some(print_text(alloc, &trace))
}

/// Whether the bytes are those of a trace with this text.
fn prints(alloc: Global, bytes: &[u8], wanted: &str) -> bool {
    match printed(alloc, bytes) {
        Some(Ok(text)) => text.as_str() == wanted,
        _ => false,
    }
}

#[test]
fn a_small_trace_has_its_text(rt: HostRuntime) {
    assert!(rt; prints(rt.alloc(), SMALL, TEXT));
}

#[test]
fn a_trace_without_events_has_a_text(rt: HostRuntime) {
    let bytes =
        b"SPTRACE1\x00\x00\x00\x01\x00\x00\x00\x00\x00\x00\x00\x00\x00\x00\x00\x00\x00\x05a b c";
    assert!(rt; prints(rt.alloc(), bytes.as_slice(), "func a b c\nroot 0\n"));
}

/// `SMALL` with another byte at one place.
fn edited(alloc: Global, at: usize, byte: u8) -> Result<Vec<u8>, AllocError> {
    let mut bytes = SMALL.to_vec(alloc)?;
    if let Some(place) = bytes.get_mut(at) {
        *place = byte;
    }
    Ok(bytes)
}

#[test]
fn the_least_bad_record_is_told(rt: HostRuntime) -> Result<(), Fail> {
    for (at, byte, fault) in [
        (
            36,
            9,
            PrintFault::Bad {
                at: 0,
                why: EventFault::Tag,
            },
        ),
        (
            59,
            1,
            PrintFault::Bad {
                at: 1,
                why: EventFault::Site,
            },
        ),
        (
            118,
            1,
            PrintFault::Bad {
                at: 5,
                why: EventFault::Padding,
            },
        ),
    ] {
        let bytes = edited(rt.alloc(), at, byte)?;
        match printed(rt.alloc(), bytes.as_slice()) {
            Some(Err(told)) => assert_eq!(rt; told, fault),
            _ => assert!(rt; false, "{byte} at {at}"),
        }
    }
    Ok(())
}
