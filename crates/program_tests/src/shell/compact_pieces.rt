//! Runs over traces of version 2 that come in pieces of all sizes, beside what is said of all their bytes at once.

use super::checks::{ASKED, SMALL, ends_alike, header, trace};
use spp_event::{migrate, open_trace};
use std::alloc::{AllocError, Global};
use std::test::Fail;

/// The bytes of the header of a trace of one site.
const HEADER: usize = 41;

/// A trace of so many sites and events.
fn compact(alloc: Global, sites: u32, events: u32) -> Result<Vec<u8>, AllocError> {
    let bytes = trace(alloc, sites, events)?;
    let Ok(trace) = open_trace(alloc, bytes.as_slice()) else {
        return Err(AllocError);
    };
    let Ok(compact) = migrate(alloc, &trace) else {
        return Err(AllocError);
    };
    Ok(compact)
}

/// What stands behind the header of a trace of one site.
fn body_of(bytes: &[u8]) -> &[u8] {
    match bytes.get(HEADER..) {
        Some(body) => body,
        None => b"".as_slice(),
    }
}

/// The header of a trace of one site that claims so many events.
fn claiming(alloc: Global, events: u32) -> Result<Vec<u8>, AllocError> {
    let mut bytes = header(alloc, 1, events)?;
    if let Some(version) = bytes.as_mut_slice().get_mut(7) {
        *version = b'2';
    }
    Ok(bytes)
}

/// Puts a byte that begins no item at a place of the body.
fn spoil(bytes: &mut [u8], place: usize) {
    if let Some(byte) = bytes.get_mut(place.saturating_add(HEADER)) {
        *byte = 0x85;
    }
}

#[test]
fn a_small_trace_is_cut_off_at_each_byte(rt: HostRuntime) -> Result<(), Fail> {
    let bytes = compact(rt.alloc(), 2, 10)?;
    for len in 0..bytes.len() + 1 {
        assert!(rt; ends_alike(&rt, ASKED, &bytes[..len], SMALL)?, "{len}");
    }
    Ok(())
}

#[test]
fn a_small_trace_has_more_bytes_behind_it(rt: HostRuntime) -> Result<(), Fail> {
    for more in [0x00, 0x41, 0x80, 0x83, 0xff] {
        let mut bytes = compact(rt.alloc(), 2, 10)?;
        for _ in 0..20 {
            bytes.push(more)?;
            assert!(rt; ends_alike(&rt, ASKED, bytes.as_slice(), SMALL)?, "{more}");
        }
    }
    Ok(())
}

#[test]
fn each_byte_of_a_small_trace_is_another(rt: HostRuntime) -> Result<(), Fail> {
    let mut bytes = compact(rt.alloc(), 2, 5)?;
    for at in 0..bytes.len() {
        let before = bytes[at];
        for byte in [0x00, 0x40, 0x80, 0x83, 0xff] {
            bytes.as_mut_slice()[at] = byte;
            assert!(rt;
                ends_alike(&rt, ASKED, bytes.as_slice(), SMALL)?,
                "{at} {byte}"
            );
        }
        bytes.as_mut_slice()[at] = before;
    }
    Ok(())
}

/// The first block of `check` and `migrate` has 65,536 bytes of the body, that of a profile 131,072, and figures are as these.
/// The items of five events have 20 bytes or 21 there: behind so many syncs a block ends at each of these.
#[test]
fn a_block_ends_at_each_byte_of_an_item(rt: HostRuntime) -> Result<(), Fail> {
    let events = compact(rt.alloc(), 1, 40000)?;
    assert!(rt; HEADER + 131072 + 22 < events.len());
    for more in 0..22u32 {
        let mut bytes = claiming(rt.alloc(), 40000 + more)?;
        for _ in 0..more {
            bytes.push(0x84)?;
        }
        bytes.extend_from_slice(body_of(events.as_slice()))?;
        assert!(rt;
            ends_alike(&rt, ASKED, bytes.as_slice(), &[&[65536]])?,
            "{more}"
        );
        for bad in [65535, 65536, 131071, 131072, 140000] {
            let mut spoiled = bytes.as_slice().to_vec(rt.alloc())?;
            spoil(spoiled.as_mut_slice(), bad);
            assert!(rt;
                ends_alike(&rt, ASKED, spoiled.as_slice(), &[&[65536]])?,
                "{more} {bad}"
            );
        }
    }
    Ok(())
}

#[test]
fn more_events_come_than_the_header_claims(rt: HostRuntime) -> Result<(), Fail> {
    for claimed in [0, 1, 31000, 32000, 39999] {
        let mut bytes = claiming(rt.alloc(), claimed)?;
        let events = compact(rt.alloc(), 1, 40000)?;
        bytes.extend_from_slice(body_of(events.as_slice()))?;
        assert!(rt;
            ends_alike(&rt, ASKED, bytes.as_slice(), &[&[65536]])?,
            "{claimed}"
        );
    }
    Ok(())
}

/// An item may be longer than a block, which none of a good trace is.
#[test]
fn an_item_is_longer_than_a_block(rt: HostRuntime) -> Result<(), Fail> {
    for front in [b"".as_slice(), b"\x80\x45\x83\x80".as_slice()] {
        for behind in [b"".as_slice(), b"\x45\x84".as_slice()] {
            let mut bytes = claiming(rt.alloc(), 3)?;
            bytes.extend_from_slice(front)?;
            for _ in 0..600000 {
                bytes.push(0x01)?;
            }
            bytes.extend_from_slice(behind)?;
            assert!(rt; ends_alike(&rt, ASKED, bytes.as_slice(), &[&[65536]])?);
        }
    }
    Ok(())
}
