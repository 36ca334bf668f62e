ghost use Rattle.std.specs.Prelude.{◌≡◌, ◌≤◌, ◌++◌, length, take, drop, replicate};
ghost use Rattle.spp_cut.specs.Parts.{events_in};

use crate::cut::seven_strands;
use spp_cut::{Part, cut_at, events_before, lend};
use spp_event::open_trace;
use std::alloc::{AllocError, Global};
use std::test::Fail;

/// Writes 1 to the byte of each event of the parts before `at`, and 2 to those of the others.
fn mark_halves(parts: &[Part<'_, '_>], marks: &mut [u8], at: usize)
    requires at_a_part { at ≤ length parts.now }
    requires a_byte_each { length marks.old ≡ events_in parts.now }
    ensures { marks.new ≡ replicate (events_in (take at parts.now)) 1 ++ replicate (events_in (drop at parts.now)) 2 }
{
    let events = events_before(parts, at);
    let (first, second) = lend(marks, events);
    first.fill(1);
    second.fill(2);
}

/// Whether these are the bytes that this makes of three parts with 2, 3 and 2 events.
fn is_marked(alloc: Global, at: usize, bytes: &[u8]) -> Result<bool, AllocError> {
    let strands = seven_strands(alloc)?;
    let Ok(trace) = open_trace(alloc, strands.as_slice()) else {
        return Ok(false);
    };
    let Ok(cut) = cut_at(alloc, &trace, &[2, 5]) else {
        return Ok(false);
    };
    let parts = cut.parts();
    if parts.len() < at {
        return Ok(false);
    }
    let mut marks = vec![in alloc; 0; trace.count() as usize]?;
    mark_halves(parts, &mut marks, at);
    Ok(marks.as_slice() == bytes)
}

#[test]
fn a_lent_buffer_is_its_two_halves(rt: HostRuntime) -> Result<(), Fail> {
    assert!(rt; is_marked(rt.alloc(), 1, &[1, 1, 2, 2, 2, 2, 2])?);
    assert!(rt; is_marked(rt.alloc(), 2, &[1, 1, 1, 1, 1, 2, 2])?);
    assert!(rt; is_marked(rt.alloc(), 0, &[2, 2, 2, 2, 2, 2, 2])?);
    assert!(rt; is_marked(rt.alloc(), 3, &[1, 1, 1, 1, 1, 1, 1])?);
    Ok(())
}
