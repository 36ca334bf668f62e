//! The calls that read and write version 2 of the format.

use super::{Answer, trace_in};
use spp_cut::{CutFault, cut_bytes};
use spp_event::{Event, MigrateFault, compact_of, migrate};
use std::alloc::Global;

/// The small trace of seven events, in version 2.
pub const SMALL: &[u8] = b"SPTRACE2\x00\x00\x00\x02\x00\x00\x00\x01\x00\x00\x00\x00\x00\x00\x00\x07\
\x00\x04main\x00\x01f\x00\x01A\
\x80\x41\x82\x40\x41\x80\x4a\x83\x80\x44\x84\x80\x42";

/// A trace of version 2 is written in version 2 as it is.
pub fn written(alloc: Global) -> Result<Answer, Answer> {
    let trace = trace_in(alloc, SMALL)?;
    Ok(match migrate(alloc, &trace) {
        Ok(bytes) if bytes.as_slice() == SMALL => Answer::Good,
        Err(MigrateFault::Memory) => Answer::Memory,
        _ => Answer::Other,
    })
}

/// An event with an operand of three digits.
pub fn spelled(alloc: Global) -> Answer {
    match compact_of(alloc, Event::Strand { count: 4096 }) {
        Ok(bytes) if bytes.as_slice() == b"\x80\x01\x00\x40".as_slice() => Answer::Good,
        Ok(_) => Answer::Other,
        Err(_) => Answer::Memory,
    }
}

/// Cut within the child.
pub fn cut(alloc: Global) -> Result<Answer, Answer> {
    let trace = trace_in(alloc, SMALL)?;
    if trace.version() != 2 {
        return Ok(Answer::Other);
    }
    Ok(match cut_bytes(alloc, &trace, &[7]) {
        Ok(cut) => match cut.parts() {
            [first, second] if first.count() == 3 && second.count() == 4 => Answer::Good,
            _ => Answer::Other,
        },
        Err(CutFault::Memory) => Answer::Memory,
        Err(_) => Answer::Other,
    })
}
