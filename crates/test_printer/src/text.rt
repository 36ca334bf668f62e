//! A trace as text: for the test that a trace comes back from its text, byte for byte.

use spp_event::open_trace;
use spp_text::print_text;
use std::alloc::Global;
use std::io;

/// The text of the trace, if it has one.
fn text_of(alloc: Global, bytes: &[u8]) -> Option<String> {
    let trace = open_trace(alloc, bytes).ok()?;
    print_text(alloc, &trace).ok()
}

/// Prints the text of the trace. Whether there is one.
pub(crate) fn print(rt: &impl Print, alloc: Global, bytes: &[u8]) -> io::Result<bool> {
    let Some(text) = text_of(alloc, bytes) else {
        return Ok(false);
    };
    print!(rt; "{text}")?;
    Ok(true)
}
