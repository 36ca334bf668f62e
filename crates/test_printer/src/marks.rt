//! Which events of a trace are on its path, as workers mark them: for the test that all even parts and all workers give
//! the marks in tests/marks/.

use spp_crew::{OpenGate, marks};
use spp_cut::{Cut, Parts, cut_even};
use spp_event::{Trace, open_trace};
use spp_request::Workers;
use std::alloc::Global;
use std::io;
use std::sync::Wait;
use std::thread::Threads;

/// The mark of each event of a cut trace; none where the trace isn't well-formed or an allocation failed.
pub(crate) fn marked<R: Threads + Wait + Sync>(
    rt: &R,
    alloc: Global,
    cut: &Cut<'_, '_>,
    workers: Workers,
) -> Option<Vec<u8>> {
    let mut bytes = vec![in alloc; 2; cut.trace().count() as usize].ok()?;
    marks(rt, alloc, cut, workers.number(), &OpenGate, &mut bytes).ok()?;
    Some(bytes)
}

/// The marks as a line of digits, where the trace is cut into so many parts.
fn line<R: Threads + Wait + Sync>(
    rt: &R,
    alloc: Global,
    trace: &Trace<'_>,
    parts: Parts,
    workers: Workers,
) -> Option<String> {
    let cut = cut_even(alloc, trace, parts).ok()?;
    let bytes = marked(rt, alloc, &cut, workers)?;
    let mut line = String::new(alloc);
    for mark in &bytes {
        line.push(char::from_digit(u32::from(*mark), 10)?).ok()?;
    }
    Some(line)
}

/// Prints the line. Whether there is one.
pub(crate) fn print<R: Print + Threads + Wait + Sync>(
    rt: &R,
    alloc: Global,
    bytes: &[u8],
    parts: Parts,
    workers: Workers,
) -> io::Result<bool> {
    let Ok(trace) = open_trace(alloc, bytes) else {
        return Ok(false);
    };
    let Some(line) = line(rt, alloc, &trace, parts, workers) else {
        return Ok(false);
    };
    println!(rt; "{line}")?;
    Ok(true)
}
