//! How long the profiler on one thread takes, and the profiler by parts with one worker, by turns: for bench/, which holds
//! them beside each other.

use spp_crew::{OpenGate, profile};
use spp_cut::{Cut, Parts, cut_even};
use spp_event::open_trace;
use spp_maxplus::Burdens;
use spp_serial::profile_serial;
use std::alloc::Global;
use std::io;
use std::rt::Clock;
use std::sync::Wait;
use std::thread::Threads;
use std::time::Instant;

/// How many turns each has.
const TURNS: u32 = 5;

/// The milliseconds that the profiler on one thread takes; none where the trace is bad or an allocation failed.
fn serial<R: Clock>(rt: &R, alloc: Global, cut: &Cut<'_, '_>, burdens: Burdens) -> Option<u128> {
    let start = Instant::now(rt).ok()?;
    profile_serial(alloc, cut.trace(), burdens).ok()?;
    Some(start.elapsed(rt).ok()?.as_millis())
}

/// The same of the profiler by parts, with one worker.
fn in_parts<R: Clock + Threads + Wait + Sync>(
    rt: &R,
    alloc: Global,
    cut: &Cut<'_, '_>,
    burdens: Burdens,
) -> Option<u128> {
    let start = Instant::now(rt).ok()?;
    profile(rt, alloc, cut, 1, burdens, &OpenGate).ok()?;
    Some(start.elapsed(rt).ok()?.as_millis())
}

/// Prints a line with both times for each turn. Whether all turns went well.
pub(crate) fn print<R: Clock + Print + Threads + Wait + Sync>(
    rt: &R,
    alloc: Global,
    bytes: &[u8],
    parts: Parts,
) -> io::Result<bool> {
    let Ok(trace) = open_trace(alloc, bytes) else {
        return Ok(false);
    };
    let Ok(cut) = cut_even(alloc, &trace, parts) else {
        return Ok(false);
    };
    let burdens = Burdens::equal(15000);
    for _ in 0..TURNS {
        let whole = serial(rt, alloc, &cut, burdens);
        let parted = in_parts(rt, alloc, &cut, burdens);
        let (Some(whole), Some(parted)) = (whole, parted) else {
            return Ok(false);
        };
        println!(rt; "on one thread {whole} ms, by parts with one worker {parted} ms")?;
    }
    Ok(true)
}
