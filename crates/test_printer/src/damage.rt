//! Whether the checker, the profiler on one thread and the one by workers say the same of a damaged trace: they name
//! the same first bad event, or come to the same work.

use rand_core::utils::NextWord;
use rand_pcg::Pcg32;
use spp_crew::{OpenGate, profile};
use spp_cut::{Cut, Parts, cut_bytes, cut_even};
use spp_event::{HeaderFault, Trace, open_trace};
use spp_frame::{Fault, ProfileFault, check};
use spp_maxplus::Burdens;
use spp_serial::profile_serial;
use spp_site::Profile;
use std::alloc::Global;
use std::io;
use std::sync::Wait;
use std::thread::Threads;

/// Into how many parts a trace of version 1 is cut for the workers.
const PARTS: u32 = 7;

/// At how many bytes one of version 2 is cut at most.
const MOST_CUTS: u64 = 100;

/// How many workers share them.
const WORKERS: u32 = 2;

/// In how many places a trace is damaged at most, where that is left to chance.
const MOST_PLACES: u32 = 4;

/// What the three of them say of some bytes.
#[derive(Clone, Copy)]
enum Said {
    /// Their header is refused.
    Refused,
    /// They are those of a trace with this first bad event.
    Bad,
    /// They are those of a well-formed trace.
    Good,
    /// The three differ, or memory ran out.
    Unlike,
}

/// How many damaged traces there were, and what was said of them.
#[derive(Clone, Copy)]
struct Counts {
    refused: u64,
    bad: u64,
    good: u64,
    unlike: u64,
}

impl Counts {
    fn add(&mut self, said: Said) {
        let count = match said {
            Said::Refused => &mut self.refused,
            Said::Bad => &mut self.bad,
            Said::Good => &mut self.good,
            Said::Unlike => &mut self.unlike,
        };
        *count = count.saturating_add(1);
    }
}

/// The work that a profiler comes to, or the first bad event that it names; none where memory ran out.
fn told(profile: Result<Profile, ProfileFault>) -> Option<Result<u128, Fault>> {
    match profile {
        Ok(profile) => Some(Ok(profile.figures.work)),
        Err(ProfileFault::Bad(fault)) => Some(Err(fault)),
        Err(ProfileFault::Memory) => None,
    }
}

/// A trace of version 2 cut at each byte of its body, but at no more than so many, one of version 1 in even parts; none
/// where an allocation failed.
fn cut_up<'t, 'a>(alloc: Global, trace: &'t Trace<'a>) -> Option<Cut<'t, 'a>> {
    if trace.version() != 2 {
        return cut_even(alloc, trace, Parts::new(PARTS)?).ok();
    }
    let mut cuts = Vec::new(alloc);
    for at in 0..=trace.body_len().min(MOST_CUTS) {
        cuts.push(at).ok()?;
    }
    cut_bytes(alloc, trace, &cuts).ok()
}

/// What the profiler by workers tells.
fn told_by_workers<R: Threads + Wait + Sync>(
    rt: &R,
    alloc: Global,
    trace: &Trace<'_>,
    burdens: Burdens,
) -> Option<Result<u128, Fault>> {
    let cut = cut_up(alloc, trace)?;
    told(profile(rt, alloc, &cut, WORKERS, burdens, &OpenGate))
}

/// What the three of them say of these bytes.
fn what_is_said<R: Threads + Wait + Sync>(rt: &R, alloc: Global, bytes: &[u8]) -> Said {
    let trace = match open_trace(alloc, bytes) {
        Ok(trace) => trace,
        Err(HeaderFault::Memory) => return Said::Unlike,
        Err(_) => return Said::Refused,
    };
    let burdens = Burdens::equal(3);
    let checked = check(&trace);
    let alone = told(profile_serial(alloc, &trace, burdens));
    let shared = told_by_workers(rt, alloc, &trace, burdens);
    if alone != Some(checked) || shared != Some(checked) {
        return Said::Unlike;
    }
    match checked {
        Ok(_) => Said::Good,
        Err(_) => Said::Bad,
    }
}

/// Counts what is said where one byte of a trace has each value but its own.
fn damage_byte<R: Threads + Wait + Sync>(
    rt: &R,
    alloc: Global,
    bytes: &mut [u8],
    at: usize,
    counts: &mut Counts,
) {
    let Some(was) = bytes.get(at).copied() else {
        return;
    };
    for value in 0..=255_u8 {
        if value == was {
            continue;
        }
        if let Some(byte) = bytes.get_mut(at) {
            *byte = value;
        }
        counts.add(what_is_said(rt, alloc, bytes));
    }
    if let Some(byte) = bytes.get_mut(at) {
        *byte = was;
    }
}

/// A copy of these bytes, damaged in some places: a byte has any value there, and one copy in four ends early.
fn damaged(alloc: Global, bytes: &[u8], chance: &mut Pcg32) -> Option<Vec<u8>> {
    let mut copy = Vec::from_slice(alloc, bytes).ok()?;
    let count = u32::try_from(copy.len()).ok()?.max(1);
    for _ in 0..=chance.next_word() % MOST_PLACES {
        let at = chance.next_word() % count;
        let value = chance.next_word() % 256;
        if let Some(byte) = copy.get_mut(at as usize) {
            *byte = value as u8;
        }
    }
    if chance.next_word() % 4 == 0 {
        copy.truncate((chance.next_word() % count) as usize);
    }
    Some(copy)
}

/// Prints how many damaged traces there were and what was said of them. Whether they agree on each.
fn print_counts(rt: &impl Print, counts: &Counts) -> io::Result<bool> {
    let Counts {
        refused,
        bad,
        good,
        unlike,
    } = counts;
    println!(rt;
        "{refused} headers refused, {bad} with a bad event, {good} well-formed, {unlike} on which they differ"
    )?;
    Ok(*unlike == 0)
}

/// No traces yet.
const NONE: Counts = Counts {
    refused: 0,
    bad: 0,
    good: 0,
    unlike: 0,
};

/// Gives each byte of a trace each other value, and prints what is said of these traces. Whether they agree on each.
pub(crate) fn print_each<R: Print + Threads + Wait + Sync>(
    rt: &R,
    alloc: Global,
    bytes: Vec<u8>,
) -> io::Result<bool> {
    let mut bytes = bytes;
    let mut counts = NONE;
    for at in 0..bytes.len() {
        damage_byte(rt, alloc, &mut bytes, at, &mut counts);
    }
    print_counts(rt, &counts)
}

/// The same of so many copies that are damaged by chance, which begins at a seed.
pub(crate) fn print_by_chance<R: Print + Threads + Wait + Sync>(
    rt: &R,
    alloc: Global,
    bytes: &[u8],
    times: u32,
    seed: u32,
) -> io::Result<bool> {
    let mut chance = Pcg32::new(u64::from(seed), 1);
    let mut counts = NONE;
    for _ in 0..times {
        let Some(copy) = damaged(alloc, bytes, &mut chance) else {
            return Ok(false);
        };
        counts.add(what_is_said(rt, alloc, &copy));
    }
    print_counts(rt, &counts)
}
