//! Which events of a run are on its path, marked by workers.

ghost use Rattle.std.specs.Prelude.{◌≡◌, ◌+◌, ◌<◌, ◌≤◌, length, IfErr, OnOk, Err};
ghost use Rattle.std.specs.Thread.{IsSync};
ghost use Rattle.spp_crew.specs.Marks.{CanMark, AreMarked, AreMarks};
ghost use Rattle.spp_frame.specs.Answers.{IsFaultOf};
ghost use Rattle.spp_frame.specs.Nesting.{IsWellFormed};
ghost use Rattle.spp_frame.specs.declared.Fault.{Fault};
ghost use Rattle.spp_frame.specs.declared.profile_fault.ProfileFault.TheVariants.{Bad};
ghost use Rattle.spp_maxplus.specs.State.{unburdened};
ghost use Rattle.spp_path.specs.Settled.{burdens_under};

use crate::gate::{Gate, Round};
use crate::profiling::tabled;
use crate::surveying::survey;
use spp_cut::{Cut, events_before, lend};
use spp_frame::ProfileFault;
use spp_jobs::{Tabled, entries_of};
use spp_maxplus::Burdens;
use spp_path::{Settled, Under, mark_part, settle_by_hops};
use spp_stack::Entries;
use std::alloc::{AllocError, Global};
use std::sync::Wait;
use std::thread::{Threads, join_mut};

/// Marks the events of the parts from number `from` up to, not including, `end`, one part after the other.
///
/// # Errors
///
/// Where an allocation failed; the bytes may then be any.
fn mark_alone<R: Wait, G: Gate>(
    rt: &R,
    alloc: Global,
    cut: &Cut<'_, '_>,
    from: usize,
    end: usize,
    stacks: &Entries,
    settled: &Settled<'_>,
    gate: &G,
    marks: &mut [u8],
) -> Result<(), AllocError>
    requires { CanMark cut.now stacks.now settled.now from end marks.old }
    ensures length { length marks.new ≡ length marks.old }
    ensures marks { OnOk result (AreMarked cut.now settled.now from marks.new) }
{
    let parts = cut.parts();
    if end - from == 1 {
        gate.before(rt, Round::Marks, from as u32);
        return mark_part(alloc, &parts[from], stacks.entry(from), settled, marks);
    }
    let half = (end - from) / 2;
    let middle = from + half;
    let events = events_before(&parts[from..end], half);
    let (first, second) = lend(marks, events);
    mark_alone(rt, alloc, cut, from, middle, stacks, settled, gate, first)?;
    mark_alone(rt, alloc, cut, middle, end, stacks, settled, gate, second)
}

/// The same by so many workers, who share the parts.
#[cycle(halves)]
fn mark_range<R: Threads + Wait + Sync, G: Gate>(
    rt: &R,
    alloc: Global,
    cut: &Cut<'_, '_>,
    from: usize,
    end: usize,
    stacks: &Entries,
    settled: &Settled<'_>,
    workers: u32,
    gate: &G,
    marks: &mut [u8],
) -> Result<(), AllocError>
    requires { CanMark cut.now stacks.now settled.now from end marks.old }
    ensures length { length marks.new ≡ length marks.old }
    ensures marks { OnOk result (AreMarked cut.now settled.now from marks.new) }
{
    if workers < 2 || end - from < 2 {
        return mark_alone(rt, alloc, cut, from, end, stacks, settled, gate, marks);
    }
    let parts = cut.parts();
    let half = (end - from) / 2;
    let middle = from + half;
    let events = events_before(&parts[from..end], half);
    let (first, second) = lend(marks, events);
    let (first_done, second_done) = mark_halves(
        rt, alloc, cut, from, middle, end, stacks, settled, workers, gate, first, second,
    );
    first_done?;
    second_done
}

/// The same, where the bytes are lent in two halves, with an answer for each: half of the workers mark the parts from
/// number `middle` on, on a new thread.
#[cycle(halves)]
fn mark_halves<R: Threads + Wait + Sync, G: Gate>(
    rt: &R,
    alloc: Global,
    cut: &Cut<'_, '_>,
    from: usize,
    middle: usize,
    end: usize,
    stacks: &Entries,
    settled: &Settled<'_>,
    workers: u32,
    gate: &G,
    first: &mut [u8],
    second: &mut [u8],
) -> (Result<(), AllocError>, Result<(), AllocError>)
    requires first { CanMark cut.now stacks.now settled.now from middle first.old }
    requires second { CanMark cut.now stacks.now settled.now middle end second.old }
    ensures first_length { length first.new ≡ length first.old }
    ensures second_length { length second.new ≡ length second.old }
    ensures first { OnOk result.0 (AreMarked cut.now settled.now from first.new) }
    ensures second { OnOk result.1 (AreMarked cut.now settled.now middle second.new) }
{
    let theirs = workers / 2;
    let ours = workers - theirs;
    let mut on_new_thread = || -> Result<(), AllocError>
        requires { IsSync R.row × CanMark cut.now stacks.now settled.now middle end second.now }
        ensures { (length second.exit.now ≡ length second.entry.now) × OnOk result (AreMarked cut.entry.now settled.entry.now middle second.exit.now) }
    {
        mark_range(
            rt, alloc, cut, middle, end, stacks, settled, theirs, gate, second,
        )
    };
    let mut here = || -> Result<(), AllocError>
        requires { IsSync R.row × CanMark cut.now stacks.now settled.now from middle first.now }
        ensures { (length first.exit.now ≡ length first.entry.now) × OnOk result (AreMarked cut.entry.now settled.entry.now from first.exit.now) }
    {
        mark_range(
            rt, alloc, cut, from, middle, stacks, settled, ours, gate, first,
        )
    };
    let (second_done, first_done) = join_mut(rt, &mut on_new_thread, &mut here);
    (first_done, second_done)
}

/// What [`marks`] and [`burdened_marks`] do, for the one path or the other.
///
/// # Errors
///
/// As theirs.
fn marks_under<R: Threads + Wait + Sync, G: Gate>(
    rt: &R,
    alloc: Global,
    cut: &Cut<'_, '_>,
    workers: u32,
    burdens: Burdens,
    under: Under,
    gate: &G,
    marks: &mut [u8],
) -> Result<(), ProfileFault>
    requires some { 0 < workers }
    requires most { workers ≤ 64 }
    requires bytes { length marks.old ≡ length cut.now.trace.records }
    ensures formed { OnOk result (IsWellFormed cut.now.trace.records) }
    ensures length { length marks.new ≡ length marks.old }
    ensures marks { OnOk result (AreMarks cut.now.trace (burdens_under under burdens) marks.new) }
    ensures fault { IfErr result (λ f. IsFaultOf cut.now.trace.records f) }
    ensures kept { (fault : Fault) → result ≡ Err (Bad fault) → marks.new ≡ marks.old }
    ensures stays { ¬ (IsWellFormed cut.now.trace.records) → marks.new ≡ marks.old }
{
    let count = cut.parts().len();
    let found = survey(rt, alloc, cut, workers, burdens, gate)?;
    let stacks = entries_of(alloc, cut, &found.summaries)?;
    drop(found.summaries);
    let Tabled { choices, .. } = tabled(rt, alloc, cut, &stacks, workers, burdens, gate)?;
    let choices = choices.into_vec();
    let settled = settle_by_hops(alloc, &stacks, &choices, under)?;
    mark_range(
        rt, alloc, cut, 0, count, &stacks, &settled, workers, gate, marks,
    )?;
    Ok(())
}

/// Marks which events of a cut trace are on its path, the one that is greatest without burdens, by so many workers, 1 to
/// 64, each on a thread of its own but one (at most one for each part where events are marked): byte `i` is 1 where event
/// `i` is on the path, else 0. The gate is called in the round [`Round::Summaries`] before a part is summarised, in the round
/// [`Round::Tables`] before its choices are noted, and in the round [`Round::Marks`] before its events are marked.
///
/// Each event is read three times: for the summaries, for the choices, and for the marks, where each worker has a run of
/// neighbouring parts. The memory is linear in the numbers of parts, of the sites that each of them has rows of, of the
/// frames that are open where parts begin or that parts close and don't open, and of spawned children, in the most frames
/// that are open at a time within a part, and, for each worker, in the numbers of sites and of functions; a thread has a
/// stack of its own besides.
///
/// # Errors
///
/// The first bad event, or `Memory` where an allocation failed. Where an event is bad the bytes are as they were; else,
/// where an allocation failed, they may be any. A thread that can't be started is no error: the thread that was to start it
/// does its share.
pub fn marks<R: Threads + Wait + Sync, G: Gate>(
    rt: &R,
    alloc: Global,
    cut: &Cut<'_, '_>,
    workers: u32,
    gate: &G,
    marks: &mut [u8],
) -> Result<(), ProfileFault>
    requires some { 0 < workers }
    requires most { workers ≤ 64 }
    requires bytes { length marks.old ≡ length cut.now.trace.records }
    ensures formed { OnOk result (IsWellFormed cut.now.trace.records) }
    ensures length { length marks.new ≡ length marks.old }
    ensures marks { OnOk result (AreMarks cut.now.trace unburdened marks.new) }
    ensures fault { IfErr result (λ f. IsFaultOf cut.now.trace.records f) }
    ensures kept { (fault : Fault) → result ≡ Err (Bad fault) → marks.new ≡ marks.old }
    ensures stays { ¬ (IsWellFormed cut.now.trace.records) → marks.new ≡ marks.old }
{
    let burdens = Burdens::equal(0);
    marks_under(rt, alloc, cut, workers, burdens, Under::Zero, gate, marks)
}

/// Marks which events of a cut trace are on its burdened path, the first that is greatest under these burdens, as [`marks`]
/// does for the path without burdens: in the same rounds, and in as much time and memory.
///
/// # Errors
///
/// As those of [`marks`].
pub fn burdened_marks<R: Threads + Wait + Sync, G: Gate>(
    rt: &R,
    alloc: Global,
    cut: &Cut<'_, '_>,
    workers: u32,
    burdens: Burdens,
    gate: &G,
    marks: &mut [u8],
) -> Result<(), ProfileFault>
    requires some { 0 < workers }
    requires most { workers ≤ 64 }
    requires bytes { length marks.old ≡ length cut.now.trace.records }
    ensures formed { OnOk result (IsWellFormed cut.now.trace.records) }
    ensures length { length marks.new ≡ length marks.old }
    ensures marks { OnOk result (AreMarks cut.now.trace burdens marks.new) }
    ensures fault { IfErr result (λ f. IsFaultOf cut.now.trace.records f) }
    ensures kept { (fault : Fault) → result ≡ Err (Bad fault) → marks.new ≡ marks.old }
    ensures stays { ¬ (IsWellFormed cut.now.trace.records) → marks.new ≡ marks.old }
{
    marks_under(
        rt,
        alloc,
        cut,
        workers,
        burdens,
        Under::Burdens,
        gate,
        marks,
    )
}
