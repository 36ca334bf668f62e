//! The figures of changed runs, by workers.
ghost use Rattle.std.specs.Prelude.{◌≡◌, ◌+◌, ◌<◌, ◌≤◌, length, IfOk, OnOk};
ghost use Rattle.std.specs.Thread.{IsSync};
ghost use Rattle.spp_frame.specs.Nesting.{IsWellFormed};
ghost use Rattle.spp_shell.specs.Advise.{AreFound, AreFoundFrom, CanFind};

use spp_change::Change;
use spp_dag::Figures;
use spp_event::Trace;
use spp_maxplus::Burdens;
use spp_summary::changed_figures;
use std::alloc::{AllocError, Global};
use std::sync::Wait;
use std::thread::{Threads, join_mut};

/// Finds the figures of the changed runs of the changes from number `from` up to, not including, `end`, one after the other.
///
/// # Errors
///
/// Where an allocation failed; the figures may then be any.
fn find_alone(
    alloc: Global,
    trace: &Trace<'_>,
    burdens: Burdens,
    changes: &[Change],
    from: usize,
    end: usize,
    figures: &mut [Figures],
) -> Result<(), AllocError>
    requires { CanFind trace.now changes.now from end figures.old }
    ensures length { length figures.new ≡ length figures.old }
    ensures found { OnOk result (AreFoundFrom trace.now burdens changes.now from figures.new) }
{
    for i in 0..end - from {
        figures[i] = changed_figures(alloc, trace, changes[from + i], burdens)?;
    }
    Ok(())
}

/// The same by so many workers, who share the changes.
#[cycle(halves)]
fn find_range<R: Threads + Wait + Sync>(
    rt: &R,
    alloc: Global,
    trace: &Trace<'_>,
    burdens: Burdens,
    changes: &[Change],
    from: usize,
    end: usize,
    workers: u32,
    figures: &mut [Figures],
) -> Result<(), AllocError>
    requires { CanFind trace.now changes.now from end figures.old }
    ensures length { length figures.new ≡ length figures.old }
    ensures found { OnOk result (AreFoundFrom trace.now burdens changes.now from figures.new) }
{
    if workers < 2 || end - from < 2 {
        return find_alone(alloc, trace, burdens, changes, from, end, figures);
    }
    let half = (end - from) / 2;
    let middle = from + half;
    let (first, second) = figures.split_at_mut(half);
    let (first_done, second_done) = find_halves(
        rt, alloc, trace, burdens, changes, from, middle, end, workers, first, second,
    );
    first_done?;
    second_done
}

/// The same, where the figures are lent in two halves, with an answer for each: half of the workers find those of the second
/// half, on a new thread.
#[cycle(halves)]
fn find_halves<R: Threads + Wait + Sync>(
    rt: &R,
    alloc: Global,
    trace: &Trace<'_>,
    burdens: Burdens,
    changes: &[Change],
    from: usize,
    middle: usize,
    end: usize,
    workers: u32,
    first: &mut [Figures],
    second: &mut [Figures],
) -> (Result<(), AllocError>, Result<(), AllocError>)
    requires first { CanFind trace.now changes.now from middle first.old }
    requires second { CanFind trace.now changes.now middle end second.old }
    ensures first_length { length first.new ≡ length first.old }
    ensures second_length { length second.new ≡ length second.old }
    ensures first { OnOk result.0 (AreFoundFrom trace.now burdens changes.now from first.new) }
    ensures second { OnOk result.1 (AreFoundFrom trace.now burdens changes.now middle second.new) }
{
    let theirs = workers / 2;
    let ours = workers - theirs;
    let mut on_new_thread = || -> Result<(), AllocError>
        requires { IsSync R.row × CanFind trace.now changes.now middle end second.now }
        ensures { (length second.exit.now ≡ length second.entry.now) × OnOk result (AreFoundFrom trace.entry.now burdens changes.entry.now middle second.exit.now) }
    {
        find_range(
            rt, alloc, trace, burdens, changes, middle, end, theirs, second,
        )
    };
    let mut here = || -> Result<(), AllocError>
        requires { IsSync R.row × CanFind trace.now changes.now from middle first.now }
        ensures { (length first.exit.now ≡ length first.entry.now) × OnOk result (AreFoundFrom trace.entry.now burdens changes.entry.now from first.exit.now) }
    {
        find_range(
            rt, alloc, trace, burdens, changes, from, middle, ours, first,
        )
    };
    let (second_done, first_done) = join_mut(rt, &mut on_new_thread, &mut here);
    (first_done, second_done)
}

/// The figures of changed runs, by so many workers, each on a thread of its own but one.
///
/// # Errors
///
/// Where an allocation failed. A thread that can't be started is no error: the thread that was to start it does its share.
pub(crate) fn figures_of<R: Threads + Wait + Sync>(
    rt: &R,
    alloc: Global,
    trace: &Trace<'_>,
    burdens: Burdens,
    changes: &[Change],
    workers: u32,
) -> Result<Vec<Figures>, AllocError>
    requires { IsWellFormed trace.now.records }
    ensures length { IfOk result (λ figures. length figures.items ≡ length changes.now) }
    ensures figures { IfOk result (λ figures. AreFound trace.now burdens changes.now figures.items) }
{
    let nothing = Figures {
        work: 0,
        span: 0,
        burdened: 0,
    };
    let mut figures = vec![in alloc; nothing; changes.len()]?;
    if changes.is_empty() {
        return Ok(figures);
    }
    let count = changes.len();
    let lent = figures.as_mut_slice();
    find_range(rt, alloc, trace, burdens, changes, 0, count, workers, lent)?;
    Ok(figures)
}
