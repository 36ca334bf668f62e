//! The figures of a run, made by workers.

ghost use Rattle.std.specs.Prelude.{◌≡◌, ◌<◌, ◌≤◌, ◌^◌, List, length, IfOk, IfErr};
ghost use Rattle.std.specs.List.{All};
ghost use Rattle.spp_dag.specs.Figures.{AreFigures};
ghost use Rattle.spp_event.specs.declared.records.Event.{Event as EventValue};
ghost use Rattle.spp_frame.specs.Answers.{IsFaultOf};
ghost use Rattle.spp_frame.specs.Nesting.{AreEvents};
ghost use Rattle.spp_jobs.specs.Summaries.{AreSummariesOf};
ghost use Rattle.spp_stack.specs.Parts.{AreOfParts};

use crate::gate::{Gate, Round};
use crate::round::run_round;
use spp_cut::Cut;
use spp_dag::Figures;
use spp_frame::ProfileFault;
use spp_jobs::{Survey, SurveyJob};
use spp_maxplus::Burdens;
use spp_summary::Summary;
use std::alloc::Global;
use std::sync::Wait;
use std::thread::Threads;

/// What the summaries of all parts of a trace tell.
#[derive(Drop)]
pub struct Surveyed {
    /// The summary of each part, in order.
    pub summaries: Vec<Summary>,
    /// The work, span and burdened span of the run.
    pub figures: Figures,
}

/// The summaries of the parts of a cut trace, with the figures that all parts together come to, made by so many workers
/// in the round [`Round::Summaries`].
///
/// # Errors
///
/// The first bad event, or `Memory` where an allocation failed.
pub fn survey<R: Threads + Wait + Sync, G: Gate>(
    rt: &R,
    alloc: Global,
    cut: &Cut<'_, '_>,
    workers: u32,
    burdens: Burdens,
    gate: &G,
) -> Result<Surveyed, ProfileFault>
    requires some { 0 < workers }
    requires most { workers ≤ 64 }
    ensures figures { IfOk result (λ s. AreFigures cut.now.trace.records burdens s.figures) }
    ensures small { IfOk result (λ s. s.figures.work < 2 ^ 92) }
    ensures count { IfOk result (λ s. length s.summaries.items ≡ length cut.now.parts) }
    ensures few { IfOk result (λ s. length s.summaries.items ≤ 65536) }
    ensures burdens { IfOk result (λ s. All (λ a. a.burdens ≡ burdens) s.summaries.items) }
    ensures each { IfOk result (λ s. AreSummariesOf cut.now burdens s.summaries.items) }
    ensures parts { IfOk result (λ s. (es : List EventValue) → AreEvents cut.now.trace.records es → AreOfParts es burdens s.summaries.items) }
    ensures fault { IfErr result (λ f. IsFaultOf cut.now.trace.records f) }
{
    // Called for their contracts alone: the limits, and that the parts hold all events.
    cut.trace().keeps_limits();
    let _parts = cut.parts();
    let job = SurveyJob::new(cut, burdens);
    let Survey { each, whole } = run_round(rt, alloc, &job, workers, Round::Summaries, gate)?;
    let whole = whole.finish()?;
    Ok(Surveyed {
        summaries: each.into_vec(),
        figures: whole,
    })
}

/// The work, span and burdened span of a run, in instructions, made by so many workers, 1 to 64, each on a thread of its
/// own but one. They draw the parts of the cut trace in one round. The work is below 2^92. How many workers there are, which
/// of them draws which part, and in which order the parts are done doesn't show in the figures.
///
/// Each event is read once. All workers together take a time linear in the number of events, besides the joins of the
/// summaries, which are made one at a time. The memory is linear in the numbers of parts, of the frames that they leave open
/// and of those that they close and don't open, and in the most frames that are open at a time within a part; a thread has
/// a stack of its own besides.
///
/// # Errors
///
/// The first bad event, or `Memory` where an allocation failed. A thread that can't be started is no error: the thread
/// that was to start it does its share.
pub fn figures<R: Threads + Wait + Sync, G: Gate>(
    rt: &R,
    alloc: Global,
    cut: &Cut<'_, '_>,
    workers: u32,
    burdens: Burdens,
    gate: &G,
) -> Result<Figures, ProfileFault>
    requires some { 0 < workers }
    requires most { workers ≤ 64 }
    ensures figures { IfOk result (λ f. AreFigures cut.now.trace.records burdens f) }
    ensures small { IfOk result (λ f. f.work < 2 ^ 92) }
    ensures fault { IfErr result (λ f. IsFaultOf cut.now.trace.records f) }
{
    let Surveyed { figures, .. } = survey(rt, alloc, cut, workers, burdens, gate)?;
    Ok(figures)
}
