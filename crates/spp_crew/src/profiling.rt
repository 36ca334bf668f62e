//! The whole profile of a run, made by workers in three rounds.

ghost use Rattle.std.specs.Prelude.{◌≡◌, ◌+◌, ◌<◌, ◌≤◌, ◌^◌, List, length, true, IfOk, IfErr};
ghost use Rattle.spp_dag.specs.Figures.{AreFigures};
ghost use Rattle.spp_event.specs.declared.records.Event.{Event as EventValue};
ghost use Rattle.spp_frame.specs.Answers.{IsFaultOf};
ghost use Rattle.spp_frame.specs.Nesting.{AreEvents};
ghost use Rattle.spp_jobs.specs.Names.{tables, paths};
ghost use Rattle.spp_jobs.specs.Paths.{IsPathedOf};
ghost use Rattle.spp_jobs.specs.Tables.{IsRun, IsTabledOf};
ghost use Rattle.spp_maxplus.specs.State.{unburdened};
ghost use Rattle.spp_jobs.specs.Choices.{AreChoicesOf};
ghost use Rattle.spp_site.specs.Rows.{frame_row};
ghost use Rattle.spp_site.specs.Profiles.{IsDagTable, IsPathTable, IsProfileOf};
ghost use Rattle.spp_path.specs.declared.settled.Under.TheVariants.{Zero, Burdens as UnderBurdens};
ghost use Rattle.spp_stack.specs.Parts.{AreEntriesOf};
ghost use Rattle.spp_crew.specs.Settling.{IsSettledBy};

use crate::gate::{Gate, Round};
use crate::round::run_round;
use crate::surveying::survey;
use spp_cut::Cut;
use spp_dag::{Choices, Figures, Row};
use spp_frame::ProfileFault;
use spp_jobs::{PathJob, Pathed, TableJob, Tabled, entries_of};
use spp_maxplus::Burdens;
use spp_path::{Settled, Under, settle_by_hops};
use spp_site::{ClosedFrame, Profile, Table};
use spp_stack::Entries;
use std::alloc::{AllocError, Global};
use std::sync::Wait;
use std::thread::{Threads, join};

/// What the root frame itself adds to its row, where the run comes to these figures.
fn root_row(whole: &Figures) -> Row
    ensures { result ≡ frame_row (record { local = 0; work = whole.now.work; span = whole.now.span; top_site = true; top_caller = true }) }
{
    let closed = ClosedFrame {
        local: 0,
        work: whole.work,
        span: whole.span,
        top_site: true,
        top_caller: true,
    };
    closed.row()
}

/// The rows of all parts on the whole dag, without what the root frame adds itself, and the choices in each, made by so
/// many workers in the round [`Round::Tables`].
///
/// # Errors
///
/// Where an allocation failed.
pub fn tabled<R: Threads + Wait + Sync, G: Gate>(
    rt: &R,
    alloc: Global,
    cut: &Cut<'_, '_>,
    stacks: &Entries,
    workers: u32,
    burdens: Burdens,
    gate: &G,
) -> Result<Tabled, AllocError>
    requires some { 0 < workers }
    requires most { workers ≤ 64 }
    requires entries { AreEntriesOf cut.now burdens stacks.now }
    ensures { IfOk result (λ t. IsTabledOf (record { kind = tables; cut = cut.now; burdens = burdens }) 0 (length cut.now.parts) t) }
{
    // Called for its contract alone: the parts hold all events.
    let _parts = cut.parts();
    let job = TableJob::new(cut, stacks, burdens);
    run_round(rt, alloc, &job, workers, Round::Tables, gate)
}

/// Both paths, the one without burdens and the one under them, settled by the choices of the parts: in parallel where there
/// is more than one worker.
///
/// # Errors
///
/// Where an allocation failed.
fn settle_both<'e, R: Threads>(
    rt: &R,
    alloc: Global,
    stacks: &'e Entries,
    choices: &[Choices],
    workers: u32,
) -> Result<(Settled<'e>, Settled<'e>), AllocError>
    requires { length stacks.now.starts ≡ length choices.now + 1 }
    ensures path { IfOk result (λ p. IsSettledBy stacks.now choices.now Zero p.0) }
    ensures burdened { IfOk result (λ p. IsSettledBy stacks.now choices.now UnderBurdens p.1) }
{
    if workers < 2 {
        let path = settle_by_hops(alloc, stacks, choices, Under::Zero)?;
        let burdened = settle_by_hops(alloc, stacks, choices, Under::Burdens)?;
        return Ok((path, burdened));
    }
    let (burdened, path) = join(
        rt,
        move || -> Result<Settled<'_>, AllocError>
            requires { length stacks.now.starts ≡ length choices.now + 1 }
            ensures { IfOk result (λ s. IsSettledBy stacks.entry.now choices.entry.now UnderBurdens s) }
        { settle_by_hops(alloc, stacks, choices, Under::Burdens) },
        move || -> Result<Settled<'_>, AllocError>
            requires { length stacks.now.starts ≡ length choices.now + 1 }
            ensures { IfOk result (λ s. IsSettledBy stacks.entry.now choices.entry.now Zero s) }
        { settle_by_hops(alloc, stacks, choices, Under::Zero) },
    );
    Ok((path?, burdened?))
}

/// The rows of all parts on both paths, without what the root frame adds itself, made by so many workers in the round
/// [`Round::Paths`]: both paths are settled first, by the choices of the parts.
///
/// # Errors
///
/// Where an allocation failed.
fn pathed<R: Threads + Wait + Sync, G: Gate>(
    rt: &R,
    alloc: Global,
    cut: &Cut<'_, '_>,
    stacks: &Entries,
    choices: &[Choices],
    workers: u32,
    burdens: Burdens,
    gate: &G,
) -> Result<Pathed, AllocError>
    requires some { 0 < workers }
    requires most { workers ≤ 64 }
    requires run { IsRun cut.now }
    requires entries { AreEntriesOf cut.now burdens stacks.now }
    requires choices { (es : List EventValue) → AreEvents cut.now.trace.records es → AreChoicesOf es burdens cut.now.parts choices.now }
    ensures { IfOk result (λ t. IsPathedOf (record { kind = paths; cut = cut.now; burdens = burdens }) 0 (length cut.now.parts) t) }
{
    // Called for its contract alone: the parts hold all events.
    let _parts = cut.parts();
    let (path, burdened) = settle_both(rt, alloc, stacks, choices, workers)?;
    let job = PathJob::new(cut, stacks, burdens, &path, &burdened);
    run_round(rt, alloc, &job, workers, Round::Paths, gate)
}

/// The profile of a run, as [`profile`] gives it, in three rounds: it is made by so many workers, 1 to 64, each on a thread of
/// its own but one, who draw the parts of the cut trace. How many workers there are, which of them draws which part, and in
/// which order the parts are done doesn't show in the profile.
///
/// Each event is read four times: for the summaries, for the table of the dag, and for that of each path, or once for both
/// paths where they go alike in its part. To find out whether a path comes to the part at all, it may be read once more
/// before each of these. All workers together take a time linear in the number of events, besides, for each part, the
/// numbers of sites and of functions. The joins of what comes of the parts are made one at a time. The memory is linear in
/// the numbers of parts, of the sites that each of them has rows of, of the frames that they leave open or close and don't
/// open, and of spawned children, in the most frames that are open at a time within a part, and, for each worker, in the
/// numbers of sites and of functions; a thread has a stack of its own besides. The work is below 2^92.
///
/// [`profile`]: crate::profile
///
/// # Errors
///
/// The first bad event, or `Memory` where an allocation failed. A thread that can't be started is no error: the thread
/// that was to start it does its share.
pub fn profile_in_rounds<R: Threads + Wait + Sync, G: Gate>(
    rt: &R,
    alloc: Global,
    cut: &Cut<'_, '_>,
    workers: u32,
    burdens: Burdens,
    gate: &G,
) -> Result<Profile, ProfileFault>
    requires some { 0 < workers }
    requires most { workers ≤ 64 }
    ensures figures { IfOk result (λ p. AreFigures cut.now.trace.records burdens p.figures) }
    ensures small { IfOk result (λ p. p.figures.work < 2 ^ 92) }
    ensures dag { IfOk result (λ p. IsDagTable cut.now.trace p.dag) }
    ensures path { IfOk result (λ p. IsPathTable cut.now.trace unburdened p.path) }
    ensures burdened_path { IfOk result (λ p. IsPathTable cut.now.trace burdens p.burdened_path) }
    ensures profile { IfOk result (λ p. IsProfileOf cut.now.trace burdens p) }
    ensures fault { IfErr result (λ f. IsFaultOf cut.now.trace.records f) }
{
    // Called for its contract alone: the parts hold all events.
    let _parts = cut.parts();
    let found = survey(rt, alloc, cut, workers, burdens, gate)?;
    let figures = found.figures;
    let stacks = entries_of(alloc, cut, &found.summaries)?;
    drop(found.summaries);
    let Tabled { share, choices } = tabled(rt, alloc, cut, &stacks, workers, burdens, gate)?;
    let choices = choices.into_vec();
    let on_paths = pathed(rt, alloc, cut, &stacks, &choices, workers, burdens, gate)?;
    let root = root_row(&figures);
    let mut dag = Table::from_share(alloc, &share)?;
    dag.add_root(&root);
    let mut path = Table::from_share(alloc, &on_paths.path)?;
    path.add_root(&root);
    let mut burdened_path = Table::from_share(alloc, &on_paths.burdened_path)?;
    burdened_path.add_root(&root);
    Ok(Profile {
        figures,
        dag,
        path,
        burdened_path,
    })
}
