//! The whole profile of a run, made by workers.

ghost use Rattle.std.specs.Prelude.{◌≡◌, ◌<◌, ◌≤◌, ◌^◌, IfOk, IfErr, IfSome};
ghost use Rattle.spp_dag.specs.Figures.{AreFigures};
ghost use Rattle.spp_frame.specs.Answers.{IsFaultOf};
ghost use Rattle.spp_maxplus.specs.State.{unburdened};
ghost use Rattle.spp_site.specs.Profiles.{IsDagTable, IsPathTable, IsProfileOf};

use crate::gate::Gate;
use crate::once::profile_once;
use crate::profiling::profile_in_rounds;
use spp_cut::{Cut, Parts, cut_even};
use spp_frame::ProfileFault;
use spp_maxplus::Burdens;
use spp_site::Profile;
use std::alloc::{AllocError, Global};
use std::sync::Wait;
use std::thread::Threads;

/// Up to how many call sites a profile is made in one round. Its joins are made one at a time: they copy the rows of ways and
/// add them up by site. Where the rows of all sites don't fit into a processor's caches, three rounds are done sooner.
pub const FEW_SITES: u32 = 1024;

/// How many events a part that is read once has at most, on average: what it comes to takes memory for the frames in it until
/// it is joined.
const EVENTS_OF_A_PART: u32 = 65_536;

/// The same trace in smaller parts, where those of a cut are too large to be read once.
///
/// # Errors
///
/// Where an allocation failed.
fn finer<'t, 'a>(alloc: Global, cut: &Cut<'t, 'a>) -> Result<Option<Cut<'t, 'a>>, AllocError>
    ensures { IfOk result (λ finer. IfSome finer (λ c. c.trace ≡ cut.now.trace)) }
{
    let parts = cut.trace().count() / EVENTS_OF_A_PART + 1;
    if parts as usize <= cut.parts().len() {
        return Ok(None);
    }
    match Parts::new(parts) {
        Some(parts) => Ok(Some(cut_even(alloc, cut.trace(), parts)?)),
        None => Ok(None),
    }
}

/// The profile of a run: its figures under these burdens, and its tables on the whole dag, on the first greatest path (the
/// critical path), and on the first path that is greatest under the burdens. No row bears burdens. It is made by so many
/// workers, 1 to 64, each on a thread of its own but one, who draw the parts of the cut trace. How many workers there are,
/// which of them draws which part, and in which order the parts are done doesn't show in the profile.
///
/// Where the trace names no more than 1,024 call sites, it is made in one round, as by [`profile_once`], and each event is
/// read once; the trace is then cut anew if its parts have 65,536 events or more on average. Else it is made in three, as by
/// [`profile_in_rounds`]. Time and memory are those of these calls. The work is below 2^92.
///
/// # Errors
///
/// The first bad event, or `Memory` where an allocation failed. A thread that can't be started is no error: the thread
/// that was to start it does its share.
pub fn profile<R: Threads + Wait + Sync, G: Gate>(
    rt: &R,
    alloc: Global,
    cut: &Cut<'_, '_>,
    workers: u32,
    burdens: Burdens,
    gate: &G,
) -> Result<Profile, ProfileFault>
    requires some { 0 < workers }
    requires most { workers ≤ 64 }
    ensures figures { IfOk result (λ p. AreFigures cut.now.trace.records burdens p.figures) }
    ensures small { IfOk result (λ p. p.figures.work < 2 ^ 92) }
    ensures dag { IfOk result (λ p. IsDagTable cut.now.trace p.dag) }
    ensures path { IfOk result (λ p. IsPathTable cut.now.trace unburdened p.path) }
    ensures burdened_path { IfOk result (λ p. IsPathTable cut.now.trace burdens p.burdened_path) }
    ensures profile { IfOk result (λ p. IsProfileOf cut.now.trace burdens p) }
    ensures fault { IfErr result (λ f. IsFaultOf cut.now.trace.records f) }
{
    if cut.trace().sites() > FEW_SITES {
        return profile_in_rounds(rt, alloc, cut, workers, burdens, gate);
    }
    match finer(alloc, cut)? {
        Some(finer) => profile_once(rt, alloc, &finer, workers, burdens, gate),
        None => profile_once(rt, alloc, cut, workers, burdens, gate),
    }
}
