//! The whole profile of a run, made by workers who read each event once.

ghost use Rattle.std.specs.Prelude.{◌≡◌, ◌<◌, ◌≤◌, ◌^◌, IfOk, IfErr};
ghost use Rattle.spp_dag.specs.Figures.{AreFigures};
ghost use Rattle.spp_frame.specs.Answers.{IsFaultOf};
ghost use Rattle.spp_maxplus.specs.State.{unburdened};
ghost use Rattle.spp_site.specs.Profiles.{IsDagTable, IsPathTable, IsProfileOf};

use crate::gate::{Gate, Round};
use crate::round::run_round;
use spp_cut::Cut;
use spp_frame::ProfileFault;
use spp_jobs::{ProfileJob, ProfilePiece};
use spp_maxplus::Burdens;
use spp_site::Profile;
use std::alloc::Global;
use std::sync::Wait;
use std::thread::Threads;

/// The profile of a run, as [`profile`] gives it, in one round: it is made by so many workers, 1 to 64, each on a thread of its
/// own but one, who draw the parts of the cut trace. How many workers there are, which of them draws which part, and in which
/// order the parts are done doesn't show in the profile. The gate is called in the round [`Round::Profile`] before a part is
/// read.
///
/// Each event is read once: a worker finds what a part comes to by itself, in constant time for each event, amortized,
/// besides, for each part, a step for each number of a site and of a function up to the greatest in it. What the parts come to
/// is joined onto the profile so far one part after the other, under the lock of the desk's book, in constant time, amortized,
/// for each frame that the part leaves open, for each that closes there and was open before, for each row of calls of each of
/// its stretches, and for each frame that a greatest way into one of these enters. What a part comes to is kept until all parts
/// before it are done: the memory is that of [`PartProfile::of_part`] for parts that wait, at worst all but the first, and that
/// of `profile_serial`, with 64 bytes more, or 128 where a number needs more than 64 bits, or up to twice that, for each frame
/// that such ways enter in the part that has most of them; a thread has a stack of its own besides. The work is below 2^92.
///
/// [`profile`]: crate::profile
/// [`PartProfile::of_part`]: spp_part::PartProfile::of_part
///
/// # Errors
///
/// The first bad event, or `Memory` where an allocation failed. A thread that can't be started is no error: the thread
/// that was to start it does its share.
pub fn profile_once<R: Threads + Wait + Sync, G: Gate>(
    rt: &R,
    alloc: Global,
    cut: &Cut<'_, '_>,
    workers: u32,
    burdens: Burdens,
    gate: &G,
) -> Result<Profile, ProfileFault>
    requires some { 0 < workers }
    requires most { workers ≤ 64 }
    ensures figures { IfOk result (λ p. AreFigures cut.now.trace.records burdens p.figures) }
    ensures small { IfOk result (λ p. p.figures.work < 2 ^ 92) }
    ensures dag { IfOk result (λ p. IsDagTable cut.now.trace p.dag) }
    ensures path { IfOk result (λ p. IsPathTable cut.now.trace unburdened p.path) }
    ensures burdened_path { IfOk result (λ p. IsPathTable cut.now.trace burdens p.burdened_path) }
    ensures profile { IfOk result (λ p. IsProfileOf cut.now.trace burdens p) }
    ensures fault { IfErr result (λ f. IsFaultOf cut.now.trace.records f) }
{
    // Called for its contract alone: the parts hold all events.
    let _parts = cut.parts();
    let job = ProfileJob::new(cut, burdens);
    match run_round(rt, alloc, &job, workers, Round::Profile, gate)? {
        ProfilePiece::Begun { so_far, .. } => so_far.finish(alloc),
        ProfilePiece::Bad(fault) => Err(ProfileFault::Bad(fault)),
        // All parts begin with the first.
        ProfilePiece::Later(_) => unreachable!(),
        ProfilePiece::Spent => Err(ProfileFault::Memory),
    }
}
