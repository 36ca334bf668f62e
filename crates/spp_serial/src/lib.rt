//! The profiler that runs on one thread, in one reading of the events.
#![tactic(auto)]

ghost use Rattle.std.specs.Prelude.{◌≡◌, ◌<◌, ◌^◌, IfOk, IfErr};
ghost use Rattle.spp_maxplus.specs.State.{unburdened};
ghost use Rattle.spp_dag.specs.Figures.{AreFigures};
ghost use Rattle.spp_frame.specs.Answers.{IsFaultOf};
ghost use Rattle.spp_frame.specs.declared.profile_fault.ProfileFault.TheVariants.{Bad};
ghost use Rattle.spp_site.specs.Profiles.{IsDagTable, IsPathTable, IsProfileOf};

use spp_dag::FrameKind;
use spp_event::{Event, Events, Reader, Trace};
use spp_frame::{Fault, ProfileFault, Why};
use spp_maxplus::Burdens;
use spp_pass::Counting;
use spp_site::{Profile, Table};
use spp_ways::OpenWays;
use std::alloc::Global;

/// A bad event as what is wrong with a run.
fn bad(at: u32, why: Why) -> ProfileFault
    ensures { result ≡ Bad (record { at = at; why = why }) }
{
    ProfileFault::Bad(Fault { at, why })
}

/// What [`profile_serial`] gives, by a reader that stands at the first event.
fn profile_by<R: Reader>(
    alloc: Global,
    trace: &Trace<'_>,
    burdens: Burdens,
    mut events: R,
) -> Result<Profile, ProfileFault>
    requires here { R.stands events trace.now 0 }
    ensures figures { IfOk result (λ p. AreFigures trace.now.records burdens p.figures) }
    ensures small { IfOk result (λ p. p.figures.work < 2 ^ 92) }
    ensures dag { IfOk result (λ p. IsDagTable trace.now p.dag) }
    ensures path { IfOk result (λ p. IsPathTable trace.now unburdened p.path) }
    ensures burdened_path { IfOk result (λ p. IsPathTable trace.now burdens p.burdened_path) }
    ensures profile { IfOk result (λ p. IsProfileOf trace.now burdens p) }
    ensures fault { IfErr result (λ f. IsFaultOf trace.now.records f) }
{
    burdens.are_small();
    let count = trace.count();
    let mut counting = Counting::new(alloc, trace.root())?;
    let mut ways = OpenWays::new(alloc, trace.sites())?;
    for at in 0..count {
        let event = match events.read(trace, at) {
            Ok(event) => event,
            Err(fault) => return Err(bad(at, Why::Event(fault))),
        };
        match event {
            Event::Strand { count } => {
                counting.strand(count);
                ways.strand(count);
            }
            Event::Call { site, func } => {
                counting.open(FrameKind::Called, at, site, func)?;
                ways.open()?;
            }
            Event::Spawn { site, func } => {
                counting.open(FrameKind::Spawned, at, site, func)?;
                ways.open()?;
            }
            Event::Ret => match counting.ret(burdens)? {
                None => return Err(bad(at, Why::RootReturn)),
                Some(closing) => ways.ret(
                    alloc,
                    closing.kind,
                    closing.takes,
                    closing.wins,
                    closing.site,
                    &closing.closed,
                )?,
            },
            Event::Sync => {
                ways.wait(counting.takes());
                counting.sync();
            }
        }
    }
    let depth = counting.depth();
    if depth > 0 {
        return Err(bad(count, Why::Unclosed { depth }));
    }
    let ended = counting.finish();
    let path = ways.path_table(alloc, false, ended.takes, &ended.root)?;
    let burdened_path = ways.path_table(alloc, true, ended.takes, &ended.root)?;
    Ok(Profile {
        figures: ended.figures,
        dag: ended.dag,
        path,
        burdened_path,
    })
}

/// The profile of a run: its figures under these burdens, and its tables on the whole dag, on the first greatest path
/// (the critical path), and on the first path that is greatest under the burdens. No row bears burdens.
///
/// The events are read once, each in constant time, amortized, behind a step for each site and function. The memory is linear
/// in the numbers of sites and of functions and in that of the frames that are open at a time; for each of these there are,
/// besides, 64 bytes for each frame that it has called or spawned and that has closed, or 128 where a number needs more than 64
/// bits, up to 256 of them or half the number of sites, or else some 256 bytes for each site that its greatest ways enter, or
/// up to some 800 where both paths differ; of all frames together up to 4,096 or four for each site more. The work is below
/// 2^92.
///
/// # Errors
///
/// The first bad event, or `Memory` where an allocation failed.
pub fn profile_serial(
    alloc: Global,
    trace: &Trace<'_>,
    burdens: Burdens,
) -> Result<Profile, ProfileFault>
    ensures figures { IfOk result (λ p. AreFigures trace.now.records burdens p.figures) }
    ensures small { IfOk result (λ p. p.figures.work < 2 ^ 92) }
    ensures dag { IfOk result (λ p. IsDagTable trace.now p.dag) }
    ensures path { IfOk result (λ p. IsPathTable trace.now unburdened p.path) }
    ensures burdened_path { IfOk result (λ p. IsPathTable trace.now burdens p.burdened_path) }
    ensures profile { IfOk result (λ p. IsProfileOf trace.now burdens p) }
    ensures fault { IfErr result (λ f. IsFaultOf trace.now.records f) }
{
    match trace.events() {
        Events::Records(events) => profile_by(alloc, trace, burdens, events),
        Events::Items(events) => profile_by(alloc, trace, burdens, events),
    }
}
