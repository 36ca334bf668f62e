//! One reading of the events of a part of a run.

ghost use Rattle.std.specs.Prelude.{◌≡◌, ◌+◌, List, IfOk};
ghost use Rattle.spp_event.specs.declared.records.Event.{Event as AnEvent};
ghost use Rattle.spp_frame.specs.Nesting.{AreEvents};
ghost use Rattle.spp_pass.specs.Outside.{StandsAt};
ghost use Rattle.spp_pass.specs.Shares.{IsPartOf};

use crate::summing::Summing;
use spp_cut::Part;
use spp_dag::{Choices, FrameKind};
use spp_event::{Event, Events, Reader};
use spp_maxplus::Burdens;
use spp_site::Share;
use spp_stack::Entry;
use std::alloc::{AllocError, Global};

/// What a part of a run tells.
#[derive(Drop)]
pub struct PartResult {
    /// Its share in the rows by call site on the run's whole dag: the strands in the part, and the frames that close in
    /// it.
    pub share: Share,
    /// Of the choices that settle the run's paths those in the part, by their positions in the trace.
    pub choices: Choices,
}

/// What [`run_part`] gives, by a reader that stands at the first event of the part.
fn run_by<R: Reader>(
    alloc: Global,
    part: &Part<'_, '_>,
    entry: Entry<'_>,
    burdens: Burdens,
    mut events: R,
) -> Result<PartResult, AllocError>
    requires stands { StandsAt part.now.trace burdens part.now.first entry }
    requires here { R.stands events part.now.trace part.now.first }
    ensures { IfOk result (λ p. (es : List AnEvent) → AreEvents part.now.trace.records es → IsPartOf es burdens part.now.trace.root part.now.first (part.now.first + part.now.count) p.share p.choices) }
{
    part.keeps_limits();
    burdens.are_small();
    let first = part.first();
    let mut summing = Summing::within(alloc, &entry)?;
    let mut outside = entry.below();
    for k in 0..part.count() {
        let at = first + k;
        match part.read_known_at(&mut events, k) {
            Event::Strand { count } => summing.strand(count),
            Event::Call { site, func } => summing.open(FrameKind::Called, at, site, func)?,
            Event::Spawn { site, func } => summing.open(FrameKind::Spawned, at, site, func)?,
            Event::Ret => {
                outside = summing.reach(outside)?;
                summing.ret(at, burdens)?;
            }
            Event::Sync => summing.sync(at)?,
        }
    }
    summing.suspend()
}

/// The share of a part in the table of its run, and the choices in it, where `entry` has the frames that are open
/// before the part under these burdens. The share has no burdens; the choices are those of the path without burdens and
/// of the one under them.
///
/// The events of the part are read once, each in constant time, amortized, besides one step in all for each site and
/// function that is open before the part, and for each number of a site or of a function up to the greatest. A frame of
/// the entry is taken in once all frames above it have returned. The memory is linear in the numbers of frames that are
/// opened in the part or returned to, of spawned children that return in it, of sites and of functions; what it gives
/// takes memory for the rows of its own sites, and for its choices.
///
/// # Errors
///
/// Where an allocation failed.
pub fn run_part(
    alloc: Global,
    part: &Part<'_, '_>,
    entry: Entry<'_>,
    burdens: Burdens,
) -> Result<PartResult, AllocError>
    requires { StandsAt part.now.trace burdens part.now.first entry }
    ensures { IfOk result (λ p. (es : List AnEvent) → AreEvents part.now.trace.records es → IsPartOf es burdens part.now.trace.root part.now.first (part.now.first + part.now.count) p.share p.choices) }
{
    match part.events() {
        Events::Records(events) => run_by(alloc, part, entry, burdens, events),
        Events::Items(events) => run_by(alloc, part, entry, burdens, events),
    }
}
