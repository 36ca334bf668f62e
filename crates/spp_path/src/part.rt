//! The rows of a part of a run on a path: one reading of the events of the part, behind a lighter one that finds out
//! whether the path comes to the part at all.

ghost use Rattle.std.specs.Prelude.{◌≡◌, ◌+◌, ◌<◌, ◌↔◌, ℕ, List, IfOk, IsOk, IsTrue};
ghost use Rattle.spp_event.specs.declared.records.Event.{Event as AnEvent};
ghost use Rattle.spp_event.specs.Recordings.{record_at};
ghost use Rattle.spp_frame.specs.Nesting.{AreEvents};
ghost use Rattle.spp_maxplus.specs.declared.state.Burdens.{Burdens};
ghost use Rattle.spp_path.specs.Outside.{HasEntry};
ghost use Rattle.spp_path.specs.Alike.{GoAlike};
ghost use Rattle.spp_path.specs.Beside.{StaysBeside};
ghost use Rattle.spp_path.specs.Parts.{GoesOn, IsPlaced, IsSettledIn, IsPathShare};
ghost use Rattle.spp_path.specs.Settled.{PathOf};

use crate::entered::Entered;
use crate::rows::PathRows;
use crate::settled::{LiveFrame, Settled};
use crate::spans::OpenSpans;
use crate::trail::Trail;
use spp_cut::Part;
use spp_dag::FrameKind;
use spp_event::{Event, Events, Reader};
use spp_site::{Share, Table};
use spp_stack::Entry;
use std::alloc::{AllocError, Global};

/// The share of a part in the table of a path that was settled, where `entry` has the frames that are open before the
/// part: the path's strands in the part, and its frames that close there.
///
/// Where the innermost open frame is one that the path doesn't enter, the events are first read for the number of such
/// frames alone, up to the return that leaves none open. Where there is no such return the share has no rows, and took
/// no memory. Else the events of the part are read once, each in constant time, amortized, besides one step in all for
/// each site and function that is open before the part, and for each number of a site or of a function up to the
/// greatest. A frame that was open before is taken in once all frames above it have returned. The memory is linear in
/// the numbers of frames that are opened in the part or returned to, of sites and of functions; what it gives takes
/// memory for the rows of its own sites.
///
/// # Errors
///
/// Where an allocation failed.
pub fn part_rows(
    alloc: Global,
    part: &Part<'_, '_>,
    entry: Entry<'_>,
    settled: &Settled<'_>,
) -> Result<Share, AllocError>
    requires stands { (burdens : Burdens) × HasEntry part.now.trace burdens part.now.first entry }
    requires placed { IsPlaced part.now entry settled.now }
    requires settled { (burdens : Burdens) × IsSettledIn part.now.trace burdens settled.now }
    ensures share { IfOk result (λ t. (burdens : Burdens) → IsSettledIn part.now.trace burdens settled.now → (es : List AnEvent) → AreEvents part.now.trace.records es → IsPathShare es burdens part.now.trace.root part.now.first (part.now.first + part.now.count) t) }
    ensures alike { IfOk result (λ t. (burdens : Burdens) (other : PathOf) → GoAlike part.now.number settled.now other → IsSettledIn part.now.trace burdens other → (es : List AnEvent) → AreEvents part.now.trace.records es → IsPathShare es burdens part.now.trace.root part.now.first (part.now.first + part.now.count) t) }
{
    let number = part.number() as usize;
    let LiveFrame {
        entry: live,
        skipped,
        running,
    } = settled.live(number);
    part.keeps_limits();
    if stays_beside(part, skipped) {
        return Ok(Table::new(alloc).into_share());
    }
    let trail = Trail::new(skipped, running);
    rows_within(alloc, part, entry, live, trail, settled.entered(number))
}

/// What [`stays_beside`] tells, by a reader that stands at the first event of the part.
fn stays_beside_by<R: Reader>(part: &Part<'_, '_>, skipped: u32, mut events: R) -> bool
    requires good { (k : ℕ) → k < part.now.count → IsOk (record_at part.now.trace.records (part.now.first + k)) }
    requires here { R.stands events part.now.trace part.now.first }
    ensures { IsTrue result ↔ StaysBeside part.now skipped }
{
    let mut open = u64::from(skipped);
    if open == 0 {
        return false;
    }
    for k in 0..part.count() {
        match part.read_known_at(&mut events, k) {
            Event::Call { .. } | Event::Spawn { .. } => open += 1,
            Event::Ret => {
                open -= 1;
                if open == 0 {
                    return false;
                }
            }
            Event::Strand { .. } | Event::Sync => {}
        }
    }
    true
}

/// Whether the path stays away from the part: `skipped` frames are open within the innermost one that it enters where
/// the part begins, and the part doesn't return out of all of them. The events are read up to the return that does,
/// each in constant time and without memory.
pub(crate) fn stays_beside(part: &Part<'_, '_>, skipped: u32) -> bool
    requires { (k : ℕ) → k < part.now.count → IsOk (record_at part.now.trace.records (part.now.first + k)) }
    ensures { IsTrue result ↔ StaysBeside part.now skipped }
{
    match part.events() {
        Events::Records(events) => stays_beside_by(part, skipped, events),
        Events::Items(events) => stays_beside_by(part, skipped, events),
    }
}

/// What [`rows_within`] gives, by a reader that stands at the first event of the part.
///
/// # Errors
///
/// Where an allocation failed.
fn rows_by<R: Reader>(
    alloc: Global,
    part: &Part<'_, '_>,
    entry: Entry<'_>,
    live: Entry<'_>,
    trail: Trail,
    entered: &[u32],
    mut events: R,
) -> Result<Share, AllocError>
    requires stands { (burdens : Burdens) × HasEntry part.now.trace burdens part.now.first entry }
    requires goes { (burdens : Burdens) × GoesOn part.now burdens entry live trail entered.now }
    requires here { R.stands events part.now.trace part.now.first }
    ensures { IfOk result (λ t. (burdens : Burdens) → GoesOn part.now burdens entry.entry live.entry trail entered.now → (es : List AnEvent) → AreEvents part.now.trace.records es → IsPathShare es burdens part.now.trace.root part.now.first (part.now.first + part.now.count) t) }
{
    part.keeps_limits();
    let first = part.first();
    let mut spans = OpenSpans::within(alloc, &entry)?;
    let mut rows = PathRows::within(alloc, &live, trail)?;
    let mut outside = entry.below();
    let mut outside_path = live.below();
    let mut entered = Entered::new(entered);
    for k in 0..part.count() {
        match part.read_known_at(&mut events, k) {
            Event::Strand { count } => {
                spans.strand(count);
                rows.strand(count);
            }
            Event::Call { site, func } => {
                spans.open(FrameKind::Called)?;
                rows.call(site, func)?;
            }
            Event::Spawn { site, func } => {
                spans.open(FrameKind::Spawned)?;
                rows.spawn(entered.takes(first + k), site, func)?;
            }
            Event::Ret => {
                outside = spans.reach(outside)?;
                outside_path = rows.reach(outside_path)?;
                let span = spans.innermost();
                spans.ret(span);
                rows.ret(span)?;
            }
            Event::Sync => {
                spans.sync();
                rows.sync();
            }
        }
    }
    rows.suspend()
}

/// What [`part_rows`] gives, where `live` has those of the open frames that the path enters, `trail` tells how the path
/// goes on, and `entered` are the spawns in the part of the children that it enters, in order.
///
/// # Errors
///
/// Where an allocation failed.
fn rows_within(
    alloc: Global,
    part: &Part<'_, '_>,
    entry: Entry<'_>,
    live: Entry<'_>,
    trail: Trail,
    entered: &[u32],
) -> Result<Share, AllocError>
    requires stands { (burdens : Burdens) × HasEntry part.now.trace burdens part.now.first entry }
    requires goes { (burdens : Burdens) × GoesOn part.now burdens entry live trail entered.now }
    ensures { IfOk result (λ t. (burdens : Burdens) → GoesOn part.now burdens entry.entry live.entry trail entered.now → (es : List AnEvent) → AreEvents part.now.trace.records es → IsPathShare es burdens part.now.trace.root part.now.first (part.now.first + part.now.count) t) }
{
    match part.events() {
        Events::Records(events) => rows_by(alloc, part, entry, live, trail, entered, events),
        Events::Items(events) => rows_by(alloc, part, entry, live, trail, entered, events),
    }
}
