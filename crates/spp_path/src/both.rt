//! The rows of a part of a run on two paths that don't go alike there: one reading of the events of the part for both.

ghost use Rattle.std.specs.Prelude.{◌≡◌, ◌+◌, ◌<◌, ℕ, List, IfOk, IsOk};
ghost use Rattle.spp_event.specs.declared.records.Event.{Event as AnEvent};
ghost use Rattle.spp_frame.specs.Nesting.{AreEvents};
ghost use Rattle.spp_maxplus.specs.declared.state.Burdens.{Burdens};
ghost use Rattle.spp_path.specs.Outside.{HasEntry};
ghost use Rattle.spp_path.specs.Parts.{GoesOn, IsPlaced, IsSettledIn, IsPathShare};

use crate::entered::Entered;
use crate::part::{part_rows, stays_beside};
use crate::rows::PathRows;
use crate::settled::{LiveFrame, Settled};
use crate::spans::OpenSpans;
use crate::trail::Trail;
use spp_cut::Part;
use spp_dag::FrameKind;
use spp_event::{Event, Events, Reader};
use spp_site::{Share, Table};
use spp_stack::Entry;
use std::alloc::{AllocError, Global};

/// The shares of a part in the tables of two paths that were settled, where `entry` has the frames that are open before
/// the part: of each path what [`part_rows`] gives.
///
/// Where a path stays away from the part, that is found out as there, and the time is that of [`part_rows`] for each
/// path. Else the events are read once for both, besides the lighter readings that find out that the paths come to the
/// part: the weights of the open frames are kept once, and what is kept of a path for each. The memory is that for the
/// weights and for what is kept of both paths at once.
///
/// # Errors
///
/// Where an allocation failed.
pub fn both_part_rows(
    alloc: Global,
    part: &Part<'_, '_>,
    entry: Entry<'_>,
    one: &Settled<'_>,
    other: &Settled<'_>,
) -> Result<(Share, Share), AllocError>
    requires stands { (burdens : Burdens) × HasEntry part.now.trace burdens part.now.first entry }
    requires placed { IsPlaced part.now entry one.now }
    requires settled { (burdens : Burdens) × IsSettledIn part.now.trace burdens one.now }
    requires other_placed { IsPlaced part.now entry other.now }
    requires other_settled { (burdens : Burdens) × IsSettledIn part.now.trace burdens other.now }
    ensures share { IfOk result (λ t. (burdens : Burdens) → IsSettledIn part.now.trace burdens one.now → (es : List AnEvent) → AreEvents part.now.trace.records es → IsPathShare es burdens part.now.trace.root part.now.first (part.now.first + part.now.count) t.0) }
    ensures other_share { IfOk result (λ t. (burdens : Burdens) → IsSettledIn part.now.trace burdens other.now → (es : List AnEvent) → AreEvents part.now.trace.records es → IsPathShare es burdens part.now.trace.root part.now.first (part.now.first + part.now.count) t.1) }
{
    let number = part.number() as usize;
    let live = one.live(number);
    let other_live = other.live(number);
    part.keeps_limits();
    if stays_beside(part, live.skipped) {
        let none = Table::new(alloc).into_share();
        return Ok((none, part_rows(alloc, part, entry, other)?));
    }
    if stays_beside(part, other_live.skipped) {
        let none = Table::new(alloc).into_share();
        return Ok((part_rows(alloc, part, entry, one)?, none));
    }
    both_rows_within(
        alloc,
        part,
        entry,
        live,
        one.entered(number),
        other_live,
        other.entered(number),
    )
}

/// What [`both_rows_within`] gives, by a reader that stands at the first event of the part.
///
/// # Errors
///
/// Where an allocation failed.
fn both_rows_by<R: Reader>(
    alloc: Global,
    part: &Part<'_, '_>,
    entry: Entry<'_>,
    live: LiveFrame<'_>,
    entered: &[u32],
    other_live: LiveFrame<'_>,
    other_entered: &[u32],
    mut events: R,
) -> Result<(Share, Share), AllocError>
    requires stands { (burdens : Burdens) × HasEntry part.now.trace burdens part.now.first entry }
    requires goes { (burdens : Burdens) × GoesOn part.now burdens entry live.entry (record { skipped = live.skipped; running = live.running }) entered.now }
    requires other_goes { (burdens : Burdens) × GoesOn part.now burdens entry other_live.entry (record { skipped = other_live.skipped; running = other_live.running }) other_entered.now }
    requires here { R.stands events part.now.trace part.now.first }
    ensures share { IfOk result (λ t. (burdens : Burdens) → GoesOn part.now burdens entry.entry live.entry.entry (record { skipped = live.entry.skipped; running = live.entry.running }) entered.now → (es : List AnEvent) → AreEvents part.now.trace.records es → IsPathShare es burdens part.now.trace.root part.now.first (part.now.first + part.now.count) t.0) }
    ensures other_share { IfOk result (λ t. (burdens : Burdens) → GoesOn part.now burdens entry.entry other_live.entry.entry (record { skipped = other_live.entry.skipped; running = other_live.entry.running }) other_entered.now → (es : List AnEvent) → AreEvents part.now.trace.records es → IsPathShare es burdens part.now.trace.root part.now.first (part.now.first + part.now.count) t.1) }
{
    part.keeps_limits();
    let first = part.first();
    let mut spans = OpenSpans::within(alloc, &entry)?;
    let mut rows = PathRows::within(alloc, &live.entry, Trail::new(live.skipped, live.running))?;
    let mut other_rows = PathRows::within(
        alloc,
        &other_live.entry,
        Trail::new(other_live.skipped, other_live.running),
    )?;
    let mut outside = entry.below();
    let mut outside_path = live.entry.below();
    let mut other_outside = other_live.entry.below();
    let mut left = Entered::new(entered);
    let mut other_left = Entered::new(other_entered);
    for k in 0..part.count() {
        match part.read_known_at(&mut events, k) {
            Event::Strand { count } => {
                spans.strand(count);
                rows.strand(count);
                other_rows.strand(count);
            }
            Event::Call { site, func } => {
                spans.open(FrameKind::Called)?;
                rows.call(site, func)?;
                other_rows.call(site, func)?;
            }
            Event::Spawn { site, func } => {
                spans.open(FrameKind::Spawned)?;
                rows.spawn(left.takes(first + k), site, func)?;
                other_rows.spawn(other_left.takes(first + k), site, func)?;
            }
            Event::Ret => {
                outside = spans.reach(outside)?;
                outside_path = rows.reach(outside_path)?;
                other_outside = other_rows.reach(other_outside)?;
                let span = spans.innermost();
                spans.ret(span);
                rows.ret(span)?;
                other_rows.ret(span)?;
            }
            Event::Sync => {
                spans.sync();
                rows.sync();
                other_rows.sync();
            }
        }
    }
    Ok((rows.suspend()?, other_rows.suspend()?))
}

/// The same, where `live` and `other_live` have those of the open frames that the paths enter, and `entered` and
/// `other_entered` are the spawns in the part of the children that they enter, in order.
///
/// # Errors
///
/// Where an allocation failed.
fn both_rows_within(
    alloc: Global,
    part: &Part<'_, '_>,
    entry: Entry<'_>,
    live: LiveFrame<'_>,
    entered: &[u32],
    other_live: LiveFrame<'_>,
    other_entered: &[u32],
) -> Result<(Share, Share), AllocError>
    requires stands { (burdens : Burdens) × HasEntry part.now.trace burdens part.now.first entry }
    requires goes { (burdens : Burdens) × GoesOn part.now burdens entry live.entry (record { skipped = live.skipped; running = live.running }) entered.now }
    requires other_goes { (burdens : Burdens) × GoesOn part.now burdens entry other_live.entry (record { skipped = other_live.skipped; running = other_live.running }) other_entered.now }
    ensures share { IfOk result (λ t. (burdens : Burdens) → GoesOn part.now burdens entry.entry live.entry.entry (record { skipped = live.entry.skipped; running = live.entry.running }) entered.now → (es : List AnEvent) → AreEvents part.now.trace.records es → IsPathShare es burdens part.now.trace.root part.now.first (part.now.first + part.now.count) t.0) }
    ensures other_share { IfOk result (λ t. (burdens : Burdens) → GoesOn part.now burdens entry.entry other_live.entry.entry (record { skipped = other_live.entry.skipped; running = other_live.entry.running }) other_entered.now → (es : List AnEvent) → AreEvents part.now.trace.records es → IsPathShare es burdens part.now.trace.root part.now.first (part.now.first + part.now.count) t.1) }
{
    match part.events() {
        Events::Records(events) => both_rows_by(
            alloc,
            part,
            entry,
            live,
            entered,
            other_live,
            other_entered,
            events,
        ),
        Events::Items(events) => both_rows_by(
            alloc,
            part,
            entry,
            live,
            entered,
            other_live,
            other_entered,
            events,
        ),
    }
}
