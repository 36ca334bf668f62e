//! Which events of a part of a run are on a path: one reading of the events of the part.

ghost use Rattle.std.specs.Prelude.{◌≡◌, ◌<◌, ◌+◌, ◌&&◌, ◌∷◌, nat_eq, true, false, List, length, IfOk, OnOk};
ghost use Rattle.spp_dag.specs.declared.stack.FrameKind.{FrameKind as KindValue};
ghost use Rattle.spp_dag.specs.declared.stack.FrameKind.TheVariants.{Called, Spawned};
ghost use Rattle.spp_event.specs.declared.records.Event.{Event as AnEvent};
ghost use Rattle.spp_frame.specs.Nesting.{AreEvents};
ghost use Rattle.spp_maxplus.specs.declared.state.Burdens.{Burdens};
ghost use Rattle.spp_path.specs.Marks.{
  AreMarksOf,
  marked,
  with_kind,
  with_trail,
  AreKinds,
  IsBack,
};
ghost use Rattle.spp_path.specs.Outside.{HasEntry};
ghost use Rattle.spp_path.specs.Parts.{GoesOn, IsPlaced, IsSettledIn};
ghost use Rattle.spp_path.specs.Trails.{runs, CanSkip, running_trail, skip_trail, leave_trail};

use crate::entered::Entered;
use crate::settled::{LiveFrame, Settled};
use crate::trail::Trail;
use spp_cut::Part;
use spp_dag::FrameKind;
use spp_event::{Event, Events, Reader};
use spp_stack::Entry;
use std::alloc::{AllocError, Global};

/// The pass, between two events.
#[derive(Drop)]
struct Marking<'e> {
    /// Where the path goes.
    trail: Trail,
    /// How the open frames were entered that the path enters and that were opened in the part, the innermost last.
    kinds: Vec<FrameKind>,
    /// The frames that were open before the part and that the path enters, without those that have returned.
    outside: Option<Entry<'e>>,
}

impl<'e> Marking<'e> {
    /// A call: whether it is on the path.
    fn call(&mut self) -> Result<bool, AllocError>
        requires { CanSkip self.old.trail }
        ensures is { IfOk result (λ on. on ≡ runs self.old.trail) }
        ensures enters { OnOk result (runs self.old.trail ≡ true → marked self.new ≡ with_kind Called (marked self.old)) }
        ensures skips { OnOk result (runs self.old.trail ≡ false → marked self.new ≡ with_trail (skip_trail self.old.trail) (marked self.old)) }
    {
        let on = self.trail.call();
        if on {
            self.kinds.push(FrameKind::Called)?;
        }
        Ok(on)
    }

    /// A spawn of a child that the path enters, or doesn't: whether it is on the path.
    fn spawn(&mut self, entered: bool) -> Result<bool, AllocError>
        requires { CanSkip self.old.trail }
        ensures is { IfOk result (λ on. on ≡ runs self.old.trail) }
        ensures enters { OnOk result ((nat_eq self.old.trail.skipped 0 && entered) ≡ true → marked self.new ≡ with_kind Spawned (with_trail (running_trail true self.old.trail) (marked self.old))) }
        ensures skips { OnOk result ((nat_eq self.old.trail.skipped 0 && entered) ≡ false → marked self.new ≡ with_trail (skip_trail self.old.trail) (marked self.old)) }
    {
        let on = self.trail.runs();
        if self.trail.spawn(entered) {
            self.kinds.push(FrameKind::Spawned)?;
        }
        Ok(on)
    }

    /// A sync: whether it is on the path.
    fn sync(&mut self) -> bool
        ensures is { result ≡ nat_eq self.old.trail.skipped 0 }
        ensures waited { self.old.trail.skipped ≡ 0 → marked self.new ≡ with_trail (running_trail true self.old.trail) (marked self.old) }
        ensures skipped { 0 < self.old.trail.skipped → marked self.new ≡ marked self.old }
    {
        let on = self.trail.enters();
        self.trail.sync();
        on
    }

    /// How the innermost entered frame was entered, which returns.
    fn take(&mut self) -> FrameKind
        ensures trail { self.new.trail ≡ self.old.trail }
        ensures kinds { (kind : KindValue) (rest : List KindValue) → AreKinds (marked self.old) (kind ∷ rest) → (result ≡ kind) × AreKinds (marked self.new) rest }
    {
        if let Some(kind) = self.kinds.pop() {
            return kind;
        }
        let Some(entry) = &self.outside else {
            return FrameKind::Root;
        };
        let kind = entry.innermost().frame.kind;
        self.outside = entry.below();
        kind
    }

    /// A return of a frame that isn't the root: whether it is on the path.
    fn ret(&mut self) -> bool
        ensures is { result ≡ nat_eq self.old.trail.skipped 0 }
        ensures returned { self.old.trail.skipped ≡ 0 → IsBack (marked self.old) (marked self.new) }
        ensures skipped { 0 < self.old.trail.skipped → marked self.new ≡ with_trail (leave_trail self.old.trail) (marked self.old) }
    {
        let on = self.trail.leave();
        if on {
            let kind = self.take();
            self.trail.resume(kind);
        }
        on
    }
}

/// Marks which events of a part are on the path that was settled, where `entry` has the frames that are open before the
/// part: byte `k` is 1 where the part's event `k` is on the path, else 0.
///
/// The events of the part are read once, each in constant time, amortized. A frame that was open before is taken in
/// once it returns. The memory is linear in the number of those frames that are opened in the part, are on the path and
/// are open at a time.
///
/// # Errors
///
/// Where an allocation failed; the bytes may then be any.
pub fn mark_part(
    alloc: Global,
    part: &Part<'_, '_>,
    entry: Entry<'_>,
    settled: &Settled<'_>,
    marks: &mut [u8],
) -> Result<(), AllocError>
    requires stands { (burdens : Burdens) × HasEntry part.now.trace burdens part.now.first entry }
    requires placed { IsPlaced part.now entry settled.now }
    requires settled { (burdens : Burdens) × IsSettledIn part.now.trace burdens settled.now }
    requires buffer { length marks.old ≡ part.now.count }
    ensures length { length marks.new ≡ part.now.count }
    ensures marks { OnOk result ((burdens : Burdens) → IsSettledIn part.now.trace burdens settled.now → (es : List AnEvent) → AreEvents part.now.trace.records es → AreMarksOf es burdens part.now.first marks.new) }
{
    let number = part.number() as usize;
    let LiveFrame {
        entry: live,
        skipped,
        running,
    } = settled.live(number);
    let trail = Trail::new(skipped, running);
    mark_within(
        alloc,
        part,
        entry,
        live,
        trail,
        settled.entered(number),
        marks,
    )
}

/// What [`mark_within`] does, by a reader that stands at the first event of the part.
///
/// # Errors
///
/// Where an allocation failed.
fn mark_by<R: Reader>(
    alloc: Global,
    part: &Part<'_, '_>,
    entry: Entry<'_>,
    live: Entry<'_>,
    trail: Trail,
    entered: &[u32],
    marks: &mut [u8],
    mut events: R,
) -> Result<(), AllocError>
    requires stands { (burdens : Burdens) × HasEntry part.now.trace burdens part.now.first entry }
    requires goes { (burdens : Burdens) × GoesOn part.now burdens entry live trail entered.now }
    requires buffer { length marks.old ≡ part.now.count }
    requires here { R.stands events part.now.trace part.now.first }
    ensures length { length marks.new ≡ part.now.count }
    ensures marks { OnOk result ((burdens : Burdens) → GoesOn part.now burdens entry.entry live.entry trail entered.now → (es : List AnEvent) → AreEvents part.now.trace.records es → AreMarksOf es burdens part.now.first marks.new) }
{
    part.keeps_limits();
    let first = part.first();
    let mut pass = Marking {
        trail,
        kinds: Vec::new(alloc),
        outside: Some(live),
    };
    let mut entered = Entered::new(entered);
    for k in 0..part.count() {
        let on = match part.read_known_at(&mut events, k) {
            Event::Strand { .. } => pass.trail.runs(),
            Event::Call { .. } => pass.call()?,
            Event::Spawn { .. } => pass.spawn(entered.takes(first + k))?,
            Event::Ret => pass.ret(),
            Event::Sync => pass.sync(),
        };
        marks[k as usize] = if on { 1 } else { 0 };
    }
    Ok(())
}

/// What [`mark_part`] does, where `live` has those of the open frames that the path enters, `trail` tells how the path
/// goes on, and `entered` are the spawns in the part of the children that it enters, in order.
///
/// # Errors
///
/// Where an allocation failed.
fn mark_within(
    alloc: Global,
    part: &Part<'_, '_>,
    entry: Entry<'_>,
    live: Entry<'_>,
    trail: Trail,
    entered: &[u32],
    marks: &mut [u8],
) -> Result<(), AllocError>
    requires stands { (burdens : Burdens) × HasEntry part.now.trace burdens part.now.first entry }
    requires goes { (burdens : Burdens) × GoesOn part.now burdens entry live trail entered.now }
    requires buffer { length marks.old ≡ part.now.count }
    ensures length { length marks.new ≡ part.now.count }
    ensures marks { OnOk result ((burdens : Burdens) → GoesOn part.now burdens entry.entry live.entry trail entered.now → (es : List AnEvent) → AreEvents part.now.trace.records es → AreMarksOf es burdens part.now.first marks.new) }
{
    match part.events() {
        Events::Records(events) => {
            mark_by(alloc, part, entry, live, trail, entered, marks, events)
        }
        Events::Items(events) => {
            mark_by(alloc, part, entry, live, trail, entered, marks, events)
        }
    }
}
