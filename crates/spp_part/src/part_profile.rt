//! What a part of a run comes to.

ghost use Rattle.std.specs.Prelude.{◌≡◌, ◌+◌, ◌≤◌, ◌<◌, ◌^◌, ℕ, suc, length, IfOk, OnOk};
ghost use Rattle.spp_event.specs.Recordings.{Recording};
ghost use Rattle.spp_event.specs.declared.records.Event.{Event as EventValue};
ghost use Rattle.spp_event.specs.declared.records.Event.TheVariants.{Ret as RetEvent, Sync as SyncEvent};
ghost use Rattle.spp_maxplus.specs.declared.state.Burdens.{Burdens as BurdensValue};
ghost use Rattle.spp_pass.specs.Passes.{seen_with, no_notes};
ghost use Rattle.spp_part.specs.Parts.{IsCutOff, IsPartProfile, end_event};
ghost use Rattle.spp_part.specs.Readings.{InBounds, Opens, IsReading, IsAhead};

use crate::stretch::{End, EndedStretch, StoredStretch, Stretch};
use spp_cut::Part;
use spp_dag::FrameKind;
use spp_event::{Event, EventFault, Events, Reader};
use spp_maxplus::Burdens;
use spp_pass::{CallsSoFar, Counting, Popped};
use spp_ways::OpenWays;
use std::alloc::{AllocError, Global};

/// What a part of a run comes to, wherever it stands: what it makes of the profile so far.
#[derive(Drop)]
pub struct PartProfile {
    /// The stretches that have ended, in order.
    pub(crate) ended: Vec<EndedStretch>,
    /// The last stretch, which the part's end or a bad event cuts off.
    pub(crate) last: Stretch,
    /// How many records are events, from the first on.
    pub(crate) good: u32,
    /// What is wrong with the next one, if it is bad.
    pub(crate) fault: Option<EventFault>,
}

/// The reading of a part, between two events.
#[derive(Drop)]
pub(crate) struct Reading {
    ended: Vec<EndedStretch>,
    counting: Counting,
    ways: OpenWays,
    calls: CallsSoFar,
    /// Whether it is known that no child that returned before the stretch waits in its outer frame.
    settled: bool,
}

impl Reading {
    /// Before the first event.
    pub(crate) fn new(alloc: Global) -> Result<Self, AllocError>
        ensures { IfOk result (λ r. (trace : Recording) (burdens : BurdensValue) (first : ℕ) → InBounds trace burdens → first ≤ length trace.records → IsReading trace burdens first 0 r) }
    {
        Ok(Reading {
            ended: Vec::new(alloc),
            counting: Counting::stretch(alloc)?,
            ways: OpenWays::stretch(alloc)?,
            calls: CallsSoFar::new(alloc),
            settled: false,
        })
    }

    /// The event at `at`, counted from the first of the part.
    #[inline(always)]
    pub(crate) fn read(
        &mut self,
        alloc: Global,
        burdens: Burdens,
        at: u32,
        event: Event,
    ) -> Result<(), AllocError>
        requires { (trace : Recording) × (first : ℕ) × IsAhead trace burdens first at event self.old }
        ensures { OnOk result ((trace : Recording) (first : ℕ) → IsAhead trace burdens first at event self.old → IsReading trace burdens first (suc at) self.new) }
    {
        match event {
            Event::Strand { count } => {
                self.counting.strand(count);
                self.ways.strand(count);
            }
            Event::Call { site, func } => self.open(FrameKind::Called, at, site, func)?,
            Event::Spawn { site, func } => self.open(FrameKind::Spawned, at, site, func)?,
            Event::Ret => self.ret(alloc, burdens, at)?,
            Event::Sync => self.sync(alloc, at)?,
        }
        Ok(())
    }

    /// A call or a spawn.
    #[inline(always)]
    fn open(&mut self, kind: FrameKind, at: u32, site: u32, func: u32) -> Result<(), AllocError>
        requires { (trace : Recording) × (burdens : BurdensValue) × (first : ℕ) × (event : EventValue) × Opens kind site func event × IsAhead trace burdens first at event self.old }
        ensures { OnOk result ((trace : Recording) (burdens : BurdensValue) (first : ℕ) (event : EventValue) → Opens kind site func event → IsAhead trace burdens first at event self.old → IsReading trace burdens first (suc at) self.new) }
    {
        self.counting.open(kind, at, site, func)?;
        self.ways.open()?;
        Ok(())
    }

    /// A return.
    #[inline(always)]
    fn ret(&mut self, alloc: Global, burdens: Burdens, at: u32) -> Result<(), AllocError>
        requires { (trace : Recording) × (first : ℕ) × IsAhead trace burdens first at RetEvent self.old }
        ensures { OnOk result ((trace : Recording) (first : ℕ) → IsAhead trace burdens first at RetEvent self.old → IsReading trace burdens first (suc at) self.new) }
    {
        let Some(popped) = self.counting.pop(burdens) else {
            return self.end(alloc, at, End::Return);
        };
        let Popped { closing, caller } = popped;
        self.calls.add(closing.site, caller, &closing.closed)?;
        self.ways.pop(
            closing.kind,
            closing.takes,
            closing.wins,
            closing.site,
            caller,
            &closing.closed,
        )?;
        Ok(())
    }

    /// A sync.
    #[inline(always)]
    fn sync(&mut self, alloc: Global, at: u32) -> Result<(), AllocError>
        requires { (trace : Recording) × (burdens : BurdensValue) × (first : ℕ) × IsAhead trace burdens first at SyncEvent self.old }
        ensures { OnOk result ((trace : Recording) (burdens : BurdensValue) (first : ℕ) → IsAhead trace burdens first at SyncEvent self.old → IsReading trace burdens first (suc at) self.new) }
    {
        if self.counting.depth() == 0 && !self.settled {
            return self.end(alloc, at, End::Sync);
        }
        let takes = self.counting.takes();
        self.counting.sync();
        self.ways.wait(takes);
        Ok(())
    }

    /// The end of a stretch, and the next one's beginning.
    #[inline(never)]
    fn end(&mut self, alloc: Global, at: u32, end: End) -> Result<(), AllocError>
        requires is { (trace : Recording) × (burdens : BurdensValue) × (first : ℕ) × IsAhead trace burdens first at (end_event end) self.old }
        requires one { length (seen_with self.old.counting no_notes).frames ≡ 1 }
        ensures { OnOk result ((trace : Recording) (burdens : BurdensValue) (first : ℕ) → IsAhead trace burdens first at (end_event end) self.old → IsReading trace burdens first (suc at) self.new) }
    {
        let counted = self.counting.next_stretch(alloc);
        let logged = self.ways.next_stretch(alloc)?.pruned(alloc)?;
        let calls = self.calls.take(alloc);
        let stored = StoredStretch::of(
            alloc,
            Stretch {
                counted,
                calls,
                logged,
            },
        )?;
        self.ended.push(EndedStretch { stored, at, end })?;
        self.settled = match end {
            End::Return => false,
            End::Sync => true,
        };
        Ok(())
    }

    /// What the part comes to of which so many events were good.
    ///
    /// # Errors
    ///
    /// Where an allocation failed.
    pub(crate) fn finish(
        self,
        alloc: Global,
        good: u32,
        fault: Option<EventFault>,
    ) -> Result<PartProfile, AllocError>
        requires is { (trace : Recording) × (burdens : BurdensValue) × (first : ℕ) × IsReading trace burdens first good self }
        requires few { good ≤ 2 ^ 28 }
        ensures { IfOk result (λ p. (trace : Recording) (burdens : BurdensValue) (first count : ℕ) → IsReading trace burdens first good self → IsCutOff trace first count good fault → first + count ≤ length trace.records → IsPartProfile trace burdens first count p) }
    {
        let Reading {
            ended,
            counting,
            ways,
            calls,
            ..
        } = self;
        let logged = ways.into_stretch().pruned(alloc)?;
        Ok(PartProfile {
            ended,
            last: Stretch {
                counted: counting.into_stretch(),
                calls: calls.into_calls(),
                logged,
            },
            good,
            fault,
        })
    }
}

/// In a deep part so many stretches have ended, and frames are left open, together, or more.
const DEEP_FRAMES: usize = 1024;

/// And they are at least one for so many of its events.
const EVENTS_OF_A_FRAME: usize = 8;

/// Fewer rows than that, of calls and of ways, are soon joined.
const MANY_ROWS: usize = 8192;

/// A row is joined in about the time in which so many events are read.
const EVENTS_OF_A_ROW: usize = 2;

impl PartProfile {
    /// Whether so many of its stretches have ended, and so many frames are left open, that to join the part takes about as long as
    /// to read its events. No clause says when it is so: answers don't depend on it.
    pub fn is_deep(&self) -> bool {
        let frames = self
            .ended
            .len()
            .saturating_add(self.last.counted.open_frames());
        frames >= DEEP_FRAMES && frames >= self.good as usize / EVENTS_OF_A_FRAME
    }

    /// Whether to join the part takes about as long as to read its events: it is deep, or its last stretch has one row, or frame of
    /// its own, for two events, as where a frame calls by many sites in turn. No clause says when: answers don't depend on it.
    pub fn joins_slowly(&self) -> bool {
        let rows = self
            .last
            .calls
            .len()
            .saturating_add(self.last.logged.rows());
        self.is_deep() || (rows >= MANY_ROWS && rows >= self.good as usize / EVENTS_OF_A_ROW)
    }

    /// What a part comes to, by a reader that stands at its first event.
    fn of_part_by<R: Reader>(
        alloc: Global,
        part: &Part<'_, '_>,
        burdens: Burdens,
        mut events: R,
    ) -> Result<Self, AllocError>
        requires { R.stands events part.now.trace part.now.first }
        ensures { IfOk result (λ p. IsPartProfile part.now.trace burdens part.now.first part.now.count p) }
    {
        burdens.are_small();
        part.keeps_limits();
        let mut reading = Reading::new(alloc)?;
        for at in 0..part.count() {
            match part.read_at(&mut events, at) {
                Ok(event) => reading.read(alloc, burdens, at, event)?,
                Err(fault) => return reading.finish(alloc, at, Some(fault)),
            }
        }
        reading.finish(alloc, part.count(), None)
    }

    /// What a part comes to that has no events.
    fn of_none(alloc: Global, part: &Part<'_, '_>, burdens: Burdens) -> Result<Self, AllocError>
        requires { part.now.count ≡ 0 }
        ensures { IfOk result (λ p. IsPartProfile part.now.trace burdens part.now.first part.now.count p) }
    {
        burdens.are_small();
        part.keeps_limits();
        let reading = Reading::new(alloc)?;
        reading.finish(alloc, 0, None)
    }

    /// What a part comes to under these burdens: its events are read once, up to the first record that is no event; a return of
    /// the root frame shows where the part is joined. It takes constant time for each event, amortized, besides a step for each
    /// number of a site and of a function up to the greatest in the part.
    ///
    /// For each of its stretches it takes 128 bytes for each pair of a call site and a function that calls by it. Where these are
    /// thousands, each frame that closes in the part, was opened there and is in no row takes 40 instead, or 128 where a number
    /// needs more than 64 bits. It takes 64, or 128 in the same case, for each of these frames that a way into a frame still open
    /// at the stretch's end enters, on either path; until then, and where these are few, for each that was on a greatest way as it
    /// returned. A stretch ends at each return of a frame that was open before, and at the first sync of such a frame: each takes
    /// 24 bytes, and 370 to 490 more if it isn't strands alone. Each frame that the part leaves open takes 224. All that is up to
    /// twice as much with spare room, and more where stretches have few rows. While the part is read, some 50 bytes more are taken
    /// for each pair, and 32 KB at most.
    ///
    /// # Errors
    ///
    /// Where an allocation failed.
    pub fn of_part(alloc: Global, part: &Part<'_, '_>, burdens: Burdens) -> Result<Self, AllocError>
        ensures { IfOk result (λ p. IsPartProfile part.now.trace burdens part.now.first part.now.count p) }
    {
        // A part without events walks to none: many of these can stand behind one long item.
        if part.count() == 0 {
            return PartProfile::of_none(alloc, part, burdens);
        }
        match part.events() {
            Events::Records(events) => PartProfile::of_part_by(alloc, part, burdens, events),
            Events::Items(events) => PartProfile::of_part_by(alloc, part, burdens, events),
        }
    }
}
