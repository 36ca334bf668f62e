//! A summary while its events are read: what each of them does to it.
ghost use Rattle.std.specs.Prelude.{◌≡◌, ◌+◌, ◌-◌, ◌<◌, ◌≤◌, ◌^◌, ℕ, true, false, [], ◌∷◌, reverse, None, Ok, OnOk, IfOk};
ghost use Rattle.spp_cut.specs.Parts.{records_in};
ghost use Rattle.spp_maxplus.specs.declared.state.Burdens.{Burdens as BurdensValue};
ghost use Rattle.spp_maxplus.specs.declared.child.ChildKind.TheVariants.{Called as AsCalled};
ghost use Rattle.spp_piece.specs.Bound.{worst, IsSmall};
ghost use Rattle.spp_piece.specs.Pair.{strand as both_strand, sync as both_sync};
ghost use Rattle.spp_summary.specs.Storage.{seen, open_load, IsLaid as IsStorageLaid};
ghost use Rattle.spp_summary.specs.Reading.{so_far, so_far_with, IsLaid};
ghost use Rattle.spp_summary.specs.KeptFrames.{AreLaid};
ghost use Rattle.spp_piece.specs.Summary.{along_by, ret_by, pushed, working, summary_ops, summary_of, empty as no_events};
ghost use Rattle.spp_piece.specs.Machine.{event, entered as entered_at};

use crate::opens::{Kept, Open, keep, leave};
use crate::returns::Returns;
use crate::storage::Storage;
use spp_cut::Part;
use spp_event::{Event, EventFault, Events, Reader};
use spp_maxplus::{Burdens, ChildKind};
use spp_piece::Segs;
use std::alloc::{AllocError, Global};
use std::collections::VecDeque;

/// The parts of a summary. A strand changes the work alone: what has run since a frame was last changed is told by
/// counts.
#[derive(Drop)]
pub(crate) struct Reading {
    /// The unmatched returns, in order.
    pub(crate) returns: Returns,
    /// The open frames, the outermost first.
    pub(crate) opens: Vec<Open>,
    /// The states of those frames that have kept ones, in the same order.
    pub(crate) states: Vec<Kept>,
    /// What the events after the last unmatched return and up to the work `since` do to the frame that is then the
    /// innermost.
    pub(crate) middle: Segs,
    /// The work where `middle` ends. What has run since then, up to where the outermost open frame was opened or to the
    /// end, follows as one strand.
    pub(crate) since: u128,
    /// The work since the innermost open frame was opened, or from the beginning.
    pub(crate) run: u128,
    /// The work before that.
    pub(crate) before: u128,
    /// The first bad record.
    pub(crate) fault: Option<(u32, EventFault)>,
}

impl Reading {
    /// No events.
    pub(crate) fn new(alloc: Global) -> Self
        ensures value { so_far result ≡ no_events }
        ensures laid { IsLaid result }
    {
        Reading {
            returns: Returns::new(alloc),
            opens: Vec::new(alloc),
            states: Vec::new(alloc),
            middle: Segs::idle(),
            since: 0,
            run: 0,
            before: 0,
            fault: None,
        }
    }

    /// A strand.
    #[inline(always)]
    pub(crate) fn strand(&mut self, count: u64)
        requires laid { IsLaid self.old }
        requires work { self.old.run + count < 2 ^ 128 }
        ensures value { so_far self.new ≡ working count (along_by (so_far self.old).frames (both_strand count) (so_far self.old)) }
        ensures laid { IsLaid self.new }
        ensures fault { self.new.fault ≡ self.old.fault }
    {
        self.run += u128::from(count);
    }

    /// Opens a frame.
    #[inline(always)]
    pub(crate) fn open(
        &mut self,
        kind: ChildKind,
        at: u32,
        site: u32,
        func: u32,
    ) -> Result<(), AllocError>
        requires laid { IsLaid self.old }
        requires work { self.old.before + self.old.run < 2 ^ 128 }
        ensures value { OnOk result (so_far self.new ≡ pushed (entered_at kind at site func) (so_far self.old)) }
        ensures laid { OnOk result (IsLaid self.new) }
        ensures fault { self.new.fault ≡ self.old.fault }
    {
        self.opens.push(Open {
            gap: self.run,
            at,
            site,
            func,
            kind,
            kept: false,
        })?;
        self.before += self.run;
        self.run = 0;
        Ok(())
    }

    /// A return.
    #[inline(always)]
    pub(crate) fn ret(&mut self, burdens: Burdens, at: u32) -> Result<(), AllocError>
        requires laid { IsLaid self.old }
        requires work { self.old.before + self.old.run < 2 ^ 128 }
        requires load { open_load (so_far self.old) + worst burdens < 2 ^ 127 }
        ensures value { OnOk result (so_far self.new ≡ ret_by (so_far self.old).frames burdens at (so_far self.old)) }
        ensures laid { OnOk result (IsLaid self.new) }
        ensures fault { self.new.fault ≡ self.old.fault }
    {
        let Some(child) = self.opens.pop() else {
            return self.unmatched(at);
        };
        if child.kept || child.kind == ChildKind::Spawned {
            return self.feed(burdens, &child);
        }
        self.skip(&child);
        Ok(())
    }

    /// A return with no frame open.
    #[inline(never)]
    fn unmatched(&mut self, at: u32) -> Result<(), AllocError>
        requires none { self.old.opens.items ≡ [] }
        requires laid { IsLaid self.old }
        requires load { open_load (so_far self.old) < 2 ^ 127 }
        ensures value { (burdens : BurdensValue) → OnOk result (so_far self.new ≡ ret_by [] burdens at (so_far self.old)) }
        ensures laid { OnOk result (IsLaid self.new) }
        ensures fault { self.new.fault ≡ self.old.fault }
    {
        self.middle.run(self.run - self.since);
        self.returns.push(&self.middle, at)?;
        self.middle = Segs::idle();
        self.since = self.run;
        Ok(())
    }

    /// A called frame that is open no longer, and has no kept states, returns to the one below, whose strand goes on.
    #[inline(always)]
    fn skip(&mut self, child: &Open)
        requires called { child.now.kind ≡ AsCalled }
        requires plain { child.now.kept ≡ false }
        requires laid { AreLaid self.old.run self.old.before (child.now ∷ reverse self.old.opens.items) (reverse self.old.states.items) self.old.since }
        requires work { self.old.before + self.old.run < 2 ^ 128 }
        requires load { open_load (so_far_with child.now self.old) < 2 ^ 127 }
        ensures value { (burdens : BurdensValue) (at : ℕ) → so_far self.new ≡ ret_by (so_far_with child.now self.old).frames burdens at (so_far_with child.now self.old) }
        ensures laid { IsLaid self.new }
        ensures fault { self.new.fault ≡ self.old.fault }
    {
        self.run += child.gap;
        self.before -= child.gap;
    }

    /// A frame that is open no longer returns to the one below.
    #[inline(always)]
    fn feed(&mut self, burdens: Burdens, child: &Open) -> Result<(), AllocError>
        requires laid { AreLaid self.old.run self.old.before (child.now ∷ reverse self.old.opens.items) (reverse self.old.states.items) self.old.since }
        requires work { self.old.before + self.old.run < 2 ^ 128 }
        requires load { open_load (so_far_with child.now self.old) + worst burdens < 2 ^ 127 }
        ensures value { (at : ℕ) → OnOk result (so_far self.new ≡ ret_by (so_far_with child.now self.old).frames burdens at (so_far_with child.now self.old)) }
        ensures laid { OnOk result (IsLaid self.new) }
        ensures fault { self.new.fault ≡ self.old.fault }
    {
        let weights = leave(&mut self.states, child, self.run);
        self.run += child.gap;
        self.before -= child.gap;
        let Some(top) = self.opens.last_mut() else {
            let run = child.gap - self.since;
            self.middle
                .receive(run, child.kind, child.at, burdens, weights);
            self.since = self.run;
            return Ok(());
        };
        keep(&mut self.states, top)?;
        let last = self.states.len() - 1;
        let kept = &mut self.states[last];
        let run = child.gap - kept.counted;
        kept.states
            .receive(run, child.kind, child.at, burdens, weights);
        kept.counted = self.run;
        Ok(())
    }

    /// A sync.
    #[inline(always)]
    pub(crate) fn sync(&mut self)
        requires laid { IsLaid self.old }
        requires load { open_load (so_far self.old) < 2 ^ 127 }
        ensures value { so_far self.new ≡ along_by (so_far self.old).frames both_sync (so_far self.old) }
        ensures laid { IsLaid self.new }
        ensures fault { self.new.fault ≡ self.old.fault }
    {
        match self.opens.last() {
            None => {
                self.middle.run(self.run - self.since);
                self.middle.wait();
                self.since = self.run;
            }
            Some(top) => {
                if top.kept {
                    let last = self.states.len() - 1;
                    let kept = &mut self.states[last];
                    kept.states.run(self.run - kept.counted);
                    kept.states.wait();
                    kept.counted = self.run;
                }
            }
        }
    }

    /// Reads one event.
    #[inline(always)]
    pub(crate) fn read(&mut self, burdens: Burdens, at: u32, item: Event) -> Result<(), AllocError>
        requires sound { self.old.fault ≡ None }
        requires laid { IsLaid self.old }
        requires work { self.old.before + self.old.run + 2 ^ 64 < 2 ^ 128 }
        requires load { open_load (so_far self.old) + worst burdens < 2 ^ 127 }
        ensures value { OnOk result (so_far self.new ≡ event (summary_ops burdens) at (Ok item) (so_far self.old)) }
        ensures sound { OnOk result (self.new.fault ≡ None) }
        ensures laid { OnOk result (IsLaid self.new) }
    {
        match item {
            Event::Strand { count } => self.strand(count),
            Event::Call { site, func } => self.open(ChildKind::Called, at, site, func)?,
            Event::Spawn { site, func } => self.open(ChildKind::Spawned, at, site, func)?,
            Event::Ret => self.ret(burdens, at)?,
            Event::Sync => self.sync(),
        }
        Ok(())
    }

    /// What [`Reading::of_part`] reads, by a reader that stands at the first event of the part.
    fn of_part_by<R: Reader>(
        alloc: Global,
        part: &Part<'_, '_>,
        burdens: Burdens,
        mut reader: R,
    ) -> Result<Reading, AllocError>
        requires here { R.stands reader part.now.trace part.now.first }
        ensures value { IfOk result (λ r. so_far r ≡ summary_of burdens part.now.first (records_in part.now)) }
        ensures laid { IfOk result (λ r. IsLaid r) }
        ensures small { IfOk result (λ r. IsSmall burdens part.now.count (so_far r)) }
    {
        part.keeps_limits();
        // A value of its own, whose fields need no new look while the lists are written.
        let own = part.again();
        let first = part.first();
        let events = part.count();
        let mut reading = Reading::new(alloc);
        for k in 0..events {
            match own.read_at(&mut reader, k) {
                Ok(event) => reading.read(burdens, first + k, event)?,
                Err(why) => {
                    reading.fault = Some((first + k, why));
                    return Ok(reading);
                }
            }
        }
        Ok(reading)
    }

    /// Reads the events of a part, up to the first bad record.
    ///
    /// # Errors
    ///
    /// Where an allocation failed.
    pub(crate) fn of_part(
        alloc: Global,
        part: &Part<'_, '_>,
        burdens: Burdens,
    ) -> Result<Reading, AllocError>
        ensures value { IfOk result (λ r. so_far r ≡ summary_of burdens part.now.first (records_in part.now)) }
        ensures laid { IfOk result (λ r. IsLaid r) }
        ensures small { IfOk result (λ r. IsSmall burdens part.now.count (so_far r)) }
    {
        // A part without events walks to none: many of these can stand behind one long item.
        if part.count() == 0 {
            return Ok(Reading::new(alloc));
        }
        match part.events() {
            Events::Records(reader) => Reading::of_part_by(alloc, part, burdens, reader),
            Events::Items(reader) => Reading::of_part_by(alloc, part, burdens, reader),
        }
    }

    /// What was read.
    pub(crate) fn finish(self) -> Storage
        requires { IsLaid self }
        ensures value { seen result ≡ so_far self }
        ensures laid { IsStorageLaid result }
    {
        Storage {
            returns: self.returns,
            opens: VecDeque::from_vec(self.opens),
            states: VecDeque::from_vec(self.states),
            middle: self.middle,
            since: self.since,
            run: self.run,
            before: self.before,
            fault: self.fault,
        }
    }
}
