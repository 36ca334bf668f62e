//! The profile of a run so far.

ghost use Rattle.std.specs.Prelude.{◌≡◌, suc, ◌+◌, ◌≤◌, ◌<◌, ◌^◌, ℕ, Bool, true, false, length, Option, Err, OnOk, IfOk, IfErr, OnErr};
ghost use Rattle.spp_event.specs.Recordings.{Recording, InLimits, AreEventsOf, record_at};
ghost use Rattle.spp_maxplus.specs.declared.state.Burdens.{Burdens as BurdensValue};
ghost use Rattle.spp_maxplus.specs.State.{unburdened};
ghost use Rattle.spp_dag.specs.Figures.{AreFigures};
ghost use Rattle.spp_frame.specs.Answers.{IsFaultOf};
ghost use Rattle.spp_frame.specs.declared.profile_fault.ProfileFault.TheVariants.{Bad};
ghost use Rattle.spp_frame.specs.declared.Why.TheVariants.{RootReturn};
ghost use Rattle.spp_site.specs.Profiles.{IsDagTable, IsPathTable, IsProfileOf};
ghost use Rattle.spp_event.specs.declared.records.Event.{Event as EventValue};
ghost use Rattle.spp_event.specs.declared.records.Event.TheVariants.{Ret as RetEvent, Sync as SyncEvent};
ghost use Rattle.spp_part.specs.Readings.{Opens};
ghost use Rattle.spp_part.specs.States.{IsEventAt};
ghost use Rattle.spp_pass.specs.AsideRows.{aside_row};
ghost use Rattle.spp_part.specs.Parts.{IsPartProfile, IsSoFar, IsSoFarBut, Rows, Stands, GoesOn, no_rows, rest_of, strands_alone, stretch_of, stored_of, end_event, settles};
ghost use Rattle.spp_dag.specs.Shares.{plus};

use crate::part_profile::PartProfile;
use crate::stretch::{End, StoredStretch, Stretch};
use spp_dag::FrameKind;
use spp_event::{Event, EventFault, Trace};
use spp_frame::{Fault, ProfileFault, Why};
use spp_maxplus::Burdens;
use spp_pass::{Counting, RowsAside};
use spp_site::Profile;
use spp_ways::OpenWays;
use std::alloc::{AllocError, Global};
use std::mem;

/// A table of more call sites doesn't fit into the processor's caches, so rows are kept aside and added to it many at a time.
const UNCACHED_SITES: u32 = 8192;

/// The profile of a run so far: what the events up to a position have come to.
#[derive(Drop)]
pub struct ProfileSoFar {
    counting: Counting,
    ways: OpenWays,
    /// How many events have been read.
    events: u32,
    /// Rows of frames that have closed, which aren't in the table of `counting`.
    aside: RowsAside,
    /// Whether those of frames that return in events which are read one by one are kept there. The answer doesn't depend on it.
    returns_aside: bool,
}

/// A bad event as what is wrong with a run.
fn bad(at: u32, why: Why) -> ProfileFault
    ensures { result ≡ Bad (record { at = at; why = why }) }
{
    ProfileFault::Bad(Fault { at, why })
}

impl ProfileSoFar {
    /// Before the first event of a run in whose trace the root frame runs `root`, and which has so many call sites. It takes
    /// constant time, besides a step for each number of a function up to the root's.
    ///
    /// # Errors
    ///
    /// Where an allocation failed.
    pub fn start(alloc: Global, root: u32, sites: u32) -> Result<Self, AllocError>
        ensures { IfOk result (λ r. (trace : Recording) (burdens : BurdensValue) → trace.root ≡ root → InLimits trace → AreEventsOf (length trace.sites) (length trace.funcs) trace.records → burdens.continuation < 2 ^ 32 → burdens.join < 2 ^ 32 → IsSoFar trace burdens 0 r) }
    {
        Ok(ProfileSoFar {
            counting: Counting::new(alloc, root)?,
            ways: OpenWays::new(alloc, sites)?,
            events: 0,
            aside: RowsAside::new(alloc),
            returns_aside: sites > UNCACHED_SITES,
        })
    }

    /// Before the first event of the run of that trace, as [`ProfileSoFar::start`].
    ///
    /// # Errors
    ///
    /// Where an allocation failed.
    pub fn new(alloc: Global, trace: &Trace<'_>) -> Result<Self, AllocError>
        ensures { IfOk result (λ r. (burdens : BurdensValue) → burdens.continuation < 2 ^ 32 → burdens.join < 2 ^ 32 → IsSoFar trace.now burdens 0 r) }
    {
        trace.keeps_limits();
        ProfileSoFar::start(alloc, trace.root(), trace.sites())
    }

    /// Goes on by a stretch; positions in it count from `first`.
    ///
    /// # Errors
    ///
    /// Where an allocation failed.
    fn go_on(&mut self, alloc: Global, stretch: &Stretch, first: u32) -> Result<(), AllocError>
        requires { (rest : Rows) × (trace : Recording) × (burdens : BurdensValue) × (i : ℕ) × (j : ℕ) × (settled : Bool) × Stands rest trace burdens i settled self.old.counting self.old.ways × GoesOn trace burdens first i j settled (stretch_of stretch.now) }
        ensures stands { OnOk result ((rest : Rows) (trace : Recording) (burdens : BurdensValue) (i j : ℕ) (settled : Bool) → Stands rest trace burdens i settled self.old.counting self.old.ways → GoesOn trace burdens first i j settled (stretch_of stretch.now) → Stands rest trace burdens j false self.new.counting self.new.ways) }
        ensures events { self.new.events ≡ self.old.events }
        ensures aside { self.new.aside ≡ self.old.aside }
    {
        let wins = self.counting.wins_by(&stretch.counted);
        self.ways
            .join(alloc, &stretch.logged, wins, &self.counting.enclosing())?;
        self.counting
            .join_stretch(&stretch.counted, &stretch.calls, first)?;
        Ok(())
    }

    /// Goes on by strands of so many instructions together.
    fn strands(&mut self, count: u64)
        requires { (rest : Rows) × (trace : Recording) × (burdens : BurdensValue) × (first : ℕ) × (i : ℕ) × (j : ℕ) × (settled : Bool) × Stands rest trace burdens i settled self.old.counting self.old.ways × GoesOn trace burdens first i j settled (strands_alone count) }
        ensures stands { (rest : Rows) (trace : Recording) (burdens : BurdensValue) (first i j : ℕ) (settled : Bool) → Stands rest trace burdens i settled self.old.counting self.old.ways → GoesOn trace burdens first i j settled (strands_alone count) → Stands rest trace burdens j false self.new.counting self.new.ways }
        ensures events { self.new.events ≡ self.old.events }
        ensures aside { self.new.aside ≡ self.old.aside }
    {
        self.counting.strand(count);
        self.ways.strand(count);
    }

    /// Goes on by a stretch that has ended; positions in it count from `first`.
    ///
    /// # Errors
    ///
    /// Where an allocation failed.
    fn go_on_by(
        &mut self,
        alloc: Global,
        stored: &StoredStretch,
        first: u32,
    ) -> Result<(), AllocError>
        requires { (rest : Rows) × (trace : Recording) × (burdens : BurdensValue) × (i : ℕ) × (j : ℕ) × (settled : Bool) × Stands rest trace burdens i settled self.old.counting self.old.ways × GoesOn trace burdens first i j settled (stored_of stored.now) }
        ensures stands { OnOk result ((rest : Rows) (trace : Recording) (burdens : BurdensValue) (i j : ℕ) (settled : Bool) → Stands rest trace burdens i settled self.old.counting self.old.ways → GoesOn trace burdens first i j settled (stored_of stored.now) → Stands rest trace burdens j false self.new.counting self.new.ways) }
        ensures events { self.new.events ≡ self.old.events }
        ensures aside { self.new.aside ≡ self.old.aside }
    {
        match stored {
            StoredStretch::Strand(count) => self.strands(*count),
            StoredStretch::Whole(stretch) => self.go_on(alloc, stretch, first)?,
        }
        Ok(())
    }

    /// The same, where the rows of the stretch are kept aside.
    ///
    /// # Errors
    ///
    /// Where an allocation failed.
    fn go_on_aside(&mut self, alloc: Global, stretch: Stretch, first: u32) -> Result<(), AllocError>
        requires { (lent : Rows) × (trace : Recording) × (burdens : BurdensValue) × (i : ℕ) × (j : ℕ) × (settled : Bool) × Stands (rest_of self.old lent) trace burdens i settled self.old.counting self.old.ways × GoesOn trace burdens first i j settled (stretch_of stretch) }
        ensures stands { OnOk result ((lent : Rows) (trace : Recording) (burdens : BurdensValue) (i j : ℕ) (settled : Bool) → Stands (rest_of self.old lent) trace burdens i settled self.old.counting self.old.ways → GoesOn trace burdens first i j settled (stretch_of stretch) → Stands (rest_of self.new lent) trace burdens j false self.new.counting self.new.ways) }
        ensures events { self.new.events ≡ self.old.events }
    {
        let Stretch {
            counted,
            calls,
            logged,
        } = stretch;
        let wins = self.counting.wins_by(&counted);
        self.ways
            .join(alloc, &logged, wins, &self.counting.enclosing())?;
        let aside = mem::replace(&mut self.aside, RowsAside::new(alloc));
        self.aside = self.counting.put_stretch_aside(alloc, calls, aside)?;
        self.counting.join(&counted, &[], first)?;
        Ok(())
    }

    /// The same by a stretch that has ended.
    ///
    /// # Errors
    ///
    /// Where an allocation failed.
    fn go_on_by_aside(
        &mut self,
        alloc: Global,
        stored: StoredStretch,
        first: u32,
    ) -> Result<(), AllocError>
        requires { (lent : Rows) × (trace : Recording) × (burdens : BurdensValue) × (i : ℕ) × (j : ℕ) × (settled : Bool) × Stands (rest_of self.old lent) trace burdens i settled self.old.counting self.old.ways × GoesOn trace burdens first i j settled (stored_of stored) }
        ensures stands { OnOk result ((lent : Rows) (trace : Recording) (burdens : BurdensValue) (i j : ℕ) (settled : Bool) → Stands (rest_of self.old lent) trace burdens i settled self.old.counting self.old.ways → GoesOn trace burdens first i j settled (stored_of stored) → Stands (rest_of self.new lent) trace burdens j false self.new.counting self.new.ways) }
        ensures events { self.new.events ≡ self.old.events }
    {
        match stored {
            StoredStretch::Strand(count) => self.strands(count),
            StoredStretch::Whole(stretch) => {
                self.go_on_aside(alloc, Box::into_inner(stretch), first)?;
            }
        }
        Ok(())
    }

    /// The innermost frame waits.
    #[inline(always)]
    fn sync(&mut self)
        requires { (rest : Rows) × (trace : Recording) × (burdens : BurdensValue) × (at : ℕ) × Stands rest trace burdens at false self.old.counting self.old.ways × IsEventAt trace at SyncEvent × (at < length trace.records) }
        ensures stands { (rest : Rows) (trace : Recording) (burdens : BurdensValue) (at : ℕ) → Stands rest trace burdens at false self.old.counting self.old.ways → IsEventAt trace at SyncEvent → at < length trace.records → Stands rest trace burdens (suc at) true self.new.counting self.new.ways }
        ensures events { self.new.events ≡ self.old.events }
        ensures aside { self.new.aside ≡ self.old.aside }
    {
        let takes = self.counting.takes();
        self.counting.sync();
        self.ways.wait(takes);
    }

    /// Adds the rows up that are kept aside, if they are many. No clause says when: answers don't depend on it.
    ///
    /// # Errors
    ///
    /// Where an allocation failed.
    #[inline(always)]
    fn add_many_up(&mut self, alloc: Global) -> Result<(), AllocError>
        ensures rows { OnOk result ((key : Option ℕ) → aside_row self.new.aside key ≡ aside_row self.old.aside key) }
        ensures counting { self.new.counting ≡ self.old.counting }
        ensures ways { self.new.ways ≡ self.old.ways }
        ensures events { self.new.events ≡ self.old.events }
    {
        if self.aside.should_add_up() {
            let aside = mem::replace(&mut self.aside, RowsAside::new(alloc));
            self.aside = aside.added_up(alloc)?;
        }
        Ok(())
    }

    /// The innermost frame returns, if it isn't the root, and its row is added to the table; gives whether it does.
    ///
    /// # Errors
    ///
    /// Where an allocation failed.
    #[inline(always)]
    fn ret_counted(&mut self, alloc: Global, burdens: Burdens) -> Result<bool, AllocError>
        requires { (rest : Rows) × (trace : Recording) × (at : ℕ) × Stands rest trace burdens at false self.old.counting self.old.ways × IsEventAt trace at RetEvent × (at < length trace.records) }
        ensures stands { IfOk result (λ returns. returns ≡ true → (rest : Rows) (trace : Recording) (at : ℕ) → Stands rest trace burdens at false self.old.counting self.old.ways → IsEventAt trace at RetEvent → at < length trace.records → Stands rest trace burdens (suc at) false self.new.counting self.new.ways) }
        ensures fault { IfOk result (λ returns. returns ≡ false → (rest : Rows) (trace : Recording) (at : ℕ) → Stands rest trace burdens at false self.old.counting self.old.ways → IsEventAt trace at RetEvent → at < length trace.records → IsFaultOf trace.records (Bad (record { at = at; why = RootReturn }))) }
        ensures events { self.new.events ≡ self.old.events }
        ensures aside { self.new.aside ≡ self.old.aside }
    {
        let Some(closing) = self.counting.ret(burdens)? else {
            return Ok(false);
        };
        self.ways.ret(
            alloc,
            closing.kind,
            closing.takes,
            closing.wins,
            closing.site,
            &closing.closed,
        )?;
        Ok(true)
    }

    /// The same, where the row of the frame is kept aside.
    ///
    /// # Errors
    ///
    /// Where an allocation failed.
    #[inline(never)]
    fn ret_aside(&mut self, alloc: Global, burdens: Burdens) -> Result<bool, AllocError>
        requires { (lent : Rows) × (trace : Recording) × (at : ℕ) × Stands (rest_of self.old lent) trace burdens at false self.old.counting self.old.ways × IsEventAt trace at RetEvent × (at < length trace.records) }
        ensures stands { IfOk result (λ returns. returns ≡ true → (lent : Rows) (trace : Recording) (at : ℕ) → Stands (rest_of self.old lent) trace burdens at false self.old.counting self.old.ways → IsEventAt trace at RetEvent → at < length trace.records → Stands (rest_of self.new lent) trace burdens (suc at) false self.new.counting self.new.ways) }
        ensures fault { IfOk result (λ returns. returns ≡ false → (lent : Rows) (trace : Recording) (at : ℕ) → Stands (rest_of self.old lent) trace burdens at false self.old.counting self.old.ways → IsEventAt trace at RetEvent → at < length trace.records → IsFaultOf trace.records (Bad (record { at = at; why = RootReturn }))) }
        ensures events { self.new.events ≡ self.old.events }
    {
        let Some(popped) = self.counting.pop(burdens) else {
            return Ok(false);
        };
        let closing = popped.closing;
        self.ways.ret(
            alloc,
            closing.kind,
            closing.takes,
            closing.wins,
            closing.site,
            &closing.closed,
        )?;
        self.aside.close(closing.site, &closing.closed)?;
        self.add_many_up(alloc)?;
        Ok(true)
    }

    /// The innermost frame returns, if it isn't the root, and its row is added to the table or kept aside; gives whether it does.
    ///
    /// # Errors
    ///
    /// Where an allocation failed.
    #[inline(always)]
    fn ret(&mut self, alloc: Global, burdens: Burdens) -> Result<bool, AllocError>
        requires { (lent : Rows) × (trace : Recording) × (at : ℕ) × Stands (rest_of self.old lent) trace burdens at false self.old.counting self.old.ways × IsEventAt trace at RetEvent × (at < length trace.records) }
        ensures stands { IfOk result (λ returns. returns ≡ true → (lent : Rows) (trace : Recording) (at : ℕ) → Stands (rest_of self.old lent) trace burdens at false self.old.counting self.old.ways → IsEventAt trace at RetEvent → at < length trace.records → Stands (rest_of self.new lent) trace burdens (suc at) false self.new.counting self.new.ways) }
        ensures fault { IfOk result (λ returns. returns ≡ false → (lent : Rows) (trace : Recording) (at : ℕ) → Stands (rest_of self.old lent) trace burdens at false self.old.counting self.old.ways → IsEventAt trace at RetEvent → at < length trace.records → IsFaultOf trace.records (Bad (record { at = at; why = RootReturn }))) }
        ensures events { self.new.events ≡ self.old.events }
    {
        if self.returns_aside {
            return self.ret_aside(alloc, burdens);
        }
        let returns = self.ret_counted(alloc, burdens)?;
        Ok(returns)
    }

    /// The innermost frame returns, or waits, at `at`.
    ///
    /// # Errors
    ///
    /// `RootReturn` where the root frame alone is open, or `Memory` where an allocation failed.
    fn end(
        &mut self,
        alloc: Global,
        burdens: Burdens,
        at: u32,
        end: End,
    ) -> Result<(), ProfileFault>
        requires { (rest : Rows) × (trace : Recording) × Stands rest trace burdens at false self.old.counting self.old.ways × IsEventAt trace at (end_event end) × (at < length trace.records) }
        ensures stands { OnOk result ((rest : Rows) (trace : Recording) → Stands rest trace burdens at false self.old.counting self.old.ways → IsEventAt trace at (end_event end) → at < length trace.records → Stands rest trace burdens (suc at) (settles end) self.new.counting self.new.ways) }
        ensures fault { IfErr result (λ f. (rest : Rows) (trace : Recording) → Stands rest trace burdens at false self.old.counting self.old.ways → IsEventAt trace at (end_event end) → at < length trace.records → IsFaultOf trace.records f) }
        ensures events { self.new.events ≡ self.old.events }
        ensures aside { self.new.aside ≡ self.old.aside }
    {
        match end {
            End::Sync => self.sync(),
            End::Return => {
                if !self.ret_counted(alloc, burdens)? {
                    return Err(bad(at, Why::RootReturn));
                }
            }
        }
        Ok(())
    }

    /// Goes on by an event, which is the next one, read under these burdens. It takes constant time, amortized over the run.
    ///
    /// # Errors
    ///
    /// `RootReturn` where that is what the event is, or `Memory` where an allocation failed.
    #[inline(always)]
    pub(crate) fn read(
        &mut self,
        alloc: Global,
        burdens: Burdens,
        event: Event,
    ) -> Result<(), ProfileFault>
        requires { (trace : Recording) × (i : ℕ) × IsSoFar trace burdens i self.old × IsEventAt trace i event × (i < length trace.records) }
        ensures so_far { OnOk result ((trace : Recording) (i : ℕ) → IsSoFar trace burdens i self.old → IsEventAt trace i event → i < length trace.records → IsSoFar trace burdens (suc i) self.new) }
        ensures fault { IfErr result (λ f. (trace : Recording) (i : ℕ) → IsSoFar trace burdens i self.old → IsEventAt trace i event → i < length trace.records → IsFaultOf trace.records f) }
    {
        match event {
            Event::Strand { count } => {
                self.counting.strand(count);
                self.ways.strand(count);
            }
            Event::Call { site, func } => self.open(FrameKind::Called, site, func)?,
            Event::Spawn { site, func } => self.open(FrameKind::Spawned, site, func)?,
            // Not by `end`, which keeps no row aside, and with which twice in it this would grow too large to be inlined.
            Event::Ret => {
                let returns = self.ret(alloc, burdens)?;
                if !returns {
                    return Err(bad(self.events, Why::RootReturn));
                }
            }
            Event::Sync => self.sync(),
        }
        self.events += 1;
        Ok(())
    }

    /// A call or a spawn, which is the next event.
    ///
    /// # Errors
    ///
    /// Where an allocation failed.
    #[inline(always)]
    fn open(&mut self, kind: FrameKind, site: u32, func: u32) -> Result<(), AllocError>
        requires { (trace : Recording) × (burdens : BurdensValue) × (i : ℕ) × (event : EventValue) × Opens kind site func event × IsSoFar trace burdens i self.old × IsEventAt trace i event × (i < length trace.records) }
        ensures stands { OnOk result ((trace : Recording) (burdens : BurdensValue) (i : ℕ) (event : EventValue) → Opens kind site func event → IsSoFar trace burdens i self.old → IsEventAt trace i event → i < length trace.records → Stands (rest_of self.new no_rows) trace burdens (suc i) false self.new.counting self.new.ways) }
        ensures events { self.new.events ≡ self.old.events }
        ensures aside { self.new.aside ≡ self.old.aside }
    {
        self.counting.open(kind, self.events, site, func)?;
        self.ways.open()?;
        Ok(())
    }

    /// What is wrong with a run whose next record has that fault.
    pub fn cut_off(&self, fault: EventFault) -> ProfileFault
        ensures { (trace : Recording) (burdens : BurdensValue) (i : ℕ) → IsSoFar trace burdens i self.now → i < length trace.records → record_at trace.records i ≡ Err fault → IsFaultOf trace.records result }
    {
        bad(self.events, Why::Event(fault))
    }

    /// Goes on by the next part, read under these burdens. It takes constant time, amortized over the run, for each frame that
    /// is opened in the part, and for each that closes there and was open before. After an error it is of no use.
    ///
    /// # Errors
    ///
    /// The first bad event of the run, if it is one of the part, or `Memory` where an allocation failed.
    pub fn join(
        &mut self,
        alloc: Global,
        part: &PartProfile,
        burdens: Burdens,
    ) -> Result<(), ProfileFault>
        requires { (trace : Recording) × (i : ℕ) × (count : ℕ) × IsSoFar trace burdens i self.old × IsPartProfile trace burdens i count part.now }
        ensures so_far { OnOk result ((trace : Recording) (i count : ℕ) → IsSoFar trace burdens i self.old → IsPartProfile trace burdens i count part.now → IsSoFar trace burdens (i + count) self.new) }
        ensures fault { IfErr result (λ f. (trace : Recording) (i count : ℕ) → IsSoFar trace burdens i self.old → IsPartProfile trace burdens i count part.now → IsFaultOf trace.records f) }
    {
        let first = self.events;
        for ended in &part.ended {
            self.go_on_by(alloc, &ended.stored, first)?;
            match self.end(alloc, burdens, first + ended.at, ended.end) {
                Ok(()) => {}
                Err(fault) => return Err(fault),
            }
        }
        self.go_on(alloc, &part.last, first)?;
        if let Some(fault) = part.fault {
            return Err(bad(first + part.good, Why::Event(fault)));
        }
        self.events += part.good;
        Ok(())
    }

    /// Joins a part as [`ProfileSoFar::join`] does, and keeps the rows of its stretches aside.
    ///
    /// # Errors
    ///
    /// The first bad event of the run, if it is one of the part, or `Memory` where an allocation failed.
    pub fn join_aside(
        &mut self,
        alloc: Global,
        part: PartProfile,
        burdens: Burdens,
    ) -> Result<(), ProfileFault>
        requires { (lent : Rows) × (trace : Recording) × (i : ℕ) × (count : ℕ) × IsSoFarBut lent trace burdens i self.old × IsPartProfile trace burdens i count part }
        ensures so_far { OnOk result ((lent : Rows) (trace : Recording) (i count : ℕ) → IsSoFarBut lent trace burdens i self.old → IsPartProfile trace burdens i count part → IsSoFarBut lent trace burdens (i + count) self.new) }
        ensures fault { IfErr result (λ f. (lent : Rows) (trace : Recording) (i count : ℕ) → IsSoFarBut lent trace burdens i self.old → IsPartProfile trace burdens i count part → IsFaultOf trace.records f) }
    {
        let first = self.events;
        let PartProfile {
            ended,
            last,
            good,
            fault,
        } = part;
        for ended in ended {
            self.go_on_by_aside(alloc, ended.stored, first)?;
            match self.end(alloc, burdens, first + ended.at, ended.end) {
                Ok(()) => {}
                Err(fault) => return Err(fault),
            }
        }
        self.go_on_aside(alloc, last, first)?;
        if let Some(fault) = fault {
            return Err(bad(first + good, Why::Event(fault)));
        }
        self.events += good;
        Ok(())
    }

    /// Whether there are rows that are kept aside and in no table yet. No clause says when: answers don't depend on it.
    pub fn owes_rows(&self) -> bool {
        self.aside.owes()
    }

    /// Gives the rows away that are kept aside, so that another thread adds them up. It takes constant time.
    pub fn lend(&mut self, alloc: Global) -> RowsAside
        ensures all { result ≡ self.old.aside }
        ensures so_far { (lent : Rows) (trace : Recording) (burdens : BurdensValue) (i : ℕ) → IsSoFarBut lent trace burdens i self.old → IsSoFarBut (λ key. plus (aside_row result key) (lent key)) trace burdens i self.new }
    {
        mem::replace(&mut self.aside, RowsAside::new(alloc))
    }

    /// Takes rows back that were lent, or their like. It takes constant time, besides that for each row that is kept aside, and for
    /// each site number: these are added to the table.
    ///
    /// # Errors
    ///
    /// Where an allocation failed.
    pub fn take_back(&mut self, rows: RowsAside) -> Result<(), AllocError>
        requires { (lent : Rows) × (trace : Recording) × (burdens : BurdensValue) × (i : ℕ) × IsSoFarBut (λ key. plus (aside_row rows key) (lent key)) trace burdens i self.old }
        ensures { OnOk result ((lent : Rows) (trace : Recording) (burdens : BurdensValue) (i : ℕ) → IsSoFarBut (λ key. plus (aside_row rows key) (lent key)) trace burdens i self.old → IsSoFarBut lent trace burdens i self.new) }
    {
        let before = mem::replace(&mut self.aside, rows);
        self.counting.add_aside(before)?;
        Ok(())
    }

    /// The profile of the whole run, all of whose events have been read. It takes time linear in the numbers of rows that both
    /// paths have in the log, of those that are stored for them, and of call sites.
    ///
    /// # Errors
    ///
    /// `Unclosed` where frames are open at the end, or `Memory` where an allocation failed.
    pub fn finish(self, alloc: Global) -> Result<Profile, ProfileFault>
        requires { (trace : Recording) × (burdens : BurdensValue) × IsSoFar trace burdens (length trace.records) self }
        ensures figures { IfOk result (λ p. (trace : Recording) (burdens : BurdensValue) → IsSoFar trace burdens (length trace.records) self → AreFigures trace.records burdens p.figures) }
        ensures small { IfOk result (λ p. p.figures.work < 2 ^ 92) }
        ensures dag { IfOk result (λ p. (trace : Recording) (burdens : BurdensValue) → IsSoFar trace burdens (length trace.records) self → IsDagTable trace p.dag) }
        ensures path { IfOk result (λ p. (trace : Recording) (burdens : BurdensValue) → IsSoFar trace burdens (length trace.records) self → IsPathTable trace unburdened p.path) }
        ensures burdened_path { IfOk result (λ p. (trace : Recording) (burdens : BurdensValue) → IsSoFar trace burdens (length trace.records) self → IsPathTable trace burdens p.burdened_path) }
        ensures profile { IfOk result (λ p. (trace : Recording) (burdens : BurdensValue) → IsSoFar trace burdens (length trace.records) self → IsProfileOf trace burdens p) }
        ensures fault { IfErr result (λ f. (trace : Recording) (burdens : BurdensValue) → IsSoFar trace burdens (length trace.records) self → IsFaultOf trace.records f) }
    {
        let ProfileSoFar {
            mut counting,
            ways,
            events,
            aside,
            ..
        } = self;
        counting.add_aside(aside)?;
        let depth = counting.depth();
        if depth > 0 {
            return Err(bad(events, Why::Unclosed { depth }));
        }
        let ended = counting.finish();
        let path = ways.path_table(alloc, false, ended.takes, &ended.root)?;
        let burdened_path = ways.path_table(alloc, true, ended.takes, &ended.root)?;
        Ok(Profile {
            figures: ended.figures,
            dag: ended.dag,
            path,
            burdened_path,
        })
    }
}
