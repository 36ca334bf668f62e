//! The figures of a run whose events come block by block.

ghost use Rattle.std.specs.Prelude.{◌≡◌, ◌+◌, ◌*◌, ◌/◌, ◌≤◌, ◌<◌, ◌^◌, ◌++◌, ℕ, List, [], length, take, Err as AsErr, IfOk, IfErr};
ghost use Rattle.spp_event.specs.declared.version.Version.TheVariants.{One};
ghost use Rattle.spp_event.specs.declared.records.EventFault.TheVariants.{Truncated};
ghost use Rattle.spp_event.specs.Recordings.{Record, Recording, count_in, record_at, records_of};
ghost use Rattle.spp_dag.specs.Figures.{AreFigures};
ghost use Rattle.spp_frame.specs.Answers.{IsFaultOf};
ghost use Rattle.spp_frame.specs.Nesting.{IsFirstBad, IsWellFormed};
ghost use Rattle.spp_crew.specs.RecordHeads.{IsHead};
ghost use Rattle.spp_maxplus.specs.declared.state.Burdens.{Burdens as BurdensValue};
ghost use Rattle.spp_crew.specs.Joinings.{IsShown, threads_in, waiting_in};
ghost use Rattle.spp_crew.specs.Blocks.{IsSummaryOfFirst};

use crate::block::{Block, RECORD};
use crate::joining::Joining;
use crate::pool::NewThread;
use crate::record_head::RecordHead;
use crate::record_profile::are_bytes;
use crate::shown::Shown;
use spp_dag::Figures;
use spp_event::{EventFault, Version};
use spp_frame::{Fault, ProfileFault, Why};
use spp_maxplus::Burdens;
use spp_summary::Summary;
use std::alloc::{AllocError, Global};
use std::thread::{Threads, spawn};

/// The figures of a run whose events come block by block, in a trace of either version: what those that have come show. It
/// keeps none but the blocks that wait to be read or joined.
#[derive(Drop)]
pub struct RecordFigures {
    /// What the trace's header says. The function of the root doesn't matter.
    head: RecordHead,
    burdens: Burdens,
    /// What they show; nothing is meant by it where more have come than the header claims.
    shown: Shown<Summary>,
    /// How many events have come.
    at: u32,
    ghost limits: { IsHead head },
}

/// What is wrong first with a run whose record at `at` is cut off, where that was found of those before.
fn cut_off(found: Result<Figures, Fault>, at: u32) -> Fault
    ensures { (rs behind : List Record) → length rs ≡ at → IfOk found (λ f. IsWellFormed rs) → IfErr found (λ f. IsFirstBad rs f) → 0 < length behind → record_at behind 0 ≡ AsErr Truncated → IsFirstBad (rs ++ behind) result }
{
    match found {
        Err(fault) if fault.at < at => fault,
        _ => Fault {
            at,
            why: Why::Event(EventFault::Truncated),
        },
    }
}

/// What is shown, with a thread more where a posted block is still to be read and there are fewer threads than workers but one. It
/// is here, since what goes to a thread must be known to the borrow checker.
fn with_thread<R: Threads>(
    rt: &R,
    alloc: Global,
    shown: Shown<Summary>,
    workers: u32,
) -> Shown<Summary>
    ensures same { (trace : Recording) (burdens : BurdensValue) (k : ℕ) → IsShown IsSummaryOfFirst trace burdens k shown → IsShown IsSummaryOfFirst trace burdens k result }
    ensures waiting { waiting_in result ≡ waiting_in shown }
    ensures threads { threads_in shown ≤ workers → threads_in result ≤ workers }
    ensures fewer { threads_in shown < workers → threads_in result < workers }
{
    let mut shown = shown;
    if let Some(NewThread { task, alive }) = shown.new_thread(rt, alloc, workers) {
        if let Ok(thread) = spawn(rt, move || task.run(alloc)) {
            shown.add_thread(rt, thread, alive);
        }
    }
    shown
}

impl RecordFigures {
    ghost use Rattle.spp_crew.specs.RecordFigures.{HasSeen, EndsWith, seen_by, threads_of, waiting_of};

    /// Before the first record of a trace with that header.
    ///
    /// # Errors
    ///
    /// Where an allocation failed.
    pub fn new(alloc: Global, head: RecordHead, burdens: Burdens) -> Result<Self, AllocError>
        requires { IsHead head }
        ensures seen { IfOk result (λ f. HasSeen f []) }
        ensures head { IfOk result (λ f. f.head ≡ head) }
        ensures burdens { IfOk result (λ f. f.burdens ≡ burdens) }
        ensures threads { IfOk result (λ f. threads_of f ≡ 0) }
        ensures waiting { IfOk result (λ f. waiting_of f ≡ 0) }
    {
        let summary = Summary::of_records(alloc, &[], head.sites, head.funcs, burdens, 0)?;
        Ok(RecordFigures {
            head,
            burdens,
            shown: Shown::Good(Joining::behind(alloc, summary)?),
            at: 0,
        })
    }

    /// The figures behind the whole records of the first `len` of these bytes as well, and room for the bytes of other records. The
    /// threads, the time and the memory are those of `RecordProfile::followed_by_block`, but the records are read by
    /// `Summary::of_records`, and what that finds is joined by `Summary::join`, for one worker too.
    ///
    /// # Errors
    ///
    /// Where an allocation failed. A thread that can't be started is no error: the others read the records, or this one.
    pub fn followed_by_block<R: Threads>(
        self,
        rt: &R,
        alloc: Global,
        bytes: Vec<u8>,
        len: usize,
        workers: u32,
    ) -> Result<(Self, Vec<u8>), AllocError>
        requires within { len ≤ length bytes.items }
        requires room { seen_by self + len / 16 < 2 ^ 32 }
        requires seen { (rs : List Record) × HasSeen self rs }
        ensures count { IfOk result (λ f. seen_by f.0 ≡ seen_by self + len / 16) }
        ensures head { IfOk result (λ f. f.0.head ≡ self.head) }
        ensures burdens { IfOk result (λ f. f.0.burdens ≡ self.burdens) }
        ensures threads { IfOk result (λ f. threads_of self ≤ workers → threads_of f.0 ≤ workers) }
        ensures fewer { IfOk result (λ f. threads_of self < workers → threads_of f.0 < workers) }
        ensures waiting { IfOk result (λ f. waiting_of self < 2 * workers → waiting_of f.0 < 2 * workers) }
        ensures seen { IfOk result (λ f. (rs : List Record) → HasSeen self rs → HasSeen f.0 (rs ++ records_of One self.head.sites self.head.funcs (len / 16) (take len bytes.items))) }
    {
        let count = (len / RECORD) as u32;
        self.followed_by_events(rt, alloc, Version::One, bytes, len, count, workers)
    }

    /// The same behind the first `len` of these bytes, which are `count` whole events of that version, as
    /// [`RecordFigures::followed_by_block`]: where these are items, by `Summary::of_items`.
    ///
    /// # Errors
    ///
    /// Where an allocation failed; no thread is left then. One that can't be started is no error: the others read the events, or this one.
    pub fn followed_by_events<R: Threads>(
        self,
        rt: &R,
        alloc: Global,
        version: Version,
        bytes: Vec<u8>,
        len: usize,
        count: u32,
        workers: u32,
    ) -> Result<(Self, Vec<u8>), AllocError>
        requires within { len ≤ length bytes.items }
        requires counted { count ≡ count_in version (take len bytes.items) }
        requires room { seen_by self + count < 2 ^ 32 }
        requires seen { (rs : List Record) × HasSeen self rs }
        ensures count { IfOk result (λ f. seen_by f.0 ≡ seen_by self + count) }
        ensures head { IfOk result (λ f. f.0.head ≡ self.head) }
        ensures burdens { IfOk result (λ f. f.0.burdens ≡ self.burdens) }
        ensures threads { IfOk result (λ f. threads_of self ≤ workers → threads_of f.0 ≤ workers) }
        ensures fewer { IfOk result (λ f. threads_of self < workers → threads_of f.0 < workers) }
        ensures waiting { IfOk result (λ f. waiting_of self < 2 * workers → waiting_of f.0 < 2 * workers) }
        ensures seen { IfOk result (λ f. (rs : List Record) → HasSeen self rs → HasSeen f.0 (rs ++ records_of version self.head.sites self.head.funcs count (take len bytes.items))) }
    {
        let RecordFigures {
            head,
            burdens,
            shown,
            at,
        } = self;
        are_bytes(bytes.as_slice());
        let block = Block {
            version,
            bytes,
            len,
            count,
            first: at,
            sites: head.sites,
            funcs: head.funcs,
            burdens,
        };
        let (shown, room) = shown.followed_by(rt, alloc, block, head.count, workers)?;
        let shown = with_thread(rt, alloc, shown, workers);
        let figures = RecordFigures {
            head,
            burdens,
            shown,
            at: at + count,
        };
        Ok((figures, room))
    }

    /// Whether the calling thread will go over the next block's events itself, since blocks before it were slow to join. No clause
    /// says when: answers don't depend on it.
    pub fn reads_here(&self) -> bool {
        self.shown.reads_here()
    }

    /// Waits for the threads that still read events, and lets go of all.
    pub fn let_go<R: Threads>(self, rt: &R) {
        self.shown.let_go(rt);
    }

    /// The work, span and burdened span of the run, where all records of its trace have come. Where fewer have than the header
    /// claims, the bytes end before the next one does, and it is told as cut off. The time is that of reading the records that
    /// no thread has begun, of waiting for the threads that still read, and of joining what is found, by `Summary::join`.
    ///
    /// # Errors
    ///
    /// The first bad event, or `Memory` where an allocation failed.
    pub fn end<R: Threads>(self, rt: &R, alloc: Global) -> Result<Figures, ProfileFault>
        requires few { seen_by self ≤ self.head.count }
        requires seen { (rs : List Record) × HasSeen self rs }
        ensures small { IfOk result (λ f. f.work < 2 ^ 92) }
        ensures figures { (trace : Recording) → EndsWith self trace → IfOk result (λ f. AreFigures trace.records self.burdens f) }
        ensures fault { (trace : Recording) → EndsWith self trace → IfErr result (λ f. IsFaultOf trace.records f) }
    {
        let RecordFigures {
            head,
            burdens,
            shown,
            at,
        } = self;
        let joining = match shown {
            Shown::Good(joining) => joining,
            Shown::Bad(fault) => return Err(ProfileFault::Bad(fault)),
        };
        let summary = match joining.end(rt, alloc, burdens) {
            Ok(summary) => summary,
            Err(fault) => return Err(fault),
        };
        let found = summary.finish();
        if at < head.count {
            return Err(ProfileFault::Bad(cut_off(found, at)));
        }
        match found {
            Ok(figures) => Ok(figures),
            Err(fault) => Err(ProfileFault::Bad(fault)),
        }
    }
}
