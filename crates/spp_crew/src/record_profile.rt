//! The profile of a run whose events come block by block.

ghost use Rattle.std.specs.Prelude.{◌≡◌, ◌+◌, ◌*◌, ◌/◌, ◌≤◌, ◌<◌, ◌^◌, ◌++◌, ℕ, List, [], length, take, slice_index, IfOk, IfErr};
ghost use Rattle.spp_event.specs.declared.version.Version.TheVariants.{One};
ghost use Rattle.spp_event.specs.Recordings.{Record, Recording, count_in, records_of};
ghost use Rattle.spp_dag.specs.Figures.{AreFigures};
ghost use Rattle.spp_frame.specs.Answers.{IsFaultOf};
ghost use Rattle.spp_site.specs.Profiles.{IsProfileOf};
ghost use Rattle.spp_crew.specs.RecordHeads.{IsHead};
ghost use Rattle.spp_maxplus.specs.declared.state.Burdens.{Burdens as BurdensValue};
ghost use Rattle.spp_crew.specs.Joinings.{IsShown, threads_in, waiting_in};
ghost use Rattle.spp_crew.specs.Shared.{IsShared};

use crate::block::{Block, RECORD};
use crate::joining::Joining;
use crate::pool::NewThread;
use crate::record_head::RecordHead;
use crate::shared_profile::SharedProfile;
use crate::shown::Shown;
use spp_event::{EventFault, Version};
use spp_frame::ProfileFault;
use spp_maxplus::Burdens;
use spp_site::Profile;
use std::alloc::{AllocError, Global};
use std::sync::Wait;
use std::thread::{Threads, spawn};

/// The profile of a run whose events come block by block, in a trace of either version: what those that have come show. It
/// keeps none but the blocks that wait to be read or joined.
#[derive(Drop)]
pub struct RecordProfile {
    /// What the trace's header says.
    head: RecordHead,
    burdens: Burdens,
    /// What they show; nothing is meant by it where more have come than the header claims.
    shown: Shown<SharedProfile>,
    /// How many events have come.
    at: u32,
    ghost limits: { IsHead head },
}

/// Bytes are numbers of 8 bits. Its contract is what it is for.
pub(crate) fn are_bytes(bytes: &[u8])
    ensures { (i : ℕ) → slice_index bytes.now i < 256 }
{}

/// What is shown, with a thread more where a posted block is still to be read and there are fewer threads than workers but one. It
/// is here, since what goes to a thread must be known to the borrow checker.
fn with_thread<R: Threads>(
    rt: &R,
    alloc: Global,
    shown: Shown<SharedProfile>,
    workers: u32,
) -> Shown<SharedProfile>
    ensures same { (trace : Recording) (burdens : BurdensValue) (k : ℕ) → IsShown IsShared trace burdens k shown → IsShown IsShared trace burdens k result }
    ensures waiting { waiting_in result ≡ waiting_in shown }
    ensures threads { threads_in shown ≤ workers → threads_in result ≤ workers }
    ensures fewer { threads_in shown < workers → threads_in result < workers }
{
    let mut shown = shown;
    if let Some(NewThread { task, alive }) = shown.new_thread(rt, alloc, workers) {
        if let Ok(thread) = spawn(rt, move || task.run(alloc)) {
            shown.add_thread(rt, thread, alive);
        }
    }
    shown
}

impl RecordProfile {
    ghost use Rattle.spp_crew.specs.RecordProfiles.{HasSeen, EndsWith, seen_by, threads_of, waiting_of};

    /// Before the first record of a trace with that header.
    ///
    /// # Errors
    ///
    /// Where an allocation failed.
    pub fn new(alloc: Global, head: RecordHead, burdens: Burdens) -> Result<Self, AllocError>
        requires { IsHead head }
        ensures seen { IfOk result (λ p. HasSeen p []) }
        ensures head { IfOk result (λ p. p.head ≡ head) }
        ensures burdens { IfOk result (λ p. p.burdens ≡ burdens) }
        ensures threads { IfOk result (λ p. threads_of p ≡ 0) }
        ensures waiting { IfOk result (λ p. waiting_of p ≡ 0) }
    {
        // For what it states: each is a number of 32 bits.
        burdens.are_small();
        let so_far = SharedProfile::start(alloc, head.root, head.sites)?;
        Ok(RecordProfile {
            head,
            burdens,
            shown: Shown::Good(Joining::behind(alloc, so_far)?),
            at: 0,
        })
    }

    /// The profile behind the whole records of these bytes as well, as [`RecordProfile::followed_by_block`] of a copy of them.
    ///
    /// # Errors
    ///
    /// Where an allocation failed. A thread that can't be started is no error: the others read the records, or this one.
    pub fn followed_by<R: Threads + Wait + Sync>(
        self,
        rt: &R,
        alloc: Global,
        bytes: &[u8],
        workers: u32,
    ) -> Result<Self, AllocError>
        requires room { seen_by self + length bytes.now / 16 < 2 ^ 32 }
        requires seen { (rs : List Record) × HasSeen self rs }
        ensures count { IfOk result (λ p. seen_by p ≡ seen_by self + length bytes.now / 16) }
        ensures head { IfOk result (λ p. p.head ≡ self.head) }
        ensures burdens { IfOk result (λ p. p.burdens ≡ self.burdens) }
        ensures threads { IfOk result (λ p. threads_of self ≤ workers → threads_of p ≤ workers) }
        ensures fewer { IfOk result (λ p. threads_of self < workers → threads_of p < workers) }
        ensures waiting { IfOk result (λ p. waiting_of self < 2 * workers → waiting_of p < 2 * workers) }
        ensures seen { IfOk result (λ p. (rs : List Record) → HasSeen self rs → HasSeen p (rs ++ records_of One self.head.sites self.head.funcs (length bytes.now / 16) bytes.now)) }
    {
        let block = bytes.to_vec(alloc)?;
        let (profile, _) = self.followed_by_block(rt, alloc, block, bytes.len(), workers)?;
        Ok(profile)
    }

    /// The profile behind the whole records of the first `len` of these bytes as well, and room for the bytes of other records:
    /// a list of any bytes, mostly as long. Where so many workers, 1 to 64, are several, the records are posted: a thread, of which
    /// there are fewer than workers, reads them, by `PartProfile::of_records`, while this one goes on. Such a call joins at
    /// most the records of one call before it, the first that weren't joined, by `ProfileSoFar::join` or, where threads add rows
    /// up, by `join_aside`: where a thread has read them, or where those of twice as many calls as workers wait. So the time is
    /// that of joining them, and in the second case of reading other records meanwhile, or of waiting for the threads; and that
    /// of starting a thread, where one is wanting. This thread joins all that wait, and reads the records itself, by
    /// `ProfileSoFar::read_records`, where there is one worker, and for some calls behind records that were slow to join
    /// (`PartProfile::joins_slowly`). How many
    /// workers there are doesn't show in the profile. The time is constant where a bad event was met before, or where more
    /// records have come than the header claims. The memory, besides that of the profile so far, is at most that of the bytes
    /// of twice as many calls as there are workers, and of what they come to. Where a trace has many call sites, two threads
    /// more add rows up, in tables of their own (`RowsAside`), and a join waits for the earlier of them.
    ///
    /// # Errors
    ///
    /// Where an allocation failed. A thread that can't be started is no error: the others read the records, or this one.
    pub fn followed_by_block<R: Threads>(
        self,
        rt: &R,
        alloc: Global,
        bytes: Vec<u8>,
        len: usize,
        workers: u32,
    ) -> Result<(Self, Vec<u8>), AllocError>
        requires within { len ≤ length bytes.items }
        requires room { seen_by self + len / 16 < 2 ^ 32 }
        requires seen { (rs : List Record) × HasSeen self rs }
        ensures count { IfOk result (λ p. seen_by p.0 ≡ seen_by self + len / 16) }
        ensures head { IfOk result (λ p. p.0.head ≡ self.head) }
        ensures burdens { IfOk result (λ p. p.0.burdens ≡ self.burdens) }
        ensures threads { IfOk result (λ p. threads_of self ≤ workers → threads_of p.0 ≤ workers) }
        ensures fewer { IfOk result (λ p. threads_of self < workers → threads_of p.0 < workers) }
        ensures waiting { IfOk result (λ p. waiting_of self < 2 * workers → waiting_of p.0 < 2 * workers) }
        ensures seen { IfOk result (λ p. (rs : List Record) → HasSeen self rs → HasSeen p.0 (rs ++ records_of One self.head.sites self.head.funcs (len / 16) (take len bytes.items))) }
    {
        let count = (len / RECORD) as u32;
        self.followed_by_events(rt, alloc, Version::One, bytes, len, count, workers)
    }

    /// The same behind the first `len` of these bytes, which are `count` whole events of that version, as
    /// [`RecordProfile::followed_by_block`]: where these are items, by `PartProfile::of_items` and `ProfileSoFar::read_items`.
    ///
    /// # Errors
    ///
    /// Where an allocation failed; no thread is left then. One that can't be started is no error: the others read the events, or this one.
    pub fn followed_by_events<R: Threads>(
        self,
        rt: &R,
        alloc: Global,
        version: Version,
        bytes: Vec<u8>,
        len: usize,
        count: u32,
        workers: u32,
    ) -> Result<(Self, Vec<u8>), AllocError>
        requires within { len ≤ length bytes.items }
        requires counted { count ≡ count_in version (take len bytes.items) }
        requires room { seen_by self + count < 2 ^ 32 }
        requires seen { (rs : List Record) × HasSeen self rs }
        ensures count { IfOk result (λ p. seen_by p.0 ≡ seen_by self + count) }
        ensures head { IfOk result (λ p. p.0.head ≡ self.head) }
        ensures burdens { IfOk result (λ p. p.0.burdens ≡ self.burdens) }
        ensures threads { IfOk result (λ p. threads_of self ≤ workers → threads_of p.0 ≤ workers) }
        ensures fewer { IfOk result (λ p. threads_of self < workers → threads_of p.0 < workers) }
        ensures waiting { IfOk result (λ p. waiting_of self < 2 * workers → waiting_of p.0 < 2 * workers) }
        ensures seen { IfOk result (λ p. (rs : List Record) → HasSeen self rs → HasSeen p.0 (rs ++ records_of version self.head.sites self.head.funcs count (take len bytes.items))) }
    {
        let RecordProfile {
            head,
            burdens,
            shown,
            at,
        } = self;
        are_bytes(bytes.as_slice());
        let block = Block {
            version,
            bytes,
            len,
            count,
            first: at,
            sites: head.sites,
            funcs: head.funcs,
            burdens,
        };
        let (shown, room) = shown.followed_by(rt, alloc, block, head.count, workers)?;
        let shown = with_thread(rt, alloc, shown, workers);
        let profile = RecordProfile {
            head,
            burdens,
            shown,
            at: at + count,
        };
        Ok((profile, room))
    }

    /// Whether the calling thread will go over the next block's events itself, since blocks before it were slow to join. No clause
    /// says when: answers don't depend on it.
    pub fn reads_here(&self) -> bool {
        self.shown.reads_here()
    }

    /// Waits for the threads that still read events, and lets go of all.
    pub fn let_go<R: Threads>(self, rt: &R) {
        self.shown.let_go(rt);
    }

    /// The profile of the run, where all records of its trace have come. Where fewer have than the header claims, the bytes end
    /// before the next one does, and it is told as cut off. The time is that of reading the records that no thread has
    /// begun, of waiting for the threads that still read, of joining what is found, by `ProfileSoFar::join`, and then of
    /// `ProfileSoFar::finish`.
    ///
    /// # Errors
    ///
    /// The first bad event, or `Memory` where an allocation failed.
    pub fn end<R: Threads>(self, rt: &R, alloc: Global) -> Result<Profile, ProfileFault>
        requires few { seen_by self ≤ self.head.count }
        requires seen { (rs : List Record) × HasSeen self rs }
        ensures small { IfOk result (λ p. p.figures.work < 2 ^ 92) }
        ensures figures { (trace : Recording) → EndsWith self trace → IfOk result (λ p. AreFigures trace.records self.burdens p.figures) }
        ensures profile { (trace : Recording) → EndsWith self trace → IfOk result (IsProfileOf trace self.burdens) }
        ensures fault { (trace : Recording) → EndsWith self trace → IfErr result (λ f. IsFaultOf trace.records f) }
    {
        let RecordProfile {
            head,
            burdens,
            shown,
            at,
        } = self;
        let joining = match shown {
            Shown::Good(joining) => joining,
            Shown::Bad(fault) => return Err(ProfileFault::Bad(fault)),
        };
        let shared = joining.end(rt, alloc, burdens)?;
        let so_far = shared.gathered(rt)?;
        if at < head.count {
            return Err(so_far.cut_off(EventFault::Truncated));
        }
        so_far.finish(alloc)
    }
}
