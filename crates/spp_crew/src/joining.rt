//! Joining what blocks of events come to, which threads read.

ghost use Rattle.std.specs.Prelude.{◌≡◌, ◌+◌, ◌-◌, ◌*◌, ◌≤◌, ◌<◌, ◌++◌, ◌∷◌, [], ℕ, List, length, IfOk, IfErr, IsTrue, OnOk};
ghost use Rattle.spp_event.specs.Recordings.{Record, Recording};
ghost use Rattle.spp_frame.specs.Answers.{IsFaultOf};
ghost use Rattle.spp_maxplus.specs.declared.state.Burdens.{Burdens as BurdensValue};
ghost use Rattle.spp_crew.specs.Blocks.{IsReadable, IsBlockAt, count_of};

use crate::block::{Block, SoFar};
use crate::pool::Pool;
use crate::posted::{Posted, room_of};
use spp_frame::ProfileFault;
use spp_maxplus::Burdens;
use std::alloc::{AllocError, Global};
use std::collections::VecDeque;
use std::sync::Arc;
use std::thread::Threads;

/// The most blocks that one thread reads behind a slow one before another thread reads one again.
const MOST_BLOCKS_ALONE: u32 = 32;

/// Who reads the next blocks, where there are several workers. To join slow blocks takes as long as to read them, so one thread
/// reads where a run has such blocks. No clause says when: the answers don't depend on it.
#[derive(Clone, Copy)]
enum Readers {
    /// As many threads as there are workers, this one among them.
    All,
    /// This thread.
    Here {
        /// So many blocks. Then one is posted, a sample: it shows whether they are still slow to join.
        left: u32,
        /// How many they were at first.
        all: u32,
    },
}

impl Readers {
    /// Those behind a block that was joined, and is slow or isn't: behind the first slow one this thread reads two, and twice as
    /// many whenever the next that is posted is slow, too.
    fn behind_joined(self, is_slow: bool) -> Readers {
        let all = match self {
            _ if !is_slow => return Readers::All,
            Readers::All => 2,
            Readers::Here { all, .. } => all.saturating_mul(2).min(MOST_BLOCKS_ALONE),
        };
        Readers::Here { left: all, all }
    }

    /// Those behind a block that this thread has read.
    fn behind_one_here(self) -> Readers {
        match self {
            Readers::All => Readers::All,
            Readers::Here { left, all } => Readers::Here {
                left: left.saturating_sub(1),
                all,
            },
        }
    }

    /// How many blocks may wait to be joined behind a posted one, by so many workers: none where this thread reads them. Where all
    /// workers read, that is one for each, and one posted for each but one, so that none of them waits while this thread reads
    /// on or joins.
    fn most_waiting(self, workers: u32) -> usize
        ensures { result ≤ 2 * workers - 1 }
    {
        match self {
            Readers::All if workers > 1 => 2 * workers as usize - 1,
            Readers::Here { left: 0, .. } if workers > 1 => 1,
            _ => 0,
        }
    }
}

/// What the first events of a run come to, and the blocks behind them, which threads read, and which are to be joined onto it.
#[derive(Drop)]
pub(crate) struct Joining<A: SoFar> {
    pub(crate) so_far: A,
    /// The blocks, in order.
    pub(crate) waiting: VecDeque<Arc<Posted<A>>>,
    /// Who reads them.
    pub(crate) pool: Pool<A>,
    /// Who reads the next ones.
    readers: Readers,
}

impl<A: SoFar> Joining<A> {
    ghost use Rattle.spp_crew.specs.Joinings.{HasCome};

    /// Before the first event, or behind some, with no block and no thread.
    ///
    /// # Errors
    ///
    /// Where an allocation failed.
    pub(crate) fn behind(alloc: Global, so_far: A) -> Result<Self, AllocError>
        ensures come { IfOk result (λ j. (trace : Recording) (burdens : BurdensValue) (k : ℕ) → A.is_so_far trace burdens k so_far → HasCome A.is_so_far trace burdens k j) }
        ensures none { IfOk result (λ j. (length j.waiting.items ≡ 0) × (length j.pool.threads.items ≡ 0)) }
    {
        Ok(Joining {
            so_far,
            waiting: VecDeque::new(alloc),
            pool: Pool::new(alloc)?,
            readers: Readers::All,
        })
    }

    /// Whether this thread goes over the next block's events itself, behind blocks that were slow to join.
    pub(crate) fn reads_here(&self) -> bool {
        match self.readers {
            Readers::All => false,
            Readers::Here { left, .. } => left > 0,
        }
    }

    /// Whether a thread has read the first of the blocks, if there is one. No clause says when.
    fn has_found_first(&self) -> bool {
        match self.waiting.front() {
            Some(posted) => posted.is_read(),
            None => false,
        }
    }

    /// Whether a block waits that shows whether blocks are still slow to join.
    fn awaits_sample(&self) -> bool
        ensures { IsTrue result → 0 < length self.now.waiting.items }
    {
        match self.readers {
            Readers::Here { left: 0, .. } => !self.waiting.is_empty(),
            _ => false,
        }
    }

    /// Waits for the threads, and lets go of all.
    pub(crate) fn let_go<R: Threads>(self, rt: &R) {
        self.pool.let_go(rt);
        self.so_far.let_go(rt);
    }

    /// With the first of the blocks joined; gives its room too.
    ///
    /// # Errors
    ///
    /// The first bad event, if it was met, or `Memory` where an allocation failed. No thread is left then.
    fn join_first<R: Threads>(
        self,
        rt: &R,
        alloc: Global,
        burdens: Burdens,
    ) -> Result<(Self, Vec<u8>), ProfileFault>
        requires some { 0 < length self.waiting.items }
        requires come { (trace : Recording) × (k : ℕ) × HasCome A.is_so_far trace burdens k self }
        ensures come { IfOk result (λ j. (trace : Recording) (k : ℕ) → HasCome A.is_so_far trace burdens k self → HasCome A.is_so_far trace burdens k j.0) }
        ensures fewer { IfOk result (λ j. length j.0.waiting.items ≡ length self.waiting.items - 1) }
        ensures threads { IfOk result (λ j. length j.0.pool.threads.items ≤ length self.pool.threads.items) }
        ensures fault { IfErr result (λ f. (trace : Recording) (k : ℕ) → HasCome A.is_so_far trace burdens k self → IsFaultOf trace.records f) }
    {
        let Joining {
            so_far,
            mut waiting,
            mut pool,
            readers,
        } = self;
        let Some(posted) = waiting.pop_front() else {
            unreachable!();
        };
        let Ok(part) = pool.wait_for(rt, alloc, &posted) else {
            pool.let_go(rt);
            so_far.let_go(rt);
            return Err(ProfileFault::Memory);
        };
        let room = room_of(alloc, posted);
        let readers = readers.behind_joined(A::joins_slowly(&part));
        match so_far.join(rt, alloc, part, burdens) {
            Ok(so_far) => {
                let joining = Joining {
                    so_far,
                    waiting,
                    pool,
                    readers,
                };
                Ok((joining, room))
            }
            Err(fault) => {
                pool.let_go(rt);
                Err(fault)
            }
        }
    }

    /// With the block joined, if one waits, that shows whether blocks are still slow to join.
    ///
    /// # Errors
    ///
    /// The first bad event, if it was met, or `Memory` where an allocation failed. No thread is left then.
    fn join_sample<R: Threads>(
        self,
        rt: &R,
        alloc: Global,
        burdens: Burdens,
    ) -> Result<Self, ProfileFault>
        requires { (trace : Recording) × (k : ℕ) × HasCome A.is_so_far trace burdens k self }
        ensures come { IfOk result (λ j. (trace : Recording) (k : ℕ) → HasCome A.is_so_far trace burdens k self → HasCome A.is_so_far trace burdens k j) }
        ensures fewer { IfOk result (λ j. length j.waiting.items ≤ length self.waiting.items) }
        ensures threads { IfOk result (λ j. length j.pool.threads.items ≤ length self.pool.threads.items) }
        ensures fault { IfErr result (λ f. (trace : Recording) (k : ℕ) → HasCome A.is_so_far trace burdens k self → IsFaultOf trace.records f) }
    {
        if !self.awaits_sample() {
            return Ok(self);
        }
        match self.join_first(rt, alloc, burdens) {
            Ok((joining, _)) => Ok(joining),
            Err(fault) => Err(fault),
        }
    }

    /// With all blocks joined.
    ///
    /// # Errors
    ///
    /// The first bad event, if it was met, or `Memory` where an allocation failed. No thread is left then.
    fn join_all<R: Threads>(
        self,
        rt: &R,
        alloc: Global,
        burdens: Burdens,
    ) -> Result<Self, ProfileFault>
        requires { (trace : Recording) × (k : ℕ) × HasCome A.is_so_far trace burdens k self }
        ensures so_far { IfOk result (λ r. (trace : Recording) (k : ℕ) → HasCome A.is_so_far trace burdens k self → A.is_so_far trace burdens k r.so_far) }
        ensures none { IfOk result (λ r. length r.waiting.items ≡ 0) }
        ensures threads { IfOk result (λ r. length r.pool.threads.items ≤ length self.pool.threads.items) }
        ensures fault { IfErr result (λ f. (trace : Recording) (k : ℕ) → HasCome A.is_so_far trace burdens k self → IsFaultOf trace.records f) }
    {
        let mut joining = self;
        while !joining.waiting.is_empty() {
            joining = match joining.join_first(rt, alloc, burdens) {
                Ok((joining, _)) => joining,
                Err(fault) => return Err(fault),
            };
        }
        Ok(joining)
    }

    /// What all events come to, with all blocks joined.
    ///
    /// # Errors
    ///
    /// The first bad event, if it was met, or `Memory` where an allocation failed. No thread is left then.
    pub(crate) fn end<R: Threads>(
        self,
        rt: &R,
        alloc: Global,
        burdens: Burdens,
    ) -> Result<A, ProfileFault>
        requires { (trace : Recording) × (k : ℕ) × HasCome A.is_so_far trace burdens k self }
        ensures so_far { IfOk result (λ r. (trace : Recording) (k : ℕ) → HasCome A.is_so_far trace burdens k self → A.is_so_far trace burdens k r) }
        ensures fault { IfErr result (λ f. (trace : Recording) (k : ℕ) → HasCome A.is_so_far trace burdens k self → IsFaultOf trace.records f) }
    {
        match self.join_all(rt, alloc, burdens) {
            Ok(joining) => {
                joining.pool.let_go(rt);
                Ok(joining.so_far)
            }
            Err(fault) => Err(fault),
        }
    }

    /// Goes on by the next block as [`Joining::go_on`], but this thread reads it, behind the others.
    ///
    /// # Errors
    ///
    /// The first bad event, if it was met, or `Memory` where an allocation failed. No thread is left then.
    fn read_here<R: Threads>(
        self,
        rt: &R,
        alloc: Global,
        block: Block,
    ) -> Result<(Self, Vec<u8>), ProfileFault>
        requires readable { IsReadable block }
        requires come { (trace : Recording) × (k : ℕ) × HasCome A.is_so_far trace block.burdens k self × IsBlockAt trace block.burdens k block }
        ensures come { IfOk result (λ j. (trace : Recording) (k : ℕ) → HasCome A.is_so_far trace block.burdens k self → IsBlockAt trace block.burdens k block → HasCome A.is_so_far trace block.burdens (k + count_of block) j.0) }
        ensures threads { IfOk result (λ j. length j.0.pool.threads.items ≤ length self.pool.threads.items) }
        ensures none { IfOk result (λ j. length j.0.waiting.items ≡ 0) }
        ensures fault { IfErr result (λ f. (trace : Recording) (k : ℕ) → HasCome A.is_so_far trace block.burdens k self → IsBlockAt trace block.burdens k block → IsFaultOf trace.records f) }
    {
        let readers = self.readers.behind_one_here();
        let joined = match self.join_all(rt, alloc, block.burdens) {
            Ok(joined) => joined,
            Err(fault) => return Err(fault),
        };
        let Joining {
            so_far,
            waiting,
            pool,
            ..
        } = joined;
        match so_far.read(rt, alloc, &block) {
            Ok(so_far) => {
                let joining = Joining {
                    so_far,
                    waiting,
                    pool,
                    readers,
                };
                Ok((joining, block.bytes))
            }
            Err(fault) => {
                pool.let_go(rt);
                Err(fault)
            }
        }
    }

    /// Posts the next block, for any thread to read.
    ///
    /// # Errors
    ///
    /// Where an allocation failed. The block may wait or not then.
    fn post(&mut self, alloc: Global, block: Block) -> Result<(), AllocError>
        requires readable { IsReadable block }
        ensures come { OnOk result ((trace : Recording) (burdens : BurdensValue) (k : ℕ) → HasCome A.is_so_far trace burdens k self.old → IsBlockAt trace burdens k block → HasCome A.is_so_far trace burdens (k + count_of block) self.new) }
        ensures more { OnOk result (length self.new.waiting.items ≡ length self.old.waiting.items + 1) }
        ensures threads { OnOk result (self.new.pool.threads ≡ self.old.pool.threads) }
    {
        let posted = Posted::new(alloc, block)?;
        self.waiting.push_back(Arc::try_clone(&posted)?)?;
        self.pool.post(posted)
    }

    /// Goes on by the next block, and gives room, or none, for another one's bytes. With several workers the block is posted, for a
    /// thread to read; the first of those that wait is joined where one has read it, or where more wait than may. Where there is
    /// one worker, and for some blocks behind a slow one, this thread reads the block itself.
    ///
    /// # Errors
    ///
    /// The first bad event, if it was met, or `Memory` where an allocation failed. No thread is left then.
    pub(crate) fn go_on<R: Threads>(
        self,
        rt: &R,
        alloc: Global,
        block: Block,
        workers: u32,
    ) -> Result<(Self, Vec<u8>), ProfileFault>
        requires readable { IsReadable block }
        requires come { (trace : Recording) × (k : ℕ) × HasCome A.is_so_far trace block.burdens k self × IsBlockAt trace block.burdens k block }
        ensures come { IfOk result (λ j. (trace : Recording) (k : ℕ) → HasCome A.is_so_far trace block.burdens k self → IsBlockAt trace block.burdens k block → HasCome A.is_so_far trace block.burdens (k + count_of block) j.0) }
        ensures fault { IfErr result (λ f. (trace : Recording) (k : ℕ) → HasCome A.is_so_far trace block.burdens k self → IsBlockAt trace block.burdens k block → IsFaultOf trace.records f) }
        ensures threads { IfOk result (λ j. length j.0.pool.threads.items ≤ length self.pool.threads.items) }
        ensures few { IfOk result (λ j. length self.waiting.items < 2 * workers → length j.0.waiting.items < 2 * workers) }
    {
        let burdens = block.burdens;
        let mut joining = match self.join_sample(rt, alloc, burdens) {
            Ok(joining) => joining,
            Err(fault) => return Err(fault),
        };
        let most = joining.readers.most_waiting(workers);
        if most == 0 {
            return joining.read_here(rt, alloc, block);
        }
        let Ok(()) = joining.post(alloc, block) else {
            joining.let_go(rt);
            return Err(ProfileFault::Memory);
        };
        if joining.waiting.len() <= most && !joining.has_found_first() {
            return Ok((joining, Vec::new(alloc)));
        }
        joining.join_first(rt, alloc, burdens)
    }
}
