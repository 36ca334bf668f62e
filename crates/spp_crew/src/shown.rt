//! What the events that have come of a run show.

ghost use Rattle.std.specs.Prelude.{◌≡◌, ◌+◌, ◌*◌, ◌≤◌, ◌<◌, ◌^◌, ℕ, length, IfOk, IfSome};
ghost use Rattle.spp_event.specs.Recordings.{Recording, count_in};
ghost use Rattle.spp_maxplus.specs.declared.state.Burdens.{Burdens as BurdensValue};
ghost use Rattle.spp_crew.specs.Blocks.{IsBlockAt, bytes_of, count_of};
ghost use Rattle.spp_crew.specs.declared.shown.Shown.TheVariants.{Good as IsGood};

use crate::block::{Block, SoFar};
use crate::joining::Joining;
use crate::pool::NewThread;
use spp_frame::{Fault, ProfileFault};
use std::alloc::{AllocError, Global};
use std::sync::Arc;
use std::thread::{JoinHandle, Threads};

/// What the events that have come of a run show.
#[derive(Drop)]
pub(crate) enum Shown<A: SoFar> {
    /// None of those that were joined is bad.
    Good(Joining<A>),
    /// The first bad event.
    Bad(Fault),
}

impl<A: SoFar> Shown<A> {
    ghost use Rattle.spp_crew.specs.Joinings.{HasCome, IsShown, threads_in, waiting_in};
    ghost use Rattle.spp_crew.specs.declared.joining.Joining.{Joining as JoiningValue};

    /// What they show with those of the next block, and room for another one's bytes, in a trace whose header claims so many
    /// events. Nothing is meant by it where more have come: these are of no trace.
    ///
    /// # Errors
    ///
    /// Where an allocation failed. No thread is left then.
    pub(crate) fn followed_by<R: Threads>(
        self,
        rt: &R,
        alloc: Global,
        block: Block,
        count: u32,
        workers: u32,
    ) -> Result<(Self, Vec<u8>), AllocError>
        requires sites { block.sites ≤ 65536 }
        requires funcs { block.funcs ≤ 65536 }
        requires within { block.len ≤ length block.bytes.items }
        requires counted { count_of block ≡ count_in block.version (bytes_of block) }
        requires room { block.first + count_of block < 2 ^ 32 }
        requires few { count ≤ 2 ^ 28 }
        requires come { (joining : JoiningValue A A.Part A.SoFar) → self ≡ IsGood joining → block.first + count_of block ≤ count → (trace : Recording) × HasCome A.is_so_far trace block.burdens block.first joining × IsBlockAt trace block.burdens block.first block }
        ensures shown { IfOk result (λ r. (trace : Recording) → block.first + count_of block ≤ count → IsShown A.is_so_far trace block.burdens block.first self → IsBlockAt trace block.burdens block.first block → IsShown A.is_so_far trace block.burdens (block.first + count_of block) r.0) }
        ensures threads { IfOk result (λ r. threads_in r.0 ≤ threads_in self) }
        ensures few { IfOk result (λ r. waiting_in self < 2 * workers → waiting_in r.0 < 2 * workers) }
    {
        if block.first + block.count > count {
            return Ok((self, block.bytes));
        }
        match self {
            Shown::Bad(fault) => Ok((Shown::Bad(fault), block.bytes)),
            Shown::Good(joining) => match joining.go_on(rt, alloc, block, workers) {
                Ok((joining, room)) => Ok((Shown::Good(joining), room)),
                Err(ProfileFault::Bad(fault)) => Ok((Shown::Bad(fault), Vec::new(alloc))),
                Err(ProfileFault::Memory) => Err(AllocError),
            },
        }
    }

    /// Whether this thread goes over the next block's events itself, behind blocks that were slow to join.
    pub(crate) fn reads_here(&self) -> bool {
        match self {
            Shown::Good(joining) => joining.reads_here(),
            Shown::Bad(_) => false,
        }
    }

    /// A thread to be started, where a posted block is still to be read and there are fewer threads than workers but one.
    pub(crate) fn new_thread<R: Threads>(
        &mut self,
        rt: &R,
        alloc: Global,
        workers: u32,
    ) -> Option<NewThread<A>>
        ensures same { (trace : Recording) (burdens : BurdensValue) (k : ℕ) → IsShown A.is_so_far trace burdens k self.old → IsShown A.is_so_far trace burdens k self.new }
        ensures waiting { waiting_in self.new ≡ waiting_in self.old }
        ensures fewer { threads_in self.new ≤ threads_in self.old }
        ensures room { IfSome result (λ new_thread. threads_in self.new + 1 < workers) }
    {
        match self {
            Shown::Good(joining) => joining
                .pool
                .new_thread(rt, alloc, workers.saturating_sub(1) as usize),
            Shown::Bad(_) => None,
        }
    }

    /// With a thread more that reads blocks.
    pub(crate) fn add_thread<R: Threads>(&mut self, rt: &R, thread: JoinHandle<()>, alive: Arc<()>)
        ensures same { (trace : Recording) (burdens : BurdensValue) (k : ℕ) → IsShown A.is_so_far trace burdens k self.old → IsShown A.is_so_far trace burdens k self.new }
        ensures waiting { waiting_in self.new ≡ waiting_in self.old }
        ensures more { threads_in self.new ≤ threads_in self.old + 1 }
    {
        match self {
            Shown::Good(joining) => joining.pool.add_thread(rt, thread, alive),
            Shown::Bad(_) => {
                drop(alive);
                thread.join(rt);
            }
        }
    }

    /// Waits for the threads that still read events, and lets go of all.
    pub(crate) fn let_go<R: Threads>(self, rt: &R) {
        match self {
            Shown::Good(joining) => joining.let_go(rt),
            Shown::Bad(_) => {}
        }
    }
}
