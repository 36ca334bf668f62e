//! Blocks of events, and what the first events of a run come to, onto which blocks are joined.

ghost use Rattle.std.specs.Prelude.{◌≡◌, ◌+◌, ℕ, IfOk, IfErr};
ghost use Rattle.spp_event.specs.Recordings.{Recording};
ghost use Rattle.spp_frame.specs.Answers.{IsFaultOf};
ghost use Rattle.spp_maxplus.specs.declared.state.Burdens.{Burdens as BurdensValue};
ghost use Rattle.spp_crew.specs.Blocks.{IsReadable, IsBlockAt, count_of};

use spp_event::Version;
use spp_frame::ProfileFault;
use spp_maxplus::Burdens;
use std::alloc::{AllocError, Global};
use std::thread::Threads;

/// The bytes of a record.
pub(crate) const RECORD: usize = 16;

/// The events of a block, and how they are read.
#[derive(Drop)]
pub(crate) struct Block {
    /// How they are spelled.
    pub(crate) version: Version,
    /// Their bytes, and others behind them.
    pub(crate) bytes: Vec<u8>,
    /// How many bytes they have.
    pub(crate) len: usize,
    /// How many events they are.
    pub(crate) count: u32,
    /// The position of the first.
    pub(crate) first: u32,
    /// How many sites the trace has.
    pub(crate) sites: u32,
    /// How many functions.
    pub(crate) funcs: u32,
    /// The burdens under which they are read.
    pub(crate) burdens: Burdens,
}

/// What the first events of a run come to, onto which blocks are joined.
pub(crate) trait SoFar: Drop {
    ghost use Rattle.spp_crew.specs.declared.block.Block.{Block};

    /// What a block comes to.
    type Part: Drop;

    // that is what the block comes to, in whichever trace it stands
    ghost is_part: { Block → Self.Part → Type 0 };

    // that is what so many events come to, which are the first of a trace, under these burdens
    ghost is_so_far: { Recording → BurdensValue → ℕ → Self → Type 0 };

    /// What a block comes to.
    ///
    /// # Errors
    ///
    /// Where an allocation failed.
    fn part_of(alloc: Global, block: &Block) -> Result<Self::Part, AllocError>
        requires { IsReadable block.now }
        ensures { IfOk result (is_part block.now) };

    /// Waits for the threads that it has, and lets go of all.
    fn let_go<R: Threads>(self, rt: &R);

    /// Whether to join what a block comes to takes about as long as to read the block. No clause says when: answers don't depend
    /// on it.
    fn joins_slowly(part: &Self::Part) -> bool;

    /// Goes on by what the next block comes to.
    ///
    /// # Errors
    ///
    /// The first bad event, if it was met, or `Memory` where an allocation failed. No thread of its own is left then.
    fn join<R: Threads>(
        self,
        rt: &R,
        alloc: Global,
        part: Self::Part,
        burdens: Burdens,
    ) -> Result<Self, ProfileFault>
        requires { (trace : Recording) × (i : ℕ) × (block : Block) × is_so_far trace burdens i self × IsBlockAt trace burdens i block × is_part block part }
        ensures so_far { IfOk result (λ s. (trace : Recording) (i : ℕ) (block : Block) → is_so_far trace burdens i self → IsBlockAt trace burdens i block → is_part block part → is_so_far trace burdens (i + count_of block) s) }
        ensures fault { IfErr result (λ f. (trace : Recording) (i : ℕ) (block : Block) → is_so_far trace burdens i self → IsBlockAt trace burdens i block → is_part block part → IsFaultOf trace.records f) };

    /// Goes on by the next block, which this thread reads.
    ///
    /// # Errors
    ///
    /// The first bad event, if it was met, or `Memory` where an allocation failed. No thread of its own is left then.
    fn read<R: Threads>(self, rt: &R, alloc: Global, block: &Block) -> Result<Self, ProfileFault>
        requires readable { IsReadable block.now }
        requires so_far { (trace : Recording) × (i : ℕ) × is_so_far trace block.now.burdens i self × IsBlockAt trace block.now.burdens i block.now }
        ensures so_far { IfOk result (λ s. (trace : Recording) (i : ℕ) → is_so_far trace block.now.burdens i self → IsBlockAt trace block.now.burdens i block.now → is_so_far trace block.now.burdens (i + count_of block.now) s) }
        ensures fault { IfErr result (λ f. (trace : Recording) (i : ℕ) → is_so_far trace block.now.burdens i self → IsBlockAt trace block.now.burdens i block.now → IsFaultOf trace.records f) };
}
