//! Blocks that are posted for any thread to read, and what they come to.

ghost use Rattle.std.specs.Prelude.{◌≡◌, IfOk, IfSome};
ghost use Rattle.std.specs.Arc.{arc_value};
ghost use Rattle.spp_crew.specs.Blocks.{IsReadable};

use crate::block::{Block, SoFar};
use counted_slot::{Counted, FREE, Fits, PRESENT, TAKEN};
use std::alloc::{AllocError, Global};
use std::sync::Arc;

/// What a thread found that read a block.
#[derive(Drop)]
pub(crate) struct Found<A: SoFar> {
    pub(crate) part: Result<A::Part, AllocError>,
}

impl<A: SoFar> Fits for Found<A> {
    type Tag = Block;

    ghost fits = { λ block found. IfOk found.part (A.is_part block) };
}

/// A block that is posted for any thread to read, and what it comes to, once one has. Threads share it.
#[derive(Drop)]
pub(crate) struct Posted<A: SoFar> {
    pub(crate) block: Block,
    pub(crate) found: Counted<Option<Found<A>>>,
    ghost readable: { IsReadable block },
    ghost of_block: { found ≡ block },
}

impl<A: SoFar> Posted<A> {
    /// That block, which no thread has read.
    ///
    /// # Errors
    ///
    /// Where an allocation failed.
    pub(crate) fn new(alloc: Global, block: Block) -> Result<Arc<Self>, AllocError>
        requires { IsReadable block }
        ensures { IfOk result (λ p. (arc_value p).block ≡ block) }
    {
        let found = Counted::new(None, &block);
        Ok(Arc::new(alloc, Posted { block, found })?)
    }

    /// Reads the block, and leaves there what it comes to.
    pub(crate) fn read(&self, alloc: Global) {
        let part = A::part_of(alloc, &self.block);
        let (word, claim) = self.found.turn(FREE, TAKEN);
        if word == FREE {
            drop(claim.put(Some(Found { part }), PRESENT));
        } else {
            // It was read before.
            claim.done();
        }
    }

    /// Whether a thread has read the block. No clause says when.
    pub(crate) fn is_read(&self) -> bool {
        self.found.load() == PRESENT
    }

    /// Takes away what a thread has found, if one has.
    pub(crate) fn take(&self) -> Option<Found<A>>
        ensures { IfSome result (λ found. IfOk found.part (A.is_part self.now.block)) }
    {
        let (word, claim) = self.found.turn(PRESENT, TAKEN);
        if word == PRESENT {
            claim.put(None, FREE)
        } else {
            claim.done();
            None
        }
    }
}

/// The room of a block that was read, or none where a thread still has it.
pub(crate) fn room_of<A: SoFar>(alloc: Global, posted: Arc<Posted<A>>) -> Vec<u8> {
    match Arc::into_inner(posted) {
        Some(posted) => posted.block.bytes,
        None => Vec::new(alloc),
    }
}
