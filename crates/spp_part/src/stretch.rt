//! Stretches of events.

ghost use Rattle.std.specs.Prelude.{◌≡◌, IfOk, IfSome};
ghost use Rattle.spp_part.specs.Parts.{stretch_of, strands_alone, stored_of};

use spp_pass::{CountedStretch, StretchCalls};
use spp_ways::LoggedStretch;
use std::alloc::{AllocError, Global};

/// What a stretch of events comes to: events of a part in which the frame in which they begin, its outer frame, neither returns
/// nor waits for a child that may have been spawned before them.
#[derive(Drop)]
pub(crate) struct Stretch {
    /// Its frames.
    pub(crate) counted: CountedStretch,
    /// The frames that have closed in it.
    pub(crate) calls: StretchCalls,
    /// Its ways.
    pub(crate) logged: LoggedStretch,
}

impl Stretch {
    /// The instructions of its strands, if it is strands alone.
    fn strand(&self) -> Option<u64>
        ensures { IfSome result (λ n. strands_alone n ≡ stretch_of self.now) }
    {
        let count = self.counted.strand()?;
        if self.calls.is_empty() && self.logged.is_strand(count) {
            Some(count)
        } else {
            None
        }
    }
}

/// What a stretch that has ended comes to. Most are strands alone where many frames are open, and these take no memory of
/// their own.
#[derive(Drop)]
pub(crate) enum StoredStretch {
    /// Strands alone, of so many instructions together.
    Strand(u64),
    /// Anything else.
    Whole(Box<Stretch>),
}

impl StoredStretch {
    /// What that stretch comes to.
    ///
    /// # Errors
    ///
    /// Where an allocation failed.
    pub(crate) fn of(alloc: Global, stretch: Stretch) -> Result<Self, AllocError>
        ensures { IfOk result (λ k. stored_of k ≡ stretch_of stretch) }
    {
        match stretch.strand() {
            Some(count) => Ok(StoredStretch::Strand(count)),
            None => Ok(StoredStretch::Whole(Box::new(alloc, stretch)?)),
        }
    }
}

/// What the outer frame does where a stretch ends.
#[derive(Clone, Copy, Debug, PartialEq, Eq)]
pub(crate) enum End {
    /// It returns.
    Return,
    /// It waits.
    Sync,
}

/// A stretch that has ended.
#[derive(Drop)]
pub(crate) struct EndedStretch {
    /// What it comes to.
    pub(crate) stored: StoredStretch,
    /// How many events of the part come before the one that ends it.
    pub(crate) at: u32,
    /// What that is.
    pub(crate) end: End,
}

// A part has one of them for each return of a frame that was open before.
const _: () = prove!(size_of::<EndedStretch>() == 24);
