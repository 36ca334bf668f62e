//! Unmatched returns as they are kept.
ghost use Rattle.std.specs.Prelude.{◌≡◌, ◌+◌, ◌-◌, ◌<◌, ◌≤◌, ◌^◌, [], ◌∷◌, ◌++◌, length, None, IfOk, IfSome, OnOk};
ghost use Rattle.spp_piece.specs.Pair.{strand as both_strand};
ghost use Rattle.spp_summary.specs.Returns.{return_of, unmatched_of, HasReturnRoom};

use crate::lists::{chained, copied};
use spp_piece::{Segs, Unmatched};
use std::alloc::{AllocError, Global};
use std::collections::VecDeque;
use std::marker::Model;

/// An unmatched return, as it is kept: 16 bytes, since the position, of 4, lies behind the mark of the variant.
#[derive(Clone, Copy)]
pub(crate) enum Close {
    /// Since the last such return a strand alone has happened to its frame, or what is like one, whose instructions fit
    /// into 64 bits.
    Strand {
        /// The position of the return.
        at: u32,
        /// The instructions of the strand.
        run: u64,
    },
    /// More has happened, or a longer strand. It is in a list of its own.
    Kept {
        /// The position of the return.
        at: u32,
    },
}

/// One of them, with what has happened to its frame.
#[derive(Clone, Copy)]
pub(crate) enum Return {
    /// A strand alone, or what is like one, whose instructions fit into 64 bits.
    Strand {
        /// The instructions of the strand.
        run: u64,
        /// The position of the return.
        at: u32,
    },
    /// More than that, or a longer strand.
    Kept {
        /// What the events do to the frame.
        segs: Segs,
        /// The position of the return.
        at: u32,
    },
}

/// Unmatched returns, in order. Before most of them a strand alone happens to the frame, whose instructions fit into 64
/// bits; what happens before the others is kept in full. Both ends of the list are open, so that joins cost by the shorter
/// side.
///
/// Contracts see the returns, how many of them are kept in full, and for how many of either there is room.
#[derive(Drop)]
pub(crate) struct Returns {
    closes: VecDeque<Close>,
    /// What happens to the frames of those that are kept in full, in the same order.
    segs: VecDeque<Segs>,
}

impl Model for Returns {
    ghost use Rattle.std.specs.Prelude.{◌≡◌, length};
    ghost use Rattle.std.specs.VecDeque.{deque_len, deque_capacity};
    ghost use Rattle.spp_summary.specs.Returns.{Returned, returns_of, kept_count};

    ghost Value = { Returned };

    ghost view = { λ r. record { items = returns_of r.closes.items r.segs.items; kept = deque_len r.segs; room = deque_capacity r.closes; kept_room = deque_capacity r.segs } };

    ghost invariant = { λ r. kept_count r.closes.items ≡ length r.segs.items };
}

/// Reads them in order. Contracts see those that are left.
#[derive(Drop)]
pub(crate) struct ReturnsLeft<'a> {
    closes: &'a VecDeque<Close>,
    segs: &'a VecDeque<Segs>,
    /// How many were read.
    read: usize,
    /// How many of those are kept in full.
    kept: usize,
}

impl<'a> Model for ReturnsLeft<'a> {
    ghost use Rattle.std.specs.Prelude.{◌≡◌, List, length, drop};
    ghost use Rattle.spp_piece.specs.declared.pieces.Unmatched.{Unmatched};
    ghost use Rattle.spp_summary.specs.Returns.{returns_of, kept_count};

    ghost Value = { List Unmatched };

    ghost view = { λ r. returns_of (drop r.read r.closes.now.items) (drop r.kept r.segs.now.items) };

    ghost invariant = { λ r. kept_count (drop r.read r.closes.now.items) ≡ length (drop r.kept r.segs.now.items) };
}

/// Reads the unmatched returns of a summary, the first one first. Contracts see the returns that are left. It takes a
/// constant time for each.
#[derive(Drop)]
pub struct ReturnReader<'a> {
    left: ReturnsLeft<'a>,
}

impl<'a> Model for ReturnReader<'a> {
    ghost use Rattle.std.specs.Prelude.{List};
    ghost use Rattle.spp_piece.specs.declared.pieces.Unmatched.{Unmatched};

    ghost Value = { List Unmatched };

    ghost view = { λ r. r.left };
}

impl Returns {
    /// None. They take no memory.
    pub(crate) fn new(alloc: Global) -> Self
        ensures { result.items ≡ [] }
    {
        Returns {
            closes: VecDeque::new(alloc),
            segs: VecDeque::new(alloc),
        }
    }

    /// How many there are.
    #[tactic(auto, using(crate::proofs::Closes::returns_len))]
    pub(crate) fn len(&self) -> usize
        ensures { result ≡ length self.now.items }
    {
        self.closes.len()
    }

    /// One more, before which that happens to the frame.
    #[inline(always)]
    pub(crate) fn push(&mut self, segs: &Segs, at: u32) -> Result<(), AllocError>
        ensures { OnOk result (self.new.items ≡ self.old.items ++ return_of segs.now at ∷ []) }
    {
        if let Some(run) = segs.as_strand() {
            self.closes.push_back(Close::Strand { at, run })?;
            return Ok(());
        }
        self.push_kept(segs, at)
    }

    /// One more, which is kept in full.
    #[inline(never)]
    fn push_kept(&mut self, segs: &Segs, at: u32) -> Result<(), AllocError>
        ensures { OnOk result (self.new.items ≡ self.old.items ++ return_of segs.now at ∷ []) }
    {
        self.closes.reserve(1)?;
        self.segs.push_back(*segs)?;
        self.closes.push_back_reserved(Close::Kept { at });
        Ok(())
    }

    /// One more in front of all, before which that happens to the frame, and for which there is room.
    #[tactic(auto, using(crate::proofs::Closes::returns_len))]
    pub(crate) fn push_front_reserved(&mut self, segs: &Segs, at: u32)
        requires room { length self.old.items < self.old.room }
        requires kept { self.old.kept < self.old.kept_room }
        ensures items { self.new.items ≡ return_of segs.now at ∷ self.old.items }
        ensures kept { self.new.kept ≤ self.old.kept + 1 }
        ensures room { self.new.room ≡ self.old.room }
        ensures kept_room { self.new.kept_room ≡ self.old.kept_room }
    {
        match segs.as_strand() {
            Some(run) => self.closes.push_front_reserved(Close::Strand { at, run }),
            None => {
                self.segs.push_front_reserved(*segs);
                self.closes.push_front_reserved(Close::Kept { at });
            }
        }
    }

    /// Takes the first one out.
    #[tactic(auto, using(crate::proofs::Closes::returns_len))]
    #[inline(always)]
    pub(crate) fn pop_front(&mut self) -> Option<Return>
        ensures some { IfSome result (λ r. self.old.items ≡ unmatched_of r ∷ self.new.items) }
        ensures none { result ≡ None → self.old.items ≡ [] }
        ensures last { result ≡ None → self.new.items ≡ [] }
        ensures kept { self.new.kept ≤ self.old.kept }
        ensures fits { IfSome result (λ _. length self.new.items < self.new.room) }
        ensures room { self.new.room ≡ self.old.room }
        ensures kept_room { self.new.kept_room ≡ self.old.kept_room }
    {
        match self.closes.pop_front()? {
            Close::Strand { at, run } => Some(Return::Strand { run, at }),
            Close::Kept { at } => {
                let segs = self.segs.pop_front()?;
                Some(Return::Kept { segs, at })
            }
        }
    }

    /// Takes room for so many more, and for so many that are kept in full.
    #[tactic(auto, using(crate::proofs::Closes::returns_len))]
    fn reserve(&mut self, more: usize, kept: usize) -> Result<(), AllocError>
        ensures items { self.new.items ≡ self.old.items }
        ensures kept { self.new.kept ≡ self.old.kept }
        ensures room { OnOk result (length self.new.items + more ≤ self.new.room) }
        ensures kept_room { OnOk result (self.new.kept + kept ≤ self.new.kept_room) }
        ensures room_stays { self.old.room ≤ self.new.room }
        ensures kept_room_stays { self.old.kept_room ≤ self.new.kept_room }
    {
        self.segs.reserve(kept)?;
        self.closes.reserve(more)
    }

    /// Takes room to chain these and those of a later piece that are left once so many frames have closed, the first of
    /// which may have to be kept in full: in the list of which there are more.
    pub(crate) fn make_room(&mut self, frames: usize, later: &mut Returns) -> Result<(), AllocError>
        ensures items { self.new.items ≡ self.old.items }
        ensures later { later.new.items ≡ later.old.items }
        ensures room { OnOk result (HasReturnRoom frames self.new later.new) }
    {
        let unmatched = later.len().saturating_sub(frames);
        if unmatched == 0 {
            return Ok(());
        }
        later.reserve(0, 1)?;
        if unmatched <= self.len() {
            self.reserve(unmatched, later.segs.len() + 1)
        } else {
            later.reserve(self.len(), self.segs.len() + 1)
        }
    }

    /// These and then those of a later piece. It moves the fewer of the two, for which there is room in the other list.
    #[tactic(auto, using(crate::proofs::Closes::returns_len))]
    pub(crate) fn chained(self, later: Returns) -> Returns
        requires room { 0 < length later.items → length later.items ≤ length self.items → length self.items + length later.items ≤ self.room }
        requires kept { 0 < length later.items → length later.items ≤ length self.items → self.kept + later.kept ≤ self.kept_room }
        requires later_room { length self.items < length later.items → length self.items + length later.items ≤ later.room }
        requires later_kept { length self.items < length later.items → self.kept + later.kept ≤ later.kept_room }
        ensures { result.items ≡ self.items ++ later.items }
    {
        if later.len() == 0 {
            return self;
        }
        let into_first = later.len() <= self.len();
        Returns {
            closes: chained(self.closes, later.closes, into_first),
            segs: chained(self.segs, later.segs, into_first),
        }
    }

    /// Reads them, the first one first.
    pub(crate) fn iter(&self) -> ReturnsLeft<'_>
        ensures { result ≡ self.now.items }
    {
        ReturnsLeft {
            closes: &self.closes,
            segs: &self.segs,
            read: 0,
            kept: 0,
        }
    }

    /// The same once more.
    pub(crate) fn copy(&self, alloc: Global) -> Result<Returns, AllocError>
        ensures { IfOk result (λ r. r.items ≡ self.now.items) }
    {
        Ok(Returns {
            closes: copied(alloc, &self.closes)?,
            segs: copied(alloc, &self.segs)?,
        })
    }
}

impl<'a> ReturnsLeft<'a> {
    /// The next one.
    #[inline(always)]
    pub(crate) fn next(&mut self) -> Option<Return>
        ensures some { IfSome result (λ r. self.old ≡ unmatched_of r ∷ self.new) }
        ensures none { result ≡ None → self.old ≡ [] }
        ensures last { result ≡ None → self.new ≡ [] }
    {
        match *self.closes.get(self.read)? {
            Close::Strand { at, run } => {
                self.read += 1;
                Some(Return::Strand { run, at })
            }
            Close::Kept { at } => {
                let segs = *self.segs.get(self.kept)?;
                self.read += 1;
                self.kept += 1;
                Some(Return::Kept { segs, at })
            }
        }
    }
}

impl Return {
    /// The position of the return.
    pub(crate) fn at(&self) -> u32
        ensures { result ≡ (unmatched_of self.now).at }
    {
        match self {
            Return::Strand { at, .. } => *at,
            Return::Kept { at, .. } => *at,
        }
    }

    /// The return in full.
    pub(crate) fn unmatched(&self) -> Unmatched
        ensures { result ≡ unmatched_of self.now }
    {
        match self {
            Return::Strand { run, at } => Unmatched {
                segs: Segs::strand(*run),
                at: *at,
            },
            Return::Kept { segs, at } => Unmatched {
                segs: *segs,
                at: *at,
            },
        }
    }
}

impl<'a> ReturnReader<'a> {
    pub(crate) fn new(returns: &'a Returns) -> Self
        ensures { result ≡ returns.now.items }
    {
        ReturnReader {
            left: returns.iter(),
        }
    }
}

impl<'a> Iterator for ReturnReader<'a> {
    ghost use Rattle.std.specs.Iterator.{YieldsFirst, item_count};

    type Item = Unmatched;

    ghost next_gives = { YieldsFirst (λ r. r) };

    ghost remaining = { item_count (λ r. r) };

    /// The next return; none where each was read.
    fn next(&mut self) -> Option<Unmatched> {
        match self.left.next() {
            None => None,
            Some(next) => Some(next.unmatched()),
        }
    }
}
