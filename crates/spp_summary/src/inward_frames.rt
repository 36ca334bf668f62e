//! The open frames of a summary, one after the other, from the outermost on.
ghost use Rattle.std.specs.Prelude.{◌≡◌, ◌<◌, ◌^◌, reverse};
ghost use Rattle.spp_piece.specs.Bound.{load_frames};
ghost use Rattle.spp_summary.specs.Storage.{seen, IsLaid};

use crate::opens::{Kept, Open};
use crate::storage::Storage;
use spp_piece::Frame;
use std::collections::VecDeque;
use std::marker::Model;

/// Reads the open frames of a summary, the outermost first. Contracts see the frames that are left. It takes a constant
/// time for each, and no memory.
#[derive(Drop)]
pub struct InwardFrames<'a> {
    opens: &'a VecDeque<Open>,
    states: &'a VecDeque<Kept>,
    /// How many of the frames were read.
    read: usize,
    /// How many of the kept states.
    kept: usize,
    /// What has run since the innermost was opened.
    run: u128,
    /// The work before the last that was read.
    before: u128,
}

impl<'a> Model for InwardFrames<'a> {
    ghost use Rattle.std.specs.Prelude.{List, drop};
    ghost use Rattle.spp_piece.specs.declared.pieces.Frame.{Frame};
    ghost use Rattle.spp_summary.specs.KeptFrames.{frames_inwards};
    ghost use Rattle.spp_summary.specs.Joining.{AreReadInwards};

    ghost Value = { List Frame };

    ghost view = { λ r. frames_inwards r.run r.before (drop r.read r.opens.now.items) (drop r.kept r.states.now.items) };

    ghost invariant = { λ r. AreReadInwards r.run r.before r.read r.opens.now.items r.kept r.states.now.items };
}

impl<'a> InwardFrames<'a> {
    pub(crate) fn new(storage: &'a Storage) -> Self
        requires laid { IsLaid storage.now }
        requires load { load_frames (seen storage.now).frames < 2 ^ 127 }
        ensures { result ≡ reverse (seen storage.now).frames }
    {
        // For its bound: the work before the innermost.
        let _all = storage.before;
        InwardFrames {
            opens: &storage.opens,
            states: &storage.states,
            read: 0,
            kept: 0,
            run: storage.run,
            before: 0,
        }
    }
}

impl<'a> Iterator for InwardFrames<'a> {
    ghost use Rattle.std.specs.Iterator.{YieldsFirst, item_count};

    type Item = Frame;

    ghost next_gives = { YieldsFirst (λ r. r) };

    ghost remaining = { item_count (λ r. r) };

    /// The next frame; none where each was read.
    fn next(&mut self) -> Option<Frame> {
        if self.read == self.opens.len() {
            return None;
        }
        let open = self.opens[self.read];
        self.read += 1;
        self.before += open.gap;
        let run = match self.opens.get(self.read) {
            Some(next) => next.gap,
            None => self.run,
        };
        if !open.kept {
            return Some(open.frame(self.before, Kept::fresh().ran(run)));
        }
        let kept = self.states[self.kept];
        self.kept += 1;
        Some(open.frame(self.before, kept.ran(run)))
    }
}
