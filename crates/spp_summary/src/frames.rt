//! The open frames of a summary, one after the other.
ghost use Rattle.std.specs.Prelude.{◌≡◌, ◌<◌, ◌≤◌, ◌^◌, [], ◌∷◌, length, take, reverse, None, IfSome};
ghost use Rattle.spp_piece.specs.Bound.{load_frames};
ghost use Rattle.spp_summary.specs.Storage.{seen, IsLaid};
ghost use Rattle.spp_summary.specs.KeptFrames.{kept_of, past};

use crate::opens::{Kept, Open};
use crate::storage::Storage;
use spp_piece::Frame;
use std::collections::VecDeque;
use std::marker::Model;

/// Reads the open frames of a summary, the innermost first. Contracts see the frames that are left. It takes a constant
/// time for each.
#[derive(Drop)]
pub struct FrameReader<'a> {
    opens: &'a VecDeque<Open>,
    states: &'a VecDeque<Kept>,
    /// How many of the frames are left, the outermost ones.
    left: usize,
    /// How many of the kept states.
    kept: usize,
    /// What has run since the innermost of those that are left was opened, and the work before.
    run: u128,
    before: u128,
}

impl<'a> Model for FrameReader<'a> {
    ghost use Rattle.std.specs.Prelude.{List, take, reverse};
    ghost use Rattle.spp_piece.specs.declared.pieces.Frame.{Frame};
    ghost use Rattle.spp_summary.specs.KeptFrames.{frames_of};
    ghost use Rattle.spp_summary.specs.Joining.{AreRead};

    ghost Value = { List Frame };

    ghost view = { λ r. frames_of r.run r.before (reverse (take r.left r.opens.now.items)) (reverse (take r.kept r.states.now.items)) };

    ghost invariant = { λ r. AreRead r.run r.before r.left r.opens.now.items r.kept r.states.now.items };
}

impl<'a> FrameReader<'a> {
    pub(crate) fn new(storage: &'a Storage) -> Self
        requires laid { IsLaid storage.now }
        requires load { load_frames (seen storage.now).frames < 2 ^ 127 }
        ensures { result ≡ (seen storage.now).frames }
    {
        FrameReader {
            opens: &storage.opens,
            states: &storage.states,
            left: storage.opens.len(),
            kept: storage.states.len(),
            run: storage.run,
            before: storage.before,
        }
    }
}

impl<'a> Iterator for FrameReader<'a> {
    ghost use Rattle.std.specs.Iterator.{YieldsFirst, item_count};

    type Item = Frame;

    ghost next_gives = { YieldsFirst (λ r. r) };

    ghost remaining = { item_count (λ r. r) };

    /// The next frame; none where each was read.
    fn next(&mut self) -> Option<Frame> {
        if self.left == 0 {
            return None;
        }
        let open = self.opens[self.left - 1];
        let (kept, others) = last_kept(self.states, self.kept, open.kept);
        let frame = open.frame(self.before, kept.ran(self.run));
        self.left -= 1;
        self.kept = others;
        self.run = open.gap;
        self.before -= open.gap;
        Some(frame)
    }
}

/// The states of a frame, which are the last of so many where they are kept, and how many are left before them.
fn last_kept(states: &VecDeque<Kept>, left: usize, kept: bool) -> (Kept, usize)
    requires { left ≤ length states.now.items }
    ensures value { result.0 ≡ kept_of kept (reverse (take left states.now.items)) }
    ensures rest { reverse (take result.1 states.now.items) ≡ past kept (reverse (take left states.now.items)) }
    ensures fits { result.1 ≤ left }
{
    if !kept || left == 0 {
        return (Kept::fresh(), left);
    }
    (states[left - 1], left - 1)
}
