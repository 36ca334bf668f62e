//! What of the open frames is on a path.

ghost use Rattle.std.specs.Prelude.{◌≡◌, ◌<◌, length, Some};
ghost use Rattle.spp_stack.specs.Chain.{IsTree};
ghost use Rattle.spp_path.specs.Flags.{is_called};
ghost use Rattle.spp_path.specs.Settled.{flags_from};

use spp_dag::FrameKind;
use spp_stack::Node;
use std::marker::Model;

/// What of an open frame is on a path.
#[derive(Clone, Copy, Debug, PartialEq, Eq)]
pub struct Flag {
    /// The path enters the frame.
    pub entered: bool,
    /// A strand directly in the frame would be on the path now.
    pub running: bool,
}

/// Goes through the frames that are open where a part begins, from the innermost outwards, and tells what of each is on a
/// path. Contracts see the flags that are left.
#[derive(Drop)]
pub struct Flags<'e> {
    nodes: &'e [Node],
    /// The number of the next frame's node.
    next: Option<u32>,
    /// That of the innermost frame that the path enters.
    live: u32,
    /// Whether the next frame that the path enters runs on.
    running: bool,
}

impl<'e> Model for Flags<'e> {
    ghost use Rattle.std.specs.Prelude.{List};
    ghost use Rattle.spp_stack.specs.Chain.{IsNextNode};
    ghost use Rattle.spp_path.specs.declared.flags.Flag.{Flag as FlagValue};
    ghost use Rattle.spp_path.specs.Settled.{flags_from};

    ghost Value = { List FlagValue };

    ghost view = { λ r. flags_from r.nodes.now r.live r.running r.next };

    ghost invariant = { λ r. IsNextNode r.nodes.now r.next };
}

/// Whether a frame that was entered so was called.
#[inline(always)]
pub(crate) fn is_called(kind: FrameKind) -> bool
    ensures { result ≡ is_called kind }
{
    match kind {
        FrameKind::Root | FrameKind::Spawned => false,
        FrameKind::Called => true,
    }
}

impl<'e> Flags<'e> {
    /// Those of the frames of the node `top` and of the nodes below it, of which the path enters that of the node `live`
    /// and all below.
    pub(crate) fn new(nodes: &'e [Node], top: u32, live: u32, running: bool) -> Self
        requires top { top < length nodes.now }
        requires tree { IsTree nodes.now }
        ensures { result ≡ flags_from nodes.now live running (Some top) }
    {
        Flags {
            nodes,
            next: Some(top),
            live,
            running,
        }
    }
}

impl<'e> Iterator for Flags<'e> {
    ghost use Rattle.std.specs.Iterator.{YieldsFirst, item_count};

    type Item = Flag;

    ghost next_gives = { YieldsFirst (λ r. r) };

    ghost remaining = { item_count (λ r. r) };

    /// What of the next frame is on the path; none behind the root.
    fn next(&mut self) -> Option<Flag> {
        let Some(number) = self.next else {
            return None;
        };
        let node = &self.nodes[number as usize];
        self.next = node.below;
        if number > self.live {
            return Some(Flag {
                entered: false,
                running: false,
            });
        }
        let running = self.running;
        self.running = is_called(node.frame.kind);
        Some(Flag {
            entered: true,
            running,
        })
    }
}
