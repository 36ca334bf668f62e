//! The open frames of an entry, one after the other.

ghost use Rattle.std.specs.Prelude.{◌≡◌, ◌<◌, length, Some};
ghost use Rattle.spp_stack.specs.Chain.{IsTree, frames_from};

use crate::node::Node;
use spp_dag::EntryFrame;
use std::marker::Model;

/// Goes through the frames that are open at one place of a trace, from the innermost outwards. Contracts see the frames
/// that are left.
#[derive(Drop)]
pub struct Frames<'e> {
    nodes: &'e [Node],
    /// The number of the next frame's node.
    next: Option<u32>,
}

impl<'e> Model for Frames<'e> {
    ghost use Rattle.std.specs.Prelude.{List};
    ghost use Rattle.spp_dag.specs.declared.stack.EntryFrame.{EntryFrame};
    ghost use Rattle.spp_stack.specs.Chain.{IsNextNode, frames_from};

    ghost Value = { List EntryFrame };

    ghost view = { λ r. frames_from r.nodes.now r.next };

    ghost invariant = { λ r. IsNextNode r.nodes.now r.next };
}

impl<'e> Frames<'e> {
    /// Those of the node of that number and of the nodes below it.
    pub(crate) fn new(nodes: &'e [Node], top: u32) -> Self
        requires top { top < length nodes.now }
        requires tree { IsTree nodes.now }
        ensures { result ≡ frames_from nodes.now (Some top) }
    {
        Frames {
            nodes,
            next: Some(top),
        }
    }
}

impl<'e> Iterator for Frames<'e> {
    ghost use Rattle.std.specs.Iterator.{YieldsFirst, item_count};

    type Item = EntryFrame;

    ghost next_gives = { YieldsFirst (λ r. r) };

    ghost remaining = { item_count (λ r. r) };

    /// The next frame; none behind the root.
    fn next(&mut self) -> Option<EntryFrame> {
        let Some(number) = self.next else {
            return None;
        };
        let node = &self.nodes[number as usize];
        self.next = node.below;
        Some(node.frame)
    }
}
