//! The frames that are open where each part of a trace begins, found from the summaries of the parts alone.
//!
//! The stacks share their frames: each open frame is a node that names the node of the frame below it, so that the
//! stacks of all parts together take memory linear in the numbers of parts and of frames that some part leaves open.
//! Two links of each node lead past the frames whose site, or whose function, is open further down too.
#![tactic(auto)]

mod frames;
mod node;
mod part_by_part;
mod stack_builder;
mod stacks;

pub use frames::Frames;
pub use node::Node;
pub use part_by_part::entries;
pub use stacks::{Entries, Entry};
