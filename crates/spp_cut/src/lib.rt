//! Parts of a trace: runs of its events, which borrow it.
#![tactic(auto)]

mod cutting;
mod cutting_bytes;
mod lending;
mod part;
mod parts;

pub use cutting::{Cut, CutFault, cut_at, cut_even};
pub use cutting_bytes::cut_bytes;
pub use lending::{events_before, lend};
pub use part::Part;
pub use parts::Parts;
