//! What a profiler knows of an open frame, two weights, and what the events of a run do to them, also as values that
//! can be kept and applied later. All weights, spans and burdens are in instructions.
#![tactic(auto)]

mod candidate;
mod child;
mod laws;
mod seg;
mod state;
mod weights;

pub use child::ChildKind;
pub use laws::seg_laws;
pub use seg::Seg;
pub use state::{Burdens, State};
pub use weights::Weights;
