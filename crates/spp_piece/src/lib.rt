//! Pieces of a run, that is ranges of its events, as values: what a piece does to the open frames that it meets, and the
//! laws by which what neighbours do joins to what both do.
#![tactic(auto)]

mod laws;
mod pieces;
mod segs;
mod states;

pub use laws::piece_laws;
pub use pieces::{Frame, Unmatched};
pub use segs::Segs;
pub use states::{ClosingWeights, States};
