//! What a line of fault says, in one more line: what was found and where, what was expected, how a recorder mostly comes to
//! it, and what to do.
#![tactic(auto)]

mod expected;
mod explaining;
mod found;
mod front;
mod input;
mod line;

pub use explaining::explain;
pub use input::{FRONT, Input, Run};
