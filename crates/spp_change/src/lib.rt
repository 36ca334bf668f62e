//! Changed runs: what is done to the events of a run to see what it would bring.
#![tactic(auto)]

mod change;
mod factor;
mod laws;

pub use change::Change;
pub use factor::Factor;
pub use laws::change_laws;
