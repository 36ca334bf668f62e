//! What a user asks for, or why the words of a command line ask for nothing.
#![tactic(auto)]

mod advise_options;
mod request;
mod workers;

pub use advise_options::AdviseOptions;
pub use request::{Command, Request, UsageFault};
pub use workers::Workers;
