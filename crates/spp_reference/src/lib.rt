//! A profiler that goes by the definitions, position by position: slow, for small traces, to compare the fast ones
//! with.
//!
//! It makes no use of the stack machine: spans are the greatest weights of walks, found from their ends backwards, and
//! a path goes from position to position along the first edge that a greatest walk takes.
#![tactic(auto)]

mod answers;
mod dag;
mod rows;
mod walks;

pub use answers::{Reference, SiteRows, profile};
