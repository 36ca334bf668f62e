//! What the spawns of each call site cost along a path, and which call sites are worth mending first.
#![tactic(auto)]

mod counting;
mod laws;
mod ranking;

pub use counting::{SiteCounts, SpawnCounts, spawn_counts};
pub use laws::advice_laws;
pub use ranking::{ranked, weight};
