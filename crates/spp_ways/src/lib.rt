//! The ways into the open frames of a run, from the first position of each: the greatest one along the frame, and the
//! greatest one through the child that waits to be joined, with the closed frames that they enter, on the path without
//! burdens and on the one under them. Those with which the root frame closes are the critical paths; the frames that one
//! enters, added up by call site, and the root's own row are the path's table.
#![tactic(auto)]

mod both_ways;
mod enclosing;
mod frame_counts;
mod frame_ways;
mod kept_rows;
mod laws;
mod log;
mod open_ways;
mod path_sums;
mod place;
mod pruning;
mod walking;

pub use enclosing::{Enclosing, OUTER_CALLER};
pub use laws::way_laws;
pub use open_ways::{LoggedStretch, OnPaths, OpenWays};
