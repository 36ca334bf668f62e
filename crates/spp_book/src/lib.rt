//! Jobs that are done part by part, and the book in which their pieces are joined, in whatever order they come.
//!
//! A `Book` joins the pieces. A `Desk` shares one among threads: they draw the numbers of the parts, each once, and put
//! the pieces. A `World` is the same on one thread, step by step, with every answer and all that it leaves in its contract,
//! but for which joins were made.
#![tactic(auto)]

mod book;
mod counter;
mod desk;
mod job;
mod piece;
mod world;

pub use book::{Book, Front};
pub use desk::{Desk, Naming, Pass};
pub use job::{Job, JoinRefused};
pub use piece::{CloseFault, Piece, Refused, Why};
pub use world::{Answer, Step, World};
