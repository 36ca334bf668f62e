//! Summaries of the pieces of a run, as they are made of its parts, kept, joined, and read.
//!
//! Callers see a [`Summary`] and what it tells. How it is kept is this crate's alone: `opens` has its open frames, in 32
//! bytes each, and the states of those in which more has happened than strands and calls of such frames; `returns` its
//! unmatched returns, in 16 bytes each where a strand alone came before; `lists` chains and copies such lists; `storage` is
//! all of these, and what a join does to them; `reading` what an event does to them, and `records` reads events by their
//! bytes; `changed` reads a changed run; `pending` what is still to be done to the innermost frame while later returns are taken in.
#![tactic(auto)]

mod changed;
mod frames;
mod inward_frames;
mod lists;
mod opens;
mod pending;
mod reading;
mod records;
mod returns;
mod storage;
mod summary;

pub use changed::changed_figures;
pub use frames::FrameReader;
pub use inward_frames::InwardFrames;
pub use returns::ReturnReader;
pub use summary::{JoinRefused, Summary};
