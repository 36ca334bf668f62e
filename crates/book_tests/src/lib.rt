//! Tests of books, of worlds and of desks, and the job that they run.
#![tactic(auto)]

#[cfg(test)]
mod book;
#[cfg(test)]
mod desk;
mod list_job;
#[cfg(test)]
mod threads;
#[cfg(test)]
mod world;

pub use list_job::{ListJob, Listed};
