//! Where tests can hold a worker.

use std::sync::Wait;

/// A round of the crew: what its workers do with each part of a cut trace. Figures take the round `Summaries` alone; a profile takes
/// `Profile` alone, or `Summaries`, `Tables` and `Paths` where there are many call sites; marks take `Summaries`, `Tables` and
/// `Marks`, in this order.
#[derive(Clone, Copy, Debug, PartialEq, Eq)]
pub enum Round {
    /// What the part comes to in the profile is found, in one reading.
    Profile,
    /// The part is summarised.
    Summaries,
    /// Its frames are counted on the whole dag, and its choices noted.
    Tables,
    /// Its frames are counted on both paths.
    Paths,
    /// Its events are marked.
    Marks,
}

/// Called by each worker before it begins a part. A test can hold it there. What is answered doesn't depend on it, but a gate
/// that waits for another part waits for ever where that part falls to the same thread: with one worker, or where a thread
/// can't be started.
pub trait Gate: Sync {
    /// Called before `part` is worked on in this round. With `rt` the gate can wait.
    fn before<R: Wait>(&self, rt: &R, round: Round, part: u32);
}

/// A gate that holds nobody.
pub struct OpenGate;

impl Gate for OpenGate {
    fn before<R: Wait>(&self, _rt: &R, _round: Round, _part: u32) {}
}
