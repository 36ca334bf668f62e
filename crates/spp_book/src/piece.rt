//! Pieces of a job, and why one or a whole book is refused.

use thiserror::Error;

/// What came of one part of a job, as a worker hands it over.
#[derive(Drop)]
pub struct Piece<C> {
    /// The number of the part, from 0.
    pub number: u32,
    /// The position of its first event.
    pub first: u32,
    /// How many events it has.
    pub events: u32,
    /// What came of it.
    pub content: C,
}

/// Why a piece is refused: the first that holds.
#[derive(Clone, Copy, Debug, Error, PartialEq, Eq)]
pub enum Why {
    /// It is no part of the job: the job has none of this number, or another range for it.
    #[error("no piece of this job")]
    Stranger,
    /// A piece of this number was accepted before.
    #[error("a piece that was accepted before")]
    Double,
}

/// A piece that is handed back.
#[derive(Drop)]
pub struct Refused<C> {
    /// The piece as it came.
    pub piece: Piece<C>,
    /// Why it is refused.
    pub why: Why,
}

/// Why a book gives no value of the whole job.
#[derive(Clone, Copy, Debug, Error, PartialEq, Eq)]
pub enum CloseFault {
    /// No piece of a part was accepted.
    #[error("part {number} is missing")]
    Missing {
        /// The least number of such a part. Of a desk, public contracts say only that it is no greater than the number of
        /// accepted parts.
        number: u32,
    },
    /// An allocation failed.
    #[error("out of memory")]
    Memory,
}
