//! What a user asks for.
ghost use Rattle.std.specs.Prelude.{◌≡◌};
ghost use Rattle.spp_request.specs.declared.request.UsageFault.TheVariants.{Memory};

use crate::workers::Workers;
use spp_cut::Parts;
use spp_maxplus::Burdens;
use std::alloc::{AllocError, AllocFailed};
use thiserror::Error;

/// What to do with the input.
#[derive(Clone, Copy, Debug, PartialEq, Eq)]
pub enum Command {
    /// Check a trace and print its work.
    Check,
    /// Print the work, the span and the burdened span of a run.
    Figures,
    /// Print the figures of a run and three tables of its call sites.
    Profile,
    /// Print the figures and call sites of two runs beside each other.
    Compare,
    /// Read a trace as text and write its bytes.
    Encode,
    /// Convert a trace to version 2 of the format.
    Migrate,
}

/// What a user asks for.
#[derive(Debug, Drop)]
pub struct Request {
    /// The command.
    pub command: Command,
    /// The paths of its inputs, in order: two to compare, the run before and the run after; else one, or none where
    /// standard input is read.
    pub files: Vec<String>,
    /// What continuation edges and return edges bear, in the trace's unit: 15,000 where no number is given, and the same on
    /// both where none is given for return edges alone.
    pub burdens: Burdens,
    /// Into how many parts each trace is cut, which changes no answer; 16 where no number is given.
    pub parts: Parts,
    /// How many workers answer, which changes no answer; 4 where no number is given. Only commands that share a trace among
    /// threads have them.
    pub workers: Workers,
    /// Whether comma-separated values are asked for.
    pub csv: bool,
}

/// Why words are no request.
#[derive(Debug, Drop, Error)]
pub enum UsageFault {
    /// The user is shown a text, and the program ends with a status.
    #[error("{text}")]
    Shown {
        /// The text: help, or what is wrong with the words.
        text: String,
        /// 0 for help, which goes to standard output; 2 else, for standard error.
        status: u8,
    },
    /// An allocation failed.
    #[error("out of memory")]
    Memory,
}

impl<T: Drop> From<AllocFailed<T>> for UsageFault {
    ghost from_gives = { λ _ e. e ≡ Memory };

    fn from(_e: AllocFailed<T>) -> UsageFault {
        UsageFault::Memory
    }
}

impl From<AllocError> for UsageFault {
    ghost from_gives = { λ _ e. e ≡ Memory };

    fn from(_e: AllocError) -> UsageFault {
        UsageFault::Memory
    }
}
