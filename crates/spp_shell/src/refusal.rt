//! Why a run has no answer.
ghost use Rattle.std.specs.Prelude.{◌≡◌, ◌++◌, MatchResult};
ghost use Rattle.spp_shell.specs.Places.{place_words};
ghost use Rattle.spp_shell.specs.Tasks.{IfLine, PlacedLike};
ghost use Rattle.spp_shell.specs.declared.refusal.Refusal.TheVariants.{Line, Memory};

use crate::place::Place;
use crate::trouble::Trouble;
use std::alloc::{AllocError, Global};

/// Why there is no text.
#[derive(Drop)]
pub(crate) enum Refusal {
    /// The bytes are refused, and this line says why.
    Line(String),
    /// An input could not be read whole.
    Unread(Trouble),
    /// An allocation failed.
    Memory,
}

impl Refusal {
    /// That the bytes are refused by this line, or that an allocation failed for it.
    pub(crate) fn of_line(line: Result<String, AllocError>) -> Refusal
        ensures { MatchResult line (λ text. result ≡ Line text) (λ _. result ≡ Memory) }
    {
        match line {
            Ok(line) => Refusal::Line(line),
            Err(_) => Refusal::Memory,
        }
    }

    /// The same refusal, where a line of fault begins with the words for that input.
    pub(crate) fn placed(self, alloc: Global, place: Place) -> Refusal
        ensures { PlacedLike place self result }
    {
        match self {
            Refusal::Line(line) => {
                let words = place.words();
                Refusal::of_line(format!(in alloc; "{words}{line}"))
            }
            other => other,
        }
    }
}

impl From<AllocError> for Refusal {
    ghost from_gives = { λ _ e. e ≡ Memory };

    fn from(_e: AllocError) -> Refusal {
        Refusal::Memory
    }
}
