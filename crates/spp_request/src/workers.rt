//! How many workers answer.
ghost use Rattle.std.specs.Prelude.{◌≡◌, ◌≤◌, ◌↔◌, IsSome, IfSome};

use std::marker::Model;

/// How many workers answer beside each other: 1 to 64, and 4 by default.
///
/// Contracts see the number.
#[derive(Clone, Copy, Debug, PartialEq, Eq)]
pub struct Workers {
    number: u32,
}

impl Model for Workers {
    ghost use Rattle.std.specs.Prelude.{ℕ, ◌≤◌};

    ghost Value = { ℕ };

    ghost view = { λ w. w.number };

    ghost invariant = { λ w. (1 ≤ w.number) × (w.number ≤ 64) };

    ghost inverse = { λ n. record { number = n } };
}

impl Workers {
    /// The most workers.
    pub const MOST: u32 = 64;

    /// So many workers; none where that is 0 or more than 64.
    pub fn new(number: u32) -> Option<Workers>
        ensures some { IsSome result ↔ ((1 ≤ number) × (number ≤ 64)) }
        ensures value { IfSome result (λ w. w ≡ number) }
    {
        if 1 <= number && number <= Workers::MOST {
            Some(Workers { number })
        } else {
            None
        }
    }

    /// How many they are. Its clause `range` gives out the bounds.
    pub fn number(self) -> u32
        ensures value { result ≡ self }
        ensures range { (1 ≤ result) × (result ≤ 64) }
    {
        self.number
    }
}

impl Default for Workers {
    ghost is_default = { λ w. w ≡ 4 };

    fn default() -> Workers {
        Workers { number: 4 }
    }
}
