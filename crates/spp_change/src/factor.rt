//! By how much strands are made faster.
ghost use Rattle.std.specs.Prelude.{◌≡◌, ◌≤◌, ◌↔◌, IsSome, IfSome};

use std::marker::Model;

/// By how much strands are made faster: 2 to 1,000 times, and 2 times by default.
///
/// Contracts see the number.
#[derive(Clone, Copy, Debug, PartialEq, Eq)]
pub struct Factor {
    number: u32,
}

impl Model for Factor {
    ghost use Rattle.std.specs.Prelude.{ℕ, ◌≤◌};

    ghost Value = { ℕ };

    ghost view = { λ f. f.number };

    ghost invariant = { λ f. (2 ≤ f.number) × (f.number ≤ 1000) };

    ghost inverse = { λ n. record { number = n } };
}

impl Factor {
    /// The greatest.
    pub const MOST: u32 = 1000;

    /// So many times; none where that is less than 2 or more than 1,000.
    pub fn new(number: u32) -> Option<Factor>
        ensures some { IsSome result ↔ ((2 ≤ number) × (number ≤ 1000)) }
        ensures value { IfSome result (λ f. f ≡ number) }
    {
        if 2 <= number && number <= Factor::MOST {
            Some(Factor { number })
        } else {
            None
        }
    }

    /// How many times that is. Its clause `range` gives out the bounds.
    pub fn number(self) -> u32
        ensures value { result ≡ self }
        ensures range { (2 ≤ result) × (result ≤ 1000) }
    {
        self.number
    }
}

impl Default for Factor {
    ghost is_default = { λ f. f ≡ 2 };

    fn default() -> Factor {
        Factor { number: 2 }
    }
}
