//! Into how many parts a trace is cut.
ghost use Rattle.std.specs.Prelude.{◌≡◌, ◌≤◌, ◌↔◌, IsSome, IfSome};

use std::marker::Model;

/// Into how many parts a trace is cut: 1 to 65,536, and 16 by default.
///
/// Contracts see the number.
#[derive(Clone, Copy, Debug, PartialEq, Eq)]
pub struct Parts {
    number: u32,
}

impl Model for Parts {
    ghost use Rattle.std.specs.Prelude.{ℕ, ◌≤◌};

    ghost Value = { ℕ };

    ghost view = { λ p. p.number };

    ghost invariant = { λ p. (1 ≤ p.number) × (p.number ≤ 65536) };

    ghost inverse = { λ n. record { number = n } };
}

impl Parts {
    /// The most parts.
    pub const MOST: u32 = 65536;

    /// So many parts; none where that is 0 or more than 65,536.
    pub fn new(number: u32) -> Option<Parts>
        ensures some { IsSome result ↔ ((1 ≤ number) × (number ≤ 65536)) }
        ensures value { IfSome result (λ p. p ≡ number) }
    {
        if 1 <= number && number <= Parts::MOST {
            Some(Parts { number })
        } else {
            None
        }
    }

    /// How many they are. Its clause `range` gives out the bounds.
    pub fn number(self) -> u32
        ensures value { result ≡ self }
        ensures range { (1 ≤ result) × (result ≤ 65536) }
    {
        self.number
    }
}

impl Default for Parts {
    ghost is_default = { λ p. p ≡ 16 };

    fn default() -> Parts {
        Parts { number: 16 }
    }
}
