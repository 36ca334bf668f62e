//! A cursor over the spawns whose children a path enters.

ghost use Rattle.std.specs.Prelude.{◌≡◌};
ghost use Rattle.spp_path.specs.Entered.{is_next, left_after};

use std::marker::Model;

/// The spawns, of those whose children a path enters, that a pass hasn't come to: a rising list.
///
/// Contracts see the list.
#[derive(Drop)]
pub(crate) struct Entered<'s> {
    left: &'s [u32],
}

impl<'s> Model for Entered<'s> {
    ghost use Rattle.std.specs.Prelude.{ℕ, List};

    ghost Value = { List ℕ };

    ghost view = { λ e. e.left.now };
}

impl<'s> Entered<'s> {
    /// All of these.
    pub(crate) fn new(spawns: &'s [u32]) -> Self
        ensures { result ≡ spawns.now }
    {
        Entered { left: spawns }
    }

    /// Whether the next of them is this spawn; then it is come to.
    #[inline(always)]
    pub(crate) fn takes(&mut self, spawn: u32) -> bool
        ensures is { result ≡ is_next spawn self.old }
        ensures left { self.new ≡ left_after spawn self.old }
    {
        match self.left.first() {
            Some(next) if *next == spawn => {
                self.left = &self.left[1..];
                true
            }
            _ => false,
        }
    }
}
