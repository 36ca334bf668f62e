//! Laws that the definitions of this crate have.

ghost use Rattle.spp_shell.specs.Laws.{MigratedAnswersAlike};

/// The law of `migrate`: what it writes gets the same answers as what it read, from `check`, `figures`, `profile` and
/// `compare`. Its contract is what it is for.
pub fn migrate_laws()
    ensures { MigratedAnswersAlike }
{}
