//! Laws that the definitions of this crate have.

ghost use Rattle.spp_ways.specs.Laws.{WaysGiveRows};

/// The law of ways: the one with which the root frame closes has the rows of the path. Its contract is what it is for.
pub fn way_laws()
    ensures rows { WaysGiveRows }
{}
