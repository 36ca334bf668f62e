//! Sums of no frames, whose memory is used again.

ghost use Rattle.std.specs.Prelude.{◌≡◌, ℕ, Option};
ghost use Rattle.spp_dag.specs.Shares.{zero_row};
ghost use Rattle.spp_site.specs.Profiles.{key_row};

use crate::narrow_sums::NarrowSums;
use std::alloc::Global;

/// Sums in which all rows are zero, as they are made or as they are left where the rows have been taken out: so a large table is
/// made once, and each time only the rows that were added to are cleared.
///
/// As they are made they take no memory. Behind sums they keep that of narrow rows, 58 bytes for each site number up to the
/// greatest that ever had one, or up to twice that, and up to 64 KiB for rows that waited.
#[derive(Drop)]
pub struct EmptySums {
    sums: NarrowSums,
    ghost none: { (key : Option ℕ) → key_row sums key ≡ zero_row },
}

impl EmptySums {
    /// Sums of no frames, which take no memory.
    pub fn new(alloc: Global) -> Self {
        EmptySums::of_sums(NarrowSums::new(alloc))
    }

    /// These sums, which have no rows.
    pub(crate) fn of_sums(sums: NarrowSums) -> Self
        requires { (key : Option ℕ) → key_row sums key ≡ zero_row }
    {
        EmptySums { sums }
    }

    /// The sums, to which rows can be added.
    pub fn into_sums(self) -> NarrowSums
        ensures { (key : Option ℕ) → key_row result key ≡ zero_row }
    {
        self.sums
    }
}
