//! Two ways that are walked together, one on either path.

ghost use Rattle.std.specs.Prelude.{◌≡◌, nat_eq, cond, OnOk};
ghost use Rattle.spp_ways.specs.PathSums.{unless_at, last_of, left_before, left_within, put_ways};

use crate::log::LogRow;
use std::alloc::AllocError;

/// Two ways, one on the path without burdens and one on that under them.
#[derive(Clone, Copy)]
pub(crate) struct BothWays {
    /// Where the one without burdens ends in the log.
    pub(crate) plain: u32,
    /// And the one under them.
    pub(crate) burdened: u32,
}

/// What is left of a way that is walked to that stop: nothing, once it is there.
#[inline(always)]
fn left_of(way: u32, stop: u32) -> u32
    ensures { result ≡ cond (nat_eq way stop) 0 way }
{
    if way == stop { 0 } else { way }
}

impl BothWays {
    /// Where the one that ends later in the log ends.
    #[inline(always)]
    pub(crate) fn last(self) -> u32
        ensures { result ≡ last_of self }
    {
        self.plain.max(self.burdened)
    }

    /// What is left to walk before this row, which must be the one at [`BothWays::last`]: a way that ends with it leads on from the
    /// way before it, and one that ends earlier stays.
    #[inline(always)]
    pub(crate) fn left_before(self, row: &LogRow) -> Self
        ensures { result ≡ left_before row.now self }
    {
        let last = self.last();
        BothWays {
            plain: if self.plain == last {
                row.before(false)
            } else {
                self.plain
            },
            burdened: if self.burdened == last {
                row.before(true)
            } else {
                self.burdened
            },
        }
    }

    /// And what is left within it: nothing on a path whose way ends earlier.
    #[inline(always)]
    pub(crate) fn left_within(self, row: &LogRow) -> Self
        ensures { result ≡ left_within row.now self }
    {
        let last = self.last();
        BothWays {
            plain: if self.plain == last {
                row.within(false)
            } else {
                0
            },
            burdened: if self.burdened == last {
                row.within(true)
            } else {
                0
            },
        }
    }

    /// Each of the two ways, or 0 where it is at its stop: there a walk ends. Which one is longer isn't looked at.
    #[inline(always)]
    pub(crate) fn unless_at(self, stops: BothWays) -> Self
        ensures { result ≡ unless_at stops self }
    {
        BothWays {
            plain: left_of(self.plain, stops.plain),
            burdened: left_of(self.burdened, stops.burdened),
        }
    }

    /// Puts them onto those that are left to be walked, unless neither enters a row.
    ///
    /// # Errors
    ///
    /// Where an allocation failed.
    #[inline(always)]
    pub(crate) fn put(self, left: &mut Vec<BothWays>) -> Result<(), AllocError>
        ensures { OnOk result (left.new.items ≡ put_ways left.old.items self) }
    {
        if self.last() == 0 {
            return Ok(());
        }
        left.push(self)?;
        Ok(())
    }
}
