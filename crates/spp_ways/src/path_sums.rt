//! What the rows of ways add up to on both paths at once.

ghost use Rattle.std.specs.Prelude.{◌≡◌, ℕ, Bool, Option, OnOk, IfOk};
ghost use Rattle.spp_dag.specs.Shares.{plus, zero_row};
ghost use Rattle.spp_site.specs.Rows.{Fits};
ghost use Rattle.spp_ways.specs.Logs.{merged_on, row_on, frame_on};
ghost use Rattle.spp_ways.specs.PathSums.{sums_on, ended_row};

use crate::both_ways::BothWays;
use crate::log::{LogRow, Merged};
use spp_site::{EmptySums, NarrowSums};
use std::alloc::{AllocError, Global};

/// What rows of ways add up to on both paths. Most are entered on both with the same numbers: those are added once. It takes the
/// memory of three [`NarrowSums`], of which the second and the third have only what isn't entered on both at once with the same
/// numbers. After an error they are of no use.
#[derive(Drop)]
pub(crate) struct PathSums {
    /// What both paths have alike.
    common: NarrowSums,
    /// What the path without burdens has besides.
    plain: NarrowSums,
    /// And that under them.
    burdened: NarrowSums,
}

impl PathSums {
    /// Adds the row with which the one of two ways ends that ends later in the log, or both: on each path whose way ends with
    /// it. It takes constant time for a frame, amortized, and a step for each site number that the sums didn't reach before;
    /// for a row that was merged, time linear in what is stored.
    ///
    /// # Errors
    ///
    /// Where an allocation failed.
    #[inline(always)]
    pub(crate) fn add(&mut self, row: &LogRow, ways: BothWays) -> Result<(), AllocError>
        requires { (on : Bool) (key : Option ℕ) → Fits (plus (sums_on on self.old key) (ended_row on row.now ways key)) }
        ensures { OnOk result ((on : Bool) (key : Option ℕ) → sums_on on self.new key ≡ plus (sums_on on self.old key) (ended_row on row.now ways key)) }
    {
        if ways.plain == ways.burdened {
            self.add_both(row)
        } else if ways.plain > ways.burdened {
            row.add_to(false, &mut self.plain)
        } else {
            row.add_to(true, &mut self.burdened)
        }
    }

    /// Adds a row on both paths.
    ///
    /// # Errors
    ///
    /// Where an allocation failed.
    #[inline(always)]
    fn add_both(&mut self, row: &LogRow) -> Result<(), AllocError>
        requires { (on : Bool) (key : Option ℕ) → Fits (plus (sums_on on self.old key) (row_on on row.now key)) }
        ensures { OnOk result ((on : Bool) (key : Option ℕ) → sums_on on self.new key ≡ plus (sums_on on self.old key) (row_on on row.now key)) }
    {
        match row.merged() {
            None => self.close(row),
            Some(merged) => self.absorb(merged),
        }
    }

    /// Adds the frame of a row on both paths: once, where its own strands have the same counts on both.
    ///
    /// # Errors
    ///
    /// Where an allocation failed.
    #[inline(always)]
    fn close(&mut self, row: &LogRow) -> Result<(), AllocError>
        requires { (on : Bool) (key : Option ℕ) → Fits (plus (sums_on on self.old key) (frame_on on row.now key)) }
        ensures { OnOk result ((on : Bool) (key : Option ℕ) → sums_on on self.new key ≡ plus (sums_on on self.old key) (frame_on on row.now key)) }
    {
        let plain = row.closed(false);
        let burdened = row.closed(true);
        if plain.local == burdened.local {
            return self.common.close(row.site(), &plain);
        }
        self.plain.close(row.site(), &plain)?;
        self.burdened.close(row.site(), &burdened)
    }

    /// Adds what was merged on both paths.
    ///
    /// # Errors
    ///
    /// Where an allocation failed.
    fn absorb(&mut self, merged: &Merged) -> Result<(), AllocError>
        requires { (on : Bool) (key : Option ℕ) → Fits (plus (sums_on on self.old key) (merged_on on merged.now key)) }
        ensures { OnOk result ((on : Bool) (key : Option ℕ) → sums_on on self.new key ≡ plus (sums_on on self.old key) (merged_on on merged.now key)) }
    {
        self.common.absorb(&merged.common)?;
        self.plain.absorb(&merged.plain)?;
        self.burdened.absorb(&merged.burdened)
    }

    /// What was added, as it is stored, and the sums without it. No clause says that their memory is used again.
    ///
    /// # Errors
    ///
    /// Where an allocation failed.
    pub(crate) fn into_merged(self, alloc: Global) -> Result<(Merged, EmptyPathSums), AllocError>
        requires { (on : Bool) (key : Option ℕ) → Fits (sums_on on self key) }
        ensures { IfOk result (λ p. (on : Bool) (key : Option ℕ) → merged_on on p.0 key ≡ sums_on on self key) }
    {
        let PathSums {
            common,
            plain,
            burdened,
        } = self;
        let first = common.into_list(alloc)?;
        let second = plain.into_list(alloc)?;
        let third = burdened.into_list(alloc)?;
        let merged = Merged {
            common: first.0,
            plain: second.0,
            burdened: third.0,
        };
        let room = EmptyPathSums {
            common: first.1,
            plain: second.1,
            burdened: third.1,
        };
        Ok((merged, room))
    }
}

/// Sums of no rows on both paths, whose memory is used again.
#[derive(Drop)]
pub(crate) struct EmptyPathSums {
    /// For what both paths have alike.
    common: EmptySums,
    /// For what the path without burdens has besides.
    plain: EmptySums,
    /// And for that under them.
    burdened: EmptySums,
}

impl EmptyPathSums {
    /// Sums of no rows, which take no memory.
    pub(crate) fn new(alloc: Global) -> Self {
        EmptyPathSums {
            common: EmptySums::new(alloc),
            plain: EmptySums::new(alloc),
            burdened: EmptySums::new(alloc),
        }
    }

    /// The sums, to which rows can be added.
    pub(crate) fn into_sums(self) -> PathSums
        ensures { (on : Bool) (key : Option ℕ) → sums_on on result key ≡ zero_row }
    {
        let EmptyPathSums {
            common,
            plain,
            burdened,
        } = self;
        PathSums {
            common: common.into_sums(),
            plain: plain.into_sums(),
            burdened: burdened.into_sums(),
        }
    }
}
