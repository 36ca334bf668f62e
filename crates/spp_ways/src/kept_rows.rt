//! Which rows of a stretch are kept.

ghost use Rattle.std.specs.Prelude.{◌≡◌, suc, ◌+◌, ◌<◌, ◌^◌, length, IfOk};
ghost use Rattle.spp_ways.specs.Pruning.{HasCounts, kept_up_to, marks_of};

use spp_site::Marks;
use std::alloc::{AllocError, Global};

/// Which rows of a stretch are kept, counted from 1, and how many.
#[derive(Drop)]
pub(crate) struct KeptRows {
    /// Those that are kept.
    marks: Marks,
    /// For each number of rows, from none to all, how many of the first so many are kept.
    counts: Vec<u32>,
}

impl KeptRows {
    /// Of so many rows, those with marks.
    ///
    /// # Errors
    ///
    /// Where an allocation failed.
    pub(crate) fn of(alloc: Global, marks: Marks, rows: usize) -> Result<Self, AllocError>
        requires few { rows + 1 < 2 ^ 32 }
        ensures marks { IfOk result (λ k. k.marks ≡ marks) }
        ensures many { IfOk result (λ k. length k.counts.items ≡ suc rows) }
        ensures counts { IfOk result HasCounts }
    {
        let mut counts = Vec::with_capacity(alloc, rows + 1)?;
        let mut kept = 0;
        counts.push(kept)?;
        for k in 0..rows {
            if marks.has(k as u32 + 1) {
                kept += 1;
            }
            counts.push(kept)?;
        }
        Ok(KeptRows { marks, counts })
    }

    /// Whether that row is kept.
    #[inline(always)]
    pub(crate) fn has(&self, row: u32) -> bool
        ensures { result ≡ marks_of self.now row }
    {
        self.marks.has(row)
    }

    /// How many of the first so many rows are kept.
    #[inline(always)]
    pub(crate) fn up_to(&self, rows: u32) -> u32
        requires counts { HasCounts self.now }
        requires within { rows < length self.now.counts.items }
        ensures { result ≡ kept_up_to (marks_of self.now) rows }
    {
        self.counts[rows as usize]
    }
}
