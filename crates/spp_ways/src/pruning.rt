//! A stretch without the rows that none of its ways enters. It is pruned where a part is read, so that the thread that joins parts has
//! fewer rows to copy, and to merge.

ghost use Rattle.std.specs.Prelude.{◌≡◌, suc, ◌+◌, ◌<◌, ◌≤◌, ◌^◌, ℕ, Bool, List, length, map, reverse, true, OnOk, IfOk, All};
ghost use Rattle.std.specs.Global.{Box};
ghost use Rattle.spp_site.specs.Marks.{is_marked};
ghost use Rattle.spp_ways.specs.Logs.{AreLinked, IsLinked};
ghost use Rattle.spp_ways.specs.Ways.{Ways};
ghost use Rattle.spp_ways.specs.Enclosures.{Enclosure};
ghost use Rattle.spp_ways.specs.Stretches.{AreEnclosed, IsStretch, stretch_rows, stretch_frames};
ghost use Rattle.spp_ways.specs.Pruning.{AreAlso, AreKeptBehind, AreLinksKept, AreWaysKept, HasCounts, ReachesFrame, marks_of, pruned_frame, pruned_rows};
ghost use Rattle.spp_ways.specs.declared.log.Merged.{Merged as MergedValue};

use crate::frame_ways::FrameWays;
use crate::kept_rows::KeptRows;
use crate::log::{Log, LogRow};
use crate::open_ways::LoggedStretch;
use spp_site::Marks;
use std::alloc::{AllocError, Global};

/// A stretch of fewer rows is left as it is.
const FEW_ROWS: usize = 64;

impl LogRow {
    /// Marks the ways to which the row leads.
    ///
    /// # Errors
    ///
    /// Where an allocation failed.
    #[inline(always)]
    fn mark_links(&self, marks: &mut Marks) -> Result<(), AllocError>
        ensures kept { OnOk result (AreLinksKept (is_marked marks.new) self.now) }
        ensures more { OnOk result (AreAlso (is_marked marks.old) (is_marked marks.new)) }
        ensures others { OnOk result ((n k : ℕ) → IsLinked n self.now → n < k → is_marked marks.new k ≡ is_marked marks.old k) }
    {
        marks.add(self.before(false))?;
        marks.add(self.within(false))?;
        marks.add(self.before(true))?;
        marks.add(self.within(true))
    }
}

impl FrameWays {
    /// Marks the ways into the frame.
    ///
    /// # Errors
    ///
    /// Where an allocation failed.
    fn mark(&self, marks: &mut Marks) -> Result<(), AllocError>
        ensures kept { OnOk result (AreWaysKept (is_marked marks.new) self.now) }
        ensures more { OnOk result (AreAlso (is_marked marks.old) (is_marked marks.new)) }
    {
        marks.add(self.plain_rows)?;
        marks.add(self.plain_through_rows)?;
        marks.add(self.burdened_rows)?;
        marks.add(self.burdened_through_rows)
    }
}

impl LoggedStretch {
    /// Marks the ways into its frames.
    ///
    /// # Errors
    ///
    /// Where an allocation failed.
    fn mark_frames(&self, marks: &mut Marks) -> Result<(), AllocError>
        ensures kept { OnOk result (All (AreWaysKept (is_marked marks.new)) (stretch_frames self.now)) }
        ensures more { OnOk result (AreAlso (is_marked marks.old) (is_marked marks.new)) }
    {
        self.outer.mark(marks)?;
        for k in 1..self.frames.len() {
            self.frames[k].mark(marks)?;
        }
        Ok(())
    }

    /// Where a marked way ends with a row, marks the ways to which that leads. Rows lead to earlier ones alone, so one pass from the
    /// last suffices.
    ///
    /// # Errors
    ///
    /// Where an allocation failed.
    fn mark_rows(&self, marks: &mut Marks) -> Result<(), AllocError>
        requires linked { AreLinked (reverse (stretch_rows self.now)) }
        requires few { length self.now.log.rows.items < 2 ^ 32 }
        requires none { is_marked marks.old 0 ≡ true }
        ensures kept { OnOk result (AreKeptBehind (is_marked marks.new) (stretch_rows self.now) 0) }
        ensures more { OnOk result (AreAlso (is_marked marks.old) (is_marked marks.new)) }
    {
        let rows = &self.log.rows;
        for k in (1..rows.len()).rev() {
            if marks.has(k as u32 + 1) {
                rows[k].mark_links(marks)?;
            }
        }
        Ok(())
    }

    /// The ways into its frames, those to which their rows lead, and the one into its outer frame before its first event. No clause
    /// says that no others are marked.
    ///
    /// # Errors
    ///
    /// Where an allocation failed.
    fn entered_rows(&self, alloc: Global) -> Result<Marks, AllocError>
        requires linked { AreLinked (reverse (stretch_rows self.now)) }
        requires few { length self.now.log.rows.items < 2 ^ 32 }
        ensures outer { IfOk result (λ m. is_marked m 1 ≡ true) }
        ensures frames { IfOk result (λ m. All (AreWaysKept (is_marked m)) (stretch_frames self.now)) }
        ensures rows { IfOk result (λ m. AreKeptBehind (is_marked m) (stretch_rows self.now) 0) }
    {
        let mut marks = Marks::new(alloc);
        marks.add(0)?;
        marks.add(1)?;
        self.mark_frames(&mut marks)?;
        self.mark_rows(&mut marks)?;
        Ok(marks)
    }

    /// Its log without the rows that aren't kept.
    ///
    /// # Errors
    ///
    /// Where an allocation failed.
    fn pruned_log(&self, alloc: Global, kept: &KeptRows) -> Result<Log, AllocError>
        requires linked { AreLinked (reverse (stretch_rows self.now)) }
        requires some { 0 < length self.now.log.rows.items }
        requires counts { HasCounts kept.now }
        requires many { length kept.now.counts.items ≡ suc (length self.now.log.rows.items) }
        requires few { length self.now.log.rows.items < 2 ^ 32 }
        requires outer { marks_of kept.now 1 ≡ true }
        ensures { IfOk result (λ log. log.rows.items ≡ pruned_rows (marks_of kept.now) (stretch_rows self.now) (length self.now.log.rows.items)) }
    {
        let mut log = Log::with_room(alloc, kept.up_to(self.log.len()))?;
        log.push(LogRow::outer())?;
        for k in 1..self.log.rows.len() {
            if kept.has(k as u32 + 1) {
                log.put_pruned(&self.log.rows[k], kept)?;
            }
        }
        Ok(log)
    }

    /// Its frames in that log, the outer one first.
    ///
    /// # Errors
    ///
    /// Where an allocation failed.
    fn pruned_frames(&self, alloc: Global, kept: &KeptRows) -> Result<Vec<FrameWays>, AllocError>
        requires counts { HasCounts kept.now }
        requires within { All (ReachesFrame (length kept.now.counts.items)) (stretch_frames self.now) }
        ensures { IfOk result (λ frames. frames.items ≡ map (pruned_frame (marks_of kept.now)) (stretch_frames self.now)) }
    {
        let mut frames = Vec::new(alloc);
        frames.push(self.outer.pruned(kept))?;
        for k in 1..self.frames.len() {
            frames.push(self.frames[k].pruned(kept))?;
        }
        Ok(frames)
    }

    /// The same ways, without the rows that none of them enters, such as those of a child that waited and lost against a later one:
    /// often these are more than the others. It takes constant time for each row and each frame. Meanwhile it takes five bytes for
    /// each row, or six, and the rows that are left twice. No clause says that rows are left out, and a stretch of few rows is
    /// left as it is: the ways are the same.
    ///
    /// # Errors
    ///
    /// Where an allocation failed.
    pub fn pruned(self, alloc: Global) -> Result<Self, AllocError>
        requires stretch { IsStretch (stretch_rows self) (stretch_frames self) }
        requires few { length (stretch_rows self) + 1 < 2 ^ 32 }
        ensures stretch { IfOk result (λ s. IsStretch (stretch_rows s) (stretch_frames s)) }
        ensures ways { IfOk result (λ s. (on : Bool) (e : Enclosure) (base : Box MergedValue) (ways : List Ways) → AreEnclosed on e base (stretch_rows self) (stretch_frames self) ways → AreEnclosed on e base (stretch_rows s) (stretch_frames s) ways) }
        ensures rows { IfOk result (λ s. length (stretch_rows s) ≤ length (stretch_rows self)) }
        ensures frames { IfOk result (λ s. length (stretch_frames s) ≡ length (stretch_frames self)) }
    {
        if self.log.count() < FEW_ROWS {
            return Ok(self);
        }
        let marks = self.entered_rows(alloc)?;
        let kept = KeptRows::of(alloc, marks, self.log.count())?;
        if kept.up_to(self.log.len()) == self.log.len() {
            return Ok(self);
        }
        let log = self.pruned_log(alloc, &kept)?;
        let frames = self.pruned_frames(alloc, &kept)?;
        Ok(LoggedStretch {
            outer: frames[0],
            frames,
            log,
        })
    }
}
