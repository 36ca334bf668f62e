//! The closed frames that ways enter.

ghost use Rattle.std.specs.Prelude.{◌≡◌, ◌+◌, ◌<◌, ◌≤◌, ◌^◌, ◌++◌, ◌∷◌, [], ℕ, Bool, true, false, cond, length, map, reverse, take, drop, OnOk, IfOk, MatchOption, Option, All};
ghost use Rattle.std.specs.Global.{Box};
ghost use Rattle.spp_dag.specs.Shares.{plus, zero_row};
ghost use Rattle.spp_site.specs.Rows.{Fits};
ghost use Rattle.spp_site.specs.Profiles.{key_row};
ghost use Rattle.spp_ways.specs.LogRows.{frame_counts, logged_row};
ghost use Rattle.spp_ways.specs.Logs.{AreLinked, IsLinked, IsMergedRow, before_on, within_on, closed_on, merged_on, row_on, row_in};
ghost use Rattle.spp_ways.specs.Enclosures.{enclosure_of};
ghost use Rattle.spp_ways.specs.Pruning.{HasCounts, marks_of, pruned_row};
ghost use Rattle.spp_ways.specs.Stretches.{outer_row, joined_row, FitLinks};
ghost use Rattle.spp_ways.specs.declared.log.LogRow.{LogRow as LogRowValue};
ghost use Rattle.spp_ways.specs.declared.log.Merged.{Merged as MergedValue};

use crate::enclosing::Enclosing;
use crate::frame_counts::{FrameCounts, NO_COUNTS, NO_NARROW_COUNTS, NarrowCounts, WideCounts};
use crate::kept_rows::KeptRows;
use crate::place::{Links, NO_PLACE, Place};
use spp_site::{ClosedFrame, EmptySums, NarrowList, NarrowSums};
use std::alloc::{AllocError, Global};
use std::marker::Model;

/// In place of a caller's function, where a row of a stretch stands for the way into its outer frame before its first event.
/// Contracts alone read it.
const OUTER_WAY: u32 = 65537;

/// What the rows of ways come to, on the path without burdens and on that under them. Most rows are entered on both with the same
/// numbers: what these come to is stored once, but for what `Log::merge` says.
pub(crate) struct Merged {
    /// What both paths have alike.
    pub(crate) common: NarrowList,
    /// What the path without burdens has besides.
    pub(crate) plain: NarrowList,
    /// And that under them.
    pub(crate) burdened: NarrowList,
}

impl Drop for Merged {
    // Seldom called: inlined it would be in the way where rows of frames are cut off.
    #[cold]
    #[inline(never)]
    fn drop(self) {
        let Merged {
            common: _,
            plain: _,
            burdened: _,
        } = self;
    }
}

impl Merged {
    /// Nothing. It takes no memory.
    pub(crate) fn none(alloc: Global) -> Self
        ensures { (on : Bool) (key : Option ℕ) → merged_on on result key ≡ zero_row }
    {
        Merged {
            common: NarrowList::none(alloc),
            plain: NarrowList::none(alloc),
            burdened: NarrowList::none(alloc),
        }
    }

    /// What one path has besides what both have alike: that without burdens, or that under them.
    fn on(&self, burdened: bool) -> &NarrowList
        ensures { result.now ≡ cond burdened self.now.burdened self.now.plain }
    {
        if burdened {
            &self.burdened
        } else {
            &self.plain
        }
    }

    /// How many rows are stored: what it takes to add them to others. Contracts say nothing of it, since they see only the sums.
    pub(crate) fn len(&self) -> usize {
        let alone = self
            .plain
            .row_count()
            .saturating_add(self.burdened.row_count());
        self.common.row_count().saturating_add(alone)
    }
}

/// What a row counts.
#[derive(Drop)]
enum Counts {
    /// A frame whose counts fit 64 bits: nearly every one.
    Narrow(NarrowCounts),
    /// A frame one of whose counts doesn't.
    Wide(Box<WideCounts>),
    /// In place of a frame, what was merged.
    Merged(Box<Merged>),
}

impl Counts {
    /// Those of the frame; zeros for what was merged.
    #[inline(always)]
    fn of_frame(&self) -> FrameCounts
        ensures { result ≡ frame_counts self.now }
    {
        match self {
            Counts::Narrow(counts) => counts.widened(),
            Counts::Wide(wide) => wide.counts,
            Counts::Merged(_) => NO_COUNTS,
        }
    }
}

/// A closed frame, or what rows of ways come to, and for either path how the ways lead on from it. Contracts see the frame's
/// counts as numbers, however they are stored.
///
/// It takes 64 bytes: rows are made by the million, read on another core and copied, and most of that time goes by waiting for
/// the memory in which they lie. Seldom something lies beside it: 64 bytes more where a count of the frame doesn't fit 64 bits,
/// or what was merged.
#[derive(Drop)]
pub(crate) struct LogRow {
    place: Place,
    counts: Counts,
}

const _: () = prove!(size_of::<LogRow>() == 64);

impl Model for LogRow {
    ghost use Rattle.spp_ways.specs.LogRows.{LoggedRow};

    ghost Value = { LoggedRow };

    ghost use Rattle.std.specs.Coded.{codes};
    ghost use Rattle.spp_site.specs.Table.{sums_code};

    ghost coded = { Prim.hlevel (codes, sums_code) };

    ghost use Rattle.spp_ways.specs.LogRows.{stored_row};

    ghost view = { λ r. stored_row r.place r.counts };
}

impl LogRow {
    /// A row for what was merged, with no way within it, which leads on either path to the way that ends behind so many rows.
    ///
    /// # Errors
    ///
    /// Where an allocation failed.
    fn of_merged(alloc: Global, before: u32, merged: Merged) -> Result<Self, AllocError>
        ensures { IfOk result (λ r. IsMergedRow before merged r) }
    {
        Ok(LogRow {
            place: Place {
                before,
                burdened_before: before,
                ..NO_PLACE
            },
            counts: Counts::Merged(Box::new(alloc, merged)?),
        })
    }

    /// The row of a stretch that stands for the way into its outer frame before its first event.
    pub(crate) fn outer() -> Self
        ensures { result ≡ outer_row }
    {
        LogRow {
            place: Place {
                caller: OUTER_WAY,
                ..NO_PLACE
            },
            counts: Counts::Narrow(NO_NARROW_COUNTS),
        }
    }

    /// The call site by which the frame was entered; 0 for what was merged.
    #[inline(always)]
    pub(crate) fn site(&self) -> u16
        ensures { result ≡ self.now.site }
    {
        self.place.site
    }

    /// Where the way ends that leads to the frame in its parent, or to what was merged: without burdens, or under them.
    #[inline(always)]
    pub(crate) fn before(&self, burdened: bool) -> u32
        ensures { result ≡ before_on burdened self.now }
    {
        if burdened {
            self.place.burdened_before
        } else {
            self.place.before
        }
    }

    /// Where the way through it ends.
    #[inline(always)]
    pub(crate) fn within(&self, burdened: bool) -> u32
        ensures { result ≡ within_on burdened self.now }
    {
        if burdened {
            self.place.burdened_within
        } else {
            self.place.within
        }
    }

    /// What was merged, if this isn't the row of a frame.
    #[inline(always)]
    pub(crate) fn merged(&self) -> Option<&Merged>
        ensures { MatchOption result (self.now.merged ≡ None) (λ m. (box : Box MergedValue) × (self.now.merged ≡ Some box) × (box.value ≡ m.now)) }
    {
        match &self.counts {
            Counts::Merged(merged) => Some(merged),
            _ => None,
        }
    }

    /// Adds it to the sums of that path.
    ///
    /// # Errors
    ///
    /// Where an allocation failed.
    pub(crate) fn add_to(&self, burdened: bool, sums: &mut NarrowSums) -> Result<(), AllocError>
        requires { (key : Option ℕ) → Fits (plus (key_row sums.old key) (row_on burdened self.now key)) }
        ensures { OnOk result ((key : Option ℕ) → key_row sums.new key ≡ plus (key_row sums.old key) (row_on burdened self.now key)) }
    {
        match self.merged() {
            None => sums.close(self.place.site, &self.closed(burdened)),
            Some(merged) => {
                sums.absorb(&merged.common)?;
                sums.absorb(merged.on(burdened))
            }
        }
    }

    /// The frame as a table of that path counts it.
    #[inline(always)]
    pub(crate) fn closed(&self, burdened: bool) -> ClosedFrame
        ensures { result ≡ closed_on burdened self.now }
    {
        let counts = self.counts.of_frame();
        ClosedFrame {
            local: if burdened {
                counts.burdened_own
            } else {
                counts.own
            },
            work: counts.work,
            span: counts.span,
            top_site: self.place.top_site,
            top_caller: self.place.top_caller,
        }
    }
}

/// The closed frames that the ways into open frames enter. A way is told by the number of rows up to its last one, 0 where
/// it enters no closed frame. A row leads to rows before it alone, so that a way stays as it is where the log grows, and
/// where rows behind its last one are cut off.
#[derive(Drop)]
pub(crate) struct Log {
    pub(crate) rows: Vec<LogRow>,
}

impl Log {
    /// No rows. It takes no memory.
    pub(crate) fn new(alloc: Global) -> Log
        ensures { result.rows.items ≡ [] }
    {
        Log {
            rows: Vec::new(alloc),
        }
    }

    /// No rows, and room for so many.
    ///
    /// # Errors
    ///
    /// Where an allocation failed.
    pub(crate) fn with_room(alloc: Global, rows: u32) -> Result<Log, AllocError>
        ensures { IfOk result (λ log. log.rows.items ≡ []) }
    {
        Ok(Log {
            rows: Vec::with_capacity(alloc, rows as usize)?,
        })
    }

    /// How many rows there are.
    #[inline(always)]
    pub(crate) fn len(&self) -> u32
        requires { length self.now.rows.items < 2 ^ 32 }
        ensures { result ≡ length self.now.rows.items }
    {
        self.rows.len() as u32
    }

    /// The same, however many there are.
    pub(crate) fn count(&self) -> usize
        ensures { result ≡ length self.now.rows.items }
    {
        self.rows.len()
    }

    /// Whether there is no row behind the first.
    pub(crate) fn is_short(&self) -> bool
        ensures { result ≡ true → length self.now.rows.items < 2 }
    {
        self.rows.len() < 2
    }

    /// Keeps the first rows alone, so many.
    #[inline(always)]
    pub(crate) fn cut(&mut self, to: u32)
        ensures { self.new.rows.items ≡ take to self.old.rows.items }
    {
        let to = to as usize;
        if self.rows.len() > to {
            self.rows.truncate(to);
        }
    }

    /// Puts a row behind the others.
    ///
    /// # Errors
    ///
    /// Where an allocation failed.
    #[inline(always)]
    fn put(&mut self, row: LogRow) -> Result<(), AllocError>
        ensures { OnOk result (self.new.rows.items ≡ self.old.rows.items ++ (row ∷ [])) }
    {
        self.rows.push(row)?;
        Ok(())
    }

    /// The same; gives the number of rows then.
    ///
    /// # Errors
    ///
    /// Where an allocation failed.
    #[inline(always)]
    pub(crate) fn push(&mut self, row: LogRow) -> Result<u32, AllocError>
        requires { length self.old.rows.items + 1 < 2 ^ 32 }
        ensures row { OnOk result (self.new.rows.items ≡ self.old.rows.items ++ (row ∷ [])) }
        ensures count { IfOk result (λ n. n ≡ length self.old.rows.items + 1) }
    {
        self.put(row)?;
        Ok(self.rows.len() as u32)
    }

    /// Puts the row of a frame behind the others.
    ///
    /// # Errors
    ///
    /// Where an allocation failed.
    #[inline(always)]
    fn put_frame(&mut self, place: Place, counts: FrameCounts) -> Result<(), AllocError>
        ensures { OnOk result (self.new.rows.items ≡ self.old.rows.items ++ (logged_row place counts None ∷ [])) }
    {
        match counts.narrowed() {
            Some(narrow) => self.put(LogRow {
                place,
                counts: Counts::Narrow(narrow),
            }),
            None => self.put_wide(place, counts),
        }
    }

    /// The same of a frame whose counts don't all fit 64 bits: they are stored beside the row.
    ///
    /// # Errors
    ///
    /// Where an allocation failed.
    #[cold]
    #[inline(never)]
    fn put_wide(&mut self, place: Place, counts: FrameCounts) -> Result<(), AllocError>
        ensures { OnOk result (self.new.rows.items ≡ self.old.rows.items ++ (logged_row place counts None ∷ [])) }
    {
        let wide = Box::new(*self.rows.allocator(), WideCounts { counts })?;
        self.put(LogRow {
            place,
            counts: Counts::Wide(wide),
        })
    }

    /// Puts the row of a frame behind the others, and gives the number of rows then. Where all counts fit 64 bits, it allocates
    /// nothing but room for rows.
    ///
    /// # Errors
    ///
    /// Where an allocation failed.
    #[inline(always)]
    pub(crate) fn push_frame(
        &mut self,
        place: Place,
        counts: FrameCounts,
    ) -> Result<u32, AllocError>
        requires { length self.old.rows.items + 1 < 2 ^ 32 }
        ensures row { OnOk result (self.new.rows.items ≡ self.old.rows.items ++ (logged_row place counts None ∷ [])) }
        ensures count { IfOk result (λ n. n ≡ length self.old.rows.items + 1) }
    {
        self.put_frame(place, counts)?;
        Ok(self.rows.len() as u32)
    }

    /// Puts the row of a frame with these counts behind the others.
    ///
    /// # Errors
    ///
    /// Where an allocation failed.
    #[inline(always)]
    fn put_counts(&mut self, place: Place, counts: &Counts) -> Result<(), AllocError>
        ensures { OnOk result (self.new.rows.items ≡ self.old.rows.items ++ (logged_row place (frame_counts counts.now) None ∷ [])) }
    {
        match counts {
            Counts::Narrow(narrow) => self.put(LogRow {
                place,
                counts: Counts::Narrow(*narrow),
            }),
            // No row of a stretch was merged: see `IsStretch`.
            counts => self.put_wide(place, counts.of_frame()),
        }
    }

    /// Puts a row of a stretch that is kept behind the others.
    ///
    /// # Errors
    ///
    /// Where an allocation failed.
    #[inline(always)]
    pub(crate) fn put_pruned(&mut self, row: &LogRow, kept: &KeptRows) -> Result<(), AllocError>
        requires counts { HasCounts kept.now }
        requires linked { (n : ℕ) × IsLinked n row.now × (n < length kept.now.counts.items) }
        ensures { OnOk result (self.new.rows.items ≡ self.old.rows.items ++ (pruned_row (marks_of kept.now) row.now ∷ [])) }
    {
        self.put_counts(row.place.pruned(kept), &row.counts)
    }

    /// Puts a row of a stretch behind the others.
    ///
    /// # Errors
    ///
    /// Where an allocation failed.
    #[inline(always)]
    fn put_joined(
        &mut self,
        row: &LogRow,
        links: Links,
        enclosing: &Enclosing<'_>,
    ) -> Result<(), AllocError>
        requires few { FitLinks links row.now }
        ensures { OnOk result (self.new.rows.items ≡ self.old.rows.items ++ (joined_row links (enclosure_of enclosing.now) row.now ∷ [])) }
    {
        self.put_counts(row.place.joined(links, enclosing), &row.counts)
    }

    /// Puts the rows of a stretch behind the others, but for the one that stands for the way into its outer frame.
    ///
    /// # Errors
    ///
    /// Where an allocation failed.
    pub(crate) fn join(
        &mut self,
        stretch: &Log,
        links: Links,
        enclosing: &Enclosing<'_>,
    ) -> Result<(), AllocError>
        requires few { All (FitLinks links) (drop 1 stretch.now.rows.items) }
        ensures { OnOk result (self.new.rows.items ≡ self.old.rows.items ++ map (joined_row links (enclosure_of enclosing.now)) (drop 1 stretch.now.rows.items)) }
    {
        for k in 1..stretch.rows.len() {
            self.put_joined(&stretch.rows[k], links, enclosing)?;
        }
        Ok(())
    }

    /// Adds the rows of a way to sums: without burdens, or under them.
    ///
    /// # Errors
    ///
    /// Where an allocation failed.
    fn add_up(
        &self,
        alloc: Global,
        burdened: bool,
        way: u32,
        sums: &mut NarrowSums,
    ) -> Result<(), AllocError>
        requires linked { AreLinked (reverse self.now.rows.items) }
        requires way { way ≤ length self.now.rows.items }
        requires fits { (key : Option ℕ) → Fits (plus (key_row sums.old key) (row_in burdened self.now way key)) }
        ensures { OnOk result ((key : Option ℕ) → key_row sums.new key ≡ plus (key_row sums.old key) (row_in burdened self.now way key)) }
    {
        let mut left = Vec::new(alloc);
        left.push(way)?;
        while let Some(count) = left.pop() {
            if count == 0 {
                continue;
            }
            let row = &self.rows[count as usize - 1];
            row.add_to(burdened, sums)?;
            left.push(row.before(burdened))?;
            left.push(row.within(burdened))?;
        }
        Ok(())
    }

    /// What the rows of a way come to, without burdens or under them. It takes constant time for each frame, time linear in what
    /// is stored for each row that was merged, a step for each site number up to the greatest, and memory for as many numbers as
    /// closed frames nest, besides that of the sums. Where the way has no rows it takes no memory.
    ///
    /// # Errors
    ///
    /// Where an allocation failed.
    pub(crate) fn summed(
        &self,
        alloc: Global,
        burdened: bool,
        way: u32,
    ) -> Result<NarrowList, AllocError>
        requires linked { AreLinked (reverse self.now.rows.items) }
        requires way { way ≤ length self.now.rows.items }
        requires fits { (key : Option ℕ) → Fits (row_in burdened self.now way key) }
        ensures { IfOk result (λ list. (key : Option ℕ) → key_row list key ≡ row_in burdened self.now way key) }
    {
        if way == 0 {
            return Ok(NarrowList::none(alloc));
        }
        let mut sums = EmptySums::new(alloc).into_sums();
        self.add_up(alloc, burdened, way, &mut sums)?;
        let list = sums.into_list(alloc)?;
        Ok(list.0)
    }

    /// Puts what was merged behind the other rows, and gives the number of rows then. The row leads on either path to the way that
    /// ends behind so many rows.
    ///
    /// # Errors
    ///
    /// Where an allocation failed.
    pub(crate) fn push_merged(
        &mut self,
        alloc: Global,
        before: u32,
        merged: Merged,
    ) -> Result<u32, AllocError>
        requires { length self.old.rows.items + 1 < 2 ^ 32 }
        ensures row { OnOk result ((r : LogRowValue) × IsMergedRow before merged r × (self.new.rows.items ≡ self.old.rows.items ++ (r ∷ []))) }
        ensures count { IfOk result (λ n. n ≡ length self.old.rows.items + 1) }
    {
        let row = LogRow::of_merged(alloc, before, merged)?;
        self.push(row)
    }
}
