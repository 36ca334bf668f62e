//! The ways into the open frames of a run, on both paths at once.

ghost use Rattle.std.specs.Prelude.{◌≡◌, ◌+◌, ◌-◌, ◌*◌, ◌/◌, max, min, ◌<◌, ◌≤◌, ◌^◌, ◌∷◌, ◌++◌, [], ℕ, Bool, List, true, false, Option, length, map, reverse, drop, OnOk, IfOk, All};
ghost use Rattle.std.specs.Global.{Box};
ghost use Rattle.spp_site.specs.Rows.{Fits};
ghost use Rattle.spp_site.specs.Profiles.{key_row};
ghost use Rattle.spp_ways.specs.Ways.{Ways, no_ways, rows_at};
ghost use Rattle.spp_ways.specs.OpenWays.{
  IsLaid,
  HasOne,
  FitTopStrand,
  AreWays,
  on_path,
  frame_ways,
  bare_row,
  strand_list,
  waited_list,
  returned_list,
  root_rows,
  chosen,
  entered,
  FitTop,
  HasRows,
  IsPut,
};
ghost use Rattle.spp_ways.specs.Enclosures.{Enclosure, enclosure_of, enclosed};
ghost use Rattle.spp_ways.specs.declared.log.Merged.{Merged as MergedValue};
ghost use Rattle.spp_ways.specs.Stretches.{
  outer_way,
  IsBase,
  outer_row,
  outer_frame,
  AreStretchWays,
  AreEnclosed,
  stretch_rows,
  stretch_frames,
  IsStretch,
  IsStrand,
  joined_frame,
  joined_list,
  FitFrame,
  CanJoin,
};

use crate::both_ways::BothWays;
use crate::enclosing::Enclosing;
use crate::frame_counts::FrameCounts;
use crate::frame_ways::FrameWays;
use crate::log::{Log, LogRow};
use crate::path_sums::EmptyPathSums;
use crate::place::{Links, Place};
use spp_dag::FrameKind;
use spp_site::{ClosedFrame, EmptySums, Table};
use std::alloc::{AllocError, Global};
use std::mem;

/// A yes or a no for each of the two paths.
#[derive(Clone, Copy, Debug, PartialEq, Eq)]
pub struct OnPaths {
    /// For the path without burdens.
    pub plain: bool,
    /// For the path under the burdens.
    pub burdened: bool,
}

/// The ways of a stretch: into the frame in which it begins, and into those that it leaves open.
#[derive(Drop)]
pub struct LoggedStretch {
    /// Into the frame in which it begins.
    pub(crate) outer: FrameWays,
    /// The first isn't used, and those into the frames that it leaves open follow it; where there are none, that one alone or
    /// nothing.
    pub(crate) frames: Vec<FrameWays>,
    /// The rows, the first of which stands for the way into the outer frame before the stretch; none, or that one alone, where
    /// there is no other.
    pub(crate) log: Log,
}

impl LoggedStretch {
    /// How many rows it has.
    pub fn rows(&self) -> usize {
        self.log.count()
    }

    /// Whether the stretch is strands of so many instructions alone, as far as its ways tell.
    pub fn is_strand(&self, count: u64) -> bool
        ensures { result ≡ true → IsStrand count self.now }
    {
        self.log.is_short() && self.frames.len() < 2 && self.outer.is_strand(count)
    }
}

/// Whether the way through a frame of that kind, which returns, is kept on one path at least.
#[inline(always)]
fn is_entered(kind: FrameKind, wins: OnPaths) -> bool
    ensures { result ≡ entered kind wins }
{
    match kind {
        FrameKind::Root => false,
        FrameKind::Called => true,
        FrameKind::Spawned => wins.plain || wins.burdened,
    }
}

/// The rows of a frame are merged where they are more than this, and more than half the number of call sites, since merging can
/// take a step for each.
const LEAST_LIMIT: u32 = 256;

/// No rows are merged while the log has at most so many: they lie in the processor's nearer caches.
const LEAST_ROOM: u32 = 4096;

/// Nor while it has at most so many for each call site: what is merged has one to three rows for most, and nine at worst.
const ROOM_OF_A_SITE: u32 = 4;

/// Where more rows are stored than that, it doesn't matter how many.
const MOST_STORED: usize = u32::MAX as usize;

/// The ways into the open frames of a run, without burdens and under them: for each frame the greatest way along the frame
/// itself, and the greatest way through a child that waits in it, with the closed frames that they enter. Of the spawned
/// children that returned since the frame's last sync the one with the greatest way waits, the first of several; at a sync the
/// frame takes it or goes on along itself. Both are told by whoever keeps the ways' weights.
///
/// A closed frame that a way enters takes a row of 64 bytes in a log, or twice that where its work, its span or the count of
/// its own strands on a way doesn't fit 64 bits; rows behind the last one that a way ends with are cut off. Where the log has
/// over 4,096 rows, and over four for each of the trace's call sites, and over 256 of these are an open frame's, and over half
/// as many as sites, those of its ways are merged into three rows: one for what the way along the frame and that through the
/// child share, and one for what each has besides. For each is stored what it adds to each site: what both paths add alike, and
/// what each adds besides. Each of these takes some 128 bytes, or up to twice that, for each site that was met whose number is
/// below 1,024 or whose sums don't fit 64 bits, and 64 bytes for each other one. Three tables, of what both paths have alike
/// and of the rest of each, are kept to be used again: 58 bytes for each site number up to the greatest that it had, or up to
/// twice that, and up to 64 KiB. Ways are merged again where what was stored and what came behind it are more than those 256,
/// or half as many as sites, and more than twice what was stored. An open frame takes 96 bytes besides. Each event takes
/// constant time, amortized. After an error the ways are of no use.
#[derive(Drop)]
pub struct OpenWays {
    frames: Vec<FrameWays>,
    log: Log,
    /// A frame that is opened has its rows merged where they are more than that.
    limit: u32,
    /// How many rows the log may have before any are merged. No clause says so: the ways are the same.
    room: u32,
    /// In which the rows of ways are added up, to be used again.
    sums: EmptyPathSums,
}

impl OpenWays {
    /// The ways into the root frame of a run with so many call sites, before the first event.
    ///
    /// # Errors
    ///
    /// Where an allocation failed.
    pub fn new(alloc: Global, sites: u32) -> Result<Self, AllocError>
        ensures laid { IfOk result (λ w. IsLaid w) }
        ensures ways { IfOk result (λ w. (on : Bool) → AreWays on w (no_ways ∷ [])) }
        ensures rows { IfOk result (λ w. length w.log.rows.items ≡ 0) }
        ensures limit { IfOk result (λ w. w.limit ≡ max (sites / 2) 256) }
    {
        let limit = (sites / 2).max(LEAST_LIMIT);
        let mut frames = Vec::new(alloc);
        frames.push(FrameWays::opened(0, limit))?;
        Ok(OpenWays {
            frames,
            log: Log::new(alloc),
            limit,
            room: sites.saturating_mul(ROOM_OF_A_SITE).max(LEAST_ROOM),
            sums: EmptyPathSums::new(alloc),
        })
    }

    /// A call or a spawn.
    ///
    /// # Errors
    ///
    /// Where an allocation failed.
    #[inline(always)]
    pub fn open(&mut self) -> Result<(), AllocError>
        requires laid { IsLaid self.old }
        requires few { length self.old.log.rows.items < 2 ^ 32 }
        ensures laid { OnOk result (IsLaid self.new) }
        ensures ways { OnOk result ((on : Bool) (ways : List Ways) → AreWays on self.old ways → AreWays on self.new (no_ways ∷ ways)) }
        ensures rows { OnOk result (length self.new.log.rows.items ≤ length self.old.log.rows.items) }
        ensures limit { self.new.limit ≡ self.old.limit }
        ensures stretch { OnOk result (IsStretch self.old.log.rows.items self.old.frames.items → IsStretch self.new.log.rows.items self.new.frames.items) }
        ensures enclosed { OnOk result ((on : Bool) (e : Enclosure) (base : Box MergedValue) (ways : List Ways) → AreStretchWays on e base self.old ways → AreStretchWays on e base self.new (no_ways ∷ ways)) }
    {
        self.frames
            .push(FrameWays::opened(self.log.len(), self.limit))?;
        Ok(())
    }

    /// A strand of that many instructions in the innermost frame.
    #[inline(always)]
    pub fn strand(&mut self, count: u64)
        requires laid { IsLaid self.old }
        requires fits { (on : Bool) → FitTopStrand on count (reverse self.old.frames.items) }
        ensures laid { IsLaid self.new }
        ensures ways { (on : Bool) (ways : List Ways) → AreWays on self.old ways → AreWays on self.new (strand_list count ways) }
        ensures rows { length self.new.log.rows.items ≤ length self.old.log.rows.items }
        ensures limit { self.new.limit ≡ self.old.limit }
        ensures stretch { IsStretch self.old.log.rows.items self.old.frames.items → IsStretch self.new.log.rows.items self.new.frames.items }
        ensures enclosed { (on : Bool) (e : Enclosure) (base : Box MergedValue) (ways : List Ways) → AreStretchWays on e base self.old ways → AreStretchWays on e base self.new (strand_list count ways) }
    {
        let last = self.frames.len() - 1;
        let frame = &mut self.frames[last];
        frame.plain_own += u128::from(count);
        frame.burdened_own += u128::from(count);
    }

    /// A sync of the innermost frame; on which paths it takes the child that waits.
    #[inline(always)]
    pub fn wait(&mut self, takes: OnPaths)
        requires laid { IsLaid self.old }
        requires some { 0 < length self.old.frames.items }
        ensures laid { IsLaid self.new }
        ensures ways { (on : Bool) (ways : List Ways) → AreWays on self.old ways → AreWays on self.new (waited_list (on_path on takes) ways) }
        ensures rows { length self.new.log.rows.items ≤ length self.old.log.rows.items }
        ensures limit { self.new.limit ≡ self.old.limit }
        ensures stretch { IsStretch self.old.log.rows.items self.old.frames.items → IsStretch self.new.log.rows.items self.new.frames.items }
        ensures enclosed { (on : Bool) (e : Enclosure) (base : Box MergedValue) (ways : List Ways) → AreStretchWays on e base self.old ways → AreStretchWays on e base self.new (waited_list (on_path on takes) ways) }
    {
        let last = self.frames.len() - 1;
        let frame = &mut self.frames[last];
        frame.wait(takes);
        let needed = frame.start.max(frame.plain_rows).max(frame.burdened_rows);
        self.log.cut(needed);
    }

    /// Merges the rows of the innermost frame. Three stand for them then, each for both paths: one for what the way along it
    /// and that through the child that waits in it share, and one for what each has besides, which leads to the first. It takes
    /// time linear in the numbers of its rows, of those that are stored for them, and of call sites. No clause says that any
    /// are merged: the ways are the same.
    ///
    /// # Errors
    ///
    /// Where an allocation failed.
    #[cold]
    #[inline(never)]
    fn merge(&mut self, alloc: Global) -> Result<(), AllocError>
        requires laid { IsLaid self.old }
        requires fits { (on : Bool) → (ways : List Ways) × AreWays on self.old ways × FitTop ways }
        requires few { length self.old.log.rows.items < 2 ^ 32 }
        requires many { HasRows self.old }
        ensures laid { OnOk result (IsLaid self.new) }
        ensures ways { OnOk result ((on : Bool) (ways : List Ways) → AreWays on self.old ways → AreWays on self.new ways) }
        ensures rows { OnOk result (length self.new.log.rows.items ≤ length self.old.log.rows.items) }
        ensures limit { self.new.limit ≡ self.old.limit }
    {
        let last = self.frames.len() - 1;
        let frame = self.frames[last];
        let along = BothWays {
            plain: frame.plain_rows,
            burdened: frame.burdened_rows,
        };
        let through = BothWays {
            plain: frame.plain_through_rows,
            burdened: frame.burdened_through_rows,
        };
        let sums = mem::replace(&mut self.sums, EmptyPathSums::new(alloc));
        let ways = self.log.merge(alloc, sums, along, through)?;
        self.sums = ways.1;
        let merged = ways.0;
        let stored = merged.len().min(MOST_STORED) as u32;
        self.log.cut(frame.start);
        let shared = self.log.push_merged(alloc, 0, merged.shared)?;
        let along = self.log.push_merged(alloc, shared, merged.along)?;
        let through = self.log.push_merged(alloc, shared, merged.through)?;
        self.frames[last] = frame.merged(along, through, stored);
        Ok(())
    }

    /// The innermost frame returns to its parent, as for [`OpenWays::ret`], but no rows are merged. Gives whether the parent's are
    /// to be merged then.
    #[inline(always)]
    fn put(
        &mut self,
        kind: FrameKind,
        takes: OnPaths,
        wins: OnPaths,
        site: u32,
        caller: u32,
        closed: &ClosedFrame,
    ) -> Result<bool, AllocError>
        requires laid { IsLaid self.old }
        requires two { 1 < length self.old.frames.items }
        requires few { length self.old.log.rows.items + 1 < 2 ^ 32 }
        requires site { site < 65536 }
        ensures put { OnOk result (IsPut kind takes wins site caller closed.now self.old self.new) }
        ensures many { IfOk result (λ merges. merges ≡ true → HasRows self.new) }
        ensures limit { self.new.limit ≡ self.old.limit }
    {
        let last = self.frames.len() - 1;
        let plain = self.frames[last].plain().chosen(takes.plain);
        let burdened = self.frames[last].burdened().chosen(takes.burdened);
        let stored = self.frames[last].stored;
        let limit = self.frames[last].limit;
        self.frames.truncate(last);
        let parent = &mut self.frames[last - 1];
        let plain_stays = parent.plain().needed(kind, wins.plain);
        let burdened_stays = parent.burdened().needed(kind, wins.burdened);
        let stays = parent.start.max(plain_stays).max(burdened_stays);
        if !is_entered(kind, wins) {
            self.log.cut(stays);
            return Ok(false);
        }
        self.log.cut(stays.max(plain.rows).max(burdened.rows));
        let place = Place {
            before: parent.plain_rows,
            within: plain.rows,
            burdened_before: parent.burdened_rows,
            burdened_within: burdened.rows,
            caller,
            site: site as u16,
            top_site: closed.top_site,
            top_caller: closed.top_caller,
        };
        let counts = FrameCounts {
            work: closed.work,
            span: closed.span,
            own: plain.own,
            burdened_own: burdened.own,
        };
        let rows = self.log.push_frame(place, counts)?;
        parent.come(kind, wins, rows);
        parent.inherit(stored, limit);
        Ok(parent.is_full(rows, self.room))
    }

    /// The innermost frame returns to its parent. `kind` and `site` tell how it was entered; `takes` on which paths it
    /// takes the child that waits in it. For a spawned frame `wins` tells on which paths the way through it is heavier than
    /// that through the child that waits in the frame below, or none waits there; a tie is no win. `closed` is the frame as
    /// the table of the whole dag counts it; its `local` isn't used, since the ways have their own strands.
    ///
    /// # Errors
    ///
    /// Where an allocation failed.
    #[inline(always)]
    pub fn ret(
        &mut self,
        alloc: Global,
        kind: FrameKind,
        takes: OnPaths,
        wins: OnPaths,
        site: u32,
        closed: &ClosedFrame,
    ) -> Result<(), AllocError>
        requires laid { IsLaid self.old }
        requires two { 1 < length self.old.frames.items }
        requires few { length self.old.log.rows.items + 1 < 2 ^ 32 }
        requires site { site < 65536 }
        requires fits { (on : Bool) → (ways : List Ways) × AreWays on self.old ways × FitTop (returned_list kind (on_path on takes) (on_path on wins) site (bare_row closed.now) ways) }
        ensures laid { OnOk result (IsLaid self.new) }
        ensures ways { OnOk result ((on : Bool) (ways : List Ways) → AreWays on self.old ways → AreWays on self.new (returned_list kind (on_path on takes) (on_path on wins) site (bare_row closed.now) ways)) }
        ensures rows { OnOk result (length self.new.log.rows.items ≤ length self.old.log.rows.items + 1) }
        ensures limit { self.new.limit ≡ self.old.limit }
    {
        if self.put(kind, takes, wins, site, 0, closed)? {
            self.merge(alloc)?;
        }
        Ok(())
    }

    /// The innermost frame of a stretch returns to its parent, as for [`OpenWays::ret`]; `caller` is the function of its
    /// caller, or `OUTER_CALLER`, and `closed` the frame as a table of the stretch alone counts it. No rows are merged.
    ///
    /// # Errors
    ///
    /// Where an allocation failed.
    #[inline(always)]
    pub fn pop(
        &mut self,
        kind: FrameKind,
        takes: OnPaths,
        wins: OnPaths,
        site: u32,
        caller: u32,
        closed: &ClosedFrame,
    ) -> Result<(), AllocError>
        requires stretch { IsStretch self.old.log.rows.items self.old.frames.items }
        requires two { 1 < length self.old.frames.items }
        requires few { length self.old.log.rows.items + 1 < 2 ^ 32 }
        requires site { site < 65536 }
        requires caller { caller < outer_way }
        ensures stretch { OnOk result (IsStretch self.new.log.rows.items self.new.frames.items) }
        ensures ways { OnOk result ((on : Bool) (e : Enclosure) (base : Box MergedValue) (ways : List Ways) → AreStretchWays on e base self.old ways → AreStretchWays on e base self.new (returned_list kind (on_path on takes) (on_path on wins) site (bare_row (enclosed e site caller closed.now)) ways)) }
        ensures rows { OnOk result (length self.new.log.rows.items ≤ length self.old.log.rows.items + 1) }
    {
        self.put(kind, takes, wins, site, caller, closed)?;
        Ok(())
    }

    /// The ways of a stretch before its first event, where it isn't known what encloses it.
    ///
    /// # Errors
    ///
    /// Where an allocation failed.
    pub fn stretch(alloc: Global) -> Result<Self, AllocError>
        ensures { IfOk result (λ w. (w.log.rows.items ≡ outer_row ∷ []) × (w.frames.items ≡ outer_frame ∷ [])) }
    {
        let mut log = Log::new(alloc);
        log.push(LogRow::outer())?;
        let mut frames = Vec::new(alloc);
        frames.push(FrameWays::outer())?;
        Ok(OpenWays {
            frames,
            log,
            limit: 0,
            room: 0,
            sums: EmptyPathSums::new(alloc),
        })
    }

    /// The ways of a stretch that ends where its outer frame alone is open; goes on with a new one.
    ///
    /// # Errors
    ///
    /// Where an allocation failed.
    pub fn next_stretch(&mut self, alloc: Global) -> Result<LoggedStretch, AllocError>
        requires stretch { IsStretch self.old.log.rows.items self.old.frames.items }
        requires one { length self.old.frames.items ≡ 1 }
        requires few { length self.old.log.rows.items < 2 ^ 32 }
        ensures rows { IfOk result (λ s. stretch_rows s ≡ self.old.log.rows.items) }
        ensures frames { IfOk result (λ s. stretch_frames s ≡ self.old.frames.items) }
        ensures begun { OnOk result ((self.new.log.rows.items ≡ outer_row ∷ []) × (self.new.frames.items ≡ outer_frame ∷ [])) }
    {
        let outer = self.frames[0];
        let mut log = Log::new(alloc);
        if self.log.len() > 1 {
            log.push(LogRow::outer())?;
            mem::swap(&mut self.log, &mut log);
        }
        self.frames[0] = FrameWays::outer();
        Ok(LoggedStretch {
            outer,
            frames: Vec::new(alloc),
            log,
        })
    }

    /// The ways of a stretch, with those into the frames that it leaves open.
    pub fn into_stretch(self) -> LoggedStretch
        requires { IsStretch self.log.rows.items self.frames.items }
        ensures rows { stretch_rows result ≡ self.log.rows.items }
        ensures frames { stretch_frames result ≡ self.frames.items }
    {
        let OpenWays { frames, log, .. } = self;
        LoggedStretch {
            outer: frames[0],
            frames,
            log,
        }
    }

    /// Opens the frames that a stretch leaves open, but for its outer one.
    ///
    /// # Errors
    ///
    /// Where an allocation failed.
    fn open_inner(&mut self, stretch: &LoggedStretch, links: Links) -> Result<(), AllocError>
        requires few { All (FitFrame links) (drop 1 stretch.now.frames.items) }
        ensures frames { OnOk result (self.new.frames.items ≡ self.old.frames.items ++ map (joined_frame links self.old.limit) (drop 1 stretch.now.frames.items)) }
        ensures log { self.new.log ≡ self.old.log }
        ensures limit { self.new.limit ≡ self.old.limit }
    {
        for k in 1..stretch.frames.len() {
            let frame = stretch.frames[k].joined(links, self.limit);
            self.frames.push(frame)?;
        }
        Ok(())
    }

    /// Joins the ways of a stretch onto these, which stand before it. `wins` tells on which paths the way through the child
    /// that waits in its outer frame is greater than that through the one that waits in the innermost frame here, or none
    /// does; `enclosing` what encloses the stretch. It takes constant time for each row and each frame of the stretch; where
    /// it leaves none open, and the innermost frame here has too many rows then, they are merged, which takes constant time for
    /// each, amortized over the run.
    ///
    /// # Errors
    ///
    /// Where an allocation failed.
    pub fn join(
        &mut self,
        alloc: Global,
        stretch: &LoggedStretch,
        wins: OnPaths,
        enclosing: &Enclosing<'_>,
    ) -> Result<(), AllocError>
        requires laid { IsLaid self.old }
        requires stretch { IsStretch (stretch_rows stretch.now) (stretch_frames stretch.now) }
        requires few { length self.old.log.rows.items + length (stretch_rows stretch.now) < 2 ^ 32 }
        requires can { (on : Bool) → CanJoin on wins (enclosure_of enclosing.now) self.old stretch.now }
        ensures laid { OnOk result (IsLaid self.new) }
        ensures ways { OnOk result ((on : Bool) (base : Box MergedValue) (w : Ways) (ws us : List Ways) → AreWays on self.old (w ∷ ws) → IsBase on base w.along → AreEnclosed on (enclosure_of enclosing.now) base (stretch_rows stretch.now) (stretch_frames stretch.now) us → AreWays on self.new (joined_list (on_path on wins) us w ws)) }
        ensures rows { OnOk result (length self.new.log.rows.items < length self.old.log.rows.items + length (stretch_rows stretch.now)) }
        ensures limit { self.new.limit ≡ self.old.limit }
    {
        let last = self.frames.len() - 1;
        let links = Links {
            plain: self.frames[last].plain_rows,
            burdened: self.frames[last].burdened_rows,
            rows: self.log.len(),
        };
        self.log.join(&stretch.log, links, enclosing)?;
        self.frames[last].join(&stretch.outer, wins, links);
        self.open_inner(stretch, links)?;
        let alone = stretch.frames.len() < 2;
        if alone && self.frames[last].is_full(self.log.len(), self.room) {
            self.merge(alloc)?;
        }
        Ok(())
    }

    /// The table of a path, without burdens or under them, where the root frame, which alone is open, closes: on which paths
    /// it takes the child that waits in it, and the frame as the table of the whole dag counts it. It takes time linear in
    /// the numbers of rows that the path has in the log, of those that are stored for them, and of call sites.
    ///
    /// # Errors
    ///
    /// Where an allocation failed.
    pub fn path_table(
        &self,
        alloc: Global,
        burdened: bool,
        takes: OnPaths,
        closed: &ClosedFrame,
    ) -> Result<Table, AllocError>
        requires laid { IsLaid self.now }
        requires fits { (ways : List Ways) × AreWays burdened self.now ways × HasOne ways × ((key : Option ℕ) → Fits (rows_at (root_rows (on_path burdened takes) (bare_row closed.now) ways) key)) }
        ensures { IfOk result (λ t. (ways : List Ways) → AreWays burdened self.now ways → (key : Option ℕ) → key_row t key ≡ rows_at (root_rows (on_path burdened takes) (bare_row closed.now) ways) key) }
    {
        let way = self.frames[self.frames.len() - 1].chosen_on(burdened, takes);
        let rows = self.log.summed(alloc, burdened, way.rows)?;
        let mut table = Table::new(alloc);
        rows.add_to(&mut table)?;
        let root = ClosedFrame {
            local: way.own,
            ..*closed
        };
        table.add_root(&root.row());
        Ok(table)
    }
}
