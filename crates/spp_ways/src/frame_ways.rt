//! The ways into one open frame of a run, on both paths.

ghost use Rattle.std.specs.Prelude.{◌≡◌, ◌+◌, ◌-◌, ◌*◌, max, min, nat_lt, ◌<◌, ◌≤◌, ◌^◌, ℕ, length, true, if◌then◌else◌, false};
ghost use Rattle.spp_ways.specs.OpenWays.{
  on_path,
  plain_of,
  burdened_of,
  frame_ways,
  path_of,
  chosen,
  nothing,
  waited_frame,
  come_frame,
  merged_ways,
  AreMerged,
  AreIn,
  StayIn,
};
ghost use Rattle.spp_ways.specs.Pruning.{HasCounts, ReachesFrame, marks_of, pruned_frame, pruned_ways};
ghost use Rattle.spp_ways.specs.Stretches.{
  outer_frame,
  strand_outer_frame,
  joined_ways,
  joined_frame,
  gone_on_by,
  gone_on,
  FitFrame,
  FitOwn,
};

use crate::kept_rows::KeptRows;
use crate::open_ways::OnPaths;
use crate::place::{Links, linked_to};
use spp_dag::FrameKind;

/// A way into an open frame.
#[derive(Clone, Copy, PartialEq, Eq)]
pub(crate) struct LoggedWay {
    /// Where it ends in the log.
    pub(crate) rows: u32,
    /// The counts of the frame's own strands on it.
    pub(crate) own: u128,
}

impl LoggedWay {
    /// The way that enters nothing.
    #[inline(always)]
    pub(crate) fn none() -> Self
        ensures { result ≡ nothing }
    {
        LoggedWay { rows: 0, own: 0 }
    }
}

/// The two ways into an open frame on one path.
#[derive(Clone, Copy, PartialEq, Eq)]
pub(crate) struct LoggedWays {
    /// Along the frame itself.
    pub(crate) along: LoggedWay,
    /// Through the child that waits in it, if one does.
    pub(crate) through: LoggedWay,
}

impl LoggedWays {
    /// Those of a frame that goes on so, and in which no child waits.
    #[inline(always)]
    pub(crate) fn going_on(along: LoggedWay) -> Self
        ensures { result ≡ record { along = along; through = nothing } }
    {
        LoggedWays {
            along,
            through: LoggedWay::none(),
        }
    }

    /// Those, where their rows have been merged: they end with these two of the log.
    pub(crate) fn merged(self, along: u32, through: u32) -> Self
        ensures { result ≡ merged_ways along through self }
    {
        LoggedWays {
            along: LoggedWay {
                rows: along,
                own: self.along.own,
            },
            through: LoggedWay {
                rows: through,
                own: self.through.own,
            },
        }
    }

    /// The way on which the frame goes on where it waits.
    #[inline(always)]
    pub(crate) fn chosen(&self, takes: bool) -> LoggedWay
        ensures { result ≡ chosen takes self.now }
    {
        if takes { self.through } else { self.along }
    }

    /// How many rows of the log are needed for the ways that stay where a frame of that kind returns, which wins against
    /// the child that waits or not.
    #[inline(always)]
    pub(crate) fn needed(&self, kind: FrameKind, wins: bool) -> u32
        ensures stay { StayIn result kind wins self.now }
        ensures most { (n : ℕ) → AreIn n self.now → result ≤ n }
        ensures least { (n : ℕ) → StayIn n kind wins self.now → result ≤ n }
    {
        match kind {
            FrameKind::Spawned if wins => self.along.rows,
            FrameKind::Root | FrameKind::Called | FrameKind::Spawned => {
                self.along.rows.max(self.through.rows)
            }
        }
    }

    /// Those of a stretch, in a log without the rows that aren't kept.
    fn pruned(&self, kept: &KeptRows) -> Self
        requires counts { HasCounts kept.now }
        requires along { self.now.along.rows < length kept.now.counts.items }
        requires through { self.now.through.rows < length kept.now.counts.items }
        ensures { result ≡ pruned_ways (marks_of kept.now) self.now }
    {
        LoggedWays {
            along: LoggedWay {
                rows: kept.up_to(self.along.rows),
                own: self.along.own,
            },
            through: LoggedWay {
                rows: kept.up_to(self.through.rows),
                own: self.through.own,
            },
        }
    }

    /// Those of a stretch, in the log onto which it is joined: that had so many rows, and `outer` tells where the way into the
    /// stretch's outer frame ends there.
    #[inline(always)]
    pub(crate) fn joined(&self, outer: u32, rows: u32) -> Self
        requires along { rows + self.now.along.rows < 2 ^ 32 }
        requires through { rows + self.now.through.rows < 2 ^ 32 }
        ensures { result ≡ joined_ways outer rows self.now }
    {
        LoggedWays {
            along: LoggedWay {
                rows: linked_to(outer, rows, self.along.rows),
                own: self.along.own,
            },
            through: LoggedWay {
                rows: linked_to(outer, rows, self.through.rows),
                own: self.through.own,
            },
        }
    }

    /// Goes on by those of a stretch, whose way through a child that waits is kept if it wins.
    #[inline(always)]
    pub(crate) fn join(&mut self, stretch: &LoggedWays, wins: bool)
        requires { FitOwn wins stretch.now self.old }
        ensures { self.new ≡ gone_on_by stretch.now wins self.old }
    {
        if wins {
            self.through = LoggedWay {
                rows: stretch.through.rows,
                own: self.along.own + stretch.through.own,
            };
        }
        self.along = LoggedWay {
            rows: stretch.along.rows,
            own: self.along.own + stretch.along.own,
        };
    }
}

/// An open frame as far as its ways go, two on each path: the numbers of 128 bits come first, so that 4 of its 96 bytes are lost.
#[derive(Clone, Copy, PartialEq, Eq)]
pub(crate) struct FrameWays {
    /// The counts of the frame's own strands on the way along it, on the path without burdens.
    pub(crate) plain_own: u128,
    /// And on the way through the child that waits in it, if one does, on that path.
    pub(crate) plain_through_own: u128,
    /// The counts of its own strands on the way along it, on the path under the burdens.
    pub(crate) burdened_own: u128,
    /// And on the way through the child that waits in it, if one does, on that path.
    pub(crate) burdened_through_own: u128,
    /// Where the way along it ends in the log, on the path without burdens.
    pub(crate) plain_rows: u32,
    /// And where the way through the child that waits in it ends, on that path.
    pub(crate) plain_through_rows: u32,
    /// Where the way along it ends in the log, on the path under the burdens.
    pub(crate) burdened_rows: u32,
    /// And where the way through the child that waits in it ends, on that path.
    pub(crate) burdened_through_rows: u32,
    /// How many rows the log had where the frame was opened: the ways into the frames below end there or before.
    pub(crate) start: u32,
    /// How many rows by call site are stored for what was merged behind those, at most.
    pub(crate) stored: u32,
    /// Where the rows behind those and the stored ones are more than that, they are merged.
    pub(crate) limit: u32,
}

// A run has one of them for each open frame.
const _: () = prove!(size_of::<FrameWays>() == 96);

impl FrameWays {
    /// The frame that has these ways without burdens, and these under them.
    #[inline(always)]
    pub(crate) fn of(
        plain: LoggedWays,
        burdened: LoggedWays,
        start: u32,
        stored: u32,
        limit: u32,
    ) -> Self
        ensures { result ≡ frame_ways plain burdened start stored limit }
    {
        FrameWays {
            plain_own: plain.along.own,
            plain_through_own: plain.through.own,
            burdened_own: burdened.along.own,
            burdened_through_own: burdened.through.own,
            plain_rows: plain.along.rows,
            plain_through_rows: plain.through.rows,
            burdened_rows: burdened.along.rows,
            burdened_through_rows: burdened.through.rows,
            start,
            stored,
            limit,
        }
    }

    /// Its ways on the path without burdens.
    #[inline(always)]
    pub(crate) fn plain(&self) -> LoggedWays
        ensures { result ≡ plain_of self.now }
    {
        LoggedWays {
            along: LoggedWay {
                rows: self.plain_rows,
                own: self.plain_own,
            },
            through: LoggedWay {
                rows: self.plain_through_rows,
                own: self.plain_through_own,
            },
        }
    }

    /// Its ways on the path under the burdens.
    #[inline(always)]
    pub(crate) fn burdened(&self) -> LoggedWays
        ensures { result ≡ burdened_of self.now }
    {
        LoggedWays {
            along: LoggedWay {
                rows: self.burdened_rows,
                own: self.burdened_own,
            },
            through: LoggedWay {
                rows: self.burdened_through_rows,
                own: self.burdened_through_own,
            },
        }
    }

    /// A frame that is opened where the log has so many rows, and of which so many rows are merged.
    #[inline(always)]
    pub(crate) fn opened(start: u32, limit: u32) -> Self
        ensures { result ≡ frame_ways (record { along = nothing; through = nothing }) (record { along = nothing; through = nothing }) start 0 limit }
    {
        let ways = LoggedWays::going_on(LoggedWay::none());
        FrameWays::of(ways, ways, start, 0, limit)
    }

    /// The frame in which a stretch begins, by the ways of the stretch: they begin with the row that stands for the way into
    /// that frame.
    #[inline(always)]
    pub(crate) fn outer() -> Self
        ensures { result ≡ outer_frame }
    {
        let ways = LoggedWays::going_on(LoggedWay { rows: 1, own: 0 });
        FrameWays::of(ways, ways, 1, 0, 0)
    }

    /// Whether it is that one behind strands of so many instructions and nothing else.
    pub(crate) fn is_strand(&self, count: u64) -> bool
        ensures { result ≡ true → self.now ≡ strand_outer_frame count }
    {
        let mut strand = FrameWays::outer();
        strand.plain_own = u128::from(count);
        strand.burdened_own = u128::from(count);
        *self == strand
    }

    /// The frame of a stretch, in a log without the rows that aren't kept.
    pub(crate) fn pruned(&self, kept: &KeptRows) -> Self
        requires counts { HasCounts kept.now }
        requires within { ReachesFrame (length kept.now.counts.items) self.now }
        ensures { result ≡ pruned_frame (marks_of kept.now) self.now }
    {
        FrameWays::of(
            self.plain().pruned(kept),
            self.burdened().pruned(kept),
            kept.up_to(self.start),
            self.stored,
            self.limit,
        )
    }

    /// The frame of a stretch, in the log onto which the stretch is joined.
    #[inline(always)]
    pub(crate) fn joined(&self, links: Links, limit: u32) -> Self
        requires few { FitFrame links self.now }
        ensures { result ≡ joined_frame links limit self.now }
    {
        FrameWays::of(
            self.plain().joined(links.plain, links.rows),
            self.burdened().joined(links.burdened, links.rows),
            links.rows + self.start - 1,
            0,
            limit,
        )
    }

    /// Goes on by the ways of a stretch that has this outer frame. `wins` tells on which paths the way through the child that
    /// waits in the stretch is greater than that through the one that waits here, or none does.
    #[inline(always)]
    pub(crate) fn join(&mut self, outer: &FrameWays, wins: OnPaths, links: Links)
        requires few { FitFrame links outer.now }
        requires plain { FitOwn wins.plain (plain_of outer.now) (plain_of self.old) }
        requires burdened { FitOwn wins.burdened (burdened_of outer.now) (burdened_of self.old) }
        ensures { self.new ≡ gone_on links wins outer.now self.old }
    {
        let mut plain = self.plain();
        plain.join(&outer.plain().joined(links.plain, links.rows), wins.plain);
        let mut burdened = self.burdened();
        burdened.join(
            &outer.burdened().joined(links.burdened, links.rows),
            wins.burdened,
        );
        *self = FrameWays::of(plain, burdened, self.start, self.stored, self.limit);
    }

    /// The frame, where the rows of its ways have been merged: they end with these two of the log, and so many rows are stored.
    pub(crate) fn merged(self, along: u32, through: u32, stored: u32) -> Self
        ensures ways { AreMerged along through self result }
        ensures stored { result.stored ≡ stored }
        ensures limit { result.limit ≡ max self.limit (min (2 * stored) 4294967295) }
    {
        FrameWays::of(
            self.plain().merged(along, through),
            self.burdened().merged(along, through),
            self.start,
            stored,
            self.limit.max(stored.saturating_mul(2)),
        )
    }

    /// The frame waits, and takes the child that waits in it or not, on each path: it goes on so, and no child waits any
    /// longer.
    #[inline(always)]
    pub(crate) fn wait(&mut self, takes: OnPaths)
        ensures { self.new ≡ waited_frame takes self.old }
    {
        if takes.plain {
            self.plain_rows = self.plain_through_rows;
            self.plain_own = self.plain_through_own;
        }
        if takes.burdened {
            self.burdened_rows = self.burdened_through_rows;
            self.burdened_own = self.burdened_through_own;
        }
        self.plain_through_rows = 0;
        self.plain_through_own = 0;
        self.burdened_through_rows = 0;
        self.burdened_through_own = 0;
    }

    /// A frame of that kind returns to this one; the way through it ends in the log behind so many rows.
    #[inline(always)]
    pub(crate) fn come(&mut self, kind: FrameKind, wins: OnPaths, rows: u32)
        ensures { self.new ≡ come_frame kind wins rows self.old.stored self.old.limit self.old }
    {
        match kind {
            FrameKind::Root => {}
            FrameKind::Called => {
                self.plain_rows = rows;
                self.burdened_rows = rows;
            }
            FrameKind::Spawned => {
                if wins.plain {
                    self.plain_through_rows = rows;
                    self.plain_through_own = self.plain_own;
                }
                if wins.burdened {
                    self.burdened_through_rows = rows;
                    self.burdened_through_own = self.burdened_own;
                }
            }
        }
    }

    /// Counts the stored rows of a child that returns, and has its own merged no sooner than the child's. Where nothing is
    /// stored for the child, its limit is that with which frames are opened.
    #[inline(always)]
    pub(crate) fn inherit(&mut self, stored: u32, limit: u32)
        ensures { (s : ℕ) × (l : ℕ) × (self.new ≡ record self.old { stored = s; limit = l }) }
    {
        if stored > 0 {
            self.stored = self.stored.saturating_add(stored);
            self.limit = self.limit.max(limit);
        }
    }

    /// Whether its rows are to be merged, where the log has so many, and none are before it has more than `room`.
    #[inline(always)]
    pub(crate) fn is_full(&self, rows: u32, room: u32) -> bool
        ensures full { result ≡ (if nat_lt room rows then nat_lt (max (self.now.limit - self.now.stored) 2) (rows - self.now.start) else false) }
        ensures three { result ≡ true → self.now.start + 3 ≤ rows }
    {
        let most = self.limit.saturating_sub(self.stored);
        rows > room && rows.saturating_sub(self.start) > most.max(2)
    }

    /// The way on which the frame goes on where it waits, on that path: without burdens, or under them.
    pub(crate) fn chosen_on(&self, burdened: bool, takes: OnPaths) -> LoggedWay
        ensures { result ≡ chosen (on_path burdened takes) (path_of burdened self.now) }
    {
        if burdened {
            self.burdened().chosen(takes.burdened)
        } else {
            self.plain().chosen(takes.plain)
        }
    }
}
