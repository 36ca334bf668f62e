//! Where a closed frame stands among the ways.

ghost use Rattle.std.specs.Prelude.{◌≡◌, ◌+◌, ◌<◌, ◌^◌};
ghost use Rattle.spp_ways.specs.Pruning.{HasCounts, ReachesPlace, marks_of, pruned_place};
ghost use Rattle.spp_ways.specs.Enclosures.{enclosure_of};
ghost use Rattle.spp_ways.specs.Stretches.{linked_to, joined_place, FitPlace};

use crate::enclosing::Enclosing;
use crate::kept_rows::KeptRows;

/// How the ways of a stretch are told in the log onto which it is joined. In the stretch the first row stands for the way into
/// its outer frame.
#[derive(Clone, Copy)]
pub(crate) struct Links {
    /// Where the way into that frame ends in the log.
    pub(crate) plain: u32,
    /// And that under the burdens.
    pub(crate) burdened: u32,
    /// How many rows the log had before the stretch.
    pub(crate) rows: u32,
}

impl Links {
    /// Where a way of the stretch ends.
    #[inline(always)]
    pub(crate) fn plain(self, way: u32) -> u32
        requires { self.rows + way < 2 ^ 32 }
        ensures { result ≡ linked_to self.plain self.rows way }
    {
        linked_to(self.plain, self.rows, way)
    }

    /// Where a way of the stretch under the burdens ends.
    #[inline(always)]
    pub(crate) fn burdened(self, way: u32) -> u32
        requires { self.rows + way < 2 ^ 32 }
        ensures { result ≡ linked_to self.burdened self.rows way }
    {
        linked_to(self.burdened, self.rows, way)
    }
}

/// Where a way of a stretch ends in a log that had so many rows before, and where the way into the stretch's outer frame ends.
#[inline(always)]
pub(crate) fn linked_to(outer: u32, rows: u32, way: u32) -> u32
    requires { rows + way < 2 ^ 32 }
    ensures { result ≡ linked_to outer rows way }
{
    match way {
        0 => 0,
        1 => outer,
        _ => rows + way - 1,
    }
}

/// What a row tells of its frame besides the counts: how the ways lead to it and on from it, and how it was entered. 24 bytes.
#[derive(Clone, Copy)]
pub(crate) struct Place {
    /// Where the way ends that leads to the frame in its parent: how many rows the log has up to its last one, 0 for none.
    pub(crate) before: u32,
    /// Where the way through it ends.
    pub(crate) within: u32,
    /// The same of the way under the burdens that leads to it.
    pub(crate) burdened_before: u32,
    /// And of that through it.
    pub(crate) burdened_within: u32,
    /// In a stretch of events the function of its caller, or `OUTER_CALLER`, or `OUTER_WAY`; 0 in the log of a run.
    pub(crate) caller: u32,
    /// The call site by which it was entered.
    pub(crate) site: u16,
    /// No frame of the same site encloses it.
    pub(crate) top_site: bool,
    /// Its caller is enclosed by no frame of the caller's function.
    pub(crate) top_caller: bool,
}

/// That of no frame: no way leads to it or through it.
pub(crate) const NO_PLACE: Place = Place {
    before: 0,
    within: 0,
    burdened_before: 0,
    burdened_within: 0,
    caller: 0,
    site: 0,
    top_site: false,
    top_caller: false,
};

impl Place {
    /// The place of the same frame in a log without the rows that aren't kept.
    #[inline(always)]
    pub(crate) fn pruned(&self, kept: &KeptRows) -> Self
        requires counts { HasCounts kept.now }
        requires within { ReachesPlace kept.now self.now }
        ensures { result ≡ pruned_place (marks_of kept.now) self.now }
    {
        Place {
            before: kept.up_to(self.before),
            within: kept.up_to(self.within),
            burdened_before: kept.up_to(self.burdened_before),
            burdened_within: kept.up_to(self.burdened_within),
            ..*self
        }
    }

    /// The place of the same frame in the log onto which its stretch is joined.
    #[inline(always)]
    pub(crate) fn joined(&self, links: Links, enclosing: &Enclosing<'_>) -> Self
        requires few { FitPlace links self.now }
        ensures { result ≡ joined_place links (enclosure_of enclosing.now) self.now }
    {
        Place {
            before: links.plain(self.before),
            within: links.plain(self.within),
            burdened_before: links.burdened(self.burdened_before),
            burdened_within: links.burdened(self.burdened_within),
            caller: 0,
            site: self.site,
            top_site: self.top_site && enclosing.is_top_site(u32::from(self.site)),
            top_caller: self.top_caller && enclosing.is_top_caller(self.caller),
        }
    }
}
