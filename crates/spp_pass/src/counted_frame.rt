//! An open frame as the pass has it, and what the events that belong to it do to it.

ghost use Rattle.std.specs.Prelude.{◌≡◌, ◌+◌, ◌<◌, ◌≤◌, ◌^◌, true, OnOk};
ghost use Rattle.spp_dag.specs.Shares.{plus};
ghost use Rattle.spp_dag.specs.Steps.{strand_row};
ghost use Rattle.spp_site.specs.Rows.{Fits};
ghost use Rattle.spp_site.specs.Profiles.{key_row};
ghost use Rattle.spp_maxplus.specs.State.{taken as taken_of};
ghost use Rattle.spp_pass.specs.Passes.{
  standing,
  state_of,
  burdened_state_of,
  strand_frame,
  sync_frame,
  closed_of,
  returned_of,
  received,
  FitsStrand,
  FitsReturn,
  choice_at,
};
ghost use Rattle.spp_ways.specs.Ways.{takes as takes_child, outruns};
ghost use Rattle.spp_ways.specs.Enclosures.{enclosure_of};
ghost use Rattle.spp_pass.specs.Stretches.{stretch_frame, placed, placed_at, joined, child_wins, FitsJoin, FitsPlace};
ghost use Rattle.spp_pass.specs.Outside.{entered_frame, spawn_of, frame_key, AreStrandsAdded};

use spp_dag::{Choice, FrameKind, Row};
use spp_maxplus::{Burdens, ChildKind, Weights};
use spp_site::{ClosedFrame, Table};
use spp_stack::Node;
use spp_ways::{Enclosing, OnPaths};
use std::alloc::AllocError;

/// What the return of a frame tells its parent.
#[derive(Clone, Copy)]
pub(crate) struct Returned {
    /// How it was entered.
    pub(crate) kind: FrameKind,
    /// The position of the event that opened it.
    pub(crate) at: u32,
    /// The weight with which it closes, without burdens.
    pub(crate) plain: u128,
    /// And with the burdens.
    pub(crate) burdened: u128,
}

/// An open frame.
#[derive(Clone, Copy, PartialEq, Eq)]
pub(crate) struct CountedFrame {
    /// Its weights without burdens; `plain.child` is 0 where no child waits.
    pub(crate) plain: Weights,
    /// Its weights with the burdens; `burdened.child` is 0 where no child waits.
    pub(crate) burdened: Weights,
    /// The work of the trace before its first event.
    pub(crate) before: u128,
    /// The counts of the strands directly in it, which the table doesn't have yet.
    pub(crate) local: u128,
    /// The spawn of the waiting child that `plain.child` is the weight of.
    pub(crate) child: Option<u32>,
    /// The spawn of the waiting child that `burdened.child` is the weight of.
    pub(crate) burdened_child: Option<u32>,
    /// The position of the event that opened it; 0 for the root.
    pub(crate) at: u32,
    /// The call site by which it was entered; 0 for the root.
    pub(crate) site: u32,
    /// The function that runs in it.
    pub(crate) func: u32,
    /// How it was entered. The small fields are last, so that no padding is written between the weights.
    pub(crate) kind: FrameKind,
    /// No frame of the same site encloses it.
    pub(crate) top_site: bool,
    /// Its caller is enclosed by no frame of the caller's function.
    pub(crate) top_caller: bool,
    /// No frame of the same function encloses it.
    pub(crate) top_func: bool,
}

impl CountedFrame {
    /// A frame that was open before, with no strands of its own yet.
    pub(crate) fn entered(node: &Node) -> Self
        ensures { result ≡ entered_frame node.now.frame node.now.top_func }
    {
        let frame = node.frame;
        CountedFrame {
            plain: Weights::of(frame.state),
            burdened: Weights::of(frame.burdened),
            before: frame.before,
            local: 0,
            child: spawn_in(frame.state.child),
            burdened_child: spawn_in(frame.burdened.child),
            at: frame.at,
            site: frame.site,
            func: frame.func,
            kind: frame.kind,
            top_site: frame.top_site,
            top_caller: frame.top_caller,
            top_func: node.top_func,
        }
    }

    /// The frame that stands for the one in which a stretch begins.
    #[inline(always)]
    pub(crate) fn outer() -> Self
        ensures { result ≡ stretch_frame }
    {
        CountedFrame {
            plain: Weights::start(),
            burdened: Weights::start(),
            before: 0,
            local: 0,
            child: None,
            burdened_child: None,
            at: 0,
            site: 0,
            func: 0,
            kind: FrameKind::Root,
            top_site: true,
            top_caller: true,
            top_func: true,
        }
    }

    /// Whether it is the one that stands for the frame in which a stretch begins, behind strands of so many instructions and
    /// nothing else.
    pub(crate) fn is_strand(&self, count: u64) -> bool
        ensures { result ≡ true → self.now ≡ strand_frame count stretch_frame }
    {
        let mut strand = CountedFrame::outer();
        strand.strand(count);
        *self == strand
    }

    /// A strand of that many instructions.
    #[inline(always)]
    pub(crate) fn strand(&mut self, count: u64)
        requires { FitsStrand count self.old }
        ensures { self.new ≡ strand_frame count self.old }
    {
        let count = u128::from(count);
        self.plain.run(count);
        self.burdened.run(count);
        self.local += count;
    }

    /// A sync.
    #[inline(always)]
    pub(crate) fn sync(&mut self)
        ensures { self.new ≡ sync_frame self.old }
    {
        self.plain.wait();
        self.burdened.wait();
        self.child = None;
        self.burdened_child = None;
    }

    /// The return of a frame that this one opened. Of two waiting children of the same weight the first is kept, without
    /// burdens and with them.
    #[inline(always)]
    pub(crate) fn receive(&mut self, child: Returned, burdens: Burdens)
        requires { FitsReturn burdens child self.old }
        ensures { self.new ≡ received burdens child self.old }
    {
        match child.kind {
            FrameKind::Root => {}
            FrameKind::Called => {
                self.plain
                    .receive(ChildKind::Called, child.plain, Burdens::default());
                self.burdened
                    .receive(ChildKind::Called, child.burdened, burdens);
            }
            FrameKind::Spawned => {
                if self.child.is_none() || self.plain.child < self.plain.spine + child.plain {
                    self.child = Some(child.at);
                }
                let through = self.burdened.spine + (child.burdened + u128::from(burdens.join));
                if self.burdened_child.is_none() || self.burdened.child < through {
                    self.burdened_child = Some(child.at);
                }
                self.plain
                    .receive(ChildKind::Spawned, child.plain, Burdens::default());
                self.burdened
                    .receive(ChildKind::Spawned, child.burdened, burdens);
            }
        }
    }

    /// On which paths it takes the child that waits in it.
    #[inline(always)]
    pub(crate) fn takes(&self) -> OnPaths
        ensures plain { result.plain ≡ takes_child (state_of self.now) }
        ensures burdened { result.burdened ≡ takes_child (burdened_state_of self.now) }
    {
        OnPaths {
            plain: self.child.is_some() && self.plain.spine <= self.plain.child,
            burdened: self.burdened_child.is_some() && self.burdened.spine <= self.burdened.child,
        }
    }

    /// On which paths the way through a child that returns is greater than that through the child that waits, or none
    /// waits.
    #[inline(always)]
    pub(crate) fn wins(&self, child: Returned, burdens: Burdens) -> OnPaths
        requires { FitsReturn burdens child self.now }
        ensures plain { result.plain ≡ outruns (state_of self.now).child (self.now.plain.spine + child.plain) }
        ensures burdened { result.burdened ≡ outruns (burdened_state_of self.now).child (self.now.burdened.spine + (child.burdened + burdens.join)) }
    {
        let joined = child.burdened + u128::from(burdens.join);
        OnPaths {
            plain: self.child.is_none() || self.plain.child < self.plain.spine + child.plain,
            burdened: self.burdened_child.is_none()
                || self.burdened.child < self.burdened.spine + joined,
        }
    }

    /// The frame, which was opened in a stretch that begins at the position `first`, where the work before it is `before`,
    /// by a caller of that function.
    #[inline(always)]
    pub(crate) fn placed(
        &self,
        enclosing: &Enclosing<'_>,
        before: u128,
        first: u32,
        caller: u32,
    ) -> CountedFrame
        requires before { before + self.now.before < 2 ^ 128 }
        requires at { first + self.now.at < 2 ^ 32 }
        requires child { FitsPlace first self.now.child }
        requires burdened_child { FitsPlace first self.now.burdened_child }
        ensures { result ≡ placed (enclosure_of enclosing.now) before first caller self.now }
    {
        CountedFrame {
            before: before + self.before,
            at: first + self.at,
            child: placed_at(first, self.child),
            burdened_child: placed_at(first, self.burdened_child),
            top_site: self.top_site && enclosing.is_top_site(self.site),
            top_caller: self.top_caller && enclosing.is_top_caller(caller),
            top_func: self.top_func && enclosing.is_top_func(self.func),
            ..*self
        }
    }

    /// On which paths the way through the child that waits in the outer frame of a stretch is greater than that through the
    /// one that waits in this frame before it, or none does.
    #[inline(always)]
    pub(crate) fn child_wins(&self, outer: &CountedFrame) -> OnPaths
        requires { FitsJoin outer.now self.now }
        ensures { result ≡ child_wins outer.now self.now }
    {
        let through = self.plain.spine + outer.plain.child;
        let burdened = self.burdened.spine + outer.burdened.child;
        OnPaths {
            plain: outer.child.is_some() && (self.child.is_none() || self.plain.child < through),
            burdened: outer.burdened_child.is_some()
                && (self.burdened_child.is_none() || self.burdened.child < burdened),
        }
    }

    /// Goes on by a stretch that begins at the position `first` and has that outer frame. Of two waiting children of the
    /// same weight the first is kept.
    #[inline(always)]
    pub(crate) fn join(&mut self, outer: &CountedFrame, first: u32)
        requires fits { FitsJoin outer.now self.old }
        requires child { FitsPlace first outer.now.child }
        requires burdened_child { FitsPlace first outer.now.burdened_child }
        ensures { self.new ≡ joined first outer.now self.old }
    {
        if let Some(at) = outer.child {
            let through = self.plain.spine + outer.plain.child;
            if self.child.is_none() || self.plain.child < through {
                self.child = Some(first + at);
            }
            self.plain.child = self.plain.child.max(through);
        }
        if let Some(at) = outer.burdened_child {
            let through = self.burdened.spine + outer.burdened.child;
            if self.burdened_child.is_none() || self.burdened.child < through {
                self.burdened_child = Some(first + at);
            }
            self.burdened.child = self.burdened.child.max(through);
        }
        self.plain.spine += outer.plain.spine;
        self.burdened.spine += outer.burdened.spine;
        self.local += outer.local;
    }

    /// What its return tells its parent.
    #[inline(always)]
    pub(crate) fn returned(&self) -> Returned
        ensures { result ≡ returned_of self.now }
    {
        Returned {
            kind: self.kind,
            at: self.at,
            plain: self.plain.close(),
            burdened: self.burdened.close(),
        }
    }

    /// What the path comes from where the frame waits at `at`, if a child waits in it.
    #[inline(always)]
    pub(crate) fn choice(&self, at: u32) -> Option<Choice>
        ensures { result ≡ choice_at at (state_of self.now) }
    {
        choice(at, self.plain, self.child)
    }

    /// The same of the path under the burdens.
    #[inline(always)]
    pub(crate) fn burdened_choice(&self, at: u32) -> Option<Choice>
        ensures { result ≡ choice_at at (burdened_state_of self.now) }
    {
        choice(at, self.burdened, self.burdened_child)
    }

    /// The frame as the table counts it, its strands included, where it closes when `work` is the work so far.
    #[inline(always)]
    pub(crate) fn closed(&self, work: u128) -> ClosedFrame
        requires { self.now.before ≤ work }
        ensures { result ≡ closed_of self.now work }
    {
        ClosedFrame {
            local: self.local,
            work: work - self.before,
            span: self.plain.close(),
            top_site: self.top_site,
            top_caller: self.top_caller,
        }
    }

    /// Adds the counts of its strands to its row, where there are any.
    pub(crate) fn add_local(&self, table: &mut Table) -> Result<(), AllocError>
        requires fits { Fits (plus (key_row table.old (frame_key self.now)) (strand_row self.now.local)) }
        requires site { self.now.site < 65536 }
        ensures { OnOk result (AreStrandsAdded table.old table.new (frame_key self.now) self.now.local) }
    {
        let local = self.local;
        if local == 0 {
            return Ok(());
        }
        let row = Row {
            local,
            ..Row::default()
        };
        match self.kind {
            FrameKind::Root => table.add_root(&row),
            FrameKind::Called | FrameKind::Spawned => table.add(self.site, &row)?,
        }
        Ok(())
    }
}

/// The spawn of the child that a frame takes where it waits: the waiting child wins against an equal spine.
#[inline(always)]
fn taken(weights: Weights, child: Option<u32>) -> Option<u32>
    ensures { result ≡ taken_of (standing weights child) }
{
    match child {
        Some(spawn) if weights.spine <= weights.child => Some(spawn),
        _ => None,
    }
}

/// What the path comes from where a frame waits at `at`, if a child waits in it.
#[inline(always)]
fn choice(at: u32, weights: Weights, child: Option<u32>) -> Option<Choice>
    ensures { result ≡ choice_at at (standing weights child) }
{
    match child {
        Some(_) => Some(Choice {
            at,
            taken: taken(weights, child),
        }),
        None => None,
    }
}

/// The position of a spawn in a stretch that begins at `first`.
#[inline(always)]
fn placed_at(first: u32, spawn: Option<u32>) -> Option<u32>
    requires { FitsPlace first spawn }
    ensures { result ≡ placed_at first spawn }
{
    match spawn {
        Some(at) => Some(first + at),
        None => None,
    }
}

/// The spawn of a waiting child.
fn spawn_in(child: Option<(u128, u32)>) -> Option<u32>
    ensures { result ≡ spawn_of child }
{
    match child {
        Some((_, spawn)) => Some(spawn),
        None => None,
    }
}
