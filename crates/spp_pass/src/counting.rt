//! The open frames of a run with their weights, and the frames that have closed by call site, as its events come.

ghost use Rattle.std.specs.Prelude.{◌≡◌, suc, ◌+◌, ◌<◌, ◌≤◌, ◌^◌, ◌∷◌, ℕ, List, length, Option, None, is_some, IfSome, OnOk, IfOk};
ghost use Rattle.spp_dag.specs.declared.stack.EntryFrame.{EntryFrame as FrameValue};
ghost use Rattle.spp_stack.specs.Chain.{HasFrames};
ghost use Rattle.spp_pass.specs.Passes.{
  Notes,
  no_notes,
  noted_sync,
  noted_return,
  seen_with,
  start_seen,
  strand_seen,
  sync_seen,
  open_seen,
  OnTop,
  HasOpen,
  CanAdd,
  CanReturn,
  Returns,
  CanPop,
  Pops,
  IsPopped,
  CanFinish,
  AreTakes,
  IsClosing,
  IsTop,
  IsEnded,
};
ghost use Rattle.spp_ways.specs.Enclosures.{enclosure_of};
ghost use Rattle.spp_pass.specs.declared.counted_frame.CountedFrame.{CountedFrame as CountedFrameValue};
ghost use Rattle.spp_pass.specs.Stretches.{
  stretch_seen,
  next_seen,
  frames_of,
  child_wins,
  enclosure,
  FitsJoin,
  IsStretchOf,
  IsStrand,
  IsEndedStretch,
  CanJoin,
  IsJoined,
};
ghost use Rattle.spp_dag.specs.Shares.{plus};
ghost use Rattle.spp_site.specs.Rows.{Fits};
ghost use Rattle.spp_site.specs.Profiles.{key_row};
ghost use Rattle.spp_pass.specs.CallFrames.{stretch_calls};
ghost use Rattle.spp_pass.specs.CallRows.{calls_row, AreCallsBelow};
ghost use Rattle.spp_pass.specs.AsideRows.{aside_row, HasAside};
ghost use Rattle.spp_pass.specs.Outside.{
  IsBegun,
  IsOutside,
  IsReached,
  AreBelow,
  FitsOpen,
  IsShareSuspended,
};

use crate::aside::RowsAside;
use crate::calls::{CallRow, add_calls};
use crate::counted_frame::CountedFrame;
use crate::narrow_frame::add_frames;
use crate::owed::OwedCalls;
use crate::stretch_calls::StretchCalls;
use spp_dag::{Figures, FrameKind};
use spp_maxplus::{Burdens, Weights};
use spp_site::{ClosedFrame, Marks, Share, Table};
use spp_stack::Entry;
use spp_ways::{Enclosing, OUTER_CALLER, OnPaths};
use std::alloc::{AllocError, Global};

/// To find out of so many frames of a stretch which are top takes longer than to copy what encloses it.
const MANY_CALLS: usize = 4096;

/// A frame that returns, and what that tells of the ways through it.
#[derive(Clone, Copy)]
pub struct Closing {
    /// How it was entered.
    pub kind: FrameKind,
    /// The call site by which it was entered.
    pub site: u32,
    /// The frame as the table of the whole dag counts it.
    pub closed: ClosedFrame,
    /// On which paths it takes the child that waits in it.
    pub takes: OnPaths,
    /// Of a spawned frame on which paths the way through it is heavier than that through the child that waits in its parent,
    /// or none waits there. A tie is no win; of a called frame nothing is meant by it.
    pub wins: OnPaths,
}

/// A frame that has been taken out.
#[derive(Clone, Copy)]
pub struct Popped {
    /// What its return tells.
    pub closing: Closing,
    /// The function of its caller, or `OUTER_CALLER` where that is the outermost frame.
    pub caller: u32,
}

/// What a run comes to, but for its paths.
#[derive(Drop)]
pub struct Ended {
    /// Its work, span and burdened span.
    pub figures: Figures,
    /// Its rows by call site, on its whole dag.
    pub dag: Table,
    /// The root frame as that table counts it.
    pub root: ClosedFrame,
    /// On which paths the root frame takes the child that waits in it.
    pub takes: OnPaths,
}

/// What the frames of a stretch come to: the frame in which it begins, and those that it leaves open.
#[derive(Drop)]
pub struct CountedStretch {
    /// The frame in which it begins, by what the stretch adds to it.
    outer: CountedFrame,
    /// The first isn't used, and those that it leaves open follow it; where there are none, that one alone or nothing.
    frames: Vec<CountedFrame>,
    /// The counts of its strands.
    work: u128,
}

impl CountedStretch {
    /// How many frames it leaves open.
    pub fn open_frames(&self) -> usize
        ensures { suc result ≡ length (frames_of self.now) }
    {
        self.frames.len().saturating_sub(1)
    }

    /// The instructions of its strands, if it is strands alone and they are fewer than 2^64.
    pub fn strand(&self) -> Option<u64>
        ensures { IfSome result (λ n. IsStrand n self.now) }
    {
        let Ok(count) = u64::try_from(self.work) else {
            return None;
        };
        if self.frames.len() < 2 && self.outer.is_strand(count) {
            Some(count)
        } else {
            None
        }
    }
}

/// The open frames of a run with their weights, and the rows of the frames that have closed, between two events.
#[derive(Drop)]
pub struct Counting {
    /// The open frames, the root first. They are changed where they lie, since to move one costs more than all else.
    frames: Vec<CountedFrame>,
    /// The sites by which the open frames were entered.
    open_sites: Marks,
    /// The functions that the open frames run.
    open_funcs: Marks,
    /// The counts of all strands so far.
    work: u128,
    /// The rows of the frames that have closed.
    table: Table,
}

impl Counting {
    /// What there is before the first event, where the root frame runs `root`.
    ///
    /// # Errors
    ///
    /// Where an allocation failed.
    pub fn new(alloc: Global, root: u32) -> Result<Self, AllocError>
        ensures { IfOk result (λ c. seen_with c no_notes ≡ start_seen root) }
    {
        let mut open_funcs = Marks::new(alloc);
        open_funcs.add(root)?;
        let mut frames = Vec::new(alloc);
        frames.push(CountedFrame {
            plain: Weights::start(),
            burdened: Weights::start(),
            before: 0,
            local: 0,
            child: None,
            burdened_child: None,
            at: 0,
            site: 0,
            func: root,
            kind: FrameKind::Root,
            top_site: true,
            top_caller: true,
            top_func: true,
        })?;
        Ok(Counting {
            frames,
            open_sites: Marks::new(alloc),
            open_funcs,
            work: 0,
            table: Table::new(alloc),
        })
    }

    /// What there is before the first event of a part, where these frames are open. The innermost of them has been come
    /// to; the others are outside.
    pub(crate) fn within(alloc: Global, entry: &Entry<'_>) -> Result<Self, AllocError>
        ensures { IfOk result (λ c. (f : FrameValue) (fs : List FrameValue) → HasFrames entry.now (f ∷ fs) → IsBegun f fs entry.now.work (seen_with c no_notes)) }
    {
        let (open_sites, open_funcs) = entry.marks(alloc)?;
        let mut frames = Vec::new(alloc);
        frames.push(CountedFrame::entered(entry.innermost()))?;
        Ok(Counting {
            frames,
            open_sites,
            open_funcs,
            work: entry.work(),
            table: Table::new(alloc),
        })
    }

    /// Comes to the innermost of the frames outside, if no more than one has been come to; gives those that are left
    /// outside.
    #[inline(always)]
    pub(crate) fn reach<'e>(
        &mut self,
        outside: Option<Entry<'e>>,
    ) -> Result<Option<Entry<'e>>, AllocError>
        requires { HasOpen (seen_with self.old no_notes) }
        ensures { IfOk result (λ left. (n : Notes) (fs : List FrameValue) → IsOutside outside.entry fs → IsReached (seen_with self.old n) (seen_with self.new n) fs left) }
    {
        if self.frames.len() > 1 {
            return Ok(outside);
        }
        let Some(entry) = outside else {
            return Ok(None);
        };
        self.frames
            .insert(0, CountedFrame::entered(entry.innermost()))?;
        Ok(entry.below())
    }

    /// How many frames besides the root are open.
    pub fn depth(&self) -> u32
        requires some { HasOpen (seen_with self.now no_notes) }
        requires few { length (seen_with self.now no_notes).frames ≤ 2 ^ 32 }
        ensures { result + 1 ≡ length (seen_with self.now no_notes).frames }
    {
        (self.frames.len() - 1) as u32
    }

    /// A strand of that many instructions.
    #[inline(always)]
    pub fn strand(&mut self, count: u64)
        requires { CanAdd count (seen_with self.old no_notes) }
        ensures { (n : Notes) → seen_with self.new n ≡ strand_seen count (seen_with self.old n) }
    {
        let last = self.frames.len() - 1;
        self.frames[last].strand(count);
        self.work += u128::from(count);
    }

    /// A call or a spawn at the position `at`.
    ///
    /// # Errors
    ///
    /// Where an allocation failed.
    #[inline(always)]
    pub fn open(&mut self, kind: FrameKind, at: u32, site: u32, func: u32) -> Result<(), AllocError>
        requires { HasOpen (seen_with self.old no_notes) }
        ensures { OnOk result ((n : Notes) → seen_with self.new n ≡ open_seen kind at site func (seen_with self.old n)) }
    {
        let top_caller = self.frames[self.frames.len() - 1].top_func;
        let top_site = self.open_sites.insert(site)?;
        let top_func = self.open_funcs.insert(func)?;
        self.frames.push(CountedFrame {
            plain: Weights::start(),
            burdened: Weights::start(),
            before: self.work,
            local: 0,
            child: None,
            burdened_child: None,
            at,
            site,
            func,
            kind,
            top_site,
            top_caller,
            top_func,
        })?;
        Ok(())
    }

    /// The innermost frame.
    #[inline(always)]
    pub(crate) fn top(&self) -> &CountedFrame
        requires { HasOpen (seen_with self.now no_notes) }
        ensures { IsTop result.now (seen_with self.now no_notes).frames }
    {
        &self.frames[self.frames.len() - 1]
    }

    /// On which paths the innermost frame takes the child that waits in it.
    #[inline(always)]
    pub fn takes(&self) -> OnPaths
        requires { HasOpen (seen_with self.now no_notes) }
        ensures { AreTakes result (seen_with self.now no_notes).frames }
    {
        self.top().takes()
    }

    /// A sync.
    #[inline(always)]
    pub fn sync(&mut self)
        requires { HasOpen (seen_with self.old no_notes) }
        ensures { (at : ℕ) (n : Notes) → seen_with self.new (noted_sync at (seen_with self.old n).frames n) ≡ sync_seen at (seen_with self.old n) }
    {
        let last = self.frames.len() - 1;
        self.frames[last].sync();
    }

    /// Takes the innermost frame out, which returns, and gives what that tells; none where the outermost frame alone is open.
    /// The table doesn't count it.
    #[inline(always)]
    pub fn pop(&mut self, burdens: Burdens) -> Option<Popped>
        requires { CanPop burdens (seen_with self.old no_notes) (seen_with self.old no_notes).frames }
        ensures pops { (at : ℕ) (n : Notes) → Pops burdens at (seen_with self.old n) (seen_with self.old n).frames (is_some result) (seen_with self.new (noted_return at (seen_with self.old n).frames n)) }
        ensures popped { IsPopped burdens self.old.work (seen_with self.old no_notes).frames result }
        ensures stays { result ≡ None → self.new ≡ self.old }
    {
        let last = self.frames.len() - 1;
        if last == 0 {
            return None;
        }
        let child = &self.frames[last];
        let returned = child.returned();
        let takes = child.takes();
        let closed = child.closed(self.work);
        let site = child.site;
        self.open_sites.remove_if(child.top_site, site);
        self.open_funcs.remove_if(child.top_func, child.func);
        self.frames.truncate(last);
        let parent = &mut self.frames[last - 1];
        let wins = parent.wins(returned, burdens);
        parent.receive(returned, burdens);
        let caller = if last == 1 { OUTER_CALLER } else { parent.func };
        Some(Popped {
            closing: Closing {
                kind: returned.kind,
                site,
                closed,
                takes,
                wins,
            },
            caller,
        })
    }

    /// A return, and what it tells; none where the root frame alone is open. It does what [`Counting::pop`] does, and counts
    /// the frame in the table; in one, since to hand on what a frame tells costs a hundredth of a profile.
    ///
    /// # Errors
    ///
    /// Where an allocation failed.
    #[inline(always)]
    pub fn ret(&mut self, burdens: Burdens) -> Result<Option<Closing>, AllocError>
        requires { CanReturn burdens (seen_with self.old no_notes) (seen_with self.old no_notes).frames }
        ensures returns { IfOk result (λ closing. (at : ℕ) (n : Notes) → Returns burdens at (seen_with self.old n) (seen_with self.old n).frames (is_some closing) (seen_with self.new (noted_return at (seen_with self.old n).frames n))) }
        ensures closing { IfOk result (λ closing. IsClosing burdens self.old.work (seen_with self.old no_notes).frames closing) }
    {
        let last = self.frames.len() - 1;
        if last == 0 {
            return Ok(None);
        }
        let child = &self.frames[last];
        let returned = child.returned();
        let takes = child.takes();
        let closed = child.closed(self.work);
        let site = child.site;
        self.table.close(site, &closed)?;
        self.open_sites.remove_if(child.top_site, site);
        self.open_funcs.remove_if(child.top_func, child.func);
        self.frames.truncate(last);
        let parent = &mut self.frames[last - 1];
        let wins = parent.wins(returned, burdens);
        parent.receive(returned, burdens);
        Ok(Some(Closing {
            kind: returned.kind,
            site,
            closed,
            takes,
            wins,
        }))
    }

    /// What there is before the first event of a stretch of which it isn't known what encloses it. A frame that stands for
    /// the innermost of those that do is open.
    ///
    /// # Errors
    ///
    /// Where an allocation failed.
    pub fn stretch(alloc: Global) -> Result<Self, AllocError>
        ensures { IfOk result (λ c. seen_with c no_notes ≡ stretch_seen) }
    {
        let mut frames = Vec::new(alloc);
        frames.push(CountedFrame::outer())?;
        Ok(Counting {
            frames,
            open_sites: Marks::new(alloc),
            open_funcs: Marks::new(alloc),
            work: 0,
            table: Table::new(alloc),
        })
    }

    /// What a stretch comes to that ends where its outer frame alone is open, and goes on with a new one.
    pub fn next_stretch(&mut self, alloc: Global) -> CountedStretch
        requires { HasOpen (seen_with self.old no_notes) }
        ensures ended { IsEndedStretch (seen_with self.old no_notes) result }
        ensures begun { (n : Notes) → seen_with self.new n ≡ next_seen (seen_with self.old n) }
    {
        let outer = self.frames[0];
        let work = self.work;
        self.frames[0] = CountedFrame::outer();
        self.work = 0;
        CountedStretch {
            outer,
            frames: Vec::new(alloc),
            work,
        }
    }

    /// What a stretch comes to, with the frames that it leaves open.
    pub fn into_stretch(self) -> CountedStretch
        requires { HasOpen (seen_with self no_notes) }
        ensures { IsStretchOf (seen_with self no_notes) result }
    {
        let Counting { frames, work, .. } = self;
        CountedStretch {
            outer: frames[0],
            frames,
            work,
        }
    }

    /// What encloses the events that come.
    pub fn enclosing(&self) -> Enclosing<'_>
        requires { HasOpen (seen_with self.now no_notes) }
        ensures { (g : CountedFrameValue) (gs : List CountedFrameValue) → (seen_with self.now no_notes).frames ≡ g ∷ gs → enclosure_of result ≡ enclosure g (seen_with self.now no_notes) }
    {
        let last = self.frames.len() - 1;
        Enclosing {
            sites: &self.open_sites,
            funcs: &self.open_funcs,
            direct: self.frames[last].top_func,
        }
    }

    /// On which paths the way through the child that waits in the outer frame of a stretch is greater than that through the
    /// one that waits in the innermost frame here, or none does.
    pub fn wins_by(&self, stretch: &CountedStretch) -> OnPaths
        requires { OnTop (FitsJoin stretch.now.outer) (seen_with self.now no_notes).frames }
        ensures { (g : CountedFrameValue) (gs : List CountedFrameValue) → (seen_with self.now no_notes).frames ≡ g ∷ gs → result ≡ child_wins stretch.now.outer g }
    {
        let last = self.frames.len() - 1;
        self.frames[last].child_wins(&stretch.outer)
    }

    /// Joins a stretch onto what there is, which stands before it: its first event is at the position `first`, and `calls`
    /// are the rows of the frames that have closed in it. It takes constant time for each of these and for each frame that the
    /// stretch leaves open, amortized.
    ///
    /// # Errors
    ///
    /// Where an allocation failed.
    pub fn join(
        &mut self,
        stretch: &CountedStretch,
        calls: &[CallRow],
        first: u32,
    ) -> Result<(), AllocError>
        requires { CanJoin first (frames_of stretch.now) stretch.now.outer stretch.now.work calls.now (seen_with self.old no_notes) }
        ensures { OnOk result ((g : CountedFrameValue) (gs : List CountedFrameValue) → (seen_with self.old no_notes).frames ≡ g ∷ gs → (m n : Notes) → IsJoined first (frames_of stretch.now) stretch.now.work calls.now g gs (seen_with self.old m) (seen_with self.new n)) }
    {
        let last = self.frames.len() - 1;
        let enclosing = Enclosing {
            sites: &self.open_sites,
            funcs: &self.open_funcs,
            direct: self.frames[last].top_func,
        };
        add_calls(&mut self.table, calls, &enclosing)?;
        let outer = &mut self.frames[last];
        outer.join(&stretch.outer, first);
        let mut caller = OUTER_CALLER;
        for k in 1..stretch.frames.len() {
            let frame = &stretch.frames[k];
            self.frames
                .push(frame.placed(&enclosing, self.work, first, caller))?;
            caller = frame.func;
        }
        for k in 1..stretch.frames.len() {
            let frame = &stretch.frames[k];
            self.open_sites.add(frame.site)?;
            self.open_funcs.add(frame.func)?;
        }
        self.work += stretch.work;
        Ok(())
    }

    /// Joins a stretch as [`Counting::join`] does, with all frames that have closed in it.
    ///
    /// # Errors
    ///
    /// Where an allocation failed.
    pub fn join_stretch(
        &mut self,
        stretch: &CountedStretch,
        calls: &StretchCalls,
        first: u32,
    ) -> Result<(), AllocError>
        requires { CanJoin first (frames_of stretch.now) stretch.now.outer stretch.now.work (stretch_calls calls.now) (seen_with self.old no_notes) }
        ensures { OnOk result ((g : CountedFrameValue) (gs : List CountedFrameValue) → (seen_with self.old no_notes).frames ≡ g ∷ gs → (m n : Notes) → IsJoined first (frames_of stretch.now) stretch.now.work (stretch_calls calls.now) g gs (seen_with self.old m) (seen_with self.new n)) }
    {
        let last = self.frames.len() - 1;
        let enclosing = Enclosing {
            sites: &self.open_sites,
            funcs: &self.open_funcs,
            direct: self.frames[last].top_func,
        };
        add_frames(&mut self.table, &calls.frames, &enclosing)?;
        self.join(stretch, &calls.rows, first)
    }

    /// Keeps rows of frames aside that have closed in a stretch which begins here, with those that are there. It takes time linear
    /// in the greatest number of a site and of a function that the open frames have had, or where rows are few in their number.
    ///
    /// # Errors
    ///
    /// Where an allocation failed.
    pub fn put_aside(
        &self,
        alloc: Global,
        calls: Vec<CallRow>,
        aside: RowsAside,
    ) -> Result<RowsAside, AllocError>
        requires below { AreCallsBelow 65536 calls.items }
        requires fits { OnTop (λ g. (key : Option ℕ) → Fits (plus (aside_row aside key) (calls_row (enclosure g (seen_with self.now no_notes)) calls.items key))) (seen_with self.now no_notes).frames }
        ensures { IfOk result (λ r. (g : CountedFrameValue) (gs : List CountedFrameValue) → (seen_with self.now no_notes).frames ≡ g ∷ gs → (key : Option ℕ) → aside_row r key ≡ plus (aside_row aside key) (calls_row (enclosure g (seen_with self.now no_notes)) calls.items key)) }
    {
        self.put_stretch_aside(alloc, StretchCalls::of_rows(alloc, calls), aside)
    }

    /// Keeps all frames aside that have closed in a stretch which begins here, as [`Counting::put_aside`] does with rows.
    ///
    /// # Errors
    ///
    /// Where an allocation failed.
    pub fn put_stretch_aside(
        &self,
        alloc: Global,
        calls: StretchCalls,
        aside: RowsAside,
    ) -> Result<RowsAside, AllocError>
        requires below { AreCallsBelow 65536 (stretch_calls calls) }
        requires fits { OnTop (λ g. (key : Option ℕ) → Fits (plus (aside_row aside key) (calls_row (enclosure g (seen_with self.now no_notes)) (stretch_calls calls) key))) (seen_with self.now no_notes).frames }
        ensures { IfOk result (λ r. (g : CountedFrameValue) (gs : List CountedFrameValue) → (seen_with self.now no_notes).frames ≡ g ∷ gs → (key : Option ℕ) → aside_row r key ≡ plus (aside_row aside key) (calls_row (enclosure g (seen_with self.now no_notes)) (stretch_calls calls) key)) }
    {
        if calls.is_empty() {
            return Ok(aside);
        }
        let enclosing = self.enclosing();
        if calls.len() < MANY_CALLS {
            let mut aside = aside;
            aside.put_stretch(&calls, &enclosing)?;
            return Ok(aside);
        }
        let owed = OwedCalls::of(alloc, calls, &enclosing)?;
        aside.with(owed)
    }

    /// Adds rows to the table that were kept aside. It takes constant time for each, and for each site number up to the greatest.
    ///
    /// # Errors
    ///
    /// Where an allocation failed.
    pub fn add_aside(&mut self, aside: RowsAside) -> Result<(), AllocError>
        requires { (key : Option ℕ) → Fits (plus (key_row (seen_with self.old no_notes).table key) (aside_row aside key)) }
        ensures { OnOk result (HasAside aside (seen_with self.old no_notes) (seen_with self.new no_notes)) }
    {
        aside.add_to(&mut self.table)
    }

    /// What the run comes to, where the root, which alone is open, closes at the end.
    pub fn finish(self) -> Ended
        requires { CanFinish (seen_with self no_notes) }
        ensures { IsEnded (seen_with self no_notes) (seen_with self no_notes).frames result }
    {
        let root = self.frames[self.frames.len() - 1];
        let Counting {
            work,
            mut table,
            ..
        } = self;
        let closed = root.closed(work);
        table.add_root(&closed.row());
        Ended {
            figures: Figures {
                work,
                span: root.plain.close(),
                burdened: root.burdened.close(),
            },
            dag: table,
            root: closed,
            takes: root.takes(),
        }
    }

    /// The share of a part. The strands of the frames that are still open are in their rows.
    pub(crate) fn suspend(self) -> Result<Share, AllocError>
        requires fits { FitsOpen (seen_with self no_notes) }
        requires sites { AreBelow 65536 (seen_with self no_notes).frames }
        ensures { IfOk result (λ share. IsShareSuspended (seen_with self no_notes) share) }
    {
        let Counting {
            frames,
            mut table,
            ..
        } = self;
        for frame in &frames {
            frame.add_local(&mut table)?;
        }
        Ok(table.into_share())
    }
}
