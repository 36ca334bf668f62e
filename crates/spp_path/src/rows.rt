//! The rows of a run on a path, as a pass over its events sums them up. Where the pass is told which spawned children the
//! path enters, it knows of each event whether it is on the path.

ghost use Rattle.std.specs.Prelude.{◌≡◌, ◌<◌, ◌≤◌, ◌&&◌, ◌∷◌, nat_eq, true, false, List, OnOk, IfOk};
ghost use Rattle.spp_dag.specs.declared.stack.FrameKind.TheVariants.{Called, Spawned};
ghost use Rattle.spp_dag.specs.declared.stack.EntryFrame.{EntryFrame as FrameValue};
ghost use Rattle.spp_dag.specs.Shares.{plus};
ghost use Rattle.spp_dag.specs.Steps.{strand_row};
ghost use Rattle.spp_site.specs.Rows.{Fits, frame_row};
ghost use Rattle.spp_site.specs.Profiles.{key_row};
ghost use Rattle.spp_stack.specs.Chain.{HasFrames};
ghost use Rattle.spp_path.specs.declared.rows.EnteredFrame.{EnteredFrame as FrameOnPath};
ghost use Rattle.spp_path.specs.Outside.{
  path_frame,
  path_frames,
  frame_key,
  IsBegun,
  IsOutside,
  IsReached,
  AreStrandsAdded,
  AreBelow,
  FitsOpen,
  IsSuspended,
};
ghost use Rattle.spp_path.specs.Trails.{runs, CanSkip};
ghost use Rattle.spp_path.specs.Rows.{
  told,
  entered_row,
  strand_told,
  beside_told,
  enter_told,
  skip_told,
  onward_told,
  leave_told,
  OnTop,
  IsOpen,
  CanAdd,
  CanReturn,
  IsReturned,
};

use crate::trail::Trail;
use spp_dag::{FrameKind, Row};
use spp_site::{ClosedFrame, Marks, Share, Table};
use spp_stack::{Entry, Node};
use std::alloc::{AllocError, Global};

/// An open frame that the path enters.
#[derive(Clone, Copy)]
struct EnteredFrame {
    /// The site that entered it; 0 for the root.
    site: u32,
    /// The function that it runs.
    func: u32,
    /// No frame that encloses it was entered by its site.
    top_site: bool,
    /// No frame that encloses its caller runs the caller's function.
    top_caller: bool,
    /// No frame that encloses it runs its function.
    top_func: bool,
    /// How it was entered: the frame below it runs on along the path if it called it, and waits for it if it spawned it.
    kind: FrameKind,
    /// The counts of all strands of the trace before its first event.
    work_before: u128,
    /// The counts of the path's strands directly in it.
    local: u128,
}

impl EnteredFrame {
    /// A frame that was open before, with no strands of its own yet.
    fn entered(node: &Node) -> Self
        ensures { result ≡ path_frame node.now.frame node.now.top_func }
    {
        let frame = node.frame;
        EnteredFrame {
            site: frame.site,
            func: frame.func,
            top_site: frame.top_site,
            top_caller: frame.top_caller,
            top_func: node.top_func,
            kind: frame.kind,
            work_before: frame.before,
            local: 0,
        }
    }

    /// The frame as the table counts it, where it closes with that span when `work` is the work so far.
    #[inline(always)]
    fn closed(&self, work: u128, span: u128) -> ClosedFrame
        requires { self.now.work_before ≤ work }
        ensures { frame_row result ≡ entered_row self.now work span }
    {
        ClosedFrame {
            local: self.local,
            work: work - self.work_before,
            span,
            top_site: self.top_site,
            top_caller: self.top_caller,
        }
    }

    /// Adds the counts of its strands to its row, where there are any.
    fn add_local(&self, table: &mut Table) -> Result<(), AllocError>
        requires fits { Fits (plus (key_row table.old (frame_key self.now)) (strand_row self.now.local)) }
        requires site { self.now.site < 65536 }
        ensures { OnOk result (AreStrandsAdded table.old table.new (frame_key self.now) self.now.local) }
    {
        let local = self.local;
        if local == 0 {
            return Ok(());
        }
        let row = Row {
            local,
            ..Row::default()
        };
        match self.kind {
            FrameKind::Root => table.add_root(&row),
            FrameKind::Called | FrameKind::Spawned => table.add(self.site, &row)?,
        }
        Ok(())
    }
}

/// The pass, between two events.
#[derive(Drop)]
pub(crate) struct PathRows {
    /// The open frames that the path enters, the root first. They are changed where they lie, since to move one costs
    /// more than all else.
    frames: Vec<EnteredFrame>,
    /// Where the path goes.
    trail: Trail,
    /// The sites by which the open frames that the path enters were entered.
    open_sites: Marks,
    /// The functions that they run.
    open_funcs: Marks,
    /// The counts of all strands so far.
    work: u128,
    /// The rows of the entered frames that have closed.
    table: Table,
}

impl PathRows {
    /// The pass before the first event of a part, where the path enters these open frames and goes on so. It has come to
    /// the innermost of them; the others are outside.
    pub(crate) fn within(alloc: Global, live: &Entry<'_>, trail: Trail) -> Result<Self, AllocError>
        ensures { IfOk result (λ s. (f : FrameValue) (fs : List FrameValue) → HasFrames live.now (f ∷ fs) → IsBegun f fs live.now.work trail (told s)) }
    {
        let (open_sites, open_funcs) = live.marks(alloc)?;
        let mut frames = Vec::new(alloc);
        frames.push(EnteredFrame::entered(live.innermost()))?;
        Ok(PathRows {
            frames,
            trail,
            open_sites,
            open_funcs,
            work: live.work(),
            table: Table::new(alloc),
        })
    }

    /// Comes to the innermost of the frames outside, if one alone has been come to; gives those that are left outside.
    #[inline(always)]
    pub(crate) fn reach<'e>(
        &mut self,
        outside: Option<Entry<'e>>,
    ) -> Result<Option<Entry<'e>>, AllocError>
        requires { IsOpen (told self.old) }
        ensures reached { IfOk result (λ left. (fs : List FrameValue) → IsOutside outside.entry fs → IsReached FrameOnPath path_frames (told self.old).frames (told self.new).frames fs left) }
        ensures others { told self.new ≡ record (told self.old) { frames = (told self.new).frames } }
    {
        if self.frames.len() > 1 {
            return Ok(outside);
        }
        let Some(entry) = outside else {
            return Ok(None);
        };
        self.frames
            .insert(0, EnteredFrame::entered(entry.innermost()))?;
        Ok(entry.below())
    }

    /// A strand of that many instructions.
    #[inline(always)]
    pub(crate) fn strand(&mut self, count: u64)
        requires open { IsOpen (told self.old) }
        requires fits { CanAdd count (told self.old) }
        ensures on_path { runs self.old.trail ≡ true → told self.new ≡ strand_told count (told self.old) }
        ensures beside { runs self.old.trail ≡ false → told self.new ≡ beside_told count (told self.old) }
    {
        let count = u128::from(count);
        self.work += count;
        if self.trail.runs() {
            let last = self.frames.len() - 1;
            self.frames[last].local += count;
        }
    }

    /// Opens a frame that the path enters, from the innermost one, by a call or a spawn.
    #[inline(always)]
    fn enter(&mut self, kind: FrameKind, site: u32, func: u32) -> Result<(), AllocError>
        requires { IsOpen (told self.old) }
        ensures { OnOk result (told self.new ≡ enter_told kind site func (told self.old)) }
    {
        let frame = EnteredFrame {
            site,
            func,
            top_site: !self.open_sites.has(site),
            top_caller: self.frames[self.frames.len() - 1].top_func,
            top_func: !self.open_funcs.has(func),
            kind,
            work_before: self.work,
            local: 0,
        };
        self.frames.push(frame)?;
        self.open_sites.add(site)?;
        self.open_funcs.add(func)?;
        Ok(())
    }

    /// A call.
    #[inline(always)]
    pub(crate) fn call(&mut self, site: u32, func: u32) -> Result<(), AllocError>
        requires open { IsOpen (told self.old) }
        requires room { CanSkip self.old.trail }
        ensures enters { OnOk result (runs self.old.trail ≡ true → told self.new ≡ enter_told Called site func (told self.old)) }
        ensures skips { OnOk result (runs self.old.trail ≡ false → told self.new ≡ skip_told (told self.old)) }
    {
        if !self.trail.call() {
            return Ok(());
        }
        self.enter(FrameKind::Called, site, func)
    }

    /// A spawn of a child that the path enters, or doesn't.
    #[inline(always)]
    pub(crate) fn spawn(&mut self, entered: bool, site: u32, func: u32) -> Result<(), AllocError>
        requires open { IsOpen (told self.old) }
        requires room { CanSkip self.old.trail }
        ensures enters { OnOk result ((nat_eq self.old.trail.skipped 0 && entered) ≡ true → told self.new ≡ enter_told Spawned site func (onward_told true (told self.old))) }
        ensures skips { OnOk result ((nat_eq self.old.trail.skipped 0 && entered) ≡ false → told self.new ≡ skip_told (told self.old)) }
    {
        if !self.trail.spawn(entered) {
            return Ok(());
        }
        self.enter(FrameKind::Spawned, site, func)
    }

    /// A sync.
    #[inline(always)]
    pub(crate) fn sync(&mut self)
        ensures waited { self.old.trail.skipped ≡ 0 → told self.new ≡ onward_told true (told self.old) }
        ensures skipped { 0 < self.old.trail.skipped → told self.new ≡ told self.old }
    {
        self.trail.sync();
    }

    /// A return of a frame that isn't the root; `span` is the span with which the innermost open frame closes.
    #[inline(always)]
    pub(crate) fn ret(&mut self, span: u128) -> Result<(), AllocError>
        requires { self.old.trail.skipped ≡ 0 → OnTop (λ f. CanReturn f span (told self.old)) (told self.old).frames }
        ensures returned { OnOk result (self.old.trail.skipped ≡ 0 → OnTop (λ f. IsReturned f span (told self.old) (told self.new)) (told self.old).frames) }
        ensures skipped { OnOk result (0 < self.old.trail.skipped → told self.new ≡ leave_told (told self.old)) }
    {
        if !self.trail.leave() {
            return Ok(());
        }
        self.close(span)
    }

    /// The return of the innermost entered frame, which isn't the root and closes with that span.
    #[inline(always)]
    fn close(&mut self, span: u128) -> Result<(), AllocError>
        requires { OnTop (λ f. CanReturn f span (told self.old)) (told self.old).frames }
        ensures { OnOk result (OnTop (λ f. IsReturned f span (told self.old) (told self.new)) (told self.old).frames) }
    {
        let last = self.frames.len() - 1;
        let child = &self.frames[last];
        self.table
            .close(child.site, &child.closed(self.work, span))?;
        self.open_sites.remove_if(child.top_site, child.site);
        self.open_funcs.remove_if(child.top_func, child.func);
        self.trail.resume(child.kind);
        self.frames.truncate(last);
        Ok(())
    }

    /// The share of a part, at whose end these frames are open. The strands of those that are still open are in their
    /// rows.
    pub(crate) fn suspend(self) -> Result<Share, AllocError>
        requires fits { FitsOpen (told self) }
        requires sites { AreBelow 65536 (told self).frames }
        ensures { IfOk result (λ share. IsSuspended (told self) share) }
    {
        let PathRows {
            frames,
            mut table,
            ..
        } = self;
        for frame in &frames {
            frame.add_local(&mut table)?;
        }
        Ok(table.into_share())
    }
}
