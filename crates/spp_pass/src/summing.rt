//! What the pass over a part of a run has between two events, and what each event does to it: the counting of its frames,
//! and the choices that settle the run's paths.

ghost use Rattle.std.specs.Prelude.{◌≡◌, ◌++◌, ◌∷◌, List, OnOk, IfOk};
ghost use Rattle.spp_dag.specs.declared.stack.EntryFrame.{EntryFrame as FrameValue};
ghost use Rattle.spp_stack.specs.Chain.{HasFrames};
ghost use Rattle.spp_pass.specs.Passes.{
  state_of,
  burdened_state_of,
  listed,
  joins_at,
  ends_at,
  seen,
  strand_seen,
  sync_seen,
  open_seen,
  HasOpen,
  CanAdd,
  CanReturn,
  Returns,
};
ghost use Rattle.spp_pass.specs.Outside.{
  IsBegun,
  IsOutside,
  IsReached,
  AreBelow,
  FitsOpen,
  IsSuspended,
};

use crate::counted_frame::CountedFrame;
use crate::counting::Counting;
use crate::part::PartResult;
use spp_dag::{Choice, Choices, End, FrameKind};
use spp_maxplus::Burdens;
use spp_stack::Entry;
use std::alloc::{AllocError, Global};

/// Notes this choice, if there is one.
#[inline(always)]
fn note_join(joins: &mut Vec<Choice>, choice: Option<Choice>) -> Result<(), AllocError>
    ensures { OnOk result (joins.new.items ≡ joins.old.items ++ listed choice) }
{
    if let Some(choice) = choice {
        joins.push(choice)?;
    }
    Ok(())
}

/// Notes what each of the two paths comes from where the frame waits at `at`, if a child waits in it.
#[inline(always)]
fn note_joins(choices: &mut Choices, frame: &CountedFrame, at: u32) -> Result<(), AllocError>
    ensures ends { choices.new.ends ≡ choices.old.ends }
    ensures joins { OnOk result (choices.new.joins.items ≡ choices.old.joins.items ++ joins_at at (state_of frame.now)) }
    ensures burdened { OnOk result (choices.new.burdened_joins.items ≡ choices.old.burdened_joins.items ++ joins_at at (burdened_state_of frame.now)) }
{
    note_join(&mut choices.joins, frame.choice(at))?;
    note_join(&mut choices.burdened_joins, frame.burdened_choice(at))?;
    Ok(())
}

/// Notes that a frame of that kind, opened at `spawn`, returns at `at`, where it was spawned.
#[inline(always)]
fn note_end(ends: &mut Vec<End>, at: u32, kind: FrameKind, spawn: u32) -> Result<(), AllocError>
    ensures { OnOk result (ends.new.items ≡ ends.old.items ++ ends_at at kind spawn) }
{
    match kind {
        FrameKind::Root | FrameKind::Called => {}
        FrameKind::Spawned => ends.push(End { at, spawn })?,
    }
    Ok(())
}

/// The pass, between two events.
#[derive(Drop)]
pub(crate) struct Summing {
    /// The frames.
    counting: Counting,
    /// The choices so far.
    choices: Choices,
}

impl Summing {
    /// The pass before the first event of a part, where these frames are open. It has come to the innermost of them;
    /// the others are outside.
    pub(crate) fn within(alloc: Global, entry: &Entry<'_>) -> Result<Self, AllocError>
        ensures { IfOk result (λ s. (f : FrameValue) (fs : List FrameValue) → HasFrames entry.now (f ∷ fs) → IsBegun f fs entry.now.work (seen s)) }
    {
        Ok(Summing {
            counting: Counting::within(alloc, entry)?,
            choices: Choices {
                ends: Vec::new(alloc),
                joins: Vec::new(alloc),
                burdened_joins: Vec::new(alloc),
            },
        })
    }

    /// Comes to the innermost of the frames outside, if the pass has come to no more than one; gives those that are
    /// left outside.
    #[inline(always)]
    pub(crate) fn reach<'e>(
        &mut self,
        outside: Option<Entry<'e>>,
    ) -> Result<Option<Entry<'e>>, AllocError>
        requires { HasOpen (seen self.old) }
        ensures { IfOk result (λ left. (fs : List FrameValue) → IsOutside outside.entry fs → IsReached (seen self.old) (seen self.new) fs left) }
    {
        let left = self.counting.reach(outside)?;
        Ok(left)
    }

    /// A strand of that many instructions.
    #[inline(always)]
    pub(crate) fn strand(&mut self, count: u64)
        requires { CanAdd count (seen self.old) }
        ensures { seen self.new ≡ strand_seen count (seen self.old) }
    {
        self.counting.strand(count);
    }

    /// A call or a spawn at the position `at`.
    #[inline(always)]
    pub(crate) fn open(
        &mut self,
        kind: FrameKind,
        at: u32,
        site: u32,
        func: u32,
    ) -> Result<(), AllocError>
        requires { HasOpen (seen self.old) }
        ensures { OnOk result (seen self.new ≡ open_seen kind at site func (seen self.old)) }
    {
        self.counting.open(kind, at, site, func)?;
        Ok(())
    }

    /// A sync at the position `at`.
    #[inline(always)]
    pub(crate) fn sync(&mut self, at: u32) -> Result<(), AllocError>
        requires { HasOpen (seen self.old) }
        ensures { OnOk result (seen self.new ≡ sync_seen at (seen self.old)) }
    {
        note_joins(&mut self.choices, self.counting.top(), at)?;
        self.counting.sync();
        Ok(())
    }

    /// A return at the position `at`; false where the root frame alone is open.
    #[inline(always)]
    pub(crate) fn ret(&mut self, at: u32, burdens: Burdens) -> Result<bool, AllocError>
        requires { CanReturn burdens (seen self.old) (seen self.old).frames }
        ensures { IfOk result (λ went. Returns burdens at (seen self.old) (seen self.old).frames went (seen self.new)) }
    {
        let child = self.counting.top();
        note_joins(&mut self.choices, child, at)?;
        note_end(&mut self.choices.ends, at, child.kind, child.at)?;
        let closing = self.counting.ret(burdens)?;
        Ok(closing.is_some())
    }

    /// What the pass over a part tells. The strands of the frames that are still open are in their rows.
    pub(crate) fn suspend(self) -> Result<PartResult, AllocError>
        requires fits { FitsOpen (seen self) }
        requires sites { AreBelow 65536 (seen self).frames }
        ensures { IfOk result (λ p. IsSuspended (seen self) p) }
    {
        let Summing { counting, choices } = self;
        Ok(PartResult {
            share: counting.suspend()?,
            choices,
        })
    }
}
