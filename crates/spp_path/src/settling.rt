//! A path is settled from its end: which spawned children it enters.

ghost use Rattle.std.specs.Prelude.{◌≡◌, ◌≤◌, ℕ, suc, List, length, map, IfOk, OnOk};
ghost use Rattle.spp_event.specs.declared.records.Event.{Event};
ghost use Rattle.spp_dag.specs.Trace.{IsWellFormed};
ghost use Rattle.spp_dag.specs.Dag.{IsPath};
ghost use Rattle.spp_maxplus.specs.declared.state.Burdens.{Burdens};
ghost use Rattle.spp_path.specs.Entered.{AreEnteredIn};
ghost use Rattle.spp_path.specs.Ways.{HasCome, AreNotesIn};
ghost use Rattle.spp_path.specs.Hops.{AreBefore, child_beside as beside_of, child_skipped as skipped_by, hop_to as hop_of};
ghost use Rattle.spp_path.specs.Settling.{
  last,
  later,
  ended,
  runs_to,
  IsEntering,
  IsLeaving,
  IsJoined,
};

use crate::hops::Left;
use spp_dag::{Choice, End};
use std::alloc::{AllocError, Global};

/// How a path goes, told from the end backwards.
#[derive(Clone, Copy, Debug)]
pub(crate) enum Onward {
    /// It comes to here.
    Live,
    /// Here is a child that it doesn't enter, spawned at that position.
    Skip { spawn: u32 },
    /// It comes to the join of a child that it enters, spawned at that position, whose return is yet to be found.
    Seek { spawn: u32 },
}

/// How the way back goes over choices.
#[derive(Clone, Copy, Debug)]
pub(crate) enum Pace {
    /// It takes one after the other.
    Each,
    /// It hops over those within a child that the path goes beside, unless it is short: in the choices of a run none of
    /// these matters to it.
    Hops,
}

/// One of the choices of a run.
#[derive(Clone, Copy, Debug)]
enum Note {
    End(End),
    Join(Choice),
}

/// The last of these choices, and at one position the end: a return acts as a sync first.
fn last_note(ends: &[End], joins: &[Choice]) -> Option<Note>
    ensures { result ≡ later (last ends.now) (last joins.now) }
{
    match (ends.last(), joins.last()) {
        (Some(end), Some(join)) if join.at > end.at => Some(Note::Join(*join)),
        (Some(end), _) => Some(Note::End(*end)),
        (None, Some(join)) => Some(Note::Join(*join)),
        (None, None) => None,
    }
}

/// Whether the path comes to this position, after which it goes so.
fn comes_to(at: u32, onward: Onward) -> bool
    ensures { result ≡ runs_to at onward }
{
    match onward {
        Onward::Live => true,
        Onward::Skip { spawn } => at <= spawn,
        Onward::Seek { .. } => false,
    }
}

/// How the path goes before the return of a child, after which it goes so: out of the child that is sought, and beside
/// any other.
fn pass(end: End, onward: Onward) -> Onward
    ensures { result ≡ ended end onward }
{
    match onward {
        Onward::Seek { spawn } if spawn == end.spawn => Onward::Live,
        Onward::Seek { .. } => onward,
        Onward::Skip { spawn } if spawn < end.at => onward,
        Onward::Live | Onward::Skip { .. } => Onward::Skip { spawn: end.spawn },
    }
}

/// The spawn of the child that the path skips, if it skips one.
fn child_skipped(onward: Onward) -> Option<u32>
    ensures { result ≡ skipped_by onward }
{
    match onward {
        Onward::Skip { spawn } => Some(spawn),
        Onward::Live | Onward::Seek { .. } => None,
    }
}

/// The spawn of the child that the path goes beside, where it goes on so after that return was taken; none where it comes to
/// here. No choice between that spawn and here matters to it.
fn child_beside(end: End, onward: Onward) -> Option<u32>
    ensures { result ≡ beside_of end onward }
{
    match onward {
        Onward::Live => None,
        Onward::Skip { spawn } => Some(spawn),
        Onward::Seek { .. } => Some(end.spawn),
    }
}

/// The fewest positions from the spawn of a child to its return over which hopping pays: in a shorter child few choices
/// stand.
const LEAST_HOP: u32 = 16;

/// The spawn to hop to, if this one may be hopped to and the pace is to hop.
fn hop_to(pace: Pace, spawn: Option<u32>) -> Option<u32>
    ensures { result ≡ hop_of pace spawn }
{
    match pace {
        Pace::Each => None,
        Pace::Hops => spawn,
    }
}

/// Those that are left behind the return of a child, after which the path goes so: without what stands within the child
/// that it goes beside, where the pace is to hop. It stands apart, since most children are short.
#[inline(never)]
fn behind(ends: &[End], joins: &[Choice], left: Left, end: End, onward: Onward, pace: Pace) -> Left
    requires ends { left.ends ≤ length ends.now }
    requires joins { left.joins ≤ length joins.now }
    ensures { AreBefore (map (λ e. e.at) ends.now) (map (λ j. j.at) joins.now) left (hop_of pace (beside_of end onward)) result }
{
    left.before(ends, joins, hop_to(pace, child_beside(end, onward)))
}

/// The way back along a path, from its end.
#[derive(Drop)]
pub(crate) struct WayBack {
    /// How the path goes from here on.
    pub(crate) onward: Onward,
    /// Where the children were spawned that were found to be entered, and were not passed yet: rising.
    ahead: Vec<u32>,
    /// Where the others that were found were spawned: falling.
    behind: Vec<u32>,
}

impl WayBack {
    /// The way back from the end, of which nothing is done.
    pub(crate) fn new(alloc: Global) -> Self
        ensures { (es : List Event) (burdens : Burdens) (ps : List ℕ) → IsWellFormed es → IsPath es burdens 0 (length es) ps → HasCome es ps (suc (length es)) result }
    {
        WayBack {
            onward: Onward::Live,
            ahead: Vec::new(alloc),
            behind: Vec::new(alloc),
        }
    }

    /// The children that were spawned at `at` or after it are passed.
    fn leave(&mut self, at: u32) -> Result<(), AllocError>
        ensures { OnOk result (IsLeaving at self.old self.new) }
    {
        while let Some(spawn) = self.ahead.last().copied() {
            if spawn < at {
                break;
            }
            self.behind.push(spawn)?;
            self.ahead.pop();
        }
        Ok(())
    }

    /// The child spawned there is entered.
    fn enter(&mut self, spawn: u32) -> Result<(), AllocError>
        ensures { OnOk result (IsEntering spawn self.old self.new) }
    {
        self.leave(spawn)?;
        self.ahead.push(spawn)?;
        self.onward = Onward::Seek { spawn };
        Ok(())
    }

    /// A place where children join is taken.
    fn join(&mut self, join: Choice) -> Result<(), AllocError>
        ensures { OnOk result (IsJoined join self.old self.new) }
    {
        if comes_to(join.at, self.onward) {
            match join.taken {
                Some(spawn) => self.enter(spawn)?,
                None => self.onward = Onward::Live,
            }
        }
        Ok(())
    }

    /// The choices of a range are taken, from the last to the first, at that pace.
    pub(crate) fn back_over(
        &mut self,
        ends: &[End],
        joins: &[Choice],
        pace: Pace,
    ) -> Result<(), AllocError>
        ensures { OnOk result ((es : List Event) (burdens : Burdens) (ps : List ℕ) (from end : ℕ) → IsWellFormed es → IsPath es burdens 0 (length es) ps → AreNotesIn es burdens from end ends.now joins.now → HasCome es ps end self.old → HasCome es ps from self.new) }
    {
        let all = Left {
            ends: ends.len(),
            joins: joins.len(),
        };
        let mut left = all.before(ends, joins, hop_to(pace, child_skipped(self.onward)));
        while let Some(note) = last_note(&ends[..left.ends], &joins[..left.joins]) {
            match note {
                Note::End(end) => {
                    self.onward = pass(end, self.onward);
                    left.ends -= 1;
                    if end.at.wrapping_sub(end.spawn) >= LEAST_HOP {
                        left = behind(ends, joins, left, end, self.onward, pace);
                    }
                }
                Note::Join(join) => {
                    left.joins -= 1;
                    self.join(join)?;
                }
            }
        }
        Ok(())
    }

    /// Where the children were spawned that were found, rising, once all choices were taken.
    pub(crate) fn finish(mut self) -> Result<Vec<u32>, AllocError>
        ensures { IfOk result (λ spawns. (es : List Event) (burdens : Burdens) (ps : List ℕ) → IsWellFormed es → IsPath es burdens 0 (length es) ps → HasCome es ps 0 self → AreEnteredIn es burdens 0 (length es) spawns.items) }
    {
        self.leave(0)?;
        let WayBack { mut behind, .. } = self;
        behind.reverse();
        Ok(behind)
    }
}
