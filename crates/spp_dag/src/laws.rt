//! Laws that the definitions of this crate have.

ghost use Rattle.spp_dag.specs.Laws.{
  StackStands,
  MachineGivesSpans,
  FramesGiveSpans,
  WaitsGiveSpans,
  MachineFindsFaults,
  RunsFollow,
  WalksPartAtSpawns,
  WalksAreOrdered,
  PathExists,
  PathExistsTo,
  PathIsOne,
  PathEntersTaken,
  PathEntersCalled,
  PathPasses,
  PathTakesChild,
  TakenJoins,
  PathTakesLeast,
  SharesAdd,
  SharesAreOne,
  SharesMakeRows,
  EndIsRoots,
  SpansAreOne,
  ContainsPassed,
  RootWorkIsAll,
  HasProfile,
  ProfileIsOne,
};
ghost use Rattle.spp_dag.specs.Choices.{EntryIsOne, RunningPasses, TakenIsChoice, ChildIsWaited};
ghost use Rattle.spp_dag.specs.Steps.{EntryFollows, ShareFollows};
ghost use Rattle.spp_dag.specs.WorkedRows.{Empty, LargeStrands, OneChild, EqualWays, EmptyChild, EqualChildren, NoSync, RecursiveCalls, RecursiveRoot, NestedChildren, TwoSyncs, CallBetween, ChildNotEntered};
ghost use Rattle.spp_dag.specs.Limits.{WorkFits, WalkFits, StackFits, RowsFit};

/// The laws of the stack machine: on a well-formed trace it ends with one frame, and each frame closes with the
/// greatest weight of a walk from its first position to where it closes, without burdens and with any; else it finds
/// what is wrong with the nesting; and a run over two lists of events is one over the first and, if that didn't stop,
/// one over the second. Its contract is what it is for.
pub fn stack_laws()
    ensures stands { StackStands }
    ensures ends { MachineGivesSpans }
    ensures frames { FramesGiveSpans }
    ensures waits { WaitsGiveSpans }
    ensures faults { MachineFindsFaults }
    ensures follows { RunsFollow }
{}

/// The laws of walks: two different walks with the same ends part first at a spawn, and the one that comes first in
/// dictionary order enters its child. Its contract is what it is for.
pub fn walk_laws()
    ensures parting { WalksPartAtSpawns }
    ensures ordered { WalksAreOrdered }
{}

/// The laws of the path: there is one, the choices of the stack machine are those of the path, and of the children that
/// join at a place it goes through the first of those that a greatest walk goes through. Its contract is what it is
/// for.
pub fn path_laws()
    ensures exists { PathExists }
    ensures exists_to { PathExistsTo }
    ensures one { PathIsOne }
    ensures taken { PathEntersTaken }
    ensures called { PathEntersCalled }
    ensures passes { PathPasses }
    ensures choice { PathTakesChild }
    ensures joins { TakenJoins }
    ensures least { PathTakesLeast }
{}

/// The laws of what is told of ranges: each position has one entry; an event other than a sync or a return is on the
/// path exactly where its frame runs on there; and where children join the stack machine knows so, and takes what the
/// path chooses. Its contract is what it is for.
pub fn choice_laws()
    ensures entry { EntryIsOne }
    ensures running { RunningPasses }
    ensures taken { TakenIsChoice }
    ensures waited { ChildIsWaited }
{}

/// The laws of rows: those of the ranges of a cut add up, with the root frame's own row, to those of the whole; and they
/// don't depend on which spans are taken for those of frames. Its contract is what it is for.
pub fn share_laws()
    ensures add { SharesAdd }
    ensures whole { SharesMakeRows }
    ensures end { EndIsRoots }
    ensures spans { SharesAreOne }
{}

/// The laws of one event: what it makes of the open frames, their marks among it, and what it adds to each row. Its
/// contract is what it is for.
pub fn step_laws()
    ensures entry { EntryFollows }
    ensures share { ShareFollows }
{}

/// The laws of profiles: a well-formed trace has one. Its contract is what it is for.
pub fn profile_laws()
    ensures spans { SpansAreOne }
    ensures contains { ContainsPassed }
    ensures work { RootWorkIsAll }
    ensures exists { HasProfile }
    ensures one { ProfileIsOne }
{}

/// The bounds of what a run adds up to, for a trace within the limits of the format: its work, the weights of walks and
/// of open frames, and the sums of rows. Its contract is what it is for.
pub fn limit_laws()
    ensures work { WorkFits }
    ensures walks { WalkFits }
    ensures stacks { StackFits }
    ensures rows { RowsFit }
{}

/// What the definitions say of small runs that were worked by hand. Its contract is what it is for.
pub fn worked_rows()
    ensures empty { Empty }
    ensures large_strands { LargeStrands }
    ensures one_child { OneChild }
    ensures equal_ways { EqualWays }
    ensures empty_child { EmptyChild }
    ensures equal_children { EqualChildren }
    ensures no_sync { NoSync }
    ensures recursive_calls { RecursiveCalls }
    ensures recursive_root { RecursiveRoot }
    ensures nested_children { NestedChildren }
    ensures two_syncs { TwoSyncs }
    ensures call_between { CallBetween }
    ensures child_not_entered { ChildNotEntered }
{}
