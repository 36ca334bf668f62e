//! A path that was settled, part by part.

ghost use Rattle.std.specs.Prelude.{◌≡◌, ℕ, ◌+◌, ◌≤◌, ◌<◌, ◌^◌, ◌↔◌, ◌∷◌, [], List, length, slice_get, Some, IfOk, IsTrue};
ghost use Rattle.spp_event.specs.declared.records.Event.{Event};
ghost use Rattle.spp_maxplus.specs.declared.state.Burdens.{Burdens as BurdensValue};
ghost use Rattle.spp_dag.specs.declared.stack.EntryFrame.{EntryFrame as FrameValue};
ghost use Rattle.spp_stack.specs.Chain.{IsStart};
ghost use Rattle.spp_dag.specs.Dag.{IsPath};
ghost use Rattle.spp_path.specs.declared.settling.Onward.{Onward as OnwardValue};
ghost use Rattle.spp_path.specs.Ways.{StandsAt};
ghost use Rattle.spp_path.specs.Alike.{GoAlike};
ghost use Rattle.spp_path.specs.Entered.{AreEnteredIn};
ghost use Rattle.spp_path.specs.Settled.{
  position,
  before_at,
  entered_in,
  flags_at,
  IsLive,
  choice_of,
  state_under,
  joins_under,
  burdens_under,
  AreOfRun,
  IsSettled,
};

use crate::flags::Flags;
use crate::placing::places;
use crate::settling::{Onward, Pace, WayBack};
use spp_dag::{Choice, Choices};
use spp_stack::{Entries, Entry};
use std::alloc::{AllocError, Global};
use std::marker::Model;

/// Which of the two paths of a run.
#[derive(Clone, Copy, Debug, PartialEq, Eq)]
pub enum Under {
    /// The path that is greatest without burdens.
    Zero,
    /// The path that is greatest under the burdens.
    Burdens,
}

/// Where a part begins, as far as a path goes.
#[derive(Clone, Copy, Debug, PartialEq, Eq)]
pub(crate) struct PathStart {
    /// How many of the children that the path enters were spawned before.
    pub(crate) before: usize,
    /// The number of the node of the innermost open frame that the path enters.
    pub(crate) live: u32,
    /// Whether that frame runs on there.
    pub(crate) running: bool,
}

/// A path of a run, as far as each part of the trace needs to know it: which children spawned in the part the path enters,
/// and what of the frames that are open where the part begins is on the path.
///
/// Contracts see the stacks where parts begin, the spawns of the children that the path enters, and how the path goes
/// where parts begin.
#[derive(Drop)]
pub struct Settled<'e> {
    entries: &'e Entries,
    spawns: Vec<u32>,
    starts: Vec<PathStart>,
}

impl<'e> Model for Settled<'e> {
    ghost use Rattle.spp_path.specs.Settled.{PathOf, IsSoundPath};

    ghost Value = { PathOf };

    ghost view = { λ s. record { stacks = s.entries.now; spawns = s.spawns.items; starts = s.starts.items } };

    ghost invariant = { λ s. IsSoundPath (record { stacks = s.entries.now; spawns = s.spawns.items; starts = s.starts.items }) };
}

/// The innermost open frame that a path enters, where a part begins.
#[derive(Drop)]
pub(crate) struct LiveFrame<'e> {
    /// That frame and those that enclose it.
    pub(crate) entry: Entry<'e>,
    /// How many frames are open within it; the path enters none of them.
    pub(crate) skipped: u32,
    /// Whether it runs on.
    pub(crate) running: bool,
}

impl<'e> Settled<'e> {
    /// The positions in part `part` at which children are spawned that the path enters, rising.
    pub fn entered(&self, part: usize) -> &[u32]
        requires { part + 1 < length self.now.starts }
        ensures { result.now ≡ entered_in self.now part }
    {
        let from = self.before(part);
        let end = self.before(part + 1);
        &self.spawns[from..end]
    }

    /// How many of the children that the path enters were spawned before part `part`.
    fn before(&self, part: usize) -> usize
        requires { part < length self.now.starts }
        ensures is { result ≡ before_at self.now part }
        ensures most { result ≤ length self.now.spawns }
        ensures few { part + 1 < 2 ^ 64 }
        ensures next { part + 1 < length self.now.starts → result ≤ before_at self.now (part + 1) }
    {
        let start = self.starts[part];
        start.before
    }

    /// Whether another path, settled over the same stacks, goes as this one does in part `part`: where the part begins it
    /// enters the same frame as the innermost, which runs on along both or neither, and in the part the same children. The
    /// time is linear in the number of these.
    pub fn goes_alike(&self, other: &Settled<'_>, part: usize) -> bool
        requires part { part + 1 < length self.now.starts }
        requires stacks { other.now.stacks ≡ self.now.stacks }
        requires count { length other.now.starts ≡ length self.now.starts }
        ensures { IsTrue result ↔ GoAlike part self.now other.now }
    {
        let here = self.starts[part];
        let there = other.starts[part];
        if here.live != there.live || here.running != there.running {
            return false;
        }
        self.entered(part) == other.entered(part)
    }

    /// What of the frames that are open where part `part` begins is on the path, in the order of
    /// [`Entry::frames`](spp_stack::Entry::frames): from the innermost outwards, each in constant time.
    pub fn flags(&self, part: usize) -> Flags<'e>
        requires { part < length self.now.starts }
        ensures { result ≡ flags_at self.now part }
    {
        let start = self.starts[part];
        Flags::new(
            self.entries.nodes(),
            self.entries.top(part),
            start.live,
            start.running,
        )
    }

    /// The innermost frame that the path enters, of those that are open where part `part` begins.
    pub(crate) fn live(&self, part: usize) -> LiveFrame<'e>
        requires part { part < length self.now.starts }
        requires entry { (at : ℕ) × (fs : List FrameValue) × (work : ℕ) × IsStart self.now.stacks part at fs work }
        ensures { (at : ℕ) (fs : List FrameValue) (work : ℕ) → IsStart self.now.stacks part at fs work → IsLive self.now part at fs work result }
    {
        let start = self.starts[part];
        let entry = self.entries.entry(part);
        let live = entry.outwards(start.live);
        let skipped = entry.depth() - live.depth();
        LiveFrame {
            entry: live,
            skipped,
            running: start.running,
        }
    }
}

/// What the root frame takes where it waits at the end of the run, if a child waits in it.
fn choice_at_end(entries: &Entries, under: Under) -> Option<Choice>
    ensures { (parts at work : ℕ) (f : FrameValue) → parts + 1 ≡ length entries.now.starts → IsStart entries.now parts at (f ∷ []) work → result ≡ choice_of at (state_under under f) }
{
    let end = entries.entry(entries.parts());
    let root = end.innermost().frame;
    let state = match under {
        Under::Zero => root.state,
        Under::Burdens => root.burdened,
    };
    match state.child {
        Some(_) => Some(Choice {
            at: end.at(),
            taken: state.taken(),
        }),
        None => None,
    }
}

/// The joins of that path.
fn joins_of(choices: &Choices, under: Under) -> &[Choice]
    ensures { result.now ≡ joins_under under choices.now }
{
    match under {
        Under::Zero => &choices.joins,
        Under::Burdens => &choices.burdened_joins,
    }
}

/// What the way back along a path tells.
#[derive(Drop)]
struct Course {
    /// Where the children were spawned that it enters, rising.
    spawns: Vec<u32>,
    /// How it goes on from where each part begins, and from the end.
    onwards: Vec<Onward>,
}

/// Goes back along the path, over the choices of all parts, at that pace.
fn go_back(
    alloc: Global,
    entries: &Entries,
    choices: &[Choices],
    under: Under,
    pace: Pace,
) -> Result<Course, AllocError>
    requires count { length entries.now.starts ≡ length choices.now + 1 }
    ensures count { IfOk result (λ r. length r.onwards.items ≡ length entries.now.starts) }
    ensures spawns { IfOk result (λ r. (es : List Event) (burdens : BurdensValue) (root : ℕ) → AreOfRun es burdens root entries.now choices.now → AreEnteredIn es (burdens_under under burdens) 0 (length es) r.spawns.items) }
    ensures onwards { IfOk result (λ r. (es : List Event) (burdens : BurdensValue) (root : ℕ) (ps : List ℕ) → AreOfRun es burdens root entries.now choices.now → IsPath es (burdens_under under burdens) 0 (length es) ps → (k : ℕ) (onward : OnwardValue) → slice_get r.onwards.items k ≡ Some onward → StandsAt es ps (position entries.now k) onward) }
{
    let mut onwards = vec![in alloc; Onward::Live; choices.len() + 1]?;
    let mut way = WayBack::new(alloc);
    way.back_over(&[], choice_at_end(entries, under).as_slice(), pace)?;
    let mut part = choices.len();
    onwards[part] = way.onward;
    while part > 0 {
        part -= 1;
        let here = &choices[part];
        way.back_over(&here.ends, joins_of(here, under), pace)?;
        onwards[part] = way.onward;
    }
    Ok(Course {
        spawns: way.finish()?,
        onwards,
    })
}

/// Settles a path at that pace.
fn settle_at<'e>(
    alloc: Global,
    entries: &'e Entries,
    choices: &[Choices],
    under: Under,
    pace: Pace,
) -> Result<Settled<'e>, AllocError>
    requires count { length entries.now.starts ≡ length choices.now + 1 }
    ensures stacks { IfOk result (λ s. s.stacks ≡ entries.now) }
    ensures count { IfOk result (λ s. length s.starts ≡ length entries.now.starts) }
    ensures settled { IfOk result (λ s. (es : List Event) (burdens : BurdensValue) (root : ℕ) → AreOfRun es burdens root entries.now choices.now → IsSettled es (burdens_under under burdens) s) }
{
    // For what it states: nodes below come before those above.
    let _nodes = entries.nodes();
    let course = go_back(alloc, entries, choices, under, pace)?;
    let starts = places(alloc, entries, &course.onwards, &course.spawns)?;
    Ok(Settled {
        entries,
        spawns: course.spawns,
        starts,
    })
}

/// Settles one of the two paths of a run from its end, by the choices of its parts and the open frames where they begin:
/// which spawned children it enters, and what of the open frames is on it. It takes time and memory linear in the numbers
/// of parts, of their choices and of the nodes of the open frames.
///
/// # Errors
///
/// Where an allocation failed.
pub fn settle<'e>(
    alloc: Global,
    entries: &'e Entries,
    choices: &[Choices],
    under: Under,
) -> Result<Settled<'e>, AllocError>
    requires count { length entries.now.starts ≡ length choices.now + 1 }
    ensures stacks { IfOk result (λ s. s.stacks ≡ entries.now) }
    ensures count { IfOk result (λ s. length s.starts ≡ length entries.now.starts) }
    ensures settled { IfOk result (λ s. (es : List Event) (burdens : BurdensValue) (root : ℕ) → AreOfRun es burdens root entries.now choices.now → IsSettled es (burdens_under under burdens) s) }
{
    settle_at(alloc, entries, choices, under, Pace::Each)
}

/// Settles one of the two paths of a run, as [`settle`] does and by the same clauses, but hops over choices within children
/// of 16 events or more that the path goes beside. The time is linear in the numbers of parts, of the other choices and of
/// the nodes of the open frames, and for each hop there is the logarithm of how many choices it passes over; the memory is
/// that of `settle`.
///
/// A hop ends where its part begins. Where the path then still seeks the return of a child that it enters, further back,
/// the choices of the parts before are taken one by one, also those within the child that it goes beside. Of a root with
/// one heavy child and then one of 20,000 children, 18,753 of 20,004 choices were taken so in 16 parts, and 3 in one part.
///
/// Of choices that belong to no run, of which the clauses say nothing, it may make something else than `settle` does.
///
/// # Errors
///
/// Where an allocation failed.
pub fn settle_by_hops<'e>(
    alloc: Global,
    entries: &'e Entries,
    choices: &[Choices],
    under: Under,
) -> Result<Settled<'e>, AllocError>
    requires count { length entries.now.starts ≡ length choices.now + 1 }
    ensures stacks { IfOk result (λ s. s.stacks ≡ entries.now) }
    ensures count { IfOk result (λ s. length s.starts ≡ length entries.now.starts) }
    ensures settled { IfOk result (λ s. (es : List Event) (burdens : BurdensValue) (root : ℕ) → AreOfRun es burdens root entries.now choices.now → IsSettled es (burdens_under under burdens) s) }
{
    settle_at(alloc, entries, choices, under, Pace::Hops)
}
