//! Where parts begin, as far as a path goes.

ghost use Rattle.std.specs.Prelude.{◌≡◌, ℕ, ◌≤◌, ◌<◌, Bool, length, slice_get, slice_index_or, Some, IfOk, IfSome, None};
ghost use Rattle.spp_dag.specs.declared.stack.EntryFrame.{EntryFrame as FrameValue};
ghost use Rattle.spp_stack.specs.Chain.{IsTree};
ghost use Rattle.spp_path.specs.declared.settling.Onward.{Onward as OnwardValue};
ghost use Rattle.spp_path.specs.declared.settled.PathStart.{PathStart as PathStartValue};
ghost use Rattle.spp_path.specs.Settling.{lies_beside, opened_from, runs_on};
ghost use Rattle.spp_path.specs.Settled.{AreSoundStarts};
ghost use Rattle.spp_path.specs.Placing.{
  AreKnown,
  AreFalling,
  PermitsAt,
  Permits,
  IsOver,
  Comes,
  Agrees,
  AreRisingTo,
  IsPathStart,
};

use crate::settled::PathStart;
use crate::settling::Onward;
use spp_dag::{EntryFrame, FrameKind};
use spp_stack::{Entries, Node};
use std::alloc::{AllocError, Global};

/// Whether a frame was opened by the event at `spawn` or after it.
fn opened_from(spawn: u32, frame: &EntryFrame) -> bool
    ensures { result ≡ opened_from spawn frame.now.kind frame.now.at }
{
    match frame.kind {
        FrameKind::Root => false,
        FrameKind::Called | FrameKind::Spawned => spawn <= frame.at,
    }
}

/// Whether a path that goes on so doesn't enter this open frame.
fn lies_beside(onward: Onward, frame: &EntryFrame) -> bool
    ensures { result ≡ lies_beside onward frame.now }
{
    match onward {
        Onward::Live => false,
        Onward::Skip { spawn } | Onward::Seek { spawn } => opened_from(spawn, frame),
    }
}

/// Whether the innermost frame that a path enters runs on, where the path goes on so.
fn runs_on(onward: Onward) -> bool
    ensures { result ≡ runs_on onward }
{
    match onward {
        Onward::Live | Onward::Skip { .. } => true,
        Onward::Seek { .. } => false,
    }
}

/// The innermost frames that a path enters, of the stacks of many places. A stack whose frames beside the path were gone
/// through once isn't gone through again.
#[derive(Drop)]
struct Lives<'e> {
    nodes: &'e [Node],
    /// Of nodes whose frames the path doesn't enter, the number of the next node below whose frame it enters.
    known: Vec<Option<u32>>,
}

impl<'e> Lives<'e> {
    /// Of no node anything is known.
    fn new(alloc: Global, nodes: &'e [Node]) -> Result<Self, AllocError>
        requires { IsTree nodes.now }
        ensures nodes { IfOk result (λ s. s.nodes.now ≡ nodes.now) }
        ensures falling { IfOk result (λ s. AreFalling s) }
        ensures known { IfOk result (λ s. (enters : FrameValue → Bool) → AreKnown enters s) }
    {
        Ok(Lives {
            nodes,
            known: vec![in alloc; None; nodes.len()]?,
        })
    }

    /// The number of the next node to ask, below one whose frame the path may not enter; none where it enters it.
    fn next(&self, onward: Onward, number: u32) -> Option<u32>
        requires falling { AreFalling self.now }
        requires there { number < length self.now.nodes.now }
        ensures less { IfSome result (λ n. n < number) }
        ensures over { IfSome result (λ n. (enters : FrameValue → Bool) → PermitsAt enters self.now.nodes.now onward number → AreKnown enters self.now → IsOver enters self.now.nodes.now number n) }
        ensures none { result ≡ None → Comes self.now.nodes.now onward number }
    {
        let node = &self.nodes[number as usize];
        if !lies_beside(onward, &node.frame) {
            return None;
        }
        let known = self.known[number as usize];
        known.or(node.below)
    }

    /// The number of the node of the innermost frame that the path enters, from that of `top` on.
    fn find(&self, onward: Onward, top: u32) -> u32
        requires falling { AreFalling self.now }
        requires there { top < length self.now.nodes.now }
        ensures there { result < length self.now.nodes.now }
        ensures over { (enters : FrameValue → Bool) → Permits enters self.now.nodes.now onward top → AreKnown enters self.now → IsOver enters self.now.nodes.now top result }
        ensures comes { Comes self.now.nodes.now onward result }
    {
        let mut number = top;
        while let Some(next) = self.next(onward, number) {
            number = next;
        }
        number
    }

    /// Notes for `top` and the nodes below it, as far as nothing was known of them, that the next one whose frame the path
    /// enters is `live`.
    fn note(&mut self, top: u32, live: u32)
        requires falling { AreFalling self.old }
        requires there { top < length self.old.nodes.now }
        ensures nodes { self.new.nodes ≡ self.old.nodes }
        ensures falling { AreFalling self.new }
        ensures known { (enters : FrameValue → Bool) → IsOver enters self.old.nodes.now top live → AreKnown enters self.old → AreKnown enters self.new }
    {
        let mut number = top;
        while number > live && self.known[number as usize].is_none() {
            self.known[number as usize] = Some(live);
            match self.nodes[number as usize].below {
                Some(below) => number = below,
                None => break,
            }
        }
    }
}

impl<'e> Lives<'e> {
    /// The number of the node of the innermost frame that the path enters, from that of `top` on. All calls together take
    /// time linear in their number and in that of the nodes.
    fn live(&mut self, onward: Onward, top: u32) -> u32
        requires falling { AreFalling self.old }
        requires there { top < length self.old.nodes.now }
        ensures nodes { self.new.nodes ≡ self.old.nodes }
        ensures falling { AreFalling self.new }
        ensures there { result < length self.old.nodes.now }
        ensures over { (enters : FrameValue → Bool) → Permits enters self.old.nodes.now onward top → AreKnown enters self.old → IsOver enters self.old.nodes.now top result × AreKnown enters self.new }
        ensures comes { Comes self.old.nodes.now onward result }
    {
        let live = self.find(onward, top);
        self.note(top, live);
        live
    }
}

/// How many of these spawns, which rise, lie before a position, where it is known of so many.
fn count_to(spawns: &[u32], from: usize, position: u32) -> usize
    requires { from ≤ length spawns.now }
    ensures some { from ≤ result }
    ensures most { result ≤ length spawns.now }
    ensures lower { (i : ℕ) → from ≤ i → i < result → slice_index_or spawns.now i 0 < position }
    ensures upper { result < length spawns.now → position ≤ slice_index_or spawns.now result 0 }
{
    let mut count = from;
    while let Some(spawn) = spawns.get(count) {
        if *spawn >= position {
            break;
        }
        count += 1;
    }
    count
}

/// Where a path goes at each of these beginnings, after which it goes on so; it enters the children that were spawned at
/// these positions, rising. It takes time linear in the numbers of beginnings, of nodes and of spawns.
///
/// # Errors
///
/// Where an allocation failed.
pub(crate) fn places(
    alloc: Global,
    entries: &Entries,
    onwards: &[Onward],
    spawns: &[u32],
) -> Result<Vec<PathStart>, AllocError>
    requires count { length onwards.now ≡ length entries.now.starts }
    ensures count { IfOk result (λ starts. length starts.items ≡ length onwards.now) }
    ensures sound { IfOk result (λ starts. AreSoundStarts entries.now spawns.now starts.items) }
    ensures starts { IfOk result (λ starts. (enters : FrameValue → Bool) → Agrees enters entries.now onwards.now → AreRisingTo entries.now → (k : ℕ) (onward : OnwardValue) (p : PathStartValue) → slice_get onwards.now k ≡ Some onward → slice_get starts.items k ≡ Some p → IsPathStart enters entries.now spawns.now k onward p) }
{
    let mut lives = Lives::new(alloc, entries.nodes())?;
    let mut starts = Vec::with_capacity(alloc, onwards.len())?;
    let mut before = 0;
    for k in 0..onwards.len() {
        before = count_to(spawns, before, entries.entry(k).at());
        let live = lives.live(onwards[k], entries.top(k));
        starts.push(PathStart {
            before,
            live,
            running: runs_on(onwards[k]),
        })?;
    }
    Ok(starts)
}
