//! The dag of a trace, on the positions of its events.

ghost use Rattle.std.specs.Prelude.{◌≡◌, ◌≤◌, ◌<◌, ◌^◌, ◌↔◌, suc, length, true, ℕ, IfOk, Some};
ghost use Rattle.spp_dag.specs.Trace.{event_at, spawns as is_spawn, weight as weight_at, depth as depth_at, partner as partner_of, is_frame as begins_frame, closing as closing_of, owner as owner_of, join as join_of, IsWellFormed};
ghost use Rattle.spp_dag.specs.Dag.{Edge as LeadsTo, ReturnEdge};
ghost use Rattle.spp_dag.specs.Limits.{IsSmall};
ghost use Rattle.spp_reference.specs.Dags.{Lists, edge, HasEdge, IsInOrder};

use spp_event::Event;
use spp_maxplus::Burdens;
use std::alloc::{AllocError, Global};
use std::marker::Model;

/// A well-formed trace with its dag. Positions are numbers from 0 to the number of events, which is the end; a frame is
/// named by its first position.
///
/// Contracts see it as the list of its events.
#[derive(Drop)]
pub(crate) struct Dag<'t> {
    events: &'t [Event],
    closings: Vec<usize>,
    owners: Vec<usize>,
}

impl<'t> Model for Dag<'t> {
    ghost use Rattle.std.specs.Prelude.{List};
    ghost use Rattle.spp_event.specs.declared.records.Event.{Event};
    ghost use Rattle.spp_reference.specs.Dags.{IsDag};

    ghost Value = { List Event };

    ghost view = { λ d. d.events.now };

    ghost invariant = { λ d. IsDag d.events.now d.closings.items d.owners.items };
}

/// An edge of the dag.
#[derive(Clone, Copy, Debug, PartialEq, Eq)]
pub(crate) struct Edge {
    /// Where it leads.
    pub(crate) to: usize,
    /// What it bears, in instructions.
    pub(crate) burden: u32,
}

/// The edges out of a position.
#[derive(Clone, Copy, Debug, PartialEq, Eq)]
pub(crate) struct Edges {
    /// The one to the least position.
    pub(crate) first: Option<Edge>,
    /// The other one; only a spawn has two.
    pub(crate) second: Option<Edge>,
}

/// How many frames besides the root are open before the event at `i`.
fn depth(events: &[Event], i: usize) -> usize
    requires { i ≤ length events.now }
    ensures { result ≡ depth_at events.now i }
{
    let mut opened: usize = 0;
    let mut closed: usize = 0;
    for event in &events[..i] {
        match event {
            Event::Call { .. } | Event::Spawn { .. } => opened += 1,
            Event::Ret => closed += 1,
            _ => {}
        }
    }
    opened.saturating_sub(closed)
}

/// The return that closes the frame opened at `i`.
fn partner(events: &[Event], i: usize) -> usize
    requires { i < length events.now }
    ensures { result ≡ partner_of events.now i }
{
    for at in i + 1..events.len() {
        if matches!(events[at], Event::Ret) && depth(events, at + 1) == depth(events, i) {
            return at;
        }
    }
    events.len()
}

/// Whether a frame begins at position `f`.
fn is_frame(events: &[Event], f: usize) -> bool
    requires { f ≤ length events.now }
    ensures { result ≡ begins_frame events.now f }
{
    f == 0 || matches!(events[f - 1], Event::Call { .. } | Event::Spawn { .. })
}

/// Where each frame ends, by its first position; where no frame begins, any positions.
fn closings(alloc: Global, events: &[Event]) -> Result<Vec<usize>, AllocError>
    ensures { IfOk result (λ xs. Lists (suc (length events.now)) (closing_of events.now) xs.items) }
{
    let mut ends = Vec::new(alloc);
    ends.push(events.len())?;
    for at in 0..events.len() {
        ends.push(partner(events, at))?;
    }
    Ok(ends)
}

/// The frame that directly holds position `k`, by its first position.
fn owner(events: &[Event], closings: &[usize], k: usize) -> usize
    requires within { k ≤ length events.now }
    requires closings { Lists (suc (length events.now)) (closing_of events.now) closings.now }
    ensures { result ≡ owner_of events.now k }
{
    for before in 0..k {
        let first = k - before;
        if is_frame(events, first) && k <= closings[first] {
            return first;
        }
    }
    0
}

/// The frame that directly holds each position.
fn owners(alloc: Global, events: &[Event], closings: &[usize]) -> Result<Vec<usize>, AllocError>
    requires { Lists (suc (length events.now)) (closing_of events.now) closings.now }
    ensures { IfOk result (λ xs. Lists (suc (length events.now)) (owner_of events.now) xs.items) }
{
    let mut frames = Vec::new(alloc);
    for at in 0..events.len() + 1 {
        frames.push(owner(events, closings, at))?;
    }
    Ok(frames)
}

impl<'t> Dag<'t> {
    /// The dag of these events.
    pub(crate) fn new(alloc: Global, events: &'t [Event]) -> Result<Self, AllocError>
        requires well_formed { IsWellFormed events.now }
        requires small { IsSmall events.now }
        ensures { IfOk result (λ d. d ≡ events.now) }
    {
        let closings = closings(alloc, events)?;
        let owners = owners(alloc, events, closings.as_slice())?;
        Ok(Dag {
            events,
            closings,
            owners,
        })
    }

    /// The end: how many events there are. Its clauses also give out what the events of every dag keep.
    pub(crate) fn end(&self) -> usize
        ensures count { result ≡ length self.now }
        ensures well_formed { IsWellFormed self.now }
        ensures small { IsSmall self.now }
    {
        self.events.len()
    }

    /// The event at a position; none at the end.
    pub(crate) fn event(&self, i: usize) -> Option<Event>
        ensures { result ≡ event_at self.now i }
    {
        self.events.get(i).copied()
    }

    /// The weight of a position: the count of a strand, else 0.
    pub(crate) fn weight(&self, i: usize) -> u64
        ensures { result ≡ weight_at self.now i }
    {
        match self.event(i) {
            Some(Event::Strand { count }) => count,
            _ => 0,
        }
    }

    /// Whether a frame begins at position `f`.
    pub(crate) fn is_frame(&self, f: usize) -> bool
        requires { f ≤ length self.now }
        ensures { result ≡ begins_frame self.now f }
    {
        is_frame(self.events, f)
    }

    /// Where the frame that begins at `f` ends.
    pub(crate) fn closing(&self, f: usize) -> usize
        requires { f ≤ length self.now }
        ensures is { result ≡ closing_of self.now f }
        ensures within { result ≤ length self.now }
        ensures small { length self.now ≤ 2 ^ 28 }
    {
        self.closings[f]
    }

    /// The frame that directly holds position `k`.
    pub(crate) fn owner(&self, k: usize) -> usize
        requires { k ≤ length self.now }
        ensures is { result ≡ owner_of self.now k }
        ensures before { result ≤ k }
    {
        self.owners[k]
    }

    /// Where the parent waits for the child spawned at `s`.
    fn join(&self, s: usize) -> usize
        requires within { s < length self.now }
        requires spawns { is_spawn (event_at self.now s) ≡ true }
        ensures { result ≡ join_of self.now s }
    {
        let end = self.end();
        for at in self.closing(s + 1) + 1..end {
            if matches!(self.event(at), Some(Event::Sync | Event::Ret))
                && self.owner(at) == self.owner(s)
            {
                return at;
            }
        }
        end
    }

    /// The edge out of the return at `u`; none where the root returns.
    fn edge_back(&self, burdens: Burdens, u: usize) -> Option<Edge>
        requires { u < length self.now }
        ensures { (v c : ℕ) → ReturnEdge self.now burdens (owner_of self.now u) u v c ↔ (result ≡ Some (edge v c)) }
    {
        let events = self.events;
        let frame = self.owner(u);
        if frame == 0 {
            return None;
        }
        if matches!(events[frame - 1], Event::Spawn { .. }) {
            return Some(Edge {
                to: self.join(frame - 1),
                burden: burdens.join,
            });
        }
        Some(Edge {
            to: u + 1,
            burden: 0,
        })
    }

    /// The edges out of a position.
    pub(crate) fn edges(&self, burdens: Burdens, u: usize) -> Edges
        requires { u ≤ length self.now }
        ensures are { (v c : ℕ) → LeadsTo self.now burdens u v c ↔ HasEdge result v c }
        ensures order { IsInOrder result }
    {
        if u == self.end() {
            return Edges {
                first: None,
                second: None,
            };
        }
        let on = Some(Edge {
            to: u + 1,
            burden: 0,
        });
        match self.events[u] {
            Event::Ret => Edges {
                first: self.edge_back(burdens, u),
                second: None,
            },
            Event::Spawn { .. } => Edges {
                first: on,
                second: Some(Edge {
                    to: self.closing(u + 1) + 1,
                    burden: burdens.continuation,
                }),
            },
            _ => Edges {
                first: on,
                second: None,
            },
        }
    }
}
