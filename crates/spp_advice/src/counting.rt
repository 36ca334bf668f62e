//! How often a run meets its call sites, and how often a path of it meets their spawns.

ghost use Rattle.std.specs.Prelude.{◌≡◌, ℕ, ◌+◌, ◌*◌, ◌<◌, ◌^◌, List, length, IfOk};
ghost use Rattle.spp_event.specs.Records.{IsEventOf};
ghost use Rattle.spp_event.specs.declared.records.Event.{Event as AnEvent};
ghost use Rattle.spp_frame.specs.Nesting.{AreEvents, IsWellFormed};
ghost use Rattle.spp_maxplus.specs.declared.state.Burdens.{Burdens as BurdensValue};
ghost use Rattle.spp_path.specs.Marks.{AreMarksOf};
ghost use Rattle.spp_advice.specs.Counts.{
  counts_at,
  no_counts,
  spawn_cost,
  with_event,
  is_marked,
  AreFew,
  AreCounts,
  ArePathCounts,
};

use spp_event::{Event, Events, Reader, Trace};
use spp_maxplus::Burdens;
use std::alloc::{AllocError, Global};
use std::marker::Model;

/// How often a run meets a call site, and how often a path of it meets the spawns by that site.
#[derive(Clone, Copy, Debug, Default, PartialEq, Eq)]
pub struct SiteCounts {
    /// How many events call by the site.
    pub calls: u32,
    /// How many events spawn by it.
    pub spawns: u32,
    /// How often the path goes past a child that was spawned by it, along a continuation edge.
    pub past: u32,
    /// How often the path enters such a child, and so leaves it by a return edge.
    pub into: u32,
}

/// What so many edges cost that bear that burden.
fn cost_of(edges: u32, burden: u32) -> u128
    ensures is { result ≡ edges * burden }
    ensures small { result < 2 ^ 64 }
{
    u128::from(edges) * u128::from(burden)
}

impl SiteCounts {
    /// What the spawns by the site cost along the path under these burdens, in instructions: the continuation edges that it
    /// takes past children, and the return edges that it takes out of them.
    pub fn cost(self, burdens: Burdens) -> u128
        ensures is { result ≡ spawn_cost self burdens }
        ensures small { result < 2 ^ 65 }
    {
        let past = cost_of(self.past, burdens.continuation);
        let into = cost_of(self.into, burdens.join);
        past + into
    }
}

/// The counts of the call sites of a run along a path. Contracts see a list of them, by the numbers of sites.
///
/// They take 16 bytes for each site.
#[derive(Drop)]
pub struct SpawnCounts {
    sites: Vec<SiteCounts>,
}

impl Model for SpawnCounts {
    ghost use Rattle.std.specs.Prelude.{List};
    ghost use Rattle.spp_advice.specs.declared.counting.SiteCounts.{SiteCounts};

    ghost Value = { List SiteCounts };

    ghost view = { λ c. c.sites.items };
}

impl SpawnCounts {
    /// The counts of a site. One that the trace doesn't have has none.
    pub fn site(&self, site: u32) -> SiteCounts
        ensures { result ≡ counts_at self.now site }
    {
        match self.sites.get(site as usize) {
            Some(counts) => *counts,
            None => SiteCounts::default(),
        }
    }

    /// No counts, of so many sites.
    ///
    /// # Errors
    ///
    /// Where an allocation failed.
    fn new(alloc: Global, sites: u32) -> Result<SpawnCounts, AllocError>
        ensures length { IfOk result (λ c. length c ≡ sites) }
        ensures none { IfOk result (λ c. (site : ℕ) → counts_at c site ≡ no_counts) }
    {
        let sites = vec![in alloc; SiteCounts::default(); sites as usize]?;
        Ok(SpawnCounts { sites })
    }

    /// Counts one event, where the path passes its position or not, and the next one or not.
    fn count(&mut self, event: Event, here: bool, next: bool)
        requires site { (funcs : ℕ) × IsEventOf (length self.old) funcs event }
        requires few { (n : ℕ) × (n + 1 < 2 ^ 32) × ((site : ℕ) → AreFew n (counts_at self.old site)) }
        ensures length { length self.new ≡ length self.old }
        ensures counts { (site : ℕ) → counts_at self.new site ≡ with_event event here next site (counts_at self.old site) }
    {
        match event {
            Event::Call { site, .. } => self.sites[site as usize].calls += 1,
            Event::Spawn { site, .. } => {
                let counts = &mut self.sites[site as usize];
                counts.spawns += 1;
                if here {
                    if next {
                        counts.into += 1;
                    } else {
                        counts.past += 1;
                    }
                }
            }
            Event::Strand { .. } | Event::Ret | Event::Sync => {}
        }
    }
}

/// Whether the path passes a position, by its marks.
fn is_on(marks: &[u8], at: u32) -> bool
    ensures { result ≡ is_marked marks.now at }
{
    match marks.get(at as usize) {
        Some(mark) => *mark == 1,
        None => true,
    }
}

/// What [`spawn_counts`] gives, by a reader that stands at the first event.
fn counts_by<R: Reader>(
    alloc: Global,
    trace: &Trace<'_>,
    marks: &[u8],
    mut events: R,
) -> Result<SpawnCounts, AllocError>
    requires formed { IsWellFormed trace.now.records }
    requires bytes { length marks.now ≡ length trace.now.records }
    requires here { R.stands events trace.now 0 }
    ensures marks { IfOk result (λ c. (es : List AnEvent) → AreEvents trace.now.records es → AreCounts es (is_marked marks.now) c) }
    ensures path { IfOk result (λ c. (es : List AnEvent) (burdens : BurdensValue) → AreEvents trace.now.records es → AreMarksOf es burdens 0 marks.now → ArePathCounts es burdens c) }
{
    let count = trace.count();
    let mut counts = SpawnCounts::new(alloc, trace.sites())?;
    for at in 0..count {
        let event = events.read_known(trace, at);
        let here = is_on(marks, at);
        let next = is_on(marks, at + 1);
        counts.count(event, here, next);
    }
    Ok(counts)
}

/// How often a run calls and spawns by each of its call sites, and how often a path of it, whose events are marked, goes past
/// a child spawned there or enters it: byte `i` is 1 where event `i` is on the path, else 0.
///
/// The events are read once, each in constant time, behind a step for each site. The memory is linear in the number of
/// sites.
///
/// # Errors
///
/// Where an allocation failed.
pub fn spawn_counts(
    alloc: Global,
    trace: &Trace<'_>,
    marks: &[u8],
) -> Result<SpawnCounts, AllocError>
    requires formed { IsWellFormed trace.now.records }
    requires bytes { length marks.now ≡ length trace.now.records }
    ensures marks { IfOk result (λ c. (es : List AnEvent) → AreEvents trace.now.records es → AreCounts es (is_marked marks.now) c) }
    ensures path { IfOk result (λ c. (es : List AnEvent) (burdens : BurdensValue) → AreEvents trace.now.records es → AreMarksOf es burdens 0 marks.now → ArePathCounts es burdens c) }
{
    match trace.events() {
        Events::Records(events) => counts_by(alloc, trace, marks, events),
        Events::Items(events) => counts_by(alloc, trace, marks, events),
    }
}
