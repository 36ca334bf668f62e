//! The profile of a run, by the definitions.

ghost use Rattle.std.specs.Prelude.{◌≡◌, ◌≤◌, suc, true, length, get_or, IfOk, IfErr};
ghost use Rattle.spp_frame.specs.Nesting.{AreEvents, IsWellFormed};
ghost use Rattle.spp_maxplus.specs.State.{unburdened};
ghost use Rattle.spp_dag.specs.Trace.{is_frame, closing};
ghost use Rattle.spp_dag.specs.Dag.{IsGreatest};
ghost use Rattle.spp_dag.specs.Rows.{AreSpans, contains, row as row_of};
ghost use Rattle.spp_dag.specs.Limits.{IsSmall};
ghost use Rattle.spp_reference.specs.Dags.{Lists};
ghost use Rattle.spp_reference.specs.Places.{holds};
ghost use Rattle.spp_reference.specs.Profiles.{AreRows, IsProfiled, IsReference};
ghost use Rattle.spp_frame.specs.Answers.{IsFaultOf};
ghost use Rattle.spp_frame.specs.declared.profile_fault.ProfileFault.TheVariants.{Bad as BadFault, Memory as MemoryFault};

use crate::dag::Dag;
use crate::rows::{Places, is_in, row, work};
use crate::walks::{path, span};
use spp_dag::Row;
use spp_event::{Event, Reader, Trace};
use spp_frame::{ProfileFault, check};
use spp_maxplus::Burdens;
use std::alloc::{AllocError, Global};

/// The rows of a table.
#[derive(Debug, Drop)]
pub struct SiteRows {
    /// The row of the root frame.
    pub root: Row,
    /// The row of each call site, in order.
    pub sites: Vec<Row>,
}

/// What the definitions say of a run. Weights are in instructions.
#[derive(Debug, Drop)]
pub struct Reference {
    /// The sum of the counts of all strands.
    pub work: u128,
    /// The greatest weight of a walk.
    pub span: u128,
    /// The greatest weight of a walk with the burdens.
    pub burdened_span: u128,
    /// The positions of the first greatest path, from 0 to the end.
    pub path: Vec<usize>,
    /// For each event, whether the path passes it.
    pub marks: Vec<bool>,
    /// The rows on the whole dag.
    pub dag_rows: SiteRows,
    /// The rows on the path.
    pub path_rows: SiteRows,
    /// The rows on the first path that is greatest under the burdens.
    pub burdened_path_rows: SiteRows,
}

/// The events of a well-formed trace.
fn events_of(alloc: Global, trace: &Trace<'_>) -> Result<Vec<Event>, AllocError>
    requires { IsWellFormed trace.now.records }
    ensures are { IfOk result (λ events. AreEvents trace.now.records events.items) }
    ensures small { IfOk result (λ events. IsSmall events.items) }
{
    let mut events = Vec::new(alloc);
    let mut reader = trace.events();
    for at in 0..trace.count() {
        match reader.read(trace, at) {
            Ok(event) => events.push(event)?,
            Err(_) => unreachable!(),
        }
    }
    Ok(events)
}

/// The span of the frame that begins at a position, or 0 where none does.
fn span_at(alloc: Global, dag: &Dag<'_>, at: usize) -> Result<u128, AllocError>
    requires { at ≤ length dag.now }
    ensures { IfOk result (λ w. is_frame dag.now at ≡ true → IsGreatest dag.now unburdened at (closing dag.now at) w) }
{
    if dag.is_frame(at) {
        span(alloc, dag, Burdens::default(), at)
    } else {
        Ok(0)
    }
}

/// The span of each frame, by its first position; 0 at positions where none begins.
fn spans(alloc: Global, dag: &Dag<'_>) -> Result<Vec<u128>, AllocError>
    ensures count { IfOk result (λ spans. length spans.items ≡ suc (length dag.now)) }
    ensures are { IfOk result (λ spans. AreSpans dag.now (λ f. get_or spans.items f 0)) }
{
    let mut spans = Vec::new(alloc);
    for at in 0..dag.end() + 1 {
        spans.push(span_at(alloc, dag, at)?)?;
    }
    Ok(spans)
}

/// The rows of the root and of that many sites, over these positions.
fn rows_of(
    alloc: Global,
    dag: &Dag<'_>,
    root: u32,
    spans: &[u128],
    places: Places<'_>,
    sites: u32,
) -> Result<SiteRows, AllocError>
    requires count { length spans.now ≡ suc (length dag.now) }
    requires spans { AreSpans dag.now (λ f. get_or spans.now f 0) }
    ensures { IfOk result (λ t. AreRows (row_of dag.now root (λ f. get_or spans.now f 0) (holds places.entry)) sites t) }
{
    let mut rows = Vec::new(alloc);
    for site in 0..sites {
        rows.push(row(dag, root, spans, places, Some(site)))?;
    }
    Ok(SiteRows {
        root: row(dag, root, spans, places, None),
        sites: rows,
    })
}

/// Whether the path passes, for each event.
fn marks(alloc: Global, path: &[usize], count: usize) -> Result<Vec<bool>, AllocError>
    ensures { IfOk result (λ marks. Lists count (contains path.now) marks.items) }
{
    let mut marks = Vec::new(alloc);
    for at in 0..count {
        marks.push(is_in(Places::On(path), at))?;
    }
    Ok(marks)
}

/// The profile of a dag whose root frame runs `root`, with the rows of that many sites.
fn profiled(
    alloc: Global,
    dag: &Dag<'_>,
    root: u32,
    sites: u32,
    burdens: Burdens,
) -> Result<Reference, AllocError>
    ensures { IfOk result (λ r. IsProfiled dag.now root sites burdens r) }
{
    let spans = spans(alloc, dag)?;
    let burdened_path = path(alloc, dag, burdens)?;
    let path = path(alloc, dag, Burdens::default())?;
    let burdened_span = span(alloc, dag, burdens, 0)?;
    let dag_rows = rows_of(alloc, dag, root, spans.as_slice(), Places::All, sites)?;
    let on_path = Places::On(path.as_slice());
    let path_rows = rows_of(alloc, dag, root, spans.as_slice(), on_path, sites)?;
    let marks = marks(alloc, path.as_slice(), dag.end())?;
    let on_path = Places::On(burdened_path.as_slice());
    let burdened_path_rows = rows_of(alloc, dag, root, spans.as_slice(), on_path, sites)?;
    Ok(Reference {
        work: work(dag, 0),
        span: spans[0],
        burdened_span,
        path,
        marks,
        dag_rows,
        path_rows,
        burdened_path_rows,
    })
}

/// The profile of a run with these burdens, found position by position from the definitions.
///
/// The time grows with the third power of the number of events, and with its square for each site; the memory is linear
/// in the events and sites. It is for small traces, to compare fast profilers with.
///
/// # Errors
///
/// The first bad event, or `Memory` where an allocation failed.
pub fn profile(
    alloc: Global,
    trace: &Trace<'_>,
    burdens: Burdens,
) -> Result<Reference, ProfileFault>
    ensures profile { IfOk result (λ r. IsReference trace.now burdens r) }
    ensures fault { IfErr result (λ f. IsFaultOf trace.now.records f) }
{
    check(trace)?;
    let events = events_of(alloc, trace)?;
    let dag = Dag::new(alloc, events.as_slice())?;
    Ok(profiled(alloc, &dag, trace.root(), trace.sites(), burdens)?)
}
