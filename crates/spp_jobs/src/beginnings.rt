//! The open frames where the parts of a cut begin.

ghost use Rattle.std.specs.Prelude.{◌+◌, ◌≤◌, length, IfOk};
ghost use Rattle.spp_frame.specs.Nesting.{IsWellFormed};
ghost use Rattle.spp_maxplus.specs.declared.state.Burdens.{Burdens};
ghost use Rattle.spp_jobs.specs.Summaries.{AreSummariesOf};
ghost use Rattle.spp_stack.specs.Parts.{AreEntriesOf, open_count};

use spp_cut::Cut;
use spp_stack::{Entries, entries};
use spp_summary::Summary;
use std::alloc::{AllocError, Global};

/// The open frames where the parts of a cut trace begin, and where it ends, from the summaries of its parts in order.
/// Time, memory and the number of nodes are those of [`entries`](spp_stack::entries). With `entry(k)` of what it gives,
/// [`run_part`](spp_pass::run_part) can pass over part `k` alone.
///
/// # Errors
///
/// Where an allocation failed.
pub fn entries_of(alloc: Global, cut: &Cut<'_, '_>, each: &[Summary]) -> Result<Entries, AllocError>
    requires well_formed { IsWellFormed cut.now.trace.records }
    requires each { (burdens : Burdens) × AreSummariesOf cut.now burdens each.now }
    ensures entries { IfOk result (λ r. (burdens : Burdens) → AreSummariesOf cut.now burdens each.now → AreEntriesOf cut.now burdens r) }
    ensures nodes { IfOk result (λ r. length r.nodes ≤ 1 + length cut.now.parts + open_count each.now) }
{
    // For what they state: the limits, and that the parts hold all events.
    cut.trace().keeps_limits();
    let _parts = cut.parts();
    entries(alloc, cut.trace().root(), each)
}
