//! The stacks of a trace, found part by part.

ghost use Rattle.std.specs.Prelude.{◌≡◌, ℕ, ◌+◌, ◌≤◌, List, length, IfOk};
ghost use Rattle.spp_event.specs.declared.records.Event.{Event as EventValue};
ghost use Rattle.spp_maxplus.specs.declared.state.Burdens.{Burdens as BurdensValue};
ghost use Rattle.spp_stack.specs.Parts.{AreOfParts, IsEntryOf, open_count};

use crate::stack_builder::StackBuilder;
use crate::stacks::{Entries, Start};
use spp_summary::Summary;
use std::alloc::{AllocError, Global};

/// How many nodes there are at most: one, one for each part, and one for each frame that a part leaves open.
fn most_nodes(summaries: &[Summary]) -> usize {
    let mut most = summaries.len().saturating_add(1);
    for part in summaries {
        most = most.saturating_add(part.frame_count());
    }
    most
}

/// The open frames where each part of a trace begins, and where the trace ends, from the summaries of its parts in
/// order; each with its position, which is the sum of the numbers of events of the summaries before, and the work before
/// it. The root frame runs the function `root`. The summaries have the same burdens, and what is known of the frames'
/// weights is told without them and with them.
///
/// It takes time and memory linear in the numbers of parts, of the frames that they leave open and of those that they
/// close and don't open, and in the greatest numbers of their sites and functions. There are no more nodes than one,
/// the parts, and the frames that parts leave open.
///
/// # Errors
///
/// Where an allocation failed.
pub fn entries(alloc: Global, root: u32, summaries: &[Summary]) -> Result<Entries, AllocError>
    requires parts { (es : List EventValue) × (burdens : BurdensValue) × AreOfParts es burdens summaries.now }
    requires few { length summaries.now ≤ 65536 }
    ensures starts { IfOk result (λ r. length r.starts ≡ length summaries.now + 1) }
    ensures nodes { IfOk result (λ r. length r.nodes ≤ 1 + length summaries.now + open_count summaries.now) }
    ensures entries { IfOk result (λ r. (es : List EventValue) → (burdens : BurdensValue) → AreOfParts es burdens summaries.now → (k : ℕ) → k ≤ length summaries.now → IsEntryOf es burdens root summaries.now r k) }
{
    let mut builder = StackBuilder::start(alloc, root, most_nodes(summaries))?;
    let mut starts = Vec::with_capacity(alloc, summaries.len() + 1)?;
    let mut at = 0;
    starts.push(Start {
        top: 0,
        at,
        work: 0,
    })?;
    for summary in summaries {
        summary.burdens().are_small();
        builder.pass(summary)?;
        at += summary.events();
        starts.push(Start {
            top: builder.last(),
            at,
            work: builder.work,
        })?;
    }
    Ok(Entries {
        nodes: builder.nodes,
        starts,
    })
}
