//! The summary of a run so far, onto which those of blocks are joined.

ghost use Rattle.std.specs.Prelude.{◌≡◌, ◌+◌, ℕ, IfOk, IfErr};
ghost use Rattle.spp_event.specs.Recordings.{Recording};
ghost use Rattle.spp_frame.specs.Answers.{IsFaultOf};
ghost use Rattle.spp_maxplus.specs.declared.state.Burdens.{Burdens as BurdensValue};
ghost use Rattle.spp_crew.specs.Blocks.{IsBlockAt, IsSummaryOf, IsSummaryOfFirst, IsReadable, count_of};
ghost use Rattle.spp_crew.specs.declared.block.Block.{Block as BlockValue};

use crate::block::{Block, SoFar};
use spp_event::Version;
use spp_frame::ProfileFault;
use spp_maxplus::Burdens;
use spp_summary::Summary;
use std::alloc::{AllocError, Global};
use std::thread::Threads;

/// The summary of a block.
///
/// # Errors
///
/// Where an allocation failed.
fn summary_of(alloc: Global, block: &Block) -> Result<Summary, AllocError>
    requires { IsReadable block.now }
    ensures { IfOk result (IsSummaryOf block.now) }
{
    let bytes = &block.bytes[..block.len];
    let (sites, funcs, burdens) = (block.sites, block.funcs, block.burdens);
    match block.version {
        Version::One => Summary::of_records(alloc, bytes, sites, funcs, burdens, block.first),
        Version::Two => Summary::of_items(alloc, bytes, sites, funcs, burdens, block.first),
    }
}

/// The summary of the first events of a run, unless one of them is a bad event.
///
/// # Errors
///
/// The first bad event, where it is one of these.
fn unless_bad(summary: Summary) -> Result<Summary, ProfileFault>
    requires { summary.first ≡ 0 }
    ensures same { IfOk result (λ s. s ≡ summary) }
    ensures fault { IfErr result (λ f. (trace : Recording) (burdens : BurdensValue) (k : ℕ) → IsSummaryOfFirst trace burdens k summary → IsFaultOf trace.records f) }
{
    if summary.return_count() == 0 && summary.fault().is_none() {
        return Ok(summary);
    }
    match summary.finish() {
        Err(fault) if fault.at < summary.events() => Err(ProfileFault::Bad(fault)),
        _ => Ok(summary),
    }
}

/// The summary of the first events of a run, and that of the block behind them, together.
///
/// # Errors
///
/// The first bad event, if it was met, or `Memory` where an allocation failed.
fn both(left: Summary, right: Summary) -> Result<Summary, ProfileFault>
    requires some { (trace : Recording) × (burdens : BurdensValue) × (i : ℕ) × (block : BlockValue) × IsSummaryOfFirst trace burdens i left × IsBlockAt trace burdens i block × IsSummaryOf block right }
    ensures both { IfOk result (λ s. (trace : Recording) (burdens : BurdensValue) (i : ℕ) (block : BlockValue) → IsSummaryOfFirst trace burdens i left → IsBlockAt trace burdens i block → IsSummaryOf block right → IsSummaryOfFirst trace burdens (i + count_of block) s) }
    ensures fault { IfErr result (λ f. (trace : Recording) (burdens : BurdensValue) (i : ℕ) (block : BlockValue) → IsSummaryOfFirst trace burdens i left → IsBlockAt trace burdens i block → IsSummaryOf block right → IsFaultOf trace.records f) }
{
    match Summary::join(left, right) {
        Ok(summary) => unless_bad(summary),
        Err(_) => Err(ProfileFault::Memory),
    }
}

impl SoFar for Summary {
    type Part = Summary;

    ghost is_part = { IsSummaryOf };

    ghost is_so_far = { IsSummaryOfFirst };

    fn part_of(alloc: Global, block: &Block) -> Result<Summary, AllocError> {
        summary_of(alloc, block)
    }

    fn let_go<R: Threads>(self, _rt: &R) {}

    /// Never: to join a summary takes less than to read its block.
    fn joins_slowly(_part: &Summary) -> bool {
        false
    }

    fn join<R: Threads>(
        self,
        _rt: &R,
        _alloc: Global,
        part: Summary,
        _burdens: Burdens,
    ) -> Result<Self, ProfileFault> {
        both(self, part)
    }

    fn read<R: Threads>(self, _rt: &R, alloc: Global, block: &Block) -> Result<Self, ProfileFault> {
        let Ok(part) = summary_of(alloc, block) else {
            return Err(ProfileFault::Memory);
        };
        both(self, part)
    }
}
