//! The profile of a run so far, onto which blocks are joined.

ghost use Rattle.std.specs.Prelude.{◌+◌, ℕ, IfOk, IfErr, OnOk};
ghost use Rattle.spp_event.specs.Recordings.{Recording};
ghost use Rattle.spp_frame.specs.Answers.{IsFaultOf};
ghost use Rattle.spp_part.specs.Parts.{IsSoFar};
ghost use Rattle.spp_crew.specs.Blocks.{IsBlockAt, IsPartOf, IsReadable, count_of};
ghost use Rattle.spp_crew.specs.Shared.{IsShared};

use crate::block::{Block, SoFar};
use crate::shared_profile::SharedProfile;
use spp_event::Version;
use spp_frame::ProfileFault;
use spp_maxplus::Burdens;
use spp_part::{PartProfile, ProfileSoFar};
use std::alloc::{AllocError, Global};
use std::thread::Threads;

/// Goes on by the events of a block.
///
/// # Errors
///
/// The first bad event of the run, if it is one of these, or `Memory` where an allocation failed.
fn read_on(so_far: &mut ProfileSoFar, alloc: Global, block: &Block) -> Result<(), ProfileFault>
    requires readable { IsReadable block.now }
    requires so_far { (trace : Recording) × (i : ℕ) × IsSoFar trace block.now.burdens i so_far.old × IsBlockAt trace block.now.burdens i block.now }
    ensures so_far { OnOk result ((trace : Recording) (i : ℕ) → IsSoFar trace block.now.burdens i so_far.old → IsBlockAt trace block.now.burdens i block.now → IsSoFar trace block.now.burdens (i + count_of block.now) so_far.new) }
    ensures fault { IfErr result (λ f. (trace : Recording) (i : ℕ) → IsSoFar trace block.now.burdens i so_far.old → IsBlockAt trace block.now.burdens i block.now → IsFaultOf trace.records f) }
{
    let bytes = &block.bytes[..block.len];
    let (sites, funcs, burdens) = (block.sites, block.funcs, block.burdens);
    match block.version {
        Version::One => so_far.read_records(alloc, bytes, sites, funcs, burdens),
        Version::Two => so_far.read_items(alloc, bytes, sites, funcs, burdens),
    }
}

impl SoFar for SharedProfile {
    type Part = PartProfile;

    ghost is_part = { IsPartOf };

    ghost is_so_far = { IsShared };

    fn part_of(alloc: Global, block: &Block) -> Result<PartProfile, AllocError> {
        let bytes = &block.bytes[..block.len];
        let (sites, funcs, burdens) = (block.sites, block.funcs, block.burdens);
        match block.version {
            Version::One => PartProfile::of_records(alloc, bytes, sites, funcs, burdens),
            Version::Two => PartProfile::of_items(alloc, bytes, sites, funcs, burdens),
        }
    }

    fn joins_slowly(part: &PartProfile) -> bool {
        part.joins_slowly()
    }

    fn join<R: Threads>(
        self,
        rt: &R,
        alloc: Global,
        part: PartProfile,
        burdens: Burdens,
    ) -> Result<Self, ProfileFault> {
        if self.shares_rows_of(&part) {
            return self.join_and_share(rt, alloc, part, burdens);
        }
        let shares = self.shares_rows();
        let mut so_far = self.gathered(rt)?;
        match so_far.join(alloc, &part, burdens) {
            Ok(()) => Ok(SharedProfile::alone(so_far, shares)),
            Err(fault) => Err(fault),
        }
    }

    fn read<R: Threads>(self, rt: &R, alloc: Global, block: &Block) -> Result<Self, ProfileFault> {
        let shares = self.shares_rows();
        let mut so_far = self.gathered(rt)?;
        match read_on(&mut so_far, alloc, block) {
            Ok(()) => Ok(SharedProfile::alone(so_far, shares)),
            Err(fault) => Err(fault),
        }
    }

    fn let_go<R: Threads>(self, rt: &R) {
        SharedProfile::let_go(self, rt);
    }
}
