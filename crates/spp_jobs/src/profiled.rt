//! The job that profiles: what the parts come to by themselves, joined into the profile so far.

ghost use Rattle.std.specs.Prelude.{◌≡◌, ◌<◌, ◌≤◌, ◌+◌, ℕ, List, IfOk, IfErr, OnOk};
ghost use Rattle.spp_event.specs.Recordings.{Recording};
ghost use Rattle.spp_frame.specs.Answers.{IsFaultOf};
ghost use Rattle.spp_part.specs.Parts.{IsSoFar};
ghost use Rattle.spp_book.specs.Jobs.{AreNeighbours, IsJoined, IsHandedBack, IsCopied};
ghost use Rattle.spp_jobs.specs.Names.{spell, profiles, parts_in, range_in};
ghost use Rattle.spp_jobs.specs.ProfilePieces.{Follow, IsPiece, IsReached};

use crate::lists::{chained, make_room};
use spp_book::{Job, JoinRefused};
use spp_cut::Cut;
use spp_frame::{Fault, ProfileFault};
use spp_maxplus::Burdens;
use spp_part::{PartProfile, ProfileSoFar};
use std::alloc::{AllocError, Global};
use std::collections::VecDeque;

/// What some neighbouring parts of a trace come to.
#[derive(Drop)]
pub enum ProfilePiece {
    /// The parts begin with the first: the profile so far.
    Begun {
        /// What their events have come to.
        so_far: ProfileSoFar,
        /// The burdens under which they were read.
        burdens: Burdens,
    },
    /// The parts begin with the first, and this is their first bad event, so that of the whole trace.
    Bad(Fault),
    /// The parts come behind the first: what each comes to by itself, in order.
    Later(VecDeque<PartProfile>),
    /// An allocation failed while pieces were joined. It stands for whichever parts there are.
    Spent,
}

/// The job of profiling the parts of a cut trace.
#[derive(Drop)]
pub struct ProfileJob<'c, 't, 'a> {
    cut: &'c Cut<'t, 'a>,
    burdens: Burdens,
}

impl<'c, 't, 'a> ProfileJob<'c, 't, 'a> {
    /// The job of these parts, under these burdens.
    pub fn new(cut: &'c Cut<'t, 'a>, burdens: Burdens) -> Self
        ensures cut { result.cut.now ≡ cut.now }
        ensures burdens { result.burdens ≡ burdens }
    {
        ProfileJob { cut, burdens }
    }
}

/// Goes on by what the next parts come to, in order.
///
/// # Errors
///
/// The first bad event, if it is one of these parts, or `Memory` where an allocation failed.
pub fn join_parts(
    alloc: Global,
    so_far: &mut ProfileSoFar,
    burdens: Burdens,
    parts: VecDeque<PartProfile>,
) -> Result<(), ProfileFault>
    requires { (trace : Recording) × (i : ℕ) × (k : ℕ) × IsSoFar trace burdens i so_far.old × Follow trace burdens i parts.items k }
    ensures so_far { OnOk result ((trace : Recording) (i k : ℕ) → IsSoFar trace burdens i so_far.old → Follow trace burdens i parts.items k → IsSoFar trace burdens k so_far.new) }
    ensures fault { IfErr result (λ f. (trace : Recording) (i k : ℕ) → IsSoFar trace burdens i so_far.old → Follow trace burdens i parts.items k → IsFaultOf trace.records f) }
{
    let mut parts = parts;
    while let Some(part) = parts.pop_front() {
        so_far.join(alloc, &part, burdens)?;
    }
    Ok(())
}

/// What parts come to that begin with the first: the profile of some, gone on by what the next ones come to, in order.
fn gone_on(
    alloc: Global,
    so_far: ProfileSoFar,
    burdens: Burdens,
    parts: VecDeque<PartProfile>,
) -> ProfilePiece
    requires { (trace : Recording) × (i : ℕ) × (k : ℕ) × IsSoFar trace burdens i so_far × Follow trace burdens i parts.items k }
    ensures { (trace : Recording) (i k : ℕ) → IsSoFar trace burdens i so_far → Follow trace burdens i parts.items k → IsReached trace burdens k result }
{
    let mut so_far = so_far;
    match join_parts(alloc, &mut so_far, burdens, parts) {
        Ok(()) => ProfilePiece::Begun { so_far, burdens },
        Err(ProfileFault::Bad(fault)) => ProfilePiece::Bad(fault),
        Err(ProfileFault::Memory) => ProfilePiece::Spent,
    }
}

impl<'c, 't, 'a> Job for ProfileJob<'c, 't, 'a> {
    type Content = ProfilePiece;

    ghost name = { λ j. spell (record { kind = profiles; cut = j.cut.now; burdens = j.burdens }) };

    ghost parts_of = { parts_in };

    ghost range_of = { range_in };

    ghost is_value = { IsPiece };

    fn parts(&self) -> u32 {
        self.cut.parts().len() as u32
    }

    fn range(&self, number: u32) -> (u32, u32) {
        let part = &self.cut.parts()[number as usize];
        (part.first(), part.count())
    }

    /// The time and the memory are those of [`PartProfile::of_part`]; the first part's goes into the profile so far.
    fn run(&self, alloc: Global, number: u32) -> Result<ProfilePiece, AllocError> {
        let part = &self.cut.parts()[number as usize];
        let burdens = self.burdens;
        // For what it states: each is a number of 32 bits.
        burdens.are_small();
        let read = PartProfile::of_part(alloc, part, burdens)?;
        if number > 0 {
            let mut later = VecDeque::with_capacity(alloc, 1)?;
            later.push_back(read)?;
            return Ok(ProfilePiece::Later(later));
        }
        let mut so_far = ProfileSoFar::new(alloc, self.cut.trace())?;
        match so_far.join(alloc, &read, burdens) {
            Ok(()) => Ok(ProfilePiece::Begun { so_far, burdens }),
            Err(ProfileFault::Bad(fault)) => Ok(ProfilePiece::Bad(fault)),
            Err(ProfileFault::Memory) => Err(AllocError),
        }
    }

    /// Where the left parts begin with the first, the time is that of [`ProfileSoFar::join`] for each of the right ones; else
    /// that of moving the shorter of the two lists. A profile so far that an allocation cut off is of no use, and can't be
    /// handed back: `Spent` comes of it.
    fn join(
        alloc: Global,
        left: ProfilePiece,
        right: ProfilePiece,
    ) -> Result<ProfilePiece, JoinRefused<ProfilePiece>>
        requires { AreNeighbours parts_in IsPiece left right }
        ensures joined { IfOk result (λ c. IsJoined parts_in IsPiece left right c) }
        ensures refused { IfErr result (λ r. IsHandedBack IsPiece left right r.left r.right) }
    {
        match left {
            ProfilePiece::Begun { so_far, burdens } => match right {
                ProfilePiece::Later(parts) => Ok(gone_on(alloc, so_far, burdens, parts)),
                ProfilePiece::Spent => Ok(ProfilePiece::Spent),
                // The right parts come behind the first.
                ProfilePiece::Begun { .. } | ProfilePiece::Bad(_) => unreachable!(),
            },
            ProfilePiece::Bad(fault) => Ok(ProfilePiece::Bad(fault)),
            ProfilePiece::Later(front) => match right {
                ProfilePiece::Later(back) => {
                    let mut front = front;
                    let mut back = back;
                    if make_room(&mut front, &mut back).is_err() {
                        return Err(JoinRefused {
                            left: ProfilePiece::Later(front),
                            right: ProfilePiece::Later(back),
                        });
                    }
                    Ok(ProfilePiece::Later(chained(front, back)))
                }
                ProfilePiece::Spent => Ok(ProfilePiece::Spent),
                ProfilePiece::Begun { .. } | ProfilePiece::Bad(_) => unreachable!(),
            },
            ProfilePiece::Spent => Ok(ProfilePiece::Spent),
        }
    }

    /// No real copy, but of a bad event: `Spent` stands for what else there is, as if an allocation had failed. A round copies
    /// no piece.
    fn copy(_alloc: Global, content: &ProfilePiece) -> Result<ProfilePiece, AllocError>
        ensures { IfOk result (λ c. IsCopied IsPiece content.now c) }
    {
        match content {
            ProfilePiece::Bad(fault) => Ok(ProfilePiece::Bad(*fault)),
            ProfilePiece::Begun { .. } | ProfilePiece::Later(_) | ProfilePiece::Spent => {
                Ok(ProfilePiece::Spent)
            }
        }
    }
}
