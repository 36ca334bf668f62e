//! The job that summarises: what each part does to the open frames, and all of them together.

ghost use Rattle.std.specs.Prelude.{◌≡◌, ◌<◌, ◌≤◌, ◌+◌, ℕ, List, IfOk, IfErr, OnOk, ◌++◌};
ghost use Rattle.spp_book.specs.Jobs.{AreNeighbours, IsJoined, IsHandedBack, IsCopied};
ghost use Rattle.spp_jobs.specs.Names.{spell, surveys, parts_in, range_in};
ghost use Rattle.spp_jobs.specs.Surveys.{IsSurvey};

use crate::lists::{chained, make_room};
use spp_book::{Job, JoinRefused};
use spp_cut::Cut;
use spp_maxplus::Burdens;
use spp_summary::Summary;
use std::alloc::{AllocError, Global};
use std::collections::VecDeque;

/// What is told of some neighbouring parts of a trace.
#[derive(Drop)]
pub struct Survey {
    /// The summary of each part, in order.
    pub each: VecDeque<Summary>,
    /// The summary of all of them together.
    pub whole: Summary,
}

/// The job of summarising the parts of a cut trace.
#[derive(Drop)]
pub struct SurveyJob<'c, 't, 'a> {
    cut: &'c Cut<'t, 'a>,
    burdens: Burdens,
}

impl<'c, 't, 'a> SurveyJob<'c, 't, 'a> {
    /// The job of these parts, under these burdens.
    pub fn new(cut: &'c Cut<'t, 'a>, burdens: Burdens) -> Self
        ensures cut { result.cut.now ≡ cut.now }
        ensures burdens { result.burdens ≡ burdens }
    {
        SurveyJob { cut, burdens }
    }
}

impl<'c, 't, 'a> Job for SurveyJob<'c, 't, 'a> {
    type Content = Survey;

    ghost name = { λ j. spell (record { kind = surveys; cut = j.cut.now; burdens = j.burdens }) };

    ghost parts_of = { parts_in };

    ghost range_of = { range_in };

    ghost is_value = { IsSurvey };

    fn parts(&self) -> u32 {
        self.cut.parts().len() as u32
    }

    fn range(&self, number: u32) -> (u32, u32) {
        let part = &self.cut.parts()[number as usize];
        (part.first(), part.count())
    }

    /// The time is linear in the events of the part.
    fn run(&self, alloc: Global, number: u32) -> Result<Survey, AllocError> {
        let part = &self.cut.parts()[number as usize];
        let whole = Summary::summarise(alloc, part, self.burdens)?;
        let mut each = VecDeque::with_capacity(alloc, 1)?;
        // The copy is kept, since it has no room to spare; `whole` goes into a join soon.
        each.push_back(Summary::copy(alloc, &whole)?)?;
        Ok(Survey { each, whole })
    }

    /// The time is that of joining the two whole summaries, and of moving the shorter of the two lists.
    fn join(_alloc: Global, left: Survey, right: Survey) -> Result<Survey, JoinRefused<Survey>>
        requires { AreNeighbours parts_in IsSurvey left right }
        ensures joined { IfOk result (λ c. IsJoined parts_in IsSurvey left right c) }
        ensures refused { IfErr result (λ r. IsHandedBack IsSurvey left right r.left r.right) }
    {
        let mut left = left;
        let mut right = right;
        if make_room(&mut left.each, &mut right.each).is_err() {
            return Err(JoinRefused { left, right });
        }
        match Summary::join(left.whole, right.whole) {
            Ok(whole) => Ok(Survey {
                each: chained(left.each, right.each),
                whole,
            }),
            Err(refused) => Err(JoinRefused {
                left: Survey {
                    each: left.each,
                    whole: refused.left,
                },
                right: Survey {
                    each: right.each,
                    whole: refused.right,
                },
            }),
        }
    }

    fn copy(alloc: Global, content: &Survey) -> Result<Survey, AllocError>
        ensures { IfOk result (λ c. IsCopied IsSurvey content.now c) }
    {
        let (front, back) = content.each.as_slices();
        let mut each = VecDeque::with_capacity(alloc, content.each.len())?;
        push_copies(alloc, &mut each, front)?;
        push_copies(alloc, &mut each, back)?;
        Ok(Survey {
            each,
            whole: Summary::copy(alloc, &content.whole)?,
        })
    }
}

/// Adds copies of these summaries at the end.
fn push_copies(
    alloc: Global,
    each: &mut VecDeque<Summary>,
    summaries: &[Summary],
) -> Result<(), AllocError>
    ensures { OnOk result (each.new.items ≡ each.old.items ++ summaries.now) }
{
    for summary in summaries {
        each.push_back(Summary::copy(alloc, summary)?)?;
    }
    Ok(())
}
