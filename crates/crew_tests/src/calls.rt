//! The calls that workers answer, and how many answer them.

ghost use Rattle.std.specs.Prelude.{◌<◌, ◌≤◌, IfOk};
ghost use Rattle.spp_stack.specs.Parts.{AreEntriesOf};

use spp_crew::{
    Gate, OpenGate, Round, burdened_marks, figures, marks, profile, profile_in_rounds, survey,
};
use spp_cut::Cut;
use spp_frame::ProfileFault;
use spp_jobs::entries_of;
use spp_maxplus::Burdens;
use spp_stack::Entries;
use std::alloc::{AllocError, Global};
use std::sync::Wait;
use std::thread::Threads;

/// How many workers answer.
#[derive(Clone, Copy, Debug)]
pub(crate) enum Crew {
    /// The test's own thread alone.
    One,
    Two,
    /// As many as there may be: 64.
    Most,
}

impl Crew {
    pub(crate) fn workers(self) -> u32
        ensures some { 0 < result }
        ensures most { result ≤ 64 }
    {
        match self {
            Crew::One => 1,
            Crew::Two => 2,
            Crew::Most => 64,
        }
    }
}

/// All crews.
pub(crate) const CREWS: [Crew; 3] = [Crew::One, Crew::Two, Crew::Most];

/// The crews in which two threads and more work beside each other.
pub(crate) const THREADED: [Crew; 2] = [Crew::Two, Crew::Most];

/// A burden of 3 on each edge that bears one.
pub(crate) const THREE: Burdens = Burdens {
    continuation: 3,
    join: 3,
};

/// A call that workers answer.
#[derive(Clone, Copy, Debug)]
pub(crate) enum Call {
    Figures,
    Profile,
    ProfileInRounds,
    Marks,
    BurdenedMarks,
}

/// All calls.
pub(crate) const EVERY_CALL: [Call; 5] = [
    Call::Figures,
    Call::Profile,
    Call::ProfileInRounds,
    Call::Marks,
    Call::BurdenedMarks,
];

impl Call {
    /// The rounds in which it is answered.
    pub(crate) fn rounds(self) -> &'static [Round] {
        match self {
            Call::Figures => &[Round::Summaries],
            Call::Profile => &[Round::Profile],
            Call::ProfileInRounds => &[Round::Summaries, Round::Tables, Round::Paths],
            Call::Marks | Call::BurdenedMarks => {
                &[Round::Summaries, Round::Tables, Round::Marks]
            }
        }
    }

    /// The round in which a bad event is found.
    pub(crate) fn first_round(self) -> &'static [Round] {
        match self {
            Call::Profile => &[Round::Profile],
            Call::Figures | Call::ProfileInRounds | Call::Marks | Call::BurdenedMarks => {
                &[Round::Summaries]
            }
        }
    }
}

/// Has the call answered, with burdens of 3.
///
/// # Errors
///
/// What the call answers in place of numbers.
pub(crate) fn ask<R: Threads + Wait + Sync, G: Gate>(
    rt: &R,
    alloc: Global,
    cut: &Cut<'_, '_>,
    call: Call,
    crew: Crew,
    gate: &G,
) -> Result<(), ProfileFault> {
    let workers = crew.workers();
    match call {
        Call::Figures => {
            figures(rt, alloc, cut, workers, THREE, gate)?;
            Ok(())
        }
        Call::Profile => {
            profile(rt, alloc, cut, workers, THREE, gate)?;
            Ok(())
        }
        Call::ProfileInRounds => {
            profile_in_rounds(rt, alloc, cut, workers, THREE, gate)?;
            Ok(())
        }
        Call::Marks => {
            let (told, _bytes) = marks_of(rt, alloc, cut, crew, gate)?;
            told
        }
        Call::BurdenedMarks => {
            let (told, _bytes) = burdened_marks_of(rt, alloc, cut, crew, THREE, gate)?;
            told
        }
    }
}

/// What `marks` answers, and the bytes that it leaves where each was 7.
///
/// # Errors
///
/// Where an allocation failed.
pub(crate) fn marks_of<R: Threads + Wait + Sync, G: Gate>(
    rt: &R,
    alloc: Global,
    cut: &Cut<'_, '_>,
    crew: Crew,
    gate: &G,
) -> Result<(Result<(), ProfileFault>, Vec<u8>), AllocError> {
    let mut bytes = vec![in alloc; 7; cut.trace().count() as usize]?;
    let told = marks(rt, alloc, cut, crew.workers(), gate, &mut bytes);
    Ok((told, bytes))
}

/// The same of `burdened_marks`.
///
/// # Errors
///
/// Where an allocation failed.
pub(crate) fn burdened_marks_of<R: Threads + Wait + Sync, G: Gate>(
    rt: &R,
    alloc: Global,
    cut: &Cut<'_, '_>,
    crew: Crew,
    burdens: Burdens,
    gate: &G,
) -> Result<(Result<(), ProfileFault>, Vec<u8>), AllocError> {
    let mut bytes = vec![in alloc; 7; cut.trace().count() as usize]?;
    let told = burdened_marks(rt, alloc, cut, crew.workers(), burdens, gate, &mut bytes);
    Ok((told, bytes))
}

/// The open frames where the parts of a cut trace begin, and where it ends, with burdens of 3.
///
/// # Errors
///
/// The first bad event, or want of memory.
pub(crate) fn stacks_of<R: Threads + Wait + Sync>(
    rt: &R,
    alloc: Global,
    cut: &Cut<'_, '_>,
    crew: Crew,
) -> Result<Entries, ProfileFault>
    ensures { IfOk result (λ stacks. AreEntriesOf cut.now THREE stacks) }
{
    stacks_under(rt, alloc, cut, crew, THREE)
}

/// The same under these burdens.
///
/// # Errors
///
/// The first bad event, or want of memory.
pub(crate) fn stacks_under<R: Threads + Wait + Sync>(
    rt: &R,
    alloc: Global,
    cut: &Cut<'_, '_>,
    crew: Crew,
    burdens: Burdens,
) -> Result<Entries, ProfileFault>
    ensures { IfOk result (λ stacks. AreEntriesOf cut.now burdens stacks) }
{
    let found = survey(rt, alloc, cut, crew.workers(), burdens, &OpenGate)?;
    Ok(entries_of(alloc, cut, &found.summaries)?)
}
