//! The calls that cut a trace, and the three jobs of its parts: each of them done, joined and copied.

ghost use Rattle.std.specs.Prelude.{List};
ghost use Rattle.spp_event.specs.declared.records.Event.{Event as EventValue};
ghost use Rattle.spp_frame.specs.Nesting.{AreEvents};
ghost use Rattle.spp_jobs.specs.Choices.{AreChoicesOf};
ghost use Rattle.spp_jobs.specs.Tables.{IsRun};
ghost use Rattle.spp_stack.specs.Parts.{AreEntriesOf};

use super::{Answer, of_fault, trace_in};
use spp_book::{Job, JoinRefused};
use spp_crew::{OpenGate, survey, tabled};
use spp_cut::{Cut, CutFault, Parts, cut_at, cut_even};
use spp_dag::{Choices, Figures};
use spp_event::{Event, trace_of};
use spp_frame::ProfileFault;
use spp_jobs::{PathJob, Pathed, Survey, SurveyJob, TableJob, Tabled, entries_of};
use spp_maxplus::Burdens;
use spp_path::{Under, settle};
use spp_stack::Entries;
use std::alloc::{AllocError, Global};
use std::sync::Wait;
use std::thread::Threads;

/// A child that the root frame goes on beside, and waits for.
const EVENTS: [Event; 7] = [
    Event::Strand { count: 1 },
    Event::Spawn { site: 0, func: 1 },
    Event::Strand { count: 10 },
    Event::Ret,
    Event::Strand { count: 4 },
    Event::Sync,
    Event::Strand { count: 2 },
];

/// What the run comes to where each burden is 3.
const FIGURES: Figures = Figures {
    work: 17,
    span: 13,
    burdened: 16,
};

/// A burden of 3 on each edge that bears one.
const THREE: Burdens = Burdens {
    continuation: 3,
    join: 3,
};

/// How the trace is cut.
#[derive(Clone, Copy)]
pub enum Cutting {
    /// Into two even parts: the second begins within the child.
    Even,
    /// Where the first part ends within the child.
    At,
}

/// What is asked of two parts.
#[derive(Clone, Copy)]
pub enum Task {
    /// How many events the second has.
    Parts,
    /// Their summaries, joined, and a copy of that.
    Summaries,
    /// Their shares in the table of the dag, and a copy of these.
    Tables,
    /// Both paths, settled.
    Paths,
    /// Their shares in the tables of both paths, and a copy of these.
    PathTables,
}

/// The calls, by name.
pub const CALLS: [(&str, Cutting, Task); 6] = [
    ("cut_even", Cutting::Even, Task::Parts),
    ("cut_at", Cutting::At, Task::Parts),
    ("summaries of parts", Cutting::At, Task::Summaries),
    ("tables of parts", Cutting::At, Task::Tables),
    ("settled paths", Cutting::At, Task::Paths),
    ("path tables of parts", Cutting::At, Task::PathTables),
];

/// Two contents that were joined.
#[derive(Drop)]
struct Joined<C> {
    content: C,
    /// The first join was refused, and the second one took what it had handed back.
    was_refused: bool,
}

/// The values of the first two parts of a job, joined; none where there are no two, or where a second join is refused.
fn first_two<J: Job>(alloc: Global, job: &J) -> Result<Option<Joined<J::Content>>, AllocError> {
    if job.parts() < 2 {
        return Ok(None);
    }
    let left = job.run(alloc, 0)?;
    let right = job.run(alloc, 1)?;
    let JoinRefused { left, right } = match J::join(alloc, left, right) {
        Ok(content) => {
            return Ok(Some(Joined {
                content,
                was_refused: false,
            }));
        }
        Err(refused) => refused,
    };
    let Ok(content) = J::join(alloc, left, right) else {
        return Ok(None);
    };
    Ok(Some(Joined {
        content,
        was_refused: true,
    }))
}

/// The first two parts of a job, joined and copied.
fn joined_and_copied<J: Job>(
    alloc: Global,
    job: &J,
) -> Result<Option<(Joined<J::Content>, J::Content)>, AllocError> {
    let Some(joined) = first_two(alloc, job)? else {
        return Ok(None);
    };
    let copy = J::copy(alloc, &joined.content)?;
    Ok(Some((joined, copy)))
}

/// What is told of a right content, by whether a join was refused before.
fn of_joined<C: Drop>(joined: &Joined<C>) -> Answer {
    if joined.was_refused {
        Answer::Memory
    } else {
        Answer::Good
    }
}

/// Whether this is told of the whole trace.
fn is_surveyed(told: &Survey) -> bool {
    told.each.len() == 2 && told.whole.first() == 0 && told.whole.finish() == Ok(FIGURES)
}

fn summarised(alloc: Global, cut: &Cut<'_, '_>) -> Result<Answer, AllocError> {
    let job = SurveyJob::new(cut, THREE);
    Ok(match joined_and_copied(alloc, &job)? {
        Some((joined, copy)) if is_surveyed(&joined.content) && is_surveyed(&copy) => {
            of_joined(&joined)
        }
        _ => Answer::Other,
    })
}

/// Whether this is told of the whole trace: a site has rows, and in the second part the child returns and joins.
fn is_tabled(told: &Tabled) -> bool {
    let returns = match told.choices.back() {
        Some(second) => second.ends.len() == 1 && second.joins.len() == 1,
        None => false,
    };
    returns && told.choices.len() == 2 && told.share.row_count() > 0
}

fn counted<R: Threads + Wait + Sync>(
    rt: &R,
    alloc: Global,
    cut: &Cut<'_, '_>,
) -> Result<Answer, ProfileFault> {
    let found = survey(rt, alloc, cut, 1, THREE, &OpenGate)?;
    let stacks = entries_of(alloc, cut, &found.summaries)?;
    let job = TableJob::new(cut, &stacks, THREE);
    Ok(match joined_and_copied(alloc, &job)? {
        Some((joined, copy)) if is_tabled(&joined.content) && is_tabled(&copy) => {
            of_joined(&joined)
        }
        _ => Answer::Other,
    })
}

fn settled<R: Threads + Wait + Sync>(
    rt: &R,
    alloc: Global,
    cut: &Cut<'_, '_>,
) -> Result<Answer, ProfileFault> {
    let found = survey(rt, alloc, cut, 1, THREE, &OpenGate)?;
    let stacks = entries_of(alloc, cut, &found.summaries)?;
    let Tabled { choices, .. } = tabled(rt, alloc, cut, &stacks, 1, THREE, &OpenGate)?;
    let choices = choices.into_vec();
    if stacks.parts() != 2 || choices.len() != 2 {
        return Ok(Answer::Other);
    }
    let path = settle(alloc, &stacks, &choices, Under::Zero)?;
    let burdened = settle(alloc, &stacks, &choices, Under::Burdens)?;
    let enters = path.entered(0) == [1].as_slice() && burdened.entered(0) == [1].as_slice();
    Ok(if enters { Answer::Good } else { Answer::Other })
}

/// Whether this is told of both paths, each of which enters the child: a site has rows.
fn is_pathed(told: &Pathed) -> bool {
    told.path.row_count() > 0 && told.burdened_path.row_count() > 0
}

/// What is answered about the rows on both paths, where these are the choices of the parts.
fn pathed(
    alloc: Global,
    cut: &Cut<'_, '_>,
    stacks: &Entries,
    choices: &[Choices],
    burdens: Burdens,
) -> Result<Answer, AllocError>
    requires run { IsRun cut.now }
    requires entries { AreEntriesOf cut.now burdens stacks.now }
    requires choices { (es : List EventValue) → AreEvents cut.now.trace.records es → AreChoicesOf es burdens cut.now.parts choices.now }
{
    // For what they state.
    let _parts = cut.parts();
    let path = settle(alloc, stacks, choices, Under::Zero)?;
    let burdened = settle(alloc, stacks, choices, Under::Burdens)?;
    let job = PathJob::new(cut, stacks, burdens, &path, &burdened);
    Ok(match joined_and_copied(alloc, &job)? {
        Some((joined, copy)) if is_pathed(&joined.content) && is_pathed(&copy) => {
            of_joined(&joined)
        }
        _ => Answer::Other,
    })
}

fn counted_on_paths<R: Threads + Wait + Sync>(
    rt: &R,
    alloc: Global,
    cut: &Cut<'_, '_>,
) -> Result<Answer, ProfileFault> {
    // For what they state.
    let _parts = cut.parts();
    let found = survey(rt, alloc, cut, 1, THREE, &OpenGate)?;
    let stacks = entries_of(alloc, cut, &found.summaries)?;
    let Tabled { choices, .. } = tabled(rt, alloc, cut, &stacks, 1, THREE, &OpenGate)?;
    let choices = choices.into_vec();
    Ok(pathed(alloc, cut, &stacks, &choices, THREE)?)
}

fn answer_of<R: Threads + Wait + Sync>(
    rt: &R,
    alloc: Global,
    cut: &Cut<'_, '_>,
    task: Task,
) -> Answer {
    let told = match task {
        Task::Parts => Ok(match cut.parts() {
            [first, second] if first.count() == 3 && second.count() == 4 => Answer::Good,
            _ => Answer::Other,
        }),
        Task::Summaries => summarised(alloc, cut).map_err(ProfileFault::from),
        Task::Tables => counted(rt, alloc, cut),
        Task::Paths => settled(rt, alloc, cut),
        Task::PathTables => counted_on_paths(rt, alloc, cut),
    };
    told.unwrap_or_else(of_fault)
}

/// What is answered about two parts of a run.
pub fn asked<R: Threads + Wait + Sync>(
    rt: &R,
    alloc: Global,
    cutting: Cutting,
    task: Task,
) -> Answer {
    let Ok(bytes) = trace_of(alloc, &EVENTS) else {
        return Answer::Memory;
    };
    let trace = match trace_in(alloc, bytes.as_slice()) {
        Ok(trace) => trace,
        Err(answer) => return answer,
    };
    let cut = match cutting {
        Cutting::Even => cut_even(alloc, &trace, Parts::new(2).unwrap_or_default()).map_err(
            |_| CutFault::Memory,
        ),
        Cutting::At => cut_at(alloc, &trace, &[3]),
    };
    match cut {
        Ok(cut) => answer_of(rt, alloc, &cut, task),
        Err(CutFault::Memory) => Answer::Memory,
        Err(_) => Answer::Other,
    }
}
