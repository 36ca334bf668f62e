//! The parts of each job, put into a book in several orders.

ghost use Rattle.std.specs.Prelude.{◌≡◌, ℕ, List, IfSome};
ghost use Rattle.spp_event.specs.declared.records.Event.{Event as EventValue};
ghost use Rattle.spp_frame.specs.Nesting.{AreEvents};
ghost use Rattle.spp_jobs.specs.Choices.{AreChoicesOf};
ghost use Rattle.spp_jobs.specs.Paths.{IsPathed};
ghost use Rattle.spp_jobs.specs.Tables.{IsRun, IsTabled};
ghost use Rattle.spp_stack.specs.Parts.{AreEntriesOf};

use crate::answers::lines_of;
use crate::calls::{Crew, THREE, stacks_of};
use crate::choices::{Wanted, are_choices};
use crate::traces::singly;
use crate::worked::WAITED;
use spp_book::{Book, Front, Job, Piece};
use spp_crew::{OpenGate, tabled};
use spp_cut::Cut;
use spp_dag::{Choice, Choices, End, Figures};
use spp_event::{open_trace, trace_of};
use spp_frame::ProfileFault;
use spp_jobs::{PathJob, Pathed, Survey, SurveyJob, TableJob, Tabled};
use spp_maxplus::Burdens;
use spp_path::{Under, settle};
use spp_site::Table;
use spp_stack::Entries;
use spp_summary::Summary;
use std::alloc::{AllocError, Global};
use std::sync::Wait;
use std::test::Fail;
use std::thread::Threads;

/// The orders in which the nine parts of a run are put: rising, falling, the even ones first, and shuffled.
const ORDERS: [[u32; 9]; 5] = [
    [0, 1, 2, 3, 4, 5, 6, 7, 8],
    [8, 7, 6, 5, 4, 3, 2, 1, 0],
    [0, 2, 4, 6, 8, 1, 3, 5, 7],
    [4, 0, 8, 2, 6, 1, 7, 3, 5],
    [5, 3, 7, 6, 1, 8, 2, 0, 4],
];

/// Puts what comes of a part into the book; false where that is refused, or there is no such part.
fn put<J: Job>(
    alloc: Global,
    book: &mut Book<'_, J>,
    job: &J,
    number: u32,
) -> Result<bool, AllocError>
    requires { book.old.name ≡ J.name job.now }
    ensures { book.new.name ≡ book.old.name }
{
    if number >= job.parts() {
        return Ok(false);
    }
    let content = job.run(alloc, number)?;
    let (first, events) = job.range(number);
    let piece = Piece {
        number,
        first,
        events,
        content,
    };
    Ok(book.accept(alloc, piece).is_ok())
}

/// The value of a job whose parts are put in this order, and a copy of it, made before the book is closed; none where a part
/// is refused or missing, or an allocation failed.
fn closed<J: Job>(alloc: Global, job: &J, order: &[u32]) -> Option<(J::Content, J::Content)>
    ensures value { IfSome result (λ c. J.is_value (J.name job.now) 0 (J.parts_of (J.name job.now)) c.0) }
    ensures copy { IfSome result (λ c. (end : ℕ) × J.is_value (J.name job.now) 0 end c.1) }
{
    let mut book = Book::new(alloc, job).ok()?;
    for number in order {
        if !put(alloc, &mut book, job, *number).ok()? {
            return None;
        }
    }
    let Front { content, .. } = book.front(alloc).ok()?;
    let copy = content?;
    Some((book.close(alloc).ok()?, copy))
}

/// What a summary tells: where its range begins, its work, and how many returns and frames it leaves unmatched.
type Told = (u32, u128, usize, usize);

fn told_by(summary: &Summary) -> Told {
    (
        summary.first(),
        summary.work(),
        summary.return_count(),
        summary.frame_count(),
    )
}

/// What the summaries of the nine parts tell.
const SUMMARIES: [Told; 9] = [
    (0, 0, 0, 1),
    (1, 0, 0, 1),
    (2, 3, 0, 0),
    (3, 0, 1, 0),
    (4, 1, 0, 0),
    (5, 0, 1, 0),
    (6, 2, 0, 0),
    (7, 0, 0, 0),
    (8, 1, 0, 0),
];

/// The figures of the run.
const FIGURES: Figures = Figures {
    work: 7,
    span: 4,
    burdened: 10,
};

/// Whether a survey tells just this of each part, and the figures of all of them together.
fn is_surveyed(told: &Survey) -> bool {
    let mut wanted = SUMMARIES.iter();
    let each = told
        .each
        .iter()
        .all(|summary| wanted.next() == Some(&told_by(summary)));
    each && wanted.next().is_none() && told.whole.first() == 0 && told.whole.finish() == Ok(FIGURES)
}

/// Whether all orders give the survey of a cut trace.
fn surveys_close(alloc: Global, cut: &Cut<'_, '_>) -> Option<bool> {
    let job = SurveyJob::new(cut, THREE);
    for order in &ORDERS {
        let (told, copy) = closed(alloc, &job, order)?;
        if !is_surveyed(&told) || !is_surveyed(&copy) {
            return Some(false);
        }
    }
    Some(true)
}

/// Whether the rows of a share are those of the run on the whole dag, without what the root frame adds itself, and the
/// choices are those of its parts; none where an allocation failed.
fn is_tabled(alloc: Global, told: &Tabled) -> Option<bool>
    requires { (name : List ℕ) × ((end : ℕ) × IsTabled name 0 end told.now) }
{
    let rows = [[0, 3, 0, 0, 0, 0, 0, 0], [2, 4, 1, 4, 3, 2, 7, 6]];
    let joins = [
        Choice {
            at: 5,
            taken: Some(1),
        },
        Choice {
            at: 7,
            taken: Some(0),
        },
    ];
    let wanted = Wanted {
        ends: &[End { at: 3, spawn: 1 }, End { at: 5, spawn: 0 }],
        joins: &joins,
        burdened: &joins,
    };
    let table = Table::from_share(alloc, &told.share).ok()?;
    Some(lines_of(&table) == rows && are_choices(&told.choices, 9, &wanted))
}

/// Whether all orders give the table and the choices of a cut trace with these stacks.
fn tables_close(alloc: Global, cut: &Cut<'_, '_>, stacks: &Entries) -> Option<bool>
    requires { AreEntriesOf cut.now THREE stacks.now }
{
    let job = TableJob::new(cut, stacks, THREE);
    for order in &ORDERS {
        let (told, copy) = closed(alloc, &job, order)?;
        if !is_tabled(alloc, &told)? || !is_tabled(alloc, &copy)? {
            return Some(false);
        }
    }
    Some(true)
}

/// Whether the rows of both shares are those of the run on its paths, without what the root frame adds itself; none where
/// an allocation failed.
fn is_pathed(alloc: Global, told: &Pathed) -> Option<bool>
    requires { (name : List ℕ) × ((end : ℕ) × IsPathed name 0 end told.now) }
{
    let rows = [[0, 1, 0, 0, 0, 0, 0, 0], [2, 3, 1, 4, 3, 2, 7, 6]];
    let path = Table::from_share(alloc, &told.path).ok()?;
    let burdened_path = Table::from_share(alloc, &told.burdened_path).ok()?;
    Some(lines_of(&path) == rows && lines_of(&burdened_path) == rows)
}

/// Whether all orders give the tables on both paths of a cut trace with these stacks and choices.
fn paths_close(
    alloc: Global,
    cut: &Cut<'_, '_>,
    stacks: &Entries,
    choices: &[Choices],
    burdens: Burdens,
) -> Result<Option<bool>, AllocError>
    requires run { IsRun cut.now }
    requires entries { AreEntriesOf cut.now burdens stacks.now }
    requires choices { (es : List EventValue) → AreEvents cut.now.trace.records es → AreChoicesOf es burdens cut.now.parts choices.now }
{
    // For what they state.
    let _parts = cut.parts();
    let path = settle(alloc, stacks, choices, Under::Zero)?;
    let burdened = settle(alloc, stacks, choices, Under::Burdens)?;
    let job = PathJob::new(cut, stacks, burdens, &path, &burdened);
    Ok(paths_are_right(alloc, &job))
}

/// Whether all orders give the tables on both paths.
fn paths_are_right(alloc: Global, job: &PathJob<'_, '_, '_>) -> Option<bool> {
    for order in &ORDERS {
        let (told, copy) = closed(alloc, job, order)?;
        if !is_pathed(alloc, &told)? || !is_pathed(alloc, &copy)? {
            return Some(false);
        }
    }
    Some(true)
}

/// Which job.
#[derive(Clone, Copy, Debug)]
enum Kind {
    Surveys,
    Tables,
    Paths,
}

/// Whether all orders give the right value of that job of a cut trace.
fn job_closes<R: Threads + Wait + Sync>(
    rt: &R,
    alloc: Global,
    cut: &Cut<'_, '_>,
    kind: Kind,
) -> Result<Option<bool>, ProfileFault> {
    let _parts = cut.parts();
    let stacks = stacks_of(rt, alloc, cut, Crew::Two)?;
    match kind {
        Kind::Surveys => Ok(surveys_close(alloc, cut)),
        Kind::Tables => Ok(tables_close(alloc, cut, &stacks)),
        Kind::Paths => {
            let Tabled { choices, .. } = tabled(rt, alloc, cut, &stacks, 2, THREE, &OpenGate)?;
            let choices = choices.into_vec();
            Ok(paths_close(alloc, cut, &stacks, &choices, THREE)?)
        }
    }
}

/// Whether they do for the run in parts of one event; none where an allocation failed.
fn run_closes<R: Threads + Wait + Sync>(rt: &R, alloc: Global, kind: Kind) -> Option<bool> {
    let bytes = trace_of(alloc, &WAITED).ok()?;
    let trace = open_trace(alloc, &bytes).ok()?;
    let cut = singly(alloc, &trace)?;
    job_closes(rt, alloc, &cut, kind).ok()?
}

#[test]
fn the_order_of_parts_does_not_show(rt: HostRuntime) -> Result<(), Fail> {
    for kind in [Kind::Surveys, Kind::Tables, Kind::Paths] {
        assert_eq!(rt; run_closes(&rt, rt.alloc(), kind), Some(true), "{kind:?}");
    }
    Ok(())
}
