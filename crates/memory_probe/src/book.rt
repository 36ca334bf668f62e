//! The calls of a book, of steps on one, and of a desk.

ghost use Rattle.std.specs.Prelude.{◌≡◌};
ghost use Rattle.spp_book.specs.Desks.{IsOf};

use super::Answer;
use book_tests::{ListJob, Listed};
use spp_book::{Book, CloseFault, Desk, Front, Naming, Pass, Step, World};
use std::alloc::{AllocError, Global};
use std::marker::Brand;
use std::sync::Wait;
use std::sync::ledger::Blank;

/// The numbers of the job; each is a part.
const NUMBERS: [u32; 3] = [5, 7, 9];

/// Puts a part into the book. Whatever is refused when it is joined, it is accepted.
fn put(
    alloc: Global,
    book: &mut Book<'_, ListJob<'_>>,
    job: &ListJob<'_>,
    number: u32,
) -> Result<bool, AllocError>
    requires { book.old.name ≡ job.now.numbers.now }
    ensures { book.new.name ≡ book.old.name }
{
    let piece = job.piece(alloc, number, number)?;
    Ok(book.accept(alloc, piece).is_ok())
}

/// Whether the front has three accepted parts, and the numbers of those that are joined.
fn is_front(front: &Front<Listed>) -> bool {
    let parts = front.parts as usize;
    let content = match &front.content {
        Some(listed) => parts <= NUMBERS.len() && listed.as_slice() == &NUMBERS[..parts],
        None => false,
    };
    content && front.accepted == 3
}

fn of_closing(closed: Result<Listed, CloseFault>) -> Answer {
    match closed {
        Ok(listed) if listed.as_slice() == NUMBERS.as_slice() => Answer::Good,
        Err(CloseFault::Memory) => Answer::Memory,
        _ => Answer::Other,
    }
}

/// A book that gets all parts, shows its front and is closed.
pub fn filled(alloc: Global) -> Result<Answer, AllocError> {
    let job = ListJob::new(&NUMBERS);
    let mut book = Book::new(alloc, &job)?;
    let one = put(alloc, &mut book, &job, 1)?;
    let two = put(alloc, &mut book, &job, 2)?;
    let zero = put(alloc, &mut book, &job, 0)?;
    if !(zero && one && two && is_front(&book.front(alloc)?)) {
        return Ok(Answer::Other);
    }
    Ok(of_closing(book.close(alloc)))
}

/// A world of one worker that does two steps; where an allocation fails for the answers, they are handed back.
pub fn stepped(alloc: Global) -> Result<Answer, AllocError> {
    let job = ListJob::new(&NUMBERS);
    let mut world = World::new(alloc, &job, 1)?;
    let steps = vec![in alloc; Step::Draw { worker: 0 }, Step::Stop { worker: 0 }]?;
    Ok(match world.run_steps(alloc, steps) {
        Ok(answers) if answers.len() == 2 => Answer::Good,
        Err(steps) if steps.len() == 2 => Answer::Memory,
        _ => Answer::Other,
    })
}

/// Puts a part at the desk.
fn put_at<N: Naming, R: Wait>(
    rt: &R,
    alloc: Global,
    desk: &Desk<'_, ListJob<'_>, N>,
    job: &ListJob<'_>,
    pass: &mut Pass<N>,
    number: u32,
) -> Result<bool, AllocError>
    requires of { IsOf pass.old desk.now }
    requires job { job.now.numbers.now ≡ N.job }
    ensures kept { pass.new ≡ record pass.old { share = pass.new.share } }
{
    let piece = job.piece(alloc, number, number)?;
    Ok(desk.put(rt, alloc, pass, piece).is_ok())
}

/// A desk that gets all parts, shows its front and is closed.
fn shared_as<N: Naming, R: Wait>(
    rt: &R,
    alloc: Global,
    blank: Blank,
    job: &ListJob<'_>,
) -> Result<Answer, AllocError>
    requires name { blank.name ≡ N.name }
    requires parts { (blank.parts ≡ N.parts) × (N.parts ≡ 1) }
    requires job { job.now.numbers.now ≡ N.job }
{
    let (desk, mut pass): (Desk<'_, ListJob<'_>, N>, Pass<N>) = Desk::new(alloc, blank, job, 1)?;
    let one = put_at(rt, alloc, &desk, job, &mut pass, 1)?;
    let two = put_at(rt, alloc, &desk, job, &mut pass, 2)?;
    let zero = put_at(rt, alloc, &desk, job, &mut pass, 0)?;
    let front = desk.front(rt, alloc, &mut pass)?;
    if !(zero && one && two && is_front(&front)) {
        return Ok(Answer::Other);
    }
    Ok(of_closing(Desk::close(alloc, desk, pass)))
}

/// The same at a desk of one worker.
pub fn shared<R: Wait>(rt: &R, alloc: Global) -> Result<Answer, AllocError> {
    shared_as::<Brand, R>(rt, alloc, Blank::new(1), &ListJob::new(&NUMBERS))
}
