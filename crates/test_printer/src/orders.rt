//! How long a job takes whose parts are done on one thread and put into a book in rising, falling or shuffled order: for
//! bench/, which holds the orders beside each other.

ghost use Rattle.std.specs.Prelude.{◌≡◌, ◌<◌, IfSome};
ghost use Rattle.spp_stack.specs.Parts.{AreEntriesOf};

use spp_book::{Book, Job, Piece};
use spp_crew::{OpenGate, survey};
use spp_cut::{Cut, Parts, cut_even};
use spp_event::open_trace;
use spp_jobs::{SurveyJob, TableJob, entries_of};
use spp_maxplus::Burdens;
use spp_stack::Entries;
use std::alloc::Global;
use std::io;
use std::rt::Clock;
use std::sync::Wait;
use std::thread::Threads;
use std::time::Instant;

/// What edges bear.
const BURDENS: Burdens = Burdens {
    continuation: 15000,
    join: 15000,
};

/// An order of the parts.
#[derive(Clone, Copy)]
enum Order {
    Rising,
    Falling,
    Shuffled,
}

/// The part that comes at this place of the order, where there are so many.
fn part_at(order: Order, place: u32, parts: u32) -> u32
    requires { place < parts }
    ensures { result < parts }
{
    match order {
        Order::Rising => place,
        Order::Falling => parts - 1 - place,
        // 48,271 is a prime number, so each part comes once, unless there are just as many.
        Order::Shuffled => (u64::from(place) * 48271 % u64::from(parts)) as u32,
    }
}

/// Does a part and puts what came of it into the book; none where that is refused.
fn put<J: Job>(alloc: Global, book: &mut Book<'_, J>, job: &J, number: u32) -> Option<()>
    requires number { number < J.parts_of (J.name job.now) }
    requires name { book.old.name ≡ J.name job.now }
    ensures { book.new.name ≡ book.old.name }
{
    let content = job.run(alloc, number).ok()?;
    let (first, events) = job.range(number);
    let piece = Piece {
        number,
        first,
        events,
        content,
    };
    book.accept(alloc, piece).ok()
}

/// The milliseconds in which the job is done in this order; none where it has none, or an allocation failed.
fn milliseconds<R: Clock, J: Job>(rt: &R, alloc: Global, job: &J, order: Order) -> Option<u128> {
    let start = Instant::now(rt).ok()?;
    let parts = job.parts();
    let mut book = Book::new(alloc, job).ok()?;
    for place in 0..parts {
        put(alloc, &mut book, job, part_at(order, place, parts))?;
    }
    book.close(alloc).ok()?;
    Some(start.elapsed(rt).ok()?.as_millis())
}

/// The milliseconds in which the parts are done in this order and what came of each is kept, where none are joined: less
/// than any book can take that comes to hold most of them apart.
fn milliseconds_apart<R: Clock, J: Job>(
    rt: &R,
    alloc: Global,
    job: &J,
    order: Order,
) -> Option<u128> {
    let start = Instant::now(rt).ok()?;
    let parts = job.parts();
    let mut contents = Vec::new(alloc);
    for place in 0..parts {
        let content = job.run(alloc, part_at(order, place, parts)).ok()?;
        contents.push(content).ok()?;
    }
    Some(start.elapsed(rt).ok()?.as_millis())
}

/// Prints these for each order, behind the name of the job. Whether there were any.
fn print_job<R: Clock + Print, J: Job>(
    rt: &R,
    alloc: Global,
    name: &str,
    job: &J,
) -> io::Result<bool> {
    let rising = milliseconds(rt, alloc, job, Order::Rising);
    let falling = milliseconds(rt, alloc, job, Order::Falling);
    let shuffled = milliseconds(rt, alloc, job, Order::Shuffled);
    let (Some(rising), Some(falling), Some(shuffled)) = (rising, falling, shuffled) else {
        return Ok(false);
    };
    println!(rt; "{name}: rising {rising} ms, falling {falling} ms, shuffled {shuffled} ms")?;
    let rising = milliseconds_apart(rt, alloc, job, Order::Rising);
    let shuffled = milliseconds_apart(rt, alloc, job, Order::Shuffled);
    let (Some(rising), Some(shuffled)) = (rising, shuffled) else {
        return Ok(false);
    };
    println!(rt; "{name} without joins: rising {rising} ms, shuffled {shuffled} ms")?;
    Ok(true)
}

/// The stacks where the parts begin.
fn stacks_of<R: Threads + Wait + Sync>(rt: &R, alloc: Global, cut: &Cut<'_, '_>) -> Option<Entries>
    ensures { IfSome result (λ stacks. AreEntriesOf cut.now BURDENS stacks) }
{
    let found = survey(rt, alloc, cut, 1, BURDENS, &OpenGate).ok()?;
    entries_of(alloc, cut, &found.summaries).ok()
}

/// The same of the job of the table of the dag.
fn print_tables<R: Clock + Print + Threads + Wait + Sync>(
    rt: &R,
    alloc: Global,
    cut: &Cut<'_, '_>,
) -> io::Result<bool> {
    let Some(stacks) = stacks_of(rt, alloc, cut) else {
        return Ok(false);
    };
    print_job(rt, alloc, "tables", &TableJob::new(cut, &stacks, BURDENS))
}

/// Prints a line for the job of the summaries, and one for that of the table of the dag. Whether there are any.
pub(crate) fn print<R: Clock + Print + Threads + Wait + Sync>(
    rt: &R,
    alloc: Global,
    bytes: &[u8],
    parts: Parts,
) -> io::Result<bool> {
    let Ok(trace) = open_trace(alloc, bytes) else {
        return Ok(false);
    };
    let Ok(cut) = cut_even(alloc, &trace, parts) else {
        return Ok(false);
    };
    let job = SurveyJob::new(&cut, BURDENS);
    Ok(print_job(rt, alloc, "summaries", &job)? && print_tables(rt, alloc, &cut)?)
}
