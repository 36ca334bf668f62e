//! Pieces put into a book, in whatever order.

ghost use Rattle.std.specs.Prelude.{◌≡◌, ◌<◌, ◌≤◌, length};

use crate::list_job::{ListJob, Listed};
use spp_book::{Book, CloseFault, Front, Refused, Why};
use std::alloc::{AllocError, Global};
use std::test::Fail;

/// Puts the piece of this number and first position into the book.
fn put(
    book: &mut Book<'_, ListJob<'_>>,
    alloc: Global,
    job: &ListJob<'_>,
    number: u32,
    first: u32,
) -> Result<Result<(), Refused<Listed>>, AllocError>
    requires { book.old.name ≡ job.now.numbers.now }
    ensures { book.new.name ≡ book.old.name }
{
    let piece = job.piece(alloc, number, first)?;
    Ok(book.accept(alloc, piece))
}

/// Whether the piece of this number and first position is handed back for this cause.
fn is_refused(
    book: &mut Book<'_, ListJob<'_>>,
    alloc: Global,
    job: &ListJob<'_>,
    number: u32,
    first: u32,
    why: Why,
) -> Result<bool, AllocError>
    requires { book.old.name ≡ job.now.numbers.now }
    ensures { book.new.name ≡ book.old.name }
{
    Ok(match put(book, alloc, job, number, first)? {
        Ok(()) => false,
        Err(refused) => {
            refused.why == why && refused.piece.number == number && refused.piece.first == first
        }
    })
}

/// Whether all these parts are accepted, in this order.
fn are_accepted(
    book: &mut Book<'_, ListJob<'_>>,
    alloc: Global,
    job: &ListJob<'_>,
    numbers: &[u32],
) -> Result<bool, AllocError>
    requires { book.old.name ≡ job.now.numbers.now }
    ensures { book.new.name ≡ book.old.name }
{
    for number in numbers {
        if put(book, alloc, job, *number, *number)?.is_err() {
            return Ok(false);
        }
    }
    Ok(true)
}

/// Whether the front has so many parts, with these numbers, of so many that were accepted.
fn is_front(front: &Front<Listed>, accepted: u32, numbers: &[u32]) -> bool {
    let content = match &front.content {
        Some(listed) => !numbers.is_empty() && listed.as_slice() == numbers,
        None => numbers.is_empty(),
    };
    content && front.accepted == accepted && front.parts as usize == numbers.len()
}

/// Whether the book closes with these numbers.
fn closes_with(book: Book<'_, ListJob<'_>>, alloc: Global, numbers: &[u32]) -> bool {
    book.close(alloc)
        .is_ok_and(|listed| listed.as_slice() == numbers)
}

#[test]
fn doubles_and_strangers_are_handed_back(rt: HostRuntime) -> Result<(), Fail> {
    let alloc = rt.alloc();
    let numbers = [5, 7, 9, 11];
    let job = ListJob::new(&numbers);
    let mut book = Book::new(alloc, &job)?;
    assert!(rt; are_accepted(&mut book, alloc, &job, &[0, 1, 2, 3])?);
    assert!(rt; is_refused(&mut book, alloc, &job, 2, 2, Why::Double)?);
    assert!(rt; is_refused(&mut book, alloc, &job, 9, 9, Why::Stranger)?);
    assert!(rt; is_refused(&mut book, alloc, &job, 2, 1, Why::Stranger)?);
    assert_eq!(rt; book.accepted(), 4);
    assert!(rt; closes_with(book, alloc, &numbers));
    Ok(())
}

#[test]
fn a_piece_of_more_events_is_a_stranger(rt: HostRuntime) -> Result<(), Fail> {
    let alloc = rt.alloc();
    let job = ListJob::new(&[5, 7]);
    let mut book = Book::new(alloc, &job)?;
    let mut piece = job.piece(alloc, 1, 1)?;
    piece.events = 2;
    let Err(refused) = book.accept(alloc, piece) else {
        panic!(rt; "it was accepted");
    };
    assert!(rt; refused.why == Why::Stranger && refused.piece.events == 2);
    assert!(rt; refused.piece.content.as_slice() == [7].as_slice());
    assert_eq!(rt; book.accepted(), 0);
    Ok(())
}

#[test]
fn the_front_is_what_is_joined_from_the_first_part_on(rt: HostRuntime) -> Result<(), Fail> {
    let alloc = rt.alloc();
    let job = ListJob::new(&[5, 7, 9, 11]);
    let mut book = Book::new(alloc, &job)?;
    assert!(rt; is_front(&book.front(alloc)?, 0, &[]));
    assert!(rt; are_accepted(&mut book, alloc, &job, &[2, 3])?);
    assert!(rt; is_front(&book.front(alloc)?, 2, &[]));
    assert!(rt; are_accepted(&mut book, alloc, &job, &[0])?);
    assert!(rt; is_front(&book.front(alloc)?, 3, &[5]));
    assert!(rt; are_accepted(&mut book, alloc, &job, &[1])?);
    assert!(rt; is_front(&book.front(alloc)?, 4, &[5, 7, 9, 11]));
    Ok(())
}

#[test]
fn a_refused_join_is_tried_again_at_the_close(rt: HostRuntime) -> Result<(), Fail> {
    let alloc = rt.alloc();
    let numbers = [5, 7, 9];
    let job = ListJob::new(&numbers).with_refusals(&[2], 1);
    let mut book = Book::new(alloc, &job)?;
    assert!(rt; are_accepted(&mut book, alloc, &job, &[1, 2, 0])?);
    assert!(rt; is_front(&book.front(alloc)?, 3, &[5, 7]));
    assert!(rt; closes_with(book, alloc, &numbers));
    Ok(())
}

#[test]
fn the_close_tries_every_join(rt: HostRuntime) -> Result<(), Fail> {
    let alloc = rt.alloc();
    let numbers = [5, 7, 9, 11, 13];
    // All joins of parts 1 and 3 are refused at first, so five runs lie beside each other.
    let job = ListJob::new(&numbers).with_refusals(&[1, 3], 2);
    let mut book = Book::new(alloc, &job)?;
    assert!(rt; are_accepted(&mut book, alloc, &job, &[0, 2, 4, 1, 3])?);
    assert!(rt; is_front(&book.front(alloc)?, 5, &[5]));
    assert!(rt; closes_with(book, alloc, &numbers));
    Ok(())
}

#[test]
fn a_refused_join_on_the_left_leaves_the_one_on_the_right(rt: HostRuntime) -> Result<(), Fail> {
    let alloc = rt.alloc();
    let job = ListJob::new(&[5, 7, 9, 11]).with_refusals(&[1], 1);
    let mut book = Book::new(alloc, &job)?;
    assert!(rt; are_accepted(&mut book, alloc, &job, &[2, 3, 0, 1])?);
    // Part 1 was joined with 2 and 3, so one join is left, which the close makes.
    assert!(rt; is_front(&book.front(alloc)?, 4, &[5]));
    assert!(rt; closes_with(book, alloc, &[5, 7, 9, 11]));
    Ok(())
}

#[test]
fn a_close_without_memory_says_so(rt: HostRuntime) -> Result<(), Fail> {
    let alloc = rt.alloc();
    let job = ListJob::new(&[5, 7, 9, 11]).with_refusals(&[1], 9);
    let mut book = Book::new(alloc, &job)?;
    assert!(rt; are_accepted(&mut book, alloc, &job, &[0, 1, 3])?);
    // A missing part comes before want of memory.
    assert_eq!(rt;
        book.close(alloc).err(),
        Some(CloseFault::Missing { number: 2 })
    );
    let mut book = Book::new(alloc, &job)?;
    assert!(rt; are_accepted(&mut book, alloc, &job, &[0, 1, 2, 3])?);
    assert_eq!(rt; book.close(alloc).err(), Some(CloseFault::Memory));
    Ok(())
}

#[test]
fn the_least_missing_part_is_told(rt: HostRuntime) -> Result<(), Fail> {
    let alloc = rt.alloc();
    let two = ListJob::new(&[5, 7]);
    let mut book = Book::new(alloc, &two)?;
    assert!(rt; are_accepted(&mut book, alloc, &two, &[1])?);
    assert_eq!(rt;
        book.close(alloc).err(),
        Some(CloseFault::Missing { number: 0 })
    );
    let five = ListJob::new(&[5, 7, 9, 11, 13]);
    let mut book = Book::new(alloc, &five)?;
    assert!(rt; are_accepted(&mut book, alloc, &five, &[3, 0, 1])?);
    assert_eq!(rt;
        book.close(alloc).err(),
        Some(CloseFault::Missing { number: 2 })
    );
    Ok(())
}

#[test]
fn pieces_come_in_any_order(rt: HostRuntime) -> Result<(), Fail> {
    let alloc = rt.alloc();
    let numbers = [5, 7, 9, 11, 13];
    let job = ListJob::new(&numbers);
    let orders = [
        [0, 1, 2, 3, 4],
        [4, 3, 2, 1, 0],
        [0, 2, 4, 1, 3],
        [1, 3, 0, 4, 2],
        [2, 0, 4, 3, 1],
    ];
    for order in &orders {
        let mut book = Book::new(alloc, &job)?;
        assert!(rt; are_accepted(&mut book, alloc, &job, order)?);
        assert!(rt; closes_with(book, alloc, &numbers));
    }
    Ok(())
}

/// The numbers from 0 to so many, the even ones first.
fn even_then_odd(alloc: Global, count: u32) -> Result<Vec<u32>, AllocError> {
    let half = count / 2;
    let mut order = Vec::new(alloc);
    for at in 0..count {
        order.push(if at < half {
            at * 2
        } else {
            (at - half) * 2 + 1
        })?;
    }
    Ok(order)
}

#[test]
fn even_parts_and_then_odd_ones(rt: HostRuntime) -> Result<(), Fail> {
    let alloc = rt.alloc();
    let numbers = even_then_odd(alloc, 65536)?;
    let order = even_then_odd(alloc, 65536)?;
    assert!(rt; numbers.len() == 65536);
    let job = ListJob::new(numbers.as_slice());
    let mut book = Book::new(alloc, &job)?;
    assert!(rt; are_accepted(&mut book, alloc, &job, order.as_slice())?);
    assert_eq!(rt; book.accepted(), 65536);
    assert!(rt; closes_with(book, alloc, numbers.as_slice()));
    Ok(())
}
