//! Pieces put at a desk.

ghost use Rattle.std.specs.Prelude.{◌≡◌, ◌<◌, ◌≤◌};
ghost use Rattle.spp_book.specs.Desks.{IsOf};

use crate::list_job::{ListJob, Listed};
use spp_book::{CloseFault, Desk, Front, Naming, Pass, Refused, Why};
use std::alloc::{AllocError, Global};
use std::marker::Brand;
use std::sync::Wait;
use std::sync::ledger::Blank;
use std::test::Fail;

/// Puts the piece of this number and first position at the desk.
fn put<N: Naming, R: Wait>(
    rt: &R,
    alloc: Global,
    desk: &Desk<'_, ListJob<'_>, N>,
    job: &ListJob<'_>,
    pass: &mut Pass<N>,
    piece: (u32, u32),
) -> Result<Result<(), Refused<Listed>>, AllocError>
    requires of { IsOf pass.old desk.now }
    requires job { job.now.numbers.now ≡ N.job }
    ensures kept { pass.new ≡ record pass.old { share = pass.new.share } }
{
    let (number, first) = piece;
    let piece = job.piece(alloc, number, first)?;
    Ok(desk.put(rt, alloc, pass, piece))
}

/// Puts these pieces, by their numbers and first positions, one after the other: why each was refused, if it was.
pub(crate) fn put_all<N: Naming, R: Wait>(
    rt: &R,
    alloc: Global,
    desk: &Desk<'_, ListJob<'_>, N>,
    job: &ListJob<'_>,
    pass: &mut Pass<N>,
    pieces: &[(u32, u32)],
) -> Result<Vec<Option<Why>>, AllocError>
    requires of { IsOf pass.old desk.now }
    requires job { job.now.numbers.now ≡ N.job }
    ensures kept { pass.new ≡ record pass.old { share = pass.new.share } }
{
    let mut refusals = Vec::new(alloc);
    for piece in pieces {
        let answer = put(rt, alloc, desk, job, pass, *piece)?;
        refusals.push(answer.err().map(|refused| refused.why))?;
    }
    Ok(refusals)
}

/// What became of pieces at a desk.
#[derive(Drop)]
struct Outcome {
    /// Why each piece was refused, if it was.
    refusals: Vec<Option<Why>>,
    /// How many parts its front had in the end, and how many were accepted.
    front: (u32, u32),
    /// The numbers of the front.
    joined: Option<Listed>,
    /// The numbers of all parts, or why there are none.
    closed: Result<Listed, CloseFault>,
}

/// Puts all these pieces, then looks at the front and closes.
fn at_named_desk<N: Naming, R: Wait>(
    rt: &R,
    alloc: Global,
    blank: Blank,
    job: &ListJob<'_>,
    pieces: &[(u32, u32)],
) -> Result<Outcome, AllocError>
    requires name { blank.name ≡ N.name }
    requires parts { (blank.parts ≡ N.parts) × (N.parts ≡ 1) }
    requires job { job.now.numbers.now ≡ N.job }
{
    let (desk, mut pass): (Desk<'_, ListJob<'_>, N>, Pass<N>) = Desk::new(alloc, blank, job, 1)?;
    let refusals = put_all(rt, alloc, &desk, job, &mut pass, pieces)?;
    let front = desk.front(rt, alloc, &mut pass)?;
    Ok(Outcome {
        refusals,
        front: (front.parts, front.accepted),
        joined: front.content,
        closed: Desk::close(alloc, desk, pass),
    })
}

/// What becomes of these pieces at a desk of its own.
fn at_desk<R: Wait>(
    rt: &R,
    alloc: Global,
    job: &ListJob<'_>,
    pieces: &[(u32, u32)],
) -> Result<Outcome, AllocError> {
    at_named_desk::<Brand, R>(rt, alloc, Blank::new(1), job, pieces)
}

/// Whether the numbers of the front are these.
fn has_joined(outcome: &Outcome, numbers: &[u32]) -> bool {
    outcome
        .joined
        .as_ref()
        .is_some_and(|listed| listed.as_slice() == numbers)
}

/// Whether the numbers of all parts are these.
fn has_closed(outcome: &Outcome, numbers: &[u32]) -> bool {
    outcome
        .closed
        .as_ref()
        .is_ok_and(|listed| listed.as_slice() == numbers)
}

#[test]
fn doubles_and_strangers_at_a_desk(rt: HostRuntime) -> Result<(), Fail> {
    let numbers = [5, 7, 9, 11];
    let job = ListJob::new(&numbers);
    let pieces = [(0, 0), (1, 1), (2, 2), (3, 3), (2, 2), (9, 9), (2, 1)];
    let told = at_desk(&rt, rt.alloc(), &job, &pieces)?;
    let double = Some(Why::Double);
    let stranger = Some(Why::Stranger);
    let refusals = [None, None, None, None, double, stranger, stranger];
    assert!(rt; told.refusals.as_slice() == refusals.as_slice());
    assert!(rt; told.front == (4, 4));
    assert!(rt; has_closed(&told, &numbers));
    Ok(())
}

#[test]
fn the_front_of_a_desk(rt: HostRuntime) -> Result<(), Fail> {
    let job = ListJob::new(&[5, 7, 9, 11]);
    let told = at_desk(&rt, rt.alloc(), &job, &[(2, 2), (3, 3)])?;
    assert!(rt; told.front == (0, 2) && told.joined.is_none());
    let told = at_desk(&rt, rt.alloc(), &job, &[(2, 2), (3, 3), (0, 0)])?;
    assert!(rt; told.front == (1, 3) && has_joined(&told, &[5]));
    assert!(rt; matches!(told.closed, Err(CloseFault::Missing { number: 1 })));
    let job = ListJob::new(&[5, 7, 9]).with_refusals(&[2], 1);
    let told = at_desk(&rt, rt.alloc(), &job, &[(1, 1), (2, 2), (0, 0)])?;
    assert!(rt; told.front == (2, 3) && has_joined(&told, &[5, 7]));
    assert!(rt; has_closed(&told, &[5, 7, 9]));
    Ok(())
}

/// What two passes of one desk are shown after both put pieces, and what the desk then closes with.
#[derive(Drop)]
struct Shown {
    mine: Front<Listed>,
    other: Front<Listed>,
    closed: Result<Listed, CloseFault>,
}

/// Two passes of one desk put these pieces, and each looks at the front. Then the desk is closed.
fn shown_at<N: Naming, R: Wait>(
    rt: &R,
    alloc: Global,
    blank: Blank,
    job: &ListJob<'_>,
    pieces: (&[(u32, u32)], &[(u32, u32)]),
) -> Result<Shown, AllocError>
    requires name { blank.name ≡ N.name }
    requires parts { (blank.parts ≡ N.parts) × (N.parts ≡ 2) }
    requires job { job.now.numbers.now ≡ N.job }
{
    let (first, second) = pieces;
    let (desk, pass): (Desk<'_, ListJob<'_>, N>, Pass<N>) = Desk::new(alloc, blank, job, 2)?;
    let (mut pass, mut other_pass) = desk.split(pass, 1);
    put_all(rt, alloc, &desk, job, &mut pass, first)?;
    put_all(rt, alloc, &desk, job, &mut other_pass, second)?;
    let mine = desk.front(rt, alloc, &mut pass)?;
    let other = desk.front(rt, alloc, &mut other_pass)?;
    let whole = desk.rejoin(pass, other_pass);
    Ok(Shown {
        mine,
        other,
        closed: Desk::close(alloc, desk, whole),
    })
}

/// What two passes of a desk of its own are shown after they put these pieces.
fn shown_to_two<R: Wait>(
    rt: &R,
    alloc: Global,
    job: &ListJob<'_>,
    pieces: (&[(u32, u32)], &[(u32, u32)]),
) -> Result<Shown, AllocError> {
    shown_at::<Brand, R>(rt, alloc, Blank::new(2), job, pieces)
}

/// Whether a front has these numbers, of so many accepted parts.
fn is_front(front: &Front<Listed>, numbers: &[u32], accepted: u32) -> bool {
    front.parts as usize == numbers.len()
        && front.accepted == accepted
        && front
            .content
            .as_ref()
            .is_some_and(|listed| listed.as_slice() == numbers)
}

#[test]
fn a_split_pass_is_shown_the_front_of_an_unfinished_desk(rt: HostRuntime) -> Result<(), Fail> {
    let job = ListJob::new(&[5, 7, 9, 11]);
    let told = shown_to_two(&rt, rt.alloc(), &job, (&[(0, 0)], &[(1, 1), (3, 3)]))?;
    assert!(rt; is_front(&told.mine, &[5, 7], 3) && is_front(&told.other, &[5, 7], 3));
    assert!(rt; matches!(told.closed, Err(CloseFault::Missing { number: 2 })));
    // The first pass has put nothing itself.
    let told = shown_to_two(&rt, rt.alloc(), &job, (&[], &[(3, 3), (0, 0)]))?;
    assert!(rt; is_front(&told.mine, &[5], 2) && is_front(&told.other, &[5], 2));
    assert!(rt; matches!(told.closed, Err(CloseFault::Missing { number: 1 })));
    Ok(())
}

#[test]
fn a_desk_tells_what_is_missing(rt: HostRuntime) -> Result<(), Fail> {
    let job = ListJob::new(&[5, 7]);
    let told = at_desk(&rt, rt.alloc(), &job, &[(1, 1)])?;
    assert!(rt; matches!(told.closed, Err(CloseFault::Missing { number: 0 })));
    let job = ListJob::new(&[5, 7, 9, 11, 13]);
    let told = at_desk(&rt, rt.alloc(), &job, &[(2, 2), (0, 0)])?;
    assert!(rt; matches!(told.closed, Err(CloseFault::Missing { number: 1 })));
    let job = ListJob::new(&[5, 7]).with_refusals(&[1], 9);
    let told = at_desk(&rt, rt.alloc(), &job, &[(1, 1), (0, 0)])?;
    assert!(rt; matches!(told.closed, Err(CloseFault::Memory)));
    Ok(())
}
