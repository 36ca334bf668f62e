//! Two threads at one desk.

ghost use Rattle.std.specs.Prelude.{◌≡◌, ◌<◌, ◌≤◌};
ghost use Rattle.std.specs.Thread.{IsSync};
ghost use Rattle.spp_book.specs.Desks.{IsOf, IsOpen};

use crate::desk::put_all;
use crate::list_job::{ListJob, Listed};
use spp_book::{CloseFault, Desk, Naming, Pass, Why};
use std::alloc::{AllocError, Global};
use std::marker::Brand;
use std::sync::Wait;
use std::sync::ledger::Blank;
use std::test::Fail;
use std::thread::{Threads, join};

/// Draws until no number is left, at most 1,001 times: the numbers in the order of the draws.
fn draw_all<N: Naming>(
    alloc: Global,
    desk: &Desk<'_, ListJob<'_>, N>,
    pass: &mut Pass<N>,
) -> Result<Vec<u32>, AllocError>
    requires of { IsOf pass.old desk.now }
    requires open { IsOpen pass.old }
    ensures kept { pass.new ≡ record pass.old { drawn = pass.new.drawn } }
{
    let mut numbers = Vec::new(alloc);
    for _turn in 0..=1000 {
        let Some(number) = desk.draw(pass) else {
            break;
        };
        numbers.push(number)?;
    }
    Ok(numbers)
}

/// What a thread that draws brings back.
type Draws<N> = (Pass<N>, Result<Vec<u32>, AllocError>);

/// One thread's draws.
fn draws<N: Naming>(alloc: Global, desk: &Desk<'_, ListJob<'_>, N>, pass: Pass<N>) -> Draws<N>
    requires of { IsOf pass desk.now }
    requires open { IsOpen pass }
    ensures kept { result.0 ≡ record pass { drawn = result.0.drawn } }
{
    let mut pass = pass;
    let numbers = draw_all(alloc, desk, &mut pass);
    (pass, numbers)
}

/// The draws of two threads beside each other.
fn both_draw<N: Naming + Send + Sync, R: Threads>(
    rt: &R,
    alloc: Global,
    desk: &Desk<'_, ListJob<'_>, N>,
    mine: Pass<N>,
    other: Pass<N>,
) -> (Draws<N>, Draws<N>)
    requires mine { IsOf mine desk.now × IsOpen mine }
    requires other { IsOf other desk.now × IsOpen other }
    ensures mine { result.0.0 ≡ record mine { drawn = result.0.0.drawn } }
    ensures other { result.1.0 ≡ record other { drawn = result.1.0.drawn } }
{
    join(
        rt,
        move || -> Draws<N>
            requires { IsOf mine desk.now × IsOpen mine }
            ensures { result.0 ≡ record mine { drawn = result.0.drawn } }
        { draws(alloc, desk, mine) },
        move || -> Draws<N>
            requires { IsOf other desk.now × IsOpen other }
            ensures { result.0 ≡ record other { drawn = result.0.drawn } }
        { draws(alloc, desk, other) },
    )
}

/// What two threads drew.
#[derive(Drop)]
struct Drawn {
    mine: Vec<u32>,
    other: Vec<u32>,
    /// Whether both passes are finished.
    finished: bool,
    /// Why the desk gave no value.
    fault: Option<CloseFault>,
}

/// Two threads draw from a desk until nothing is left.
fn drawn_at<N: Naming + Send + Sync, R: Threads>(
    rt: &R,
    alloc: Global,
    blank: Blank,
    job: &ListJob<'_>,
) -> Result<Drawn, AllocError>
    requires name { blank.name ≡ N.name }
    requires parts { (blank.parts ≡ N.parts) × (N.parts ≡ 2) }
    requires job { job.now.numbers.now ≡ N.job }
{
    let (desk, pass): (Desk<'_, ListJob<'_>, N>, Pass<N>) = Desk::new(alloc, blank, job, 2)?;
    let (mine, other) = desk.split(pass, 1);
    let ((mine, numbers), (other, others)) = both_draw(rt, alloc, &desk, mine, other);
    let finished = mine.finished() && other.finished();
    let whole = desk.rejoin(mine, other);
    let fault = Desk::close(alloc, desk, whole).err();
    Ok(Drawn {
        mine: numbers?,
        other: others?,
        finished,
        fault,
    })
}

/// What two threads draw from the parts of this job.
fn drawn_by_two<R: Threads>(rt: &R, alloc: Global, job: &ListJob<'_>) -> Result<Drawn, AllocError> {
    drawn_at::<Brand, R>(rt, alloc, Blank::new(2), job)
}

/// Notes these numbers among the flags; false where one is noted already or there is no flag of it.
fn note_all(flags: &mut [bool], numbers: &[u32]) -> bool {
    for number in numbers {
        match flags.get_mut(*number as usize) {
            Some(flag) if !*flag => *flag = true,
            _ => return false,
        }
    }
    true
}

#[test]
fn two_threads_draw_each_number_once(rt: HostRuntime) -> Result<(), Fail> {
    let alloc = rt.alloc();
    let numbers = [0; 1000];
    let drawn = drawn_by_two(&rt, alloc, &ListJob::new(&numbers))?;
    let mut flags = [false; 1000];
    assert!(rt; note_all(&mut flags, drawn.mine.as_slice()));
    assert!(rt; note_all(&mut flags, drawn.other.as_slice()));
    assert_eq!(rt; drawn.mine.len() + drawn.other.len(), 1000);
    assert!(rt; drawn.finished);
    assert_eq!(rt; drawn.fault, Some(CloseFault::Missing { number: 0 }));
    Ok(())
}

/// What a thread that puts pieces brings back: why each was refused, if it was.
type Puts<N> = (Pass<N>, Result<Vec<Option<Why>>, AllocError>);

/// One thread's pieces, by their numbers and first positions.
fn puts<N: Naming, R: Wait>(
    rt: &R,
    alloc: Global,
    desk: &Desk<'_, ListJob<'_>, N>,
    job: &ListJob<'_>,
    pass: Pass<N>,
    pieces: &[(u32, u32)],
) -> Puts<N>
    requires of { IsOf pass desk.now }
    requires job { job.now.numbers.now ≡ N.job }
    ensures kept { result.0 ≡ record pass { share = result.0.share } }
{
    let mut pass = pass;
    let refusals = put_all(rt, alloc, desk, job, &mut pass, pieces);
    (pass, refusals)
}

/// The pieces of two threads beside each other.
fn both_put<N: Naming + Send + Sync, R: Threads + Wait + Sync>(
    rt: &R,
    alloc: Global,
    desk: &Desk<'_, ListJob<'_>, N>,
    job: &ListJob<'_>,
    passes: (Pass<N>, Pass<N>),
    pieces: (&[(u32, u32)], &[(u32, u32)]),
) -> (Puts<N>, Puts<N>)
    requires mine { IsOf passes.0 desk.now }
    requires other { IsOf passes.1 desk.now }
    requires job { job.now.numbers.now ≡ N.job }
    ensures mine { result.0.0 ≡ record passes.0 { share = result.0.0.share } }
    ensures other { result.1.0 ≡ record passes.1 { share = result.1.0.share } }
{
    let (mine, other) = passes;
    let (first, second) = pieces;
    join(
        rt,
        move || -> Puts<N>
            requires { IsSync R.row × IsOf mine desk.now × (job.now.numbers.now ≡ N.job) }
            ensures { result.0 ≡ record mine { share = result.0.share } }
        { puts(rt, alloc, desk, job, mine, first) },
        move || -> Puts<N>
            requires { IsSync R.row × IsOf other desk.now × (job.now.numbers.now ≡ N.job) }
            ensures { result.0 ≡ record other { share = result.0.share } }
        { puts(rt, alloc, desk, job, other, second) },
    )
}

/// What became of the pieces of two threads.
#[derive(Drop)]
struct Filled {
    mine: Vec<Option<Why>>,
    other: Vec<Option<Why>>,
    /// How many parts the front had then, and how many were accepted.
    front: (u32, u32),
    /// The numbers of all parts, or why there are none.
    closed: Result<Listed, CloseFault>,
}

/// Two threads put these pieces at a desk.
fn filled_at<N: Naming + Send + Sync, R: Threads + Wait + Sync>(
    rt: &R,
    alloc: Global,
    blank: Blank,
    job: &ListJob<'_>,
    pieces: (&[(u32, u32)], &[(u32, u32)]),
) -> Result<Filled, AllocError>
    requires name { blank.name ≡ N.name }
    requires parts { (blank.parts ≡ N.parts) × (N.parts ≡ 2) }
    requires job { job.now.numbers.now ≡ N.job }
{
    let (desk, pass): (Desk<'_, ListJob<'_>, N>, Pass<N>) = Desk::new(alloc, blank, job, 2)?;
    let passes = desk.split(pass, 1);
    let ((mut pass, mine), (second, other)) = both_put(rt, alloc, &desk, job, passes, pieces);
    let front = desk.front(rt, alloc, &mut pass)?;
    let whole = desk.rejoin(pass, second);
    let closed = Desk::close(alloc, desk, whole);
    Ok(Filled {
        mine: mine?,
        other: other?,
        front: (front.parts, front.accepted),
        closed,
    })
}

/// What becomes of the pieces of two threads at a desk for this job.
fn filled_by_two<R: Threads + Wait + Sync>(
    rt: &R,
    alloc: Global,
    job: &ListJob<'_>,
    pieces: (&[(u32, u32)], &[(u32, u32)]),
) -> Result<Filled, AllocError> {
    filled_at::<Brand, R>(rt, alloc, Blank::new(2), job, pieces)
}

#[test]
fn two_threads_put_doubles_and_strangers(rt: HostRuntime) -> Result<(), Fail> {
    let numbers = [5, 7, 9, 11];
    let job = ListJob::new(&numbers);
    let good = [(0, 0), (1, 1), (2, 2), (3, 3)];
    let bad = [(2, 2), (9, 9), (2, 1)];
    let told = filled_by_two(&rt, rt.alloc(), &job, (&good, &bad))?;
    // One of the two pieces of part 2 is the double, whichever came later.
    let double = Some(Why::Double);
    let stranger = Some(Why::Stranger);
    let first = told.other.as_slice() == [None, stranger, stranger].as_slice()
        && told.mine.as_slice() == [None, None, double, None].as_slice();
    let second = told.other.as_slice() == [double, stranger, stranger].as_slice()
        && told.mine.as_slice() == [None, None, None, None].as_slice();
    assert!(rt; first || second);
    assert!(rt; told.front == (4, 4));
    assert!(rt;
        told.closed
            .is_ok_and(|listed| listed.as_slice() == numbers.as_slice())
    );
    Ok(())
}
