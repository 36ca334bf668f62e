//! Steps of workers on one book.

ghost use Rattle.std.specs.Prelude.{◌≡◌, IfOk};
ghost use Rattle.spp_book.specs.Worlds.{MayStep, MayRun};
ghost use Rattle.book_tests.specs.Lists.{list_parts, list_range, IsRange};

use crate::list_job::{ListJob, Listed};
use spp_book::{Answer, CloseFault, Step, Why, World};
use std::alloc::{AllocError, Global};
use std::test::Fail;

/// What a test does next.
#[derive(Clone, Copy)]
enum Next {
    Draw(u32),
    /// A worker puts the piece of this number and first position.
    Put(u32, u32, u32),
    Stop(u32),
}

/// The step, with a piece of this job.
fn step_of(alloc: Global, job: &ListJob<'_>, next: Next) -> Result<Step<Listed>, AllocError>
    ensures { IfOk result (λ s. MayStep (list_parts job.now.numbers.now) (list_range job.now.numbers.now) (IsRange job.now.numbers.now) s) }
{
    Ok(match next {
        Next::Draw(worker) => Step::Draw { worker },
        Next::Put(worker, number, first) => Step::Put {
            worker,
            piece: job.piece(alloc, number, first)?,
        },
        Next::Stop(worker) => Step::Stop { worker },
    })
}

/// All these steps, with pieces of this job.
fn steps_of(
    alloc: Global,
    job: &ListJob<'_>,
    nexts: &[Next],
) -> Result<Vec<Step<Listed>>, AllocError>
    ensures { IfOk result (λ v. MayRun (list_parts job.now.numbers.now) (list_range job.now.numbers.now) (IsRange job.now.numbers.now) v.items) }
{
    let mut steps = Vec::new(alloc);
    for next in nexts {
        let step = step_of(alloc, job, *next)?;
        steps.push(step)?;
    }
    Ok(steps)
}

/// What an answer comes to.
#[derive(Clone, Copy, Debug, PartialEq, Eq)]
enum Told {
    Drawn(Option<u32>),
    Accepted,
    /// The piece of this number and first position came back.
    Refused(u32, u32, Why),
    Stopped,
    Ended,
}

fn kind_of(answer: &Answer<Listed>) -> Told {
    match answer {
        Answer::Drawn(number) => Told::Drawn(*number),
        Answer::Accepted => Told::Accepted,
        Answer::Refused(refused) => {
            Told::Refused(refused.piece.number, refused.piece.first, refused.why)
        }
        Answer::Stopped => Told::Stopped,
        Answer::Ended => Told::Ended,
    }
}

/// What the answers to these steps come to, from where the world is.
fn told_by(
    alloc: Global,
    world: &mut World<'_, ListJob<'_>>,
    job: &ListJob<'_>,
    nexts: &[Next],
) -> Result<Vec<Told>, AllocError>
    requires { world.old.book.name ≡ job.now.numbers.now }
{
    let steps = steps_of(alloc, job, nexts)?;
    let Ok(answers) = world.run_steps(alloc, steps) else {
        return Err(AllocError);
    };
    let mut list = Vec::new(alloc);
    for answer in &answers {
        list.push(kind_of(answer))?;
    }
    Ok(list)
}

/// Whether a new world with so many workers answers these steps so, and its book then closes with these numbers, or
/// else tells that this part is missing.
fn are_told(
    alloc: Global,
    job: &ListJob<'_>,
    workers: u32,
    steps: &[(Next, Told)],
    closes: Result<&[u32], u32>,
) -> Result<bool, AllocError> {
    let mut world = World::new(alloc, job, workers)?;
    let mut nexts = Vec::new(alloc);
    let mut wanted = Vec::new(alloc);
    for (next, told) in steps {
        nexts.push(*next)?;
        wanted.push(*told)?;
    }
    let list = told_by(alloc, &mut world, job, nexts.as_slice())?;
    let closed = match (world.into_book().close(alloc), closes) {
        (Ok(listed), Ok(numbers)) => listed.as_slice() == numbers,
        (Err(fault), Err(number)) => fault == CloseFault::Missing { number },
        _ => false,
    };
    Ok(closed && list.as_slice() == wanted.as_slice())
}

#[test]
fn two_workers_and_two_parts(rt: HostRuntime) -> Result<(), Fail> {
    let numbers = [5, 7];
    let steps = [
        (Next::Draw(0), Told::Drawn(Some(0))),
        (Next::Draw(1), Told::Drawn(Some(1))),
        (Next::Draw(0), Told::Drawn(None)),
        (Next::Draw(0), Told::Ended),
        (Next::Put(1, 1, 1), Told::Accepted),
        (Next::Put(0, 1, 1), Told::Refused(1, 1, Why::Double)),
        (Next::Stop(1), Told::Stopped),
        (Next::Put(1, 0, 0), Told::Ended),
        (Next::Draw(1), Told::Ended),
        (Next::Draw(2), Told::Ended),
        (Next::Put(0, 0, 0), Told::Accepted),
    ];
    assert!(rt; are_told(rt.alloc(), &ListJob::new(&numbers), 2, &steps, Ok(&numbers))?);
    Ok(())
}

#[test]
fn doubles_and_strangers_among_the_steps(rt: HostRuntime) -> Result<(), Fail> {
    let numbers = [5, 7, 9, 11];
    let steps = [
        (Next::Put(0, 0, 0), Told::Accepted),
        (Next::Put(0, 1, 1), Told::Accepted),
        (Next::Put(0, 2, 2), Told::Accepted),
        (Next::Put(0, 3, 3), Told::Accepted),
        (Next::Put(0, 2, 2), Told::Refused(2, 2, Why::Double)),
        (Next::Put(0, 9, 9), Told::Refused(9, 9, Why::Stranger)),
        (Next::Put(0, 2, 1), Told::Refused(2, 1, Why::Stranger)),
    ];
    assert!(rt; are_told(rt.alloc(), &ListJob::new(&numbers), 1, &steps, Ok(&numbers))?);
    assert!(rt; are_told(rt.alloc(), &ListJob::new(&numbers), 1, &steps[..2], Err(2))?);
    assert!(rt;
        are_told(
            rt.alloc(),
            &ListJob::new(&numbers),
            0,
            &[(Next::Draw(0), Told::Ended)],
            Err(0)
        )?
    );
    Ok(())
}

#[test]
fn the_book_of_a_world_has_its_front(rt: HostRuntime) -> Result<(), Fail> {
    let alloc = rt.alloc();
    let job = ListJob::new(&[5, 7, 9, 11]);
    let mut world = World::new(alloc, &job, 1)?;
    told_by(
        alloc,
        &mut world,
        &job,
        &[Next::Put(0, 2, 2), Next::Put(0, 3, 3)],
    )?;
    let front = world.into_book().front(alloc)?;
    assert!(rt; front.parts == 0 && front.accepted == 2 && front.content.is_none());
    let mut world = World::new(alloc, &job, 1)?;
    told_by(
        alloc,
        &mut world,
        &job,
        &[Next::Put(0, 2, 2), Next::Put(0, 3, 3), Next::Put(0, 0, 0)],
    )?;
    let front = world.into_book().front(alloc)?;
    assert!(rt; front.parts == 1 && front.accepted == 3);
    assert!(rt;
        front
            .content
            .is_some_and(|listed| listed.as_slice() == [5].as_slice())
    );
    Ok(())
}
