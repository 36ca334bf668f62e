//! How often, beside which others, and after which calls of the gate the parts of a job are run.

ghost use Rattle.std.specs.Prelude.{◌≡◌, ◌<◌, ◌≤◌, ◌+◌, ℕ, List, IfOk, IfErr, length};
ghost use Rattle.spp_book.specs.Jobs.{AreNeighbours, IsJoined, IsHandedBack, IsCopied};
ghost use Rattle.book_tests.specs.Lists.{list_parts, list_range, IsRange};

use crate::calls::{CREWS, Crew};
use crate::gates::LOOKS;
use book_tests::{ListJob, Listed};
use spp_book::{Job, JoinRefused};
use spp_crew::{Gate, Round, run_round};
use std::alloc::{AllocError, Global};
use std::sync::Wait;
use std::sync::atomic::{AtomicBool, AtomicU64, Ordering};
use std::test::Fail;
use std::thread::{Threads, yield_now};

/// A list of numbers, each a part, that counts how often each is run. It is its own gate.
#[derive(Drop)]
struct CountingJob<'a> {
    list: ListJob<'a>,
    /// How often the gate was called for each part.
    admitted: Vec<AtomicU64>,
    /// How often each part was begun.
    begun: Vec<AtomicU64>,
    /// Whether a part was begun before the gate was called for it.
    early: AtomicBool,
    /// Whether the run of each part goes on only when all parts have begun.
    together: bool,
    /// The part, if any, whose run ends as if an allocation failed.
    refused: Option<u32>,
    /// Whether a run waited in vain.
    vain: AtomicBool,
}

/// So many counts, each 0.
fn zeros(alloc: Global, count: usize) -> Result<Vec<AtomicU64>, AllocError> {
    let mut zeros = Vec::new(alloc);
    for _count in 0..count {
        zeros.push(AtomicU64::new(0))?;
    }
    Ok(zeros)
}

impl<'a> CountingJob<'a> {
    /// The job of 1 to 65,536 numbers. If they are run together, no run goes on before all have begun.
    fn new(
        alloc: Global,
        numbers: &'a [u32],
        together: bool,
        refused: Option<u32>,
    ) -> Result<Self, AllocError>
        requires some { 0 < length numbers.now }
        requires most { length numbers.now ≤ 65536 }
    {
        Ok(CountingJob {
            list: ListJob::new(numbers),
            admitted: zeros(alloc, numbers.len())?,
            begun: zeros(alloc, numbers.len())?,
            early: AtomicBool::new(false),
            together,
            refused,
            vain: AtomicBool::new(false),
        })
    }

    /// Whether each part was run once, after the gate was called for it, and none waited in vain.
    fn is_run_once(&self) -> bool {
        let vain = self.vain.load(Ordering::SeqCst);
        !vain
            && !self.early.load(Ordering::SeqCst)
            && self
                .begun
                .iter()
                .all(|count| count.load(Ordering::SeqCst) == 1)
    }

    /// Notes that a part begins, and whether the gate was called for it before.
    fn begin(&self, number: u32) {
        let at = number as usize;
        if let (Some(admitted), Some(begun)) = (self.admitted.get(at), self.begun.get(at)) {
            let before = begun.fetch_add(1, Ordering::SeqCst);
            if admitted.load(Ordering::SeqCst) <= before {
                self.early.store(true, Ordering::SeqCst);
            }
        }
    }

    /// Waits until all parts have begun, or until a run waited in vain.
    fn wait(&self) {
        for _look in 0..LOOKS {
            let all = self
                .begun
                .iter()
                .all(|count| count.load(Ordering::SeqCst) > 0);
            if all || self.vain.load(Ordering::SeqCst) {
                return;
            }
            yield_now();
        }
        self.vain.store(true, Ordering::SeqCst);
    }
}

impl<'a> Gate for CountingJob<'a> {
    fn before<R: Wait>(&self, _rt: &R, _round: Round, part: u32) {
        if let Some(admitted) = self.admitted.get(part as usize) {
            admitted.fetch_add(1, Ordering::SeqCst);
        }
    }
}

impl<'a> Job for CountingJob<'a> {
    type Content = Listed;

    ghost name = { λ j. j.list.numbers.now };

    ghost parts_of = { list_parts };

    ghost range_of = { list_range };

    ghost is_value = { IsRange };

    fn parts(&self) -> u32 {
        self.list.parts()
    }

    fn range(&self, number: u32) -> (u32, u32) {
        self.list.range(number)
    }

    fn run(&self, alloc: Global, number: u32) -> Result<Listed, AllocError> {
        self.begin(number);
        if self.together {
            self.wait();
        }
        if self.refused == Some(number) {
            return Err(AllocError);
        }
        self.list.run(alloc, number)
    }

    fn join(alloc: Global, left: Listed, right: Listed) -> Result<Listed, JoinRefused<Listed>>
        requires { AreNeighbours list_parts IsRange left right }
        ensures joined { IfOk result (λ c. IsJoined list_parts IsRange left right c) }
        ensures refused { IfErr result (λ r. IsHandedBack IsRange left right r.left r.right) }
    {
        ListJob::join(alloc, left, right)
    }

    fn copy(alloc: Global, content: &Listed) -> Result<Listed, AllocError>
        ensures { IfOk result (λ c. IsCopied IsRange content.now c) }
    {
        ListJob::copy(alloc, content)
    }
}

/// Whether a round runs each part once, after it called the gate, and gives all numbers in order.
fn round_is_right<R: Threads + Wait + Sync>(
    rt: &R,
    alloc: Global,
    numbers: &[u32],
    together: bool,
    crew: Crew,
) -> Result<bool, AllocError>
    requires some { 0 < length numbers.now }
    requires most { length numbers.now ≤ 65536 }
{
    let job = CountingJob::new(alloc, numbers, together, None)?;
    let listed = run_round(rt, alloc, &job, crew.workers(), Round::Summaries, &job)?;
    Ok(listed.as_slice() == numbers && job.is_run_once())
}

#[test]
fn each_part_is_run_once(rt: HostRuntime) -> Result<(), Fail> {
    for crew in CREWS {
        let numbers = [0, 1, 2, 3, 4, 5, 6];
        assert!(rt;
            round_is_right(&rt, rt.alloc(), &numbers, false, crew)?,
            "{crew:?}"
        );
    }
    Ok(())
}

#[test]
fn parts_are_run_beside_each_other(rt: HostRuntime) -> Result<(), Fail> {
    let two = [0, 1];
    assert!(rt; round_is_right(&rt, rt.alloc(), &two, true, Crew::Two)?);
    let seven = [0, 1, 2, 3, 4, 5, 6];
    assert!(rt; round_is_right(&rt, rt.alloc(), &seven, true, Crew::Most)?);
    // As many parts as workers: each worker has a thread of its own.
    assert!(rt; round_is_right(&rt, rt.alloc(), &[7; 64], true, Crew::Most)?);
    Ok(())
}

/// How many of seven parts are begun, each once at most, in a round that fails since the run of part 3 is refused.
fn begun_beside_a_refusal<R: Threads + Wait + Sync>(
    rt: &R,
    alloc: Global,
    crew: Crew,
) -> Result<Option<usize>, AllocError> {
    let numbers = [0, 1, 2, 3, 4, 5, 6];
    let job = CountingJob::new(alloc, &numbers, false, Some(3))?;
    let failed = run_round(rt, alloc, &job, crew.workers(), Round::Summaries, &job).is_err();
    let counts = &job.begun;
    let once = counts.iter().all(|count| count.load(Ordering::SeqCst) <= 1);
    let begun = counts
        .iter()
        .filter(|count| count.load(Ordering::SeqCst) == 1);
    let begun = begun.count();
    Ok((failed && once).then_some(begun))
}

#[test]
fn a_worker_that_is_refused_stops_alone(rt: HostRuntime) -> Result<(), Fail> {
    // Alone it leaves the parts behind the refused one; another worker does them.
    assert_eq!(rt;
        begun_beside_a_refusal(&rt, rt.alloc(), Crew::One)?,
        Some(4)
    );
    assert_eq!(rt;
        begun_beside_a_refusal(&rt, rt.alloc(), Crew::Two)?,
        Some(7)
    );
    Ok(())
}
