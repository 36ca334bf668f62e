//! Gates that note what workers begin, and hold one of them.

use spp_crew::{Gate, Round};
use std::alloc::Global;
use std::sync::atomic::{AtomicBool, Ordering};
use std::sync::{Mutex, Wait};
use std::thread::yield_now;

/// How often a worker that is held looks for the others before it goes on in vain.
pub(crate) const LOOKS: u32 = 10_000_000;

/// A part that was begun in a round.
type Begun = (Round, u32);

/// Which worker is held, in each round, and until when.
#[derive(Clone, Copy)]
struct Hold {
    /// The worker of this part,
    part: u32,
    /// until these have begun: from this part on,
    from: u32,
    /// before this one, and without the held one.
    end: u32,
}

/// A gate that notes which parts are begun in which rounds, and may hold the worker of one part.
#[derive(Drop)]
pub(crate) struct TestGate {
    hold: Option<Hold>,
    begun: Mutex<Vec<Begun>>,
    /// Whether a worker was held in vain.
    vain: AtomicBool,
}

impl TestGate {
    /// A gate that holds nobody.
    pub(crate) fn open(alloc: Global) -> Self {
        TestGate {
            hold: None,
            begun: Mutex::new(Vec::new(alloc)),
            vain: AtomicBool::new(false),
        }
    }

    /// A gate that in each round holds the worker of `part` until the parts from number `from` up to, not including,
    /// `end` have begun too. After many looks in vain it lets all workers go.
    pub(crate) fn holding(alloc: Global, part: u32, from: u32, end: u32) -> Self {
        TestGate {
            hold: Some(Hold { part, from, end }),
            begun: Mutex::new(Vec::new(alloc)),
            vain: AtomicBool::new(false),
        }
    }

    /// Whether nobody was held in vain, and in each of these rounds, and in no others, so many parts were begun, each once.
    pub(crate) fn saw(self, rounds: &[Round], parts: u32) -> bool {
        let TestGate { begun, vain, .. } = self;
        let begun = begun.into_inner();
        let all = rounds.iter().all(|round| are_once(&begun, *round, parts));
        !vain.into_inner() && all && begun.len() == rounds.len().saturating_mul(parts as usize)
    }

    /// Notes a part that is begun. One for which an allocation fails is missing from what [`TestGate::saw`] tells.
    fn note<R: Wait>(&self, rt: &R, round: Round, part: u32) {
        let _ = self.begun.lock(rt).push((round, part));
    }

    /// Waits until the parts that are waited for have begun, or until a worker was held in vain.
    fn wait<R: Wait>(&self, rt: &R, round: Round, hold: Hold) {
        for _look in 0..LOOKS {
            if have_begun(&self.begun.lock(rt), round, hold) || self.vain.load(Ordering::SeqCst) {
                return;
            }
            yield_now();
        }
        self.vain.store(true, Ordering::SeqCst);
    }
}

impl Gate for TestGate {
    fn before<R: Wait>(&self, rt: &R, round: Round, part: u32) {
        self.note(rt, round, part);
        if let Some(hold) = self.hold {
            if hold.part == part {
                self.wait(rt, round, hold);
            }
        }
    }
}

/// Whether so many parts were begun once each in this round.
fn are_once(begun: &[Begun], round: Round, parts: u32) -> bool {
    let mut numbers = 0..parts;
    numbers.all(|part| is_once(begun, (round, part)))
}

/// Whether it was begun once.
fn is_once(begun: &[Begun], one: Begun) -> bool {
    begun.iter().filter(|other| **other == one).count() == 1
}

/// Whether the parts that are waited for have begun in this round.
fn have_begun(begun: &[Begun], round: Round, hold: Hold) -> bool {
    let mut numbers = hold.from..hold.end;
    numbers.all(|part| part == hold.part || begun.contains(&(round, part)))
}
