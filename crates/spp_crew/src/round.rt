//! One round: all parts of a job, by a crew of workers.

ghost use Rattle.std.specs.Prelude.{◌≡◌, ◌<◌, ◌≤◌, [], IfOk, OnOk, OnErr};
ghost use Rattle.std.specs.Thread.{IsSync};
ghost use Rattle.spp_book.specs.Desks.{IsOf};
ghost use Rattle.spp_crew.specs.Rounds.{IsDrained, IsBehind};

use crate::gate::{Gate, Round};
use spp_book::{CloseFault, Desk, Job, Naming, Pass, Piece};
use std::alloc::{AllocError, Global};
use std::marker::Brand;
use std::sync::Wait;
use std::sync::ledger::Blank;
use std::thread::{Threads, join};

/// Why a worker stopped while there may have been numbers to draw.
#[derive(Clone, Copy)]
enum Stopped {
    /// An allocation failed.
    Memory,
    /// Its piece was handed back. No worker puts a part that another one drew, so none is; but contracts know what lies
    /// under a desk's lock by its type alone, and so no clause says it.
    Double,
}

impl From<AllocError> for Stopped {
    fn from(_refused: AllocError) -> Stopped {
        Stopped::Memory
    }
}

/// One worker: draws numbers until there are none, and puts what came of each part.
///
/// # Errors
///
/// Where an allocation failed, or a piece was handed back: it stops there, and fewer of its pieces were accepted than it drew
/// parts. No clause can say that memory was refused.
fn work<J: Job, N: Naming, R: Wait, G: Gate>(
    rt: &R,
    alloc: Global,
    desk: &Desk<'_, J, N>,
    job: &J,
    pass: &mut Pass<N>,
    round: Round,
    gate: &G,
) -> Result<(), Stopped>
    requires job { J.name job.now ≡ N.job }
    requires of { IsOf pass.old desk.now }
    requires drawn { pass.old.drawn ≡ [] }
    requires share { pass.old.share ≡ 0 }
    ensures kept { pass.new ≡ record pass.old { drawn = pass.new.drawn; share = pass.new.share } }
    ensures drained { OnOk result (IsDrained pass.new) }
    ensures stopped { OnErr result (IsBehind pass.new) }
{
    let draws = job.parts() + 1;
    for _draw in 0..draws {
        let Some(number) = desk.draw(pass) else {
            return Ok(());
        };
        gate.before(rt, round, number);
        let content = job.run(alloc, number)?;
        let (first, events) = job.range(number);
        let piece = Piece {
            number,
            first,
            events,
            content,
        };
        let Ok(()) = desk.put(rt, alloc, pass, piece) else {
            return Err(Stopped::Double);
        };
    }
    unreachable!()
}

/// The pass of several workers, and why one of them stopped, if one did.
type Worked<N> = (Pass<N>, Result<(), Stopped>);

/// Works alone where the pass stands for one worker. Else it splits the pass, and has one half of the workers on a new
/// thread and the other half on its own.
fn crew<J: Job + Sync, N: Naming + Send + Sync, R: Threads + Wait + Sync, G: Gate>(
    rt: &R,
    alloc: Global,
    desk: &Desk<'_, J, N>,
    job: &J,
    pass: Pass<N>,
    round: Round,
    gate: &G,
) -> Worked<N>
    requires job { J.name job.now ≡ N.job }
    requires of { IsOf pass desk.now }
    requires drawn { pass.drawn ≡ [] }
    requires share { pass.share ≡ 0 }
    ensures workers { result.0.workers ≡ pass.workers }
    ensures of { IsOf result.0 desk.now }
    ensures drained { OnOk result.1 (IsDrained result.0) }
    ensures stopped { OnErr result.1 (IsBehind result.0) }
{
    let workers = pass.workers();
    if workers < 2 {
        let mut pass = pass;
        let worked = work(rt, alloc, desk, job, &mut pass, round, gate);
        return (pass, worked);
    }
    let (mine, other) = desk.split(pass, workers / 2);
    let ((theirs, they_worked), (ours, we_worked)) = join(
        rt,
        move || -> Worked<N>
            requires { IsSync R.row × (J.name job.now ≡ N.job) × IsOf other desk.now × (other.drawn ≡ []) × (other.share ≡ 0) }
            ensures { (result.0.workers ≡ other.workers) × (result.0.table ≡ other.table) × (result.0.parts ≡ other.parts) × OnOk result.1 (IsDrained result.0) × OnErr result.1 (IsBehind result.0) }
        { crew(rt, alloc, desk, job, other, round, gate) },
        move || -> Worked<N>
            requires { IsSync R.row × (J.name job.now ≡ N.job) × IsOf mine desk.now × (mine.drawn ≡ []) × (mine.share ≡ 0) }
            ensures { (result.0.workers ≡ mine.workers) × (result.0.table ≡ mine.table) × (result.0.parts ≡ mine.parts) × OnOk result.1 (IsDrained result.0) × OnErr result.1 (IsBehind result.0) }
        { crew(rt, alloc, desk, job, mine, round, gate) },
    );
    (desk.rejoin(ours, theirs), we_worked.and(they_worked))
}

/// Makes a desk that the type `N` names, has the crew work at it, and closes it.
fn run_named<J: Job + Sync, N: Naming + Send + Sync, R: Threads + Wait + Sync, G: Gate>(
    rt: &R,
    alloc: Global,
    blank: Blank,
    job: &J,
    workers: u32,
    round: Round,
    gate: &G,
) -> Result<J::Content, AllocError>
    requires name { blank.name ≡ N.name }
    requires parts { blank.parts ≡ N.parts }
    requires job { J.name job.now ≡ N.job }
    requires workers { workers ≡ N.parts }
    requires some { 0 < workers }
    requires most { workers ≤ 64 }
    ensures { IfOk result (λ c. J.is_value (J.name job.now) 0 (J.parts_of (J.name job.now)) c) }
{
    let (desk, pass): (Desk<'_, J, N>, Pass<N>) = Desk::new(alloc, blank, job, workers)?;
    let (pass, worked) = crew(rt, alloc, &desk, job, pass, round, gate);
    match Desk::close(alloc, desk, pass) {
        Ok(content) => Ok(content),
        Err(CloseFault::Memory) => Err(AllocError),
        // A piece of each part is put unless a worker stops.
        Err(CloseFault::Missing { .. }) => match worked {
            Err(_) => Err(AllocError),
            Ok(()) => unreachable!(),
        },
    }
}

/// The job's value of all its parts, made by 1 to 64 workers: one on this thread, each other on a thread of its own. A
/// worker draws a part, calls the gate, does the part and puts the piece. Parts are done outside the book's lock, joins
/// under it. `round` is for the gate alone.
///
/// # Errors
///
/// Only where an allocation failed. A worker whose allocation fails stops, and the others go on; a join that was refused is
/// tried once more at the close. It's proved that of a worker that stops fewer pieces were accepted than it drew parts, and
/// that a part can be missing at the close only where one stopped. No clause can say that memory was refused there, or at a
/// join, nor that no piece of a worker comes back as a double. A thread that can't be started is no error: the thread that
/// was to start it does its share, behind its own.
pub fn run_round<J: Job + Sync, R: Threads + Wait + Sync, G: Gate>(
    rt: &R,
    alloc: Global,
    job: &J,
    workers: u32,
    round: Round,
    gate: &G,
) -> Result<J::Content, AllocError>
    requires some { 0 < workers }
    requires most { workers ≤ 64 }
    ensures { IfOk result (λ c. J.is_value (J.name job.now) 0 (J.parts_of (J.name job.now)) c) }
{
    run_named::<J, Brand, R, G>(
        rt,
        alloc,
        Blank::new(workers as u64),
        job,
        workers,
        round,
        gate,
    )
}
