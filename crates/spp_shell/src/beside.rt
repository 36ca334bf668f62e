//! Reading on in a thread of its own, while this one goes over what came.
ghost use Rattle.std.specs.Thread.{IsSync};
ghost use Rattle.std.specs.Prelude.{◌≡◌, ◌+◌, ◌≤◌, ◌<◌, ◌^◌, ◌++◌, ℕ, List, length, take, IfOk, IfErr};
ghost use Rattle.spp_event.specs.Places.{IsJoint};
ghost use Rattle.spp_event.specs.Recordings.{count_in};
ghost use Rattle.spp_shell.specs.BlockReads.{IsNextBlock, IsNoBlock};
ghost use Rattle.spp_shell.specs.Devices.{giving_of};
ghost use Rattle.spp_shell.specs.Inputs.{IsInputRefused, NoLine};
ghost use Rattle.spp_shell.specs.RecordStreams.{CanFollow, HasFollowed};
ghost use Rattle.spp_shell.specs.Streams.{HasRead};

use crate::block_read::{NextBlock, read_block};
use crate::came::Came;
use crate::input::refusal_of_read;
use crate::place::Place;
use crate::reading::ReadFault;
use crate::records::Records;
use crate::refusal::Refusal;
use crate::room::copy_to_front;
use crate::source::Source;
use spp_event::Version;
use std::alloc::AllocError;
use std::sync::Wait;
use std::thread::{Threads, join};

/// Whole events that came of a trace.
#[derive(Drop)]
pub(crate) struct WholeEvents {
    /// How they are spelled.
    pub(crate) version: Version,
    /// Their bytes, and others behind them.
    pub(crate) bytes: Vec<u8>,
    /// How many bytes they have.
    pub(crate) len: usize,
    /// How many events they are.
    pub(crate) count: u32,
    /// They came piecemeal: see [`NextBlock`].
    pub(crate) piecemeal: bool,
    ghost held: { len ≤ length bytes.items },
}

/// Where an input is read on.
#[derive(Drop)]
pub(crate) struct ReadingOn {
    /// What came behind the events that are gone over.
    pub(crate) rest: Vec<u8>,
    /// In how many reads all came.
    pub(crate) reads: u64,
    /// How many bytes of the input came before the rest.
    pub(crate) before: u64,
    /// How many bytes the next block has, or some more.
    pub(crate) due: usize,
    /// Room for them, while the bytes of the last block are still needed.
    pub(crate) spare: Vec<u8>,
    ghost within: { before + length rest.items ≤ 2 ^ 33 },
    ghost turns: { reads < 2 ^ 33 },
}

/// Records behind some events more, and what came of the input behind these.
#[derive(Drop)]
pub(crate) struct Followed<V: Records> {
    pub(crate) records: V,
    /// Room for the bytes of another block.
    pub(crate) spare: Vec<u8>,
    pub(crate) next: NextBlock,
}

/// What a thread does, with what was lent to it.
trait Task {
    type Output;

    ghost can_run: { Self → Type 0 };

    ghost run_gives: { Self → Self.Output → Type 0 };

    fn run(self) -> Self::Output
        requires { can_run self }
        ensures { run_gives self result };
}

/// The reading of the next block of an input.
#[derive(Drop)]
struct Reading<'s, S: Source> {
    source: &'s mut S,
    came: Came,
    before: u64,
    due: usize,
}

impl<'s, S: Source> Task for Reading<'s, S> {
    type Output = (&'s mut S, Result<NextBlock, ReadFault>);

    ghost can_run = { λ t. t.before + t.came.filled ≤ 2 ^ 33 };

    ghost run_gives = { λ t r. (r.0.ghost_name ≡ t.source.ghost_name)
        × IfOk r.1 (λ next. IsNextBlock S.answered S.failed S.failures t.before t.due t.came.reads (take t.came.filled t.came.bytes.items) t.source.now next r.0.now)
        × IfErr r.1 (λ fault. IsNoBlock S.answered S.failed S.failures t.before t.came.reads (take t.came.filled t.came.bytes.items) t.source.now fault r.0.now) };

    fn run(self) -> (&'s mut S, Result<NextBlock, ReadFault>) {
        let Reading {
            source,
            came,
            before,
            due,
        } = self;
        let read = read_block(source, came, before, due);
        (source, read)
    }
}

/// Has a new thread do a task while this one calls `here`. Where none can be started, this one does the task as well.
fn run_both<R: Threads, T: Task<Output = A> + Send + Drop, G: FnOnce() -> B, A: Send, B>(
    rt: &R,
    task: T,
    here: G,
) -> (A, B)
    requires { T.can_run task × G.pre here }
    ensures { T.run_gives task result.0 × G.post here result.1 }
{
    join(
        rt,
        move || -> A
            requires { T.can_run task }
            ensures { T.run_gives task result }
        { task.run() },
        here,
    )
}

/// Does nothing, but by this use of a returned reference the borrow checker knows which parameter lent it.
fn take_back<S>(source: &mut S)
    ensures { source.new ≡ source.old }
{}

/// What `records` show behind these events as well, which this thread goes over, and the next block, which a thread of its own
/// reads meanwhile.
fn follow_while_reading<V: Records, R: Threads + Wait + Sync, S: Source + Send>(
    rt: &R,
    records: V,
    events: WholeEvents,
    source: &mut S,
    rest: Came,
    before: u64,
    due: usize,
) -> (
    Result<NextBlock, ReadFault>,
    Result<(V, Vec<u8>), AllocError>,
)
    requires can { CanFollow V.seen_by V.has_seen events.version records events.count (take events.len events.bytes.items) }
    requires few { before + rest.filled ≤ 2 ^ 33 }
    ensures followed { IfOk result.1 (λ r. HasFollowed V.seen_by V.has_seen events.version records events.count (take events.len events.bytes.items) r.0) }
    ensures next { IfOk result.0 (λ next. IsNextBlock S.answered S.failed S.failures before due rest.reads (take rest.filled rest.bytes.items) source.old next source.new) }
    ensures none { IfErr result.0 (λ fault. IsNoBlock S.answered S.failed S.failures before rest.reads (take rest.filled rest.bytes.items) source.old fault source.new) }
{
    let WholeEvents {
        version,
        bytes,
        len,
        count,
        ..
    } = events;
    let follow = move || -> Result<(V, Vec<u8>), AllocError>
        requires { IsSync R.row × (len ≤ length bytes.items) × CanFollow V.seen_by V.has_seen version records count (take len bytes.items) }
        ensures { IfOk result (λ r. HasFollowed V.seen_by V.has_seen version records count (take len bytes.items) r.0) }
    { records.followed_by(rt, version, bytes, len, count) };
    let reading = Reading {
        source,
        came: rest,
        before,
        due,
    };
    let ((source, read), went) = run_both(rt, reading, follow);
    take_back(source);
    (read, went)
}

/// As [`follow`], where a thread of its own reads.
fn follow_beside<V: Records, R: Threads + Wait + Sync, S: Source + Send>(
    rt: &R,
    place: Place,
    records: V,
    events: WholeEvents,
    source: &mut S,
    on: ReadingOn,
) -> Result<Followed<V>, Refusal>
    requires can { CanFollow V.seen_by V.has_seen events.version records events.count (take events.len events.bytes.items) }
    ensures followed { IfOk result (λ f. HasFollowed V.seen_by V.has_seen events.version records events.count (take events.len events.bytes.items) f.records) }
    ensures next { IfOk result (λ f. IsNextBlock S.answered S.failed S.failures on.before on.due on.reads on.rest.items source.old f.next source.new) }
    ensures refused { (s : S) (xs : List ℕ) → length xs ≡ on.before → HasRead S.answered S.failed S.failures on.reads s (xs ++ on.rest.items) source.old → IfErr result (IsInputRefused (giving_of S.answered S.failed S.failures s source.new) place NoLine) }
{
    let ReadingOn {
        rest,
        reads,
        before,
        due,
        mut spare,
    } = on;
    let Ok(()) = copy_to_front(rest.as_slice(), &mut spare, events.bytes.len()) else {
        records.let_go(rt);
        return Err(Refusal::Memory);
    };
    let came = Came {
        bytes: spare,
        filled: rest.len(),
        reads,
    };
    let (read, went) = follow_while_reading(rt, records, events, source, came, before, due);
    let next = match read {
        Ok(next) => next,
        Err(fault) => {
            if let Ok((records, _room)) = went {
                records.let_go(rt);
            }
            return Err(refusal_of_read(fault, place));
        }
    };
    let (records, spare) = went?;
    Ok(Followed {
        records,
        spare,
        next,
    })
}

/// As [`follow`], where this thread reads, behind these events.
fn follow_then_read<V: Records, R: Threads + Wait + Sync, S: Source>(
    rt: &R,
    place: Place,
    records: V,
    events: WholeEvents,
    source: &mut S,
    on: ReadingOn,
) -> Result<Followed<V>, Refusal>
    requires can { CanFollow V.seen_by V.has_seen events.version records events.count (take events.len events.bytes.items) }
    ensures followed { IfOk result (λ f. HasFollowed V.seen_by V.has_seen events.version records events.count (take events.len events.bytes.items) f.records) }
    ensures next { IfOk result (λ f. IsNextBlock S.answered S.failed S.failures on.before on.due on.reads on.rest.items source.old f.next source.new) }
    ensures refused { (s : S) (xs : List ℕ) → length xs ≡ on.before → HasRead S.answered S.failed S.failures on.reads s (xs ++ on.rest.items) source.old → IfErr result (IsInputRefused (giving_of S.answered S.failed S.failures s source.new) place NoLine) }
{
    let WholeEvents {
        version,
        bytes,
        len,
        count,
        ..
    } = events;
    let ReadingOn {
        rest,
        reads,
        before,
        due,
        spare,
    } = on;
    let size = bytes.len();
    let (records, mut room) = records.followed_by(rt, version, bytes, len, count)?;
    let Ok(()) = copy_to_front(rest.as_slice(), &mut room, size) else {
        records.let_go(rt);
        return Err(Refusal::Memory);
    };
    let came = Came {
        bytes: room,
        filled: rest.len(),
        reads,
    };
    match read_block(source, came, before, due) {
        Ok(next) => Ok(Followed {
            records,
            spare,
            next,
        }),
        Err(fault) => {
            records.let_go(rt);
            Err(refusal_of_read(fault, place))
        }
    }
}

/// Has `records` go over these events, and reads the next block. Where the records say so, a thread of its own reads it meanwhile.
///
/// # Errors
///
/// Where the input can't be read on, or an allocation failed. No thread is left then.
pub(crate) fn follow<V: Records, R: Threads + Wait + Sync, S: Source + Send>(
    rt: &R,
    place: Place,
    records: V,
    events: WholeEvents,
    source: &mut S,
    on: ReadingOn,
) -> Result<Followed<V>, Refusal>
    requires can { CanFollow V.seen_by V.has_seen events.version records events.count (take events.len events.bytes.items) }
    ensures followed { IfOk result (λ f. HasFollowed V.seen_by V.has_seen events.version records events.count (take events.len events.bytes.items) f.records) }
    ensures next { IfOk result (λ f. IsNextBlock S.answered S.failed S.failures on.before on.due on.reads on.rest.items source.old f.next source.new) }
    ensures refused { (s : S) (xs : List ℕ) → length xs ≡ on.before → HasRead S.answered S.failed S.failures on.reads s (xs ++ on.rest.items) source.old → IfErr result (IsInputRefused (giving_of S.answered S.failed S.failures s source.new) place NoLine) }
{
    if records.reads_beside(events.piecemeal) {
        follow_beside(rt, place, records, events, source, on)
    } else {
        follow_then_read(rt, place, records, events, source, on)
    }
}
