//! A trace whose records are gone over as they come.
ghost use Rattle.std.specs.Prelude.{◌≡◌, ◌⊎◌, ◌+◌, ◌-◌, ◌*◌, ◌^◌, ◌<◌, ◌≤◌, ◌++◌, ℕ, List, Bool, true, false, [], length, take, drop, slice_range, IfOk, OnOk, IfSome, IfErr};
ghost use Rattle.spp_event.specs.Header.{IsTraceOf, header_spelling};
ghost use Rattle.spp_event.specs.Heads.{IsHeadOf};
ghost use Rattle.spp_event.specs.Places.{IsJoint};
ghost use Rattle.spp_event.specs.Recordings.{count_in};
ghost use Rattle.spp_event.specs.declared.version.Version.TheVariants.{Two};
ghost use Rattle.spp_shell.specs.Check.{TellsHeader};
ghost use Rattle.spp_shell.specs.RecordStreams.{AreWhole, HasGoneOver};
ghost use Rattle.spp_shell.specs.Tasks.{IfLine};

use crate::beside::{Followed, ReadingOn, WholeEvents, follow};
use crate::block_read::{NextBlock, read_block};
use crate::came::Came;
use crate::header_end::front_len;
use crate::input::refusal_of_read;
use crate::opening::open_front;
use crate::place::Place;
use crate::reading::{PIECE, move_to_front};
use crate::records::Records;
use crate::refusal::Refusal;
use crate::room::{copy_of, copy_to_front};
use crate::source::Source;
use spp_event::{Events, Trace, Version, items_in, last_item};
use std::alloc::{AllocError, Global};
use std::sync::Wait;
use std::thread::Threads;

/// The bytes of a record of version 1.
const RECORD: usize = 16;

/// What a header says of the records behind it.
#[derive(Clone, Copy)]
pub(crate) struct Head {
    /// How the events are spelled.
    pub(crate) version: Version,
    /// How many sites it names.
    pub(crate) sites: u32,
    /// How many functions.
    pub(crate) funcs: u32,
    /// How many events it claims.
    pub(crate) count: u32,
    /// How many bytes it has.
    pub(crate) len: usize,
}

/// How the events of a trace are spelled.
fn version_of(trace: &Trace<'_>) -> Version
    ensures { result ≡ trace.now.version }
{
    match trace.events() {
        Events::Records(_) => Version::One,
        Events::Items(_) => Version::Two,
    }
}

impl Head {
    /// The header of the trace that these bytes are.
    pub(crate) fn of_trace(trace: &Trace<'_>, bytes: &[u8]) -> Head
        requires { IsTraceOf bytes.now trace.now }
        ensures spelled { take result.len bytes.now ≡ header_spelling trace.now }
        ensures head { IsHeadOf result.version (take result.len bytes.now) result.sites result.funcs result.count }
        ensures within { result.len ≤ length bytes.now }
    {
        Head {
            version: version_of(trace),
            sites: trace.sites(),
            funcs: trace.funcs(),
            count: trace.count(),
            len: bytes.len() - trace.body_len() as usize,
        }
    }

    /// The header that these bytes begin with; none where they end before it does, where it has many names and more came behind it than
    /// its events have room for, or an allocation failed. The time and the memory are those of [`open_trace`](spp_event::open_trace).
    ///
    /// # Errors
    ///
    /// Where no trace begins with these bytes, whatever follows, but for what [`open_front`] says.
    pub(crate) fn of(alloc: Global, bytes: &[u8]) -> Result<Option<Head>, Refusal>
        ensures head { IfOk result (λ o. IfSome o (λ h. IsHeadOf h.version (take h.len bytes.now) h.sites h.funcs h.count)) }
        ensures within { IfOk result (λ o. IfSome o (λ h. h.len ≤ length bytes.now)) }
        ensures refused { IfErr result (λ refusal. IfLine refusal (λ line. (more : List ℕ) → TellsHeader (bytes.now ++ more) line)) }
    {
        let front = &bytes[..front_len(bytes)];
        let Some(trace) = open_front(alloc, front)? else {
            return Ok(None);
        };
        Ok(Some(Head::of_trace(&trace, front)))
    }

    /// How many bytes a block has, or some more, for figures and a profile: in version 1 those of 65,536 records, in version 2
    /// those of about as many items.
    pub(crate) fn block_len(self) -> usize {
        match self.version {
            Version::One => 1 << 20,
            Version::Two => 1 << 17,
        }
    }
}

/// How many of these bytes, from the first on, are whole events. Where no others come behind them, the last item is whole, too.
fn whole_len(version: Version, bytes: &[u8], ends: bool) -> usize
    ensures within { result ≤ length bytes.now }
    ensures whole { AreWhole version (count_in version (take result bytes.now)) (take result bytes.now) }
    ensures joint { IsJoint version (take result bytes.now) (drop result bytes.now) }
    ensures cut { ends ≡ true → count_in version (drop result bytes.now) ≡ 0 }
    ensures rest { count_in version (drop result bytes.now) ≤ 1 }
    ensures opens { version ≡ Two → ends ≡ false → 0 < length bytes.now → result < length bytes.now }
{
    match version {
        Version::One => bytes.len() / RECORD * RECORD,
        Version::Two if ends => bytes.len(),
        Version::Two => last_item(bytes),
    }
}

/// As [`whole_len`] where other bytes follow; 0 where there are fewer than `block` bytes.
fn whole_in_block(version: Version, bytes: &[u8], block: usize) -> usize
    ensures within { result ≤ length bytes.now }
    ensures whole { AreWhole version (count_in version (take result bytes.now)) (take result bytes.now) }
    ensures joint { IsJoint version (take result bytes.now) (drop result bytes.now) }
    ensures opens { version ≡ Two → 0 < length bytes.now → result < length bytes.now }
{
    if bytes.len() < block {
        return 0;
    }
    whole_len(version, bytes, false)
}

/// How many events these bytes are.
fn events_in(version: Version, bytes: &[u8]) -> u64
    ensures is { result ≡ count_in version bytes.now }
    ensures few { result ≤ length bytes.now }
{
    match version {
        Version::One => (bytes.len() / RECORD) as u64,
        Version::Two => items_in(bytes) as u64,
    }
}

/// Goes over the whole events of the first `filled` of these bytes, behind so many others, where no bytes come behind them. Gives
/// `records` behind them, how many events that makes in all, and a list that begins with so many bytes that are left: those of
/// less than a record. From the events on that pass the header's number none is read.
///
/// # Errors
///
/// Where an allocation failed.
fn go_over<V: Records, R: Threads + Wait + Sync>(
    rt: &R,
    alloc: Global,
    head: Head,
    records: V,
    events: u64,
    bytes: Vec<u8>,
    filled: usize,
) -> Result<(V, u64, Vec<u8>, usize), AllocError>
    requires end { filled ≤ length bytes.items }
    requires few { events + filled < 2 ^ 35 }
    requires limit { head.count ≤ 2 ^ 28 }
    requires count { events ≤ head.count → V.seen_by records ≡ events }
    requires seen { events ≤ head.count → (first : V) × (xs : List ℕ) × AreWhole head.version events xs × IsJoint head.version xs (take filled bytes.items) × V.has_seen head.version first records xs }
    ensures gone { IfOk result (λ r. HasGoneOver V.seen_by V.has_seen records r.0 head events r.1 (take filled bytes.items) (take r.3 r.2.items)) }
    ensures within { IfOk result (λ r. r.3 ≤ filled) }
    ensures held { IfOk result (λ r. r.3 ≤ length r.2.items) }
    ensures few { IfOk result (λ r. r.1 + r.3 ≤ events + filled) }
    ensures cut { IfOk result (λ r. count_in head.version (take r.3 r.2.items) ≡ 0) }
{
    let came = &bytes[..filled];
    let whole = whole_len(head.version, came, true);
    let left = filled - whole;
    let count = events_in(head.version, &came[..whole]);
    let behind = events + count;
    if whole == 0 {
        return Ok((records, events, bytes, filled));
    }
    if behind > u64::from(head.count) {
        let mut bytes = bytes;
        move_to_front(&mut bytes, whole, filled);
        return Ok((records, behind, bytes, left));
    }
    let Ok(rest) = copy_of(alloc, &came[whole..]) else {
        records.let_go(rt);
        return Err(AllocError);
    };
    let (records, mut room) = records.followed_by(rt, head.version, bytes, whole, count as u32)?;
    let Ok(()) = copy_to_front(rest.as_slice(), &mut room, 0) else {
        records.let_go(rt);
        return Err(AllocError);
    };
    Ok((records, behind, room, left))
}

/// A trace that is being read.
#[derive(Drop)]
pub(crate) struct RecordStream<V: Records> {
    pub(crate) head: Head,
    /// What the records show that were gone over; nothing is meant by it where they are more than the header claims.
    pub(crate) records: V,
    /// How many were gone over.
    pub(crate) events: u64,
    /// The bytes that came behind these records, and then room for more.
    pub(crate) bytes: Vec<u8>,
    /// How many of these bytes came.
    pub(crate) filled: usize,
    /// How many bytes of the input came before them, the header among these.
    pub(crate) before: u64,
    /// In how many reads all came.
    pub(crate) reads: u64,
    /// The last block that was read came piecemeal: see [`NextBlock`].
    pub(crate) piecemeal: bool,
    /// Room for the bytes of another block.
    pub(crate) spare: Vec<u8>,
    ghost held: { filled ≤ length bytes.items },
    ghost within: { before + filled ≤ 2 ^ 33 },
    ghost few: { events ≤ before },
    ghost turns: { reads < 2 ^ 33 },
}

impl<V: Records> RecordStream<V> {
    ghost use Rattle.spp_shell.specs.RecordStreams.{AreMore, AreNoMore, HasStreamed};
    ghost use Rattle.spp_shell.specs.BlockReads.{IsReadTo};
    ghost use Rattle.spp_shell.specs.Devices.{giving_of};
    ghost use Rattle.spp_shell.specs.Inputs.{IsInputRefused, NoLine};
    ghost use Rattle.spp_shell.specs.Streams.{HasRead};

    /// The stream of a trace of which that came, bytes that begin with that header; `records` has seen none.
    pub(crate) fn start(head: Head, came: Came, records: V) -> RecordStream<V>
        requires head { IsHeadOf head.version (take head.len (take came.filled came.bytes.items)) head.sites head.funcs head.count }
        requires within { head.len ≤ came.filled }
        requires none { V.seen_by records ≡ 0 }
        requires seen { V.has_seen head.version records records [] }
        ensures head { result.head ≡ head }
        ensures front { result.before ≡ head.len }
        ensures reads { result.reads ≡ came.reads }
        ensures streamed { HasStreamed V.seen_by V.has_seen records result.records result.head result.events result.before (take head.len (take came.filled came.bytes.items)) (take result.filled result.bytes.items) (take came.filled came.bytes.items) }
    {
        let Came {
            mut bytes,
            filled,
            reads,
        } = came;
        let spare = Vec::new(*bytes.allocator());
        move_to_front(&mut bytes, head.len, filled);
        let left = filled - head.len;
        bytes.truncate(left.max(PIECE));
        RecordStream {
            head,
            records,
            events: 0,
            bytes,
            filled: left,
            before: head.len as u64,
            reads,
            piecemeal: false,
            spare,
        }
    }

    /// The stream behind so many events and bytes, of which that came next; and whether the input ended.
    fn behind(
        head: Head,
        events: u64,
        before: u64,
        followed: Followed<V>,
    ) -> (RecordStream<V>, bool)
        requires within { before + followed.next.came.filled ≤ 2 ^ 33 }
        requires few { events ≤ before }
        ensures head { result.0.head ≡ head }
        ensures before { result.0.before ≡ before }
        ensures filled { result.0.filled ≡ followed.next.came.filled }
        ensures reads { result.0.reads ≡ followed.next.came.reads }
        ensures ended { result.1 ≡ followed.next.ended }
        ensures streamed { (first : V) (header xs : List ℕ) → HasStreamed V.seen_by V.has_seen first followed.records head events before header (take followed.next.came.filled followed.next.came.bytes.items) xs → HasStreamed V.seen_by V.has_seen first result.0.records result.0.head result.0.events result.0.before header (take result.0.filled result.0.bytes.items) xs }
    {
        let Followed {
            records,
            spare,
            next: NextBlock {
                came,
                ended,
                piecemeal,
            },
        } = followed;
        let Came {
            bytes,
            filled,
            reads,
        } = came;
        let stream = RecordStream {
            head,
            records,
            events,
            bytes,
            filled,
            before,
            reads,
            piecemeal,
            spare,
        };
        (stream, ended)
    }

    /// Goes over the whole events that came, if they are a block, and reads the next one, which has so many bytes, or some more,
    /// but at the end of the input; whether it ended. Where an item is longer than a block, twice as many bytes are read as came
    /// of it. From the block on that passes the header's number, events are only counted.
    ///
    /// # Errors
    ///
    /// Where the input can't be read on, or an allocation failed.
    fn go_on<R: Threads + Wait + Sync, S: Source + Send>(
        self,
        rt: &R,
        source: &mut S,
        place: Place,
        block: usize,
    ) -> Result<(RecordStream<V>, bool), Refusal>
        requires opens { self.head.version ≡ Two → (self.before ≡ self.head.len) ⊎ (0 < self.filled) }
        requires seen { (first : V) × (header xs : List ℕ) × HasStreamed V.seen_by V.has_seen first self.records self.head self.events self.before header (take self.filled self.bytes.items) xs }
        ensures opens { IfOk result (λ r. r.0.head.version ≡ Two → (r.0.before ≡ r.0.head.len) ⊎ (0 < r.0.filled)) }
        ensures head { IfOk result (λ r. r.0.head ≡ self.head) }
        ensures more { IfOk result (λ r. r.1 ≡ false → self.before + self.filled < r.0.before + r.0.filled) }
        ensures streamed { (first : V) (header xs : List ℕ) → HasStreamed V.seen_by V.has_seen first self.records self.head self.events self.before header (take self.filled self.bytes.items) xs → IfOk result (λ r. (all : List ℕ) × HasStreamed V.seen_by V.has_seen first r.0.records r.0.head r.0.events r.0.before header (take r.0.filled r.0.bytes.items) all) }
        ensures read { (s : S) (first : V) (header xs : List ℕ) → HasRead S.answered S.failed S.failures self.reads s xs source.old → HasStreamed V.seen_by V.has_seen first self.records self.head self.events self.before header (take self.filled self.bytes.items) xs
            → IfOk result (λ r. (all : List ℕ) × IsReadTo S.answered S.failed S.failures r.0.reads s all source.new r.1 × HasStreamed V.seen_by V.has_seen first r.0.records r.0.head r.0.events r.0.before header (take r.0.filled r.0.bytes.items) all) }
        ensures refused { (s : S) (first : V) (header xs : List ℕ) → HasRead S.answered S.failed S.failures self.reads s xs source.old → HasStreamed V.seen_by V.has_seen first self.records self.head self.events self.before header (take self.filled self.bytes.items) xs
            → IfErr result (IsInputRefused (giving_of S.answered S.failed S.failures s source.new) place NoLine) }
    {
        let RecordStream {
            head,
            records,
            events,
            mut bytes,
            filled,
            before,
            reads,
            piecemeal,
            spare,
        } = self;
        let came = &bytes[..filled];
        let whole = whole_in_block(head.version, came, block);
        let count = events_in(head.version, &came[..whole]);
        let left = filled - whole;
        let behind = events + count;
        let before = before + whole as u64;
        let due = block.max(2 * left + 1);
        if whole == 0 || behind > u64::from(head.count) {
            move_to_front(&mut bytes, whole, filled);
            let rest = Came {
                bytes,
                filled: left,
                reads,
            };
            return match read_block(source, rest, before, due) {
                Ok(next) => {
                    let followed = Followed {
                        records,
                        spare,
                        next,
                    };
                    Ok(RecordStream::behind(head, behind, before, followed))
                }
                Err(fault) => {
                    records.let_go(rt);
                    Err(refusal_of_read(fault, place))
                }
            };
        }
        let Ok(rest) = copy_of(*bytes.allocator(), &came[whole..]) else {
            records.let_go(rt);
            return Err(Refusal::Memory);
        };
        let on = ReadingOn {
            rest,
            reads,
            before,
            due,
            spare,
        };
        let whole_events = WholeEvents {
            version: head.version,
            bytes,
            len: whole,
            count: count as u32,
            piecemeal,
        };
        let followed = follow(rt, place, records, whole_events, source, on)?;
        Ok(RecordStream::behind(head, behind, before, followed))
    }

    /// Reads on to the end, and goes over the records in blocks of that many bytes, or some more, but for the last.
    ///
    /// # Errors
    ///
    /// Where the input can't be read to its end, or an allocation failed.
    pub(crate) fn read_rest<R: Threads + Wait + Sync, S: Source + Send>(
        self,
        rt: &R,
        source: &mut S,
        place: Place,
        block: usize,
    ) -> Result<RecordStream<V>, Refusal>
        requires front { self.before ≡ self.head.len }
        requires seen { (first : V) × (header xs : List ℕ) × HasStreamed V.seen_by V.has_seen first self.records self.head self.events self.before header (take self.filled self.bytes.items) xs }
        ensures head { IfOk result (λ end. end.head ≡ self.head) }
        ensures streamed { (first : V) (header xs : List ℕ) → HasStreamed V.seen_by V.has_seen first self.records self.head self.events self.before header (take self.filled self.bytes.items) xs → IfOk result (λ end. (all : List ℕ) × HasStreamed V.seen_by V.has_seen first end.records end.head end.events end.before header (take end.filled end.bytes.items) all) }
        ensures read { (s : S) (first : V) (header xs : List ℕ) → HasRead S.answered S.failed S.failures self.reads s xs source.old → HasStreamed V.seen_by V.has_seen first self.records self.head self.events self.before header (take self.filled self.bytes.items) xs
            → IfOk result (λ end. (all : List ℕ) × (giving_of S.answered S.failed S.failures s source.new).Gave all × HasStreamed V.seen_by V.has_seen first end.records end.head end.events end.before header (take end.filled end.bytes.items) all) }
        ensures refused { (s : S) (first : V) (header xs : List ℕ) → HasRead S.answered S.failed S.failures self.reads s xs source.old → HasStreamed V.seen_by V.has_seen first self.records self.head self.events self.before header (take self.filled self.bytes.items) xs
            → IfErr result (IsInputRefused (giving_of S.answered S.failed S.failures s source.new) place NoLine) }
    {
        let mut stream = self;
        let mut ended = false;
        while !ended {
            let went = stream.go_on(rt, source, place, block)?;
            stream = went.0;
            ended = went.1;
        }
        Ok(stream)
    }

    /// Goes over the last block, behind which the input ended. No whole event is left then.
    ///
    /// # Errors
    ///
    /// Where an allocation failed.
    pub(crate) fn end<R: Threads + Wait + Sync>(
        self,
        rt: &R,
        alloc: Global,
    ) -> Result<RecordStream<V>, AllocError>
        requires { (first : V) × (header xs : List ℕ) × HasStreamed V.seen_by V.has_seen first self.records self.head self.events self.before header (take self.filled self.bytes.items) xs }
        ensures cut { IfOk result (λ end. count_in end.head.version (take end.filled end.bytes.items) ≡ 0) }
        ensures head { IfOk result (λ end. end.head ≡ self.head) }
        ensures streamed { IfOk result (λ end. (first : V) (header xs : List ℕ) → HasStreamed V.seen_by V.has_seen first self.records self.head self.events self.before header (take self.filled self.bytes.items) xs → HasStreamed V.seen_by V.has_seen first end.records end.head end.events end.before header (take end.filled end.bytes.items) xs) }
    {
        let RecordStream {
            head,
            records,
            events,
            bytes,
            filled,
            before,
            reads,
            piecemeal,
            spare,
        } = self;
        let (records, events, bytes, left) = go_over(
            rt, alloc, head, records, events, bytes, filled,
        )?;
        Ok(RecordStream {
            head,
            records,
            events,
            bytes,
            filled: left,
            before: before + (filled - left) as u64,
            reads,
            piecemeal,
            spare,
        })
    }

    /// Whether more came behind the header than its events have room for, where no whole one is left.
    pub(crate) fn trails(&self) -> bool
        ensures more { result ≡ true → AreMore self.now.head.count self.now.events (take self.now.filled self.now.bytes.items) }
        ensures few { result ≡ false → AreNoMore self.now.head.count self.now.events (take self.now.filled self.now.bytes.items) }
    {
        let count = u64::from(self.head.count);
        self.events > count || (self.events == count && self.filled > 0)
    }
}
