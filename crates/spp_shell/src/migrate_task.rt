//! The task `migrate`: a trace, written in version 2, or its first fault.
ghost use Rattle.std.specs.Prelude.{◌≡◌, ◌≤◌, ◌++◌, [], ◌∷◌, ℕ, List, length, take, IfOk, IfErr, IfSome};
ghost use Rattle.spp_event.specs.Header.{IsTraceOf};
ghost use Rattle.spp_event.specs.Heads.{IsHeadOf};
ghost use Rattle.spp_event.specs.Migrating.{IsMigrateFault};
ghost use Rattle.spp_event.specs.Recordings.{Recording, count_in};
ghost use Rattle.spp_event.specs.declared.migrating.MigrateFault.TheVariants.{Bad};
ghost use Rattle.spp_shell.specs.Check.{TellsHeader};
ghost use Rattle.spp_shell.specs.Devices.{giving_of};
ghost use Rattle.spp_shell.specs.Inputs.{IsInputRefused};
ghost use Rattle.spp_shell.specs.Migrate.{IsMigrateText, IsMigrateLine, IsOneMigrateLine, record_line};
ghost use Rattle.spp_shell.specs.Migrated.{AreMigrated, IsBegun, migrated_by};
ghost use Rattle.spp_shell.specs.RecordStreams.{HasStreamed};
ghost use Rattle.spp_shell.specs.Streams.{HasRead};
ghost use Rattle.spp_shell.specs.Tasks.{IfLine};
ghost use Rattle.spp_shell.specs.declared.migrated_records.MigratedRecords.{MigratedRecords as MigratedRecordsValue};
ghost use Rattle.spp_shell.specs.declared.place.Place.TheVariants.{Only};

use crate::came::Came;
use crate::header_end::{HeaderEnd, front_len};
use crate::input::{read_front, read_rest_or_refuse, refusal_of_read};
use crate::migrated_records::MigratedRecords;
use crate::opening::{open_front, open_or_refuse, refusal_of_event, refusal_of_header};
use crate::place::Place;
use crate::reading::PIECE;
use crate::reading_on::Front;
use crate::record_stream::{Head, RecordStream};
use crate::refusal::Refusal;
use crate::source::Source;
use spp_event::{EventFault, HeaderFault, MigrateFault, RecordMigration, migrate};
use spp_frame::{Fault, Why};
use std::alloc::Global;
use std::sync::Wait;
use std::thread::Threads;

/// What bytes are answered with that are those of a trace with that bad record.
fn refusal_of_record(alloc: Global, at: u32, fault: EventFault) -> Refusal
    ensures { IfLine result (λ line. line ≡ record_line at fault) }
{
    refusal_of_event(
        alloc,
        Fault {
            at,
            why: Why::Event(fault),
        },
    )
}

/// The bytes of the trace whose bytes these are, written in version 2, or why there are none.
fn answer_migrate(alloc: Global, bytes: &[u8]) -> Result<Vec<u8>, Refusal>
    ensures text { IfOk result (λ text. IsMigrateText (bytes.now ∷ []) text.items) }
    ensures line { IfErr result (λ refusal. IfLine refusal (IsOneMigrateLine bytes.now)) }
{
    let trace = open_or_refuse(alloc, bytes)?;
    match migrate(alloc, &trace) {
        Ok(text) => Ok(text),
        Err(MigrateFault::Bad { at, why }) => Err(refusal_of_record(alloc, at, why)),
        Err(MigrateFault::Memory) => Err(Refusal::Memory),
    }
}

/// The same of a trace whose records were migrated as they came.
fn answer_stream(alloc: Global, stream: RecordStream<MigratedRecords>) -> Result<Vec<u8>, Refusal>
    requires cut { count_in stream.head.version (take stream.filled stream.bytes.items) ≡ 0 }
    requires some { (first : MigratedRecordsValue) × (trace : Recording) × (header xs : List ℕ) × IsBegun trace first × IsTraceOf header trace × HasStreamed migrated_by AreMigrated first stream.records stream.head stream.events stream.before header (take stream.filled stream.bytes.items) xs }
    ensures text { (first : MigratedRecordsValue) (trace : Recording) (header bytes : List ℕ) → IsBegun trace first → IsTraceOf header trace → HasStreamed migrated_by AreMigrated first stream.records stream.head stream.events stream.before header (take stream.filled stream.bytes.items) bytes → IfOk result (λ text. IsMigrateText (bytes ∷ []) text.items) }
    ensures line { (first : MigratedRecordsValue) (trace : Recording) (header bytes : List ℕ) → IsBegun trace first → IsTraceOf header trace → HasStreamed migrated_by AreMigrated first stream.records stream.head stream.events stream.before header (take stream.filled stream.bytes.items) bytes → IfErr result (λ refusal. IfLine refusal (IsOneMigrateLine bytes)) }
{
    if stream.trails() {
        return Err(refusal_of_header(alloc, HeaderFault::Trailing));
    }
    match stream.records.migration.end() {
        Ok(text) => Ok(text),
        Err(bad) => Err(refusal_of_record(alloc, bad.at, bad.why)),
    }
}

/// The same of an input that begins with that header, and of which that came; `records` has seen none.
fn migrate_records<R: Threads + Wait + Sync, S: Source + Send>(
    rt: &R,
    alloc: Global,
    source: &mut S,
    head: Head,
    records: MigratedRecords,
    came: Came,
) -> Result<Vec<u8>, Refusal>
    requires begun { (trace : Recording) × IsTraceOf (take head.len (take came.filled came.bytes.items)) trace × IsBegun trace records }
    requires head { IsHeadOf head.version (take head.len (take came.filled came.bytes.items)) head.sites head.funcs head.count }
    requires within { head.len ≤ came.filled }
    ensures text { (s : S) → HasRead S.answered S.failed S.failures came.reads s (take came.filled came.bytes.items) source.old → IfOk result (λ text. (bytes : List ℕ) × (giving_of S.answered S.failed S.failures s source.new).Gave bytes × IsMigrateText (bytes ∷ []) text.items) }
    ensures refused { (s : S) → HasRead S.answered S.failed S.failures came.reads s (take came.filled came.bytes.items) source.old → IfErr result (IsInputRefused (giving_of S.answered S.failed S.failures s source.new) Only IsOneMigrateLine) }
{
    let stream = RecordStream::start(head, came, records);
    let stream = stream.read_rest(rt, source, Place::Only, PIECE)?;
    answer_stream(alloc, stream.end(rt, alloc)?)
}

/// The same of any input of which that came, with what the source told of its length: it is read whole first.
fn migrate_whole<S: Source>(
    alloc: Global,
    source: &mut S,
    came: Came,
    hint: Option<u64>,
) -> Result<Vec<u8>, Refusal>
    ensures text { (s : S) → HasRead S.answered S.failed S.failures came.reads s (take came.filled came.bytes.items) source.old → IfOk result (λ text. (bytes : List ℕ) × (giving_of S.answered S.failed S.failures s source.new).Gave bytes × IsMigrateText (bytes ∷ []) text.items) }
    ensures refused { (s : S) → HasRead S.answered S.failed S.failures came.reads s (take came.filled came.bytes.items) source.old → IfErr result (IsInputRefused (giving_of S.answered S.failed S.failures s source.new) Only IsOneMigrateLine) }
{
    let bytes = read_rest_or_refuse(source, came, hint, Place::Only)?;
    answer_migrate(alloc, bytes.as_slice())
}

/// What the header says that these bytes begin with, and what migrates the events behind it, before the first has come; none as
/// [`Head::of`] says.
///
/// # Errors
///
/// Those of [`Head::of`], and where an allocation failed for the header in version 2.
fn begin(alloc: Global, bytes: &[u8]) -> Result<Option<(Head, MigratedRecords)>, Refusal>
    ensures head { IfOk result (λ o. IfSome o (λ b. IsHeadOf b.0.version (take b.0.len bytes.now) b.0.sites b.0.funcs b.0.count)) }
    ensures within { IfOk result (λ o. IfSome o (λ b. b.0.len ≤ length bytes.now)) }
    ensures begun { IfOk result (λ o. IfSome o (λ b. (trace : Recording) × IsTraceOf (take b.0.len bytes.now) trace × IsBegun trace b.1)) }
    ensures refused { IfErr result (λ refusal. IfLine refusal (λ line. (more : List ℕ) → TellsHeader (bytes.now ++ more) line)) }
{
    let front = &bytes[..front_len(bytes)];
    let Some(trace) = open_front(alloc, front)? else {
        return Ok(None);
    };
    let migration = RecordMigration::new(alloc, &trace)?;
    let head = Head::of_trace(&trace, front);
    Ok(Some((head, MigratedRecords { migration })))
}

/// The bytes of the trace that an input is, written in version 2, or why there are none.
///
/// The events of a trace are migrated as they come: the memory is that of its bytes in version 2, with room for as many more, and that
/// of [`check_input`](crate::check_task::check_input). An input of which [`begin`] finds no header is read whole; where no trace begins
/// as it does, it is refused without reading on where [`begin`] shows that.
pub(crate) fn migrate_input<R: Threads + Wait + Sync, S: Source + Send>(
    rt: &R,
    alloc: Global,
    source: &mut S,
) -> Result<Vec<u8>, Refusal>
    ensures text { IfOk result (λ text. (bytes : List ℕ) × (giving_of S.answered S.failed S.failures source.old source.new).Gave bytes × IsMigrateText (bytes ∷ []) text.items) }
    ensures refused { IfErr result (IsInputRefused (giving_of S.answered S.failed S.failures source.old source.new) Only IsOneMigrateLine) }
{
    let hint = source.hint();
    let front = read_front(alloc, source, hint, Place::Only, HeaderEnd::new())?;
    let came = match front {
        Front::Whole(bytes) => return answer_migrate(alloc, bytes.as_slice()),
        Front::Part(came) => came,
    };
    match begin(alloc, came.as_slice())? {
        Some((head, records)) => migrate_records(rt, alloc, source, head, records, came),
        None => migrate_whole(alloc, source, came, hint),
    }
}
