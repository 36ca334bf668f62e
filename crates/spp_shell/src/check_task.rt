//! The task `check`: the work of a trace, or its first fault.
ghost use Rattle.std.specs.Prelude.{◌≡◌, ◌≤◌, ◌<◌, ◌^◌, ℕ, List, [], ◌∷◌, length, take, IfOk, IfErr};
ghost use Rattle.spp_event.specs.Heads.{IsHeadOf};
ghost use Rattle.spp_event.specs.Recordings.{count_in};
ghost use Rattle.spp_shell.specs.Devices.{giving_of};
ghost use Rattle.spp_shell.specs.Inputs.{IsInputRefused};
ghost use Rattle.spp_shell.specs.Checked.{IsChecked, checked_by};
ghost use Rattle.spp_shell.specs.RecordStreams.{HasStreamed};
ghost use Rattle.spp_shell.specs.declared.checked_records.CheckedRecords.{CheckedRecords as CheckedRecordsValue};
ghost use Rattle.spp_shell.specs.Streams.{HasRead};
ghost use Rattle.spp_shell.specs.Tasks.{IfLine};
ghost use Rattle.spp_shell.specs.declared.place.Place.TheVariants.{Only};
ghost use Rattle.std.specs.String.{string_bytes};
ghost use Rattle.spp_shell.specs.Check.{IsCheckText, IsCheckLine, IsOneCheckLine, work_text};

use crate::came::Came;
use crate::checked_records::CheckedRecords;
use crate::header_end::HeaderEnd;
use crate::input::{read_front, read_rest_or_refuse, refusal_of_read};
use crate::opening::{open_or_refuse, refusal_of_event, refusal_of_header};
use crate::place::Place;
use crate::reading::PIECE;
use crate::reading_on::Front;
use crate::record_stream::{Head, RecordStream};
use crate::refusal::Refusal;
use crate::source::Source;
use spp_event::HeaderFault;
use spp_frame::{RecordCheck, check};
use std::alloc::{AllocError, Global};
use std::sync::Wait;
use std::thread::Threads;

/// The text that tells the work.
fn text_of_work(alloc: Global, work: u128) -> Result<String, AllocError>
    ensures { IfOk result (λ text. string_bytes text ≡ work_text work) }
{
    format!(in alloc; "work {work}\n")
}

/// The work of the trace whose bytes these are, as a text, or why there is none.
fn answer_check(alloc: Global, bytes: &[u8]) -> Result<Vec<u8>, Refusal>
    ensures text { IfOk result (λ text. IsCheckText (bytes.now ∷ []) text.items) }
    ensures line { IfErr result (λ refusal. IfLine refusal (IsCheckLine (bytes.now ∷ []))) }
{
    let trace = open_or_refuse(alloc, bytes)?;
    match check(&trace) {
        Ok(work) => Ok(text_of_work(alloc, work)?.into_bytes()),
        Err(fault) => Err(refusal_of_event(alloc, fault)),
    }
}

/// The same of a trace whose records were checked as they came.
fn answer_stream(alloc: Global, stream: RecordStream<CheckedRecords>) -> Result<Vec<u8>, Refusal>
    requires cut { count_in stream.head.version (take stream.filled stream.bytes.items) ≡ 0 }
    requires some { (first : CheckedRecordsValue) × (header xs : List ℕ) × (first.sites ≡ stream.head.sites) × (first.funcs ≡ stream.head.funcs) × HasStreamed checked_by IsChecked first stream.records stream.head stream.events stream.before header (take stream.filled stream.bytes.items) xs }
    ensures text { (first : CheckedRecordsValue) (header bytes : List ℕ) → first.sites ≡ stream.head.sites → first.funcs ≡ stream.head.funcs → HasStreamed checked_by IsChecked first stream.records stream.head stream.events stream.before header (take stream.filled stream.bytes.items) bytes → IfOk result (λ text. IsCheckText (bytes ∷ []) text.items) }
    ensures line { (first : CheckedRecordsValue) (header bytes : List ℕ) → first.sites ≡ stream.head.sites → first.funcs ≡ stream.head.funcs → HasStreamed checked_by IsChecked first stream.records stream.head stream.events stream.before header (take stream.filled stream.bytes.items) bytes → IfErr result (λ refusal. IfLine refusal (IsCheckLine (bytes ∷ []))) }
{
    if stream.trails() {
        return Err(refusal_of_header(alloc, HeaderFault::Trailing));
    }
    match stream.records.check.end(stream.head.count) {
        Ok(work) => Ok(text_of_work(alloc, work)?.into_bytes()),
        Err(fault) => Err(refusal_of_event(alloc, fault)),
    }
}

/// The same of an input that begins with that header, and of which that came.
fn check_records<R: Threads + Wait + Sync, S: Source + Send>(
    rt: &R,
    alloc: Global,
    source: &mut S,
    head: Head,
    came: Came,
) -> Result<Vec<u8>, Refusal>
    requires head { IsHeadOf head.version (take head.len (take came.filled came.bytes.items)) head.sites head.funcs head.count }
    requires within { head.len ≤ came.filled }
    ensures text { (s : S) → HasRead S.answered S.failed S.failures came.reads s (take came.filled came.bytes.items) source.old → IfOk result (λ text. (bytes : List ℕ) × (giving_of S.answered S.failed S.failures s source.new).Gave bytes × IsCheckText (bytes ∷ []) text.items) }
    ensures refused { (s : S) → HasRead S.answered S.failed S.failures came.reads s (take came.filled came.bytes.items) source.old → IfErr result (IsInputRefused (giving_of S.answered S.failed S.failures s source.new) Only IsOneCheckLine) }
{
    let records = CheckedRecords {
        check: RecordCheck::new(),
        sites: head.sites,
        funcs: head.funcs,
    };
    let stream = RecordStream::start(head, came, records);
    let stream = stream.read_rest(rt, source, Place::Only, PIECE)?;
    answer_stream(alloc, stream.end(rt, alloc)?)
}

/// The same of any input of which that came, with what the source told of its length: it is read whole first.
fn check_whole<S: Source>(
    alloc: Global,
    source: &mut S,
    came: Came,
    hint: Option<u64>,
) -> Result<Vec<u8>, Refusal>
    ensures text { (s : S) → HasRead S.answered S.failed S.failures came.reads s (take came.filled came.bytes.items) source.old → IfOk result (λ text. (bytes : List ℕ) × (giving_of S.answered S.failed S.failures s source.new).Gave bytes × IsCheckText (bytes ∷ []) text.items) }
    ensures refused { (s : S) → HasRead S.answered S.failed S.failures came.reads s (take came.filled came.bytes.items) source.old → IfErr result (IsInputRefused (giving_of S.answered S.failed S.failures s source.new) Only IsOneCheckLine) }
{
    let bytes = read_rest_or_refuse(source, came, hint, Place::Only)?;
    answer_check(alloc, bytes.as_slice())
}

/// The work of the trace that an input is, as a text, or why there is none.
///
/// The events of a trace are checked as they come: the memory is that of its header, with room up to a quarter more but within
/// the source's hint, that of twice 65,536 bytes, or a few times the longest item, and, until the header is opened, that for its
/// names, linear in their number. An input of which [`Head::of`] finds no header is read whole; where no trace begins as it
/// does, it is refused without reading on where [`Head::of`] shows that.
pub(crate) fn check_input<R: Threads + Wait + Sync, S: Source + Send>(
    rt: &R,
    alloc: Global,
    source: &mut S,
) -> Result<Vec<u8>, Refusal>
    ensures text { IfOk result (λ text. (bytes : List ℕ) × (giving_of S.answered S.failed S.failures source.old source.new).Gave bytes × IsCheckText (bytes ∷ []) text.items) }
    ensures refused { IfErr result (IsInputRefused (giving_of S.answered S.failed S.failures source.old source.new) Only IsOneCheckLine) }
{
    let hint = source.hint();
    let front = read_front(alloc, source, hint, Place::Only, HeaderEnd::new())?;
    let came = match front {
        Front::Whole(bytes) => return answer_check(alloc, bytes.as_slice()),
        Front::Part(came) => came,
    };
    match Head::of(alloc, came.as_slice())? {
        Some(head) => check_records(rt, alloc, source, head, came),
        None => check_whole(alloc, source, came, hint),
    }
}
