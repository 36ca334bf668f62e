//! The task `figures`: the work, the span and the burdened span of a run, by workers that share its blocks or the parts of its
//! trace, or its first fault.
ghost use Rattle.std.specs.Prelude.{◌≡◌, ◌<◌, ◌≤◌, ◌^◌, ℕ, List, [], ◌∷◌, length, take, IfOk, IfErr};
ghost use Rattle.spp_event.specs.Heads.{IsHeadOf};
ghost use Rattle.spp_event.specs.Recordings.{count_in};
ghost use Rattle.spp_shell.specs.Check.{IsCheckLine, IsOneCheckLine};
ghost use Rattle.spp_shell.specs.Devices.{giving_of};
ghost use Rattle.spp_shell.specs.Figured.{AreBehind, IsFigured, figured_by};
ghost use Rattle.spp_shell.specs.Figures.{IsFiguresText};
ghost use Rattle.spp_shell.specs.Inputs.{IsInputRefused};
ghost use Rattle.spp_shell.specs.RecordStreams.{HasStreamed};
ghost use Rattle.spp_shell.specs.Streams.{HasRead};
ghost use Rattle.spp_shell.specs.Tasks.{IfLine};
ghost use Rattle.spp_shell.specs.declared.figured_records.FiguredRecords.{FiguredRecords as FiguredRecordsValue};
ghost use Rattle.spp_shell.specs.declared.place.Place.TheVariants.{Only};

use crate::came::Came;
use crate::figured_records::FiguredRecords;
use crate::header_end::HeaderEnd;
use crate::input::{read_front, read_rest_or_refuse, refusal_of_read};
use crate::opening::{open_or_refuse, refusal_of_event, refusal_of_header};
use crate::place::Place;
use crate::reading_on::Front;
use crate::record_stream::{Head, RecordStream};
use crate::records::Records;
use crate::refusal::Refusal;
use crate::source::Source;
use spp_crew::{OpenGate, RecordFigures, RecordHead, figures};
use spp_cut::cut_even;
use spp_event::HeaderFault;
use spp_frame::ProfileFault;
use spp_maxplus::Burdens;
use spp_report::figures_text;
use spp_request::Request;
use std::alloc::{AllocError, Global};
use std::sync::Wait;
use std::thread::Threads;

/// The figures of the run whose trace these bytes are, as a text, or why there is none.
fn answer_figures<R: Threads + Wait + Sync>(
    rt: &R,
    alloc: Global,
    request: &Request,
    bytes: &[u8],
) -> Result<Vec<u8>, Refusal>
    ensures text { IfOk result (λ text. IsFiguresText request.now.burdens (bytes.now ∷ []) text.items) }
    ensures line { IfErr result (λ refusal. IfLine refusal (IsCheckLine (bytes.now ∷ []))) }
{
    let trace = open_or_refuse(alloc, bytes)?;
    let cut = cut_even(alloc, &trace, request.parts)?;
    let workers = request.workers.number();
    match figures(rt, alloc, &cut, workers, request.burdens, &OpenGate) {
        Ok(figures) => Ok(figures_text(alloc, &figures)?),
        Err(ProfileFault::Bad(fault)) => Err(refusal_of_event(alloc, fault)),
        Err(ProfileFault::Memory) => Err(Refusal::Memory),
    }
}

/// The same of a trace whose records came as a stream.
fn answer_stream<R: Threads + Wait + Sync>(
    rt: &R,
    alloc: Global,
    stream: RecordStream<FiguredRecords>,
) -> Result<Vec<u8>, Refusal>
    requires cut { count_in stream.head.version (take stream.filled stream.bytes.items) ≡ 0 }
    requires some { (first : FiguredRecordsValue) × (header xs : List ℕ) × AreBehind stream.head first × HasStreamed figured_by IsFigured first stream.records stream.head stream.events stream.before header (take stream.filled stream.bytes.items) xs }
    ensures text { (first : FiguredRecordsValue) (header bytes : List ℕ) → AreBehind stream.head first → HasStreamed figured_by IsFigured first stream.records stream.head stream.events stream.before header (take stream.filled stream.bytes.items) bytes
        → IfOk result (λ text. IsFiguresText first.figures.burdens (bytes ∷ []) text.items) }
    ensures line { (first : FiguredRecordsValue) (header bytes : List ℕ) → AreBehind stream.head first → HasStreamed figured_by IsFigured first stream.records stream.head stream.events stream.before header (take stream.filled stream.bytes.items) bytes
        → IfErr result (λ refusal. IfLine refusal (IsCheckLine (bytes ∷ []))) }
{
    if stream.trails() {
        stream.records.let_go(rt);
        return Err(refusal_of_header(alloc, HeaderFault::Trailing));
    }
    match stream.records.figures.end(rt, alloc) {
        Ok(figures) => Ok(figures_text(alloc, &figures)?),
        Err(ProfileFault::Bad(fault)) => Err(refusal_of_event(alloc, fault)),
        Err(ProfileFault::Memory) => Err(Refusal::Memory),
    }
}

/// What finds the figures of the records behind that header, before the first has come.
///
/// # Errors
///
/// Where an allocation failed.
fn records_behind(
    alloc: Global,
    request: &Request,
    head: Head,
) -> Result<FiguredRecords, AllocError>
    requires { (header : List ℕ) × IsHeadOf head.version header head.sites head.funcs head.count }
    ensures behind { IfOk result (AreBehind head) }
    ensures burdens { IfOk result (λ records. records.figures.burdens ≡ request.now.burdens) }
    ensures seen { IfOk result (λ records. (figured_by records ≡ 0) × IsFigured head.version records records []) }
    ensures asked { IfOk result (λ records. records.workers ≡ request.now.workers) }
{
    // The function of the root doesn't matter to the figures.
    let run = RecordHead {
        root: 0,
        sites: head.sites,
        funcs: head.funcs,
        count: head.count,
    };
    Ok(FiguredRecords {
        figures: RecordFigures::new(alloc, run, request.burdens)?,
        alloc,
        workers: request.workers.number(),
    })
}

/// The figures of the run whose trace an input gives, which begins with that header, and of which that came.
fn figure_records<R: Threads + Wait + Sync, S: Source + Send>(
    rt: &R,
    alloc: Global,
    burdens: Burdens,
    source: &mut S,
    head: Head,
    records: FiguredRecords,
    came: Came,
) -> Result<Vec<u8>, Refusal>
    requires records { AreBehind head records × (records.figures.burdens ≡ burdens) × (figured_by records ≡ 0) × IsFigured head.version records records [] }
    requires head { IsHeadOf head.version (take head.len (take came.filled came.bytes.items)) head.sites head.funcs head.count }
    requires within { head.len ≤ came.filled }
    ensures text { (s : S) → HasRead S.answered S.failed S.failures came.reads s (take came.filled came.bytes.items) source.old → IfOk result (λ text. (bytes : List ℕ) × (giving_of S.answered S.failed S.failures s source.new).Gave bytes × IsFiguresText burdens (bytes ∷ []) text.items) }
    ensures refused { (s : S) → HasRead S.answered S.failed S.failures came.reads s (take came.filled came.bytes.items) source.old → IfErr result (IsInputRefused (giving_of S.answered S.failed S.failures s source.new) Only IsOneCheckLine) }
{
    let stream = RecordStream::start(head, came, records);
    let stream = stream.read_rest(rt, source, Place::Only, head.block_len())?;
    answer_stream(rt, alloc, stream.end(rt, alloc)?)
}

/// The figures of the run whose trace any input gives, of which that came, with what the source told of its length: it is read
/// whole first.
fn figure_whole<R: Threads + Wait + Sync, S: Source>(
    rt: &R,
    alloc: Global,
    request: &Request,
    source: &mut S,
    came: Came,
    hint: Option<u64>,
) -> Result<Vec<u8>, Refusal>
    ensures text { (s : S) → HasRead S.answered S.failed S.failures came.reads s (take came.filled came.bytes.items) source.old → IfOk result (λ text. (bytes : List ℕ) × (giving_of S.answered S.failed S.failures s source.new).Gave bytes × IsFiguresText request.now.burdens (bytes ∷ []) text.items) }
    ensures refused { (s : S) → HasRead S.answered S.failed S.failures came.reads s (take came.filled came.bytes.items) source.old → IfErr result (IsInputRefused (giving_of S.answered S.failed S.failures s source.new) Only IsOneCheckLine) }
{
    let bytes = read_rest_or_refuse(source, came, hint, Place::Only)?;
    answer_figures(rt, alloc, request, bytes.as_slice())
}

/// The figures of the run whose trace an input gives, as a text, or why there is none.
///
/// The events of a trace are read in blocks as they come, and let go; by two workers or more, threads go over the blocks while the
/// next ones come, and this one goes over some where it would wait for them. An input of which [`Head::of`] finds no header is read whole, and cut into parts; where no
/// trace begins as it does, it is refused without reading on where [`Head::of`] shows that.
pub(crate) fn figures_input<R: Threads + Wait + Sync, S: Source + Send>(
    rt: &R,
    alloc: Global,
    request: &Request,
    source: &mut S,
) -> Result<Vec<u8>, Refusal>
    ensures text { IfOk result (λ text. (bytes : List ℕ) × (giving_of S.answered S.failed S.failures source.old source.new).Gave bytes × IsFiguresText request.now.burdens (bytes ∷ []) text.items) }
    ensures refused { IfErr result (IsInputRefused (giving_of S.answered S.failed S.failures source.old source.new) Only IsOneCheckLine) }
{
    let hint = source.hint();
    let front = read_front(alloc, source, hint, Place::Only, HeaderEnd::new())?;
    let came = match front {
        Front::Whole(bytes) => return answer_figures(rt, alloc, request, bytes.as_slice()),
        Front::Part(came) => came,
    };
    let Some(head) = Head::of(alloc, came.as_slice())? else {
        return figure_whole(rt, alloc, request, source, came, hint);
    };
    let Ok(records) = records_behind(alloc, request, head) else {
        return figure_whole(rt, alloc, request, source, came, hint);
    };
    figure_records(rt, alloc, request.burdens, source, head, records, came)
}
