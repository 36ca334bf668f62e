//! The profile of the run whose trace an input gives.
ghost use Rattle.std.specs.Prelude.{◌≡◌, ◌<◌, ◌≤◌, ◌^◌, ◌++◌, ℕ, List, length, take, IfOk, IfSome, IfErr};
ghost use Rattle.spp_event.specs.Heads.{IsHeadOf};
ghost use Rattle.spp_event.specs.Header.{IsTraceOf};
ghost use Rattle.spp_event.specs.Recordings.{Recording, count_in};
ghost use Rattle.spp_shell.specs.Check.{IsOneCheckLine, TellsHeader};
ghost use Rattle.spp_shell.specs.Devices.{giving_of};
ghost use Rattle.spp_shell.specs.Inputs.{IsInputRefused};
ghost use Rattle.spp_shell.specs.Profiled.{IsBeginning, IsProfiled, IsProfiledBy, IsRunOf, IsTold, profiled_by};
ghost use Rattle.spp_shell.specs.RecordStreams.{HasStreamed};
ghost use Rattle.spp_shell.specs.Streams.{HasRead};
ghost use Rattle.spp_shell.specs.Tasks.{IfLine};
ghost use Rattle.spp_shell.specs.declared.profiled_records.ProfiledRecords.{ProfiledRecords as ProfiledRecordsValue};

use crate::came::Came;
use crate::header_end::{HeaderEnd, header_len};
use crate::input::{read_front, read_rest_or_refuse, refusal_of_read};
use crate::opening::{open_front, open_or_refuse, refusal_of_event, refusal_of_header};
use crate::place::Place;
use crate::profile_task::profile_or_refuse;
use crate::profiled_records::ProfiledRecords;
use crate::reading_on::Front;
use crate::record_stream::{Head, RecordStream};
use crate::records::Records;
use crate::refusal::Refusal;
use crate::source::Source;
use crate::telling::Telling;
use spp_crew::{RecordHead, RecordProfile};
use spp_event::{HeaderFault, Trace};
use spp_frame::ProfileFault;
use spp_report::Named;
use spp_request::Request;
use spp_site::Profile;
use std::alloc::{AllocError, Global};
use std::sync::Wait;
use std::thread::Threads;

/// What is told of the run whose trace these bytes are, or why nothing is.
fn tell_bytes<R: Threads + Wait + Sync, T: Telling>(
    rt: &R,
    alloc: Global,
    request: &Request,
    bytes: &[u8],
    telling: &T,
) -> Result<T::Told, Refusal>
    ensures told { IfOk result (IsTold (T.tells telling.now) request.now.burdens bytes.now) }
    ensures line { IfErr result (λ refusal. IfLine refusal (IsOneCheckLine bytes.now)) }
{
    let trace = open_or_refuse(alloc, bytes)?;
    let profile = profile_or_refuse(rt, alloc, request, &trace)?;
    let named = Named {
        trace: &trace,
        profile: &profile,
    };
    Ok(telling.tell(alloc, &named)?)
}

/// The same of an input of which that came, with what the source told of its length: it is read whole first.
fn tell_whole<R: Threads + Wait + Sync, S: Source, T: Telling>(
    rt: &R,
    alloc: Global,
    request: &Request,
    source: &mut S,
    place: Place,
    came: Came,
    hint: Option<u64>,
    telling: &T,
) -> Result<T::Told, Refusal>
    ensures told { (s : S) → HasRead S.answered S.failed S.failures came.reads s (take came.filled came.bytes.items) source.old → IfOk result (λ told. (bytes : List ℕ) × (giving_of S.answered S.failed S.failures s source.new).Gave bytes × IsTold (T.tells telling.now) request.now.burdens bytes told) }
    ensures refused { (s : S) → HasRead S.answered S.failed S.failures came.reads s (take came.filled came.bytes.items) source.old → IfErr result (IsInputRefused (giving_of S.answered S.failed S.failures s source.new) place IsOneCheckLine) }
{
    let bytes = read_rest_or_refuse(source, came, hint, place)?;
    tell_bytes(rt, alloc, request, bytes.as_slice(), telling)
}

/// The profile of a run whose records came as a stream, or why there is none.
fn profile_of_stream<R: Threads + Wait + Sync>(
    rt: &R,
    alloc: Global,
    stream: RecordStream<ProfiledRecords>,
) -> Result<Profile, Refusal>
    requires cut { count_in stream.head.version (take stream.filled stream.bytes.items) ≡ 0 }
    requires some { (first : ProfiledRecordsValue) × (trace : Recording) × (header xs : List ℕ) × IsRunOf trace first.profile.head × IsTraceOf header trace × HasStreamed profiled_by IsProfiled first stream.records stream.head stream.events stream.before header (take stream.filled stream.bytes.items) xs }
    ensures small { IfOk result (λ p. p.figures.work < 2 ^ 92) }
    ensures profile { (first : ProfiledRecordsValue) (trace : Recording) (header bytes : List ℕ) → IsRunOf trace first.profile.head → IsTraceOf header trace → HasStreamed profiled_by IsProfiled first stream.records stream.head stream.events stream.before header (take stream.filled stream.bytes.items) bytes
        → IfOk result (λ p. IsProfiledBy first.profile.burdens bytes trace p) }
    ensures line { (first : ProfiledRecordsValue) (trace : Recording) (header bytes : List ℕ) → IsRunOf trace first.profile.head → IsTraceOf header trace → HasStreamed profiled_by IsProfiled first stream.records stream.head stream.events stream.before header (take stream.filled stream.bytes.items) bytes
        → IfErr result (λ refusal. IfLine refusal (IsOneCheckLine bytes)) }
{
    if stream.trails() {
        stream.records.let_go(rt);
        return Err(refusal_of_header(alloc, HeaderFault::Trailing));
    }
    match stream.records.profile.end(rt, alloc) {
        Ok(profile) => Ok(profile),
        Err(ProfileFault::Bad(fault)) => Err(refusal_of_event(alloc, fault)),
        Err(ProfileFault::Memory) => Err(Refusal::Memory),
    }
}

/// What is told of an input that begins with the header of this trace, and of which that came, or why nothing is:
/// its records are profiled as they come.
fn tell_records<R: Threads + Wait + Sync, S: Source + Send, T: Telling>(
    rt: &R,
    alloc: Global,
    request: &Request,
    source: &mut S,
    place: Place,
    head: Head,
    trace: &Trace<'_>,
    records: ProfiledRecords,
    came: Came,
    telling: &T,
) -> Result<T::Told, Refusal>
    requires records { IsBeginning trace.now request.now.burdens records }
    requires head { IsHeadOf head.version (take head.len (take came.filled came.bytes.items)) head.sites head.funcs head.count }
    requires trace { IsTraceOf (take head.len (take came.filled came.bytes.items)) trace.now }
    requires within { head.len ≤ came.filled }
    ensures told { (s : S) → HasRead S.answered S.failed S.failures came.reads s (take came.filled came.bytes.items) source.old → IfOk result (λ told. (bytes : List ℕ) × (giving_of S.answered S.failed S.failures s source.new).Gave bytes × IsTold (T.tells telling.now) request.now.burdens bytes told) }
    ensures refused { (s : S) → HasRead S.answered S.failed S.failures came.reads s (take came.filled came.bytes.items) source.old → IfErr result (IsInputRefused (giving_of S.answered S.failed S.failures s source.new) place IsOneCheckLine) }
{
    let stream = RecordStream::start(head, came, records);
    let stream = stream
        .read_rest(rt, source, place, head.block_len())?
        .end(rt, alloc)?;
    let profile = profile_of_stream(rt, alloc, stream)?;
    let named = Named {
        trace,
        profile: &profile,
    };
    Ok(telling.tell(alloc, &named)?)
}

/// What profiles the records of a trace, before the first has come.
///
/// # Errors
///
/// Where an allocation failed.
fn records_of(
    alloc: Global,
    request: &Request,
    trace: &Trace<'_>,
) -> Result<ProfiledRecords, AllocError>
    ensures beginning { IfOk result (IsBeginning trace.now request.now.burdens) }
    ensures asked { IfOk result (λ records. records.workers ≡ request.now.workers) }
{
    trace.keeps_limits();
    let run = RecordHead {
        root: trace.root(),
        sites: trace.sites(),
        funcs: trace.funcs(),
        count: trace.count(),
    };
    Ok(ProfiledRecords {
        profile: RecordProfile::new(alloc, run, request.burdens)?,
        alloc,
        workers: request.workers.number(),
    })
}

/// A copy of the header that these bytes begin with, as long as [`header_len`] says.
///
/// # Errors
///
/// Where an allocation failed.
fn header_of(alloc: Global, bytes: &[u8]) -> Result<Vec<u8>, AllocError>
    ensures within { IfOk result (λ header. length header.items ≤ length bytes.now) }
    ensures front { IfOk result (λ header. header.items ≡ take (length header.items) bytes.now) }
{
    bytes[..header_len(bytes)].to_vec(alloc)
}

/// The trace without events that this header is, with which these bytes begin, and what it says; none where `header` isn't just a
/// header, or an allocation failed.
///
/// # Errors
///
/// Where no trace begins with these bytes, but for what [`open_front`] says.
fn open_header<'a>(
    alloc: Global,
    header: &'a [u8],
    bytes: &[u8],
) -> Result<Option<(Head, Trace<'a>)>, Refusal>
    requires within { length header.now ≤ length bytes.now }
    requires front { header.now ≡ take (length header.now) bytes.now }
    ensures head { IfOk result (λ o. IfSome o (λ h. IsHeadOf h.0.version (take h.0.len bytes.now) h.0.sites h.0.funcs h.0.count)) }
    ensures within { IfOk result (λ o. IfSome o (λ h. h.0.len ≤ length bytes.now)) }
    ensures trace { IfOk result (λ o. IfSome o (λ h. IsTraceOf (take h.0.len bytes.now) h.1)) }
    ensures refused { IfErr result (λ refusal. IfLine refusal (λ line. (more : List ℕ) → TellsHeader (bytes.now ++ more) line)) }
{
    let Some(trace) = open_front(alloc, header)? else {
        return Ok(None);
    };
    let head = Head::of_trace(&trace, header);
    if head.len < header.len() {
        return Ok(None);
    }
    Ok(Some((head, trace)))
}

/// What is told of the run whose trace an input gives, or why nothing is.
///
/// The events of a trace are profiled as they come, in blocks, and let go; by two workers or more, threads go over the blocks while
/// the next ones come, and this one goes over some where it would wait for them, or where blocks are slow to join. Read whole first are an input that ends within its header,
/// and one where memory is refused for its header or for the beginning of its profile. Where no trace begins as it does, it is
/// refused without reading on where [`open_front`] shows that.
pub(crate) fn tell_input<R: Threads + Wait + Sync, S: Source + Send, T: Telling>(
    rt: &R,
    alloc: Global,
    request: &Request,
    source: &mut S,
    place: Place,
    telling: &T,
) -> Result<T::Told, Refusal>
    ensures told { IfOk result (λ told. (bytes : List ℕ) × (giving_of S.answered S.failed S.failures source.old source.new).Gave bytes × IsTold (T.tells telling.now) request.now.burdens bytes told) }
    ensures refused { IfErr result (IsInputRefused (giving_of S.answered S.failed S.failures source.old source.new) place IsOneCheckLine) }
{
    let hint = source.hint();
    let front = read_front(alloc, source, hint, place, HeaderEnd::new())?;
    let came = match front {
        Front::Whole(bytes) => return tell_bytes(rt, alloc, request, bytes.as_slice(), telling),
        Front::Part(came) => came,
    };
    let bytes = came.as_slice();
    let Ok(header) = header_of(alloc, bytes) else {
        return tell_whole(rt, alloc, request, source, place, came, hint, telling);
    };
    let Some((head, trace)) = open_header(alloc, header.as_slice(), bytes)? else {
        return tell_whole(rt, alloc, request, source, place, came, hint, telling);
    };
    let Ok(records) = records_of(alloc, request, &trace) else {
        return tell_whole(rt, alloc, request, source, place, came, hint, telling);
    };
    tell_records(
        rt, alloc, request, source, place, head, &trace, records, came, telling,
    )
}
