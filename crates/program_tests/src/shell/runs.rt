//! Whole runs: what goes out, what is told, and the status.

use super::commands::{NO_FRONTS, command_ends_with, request_for};
use super::fakes::{Cup, dripping, empty_cup, failing, unread};
use spp_report::{OutSink, Sink};
use spp_request::{Command, Request, UsageFault};
use spp_shell::{InSource, Place, Source, refuse_input, refuse_long_input, run, show_usage};
use std::alloc::{AllocError, Global};
use std::io;
use std::io::{ErrorKind, Write};
use std::random::RandomSource;
use std::sync::Wait;
use std::test::Fail;
use std::thread::Threads;

/// A request to check standard input.
fn check_input(alloc: Global) -> Request {
    request_for(alloc, Command::Check)
}

/// A header of the functions `main` and `f`, the site `A` and two events.
const HEADER: &[u8] = b"SPTRACE1\x00\x00\x00\x02\x00\x00\x00\x01\x00\x00\x00\x00\x00\x00\x00\x02\
\x00\x04main\x00\x01f\x00\x01A";

const STRAND: &[u8] = b"\x00\x00\x00\x00\x00\x00\x00\x00\xff\xff\xff\xff\xff\xff\xff\xff";

const CALL: &[u8] = b"\x01\x00\x00\x00\x00\x00\x00\x00\x00\x00\x00\x01\x00\x00\x00\x00";

const RETURN: &[u8] = b"\x03\x00\x00\x00\x00\x00\x00\x00\x00\x00\x00\x00\x00\x00\x00\x00";

const OTHER_TAG: &[u8] = b"\x05\x00\x00\x00\x00\x00\x00\x00\x00\x00\x00\x00\x00\x00\x00\x00";

/// The bytes of a trace with these two records.
fn trace_of(alloc: Global, records: [&[u8]; 2]) -> Result<Vec<u8>, AllocError> {
    let mut bytes = HEADER.to_vec(alloc)?;
    bytes.extend_from_slice(records[0])?;
    bytes.extend_from_slice(records[1])?;
    Ok(bytes)
}

/// Whether `check` of the bytes ends with this status, output and line of fault.
fn ends_with<R: Threads + Wait + Sync + RandomSource + AllocGlobal>(
    rt: &R,
    bytes: &[u8],
    ends: u8,
    text: &[u8],
    line: &[u8],
) -> bool {
    command_ends_with(rt, Command::Check, bytes, ends, text, line)
}

#[test]
fn a_good_trace_prints_its_work(rt: HostRuntime) -> Result<(), Fail> {
    let bytes = trace_of(rt.alloc(), [STRAND, STRAND])?;
    let text = b"work 36893488147419103230\n".as_slice();
    assert!(rt; ends_with(&rt, bytes.as_slice(), 0, text, b"".as_slice()));
    let bytes = trace_of(rt.alloc(), [CALL, RETURN])?;
    let text = b"work 0\n".as_slice();
    assert!(rt; ends_with(&rt, bytes.as_slice(), 0, text, b"".as_slice()));
    Ok(())
}

/// Two records, and the line that tells what is wrong with a trace of them.
const BAD_EVENTS: &[(&[u8], &[u8], &[u8])] = &[
    (STRAND, RETURN, b"bad event 1: root return\n"),
    (CALL, STRAND, b"bad event 2: unclosed 1\n"),
    (CALL, OTHER_TAG, b"bad event 1: tag\n"),
    (CALL, b"\x01", b"bad event 1: truncated\n"),
];

#[test]
fn a_bad_trace_is_told_in_one_line(rt: HostRuntime) -> Result<(), Fail> {
    for (first, second, line) in BAD_EVENTS {
        let bytes = trace_of(rt.alloc(), [first, second])?;
        assert!(rt; ends_with(&rt, bytes.as_slice(), 1, b"".as_slice(), line));
    }
    Ok(())
}

/// Bytes that are no header, and the line that tells it.
const BAD_HEADERS: &[(&[u8], &[u8])] = &[
    (b"", b"bad header: short\n"),
    (b"SPTRACE3................", b"bad header: magic\n"),
    (b"SPTRACE2................", b"bad header: limits\n"),
];

#[test]
fn a_bad_header_is_told_in_one_line(rt: HostRuntime) {
    for (bytes, line) in BAD_HEADERS {
        assert!(rt; ends_with(&rt, bytes, 1, b"".as_slice(), line));
    }
}

#[test]
fn an_output_that_fails_ends_with_status_3(rt: HostRuntime) -> Result<(), Fail> {
    let bytes = trace_of(rt.alloc(), [CALL, RETURN])?;
    for room in 0..7usize {
        let (mut out, mut err) = (empty_cup(rt.alloc(), room), empty_cup(rt.alloc(), 100));
        let mut first = dripping(bytes.as_slice());
        let ends = run(
            &rt,
            rt.alloc(),
            &check_input(rt.alloc()),
            &mut first,
            &mut unread(),
            &mut out,
            &mut err,
        );
        assert_eq!(rt; ends, 3);
        assert_eq!(rt;
            Some(out.taken.as_slice()),
            b"work 0\n".as_slice().get(..room)
        );
        assert_eq!(rt; err.taken.as_slice(), b"cannot write output\n".as_slice());
    }
    Ok(())
}

/// One of std's writers that takes three bytes at a time, and fails once: at the write or flush of number `fails_at`,
/// from 0.
#[derive(Drop)]
struct Hiccup {
    taken: Vec<u8>,
    calls: usize,
    fails_at: usize,
}

impl Hiccup {
    fn fail_once(&mut self) -> io::Result<()> {
        let call = self.calls;
        self.calls = call.saturating_add(1);
        if call == self.fails_at {
            return Err(ErrorKind::Other.into());
        }
        Ok(())
    }
}

impl Write for Hiccup {
    fn write(&mut self, buf: &[u8]) -> io::Result<usize> {
        self.fail_once()?;
        let n = buf.len().min(3);
        match self.taken.extend_from_slice(&buf[..n]) {
            Ok(()) => Ok(n),
            Err(_) => Err(ErrorKind::OutOfMemory.into()),
        }
    }

    fn flush(&mut self) -> io::Result<()> {
        self.fail_once()
    }
}

/// The answer takes three writes and a flush. Where one of them fails, nothing is asked of the output afterwards, though
/// it would take bytes again.
#[test]
fn an_output_that_fails_once_is_not_written_to_again(rt: HostRuntime) -> Result<(), Fail> {
    let bytes = trace_of(rt.alloc(), [CALL, RETURN])?;
    let text = b"work 0\n".as_slice();
    let line = b"cannot write output\n".as_slice();
    for (fails_at, ends, taken, told, calls) in [
        (0, 3, b"".as_slice(), line, 1),
        (1, 3, b"wor".as_slice(), line, 2),
        (2, 3, b"work 0".as_slice(), line, 3),
        (3, 3, text, line, 4),
        (4, 0, text, b"".as_slice(), 4),
    ] {
        let mut out = OutSink::new(Hiccup {
            taken: Vec::new(rt.alloc()),
            calls: 0,
            fails_at,
        });
        let mut err = empty_cup(rt.alloc(), 100);
        let got = run(
            &rt,
            rt.alloc(),
            &check_input(rt.alloc()),
            &mut dripping(bytes.as_slice()),
            &mut unread(),
            &mut out,
            &mut err,
        );
        assert_eq!(rt; got, ends, "call {fails_at}");
        assert_eq!(rt; err.taken.as_slice(), told, "call {fails_at}");
        let writer = out.into_inner();
        assert_eq!(rt; writer.taken.as_slice(), taken, "call {fails_at}");
        assert_eq!(rt; writer.calls, calls, "call {fails_at}");
    }
    Ok(())
}

#[test]
fn an_input_that_fails_ends_with_status_3(rt: HostRuntime) -> Result<(), Fail> {
    let bytes = trace_of(rt.alloc(), [CALL, RETURN])?;
    for fails_at in [0, 1, 67, 68] {
        let (mut out, mut err) = (empty_cup(rt.alloc(), 100), empty_cup(rt.alloc(), 100));
        let mut first = failing(bytes.as_slice(), fails_at);
        let ends = run(
            &rt,
            rt.alloc(),
            &check_input(rt.alloc()),
            &mut first,
            &mut unread(),
            &mut out,
            &mut err,
        );
        assert_eq!(rt; ends, 3);
        assert_eq!(rt; out.taken.len(), 0);
        assert_eq!(rt; err.taken.as_slice(), b"cannot read input\n".as_slice());
    }
    Ok(())
}

/// The commands that read one trace.
const OF_A_TRACE: &[Command] = &[
    Command::Check,
    Command::Figures,
    Command::Profile,
    Command::Migrate,
];

/// The status and the line that a command ends with over an input.
fn ending<R: Threads + Wait + Sync + RandomSource + AllocGlobal, S: Source + Send>(
    rt: &R,
    command: Command,
    first: &mut S,
) -> (u8, Vec<u8>) {
    let alloc = rt.alloc();
    let (mut out, mut err) = (empty_cup(alloc, 100), empty_cup(alloc, 100));
    let request = request_for(alloc, command);
    let ends = run(
        rt,
        alloc,
        &request,
        first,
        &mut unread(),
        &mut out,
        &mut err,
    );
    (ends, err.taken)
}

/// Each input fails behind its bytes: where no trace begins with them, it isn't read so far; where one byte less came it is.
#[test]
fn what_no_trace_begins_with_is_refused_as_soon_as_it_came(rt: HostRuntime) -> Result<(), Fail> {
    for (front, fault) in NO_FRONTS {
        let line = format!(in rt.alloc(); "bad header: {fault}\n")?;
        let reads = front.len() as u64;
        for command in OF_A_TRACE {
            let mut first = failing(front, reads);
            let (ends, told) = ending(&rt, *command, &mut first);
            assert_eq!(rt; (ends, first.reads), (1, reads), "{line}");
            assert_eq!(rt; told.as_slice(), line.as_bytes());
            let mut shorter = failing(front, reads.saturating_sub(1));
            let (ends, told) = ending(&rt, *command, &mut shorter);
            assert_eq!(rt; ends, 3, "{line}");
            assert_eq!(rt; told.as_slice(), b"cannot read input\n".as_slice());
        }
    }
    Ok(())
}

#[test]
fn an_input_without_an_end_is_refused(rt: HostRuntime) {
    for command in OF_A_TRACE {
        let mut first = InSource::new(io::repeat(0));
        let (ends, told) = ending(&rt, *command, &mut first);
        assert_eq!(rt; ends, 1);
        assert_eq!(rt; told.as_slice(), b"bad header: magic\n".as_slice());
    }
}

#[test]
fn a_device_for_faults_that_fails_changes_nothing_else(rt: HostRuntime) {
    let (mut out, mut err) = (empty_cup(rt.alloc(), 100), empty_cup(rt.alloc(), 4));
    let ends = run(
        &rt,
        rt.alloc(),
        &check_input(rt.alloc()),
        &mut dripping(b"".as_slice()),
        &mut unread(),
        &mut out,
        &mut err,
    );
    assert_eq!(rt; ends, 1);
    assert_eq!(rt; out.taken.len(), 0);
    assert_eq!(rt; err.failures(), 1);
}

/// A text that is shown.
fn shown(alloc: Global, ends: u8) -> Result<UsageFault, AllocError> {
    Ok(UsageFault::Shown {
        text: "text\n".to_string(alloc)?,
        status: ends,
    })
}

/// Shows a fault, and says whether that ended with this status, output and line of fault.
fn shows(
    fault: UsageFault,
    mut out: Cup,
    mut err: Cup,
    ends: u8,
    text: &[u8],
    line: &[u8],
) -> bool {
    let got = show_usage(fault, &mut out, &mut err);
    got == ends && out.taken.as_slice() == text && err.taken.as_slice() == line
}

#[test]
fn help_goes_to_the_output_and_the_rest_does_not(rt: HostRuntime) -> Result<(), Fail> {
    let cup = || empty_cup(rt.alloc(), 100);
    let (text, none) = (b"text\n".as_slice(), b"".as_slice());
    assert!(rt; shows(shown(rt.alloc(), 0)?, cup(), cup(), 0, text, none));
    assert!(rt; shows(shown(rt.alloc(), 2)?, cup(), cup(), 2, none, text));
    let line = b"out of memory\n".as_slice();
    assert!(rt; shows(UsageFault::Memory, cup(), cup(), 4, none, line));
    let (part, line) = (b"te".as_slice(), b"cannot write output\n".as_slice());
    assert!(rt;
        shows(
            shown(rt.alloc(), 0)?,
            empty_cup(rt.alloc(), 2),
            cup(),
            3,
            part,
            line
        )
    );
    Ok(())
}

#[test]
fn an_input_that_cannot_be_opened_is_told(rt: HostRuntime) {
    for (place, line) in [
        (Place::Only, "cannot open input\n"),
        (Place::Before, "before: cannot open input\n"),
        (Place::After, "after: cannot open input\n"),
    ] {
        let mut err = empty_cup(rt.alloc(), 100);
        assert_eq!(rt; refuse_input(place, &mut err), 3);
        assert_eq!(rt; err.taken.as_slice(), line.as_bytes());
    }
}

#[test]
fn an_input_that_is_too_long_is_told(rt: HostRuntime) {
    for (place, line) in [
        (Place::Only, "input too long\n"),
        (Place::Before, "before: input too long\n"),
        (Place::After, "after: input too long\n"),
    ] {
        let mut err = empty_cup(rt.alloc(), 100);
        assert_eq!(rt; refuse_long_input(place, &mut err), 3);
        assert_eq!(rt; err.taken.as_slice(), line.as_bytes());
    }
}
