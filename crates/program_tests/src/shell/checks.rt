//! Runs of `check`, `figures`, `profile` and `migrate` over inputs that come in pieces of all sizes, beside what is said of all
//! their bytes at once.

use super::commands::request_for;
use super::fakes::{empty_cup, unread};
use spp_event::{Event, MigrateFault, Trace, migrate, open_trace, record_of};
use spp_frame::{ProfileFault, check};
use spp_report::{Named, figures_text, plain_text};
use spp_request::{Command, Request, Workers};
use spp_serial::profile_serial;
use spp_shell::{InSource, run};
use std::alloc::{AllocError, Global};
use std::io;
use std::io::{ErrorKind, Read};
use std::random::RandomSource;
use std::sync::Wait;
use std::test::Fail;
use std::thread::Threads;

/// The size of the piece that the read of this number gives, from 0: they come in turn.
fn size_at(sizes: &[usize], read: usize) -> usize {
    let turn = read.checked_rem(sizes.len()).unwrap_or(0);
    sizes.get(turn).copied().unwrap_or(1)
}

/// One of std's readers that gives pieces of these sizes in turn, and is interrupted where one is 0. It fails at the read
/// of number `fails_at`, from 0, and at no other.
#[derive(Drop)]
struct Pieces<'a> {
    bytes: &'a [u8],
    sizes: &'a [usize],
    reads: usize,
    fails_at: usize,
}

impl Read for Pieces<'_> {
    fn read(&mut self, buf: &mut [u8]) -> io::Result<usize> {
        let read = self.reads;
        self.reads = read.saturating_add(1);
        if read == self.fails_at {
            return Err(ErrorKind::Other.into());
        }
        let size = size_at(self.sizes, read);
        if size == 0 {
            return Err(ErrorKind::Interrupted.into());
        }
        let n = size.min(buf.len()).min(self.bytes.len());
        let (piece, rest) = self.bytes.split_at(n);
        buf[..n].copy_from_slice(piece);
        self.bytes = rest;
        Ok(n)
    }
}

/// Sizes of pieces that cut records in all ways, for a small trace.
pub(super) const SMALL: &[&[usize]] = &[
    &[1],
    &[16],
    &[15, 17],
    &[7, 0, 0, 25],
    &[100, 3, 15],
    &[65536],
];

/// Sizes near those that are read at a time, for a large one.
pub(super) const LARGE: &[&[usize]] = &[&[4099], &[65535, 0, 2], &[65536], &[1000000]];

/// What a run ends with: its status, its output and its line of fault.
#[derive(Drop)]
struct Ending {
    status: u8,
    text: Vec<u8>,
    line: Vec<u8>,
}

impl Ending {
    fn is(&self, other: &Ending) -> bool {
        self.status == other.status
            && self.text.as_slice() == other.text.as_slice()
            && self.line.as_slice() == other.line.as_slice()
    }
}

/// What is asked: a command, by so many workers.
pub(super) type Asked = (Command, u32);

/// The same work of all commands that read records as they come, by one worker and by several.
pub(super) const ASKED: &[Asked] = &[
    (Command::Check, 1),
    (Command::Figures, 1),
    (Command::Figures, 4),
    (Command::Profile, 1),
    (Command::Profile, 4),
    (Command::Migrate, 1),
];

/// What is asked, with burdens of 3.
fn request_of(alloc: Global, (command, workers): Asked) -> Request {
    Request {
        workers: Workers::new(workers).unwrap_or_default(),
        ..request_for(alloc, command)
    }
}

/// What the request says of a trace as text, or in bytes, or the line of its first bad event.
fn told(
    alloc: Global,
    request: &Request,
    trace: &Trace<'_>,
) -> Result<Result<Vec<u8>, String>, AllocError> {
    let fault = match request.command {
        Command::Figures | Command::Profile => match profile_serial(alloc, trace, request.burdens) {
            Ok(profile) => {
                if matches!(request.command, Command::Figures) {
                    return Ok(Ok(figures_text(alloc, &profile.figures)?));
                }
                let named = Named {
                    trace,
                    profile: &profile,
                };
                return Ok(Ok(plain_text(alloc, &named)?));
            }
            Err(ProfileFault::Bad(fault)) => fault,
            Err(ProfileFault::Memory) => return Err(AllocError),
        },
        Command::Migrate => match migrate(alloc, trace) {
            Ok(bytes) => return Ok(Ok(bytes)),
            Err(MigrateFault::Bad { at, why }) => {
                return Ok(Err(format!(in alloc; "bad event {at}: {why}\n")?));
            }
            Err(MigrateFault::Memory) => return Err(AllocError),
        },
        _ => match check(trace) {
            Ok(work) => return Ok(Ok(format!(in alloc; "work {work}\n")?.into_bytes())),
            Err(fault) => fault,
        },
    };
    Ok(Err(format!(in alloc; "bad event {fault}\n")?))
}

/// What the request says of all the bytes at once.
fn wanted(alloc: Global, request: &Request, bytes: &[u8]) -> Result<Ending, AllocError> {
    let told = match open_trace(alloc, bytes) {
        Err(fault) => Err(format!(in alloc; "bad header: {fault}\n")?),
        Ok(trace) => told(alloc, request, &trace)?,
    };
    match told {
        Ok(text) => Ok(Ending {
            status: 0,
            text,
            line: Vec::new(alloc),
        }),
        Err(line) => Ok(Ending {
            status: 1,
            text: Vec::new(alloc),
            line: line.into_bytes(),
        }),
    }
}

/// What the program ends with over the bytes in pieces of these sizes.
fn got<R: Threads + Wait + Sync + RandomSource + AllocGlobal>(
    rt: &R,
    request: &Request,
    bytes: &[u8],
    sizes: &[usize],
    fails_at: usize,
    hint: Option<u64>,
) -> Ending {
    let alloc = rt.alloc();
    let (mut out, mut err) = (empty_cup(alloc, 1 << 20), empty_cup(alloc, 100));
    let reader = Pieces {
        bytes,
        sizes,
        reads: 0,
        fails_at,
    };
    let (mut first, mut second) = (InSource::with_hint(reader, hint), unread());
    let status = run(
        rt,
        alloc,
        request,
        &mut first,
        &mut second,
        &mut out,
        &mut err,
    );
    Ending {
        status,
        text: out.taken,
        line: err.taken,
    }
}

/// Whether the command ends so over the bytes in pieces of each of these sizes, and as an input does that can't be read where
/// one of the reads `failing` fails.
pub(super) fn ends_so<R: Threads + Wait + Sync + RandomSource + AllocGlobal>(
    rt: &R,
    command: Command,
    bytes: &[u8],
    all_sizes: &[&[usize]],
    failing: &[usize],
    wanted: (u8, &[u8], &[u8]),
) -> bool {
    let request = request_for(rt.alloc(), command);
    for sizes in all_sizes {
        let ending = got(rt, &request, bytes, sizes, usize::MAX, None);
        if (
            ending.status,
            ending.text.as_slice(),
            ending.line.as_slice(),
        ) != wanted
        {
            return false;
        }
    }
    for read in failing {
        let ending = got(rt, &request, bytes, &[65536], *read, None);
        let unread = b"cannot read input\n".as_slice();
        if (ending.status, ending.text.len(), ending.line.as_slice()) != (3, 0, unread) {
            return false;
        }
    }
    true
}

/// Whether pieces of these sizes end as all the bytes at once, and so do the bytes of a file whose length is known.
pub(super) fn ends_alike<R: Threads + Wait + Sync + RandomSource + AllocGlobal>(
    rt: &R,
    asked: &[Asked],
    bytes: &[u8],
    all_sizes: &[&[usize]],
) -> Result<bool, AllocError> {
    for asked in asked {
        let request = request_of(rt.alloc(), *asked);
        let wanted = wanted(rt.alloc(), &request, bytes)?;
        for sizes in all_sizes {
            if !wanted.is(&got(rt, &request, bytes, sizes, usize::MAX, None)) {
                return Ok(false);
            }
        }
        let hint = Some(bytes.len() as u64);
        if !wanted.is(&got(rt, &request, bytes, &[65536], usize::MAX, hint)) {
            return Ok(false);
        }
    }
    Ok(true)
}

/// The first 24 bytes of a trace of two functions, so many sites and so many events.
fn numbers(alloc: Global, sites: u32, events: u32) -> Result<Vec<u8>, AllocError> {
    let mut bytes = b"SPTRACE1\x00\x00\x00\x02".as_slice().to_vec(alloc)?;
    for number in [sites, 1, events] {
        bytes.extend_from_slice(&number.to_be_bytes())?;
    }
    Ok(bytes)
}

/// The header of a trace of so many sites, whose names have six bytes, and of so many events.
pub(super) fn header(alloc: Global, sites: u32, events: u32) -> Result<Vec<u8>, AllocError> {
    let mut bytes = numbers(alloc, sites, events)?;
    bytes.extend_from_slice(b"\x00\x04main\x00\x01f")?;
    for site in 0..sites {
        bytes.extend_from_slice(b"\x00\x06")?;
        for place in [100000, 10000, 1000, 100, 10, 1] {
            bytes.push(b'0' + (site / place % 10) as u8)?;
        }
    }
    Ok(bytes)
}

/// The event at a position: five that open and close a frame, again and again.
fn event_at(at: u32) -> Event {
    match at % 5 {
        0 => Event::Strand {
            count: u64::from(at) + 1,
        },
        1 => Event::Spawn { site: 0, func: 1 },
        2 => Event::Strand { count: u64::MAX },
        3 => Event::Ret,
        _ => Event::Sync,
    }
}

/// A trace of so many sites and events.
pub(super) fn trace(alloc: Global, sites: u32, events: u32) -> Result<Vec<u8>, AllocError> {
    let mut bytes = header(alloc, sites, events)?;
    for at in 0..events {
        bytes.extend_from_slice(record_of(event_at(at)).as_slice())?;
    }
    Ok(bytes)
}

#[test]
fn a_small_trace_is_cut_off_at_each_byte(rt: HostRuntime) -> Result<(), Fail> {
    let bytes = trace(rt.alloc(), 2, 10)?;
    for len in 0..bytes.len() + 1 {
        assert!(rt; ends_alike(&rt, ASKED, &bytes[..len], SMALL)?, "{len}");
    }
    Ok(())
}

#[test]
fn a_small_trace_has_more_bytes_behind_it(rt: HostRuntime) -> Result<(), Fail> {
    let mut bytes = trace(rt.alloc(), 2, 10)?;
    for more in 0..40u8 {
        bytes.push(more)?;
        assert!(rt; ends_alike(&rt, ASKED, bytes.as_slice(), SMALL)?, "{more}");
    }
    Ok(())
}

#[test]
fn each_byte_of_a_small_trace_is_another(rt: HostRuntime) -> Result<(), Fail> {
    let mut bytes = trace(rt.alloc(), 2, 5)?;
    for at in 0..bytes.len() {
        let before = bytes[at];
        for byte in [0, 3, 50] {
            bytes.as_mut_slice()[at] = byte;
            let bytes = bytes.as_slice();
            assert!(rt; ends_alike(&rt, &ASKED[..1], bytes, SMALL)?, "{at} {byte}");
            assert!(rt;
                ends_alike(&rt, &ASKED[1..], bytes, &SMALL[2..3])?,
                "{at} {byte}"
            );
        }
        bytes.as_mut_slice()[at] = before;
    }
    Ok(())
}

#[test]
fn a_header_is_longer_than_a_piece(rt: HostRuntime) -> Result<(), Fail> {
    let bytes = trace(rt.alloc(), 20000, 10000)?;
    assert!(rt; 200000 < bytes.len());
    for less in [0, 1, 16, 17, 65536, 159999, 160000, 160001, 170000] {
        let len = bytes.len().saturating_sub(less);
        assert!(rt;
            ends_alike(&rt, &ASKED[..1], &bytes[..len], LARGE)?,
            "{less}"
        );
    }
    Ok(())
}

#[test]
fn a_bad_event_is_told_wherever_it_stands(rt: HostRuntime) -> Result<(), Fail> {
    let mut bytes = trace(rt.alloc(), 1, 20000)?;
    let body = bytes.len().saturating_sub(320000);
    for record in [0usize, 4093, 4094, 4095, 8190, 19999] {
        let tag = body.saturating_add(record.saturating_mul(16));
        assert!(rt; tag < bytes.len());
        let before = bytes[tag];
        for byte in [1, 3, 9] {
            bytes.as_mut_slice()[tag] = byte;
            assert!(rt;
                ends_alike(&rt, ASKED, bytes.as_slice(), LARGE)?,
                "{record} {byte}"
            );
        }
        bytes.as_mut_slice()[tag] = before;
    }
    Ok(())
}

/// How many reads give so many bytes in pieces of these sizes, and then their end.
fn reads_of(len: usize, sizes: &[usize]) -> usize {
    let mut left = len;
    for read in 0..1000usize {
        let size = size_at(sizes, read);
        if left == 0 && size > 0 {
            return read + 1;
        }
        left = left.saturating_sub(size);
    }
    0
}

/// A device that fails at any read, that of the end too: the trace is good, has a bad event, or a byte too many.
#[test]
fn a_failure_is_told_before_what_came(rt: HostRuntime) -> Result<(), Fail> {
    let alloc = rt.alloc();
    let good = trace(alloc, 2, 10)?;
    let mut bad = trace(alloc, 2, 10)?;
    let tag = bad.len().saturating_sub(9 * 16);
    assert!(rt; tag < bad.len());
    bad.as_mut_slice()[tag] = 9;
    let mut long = trace(alloc, 2, 10)?;
    long.push(0)?;
    let told = Ending {
        status: 3,
        text: Vec::new(alloc),
        line: b"cannot read input\n".as_slice().to_vec(alloc)?,
    };
    for (bytes, line) in [
        (good.as_slice(), b"".as_slice()),
        (bad.as_slice(), b"bad event 1: tag\n".as_slice()),
        (long.as_slice(), b"bad header: trailing\n".as_slice()),
    ] {
        for asked in ASKED {
            let request = request_of(alloc, *asked);
            let wanted = wanted(alloc, &request, bytes)?;
            assert_eq!(rt; wanted.line.as_slice(), line);
            for sizes in SMALL {
                let reads = reads_of(bytes.len(), sizes);
                for fails_at in 0..reads {
                    let ending = got(&rt, &request, bytes, sizes, fails_at, None);
                    assert!(rt; told.is(&ending), "{fails_at} of {reads}");
                }
                assert!(rt;
                    wanted.is(&got(&rt, &request, bytes, sizes, reads, None)),
                    "{reads}"
                );
            }
        }
    }
    Ok(())
}

/// Puts bytes that are no event in place of a record, counted from the last; of none where there are fewer.
fn spoil(bytes: &mut [u8], from_last: usize) {
    let tag = bytes.len().saturating_sub(from_last.saturating_mul(16));
    if let Some(byte) = bytes.get_mut(tag) {
        *byte = 9;
    }
}

/// Blocks have 65,536 records: faults in the last record of one, in the first of the next, in two at once, and bytes that end
/// there or within a record.
#[test]
fn a_bad_event_is_told_wherever_blocks_end(rt: HostRuntime) -> Result<(), Fail> {
    let sizes: &[&[usize]] = &[&[65536]];
    for (asked, events) in [
        ((Command::Figures, 1), 131572),
        ((Command::Figures, 2), 262644),
        ((Command::Profile, 1), 131572),
        ((Command::Profile, 2), 262644),
    ] {
        let bytes = trace(rt.alloc(), 1, events)?;
        for records in [[501, 500], [500, 100], [100, 1]] {
            let mut bad = bytes.as_slice().to_vec(rt.alloc())?;
            for from_last in records {
                spoil(bad.as_mut_slice(), from_last);
            }
            assert!(rt;
                ends_alike(&rt, &[asked], bad.as_slice(), sizes)?,
                "{events}"
            );
        }
        for less in [8000, 8001] {
            let len = bytes.len().saturating_sub(less);
            assert!(rt;
                ends_alike(&rt, &[asked], &bytes[..len], sizes)?,
                "{events} {less}"
            );
        }
    }
    Ok(())
}
