//! Whole runs of `encode`.

use super::checks::{LARGE, ends_so};
use super::commands::{command_ends_with, request_for};
use super::fakes::{dripping, empty_cup, unread};
use spp_request::Command;
use spp_shell::run;
use std::alloc::{AllocError, Global};
use std::random::RandomSource;
use std::sync::Wait;
use std::test::Fail;
use std::thread::Threads;

const TEXT: &[u8] = b"func main\nstrand 1\n";

/// The bytes of the trace that `TEXT` names.
const TRACE: &[u8] = b"SPTRACE1\x00\x00\x00\x01\x00\x00\x00\x00\x00\x00\x00\x00\x00\x00\x00\x01\
\x00\x04main\
\x00\x00\x00\x00\x00\x00\x00\x00\x00\x00\x00\x00\x00\x00\x00\x01";

/// Whether `encode` of the bytes is refused with this line of fault.
fn is_refused<R: Threads + Wait + Sync + RandomSource + AllocGlobal>(
    rt: &R,
    bytes: &[u8],
    line: &str,
) -> bool {
    let none = b"".as_slice();
    command_ends_with(rt, Command::Encode, bytes, 1, none, line.as_bytes())
}

#[test]
fn a_good_text_gives_the_bytes_of_its_trace(rt: HostRuntime) {
    let none = b"".as_slice();
    assert_eq!(rt; TRACE.len(), 46);
    assert!(rt; command_ends_with(&rt, Command::Encode, TEXT, 0, TRACE, none));
}

/// Texts with a fault, some of them no UTF-8, and the line that tells it.
const FAULTY: &[(&[u8], &str)] = &[
    (b"strand x", "bad text line 1: no function\n"),
    (b"func main\nroot 1\nsync\n", "bad text line 3: root\n"),
    (b"func main\nsync\nsite A\n", "bad text line 3: late\n"),
    (b"func main\ncall 0 0\n", "bad text line 2: site\n"),
    (b"frob\n\n\xff\n", "bad text line 3: word\n"),
    (b"\xff\n\nfrob\n", "bad text line 1: word\n"),
    (b"\n\xc3\xa9\n\xc3", "bad text line 3: word\n"),
    (b"sync\n\xed\xa0\x80", "bad text line 2: word\n"),
];

#[test]
fn a_faulty_text_is_told_in_one_line(rt: HostRuntime) {
    for (bytes, line) in FAULTY {
        assert!(rt; is_refused(&rt, bytes, line), "{line}");
    }
}

#[test]
fn an_output_that_fails_has_the_first_bytes(rt: HostRuntime) {
    for room in [0usize, 1, 24, 45] {
        let (mut out, mut err) = (empty_cup(rt.alloc(), room), empty_cup(rt.alloc(), 100));
        let ends = run(
            &rt,
            rt.alloc(),
            &request_for(rt.alloc(), Command::Encode),
            &mut dripping(TEXT),
            &mut unread(),
            &mut out,
            &mut err,
        );
        assert_eq!(rt; ends, 3);
        assert_eq!(rt; Some(out.taken.as_slice()), TRACE.get(..room));
        assert_eq!(rt; err.taken.as_slice(), b"cannot write output\n".as_slice());
    }
}

/// A text of 12,000 events, each on a line of 15 bytes, behind a comment of so many: more than two blocks of 65,536 bytes.
fn long_text(alloc: Global, comment: usize) -> Result<Vec<u8>, AllocError> {
    let mut text = b"func main\n#".as_slice().to_vec(alloc)?;
    text.resize(text.len().saturating_add(comment), b' ')?;
    text.push(b'\n')?;
    for event in 10000..22000u32 {
        let line = if event % 2 == 0 {
            format!(in alloc; "\tstrand {event}\r\n")?
        } else {
            format!(in alloc; "strand  {event} \n")?
        };
        text.extend_from_slice(line.as_bytes())?;
    }
    Ok(text)
}

/// The bytes of the trace that it names.
fn long_trace(alloc: Global) -> Result<Vec<u8>, AllocError> {
    let mut trace = b"SPTRACE1\0\0\0\x01\0\0\0\0\0\0\0\0\0\0\x2e\xe0\0\x04main"
        .as_slice()
        .to_vec(alloc)?;
    for event in 10000..22000u64 {
        trace.extend_from_slice(&[0; 8])?;
        trace.extend_from_slice(&event.to_be_bytes())?;
    }
    Ok(trace)
}

/// Whether `encode` ends so over a long text in pieces of all sizes, and as an input does that can't be read where one of the
/// reads `failing` fails.
fn encodes_so<R: Threads + Wait + Sync + RandomSource + AllocGlobal>(
    rt: &R,
    text: &[u8],
    failing: &[usize],
    wanted: (u8, &[u8], &[u8]),
) -> bool {
    ends_so(rt, Command::Encode, text, LARGE, failing, wanted)
}

#[test]
fn a_text_is_read_in_pieces_of_any_size(rt: HostRuntime) -> Result<(), Fail> {
    let trace = long_trace(rt.alloc())?;
    let good = (0, trace.as_slice(), b"".as_slice());
    for comment in [0, 1, 2, 3, 4, 5, 6, 7, 8, 9, 10, 65500, 65524, 70000] {
        let text = long_text(rt.alloc(), comment)?;
        assert!(rt;
            encodes_so(&rt, text.as_slice(), &[0, 1, 2], good),
            "{comment}"
        );
    }
    let text = long_text(rt.alloc(), 0)?;
    let small: &[&[usize]] = &[&[1], &[16], &[15, 0, 17]];
    assert!(rt; ends_so(&rt, Command::Encode, text.as_slice(), small, &[], good));
    Ok(())
}

#[test]
fn a_fault_behind_many_lines_is_told(rt: HostRuntime) -> Result<(), Fail> {
    let none = b"".as_slice();
    let mut text = long_text(rt.alloc(), 5)?;
    text.extend_from_slice(b"site A\n")?;
    let late = (1, none, b"bad text line 12003: late\n".as_slice());
    assert!(rt; encodes_so(&rt, text.as_slice(), &[0, 3], late));
    let more = long_text(rt.alloc(), 7)?;
    text.extend_from_slice(more.as_slice())?;
    assert!(rt; encodes_so(&rt, text.as_slice(), &[0, 3, 5], late));
    text.push(0xff)?;
    let no_text = (1, none, b"bad text line 24006: word\n".as_slice());
    assert!(rt; encodes_so(&rt, text.as_slice(), &[0, 3, 5], no_text));
    Ok(())
}
