//! Whole runs of `migrate`, and of other commands over a trace of version 2.

use super::commands::command_ends_with;
use spp_request::Command;

/// A trace of version 1: a strand of 5, a call by site `A` of function `main`, its return, and a sync.
const OLD: &[u8] = b"SPTRACE1\x00\x00\x00\x01\x00\x00\x00\x01\x00\x00\x00\x00\x00\x00\x00\x04\
\x00\x04main\x00\x01A\
\x00\x00\x00\x00\x00\x00\x00\x00\x00\x00\x00\x00\x00\x00\x00\x05\
\x01\x00\x00\x00\x00\x00\x00\x00\x00\x00\x00\x00\x00\x00\x00\x00\
\x03\x00\x00\x00\x00\x00\x00\x00\x00\x00\x00\x00\x00\x00\x00\x00\
\x04\x00\x00\x00\x00\x00\x00\x00\x00\x00\x00\x00\x00\x00\x00\x00";

/// The same in version 2.
const NEW: &[u8] = b"SPTRACE2\x00\x00\x00\x01\x00\x00\x00\x01\x00\x00\x00\x00\x00\x00\x00\x04\
\x00\x04main\x00\x01A\
\x80\x45\x81\x40\x40\x83\x84";

const NONE: &[u8] = b"";

#[test]
fn a_trace_is_written_in_version_2(rt: HostRuntime) {
    assert!(rt; command_ends_with(&rt, Command::Migrate, OLD, 0, NEW, NONE));
}

#[test]
fn what_is_in_version_2_stays_as_it_is(rt: HostRuntime) {
    assert!(rt; command_ends_with(&rt, Command::Migrate, NEW, 0, NEW, NONE));
}

#[test]
fn both_versions_have_one_work(rt: HostRuntime) {
    let work = b"work 5\n".as_slice();
    assert!(rt; command_ends_with(&rt, Command::Check, OLD, 0, work, NONE));
    assert!(rt; command_ends_with(&rt, Command::Check, NEW, 0, work, NONE));
}

/// What behind the header of `NEW` stands for its four events, and the line that tells the first bad one of them, if
/// only the bytes of events are looked at.
const FAULTY: &[(&[u8], &[u8])] = &[
    (b"", b"bad event 0: truncated\n"),
    (b"\x41", b"bad event 0: tag\n"),
    (b"\x80\x45\x85", b"bad event 1: tag\n"),
    (b"\x80\x45\x81\x40", b"bad event 1: operand\n"),
    (b"\x80\x00\x45\x83\x83\x83", b"bad event 0: operand\n"),
    (b"\x80\x45\x81\x41\x40\x83\x84", b"bad event 1: site\n"),
    (b"\x80\x45\x81\x40\x41\x83\x84", b"bad event 1: function\n"),
    (b"\x80\x45\x81\x40\x40\x83", b"bad event 3: truncated\n"),
    (
        b"\x80\x45\x81\x40\x40\x83\x84\x84",
        b"bad header: trailing\n",
    ),
];

#[test]
fn what_is_wrong_is_told_in_one_line(rt: HostRuntime) -> Result<(), std::test::Fail> {
    for (body, line) in FAULTY {
        let mut bytes = NEW[..33].to_vec(rt.alloc())?;
        bytes.extend_from_slice(body)?;
        assert!(rt; command_ends_with(&rt, Command::Migrate, bytes.as_slice(), 1, NONE, line));
        assert!(rt; command_ends_with(&rt, Command::Check, bytes.as_slice(), 1, NONE, line));
    }
    Ok(())
}

#[test]
fn frames_need_not_nest(rt: HostRuntime) {
    let old = b"SPTRACE1\x00\x00\x00\x01\x00\x00\x00\x00\x00\x00\x00\x00\x00\x00\x00\x01\
\x00\x04main\
\x03\x00\x00\x00\x00\x00\x00\x00\x00\x00\x00\x00\x00\x00\x00\x00"
        .as_slice();
    let new = b"SPTRACE2\x00\x00\x00\x01\x00\x00\x00\x00\x00\x00\x00\x00\x00\x00\x00\x01\
\x00\x04main\x83"
        .as_slice();
    assert!(rt; command_ends_with(&rt, Command::Migrate, old, 0, new, NONE));
    let told = b"bad event 0: root return\n".as_slice();
    assert!(rt; command_ends_with(&rt, Command::Check, new, 1, NONE, told));
}
