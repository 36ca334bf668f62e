//! A command over bytes in memory.

use super::fakes::{dripping, empty_cup, unread};
use spp_cut::Parts;
use spp_maxplus::Burdens;
use spp_request::{Command, Request, Workers};
use spp_shell::run;
use std::alloc::Global;
use std::random::RandomSource;
use std::sync::Wait;
use std::thread::Threads;

/// Bytes that no trace begins with, no more of them than show it, and what is wrong with them.
pub const NO_FRONTS: &[(&[u8], &str)] = &[
    (b"\0\0\0\0\0\0\0\0\0\0\0\0\0\0\0\0\0\0\0\0\0\0\0\0", "magic"),
    (b"SPTRACE3\0\0\0\x01\0\0\0\0\0\0\0\0\0\0\0\0", "magic"),
    (b"SPTRACE1\0\0\0\0\0\0\0\0\0\0\0\0\0\0\0\0", "limits"),
    (b"SPTRACE1\0\x01\0\x01\0\0\0\0\0\0\0\0\0\0\0\0", "limits"),
    (b"SPTRACE1\0\0\0\x01\0\x01\0\x01\0\0\0\0\0\0\0\0", "limits"),
    (b"SPTRACE2\0\0\0\x01\0\0\0\0\0\0\0\0\x10\0\0\x01", "limits"),
    (
        b"SPTRACE1\0\0\0\x02\0\0\0\0\0\0\0\x02\0\0\0\0",
        "root function",
    ),
    (b"SPTRACE1\0\0\0\x01\0\0\0\0\0\0\0\0\0\0\0\0\0\0", "name 0"),
    (
        b"SPTRACE2\0\0\0\x02\0\0\0\0\0\0\0\0\0\0\0\0\0\x01f\0\xc9",
        "name 1",
    ),
    (
        b"SPTRACE1\0\0\0\x01\0\0\0\x01\0\0\0\0\0\0\0\0\0\x01f\0\x02A\x7f",
        "name 1",
    ),
    (
        b"SPTRACE1\0\0\0\x01\0\0\0\x02\0\0\0\0\0\0\0\0\0\x01A\0\x01A\0\x01A",
        "same name 2",
    ),
    (
        b"SPTRACE2\0\0\0\x01\0\0\0\x01\0\0\0\0\0\0\0\0\0\x01f\0\x06(root)",
        "same name 1",
    ),
];

/// A request for this over inputs without a name, with burdens of 3, 16 parts and 4 workers.
pub fn request_for(alloc: Global, command: Command) -> Request {
    Request {
        command,
        files: Vec::new(alloc),
        burdens: Burdens::equal(3),
        parts: Parts::default(),
        workers: Workers::default(),
        csv: false,
    }
}

/// Runs the command on the bytes, and says whether it ended with this status, output and line of fault.
pub fn command_ends_with<R: Threads + Wait + Sync + RandomSource + AllocGlobal>(
    rt: &R,
    command: Command,
    bytes: &[u8],
    ends: u8,
    text: &[u8],
    line: &[u8],
) -> bool {
    let request = request_for(rt.alloc(), command);
    request_ends_with(rt, &request, bytes, ends, text, line)
}

/// Runs the request on the bytes, and says the same.
pub fn request_ends_with<R: Threads + Wait + Sync + RandomSource + AllocGlobal>(
    rt: &R,
    request: &Request,
    bytes: &[u8],
    ends: u8,
    text: &[u8],
    line: &[u8],
) -> bool {
    let alloc = rt.alloc();
    let (mut out, mut err) = (empty_cup(alloc, 2000), empty_cup(alloc, 100));
    let (mut first, mut second) = (dripping(bytes), unread());
    let got = run(
        rt,
        alloc,
        request,
        &mut first,
        &mut second,
        &mut out,
        &mut err,
    );
    got == ends && out.taken.as_slice() == text && err.taken.as_slice() == line
}
