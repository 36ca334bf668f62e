//! Runs of `compare`.

use super::commands::{NO_FRONTS, request_for};
use super::fakes::{Drip, dripping, empty_cup, failing, unread};
use spp_cut::Parts;
use spp_event::{Event, record_of};
use spp_request::{Command, Request, Workers};
use spp_shell::run;
use std::alloc::{AllocError, Global};
use std::random::RandomSource;
use std::sync::Wait;
use std::test::Fail;
use std::thread::Threads;

const SPAWN: Event = Event::Spawn { site: 0, func: 1 };

/// A strand of 1, a child that is spawned with a strand of 10, a strand of 4 beside it, a sync, and a strand of 2.
const SYNCED: &[Event] = &[
    Event::Strand { count: 1 },
    SPAWN,
    Event::Strand { count: 10 },
    Event::Ret,
    Event::Strand { count: 4 },
    Event::Sync,
    Event::Strand { count: 2 },
];

/// A child that is spawned with a strand of 7, a strand of 2 beside it, and no sync.
const UNSYNCED: &[Event] = &[
    SPAWN,
    Event::Strand { count: 7 },
    Event::Ret,
    Event::Strand { count: 2 },
];

/// A strand alone.
const ALONE: &[Event] = &[Event::Strand { count: 5 }];

/// A return of the root frame.
const BAD: &[Event] = &[
    Event::Strand { count: 1 },
    Event::Ret,
    Event::Strand { count: 2 },
];

const BESIDE: &str = "work 17 9
span 13 7
burdened 16 10
parallelism 1.30 1.28
burdened parallelism 1.06 0.90

     count_1      count_2      local_1      local_2       work_1       work_2       path_1       path_2 name
           1            1            7            2           17            9            3            0 (root)
           1            1           10            7           10            7           10            7 A
";

const RENAMED: &str = "work 17 9
span 13 7
burdened 16 10
parallelism 1.30 1.28
burdened parallelism 1.06 0.90

     count_1      count_2      local_1      local_2       work_1       work_2       path_1       path_2 name
           1            1            7            2           17            9            3            0 (root)
           1            -           10            -           10            -           10            - A
           -            1            -            7            -            7            -            7 B
";

const NO_SITES_BEFORE: &str = "work 5 9
span 5 7
burdened 5 10
parallelism 1.00 1.28
burdened parallelism 1.00 0.90

     count_1      count_2      local_1      local_2       work_1       work_2       path_1       path_2 name
           1            1            5            2            5            9            5            0 (root)
           -            1            -            7            -            7            -            7 A
";

const NO_SITES_AFTER: &str = "work 9 5
span 7 5
burdened 10 5
parallelism 1.28 1.00
burdened parallelism 0.90 1.00

     count_1      count_2      local_1      local_2       work_1       work_2       path_1       path_2 name
           1            1            2            5            9            5            0            5 (root)
           1            -            7            -            7            -            7            - A
";

/// Sites in another order, of which one is new and one is entered by no frame.
const REORDERED: &str = "work 17 9
span 13 7
burdened 16 10
parallelism 1.30 1.28
burdened parallelism 1.06 0.90

     count_1      count_2      local_1      local_2       work_1       work_2       path_1       path_2 name
           1            1            7            2           17            9            3            0 (root)
           1            0           10            0           10            0           10            0 A
           0            1            0            7            0            7            0            7 B
           -            0            -            0            -            0            -            0 C
";

/// The bytes of a trace of the functions `main` and `f`, of these sites and events.
fn trace(alloc: Global, sites: &[&[u8]], events: &[Event]) -> Result<Vec<u8>, AllocError> {
    let mut bytes = b"SPTRACE1\x00\x00\x00\x02".as_slice().to_vec(alloc)?;
    for number in [sites.len(), 0, events.len()] {
        let number = u32::try_from(number).unwrap_or(u32::MAX);
        bytes.extend_from_slice(&number.to_be_bytes())?;
    }
    bytes.extend_from_slice(b"\x00\x04main\x00\x01f")?;
    for name in sites {
        let length = u16::try_from(name.len()).unwrap_or(u16::MAX);
        bytes.extend_from_slice(&length.to_be_bytes())?;
        bytes.extend_from_slice(name)?;
    }
    for event in events {
        bytes.extend_from_slice(record_of(*event).as_slice())?;
    }
    Ok(bytes)
}

/// A request to compare, with burdens of 3, in so many parts and by so many workers.
fn request_by(alloc: Global, parts: u32, workers: u32) -> Request {
    Request {
        parts: Parts::new(parts).unwrap_or_default(),
        workers: Workers::new(workers).unwrap_or_default(),
        ..request_for(alloc, Command::Compare)
    }
}

/// Runs the request over both inputs, and says whether it ended with this status, output and line of fault.
fn ends_with<R: Threads + Wait + Sync + RandomSource + AllocGlobal>(
    rt: &R,
    request: &Request,
    mut first: Drip<'_>,
    mut second: Drip<'_>,
    ends: u8,
    text: &str,
    line: &str,
) -> bool {
    let alloc = rt.alloc();
    let (mut out, mut err) = (empty_cup(alloc, 2000), empty_cup(alloc, 100));
    let got = run(
        rt,
        alloc,
        request,
        &mut first,
        &mut second,
        &mut out,
        &mut err,
    );
    got == ends
        && out.taken.as_slice() == text.as_bytes()
        && err.taken.as_slice() == line.as_bytes()
}

#[test]
fn two_runs_stand_beside_each_other(rt: HostRuntime) -> Result<(), Fail> {
    let alloc = rt.alloc();
    let (a, b) = (b"A".as_slice(), b"B".as_slice());
    let synced = trace(alloc, &[a], SYNCED)?;
    let unsynced = trace(alloc, &[a], UNSYNCED)?;
    let renamed = trace(alloc, &[b], UNSYNCED)?;
    let alone = trace(alloc, &[], ALONE)?;
    let two = trace(alloc, &[a, b], SYNCED)?;
    let three = trace(alloc, &[b, a, b"C".as_slice()], UNSYNCED)?;
    for (parts, workers) in [(16, 4), (1, 1), (7, 2), (100, 64)] {
        let request = request_by(alloc, parts, workers);
        for (before, after, text) in [
            (&synced, &unsynced, BESIDE),
            (&synced, &renamed, RENAMED),
            (&alone, &unsynced, NO_SITES_BEFORE),
            (&unsynced, &alone, NO_SITES_AFTER),
            (&two, &three, REORDERED),
        ] {
            let (first, second) = (dripping(before.as_slice()), dripping(after.as_slice()));
            assert!(rt;
                ends_with(&rt, &request, first, second, 0, text, ""),
                "{text}"
            );
        }
    }
    Ok(())
}

#[test]
fn the_first_input_is_told_first_and_the_second_is_not_read(rt: HostRuntime) -> Result<(), Fail> {
    let request = request_by(rt.alloc(), 16, 4);
    let bad = trace(rt.alloc(), &[b"A".as_slice()], BAD)?;
    for (bytes, line) in [
        (bad.as_slice(), "before: bad event 1: root return\n"),
        (b"SPTRACE1".as_slice(), "before: bad header: short\n"),
    ] {
        assert!(rt; ends_with(&rt, &request, dripping(bytes), unread(), 1, "", line));
    }
    let first = failing(bad.as_slice(), 3);
    let line = "before: cannot read input\n";
    assert!(rt; ends_with(&rt, &request, first, unread(), 3, "", line));
    Ok(())
}

#[test]
fn a_fault_of_the_second_input_is_told_as_its_own(rt: HostRuntime) -> Result<(), Fail> {
    let request = request_by(rt.alloc(), 16, 4);
    let good = trace(rt.alloc(), &[b"A".as_slice()], SYNCED)?;
    let bad = trace(rt.alloc(), &[b"A".as_slice()], BAD)?;
    for (bytes, line) in [
        (bad.as_slice(), "after: bad event 1: root return\n"),
        (b"".as_slice(), "after: bad header: short\n"),
    ] {
        let first = dripping(good.as_slice());
        assert!(rt; ends_with(&rt, &request, first, dripping(bytes), 1, "", line));
    }
    let first = dripping(good.as_slice());
    let line = "after: cannot read input\n";
    assert!(rt; ends_with(&rt, &request, first, unread(), 3, "", line));
    Ok(())
}

#[test]
fn what_no_trace_begins_with_is_told_of_either_input(rt: HostRuntime) -> Result<(), Fail> {
    let request = request_by(rt.alloc(), 16, 4);
    let good = trace(rt.alloc(), &[b"A".as_slice()], SYNCED)?;
    for (front, fault) in NO_FRONTS {
        let reads = front.len() as u64;
        let line = format!(in rt.alloc(); "before: bad header: {fault}\n")?;
        let first = failing(front, reads);
        assert!(rt;
            ends_with(&rt, &request, first, unread(), 1, "", line.as_str()),
            "{line}"
        );
        let line = format!(in rt.alloc(); "after: bad header: {fault}\n")?;
        let (first, second) = (dripping(good.as_slice()), failing(front, reads));
        assert!(rt;
            ends_with(&rt, &request, first, second, 1, "", line.as_str()),
            "{line}"
        );
    }
    Ok(())
}

#[test]
fn an_output_that_fails_has_the_first_bytes_of_a_comparison(rt: HostRuntime) -> Result<(), Fail> {
    let alloc = rt.alloc();
    let before = trace(alloc, &[b"A".as_slice()], SYNCED)?;
    let after = trace(alloc, &[b"A".as_slice()], UNSYNCED)?;
    for room in [0usize, 1, 100] {
        let (mut out, mut err) = (empty_cup(alloc, room), empty_cup(alloc, 100));
        let ends = run(
            &rt,
            alloc,
            &request_by(alloc, 16, 4),
            &mut dripping(before.as_slice()),
            &mut dripping(after.as_slice()),
            &mut out,
            &mut err,
        );
        assert_eq!(rt; ends, 3);
        assert_eq!(rt; Some(out.taken.as_slice()), BESIDE.as_bytes().get(..room));
        assert_eq!(rt; err.taken.as_slice(), b"cannot write output\n".as_slice());
    }
    Ok(())
}
