//! Runs of `figures` and `profile`.

use super::commands::{command_ends_with, request_ends_with, request_for};
use spp_cut::Parts;
use spp_maxplus::Burdens;
use spp_request::{Command, Request, Workers};
use std::random::RandomSource;
use std::sync::Wait;
use std::thread::Threads;

/// A strand of 1, a child that is spawned with a strand of 10, a strand of 4 beside it, a sync, and a strand of 2.
const SMALL: &[u8] = b"SPTRACE1\x00\x00\x00\x02\x00\x00\x00\x01\x00\x00\x00\x00\x00\x00\x00\x07\
\x00\x04main\x00\x01f\x00\x01A\
\x00\x00\x00\x00\x00\x00\x00\x00\x00\x00\x00\x00\x00\x00\x00\x01\
\x02\x00\x00\x00\x00\x00\x00\x00\x00\x00\x00\x01\x00\x00\x00\x00\
\x00\x00\x00\x00\x00\x00\x00\x00\x00\x00\x00\x00\x00\x00\x00\x0a\
\x03\x00\x00\x00\x00\x00\x00\x00\x00\x00\x00\x00\x00\x00\x00\x00\
\x00\x00\x00\x00\x00\x00\x00\x00\x00\x00\x00\x00\x00\x00\x00\x04\
\x04\x00\x00\x00\x00\x00\x00\x00\x00\x00\x00\x00\x00\x00\x00\x00\
\x00\x00\x00\x00\x00\x00\x00\x00\x00\x00\x00\x00\x00\x00\x00\x02";

const FIGURES: &str = "work 17
span 13
burdened 16
parallelism 1.30
burdened parallelism 1.06
";

const REPORT: &str = "work 17
span 13
burdened 16
parallelism 1.30
burdened parallelism 1.06

whole dag
       count        local   site_count    site_work    site_span caller_count  caller_work  caller_span name
           1            7            1           17           13            1           17           13 (root)
           1           10            1           10           10            1           10           10 A

first greatest path
       count        local   site_count    site_work    site_span caller_count  caller_work  caller_span name
           1            3            1           17           13            1           17           13 (root)
           1           10            1           10           10            1           10           10 A

first greatest burdened path
       count        local   site_count    site_work    site_span caller_count  caller_work  caller_span name
           1            3            1           17           13            1           17           13 (root)
           1           10            1           10           10            1           10           10 A
";

const CSV: &str =
    "name,count,local,site_count,site_work,site_span,caller_count,caller_work,caller_span,\
path_count,path_local,path_site_count,path_site_work,path_site_span,path_caller_count,path_caller_work,path_caller_span,\
burdened_path_count,burdened_path_local,burdened_path_site_count,burdened_path_site_work,burdened_path_site_span,burdened_path_caller_count,burdened_path_caller_work,burdened_path_caller_span
(root),1,7,1,17,13,1,17,13,1,3,1,17,13,1,17,13,1,3,1,17,13,1,17,13
A,1,10,1,10,10,1,10,10,1,10,1,10,10,1,10,10,1,10,1,10,10,1,10,10
";

/// The same with 7 on continuation edges and nothing on return edges: the way past the child is then the greater.
const CSV_PAST_THE_CHILD: &str =
    "name,count,local,site_count,site_work,site_span,caller_count,caller_work,caller_span,\
path_count,path_local,path_site_count,path_site_work,path_site_span,path_caller_count,path_caller_work,path_caller_span,\
burdened_path_count,burdened_path_local,burdened_path_site_count,burdened_path_site_work,burdened_path_site_span,burdened_path_caller_count,burdened_path_caller_work,burdened_path_caller_span
(root),1,7,1,17,13,1,17,13,1,3,1,17,13,1,17,13,1,7,1,17,13,1,17,13
A,1,10,1,10,10,1,10,10,1,10,1,10,10,1,10,10,0,0,0,0,0,0,0,0
";

/// Whether the command on the bytes ends with this status, output and line of fault, in so many parts and by so many
/// workers.
fn ends_by<R: Threads + Wait + Sync + RandomSource + AllocGlobal>(
    rt: &R,
    command: Command,
    shared: (u32, u32),
    bytes: &[u8],
    ends: u8,
    text: &str,
    line: &str,
) -> bool {
    let (parts, workers) = shared;
    let request = Request {
        parts: Parts::new(parts).unwrap_or_default(),
        workers: Workers::new(workers).unwrap_or_default(),
        ..request_for(rt.alloc(), command)
    };
    request_ends_with(rt, &request, bytes, ends, text.as_bytes(), line.as_bytes())
}

/// Numbers of parts, and of the workers that share them.
const SHARED: &[(u32, u32)] = &[(1, 1), (2, 2), (7, 2), (16, 64), (65536, 4)];

/// The same for various numbers of parts and workers, and as many as there are by default.
fn ends_with<R: Threads + Wait + Sync + RandomSource + AllocGlobal>(
    rt: &R,
    command: Command,
    bytes: &[u8],
    ends: u8,
    text: &str,
    line: &str,
) -> bool {
    for shared in SHARED {
        if !ends_by(rt, command, *shared, bytes, ends, text, line) {
            return false;
        }
    }
    command_ends_with(rt, command, bytes, ends, text.as_bytes(), line.as_bytes())
}

#[test]
fn a_good_trace_prints_its_figures(rt: HostRuntime) {
    assert!(rt; ends_with(&rt, Command::Figures, SMALL, 0, FIGURES, ""));
}

#[test]
fn a_trace_without_figures_is_told_in_one_line(rt: HostRuntime) {
    for (length, line) in [
        (23, "bad header: short\n"),
        (36, "bad event 0: truncated\n"),
        (68, "bad event 2: truncated\n"),
    ] {
        if let Some(bytes) = SMALL.get(..length) {
            assert!(rt;
                ends_with(&rt, Command::Figures, bytes, 1, "", line),
                "{line}"
            );
            assert!(rt;
                ends_with(&rt, Command::Profile, bytes, 1, "", line),
                "{line}"
            );
        }
    }
}

#[test]
fn a_good_trace_prints_its_report(rt: HostRuntime) {
    assert!(rt; ends_with(&rt, Command::Profile, SMALL, 0, REPORT, ""));
}

#[test]
fn a_good_trace_prints_its_tables_alone(rt: HostRuntime) {
    let request = Request {
        csv: true,
        ..request_for(rt.alloc(), Command::Profile)
    };
    let printed = request_ends_with(&rt, &request, SMALL, 0, CSV.as_bytes(), b"".as_slice());
    assert!(rt; printed);
}

#[test]
fn each_kind_of_edge_has_its_burden(rt: HostRuntime) {
    let request = Request {
        csv: true,
        burdens: Burdens {
            continuation: 7,
            join: 0,
        },
        ..request_for(rt.alloc(), Command::Profile)
    };
    let printed = request_ends_with(
        &rt,
        &request,
        SMALL,
        0,
        CSV_PAST_THE_CHILD.as_bytes(),
        b"".as_slice(),
    );
    assert!(rt; printed);
}
