//! Runs of `advise`.

use super::commands::{NO_FRONTS, request_for};
use super::fakes::{dripping, empty_cup, failing};
use spp_request::{AdviseOptions, Command};
use spp_shell::advise;
use std::random::RandomSource;
use std::sync::Wait;
use std::test::Fail;
use std::thread::Threads;

/// A trace of the functions `main` and `f`, and of the site `A`: a strand of 1, a child that is spawned with a strand of 10, a
/// strand of 4 beside it, a sync, and a strand of 2.
const SYNCED: &[u8] = b"SPTRACE1\x00\x00\x00\x02\x00\x00\x00\x01\x00\x00\x00\x00\x00\x00\x00\x07\
\x00\x04main\x00\x01f\x00\x01A\
\x00\x00\x00\x00\x00\x00\x00\x00\x00\x00\x00\x00\x00\x00\x00\x01\
\x02\x00\x00\x00\x00\x00\x00\x00\x00\x00\x00\x01\x00\x00\x00\x00\
\x00\x00\x00\x00\x00\x00\x00\x00\x00\x00\x00\x00\x00\x00\x00\x0a\
\x03\x00\x00\x00\x00\x00\x00\x00\x00\x00\x00\x00\x00\x00\x00\x00\
\x00\x00\x00\x00\x00\x00\x00\x00\x00\x00\x00\x00\x00\x00\x00\x04\
\x04\x00\x00\x00\x00\x00\x00\x00\x00\x00\x00\x00\x00\x00\x00\x00\
\x00\x00\x00\x00\x00\x00\x00\x00\x00\x00\x00\x00\x00\x00\x00\x02";

/// Both paths enter the child, and edges bear 3: 1 + 10 + 3 + 2. With a strand of 5 in the child it is 1 + 5 + 3 + 2.
const TOLD: &[u8] = b"work 17
span 13
burdened 16
parallelism 1.30
burdened parallelism 1.06

speed-up on so many processors
        most        least  burden_most burden_least processors
        1.30         1.13         1.06         1.03 2

call sites by what they add to the paths
      frames        grain  parallelism     span_pct burdened_pct      burdens burdens_cost  burdens_pct name
           1         7.00         1.30        23.07        18.75            0            0         0.00 (root)
           1        10.00         1.00        76.92        62.50            1            3        18.75 A

what if
        work         span  parallelism     burdened burdened_par    saved_pct change
          17           13         1.30           16         1.06         0.00 as recorded
          12            8         1.50           11         1.09        31.25 A: 2 times faster
          17           17         1.00           17         1.00            - A: spawns as calls

begin with A: what it runs itself is 62.50 per cent of the burdened span; less of it, or parts of it side by side, would shorten it
most is saved by A: 2 times faster, burdened span 16 to 11, 31.25 per cent less, since what it runs itself is on the burdened path
";

const NONE: &[u8] = b"";

/// The same as comma-separated values.
const TABLE: &[u8] =
    b"name,change,work,span,burdened,frames,local,site_work,site_span,path_local,burdened_path_local,burdens,burdens_cost
(root),as recorded,17,13,16,1,7,17,13,3,3,0,0
A,as recorded,17,13,16,1,10,10,10,10,10,1,3
A,2 times faster,12,8,11,,,,,,,,
A,spawns as calls,17,17,17,,,,,,,,
";

/// Asks for advice about the run of the bytes, as comma-separated values or not, about all call sites or about one, and says
/// whether that ended with this status, output and line of fault.
fn advice_ends_with<R: Threads + Wait + Sync + RandomSource + AllocGlobal>(
    rt: &R,
    csv: bool,
    site: Option<&str>,
    bytes: &[u8],
    ends: u8,
    text: &[u8],
    line: &[u8],
) -> bool {
    let alloc = rt.alloc();
    let (mut out, mut err) = (empty_cup(alloc, 2000), empty_cup(alloc, 100));
    let mut request = request_for(alloc, Command::Profile);
    request.csv = csv;
    let mut options = AdviseOptions::default();
    if let Some(name) = site {
        let Ok(name) = name.to_string(alloc) else {
            return false;
        };
        options.site = Some(name);
    }
    let mut input = dripping(bytes);
    let got = advise(
        rt, alloc, &request, &options, &mut input, &mut out, &mut err,
    );
    got == ends && out.taken.as_slice() == text && err.taken.as_slice() == line
}

#[test]
fn what_no_trace_begins_with_is_refused_as_soon_as_it_came(rt: HostRuntime) -> Result<(), Fail> {
    let alloc = rt.alloc();
    let request = request_for(alloc, Command::Profile);
    for (front, fault) in NO_FRONTS {
        let (mut out, mut err) = (empty_cup(alloc, 100), empty_cup(alloc, 100));
        let mut input = failing(front, front.len() as u64);
        let options = AdviseOptions::default();
        let ends = advise(
            &rt, alloc, &request, &options, &mut input, &mut out, &mut err,
        );
        let line = format!(in alloc; "bad header: {fault}\n")?;
        assert_eq!(rt; ends, 1, "{line}");
        assert_eq!(rt; err.taken.as_slice(), line.as_bytes());
    }
    Ok(())
}

#[test]
fn what_changes_would_bring_is_told(rt: HostRuntime) {
    assert!(rt; advice_ends_with(&rt, false, None, SYNCED, 0, TOLD, NONE));
}

#[test]
fn nothing_is_told_of_a_bad_trace(rt: HostRuntime) {
    let cut_off = &SYNCED[..SYNCED.len() - 1];
    let line = b"bad event 6: truncated\n".as_slice();
    assert!(rt; advice_ends_with(&rt, false, None, cut_off, 1, NONE, line));
    let header = &SYNCED[..30];
    let line = b"bad header: short\n".as_slice();
    assert!(rt; advice_ends_with(&rt, false, None, header, 1, NONE, line));
}

#[test]
fn the_same_is_told_as_a_table_and_of_one_site(rt: HostRuntime) {
    assert!(rt; advice_ends_with(&rt, true, None, SYNCED, 0, TABLE, NONE));
    assert!(rt; advice_ends_with(&rt, false, Some("A"), SYNCED, 0, TOLD, NONE));
    assert!(rt; advice_ends_with(&rt, true, Some("A"), SYNCED, 0, TABLE, NONE));
}

#[test]
fn a_site_that_the_trace_lacks_is_told_before_a_bad_event(rt: HostRuntime) {
    let cut_off = &SYNCED[..SYNCED.len() - 1];
    let line = b"no such call site\n".as_slice();
    assert!(rt; advice_ends_with(&rt, false, Some("B"), SYNCED, 1, NONE, line));
    assert!(rt; advice_ends_with(&rt, true, Some("a"), cut_off, 1, NONE, line));
    let line = b"bad event 6: truncated\n".as_slice();
    assert!(rt; advice_ends_with(&rt, false, Some("A"), cut_off, 1, NONE, line));
}
