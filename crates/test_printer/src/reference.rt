//! What the reference profiler answers for each of many traces, which stand as text, each ended by a line `---`. For the
//! test that it gives the numbers of another program, which was written from the definitions alone in another language.
//! Where the profiler on one thread says anything else, or workers do by way of parts, that is told.

use crate::marks::marked;
use spp_crew::{OpenGate, figures, profile_in_rounds};
use spp_cut::{Cut, Parts, cut_even};
use spp_dag::{Figures, Row};
use spp_event::{Trace, open_trace};
use spp_maxplus::Burdens;
use spp_reference::{Reference, SiteRows, profile};
use spp_request::Workers;
use spp_serial::profile_serial;
use spp_site::{Profile, Table};
use spp_text::parse_text;
use std::alloc::Global;
use std::io;
use std::sync::Wait;
use std::thread::Threads;

/// The burdens of the first answer.
const EQUAL: Burdens = Burdens {
    continuation: 3,
    join: 3,
};

/// The burdens of the second.
const UNEQUAL: Burdens = Burdens {
    continuation: 2,
    join: 7,
};

/// The profile of the trace that the text names, with these burdens; none where there isn't one.
fn profiled(alloc: Global, text: &str, burdens: Burdens) -> Option<Reference> {
    let bytes = parse_text(alloc, text).ok()?;
    let trace = open_trace(alloc, bytes.as_slice()).ok()?;
    profile(alloc, &trace, burdens).ok()
}

/// The figures that were told.
fn figures_in(told: &Reference) -> Figures {
    Figures {
        work: told.work,
        span: told.span,
        burdened: told.burdened_span,
    }
}

/// Whether a table of a profiler has the rows that were told, the root's and one for each of so many sites.
fn has_rows(table: &Table, told: &SiteRows, sites: u32) -> bool {
    let mut same = table.root_row() == told.root;
    for site in 0..sites {
        let row = told.sites.get(site as usize).copied();
        same = same && row == Some(table.row(site));
    }
    same
}

/// Whether a profile of a trace of so many sites has the figures and rows that were told, on the whole dag and on both
/// paths.
fn is_told(profile: &Profile, told: &Reference, sites: u32) -> bool {
    let same = profile.figures == figures_in(told)
        && has_rows(&profile.dag, &told.dag_rows, sites)
        && has_rows(&profile.path, &told.path_rows, sites);
    same && has_rows(&profile.burdened_path, &told.burdened_path_rows, sites)
}

/// Whether the profiler on one thread says the same of the trace that the text names, with these burdens.
fn is_confirmed(alloc: Global, text: &str, told: &Reference, burdens: Burdens) -> Option<bool> {
    let bytes = parse_text(alloc, text).ok()?;
    let trace = open_trace(alloc, bytes.as_slice()).ok()?;
    let serial = profile_serial(alloc, &trace, burdens).ok()?;
    Some(is_told(&serial, told, trace.sites()))
}

/// Into how many parts each trace is cut.
const PARTS: &[u32] = &[1, 7, 100];

/// How many workers share so many parts: one has a single part, and three share more.
fn workers_for(parts: Parts) -> Option<Workers> {
    Workers::new(if parts.number() == 1 { 1 } else { 3 })
}

/// Whether the bytes of the marks are those that were told.
fn are_marks(bytes: &[u8], told: &Reference) -> bool {
    let mut both = bytes.iter().zip(told.marks.iter());
    bytes.len() == told.marks.len() && both.all(|(mark, on)| *mark == u8::from(*on))
}

/// Whether workers come to the same figures, rows and marks.
fn is_told_by_workers<R: Threads + Wait + Sync>(
    rt: &R,
    alloc: Global,
    cut: &Cut<'_, '_>,
    told: &Reference,
    burdens: Burdens,
    workers: Workers,
) -> Option<bool> {
    let sites = cut.trace().sites();
    let number = workers.number();
    let whole = figures(rt, alloc, cut, number, burdens, &OpenGate).ok()?;
    let shared = spp_crew::profile(rt, alloc, cut, number, burdens, &OpenGate).ok()?;
    let in_rounds = profile_in_rounds(rt, alloc, cut, number, burdens, &OpenGate).ok()?;
    let profiled = is_told(&shared, told, sites) && is_told(&in_rounds, told, sites);
    let marks = marked(rt, alloc, cut, workers)?;
    Some(whole == figures_in(told) && profiled && are_marks(&marks, told))
}

/// The same where the trace is cut into so many parts.
fn is_told_by_parts<R: Threads + Wait + Sync>(
    rt: &R,
    alloc: Global,
    trace: &Trace<'_>,
    told: &Reference,
    burdens: Burdens,
    parts: u32,
) -> Option<bool> {
    let parts = Parts::new(parts)?;
    let cut = cut_even(alloc, trace, parts).ok()?;
    is_told_by_workers(rt, alloc, &cut, told, burdens, workers_for(parts)?)
}

/// The first of these numbers of parts by which the trace that the text names comes to anything else.
fn differing_parts<R: Threads + Wait + Sync>(
    rt: &R,
    alloc: Global,
    text: &str,
    told: &Reference,
    burdens: Burdens,
    numbers: &[u32],
) -> Option<u32> {
    let Ok(bytes) = parse_text(alloc, text) else {
        return numbers.first().copied();
    };
    let Ok(trace) = open_trace(alloc, bytes.as_slice()) else {
        return numbers.first().copied();
    };
    for parts in numbers {
        if is_told_by_parts(rt, alloc, &trace, told, burdens, *parts) != Some(true) {
            return Some(*parts);
        }
    }
    None
}

fn print_row(rt: &impl Print, row: &Row) -> io::Result<()> {
    println!(rt;
        "{} {} | {} {} {} | {} {} {}",
        row.count,
        row.local,
        row.site_count,
        row.site_work,
        row.site_span,
        row.caller_count,
        row.caller_work,
        row.caller_span
    )
}

fn print_table(rt: &impl Print, name: &str, table: &SiteRows) -> io::Result<()> {
    print!(rt; "{name}, root: ")?;
    print_row(rt, &table.root)?;
    for (site, row) in table.sites.iter().enumerate() {
        print!(rt; "{name}, site {site}: ")?;
        print_row(rt, row)?;
    }
    Ok(())
}

fn print_profile(rt: &impl Print, one: &Reference, other: &Reference) -> io::Result<()> {
    println!(rt; "work {}", one.work)?;
    println!(rt; "span {}", one.span)?;
    println!(rt;
        "burdened {} and {}",
        one.burdened_span, other.burdened_span
    )?;
    print!(rt; "path")?;
    for at in &one.path {
        print!(rt; " {at}")?;
    }
    println!(rt; "")?;
    print!(rt; "marks")?;
    for mark in &one.marks {
        print!(rt; " {}", u8::from(*mark))?;
    }
    println!(rt; "")?;
    print_table(rt, "dag", &one.dag_rows)?;
    print_table(rt, "path", &one.path_rows)?;
    print_table(rt, "path under 3 and 3", &one.burdened_path_rows)?;
    print_table(rt, "path under 2 and 7", &other.burdened_path_rows)
}

/// Prints the answers for the traces of which that is the text, held against so many parts too if that is asked for.
/// Whether it is text.
pub(crate) fn print<R: Print + Threads + Wait + Sync>(
    rt: &R,
    alloc: Global,
    bytes: &[u8],
    parts: Option<u32>,
) -> io::Result<bool> {
    let Ok(mut rest) = str::from_utf8(bytes) else {
        return Ok(false);
    };
    for number in 0..bytes.len() {
        let Some((text, others)) = rest.split_once("---\n") else {
            break;
        };
        rest = others;
        println!(rt; "trace {number}")?;
        print_answers(rt, alloc, text, parts)?;
    }
    Ok(true)
}

/// Tells where parts come to anything else than was told.
fn print_differing<R: Print + Threads + Wait + Sync>(
    rt: &R,
    alloc: Global,
    text: &str,
    told: &Reference,
    burdens: Burdens,
    parts: Option<u32>,
) -> io::Result<()> {
    let more = parts.as_slice();
    for numbers in [PARTS, more] {
        if let Some(parts) = differing_parts(rt, alloc, text, told, burdens, numbers) {
            println!(rt;
                "{parts} parts differ under {} and {}",
                burdens.continuation, burdens.join
            )?;
        }
    }
    Ok(())
}

/// Prints the answers for the trace that the text names.
fn print_answers<R: Print + Threads + Wait + Sync>(
    rt: &R,
    alloc: Global,
    text: &str,
    parts: Option<u32>,
) -> io::Result<()> {
    let (Some(one), Some(other)) = (profiled(alloc, text, EQUAL), profiled(alloc, text, UNEQUAL))
    else {
        return println!(rt; "no profile");
    };
    print_profile(rt, &one, &other)?;
    if is_confirmed(alloc, text, &one, EQUAL) != Some(true) {
        println!(rt; "the profiler on one thread differs")?;
    }
    if is_confirmed(alloc, text, &other, UNEQUAL) != Some(true) {
        println!(rt; "the profiler on one thread differs under 2 and 7")?;
    }
    print_differing(rt, alloc, text, &one, EQUAL, parts)?;
    print_differing(rt, alloc, text, &other, UNEQUAL, parts)
}
