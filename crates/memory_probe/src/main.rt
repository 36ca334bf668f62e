//! Calls the functions that allocate and that commands stand on, those of a book and those of a crew, each twice, and
//! prints what they answer: for the test that refuses one request for memory after the other.
#![tactic(auto)]

ghost use Rattle.std.specs.Prelude.{◌≡◌};

mod book;
mod compact;
mod crew;
mod parts;
mod tables;

use crew::Task;
use spp_dag::Figures;
use spp_event::{HeaderFault, Trace, open_trace};
use spp_frame::{ProfileFault, check};
use spp_maxplus::Burdens;
use spp_reference::profile;
use spp_report::{Named, Run, compare_text, csv_text, figures_text, plain_text};
use spp_serial::profile_serial;
use spp_shell::{InSource, ReadFault, read_all, read_within};
use spp_site::{Profile, Table};
use spp_text::{PrintFault, TextFault, TextWhy, parse_text, print_text};
use std::alloc::{AllocError, Global};
use std::hash::{BuildHasherDefault, FoldHasher};
use std::io;
use std::sync::Wait;
use std::thread::Threads;

/// A trace with two events, the functions `main` and `f`, and the sites `A` and `B`.
const TRACE: &[u8] = b"SPTRACE1\x00\x00\x00\x02\x00\x00\x00\x02\x00\x00\x00\x00\x00\x00\x00\x02\
\x00\x04main\x00\x01f\x00\x01A\x00\x01B\
\x00\x00\x00\x00\x00\x00\x00\x00\x00\x00\x00\x00\x00\x00\x00\x11\
\x04\x00\x00\x00\x00\x00\x00\x00\x00\x00\x00\x00\x00\x00\x00\x00";

/// A trace of a call and its return, of the function `f` by the site `A`.
const NESTED: &[u8] = b"SPTRACE1\x00\x00\x00\x01\x00\x00\x00\x01\x00\x00\x00\x00\x00\x00\x00\x02\
\x00\x01f\x00\x01A\
\x01\x00\x00\x00\x00\x00\x00\x00\x00\x00\x00\x00\x00\x00\x00\x00\
\x03\x00\x00\x00\x00\x00\x00\x00\x00\x00\x00\x00\x00\x00\x00\x00";

/// `TRACE` as text.
const TEXT: &str = "func main\nfunc f\nsite A\nsite B\nroot 0\nstrand 17\nsync\n";

/// The text of figures.
const FIGURES: &str = "work 17
span 13
burdened 0
parallelism 1.30
burdened parallelism -
";

/// The tables without rows, as comma-separated values.
const NO_ROWS: &str =
    "name,count,local,site_count,site_work,site_span,caller_count,caller_work,caller_span,\
path_count,path_local,path_site_count,path_site_work,path_site_span,path_caller_count,path_caller_work,path_caller_span,\
burdened_path_count,burdened_path_local,burdened_path_site_count,burdened_path_site_work,burdened_path_site_span,\
burdened_path_caller_count,burdened_path_caller_work,burdened_path_caller_span
(root),0,0,0,0,0,0,0,0,0,0,0,0,0,0,0,0,0,0,0,0,0,0,0,0
A,0,0,0,0,0,0,0,0,0,0,0,0,0,0,0,0,0,0,0,0,0,0,0,0
";

/// The figures, and the tables without rows.
const REPORT: &str = "work 17
span 13
burdened 0
parallelism 1.30
burdened parallelism -

whole dag
       count        local   site_count    site_work    site_span caller_count  caller_work  caller_span name
           0            0            0            0            0            0            0            0 (root)

first greatest path
       count        local   site_count    site_work    site_span caller_count  caller_work  caller_span name
           0            0            0            0            0            0            0            0 (root)

first greatest burdened path
       count        local   site_count    site_work    site_span caller_count  caller_work  caller_span name
           0            0            0            0            0            0            0            0 (root)
";

/// A run without rows beside itself.
const TWICE: &str = "work 17 17
span 13 13
burdened 0 0
parallelism 1.30 1.30
burdened parallelism - -

     count_1      count_2      local_1      local_2       work_1       work_2       path_1       path_2 name
           0            0            0            0            0            0            0            0 (root)
           0            0            0            0            0            0            0            0 A
";

/// What a call answered.
#[derive(Clone, Copy, Debug, PartialEq, Eq)]
enum Answer {
    Good,
    Other,
    Memory,
}

/// The trace of these bytes, or what to answer where they don't open.
fn trace_in(alloc: Global, bytes: &[u8]) -> Result<Trace<'_>, Answer> {
    match open_trace(alloc, bytes) {
        Ok(trace) => Ok(trace),
        Err(HeaderFault::Memory) => Err(Answer::Memory),
        Err(_) => Err(Answer::Other),
    }
}

/// The answer of a call, or what was answered before it.
fn first(answer: Result<Answer, Answer>) -> Answer {
    match answer {
        Ok(answer) | Err(answer) => answer,
    }
}

/// What a call answers that failed.
fn of_fault(fault: ProfileFault) -> Answer {
    match fault {
        ProfileFault::Memory => Answer::Memory,
        ProfileFault::Bad(_) => Answer::Other,
    }
}

/// The answer of a call, or want of memory.
fn or_memory(answer: Result<Answer, AllocError>) -> Answer {
    answer.unwrap_or(Answer::Memory)
}

fn opened(alloc: Global, bytes: &[u8]) -> Answer {
    match open_trace(alloc, bytes) {
        Ok(trace) if check(&trace) == Ok(17) => Answer::Good,
        Err(HeaderFault::Memory) => Answer::Memory,
        _ => Answer::Other,
    }
}

fn printed(alloc: Global) -> Result<Answer, Answer> {
    let trace = trace_in(alloc, TRACE)?;
    Ok(match print_text(alloc, &trace) {
        Ok(text) if text.as_str() == TEXT => Answer::Good,
        Err(PrintFault::Memory) => Answer::Memory,
        _ => Answer::Other,
    })
}

fn parsed(alloc: Global) -> Answer {
    match parse_text(alloc, TEXT) {
        Ok(bytes) if bytes.as_slice() == TRACE => Answer::Good,
        Err(
            TextFault {
                line: _,
                why: TextWhy::Memory,
            },
        ) => Answer::Memory,
        _ => Answer::Other,
    }
}

fn profiled(alloc: Global) -> Result<Answer, Answer> {
    let trace = trace_in(alloc, NESTED)?;
    Ok(match profile_serial(alloc, &trace, Burdens::equal(3)) {
        Ok(profile) if profile.dag.row(0).count == 1 => Answer::Good,
        Err(ProfileFault::Memory) => Answer::Memory,
        _ => Answer::Other,
    })
}

/// The profile that is told.
fn without_rows(alloc: Global) -> Profile
    ensures { result.figures.work ≡ 17 }
{
    Profile {
        figures: Figures {
            work: 17,
            span: 13,
            burdened: 0,
        },
        dag: Table::new(alloc),
        path: Table::new(alloc),
        burdened_path: Table::new(alloc),
    }
}

fn summed(alloc: Global) -> Result<Answer, Answer> {
    let trace = trace_in(alloc, NESTED)?;
    let named = Named {
        trace: &trace,
        profile: &without_rows(alloc),
    };
    Ok(match csv_text(alloc, &named) {
        Ok(text) if text.as_slice() == NO_ROWS.as_bytes() => Answer::Good,
        Ok(_) => Answer::Other,
        Err(_) => Answer::Memory,
    })
}

fn reported(alloc: Global) -> Result<Answer, Answer> {
    let trace = trace_in(alloc, NESTED)?;
    let named = Named {
        trace: &trace,
        profile: &without_rows(alloc),
    };
    Ok(match plain_text(alloc, &named) {
        Ok(text) if text.as_slice() == REPORT.as_bytes() => Answer::Good,
        Ok(_) => Answer::Other,
        Err(_) => Answer::Memory,
    })
}

/// Answers `Memory` also where what is compared of the run can't be made.
fn compared(alloc: Global) -> Result<Answer, Answer> {
    let trace = trace_in(alloc, NESTED)?;
    let named = Named {
        trace: &trace,
        profile: &without_rows(alloc),
    };
    let hasher: BuildHasherDefault<FoldHasher> = BuildHasherDefault::new();
    let Ok(run) = Run::new(alloc, hasher, &named) else {
        return Ok(Answer::Memory);
    };
    Ok(match compare_text(alloc, &run, &run) {
        Ok(text) if text.as_slice() == TWICE.as_bytes() => Answer::Good,
        Ok(_) => Answer::Other,
        Err(_) => Answer::Memory,
    })
}

fn told(alloc: Global) -> Answer {
    let figures = Figures {
        work: 17,
        span: 13,
        burdened: 0,
    };
    match figures_text(alloc, &figures) {
        Ok(text) if text.as_slice() == FIGURES.as_bytes() => Answer::Good,
        Ok(_) => Answer::Other,
        Err(_) => Answer::Memory,
    }
}

fn referred(alloc: Global) -> Result<Answer, Answer> {
    let trace = trace_in(alloc, NESTED)?;
    Ok(match profile(alloc, &trace, Burdens::equal(3)) {
        Ok(told) if told.path.as_slice() == [0, 1, 2].as_slice() => Answer::Good,
        Err(ProfileFault::Memory) => Answer::Memory,
        _ => Answer::Other,
    })
}

/// Words behind the first of an event's line, more than are kept without memory.
fn misparsed(alloc: Global) -> Answer {
    match parse_text(alloc, "func main\nsync 1 2 3 4 5\n") {
        Err(
            TextFault {
                line: 2,
                why: TextWhy::Count,
            },
        ) => Answer::Good,
        Err(
            TextFault {
                line: _,
                why: TextWhy::Memory,
            },
        ) => Answer::Memory,
        _ => Answer::Other,
    }
}

fn of_reading(answer: Result<Vec<u8>, ReadFault>) -> Answer {
    match answer {
        Ok(bytes) if bytes.as_slice() == TRACE => Answer::Good,
        Err(ReadFault::Memory) => Answer::Memory,
        _ => Answer::Other,
    }
}

/// Prints what a call answered.
fn print(rt: &impl Print, call: &str, answer: Answer) -> io::Result<()> {
    println!(rt; "{call}: {answer:?}")
}

/// Those over the bytes and the text of a trace, and over a source.
fn print_traces(rt: &impl Print, alloc: Global) -> io::Result<()> {
    print(rt, "open_trace", opened(alloc, TRACE))?;
    print(rt, "print_text", first(printed(alloc)))?;
    print(rt, "parse_text", parsed(alloc))?;
    print(rt, "parse_text, a fault", misparsed(alloc))?;
    print(rt, "profile_serial", first(profiled(alloc)))?;
    print(rt, "the reference's profile", first(referred(alloc)))?;
    let all = read_all(alloc, &mut InSource::new(TRACE));
    print(rt, "read_all", of_reading(all))?;
    let within = read_within(alloc, &mut InSource::new(TRACE), 100, 2);
    print(rt, "read_within", of_reading(within))
}

/// Those over a trace of version 2.
fn print_compact(rt: &impl Print, alloc: Global) -> io::Result<()> {
    print(rt, "open_trace, version 2", opened(alloc, compact::SMALL))?;
    print(rt, "migrate", first(compact::written(alloc)))?;
    print(rt, "compact_of", compact::spelled(alloc))?;
    print(rt, "cut_bytes", first(compact::cut(alloc)))
}

/// Those of tables, and of the texts that they are told in.
fn print_tables(rt: &impl Print, alloc: Global) -> io::Result<()> {
    print(rt, "Table::add", tables::added(alloc))?;
    print(rt, "Table::merged", or_memory(tables::merged(alloc)))?;
    print(rt, "Table::absorb", or_memory(tables::absorbed(alloc)))?;
    print(rt, "Share::merge", or_memory(tables::shared(alloc)))?;
    print(rt, "csv_text", first(summed(alloc)))?;
    print(rt, "plain_text", first(reported(alloc)))?;
    print(rt, "compare_text", first(compared(alloc)))?;
    print(rt, "figures_text", told(alloc))
}

/// Those over parts of a trace.
fn print_parts<R: Print + Threads + Wait + Sync>(rt: &R, alloc: Global) -> io::Result<()> {
    for (call, cutting, task) in parts::CALLS {
        print(rt, call, parts::asked(rt, alloc, cutting, task))?;
    }
    Ok(())
}

/// Those of a book, of a desk and of a crew.
fn print_crews<R: Print + Threads + Wait + Sync>(rt: &R, alloc: Global) -> io::Result<()> {
    print(rt, "a book", or_memory(book::filled(alloc)))?;
    print(rt, "steps on a book", or_memory(book::stepped(alloc)))?;
    print(rt, "a desk", or_memory(book::shared(rt, alloc)))?;
    let figures = crew::asked(rt, alloc, Task::Figures);
    print(rt, "figures by workers", figures)?;
    let profile = crew::asked(rt, alloc, Task::Profile);
    print(rt, "profile by workers", profile)?;
    let in_rounds = crew::asked(rt, alloc, Task::ProfileInRounds);
    print(rt, "profile in three rounds", in_rounds)?;
    let marks = crew::asked(rt, alloc, Task::Marks);
    print(rt, "marks by workers", marks)
}

fn main(rt: HostRuntime) -> io::Result<()> {
    let alloc = rt.alloc();
    for _ in 0..2 {
        print_traces(&rt, alloc)?;
        print_compact(&rt, alloc)?;
        print_tables(&rt, alloc)?;
        print_parts(&rt, alloc)?;
        print_crews(&rt, alloc)?;
    }
    Ok(())
}
