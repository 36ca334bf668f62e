//! The program: hands the words and the streams of the process to the library, and ends with the status that it
//! gives.
#![tactic(auto)]

ghost use Rattle.std.specs.Prelude.{IfErr};
ghost use Rattle.spp_shell.specs.Usage.{GoesWith};

mod watched;

use crate::watched::{Seen, Watched};
use spp_command_line::{Asked, read_words};
use spp_explain::{FRONT, Run, explain};
use spp_report::{OutSink, Sink, write_out};
use spp_request::{Command, Request, UsageFault};
use spp_shell::{
    INPUT_LIMIT, InSource, Place, advise, refuse_input, refuse_long_input, run, show_usage, status,
};
use std::alloc::{AllocError, Global};
use std::fs::OpenFile;
use std::io::{ErrorKind, Read, Write};
use std::process::ExitCode;
use std::random::RandomSource;
use std::rt::{Env, Files};
use std::sync::Wait;
use std::thread::Threads;
use std::{env, fs, io, str};

/// No line of fault is longer.
const LINE: usize = 128;

/// The words of the command line.
fn words<R: Env + AllocGlobal>(rt: &R) -> Result<Vec<String>, UsageFault>
    ensures { IfErr result (GoesWith 2) }
{
    match env::args(rt) {
        Ok(args) => Ok(args.collect(rt.alloc())?),
        Err(e) if e.kind() == ErrorKind::OutOfMemory => Err(UsageFault::Memory),
        Err(_) => Err(UsageFault::Shown {
            text: "error: an argument is not UTF-8 text\n".to_string(rt.alloc())?,
            status: status::USAGE,
        }),
    }
}

/// How a run ended.
#[derive(Drop)]
struct Ended {
    /// The exit status.
    status: u8,
    /// What was seen of the first input.
    first: Seen,
    /// What was seen of the second.
    second: Seen,
}

/// How many bytes of an input are kept, so that its fault can be explained.
fn room_of(asked: &Asked) -> usize {
    if asked.explain { FRONT } else { 0 }
}

/// Ends a run whose input can't be opened. Gives the exit status.
fn refuse<O: Sink, E: Sink>(error: &io::Error, place: Place, out: &mut O, err: &mut E) -> u8 {
    if error.kind() == ErrorKind::OutOfMemory {
        show_usage(UsageFault::Memory, out, err)
    } else {
        refuse_input(place, err)
    }
}

/// How many bytes a file has, where it is a regular one and the system tells.
fn length_of<F: OpenFile>(file: &F) -> Option<u64> {
    match file.metadata() {
        Ok(metadata) if metadata.is_file() => Some(metadata.len()),
        _ => None,
    }
}

/// The input of that name, opened, of which so many bytes are to be kept; or how the run ends that can't be answered for
/// it, and what was seen of it.
fn open_or_refuse<R: Files + AllocGlobal, O: Sink, E: Sink>(
    rt: &R,
    room: usize,
    path: &str,
    place: Place,
    out: &mut O,
    err: &mut E,
) -> Result<InSource<Watched<R::File>>, (u8, Seen)> {
    let mut seen = Seen::new(rt.alloc(), 0);
    let file = match fs::open(rt, path) {
        Ok(file) => file,
        Err(e) => {
            seen.note_failure(&e);
            return Err((refuse(&e, place, out, err), seen));
        }
    };
    match length_of(&file) {
        Some(len) if len > INPUT_LIMIT => Err((refuse_long_input(place, err), seen)),
        hint => {
            let watched = Watched::new(rt.alloc(), file, room);
            Ok(InSource::with_hint(watched, hint))
        }
    }
}

/// Answers a request over two files, of which both are opened before one is read. A request to compare has two: `clap`
/// refuses words that name fewer.
fn answer_both<R, O: Sink, E: Sink>(rt: &R, asked: &Asked, out: &mut O, err: &mut E) -> Ended
where
    R: Files + Threads + Wait + Sync + RandomSource + AllocGlobal,
    R::File: Send,
{
    let nothing = Seen::new(rt.alloc(), 0);
    let (request, room) = (&asked.request, room_of(asked));
    let (Some(before), Some(after)) = (request.files.first(), request.files.get(1)) else {
        let first = Seen::new(rt.alloc(), 0);
        return Ended {
            status: refuse_input(Place::Before, err),
            first,
            second: nothing,
        };
    };
    let mut first = match open_or_refuse(rt, room, before.as_str(), Place::Before, out, err) {
        Ok(first) => first,
        Err((status, first)) => {
            return Ended {
                status,
                first,
                second: nothing,
            };
        }
    };
    let mut second = match open_or_refuse(rt, room, after.as_str(), Place::After, out, err) {
        Ok(second) => second,
        Err((status, second)) => {
            return Ended {
                status,
                first: nothing,
                second,
            };
        }
    };
    let status = run(rt, rt.alloc(), request, &mut first, &mut second, out, err);
    Ended {
        status,
        first: first.into_inner().into_seen(),
        second: second.into_inner().into_seen(),
    }
}

/// Answers a request over one input that is open.
fn answer_input<R, I: Read + Send + Drop, O: Sink, E: Sink>(
    rt: &R,
    asked: &Asked,
    mut input: InSource<Watched<I>>,
    out: &mut O,
    err: &mut E,
) -> Ended
where
    R: Threads + Wait + Sync + RandomSource + AllocGlobal,
{
    let (alloc, request) = (rt.alloc(), &asked.request);
    let status = match &asked.advise {
        Some(options) => advise(rt, alloc, request, options, &mut input, out, err),
        None => {
            let mut no_second = InSource::new(io::empty());
            run(rt, alloc, request, &mut input, &mut no_second, out, err)
        }
    };
    Ended {
        status,
        first: input.into_inner().into_seen(),
        second: Seen::new(rt.alloc(), 0),
    }
}

/// Answers a request over one file, or over standard input.
fn answer_one<R, O: Sink, E: Sink>(rt: &R, asked: &Asked, out: &mut O, err: &mut E) -> Ended
where
    R: Files + Input + Threads + Wait + Sync + RandomSource + AllocGlobal,
    R::File: Send,
    R::Reader: Send,
{
    let (request, room) = (&asked.request, room_of(asked));
    let Some(path) = request.files.first() else {
        let watched = Watched::new(rt.alloc(), rt.reader(), room);
        let input = InSource::new(watched);
        return answer_input(rt, asked, input, out, err);
    };
    match open_or_refuse(rt, room, path.as_str(), Place::Only, out, err) {
        Ok(input) => answer_input(rt, asked, input, out, err),
        Err((status, first)) => Ended {
            status,
            first,
            second: Seen::new(rt.alloc(), 0),
        },
    }
}

/// The line of fault that was told whole, without its line feed.
fn told_line(told: &[u8]) -> Option<&str> {
    str::from_utf8(told).ok()?.strip_suffix("\n")
}

/// Explains the line of fault that was told, if there is one, in a second line.
fn explain_fault<O: Write, E: Write + Drop>(
    alloc: Global,
    request: &Request,
    ended: &Ended,
    out: &Watched<O>,
    err: Watched<E>,
) -> Result<(), AllocError> {
    let first = request
        .files
        .first()
        .map_or("standard input", |f| f.as_str());
    let second = request.files.get(1).map_or("", |f| f.as_str());
    let about = Run {
        command: request.command,
        first: ended.first.named(first),
        second: ended.second.named(second),
        output: out.seen().named("standard output"),
    };
    let Some(line) = told_line(err.seen().front()) else {
        return Ok(());
    };
    let Some(mut text) = explain(alloc, line, &about)? else {
        return Ok(());
    };
    text.push('\n')?;
    // Who doesn't read the explanation loses nothing else.
    let _ = write_out(&mut OutSink::new(err), text.as_bytes());
    Ok(())
}

fn main(rt: HostRuntime) -> ExitCode {
    let asked = match words(&rt) {
        Ok(words) => read_words(rt.alloc(), words.as_slice()),
        Err(fault) => Err(fault),
    };
    let room = match &asked {
        Ok(asked) => room_of(asked).min(LINE),
        Err(_) => 0,
    };
    let mut out = OutSink::new(Watched::new(rt.alloc(), rt.stdout(), 0));
    let mut err = OutSink::new(Watched::new(rt.alloc(), rt.stderr(), room));
    let asked = match asked {
        Ok(asked) => asked,
        Err(fault) => return ExitCode::from(show_usage(fault, &mut out, &mut err)),
    };
    let ended = if asked.request.command == Command::Compare {
        answer_both(&rt, &asked, &mut out, &mut err)
    } else {
        answer_one(&rt, &asked, &mut out, &mut err)
    };
    if asked.explain {
        let (out, err) = (out.into_inner(), err.into_inner());
        // Without memory for it there is no explanation.
        let _ = explain_fault(rt.alloc(), &asked.request, &ended, &out, err);
    }
    ExitCode::from(ended.status)
}
