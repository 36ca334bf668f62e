//! Recorded runs, and runs of the program over them.

use crate::blocks::{Block, Form};
use crate::digest::digest;
use crate::kinds::Kind;
use crate::names::front;
use crate::random::Random;
use crate::tape::Tape;
use spp_cut::Parts;
use spp_maxplus::Burdens;
use spp_report::OutSink;
use spp_request::{Command, Request, Workers};
use spp_shell::run;
use std::alloc::{AllocError, Global};
use std::random::RandomSource;
use std::sync::Wait;
use std::thread::Threads;

/// A recorded run: what stands before its events, and a step of it, which it makes so many times.
#[derive(Drop)]
pub(crate) struct Recorded {
    front: Vec<u8>,
    step: Vec<u8>,
    times: u32,
}

impl Recorded {
    /// A run of this kind, of so many steps of about so many events each.
    pub(crate) fn new(
        alloc: Global,
        kind: Kind,
        form: Form,
        seed: u64,
        events: u32,
        times: u32,
    ) -> Result<Recorded, AllocError> {
        let mut block = Block::new(alloc, form);
        kind.write(alloc, &mut block, &mut Random::new(seed), events)?;
        let all = block.events.saturating_mul(times);
        Ok(Recorded {
            front: front(alloc, kind, form, all)?,
            step: block.bytes,
            times,
        })
    }

    /// A run whose bytes are there.
    pub(crate) fn whole(alloc: Global, bytes: Vec<u8>) -> Recorded {
        Recorded {
            front: bytes,
            step: Vec::new(alloc),
            times: 0,
        }
    }

    /// A device that gives it.
    fn tape(&self) -> Tape<'_> {
        Tape::new(&self.front, &self.step, self.times)
    }
}

/// What the program is asked for.
#[derive(Clone, Copy)]
pub(crate) struct Asked {
    pub(crate) command: Command,
    pub(crate) csv: bool,
    pub(crate) workers: u32,
}

impl Asked {
    /// This command, of so many workers.
    pub(crate) fn new(command: Command, workers: u32) -> Asked {
        Asked {
            command,
            csv: false,
            workers,
        }
    }
}

/// The word of a command.
fn word(command: Command) -> &'static str {
    match command {
        Command::Check => "check",
        Command::Figures => "figures",
        Command::Profile => "profile",
        Command::Compare => "compare",
        Command::Encode => "encode",
        Command::Migrate => "migrate",
    }
}

/// Runs the program over one run or two, adds a line about it, and gives what came out.
pub(crate) fn ran<R: Threads + Wait + Sync + RandomSource>(
    rt: &R,
    alloc: Global,
    lines: &mut String,
    asked: Asked,
    first: &Recorded,
    second: &Recorded,
) -> Result<Vec<u8>, AllocError> {
    let Some(workers) = Workers::new(asked.workers) else {
        return Ok(Vec::new(alloc));
    };
    let request = Request {
        command: asked.command,
        files: Vec::new(alloc),
        burdens: Burdens::equal(15000),
        parts: Parts::default(),
        workers,
        csv: asked.csv,
    };
    let mut out = OutSink::new(Vec::new(alloc));
    let mut err = OutSink::new(Vec::new(alloc));
    let status = run(
        rt,
        alloc,
        &request,
        &mut first.tape(),
        &mut second.tape(),
        &mut out,
        &mut err,
    );
    let (out, err) = (out.into_inner(), err.into_inner());
    let line = format!(in alloc;
        "{} {status}: {} bytes {:016x}, {} bytes {:016x}\n",
        word(asked.command),
        out.len(),
        digest(&out),
        err.len(),
        digest(&err)
    )?;
    lines.push_str(line.as_str())?;
    Ok(out)
}
