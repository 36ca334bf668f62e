//! A program for bench/run: the jobs that users of spprof wait for, each over runs that it makes itself. Its words are the
//! name of a job, a number that the runs are drawn by, and maybe `small`, for runs of a hundredth of the size. It prints a
//! line for each run of the program: what was asked for, the status, and how many bytes came out, with a digest of them.
#![tactic(auto)]

mod blocks;
mod digest;
mod jobs;
mod kinds;
mod names;
mod random;
mod runs;
mod tape;
mod trees;

use jobs::{Desk, Job};
use std::env::args;
use std::io;
use std::process::ExitCode;

/// What the words ask for.
fn asked(words: &[String]) -> Option<(Job, Desk)> {
    let job = Job::of(words.get(1)?.as_str())?;
    let seed = words.get(2)?.parse::<u32>().ok()?;
    let small = match words.get(3) {
        None => false,
        Some(word) if word.as_str() == "small" => true,
        Some(_) => return None,
    };
    Some((job, Desk { seed, small }))
}

fn main(rt: HostRuntime) -> io::Result<ExitCode> {
    let alloc = rt.alloc();
    let words: Vec<String> = args(&rt)?.collect(alloc)?;
    let Some((job, desk)) = asked(words.as_slice()) else {
        return Ok(ExitCode::FAILURE);
    };
    let Ok(lines) = jobs::done(&rt, alloc, job, desk) else {
        return Ok(ExitCode::FAILURE);
    };
    print!(rt; "{}", lines.as_str())?;
    Ok(ExitCode::SUCCESS)
}
