//! A program for tests: prints what the library says of the trace or traces on standard input, where no command of
//! `spprof` does. Its words tell what: `text`, the trace as text; `marks PARTS WORKERS`, which events are on its path, as
//! so many workers mark them in so many even parts; `orders PARTS`, how long its parts take in three orders; `turns PARTS`,
//! how long its profile takes on one thread and, by turns with that, in so many parts with one worker; `damage`, whether
//! all say the same of it where one byte has another value, or with `damage TIMES SEED` of so many copies that are damaged
//! by chance; `reference`, what the reference profiler answers for each of many traces, held against the profiler on one
//! thread and against workers, with `reference PARTS` in so many parts too.
#![tactic(auto)]

mod damage;
mod marks;
mod orders;
mod reference;
mod text;
mod turns;

use spp_cut::Parts;
use spp_request::Workers;
use spp_shell::{InSource, read_all};
use std::env::args;
use std::io;
use std::process::ExitCode;

/// What is printed.
#[derive(Clone, Copy)]
enum Task {
    Text,
    Marks { parts: Parts, workers: Workers },
    Orders(Parts),
    Turns(Parts),
    DamageEach,
    DamageByChance { times: u32, seed: u32 },
    Reference(Option<u32>),
}

/// The number that is the word at this place, if it is there and is one.
fn number(words: &[String], at: usize) -> Option<u32> {
    words.get(at)?.parse::<u32>().ok()
}

/// What the words ask for.
fn asked(words: &[String]) -> Option<Task> {
    match words.get(1)?.as_str() {
        "text" => Some(Task::Text),
        "marks" => Some(Task::Marks {
            parts: Parts::new(number(words, 2)?)?,
            workers: Workers::new(number(words, 3)?)?,
        }),
        "orders" => Some(Task::Orders(Parts::new(number(words, 2)?)?)),
        "turns" => Some(Task::Turns(Parts::new(number(words, 2)?)?)),
        "damage" => match words.get(2) {
            None => Some(Task::DamageEach),
            Some(_) => Some(Task::DamageByChance {
                times: number(words, 2)?,
                seed: number(words, 3)?,
            }),
        },
        "reference" => Some(Task::Reference(number(words, 2))),
        _ => None,
    }
}

fn main(rt: HostRuntime) -> io::Result<ExitCode> {
    let alloc = rt.alloc();
    let words: Vec<String> = args(&rt)?.collect(alloc)?;
    let Some(task) = asked(words.as_slice()) else {
        return Ok(ExitCode::FAILURE);
    };
    let Ok(bytes) = read_all(alloc, &mut InSource::new(rt.reader())) else {
        return Ok(ExitCode::FAILURE);
    };
    let is_printed = match task {
        Task::Text => text::print(&rt, alloc, bytes.as_slice())?,
        Task::Marks { parts, workers } => marks::print(
            &rt,
            alloc,
            bytes.as_slice(),
            parts,
            workers,
        )?,
        Task::Orders(parts) => orders::print(&rt, alloc, bytes.as_slice(), parts)?,
        Task::Turns(parts) => turns::print(&rt, alloc, bytes.as_slice(), parts)?,
        Task::DamageEach => damage::print_each(&rt, alloc, bytes)?,
        Task::DamageByChance { times, seed } => {
            damage::print_by_chance(&rt, alloc, bytes.as_slice(), times, seed)?
        }
        Task::Reference(parts) => reference::print(&rt, alloc, bytes.as_slice(), parts)?,
    };
    Ok(if is_printed {
        ExitCode::SUCCESS
    } else {
        ExitCode::FAILURE
    })
}
