//! The recursions: what is still to be written of one is kept in a list, the next last.

use crate::blocks::Block;
use crate::random::Random;
use spp_event::Event;
use std::alloc::{AllocError, Global};

/// What is still to be written.
#[derive(Clone, Copy)]
enum Task {
    /// This event.
    Put(Event),
    /// A strand of so many instructions and a few more.
    Strand(u32),
    /// What runs in a frame of `fib` of this number.
    Fib(u32),
    /// What runs in a frame that makes so many steps of a loop.
    Half(u32),
}

/// The most tasks of one recursion.
const MOST: u32 = 1 << 28;

/// What runs in a frame of `fib` of this number: it spawns itself on the number before, calls itself on the one before
/// that, and syncs.
fn add_fib(tasks: &mut Vec<Task>, n: u32) -> Result<(), AllocError> {
    if n < 2 {
        return tasks.push(Task::Strand(5)).map_err(AllocError::from);
    }
    tasks.extend_from_slice(&[
        Task::Strand(3),
        Task::Put(Event::Sync),
        Task::Put(Event::Ret),
        Task::Fib(n - 2),
        Task::Put(Event::Call { site: 1, func: 1 }),
        Task::Put(Event::Ret),
        Task::Fib(n - 1),
        Task::Put(Event::Spawn { site: 0, func: 1 }),
        Task::Strand(10),
    ])
}

/// What runs in a frame that makes so many steps of a loop: it spawns itself on a half of them, calls itself on the others,
/// and syncs. One step is a call.
fn add_half(tasks: &mut Vec<Task>, steps: u32) -> Result<(), AllocError> {
    if steps < 2 {
        return tasks.extend_from_slice(&[
            Task::Put(Event::Ret),
            Task::Strand(50),
            Task::Put(Event::Call { site: 2, func: 2 }),
            Task::Strand(2),
        ]);
    }
    tasks.extend_from_slice(&[
        Task::Put(Event::Sync),
        Task::Put(Event::Ret),
        Task::Half(steps - steps / 2),
        Task::Put(Event::Call { site: 1, func: 1 }),
        Task::Put(Event::Ret),
        Task::Half(steps / 2),
        Task::Put(Event::Spawn { site: 0, func: 1 }),
    ])
}

/// Writes all that a first task comes to.
fn write(
    alloc: Global,
    block: &mut Block,
    random: &mut Random,
    first: Task,
) -> Result<(), AllocError> {
    let mut tasks = Vec::new(alloc);
    tasks.push(first)?;
    for _ in 0..MOST {
        match tasks.pop() {
            None => break,
            Some(Task::Put(event)) => block.put(event)?,
            Some(Task::Strand(least)) => block.strand(least.saturating_add(random.below(12)))?,
            Some(Task::Fib(n)) => add_fib(&mut tasks, n)?,
            Some(Task::Half(steps)) => add_half(&mut tasks, steps)?,
        }
    }
    Ok(())
}

/// A call of `fib` of the greatest number for which so many events suffice, and a strand.
pub(crate) fn fib(
    alloc: Global,
    block: &mut Block,
    random: &mut Random,
    events: u32,
) -> Result<(), AllocError> {
    // A frame of 0 or 1 has one event, besides those that open and close it.
    let (mut n, mut size, mut next) = (1_u32, 1_u32, 9_u32);
    for _ in 0..40 {
        if next > events {
            break;
        }
        let after = next.saturating_add(size).saturating_add(7);
        (n, size, next) = (n.saturating_add(1), next, after);
    }
    block.call(2, 1)?;
    write(alloc, block, random, Task::Fib(n))?;
    block.put(Event::Ret)?;
    block.strand(random.below(10))
}

/// A call of a loop with as many steps as so many events suffice for, and a strand.
pub(crate) fn by_halves(
    alloc: Global,
    block: &mut Block,
    random: &mut Random,
    events: u32,
) -> Result<(), AllocError> {
    block.call(3, 1)?;
    write(alloc, block, random, Task::Half(events / 10))?;
    block.put(Event::Ret)?;
    block.strand(random.below(10))
}
