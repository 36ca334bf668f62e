//! The kinds of run.

ghost use Rattle.std.specs.Prelude.{◌<◌};

use crate::blocks::Block;
use crate::random::Random;
use crate::trees::{by_halves, fib};
use spp_event::Event;
use std::alloc::{AllocError, Global};

/// A kind of run.
#[derive(Clone, Copy)]
pub(crate) enum Kind {
    /// The recursive Fibonacci function, with short strands.
    Fib,
    /// Parallel loops that divide their ranges in halves, each step a call of a leaf.
    Halves,
    /// Parallel loops that spawn each item from one frame.
    Wide,
    /// A recursion a million frames deep, of which each thousandth is spawned.
    Deep,
    /// An irregular tree, up to 60 deep, with few sites and functions.
    Irregular,
    /// A large program: 60,000 sites and functions, up to 200 deep.
    Large,
}

impl Kind {
    /// Its name.
    pub(crate) fn name(self) -> &'static str {
        match self {
            Kind::Fib => "fib",
            Kind::Halves => "halves",
            Kind::Wide => "wide",
            Kind::Deep => "deep",
            Kind::Irregular => "irregular",
            Kind::Large => "large",
        }
    }

    /// How many functions it has.
    pub(crate) fn funcs(self) -> u32 {
        match self {
            Kind::Fib | Kind::Wide => 2,
            Kind::Halves | Kind::Deep => 3,
            Kind::Irregular => 8,
            Kind::Large => 60_000,
        }
    }

    /// How many call sites it has.
    pub(crate) fn sites(self) -> u32 {
        match self {
            Kind::Wide => 2,
            Kind::Fib | Kind::Deep => 3,
            Kind::Halves => 4,
            Kind::Irregular => 16,
            Kind::Large => 60_000,
        }
    }

    /// Adds a step of about so many events, which leaves no frame open.
    pub(crate) fn write(
        self,
        alloc: Global,
        block: &mut Block,
        random: &mut Random,
        events: u32,
    ) -> Result<(), AllocError> {
        match self {
            Kind::Fib => fib(alloc, block, random, events),
            Kind::Halves => by_halves(alloc, block, random, events),
            Kind::Wide => wide(block, random, events),
            Kind::Deep => deep(block, random, events),
            Kind::Irregular => tree(block, random, events, &Shape::IRREGULAR),
            Kind::Large => tree(block, random, events, &Shape::LARGE),
        }
    }
}

/// All children from one frame, with one sync at the end.
fn wide(block: &mut Block, random: &mut Random, events: u32) -> Result<(), AllocError> {
    for _ in 0..events / 4 {
        block.spawn(random.below(2), 1)?;
        block.strand(random.below(1000).saturating_add(100))?;
        block.put(Event::Ret)?;
        block.strand(random.below(3).saturating_add(1))?;
    }
    block.put(Event::Sync)
}

/// A tower of nested frames, down and up again.
fn deep(block: &mut Block, random: &mut Random, events: u32) -> Result<(), AllocError> {
    let height = events / 4;
    for level in 0..height {
        if level % 1000 == 0 {
            block.spawn(2, 2)?;
        } else {
            block.call(level % 2, 1 + level % 2)?;
        }
        block.strand(random.below(9).saturating_add(1))?;
    }
    for _ in 0..height {
        block.strand(random.below(10))?;
        block.put(Event::Ret)?;
    }
    block.put(Event::Sync)
}

/// What bounds a random walk up and down a tree of frames.
struct Shape {
    sites: u32,
    funcs: u32,
    most: u32,
    ghost some: { (0 < sites) × (0 < funcs) },
}

impl Shape {
    const IRREGULAR: Shape = Shape {
        sites: 16,
        funcs: 8,
        most: 60,
    };

    const LARGE: Shape = Shape {
        sites: 60_000,
        funcs: 60_000,
        most: 200,
    };
}

/// A random walk up and down a tree of frames, down to the frame where it began.
fn tree(
    block: &mut Block,
    random: &mut Random,
    events: u32,
    shape: &Shape,
) -> Result<(), AllocError> {
    let mut depth: u32 = 0;
    for _ in 0..events {
        match random.below(16) {
            0..=4 if depth < shape.most => {
                depth += 1;
                let (site, func) = (random.below(shape.sites), random.below(shape.funcs));
                if random.below(2) == 0 {
                    block.call(site, func)?;
                } else {
                    block.spawn(site, func)?;
                }
            }
            5..=9 if depth > 0 => {
                depth -= 1;
                block.put(Event::Ret)?;
            }
            10 => block.put(Event::Sync)?,
            _ => block.strand(random.below(1000))?,
        }
    }
    for _ in 0..depth {
        block.put(Event::Ret)?;
    }
    Ok(())
}
