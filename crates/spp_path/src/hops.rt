//! Hops back over the choices within a child that the path goes beside.

ghost use Rattle.std.specs.Prelude.{◌≤◌, length, map};
ghost use Rattle.spp_path.specs.Hops.{IsHop, AreBefore};

use spp_dag::{Choice, End};

/// A choice, as far as its position goes.
trait Placed {
    ghost use Rattle.std.specs.Prelude.{◌≡◌, ℕ};

    // Its position.
    ghost place: { Self → ℕ };

    /// Its position.
    fn place(&self) -> u32
        ensures { result ≡ place self.now };
}

impl Placed for End {
    ghost place = { λ e. e.at };

    #[inline(always)]
    fn place(&self) -> u32 {
        self.at
    }
}

impl Placed for Choice {
    ghost place = { λ j. j.at };

    #[inline(always)]
    fn place(&self) -> u32 {
        self.at
    }
}

/// How many of the first `left` of these choices, whose positions rise, stand at `spawn` or before it. The time is that of
/// the logarithm of how many it hops over; mostly there is none.
#[inline(always)]
fn hop<N: Placed>(choices: &[N], left: usize, spawn: u32) -> usize
    requires { left ≤ length choices.now }
    ensures { IsHop (map N.place choices.now) left spawn result }
{
    if left == 0 || choices[left - 1].place() <= spawn {
        return left;
    }
    hop_far(choices, left, spawn)
}

/// The same, where there may be many: it looks back from the last of them by steps that double, and then halves the last
/// step.
#[inline(never)]
fn hop_far<N: Placed>(choices: &[N], left: usize, spawn: u32) -> usize
    requires { left ≤ length choices.now }
    ensures { IsHop (map N.place choices.now) left spawn result }
{
    let mut high = left;
    let mut step = 1;
    while step <= high && choices[high - step].place() > spawn {
        high -= step;
        step = step.saturating_mul(2);
    }
    let mut low = if step <= high { high - step + 1 } else { 0 };
    while low < high {
        let middle = low + (high - low) / 2;
        if choices[middle].place() > spawn {
            high = middle;
        } else {
            low = middle + 1;
        }
    }
    high
}

/// How many of the choices of a range are left: the first of either list.
#[derive(Clone, Copy, Debug)]
pub(crate) struct Left {
    pub(crate) ends: usize,
    pub(crate) joins: usize,
}

impl Left {
    /// Those of them that stand at that spawn or before it, where a spawn is given; else all.
    #[inline(always)]
    pub(crate) fn before(self, ends: &[End], joins: &[Choice], spawn: Option<u32>) -> Left
        requires ends { self.ends ≤ length ends.now }
        requires joins { self.joins ≤ length joins.now }
        ensures { AreBefore (map (λ e. e.at) ends.now) (map (λ j. j.at) joins.now) self spawn result }
    {
        match spawn {
            None => self,
            Some(spawn) => Left {
                ends: hop(ends, self.ends, spawn),
                joins: hop(joins, self.joins, spawn),
            },
        }
    }
}
