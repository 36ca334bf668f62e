//! The job that counts frames on the whole dag, and notes the choices that settle the paths.

ghost use Rattle.std.specs.Prelude.{◌≡◌, ◌<◌, ◌≤◌, ◌+◌, ◌++◌, ℕ, List, IfOk, IfErr, OnOk};
ghost use Rattle.spp_book.specs.Jobs.{AreNeighbours, IsJoined, IsHandedBack, IsCopied};
ghost use Rattle.spp_stack.specs.Parts.{AreEntriesOf};
ghost use Rattle.spp_jobs.specs.Names.{spell, tables, parts_in, range_in};
ghost use Rattle.spp_dag.specs.declared.choices.Choices.{Choices as ChoicesValue};
ghost use Rattle.spp_jobs.specs.Tables.{AreSame, IsTabled};

use crate::adding::summed;
use crate::lists::{chained, make_room};
use spp_book::{Job, JoinRefused};
use spp_cut::Cut;
use spp_dag::Choices;
use spp_maxplus::Burdens;
use spp_pass::run_part;
use spp_site::Share;
use spp_stack::Entries;
use std::alloc::{AllocError, Global};
use std::collections::VecDeque;
use std::marker::Model;

/// What is told of some neighbouring parts of a run.
#[derive(Drop)]
pub struct Tabled {
    /// Their share in the rows on the whole dag.
    pub share: Share,
    /// The choices in each part, in order.
    pub choices: VecDeque<Choices>,
}

/// The job of counting the frames of the parts by call site, and of noting their choices.
///
/// Contracts see the parts, the stacks where they begin, and the burdens.
#[derive(Drop)]
pub struct TableJob<'c, 't, 'a> {
    cut: &'c Cut<'t, 'a>,
    stacks: &'c Entries,
    burdens: Burdens,
}

impl<'c, 't, 'a> Model for TableJob<'c, 't, 'a> {
    ghost use Rattle.spp_jobs.specs.Tables.{TableTask, IsTableTask};

    ghost Value = { TableTask };

    ghost view = { λ j. record { cut = j.cut.now; stacks = j.stacks.now; burdens = j.burdens } };

    ghost invariant = { λ j. IsTableTask (record { cut = j.cut.now; stacks = j.stacks.now; burdens = j.burdens }) };
}

impl<'c, 't, 'a> TableJob<'c, 't, 'a> {
    /// The job of these parts, where the stacks are those where they begin under these burdens.
    pub fn new(cut: &'c Cut<'t, 'a>, stacks: &'c Entries, burdens: Burdens) -> Self
        requires { AreEntriesOf cut.now burdens stacks.now }
        ensures cut { result.cut ≡ cut.now }
        ensures burdens { result.burdens ≡ burdens }
    {
        TableJob {
            cut,
            stacks,
            burdens,
        }
    }
}

/// The same choices once more.
fn copied(alloc: Global, choices: &Choices) -> Result<Choices, AllocError>
    ensures { IfOk result (λ c. (c.ends.items ≡ choices.now.ends.items) × (c.joins.items ≡ choices.now.joins.items) × (c.burdened_joins.items ≡ choices.now.burdened_joins.items)) }
{
    Ok(Choices {
        ends: Vec::from_slice(alloc, &choices.ends)?,
        joins: Vec::from_slice(alloc, &choices.joins)?,
        burdened_joins: Vec::from_slice(alloc, &choices.burdened_joins)?,
    })
}

/// Adds copies of these choices at the end.
fn push_copies(
    alloc: Global,
    all: &mut VecDeque<Choices>,
    choices: &[Choices],
) -> Result<(), AllocError>
    ensures { OnOk result ((cs : List ChoicesValue) → AreSame cs all.old.items → AreSame (cs ++ choices.now) all.new.items) }
{
    for of_part in choices {
        all.push_back(copied(alloc, of_part)?)?;
    }
    Ok(())
}

impl<'c, 't, 'a> Job for TableJob<'c, 't, 'a> {
    type Content = Tabled;

    ghost name = { λ j. spell (record { kind = tables; cut = j.cut; burdens = j.burdens }) };

    ghost parts_of = { parts_in };

    ghost range_of = { range_in };

    ghost is_value = { IsTabled };

    fn parts(&self) -> u32 {
        self.cut.parts().len() as u32
    }

    fn range(&self, number: u32) -> (u32, u32) {
        let part = &self.cut.parts()[number as usize];
        (part.first(), part.count())
    }

    /// Time and memory are those of [`run_part`].
    fn run(&self, alloc: Global, number: u32) -> Result<Tabled, AllocError> {
        self.cut.trace().keeps_limits();
        let at = number as usize;
        let part = &self.cut.parts()[at];
        let told = run_part(alloc, part, self.stacks.entry(at), self.burdens)?;
        let mut choices = VecDeque::with_capacity(alloc, 1)?;
        choices.push_back(told.choices)?;
        Ok(Tabled {
            share: told.share,
            choices,
        })
    }

    /// The time is that of adding the share with fewer rows to the other, and of moving the shorter of the two lists.
    fn join(_alloc: Global, left: Tabled, right: Tabled) -> Result<Tabled, JoinRefused<Tabled>>
        requires { AreNeighbours parts_in IsTabled left right }
        ensures joined { IfOk result (λ c. IsJoined parts_in IsTabled left right c) }
        ensures refused { IfErr result (λ r. IsHandedBack IsTabled left right r.left r.right) }
    {
        let mut left = left;
        let mut right = right;
        if make_room(&mut left.choices, &mut right.choices).is_err() {
            return Err(JoinRefused { left, right });
        }
        match summed(left.share, right.share) {
            Ok(share) => Ok(Tabled {
                share,
                choices: chained(left.choices, right.choices),
            }),
            Err(refused) => Err(JoinRefused {
                left: Tabled {
                    share: refused.left,
                    choices: left.choices,
                },
                right: Tabled {
                    share: refused.right,
                    choices: right.choices,
                },
            }),
        }
    }

    fn copy(alloc: Global, content: &Tabled) -> Result<Tabled, AllocError>
        ensures { IfOk result (λ c. IsCopied IsTabled content.now c) }
    {
        let (front, back) = content.choices.as_slices();
        let mut choices = VecDeque::with_capacity(alloc, content.choices.len())?;
        push_copies(alloc, &mut choices, front)?;
        push_copies(alloc, &mut choices, back)?;
        Ok(Tabled {
            share: Share::copy(alloc, &content.share)?,
            choices,
        })
    }
}
