//! The job that counts frames on both paths.

ghost use Rattle.std.specs.Prelude.{◌≡◌, ◌<◌, ◌≤◌, ◌+◌, ℕ, List, Option, IfOk, IfErr, OnOk, OnErr};
ghost use Rattle.spp_dag.specs.Shares.{plus};
ghost use Rattle.spp_site.specs.Rows.{Fits};
ghost use Rattle.spp_site.specs.Table.{IsSum};
ghost use Rattle.spp_site.specs.Profiles.{key_row};
ghost use Rattle.spp_book.specs.Jobs.{AreNeighbours, IsJoined, IsHandedBack, IsCopied};
ghost use Rattle.spp_maxplus.specs.State.{unburdened};
ghost use Rattle.spp_path.specs.Parts.{IsSettledIn};
ghost use Rattle.spp_jobs.specs.Names.{spell, paths, parts_in, range_in};
ghost use Rattle.spp_jobs.specs.Paths.{IsPathed, IsSettledOver};
ghost use Rattle.spp_jobs.specs.Tables.{IsRun};

use spp_book::{Job, JoinRefused};
use spp_cut::Cut;
use spp_maxplus::Burdens;
use spp_path::{Settled, both_part_rows, part_rows};
use spp_site::Share;
use spp_stack::Entries;
use std::alloc::{AllocError, Global};
use std::marker::Model;

/// The share of some neighbouring parts of a run in the rows on its two paths.
#[derive(Drop)]
pub struct Pathed {
    /// On the path without burdens.
    pub path: Share,
    /// On the path under the burdens.
    pub burdened_path: Share,
}

impl Pathed {
    /// How many rows both shares have.
    fn row_count(&self) -> usize {
        self.path
            .row_count()
            .saturating_add(self.burdened_path.row_count())
    }

    /// Adds the shares of others to these, both or neither.
    fn add(&mut self, others: &Pathed) -> Result<(), AllocError>
        requires path { (key : Option ℕ) → Fits (plus (key_row self.old.path key) (key_row others.now.path key)) }
        requires burdened { (key : Option ℕ) → Fits (plus (key_row self.old.burdened_path key) (key_row others.now.burdened_path key)) }
        ensures path { OnOk result (IsSum self.old.path others.now.path self.new.path) }
        ensures burdened { OnOk result (IsSum self.old.burdened_path others.now.burdened_path self.new.burdened_path) }
        ensures stays { OnErr result (self.new ≡ self.old) }
    {
        let Pathed {
            path,
            burdened_path,
        } = self;
        path.merge_both(&others.path, burdened_path, &others.burdened_path)
    }
}

/// The job of counting the frames of the parts by call site on both paths.
///
/// Contracts see the parts, the stacks where they begin, the burdens, and the two paths.
#[derive(Drop)]
pub struct PathJob<'c, 't, 'a> {
    cut: &'c Cut<'t, 'a>,
    stacks: &'c Entries,
    burdens: Burdens,
    path: &'c Settled<'c>,
    burdened: &'c Settled<'c>,
}

impl<'c, 't, 'a> Model for PathJob<'c, 't, 'a> {
    ghost use Rattle.spp_jobs.specs.Paths.{PathTask, IsPathTask};

    ghost Value = { PathTask };

    ghost view = { λ j. record { cut = j.cut.now; stacks = j.stacks.now; burdens = j.burdens; path = j.path.now; burdened = j.burdened.now } };

    ghost invariant = { λ j. IsPathTask (record { cut = j.cut.now; stacks = j.stacks.now; burdens = j.burdens; path = j.path.now; burdened = j.burdened.now }) };
}

impl<'c, 't, 'a> PathJob<'c, 't, 'a> {
    /// The job of these parts and of two paths that were settled over the stacks where they begin, the one without burdens
    /// and the one under these.
    pub fn new(
        cut: &'c Cut<'t, 'a>,
        stacks: &'c Entries,
        burdens: Burdens,
        path: &'c Settled<'c>,
        burdened: &'c Settled<'c>,
    ) -> Self
        requires run { IsRun cut.now }
        requires over { IsSettledOver cut.now stacks.now path.now }
        requires burdened_over { IsSettledOver cut.now stacks.now burdened.now }
        requires path { IsSettledIn cut.now.trace unburdened path.now }
        requires burdened { IsSettledIn cut.now.trace burdens burdened.now }
        ensures cut { result.cut ≡ cut.now }
        ensures burdens { result.burdens ≡ burdens }
    {
        PathJob {
            cut,
            stacks,
            burdens,
            path,
            burdened,
        }
    }
}

impl<'c, 't, 'a> Job for PathJob<'c, 't, 'a> {
    type Content = Pathed;

    ghost name = { λ j. spell (record { kind = paths; cut = j.cut; burdens = j.burdens }) };

    ghost parts_of = { parts_in };

    ghost range_of = { range_in };

    ghost is_value = { IsPathed };

    fn parts(&self) -> u32 {
        self.cut.parts().len() as u32
    }

    fn range(&self, number: u32) -> (u32, u32) {
        let part = &self.cut.parts()[number as usize];
        (part.first(), part.count())
    }

    /// Where the paths go alike in the part, time and memory are those of [`part_rows`], once for both. Else they are those
    /// of [`both_part_rows`]: where both paths come to the part its events are read once for both.
    fn run(&self, alloc: Global, number: u32) -> Result<Pathed, AllocError> {
        self.cut.trace().keeps_limits();
        let at = number as usize;
        let part = &self.cut.parts()[at];
        let entry = self.stacks.entry(at);
        if self.path.goes_alike(self.burdened, at) {
            let path = part_rows(alloc, part, entry, self.path)?;
            let burdened_path = Share::copy(alloc, &path)?;
            return Ok(Pathed {
                path,
                burdened_path,
            });
        }
        let (path, burdened_path) = both_part_rows(alloc, part, entry, self.path, self.burdened)?;
        Ok(Pathed {
            path,
            burdened_path,
        })
    }

    /// The time is that of adding the shares of one side to those of the other, which have at least as many rows.
    fn join(_alloc: Global, left: Pathed, right: Pathed) -> Result<Pathed, JoinRefused<Pathed>>
        requires { AreNeighbours parts_in IsPathed left right }
        ensures joined { IfOk result (λ c. IsJoined parts_in IsPathed left right c) }
        ensures refused { IfErr result (λ r. IsHandedBack IsPathed left right r.left r.right) }
    {
        let mut left = left;
        let mut right = right;
        if right.row_count() <= left.row_count() {
            return match left.add(&right) {
                Ok(()) => Ok(left),
                Err(_) => Err(JoinRefused { left, right }),
            };
        }
        match right.add(&left) {
            Ok(()) => Ok(right),
            Err(_) => Err(JoinRefused { left, right }),
        }
    }

    fn copy(alloc: Global, content: &Pathed) -> Result<Pathed, AllocError>
        ensures { IfOk result (λ c. IsCopied IsPathed content.now c) }
    {
        Ok(Pathed {
            path: Share::copy(alloc, &content.path)?,
            burdened_path: Share::copy(alloc, &content.burdened_path)?,
        })
    }
}
