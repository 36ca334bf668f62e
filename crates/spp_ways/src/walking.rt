//! Walks over the rows of two ways at once, one on the path without burdens and one on that under them, and the prefix that two
//! ways of one path share.

ghost use Rattle.std.specs.Prelude.{◌≡◌, ◌<◌, ◌≤◌, [], ℕ, Bool, length, reverse, OnOk, IfOk, Option};
ghost use Rattle.spp_dag.specs.Shares.{plus};
ghost use Rattle.spp_site.specs.Rows.{Fits};
ghost use Rattle.spp_ways.specs.Logs.{AreLinked, HasPrefix, merged_on, row_in, rest_in};
ghost use Rattle.spp_ways.specs.PathSums.{way_of, sums_on};

use crate::both_ways::BothWays;
use crate::log::{Log, Merged};
use crate::path_sums::{EmptyPathSums, PathSums};
use std::alloc::{AllocError, Global};

/// What the rows of a frame's ways come to on both paths: the way along it is what is shared, and what it has besides, and so is
/// the way through the child that waits in it.
#[derive(Drop)]
pub(crate) struct MergedWays {
    /// What the two share.
    pub(crate) shared: Merged,
    /// What the way along the frame has besides.
    pub(crate) along: Merged,
    /// And that through the child.
    pub(crate) through: Merged,
}

impl MergedWays {
    /// How many rows are stored: what it takes to add them to others. Contracts say nothing of it, since they see only the sums.
    pub(crate) fn len(&self) -> usize {
        let apart = self.along.len().saturating_add(self.through.len());
        self.shared.len().saturating_add(apart)
    }
}

impl Log {
    /// Adds the rows of two ways to sums, one on the path without burdens and one on that under them. The ways are walked
    /// together, so that a row that both enter is met once. `left` has room for what is left to walk; it is empty before and after.
    ///
    /// # Errors
    ///
    /// Where an allocation failed.
    fn add_up_both(
        &self,
        ways: BothWays,
        left: &mut Vec<BothWays>,
        sums: &mut PathSums,
    ) -> Result<(), AllocError>
        requires linked { AreLinked (reverse self.now.rows.items) }
        requires ways { (on : Bool) → way_of on ways ≤ length self.now.rows.items }
        requires empty { left.old.items ≡ [] }
        requires fits { (on : Bool) (key : Option ℕ) → Fits (plus (sums_on on sums.old key) (row_in on self.now (way_of on ways) key)) }
        ensures sums { OnOk result ((on : Bool) (key : Option ℕ) → sums_on on sums.new key ≡ plus (sums_on on sums.old key) (row_in on self.now (way_of on ways) key)) }
        ensures empty { OnOk result (left.new.items ≡ []) }
    {
        ways.put(left)?;
        while let Some(both) = left.pop() {
            let last = both.last();
            let row = &self.rows[last as usize - 1];
            sums.add(row, both)?;
            both.left_before(row).put(left)?;
            both.left_within(row).put(left)?;
        }
        Ok(())
    }

    /// Adds what two ways, one on the path without burdens and one on that under them, come to behind the prefixes at which they
    /// stop. A row that both reach at once is met once.
    ///
    /// # Errors
    ///
    /// Where an allocation failed.
    fn add_up_rest(
        &self,
        alloc: Global,
        ways: BothWays,
        stops: BothWays,
        sums: &mut PathSums,
    ) -> Result<(), AllocError>
        requires linked { AreLinked (reverse self.now.rows.items) }
        requires ways { (on : Bool) → way_of on ways ≤ length self.now.rows.items }
        requires fits { (on : Bool) (key : Option ℕ) → Fits (plus (sums_on on sums.old key) (rest_in on self.now (way_of on ways) (way_of on stops) key)) }
        ensures { OnOk result ((on : Bool) (key : Option ℕ) → sums_on on sums.new key ≡ plus (sums_on on sums.old key) (rest_in on self.now (way_of on ways) (way_of on stops) key)) }
    {
        let mut left = Vec::new(alloc);
        let mut at = ways.unless_at(stops);
        while at.last() != 0 {
            let row = &self.rows[at.last() as usize - 1];
            sums.add(row, at)?;
            self.add_up_both(at.left_within(row), &mut left, sums)?;
            at = at.left_before(row).unless_at(stops);
        }
        Ok(())
    }

    /// What two ways, one on the path without burdens and one on that under them, come to behind the prefixes at which they
    /// stop, and the empty sums that were passed to add them up. It takes constant time for each frame that either enters
    /// there, once where both reach it at once, time linear in what is stored for each row that was merged, and a step for each
    /// site number that those sums didn't reach before; and memory for as many pairs of ways as closed frames nest, besides
    /// that of the sums. Where neither way has such rows it takes no memory. No clause says that the memory of the sums is used
    /// again.
    ///
    /// # Errors
    ///
    /// Where an allocation failed.
    fn merge_rest(
        &self,
        alloc: Global,
        room: EmptyPathSums,
        ways: BothWays,
        stops: BothWays,
    ) -> Result<(Merged, EmptyPathSums), AllocError>
        requires linked { AreLinked (reverse self.now.rows.items) }
        requires ways { (on : Bool) → way_of on ways ≤ length self.now.rows.items }
        requires fits { (on : Bool) (key : Option ℕ) → Fits (rest_in on self.now (way_of on ways) (way_of on stops) key) }
        ensures { IfOk result (λ p. (on : Bool) (key : Option ℕ) → merged_on on p.0 key ≡ rest_in on self.now (way_of on ways) (way_of on stops) key) }
    {
        if ways.unless_at(stops).last() == 0 {
            return Ok((Merged::none(alloc), room));
        }
        let mut sums = room.into_sums();
        self.add_up_rest(alloc, ways, stops, &mut sums)?;
        sums.into_merged(alloc)
    }

    /// The way on that path, without burdens or under them, unless it ends behind the other: then the way before its last row.
    /// No clause says that it leads no further.
    #[inline(always)]
    fn led_before(&self, burdened: bool, way: u32, other: u32) -> u32
        requires linked { AreLinked (reverse self.now.rows.items) }
        requires way { way ≤ length self.now.rows.items }
        ensures leads { HasPrefix burdened (reverse self.now.rows.items) way result }
        ensures no_longer { result ≤ way }
        ensures shorter { other < way → result < way }
    {
        if way > other {
            self.rows[way as usize - 1].before(burdened)
        } else {
            way
        }
    }

    /// The longest common prefix of two ways on that path, without burdens or under them. It takes constant time for each frame
    /// that either enters behind it, one after the other. No clause says that it is the longest.
    fn common_prefix(&self, burdened: bool, one: u32, other: u32) -> u32
        requires linked { AreLinked (reverse self.now.rows.items) }
        requires one { one ≤ length self.now.rows.items }
        requires other { other ≤ length self.now.rows.items }
        ensures one { HasPrefix burdened (reverse self.now.rows.items) one result }
        ensures other { HasPrefix burdened (reverse self.now.rows.items) other result }
        ensures within { result ≤ length self.now.rows.items }
    {
        let mut at = one;
        let mut to = other;
        while at != to {
            let next = self.led_before(burdened, at, to);
            to = self.led_before(burdened, to, at);
            at = next;
        }
        at
    }

    /// The prefixes that the ways along a frame and those through the child that waits in it share, one on the path without burdens
    /// and one on that under them: the same on both, where both paths have it. Else what lies between two different ones would be
    /// met, and stored, once for each path. No clause says so.
    fn shared_prefixes(&self, along: BothWays, through: BothWays) -> BothWays
        requires linked { AreLinked (reverse self.now.rows.items) }
        requires along { (on : Bool) → way_of on along ≤ length self.now.rows.items }
        requires through { (on : Bool) → way_of on through ≤ length self.now.rows.items }
        ensures along { (on : Bool) → HasPrefix on (reverse self.now.rows.items) (way_of on along) (way_of on result) }
        ensures through { (on : Bool) → HasPrefix on (reverse self.now.rows.items) (way_of on through) (way_of on result) }
        ensures within { (on : Bool) → way_of on result ≤ length self.now.rows.items }
    {
        let plain = self.common_prefix(false, along.plain, through.plain);
        let burdened = self.common_prefix(true, along.burdened, through.burdened);
        let both = self.common_prefix(true, burdened, plain);
        BothWays {
            plain: self.common_prefix(false, plain, both),
            burdened: both,
        }
    }

    /// What the ways along a frame and those through the child that waits in it come to, and the empty sums that were passed to add
    /// them up. It takes constant time for each frame that any of them enters: once for each of the three parts that has it, and
    /// there once where both paths reach it at once; time linear in what is stored for each row that was merged; and a step for
    /// each site number that those sums didn't reach before, and for each up to the greatest that has a wide row. No clause says that what the
    /// two share is in the shared part, nor that the memory of the sums is used again.
    ///
    /// # Errors
    ///
    /// Where an allocation failed.
    pub(crate) fn merge(
        &self,
        alloc: Global,
        room: EmptyPathSums,
        along: BothWays,
        through: BothWays,
    ) -> Result<(MergedWays, EmptyPathSums), AllocError>
        requires linked { AreLinked (reverse self.now.rows.items) }
        requires along { (on : Bool) → way_of on along ≤ length self.now.rows.items }
        requires through { (on : Bool) → way_of on through ≤ length self.now.rows.items }
        requires along_fits { (on : Bool) (key : Option ℕ) → Fits (row_in on self.now (way_of on along) key) }
        requires through_fits { (on : Bool) (key : Option ℕ) → Fits (row_in on self.now (way_of on through) key) }
        ensures along { IfOk result (λ p. (on : Bool) (key : Option ℕ) → plus (merged_on on p.0.shared key) (merged_on on p.0.along key) ≡ row_in on self.now (way_of on along) key) }
        ensures through { IfOk result (λ p. (on : Bool) (key : Option ℕ) → plus (merged_on on p.0.shared key) (merged_on on p.0.through key) ≡ row_in on self.now (way_of on through) key) }
    {
        let none = BothWays {
            plain: 0,
            burdened: 0,
        };
        let stops = self.shared_prefixes(along, through);
        let first = self.merge_rest(alloc, room, stops, none)?;
        let second = self.merge_rest(alloc, first.1, along, stops)?;
        let third = self.merge_rest(alloc, second.1, through, stops)?;
        let merged = MergedWays {
            shared: first.0,
            along: second.0,
            through: third.0,
        };
        Ok((merged, third.1))
    }
}
