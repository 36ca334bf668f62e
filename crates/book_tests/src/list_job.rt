//! A job for tests: a list of numbers, each a part.

ghost use Rattle.std.specs.Prelude.{◌≡◌, ◌<◌, ◌≤◌, ◌+◌, ◌-◌, ℕ, List, [], ◌∷◌, ◌++◌, IfOk, IfErr, length, take, drop};
ghost use Rattle.spp_book.specs.Jobs.{AreNeighbours, IsJoined, IsHandedBack, IsCopied, IsPieceOf};
ghost use Rattle.book_tests.specs.Lists.{list_parts, list_range, IsRange};

use spp_book::{Job, JoinRefused, Piece};
use std::alloc::{AllocError, Global};

/// Neighbouring numbers of the list, in order.
#[derive(Drop)]
pub struct Listed {
    items: Vec<u32>,
    /// How many more joins are refused, as if no memory were left.
    refusals: u32,
}

impl Listed {
    /// The numbers.
    pub fn as_slice(&self) -> &[u32]
        ensures { result.now ≡ self.now.items.items }
    {
        self.items.as_slice()
    }
}

/// A job that borrows its numbers. Its value of parts is the list of their numbers.
#[derive(Drop)]
pub struct ListJob<'a> {
    numbers: &'a [u32],
    /// The parts whose first joins are refused.
    stubborn: &'a [u32],
    /// How many are, for each of them.
    refusals: u32,
    ghost some: { 0 < length numbers.now },
    ghost most: { length numbers.now ≤ 65536 },
}

impl<'a> ListJob<'a> {
    /// The job of 1 to 65,536 numbers, none of which refuses a join.
    pub fn new(numbers: &'a [u32]) -> ListJob<'a>
        requires some { 0 < length numbers.now }
        requires most { length numbers.now ≤ 65536 }
        ensures { result.numbers.now ≡ numbers.now }
    {
        ListJob {
            numbers,
            stubborn: &[],
            refusals: 0,
        }
    }

    /// The same job, except that so many joins of each of these parts are refused.
    pub fn with_refusals(self, stubborn: &'a [u32], refusals: u32) -> ListJob<'a>
        ensures { result.numbers.now ≡ self.entry.numbers.now }
    {
        let ListJob { numbers, .. } = self;
        ListJob {
            numbers,
            stubborn,
            refusals,
        }
    }

    /// A piece of this number and first position, with the content of that part if there is one.
    ///
    /// # Errors
    ///
    /// Where an allocation failed.
    pub fn piece(&self, alloc: Global, number: u32, first: u32) -> Result<Piece<Listed>, AllocError>
        ensures { IfOk result (λ p. IsPieceOf (list_parts self.now.numbers.now) (list_range self.now.numbers.now) (IsRange self.now.numbers.now) p.number p.first p.events p.content) }
    {
        let content = if number < self.parts() {
            self.run(alloc, number)?
        } else {
            Listed {
                items: Vec::new(alloc),
                refusals: 0,
            }
        };
        Ok(Piece {
            number,
            first,
            events: 1,
            content,
        })
    }
}

impl<'a> Job for ListJob<'a> {
    type Content = Listed;

    ghost name = { λ j. j.numbers.now };

    ghost parts_of = { list_parts };

    ghost range_of = { list_range };

    ghost is_value = { IsRange };

    fn parts(&self) -> u32 {
        self.numbers.len() as u32
    }

    fn range(&self, number: u32) -> (u32, u32) {
        (number, 1)
    }

    fn run(&self, alloc: Global, number: u32) -> Result<Listed, AllocError> {
        let at = number as usize;
        let items = Vec::from_slice(alloc, &self.numbers[at..at + 1])?;
        let refusals = if self.stubborn.contains(&number) {
            self.refusals
        } else {
            0
        };
        Ok(Listed { items, refusals })
    }

    fn join(_alloc: Global, left: Listed, right: Listed) -> Result<Listed, JoinRefused<Listed>>
        requires { AreNeighbours list_parts IsRange left right }
        ensures joined { IfOk result (λ c. IsJoined list_parts IsRange left right c) }
        ensures refused { IfErr result (λ r. IsHandedBack IsRange left right r.left r.right) }
    {
        let mut left = left;
        let mut right = right;
        if left.refusals > 0 || right.refusals > 0 {
            left.refusals = left.refusals.saturating_sub(1);
            right.refusals = right.refusals.saturating_sub(1);
            return Err(JoinRefused { left, right });
        }
        match left.items.extend_from_slice(right.items.as_slice()) {
            Ok(()) => Ok(left),
            Err(_) => Err(JoinRefused { left, right }),
        }
    }

    fn copy(alloc: Global, content: &Listed) -> Result<Listed, AllocError>
        ensures { IfOk result (λ c. IsCopied IsRange content.now c) }
    {
        Ok(Listed {
            items: Vec::from_slice(alloc, content.items.as_slice())?,
            refusals: content.refusals,
        })
    }
}
