//! Jobs that are done part by part.

ghost use Rattle.std.specs.Prelude.{◌≡◌, ◌<◌, ◌≤◌, ◌+◌, ℕ, List, IfOk, IfErr};
ghost use Rattle.spp_book.specs.Jobs.{AreNeighbours, IsJoined, IsHandedBack, IsCopied};

use std::alloc::{AllocError, Global};

/// A job of some parts, 1 to 65,536. Its name, which contracts alone see, decides its parts, the range of each, and
/// which contents are its value of neighbouring parts together.
pub trait Job {
    /// What comes of parts of the job.
    type Content: Drop + Send;

    /// Its name.
    ghost name: { Self → List ℕ };

    /// How many parts a job of this name has. Of a name of no job it may be any number.
    ghost parts_of: { List ℕ → ℕ };

    /// The position of the first event of each part, and the number of its events.
    ghost range_of: { List ℕ → ℕ → ℕ × ℕ };

    /// Whether a content is the job's value of the parts from the first number up to, not including, the second.
    ghost is_value: { List ℕ → ℕ → ℕ → Self.Content → Type 0 };

    /// The number of its parts.
    fn parts(&self) -> u32
        ensures parts { result ≡ parts_of (name self.now) }
        ensures some { 0 < result }
        ensures most { result ≤ 65536 };

    /// The position of the first event of a part, and the number of its events.
    fn range(&self, number: u32) -> (u32, u32)
        requires { number < parts_of (name self.now) }
        ensures { result ≡ range_of (name self.now) number };

    /// The value of one part: what a worker calls. A book calls it nowhere.
    ///
    /// # Errors
    ///
    /// Where an allocation failed.
    fn run(&self, alloc: Global, number: u32) -> Result<Self::Content, AllocError>
        requires { number < parts_of (name self.now) }
        ensures { IfOk result (λ c. is_value (name self.now) number (number + 1) c) };

    /// The value of neighbouring parts together, out of those of the left ones and of the right ones.
    ///
    /// # Errors
    ///
    /// Where an allocation failed; both are handed back, as values of the same parts.
    fn join(
        alloc: Global,
        left: Self::Content,
        right: Self::Content,
    ) -> Result<Self::Content, JoinRefused<Self::Content>>
        requires { AreNeighbours parts_of is_value left right }
        ensures joined { IfOk result (λ c. IsJoined parts_of is_value left right c) }
        ensures refused { IfErr result (λ r. IsHandedBack is_value left right r.left r.right) };

    /// The same content once more: a value of whatever the given one is a value of.
    ///
    /// # Errors
    ///
    /// Where an allocation failed.
    fn copy(alloc: Global, content: &Self::Content) -> Result<Self::Content, AllocError>
        ensures { IfOk result (λ c. IsCopied is_value content.now c) };
}

/// Both sides of a join that was refused, since an allocation failed.
#[derive(Drop)]
pub struct JoinRefused<C> {
    /// The left one.
    pub left: C,
    /// The right one.
    pub right: C,
}
