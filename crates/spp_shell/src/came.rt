//! What came of an input that is read step by step.
ghost use Rattle.std.specs.Prelude.{◌≡◌, ◌<◌, ◌≤◌, ◌^◌, length, take};

use std::alloc::Global;

/// What came of an input that is read step by step.
#[derive(Drop)]
pub(crate) struct Came {
    /// The bytes that came, and then room for more.
    pub(crate) bytes: Vec<u8>,
    /// How many bytes came.
    pub(crate) filled: usize,
    /// In how many reads they came.
    pub(crate) reads: u64,
    ghost held: { filled ≤ length bytes.items },
    ghost few: { filled ≤ 2 ^ 33 },
    ghost turns: { reads < 2 ^ 33 },
}

impl Came {
    /// Nothing, before the first read.
    pub(crate) fn nothing(alloc: Global) -> Came
        ensures bytes { result.filled ≡ 0 }
        ensures reads { result.reads ≡ 0 }
    {
        Came {
            bytes: Vec::new(alloc),
            filled: 0,
            reads: 0,
        }
    }

    /// The bytes that came.
    pub(crate) fn as_slice(&self) -> &[u8]
        ensures { result.now ≡ take self.now.filled self.now.bytes.items }
    {
        &self.bytes[..self.filled]
    }
}
