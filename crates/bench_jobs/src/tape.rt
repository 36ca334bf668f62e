//! A recorded run as a device gives it: what stands before the events, and then a step again and again.

ghost use Rattle.std.specs.Prelude.{◌≡◌};

use spp_shell::{Source, SourceFault};

/// Gives what stands before the events, and then a block of them so many times. It never fails.
#[derive(Drop)]
pub(crate) struct Tape<'a> {
    now: &'a [u8],
    block: &'a [u8],
    left: u32,
    length: u64,
}

impl<'a> Tape<'a> {
    /// These bytes, and then the block so many times.
    pub(crate) fn new(front: &'a [u8], block: &'a [u8], times: u32) -> Tape<'a> {
        let blocks = (block.len() as u64).saturating_mul(u64::from(times));
        Tape {
            now: front,
            block,
            left: times,
            length: blocks.saturating_add(front.len() as u64),
        }
    }
}

impl Source for Tape<'_> {
    ghost answered = { λ a o b. o ≡ o };

    ghost failed = { λ a b. b ≡ b };

    ghost failures = { λ s. 0 };

    fn pull(&mut self, buf: &mut [u8]) -> Result<Option<usize>, SourceFault> {
        if self.now.is_empty() && self.left > 0 {
            self.now = self.block;
            self.left -= 1;
        }
        let n = self.now.len().min(buf.len());
        let (given, rest) = self.now.split_at(n);
        buf[..n].copy_from_slice(given);
        self.now = rest;
        Ok(Some(n))
    }

    fn failures(&self) -> u64 {
        0
    }

    fn hint(&self) -> Option<u64> {
        Some(self.length)
    }
}
