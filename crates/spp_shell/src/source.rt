//! What gives bytes.
ghost use Rattle.std.specs.Prelude.{◌≡◌, ℕ, ◌<◌, ◌≤◌, List, length, take, IfOk, IfSome, OnOk, OnErr, Option};
ghost use Rattle.std.specs.Option.{option_map};
ghost use Rattle.spp_report.specs.Devices.{Raised};

use thiserror::Error;

/// A source could not give its bytes. Its count of failures rose, unless it stood at its greatest value already.
#[derive(Clone, Copy, Debug, Error, PartialEq, Eq)]
#[error("the source failed")]
pub struct SourceFault;

/// A device that gives bytes, as a file, a pipe or memory.
pub trait Source {
    // One read from the first state to the second: the bytes that it gave (none: its end), or that it was interrupted.
    ghost answered: { Self → Option (List ℕ) → Self → Type 0 };

    // One read from the first state to the second, at which it failed.
    ghost failed: { Self → Self → Type 0 };

    // Its failures so far.
    ghost failures: { Self → ℕ };

    /// Reads into the front of `buf`: how many bytes came, or `None` where it was interrupted. For a buffer that
    /// is not empty 0 is the end.
    ///
    /// # Errors
    ///
    /// Its count of failures rose or stands at its greatest value.
    fn pull(&mut self, buf: &mut [u8]) -> Result<Option<usize>, SourceFault>
        ensures within { IfOk result (λ o. IfSome o (λ n. n ≤ length buf.new)) }
        ensures answered { 0 < length buf.old → IfOk result (λ o. answered self.old (option_map (λ n. take n buf.new) o) self.new) }
        ensures same { OnOk result (failures self.new ≡ failures self.old) }
        ensures failed { OnErr result (failed self.old self.new) }
        ensures raised { OnErr result (Raised (failures self.old) (failures self.new)) };

    /// The number of failures so far; it stays at its greatest value.
    fn failures(&self) -> u64
        ensures { result ≡ failures self.now };

    /// How many bytes are likely to come, where the source can tell before the first is read. It is advice, for making
    /// room: fewer bytes may come, or more.
    fn hint(&self) -> Option<u64> {
        None
    }
}
