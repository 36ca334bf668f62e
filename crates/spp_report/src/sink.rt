//! What takes bytes.
ghost use Rattle.std.specs.Prelude.{◌≡◌, ℕ, ◌+◌, ◌<◌, ◌≤◌, List, [], ◌++◌, length, take, IfOk, OnOk, OnErr};
ghost use Rattle.spp_report.specs.Devices.{Raised};

use thiserror::Error;

/// A sink could not take bytes. Its count of failures rose, unless it stood at its greatest value already.
#[derive(Clone, Copy, Debug, Error, PartialEq, Eq)]
#[error("the sink failed")]
pub struct SinkFault;

/// A writing stopped before its end.
#[derive(Clone, Copy, Debug, Error, PartialEq, Eq)]
pub enum WriteFault {
    /// The device failed.
    #[error("the sink failed after {written} bytes")]
    Device {
        /// How many bytes it had taken before, the first ones of the text.
        written: usize,
    },
}

/// A device that takes bytes, as a file, a pipe or memory.
pub trait Sink {
    // From the first state to the second it took exactly these bytes.
    ghost took: { Self → List ℕ → Self → Type 0 };

    // It says that all it took has gone on to where it was meant for.
    ghost finished: { Self → Type 0 };

    // Its failures so far.
    ghost failures: { Self → ℕ };

    /// Takes the first bytes of `text` and tells how many: at least one where there is one.
    ///
    /// # Errors
    ///
    /// It took none, and its count of failures rose or stands at its greatest value.
    fn push(&mut self, text: &[u8]) -> Result<usize, SinkFault>
        ensures within { IfOk result (λ n. n ≤ length text.now) }
        ensures some { IfOk result (λ n. 0 < length text.now → 0 < n) }
        ensures took { IfOk result (λ n. took self.old (take n text.now) self.new) }
        ensures same { OnOk result (failures self.new ≡ failures self.old) }
        ensures took_none { OnErr result (took self.old [] self.new) }
        ensures raised { OnErr result (Raised (failures self.old) (failures self.new)) };

    /// Sends on what it holds. It takes nothing.
    ///
    /// # Errors
    ///
    /// Its count of failures rose or stands at its greatest value.
    fn finish(&mut self) -> Result<(), SinkFault>
        ensures took { took self.old [] self.new }
        ensures finished { OnOk result (finished self.new) }
        ensures same { OnOk result (failures self.new ≡ failures self.old) }
        ensures raised { OnErr result (Raised (failures self.old) (failures self.new)) };

    /// The number of failures so far; it stays at its greatest value.
    fn failures(&self) -> u64
        ensures { result ≡ failures self.now };

    // It took nothing where it did nothing.
    ghost took_nothing: { (s : Self) → took s [] s };

    // What it took one after the other, it took together.
    ghost took_both: { (a b c : Self) (xs ys : List ℕ) → took a xs b → took b ys c → took a (xs ++ ys) c };
}
