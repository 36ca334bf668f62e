//! A source over one of std's readers.
ghost use Rattle.std.specs.Io.KnownBytes.{Keeps};
ghost use Rattle.std.specs.Prelude.{◌≡◌, None};
ghost use Rattle.spp_shell.specs.Reading.{KnownAnswer};

use crate::source::{Source, SourceFault};
use std::io::{ErrorKind, Read};

/// A source over one of std's readers.
#[derive(Drop)]
pub struct InSource<R: Read> {
    reader: R,
    failures: u64,
    hint: Option<u64>,
}

impl<R: Read> InSource<R> {
    ghost use Rattle.spp_shell.specs.InSources.{reader_of, failures_of, hint_of};

    /// A source over the reader that has not failed yet, and can't tell how many bytes will come.
    pub fn new(reader: R) -> InSource<R>
        ensures reader { reader_of result ≡ reader }
        ensures failures { failures_of result ≡ 0 }
        ensures hint { hint_of result ≡ None }
    {
        InSource::with_hint(reader, None)
    }

    /// A source over the reader that has not failed yet. The hint says how many bytes are likely to come, as the
    /// length of a file does.
    pub fn with_hint(reader: R, hint: Option<u64>) -> InSource<R>
        ensures reader { reader_of result ≡ reader }
        ensures failures { failures_of result ≡ 0 }
        ensures hint { hint_of result ≡ hint }
    {
        InSource {
            reader,
            failures: 0,
            hint,
        }
    }

    /// The reader again.
    pub fn into_inner(self) -> R
        ensures { result ≡ reader_of self }
    {
        self.reader
    }
}

impl<R: Read> Source for InSource<R> {
    ghost use Rattle.spp_shell.specs.InSources.{hint_of};

    ghost answered = { λ a o b. KnownAnswer (R.remaining a.reader) o (R.remaining b.reader) };

    // A read that failed took nothing.
    ghost failed = { λ a b. Keeps (R.remaining a.reader) (R.remaining b.reader) };

    ghost failures = { λ s. s.failures };

    fn pull(&mut self, buf: &mut [u8]) -> Result<Option<usize>, SourceFault> {
        match self.reader.read(buf) {
            Ok(n) => Ok(Some(n)),
            Err(e) if e.kind() == ErrorKind::Interrupted => Ok(None),
            Err(_) => {
                self.failures = self.failures.saturating_add(1);
                Err(SourceFault)
            }
        }
    }

    fn failures(&self) -> u64 {
        self.failures
    }

    /// The hint that the source was made with.
    fn hint(&self) -> Option<u64>
        ensures { result ≡ hint_of self.now }
    {
        self.hint
    }
}
