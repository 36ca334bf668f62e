//! A sink over one of std's writers.
ghost use Rattle.std.specs.Prelude.{◌≡◌, IsTrue};
ghost use Rattle.std.specs.Io.KnownBytes.{Appends};
ghost use Rattle.spp_report.specs.Appended.{appends_nothing, appends_both};

use crate::sink::{Sink, SinkFault};
use std::io::{ErrorKind, Write};

/// How many writes in a row may be interrupted; one more counts as a failure.
const PATIENCE: u8 = 64;

/// A sink over one of std's writers. Interrupted writes are made again, up to 64 in a row; a write that takes no
/// byte of a text that has one is a failure.
#[derive(Drop)]
pub struct OutSink<W: Write> {
    writer: W,
    failures: u64,
    is_flushed: bool,
}

impl<W: Write> OutSink<W> {
    ghost use Rattle.spp_report.specs.OutSinks.{writer_of, failures_of};

    /// A sink over the writer that has not failed yet.
    pub fn new(writer: W) -> OutSink<W>
        ensures writer { writer_of result ≡ writer }
        ensures failures { failures_of result ≡ 0 }
    {
        OutSink {
            writer,
            failures: 0,
            is_flushed: true,
        }
    }

    /// The writer again.
    pub fn into_inner(self) -> W
        ensures { result ≡ writer_of self }
    {
        self.writer
    }
}

impl<W: Write> Sink for OutSink<W> {
    ghost took = { λ a xs b. Appends (W.contents a.writer) (W.contents b.writer) xs };

    ghost finished = { λ s. IsTrue s.is_flushed };

    ghost failures = { λ s. s.failures };

    fn push(&mut self, text: &[u8]) -> Result<usize, SinkFault> {
        self.is_flushed = false;
        for _ in 0..=PATIENCE {
            match self.writer.write(text) {
                Ok(n) if n == 0 && !text.is_empty() => break,
                Ok(n) => return Ok(n),
                Err(e) if e.kind() == ErrorKind::Interrupted => {}
                Err(_) => break,
            }
        }
        self.failures = self.failures.saturating_add(1);
        Err(SinkFault)
    }

    fn finish(&mut self) -> Result<(), SinkFault> {
        for _ in 0..=PATIENCE {
            match self.writer.flush() {
                Ok(()) => {
                    self.is_flushed = true;
                    return Ok(());
                }
                Err(e) if e.kind() == ErrorKind::Interrupted => {}
                Err(_) => break,
            }
        }
        self.failures = self.failures.saturating_add(1);
        Err(SinkFault)
    }

    fn failures(&self) -> u64 {
        self.failures
    }

    ghost took_nothing = { λ s. appends_nothing (W.contents s.writer) };

    ghost took_both = { λ a b c xs ys. appends_both (W.contents a.writer) (W.contents b.writer) (W.contents c.writer) xs ys };
}
