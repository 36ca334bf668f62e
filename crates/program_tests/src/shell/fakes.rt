//! Sources and sinks in memory.
ghost use Rattle.std.specs.Io.KnownBytes.{Keeps};
ghost use Rattle.std.specs.Prelude.{◌≡◌, None, Some, IsTrue};
ghost use Rattle.spp_shell.specs.Reading.{KnownAnswer};
ghost use Rattle.program_tests.specs.Fakes.{Grows, grows_nothing, grows_both};

use spp_report::{Sink, SinkFault};
use spp_shell::{Source, SourceFault};
use std::alloc::Global;

/// Gives `bytes` one at a time, and fails at the read of number `fails_at`, from 0.
#[derive(Drop)]
pub struct Drip<'a> {
    pub bytes: &'a [u8],
    pub reads: u64,
    pub fails_at: u64,
    pub failures: u64,
}

impl Source for Drip<'_> {
    ghost answered = { λ a o b. KnownAnswer (Some a.bytes.now) o (Some b.bytes.now) };

    ghost failed = { λ a b. Keeps (Some a.bytes.now) (Some b.bytes.now) };

    ghost failures = { λ s. s.failures };

    fn pull(&mut self, buf: &mut [u8]) -> Result<Option<usize>, SourceFault> {
        let read = self.reads;
        self.reads = self.reads.saturating_add(1);
        if read == self.fails_at {
            self.failures = self.failures.saturating_add(1);
            return Err(SourceFault);
        }
        let Some(place) = buf.first_mut() else {
            return Ok(Some(0));
        };
        let Some((first, rest)) = self.bytes.split_first() else {
            return Ok(Some(0));
        };
        *place = *first;
        self.bytes = rest;
        Ok(Some(1))
    }

    fn failures(&self) -> u64 {
        self.failures
    }
}

pub fn failing(bytes: &[u8], fails_at: u64) -> Drip<'_> {
    Drip {
        bytes,
        reads: 0,
        fails_at,
        failures: 0,
    }
}

pub fn dripping(bytes: &[u8]) -> Drip<'_> {
    failing(bytes, u64::MAX)
}

/// A source that fails at its first read, where none is to be read.
pub fn unread() -> Drip<'static> {
    failing(b"".as_slice(), 0)
}

/// Is interrupted at each read.
#[derive(Drop)]
pub struct Busy;

impl Source for Busy {
    ghost answered = { λ a o b. o ≡ None };

    ghost failed = { λ a b. ⊥ };

    ghost failures = { λ s. 0 };

    fn pull(&mut self, _buf: &mut [u8]) -> Result<Option<usize>, SourceFault> {
        Ok(None)
    }

    fn failures(&self) -> u64 {
        0
    }
}

/// Takes at most `sip` bytes at a time and `room` bytes in all, and then fails; `finish` fails where `shuts` is
/// false.
#[derive(Drop)]
pub struct Cup {
    pub taken: Vec<u8>,
    pub room: usize,
    pub sip: usize,
    pub shuts: bool,
    pub failures: u64,
}

impl Sink for Cup {
    ghost took = { λ a xs b. Grows a.taken.items xs b.taken.items };

    ghost finished = { λ s. IsTrue s.shuts };

    ghost failures = { λ s. s.failures };

    fn push(&mut self, text: &[u8]) -> Result<usize, SinkFault> {
        let left = self.room.saturating_sub(self.taken.len()).min(self.sip);
        let n = text.len().min(left);
        if n == 0 && !text.is_empty() {
            self.failures = self.failures.saturating_add(1);
            return Err(SinkFault);
        }
        match self.taken.extend_from_slice(&text[..n]) {
            Ok(()) => Ok(n),
            Err(_) => {
                self.failures = self.failures.saturating_add(1);
                Err(SinkFault)
            }
        }
    }

    fn finish(&mut self) -> Result<(), SinkFault> {
        if self.shuts {
            return Ok(());
        }
        self.failures = self.failures.saturating_add(1);
        Err(SinkFault)
    }

    fn failures(&self) -> u64 {
        self.failures
    }

    ghost took_nothing = { λ s. grows_nothing s.taken.items };

    ghost took_both = { λ a b c xs ys. grows_both a.taken.items b.taken.items c.taken.items xs ys };
}

/// A cup for `room` bytes, taken three at a time.
pub fn empty_cup(alloc: Global, room: usize) -> Cup {
    Cup {
        taken: Vec::new(alloc),
        room,
        sip: 3,
        shuts: true,
        failures: 0,
    }
}
