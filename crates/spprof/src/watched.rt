//! What went through a device.

use spp_explain::Input;
use std::alloc::Global;
use std::io;
use std::io::{ErrorKind, Read, Write};

/// What went through a device: the first bytes, how many there were, and why it failed, if it did.
#[derive(Drop)]
pub(crate) struct Seen {
    front: Vec<u8>,
    room: usize,
    len: u64,
    failure: Option<ErrorKind>,
}

impl Seen {
    /// Nothing yet. So many of the first bytes are to be kept, where memory allows.
    pub(crate) fn new(alloc: Global, room: usize) -> Seen {
        Seen {
            front: Vec::new(alloc),
            room,
            len: 0,
            failure: None,
        }
    }

    /// The bytes that went through first.
    pub(crate) fn front(&self) -> &[u8] {
        self.front.as_slice()
    }

    /// What is known of an input or output of that name.
    pub(crate) fn named<'a>(&'a self, name: &'a str) -> Input<'a> {
        Input {
            name,
            front: self.front.as_slice(),
            len: self.len,
            failure: self.failure,
        }
    }

    /// Notes that the device failed, or could not be opened.
    pub(crate) fn note_failure(&mut self, error: &io::Error) {
        self.failure = Some(error.kind());
    }

    /// Notes that bytes went through.
    fn note(&mut self, bytes: &[u8]) {
        self.len = self.len.saturating_add(bytes.len() as u64);
        let kept = bytes.get(..self.room).unwrap_or(bytes);
        self.room = match self.front.extend_from_slice(kept) {
            Ok(()) => self.room.saturating_sub(kept.len()),
            Err(_) => 0,
        };
    }

    /// Notes how a call of the device ended that was given these bytes.
    fn note_end(&mut self, end: &io::Result<usize>, bytes: &[u8]) {
        match end {
            Ok(n) => self.note(bytes.get(..*n).unwrap_or(bytes)),
            Err(e) => self.note_failure(e),
        }
    }
}

/// A device of which is noted what goes through it.
#[derive(Drop)]
pub(crate) struct Watched<D> {
    device: D,
    seen: Seen,
}

impl<D> Watched<D> {
    /// The device, of which so many of the first bytes are to be kept.
    pub(crate) fn new(alloc: Global, device: D, room: usize) -> Watched<D> {
        Watched {
            device,
            seen: Seen::new(alloc, room),
        }
    }

    /// What went through it.
    pub(crate) fn seen(&self) -> &Seen {
        &self.seen
    }
}

impl<D: Drop> Watched<D> {
    /// What went through it, once it is done with.
    pub(crate) fn into_seen(self) -> Seen {
        self.seen
    }
}

impl<R: Read> Read for Watched<R> {
    ghost remaining = { λ w. R.remaining w.device };

    fn read(&mut self, buf: &mut [u8]) -> io::Result<usize> {
        let end = self.device.read(buf);
        self.seen.note_end(&end, buf);
        end
    }
}

impl<W: Write> Write for Watched<W> {
    ghost contents = { λ w. W.contents w.device };

    fn write(&mut self, buf: &[u8]) -> io::Result<usize> {
        let end = self.device.write(buf);
        self.seen.note_end(&end, buf);
        end
    }

    fn flush(&mut self) -> io::Result<()> {
        let end = self.device.flush();
        if let Err(e) = &end {
            self.seen.note_failure(e);
        }
        end
    }
}
