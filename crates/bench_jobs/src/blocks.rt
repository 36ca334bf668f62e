//! Blocks of events, spelled as records or as lines of text.

use itoa::Buffer;
use spp_event::{Event, record_of};
use std::alloc::{AllocError, Global};

/// How events are spelled.
#[derive(Clone, Copy)]
pub(crate) enum Form {
    /// As records of version 1.
    Records,
    /// As lines of the text form.
    Lines,
}

/// Events one after the other, as they are spelled.
#[derive(Drop)]
pub(crate) struct Block {
    form: Form,
    /// Their bytes.
    pub(crate) bytes: Vec<u8>,
    /// How many they are.
    pub(crate) events: u32,
}

impl Block {
    /// No events.
    pub(crate) fn new(alloc: Global, form: Form) -> Block {
        Block {
            form,
            bytes: Vec::new(alloc),
            events: 0,
        }
    }

    /// Adds an event.
    pub(crate) fn put(&mut self, event: Event) -> Result<(), AllocError> {
        self.events = self.events.saturating_add(1);
        match self.form {
            Form::Records => self.bytes.extend_from_slice(record_of(event).as_slice()),
            Form::Lines => self.put_line(event),
        }
    }

    /// Adds a number.
    fn put_number(&mut self, number: u64) -> Result<(), AllocError> {
        let mut buffer = Buffer::new();
        self.bytes
            .extend_from_slice(buffer.format(number).as_bytes())
    }

    /// Adds the line of an event that opens a frame.
    fn put_open(&mut self, word: &[u8], site: u32, func: u32) -> Result<(), AllocError> {
        self.bytes.extend_from_slice(word)?;
        self.put_number(u64::from(site))?;
        self.bytes.extend_from_slice(b" ")?;
        self.put_number(u64::from(func))?;
        self.bytes.extend_from_slice(b"\n")
    }

    /// Adds the line of an event.
    fn put_line(&mut self, event: Event) -> Result<(), AllocError> {
        match event {
            Event::Strand { count } => {
                self.bytes.extend_from_slice(b"strand ")?;
                self.put_number(count)?;
                self.bytes.extend_from_slice(b"\n")
            }
            Event::Call { site, func } => self.put_open(b"call ", site, func),
            Event::Spawn { site, func } => self.put_open(b"spawn ", site, func),
            Event::Ret => self.bytes.extend_from_slice(b"return\n"),
            Event::Sync => self.bytes.extend_from_slice(b"sync\n"),
        }
    }

    /// Adds a strand.
    pub(crate) fn strand(&mut self, count: u32) -> Result<(), AllocError> {
        let count = u64::from(count);
        self.put(Event::Strand { count })
    }

    /// Adds a call.
    pub(crate) fn call(&mut self, site: u32, func: u32) -> Result<(), AllocError> {
        self.put(Event::Call { site, func })
    }

    /// Adds a spawn.
    pub(crate) fn spawn(&mut self, site: u32, func: u32) -> Result<(), AllocError> {
        self.put(Event::Spawn { site, func })
    }
}
