//! The readers of the two versions.

ghost use Rattle.std.specs.Prelude.{◌≡◌, IfOk};
ghost use Rattle.spp_event.specs.Readers.{Stands};
ghost use Rattle.spp_event.specs.Records.{IsEventOf, read_record};
ghost use Rattle.spp_event.specs.Recordings.{place};

use crate::bytes_reader::BytesReader;
use crate::layout::{Layout, known_item_at, read_item_at, record_in, record_there};
use crate::reader::Reader;
use crate::records::{Event, EventFault, event_of, event_said};
use crate::traces::Trace;

/// The event of the record at a position, or what is wrong with its bytes first.
#[inline(always)]
fn record_event_in(body: &[u8], i: u32, sites: u32, funcs: u32) -> Result<Event, EventFault>
    ensures said { result ≡ read_record sites funcs (place body.now i) }
    ensures within { IfOk result (λ e. IsEventOf sites funcs e) }
{
    match record_in(body, i) {
        Some(record) => event_of(record, sites, funcs),
        None => Err(EventFault::Truncated),
    }
}

/// Reads the records of a trace of version 1, each of which is found by its position.
#[derive(Drop)]
pub struct RecordReader;

/// Reads the items of a trace of version 2.
#[derive(Drop)]
pub struct ItemReader {
    place: usize,
}

impl ItemReader {
    ghost use Rattle.std.specs.Prelude.{ℕ, List};
    ghost use Rattle.spp_event.specs.Places.{IsItemPlace};

    /// What reads the items of bytes from the first on.
    pub fn at_front() -> ItemReader
        ensures { (bytes : List ℕ) → IsItemPlace bytes 0 result.place }
    {
        ItemReader { place: 0 }
    }
}

/// Reads the events of a trace of either version. A loop over many events is best made generic over a [`Reader`], and
/// called with the reader that this holds, so that the version isn't tested at each event.
#[derive(Drop)]
pub enum Events {
    /// Those of version 1.
    Records(RecordReader),
    /// Those of version 2.
    Items(ItemReader),
}

impl Events {
    /// What reads the events of a trace from position `at` on. In version 2 it walks over 63 items at most.
    pub fn from(trace: &Trace<'_>, at: u32) -> Events
        ensures { Stands result trace.now at }
    {
        match &trace.layout {
            Layout::Records => Events::Records(RecordReader),
            Layout::Items(samples) => Events::Items(ItemReader {
                place: samples.place(trace.body, at),
            }),
        }
    }
}

impl Reader for RecordReader {
    ghost use Rattle.std.specs.Prelude.{◌≡◌};
    ghost use Rattle.spp_event.specs.declared.version.Version.TheVariants.{One};

    ghost stands = { λ r t i. t.version ≡ One };

    #[inline(always)]
    fn read(&mut self, trace: &Trace<'_>, i: u32) -> Result<Event, EventFault> {
        let sites = trace.sites.len() as u32;
        let funcs = trace.funcs.len() as u32;
        record_event_in(trace.body, i, sites, funcs)
    }

    #[inline(always)]
    fn read_known(&mut self, trace: &Trace<'_>, i: u32) -> Event {
        trace.keeps_limits();
        match record_in(trace.body, i) {
            Some(record) => event_said(record),
            None => unreachable!(),
        }
    }
}

impl Reader for ItemReader {
    ghost use Rattle.std.specs.Prelude.{◌≡◌};
    ghost use Rattle.spp_event.specs.declared.version.Version.TheVariants.{Two};
    ghost use Rattle.spp_event.specs.Places.{IsItemPlace};

    ghost stands = { λ r t i. (t.version ≡ Two) × IsItemPlace t.body i r.place };

    #[inline(always)]
    fn read(&mut self, trace: &Trace<'_>, i: u32) -> Result<Event, EventFault> {
        let sites = trace.sites.len() as u32;
        let funcs = trace.funcs.len() as u32;
        let (event, place) = read_item_at(trace.body, self.place, sites, funcs);
        self.place = place;
        event
    }

    #[inline(always)]
    fn read_known(&mut self, trace: &Trace<'_>, i: u32) -> Event {
        trace.keeps_limits();
        let (event, place) = known_item_at(trace.body, self.place);
        self.place = place;
        event
    }
}

impl BytesReader for RecordReader {
    ghost use Rattle.spp_event.specs.declared.version.Version.TheVariants.{One};

    ghost version = { One };

    ghost stands = { λ r bytes i. Unit {0} };

    #[inline(always)]
    fn read_in(
        &mut self,
        bytes: &[u8],
        i: u32,
        sites: u32,
        funcs: u32,
    ) -> Result<Event, EventFault> {
        event_of(record_there(bytes, i), sites, funcs)
    }
}

impl BytesReader for ItemReader {
    ghost use Rattle.spp_event.specs.declared.version.Version.TheVariants.{Two};
    ghost use Rattle.spp_event.specs.Places.{IsItemPlace};

    ghost version = { Two };

    ghost stands = { λ r bytes i. IsItemPlace bytes i r.place };

    #[inline(always)]
    fn read_in(
        &mut self,
        bytes: &[u8],
        _i: u32,
        sites: u32,
        funcs: u32,
    ) -> Result<Event, EventFault> {
        let (event, place) = read_item_at(bytes, self.place, sites, funcs);
        self.place = place;
        event
    }
}

impl Reader for Events {
    ghost use Rattle.spp_event.specs.Readers.{Stands};

    ghost stands = { Stands };

    #[inline(always)]
    fn read(&mut self, trace: &Trace<'_>, i: u32) -> Result<Event, EventFault> {
        match self {
            Events::Records(reader) => reader.read(trace, i),
            Events::Items(reader) => reader.read(trace, i),
        }
    }

    #[inline(always)]
    fn read_known(&mut self, trace: &Trace<'_>, i: u32) -> Event {
        match self {
            Events::Records(reader) => reader.read_known(trace, i),
            Events::Items(reader) => reader.read_known(trace, i),
        }
    }
}
