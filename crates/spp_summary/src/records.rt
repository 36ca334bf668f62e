//! The summary of the events of bytes: of records of version 1, or of items of version 2.
ghost use Rattle.std.specs.Prelude.{◌≡◌, ◌+◌, ◌/◌, ◌≤◌, ◌^◌, length, IfOk};
ghost use Rattle.spp_event.specs.declared.version.Version.TheVariants.{One, Two};
ghost use Rattle.spp_event.specs.Items.{items};
ghost use Rattle.spp_event.specs.Recordings.{count_in, records_of};
ghost use Rattle.spp_piece.specs.Account.{account_of};
ghost use Rattle.spp_piece.specs.Bound.{IsSmall};
ghost use Rattle.spp_piece.specs.Summary.{summary_of};
ghost use Rattle.spp_summary.specs.Reading.{so_far, IsLaid};

use crate::reading::Reading;
use crate::summary::Summary;
use spp_event::{BytesReader, ItemReader, RecordReader, items_in};
use spp_maxplus::Burdens;
use std::alloc::{AllocError, Global};

/// The bytes of a record.
const RECORD: usize = 16;

impl Reading {
    /// Reads the events of these bytes, of which there are so many and the first has the position `first`, up to the first bad
    /// one, by a reader that stands at the first.
    ///
    /// # Errors
    ///
    /// Where an allocation failed.
    #[inline(always)]
    fn of_bytes_by<B: BytesReader>(
        alloc: Global,
        bytes: &[u8],
        count: u32,
        sites: u32,
        funcs: u32,
        burdens: Burdens,
        first: u32,
        mut reader: B,
    ) -> Result<Reading, AllocError>
        requires count { count ≡ count_in B.version bytes.now }
        requires here { B.stands reader bytes.now 0 }
        requires few { first + count ≤ 2 ^ 28 }
        ensures value { IfOk result (λ r. so_far r ≡ summary_of burdens first (records_of B.version sites funcs count bytes.now)) }
        ensures laid { IfOk result (λ r. IsLaid r) }
        ensures small { IfOk result (λ r. IsSmall burdens count (so_far r)) }
    {
        // For what it states: each is a number of 32 bits.
        burdens.are_small();
        let mut reading = Reading::new(alloc);
        for k in 0..count {
            match reader.read_in(bytes, k, sites, funcs) {
                Ok(event) => reading.read(burdens, first + k, event)?,
                Err(why) => {
                    reading.fault = Some((first + k, why));
                    return Ok(reading);
                }
            }
        }
        Ok(reading)
    }
}

impl Summary {
    /// The summary of so many events, of which this is the reading.
    fn of_reading(reading: Reading, burdens: Burdens, first: u32, events: u32) -> Summary
        requires laid { IsLaid reading }
        requires small { IsSmall burdens events (so_far reading) }
        requires few { first + events ≤ 2 ^ 28 }
        ensures { result ≡ record { burdens = burdens; first = first; events = events; sum = so_far reading } }
    {
        // For what it states, as above.
        burdens.are_small();
        Summary {
            burdens,
            first,
            events,
            storage: reading.finish(),
        }
    }

    /// The summary of the whole records of these bytes of version 1, the first of which has the position `first`, in a trace
    /// of so many sites and functions, as [`Summary::summarise`].
    ///
    /// # Errors
    ///
    /// Where an allocation failed.
    #[inline(never)]
    pub fn of_records(
        alloc: Global,
        bytes: &[u8],
        sites: u32,
        funcs: u32,
        burdens: Burdens,
        first: u32,
    ) -> Result<Summary, AllocError>
        requires { first + length bytes.now / 16 ≤ 2 ^ 28 }
        ensures { IfOk result (λ s. s ≡ account_of burdens first (records_of One sites funcs (length bytes.now / 16) bytes.now)) }
    {
        let count = (bytes.len() / RECORD) as u32;
        let reading = Reading::of_bytes_by(
            alloc,
            bytes,
            count,
            sites,
            funcs,
            burdens,
            first,
            RecordReader,
        )?;
        Ok(Summary::of_reading(reading, burdens, first, count))
    }

    /// The summary of the items of version 2 of these bytes, as [`Summary::of_records`].
    ///
    /// # Errors
    ///
    /// Where an allocation failed.
    #[inline(never)]
    pub fn of_items(
        alloc: Global,
        bytes: &[u8],
        sites: u32,
        funcs: u32,
        burdens: Burdens,
        first: u32,
    ) -> Result<Summary, AllocError>
        requires { first + length (items bytes.now) ≤ 2 ^ 28 }
        ensures { IfOk result (λ s. s ≡ account_of burdens first (records_of Two sites funcs (length (items bytes.now)) bytes.now)) }
    {
        let count = items_in(bytes) as u32;
        let reading = Reading::of_bytes_by(
            alloc,
            bytes,
            count,
            sites,
            funcs,
            burdens,
            first,
            ItemReader::at_front(),
        )?;
        Ok(Summary::of_reading(reading, burdens, first, count))
    }
}
