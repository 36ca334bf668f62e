//! What a part of a trace comes to, by the bytes of its events: records of version 1, or items of version 2.

ghost use Rattle.std.specs.Prelude.{◌≡◌, ◌+◌, ◌/◌, ◌≤◌, ◌^◌, ℕ, length, IfOk, IfErr, OnOk};
ghost use Rattle.spp_event.specs.declared.version.Version.TheVariants.{One, Two};
ghost use Rattle.spp_event.specs.Items.{items};
ghost use Rattle.spp_event.specs.Recordings.{Recording, count_in, records_of};
ghost use Rattle.spp_frame.specs.Answers.{IsFaultOf};
ghost use Rattle.spp_part.specs.Parts.{IsPartProfile, IsSoFar};
ghost use Rattle.spp_part.specs.RecordParts.{HasPart};

use crate::part_profile::{PartProfile, Reading};
use crate::so_far::ProfileSoFar;
use spp_event::{BytesReader, ItemReader, RecordReader, items_in};
use spp_frame::ProfileFault;
use spp_maxplus::Burdens;
use std::alloc::{AllocError, Global};

/// The bytes of a record.
const RECORD: usize = 16;

impl PartProfile {
    /// What a part comes to of which these are the bytes and so many the events, by a reader that stands at the first.
    #[inline(always)]
    fn of_bytes_by<B: BytesReader>(
        alloc: Global,
        bytes: &[u8],
        count: u32,
        sites: u32,
        funcs: u32,
        burdens: Burdens,
        mut reader: B,
    ) -> Result<Self, AllocError>
        requires count { count ≡ count_in B.version bytes.now }
        requires here { B.stands reader bytes.now 0 }
        requires sites { sites ≤ 65536 }
        requires funcs { funcs ≤ 65536 }
        requires few { count ≤ 2 ^ 28 }
        ensures { IfOk result (λ p. (trace : Recording) (first : ℕ) → HasPart trace sites funcs first (records_of B.version sites funcs count bytes.now) → IsPartProfile trace burdens first count p) }
    {
        // For what it states: each is a number of 32 bits.
        burdens.are_small();
        let mut reading = Reading::new(alloc)?;
        for at in 0..count {
            match reader.read_in(bytes, at, sites, funcs) {
                Ok(event) => reading.read(alloc, burdens, at, event)?,
                Err(fault) => return reading.finish(alloc, at, Some(fault)),
            }
        }
        reading.finish(alloc, count, None)
    }

    /// What a part of a trace of version 1 comes to under these burdens, of which these bytes are the records; the trace has so
    /// many sites and functions. The time and the memory are those of [`PartProfile::of_part`].
    ///
    /// # Errors
    ///
    /// Where an allocation failed.
    #[inline(never)]
    pub fn of_records(
        alloc: Global,
        bytes: &[u8],
        sites: u32,
        funcs: u32,
        burdens: Burdens,
    ) -> Result<Self, AllocError>
        requires sites { sites ≤ 65536 }
        requires funcs { funcs ≤ 65536 }
        requires few { length bytes.now / 16 ≤ 2 ^ 28 }
        ensures { IfOk result (λ p. (trace : Recording) (first : ℕ) → HasPart trace sites funcs first (records_of One sites funcs (length bytes.now / 16) bytes.now) → IsPartProfile trace burdens first (length bytes.now / 16) p) }
    {
        let count = (bytes.len() / RECORD) as u32;
        PartProfile::of_bytes_by(alloc, bytes, count, sites, funcs, burdens, RecordReader)
    }

    /// What a part of a trace of version 2 comes to, of which these bytes are the items, as [`PartProfile::of_records`].
    ///
    /// # Errors
    ///
    /// Where an allocation failed.
    #[inline(never)]
    pub fn of_items(
        alloc: Global,
        bytes: &[u8],
        sites: u32,
        funcs: u32,
        burdens: Burdens,
    ) -> Result<Self, AllocError>
        requires sites { sites ≤ 65536 }
        requires funcs { funcs ≤ 65536 }
        requires few { length (items bytes.now) ≤ 2 ^ 28 }
        ensures { IfOk result (λ p. (trace : Recording) (first : ℕ) → HasPart trace sites funcs first (records_of Two sites funcs (length (items bytes.now)) bytes.now) → IsPartProfile trace burdens first (length (items bytes.now)) p) }
    {
        let count = items_in(bytes) as u32;
        let reader = ItemReader::at_front();
        PartProfile::of_bytes_by(alloc, bytes, count, sites, funcs, burdens, reader)
    }
}

impl ProfileSoFar {
    /// Goes on by the next events of a trace, of which these are the bytes and so many there are, by a reader that stands at
    /// the first.
    #[inline(always)]
    fn read_bytes_by<B: BytesReader>(
        &mut self,
        alloc: Global,
        bytes: &[u8],
        count: u32,
        sites: u32,
        funcs: u32,
        burdens: Burdens,
        mut reader: B,
    ) -> Result<(), ProfileFault>
        requires count { count ≡ count_in B.version bytes.now }
        requires here { B.stands reader bytes.now 0 }
        requires so_far { (trace : Recording) × (i : ℕ) × IsSoFar trace burdens i self.old × HasPart trace sites funcs i (records_of B.version sites funcs count bytes.now) }
        ensures so_far { OnOk result ((trace : Recording) (i : ℕ) → IsSoFar trace burdens i self.old → HasPart trace sites funcs i (records_of B.version sites funcs count bytes.now) → IsSoFar trace burdens (i + count) self.new) }
        ensures fault { IfErr result (λ f. (trace : Recording) (i : ℕ) → IsSoFar trace burdens i self.old → HasPart trace sites funcs i (records_of B.version sites funcs count bytes.now) → IsFaultOf trace.records f) }
    {
        for k in 0..count {
            match reader.read_in(bytes, k, sites, funcs) {
                Ok(event) => self.read(alloc, burdens, event)?,
                Err(fault) => return Err(self.cut_off(fault)),
            }
        }
        Ok(())
    }

    /// Goes on by the next records of a trace of version 1, of which these are the bytes, read under these burdens; the trace
    /// has so many sites and functions. It takes constant time for each, amortized over the run. After an error it is of no
    /// use.
    ///
    /// # Errors
    ///
    /// The first bad event of the run, if it is one of these, or `Memory` where an allocation failed.
    #[inline(never)]
    pub fn read_records(
        &mut self,
        alloc: Global,
        bytes: &[u8],
        sites: u32,
        funcs: u32,
        burdens: Burdens,
    ) -> Result<(), ProfileFault>
        requires few { length bytes.now / 16 ≤ 2 ^ 28 }
        requires so_far { (trace : Recording) × (i : ℕ) × IsSoFar trace burdens i self.old × HasPart trace sites funcs i (records_of One sites funcs (length bytes.now / 16) bytes.now) }
        ensures so_far { OnOk result ((trace : Recording) (i : ℕ) → IsSoFar trace burdens i self.old → HasPart trace sites funcs i (records_of One sites funcs (length bytes.now / 16) bytes.now) → IsSoFar trace burdens (i + length bytes.now / 16) self.new) }
        ensures fault { IfErr result (λ f. (trace : Recording) (i : ℕ) → IsSoFar trace burdens i self.old → HasPart trace sites funcs i (records_of One sites funcs (length bytes.now / 16) bytes.now) → IsFaultOf trace.records f) }
    {
        let count = (bytes.len() / RECORD) as u32;
        self.read_bytes_by(alloc, bytes, count, sites, funcs, burdens, RecordReader)
    }

    /// Goes on by the next items of a trace of version 2, of which these are the bytes, as [`ProfileSoFar::read_records`]: but
    /// the time is linear in the bytes.
    ///
    /// # Errors
    ///
    /// The first bad event of the run, if it is one of these, or `Memory` where an allocation failed.
    #[inline(never)]
    pub fn read_items(
        &mut self,
        alloc: Global,
        bytes: &[u8],
        sites: u32,
        funcs: u32,
        burdens: Burdens,
    ) -> Result<(), ProfileFault>
        requires few { length (items bytes.now) ≤ 2 ^ 28 }
        requires so_far { (trace : Recording) × (i : ℕ) × IsSoFar trace burdens i self.old × HasPart trace sites funcs i (records_of Two sites funcs (length (items bytes.now)) bytes.now) }
        ensures so_far { OnOk result ((trace : Recording) (i : ℕ) → IsSoFar trace burdens i self.old → HasPart trace sites funcs i (records_of Two sites funcs (length (items bytes.now)) bytes.now) → IsSoFar trace burdens (i + length (items bytes.now)) self.new) }
        ensures fault { IfErr result (λ f. (trace : Recording) (i : ℕ) → IsSoFar trace burdens i self.old → HasPart trace sites funcs i (records_of Two sites funcs (length (items bytes.now)) bytes.now) → IsFaultOf trace.records f) }
    {
        let count = items_in(bytes) as u32;
        let reader = ItemReader::at_front();
        self.read_bytes_by(alloc, bytes, count, sites, funcs, burdens, reader)
    }
}
