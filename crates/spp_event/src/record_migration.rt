//! Writing the events of a trace that come piece by piece in version 2.

ghost use Rattle.std.specs.Prelude.{◌≡◌, ◌+◌, ◌/◌, ◌<◌, ◌≤◌, ◌^◌, ◌++◌, List, [], length, IfOk, IfErr, MatchResult};
ghost use Rattle.std.specs.List.{flat_map};
ghost use Rattle.spp_event.specs.declared.migrating.MigrateFault.TheVariants.{Bad};
ghost use Rattle.spp_event.specs.declared.version.Version.TheVariants.{One, Two};
ghost use Rattle.spp_event.specs.Header.{IsTraceOf};
ghost use Rattle.spp_event.specs.Items.{items};
ghost use Rattle.spp_event.specs.Migrating.{AreGoodTo, IsMigrateFault, compact, item_in};
ghost use Rattle.spp_event.specs.Recordings.{Record, Recording, count_in, records_of};
ghost use Rattle.spp_event.specs.Written.{AreWritten};

use crate::bytes_reader::BytesReader;
use crate::items::push_item;
use crate::layout::RECORD;
use crate::migrating::{MigrateFault, header_of};
use crate::readers::{ItemReader, RecordReader};
use crate::records::EventFault;
use crate::stretches::items_in;
use crate::traces::{Trace, are_bytes};
use std::alloc::{AllocError, Global};

/// The first record or item of a trace that spells none of its events, or isn't there.
#[derive(Clone, Copy, Debug, PartialEq, Eq)]
pub struct BadEvent {
    /// Its position, from 0.
    pub at: u32,
    /// What is wrong with its bytes.
    pub why: EventFault,
}

/// Adds the items of the `count` whole events of these bytes, by a reader that stands at the first of them.
///
/// # Errors
///
/// The first bad one, by its position among them, or `Memory` where an allocation failed.
#[inline(always)]
fn push_events<B: BytesReader>(
    written: Vec<u8>,
    bytes: &[u8],
    count: u32,
    sites: u32,
    funcs: u32,
    mut reader: B,
) -> Result<Vec<u8>, MigrateFault>
    requires counted { count ≡ count_in B.version bytes.now }
    requires here { B.stands reader bytes.now 0 }
    ensures good { IfOk result (λ _. AreGoodTo (records_of B.version sites funcs count bytes.now) count) }
    ensures added { IfOk result (λ more. more.items ≡ written.items ++ flat_map item_in (records_of B.version sites funcs count bytes.now)) }
    ensures fault { IfErr result (λ f. IsMigrateFault (records_of B.version sites funcs count bytes.now) f) }
{
    let mut written = written;
    for at in 0..count {
        match reader.read_in(bytes, at, sites, funcs) {
            Ok(event) => push_item(&mut written, event)?,
            Err(why) => return Err(MigrateFault::Bad { at, why }),
        }
    }
    Ok(written)
}

/// What is written behind `at` events, or the first bad one of them, behind the `count` whole events of these bytes as well, by a
/// reader that stands at the first of them.
///
/// # Errors
///
/// Where an allocation failed.
#[inline(always)]
fn written_behind<B: BytesReader>(
    written: Result<Vec<u8>, BadEvent>,
    at: u32,
    bytes: &[u8],
    count: u32,
    sites: u32,
    funcs: u32,
    reader: B,
) -> Result<Result<Vec<u8>, BadEvent>, AllocError>
    requires counted { count ≡ count_in B.version bytes.now }
    requires here { B.stands reader bytes.now 0 }
    requires room { at + count < 2 ^ 32 }
    ensures { IfOk result (λ now. (t : Recording) (rs : List Record) → length rs ≡ at → length t.sites ≡ sites → length t.funcs ≡ funcs
        → MatchResult written (λ w. AreWritten t rs w.items) (λ bad. IsMigrateFault rs (Bad bad.at bad.why))
        → let all = rs ++ records_of B.version sites funcs count bytes.now in
        MatchResult now (λ w. AreWritten t all w.items) (λ bad. IsMigrateFault all (Bad bad.at bad.why))) }
{
    are_bytes(bytes);
    let before = match written {
        Ok(before) => before,
        Err(bad) => return Ok(Err(bad)),
    };
    match push_events(before, bytes, count, sites, funcs, reader) {
        Ok(more) => Ok(Ok(more)),
        Err(MigrateFault::Bad { at: behind, why }) => Ok(Err(BadEvent {
            at: at + behind,
            why,
        })),
        Err(MigrateFault::Memory) => Err(AllocError),
    }
}

/// A trace whose events come piece by piece, as far as it is written in version 2. It keeps none of its bytes.
#[derive(Drop)]
pub struct RecordMigration {
    /// The header and the items of the events that came, or the first bad one of these.
    written: Result<Vec<u8>, BadEvent>,
    /// How many came.
    at: u32,
    /// How many sites the trace has.
    sites: u32,
    /// How many functions.
    funcs: u32,
    /// How many events it has.
    count: u32,
}

impl RecordMigration {
    ghost use Rattle.spp_event.specs.RecordMigrations.{HasSeen, EndsWith, seen_by, claimed_by};

    /// Before the first event of a trace with the header of this one, whose events aren't looked at: it may be without a body.
    ///
    /// # Errors
    ///
    /// Where an allocation failed.
    pub fn new(alloc: Global, trace: &Trace<'_>) -> Result<RecordMigration, AllocError>
        ensures { IfOk result (λ m. HasSeen m trace.now []) }
    {
        Ok(RecordMigration {
            written: Ok(header_of(alloc, trace)?),
            at: 0,
            sites: trace.sites(),
            funcs: trace.funcs(),
            count: trace.count(),
        })
    }

    /// This migration, behind the `count` whole events of these bytes as well, by a reader that stands at the first of them.
    #[inline(always)]
    fn followed_by_events<B: BytesReader>(
        self,
        bytes: &[u8],
        count: u32,
        reader: B,
    ) -> Result<RecordMigration, AllocError>
        requires counted { count ≡ count_in B.version bytes.now }
        requires here { B.stands reader bytes.now 0 }
        requires room { seen_by self + count < 2 ^ 32 }
        ensures count { IfOk result (λ m. seen_by m ≡ seen_by self + count) }
        ensures seen { IfOk result (λ m. (t : Recording) (rs : List Record) → HasSeen self t rs → HasSeen m t (rs ++ records_of B.version (length t.sites) (length t.funcs) count bytes.now)) }
    {
        let RecordMigration {
            written,
            at,
            sites,
            funcs,
            count: claimed,
        } = self;
        Ok(RecordMigration {
            written: written_behind(written, at, bytes, count, sites, funcs, reader)?,
            at: at + count,
            sites,
            funcs,
            count: claimed,
        })
    }

    /// This migration, behind the whole records of version 1 of these bytes as well. The time is linear in them, or constant where a
    /// bad event came before.
    ///
    /// # Errors
    ///
    /// Where an allocation failed.
    #[inline(never)]
    pub fn followed_by(self, bytes: &[u8]) -> Result<RecordMigration, AllocError>
        requires { seen_by self + length bytes.now / 16 < 2 ^ 32 }
        ensures count { IfOk result (λ m. seen_by m ≡ seen_by self + length bytes.now / 16) }
        ensures seen { IfOk result (λ m. (t : Recording) (rs : List Record) → HasSeen self t rs → HasSeen m t (rs ++ records_of One (length t.sites) (length t.funcs) (length bytes.now / 16) bytes.now)) }
    {
        let count = (bytes.len() / RECORD) as u32;
        self.followed_by_events(bytes, count, RecordReader)
    }

    /// What [`RecordMigration::followed_by`] gives, for the items of version 2 of these bytes. The time is linear in the bytes.
    ///
    /// # Errors
    ///
    /// Where an allocation failed.
    #[inline(never)]
    pub fn followed_by_items(self, bytes: &[u8]) -> Result<RecordMigration, AllocError>
        requires { seen_by self + length (items bytes.now) < 2 ^ 32 }
        ensures count { IfOk result (λ m. seen_by m ≡ seen_by self + length (items bytes.now)) }
        ensures seen { IfOk result (λ m. (t : Recording) (rs : List Record) → HasSeen self t rs → HasSeen m t (rs ++ records_of Two (length t.sites) (length t.funcs) (length (items bytes.now)) bytes.now)) }
    {
        let count = items_in(bytes) as u32;
        self.followed_by_events(bytes, count, ItemReader::at_front())
    }

    /// The bytes of the trace in version 2, where all its events came. Where fewer did, its bytes end before the next one does, which
    /// is told as cut off.
    ///
    /// # Errors
    ///
    /// The first bad event.
    pub fn end(self) -> Result<Vec<u8>, BadEvent>
        requires { seen_by self ≤ claimed_by self }
        ensures good { (t : Recording) → EndsWith self t → IfOk result (λ _. AreGoodTo t.records (length t.records)) }
        ensures bytes { (t : Recording) → EndsWith self t → IfOk result (λ bytes. IsTraceOf bytes.items (compact t)) }
        ensures fault { (t : Recording) → EndsWith self t → IfErr result (λ bad. IsMigrateFault t.records (Bad bad.at bad.why)) }
    {
        let RecordMigration {
            written,
            at,
            count,
            ..
        } = self;
        let bytes = match written {
            Ok(bytes) => bytes,
            Err(bad) => return Err(bad),
        };
        if at < count {
            return Err(BadEvent {
                at,
                why: EventFault::Truncated,
            });
        }
        Ok(bytes)
    }
}
