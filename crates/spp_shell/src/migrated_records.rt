//! Writing the records of a trace in version 2 as they come.
ghost use Rattle.std.specs.Prelude.{◌≡◌, ◌+◌, ◌<◌, ◌^◌, ◌++◌, List, length, IfOk};
ghost use Rattle.spp_event.specs.RecordMigrations.{HasSeen, seen_by};
ghost use Rattle.spp_event.specs.Recordings.{Record, Recording, count_in, records_of};
ghost use Rattle.spp_shell.specs.Migrated.{AreMigrated, migrated_by};

use crate::records::Records;
use spp_event::{RecordMigration, Version};
use std::alloc::AllocError;
use std::sync::Wait;
use std::thread::Threads;

/// The records that have come of a trace, written in version 2.
#[derive(Drop)]
pub(crate) struct MigratedRecords {
    pub(crate) migration: RecordMigration,
}

/// The migration behind the events of that version of these bytes as well.
///
/// # Errors
///
/// Where an allocation failed.
fn migrate_behind(
    migration: RecordMigration,
    version: Version,
    bytes: &[u8],
) -> Result<RecordMigration, AllocError>
    requires { seen_by migration + count_in version bytes.now < 2 ^ 32 }
    ensures count { IfOk result (λ m. seen_by m ≡ seen_by migration + count_in version bytes.now) }
    ensures seen { IfOk result (λ m. (t : Recording) (rs : List Record) → HasSeen migration t rs → HasSeen m t (rs ++ records_of version (length t.sites) (length t.funcs) (count_in version bytes.now) bytes.now)) }
{
    match version {
        Version::One => migration.followed_by(bytes),
        Version::Two => migration.followed_by_items(bytes),
    }
}

impl Records for MigratedRecords {
    ghost seen_by = { migrated_by };

    ghost has_seen = { AreMigrated };

    fn followed_by<R: Threads + Wait + Sync>(
        self,
        _rt: &R,
        version: Version,
        bytes: Vec<u8>,
        len: usize,
        _count: u32,
    ) -> Result<(Self, Vec<u8>), AllocError> {
        let migration = migrate_behind(self.migration, version, &bytes[..len])?;
        Ok((MigratedRecords { migration }, bytes))
    }

    fn reads_beside(&self, _piecemeal: bool) -> bool {
        false
    }

    /// It starts none.
    fn let_go<R: Threads + Wait + Sync>(self, _rt: &R) {}
}
