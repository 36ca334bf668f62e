//! Checking the records of a trace as they come.
ghost use Rattle.std.specs.Prelude.{◌≡◌, ◌+◌, ◌<◌, ◌^◌, ◌++◌, List};
ghost use Rattle.spp_event.specs.Recordings.{Record, count_in, records_of};
ghost use Rattle.spp_frame.specs.RecordChecks.{HasSeen, seen_by};
ghost use Rattle.spp_shell.specs.Checked.{IsChecked, checked_by};

use crate::records::Records;
use spp_event::Version;
use spp_frame::RecordCheck;
use std::alloc::AllocError;
use std::sync::Wait;
use std::thread::Threads;

/// The check of the records that have come of a trace.
#[derive(Drop)]
pub(crate) struct CheckedRecords {
    pub(crate) check: RecordCheck,
    /// How many sites the trace has.
    pub(crate) sites: u32,
    /// How many functions.
    pub(crate) funcs: u32,
}

/// The check behind the events of that version of these bytes as well, in a trace of so many sites and functions.
fn check_behind(
    check: RecordCheck,
    version: Version,
    bytes: &[u8],
    sites: u32,
    funcs: u32,
) -> RecordCheck
    requires { seen_by check + count_in version bytes.now < 2 ^ 32 }
    ensures count { seen_by result ≡ seen_by check + count_in version bytes.now }
    ensures seen { (rs : List Record) → HasSeen check rs → HasSeen result (rs ++ records_of version sites funcs (count_in version bytes.now) bytes.now) }
{
    match version {
        Version::One => check.followed_by(bytes, sites, funcs),
        Version::Two => check.followed_by_items(bytes, sites, funcs),
    }
}

impl Records for CheckedRecords {
    ghost seen_by = { checked_by };

    ghost has_seen = { IsChecked };

    fn followed_by<R: Threads + Wait + Sync>(
        self,
        _rt: &R,
        version: Version,
        bytes: Vec<u8>,
        len: usize,
        _count: u32,
    ) -> Result<(Self, Vec<u8>), AllocError> {
        let CheckedRecords {
            check,
            sites,
            funcs,
        } = self;
        let records = CheckedRecords {
            check: check_behind(check, version, &bytes[..len], sites, funcs),
            sites,
            funcs,
        };
        Ok((records, bytes))
    }

    fn reads_beside(&self, _piecemeal: bool) -> bool {
        false
    }

    /// It starts none.
    fn let_go<R: Threads + Wait + Sync>(self, _rt: &R) {}
}
