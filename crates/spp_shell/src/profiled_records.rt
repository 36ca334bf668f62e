//! Profiling the records of a trace as they come.
ghost use Rattle.spp_shell.specs.Profiled.{IsProfiled, profiled_by};

use crate::records::Records;
use spp_crew::RecordProfile;
use spp_event::Version;
use std::alloc::{AllocError, Global};
use std::sync::Wait;
use std::thread::Threads;

/// The profile of the records that have come of a trace.
#[derive(Drop)]
pub(crate) struct ProfiledRecords {
    pub(crate) profile: RecordProfile,
    pub(crate) alloc: Global,
    /// How many workers there are, which share the blocks.
    pub(crate) workers: u32,
}

impl Records for ProfiledRecords {
    ghost seen_by = { profiled_by };

    ghost has_seen = { IsProfiled };

    fn followed_by<R: Threads + Wait + Sync>(
        self,
        rt: &R,
        version: Version,
        bytes: Vec<u8>,
        len: usize,
        count: u32,
    ) -> Result<(Self, Vec<u8>), AllocError> {
        let ProfiledRecords {
            profile,
            alloc,
            workers,
        } = self;
        let (profile, room) = profile.followed_by_events(
            rt, alloc, version, bytes, len, count, workers,
        )?;
        let records = ProfiledRecords {
            profile,
            alloc,
            workers,
        };
        Ok((records, room))
    }

    fn reads_beside(&self, piecemeal: bool) -> bool {
        self.workers > 1 && (piecemeal || self.profile.reads_here())
    }

    fn let_go<R: Threads + Wait + Sync>(self, rt: &R) {
        self.profile.let_go(rt);
    }
}
