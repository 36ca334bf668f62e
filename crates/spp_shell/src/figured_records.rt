//! Finding the figures of a run from the records of its trace as they come.
ghost use Rattle.spp_shell.specs.Figured.{IsFigured, figured_by};

use crate::records::Records;
use spp_crew::RecordFigures;
use spp_event::Version;
use std::alloc::{AllocError, Global};
use std::sync::Wait;
use std::thread::Threads;

/// The figures of the records that have come of a trace.
#[derive(Drop)]
pub(crate) struct FiguredRecords {
    pub(crate) figures: RecordFigures,
    pub(crate) alloc: Global,
    /// How many workers there are, which share the blocks.
    pub(crate) workers: u32,
}

impl Records for FiguredRecords {
    ghost seen_by = { figured_by };

    ghost has_seen = { IsFigured };

    fn followed_by<R: Threads + Wait + Sync>(
        self,
        rt: &R,
        version: Version,
        bytes: Vec<u8>,
        len: usize,
        count: u32,
    ) -> Result<(Self, Vec<u8>), AllocError> {
        let FiguredRecords {
            figures,
            alloc,
            workers,
        } = self;
        let (figures, room) = figures.followed_by_events(
            rt, alloc, version, bytes, len, count, workers,
        )?;
        let records = FiguredRecords {
            figures,
            alloc,
            workers,
        };
        Ok((records, room))
    }

    fn reads_beside(&self, piecemeal: bool) -> bool {
        self.workers > 1 && (piecemeal || self.figures.reads_here())
    }

    fn let_go<R: Threads + Wait + Sync>(self, rt: &R) {
        self.figures.let_go(rt);
    }
}
