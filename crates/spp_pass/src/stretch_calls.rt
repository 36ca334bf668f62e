//! The frames that close in a stretch of events: in rows where these are found again, and else one by one.

ghost use Rattle.std.specs.Prelude.{◌≡◌, ◌+◌, ◌<◌, ◌^◌, [], ℕ, true, OnOk};
ghost use Rattle.spp_pass.specs.CallRows.{AreAdded, AreLight, IsLightFrame};
ghost use Rattle.spp_pass.specs.CallFrames.{stretch_calls, calls_so_far};

use crate::calls::{CallRow, Calls};
use crate::narrow_frame::NarrowFrame;
use spp_site::ClosedFrame;
use std::alloc::{AllocError, Global};
use std::mem;

/// Beyond the most places another row is made for so many frames that are kept one by one, so that pairs that come later get rows.
const FRAMES_OF_A_ROW: usize = 16;

/// What the frames come to that were opened and have closed in a stretch of events: rows for some of them, and the others as
/// they are. It takes 128 bytes for each row, and 32 for each other frame, or up to twice that.
#[derive(Drop)]
pub struct StretchCalls {
    pub(crate) rows: Vec<CallRow>,
    pub(crate) frames: Vec<NarrowFrame>,
}

impl StretchCalls {
    /// Rows alone. It takes no memory.
    pub(crate) fn of_rows(alloc: Global, rows: Vec<CallRow>) -> Self
        ensures { stretch_calls result ≡ rows.items }
    {
        StretchCalls {
            rows,
            frames: Vec::new(alloc),
        }
    }

    /// How many rows and frames there are: what it costs to add them to a table.
    pub fn len(&self) -> usize {
        self.rows.len().saturating_add(self.frames.len())
    }

    /// Whether there is none.
    pub fn is_empty(&self) -> bool
        ensures { result ≡ true → stretch_calls self.now ≡ [] }
    {
        self.rows.is_empty() && self.frames.is_empty()
    }
}

/// The same of a stretch so far. Frames of a call site and a function that calls by it are added to one row where that is
/// soon found; where there are too many such pairs most frames are kept one by one, which takes less time and memory than a
/// row for each.
#[derive(Drop)]
pub struct CallsSoFar {
    calls: Calls,
    frames: Vec<NarrowFrame>,
}

impl CallsSoFar {
    /// No frames. It takes no memory.
    pub fn new(alloc: Global) -> Self
        ensures { calls_so_far result ≡ [] }
    {
        CallsSoFar {
            calls: Calls::new(alloc),
            frames: Vec::new(alloc),
        }
    }

    /// Adds a frame that has closed, which was entered by that site from a caller that runs that function, or is the
    /// outermost frame of the stretch (`OUTER_CALLER`). It takes constant time, amortized.
    ///
    /// # Errors
    ///
    /// Where an allocation failed.
    #[inline(always)]
    pub fn add(&mut self, site: u32, caller: u32, frame: &ClosedFrame) -> Result<(), AllocError>
        requires { (n : ℕ) × (n < 2 ^ 32) × AreLight n (calls_so_far self.old) × IsLightFrame frame.now }
        ensures added { OnOk result (AreAdded site caller frame.now (calls_so_far self.old) (calls_so_far self.new)) }
        ensures light { OnOk result ((n : ℕ) → AreLight n (calls_so_far self.old) → IsLightFrame frame.now → AreLight (n + 1) (calls_so_far self.new)) }
    {
        if self.calls.add_first(site, caller, frame) {
            return Ok(());
        }
        self.add_elsewhere(site, caller, *frame)
    }

    /// The same, where no row is at the first place. It takes the frame by its value, so that the caller has no need to keep one
    /// in memory.
    #[inline(never)]
    fn add_elsewhere(
        &mut self,
        site: u32,
        caller: u32,
        frame: ClosedFrame,
    ) -> Result<(), AllocError>
        requires { (n : ℕ) × (n < 2 ^ 32) × AreLight n (calls_so_far self.old) × IsLightFrame frame }
        ensures added { OnOk result (AreAdded site caller frame (calls_so_far self.old) (calls_so_far self.new)) }
        ensures light { OnOk result ((n : ℕ) → AreLight n (calls_so_far self.old) → IsLightFrame frame → AreLight (n + 1) (calls_so_far self.new)) }
    {
        if self.calls.add_next(site, caller, &frame) {
            return Ok(());
        }
        if self
            .calls
            .has_rows_beyond(self.frames.len() / FRAMES_OF_A_ROW)
            && let Some(alone) = NarrowFrame::new(site, caller, &frame)
        {
            self.frames.push(alone)?;
            return Ok(());
        }
        self.calls.push(site, caller, &frame)
    }

    /// The frames of a stretch that ends; goes on with none. It takes constant time for each row.
    pub fn take(&mut self, alloc: Global) -> StretchCalls
        ensures calls { stretch_calls result ≡ calls_so_far self.old }
        ensures none { calls_so_far self.new ≡ [] }
    {
        StretchCalls {
            rows: self.calls.take(alloc),
            frames: mem::replace(&mut self.frames, Vec::new(alloc)),
        }
    }

    /// The frames.
    pub fn into_calls(self) -> StretchCalls
        ensures { stretch_calls result ≡ calls_so_far self }
    {
        let CallsSoFar { calls, frames } = self;
        StretchCalls {
            rows: calls.into_rows(),
            frames,
        }
    }
}
