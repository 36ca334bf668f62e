//! Frames that have closed in a stretch, each by itself.

ghost use Rattle.std.specs.Prelude.{◌≡◌, ℕ, Option, IfSome, OnOk};
ghost use Rattle.spp_dag.specs.Shares.{plus};
ghost use Rattle.spp_site.specs.Rows.{Fits, frame_row};
ghost use Rattle.spp_site.specs.Profiles.{key_row};
ghost use Rattle.spp_ways.specs.Enclosures.{enclosed, enclosure_of};
ghost use Rattle.spp_pass.specs.CallRows.{calls_row, lone_row};
ghost use Rattle.spp_pass.specs.CallFrames.{frame_of, call_of, calls_of};
ghost use Rattle.spp_site.specs.NarrowRows.{narrow_row};

use spp_site::{ClosedFrame, NarrowRow, Table};
use spp_ways::Enclosing;
use std::alloc::AllocError;

/// A `ClosedFrame` of a stretch of events, of which it isn't known what encloses it, with its site and its caller's function, in
/// 32 bytes.
#[derive(Clone, Copy)]
pub(crate) struct NarrowFrame {
    /// The instructions of the strands directly in it.
    pub(crate) local: u64,
    /// Its work, in instructions.
    pub(crate) work: u64,
    /// Its span, in instructions.
    pub(crate) span: u64,
    /// The function of its caller, or `OUTER_CALLER`.
    pub(crate) caller: u32,
    /// The call site.
    pub(crate) site: u16,
    /// No frame of the same site encloses it.
    pub(crate) top_site: bool,
    /// Its caller is enclosed by no frame of the caller's function.
    pub(crate) top_caller: bool,
}

const _: () = prove!(size_of::<NarrowFrame>() == 32);

impl NarrowFrame {
    /// A frame that was entered by that site from a caller that runs that function, if its numbers are small enough.
    #[inline(always)]
    pub(crate) fn new(site: u32, caller: u32, frame: &ClosedFrame) -> Option<Self>
        ensures { IfSome result (λ f. call_of f ≡ lone_row site caller frame.now) }
    {
        let Ok(site) = u16::try_from(site) else {
            return None;
        };
        let (Ok(local), Ok(work), Ok(span)) = (
            u64::try_from(frame.local),
            u64::try_from(frame.work),
            u64::try_from(frame.span),
        ) else {
            return None;
        };
        Some(NarrowFrame {
            local,
            work,
            span,
            caller,
            site,
            top_site: frame.top_site,
            top_caller: frame.top_caller,
        })
    }

    /// Its row in the table of a run in which this encloses the stretch.
    #[inline(always)]
    pub(crate) fn within(&self, enclosing: &Enclosing<'_>) -> NarrowRow
        ensures { narrow_row result ≡ frame_row (enclosed (enclosure_of enclosing.now) self.now.site self.now.caller (frame_of self.now)) }
    {
        NarrowRow::of_numbers(
            self.local,
            self.work,
            self.span,
            self.top_site && enclosing.is_top_site(u32::from(self.site)),
            self.top_caller && enclosing.is_top_caller(self.caller),
        )
    }

    /// The frame as the table of the stretch alone would count it.
    #[inline(always)]
    fn closed(&self) -> ClosedFrame
        ensures { result ≡ frame_of self.now }
    {
        ClosedFrame {
            local: u128::from(self.local),
            work: u128::from(self.work),
            span: u128::from(self.span),
            top_site: self.top_site,
            top_caller: self.top_caller,
        }
    }
}

/// Adds frames to a table, of a stretch that this encloses.
///
/// # Errors
///
/// Where an allocation failed.
pub(crate) fn add_frames(
    table: &mut Table,
    frames: &[NarrowFrame],
    enclosing: &Enclosing<'_>,
) -> Result<(), AllocError>
    requires { (key : Option ℕ) → Fits (plus (key_row table.old key) (calls_row (enclosure_of enclosing.now) (calls_of frames.now) key)) }
    ensures { OnOk result ((key : Option ℕ) → key_row table.new key ≡ plus (key_row table.old key) (calls_row (enclosure_of enclosing.now) (calls_of frames.now) key)) }
{
    for frame in frames {
        let site = u32::from(frame.site);
        table.close(site, &enclosing.closed(site, frame.caller, &frame.closed()))?;
    }
    Ok(())
}
