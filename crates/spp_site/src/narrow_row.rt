//! Rows whose sums fit 64 bits.

ghost use Rattle.std.specs.Prelude.{◌≡◌, IfSome, cond};
ghost use Rattle.spp_dag.specs.Shares.{plus};
ghost use Rattle.spp_site.specs.Rows.{frame_row};
ghost use Rattle.spp_site.specs.NarrowRows.{narrow_row};

use crate::closed_frame::ClosedFrame;
use spp_dag::Row;

/// A row whose works, spans and local count, in instructions, fit 64 bits, and whose counts fit 32: half the memory of a [`Row`],
/// since a table of many call sites doesn't fit into the processor's caches.
#[derive(Clone, Copy, PartialEq, Eq)]
pub struct NarrowRow {
    local: u64,
    site_work: u64,
    site_span: u64,
    caller_work: u64,
    caller_span: u64,
    count: u32,
    site_count: u32,
    caller_count: u32,
}

/// The row of no frames.
pub(crate) const ZERO_ROW: NarrowRow = NarrowRow {
    local: 0,
    site_work: 0,
    site_span: 0,
    caller_work: 0,
    caller_span: 0,
    count: 0,
    site_count: 0,
    caller_count: 0,
};

impl NarrowRow {
    /// The row of a frame that has these numbers, in instructions. `top_site`: no frame of the same site encloses it; `top_caller`:
    /// its caller is enclosed by no frame of the caller's function. See [`ClosedFrame`].
    #[inline(always)]
    pub fn of_numbers(local: u64, work: u64, span: u64, top_site: bool, top_caller: bool) -> Self
        ensures { narrow_row result ≡ frame_row (record { local = local; work = work; span = span; top_site = top_site; top_caller = top_caller }) }
    {
        NarrowRow {
            local,
            site_work: if top_site { work } else { 0 },
            site_span: if top_site { span } else { 0 },
            caller_work: if top_caller { work } else { 0 },
            caller_span: if top_caller { span } else { 0 },
            count: 1,
            site_count: if top_site { 1 } else { 0 },
            caller_count: if top_caller { 1 } else { 0 },
        }
    }

    /// The row of a frame, if its numbers fit 64 bits.
    #[inline(always)]
    pub fn of_frame(frame: &ClosedFrame) -> Option<Self>
        ensures { IfSome result (λ r. narrow_row r ≡ frame_row frame.now) }
    {
        let (Ok(local), Ok(work), Ok(span)) = (
            u64::try_from(frame.local),
            u64::try_from(frame.work),
            u64::try_from(frame.span),
        ) else {
            return None;
        };
        Some(NarrowRow::of_numbers(local, work, span, frame.top_site, frame.top_caller))
    }

    /// The same row, if its sums fit.
    pub fn of_row(row: &Row) -> Option<Self>
        ensures { IfSome result (λ r. narrow_row r ≡ row.now) }
    {
        let (Ok(count), Ok(site_count), Ok(caller_count), Ok(local)) = (
            u32::try_from(row.count),
            u32::try_from(row.site_count),
            u32::try_from(row.caller_count),
            u64::try_from(row.local),
        ) else {
            return None;
        };
        let (Ok(site_work), Ok(site_span), Ok(caller_work), Ok(caller_span)) = (
            u64::try_from(row.site_work),
            u64::try_from(row.site_span),
            u64::try_from(row.caller_work),
            u64::try_from(row.caller_span),
        ) else {
            return None;
        };
        Some(NarrowRow {
            local,
            site_work,
            site_span,
            caller_work,
            caller_span,
            count,
            site_count,
            caller_count,
        })
    }

    /// The sum of both, if it fits.
    #[inline(always)]
    pub(crate) fn checked_add(&self, more: &NarrowRow) -> Option<Self>
        ensures { IfSome result (λ r. narrow_row r ≡ plus (narrow_row self.now) (narrow_row more.now)) }
    {
        Some(NarrowRow {
            local: self.local.checked_add(more.local)?,
            site_work: self.site_work.checked_add(more.site_work)?,
            site_span: self.site_span.checked_add(more.site_span)?,
            caller_work: self.caller_work.checked_add(more.caller_work)?,
            caller_span: self.caller_span.checked_add(more.caller_span)?,
            count: self.count.checked_add(more.count)?,
            site_count: self.site_count.checked_add(more.site_count)?,
            caller_count: self.caller_count.checked_add(more.caller_count)?,
        })
    }

    /// The same row.
    pub fn widened(&self) -> Row
        ensures { result ≡ narrow_row self.now }
    {
        Row {
            count: self.count.into(),
            local: u128::from(self.local),
            site_count: self.site_count.into(),
            site_work: u128::from(self.site_work),
            site_span: u128::from(self.site_span),
            caller_count: self.caller_count.into(),
            caller_work: u128::from(self.caller_work),
            caller_span: u128::from(self.caller_span),
        }
    }
}

/// A narrow row and its call site, as the table of a run counts it: one that waits to be added to a table, or was taken out of one.
#[derive(Clone, Copy)]
pub struct KnownRow {
    /// What it adds to the site's row.
    pub row: NarrowRow,
    /// The call site.
    pub site: u16,
}

const _: () = prove!(size_of::<KnownRow>() == 64);
