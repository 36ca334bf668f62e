//! A frame that closes.

ghost use Rattle.std.specs.Prelude.{◌≡◌};
ghost use Rattle.spp_dag.specs.Shares.{plus};
ghost use Rattle.spp_site.specs.Rows.{Fits, frame_row};

use spp_dag::Row;

/// A frame that closes, as the row of its site counts it. Its local count, its work and its span are in instructions.
#[derive(Clone, Copy, Debug, PartialEq, Eq)]
pub struct ClosedFrame {
    /// The counts of the strands directly in it.
    pub local: u128,
    /// Its work, that of the frames within it included.
    pub work: u128,
    /// Its span.
    pub span: u128,
    /// No frame of the same site encloses it.
    pub top_site: bool,
    /// Its caller is enclosed by no frame of the caller's function.
    pub top_caller: bool,
}

impl ClosedFrame {
    /// The row of this frame alone.
    #[inline(always)]
    pub fn row(&self) -> Row
        ensures { result ≡ frame_row self.now }
    {
        Row {
            count: 1,
            local: self.local,
            site_count: if self.top_site { 1 } else { 0 },
            site_work: if self.top_site { self.work } else { 0 },
            site_span: if self.top_site { self.span } else { 0 },
            caller_count: if self.top_caller { 1 } else { 0 },
            caller_work: if self.top_caller { self.work } else { 0 },
            caller_span: if self.top_caller { self.span } else { 0 },
        }
    }

    /// Adds its row. Sums to which it adds nothing aren't touched: most frames of a recursion are no top frames.
    #[inline(always)]
    pub fn add_to(&self, row: &mut Row)
        requires { Fits (plus row.old (frame_row self.now)) }
        ensures { row.new ≡ plus row.old (frame_row self.now) }
    {
        row.count += 1;
        row.local += self.local;
        if self.top_site {
            row.site_count += 1;
            row.site_work += self.work;
            row.site_span += self.span;
        }
        if self.top_caller {
            row.caller_count += 1;
            row.caller_work += self.work;
            row.caller_span += self.span;
        }
    }
}
