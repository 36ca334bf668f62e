//! What encloses events that are read where it isn't known which frames are open before them.

ghost use Rattle.std.specs.Prelude.{◌≡◌, not};
ghost use Rattle.spp_ways.specs.Enclosures.{enclosed, enclosure_of, is_top_caller};

use spp_site::{ClosedFrame, Marks};

/// In place of the function of a frame's caller, where that is the innermost of the frames that enclose the events.
pub const OUTER_CALLER: u32 = 65536;

/// The frames that are open before some events, as far as the events depend on them: whether a frame that is opened among
/// the events is a top frame by call site, or its caller one by function.
#[derive(Clone, Copy)]
pub struct Enclosing<'m> {
    /// The call sites by which they were entered.
    pub sites: &'m Marks,
    /// The functions that they run.
    pub funcs: &'m Marks,
    /// No frame of the same function encloses the innermost of them.
    pub direct: bool,
}

impl Enclosing<'_> {
    /// Whether none of them was entered by that site.
    #[inline(always)]
    pub fn is_top_site(&self, site: u32) -> bool
        ensures { result ≡ not ((enclosure_of self.now).sites site) }
    {
        !self.sites.has(site)
    }

    /// Whether none of them runs that function.
    #[inline(always)]
    pub fn is_top_func(&self, func: u32) -> bool
        ensures { result ≡ not ((enclosure_of self.now).funcs func) }
    {
        !self.funcs.has(func)
    }

    /// Whether a caller, which runs that function or is `OUTER_CALLER`, is enclosed by no frame of its function, where that
    /// holds among the frames of the events.
    #[inline(always)]
    pub fn is_top_caller(&self, caller: u32) -> bool
        ensures { result ≡ is_top_caller (enclosure_of self.now) caller }
    {
        if caller == OUTER_CALLER {
            self.direct
        } else {
            self.is_top_func(caller)
        }
    }

    /// A frame that closes among the events, as a table counts it.
    #[inline(always)]
    pub fn closed(&self, site: u32, caller: u32, closed: &ClosedFrame) -> ClosedFrame
        ensures { result ≡ enclosed (enclosure_of self.now) site caller closed.now }
    {
        ClosedFrame {
            top_site: closed.top_site && self.is_top_site(site),
            top_caller: closed.top_caller && self.is_top_caller(caller),
            ..*closed
        }
    }
}
