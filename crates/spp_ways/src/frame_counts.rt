//! What a closed frame counts.

ghost use Rattle.std.specs.Prelude.{◌≡◌, ◌≤◌, ◌^◌, max, IfNone, IfSome};
ghost use Rattle.spp_ways.specs.LogRows.{widened};

/// What a closed frame counts, in instructions. 64 bytes.
#[derive(Clone, Copy)]
pub(crate) struct FrameCounts {
    /// Its work.
    pub(crate) work: u128,
    /// Its span.
    pub(crate) span: u128,
    /// The counts of its own strands on the way through it without burdens.
    pub(crate) own: u128,
    /// And on that under the burdens.
    pub(crate) burdened_own: u128,
}

/// Those of a frame one of whose counts doesn't fit 64 bits. They lie beside its row.
pub(crate) struct WideCounts {
    pub(crate) counts: FrameCounts,
}

impl Drop for WideCounts {
    // Seldom called: inlined it would be in the way where rows of frames are cut off.
    #[cold]
    #[inline(never)]
    fn drop(self) {
        let WideCounts { counts: _ } = self;
    }
}

/// Those of a frame all of whose counts fit 64 bits, as nearly every frame's do. 32 bytes, in its row.
#[derive(Clone, Copy)]
pub(crate) struct NarrowCounts {
    work: u64,
    span: u64,
    own: u64,
    burdened_own: u64,
}

/// Those of no frame.
pub(crate) const NO_COUNTS: FrameCounts = FrameCounts {
    work: 0,
    span: 0,
    own: 0,
    burdened_own: 0,
};

/// The same.
pub(crate) const NO_NARROW_COUNTS: NarrowCounts = NarrowCounts {
    work: 0,
    span: 0,
    own: 0,
    burdened_own: 0,
};

impl FrameCounts {
    /// The same counts, if all of them fit 64 bits. There is one test for all four.
    #[inline(always)]
    pub(crate) fn narrowed(&self) -> Option<NarrowCounts>
        ensures same { IfSome result (λ c. widened c ≡ self.now) }
        ensures wide { IfNone result (2 ^ 64 ≤ max (max self.now.work self.now.span) (max self.now.own self.now.burdened_own)) }
    {
        if self.work | self.span | self.own | self.burdened_own > u128::from(u64::MAX) {
            return None;
        }
        Some(NarrowCounts {
            work: self.work as u64,
            span: self.span as u64,
            own: self.own as u64,
            burdened_own: self.burdened_own as u64,
        })
    }
}

impl NarrowCounts {
    /// The same counts.
    #[inline(always)]
    pub(crate) fn widened(&self) -> FrameCounts
        ensures { result ≡ widened self.now }
    {
        FrameCounts {
            work: u128::from(self.work),
            span: u128::from(self.span),
            own: u128::from(self.own),
            burdened_own: u128::from(self.burdened_own),
        }
    }
}
