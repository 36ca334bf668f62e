//! What is still to be done to the innermost frame while later returns are taken in.
ghost use Rattle.std.specs.Prelude.{◌≡◌, ◌+◌, ◌-◌, ◌<◌, ◌≤◌, ◌^◌, ℕ, true, false, None};
ghost use Rattle.spp_maxplus.specs.declared.state.Burdens.{Burdens as BurdensValue};
ghost use Rattle.spp_piece.specs.Bound.{cost, height, worst};
ghost use Rattle.spp_piece.specs.Pair.{act, start, idle as both_idle, then as both_then, strand as both_strand, after_strand, fed as fed_to};
ghost use Rattle.spp_summary.specs.KeptFrames.{with_kept};
ghost use Rattle.spp_summary.specs.Returns.{unmatched_of};
ghost use Rattle.spp_maxplus.specs.declared.child.ChildKind.TheVariants.{Called as AsCalled};

use crate::opens::Open;
use crate::returns::Return;
use spp_maxplus::{Burdens, ChildKind};
use spp_piece::{ClosingWeights, Frame, Segs};
use std::marker::Model;

/// What events do to a frame. Most of them add to its weights alone. Contracts see it as `Segs`.
#[derive(Drop)]
pub(crate) struct Pending {
    /// What the first of them do, where that is more.
    first: Option<Segs>,
    /// What the others add.
    added: ClosingWeights,
}

impl Model for Pending {
    ghost use Rattle.spp_summary.specs.Returns.{pending_of};
    ghost use Rattle.spp_piece.specs.declared.segs.Segs.{Segs};

    ghost Value = { Segs };

    ghost view = { λ c. pending_of c.first c.added };
}

/// Nothing is added.
fn nothing() -> ClosingWeights
    ensures { result ≡ record { plain = 0; burdened = 0 } }
{
    ClosingWeights {
        plain: 0,
        burdened: 0,
    }
}

impl Pending {
    /// No events.
    pub(crate) fn idle() -> Self
        ensures { result ≡ both_idle }
    {
        Pending {
            first: None,
            added: nothing(),
        }
    }

    /// What a frame's return does to the frame below.
    pub(crate) fn fed(burdens: Burdens, frame: &Frame) -> Self
        requires { height frame.now.states + worst burdens < 2 ^ 127 }
        ensures { result ≡ fed_to burdens frame.now }
    {
        match frame.kind {
            ChildKind::Called => Pending {
                first: None,
                added: ClosingWeights {
                    plain: frame.states.plain.close(),
                    burdened: frame.states.burdened.close(),
                },
            },
            ChildKind::Spawned => Pending {
                first: Some(Segs::fed(burdens, frame)),
                added: nothing(),
            },
        }
    }

    /// The events before a return are done as well.
    #[inline(always)]
    pub(crate) fn follow(&mut self, next: &Return)
        requires { cost self.old + cost (unmatched_of next.now).segs < 2 ^ 127 }
        ensures { self.new ≡ both_then self.old (unmatched_of next.now).segs }
    {
        match next {
            Return::Strand { run, .. } => {
                let run = u128::from(*run);
                self.added.plain += run;
                self.added.burdened += run;
            }
            Return::Kept { segs, .. } => {
                self.first = Some(self.segs().then(*segs));
                self.added = nothing();
            }
        }
    }

    /// A called frame that just opened, and has run for so long, closes after these events; then they are what that
    /// does to the frame below. None of it is done where they do more than add to weights.
    #[inline(always)]
    pub(crate) fn pass(&mut self, run: u128, child: &Open) -> bool
        requires { child.now.kept ≡ false → run + cost self.old < 2 ^ 127 }
        ensures done { result ≡ true → (child.now.kept ≡ false) × ((burdens : BurdensValue) (before : ℕ) → self.new ≡ fed_to burdens (with_kept before child.now (act self.old (after_strand run start)))) }
        ensures not { result ≡ false → self.new ≡ self.old }
    {
        if child.kept || child.kind == ChildKind::Spawned || self.first.is_some() {
            return false;
        }
        self.added.plain += run;
        self.added.burdened += run;
        true
    }

    /// In full.
    pub(crate) fn segs(&self) -> Segs
        requires { cost self.now < 2 ^ 127 }
        ensures { result ≡ self.now }
    {
        let mut segs = match self.first {
            None => Segs::idle(),
            Some(first) => first,
        };
        segs.gain(self.added);
        segs
    }
}
