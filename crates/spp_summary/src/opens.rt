//! Open frames as they are kept.
ghost use Rattle.std.specs.Prelude.{◌≡◌, ◌+◌, ◌-◌, ◌<◌, ◌≤◌, ◌^◌, ℕ, true, ◌∷◌, reverse, OnOk};
ghost use Rattle.spp_piece.specs.Bound.{height};
ghost use Rattle.spp_summary.specs.KeptFrames.{with_kept, fresh, kept_of, past, ran, HasKept};
ghost use Rattle.spp_piece.specs.Pair.{weights_of};

use spp_maxplus::ChildKind;
use spp_piece::{ClosingWeights, Frame, States};
use std::alloc::AllocError;

/// An open frame, as it is kept: by how far it's from the one around it. Its states are told by those that are kept,
/// or else by those of a frame that was just opened, and by what has run since then, up to where the next frame was
/// opened or to the end, as one strand.
#[derive(Clone, Copy)]
pub(crate) struct Open {
    /// The work from where the frame around it was opened, or from the beginning of the range, to its own opening, in
    /// instructions.
    pub(crate) gap: u128,
    /// The position of the event that opened it.
    pub(crate) at: u32,
    /// The call site by which it was entered.
    pub(crate) site: u32,
    /// The function that runs in it.
    pub(crate) func: u32,
    /// How it was entered.
    pub(crate) kind: ChildKind,
    /// Whether its states are in the list of kept ones. If not they are those of a frame that was just opened.
    pub(crate) kept: bool,
}

/// The kept states of an open frame.
#[derive(Clone, Copy)]
pub(crate) struct Kept {
    /// The states, once it had run for as long as is counted.
    pub(crate) states: States,
    /// The part of the work since its opening that they tell of, or that its span leaves out, in instructions.
    pub(crate) counted: u128,
}

impl Kept {
    /// Those of a frame that was just opened.
    pub(crate) fn fresh() -> Self
        ensures { result ≡ fresh }
    {
        Kept {
            states: States::start(),
            counted: 0,
        }
    }

    /// The states where that work has run since the frame was opened.
    #[inline(always)]
    pub(crate) fn ran(&self, run: u128) -> States
        requires counted { self.now.counted ≤ run }
        requires small { height (ran run self.now) < 2 ^ 127 }
        ensures { result ≡ ran run self.now }
    {
        let mut states = self.states;
        states.run(run - self.counted);
        states
    }
}

impl Open {
    /// The frame with these states, before which there is that work.
    pub(crate) fn frame(self, before: u128, states: States) -> Frame
        ensures { result ≡ with_kept before self states }
    {
        Frame {
            kind: self.kind,
            at: self.at,
            site: self.site,
            func: self.func,
            before,
            states,
        }
    }
}

/// The weights with which a frame closes where that work has run since it was opened; its kept states go.
#[inline(always)]
pub(crate) fn leave(states: &mut Vec<Kept>, child: &Open, run: u128) -> ClosingWeights
    requires has { HasKept child.now.kept (reverse states.old.items) }
    requires counted { (kept_of child.now.kept (reverse states.old.items)).counted ≤ run }
    requires small { height (ran run (kept_of child.now.kept (reverse states.old.items))) < 2 ^ 127 }
    ensures weights { result ≡ weights_of (ran run (kept_of child.now.kept (reverse states.old.items))) }
    ensures states { reverse states.new.items ≡ past child.now.kept (reverse states.old.items) }
{
    if child.kept {
        let last = states.len() - 1;
        let kept = &states[last];
        let weights = kept.states.weights(run - kept.counted);
        states.truncate(last);
        weights
    } else {
        ClosingWeights {
            plain: run,
            burdened: run,
        }
    }
}

/// From now on the states of the innermost frame are kept.
#[inline(always)]
pub(crate) fn keep(states: &mut Vec<Kept>, top: &mut Open) -> Result<(), AllocError>
    requires has { HasKept top.old.kept (reverse states.old.items) }
    ensures states { OnOk result (reverse states.new.items ≡ kept_of top.old.kept (reverse states.old.items) ∷ past top.old.kept (reverse states.old.items)) }
    ensures top { OnOk result (top.new ≡ record top.old { kept = true }) }
{
    if !top.kept {
        states.push(Kept::fresh())?;
        top.kept = true;
    }
    Ok(())
}
