//! The frames and returns of a piece.

use crate::segs::Segs;
use crate::states::States;
use spp_maxplus::ChildKind;

/// An open frame that a piece has entered.
#[derive(Clone, Copy, Debug, PartialEq, Eq)]
pub struct Frame {
    /// How it was entered.
    pub kind: ChildKind,
    /// The position of the event that opened it.
    pub at: u32,
    /// The call site by which it was entered.
    pub site: u32,
    /// The function that runs in it.
    pub func: u32,
    /// The work of the range before its first event, in instructions.
    pub before: u128,
    /// What is known of its weights.
    pub states: States,
}

/// A return whose frame was opened before the piece.
#[derive(Clone, Copy, Debug, PartialEq, Eq)]
pub struct Unmatched {
    /// What the events since the last such return do to that frame.
    pub segs: Segs,
    /// The position of the return.
    pub at: u32,
}
