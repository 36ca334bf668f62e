//! The frames of a stack machine.

use spp_maxplus::State;

/// How a frame was entered.
#[derive(Clone, Copy, Debug, PartialEq, Eq)]
pub enum FrameKind {
    /// Not at all: it is the root frame, which is open from the first event to the end.
    Root,
    /// By a call.
    Called,
    /// By a spawn.
    Spawned,
}

/// An open frame.
#[derive(Clone, Copy, Debug, PartialEq, Eq)]
pub struct OpenFrame {
    /// How it was entered.
    pub kind: FrameKind,
    /// The position of the event that opened it; 0 for the root, which only `kind` tells from a frame opened at 0.
    pub at: u32,
    /// The call site by which it was entered; 0 for the root.
    pub site: u32,
    /// The function that runs in it.
    pub func: u32,
    /// What is known of its weights without burdens.
    pub plain: State,
    /// What is known of its weights with the burdens.
    pub burdened: State,
}

/// An open frame as it is told where a range of events begins.
#[derive(Clone, Copy, Debug, PartialEq, Eq)]
pub struct EntryFrame {
    /// How it was entered.
    pub kind: FrameKind,
    /// The position of the event that opened it; 0 for the root, which only `kind` tells from a frame opened at 0.
    pub at: u32,
    /// The call site by which it was entered; 0 for the root.
    pub site: u32,
    /// The function that runs in it.
    pub func: u32,
    /// The work of the trace before its first event.
    pub before: u128,
    /// What is known of its weights without burdens.
    pub state: State,
    /// What is known of its weights with the burdens.
    pub burdened: State,
    /// No frame of the same site encloses it.
    pub top_site: bool,
    /// Its caller is enclosed by no frame of the caller's function.
    pub top_caller: bool,
}
