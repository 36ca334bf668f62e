//! Children of a frame.

/// How a child was entered. The root is no child.
#[derive(Clone, Copy, Debug, PartialEq, Eq)]
pub enum ChildKind {
    /// By a call.
    Called,
    /// By a spawn.
    Spawned,
}
