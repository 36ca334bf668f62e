//! What the stack machine notes of a run on its way, from which its paths are settled.

/// The return of a spawned child.
#[derive(Clone, Copy, Debug, PartialEq, Eq)]
pub struct End {
    /// The position of the return.
    pub at: u32,
    /// The position of the spawn.
    pub spawn: u32,
}

/// A place where some spawned child joins its parent: a sync, a return, or the end.
#[derive(Clone, Copy, Debug, PartialEq, Eq)]
pub struct Choice {
    /// The position of the sync or the return, or the number of events at the end.
    pub at: u32,
    /// The position of the spawn of the child that the path through the parent to there comes from; none where it
    /// comes along the parent itself.
    pub taken: Option<u32>,
}

/// The choices of a run, or of a part of it: what decides which children its paths enter, the one without burdens and
/// the one under the burdens.
#[derive(Debug, Drop)]
pub struct Choices {
    /// The returns of all spawned children, in order.
    pub ends: Vec<End>,
    /// What the path comes from at each place where a child joins, in order.
    pub joins: Vec<Choice>,
    /// The same of the path that is greatest under the burdens, at the same places.
    pub burdened_joins: Vec<Choice>,
}
