//! The figures of a run.

/// The figures of a run, in instructions.
#[derive(Clone, Copy, Debug, PartialEq, Eq)]
pub struct Figures {
    /// The sum of the counts of all strands (Cilkprof's work).
    pub work: u128,
    /// The greatest weight of a walk through the dag of the run (Cilkprof's span): no number of processors runs it
    /// faster.
    pub span: u128,
    /// The span where each continuation edge and each return edge bears a burden (after Cilkview's burdened span).
    pub burdened: u128,
}
