//! What is told about mending a run.

ghost use Rattle.spp_dag.specs.Limits.{IsSmallRow};
ghost use Rattle.spp_report.specs.Small.{AreSmall};

use spp_change::Change;
use spp_dag::{Figures, Row};
use spp_maxplus::Burdens;

/// A call site of a run, or its root frame, and what its spawns do on the burdened path.
#[derive(Clone, Copy)]
pub struct ListedSite<'n> {
    /// The name; `(root)` for the root frame.
    pub name: &'n str,
    /// The row on the whole dag.
    pub dag: Row,
    /// That on the first greatest path.
    pub path: Row,
    /// That on the first greatest burdened path.
    pub burdened_path: Row,
    /// How often the burdened path goes past a spawn by the site, along the continuation.
    pub past: u32,
    /// How often it enters a frame that the site spawned, and so comes back along a return edge.
    pub into: u32,
    ghost light: { IsSmallRow dag },
    ghost light_path: { IsSmallRow path },
    ghost light_burdened_path: { IsSmallRow burdened_path },
}

/// What a changed run comes to.
#[derive(Clone, Copy)]
pub struct ChangedRun<'n, 'c> {
    /// The name of the call site to whose events something is done.
    pub name: &'n str,
    /// What that is.
    pub change: &'c Change,
    /// Its figures.
    pub figures: Figures,
}

/// What is told about mending a run.
#[derive(Clone, Copy)]
pub struct Advice<'t, 'n, 'c> {
    /// The figures of the run.
    pub figures: Figures,
    /// What continuation edges and return edges bear.
    pub burdens: Burdens,
    /// The root frame, and call sites on the critical paths.
    pub sites: &'t [ListedSite<'n>],
    /// Changed runs.
    pub runs: &'t [ChangedRun<'n, 'c>],
    ghost small: { AreSmall figures },
}
