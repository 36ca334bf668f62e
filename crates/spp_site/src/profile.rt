//! All that is told of a run.

use crate::table::Table;
use spp_dag::Figures;

/// What is told of a run: its figures, and its tables by call site.
#[derive(Drop)]
pub struct Profile {
    /// Its work, span and burdened span.
    pub figures: Figures,
    /// Its rows on its whole dag (Cilkprof's work profile, with spans).
    pub dag: Table,
    /// Its rows on its first greatest path, the critical path (Cilkprof's profile on the span).
    pub path: Table,
    /// Its rows on the first path that is greatest under the burdens (the critical path of Cilkview's burdened dag). The
    /// burdens decide which path that is, and no row bears any.
    pub burdened_path: Table,
}
