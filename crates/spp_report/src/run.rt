//! What is compared of a run.

ghost use Rattle.std.specs.Prelude.{◌≡◌, IfOk};
ghost use Rattle.spp_report.specs.Comparison.{cells_of, told_of};
ghost use Rattle.spp_report.specs.Runs.{told};

use crate::named::Named;
use indexmap::IndexMap;
use spp_dag::Figures;
use spp_site::Row;
use std::alloc::{AllocError, Global};
use std::hash::BuildHasher;

/// What a comparison tells of a call site, or of the root frame, in one run. Work and local counts are in instructions.
#[derive(Clone, Copy, Debug, PartialEq, Eq)]
pub struct Cells {
    /// The number of its frames.
    pub count: u64,
    /// The sum of the counts of the strands directly in them.
    pub local: u128,
    /// The sum of the works of its top frames by site.
    pub site_work: u128,
    /// The sum of the counts of those strands directly in its frames that are on the first greatest path.
    pub path_local: u128,
}

/// The cells of a row on the whole dag and its row on the first greatest path.
fn cells_of_rows(dag: &Row, path: &Row) -> Cells
    ensures { result ≡ cells_of dag.now path.now }
{
    Cells {
        count: dag.count,
        local: dag.local,
        site_work: dag.site_work,
        path_local: path.local,
    }
}

/// What is compared of a run: its figures, and the cells of the root and of each call site under its name. It has copies
/// of the names, so that the trace may go.
#[derive(Drop)]
pub struct Run<S: BuildHasher> {
    pub(crate) figures: Figures,
    pub(crate) root: Cells,
    pub(crate) sites: IndexMap<String, Cells, S>,
}

impl<S: BuildHasher + Drop> Run<S> {
    /// What is compared of a run with this profile. Call sites are found by their names, which `hasher` hashes; take one
    /// with random keys where names come from strangers. It takes time and memory linear in the names.
    ///
    /// # Errors
    ///
    /// An allocation failed.
    pub fn new(alloc: Global, hasher: S, named: &Named<'_, '_>) -> Result<Run<S>, AllocError>
        ensures { IfOk result (λ run. told run ≡ told_of named.now.trace.now named.now.profile.now) }
    {
        named.trace.keeps_limits();
        let profile = named.profile;
        let mut sites = IndexMap::with_hasher(alloc, hasher);
        for site in 0..named.trace.sites() {
            let name = named.trace.site_name(site).to_string(alloc)?;
            let (dag, path) = (profile.dag.row(site), profile.path.row(site));
            sites.insert(name, cells_of_rows(&dag, &path))?;
        }
        Ok(Run {
            figures: profile.figures,
            root: cells_of_rows(&profile.dag.root_row(), &profile.path.root_row()),
            sites,
        })
    }
}
