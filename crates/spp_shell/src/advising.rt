//! What is told about mending a run: its call sites, and what changed runs come to.
ghost use Rattle.std.specs.Prelude.{◌≡◌, ◌∷◌, ◌++◌, ◌<◌, [], length, map, IfOk, OnOk};
ghost use Rattle.std.specs.List.{flat_map, All};
ghost use Rattle.spp_advice.specs.Counts.{counts_at};
ghost use Rattle.spp_shell.specs.Advise.{
  IsSmallProfile,
  changes_at,
  named_change,
  root_told,
  site_in,
  site_told,
  told_change,
  told_site,
};

use spp_advice::{SiteCounts, SpawnCounts};
use spp_change::{Change, Factor};
use spp_dag::Figures;
use spp_event::Trace;
use spp_report::{ChangedRun, ListedSite};
use spp_site::Profile;
use std::alloc::{AllocError, Global};

/// What is told of the root frame.
fn root_of(profile: &Profile) -> ListedSite<'static>
    requires { IsSmallProfile profile.now }
    ensures { told_site result ≡ root_told profile.now }
{
    ListedSite {
        name: "(root)",
        dag: profile.dag.root_row(),
        path: profile.path.root_row(),
        burdened_path: profile.burdened_path.root_row(),
        past: 0,
        into: 0,
    }
}

/// What is told of a call site.
fn site_of<'a>(
    trace: &Trace<'a>,
    profile: &Profile,
    counts: &SpawnCounts,
    site: u32,
) -> ListedSite<'a>
    requires small { IsSmallProfile profile.now }
    requires site { site < length trace.now.sites }
    ensures { told_site result ≡ site_told trace.now profile.now counts.now site }
{
    let SiteCounts { past, into, .. } = counts.site(site);
    ListedSite {
        name: trace.site_name(site),
        dag: profile.dag.row(site),
        path: profile.path.row(site),
        burdened_path: profile.burdened_path.row(site),
        past,
        into,
    }
}

/// What is told of the root frame, and of the call sites of these numbers.
pub(crate) fn listed<'a>(
    alloc: Global,
    trace: &Trace<'a>,
    profile: &Profile,
    counts: &SpawnCounts,
    first: &[u32],
) -> Result<Vec<ListedSite<'a>>, AllocError>
    requires small { IsSmallProfile profile.now }
    requires sites { All (λ site. site < length trace.now.sites) first.now }
    ensures { IfOk result (λ sites. map told_site sites.items ≡ root_told profile.now ∷ map (site_told trace.now profile.now counts.now) first.now) }
{
    let mut sites = Vec::new(alloc);
    sites.push(root_of(profile))?;
    for site in first {
        sites.push(site_of(trace, profile, counts, *site))?;
    }
    Ok(sites)
}

/// The call site to whose events a change does something.
fn site_of_change(change: Change) -> u32
    ensures { result ≡ site_in change }
{
    match change {
        Change::Faster { site, .. } | Change::Called { site } | Change::Spawned { site } => site,
    }
}

/// Adds the changes that are tried at a call site.
fn push_changes(
    factor: Factor,
    counts: &SpawnCounts,
    site: u32,
    changes: &mut Vec<Change>,
) -> Result<(), AllocError>
    ensures { OnOk result (changes.new.items ≡ changes.old.items ++ changes_at factor counts.now site) }
{
    let SiteCounts { calls, spawns, .. } = counts.site(site);
    changes.push(Change::Faster { site, factor })?;
    if spawns > 0 {
        changes.push(Change::Called { site })?;
    }
    if calls > 0 {
        changes.push(Change::Spawned { site })?;
    }
    Ok(())
}

/// The changes that are tried at the call sites of these numbers.
pub(crate) fn changes_of(
    alloc: Global,
    factor: Factor,
    counts: &SpawnCounts,
    first: &[u32],
) -> Result<Vec<Change>, AllocError>
    ensures { IfOk result (λ changes. changes.items ≡ flat_map (changes_at factor counts.now) first.now) }
{
    let mut changes = Vec::new(alloc);
    for site in first {
        push_changes(factor, counts, *site, &mut changes)?;
    }
    Ok(changes)
}

/// Changed runs by their changes and figures.
pub(crate) fn named_runs<'a, 'c>(
    alloc: Global,
    trace: &Trace<'a>,
    changes: &'c [Change],
    figures: &[Figures],
) -> Result<Vec<ChangedRun<'a, 'c>>, AllocError>
    requires length { length figures.now ≡ length changes.now }
    requires sites { All (λ change. site_in change < length trace.now.sites) changes.now }
    ensures changes { IfOk result (λ runs. map told_change runs.items ≡ map (named_change trace.now) changes.now) }
    ensures figures { IfOk result (λ runs. map (λ r. r.figures) runs.items ≡ figures.now) }
{
    let mut runs = Vec::new(alloc);
    for i in 0..changes.len() {
        runs.push(ChangedRun {
            name: trace.site_name(site_of_change(changes[i])),
            change: &changes[i],
            figures: figures[i],
        })?;
    }
    Ok(runs)
}
