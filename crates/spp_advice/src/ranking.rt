//! Which call sites are worth mending first.

ghost use Rattle.std.specs.Prelude.{◌≡◌, ◌*◌, ◌<◌, ◌^◌, ℕ, map, IfOk, IsTrue, ◌↔◌, true};
ghost use Rattle.std.specs.List.{All};
ghost use Rattle.std.specs.Ordering.{nat_cmp, ordering_then};
ghost use Rattle.spp_advice.specs.Ranking.{is_met, met_sites, weight_of, AreFirst, IsLight};
ghost use Rattle.spp_advice.specs.declared.ranking.Weighed.{Weighed as WeighedValue};

use crate::counting::SpawnCounts;
use spp_maxplus::Burdens;
use spp_site::Profile;
use std::alloc::{AllocError, Global};
use std::cmp::Ordering;

/// A call site and what mending it can bring.
#[derive(Clone, Copy)]
struct Weighed {
    site: u32,
    /// In instructions.
    weight: u128,
}

impl Weighed {
    /// How it is told beside another: the heavier one first, and of equal ones the one with the lesser number.
    fn rank(&self, other: &Weighed) -> Ordering
        ensures { result ≡ ordering_then (nat_cmp other.now.weight self.now.weight) (nat_cmp self.now.site other.now.site) }
    {
        let heavier = other.weight.cmp(&self.weight);
        heavier.then(self.site.cmp(&other.site))
    }
}

/// Whether a site has frames on one of the two paths, or the burdened path goes past a child that it spawned.
fn meets(profile: &Profile, counts: &SpawnCounts, site: u32) -> bool
    ensures { result ≡ is_met profile.now counts.now site }
{
    let path = profile.path.row(site);
    let burdened = profile.burdened_path.row(site);
    path.count > 0 || burdened.count > 0 || counts.site(site).past > 0
}

/// What mending a site can bring, in instructions: what its frames run on the critical path themselves, or, where it is more,
/// what they run on the burdened path and what its spawns cost there. The counts are those along the burdened path, and the
/// burdens those that the profile was made under.
pub fn weight(profile: &Profile, counts: &SpawnCounts, burdens: Burdens, site: u32) -> u128
    requires { IsLight profile.now }
    ensures { result ≡ weight_of profile.now counts.now burdens site }
{
    let path = profile.path.row(site);
    let burdened = profile.burdened_path.row(site);
    let cost = counts.site(site).cost(burdens);
    let on_path = path.local;
    let on_burdened_path = burdened.local + cost;
    on_path.max(on_burdened_path)
}

/// The sites that one of the paths meets, each with its weight, in the order of the trace.
///
/// # Errors
///
/// Where an allocation failed.
fn weigh_all(
    alloc: Global,
    profile: &Profile,
    counts: &SpawnCounts,
    burdens: Burdens,
    sites: u32,
) -> Result<Vec<Weighed>, AllocError>
    requires { IsLight profile.now }
    ensures sites { IfOk result (λ v. map (λ w. w.site) v.items ≡ met_sites profile.now counts.now sites) }
    ensures weights { IfOk result (λ v. All (λ w. w.weight ≡ weight_of profile.now counts.now burdens w.site) v.items) }
{
    let mut all = Vec::new(alloc);
    for site in 0..sites {
        if meets(profile, counts, site) {
            let weight = weight(profile, counts, burdens, site);
            all.push(Weighed { site, weight })?;
        }
    }
    Ok(all)
}

/// Their sites.
///
/// # Errors
///
/// Where an allocation failed.
fn sites_of(alloc: Global, all: &[Weighed]) -> Result<Vec<u32>, AllocError>
    ensures { IfOk result (λ v. v.items ≡ map (λ w. w.site) all.now) }
{
    all.iter().map(|w| w.site).collect(alloc)
}

/// The call sites, of so many, that have frames on the critical path or on the burdened one, or whose spawns the burdened path
/// goes past, at most `top` of them, by what mending each can bring, its [`weight`]: greatest first, and equal ones in the order of the trace.
///
/// The time is that of sorting the sites, `sites` times its logarithm, and the memory is linear in how many such sites
/// there are.
///
/// # Errors
///
/// Where an allocation failed.
pub fn ranked(
    alloc: Global,
    profile: &Profile,
    counts: &SpawnCounts,
    burdens: Burdens,
    sites: u32,
    top: u32,
) -> Result<Vec<u32>, AllocError>
    requires { IsLight profile.now }
    ensures { IfOk result (λ v. AreFirst (weight_of profile.now counts.now burdens) (met_sites profile.now counts.now sites) top v.items) }
{
    let mut all = weigh_all(alloc, profile, counts, burdens, sites)?;
    all.sort_by(|a, b| a.rank(b))?;
    all.truncate(top as usize);
    sites_of(alloc, &all)
}
