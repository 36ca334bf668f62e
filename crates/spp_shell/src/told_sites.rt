//! Which call sites `advise` tells of.
ghost use Rattle.std.specs.Prelude.{◌≡◌, ◌<◌, None, [], Contains, IfErr, IfOk, IfSome, length, slice_index_or};
ghost use Rattle.std.specs.List.{All};
ghost use Rattle.spp_advice.specs.Ranking.{IsLight};
ghost use Rattle.spp_shell.specs.Advise.{AreTold, IsAskedFor, LacksSite, asked_name, no_site_line};
ghost use Rattle.spp_shell.specs.Tasks.{IfLine};

use crate::refusal::Refusal;
use spp_advice::{SpawnCounts, ranked};
use spp_event::Trace;
use spp_maxplus::Burdens;
use spp_request::AdviseOptions;
use spp_site::Profile;
use std::alloc::{AllocError, Global};

/// The number of the call site of that name; none where the trace has none. The time is linear in the number of call sites.
fn site_named(trace: &Trace<'_>, name: &str) -> Option<u32>
    ensures found { IfSome result (λ site. (site < length trace.now.sites) × (slice_index_or trace.now.sites site [] ≡ name.now)) }
    ensures none { result ≡ None → Contains trace.now.sites name.now → ⊥ }
{
    for site in 0..trace.sites() {
        if trace.site_name(site) == name {
            return Some(site);
        }
    }
    None
}

/// The number of the call site that is asked for, none where none is; or the line of fault, where the trace lacks it.
pub(crate) fn site_asked(
    alloc: Global,
    trace: &Trace<'_>,
    options: &AdviseOptions,
) -> Result<Option<u32>, Refusal>
    ensures asked { IfOk result (IsAskedFor trace.now (asked_name options.now)) }
    ensures lacks { IfErr result (λ refusal. IfLine refusal (λ line. LacksSite trace.now (asked_name options.now) × (line ≡ no_site_line))) }
{
    let Some(name) = &options.site else {
        return Ok(None);
    };
    match site_named(trace, name.as_str()) {
        Some(site) => Ok(Some(site)),
        None => Err(Refusal::of_line("no such call site\n".to_string(alloc))),
    }
}

/// The numbers of the call sites that are told of: the one that is asked for, or else at most `top`, those that weigh most.
///
/// # Errors
///
/// Where an allocation failed.
pub(crate) fn told_sites(
    alloc: Global,
    profile: &Profile,
    counts: &SpawnCounts,
    burdens: Burdens,
    sites: u32,
    top: u32,
    asked: Option<u32>,
) -> Result<Vec<u32>, AllocError>
    requires light { IsLight profile.now }
    requires within { IfSome asked (λ site. site < sites) }
    ensures told { IfOk result (λ told. AreTold profile.now counts.now burdens sites top asked told.items) }
    ensures within { IfOk result (λ told. All (λ site. site < sites) told.items) }
{
    match asked {
        None => ranked(alloc, profile, counts, burdens, sites, top),
        Some(site) => {
            let mut told = Vec::new(alloc);
            told.push(site)?;
            Ok(told)
        }
    }
}
