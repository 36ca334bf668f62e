//! The task `advise`: what is told about mending a run, or its first fault.
ghost use Rattle.std.specs.Prelude.{◌≡◌, ◌<◌, ◌^◌, ℕ, List, [], ◌∷◌, false, length, true, IfOk, IfErr};
ghost use Rattle.spp_event.specs.declared.records.Event.{Event};
ghost use Rattle.spp_advice.specs.Counts.{ArePathCounts};
ghost use Rattle.spp_frame.specs.Answers.{IsFaultOf};
ghost use Rattle.spp_frame.specs.Nesting.{AreEvents, IsWellFormed};
ghost use Rattle.spp_report.specs.Advice.{HaveSmallWork, IsAdviceText};
ghost use Rattle.spp_report.specs.AdviceCsv.{HavePlainNames, advice_csv as table_of};
ghost use Rattle.spp_shell.specs.Advise.{IsAdvice, IsAdviceOf, IsAdviseText, IsAskedFor, IsOneAdviseLine, asked_name};
ghost use Rattle.spp_shell.specs.Check.{IsFirstBadLine, TellsHeader};
ghost use Rattle.spp_shell.specs.Devices.{giving_of};
ghost use Rattle.spp_shell.specs.Inputs.{IsInputRefused};
ghost use Rattle.spp_shell.specs.Tasks.{IfLine};
ghost use Rattle.spp_shell.specs.declared.place.Place.TheVariants.{Only};
ghost use Rattle.spp_site.specs.Profiles.{IsProfileOf};

use crate::advising::{changes_of, listed, named_runs};
use crate::finding::figures_of;
use crate::input::read_trace_or_refuse;
use crate::opening::{open_or_refuse, refusal_of_event};
use crate::place::Place;
use crate::profile_task::profile_or_refuse;
use crate::refusal::Refusal;
use crate::source::Source;
use crate::told_sites::{site_asked, told_sites};
use spp_advice::{SpawnCounts, spawn_counts};
use spp_crew::{OpenGate, burdened_marks};
use spp_cut::cut_even;
use spp_event::Trace;
use spp_frame::ProfileFault;
use spp_report::{Advice, advice_csv, advice_text};
use spp_request::{AdviseOptions, Request};
use spp_site::Profile;
use std::alloc::{AllocError, Global};
use std::sync::Wait;
use std::thread::Threads;

/// What the burdened path of a run does at the spawns of each call site, or what is wrong first.
fn path_counts<R: Threads + Wait + Sync>(
    rt: &R,
    alloc: Global,
    request: &Request,
    trace: &Trace<'_>,
) -> Result<SpawnCounts, ProfileFault>
    ensures counts { IfOk result (λ c. (es : List Event) → AreEvents trace.now.records es → ArePathCounts es request.now.burdens c) }
    ensures fault { IfErr result (λ f. IsFaultOf trace.now.records f) }
{
    let cut = cut_even(alloc, trace, request.parts)?;
    let workers = request.workers.number();
    let mut marks = vec![in alloc; 0; trace.count() as usize]?;
    let burdens = request.burdens;
    burdened_marks(
        rt,
        alloc,
        &cut,
        workers,
        burdens,
        &OpenGate,
        marks.as_mut_slice(),
    )?;
    Ok(spawn_counts(alloc, trace, marks.as_slice())?)
}

/// The advice as a text, or as comma-separated values.
///
/// # Errors
///
/// Where an allocation failed.
fn text_of_advice(
    alloc: Global,
    csv: bool,
    advice: &Advice<'_, '_, '_>,
) -> Result<Vec<u8>, AllocError>
    requires works { HaveSmallWork advice.now.runs.now }
    requires names { HavePlainNames advice.now }
    ensures text { csv ≡ false → IfOk result (λ text. IsAdviceText advice.now text.items) }
    ensures table { csv ≡ true → IfOk result (λ text. text.items ≡ table_of advice.now) }
{
    if csv {
        advice_csv(alloc, advice)
    } else {
        advice_text(alloc, advice)
    }
}

/// What is told about mending the run of a trace that has that profile, where the burdened path does that at the spawns of its
/// call sites, and the call site of that number is asked for.
///
/// # Errors
///
/// Where an allocation failed.
fn advice_of<R: Threads + Wait + Sync>(
    rt: &R,
    alloc: Global,
    request: &Request,
    options: &AdviseOptions,
    trace: &Trace<'_>,
    profile: &Profile,
    counts: &SpawnCounts,
    asked: Option<u32>,
) -> Result<Vec<u8>, AllocError>
    requires asked { IsAskedFor trace.now (asked_name options.now) asked }
    requires profile { IsProfileOf trace.now request.now.burdens profile.now }
    requires counts { (es : List Event) → AreEvents trace.now.records es → ArePathCounts es request.now.burdens counts.now }
    ensures { IfOk result (λ text. (a : _) × IsAdviceOf trace.now request.now.burdens options.now a × IsAdvice request.now.csv a text.items) }
{
    trace.keeps_limits();
    let burdens = request.burdens;
    burdens.are_small();
    let count = trace.sites();
    let told = told_sites(alloc, profile, counts, burdens, count, options.top, asked)?;
    let sites = listed(alloc, trace, profile, counts, told.as_slice())?;
    let changes = changes_of(alloc, options.factor, counts, told.as_slice())?;
    let workers = request.workers.number();
    let found = figures_of(rt, alloc, trace, burdens, changes.as_slice(), workers)?;
    let runs = named_runs(alloc, trace, changes.as_slice(), found.as_slice())?;
    let advice = Advice {
        figures: profile.figures,
        burdens,
        sites: sites.as_slice(),
        runs: runs.as_slice(),
    };
    text_of_advice(alloc, request.csv, &advice)
}

/// What is told about mending the run whose trace these bytes are, or why nothing is.
fn advise_bytes<R: Threads + Wait + Sync>(
    rt: &R,
    alloc: Global,
    request: &Request,
    options: &AdviseOptions,
    bytes: &[u8],
) -> Result<Vec<u8>, Refusal>
    ensures text { IfOk result (λ text. IsAdviseText request.now.burdens request.now.csv options.now (bytes.now ∷ []) text.items) }
    ensures line { IfErr result (λ refusal. IfLine refusal (IsOneAdviseLine options.now bytes.now)) }
{
    let trace = open_or_refuse(alloc, bytes)?;
    let asked = site_asked(alloc, &trace, options)?;
    let profile = profile_or_refuse(rt, alloc, request, &trace)?;
    match path_counts(rt, alloc, request, &trace) {
        Ok(counts) => Ok(advice_of(
            rt, alloc, request, options, &trace, &profile, &counts, asked,
        )?),
        Err(ProfileFault::Bad(fault)) => Err(refusal_of_event(alloc, fault)),
        Err(ProfileFault::Memory) => Err(Refusal::Memory),
    }
}

/// What is told about mending the run whose trace an input gives, or why nothing is.
pub(crate) fn answer_advise<R: Threads + Wait + Sync, S: Source>(
    rt: &R,
    alloc: Global,
    request: &Request,
    options: &AdviseOptions,
    source: &mut S,
) -> Result<Vec<u8>, Refusal>
    ensures text { IfOk result (λ text. (bytes : List ℕ) × (giving_of S.answered S.failed S.failures source.old source.new).Gave bytes × IsAdviseText request.now.burdens request.now.csv options.now (bytes ∷ []) text.items) }
    ensures refused { IfErr result (IsInputRefused (giving_of S.answered S.failed S.failures source.old source.new) Only (IsOneAdviseLine options.now)) }
{
    let bytes = read_trace_or_refuse(alloc, source, Place::Only)?;
    advise_bytes(rt, alloc, request, options, bytes.as_slice())
}
