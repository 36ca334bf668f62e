//! The task `compare`: two runs beside each other, or the first fault of the first trace that has one.
ghost use Rattle.std.specs.Prelude.{◌≡◌, ◌<◌, ◌^◌, ℕ, List, IfOk, IfErr};
ghost use Rattle.spp_report.specs.Comparison.{told_of};
ghost use Rattle.spp_report.specs.Runs.{told};
ghost use Rattle.spp_shell.specs.Compare.{IsCompareLine, IsCompareText, IsGoodTrace, IsToldOf, TellsFaultAt};
ghost use Rattle.spp_shell.specs.Devices.{WasRead, giving_of, inputs_of};
ghost use Rattle.spp_shell.specs.Inputs.{IsInputRefused, IsRefusedBy};
ghost use Rattle.spp_shell.specs.declared.place.Place.TheVariants.{Before};

use crate::place::Place;
use crate::refusal::Refusal;
use crate::source::Source;
use crate::tell_input::tell_input;
use crate::telling::Telling;
use spp_report::{Named, Run, compare_text};
use spp_request::Request;
use std::alloc::{AllocError, Global};
use std::collections::hash_map::RandomState;
use std::hash::{BuildHasher, BuildHasherDefault, FoldHasher};
use std::random::RandomSource;
use std::sync::Wait;
use std::thread::Threads;

/// What is compared of a run, with names hashed so. Nothing of its trace is kept.
#[derive(Clone, Copy)]
struct Comparing<H: BuildHasher + Copy + Drop> {
    hasher: H,
}

impl<H: BuildHasher + Copy + Drop> Telling for Comparing<H> {
    type Told = Run<H>;

    ghost tells = { λ _ trace profile run. told run ≡ told_of trace profile };

    fn tell(&self, alloc: Global, named: &Named<'_, '_>) -> Result<Run<H>, AllocError> {
        Run::new(alloc, self.hasher, named)
    }
}

/// What is compared of the run whose trace an input gives, or why there is nothing. The bytes are let go.
fn run_of<R: Threads + Wait + Sync, H: BuildHasher + Copy + Drop, S: Source + Send>(
    rt: &R,
    alloc: Global,
    hasher: H,
    request: &Request,
    input: &mut S,
    place: Place,
) -> Result<Run<H>, Refusal>
    ensures told { IfOk result (λ run. (bytes : List ℕ) × (giving_of S.answered S.failed S.failures input.old input.new).Gave bytes × IsGoodTrace bytes × IsToldOf request.now.burdens bytes (told run)) }
    ensures small { IfOk result (λ run. (told run).figures.work < 2 ^ 120) }
    ensures refused { IfErr result (IsInputRefused (giving_of S.answered S.failed S.failures input.old input.new) place (TellsFaultAt place)) }
{
    match tell_input(rt, alloc, request, input, place, &Comparing { hasher }) {
        Ok(run) => Ok(run),
        Err(refusal) => Err(refusal.placed(alloc, place)),
    }
}

/// Two runs beside each other as text, or why there is none, with names hashed so. The first run is read and profiled
/// first, and its bytes are let go before the second is read.
fn compare_by<
    R: Threads + Wait + Sync,
    H: BuildHasher + Copy + Drop,
    S: Source + Send,
    T: Source + Send,
>(
    rt: &R,
    alloc: Global,
    hasher: H,
    request: &Request,
    first: &mut S,
    second: &mut T,
) -> Result<Vec<u8>, Refusal>
    ensures text { IfOk result (λ text. (inputs : List (List ℕ)) × WasRead (inputs_of (giving_of S.answered S.failed S.failures first.old first.new) (giving_of T.answered T.failed T.failures second.old second.new)) inputs × IsCompareText request.now.burdens inputs text.items) }
    ensures refused { IfErr result (IsRefusedBy (inputs_of (giving_of S.answered S.failed S.failures first.old first.new) (giving_of T.answered T.failed T.failures second.old second.new)) Before IsCompareLine) }
{
    let before = run_of(rt, alloc, hasher, request, first, Place::Before)?;
    let after = run_of(rt, alloc, hasher, request, second, Place::After)?;
    Ok(compare_text(alloc, &before, &after)?)
}

/// Two runs beside each other as text, or why there is none. Names are hashed with keys that the system draws at random, so
/// that no trace can choose names that collide; where it has none to give, by fixed ones, which changes no answer.
pub(crate) fn answer_compare<
    R: Threads + Wait + Sync + RandomSource,
    S: Source + Send,
    T: Source + Send,
>(
    rt: &R,
    alloc: Global,
    request: &Request,
    first: &mut S,
    second: &mut T,
) -> Result<Vec<u8>, Refusal>
    ensures text { IfOk result (λ text. (inputs : List (List ℕ)) × WasRead (inputs_of (giving_of S.answered S.failed S.failures first.old first.new) (giving_of T.answered T.failed T.failures second.old second.new)) inputs × IsCompareText request.now.burdens inputs text.items) }
    ensures refused { IfErr result (IsRefusedBy (inputs_of (giving_of S.answered S.failed S.failures first.old first.new) (giving_of T.answered T.failed T.failures second.old second.new)) Before IsCompareLine) }
{
    match RandomState::new(rt) {
        Ok(hasher) => compare_by(rt, alloc, hasher, request, first, second),
        Err(_) => {
            let hasher: BuildHasherDefault<FoldHasher> = BuildHasherDefault::new();
            compare_by(rt, alloc, hasher, request, first, second)
        }
    }
}
