//! The task `profile`: the figures and tables of a run, by one worker in one reading or by several that share the parts of
//! its trace, or its first fault.
ghost use Rattle.std.specs.Prelude.{◌≡◌, ◌<◌, ◌^◌, ℕ, List, [], ◌∷◌, IfOk, IfErr};
ghost use Rattle.spp_shell.specs.Tasks.{IfLine};
ghost use Rattle.spp_frame.specs.Answers.{IsFaultOf};
ghost use Rattle.spp_frame.specs.Nesting.{IsWellFormed};
ghost use Rattle.spp_dag.specs.Figures.{AreFigures};
ghost use Rattle.spp_site.specs.Profiles.{IsProfileOf};
ghost use Rattle.spp_shell.specs.Check.{IsFirstBadLine, IsOneCheckLine};
ghost use Rattle.spp_shell.specs.Devices.{giving_of};
ghost use Rattle.spp_shell.specs.Inputs.{IsInputRefused};
ghost use Rattle.spp_shell.specs.declared.place.Place.TheVariants.{Only};
ghost use Rattle.spp_shell.specs.Profiles.{IsProfileText, report_text};

use crate::opening::refusal_of_event;
use crate::place::Place;
use crate::refusal::Refusal;
use crate::source::Source;
use crate::tell_input::tell_input;
use crate::telling::Telling;
use spp_crew::{OpenGate, profile};
use spp_cut::cut_even;
use spp_event::Trace;
use spp_frame::ProfileFault;
use spp_report::{Named, csv_text, plain_text};
use spp_request::Request;
use spp_serial::profile_serial;
use spp_site::Profile;
use std::alloc::{AllocError, Global};
use std::sync::Wait;
use std::thread::Threads;

/// The report of a run: the tables alone as comma-separated values, where that is so, or else the figures and tables as text.
#[derive(Clone, Copy)]
struct Report {
    csv: bool,
}

impl Telling for Report {
    type Told = Vec<u8>;

    ghost tells = { λ report trace profile text. text.items ≡ report_text report.csv trace profile };

    fn tell(&self, alloc: Global, named: &Named<'_, '_>) -> Result<Vec<u8>, AllocError> {
        if self.csv {
            csv_text(alloc, named)
        } else {
            plain_text(alloc, named)
        }
    }
}

/// The profile of the run of a trace, or what is wrong first. One worker reads the events once; several share the parts of
/// the trace, in one round or in three.
fn profiled<R: Threads + Wait + Sync>(
    rt: &R,
    alloc: Global,
    request: &Request,
    trace: &Trace<'_>,
) -> Result<Profile, ProfileFault>
    ensures figures { IfOk result (λ p. AreFigures trace.now.records request.now.burdens p.figures) }
    ensures small { IfOk result (λ p. p.figures.work < 2 ^ 92) }
    ensures profile { IfOk result (IsProfileOf trace.now request.now.burdens) }
    ensures fault { IfErr result (λ f. IsFaultOf trace.now.records f) }
{
    let workers = request.workers.number();
    if workers == 1 {
        return profile_serial(alloc, trace, request.burdens);
    }
    let cut = cut_even(alloc, trace, request.parts)?;
    profile(rt, alloc, &cut, workers, request.burdens, &OpenGate)
}

/// The profile of the run of a trace, or why there is none.
pub(crate) fn profile_or_refuse<R: Threads + Wait + Sync>(
    rt: &R,
    alloc: Global,
    request: &Request,
    trace: &Trace<'_>,
) -> Result<Profile, Refusal>
    ensures profile { IfOk result (IsProfileOf trace.now request.now.burdens) }
    ensures good { IfOk result (λ p. IsWellFormed trace.now.records) }
    ensures small { IfOk result (λ p. p.figures.work < 2 ^ 92) }
    ensures line { IfErr result (λ refusal. IfLine refusal (IsFirstBadLine trace.now.records)) }
{
    match profiled(rt, alloc, request, trace) {
        Ok(profile) => Ok(profile),
        Err(ProfileFault::Bad(fault)) => Err(refusal_of_event(alloc, fault)),
        Err(ProfileFault::Memory) => Err(Refusal::Memory),
    }
}

/// The report of the run whose trace an input gives, or why there is none.
pub(crate) fn answer_profile<R: Threads + Wait + Sync, S: Source + Send>(
    rt: &R,
    alloc: Global,
    request: &Request,
    source: &mut S,
) -> Result<Vec<u8>, Refusal>
    ensures text { IfOk result (λ text. (bytes : List ℕ) × (giving_of S.answered S.failed S.failures source.old source.new).Gave bytes × IsProfileText request.now.burdens request.now.csv (bytes ∷ []) text.items) }
    ensures refused { IfErr result (IsInputRefused (giving_of S.answered S.failed S.failures source.old source.new) Only IsOneCheckLine) }
{
    let report = Report { csv: request.csv };
    tell_input(rt, alloc, request, source, Place::Only, &report)
}
