//! One run: read, answer, write.
ghost use Rattle.std.specs.Prelude.{ℕ, List, [], ◌∷◌, IfOk, IfErr};
ghost use Rattle.spp_shell.specs.Devices.{WasRead, devices_of, giving_of, input_alone, inputs_of, taking_of};
ghost use Rattle.spp_shell.specs.Endings.{AdviseEnds, EndsRefused, RunEnds, WritingEnds};
ghost use Rattle.spp_shell.specs.Inputs.{IsRefusedBy, first_place};
ghost use Rattle.spp_shell.specs.Requests.{text_for, line_for};
ghost use Rattle.spp_shell.specs.Tasks.{IfLine};

use crate::advise_task::answer_advise;
use crate::check_task::check_input;
use crate::compare_task::answer_compare;
use crate::encode_task::encode_input;
use crate::figures_task::figures_input;
use crate::migrate_task::migrate_input;
use crate::profile_task::answer_profile;
use crate::refusal::Refusal;
use crate::source::Source;
use crate::status::BAD_INPUT;
use crate::trouble::Trouble;
use crate::writing::{tell, tell_trouble, write_answer};
use spp_report::Sink;
use spp_request::{AdviseOptions, Command, Request};
use std::alloc::Global;
use std::random::RandomSource;
use std::sync::Wait;
use std::thread::Threads;

/// The text for the bytes of the request's inputs, or why there is none.
fn answer<R: Threads + Wait + Sync + RandomSource, S: Source + Send, T: Source + Send>(
    rt: &R,
    alloc: Global,
    request: &Request,
    first: &mut S,
    second: &mut T,
) -> Result<Vec<u8>, Refusal>
    ensures text { IfOk result (λ text. (inputs : List (List ℕ)) × WasRead (inputs_of (giving_of S.answered S.failed S.failures first.old first.new) (giving_of T.answered T.failed T.failures second.old second.new)) inputs × text_for request.now.command request.now.burdens request.now.csv inputs text.items) }
    ensures refused { IfErr result (IsRefusedBy (inputs_of (giving_of S.answered S.failed S.failures first.old first.new) (giving_of T.answered T.failed T.failures second.old second.new)) (first_place request.now.command) (line_for request.now.command)) }
{
    match request.command {
        Command::Check => check_input(rt, alloc, first),
        Command::Figures => figures_input(rt, alloc, request, first),
        Command::Profile => answer_profile(rt, alloc, request, first),
        Command::Compare => answer_compare(rt, alloc, request, first, second),
        Command::Encode => encode_input(alloc, first),
        Command::Migrate => migrate_input(rt, alloc, first),
    }
}

/// Writes the answer of a run to `out`, or tells `err` why there is none. Gives the exit status.
fn end<O: Sink, E: Sink>(answer: Result<Vec<u8>, Refusal>, out: &mut O, err: &mut E) -> u8
    ensures answered { IfOk answer (λ text. WritingEnds (taking_of O.took O.finished O.failures out.old out.new) (taking_of E.took E.finished E.failures err.old err.new) text.items result) }
    ensures refused { IfErr answer (λ refusal. EndsRefused (taking_of O.took O.finished O.failures out.old out.new) (taking_of E.took E.finished E.failures err.old err.new) refusal result) }
{
    match answer {
        Ok(text) => write_answer(text.as_slice(), out, err),
        Err(Refusal::Line(line)) => {
            tell(err, line.as_bytes());
            BAD_INPUT
        }
        Err(Refusal::Unread(trouble)) => tell_trouble(err, trouble),
        Err(Refusal::Memory) => tell_trouble(err, Trouble::NoMemory),
    }
}

/// One run of the program: reads the inputs, answers the request, and writes the whole answer to `out`, or one line of
/// fault to `err`. Gives the exit status:
///
/// - 0: `out` took exactly the text that the definitions give for the bytes read, and never failed.
/// - 1: the definitions refuse these bytes, and `err` was told their line of fault. Where they refuse the bytes that came
///   whatever follows them, this may be before the end of the input: no more is read then.
/// - 3: `out` failed after a first part of that text, and took no more; or an input failed, or was too long, and `out` is
///   untouched.
/// - 4: an allocation failed, and `out` is untouched.
///
/// Only `compare` reads `second`, after the run that `first` gives was profiled, and only where that trace is good.
/// Commands over parts of a trace share them among so many workers as the request says, on threads of the runtime, and
/// wait for them: what is said here holds where the call returns.
///
/// Nothing goes to `out` before the whole answer stands. A failure of `err` changes nothing.
pub fn run<
    R: Threads + Wait + Sync + RandomSource,
    S: Source + Send,
    T: Source + Send,
    O: Sink,
    E: Sink,
>(
    rt: &R,
    alloc: Global,
    request: &Request,
    first: &mut S,
    second: &mut T,
    out: &mut O,
    err: &mut E,
) -> u8
    ensures ends { RunEnds (devices_of (inputs_of (giving_of S.answered S.failed S.failures first.old first.new) (giving_of T.answered T.failed T.failures second.old second.new)) (taking_of O.took O.finished O.failures out.old out.new) (taking_of E.took E.finished E.failures err.old err.new)) request.now result }
{
    let answer = answer(rt, alloc, request, first, second);
    end(answer, out, err)
}

/// One run of `advise`, over the input of a request, whose command isn't looked at: as [`run`], with the text of `advise` for
/// these options.
///
/// It reads a trace whole, and up to three times for each call site that it tells of, by its workers; it takes a byte for
/// each event besides, and for each worker what the open frames of a run take.
pub fn advise<R: Threads + Wait + Sync, S: Source, O: Sink, E: Sink>(
    rt: &R,
    alloc: Global,
    request: &Request,
    options: &AdviseOptions,
    input: &mut S,
    out: &mut O,
    err: &mut E,
) -> u8
    ensures ends { AdviseEnds (devices_of (input_alone (giving_of S.answered S.failed S.failures input.old input.new)) (taking_of O.took O.finished O.failures out.old out.new) (taking_of E.took E.finished E.failures err.old err.new)) request.now.burdens request.now.csv options.now result }
{
    let answer = answer_advise(rt, alloc, request, options, input);
    end(answer, out, err)
}
