//! Reading the words of a command line.
ghost use Rattle.std.specs.Prelude.{◌≡◌, ◌∷◌, [], IfErr, IfOk, IfSome, None, Some, codes, map};
ghost use Rattle.std.specs.Option.{option_map};
ghost use Rattle.std.specs.String.{string_bytes};
ghost use Rattle.clap.specs.Matches.{found_of};
ghost use Rattle.clap.specs.Walk.{rows_of};
ghost use Rattle.clap.specs.Words.{fault_of, kind_of, subcommand_of};
ghost use Rattle.clap.specs.declared.error.kind.ErrorKind.TheVariants.{MissingSubcommand, OutOfMemory};
ghost use Rattle.spp_request.specs.declared.request.UsageFault.TheVariants.{Memory};
ghost use Rattle.spp_request.specs.declared.request.Command.{Command};
ghost use Rattle.spp_command_line.specs.Spprof.{spprof};
ghost use Rattle.spp_command_line.specs.Usage.{EndsBy, GivesAdvice, IsAdvised, IsAskedBy, IsNamed, IsRequestOf, paths_of, spoken};

use crate::asked::Asked;
use crate::command_line::{DEFAULT_BURDEN, DEFAULT_TOP, command_line};
use crate::tips::text_in_place;
use clap::error::ErrorKind;
use clap::{ArgMatches, Error};
use spp_change::Factor;
use spp_cut::Parts;
use spp_maxplus::Burdens;
use spp_request::{AdviseOptions, Command, Request, UsageFault, Workers};
use std::alloc::{AllocError, Global};
use std::convert::AsStr;

/// What the user is shown where `clap` gives no matches for the words.
fn shown<S: AsStr>(alloc: Global, words: &[S], error: Error) -> UsageFault
    ensures ends { EndsBy (kind_of error ∷ []) result }
    ensures memory { kind_of error ≡ OutOfMemory → result ≡ Memory }
{
    if error.kind() == ErrorKind::OutOfMemory {
        return UsageFault::Memory;
    }
    let status = if error.use_stderr() { 2 } else { 0 };
    let Ok(text) = error.to_string(alloc) else {
        return UsageFault::Memory;
    };
    match text_in_place(alloc, words, text.as_str()) {
        Ok(own) => UsageFault::Shown {
            text: own.unwrap_or(text),
            status,
        },
        Err(_) => UsageFault::Memory,
    }
}

fn command_of(name: &str) -> Option<Command>
    ensures named { IfSome result (IsNamed name.now) }
    ensures none { result ≡ None → (c : Command) → IsNamed name.now c → ⊥ }
{
    match name {
        "check" => Some(Command::Check),
        "figures" => Some(Command::Figures),
        "profile" | "advise" => Some(Command::Profile),
        "compare" => Some(Command::Compare),
        "encode" => Some(Command::Encode),
        "migrate" => Some(Command::Migrate),
        _ => None,
    }
}

/// What the user is shown where there is none of the commands. `clap` has refused such words already, as the proof of
/// `read_spoken` shows.
fn no_command(alloc: Global) -> UsageFault
    ensures { EndsBy (MissingSubcommand ∷ []) result }
{
    match "error: no such command\n".to_string(alloc) {
        Ok(text) => UsageFault::Shown { text, status: 2 },
        Err(_) => UsageFault::Memory,
    }
}

/// The files of a request: FILE, where there is one and it isn't `-`, then BEFORE and AFTER.
fn paths(
    alloc: Global,
    file: Option<&str>,
    before: Option<&str>,
    after: Option<&str>,
) -> Result<Vec<String>, AllocError>
    ensures { IfOk result (λ v. map string_bytes v.items ≡ paths_of (option_map (λ f. f.now) file.entry) (option_map (λ f. f.now) before.entry) (option_map (λ f. f.now) after.entry)) }
{
    let mut files = Vec::new(alloc);
    if let Some(path) = file {
        if path != "-" {
            files.push(path.to_string(alloc)?)?;
        }
    }
    if let Some(path) = before {
        files.push(path.to_string(alloc)?)?;
    }
    if let Some(path) = after {
        files.push(path.to_string(alloc)?)?;
    }
    Ok(files)
}

/// The words as texts.
fn texts<S: AsStr>(alloc: Global, words: &[S]) -> Result<Vec<&str>, AllocError>
    ensures { IfOk result (λ v. map (λ w. w.now) v.items ≡ map S.text words.now) }
{
    let mut texts = Vec::new(alloc);
    for word in words {
        texts.push(word.as_str())?;
    }
    Ok(texts)
}

/// Puts the words as `clap` is to read them: `help COMMAND` is `COMMAND --help` for it, and `help` alone `--help`.
fn turn_help_into_option(words: &mut Vec<&str>)
    ensures { map (λ w. w.now) words.new.items ≡ spoken (map (λ w. w.now) words.old.items) }
{
    if words.len() == 2 && words[1] == "help" {
        words[1] = "--help";
    } else if words.len() == 3 && words[1] == "help" {
        words[1] = words[2];
        words[2] = "--help";
    }
}

/// The options of `advise` that `clap` found.
///
/// # Errors
///
/// Where an allocation failed.
fn options_of(alloc: Global, given: &ArgMatches) -> Result<AdviseOptions, AllocError>
    ensures { IfOk result (λ o. GivesAdvice (Some (codes "advise", rows_of (found_of given.now))) o.top o.factor (option_map string_bytes o.site)) }
{
    let top = given.get_one::<u32>("top").unwrap_or(DEFAULT_TOP);
    let factor = given.get_one::<u32>("faster").and_then(Factor::new);
    let site = match given.get_str("site") {
        Some(name) => Some(name.to_string(alloc)?),
        None => None,
    };
    Ok(AdviseOptions {
        top,
        factor: factor.unwrap_or_default(),
        site,
    })
}

/// Reads what is asked for from words as `clap` is to read them.
fn read_spoken<S: AsStr>(alloc: Global, words: &[S]) -> Result<Asked, UsageFault>
    ensures found { IfOk result (IsAskedBy (subcommand_of spprof (map S.text words.now))) }
    ensures advise { IfOk result (λ a. IsAdvised (subcommand_of spprof (map S.text words.now)) a.advise) }
    ensures good { IfOk result (λ _. fault_of spprof (map S.text words.now) ≡ []) }
    ensures refused { IfErr result (EndsBy (fault_of spprof (map S.text words.now))) }
{
    let matches = match command_line(alloc)?.try_get_matches_from(words) {
        Ok(matches) => matches,
        Err(error) => return Err(shown(alloc, words, error)),
    };
    let Some((name, given)) = matches.subcommand() else {
        return Err(no_command(alloc));
    };
    let Some(command) = command_of(name) else {
        return Err(no_command(alloc));
    };
    let burden = given.get_one::<u32>("burden").unwrap_or(DEFAULT_BURDEN);
    let join_burden = given.get_one::<u32>("join-burden").unwrap_or(burden);
    let burdens = Burdens {
        continuation: burden,
        join: join_burden,
    };
    let parts = given.get_one::<u32>("parts").and_then(Parts::new);
    let workers = given.get_one::<u32>("workers").and_then(Workers::new);
    let (before, after) = (given.get_str("BEFORE"), given.get_str("AFTER"));
    let advise = match name {
        "advise" => Some(options_of(alloc, given)?),
        _ => None,
    };
    Ok(Asked {
        request: Request {
            command,
            files: paths(alloc, given.get_str("FILE"), before, after)?,
            burdens,
            parts: parts.unwrap_or_default(),
            workers: workers.unwrap_or_default(),
            csv: given.get_flag("csv"),
        },
        advise,
        explain: given.get_flag("explain"),
    })
}

/// Reads what the words of a command line ask for, of which the first is the program's name. It is what `clap` finds in
/// the words, which are then without fault; a text is shown where they have a fault, and with its status. Both are by
/// `clap`'s definitions, for the command line `spprof` of specs; `word_laws` says what they make of some words.
/// `help COMMAND` is read as `COMMAND --help`.
///
/// The texts of help and usage are those of `clap`, but where its advice would mislead (`tips`): which text is shown isn't
/// said, and tests compare them.
///
/// # Errors
///
/// The text that the user is to be shown, or that an allocation failed.
pub fn read_words<S: AsStr>(alloc: Global, words: &[S]) -> Result<Asked, UsageFault>
    ensures found { IfOk result (IsAskedBy (subcommand_of spprof (spoken (map S.text words.now)))) }
    ensures advise { IfOk result (λ a. IsAdvised (subcommand_of spprof (spoken (map S.text words.now))) a.advise) }
    ensures good { IfOk result (λ _. fault_of spprof (spoken (map S.text words.now)) ≡ []) }
    ensures refused { IfErr result (EndsBy (fault_of spprof (spoken (map S.text words.now)))) }
{
    let mut words = texts(alloc, words)?;
    turn_help_into_option(&mut words);
    read_spoken(alloc, words.as_slice())
}

/// The request alone of what the words ask for, as [`read_words`] reads them: that of a profile where they ask for advice.
///
/// # Errors
///
/// The text that the user is to be shown, or that an allocation failed.
pub fn read_request<S: AsStr>(alloc: Global, words: &[S]) -> Result<Request, UsageFault>
    ensures found { IfOk result (IsRequestOf (subcommand_of spprof (spoken (map S.text words.now)))) }
    ensures good { IfOk result (λ _. fault_of spprof (spoken (map S.text words.now)) ≡ []) }
    ensures refused { IfErr result (EndsBy (fault_of spprof (spoken (map S.text words.now)))) }
{
    match read_words(alloc, words) {
        Ok(Asked { request, .. }) => Ok(request),
        Err(fault) => Err(fault),
    }
}
