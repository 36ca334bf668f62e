//! The commands and their options, as `clap` is told of them. It writes the texts of help and usage.

ghost use Rattle.std.specs.Prelude.{◌≡◌, ◌∷◌, [], IfOk, false, codes};
ghost use Rattle.clap.specs.Words.{app_of, rule_of};
ghost use Rattle.spp_command_line.specs.Spprof.{IsAt, burden_rule, csv_rule, explain_rule, faster_rule, file_rule, input_rule, join_burden_rule, over_both, over_file, parts_rule, site_rule, spprof, top_rule, workers_rule};

use clap::{Arg, ArgAction, Command, value_parser};
use spp_change::Factor;
use spp_cut::Parts;
use spp_request::Workers;
use std::alloc::{AllocError, Global};

const ABOUT: &str = "A call-site profiler for recorded fork-join runs";

const VERSION: &str = "0.1.0";

/// What edges of both kinds bear where no burden is given, in instructions.
pub(crate) const DEFAULT_BURDEN: u32 = 15000;

/// The same as a word.
const DEFAULT_BURDEN_WORD: &str = "15000";

/// The number of parts where none is given, as a word.
const DEFAULT_PARTS_WORD: &str = "16";

/// The number of workers where none is given, as a word.
const DEFAULT_WORKERS_WORD: &str = "4";

/// How many call sites are told of where no number is given.
pub(crate) const DEFAULT_TOP: u32 = 10;

/// The same as a word.
const DEFAULT_TOP_WORD: &str = "10";

/// How many times faster strands are made where no number is given, as a word.
const DEFAULT_FACTOR_WORD: &str = "2";

const AFTER_HELP: &str = "'spprof help COMMAND' tells more about a command, with an example

Exit status:
  0  the answer stands on standard output, whole
  1  the input is no good trace or text, or lacks the call site that is asked for;
     standard error says why in one line, and with --explain in a second one where,
     and what to do
  2  the command line is wrong
  3  a file or stream could not be read or written
  4  out of memory";

/// The help for the file of a command over a trace.
const THE_TRACE: &str = "The trace; without it, or as -, standard input is read";

/// A command over one input: its name, what it is about, the help for its file, and an example to stand behind its
/// help.
fn command_over<'a>(
    alloc: Global,
    name: &'a str,
    about: &'a str,
    file: &'a str,
    example: &'a str,
) -> Result<Command<'a>, AllocError>
    ensures { IfOk result (IsAt (over_file name.now [])) }
{
    let file = Arg::new(alloc, "FILE").help(file);
    Command::new(alloc, name)
        .about(about)
        .after_help(example)
        .arg(file)
}

/// A file that must be named.
fn input<'a>(alloc: Global, name: &'a str, help: &'a str) -> Arg<'a>
    ensures rule { rule_of result ≡ input_rule name.now }
    ensures local { result.global ≡ false }
{
    Arg::new(alloc, name).required(true).help(help)
}

/// What each edge past a spawned child bears, and each edge of its return.
fn burden<'a>(alloc: Global) -> Arg<'a>
    ensures rule { rule_of result ≡ burden_rule }
    ensures local { result.global ≡ false }
{
    Arg::new(alloc, "burden")
        .long("burden")
        .value_name("N")
        .value_parser(value_parser!(u32))
        .default_value(DEFAULT_BURDEN_WORD)
        .help(
            "What each edge past a spawned child and each edge of its return bears, in the trace's unit",
        )
}

/// The burden of the edges of returns alone. It has no default, since `--burden` decides where it isn't given.
fn join_burden<'a>(alloc: Global) -> Arg<'a>
    ensures rule { rule_of result ≡ join_burden_rule }
    ensures local { result.global ≡ false }
{
    Arg::new(alloc, "join-burden")
        .long("join-burden")
        .value_name("N")
        .value_parser(value_parser!(u32))
        .help(
            "What each edge of a spawned child's return bears, in the trace's unit; without it, what --burden says",
        )
}

/// Into how many parts the trace is cut.
fn parts<'a>(alloc: Global) -> Arg<'a>
    ensures rule { rule_of result ≡ parts_rule }
    ensures local { result.global ≡ false }
{
    let most = i64::from(Parts::MOST);
    Arg::new(alloc, "parts")
        .long("parts")
        .value_name("N")
        .value_parser(value_parser!(u32).range(1..=most))
        .default_value(DEFAULT_PARTS_WORD)
        .help(
            "Parts that a trace is cut into where it is read whole, 1 to 65536; the answer is the same for each number",
        )
}

/// How many workers answer.
fn workers<'a>(alloc: Global) -> Arg<'a>
    ensures rule { rule_of result ≡ workers_rule }
    ensures local { result.global ≡ false }
{
    let most = i64::from(Workers::MOST);
    Arg::new(alloc, "workers")
        .long("workers")
        .value_name("N")
        .value_parser(value_parser!(u32).range(1..=most))
        .default_value(DEFAULT_WORKERS_WORD)
        .help("Threads that share the work, 1 to 64; the answer is the same for each number")
}

/// How many call sites are told of.
fn top<'a>(alloc: Global) -> Arg<'a>
    ensures rule { rule_of result ≡ top_rule }
    ensures local { result.global ≡ false }
{
    Arg::new(alloc, "top")
        .long("top")
        .value_name("N")
        .value_parser(value_parser!(u32).range(1..=65536))
        .default_value(DEFAULT_TOP_WORD)
        .help("At most so many call sites are told of, 1 to 65536")
}

/// By how much strands are made faster.
fn faster<'a>(alloc: Global) -> Arg<'a>
    ensures rule { rule_of result ≡ faster_rule }
    ensures local { result.global ≡ false }
{
    let most = i64::from(Factor::MOST);
    Arg::new(alloc, "faster")
        .long("faster")
        .value_name("N")
        .value_parser(value_parser!(u32).range(2..=most))
        .default_value(DEFAULT_FACTOR_WORD)
        .help("How many times faster what a call site runs itself is made, 2 to 1000")
}

/// The one call site that is told of.
fn site<'a>(alloc: Global) -> Arg<'a>
    ensures rule { rule_of result ≡ site_rule }
    ensures local { result.global ≡ false }
{
    Arg::new(alloc, "site")
        .long("site")
        .value_name("NAME")
        .help("Tell of this call site alone, on a critical path or not")
}

/// Whether comma-separated values are asked for.
fn csv<'a>(alloc: Global, help: &'a str) -> Arg<'a>
    ensures rule { rule_of result ≡ csv_rule }
    ensures local { result.global ≡ false }
{
    Arg::new(alloc, "csv")
        .long("csv")
        .action(ArgAction::SetTrue)
        .help(help)
}

/// Whether a line of fault is to be explained.
fn explain<'a>(alloc: Global) -> Arg<'a>
    ensures rule { rule_of result ≡ explain_rule }
    ensures local { result.global ≡ false }
{
    Arg::new(alloc, "explain")
        .long("explain")
        .action(ArgAction::SetTrue)
        .help(
            "Explain a fault in a second line: what was found and where, what was expected, what to do",
        )
}

fn check<'a>(alloc: Global) -> Result<Command<'a>, AllocError>
    ensures { IfOk result (IsAt (over_file (codes "check") (explain_rule ∷ []))) }
{
    command_over(
        alloc,
        "check",
        "Check a trace, and print its work",
        THE_TRACE,
        "Example:
  spprof check run.trace

'spprof help' lists the exit statuses",
    )?
    .arg(explain(alloc))
}

/// A command over one trace, with the options of commands that go by parts of it.
fn command_by_parts<'a>(
    alloc: Global,
    name: &'a str,
    about: &'a str,
    example: &'a str,
) -> Result<Command<'a>, AllocError>
    ensures { IfOk result (IsAt (over_file name.now (burden_rule ∷ join_burden_rule ∷ parts_rule ∷ workers_rule ∷ []))) }
{
    command_over(alloc, name, about, THE_TRACE, example)?
        .arg(burden(alloc))?
        .arg(join_burden(alloc))?
        .arg(parts(alloc))?
        .arg(workers(alloc))
}

fn figures<'a>(alloc: Global) -> Result<Command<'a>, AllocError>
    ensures { IfOk result (IsAt (over_file (codes "figures") (burden_rule ∷ join_burden_rule ∷ parts_rule ∷ workers_rule ∷ explain_rule ∷ []))) }
{
    command_by_parts(
        alloc,
        "figures",
        "Print the work, the span and the burdened span of a run",
        "Example:
  spprof figures --burden 1000 run.trace

'spprof help' lists the exit statuses",
    )?
    .arg(explain(alloc))
}

fn profile<'a>(alloc: Global) -> Result<Command<'a>, AllocError>
    ensures { IfOk result (IsAt (over_file (codes "profile") (burden_rule ∷ join_burden_rule ∷ parts_rule ∷ workers_rule ∷ csv_rule ∷ explain_rule ∷ []))) }
{
    command_by_parts(
        alloc,
        "profile",
        "Print the figures of a run and three tables of its call sites",
        "Example:
  spprof profile --csv run.trace > run.csv

'spprof help' lists the exit statuses",
    )?
    .arg(csv(alloc, "Print the tables alone, as comma-separated values"))?
    .arg(explain(alloc))
}

/// A command by parts, with the options of what is changed in a run.
fn command_over_changes<'a>(
    alloc: Global,
    name: &'a str,
    about: &'a str,
    example: &'a str,
) -> Result<Command<'a>, AllocError>
    ensures { IfOk result (IsAt (over_file name.now (burden_rule ∷ join_burden_rule ∷ parts_rule ∷ workers_rule ∷ top_rule ∷ faster_rule ∷ site_rule ∷ []))) }
{
    command_by_parts(alloc, name, about, example)?
        .arg(top(alloc))?
        .arg(faster(alloc))?
        .arg(site(alloc))
}

fn advise<'a>(alloc: Global) -> Result<Command<'a>, AllocError>
    ensures { IfOk result (IsAt (over_file (codes "advise") (burden_rule ∷ join_burden_rule ∷ parts_rule ∷ workers_rule ∷ top_rule ∷ faster_rule ∷ site_rule ∷ csv_rule ∷ explain_rule ∷ []))) }
{
    command_over_changes(
        alloc,
        "advise",
        "Tell how much faster more processors would make a run, and what changes at its call sites would bring",
        "Example:
  spprof advise --top 5 run.trace

'spprof help' lists the exit statuses",
    )?
    .arg(csv(
        alloc,
        "Print the figures of each call site and change, as comma-separated values",
    ))?
    .arg(explain(alloc))
}

/// A command over two files, both of which must be named: the trace of a run before a change, and that of a run after
/// it.
fn command_over_both<'a>(
    alloc: Global,
    name: &'a str,
    about: &'a str,
    example: &'a str,
) -> Result<Command<'a>, AllocError>
    ensures { IfOk result (IsAt (over_both name.now [])) }
{
    Command::new(alloc, name)
        .about(about)
        .after_help(example)
        .arg(input(alloc, "BEFORE", "The trace of the run before a change"))?
        .arg(input(alloc, "AFTER", "The trace of the run after it"))
}

/// A command over two files, with the options of commands that go by parts of a trace.
fn command_over_both_by_parts<'a>(
    alloc: Global,
    name: &'a str,
    about: &'a str,
    example: &'a str,
) -> Result<Command<'a>, AllocError>
    ensures { IfOk result (IsAt (over_both name.now (burden_rule ∷ join_burden_rule ∷ parts_rule ∷ workers_rule ∷ []))) }
{
    command_over_both(alloc, name, about, example)?
        .arg(burden(alloc))?
        .arg(join_burden(alloc))?
        .arg(parts(alloc))?
        .arg(workers(alloc))
}

fn compare<'a>(alloc: Global) -> Result<Command<'a>, AllocError>
    ensures { IfOk result (IsAt (over_both (codes "compare") (burden_rule ∷ join_burden_rule ∷ parts_rule ∷ workers_rule ∷ explain_rule ∷ []))) }
{
    command_over_both_by_parts(
        alloc,
        "compare",
        "Print the figures and the call sites of two runs beside each other",
        "Example:
  spprof compare before.trace after.trace

'spprof help' lists the exit statuses",
    )?
    .arg(explain(alloc))
}

fn encode<'a>(alloc: Global) -> Result<Command<'a>, AllocError>
    ensures { IfOk result (IsAt (over_file (codes "encode") (explain_rule ∷ []))) }
{
    command_over(
        alloc,
        "encode",
        "Read a trace as text, and write its bytes",
        "The text; without it, or as -, standard input is read",
        "Example:
  spprof encode run.txt > run.trace

'spprof help' lists the exit statuses",
    )?
    .arg(explain(alloc))
}

fn migrate<'a>(alloc: Global) -> Result<Command<'a>, AllocError>
    ensures { IfOk result (IsAt (over_file (codes "migrate") (explain_rule ∷ []))) }
{
    command_over(
        alloc,
        "migrate",
        "Convert a trace to version 2 of the format, which is compact",
        THE_TRACE,
        "Example:
  spprof migrate run.trace > run.compact

'spprof help' lists the exit statuses",
    )?
    .arg(explain(alloc))
}

/// The whole command line. It lives as long as the words that it is to read.
pub(crate) fn command_line<'a>(alloc: Global) -> Result<Command<'a>, AllocError>
    ensures { IfOk result (λ c. app_of c ≡ spprof) }
{
    Command::new(alloc, "spprof")
        .about(ABOUT)
        .version(VERSION)
        .after_help(AFTER_HELP)
        .subcommand_required(true)
        .disable_help_subcommand(true)
        .subcommand(check(alloc)?)?
        .subcommand(figures(alloc)?)?
        .subcommand(profile(alloc)?)?
        .subcommand(advise(alloc)?)?
        .subcommand(compare(alloc)?)?
        .subcommand(encode(alloc)?)?
        .subcommand(migrate(alloc)?)
}
