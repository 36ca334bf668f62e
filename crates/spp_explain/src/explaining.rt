//! The explanation of a line of fault.
ghost use Rattle.std.specs.Prelude.{◌≡◌, ◌≢◌, ◌++◌, IfOk, IfSome, List, None, Some, codes, ℕ};
ghost use Rattle.std.specs.String.{string_bytes};
ghost use Rattle.spp_explain.specs.Lines.{Explains, IsAbout, IsLineOf, IsOneLine, IsTold, line_of, one_line, shown_char, subject_of};

use crate::expected::{Expected, expected_at};
use crate::found::found;
use crate::input::{Input, Run};
use crate::line::{Told, behind, read_line};
use spp_request::Command;
use std::alloc::{AllocError, Global};
use std::io::ErrorKind;

/// What is shown of a character: of a control character, as a file's name may have, a `?`.
fn shown(c: char) -> char
    ensures { result ≡ shown_char c }
{
    if c.is_control() { '?' } else { c }
}

/// The text as one line.
fn in_one_line(alloc: Global, text: &str) -> Result<String, AllocError>
    ensures same { IfOk result (λ line. string_bytes line ≡ one_line text.now) }
    ensures plain { IfOk result (λ line. IsOneLine (string_bytes line)) }
{
    let mut line = String::new(alloc);
    for c in text.chars() {
        line.push(shown(c))?;
    }
    Ok(line)
}

/// What a fault is of, as the words before it; none where either of two inputs may have taken the memory.
fn subject(
    alloc: Global,
    told: Told,
    command: Command,
    input: &Input<'_>,
) -> Result<String, AllocError>
    ensures { IfOk result (λ text. string_bytes text ≡ subject_of told command input.now.name.now) }
{
    let name = input.name;
    match (told, command) {
        (Told::Memory, Command::Compare) => Ok(String::new(alloc)),
        _ => format!(in alloc; "{name}: "),
    }
}

/// What is about a fault of an input or of the output, in one line.
fn explain_of(
    alloc: Global,
    told: Told,
    command: Command,
    input: &Input<'_>,
) -> Result<String, AllocError>
    ensures plain { IfOk result (λ line. IsOneLine (string_bytes line)) }
    ensures about { IfOk result (λ line. IsAbout (subject_of told command input.now.name.now) (string_bytes line)) }
{
    let Expected {
        wanted,
        cause,
        advice,
    } = expected_at(told, command, input);
    let subject = subject(alloc, told, command, input)?;
    let found = found(alloc, told, input)?;
    let rest = format!(in alloc;
        "{found}; expected: {wanted}; usual cause: {cause}; to do: {advice}"
    )?;
    let text = format!(in alloc; "spprof: {subject}{rest}")?;
    in_one_line(alloc, text.as_str())
}

/// The input that a line of fault is about, and the line without the words that say which of two it is.
fn input_of<'r, 'l>(run: &Run<'r>, line: &'l str) -> (Input<'r>, &'l str)
    ensures only { (t : Told) → line.now ≡ line_of t → (result.0 ≡ run.now.first) × (result.1.now ≡ line_of t) }
    ensures before { (rest : List ℕ) → line.now ≡ codes "before: " ++ rest → (result.0 ≡ run.now.first) × (result.1.now ≡ rest) }
    ensures after { (rest : List ℕ) → line.now ≡ codes "after: " ++ rest → (result.0 ≡ run.now.second) × (result.1.now ≡ rest) }
{
    if let Some(rest) = behind("before: ", line) {
        (run.first, rest)
    } else if let Some(rest) = behind("after: ", line) {
        (run.second, rest)
    } else {
        (run.first, line)
    }
}

/// What is about a line of fault, in one line, both without their line feeds: of which input, where, what was found, what
/// was expected, its usual cause, and what to do. There is none for a line that is no line of fault, nor where the output
/// is a pipe that nobody reads.
pub fn explain(alloc: Global, line: &str, run: &Run<'_>) -> Result<Option<String>, AllocError>
    ensures plain { IfOk result (λ explained. IfSome explained (λ line. IsOneLine (string_bytes line))) }
    ensures only { IfOk result (λ explained. (t : Told) → IsTold t → line.now ≡ line_of t → IfSome explained (λ text. Explains t run.now run.now.first (string_bytes text))) }
    ensures before { IfOk result (λ explained. (t : Told) → IsTold t → line.now ≡ codes "before: " ++ line_of t → IfSome explained (λ text. Explains t run.now run.now.first (string_bytes text))) }
    ensures after { IfOk result (λ explained. (t : Told) → IsTold t → line.now ≡ codes "after: " ++ line_of t → IfSome explained (λ text. Explains t run.now run.now.second (string_bytes text))) }
    ensures known { IfOk result (λ explained. (t : Told) → IsTold t → IsLineOf t line.now → (t ≡ Told.CannotWrite → run.now.output.failure ≢ Some ErrorKind.BrokenPipe) → explained ≢ None) }
{
    let (input, line) = input_of(run, line);
    let Some(told) = read_line(line) else {
        return Ok(None);
    };
    let explained = match told {
        Told::CannotWrite if run.output.failure == Some(ErrorKind::BrokenPipe) => return Ok(None),
        Told::CannotWrite => explain_of(alloc, told, run.command, &run.output)?,
        _ => explain_of(alloc, told, run.command, &input)?,
    };
    Ok(Some(explained))
}
