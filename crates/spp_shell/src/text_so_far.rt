//! What the lines of a text that have come say, or their first fault.
ghost use Rattle.std.specs.Prelude.{◌≡◌, ◌≢◌, ◌==◌, ◌+◌, ◌++◌, ◌∷◌, [], List, ℕ, min, count_by, IfOk, IfErr};
ghost use Rattle.std.specs.String.{string_bytes};
ghost use Rattle.spp_text.specs.TextDrafts.{AreWholeLines};
ghost use Rattle.spp_text.specs.declared.fault.TextWhy.TheVariants.{Memory};
ghost use Rattle.spp_shell.specs.Encode.{IsEncodeText, IsEncodeLine, end_line, text_line};
ghost use Rattle.spp_shell.specs.TextSoFar.{IsTextSoFar, IsForeseenLine};
ghost use Rattle.spp_shell.specs.Tasks.{IfLine};

use crate::refusal::Refusal;
use bumpalo::Bump;
use spp_text::{TextDraft, TextFault, TextWhy};
use std::alloc::{AllocError, Global};
use std::str;

/// The line for a fault of a text.
fn line_of_text(alloc: Global, fault: TextFault) -> Result<String, AllocError>
    ensures { IfOk result (λ line. string_bytes line ≡ text_line fault) }
{
    let TextFault { line, why } = fault;
    format!(in alloc; "bad text line {line}: {why}\n")
}

/// What bytes are answered with that have this fault as a text.
fn refusal_of_text(alloc: Global, fault: TextFault) -> Refusal
    ensures { IfLine result (λ line. (fault.why ≢ TextWhy.Memory) × (line ≡ text_line fault)) }
{
    match fault.why {
        TextWhy::Memory => Refusal::Memory,
        _ => Refusal::of_line(line_of_text(alloc, fault)),
    }
}

/// The line on which these bytes end, if they begin on that one; 2^32 - 1 for that line and all after it.
fn line_behind(number: u32, bytes: &[u8]) -> u32
    ensures { result ≡ min (number + count_by (λ b. b == 10) bytes.now) 4294967295 }
{
    let feeds = bytes.iter().filter(|b| **b == b'\n').count();
    number.saturating_add(u32::try_from(feeds).unwrap_or(u32::MAX))
}

/// What the lines of a text that have come say, or their first fault. All of them are UTF-8.
#[derive(Drop)]
pub(crate) enum TextSoFar<'n> {
    /// None has a fault.
    Good(TextDraft<'n>),
    /// The first fault, and the line on which the text ends.
    Bad { fault: TextFault, line: u32 },
}

impl<'n> TextSoFar<'n> {
    /// Before the first line. The names that lines declare are copied to the arena.
    pub(crate) fn new(alloc: Global, names: &'n Bump) -> TextSoFar<'n>
        ensures { IsTextSoFar result [] }
    {
        TextSoFar::Good(TextDraft::new(alloc, names))
    }

    /// The line on which the text ends, behind whole lines; 2^32 - 1 for that line and all after it.
    fn line(&self) -> u32
        ensures { (text : List ℕ) → IsTextSoFar self.now text → AreWholeLines text → result ≡ min (end_line text) 4294967295 }
    {
        match self {
            TextSoFar::Good(draft) => draft.number(),
            TextSoFar::Bad { line, .. } => *line,
        }
    }

    /// The same with these bytes, which follow the lines that came; all but the last must be whole lines. Of lines with a
    /// fault only the names are kept, in the arena.
    ///
    /// # Errors
    ///
    /// A line, where the bytes aren't UTF-8, which is that of the whole text; `Memory`, where an allocation failed. A fault
    /// of a line is no error: it makes [`TextSoFar::Bad`].
    pub(crate) fn followed_by(self, alloc: Global, bytes: &[u8]) -> Result<TextSoFar<'n>, Refusal>
        ensures come { (before : List ℕ) → IsTextSoFar self.entry before → AreWholeLines before → IfOk result (λ lines. IsTextSoFar lines (before ++ bytes.now)) }
        ensures refused { (before : List ℕ) → IsTextSoFar self.entry before → AreWholeLines before → IfErr result (λ refusal. IfLine refusal (IsForeseenLine (before ++ bytes.now))) }
    {
        let first = self.line();
        let text = match str::from_utf8(bytes) {
            Ok(text) => text,
            Err(e) => {
                let line = line_behind(first, &bytes[..e.valid_up_to()]);
                let why = TextWhy::Word;
                return Err(refusal_of_text(alloc, TextFault { line, why }));
            }
        };
        let fault = match self {
            TextSoFar::Good(draft) => match draft.followed_by(alloc, text) {
                Ok(draft) => return Ok(TextSoFar::Good(draft)),
                Err(fault) => fault,
            },
            TextSoFar::Bad { fault, .. } => fault,
        };
        match fault.why {
            TextWhy::Memory => Err(Refusal::Memory),
            _ => Ok(TextSoFar::Bad {
                fault,
                line: line_behind(first, bytes),
            }),
        }
    }

    /// The bytes of the trace that the text names, where no more of it follows.
    ///
    /// # Errors
    ///
    /// The line of the first fault; `Memory`, where an allocation failed.
    pub(crate) fn end(self, alloc: Global) -> Result<Vec<u8>, Refusal>
        ensures text { (all : List ℕ) → IsTextSoFar self.entry all → IfOk result (λ text. IsEncodeText (all ∷ []) text.items) }
        ensures line { (all : List ℕ) → IsTextSoFar self.entry all → IfErr result (λ refusal. IfLine refusal (IsEncodeLine (all ∷ []))) }
    {
        let fault = match self {
            TextSoFar::Good(draft) => match draft.end() {
                Ok(bytes) => return Ok(bytes),
                Err(fault) => fault,
            },
            TextSoFar::Bad { fault, .. } => fault,
        };
        Err(refusal_of_text(alloc, fault))
    }
}
