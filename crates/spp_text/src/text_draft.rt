//! A draft of a trace out of a text whose lines are read as they come.

ghost use Rattle.std.specs.Prelude.{◌≡◌, ◌+◌, ◌<◌, ◌++◌, ℕ, List, [], length, min, IfOk, IfErr};
ghost use Rattle.std.specs.Str.{IsUtf8};
ghost use Rattle.std.specs.Str.Lines.{lines};
ghost use Rattle.spp_text.specs.Parsed.{IsEncoded, IsTextFault, IsLineReached};
ghost use Rattle.spp_text.specs.TextDrafts.{AreWholeLines, IsDraftOf, IsFirstFault};
ghost use Rattle.spp_text.specs.Usual.{ReadsFirst};

use crate::draft::Draft;
use crate::fault::{TextFault, TextWhy};
use crate::lines::first_line;
use crate::usual::event_line;
use bumpalo::Bump;
use std::alloc::Global;

/// The first line of a text more; gives what follows it.
#[inline(always)]
fn add_first<'t>(draft: &mut Draft<'_>, alloc: Global, text: &'t str) -> Result<&'t str, TextWhy>
    requires { 0 < length text.now }
    ensures read { ReadsFirst result text.now draft.old draft.new }
    ensures utf8 { IfOk result (λ rest. IsUtf8 rest.now) }
{
    let bytes = text.as_bytes();
    if bytes[0] != b'#' {
        if let Some((event, rest)) = event_line(bytes) {
            draft.add_read(Ok(event))?;
            return Ok(&text[text.len() - rest.len()..]);
        }
    }
    let (line, rest) = first_line(text);
    draft.add_line(alloc, line)?;
    Ok(rest)
}

/// What the lines say that were read so far; none has a fault. Names are copied, so a text needn't be kept when its lines
/// were read.
#[derive(Drop)]
pub struct TextDraft<'n> {
    draft: Draft<'n>,
    number: u32,
}

impl<'n> TextDraft<'n> {
    /// Before the first line. The names that lines declare are copied to the arena, once each.
    pub fn new(alloc: Global, names: &'n Bump) -> TextDraft<'n>
        ensures { IsDraftOf result [] }
    {
        TextDraft {
            draft: Draft::new(alloc, names),
            number: 1,
        }
    }

    /// The number of the next line, from 1; 2^32 - 1 for that line and all after it.
    pub fn number(&self) -> u32
        ensures { (text : List ℕ) → IsDraftOf self.now text → result ≡ min (length (lines text) + 1) 4294967295 }
    {
        self.number
    }

    /// Reads the lines of this text too, which follow those read. Each text but the last must end with a line feed.
    ///
    /// The time is linear in the length of all texts, but for about S log S comparisons of names, S being the number of
    /// sites. The memory is that of the names, of the words of one line, 16 bytes each, and from the first event on 16
    /// bytes for each event, in a list that doubles where it is full.
    ///
    /// # Errors
    ///
    /// The first fault of the first line that has one, whatever lines follow, in the order of the checks of
    /// [`TextWhy`]'s documentation; `Memory`, where an allocation failed, with the number of a line before which none has
    /// a fault.
    pub fn followed_by(self, alloc: Global, text: &str) -> Result<TextDraft<'n>, TextFault>
        ensures read { (before : List ℕ) → IsDraftOf self.entry before → AreWholeLines before → IfOk result (λ more. IsDraftOf more (before ++ text.now)) }
        ensures refused { (before : List ℕ) → IsDraftOf self.entry before → AreWholeLines before → IfErr result (IsFirstFault (before ++ text.now)) }
        ensures line { (before : List ℕ) → IsDraftOf self.entry before → AreWholeLines before → IfErr result (λ fault. IsLineReached (before ++ text.now) fault.line) }
    {
        let TextDraft {
            mut draft,
            mut number,
        } = self;
        let mut rest = text;
        while !rest.is_empty() {
            rest = match add_first(&mut draft, alloc, rest) {
                Ok(others) => others,
                Err(why) => return Err(TextFault { line: number, why }),
            };
            number = number.saturating_add(1);
        }
        Ok(TextDraft { draft, number })
    }

    /// The bytes of the trace that the lines name, where no more follow: its header and the record of each event. Where
    /// there are events, the list has no room for more, unless the memory for a smaller one is refused.
    ///
    /// # Errors
    ///
    /// The fault of the end of a text without events, told as of a line behind the last; `Memory`, where an allocation
    /// failed.
    pub fn end(self) -> Result<Vec<u8>, TextFault>
        ensures found { (text : List ℕ) → IsDraftOf self.entry text → IfOk result (λ bytes. IsEncoded text bytes.items) }
        ensures refused { (text : List ℕ) → IsDraftOf self.entry text → IfErr result (IsTextFault text) }
        ensures line { (text : List ℕ) → IsDraftOf self.entry text → IfErr result (λ fault. IsLineReached text fault.line) }
    {
        let TextDraft { draft, number } = self;
        if let Some(why) = draft.opening_fault() {
            return Err(TextFault { line: number, why });
        }
        match draft.into_bytes() {
            Ok(bytes) => Ok(bytes),
            Err(_) => Err(TextFault {
                line: number,
                why: TextWhy::Memory,
            }),
        }
    }
}
