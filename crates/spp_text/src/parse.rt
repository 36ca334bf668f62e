//! A trace out of its text.

ghost use Rattle.std.specs.Prelude.{IfOk, IfErr};
ghost use Rattle.spp_text.specs.Parsed.{IsEncoded, IsTextFault, IsLineReached};

use crate::fault::TextFault;
use crate::text_draft::TextDraft;
use bumpalo::Bump;
use std::alloc::Global;

/// The bytes of the trace that a text names: its header and the record of each event, as they open as that trace.
/// Whether its frames nest is not looked at.
///
/// Time and memory are those of [`TextDraft::followed_by`]; the list gives back the rest of its room at the end.
///
/// # Errors
///
/// The first fault of the least line that has one, or that of the end; `Memory`, where an allocation failed, with the
/// number of a line, or of the end, before which no line has a fault.
pub fn parse_text(alloc: Global, text: &str) -> Result<Vec<u8>, TextFault>
    ensures found { IfOk result (λ bytes. IsEncoded text.now bytes.items) }
    ensures refused { IfErr result (λ fault. IsTextFault text.now fault) }
    ensures line { IfErr result (λ fault. IsLineReached text.now fault.line) }
{
    let names = Bump::new(alloc);
    let lines = TextDraft::new(alloc, &names).followed_by(alloc, text)?;
    lines.end()
}
