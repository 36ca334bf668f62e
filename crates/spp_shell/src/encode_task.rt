//! The task `encode`: the bytes of the trace that a text names, or its first fault.
ghost use Rattle.std.specs.Prelude.{◌≡◌, ◌≢◌, ◌-◌, ◌≤◌, ◌∷◌, ◌++◌, [], List, ℕ, All, length, take, drop, IfOk, IfErr};
ghost use Rattle.spp_text.specs.TextDrafts.{AreWholeLines};
ghost use Rattle.spp_shell.specs.Devices.{giving_of};
ghost use Rattle.spp_shell.specs.Encode.{IsEncodeText, IsOneEncodeLine};
ghost use Rattle.spp_shell.specs.Inputs.{IsInputRefused};
ghost use Rattle.spp_shell.specs.TextSoFar.{IsTextSoFar};
ghost use Rattle.spp_shell.specs.Tasks.{IfLine};
ghost use Rattle.spp_shell.specs.declared.place.Place.TheVariants.{Only};

use crate::input::refusal_of_read;
use crate::place::Place;
use crate::reading::{INPUT_LIMIT, PIECE, ReadFault, make_room, move_to_front};
use crate::reading_on::read_more;
use crate::refusal::Refusal;
use crate::source::Source;
use crate::text_so_far::TextSoFar;
use bumpalo::Bump;
use memchr::memrchr;
use std::alloc::Global;

/// How many of these bytes, from the first on, are whole lines.
fn whole_len(bytes: &[u8]) -> usize
    ensures within { result ≤ length bytes.now }
    ensures ends { AreWholeLines (take result bytes.now) }
    ensures last { All (λ b. b ≢ 10) (drop result bytes.now) }
{
    match memrchr(b'\n', bytes) {
        Some(at) => at + 1,
        None => 0,
    }
}

/// Goes over the whole lines of the first `filled` of these bytes, where they are `due` bytes or more. Moves what is left to
/// the front, and gives its length.
///
/// # Errors
///
/// Those of [`TextSoFar::followed_by`].
fn go_over_block<'n>(
    alloc: Global,
    so_far: TextSoFar<'n>,
    bytes: &mut Vec<u8>,
    filled: usize,
    due: usize,
) -> Result<(TextSoFar<'n>, usize), Refusal>
    requires { filled ≤ length bytes.old.items }
    ensures come { (before : List ℕ) → IsTextSoFar so_far.entry before → AreWholeLines before → IfOk result (λ r. IsTextSoFar r.0 (before ++ take (filled - r.1) bytes.old.items) × AreWholeLines (before ++ take (filled - r.1) bytes.old.items)) }
    ensures left { IfOk result (λ r. take r.1 bytes.new.items ≡ drop (filled - r.1) (take filled bytes.old.items)) }
    ensures within { IfOk result (λ r. r.1 ≤ filled) }
    ensures room { IfOk result (λ r. length bytes.new.items ≡ length bytes.old.items) }
    ensures refused { (before : List ℕ) → IsTextSoFar so_far.entry before → AreWholeLines before → IfErr result (λ refusal. IfLine refusal (λ line. (more : List ℕ) → IsOneEncodeLine ((before ++ take filled bytes.old.items) ++ more) line)) }
{
    if filled < due {
        return Ok((so_far, filled));
    }
    let whole = whole_len(&bytes[..filled]);
    let so_far = so_far.followed_by(alloc, &bytes[..whole])?;
    move_to_front(bytes, whole, filled);
    Ok((so_far, filled - whole))
}

/// The bytes of the trace that an input names as a text, or why there are none.
///
/// The text is read in blocks of whole lines, and to its end behind a fault, since one that isn't UTF-8 is refused for that.
/// The time is linear in its length, but for about S log S comparisons of names, S being the number of sites. The memory is
/// 16 bytes for each event, with room for as many more, that of the names, and up to about three times the longest line,
/// but 131,072 bytes at least, and 16 bytes for each word of a line.
pub(crate) fn encode_input<S: Source>(alloc: Global, source: &mut S) -> Result<Vec<u8>, Refusal>
    ensures text { IfOk result (λ text. (bytes : List ℕ) × (giving_of S.answered S.failed S.failures source.old source.new).Gave bytes × IsEncodeText (bytes ∷ []) text.items) }
    ensures refused { IfErr result (IsInputRefused (giving_of S.answered S.failed S.failures source.old source.new) Only IsOneEncodeLine) }
{
    let names = Bump::new(alloc);
    let mut so_far = TextSoFar::new(alloc, &names);
    let mut bytes: Vec<u8> = Vec::new(alloc);
    let mut filled = 0;
    let mut before = 0;
    let mut due = PIECE;
    for _ in 0..INPUT_LIMIT {
        let (now, left) = go_over_block(alloc, so_far, &mut bytes, filled, due)?;
        // A line that is longer than a block is looked at again when it has doubled.
        if filled >= due {
            due = PIECE.max(2 * left);
        }
        so_far = now;
        before += (filled - left) as u64;
        filled = left;
        make_room(&mut bytes, filled, None)?;
        match read_more(source, &mut bytes, filled, before) {
            Err(fault) => return Err(refusal_of_read(fault, Place::Only)),
            Ok(None) => return so_far.followed_by(alloc, &bytes[..filled])?.end(alloc),
            Ok(Some(more)) => filled = more,
        }
    }
    Err(refusal_of_read(ReadFault::TooLong, Place::Only))
}
