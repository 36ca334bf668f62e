//! Reading on behind what came of a source.
ghost use Rattle.std.specs.Prelude.{◌≡◌, ◌+◌, ◌^◌, ◌<◌, ◌≤◌, ◌++◌, ℕ, List, None, MatchOption, length, take, IfOk, IfSome, IfErr};
ghost use Rattle.spp_shell.specs.Devices.{giving_of};
ghost use Rattle.spp_shell.specs.Streams.{HasRead, IsFront, IsWhole};

use crate::came::Came;
use crate::header_end::HeaderEnd;
use crate::reading::{INPUT_LIMIT, ReadFault, make_room, pull_behind};
use crate::source::Source;

/// What was read of an input.
#[derive(Drop)]
pub(crate) enum Front {
    /// All its bytes.
    Whole(Vec<u8>),
    /// The first of its bytes.
    Part(Came),
}

/// One read more, behind the first `filled` of these bytes, before which `before` others came: how many are filled then
/// (as many as before, where it was interrupted), or `None` at the end.
///
/// # Errors
///
/// `Device` where the source failed, and `TooLong` where more bytes came than are allowed.
pub(crate) fn read_more<S: Source>(
    source: &mut S,
    bytes: &mut Vec<u8>,
    filled: usize,
    before: u64,
) -> Result<Option<usize>, ReadFault>
    requires room { filled < length bytes.old.items }
    requires within { before + filled ≤ 2 ^ 33 }
    ensures within { IfOk result (λ o. IfSome o (λ k. (filled ≤ k) × (k ≤ length bytes.new.items) × (before + k ≤ 2 ^ 33))) }
    ensures kept { take filled bytes.new.items ≡ take filled bytes.old.items }
    ensures read { (n : ℕ) (s : S) (xs : List ℕ) → n < 2 ^ 33 → length xs ≡ before → HasRead S.answered S.failed S.failures n s (xs ++ take filled bytes.old.items) source.old
        → IfOk result (λ o. MatchOption o ((giving_of S.answered S.failed S.failures s source.new).Gave (xs ++ take filled bytes.old.items)) (λ k. HasRead S.answered S.failed S.failures (n + 1) s (xs ++ take k bytes.new.items) source.new)) }
    ensures refused { (n : ℕ) (s : S) (xs : List ℕ) → n < 2 ^ 33 → length xs ≡ before → HasRead S.answered S.failed S.failures n s (xs ++ take filled bytes.old.items) source.old
        → IfErr result (λ fault. (giving_of S.answered S.failed S.failures s source.new).Refused fault) }
{
    let Ok(answer) = pull_behind(source, bytes, filled) else {
        return Err(ReadFault::Device);
    };
    let Some(n) = answer else {
        return Ok(Some(filled));
    };
    if n == 0 {
        return Ok(None);
    }
    let more = filled + n;
    if before + more as u64 > INPUT_LIMIT {
        return Err(ReadFault::TooLong);
    }
    Ok(Some(more))
}

/// Reads on behind what came until the input ends, or, where a header is looked for, until it ends within the bytes or no
/// trace begins with them. The hint is what the source told of its length. The bounds of [`INPUT_LIMIT`] hold for all reads
/// together.
///
/// # Errors
///
/// Those of [`read_within`](crate::read_within).
pub(crate) fn read_on<S: Source>(
    source: &mut S,
    came: Came,
    hint: Option<u64>,
    mut header: Option<HeaderEnd>,
) -> Result<Front, ReadFault>
    ensures read { (s : S) → HasRead S.answered S.failed S.failures came.reads s (take came.filled came.bytes.items) source.old → IfOk result (λ front. IsFront S.answered S.failed S.failures s source.new front) }
    ensures whole { header ≡ None → IfOk result IsWhole }
    ensures refused { (s : S) → HasRead S.answered S.failed S.failures came.reads s (take came.filled came.bytes.items) source.old → IfErr result (λ fault. (giving_of S.answered S.failed S.failures s source.new).Refused fault) }
{
    let Came {
        mut bytes,
        mut filled,
        reads,
    } = came;
    for turn in reads..INPUT_LIMIT {
        if let Some(header) = &mut header
            && header.is_in(&bytes[..filled])
        {
            return Ok(Front::Part(Came {
                bytes,
                filled,
                reads: turn,
            }));
        }
        let Ok(()) = make_room(&mut bytes, filled, hint) else {
            return Err(ReadFault::Memory);
        };
        match read_more(source, &mut bytes, filled, 0) {
            Err(fault) => return Err(fault),
            Ok(None) => {
                bytes.truncate(filled);
                return Ok(Front::Whole(bytes));
            }
            Ok(Some(more)) => filled = more,
        }
    }
    Err(ReadFault::TooLong)
}
