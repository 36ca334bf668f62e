//! Reading all that a source gives up to its end.
ghost use Rattle.std.specs.Prelude.{◌≡◌, ◌+◌, ◌-◌, ◌^◌, ◌<◌, ◌≤◌, length, take, drop, IfOk, IfSome, OnOk, OnErr, IfErr};
ghost use Rattle.std.specs.Option.{option_map};
ghost use Rattle.spp_report.specs.Devices.{Raised};
ghost use Rattle.spp_shell.specs.Reading.{GaveAll};
ghost use Rattle.spp_shell.specs.Refusals.{ReadRefused};

use crate::source::{Source, SourceFault};
use std::alloc::{AllocError, Global};
use thiserror::Error;

/// Why not all could be read.
#[derive(Clone, Copy, Debug, Error, PartialEq, Eq)]
pub enum ReadFault {
    /// The device failed.
    #[error("the source failed")]
    Device,
    /// More bytes came than are allowed, or all reads that are allowed were made and the end was not seen.
    #[error("too many bytes or reads")]
    TooLong,
    /// An allocation failed.
    #[error("out of memory")]
    Memory,
}

/// The most bytes that an input of the program may have, and the most reads that may be made of it: 2^33.
pub const INPUT_LIMIT: u64 = 1 << 33;

/// The bytes that are read at a time, where so many come: enough that the calls of the system cost little.
pub(crate) const PIECE: usize = 65536;

/// How much room is needed where the hint is right: that for all the bytes that are likely to come, but for no more than
/// `most`, and for one piece more, so that the end is seen.
fn likely_room(hint: Option<u64>, most: u64) -> Option<usize> {
    let likely = usize::try_from(hint?.min(most)).ok()?;
    Some(likely.saturating_add(PIECE))
}

/// Makes that room, what is there counted. Where memory for it is refused, none is made.
pub(crate) fn make_first_room(bytes: &mut Vec<u8>, hint: Option<u64>, most: u64)
    ensures { bytes.new.items ≡ bytes.old.items }
{
    if let Some(room) = likely_room(hint, most) {
        let _refused = bytes.reserve_exact(room.saturating_sub(bytes.len()));
    }
}

/// Sees to it that there is room behind the first `filled` bytes. Where there is none it grows by a quarter, but by
/// one piece at least, and to no more than the room that a hint asks for, until as much came.
pub(crate) fn make_room(
    bytes: &mut Vec<u8>,
    filled: usize,
    hint: Option<u64>,
) -> Result<(), AllocError>
    requires { filled ≤ length bytes.old.items }
    ensures room { OnOk result (filled < length bytes.new.items) }
    ensures kept { OnOk result (take filled bytes.new.items ≡ take filled bytes.old.items) }
{
    if filled == bytes.len() {
        if bytes.capacity() < filled + PIECE {
            let grown = PIECE.max(filled / 4);
            let more = match likely_room(hint, INPUT_LIMIT) {
                Some(room) if filled + PIECE <= room => grown.min(room - filled),
                _ => grown,
            };
            bytes.reserve_exact(more)?;
        }
        bytes.resize(filled + PIECE, 0)?;
    }
    Ok(())
}

/// Moves the bytes from `from` to `filled` to the front.
pub(crate) fn move_to_front(bytes: &mut Vec<u8>, from: usize, filled: usize)
    requires start { from ≤ filled }
    requires end { filled ≤ length bytes.old.items }
    ensures room { length bytes.new.items ≡ length bytes.old.items }
    ensures kept { take (filled - from) bytes.new.items ≡ drop from (take filled bytes.old.items) }
{
    bytes.copy_within(from..filled, 0);
}

/// Reads into the room behind the first `filled` bytes.
pub(crate) fn pull_behind<S: Source>(
    source: &mut S,
    bytes: &mut Vec<u8>,
    filled: usize,
) -> Result<Option<usize>, SourceFault>
    requires { filled < length bytes.old.items }
    ensures kept { take filled bytes.new.items ≡ take filled bytes.old.items }
    ensures within { IfOk result (λ o. IfSome o (λ n. filled + n ≤ length bytes.new.items)) }
    ensures room { length bytes.new.items ≡ length bytes.old.items }
    ensures answered { IfOk result (λ o. S.answered source.old (option_map (λ n. take n (drop filled bytes.new.items)) o) source.new) }
    ensures same { OnOk result (S.failures source.new ≡ S.failures source.old) }
    ensures failed { OnErr result (S.failed source.old source.new) }
    ensures raised { OnErr result (Raised (S.failures source.old) (S.failures source.new)) }
{
    source.pull(&mut bytes[filled..])
}

/// All that the source gives up to its end, in at most `turns` reads and at most `most` bytes. An interrupted read
/// is one of them.
///
/// The time is linear in what is read. Room is made once where the source's hint is right; without a hint, and past
/// one, it grows by a quarter of what was read, and by 65,536 bytes at least. Of what is beyond the bytes read at
/// most 65,536 are written to. A hint changes no answer but want of memory: it makes room for at most `most` bytes
/// and 65,536 more, and where memory for that is refused, room is made as without one.
///
/// # Errors
///
/// `Device` where the source failed, at the last read that was made, `TooLong` where a bound was passed, `Memory` where an allocation failed. What
/// was read until then is lost.
pub fn read_within<S: Source>(
    alloc: Global,
    source: &mut S,
    most: u64,
    turns: u64,
) -> Result<Vec<u8>, ReadFault>
    ensures all { IfOk result (λ bytes. GaveAll S.answered turns source.old bytes.items source.new) }
    ensures within { IfOk result (λ bytes. length bytes.items ≤ most) }
    ensures same { OnOk result (S.failures source.new ≡ S.failures source.old) }
    ensures refused { IfErr result (λ fault. ReadRefused S.answered S.failed S.failures most turns source.old fault source.new) }
{
    let mut bytes: Vec<u8> = Vec::new(alloc);
    make_first_room(&mut bytes, source.hint(), most);
    let mut filled = 0;
    for _ in 0..turns {
        let Ok(()) = make_room(&mut bytes, filled, None) else {
            return Err(ReadFault::Memory);
        };
        let Ok(answer) = pull_behind(source, &mut bytes, filled) else {
            return Err(ReadFault::Device);
        };
        let Some(n) = answer else {
            continue;
        };
        if n == 0 {
            bytes.truncate(filled);
            return Ok(bytes);
        }
        filled += n;
        if filled as u64 > most {
            return Err(ReadFault::TooLong);
        }
    }
    Err(ReadFault::TooLong)
}

/// All that the source gives up to its end, in at most 2^33 reads and at most 2^33 bytes: [`read_within`] at
/// [`INPUT_LIMIT`].
///
/// # Errors
///
/// Those of [`read_within`].
pub fn read_all<S: Source>(alloc: Global, source: &mut S) -> Result<Vec<u8>, ReadFault>
    ensures all { IfOk result (λ bytes. GaveAll S.answered (2 ^ 33) source.old bytes.items source.new) }
    ensures within { IfOk result (λ bytes. length bytes.items ≤ 2 ^ 33) }
    ensures same { OnOk result (S.failures source.new ≡ S.failures source.old) }
    ensures refused { IfErr result (λ fault. ReadRefused S.answered S.failed S.failures (2 ^ 33) (2 ^ 33) source.old fault source.new) }
{
    read_within(alloc, source, INPUT_LIMIT, INPUT_LIMIT)
}
