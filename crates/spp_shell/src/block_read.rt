//! Reading an input block by block.
ghost use Rattle.std.specs.Prelude.{◌≡◌, ◌+◌, ◌^◌, ◌≤◌, take, IfOk, IfErr};
ghost use Rattle.spp_shell.specs.BlockReads.{IsNextBlock, IsNoBlock};

use crate::came::Came;
use crate::reading::{INPUT_LIMIT, ReadFault, make_room};
use crate::reading_on::read_more;
use crate::source::Source;

/// Where more reads gave less than there was room for, a block came piecemeal, as from a pipe: to read the next one takes long.
const FEW_READS: u32 = 4;

/// What came of an input until a block of it was there, or it ended.
#[derive(Drop)]
pub(crate) struct NextBlock {
    /// What came behind the last block.
    pub(crate) came: Came,
    /// The input ended.
    pub(crate) ended: bool,
    /// More than a few reads gave less than there was room for. No clause says so: answers don't depend on it.
    pub(crate) piecemeal: bool,
}

/// Reads on behind what came until there are `due` bytes, or the input ends. `before` others came before them.
///
/// # Errors
///
/// Those of [`read_within`](crate::read_within).
pub(crate) fn read_block<S: Source>(
    source: &mut S,
    came: Came,
    before: u64,
    due: usize,
) -> Result<NextBlock, ReadFault>
    requires { before + came.filled ≤ 2 ^ 33 }
    ensures next { IfOk result (λ next. IsNextBlock S.answered S.failed S.failures before due came.reads (take came.filled came.bytes.items) source.old next source.new) }
    ensures refused { IfErr result (λ fault. IsNoBlock S.answered S.failed S.failures before came.reads (take came.filled came.bytes.items) source.old fault source.new) }
{
    let Came {
        mut bytes,
        mut filled,
        reads,
    } = came;
    let mut short: u32 = 0;
    for turn in reads..INPUT_LIMIT {
        if filled >= due {
            let came = Came {
                bytes,
                filled,
                reads: turn,
            };
            return Ok(NextBlock {
                came,
                ended: false,
                piecemeal: short > FEW_READS,
            });
        }
        let Ok(()) = make_room(&mut bytes, filled, None) else {
            return Err(ReadFault::Memory);
        };
        match read_more(source, &mut bytes, filled, before) {
            Err(fault) => return Err(fault),
            Ok(None) => {
                let came = Came {
                    bytes,
                    filled,
                    reads: turn,
                };
                return Ok(NextBlock {
                    came,
                    ended: true,
                    piecemeal: false,
                });
            }
            Ok(Some(more)) => {
                short = short.saturating_add(u32::from(more < bytes.len()));
                filled = more;
            }
        }
    }
    Err(ReadFault::TooLong)
}
