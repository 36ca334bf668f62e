//! Reading an input whole, or its front.
ghost use Rattle.std.specs.Prelude.{◌≡◌, ◌++◌, List, ℕ, take, IfOk, IfErr};
ghost use Rattle.spp_shell.specs.Tasks.{IfLine};
ghost use Rattle.spp_shell.specs.Check.{TellsHeader};
ghost use Rattle.spp_shell.specs.Devices.{giving_of};
ghost use Rattle.spp_shell.specs.Inputs.{IsInputRefused, NoLine, TellsRead};
ghost use Rattle.spp_shell.specs.Streams.{HasRead, IsFront};

use crate::came::Came;
use crate::header_end::{HeaderEnd, is_opened_early};
use crate::opening::open_front;
use crate::place::Place;
use crate::reading::{INPUT_LIMIT, ReadFault, make_first_room};
use crate::reading_on::{Front, read_on};
use crate::refusal::Refusal;
use crate::source::Source;
use crate::trouble::Trouble;
use std::alloc::Global;

/// What an input is answered with that could not be read whole.
pub(crate) fn refusal_of_read(fault: ReadFault, place: Place) -> Refusal
    ensures { TellsRead place fault result }
{
    match fault {
        ReadFault::Device => Refusal::Unread(Trouble::CannotRead(place)),
        ReadFault::TooLong => Refusal::Unread(Trouble::TooLong(place)),
        ReadFault::Memory => Refusal::Memory,
    }
}

/// The front of an input, as far as the header of a trace goes or as shows that no trace begins so, or all its bytes where
/// it ends before; or why no more could be read. Where the header ends `header` finds. The hint is what the source told of its length.
pub(crate) fn read_front<S: Source>(
    alloc: Global,
    input: &mut S,
    hint: Option<u64>,
    place: Place,
    header: HeaderEnd,
) -> Result<Front, Refusal>
    ensures read { IfOk result (IsFront S.answered S.failed S.failures input.old input.new) }
    ensures refused { IfErr result (IsInputRefused (giving_of S.answered S.failed S.failures input.old input.new) place NoLine) }
{
    match read_on(input, Came::nothing(alloc), hint, Some(header)) {
        Ok(front) => Ok(front),
        Err(fault) => Err(refusal_of_read(fault, place)),
    }
}

/// All bytes of an input of which that came, with what the source told of its length, or why it could not be read whole.
pub(crate) fn read_rest_or_refuse<S: Source>(
    input: &mut S,
    came: Came,
    hint: Option<u64>,
    place: Place,
) -> Result<Vec<u8>, Refusal>
    ensures read { (s : S) → HasRead S.answered S.failed S.failures came.reads s (take came.filled came.bytes.items) input.old → IfOk result (λ bytes. (giving_of S.answered S.failed S.failures s input.new).Gave bytes.items) }
    ensures refused { (s : S) → HasRead S.answered S.failed S.failures came.reads s (take came.filled came.bytes.items) input.old → IfErr result (IsInputRefused (giving_of S.answered S.failed S.failures s input.new) place NoLine) }
{
    let Came {
        mut bytes,
        filled,
        reads,
    } = came;
    make_first_room(&mut bytes, hint, INPUT_LIMIT);
    let came = Came {
        bytes,
        filled,
        reads,
    };
    match read_on(input, came, hint, None) {
        Ok(Front::Whole(bytes)) => Ok(bytes),
        Ok(Front::Part(_)) => unreachable!(),
        Err(fault) => Err(refusal_of_read(fault, place)),
    }
}

/// Refuses bytes that no trace begins with, where their front is worth opening for its faults alone and [`open_front`] shows
/// them.
fn refuse_early(alloc: Global, bytes: &[u8]) -> Result<(), Refusal>
    ensures { IfErr result (λ refusal. IfLine refusal (λ line. (more : List ℕ) → TellsHeader (bytes.now ++ more) line)) }
{
    if is_opened_early(bytes) {
        open_front(alloc, bytes)?;
    }
    Ok(())
}

/// All bytes of an input, or why it could not be read whole; where no trace begins as it does, it is refused without reading
/// on where [`refuse_early`] shows that.
pub(crate) fn read_trace_or_refuse<S: Source>(
    alloc: Global,
    input: &mut S,
    place: Place,
) -> Result<Vec<u8>, Refusal>
    ensures read { IfOk result (λ bytes. (giving_of S.answered S.failed S.failures input.old input.new).Gave bytes.items) }
    ensures refused { IfErr result (IsInputRefused (giving_of S.answered S.failed S.failures input.old input.new) place TellsHeader) }
{
    let hint = input.hint();
    let front = read_front(alloc, input, hint, place, HeaderEnd::of_few())?;
    let came = match front {
        Front::Whole(bytes) => return Ok(bytes),
        Front::Part(came) => came,
    };
    refuse_early(alloc, came.as_slice())?;
    read_rest_or_refuse(input, came, hint, place)
}
