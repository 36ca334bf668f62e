//! Opening the bytes of a trace, or those that one begins with, and how bytes are refused that are none, or of a trace with
//! a bad event.
ghost use Rattle.std.specs.Prelude.{◌≡◌, ◌≢◌, ◌++◌, List, ℕ, IfOk, IfSome, IfErr};
ghost use Rattle.std.specs.String.{string_bytes};
ghost use Rattle.spp_event.specs.Header.{IsTraceOf};
ghost use Rattle.spp_shell.specs.Tasks.{IfLine};
ghost use Rattle.spp_shell.specs.Check.{TellsHeader, header_line, event_line};

use crate::refusal::Refusal;
use spp_event::{HeaderFault, Trace, open_trace};
use spp_frame::Fault;
use std::alloc::{AllocError, Global};

/// The line for a fault of the header.
fn line_of_header(alloc: Global, fault: HeaderFault) -> Result<String, AllocError>
    ensures { IfOk result (λ line. string_bytes line ≡ header_line fault) }
{
    format!(in alloc; "bad header: {fault}\n")
}

/// The line for a bad event.
fn line_of_event(alloc: Global, fault: Fault) -> Result<String, AllocError>
    ensures { IfOk result (λ line. string_bytes line ≡ event_line fault) }
{
    format!(in alloc; "bad event {fault}\n")
}

/// What bytes are answered with whose header has that fault.
pub(crate) fn refusal_of_header(alloc: Global, fault: HeaderFault) -> Refusal
    ensures { IfLine result (λ line. (fault ≢ HeaderFault.Memory) × (line ≡ header_line fault)) }
{
    match fault {
        HeaderFault::Memory => Refusal::Memory,
        _ => Refusal::of_line(line_of_header(alloc, fault)),
    }
}

/// What bytes are answered with that are those of a trace with that bad event.
pub(crate) fn refusal_of_event(alloc: Global, fault: Fault) -> Refusal
    ensures { IfLine result (λ line. line ≡ event_line fault) }
{
    Refusal::of_line(line_of_event(alloc, fault))
}

/// The trace whose bytes these are, or what they are answered with that are none.
pub(crate) fn open_or_refuse<'a>(alloc: Global, bytes: &'a [u8]) -> Result<Trace<'a>, Refusal>
    ensures found { IfOk result (λ t. IsTraceOf bytes.now t) }
    ensures refused { IfErr result (λ refusal. IfLine refusal (λ line. TellsHeader bytes.now line)) }
{
    match open_trace(alloc, bytes) {
        Ok(trace) => Ok(trace),
        Err(fault) => Err(refusal_of_header(alloc, fault)),
    }
}

/// The trace that these bytes are if none follow; none where it may take what follows to tell what is wrong with them: where
/// they end within the header, or where there are too many, and where an allocation failed.
///
/// # Errors
///
/// Where no trace begins with these bytes: the line for them is the same whatever follows.
pub(crate) fn open_front<'a>(alloc: Global, bytes: &'a [u8]) -> Result<Option<Trace<'a>>, Refusal>
    ensures found { IfOk result (λ o. IfSome o (λ t. IsTraceOf bytes.now t)) }
    ensures refused { IfErr result (λ refusal. IfLine refusal (λ line. (more : List ℕ) → TellsHeader (bytes.now ++ more) line)) }
{
    match open_trace(alloc, bytes) {
        Ok(trace) => Ok(Some(trace)),
        Err(fault) => match fault {
            HeaderFault::Short | HeaderFault::Trailing | HeaderFault::Memory => Ok(None),
            _ => Err(refusal_of_header(alloc, fault)),
        },
    }
}
