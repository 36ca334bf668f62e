//! Small traces, for tests and examples.

ghost use Rattle.std.specs.Prelude.{IfOk};
ghost use Rattle.std.specs.List.{flat_map};
ghost use Rattle.spp_event.specs.Header.{IsTraceOf};
ghost use Rattle.spp_event.specs.Records.{spelling};
ghost use Rattle.spp_event.specs.Samples.{sample};

use crate::records::Event;
use crate::writing::{Contents, trace_bytes};
use std::alloc::{AllocError, Global};

/// The bytes of a trace of these events, of the functions `main` and `f` and the call site `A`; the root frame runs
/// `main`. It takes time and memory linear in the number of events.
///
/// # Errors
///
/// An allocation failed, or the events aren't at most 2^28 of these functions and this site.
pub fn trace_of(alloc: Global, events: &[Event]) -> Result<Vec<u8>, AllocError>
    ensures { IfOk result (λ bytes. IsTraceOf bytes.items (sample events.now)) }
{
    let contents = Contents {
        funcs: &[b"main".as_slice(), b"f".as_slice()],
        sites: &[b"A".as_slice()],
        root: 0,
        events,
    };
    if events.len() > 1 << 28 || !contents.has_own_events() {
        return Err(AllocError);
    }
    trace_bytes(alloc, &contents)
}
