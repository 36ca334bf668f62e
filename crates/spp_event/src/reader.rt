//! What reads the events of a trace in order.

ghost use Rattle.std.specs.Prelude.{◌≡◌, ◌+◌, ◌<◌, ℕ, length, IfOk, IsOk, Ok};
ghost use Rattle.spp_event.specs.Records.{IsEventOf};
ghost use Rattle.spp_event.specs.Recordings.{Recording, record_at};

use crate::records::{Event, EventFault};
use crate::traces::Trace;

/// Reads the events of a trace in order and without memory, each in a constant time in version 1, and in a time linear
/// in the bytes of its item in version 2.
///
/// It borrows no trace: each call names the trace and the position of the event, at which the reader has to stand.
pub trait Reader: Drop {
    // It stands at this event of the trace.
    ghost stands: { Self → Recording → ℕ → Type 0 };

    /// The event at position `i`, or what is wrong with its bytes first, in the order of [`EventFault`].
    ///
    /// # Errors
    ///
    /// The first fault of its bytes. The reader stands behind the event then as well.
    fn read(&mut self, trace: &Trace<'_>, i: u32) -> Result<Event, EventFault>
        requires inside { i < length trace.now.records }
        requires here { stands self.old trace.now i }
        ensures said { result ≡ record_at trace.now.records i }
        ensures within { IfOk result (λ e. IsEventOf (length trace.now.sites) (length trace.now.funcs) e) }
        ensures next { stands self.new trace.now (i + 1) };

    /// The event at position `i`, where one is known to stand: what its bytes say. Its site and function aren't tested,
    /// and in version 1 nothing is.
    fn read_known(&mut self, trace: &Trace<'_>, i: u32) -> Event
        requires inside { i < length trace.now.records }
        requires good { IsOk (record_at trace.now.records i) }
        requires here { stands self.old trace.now i }
        ensures said { record_at trace.now.records i ≡ Ok result }
        ensures within { IsEventOf (length trace.now.sites) (length trace.now.funcs) result }
        ensures next { stands self.new trace.now (i + 1) };
}
