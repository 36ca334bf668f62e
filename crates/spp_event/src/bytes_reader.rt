//! What reads the events of bytes of a body in order.

ghost use Rattle.std.specs.Prelude.{◌≡◌, ◌+◌, ◌<◌, ℕ, List, IfOk};
ghost use Rattle.spp_event.specs.declared.version.Version.{Version as AVersion};
ghost use Rattle.spp_event.specs.Records.{IsEventOf};
ghost use Rattle.spp_event.specs.Recordings.{count_in, read_at};

use crate::records::{Event, EventFault};

/// Reads the events of bytes that begin with one, in order: as a [`Reader`](crate::Reader), in the same time, where no trace was
/// opened.
pub trait BytesReader: Drop {
    // the version whose events it reads
    ghost version: { AVersion };

    // It stands at this event of the bytes.
    ghost stands: { Self → List ℕ → ℕ → Type 0 };

    /// The event at position `i` of these bytes, in a trace of so many sites and functions, or what is wrong with its bytes
    /// first, in the order of [`EventFault`].
    ///
    /// # Errors
    ///
    /// The first fault of its bytes. The reader stands behind the event then as well.
    fn read_in(&mut self, bytes: &[u8], i: u32, sites: u32, funcs: u32) -> Result<Event, EventFault>
        requires inside { i < count_in version bytes.now }
        requires here { stands self.old bytes.now i }
        ensures said { result ≡ read_at version sites funcs bytes.now i }
        ensures within { IfOk result (λ e. IsEventOf sites funcs e) }
        ensures next { stands self.new bytes.now (i + 1) };
}
