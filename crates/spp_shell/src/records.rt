//! What goes over the records of a trace as they come.
ghost use Rattle.std.specs.Thread.{IsSync};
ghost use Rattle.std.specs.Prelude.{◌≡◌, ◌+◌, ◌≤◌, ◌^◌, ◌++◌, ℕ, List, length, take, IfOk};
ghost use Rattle.spp_event.specs.Places.{IsJoint};
ghost use Rattle.spp_event.specs.Recordings.{count_in};
ghost use Rattle.spp_event.specs.declared.version.Version.{Version as AVersion};
ghost use Rattle.spp_shell.specs.RecordStreams.{AreWhole};

use spp_event::Version;
use std::alloc::AllocError;
use std::sync::Wait;
use std::thread::Threads;

/// What goes over the records of a trace that come block by block, and keeps what they show.
pub(crate) trait Records: Drop {
    // how many records it has seen
    ghost seen_by: { Self → ℕ };

    // the first has become the second, which has seen these bytes of whole events of that version
    ghost has_seen: { AVersion → Self → Self → List ℕ → Type 0 };

    /// The same behind the first `len` of these bytes as well, which are `count` whole events of that version, and room for other
    /// bytes: a list of any, mostly as long. It may have the runtime start threads.
    ///
    /// # Errors
    ///
    /// Where an allocation failed. No thread is left then.
    fn followed_by<R: Threads + Wait + Sync>(
        self,
        rt: &R,
        version: Version,
        bytes: Vec<u8>,
        len: usize,
        count: u32,
    ) -> Result<(Self, Vec<u8>), AllocError>
        requires shared { IsSync R.row }
        requires within { len ≤ length bytes.items }
        requires counted { count ≡ count_in version (take len bytes.items) }
        requires room { seen_by self + count ≤ 2 ^ 28 }
        requires seen { (first : Self) × (xs : List ℕ) × AreWhole version (seen_by self) xs × IsJoint version xs (take len bytes.items) × has_seen version first self xs }
        ensures count { IfOk result (λ r. seen_by r.0 ≡ seen_by self + count) }
        ensures seen { IfOk result (λ r. (first : Self) (xs : List ℕ) → AreWhole version (seen_by self) xs → IsJoint version xs (take len bytes.items) → has_seen version first self xs → has_seen version first r.0 (xs ++ take len bytes.items)) };

    /// Whether a thread of its own should read on while these go over events; `piecemeal`: the events came in many short reads. No
    /// clause says when: answers don't depend on it.
    fn reads_beside(&self, piecemeal: bool) -> bool;

    /// Lets go of what they showed, and waits for the threads that it had started.
    fn let_go<R: Threads + Wait + Sync>(self, rt: &R);
}
