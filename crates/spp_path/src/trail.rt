//! How a path goes on forwards: what of the open frames tells where it runs.

ghost use Rattle.std.specs.Prelude.{◌≡◌, ◌<◌, ◌&&◌, nat_eq, true, false};
ghost use Rattle.spp_path.specs.Flags.{is_called};
ghost use Rattle.spp_path.specs.Trails.{runs, CanSkip, running_trail, skip_trail, leave_trail};

use crate::flags::is_called;
use spp_dag::FrameKind;

/// Where the path goes between two events, told by the open frames.
#[derive(Clone, Copy)]
pub(crate) struct Trail {
    /// How many frames are open that the path doesn't enter. All of them lie within the innermost entered frame.
    skipped: u32,
    /// Whether the innermost entered frame runs on along the path: it waits for no child that the path enters.
    running: bool,
}

impl Trail {
    /// So many open frames that the path doesn't enter, within an entered one that runs on or doesn't.
    pub(crate) fn new(skipped: u32, running: bool) -> Self
        ensures { result ≡ record { skipped = skipped; running = running } }
    {
        Trail { skipped, running }
    }

    /// Whether the innermost open frame is entered, and runs on along the path.
    #[inline(always)]
    pub(crate) fn runs(&self) -> bool
        ensures { result ≡ runs self.now }
    {
        self.skipped == 0 && self.running
    }

    /// Whether the innermost open frame is entered.
    #[inline(always)]
    pub(crate) fn enters(&self) -> bool
        ensures { result ≡ nat_eq self.now.skipped 0 }
    {
        self.skipped == 0
    }

    /// A call: whether the path enters the called frame.
    #[inline(always)]
    pub(crate) fn call(&mut self) -> bool
        requires { CanSkip self.old }
        ensures is { result ≡ runs self.old }
        ensures enters { runs self.old ≡ true → self.new ≡ self.old }
        ensures skips { runs self.old ≡ false → self.new ≡ skip_trail self.old }
    {
        let enters = self.runs();
        if !enters {
            self.skipped += 1;
        }
        enters
    }

    /// A spawn of a child that the path enters, or doesn't: whether it enters the new frame.
    #[inline(always)]
    pub(crate) fn spawn(&mut self, entered: bool) -> bool
        requires { CanSkip self.old }
        ensures is { result ≡ (nat_eq self.old.skipped 0 && entered) }
        ensures enters { (nat_eq self.old.skipped 0 && entered) ≡ true → self.new ≡ running_trail true self.old }
        ensures skips { (nat_eq self.old.skipped 0 && entered) ≡ false → self.new ≡ skip_trail self.old }
    {
        let enters = self.skipped == 0 && entered;
        if enters {
            self.running = true;
        } else {
            self.skipped += 1;
        }
        enters
    }

    /// A sync.
    #[inline(always)]
    pub(crate) fn sync(&mut self)
        ensures waited { self.old.skipped ≡ 0 → self.new ≡ running_trail true self.old }
        ensures skipped { 0 < self.old.skipped → self.new ≡ self.old }
    {
        if self.skipped == 0 {
            self.running = true;
        }
    }

    /// A return: whether the innermost entered frame returns.
    #[inline(always)]
    pub(crate) fn leave(&mut self) -> bool
        ensures is { result ≡ nat_eq self.old.skipped 0 }
        ensures entered { self.old.skipped ≡ 0 → self.new ≡ self.old }
        ensures skipped { 0 < self.old.skipped → self.new ≡ leave_trail self.old }
    {
        let entered = self.skipped == 0;
        if !entered {
            self.skipped -= 1;
        }
        entered
    }

    /// An entered frame has returned that was entered so: the one below it runs on if it called it.
    #[inline(always)]
    pub(crate) fn resume(&mut self, kind: FrameKind)
        ensures { self.new ≡ running_trail (is_called kind) self.old }
    {
        self.running = is_called(kind);
    }
}
