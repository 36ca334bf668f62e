//! The two states of an open frame side by side, without burdens and with them.

ghost use Rattle.std.specs.Prelude.{◌≡◌, ◌+◌, ◌<◌, ◌^◌};
ghost use Rattle.spp_piece.specs.Pair.{start as both_start, after_strand, after_sync, after_return_by, weights_of};

use spp_maxplus::{Burdens, ChildKind, State};

/// What is known of an open frame.
#[derive(Clone, Copy, Debug, PartialEq, Eq)]
pub struct States {
    /// Without burdens.
    pub plain: State,
    /// With them.
    pub burdened: State,
}

/// The weights with which a frame closes.
#[derive(Clone, Copy)]
pub struct ClosingWeights {
    /// Without burdens.
    pub plain: u128,
    /// With them.
    pub burdened: u128,
}

impl States {
    /// The states of a frame that was just opened.
    pub fn start() -> Self
        ensures { result ≡ both_start }
    {
        States {
            plain: State::start(),
            burdened: State::start(),
        }
    }

    /// So many instructions of the frame itself or of called children.
    #[inline(always)]
    pub fn run(&mut self, count: u128)
        requires plain { self.old.plain.spine + count < 2 ^ 128 }
        requires burdened { self.old.burdened.spine + count < 2 ^ 128 }
        ensures { self.new ≡ after_strand count self.old }
    {
        self.plain.run(count);
        self.burdened.run(count);
    }

    /// A sync.
    #[inline(always)]
    pub fn wait(&mut self)
        ensures { self.new ≡ after_sync self.old }
    {
        self.plain.wait();
        self.burdened.wait();
    }

    /// The weights with which the frame closes after so many instructions more.
    #[inline(always)]
    pub fn weights(&self, count: u128) -> ClosingWeights
        requires plain { self.now.plain.spine + count < 2 ^ 128 }
        requires burdened { self.now.burdened.spine + count < 2 ^ 128 }
        ensures { result ≡ weights_of (after_strand count self.now) }
    {
        ClosingWeights {
            plain: self.plain.close_after(count),
            burdened: self.burdened.close_after(count),
        }
    }

    /// So many instructions, and then the return of a child that was entered at the position `at` and closed with these
    /// weights.
    #[inline(always)]
    pub fn receive(
        &mut self,
        count: u128,
        kind: ChildKind,
        at: u32,
        burdens: Burdens,
        child: ClosingWeights,
    )
        requires plain { self.old.plain.spine + count + child.plain < 2 ^ 127 }
        requires burdened { self.old.burdened.spine + count + child.burdened < 2 ^ 127 }
        ensures { self.new ≡ after_return_by kind burdens at child.plain child.burdened (after_strand count self.old) }
    {
        self.run(count);
        self.plain
            .receive(kind, at, child.plain, Burdens::default());
        self.burdened.receive(kind, at, child.burdened, burdens);
    }
}
