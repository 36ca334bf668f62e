//! The two weights of an open frame, without the position of the child that waits.

ghost use Rattle.std.specs.Prelude.{◌≡◌, ◌+◌, ◌<◌, ◌^◌};
ghost use Rattle.spp_maxplus.specs.Weights.{weights_of, start as opened, close as close_of, after_strand as strand_added, after_sync as synced, after_child as child_added};

use crate::child::ChildKind;
use crate::state::{Burdens, State};

/// An open frame as far as its weights go: a [`State`] without the position of the waiting child's spawn. Whoever needs
/// to know which child waits keeps that beside it.
///
/// [`State`]: crate::State
#[derive(Clone, Copy, Debug, Default, PartialEq, Eq)]
pub struct Weights {
    /// The greatest weight from the frame's opening along its own strands, called children and joined children.
    pub spine: u128,
    /// The greatest weight through a child that is still waited for, or 0.
    pub child: u128,
}

impl Weights {
    /// Those of a frame that was just opened.
    #[inline(always)]
    pub fn start() -> Self
        ensures { result ≡ opened }
    {
        Weights { spine: 0, child: 0 }
    }

    /// Those of a frame that stands so.
    pub fn of(state: State) -> Self
        ensures { result ≡ weights_of state }
    {
        let child = match state.child {
            Some((weight, _)) => weight,
            None => 0,
        };
        Weights {
            spine: state.spine,
            child,
        }
    }

    /// The weight with which the frame closes if it returns now.
    #[inline(always)]
    pub fn close(self) -> u128
        ensures { result ≡ close_of self }
    {
        self.spine.max(self.child)
    }

    /// So many instructions of the frame itself or of called children.
    #[inline(always)]
    pub fn run(&mut self, count: u128)
        requires { self.old.spine + count < 2 ^ 128 }
        ensures { self.new ≡ strand_added count self.old }
    {
        self.spine += count;
    }

    /// A sync, or what comes before a return.
    #[inline(always)]
    pub fn wait(&mut self)
        ensures { self.new ≡ synced self.old }
    {
        self.spine = self.close();
        self.child = 0;
    }

    /// The return of a child that was entered so and closed with this weight. The burdens are those of the weights.
    #[inline(always)]
    pub fn receive(&mut self, kind: ChildKind, weight: u128, burdens: Burdens)
        requires continuation { self.old.spine + burdens.continuation < 2 ^ 128 }
        requires through { self.old.spine + (weight + burdens.join) < 2 ^ 128 }
        ensures { self.new ≡ child_added burdens kind weight self.old }
    {
        match kind {
            ChildKind::Called => self.spine += weight,
            ChildKind::Spawned => {
                let through = self.spine + (weight + u128::from(burdens.join));
                self.child = self.child.max(through);
                self.spine += u128::from(burdens.continuation);
            }
        }
    }
}
