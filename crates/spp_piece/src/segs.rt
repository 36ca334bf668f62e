//! What events do to the two states of a frame, side by side.

ghost use Rattle.std.specs.Prelude.{◌≡◌, ◌+◌, ◌<◌, ◌^◌, IfSome};
ghost use Rattle.spp_piece.specs.Pair.{act as both_act, idle as both_idle, then as both_then, strand as both_strand, sync as both_sync, fed as fed_to, fed_by, added};
ghost use Rattle.spp_piece.specs.Bound.{cost, height, worst};

use crate::pieces::Frame;
use crate::states::{ClosingWeights, States};
use spp_maxplus::{Burdens, ChildKind, Seg};

/// What events do to both states of a frame.
#[derive(Clone, Copy, Debug, Default, PartialEq, Eq)]
pub struct Segs {
    /// Without burdens.
    pub plain: Seg,
    /// With them.
    pub burdened: Seg,
}

impl Segs {
    /// No events.
    pub fn idle() -> Self
        ensures { result ≡ both_idle }
    {
        Segs {
            plain: Seg::idle(),
            burdened: Seg::idle(),
        }
    }

    /// A strand.
    pub fn strand(count: u64) -> Self
        ensures { result ≡ both_strand count }
    {
        let strand = Seg::strand(count);
        Segs {
            plain: strand,
            burdened: strand,
        }
    }

    /// First these events, then those of `next`.
    pub fn then(self, next: Segs) -> Self
        requires { cost self + cost next < 2 ^ 127 }
        ensures { result ≡ both_then self next }
    {
        Segs {
            plain: self.plain.then(next.plain),
            burdened: self.burdened.then(next.burdened),
        }
    }

    /// What the events make of a frame's states.
    pub fn apply(&self, states: States) -> States
        requires { height states + cost self.now < 2 ^ 127 }
        ensures { result ≡ both_act self.now states }
    {
        States {
            plain: self.plain.apply(states.plain),
            burdened: self.burdened.apply(states.burdened),
        }
    }

    /// What a frame's return does to the frame below.
    pub fn fed(burdens: Burdens, frame: &Frame) -> Self
        requires { height frame.now.states + worst burdens < 2 ^ 127 }
        ensures { result ≡ fed_to burdens frame.now }
    {
        let plain = frame.states.plain.close();
        let burdened = frame.states.burdened.close();
        match frame.kind {
            ChildKind::Called => Segs {
                plain: Seg::call(plain),
                burdened: Seg::call(burdened),
            },
            ChildKind::Spawned => Segs {
                plain: Seg::spawn(frame.at, plain, Burdens::default()),
                burdened: Seg::spawn(frame.at, burdened, burdens),
            },
        }
    }

    /// So many instructions of the frame itself or of called children.
    #[inline(always)]
    pub fn run(&mut self, count: u128)
        requires plain { self.old.plain.add + count < 2 ^ 128 }
        requires burdened { self.old.burdened.add + count < 2 ^ 128 }
        ensures { self.new ≡ both_then self.old (both_strand count) }
    {
        self.plain.run(count);
        self.burdened.run(count);
    }

    /// So much of called children.
    #[inline(always)]
    pub fn gain(&mut self, weights: ClosingWeights)
        requires plain { self.old.plain.add + weights.plain < 2 ^ 128 }
        requires burdened { self.old.burdened.add + weights.burdened < 2 ^ 128 }
        ensures { self.new ≡ both_then self.old (added weights) }
    {
        self.plain.run(weights.plain);
        self.burdened.run(weights.burdened);
    }

    /// Its instructions where it does just what a strand of them does, and they fit into 64 bits.
    #[inline(always)]
    pub fn as_strand(&self) -> Option<u64>
        ensures { IfSome result (λ n. self.now ≡ both_strand n) }
    {
        if self.plain.head.is_some() || self.plain.offer.is_some() {
            return None;
        }
        if self.burdened.head.is_some() || self.burdened.offer.is_some() {
            return None;
        }
        if self.plain.add != self.burdened.add {
            return None;
        }
        u64::try_from(self.plain.add).ok()
    }

    /// A sync.
    #[inline(always)]
    pub fn wait(&mut self)
        ensures { self.new ≡ both_then self.old both_sync }
    {
        self.plain.wait();
        self.burdened.wait();
    }

    /// So many instructions, and then the return of a child that was entered at the position `at` and closed with these
    /// weights.
    #[inline(always)]
    pub fn receive(
        &mut self,
        count: u128,
        kind: ChildKind,
        at: u32,
        burdens: Burdens,
        child: ClosingWeights,
    )
        requires plain { self.old.plain.add + count + child.plain < 2 ^ 127 }
        requires burdened { self.old.burdened.add + count + child.burdened < 2 ^ 127 }
        ensures { self.new ≡ both_then (both_then self.old (both_strand count)) (fed_by kind burdens at child.plain child.burdened) }
    {
        self.run(count);
        self.plain
            .receive(kind, at, child.plain, Burdens::default());
        self.burdened.receive(kind, at, child.burdened, burdens);
    }
}
