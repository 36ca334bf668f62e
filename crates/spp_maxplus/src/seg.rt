//! What a strand, a whole child or a sync does to the state of a frame, as three values.

ghost use Rattle.std.specs.Prelude.{◌≡◌, ◌+◌, ◌<◌, ◌≤◌, ◌^◌};
ghost use Rattle.spp_maxplus.specs.declared.state.State.{State as AState};
ghost use Rattle.spp_maxplus.specs.State.{after_strand, after_call, after_spawn, after_sync};
ghost use Rattle.spp_maxplus.specs.Seg.{act, idle as idle_seg, along as along_seg, spawned as spawned_seg, synced as synced_seg, received, then as then_seg, peak, rise};

use crate::candidate::{better, greatest, offer, shifted};
use crate::child::ChildKind;
use crate::state::{Burdens, State};

/// What a list of strands, whole children and syncs of one frame does to the state of that frame. Of the children that
/// its first sync waits for some may have been spawned before it.
#[derive(Clone, Copy, Debug, Default, PartialEq, Eq)]
pub struct Seg {
    /// The greatest weight along the frame from the list's beginning to its first sync, which joins what was waited for
    /// before; none where it has no sync.
    pub head: Option<u128>,
    /// The greatest weight along the frame from there on, later syncs included.
    pub add: u128,
    /// The greatest weight through a child that was spawned after that and is still waited for, counted from there,
    /// with the position of its spawn; of equal ones the first.
    pub offer: Option<(u128, u32)>,
}

impl Seg {
    /// No events.
    pub fn idle() -> Self
        ensures value { result ≡ idle_seg }
        ensures acts { (s : AState) → act result s ≡ s }
    {
        Seg {
            head: None,
            add: 0,
            offer: None,
        }
    }

    /// A strand of that many instructions.
    pub fn strand(count: u64) -> Self
        ensures value { result ≡ along_seg count }
        ensures acts { (s : AState) → act result s ≡ after_strand count s }
    {
        Seg {
            head: None,
            add: u128::from(count),
            offer: None,
        }
    }

    /// A called child that closed with this weight.
    pub fn call(weight: u128) -> Self
        ensures value { result ≡ along_seg weight }
        ensures acts { (s : AState) → act result s ≡ after_call weight s }
    {
        Seg {
            head: None,
            add: weight,
            offer: None,
        }
    }

    /// A child that was spawned at the position `at` and closed with this weight. The burdens are those of the states
    /// that it is for: none where spans are measured without them. The weight and the burden of its return must come to
    /// less than 2^127.
    pub fn spawn(at: u32, weight: u128, burdens: Burdens) -> Self
        requires { weight + burdens.join < 2 ^ 127 }
        ensures value { result ≡ spawned_seg at weight burdens }
        ensures acts { (s : AState) → act result s ≡ after_spawn at weight burdens s }
    {
        Seg {
            head: None,
            add: u128::from(burdens.continuation),
            offer: Some((weight + u128::from(burdens.join), at)),
        }
    }

    /// A sync.
    pub fn sync() -> Self
        ensures value { result ≡ synced_seg }
        ensures acts { (s : AState) → act result s ≡ after_sync s }
    {
        Seg {
            head: Some(0),
            add: 0,
            offer: None,
        }
    }

    /// This list and then the next. What the two can add to a state must come to less than 2^127 together.
    pub fn then(self, next: Seg) -> Self
        requires { rise self + rise next < 2 ^ 127 }
        ensures value { result ≡ then_seg self next }
        ensures acts { (s : AState) → act result s ≡ act next (act self s) }
        ensures bound { rise result ≤ rise self + rise next }
    {
        let Some(head) = next.head else {
            return Seg {
                head: self.head,
                add: self.add + next.add,
                offer: better(self.offer, shifted(self.add, next.offer)),
            };
        };
        let most = greatest(self.add + head, &self.offer);
        match self.head {
            None => Seg {
                head: Some(most),
                add: next.add,
                offer: next.offer,
            },
            Some(_) => Seg {
                head: self.head,
                add: most + next.add,
                offer: shifted(most, next.offer),
            },
        }
    }

    /// So many instructions of the frame itself or of called children follow, where the list lies.
    #[inline(always)]
    pub fn run(&mut self, count: u128)
        requires { self.old.add + count < 2 ^ 128 }
        ensures { self.new ≡ then_seg self.old (along_seg count) }
    {
        self.add += count;
    }

    /// A sync follows, where the list lies.
    #[inline(always)]
    pub fn wait(&mut self)
        ensures { self.new ≡ then_seg self.old synced_seg }
    {
        let most = greatest(self.add, &self.offer);
        self.offer = None;
        match self.head {
            None => {
                self.head = Some(most);
                self.add = 0;
            }
            Some(_) => self.add = most,
        }
    }

    /// A child follows that was entered so at the position `at` and closed with this weight, where the list lies. The
    /// burdens are those of the states that it is for.
    #[inline(always)]
    pub fn receive(&mut self, kind: ChildKind, at: u32, weight: u128, burdens: Burdens)
        requires continuation { self.old.add + burdens.continuation < 2 ^ 128 }
        requires through { self.old.add + (weight + burdens.join) < 2 ^ 128 }
        ensures { self.new ≡ then_seg self.old (received burdens kind at weight) }
    {
        match kind {
            ChildKind::Called => self.add += weight,
            ChildKind::Spawned => {
                let joined = weight + u128::from(burdens.join);
                offer(&mut self.offer, self.add + joined, at);
                self.add += u128::from(burdens.continuation);
            }
        }
    }

    /// What the list makes of a state. The greatest weight of the state and what the list can add to it must come to
    /// less than 2^127.
    pub fn apply(&self, state: State) -> State
        requires { peak state + rise self.now < 2 ^ 127 }
        ensures value { result ≡ act self.now state }
        ensures bound { peak result ≤ peak state + rise self.now }
    {
        let synced = match self.head {
            None => state,
            Some(head) => State {
                spine: greatest(state.spine + head, &state.child),
                child: None,
            },
        };
        State {
            spine: synced.spine + self.add,
            child: better(synced.child, shifted(synced.spine, self.offer)),
        }
    }
}
