//! What is known of an open frame, and what its events do to it.

ghost use Rattle.std.specs.Prelude.{◌≡◌, ◌+◌, ◌<◌, ◌^◌};
ghost use Rattle.spp_maxplus.specs.State.{
  equal as equal_burdens,
  start as opened,
  after_strand as strand_added,
  after_child as child_added,
  after_sync as synced,
  close as close_of,
  taken as taken_by,
};

use crate::candidate::{greatest, offer};
use crate::child::ChildKind;

/// What edges of the dag cost beside the strands.
#[derive(Clone, Copy, Debug, Default, PartialEq, Eq)]
pub struct Burdens {
    /// On the edge from a spawn to what follows the child's return in the parent.
    pub continuation: u32,
    /// On the edge from a spawned child's return to the place where its parent waits for it.
    pub join: u32,
}

impl Burdens {
    /// The same burden on edges of both kinds.
    pub fn equal(burden: u32) -> Self
        ensures { result ≡ equal_burdens burden }
    {
        Burdens {
            continuation: burden,
            join: burden,
        }
    }

    /// Each is a number of 32 bits. Its contract is what it is for.
    pub fn are_small(self)
        ensures continuation { self.continuation < 2 ^ 32 }
        ensures join { self.join < 2 ^ 32 }
    {
        let Burdens {
            continuation: _continuation,
            join: _join,
        } = self;
    }
}

/// An open frame, as far as its events have run.
#[derive(Clone, Copy, Debug, Default, PartialEq, Eq)]
pub struct State {
    /// The greatest weight from the frame's opening along its own strands, called children and joined children.
    pub spine: u128,
    /// The greatest weight through a child that is still waited for, with the position of its spawn; of equal ones the
    /// first. None where no child is waited for.
    pub child: Option<(u128, u32)>,
}

impl State {
    /// The state of a frame that was just opened.
    pub fn start() -> Self
        ensures { result ≡ opened }
    {
        State {
            spine: 0,
            child: None,
        }
    }

    /// So many instructions of the frame itself or of called children.
    #[inline(always)]
    pub fn run(&mut self, count: u128)
        requires { self.old.spine + count < 2 ^ 128 }
        ensures { self.new ≡ strand_added count self.old }
    {
        self.spine += count;
    }

    /// A sync, or what comes before a return, which waits as a sync does: no child is waited for any longer.
    #[inline(always)]
    pub fn wait(&mut self)
        ensures { self.new ≡ synced self.old }
    {
        self.spine = greatest(self.spine, &self.child);
        self.child = None;
    }

    /// The return of a child that was entered so at the position `at` and closed with this weight. The burdens are those
    /// of the state: none where spans are measured without them.
    #[inline(always)]
    pub fn receive(&mut self, kind: ChildKind, at: u32, weight: u128, burdens: Burdens)
        requires continuation { self.old.spine + burdens.continuation < 2 ^ 128 }
        requires through { self.old.spine + (weight + burdens.join) < 2 ^ 128 }
        ensures { self.new ≡ child_added burdens kind at weight self.old }
    {
        match kind {
            ChildKind::Called => self.spine += weight,
            ChildKind::Spawned => {
                let joined = weight + u128::from(burdens.join);
                offer(&mut self.child, self.spine + joined, at);
                self.spine += u128::from(burdens.continuation);
            }
        }
    }

    /// The weight with which the frame closes after so many instructions more.
    #[inline(always)]
    pub fn close_after(&self, count: u128) -> u128
        requires { self.now.spine + count < 2 ^ 128 }
        ensures { result ≡ close_of (strand_added count self.now) }
    {
        greatest(self.spine + count, &self.child)
    }

    /// The weight with which the frame closes if it returns now: its span, or its burdened span.
    pub fn close(self) -> u128
        ensures { result ≡ close_of self }
    {
        greatest(self.spine, &self.child)
    }

    /// The spawn of the child through which the greatest weight goes if the frame waits now; none where it goes along
    /// the spine. The child wins against an equal spine.
    pub fn taken(self) -> Option<u32>
        ensures { result ≡ taken_by self }
    {
        match self.child {
            Some((weight, at)) if self.spine <= weight => Some(at),
            _ => None,
        }
    }
}
