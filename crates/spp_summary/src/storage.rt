//! A summary as it is kept: what each step of a join does to it.
ghost use Rattle.std.specs.Prelude.{◌≡◌, ◌+◌, ◌*◌, ◌<◌, ◌≤◌, ◌^◌, ◌-◌, ℕ, Bool, true, false, List, [], ◌∷◌, ◌++◌, length, reverse, IfOk, OnErr, OnOk, IsOk, Some, None};
ghost use Rattle.std.specs.VecDeque.{deque_len, deque_capacity};
ghost use Rattle.spp_piece.specs.Bound.{worst, cost, height, load, load_returns};
ghost use Rattle.spp_piece.specs.Pair.{act, idle, then as both_then, fed as fed_to};
ghost use Rattle.spp_summary.specs.Storage.{seen, seen_with, seen_before, open_load, with_work, IsLaid};
ghost use Rattle.spp_summary.specs.Returns.{return_of};
ghost use Rattle.spp_summary.specs.Joining.{raised, run_on, before_on, went, left_of, SameStorage, HasRoom};
ghost use Rattle.spp_summary.specs.KeptFrames.{kept_of, past, ran, with_kept, HasKept, AreLaid, outside as outside_of};
ghost use Rattle.spp_piece.specs.Summary.{along_by, summary_ops, play_returns, joined};

use crate::lists::{chained, copied};
use crate::opens::{Kept, Open};
use crate::pending::Pending;
use crate::returns::Returns;
use spp_event::EventFault;
use spp_maxplus::Burdens;
use spp_piece::Segs;
use std::alloc::{AllocError, Global};
use std::collections::VecDeque;

/// The parts of a summary. What has run since a frame was last changed is told by counts.
#[derive(Drop)]
pub(crate) struct Storage {
    /// The unmatched returns, in order.
    pub(crate) returns: Returns,
    /// The open frames, the outermost first.
    pub(crate) opens: VecDeque<Open>,
    /// The states of those frames that have kept ones, in the same order.
    pub(crate) states: VecDeque<Kept>,
    /// What the events after the last unmatched return and up to the work `since` do to the frame that is then the
    /// innermost.
    pub(crate) middle: Segs,
    /// The work where `middle` ends. What has run since then, up to where the outermost open frame was opened or to the
    /// end, follows as one strand.
    pub(crate) since: u128,
    /// The work since the innermost open frame was opened, or from the beginning.
    pub(crate) run: u128,
    /// The work before that.
    pub(crate) before: u128,
    /// The first bad record.
    pub(crate) fault: Option<(u32, EventFault)>,
}

/// The states of a frame, which are kept no longer.
fn take_kept(states: &mut VecDeque<Kept>, kept: bool) -> Kept
    ensures value { result ≡ kept_of kept (reverse states.old.items) }
    ensures states { reverse states.new.items ≡ past kept (reverse states.old.items) }
    ensures capacity { deque_capacity states.new ≡ deque_capacity states.old }
    ensures len { deque_len states.new ≤ deque_len states.old }
{
    if !kept {
        return Kept::fresh();
    }
    match states.pop_back() {
        None => Kept::fresh(),
        Some(last) => last,
    }
}

/// What the return of a frame does to the one below, in the place of what is still to be done to the frame, where that
/// work has run since it was opened.
#[inline(always)]
fn feed(
    states: &mut VecDeque<Kept>,
    child: &Open,
    run: u128,
    burdens: Burdens,
    pending: &mut Pending,
)
    requires counted { (kept_of child.now.kept (reverse states.old.items)).counted ≤ run }
    requires load { height (ran run (kept_of child.now.kept (reverse states.old.items))) + cost pending.old + worst burdens < 2 ^ 127 }
    ensures value { (before : ℕ) → pending.new ≡ fed_to burdens (with_kept before child.now (act pending.old (ran run (kept_of child.now.kept (reverse states.old.items))))) }
    ensures states { reverse states.new.items ≡ past child.now.kept (reverse states.old.items) }
    ensures capacity { deque_capacity states.new ≡ deque_capacity states.old }
    ensures len { deque_len states.new ≤ deque_len states.old }
{
    if pending.pass(run, child) {
        return;
    }
    let kept = take_kept(states, child.kept);
    let now = pending.segs().apply(kept.ran(run));
    *pending = Pending::fed(burdens, &child.frame(0, now));
}

/// From now on the states of the innermost frame are kept.
fn keep(states: &mut VecDeque<Kept>, top: &mut Open)
    requires has { HasKept top.old.kept (reverse states.old.items) }
    requires room { deque_len states.old < deque_capacity states.old }
    ensures states { reverse states.new.items ≡ kept_of top.old.kept (reverse states.old.items) ∷ past top.old.kept (reverse states.old.items) }
    ensures top { top.new ≡ record top.old { kept = true } }
    ensures capacity { deque_capacity states.new ≡ deque_capacity states.old }
    ensures len { deque_len states.new ≤ deque_len states.old + 1 }
{
    if !top.kept {
        states.push_back_reserved(Kept::fresh());
        top.kept = true;
    }
}

impl Storage {
    /// Takes returns of a later piece in, as many as there are open frames, or all. Gives what is still to be done to the
    /// frame that is then the innermost; the work is that where it was opened last. Where returns are left no frame is open;
    /// then what was still to be done comes before the first of them.
    fn return_all(&mut self, burdens: Burdens, returns: &mut Returns) -> Pending
        requires sound { self.old.fault ≡ None }
        requires laid { IsLaid self.old }
        requires work { self.old.before + self.old.run < 2 ^ 127 }
        requires kept { deque_len self.old.opens < length returns.old.items → returns.old.kept < returns.old.kept_room }
        requires load { load burdens (seen self.old) + load_returns burdens returns.old.items < 2 ^ 127 }
        ensures value { (summary_ops burdens).along result (with_work (self.old.before + self.old.run) (seen_before returns.new.items self.new)) ≡ play_returns (summary_ops burdens) returns.old.items (seen self.old) }
        ensures load { load burdens (seen_before returns.new.items self.new) + cost result ≤ load burdens (seen self.old) + load_returns burdens returns.old.items }
        ensures laid { IsLaid self.new }
        ensures fault { self.new.fault ≡ None }
        ensures before { self.new.before + self.new.run ≤ self.old.before + self.old.run }
        ensures returns { self.new.returns ≡ self.old.returns }
        ensures left { length returns.new.items ≡ length returns.old.items - deque_len self.old.opens }
        ensures left_kept { returns.new.kept ≤ returns.old.kept + 1 }
        ensures left_room { returns.new.room ≡ returns.old.room }
        ensures left_kept_room { returns.new.kept_room ≡ returns.old.kept_room }
        ensures opens_capacity { deque_capacity self.new.opens ≡ deque_capacity self.old.opens }
        ensures opens_len { deque_len self.new.opens ≡ deque_len self.old.opens - length returns.old.items }
        ensures states_capacity { deque_capacity self.new.states ≡ deque_capacity self.old.states }
        ensures states_len { deque_len self.new.states ≤ deque_len self.old.states }
    {
        let mut pending = Pending::idle();
        while let Some(unmatched) = returns.pop_front() {
            pending.follow(&unmatched);
            let Some(child) = self.opens.pop_back() else {
                self.leave(&pending.segs(), unmatched.at(), returns);
                return Pending::idle();
            };
            self.close(burdens, &child, &mut pending);
        }
        pending
    }

    /// The return of a frame that is open no longer, after what is still to be done to it. Then that is what is to be
    /// done to the frame below it.
    #[inline(always)]
    fn close(&mut self, burdens: Burdens, child: &Open, pending: &mut Pending)
        requires sound { self.old.fault ≡ None }
        requires laid { AreLaid self.old.run self.old.before (child.now ∷ reverse self.old.opens.items) (reverse self.old.states.items) self.old.since }
        requires work { self.old.before + self.old.run < 2 ^ 127 }
        requires load { load burdens (seen_with child.now self.old) + cost pending.old + worst burdens < 2 ^ 127 }
        ensures value { (at work : ℕ) → (summary_ops burdens).along pending.new (with_work work (seen self.new)) ≡ (summary_ops burdens).ret at ((summary_ops burdens).along pending.old (with_work work (seen_with child.now self.old))) }
        ensures load { load burdens (seen self.new) + cost pending.new ≤ load burdens (seen_with child.now self.old) + cost pending.old + worst burdens }
        ensures laid { IsLaid self.new }
        ensures fault { self.new.fault ≡ None }
        ensures work { self.new.before + self.new.run ≤ self.old.before + self.old.run }
        ensures returns { self.new.returns ≡ self.old.returns }
        ensures opens { self.new.opens ≡ self.old.opens }
        ensures states_capacity { deque_capacity self.new.states ≡ deque_capacity self.old.states }
        ensures states_len { deque_len self.new.states ≤ deque_len self.old.states }
    {
        feed(&mut self.states, child, self.run, burdens, pending);
        self.run = child.gap;
        self.before -= child.gap;
    }

    /// A return with no frame open, after these events, goes before later ones that are left.
    fn leave(&mut self, segs: &Segs, at: u32, left: &mut Returns)
        requires none { self.old.opens.items ≡ [] }
        requires laid { IsLaid self.old }
        requires room { length left.old.items < left.old.room }
        requires kept { left.old.kept < left.old.kept_room }
        requires load { cost (seen self.old).middle + cost segs.now < 2 ^ 127 }
        ensures left { left.new.items ≡ return_of (both_then (seen self.old).middle segs.now) at ∷ left.old.items }
        ensures left_kept { left.new.kept ≤ left.old.kept + 1 }
        ensures left_room { left.new.room ≡ left.old.room }
        ensures left_kept_room { left.new.kept_room ≡ left.old.kept_room }
        ensures value { seen self.new ≡ record (seen self.old) { middle = idle } }
        ensures laid { IsLaid self.new }
        ensures fault { self.new.fault ≡ self.old.fault }
        ensures run { self.new.run ≡ self.old.run }
        ensures before { self.new.before ≡ self.old.before }
        ensures returns { self.new.returns ≡ self.old.returns }
        ensures opens { self.new.opens ≡ self.old.opens }
        ensures states { self.new.states ≡ self.old.states }
    {
        self.middle.run(self.run - self.since);
        left.push_front_reserved(&self.middle.then(*segs), at);
        self.middle = Segs::idle();
        self.since = self.run;
    }

    /// Events of the innermost frame, after which the next one is opened, or the range ends, where that work has run
    /// since it was opened.
    fn change_innermost(&mut self, segs: &Segs, next: u128)
        requires laid { IsLaid self.old }
        requires room { deque_len self.old.states < deque_capacity self.old.states }
        requires load { open_load (seen self.old) + cost segs.now < 2 ^ 127 }
        ensures value { seen self.new ≡ with_work (self.old.before + next) (along_by (seen self.old).frames segs.now (seen self.old)) }
        ensures laid { IsLaid self.new }
        ensures run { self.new.run ≡ next }
        ensures before { self.new.before ≡ self.old.before }
        ensures fault { self.new.fault ≡ self.old.fault }
        ensures returns { self.new.returns ≡ self.old.returns }
        ensures opens_capacity { deque_capacity self.new.opens ≡ deque_capacity self.old.opens }
        ensures opens_len { deque_len self.new.opens ≡ deque_len self.old.opens }
        ensures states_capacity { deque_capacity self.new.states ≡ deque_capacity self.old.states }
        ensures states_len { deque_len self.new.states ≤ deque_len self.old.states + 1 }
    {
        let Some(top) = self.opens.back_mut() else {
            self.middle.run(self.run - self.since);
            self.middle = self.middle.then(*segs);
            self.since = next;
            self.run = next;
            return;
        };
        keep(&mut self.states, top);
        let last = self.states.len() - 1;
        let kept = &mut self.states[last];
        kept.states.run(self.run - kept.counted);
        kept.states = segs.apply(kept.states);
        kept.counted = next;
        self.run = next;
    }

    /// The work before the outermost frame was opened, or that in all.
    fn outside(&self) -> u128
        ensures { result ≡ outside_of self.now.run (reverse self.now.opens.items) }
    {
        match self.opens.front() {
            None => self.run,
            Some(first) => first.gap,
        }
    }

    /// Counts from a piece before this one: of that work, of which that is before its innermost frame, which then runs
    /// up to `next`.
    fn place(&mut self, work: u128, before: u128, next: u128)
        requires { self.old.before + work < 2 ^ 128 }
        ensures opens { reverse self.new.opens.items ≡ raised next (reverse self.old.opens.items) }
        ensures run { self.new.run ≡ run_on next self.old.run (reverse self.old.opens.items) }
        ensures before { self.new.before ≡ before_on work before self.old.before (reverse self.old.opens.items) }
        ensures states { self.new.states ≡ self.old.states }
        ensures fault { self.new.fault ≡ self.old.fault }
        ensures returns { self.new.returns ≡ self.old.returns }
        ensures capacity { deque_capacity self.new.opens ≡ deque_capacity self.old.opens }
        ensures len { deque_len self.new.opens ≡ deque_len self.old.opens }
    {
        match self.opens.front_mut() {
            None => {
                self.run = next;
                self.before = before;
            }
            Some(first) => {
                first.gap = next;
                self.before += work;
            }
        }
    }

    /// Takes room for all that the join with a later piece adds to the lists of either.
    pub(crate) fn make_room(&mut self, right: &mut Storage) -> Result<(), AllocError>
        ensures left { SameStorage self.old self.new }
        ensures right { SameStorage right.old right.new }
        ensures room { OnOk result (HasRoom self.new right.new) }
    {
        let rest = self.opens.len().saturating_sub(right.returns.len());
        self.returns
            .make_room(self.opens.len(), &mut right.returns)?;
        self.states.reserve(1)?;
        if right.opens.len() <= rest {
            let all = rest + right.opens.len();
            self.opens.reserve(all.saturating_sub(self.opens.len()))?;
            self.states.reserve(right.states.len() + 1)
        } else {
            right.opens.reserve(rest)?;
            right.states.reserve((self.states.len() + 1).min(rest))
        }
    }

    /// What a later piece does to the frames that are open, for which there is room: its returns, and its events up to
    /// where it opens its own frames, or to its end. The innermost frame that is left then runs up to there. The returns for
    /// which no frame is left stay with the later piece.
    fn go_on(&mut self, burdens: Burdens, right: &mut Storage)
        requires sound { self.old.fault ≡ None }
        requires left { IsLaid self.old }
        requires right { IsLaid right.old }
        requires room { HasRoom self.old right.old }
        requires load { load burdens (seen self.old) + load burdens (seen right.old) < 2 ^ 127 }
        requires work { self.old.before + self.old.run + (right.old.before + right.old.run) < 2 ^ 127 }
        ensures value { with_work (self.old.before + self.old.run) (seen_before right.new.returns.items self.new) ≡ went burdens (seen self.old) (seen right.old) }
        ensures right { right.new ≡ record right.old { returns = right.new.returns } }
        ensures laid { IsLaid self.new }
        ensures run { self.new.before + self.new.run ≡ self.old.before + self.old.run + outside_of right.old.run (reverse right.old.opens.items) }
        ensures before { self.new.before ≤ self.old.before + self.old.run }
        ensures few { deque_len self.new.states ≤ deque_len self.new.opens }
        ensures fault { self.new.fault ≡ None }
        ensures returns { self.new.returns ≡ self.old.returns }
        ensures left { length right.new.returns.items ≡ length right.old.returns.items - deque_len self.old.opens }
        ensures left_kept { right.new.returns.kept ≤ right.old.returns.kept + 1 }
        ensures left_room { right.new.returns.room ≡ right.old.returns.room }
        ensures left_kept_room { right.new.returns.kept_room ≡ right.old.returns.kept_room }
        ensures opens_capacity { deque_capacity self.new.opens ≡ deque_capacity self.old.opens }
        ensures opens_len { deque_len self.new.opens ≡ left_of self.old right.old }
        ensures states_capacity { deque_capacity self.new.states ≡ deque_capacity self.old.states }
        ensures states_len { deque_len self.new.states ≤ deque_len self.old.states + 1 }
    {
        let end = self.before + self.run + right.outside();
        let pending = self.return_all(burdens, &mut right.returns);
        let next = end - self.before;
        self.change_innermost(&pending.segs().then(right.middle()), next);
    }

    /// This piece and a later one, for the join with which there is room.
    pub(crate) fn absorb(self, burdens: Burdens, right: Storage) -> Storage
        requires left { IsLaid self }
        requires right { IsLaid right }
        requires room { HasRoom self right }
        requires load { load burdens (seen self) + load burdens (seen right) < 2 ^ 127 }
        requires work { self.before + self.run + (right.before + right.run) < 2 ^ 127 }
        ensures value { seen result ≡ joined burdens (seen self) (seen right) }
        ensures laid { IsLaid result }
    {
        let mut left = self;
        let mut right = right;
        if let Some(_) = left.fault {
            return left;
        }
        let work = left.before + left.run;
        left.go_on(burdens, &mut right);
        let into_left = right.opens.len() <= left.opens.len();
        right.place(work, left.before, left.run);
        Storage {
            returns: left.returns.chained(right.returns),
            opens: chained(left.opens, right.opens, into_left),
            states: chained(left.states, right.states, into_left),
            middle: left.middle,
            since: left.since,
            run: right.run,
            before: right.before,
            fault: right.fault,
        }
    }

    /// What the events after the last unmatched return do to the frame that is then the innermost.
    pub(crate) fn middle(&self) -> Segs
        requires laid { IsLaid self.now }
        requires load { cost (seen self.now).middle < 2 ^ 127 }
        ensures { result ≡ (seen self.now).middle }
    {
        let mut middle = self.middle;
        middle.run(self.outside() - self.since);
        middle
    }

    /// The same once more.
    pub(crate) fn copy(&self, alloc: Global) -> Result<Storage, AllocError>
        ensures { IfOk result (λ p. SameStorage self.now p) }
    {
        Ok(Storage {
            returns: self.returns.copy(alloc)?,
            opens: copied(alloc, &self.opens)?,
            states: copied(alloc, &self.states)?,
            middle: self.middle,
            since: self.since,
            run: self.run,
            before: self.before,
            fault: self.fault,
        })
    }
}
