//! Numbers that threads draw, each once, by one `fetch_add` each.

ghost use Rattle.std.specs.Prelude.{◌≡◌, ◌<◌, ◌≤◌, ◌+◌, ◌-◌, ◌^◌, ℕ, [], ◌∷◌, ◌++◌, false, is_none, IfOk, MatchOption};
ghost use Rattle.spp_book.specs.Counters.{hand, has_past, IsNew, IsEachBelow};

use atomic_table::{Join, Play, Seat, Split, Table, TableRule};
use std::alloc::{AllocError, Global};
use std::collections::LinkedList;
use std::marker::{Brand, PhantomData};

/// What a seat knows: its allowance, that is, for how many workers it stands, and the numbers it drew, in the order of
/// the draws. No value of it is made.
pub(crate) struct Hand {
    pub workers: u64,
    pub drawn: LinkedList<u64>,
}

/// How many parts and workers there are.
#[derive(Clone, Copy)]
pub(crate) struct Bounds {
    pub parts: u32,
    pub workers: u32,
}

/// The rule of the counter.
pub(crate) struct Law;

impl TableRule<u8, Hand, Bounds> for Law {
    ghost use Rattle.spp_book.specs.Counters.{hand, Kept};
    ghost use Rattle.std.specs.Prelude.{[]};

    ghost holds = { λ k s. Kept k.parts k.workers s.words s.views };

    ghost first = { λ k. hand k.workers [] };
}

/// One draw: the number that was found is appended, and wasn't among those of the seat.
pub(crate) struct Draw;

impl Play<u8, Hand> for Draw {
    ghost use Rattle.std.specs.Prelude.{◌≡◌, [], ◌∷◌, ◌++◌};
    ghost use Rattle.spp_book.specs.Counters.{hand, IsNew};

    ghost then = { λ s v found w. record {
      new : w ≡ (hand v.0.workers (v.0.drawn ++ found ∷ []), v.1);
      fresh : IsNew found v.0.drawn;
    } };
}

/// How much of an allowance a split gives away. Each call picks it.
pub(crate) trait Giving {
    ghost given: { ℕ };
}

impl Giving for Brand {
    ghost given = { 0 };
}

/// A split that gives away so much, and no numbers.
pub(crate) struct Give<G: Giving>(PhantomData<G>);

impl<G: Giving> Split<Hand> for Give<G> {
    ghost use Rattle.std.specs.Prelude.{◌-◌, []};
    ghost use Rattle.spp_book.specs.Counters.{hand};

    ghost left = { λ v. hand (v.workers - G.given) v.drawn };

    ghost right = { λ v. hand G.given [] };
}

/// Two hands in one.
pub(crate) struct Together;

impl Join<Hand> for Together {
    ghost use Rattle.std.specs.Prelude.{◌+◌, ◌++◌, []};
    ghost use Rattle.spp_book.specs.Counters.{hand};

    ghost both = { λ v w. hand (v.workers + w.workers) (v.drawn ++ w.drawn) };

    ghost spent = { hand 0 [] };
}

/// The next number, in the one word of a table.
#[derive(Drop)]
pub(crate) struct Counter {
    table: Table<u8, Hand, Bounds, Law, Global>,
    parts: u32,
    ghost one_word: { table.shared.table_id.words ≡ 1 },
    ghost no_slots: { table.shared.table_id.slots ≡ 0 },
    ghost of_parts: { table.shared.key.parts ≡ parts },
}

/// A seat at the counter.
#[derive(Drop)]
pub(crate) struct Holder {
    seat: Seat<u8, Hand>,
    parts: u32,
    workers: u32,
    /// Whether it holds a number that is not below the parts.
    finished: bool,
    ghost bare: { seat.me.1 ≡ [] },
    ghost allowance: { seat.me.0.workers ≡ workers },
    ghost some: { 0 < workers },
    ghost is_finished: { finished ≡ has_past parts seat.me.0.drawn },
}

impl Holder {
    /// Whether it holds a number that is not below the parts.
    pub(crate) fn finished(&self) -> bool
        ensures { result ≡ has_past self.now.parts self.now.seat.me.0.drawn }
    {
        self.finished
    }

    /// Its allowance.
    pub(crate) fn workers(&self) -> u32
        ensures { result ≡ self.now.workers }
    {
        self.workers
    }
}

impl Counter {
    /// A counter at 0, and the seat with the whole allowance.
    ///
    /// # Errors
    ///
    /// Where an allocation failed.
    pub(crate) fn new(
        alloc: Global,
        parts: u32,
        workers: u32,
    ) -> Result<(Counter, Holder), AllocError>
        requires { 0 < workers }
        ensures table { IfOk result (λ r. r.1.seat.table_id ≡ r.0.table.shared.table_id) }
        ensures parts { IfOk result (λ r. (r.0.parts ≡ parts) × (r.1.parts ≡ parts)) }
        ensures workers { IfOk result (λ r. (r.0.table.shared.key.workers ≡ workers) × (r.1.workers ≡ workers)) }
        ensures hand { IfOk result (λ r. r.1.seat.me.0 ≡ hand workers []) }
    {
        let (table, seat) = Table::of_words(alloc, &[0], &Bounds { parts, workers })?;
        let counter = Counter { table, parts };
        let holder = Holder {
            seat,
            parts,
            workers,
            finished: false,
        };
        Ok((counter, holder))
    }

    /// The next number if it is below the parts, or None; the seat holds it in either case.
    pub(crate) fn draw(&self, me: &mut Holder) -> Option<u32>
        requires table { me.old.seat.table_id ≡ self.now.table.shared.table_id }
        requires parts { me.old.parts ≡ self.now.parts }
        requires open { has_past me.old.parts me.old.seat.me.0.drawn ≡ false }
        ensures table { me.new.seat.table_id ≡ me.old.seat.table_id }
        ensures kept { (me.new.parts ≡ me.old.parts) × (me.new.workers ≡ me.old.workers) }
        ensures drawn { MatchOption result
            ((n : ℕ) × (self.now.parts ≤ n) × (me.new.seat.me.0 ≡ hand me.old.workers (me.old.seat.me.0.drawn ++ n ∷ [])))
            (λ n. (n < self.now.parts) × IsNew n me.old.seat.me.0.drawn × (me.new.seat.me.0 ≡ hand me.old.workers (me.old.seat.me.0.drawn ++ n ∷ []))) }
        ensures past { has_past me.new.parts me.new.seat.me.0.drawn ≡ is_none result }
    {
        let found = self.table.shared.fetch_add::<Draw>(&mut me.seat, 0, 1);
        if found < self.parts as u64 {
            Some(found as u32)
        } else {
            me.finished = true;
            None
        }
    }

    /// Splits off a seat with so much of the allowance. The first keeps the numbers.
    pub(crate) fn split(&self, me: Holder, workers: u32) -> (Holder, Holder)
        requires table { (me.seat.table_id ≡ self.now.table.shared.table_id) × (me.parts ≡ self.now.parts) }
        requires open { has_past me.parts me.seat.me.0.drawn ≡ false }
        requires some { 0 < workers }
        requires rest { workers < me.workers }
        ensures table { (result.0.seat.table_id ≡ me.seat.table_id) × (result.1.seat.table_id ≡ me.seat.table_id) }
        ensures parts { (result.0.parts ≡ me.parts) × (result.1.parts ≡ me.parts) }
        ensures workers { (result.0.workers ≡ me.workers - workers) × (result.1.workers ≡ workers) }
        ensures first { result.0.seat.me.0 ≡ hand (me.workers - workers) me.seat.me.0.drawn }
        ensures second { result.1.seat.me.0 ≡ hand workers [] }
    {
        split_as::<Brand>(self, me, workers)
    }

    /// Two seats as one, with both allowances and the numbers of both.
    pub(crate) fn rejoin(&self, me: Holder, other: Holder) -> Holder
        requires table { (me.seat.table_id ≡ self.now.table.shared.table_id) × (other.seat.table_id ≡ self.now.table.shared.table_id) }
        requires parts { other.parts ≡ me.parts }
        requires fits { me.workers + other.workers < 2 ^ 32 }
        ensures table { result.seat.table_id ≡ me.seat.table_id }
        ensures parts { result.parts ≡ me.parts }
        ensures workers { result.workers ≡ me.workers + other.workers }
        ensures both { result.seat.me.0 ≡ hand (me.workers + other.workers) (me.seat.me.0.drawn ++ other.seat.me.0.drawn) }
    {
        let Holder {
            mut seat,
            parts,
            workers: left,
            finished: one,
        } = me;
        let Holder {
            seat: joined,
            parts: _,
            workers: right,
            finished: two,
        } = other;
        self.table.shared.join_seat::<Together>(&mut seat, joined);
        Holder {
            seat,
            parts,
            workers: left + right,
            finished: one || two,
        }
    }

    /// Ends the counter with the seat that has the whole allowance, so all numbers that were drawn.
    pub(crate) fn close(self, me: Holder)
        requires table { me.seat.table_id ≡ self.table.shared.table_id }
        requires whole { me.workers ≡ self.table.shared.key.workers }
        ensures { (n : ℕ) × IsEachBelow n me.seat.me.0.drawn }
    {
        let Counter { table, .. } = self;
        let Holder { seat, .. } = me;
        table.close_with(seat).free();
    }
}

/// The split with its amount picked.
fn split_as<G: Giving>(counter: &Counter, me: Holder, workers: u32) -> (Holder, Holder)
    requires given { workers ≡ G.given }
    requires table { (me.seat.table_id ≡ counter.now.table.shared.table_id) × (me.parts ≡ counter.now.parts) }
    requires open { has_past me.parts me.seat.me.0.drawn ≡ false }
    requires some { 0 < workers }
    requires rest { workers < me.workers }
    ensures table { (result.0.seat.table_id ≡ me.seat.table_id) × (result.1.seat.table_id ≡ me.seat.table_id) }
    ensures parts { (result.0.parts ≡ me.parts) × (result.1.parts ≡ me.parts) }
    ensures workers { (result.0.workers ≡ me.workers - workers) × (result.1.workers ≡ workers) }
    ensures first { result.0.seat.me.0 ≡ hand (me.workers - workers) me.seat.me.0.drawn }
    ensures second { result.1.seat.me.0 ≡ hand workers [] }
{
    let Holder {
        mut seat,
        parts,
        workers: all,
        finished: _,
    } = me;
    let other = counter.table.shared.split_seat::<Give<G>>(&mut seat);
    (
        Holder {
            seat,
            parts,
            workers: all - workers,
            finished: false,
        },
        Holder {
            seat: other,
            parts,
            workers,
            finished: false,
        },
    )
}
