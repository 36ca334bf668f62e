//! The book of a job that several workers share: its numbers are drawn, each once, and its pieces are put.

ghost use Rattle.std.specs.Prelude.{◌≡◌, ◌<◌, ◌≤◌, ◌+◌, ◌-◌, ◌^◌, ℕ, List, [], ◌∷◌, ◌++◌, Some, IfOk, IfErr, IsOk, OnOk, OnErr, MatchOption, true, false, length, set, is_none};
ghost use Rattle.spp_book.specs.Books.{count_of, is_accepted, end_at, WhyIs, IsPut, IsFront, MissingIs};
ghost use Rattle.spp_book.specs.Counters.{has_past, IsNew, IsEachBelow};
ghost use Rattle.spp_book.specs.Desks.{IsOf, IsOpen, IsStranger, IsDoubleOf, IsShort, IsFrontOf};
ghost use Rattle.spp_book.specs.Jobs.{IsOurs, IsPieceOf};

use crate::book::{Book, Front};
use crate::counter::{Counter, Holder};
use crate::job::Job;
use crate::piece::{CloseFault, Piece, Refused};
use std::alloc::{AllocError, Global};
use std::marker::{Brand, Model};
use std::sync::ledger::{Blank, Ledger, Share};
use std::sync::{Mutex, Wait, ledger};

/// What a desk stands for: the ledger that counts the accepted pieces, and the job. Contracts alone see it. The ledger's
/// parts, `N.parts`, are the workers, not the parts of the job.
pub trait Naming: Ledger {
    /// The name of the job.
    ghost job: { List ℕ };
}

/// Each call that names `Brand` picks its own job.
impl Naming for Brand {
    ghost job = { [] };
}

/// What lies under the lock.
#[derive(Drop)]
struct Locked<'a, J: Job, N: Naming> {
    book: Book<'a, J>,
    /// Counts the accepted pieces.
    tally: ledger::Book<N>,
    ghost named: { book.name ≡ N.job },
    ghost flags: { length book.accepted ≡ J.parts_of N.job },
    ghost counted: { count_of book.accepted ≡ tally.total },
}

impl<'a, J: Job, N: Naming> Locked<'a, J, N> {
    /// Puts a piece into the book, which raises the share by one, or hands it back as the book does.
    fn put(
        &mut self,
        alloc: Global,
        share: &mut Share<N>,
        piece: Piece<J::Content>,
    ) -> Result<(), Refused<J::Content>>
        requires piece { IsPieceOf (J.parts_of N.job) (J.range_of N.job) (J.is_value N.job) piece.number piece.first piece.events piece.content }
        requires part { 0 < share.old.parts }
        ensures raised { OnOk result (share.new.amount ≡ share.old.amount + 1) }
        ensures parts { share.new.parts ≡ share.old.parts }
        ensures same { OnErr result (share.new.amount ≡ share.old.amount) }
        ensures back { IfErr result (λ r. r.piece ≡ piece) }
        ensures ours { OnOk result (IsOurs (J.parts_of N.job) (J.range_of N.job) piece.number piece.first piece.events) }
        ensures fresh { OnOk result (is_accepted self.old.book.accepted piece.number ≡ false) }
        ensures why { IfErr result (λ r. WhyIs r.why (IsOurs (J.parts_of N.job) (J.range_of N.job) piece.number piece.first piece.events) (is_accepted self.old.book.accepted piece.number)) }
        ensures stranger { IfErr result (λ r. IsStranger r.why (IsOurs (J.parts_of N.job) (J.range_of N.job) piece.number piece.first piece.events)) }
        ensures double { IfErr result (λ r. share.old.parts ≡ N.parts → IsDoubleOf r.why share.old.amount) }
        ensures accepted { OnOk result (self.new.book.accepted ≡ set self.old.book.accepted piece.number true) }
        ensures runs { OnOk result (IsPut piece.number self.old.book.runs self.new.book.runs) }
        ensures unchanged { OnErr result (self.new.book ≡ self.old.book) }
    {
        let Locked { book, tally, .. } = self;
        tally.audit(share);
        let taken = book.accept(alloc, piece);
        if taken.is_ok() {
            tally.add(share, 1);
        }
        taken
    }

    /// The front of the book, with at least as many accepted parts as the share has.
    fn front(
        &mut self,
        alloc: Global,
        share: &mut Share<N>,
    ) -> Result<Front<J::Content>, AllocError>
        ensures share { (share.new.amount ≡ share.old.amount) × (share.new.parts ≡ share.old.parts) }
        ensures book { self.new.book ≡ self.old.book }
        ensures front { IfOk result (λ f. IsFront (J.is_value N.job) self.old.book f) }
        ensures content { IfOk result (λ f. IsFrontOf (J.is_value N.job) f) }
        ensures own { IfOk result (λ f. share.old.amount ≤ f.accepted) }
        ensures whole { IfOk result (λ f. share.old.parts ≡ N.parts → f.accepted ≡ share.old.amount) }
        ensures within { IfOk result (λ f. f.parts ≤ f.accepted) }
        ensures most { IfOk result (λ f. f.accepted ≤ J.parts_of N.job) }
    {
        self.tally.audit(share);
        self.book.front(alloc)
    }

    /// The value of all parts, as the book gives it. The share of all workers has as many pieces as were accepted.
    fn close(self, alloc: Global, share: Share<N>) -> Result<J::Content, CloseFault>
        requires { share.parts ≡ N.parts }
        ensures all { OnOk result (share.amount ≡ J.parts_of N.job) }
        ensures joined { end_at self.entry.book.runs 0 ≡ Some (J.parts_of N.job) → IsOk result }
        ensures least { IfErr result (λ f. MissingIs f self.entry.book.accepted) }
        ensures value { IfOk result (λ c. J.is_value N.job 0 (J.parts_of N.job) c) }
        ensures missing { IfErr result (λ f. IsShort f share.amount (J.parts_of N.job)) }
    {
        let Locked {
            book,
            mut tally,
            ..
        } = self;
        let mut share = share;
        tally.audit(&mut share);
        book.close(alloc)
    }
}

/// A book under a lock, and the counter of the numbers of its parts.
///
/// Contracts see the table of its counter and the number of parts. A draw, a split and a rejoin take neither the lock nor
/// memory.
#[derive(Drop)]
pub struct Desk<'a, J: Job, N: Naming> {
    counter: Counter,
    locked: Mutex<Locked<'a, J, N>>,
}

impl<'a, J: Job, N: Naming> Model for Desk<'a, J, N> {
    ghost use Rattle.std.specs.Prelude.{◌≡◌};
    ghost use Rattle.spp_book.specs.Desks.{DeskView};

    ghost Value = { DeskView };

    ghost view = { λ d. record { table = d.counter.table.shared.table_id; parts = d.counter.parts } };

    ghost invariant = { λ d. (d.counter.parts ≡ J.parts_of N.job) × (d.counter.table.shared.key.workers ≡ N.parts) };
}

/// A worker's token at a desk. Contracts see for how many workers it stands, the numbers that were drawn with it, and how
/// many of the accepted pieces were put with it.
#[derive(Drop)]
pub struct Pass<N: Naming> {
    holder: Holder,
    share: Share<N>,
}

impl<N: Naming> Model for Pass<N> {
    ghost use Rattle.std.specs.Prelude.{◌≡◌, ◌<◌, ◌^◌};
    ghost use Rattle.spp_book.specs.Desks.{PassView};

    ghost Value = { PassView };

    ghost view = { λ p. record {
      table = p.holder.seat.table_id;
      parts = p.holder.parts;
      workers = p.holder.workers;
      drawn = p.holder.seat.me.0.drawn;
      share = p.share.amount;
    } };

    ghost invariant = { λ p. (p.share.parts ≡ p.holder.workers) × (0 < p.holder.workers) × (N.parts < 2 ^ 32) };
}

impl<N: Naming> Pass<N> {
    /// Whether a draw with it gave `None`.
    pub fn finished(&self) -> bool
        ensures past { result ≡ has_past self.now.parts self.now.drawn }
    {
        self.holder.finished()
    }

    /// For how many workers it stands: into how many passes it can be split.
    pub fn workers(&self) -> u32
        ensures workers { result ≡ self.now.workers }
        ensures some { 0 < result }
    {
        self.holder.workers()
    }
}

impl<'a, J: Job, N: Naming> Desk<'a, J, N> {
    /// A desk with nothing drawn or accepted, and the pass of all workers, 1 to 64. It takes time and room for all parts.
    /// The blank has as many parts as there are workers.
    ///
    /// # Errors
    ///
    /// Where an allocation failed.
    pub fn new(
        alloc: Global,
        blank: Blank,
        job: &'a J,
        workers: u32,
    ) -> Result<(Desk<'a, J, N>, Pass<N>), AllocError>
        requires name { blank.name ≡ N.name }
        requires parts { blank.parts ≡ N.parts }
        requires job { J.name job.now ≡ N.job }
        requires workers { workers ≡ N.parts }
        requires some { 0 < workers }
        requires most { workers ≤ 64 }
        ensures of { IfOk result (λ r. IsOf r.1 r.0) }
        ensures parts { IfOk result (λ r. r.0.parts ≡ J.parts_of N.job) }
        ensures workers { IfOk result (λ r. r.1.workers ≡ workers) }
        ensures drawn { IfOk result (λ r. r.1.drawn ≡ []) }
        ensures share { IfOk result (λ r. r.1.share ≡ 0) }
    {
        let parts = job.parts();
        let book = Book::new(alloc, job)?;
        let (counter, holder) = Counter::new(alloc, parts, workers)?;
        let (tally, share) = blank.open::<N>();
        let locked = Locked { book, tally };
        let desk = Desk {
            counter,
            locked: Mutex::new(locked),
        };
        Ok((desk, Pass { holder, share }))
    }

    /// The next number, which this pass hasn't drawn before, or `None` where it isn't below the parts; then the pass is
    /// finished, and draws no more. That no two passes draw the same number is told at the close. It is one `fetch_add`, and
    /// takes no memory.
    pub fn draw(&self, pass: &mut Pass<N>) -> Option<u32>
        requires of { IsOf pass.old self.now }
        requires open { IsOpen pass.old }
        ensures kept { pass.new ≡ record pass.old { drawn = pass.new.drawn } }
        ensures drawn { MatchOption result
            ((n : ℕ) × (J.parts_of N.job ≤ n) × (pass.new.drawn ≡ pass.old.drawn ++ n ∷ []))
            (λ n. (n < J.parts_of N.job) × IsNew n pass.old.drawn × (pass.new.drawn ≡ pass.old.drawn ++ n ∷ [])) }
        ensures past { has_past pass.new.parts pass.new.drawn ≡ is_none result }
    {
        self.counter.draw(&mut pass.holder)
    }

    /// Splits off a pass for so many of the workers of one that isn't finished. The first pass keeps the pieces and the
    /// numbers. It is one atomic load, and takes no memory.
    pub fn split(&self, pass: Pass<N>, workers: u32) -> (Pass<N>, Pass<N>)
        requires of { IsOf pass self.now }
        requires open { IsOpen pass }
        requires some { 0 < workers }
        requires rest { workers < pass.workers }
        ensures first { result.0 ≡ record pass { workers = pass.workers - workers } }
        ensures second { result.1 ≡ record pass { workers = workers; drawn = []; share = 0 } }
    {
        let Pass { holder, mut share } = pass;
        let (first, second) = self.counter.split(holder, workers);
        let other = share.split_off(workers as u64, 0);
        (
            Pass {
                holder: first,
                share,
            },
            Pass {
                holder: second,
                share: other,
            },
        )
    }

    /// Two passes as one, with the workers, the pieces and the numbers of both. It is one atomic load, and takes no memory.
    pub fn rejoin(&self, pass: Pass<N>, other: Pass<N>) -> Pass<N>
        requires one { IsOf pass self.now }
        requires two { IsOf other self.now }
        ensures { result ≡ record pass { workers = pass.workers + other.workers; drawn = pass.drawn ++ other.drawn; share = pass.share + other.share } }
    {
        let Pass { holder, mut share } = pass;
        let Pass {
            holder: second,
            share: rest,
        } = other;
        share.merge(rest);
        Pass {
            holder: self.counter.rejoin(holder, second),
            share,
        }
    }

    /// Puts a piece into the book, as a piece of this pass. It waits for the lock, and makes the joins under it; besides
    /// these it takes constant time.
    ///
    /// # Errors
    ///
    /// A stranger or a double is handed back, and the pass is unchanged. What lies under the lock has no name out here, so
    /// contracts don't say that it was the double's own part that was accepted before, only that some part was, and that
    /// only where the pass is that of all workers. `Locked::put`, which it calls under the lock, says it.
    pub fn put(
        &self,
        rt: &impl Wait,
        alloc: Global,
        pass: &mut Pass<N>,
        piece: Piece<J::Content>,
    ) -> Result<(), Refused<J::Content>>
        requires of { IsOf pass.old self.now }
        requires piece { IsPieceOf (J.parts_of N.job) (J.range_of N.job) (J.is_value N.job) piece.number piece.first piece.events piece.content }
        ensures kept { pass.new ≡ record pass.old { share = pass.new.share } }
        ensures raised { OnOk result (pass.new.share ≡ pass.old.share + 1) }
        ensures same { OnErr result (pass.new ≡ pass.old) }
        ensures back { IfErr result (λ r. r.piece ≡ piece) }
        ensures ours { OnOk result (IsOurs (J.parts_of N.job) (J.range_of N.job) piece.number piece.first piece.events) }
        ensures why { IfErr result (λ r. IsStranger r.why (IsOurs (J.parts_of N.job) (J.range_of N.job) piece.number piece.first piece.events)) }
        ensures double { IfErr result (λ r. pass.old.workers ≡ N.parts → IsDoubleOf r.why pass.old.share) }
    {
        self.locked.lock(rt).put(alloc, &mut pass.share, piece)
    }

    /// A copy of what has been joined from the first part on, and how many parts were accepted in all: no fewer than are
    /// the pass's own, and of the pass of all workers just these. It waits for the lock, and copies under it. Contracts say
    /// what the content is worth; that the front goes as far as the first run does is said of `Locked::front` alone, which
    /// it calls under the lock.
    ///
    /// # Errors
    ///
    /// Where an allocation of the copy was refused.
    pub fn front(
        &self,
        rt: &impl Wait,
        alloc: Global,
        pass: &mut Pass<N>,
    ) -> Result<Front<J::Content>, AllocError>
        requires of { IsOf pass.old self.now }
        ensures same { pass.new ≡ pass.old }
        ensures content { IfOk result (λ f. IsFrontOf (J.is_value N.job) f) }
        ensures own { IfOk result (λ f. pass.old.share ≤ f.accepted) }
        ensures whole { IfOk result (λ f. pass.old.workers ≡ N.parts → f.accepted ≡ pass.old.share) }
        ensures within { IfOk result (λ f. f.parts ≤ f.accepted) }
        ensures most { IfOk result (λ f. f.accepted ≤ J.parts_of N.job) }
    {
        self.locked.lock(rt).front(alloc, &mut pass.share)
    }

    /// The value of all parts, with the pass of all workers. The numbers that were drawn are 0 to n - 1, for some n, each
    /// once. It takes a time linear in the parts, besides the joins.
    ///
    /// # Errors
    ///
    /// `Missing`, only where fewer pieces were accepted than there are parts, with the least part that wasn't accepted, or
    /// `Memory` where an allocation failed. Of that part contracts say here that no more parts lie before it than were
    /// accepted, and that it is the least at `Locked::close`, which is called on what lay under the lock; it says too that a
    /// book that is joined whole needs no memory.
    pub fn close(
        alloc: Global,
        desk: Desk<'a, J, N>,
        pass: Pass<N>,
    ) -> Result<J::Content, CloseFault>
        requires of { IsOf pass desk }
        requires whole { pass.workers ≡ N.parts }
        ensures all { OnOk result (pass.share ≡ J.parts_of N.job) }
        ensures value { IfOk result (λ c. J.is_value N.job 0 (J.parts_of N.job) c) }
        ensures missing { IfErr result (λ f. IsShort f pass.share (J.parts_of N.job)) }
        ensures drawn { (n : ℕ) × IsEachBelow n pass.drawn }
    {
        let Desk { counter, locked } = desk;
        let Pass { holder, share } = pass;
        counter.close(holder);
        locked.into_inner().close(alloc, share)
    }
}
