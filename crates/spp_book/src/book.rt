//! The pieces of one job that were accepted, joined as they come.

ghost use Rattle.std.specs.Prelude.{◌≡◌, ◌<◌, ◌≤◌, ◌+◌, ℕ, List, true, false, None, Some, IfOk, IfErr, IfSome, IsOk, OnOk, OnErr, MatchOption, length, replicate, set};
ghost use Rattle.spp_book.specs.Books.{BookView, count_of, is_accepted, end_at, WhyIs, IsPut, AreMet, MeetAt, IsLeftOf, IsOneOrBoth, IsJoinedAt, MissingIs, IsLeast, IsFront};
ghost use Rattle.spp_book.specs.Jobs.{AreNeighbours, IsJoined, IsHandedBack, IsOurs, IsPieceOf};

use crate::job::{Job, JoinRefused};
use crate::piece::{CloseFault, Piece, Refused, Why};
use std::alloc::{AllocError, Global};
use std::marker::Model;

/// A run of neighbouring parts, joined into one content. It is stored at its first part.
#[derive(Drop)]
pub(crate) struct Run<C> {
    /// One past its last part.
    end: u32,
    content: C,
}

/// What has been joined from the first part on.
#[derive(Drop)]
pub struct Front<C> {
    /// How many parts are joined; 0 where the first one wasn't accepted.
    pub parts: u32,
    /// How many parts were accepted in all.
    pub accepted: u32,
    /// What came of the joined ones.
    pub content: Option<C>,
}

/// The accepted pieces of a job. Neighbours are joined as they come, in whatever order.
///
/// A book takes room for all parts when it is made: for each the size of a content and at most 40 bytes. Contracts see the
/// name of the job, which parts were accepted, and the runs of neighbouring parts: where each begins and ends.
#[derive(Drop)]
pub struct Book<'a, J: Job> {
    job: &'a J,
    /// The run that begins at each part.
    runs: Vec<Option<Run<J::Content>>>,
    /// `Some` for each accepted part. For the last part of a run it is the first part of that run; elsewhere it may be old.
    notes: Vec<Option<u32>>,
    /// How many parts were accepted.
    count: u32,
}

impl<'a, J: Job> Model for Book<'a, J> {
    ghost use Rattle.std.specs.Prelude.{◌≡◌, ◌<◌, ◌≤◌, length, map, is_some};
    ghost use Rattle.std.specs.Option.{option_map};
    ghost use Rattle.spp_book.specs.Books.{BookView, count_of, AreRuns, entry};

    ghost Value = { BookView };

    ghost view = { λ b. record {
      name = J.name b.job.now;
      accepted = map is_some b.notes.items;
      runs = map (λ o. option_map (λ r. r.end) o) b.runs.items;
    } };

    ghost invariant = { λ b. record {
      runs : length b.runs.items ≡ J.parts_of (J.name b.job.now);
      notes : length b.notes.items ≡ J.parts_of (J.name b.job.now);
      are : AreRuns (J.parts_of (J.name b.job.now)) (J.is_value (J.name b.job.now)) (entry b.runs.items) (entry b.notes.items);
      counted : b.count ≡ count_of (map is_some b.notes.items);
      some : 0 < J.parts_of (J.name b.job.now);
      most : J.parts_of (J.name b.job.now) ≤ 65536;
    } };
}

/// So many empty places.
fn places<T: Drop>(alloc: Global, count: usize) -> Result<Vec<Option<T>>, AllocError>
    ensures { IfOk result (λ v. v.items ≡ replicate count None) }
{
    let mut places = Vec::with_capacity(alloc, count)?;
    for _place in 0..count {
        places.push(None)?;
    }
    Ok(places)
}

/// Fills one of the places.
fn fill<T: Drop>(places: &mut Vec<Option<T>>, at: usize, item: T)
    requires { at < length places.old.items }
    ensures { places.new.items ≡ set places.old.items at (Some item) }
{
    places[at] = Some(item);
}

/// Two runs as one, where the one begins behind the other; or both again, where an allocation failed.
fn joined<J: Job>(
    alloc: Global,
    left: Run<J::Content>,
    right: Run<J::Content>,
) -> Result<Run<J::Content>, JoinRefused<Run<J::Content>>>
    requires { AreNeighbours J.parts_of J.is_value left.content right.content }
    ensures end { IfOk result (λ r. r.end ≡ right.end) }
    ensures content { IfOk result (λ r. IsJoined J.parts_of J.is_value left.content right.content r.content) }
    ensures ends { IfErr result (λ r. (r.left.end ≡ left.end) × (r.right.end ≡ right.end)) }
    ensures contents { IfErr result (λ r. IsHandedBack J.is_value left.content right.content r.left.content r.right.content) }
{
    let Run {
        end: at,
        content: one,
    } = left;
    let Run { end, content: two } = right;
    match J::join(alloc, one, two) {
        Ok(content) => Ok(Run { end, content }),
        Err(
            JoinRefused {
                left: one,
                right: two,
            },
        ) => Err(JoinRefused {
            left: Run {
                end: at,
                content: one,
            },
            right: Run { end, content: two },
        }),
    }
}

impl<'a, J: Job> Book<'a, J> {
    /// A book that has accepted nothing. It takes time and room for all parts.
    ///
    /// # Errors
    ///
    /// Where an allocation failed.
    pub fn new(alloc: Global, job: &'a J) -> Result<Self, AllocError>
        ensures name { IfOk result (λ b. b.name ≡ J.name job.now) }
        ensures accepted { IfOk result (λ b. b.accepted ≡ replicate (J.parts_of (J.name job.now)) false) }
        ensures runs { IfOk result (λ b. b.runs ≡ replicate (J.parts_of (J.name job.now)) None) }
    {
        let parts = job.parts() as usize;
        Ok(Book {
            job,
            runs: places(alloc, parts)?,
            notes: places(alloc, parts)?,
            count: 0,
        })
    }

    /// The number of accepted parts.
    pub fn accepted(&self) -> u32
        ensures { result ≡ count_of self.now.accepted }
    {
        self.count
    }

    /// Takes a piece in, and joins it with the run that ends where it begins and with the one that begins where it ends.
    /// A join that is refused, since an allocation failed, leaves both runs beside each other; the close tries it again. Contracts let any
    /// join be left to the close. It takes constant time, besides the job's `range` and at most two joins, and no memory but
    /// theirs.
    ///
    /// # Errors
    ///
    /// A stranger or a double is handed back, and the book is unchanged.
    pub fn accept(
        &mut self,
        alloc: Global,
        piece: Piece<J::Content>,
    ) -> Result<(), Refused<J::Content>>
        requires { IsPieceOf (J.parts_of self.old.name) (J.range_of self.old.name) (J.is_value self.old.name) piece.number piece.first piece.events piece.content }
        ensures ours { OnOk result (IsOurs (J.parts_of self.old.name) (J.range_of self.old.name) piece.number piece.first piece.events) }
        ensures fresh { OnOk result (is_accepted self.old.accepted piece.number ≡ false) }
        ensures name { self.new.name ≡ self.old.name }
        ensures accepted { OnOk result (self.new.accepted ≡ set self.old.accepted piece.number true) }
        ensures runs { OnOk result (IsPut piece.number self.old.runs self.new.runs) }
        ensures back { IfErr result (λ r. r.piece ≡ piece) }
        ensures same { OnErr result (self.new ≡ self.old) }
        ensures why { IfErr result (λ r. WhyIs r.why (IsOurs (J.parts_of self.old.name) (J.range_of self.old.name) piece.number piece.first piece.events) (is_accepted self.old.accepted piece.number)) }
    {
        if let Some(why) = self.refusal(&piece) {
            return Err(Refused { piece, why });
        }
        let Piece {
            number,
            content,
            ..
        } = piece;
        let end = self.put(number, content);
        self.join_at(alloc, number);
        self.join_at(alloc, end);
        Ok(())
    }

    /// Why the piece can't be accepted, if it can't.
    fn refusal(&self, piece: &Piece<J::Content>) -> Option<Why>
        ensures { MatchOption result
            (IsOurs (J.parts_of self.now.name) (J.range_of self.now.name) piece.now.number piece.now.first piece.now.events × (is_accepted self.now.accepted piece.now.number ≡ false))
            (λ why. WhyIs why (IsOurs (J.parts_of self.now.name) (J.range_of self.now.name) piece.now.number piece.now.first piece.now.events) (is_accepted self.now.accepted piece.now.number)) }
    {
        let at = piece.number as usize;
        if at >= self.notes.len() {
            return Some(Why::Stranger);
        }
        let (first, events) = self.job.range(piece.number);
        if first != piece.first || events != piece.events {
            return Some(Why::Stranger);
        }
        if self.notes[at].is_some() {
            return Some(Why::Double);
        }
        None
    }

    /// Puts a part in as a run of its own, and says where that ends.
    fn put(&mut self, number: u32, content: J::Content) -> u32
        requires part { number < J.parts_of self.old.name }
        requires fresh { is_accepted self.old.accepted number ≡ false }
        requires value { J.is_value self.old.name number (number + 1) content }
        ensures end { result ≡ number + 1 }
        ensures put { self.new ≡ record self.old { accepted = set self.old.accepted number true; runs = set self.old.runs number (Some (number + 1)) } }
    {
        self.count += 1;
        let at = number as usize;
        let end = number + 1;
        fill(&mut self.runs, at, Run { end, content });
        fill(&mut self.notes, at, number);
        end
    }

    /// Joins the run that ends at a part with the one that begins there, if both are there and no allocation fails.
    fn join_at(&mut self, alloc: Global, at: u32)
        ensures name { self.new.name ≡ self.old.name }
        ensures accepted { self.new.accepted ≡ self.old.accepted }
        ensures runs { IsJoinedAt at self.old.runs self.new.runs }
        ensures whole { end_at self.old.runs 0 ≡ Some (J.parts_of self.old.name) → self.new.runs ≡ self.old.runs }
    {
        if let Some(first) = self.left_of(at) {
            self.join(alloc, first, at);
        }
    }

    /// Where the run begins that ends at a part where another begins, if there are two such runs.
    fn left_of(&self, at: u32) -> Option<u32>
        ensures left { MatchOption result (¬ (AreMet self.now.runs at)) (IsLeftOf self.now.runs at) }
        ensures alone { end_at self.now.runs 0 ≡ Some (J.parts_of self.now.name) → ¬ (AreMet self.now.runs at) }
    {
        let place = at as usize;
        if place == 0 || place >= self.runs.len() || self.runs[place].is_none() {
            return None;
        }
        self.notes[place - 1]
    }

    /// Joins two runs, of which the one ends where the other begins, if no allocation fails.
    fn join(&mut self, alloc: Global, first: u32, at: u32)
        requires { MeetAt self.old.runs first at }
        ensures name { self.new.name ≡ self.old.name }
        ensures accepted { self.new.accepted ≡ self.old.accepted }
        ensures runs { IsOneOrBoth first at self.old.runs self.new.runs }
    {
        let before = first as usize;
        let place = at as usize;
        let right = self.runs[place].take().unwrap();
        let left = self.runs[before].take().unwrap();
        match joined::<J>(alloc, left, right) {
            Ok(run) => {
                fill(&mut self.notes, run.end as usize - 1, first);
                fill(&mut self.runs, before, run);
            }
            Err(JoinRefused { left, right }) => {
                fill(&mut self.runs, before, left);
                fill(&mut self.runs, place, right);
            }
        }
    }

    /// The least part that wasn't accepted.
    fn missing(&self) -> Option<u32>
        ensures { MatchOption result (count_of self.now.accepted ≡ J.parts_of self.now.name) (IsLeast self.now.accepted) }
    {
        for at in 0..self.notes.len() {
            if self.notes[at].is_none() {
                return Some(at as u32);
            }
        }
        None
    }

    /// A copy of what has been joined from the first part on, and how many parts were accepted.
    ///
    /// # Errors
    ///
    /// Where an allocation of the copy was refused.
    pub fn front(&self, alloc: Global) -> Result<Front<J::Content>, AllocError>
        ensures front { IfOk result (λ f. IsFront (J.is_value self.now.name) self.now f) }
        ensures within { IfOk result (λ f. f.parts ≤ f.accepted) }
    {
        let accepted = self.count;
        match &self.runs[0] {
            None => Ok(Front {
                parts: 0,
                accepted,
                content: None,
            }),
            Some(run) => Ok(Front {
                parts: run.end,
                accepted,
                content: Some(J::copy(alloc, &run.content)?),
            }),
        }
    }

    /// The value of all parts. Runs that lie beside each other are joined from the left. It takes a time linear in the
    /// parts, besides the joins.
    ///
    /// # Errors
    ///
    /// `Missing` with the least part that wasn't accepted, or else `Memory` where an allocation failed. A book that is
    /// joined whole needs none.
    pub fn close(self, alloc: Global) -> Result<J::Content, CloseFault>
        ensures all { OnOk result (count_of self.entry.accepted ≡ J.parts_of self.entry.name) }
        ensures joined { end_at self.entry.runs 0 ≡ Some (J.parts_of self.entry.name) → IsOk result }
        ensures value { IfOk result (λ c. J.is_value self.entry.name 0 (J.parts_of self.entry.name) c) }
        ensures missing { IfErr result (λ f. MissingIs f self.entry.accepted) }
    {
        let mut book = self;
        if let Some(number) = book.missing() {
            return Err(CloseFault::Missing { number });
        }
        book.join_all(alloc);
        let Book { runs, .. } = book;
        let mut runs = runs;
        let parts = runs.len();
        match runs[0].take() {
            Some(run) if run.end as usize == parts => Ok(run.content),
            _ => Err(CloseFault::Memory),
        }
    }

    /// Tries each join once, from the left.
    fn join_all(&mut self, alloc: Global)
        ensures name { self.new.name ≡ self.old.name }
        ensures accepted { self.new.accepted ≡ self.old.accepted }
        ensures whole { end_at self.old.runs 0 ≡ Some (J.parts_of self.old.name) → self.new.runs ≡ self.old.runs }
    {
        for at in 0..self.runs.len() {
            self.join_at(alloc, at as u32);
        }
    }
}
