//! The steps of workers that draw the parts of one job and put their pieces, one after the other.

ghost use Rattle.std.specs.Prelude.{◌≡◌, ◌<◌, List, [], false, None, IfOk, IfErr, OnErr, length, replicate};
ghost use Rattle.spp_book.specs.Worlds.{WorldView, is_gone, StepIs, MayStep, AreSteps, MayRun};

use crate::book::Book;
use crate::job::Job;
use crate::piece::{Piece, Refused};
use std::alloc::{AllocError, Global};
use std::marker::Model;

/// What a worker does. Workers are numbered from 0.
#[derive(Drop)]
pub enum Step<C> {
    /// It asks for the next part.
    Draw {
        /// The number of the worker.
        worker: u32,
    },
    /// It hands a piece over.
    Put {
        /// The number of the worker.
        worker: u32,
        /// The piece.
        piece: Piece<C>,
    },
    /// It does nothing more.
    Stop {
        /// The number of the worker.
        worker: u32,
    },
}

/// What a step comes to.
#[derive(Drop)]
pub enum Answer<C> {
    /// The number of the part that was drawn; `None` where all were drawn before.
    Drawn(Option<u32>),
    /// The piece is accepted.
    Accepted,
    /// The piece is handed back.
    Refused(Refused<C>),
    /// The worker has stopped.
    Stopped,
    /// Nothing was done: the worker had stopped, or there is none of this number, or it drew again after `None`. A piece
    /// is dropped.
    Ended,
}

/// A book and the workers that fill it. Each draw gives the next part, so each part is drawn at most once.
///
/// A world takes room for all parts and workers when it is made: that of the book, 4 bytes for each part and 2 for each
/// worker. Contracts see the book, the worker of each part that was drawn, which workers drew `None`, and which stopped.
#[derive(Drop)]
pub struct World<'a, J: Job> {
    book: Book<'a, J>,
    /// The number of parts.
    parts: u32,
    /// The worker of each part that was drawn. There is room for all parts.
    draws: Vec<u32>,
    /// Which workers drew `None`.
    none: Vec<bool>,
    /// Which workers have stopped.
    stopped: Vec<bool>,
}

impl<'a, J: Job> Model for World<'a, J> {
    ghost use Rattle.std.specs.Prelude.{◌≡◌, ◌≤◌, length, vec_capacity};
    ghost use Rattle.spp_book.specs.Worlds.{WorldView};

    ghost Value = { WorldView };

    ghost view = { λ w. record {
      book = w.book;
      draws = w.draws.items;
      none = w.none.items;
      stopped = w.stopped.items;
    } };

    ghost invariant = { λ w. record {
      parts : w.parts ≡ J.parts_of w.book.name;
      most : w.parts ≤ 65536;
      same : length w.none.items ≡ length w.stopped.items;
      room : w.parts ≤ vec_capacity w.draws;
      drawn : length w.draws.items ≤ w.parts;
    } };
}

impl<'a, J: Job> World<'a, J> {
    /// A world in which nothing has happened. It takes time and room for all parts and workers.
    ///
    /// # Errors
    ///
    /// Where an allocation failed.
    pub fn new(alloc: Global, job: &'a J, workers: u32) -> Result<Self, AllocError>
        ensures name { IfOk result (λ w. w.book.name ≡ J.name job.now) }
        ensures accepted { IfOk result (λ w. w.book.accepted ≡ replicate (J.parts_of (J.name job.now)) false) }
        ensures runs { IfOk result (λ w. w.book.runs ≡ replicate (J.parts_of (J.name job.now)) None) }
        ensures draws { IfOk result (λ w. w.draws ≡ []) }
        ensures none { IfOk result (λ w. w.none ≡ replicate workers false) }
        ensures stopped { IfOk result (λ w. w.stopped ≡ replicate workers false) }
    {
        let parts = job.parts();
        let workers = workers as usize;
        Ok(World {
            book: Book::new(alloc, job)?,
            parts,
            draws: Vec::with_capacity(alloc, parts as usize)?,
            none: vec![in alloc; false; workers]?,
            stopped: vec![in alloc; false; workers]?,
        })
    }

    /// One step. It takes constant time, besides the joins of contents.
    pub fn step(&mut self, alloc: Global, step: Step<J::Content>) -> Answer<J::Content>
        requires { MayStep (J.parts_of self.old.book.name) (J.range_of self.old.book.name) (J.is_value self.old.book.name) step }
        ensures { StepIs (J.parts_of self.old.book.name) (J.range_of self.old.book.name) self.old step result self.new }
    {
        match step {
            Step::Draw { worker } => self.draw(worker),
            Step::Put { worker, piece } => self.put(alloc, worker, piece),
            Step::Stop { worker } => self.stop(worker),
        }
    }

    /// Whether the worker has stopped, or there is none of this number.
    fn is_gone(&self, worker: u32) -> bool
        ensures gone { result ≡ is_gone self.now worker }
        ensures within { result ≡ false → worker < length self.now.stopped }
    {
        let at = worker as usize;
        at >= self.stopped.len() || self.stopped[at]
    }

    /// The step of a worker that asks for the next part.
    fn draw(&mut self, worker: u32) -> Answer<J::Content>
        ensures { StepIs (J.parts_of self.old.book.name) (J.range_of self.old.book.name) self.old (Step.Draw worker) result self.new }
    {
        let at = worker as usize;
        if self.is_gone(worker) || self.none[at] {
            return Answer::Ended;
        }
        let number = self.draws.len() as u32;
        if number >= self.parts {
            self.none[at] = true;
            return Answer::Drawn(None);
        }
        self.draws.push_reserved(worker);
        Answer::Drawn(Some(number))
    }

    /// The step of a worker that hands a piece over.
    fn put(&mut self, alloc: Global, worker: u32, piece: Piece<J::Content>) -> Answer<J::Content>
        requires { MayStep (J.parts_of self.old.book.name) (J.range_of self.old.book.name) (J.is_value self.old.book.name) (Step.Put worker piece) }
        ensures { StepIs (J.parts_of self.old.book.name) (J.range_of self.old.book.name) self.old (Step.Put worker piece) result self.new }
    {
        if self.is_gone(worker) {
            return Answer::Ended;
        }
        match self.book.accept(alloc, piece) {
            Ok(()) => Answer::Accepted,
            Err(refused) => Answer::Refused(refused),
        }
    }

    /// The step of a worker that does nothing more.
    fn stop(&mut self, worker: u32) -> Answer<J::Content>
        ensures { StepIs (J.parts_of self.old.book.name) (J.range_of self.old.book.name) self.old (Step.Stop worker) result self.new }
    {
        if self.is_gone(worker) {
            return Answer::Ended;
        }
        self.stopped[worker as usize] = true;
        Answer::Stopped
    }

    /// All these steps in order, and the answer to each. It takes linear time, besides the joins of contents.
    ///
    /// # Errors
    ///
    /// Where the allocation of the answers failed. Then no step is done, and the steps are handed back.
    pub fn run_steps(
        &mut self,
        alloc: Global,
        steps: Vec<Step<J::Content>>,
    ) -> Result<Vec<Answer<J::Content>>, Vec<Step<J::Content>>>
        requires { MayRun (J.parts_of self.old.book.name) (J.range_of self.old.book.name) (J.is_value self.old.book.name) steps.items }
        ensures run { IfOk result (λ answers. AreSteps (J.parts_of self.old.book.name) (J.range_of self.old.book.name) self.old steps.items answers.items self.new) }
        ensures back { IfErr result (λ back. back.items ≡ steps.items) }
        ensures same { OnErr result (self.new ≡ self.old) }
    {
        let Ok(mut answers) = Vec::with_capacity(alloc, steps.len()) else {
            return Err(steps);
        };
        for step in steps {
            let answer = self.step(alloc, step);
            answers.push_reserved(answer);
        }
        Ok(answers)
    }

    /// The book of this world.
    pub fn into_book(self) -> Book<'a, J>
        ensures { result ≡ self.entry.book }
    {
        let World { book, .. } = self;
        book
    }
}
