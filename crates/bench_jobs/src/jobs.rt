//! The jobs.

use crate::blocks::Form;
use crate::kinds::Kind;
use crate::runs::{Asked, Recorded, ran};
use spp_request::Command;
use std::alloc::{AllocError, Global};
use std::random::RandomSource;
use std::sync::Wait;
use std::thread::Threads;

/// A job that a user waits for.
#[derive(Clone, Copy)]
pub(crate) enum Job {
    /// Profiles of regular programs as tables, while one is tuned: 4 workers.
    Tune,
    /// Profiles of an irregular program and of a large one: 4 workers.
    Irregular,
    /// The profile of a recursion a million frames deep: 2 workers.
    Deep,
    /// Checks and figures of programs of all kinds: 2 workers.
    Quick,
    /// Traces are kept in version 2, checked and profiled: 2 workers.
    Keep,
    /// Two runs that were recorded as text are encoded and compared: 2 workers.
    Compare,
}

impl Job {
    /// The job of this name.
    pub(crate) fn of(name: &str) -> Option<Job> {
        match name {
            "tune" => Some(Job::Tune),
            "irregular" => Some(Job::Irregular),
            "deep" => Some(Job::Deep),
            "quick" => Some(Job::Quick),
            "keep" => Some(Job::Keep),
            "compare" => Some(Job::Compare),
            _ => None,
        }
    }
}

/// How runs are made.
#[derive(Clone, Copy)]
pub(crate) struct Desk {
    pub(crate) seed: u32,
    /// Whether steps have a hundredth of the events.
    pub(crate) small: bool,
}

impl Desk {
    /// A run of this kind, of so many steps of about so many thousand events each.
    fn recorded(
        self,
        alloc: Global,
        kind: Kind,
        form: Form,
        thousands: u32,
        times: u32,
    ) -> Result<Recorded, AllocError> {
        let each = if self.small { 10 } else { 1000 };
        let events = thousands.saturating_mul(each);
        let seed = u64::from(self.seed) << 8 | u64::from(thousands) & 0xff;
        Recorded::new(alloc, kind, form, seed, events, times)
    }
}

/// What one run of the program is done over.
#[derive(Drop)]
struct Work<'r, R> {
    rt: &'r R,
    alloc: Global,
    desk: Desk,
    lines: String,
}

impl<'r, R: Threads + Wait + Sync + RandomSource> Work<'r, R> {
    /// Runs the program over one run.
    fn one(&mut self, asked: Asked, run: &Recorded) -> Result<Vec<u8>, AllocError> {
        let none = Recorded::whole(self.alloc, Vec::new(self.alloc));
        ran(self.rt, self.alloc, &mut self.lines, asked, run, &none)
    }

    /// A run of this kind, of so many steps of about so many thousand events each.
    fn recorded(&self, kind: Kind, thousands: u32, times: u32) -> Result<Recorded, AllocError> {
        self.desk
            .recorded(self.alloc, kind, Form::Records, thousands, times)
    }

    /// The profile of a run.
    fn profiled(
        &mut self,
        kind: Kind,
        asked: Asked,
        thousands: u32,
        times: u32,
    ) -> Result<(), AllocError> {
        let run = self.recorded(kind, thousands, times)?;
        self.one(asked, &run)?;
        Ok(())
    }

    fn tune(&mut self) -> Result<(), AllocError> {
        let asked = Asked {
            command: Command::Profile,
            csv: true,
            workers: 4,
        };
        self.profiled(Kind::Fib, asked, 1000, 20)?;
        self.profiled(Kind::Halves, asked, 1100, 18)?;
        self.profiled(Kind::Wide, asked, 900, 20)
    }

    fn irregular(&mut self) -> Result<(), AllocError> {
        let asked = Asked::new(Command::Profile, 4);
        self.profiled(Kind::Irregular, asked, 1000, 12)?;
        self.profiled(Kind::Large, asked, 1000, 12)
    }

    fn deep(&mut self) -> Result<(), AllocError> {
        self.profiled(Kind::Deep, Asked::new(Command::Profile, 2), 4000, 3)
    }

    fn quick(&mut self) -> Result<(), AllocError> {
        let kinds = [
            Kind::Fib,
            Kind::Halves,
            Kind::Wide,
            Kind::Irregular,
            Kind::Large,
        ];
        for kind in kinds {
            let run = self.recorded(kind, 500, 12)?;
            self.one(Asked::new(Command::Check, 1), &run)?;
            let run = self.recorded(kind, 600, 10)?;
            self.one(Asked::new(Command::Figures, 2), &run)?;
        }
        Ok(())
    }

    fn keep(&mut self) -> Result<(), AllocError> {
        for kind in [Kind::Fib, Kind::Irregular, Kind::Large] {
            let run = self.recorded(kind, 1000, 4)?;
            let bytes = self.one(Asked::new(Command::Migrate, 1), &run)?;
            let kept = Recorded::whole(self.alloc, bytes);
            self.one(Asked::new(Command::Check, 1), &kept)?;
            self.one(Asked::new(Command::Figures, 2), &kept)?;
            self.one(Asked::new(Command::Profile, 2), &kept)?;
        }
        Ok(())
    }

    /// The bytes of a run that was recorded as text.
    fn encoded(&mut self, kind: Kind, thousands: u32, times: u32) -> Result<Recorded, AllocError> {
        let text = self
            .desk
            .recorded(self.alloc, kind, Form::Lines, thousands, times)?;
        let bytes = self.one(Asked::new(Command::Encode, 1), &text)?;
        Ok(Recorded::whole(self.alloc, bytes))
    }

    fn compare(&mut self) -> Result<(), AllocError> {
        for kind in [Kind::Halves, Kind::Large] {
            let before = self.encoded(kind, 500, 6)?;
            let after = self.encoded(kind, 600, 5)?;
            let asked = Asked::new(Command::Compare, 2);
            ran(self.rt, self.alloc, &mut self.lines, asked, &before, &after)?;
        }
        Ok(())
    }
}

/// Does a job, and gives the lines about it.
pub(crate) fn done<R: Threads + Wait + Sync + RandomSource>(
    rt: &R,
    alloc: Global,
    job: Job,
    desk: Desk,
) -> Result<String, AllocError> {
    let mut work = Work {
        rt,
        alloc,
        desk,
        lines: String::new(alloc),
    };
    match job {
        Job::Tune => work.tune()?,
        Job::Irregular => work.irregular()?,
        Job::Deep => work.deep()?,
        Job::Quick => work.quick()?,
        Job::Keep => work.keep()?,
        Job::Compare => work.compare()?,
    }
    Ok(work.lines)
}
