//! A part of a trace.

ghost use Rattle.std.specs.Prelude.{◌≡◌, ◌+◌, ◌<◌, ◌≤◌, length, IfOk, IsOk, Ok};
ghost use Rattle.spp_event.specs.Records.{IsEventOf};
ghost use Rattle.spp_event.specs.Readers.{Stands};
ghost use Rattle.spp_event.specs.Recordings.{InLimits, AreEventsOf, record_at};

use spp_event::{Event, EventFault, Events, Reader, Trace};
use std::marker::Model;

/// A run of events of one trace, which it borrows: some events from a position on.
///
/// Contracts see its trace, its number among the parts of its cut, its first position and its number of events.
#[derive(Drop)]
pub struct Part<'t, 'a> {
    pub(crate) trace: &'t Trace<'a>,
    pub(crate) number: u32,
    pub(crate) first: u32,
    pub(crate) count: u32,
}

impl<'t, 'a> Model for Part<'t, 'a> {
    ghost use Rattle.std.specs.Prelude.{◌+◌, ◌<◌, ◌≤◌, ◌^◌, length};
    ghost use Rattle.spp_cut.specs.Parts.{PartOf};

    ghost Value = { PartOf };

    ghost view = { λ p. record { trace = p.trace.now; number = p.number; first = p.first; count = p.count } };

    ghost invariant = { λ p. (p.first + p.count ≤ length p.trace.now.records) × (p.first + p.count < 2 ^ 32) };
}

impl<'t, 'a> Part<'t, 'a> {
    /// What every part keeps: its events stand in its trace. The trace keeps to the limits of a trace, and each good
    /// record in it is an event of its sites and functions. Its contract is what it is for.
    pub fn keeps_limits(&self)
        ensures within { self.now.first + self.now.count ≤ length self.now.trace.records }
        ensures limits { InLimits self.now.trace }
        ensures events { AreEventsOf (length self.now.trace.sites) (length self.now.trace.funcs) self.now.trace.records }
    {
        self.trace.keeps_limits();
    }

    /// The same part: a value of its own, for a loop that reads its events while it writes elsewhere.
    #[inline(always)]
    pub fn again(&self) -> Part<'t, 'a>
        ensures { result ≡ self.now }
    {
        Part {
            trace: self.trace,
            number: self.number,
            first: self.first,
            count: self.count,
        }
    }

    /// How many parts of its cut come before it.
    pub fn number(&self) -> u32
        ensures { result ≡ self.now.number }
    {
        self.number
    }

    /// The position of its first event, or, where it has none, of the event behind it.
    pub fn first(&self) -> u32
        ensures { result ≡ self.now.first }
    {
        self.first
    }

    /// How many events it has.
    pub fn count(&self) -> u32
        ensures { result ≡ self.now.count }
    {
        self.count
    }

    /// The event at `k` among its events, as its trace has it at that position. It takes no memory, and the time of
    /// [`Trace::event_at`]: to read events in order, take [`Part::events`].
    ///
    /// # Errors
    ///
    /// The first fault of its bytes, in the order of [`EventFault`].
    #[inline(always)]
    pub fn event_at(&self, k: u32) -> Result<Event, EventFault>
        requires { k < self.now.count }
        ensures said { result ≡ record_at self.now.trace.records (self.now.first + k) }
        ensures within { IfOk result (λ e. IsEventOf (length self.now.trace.sites) (length self.now.trace.funcs) e) }
    {
        self.trace.event_at(self.first + k)
    }

    /// What reads its events in order. In a trace of version 2 it walks over 63 items at most to the first, also where
    /// it has no events.
    #[inline(always)]
    pub fn events(&self) -> Events
        ensures { Stands result self.now.trace self.now.first }
    {
        Events::from(self.trace, self.first)
    }

    /// The event at `k` among its events, by a reader that stands there, and stands behind it then. It takes no memory,
    /// and the time of [`Reader::read`].
    ///
    /// # Errors
    ///
    /// The first fault of its bytes, in the order of [`EventFault`].
    #[inline(always)]
    pub fn read_at<R: Reader>(&self, events: &mut R, k: u32) -> Result<Event, EventFault>
        requires inside { k < self.now.count }
        requires here { R.stands events.old self.now.trace (self.now.first + k) }
        ensures said { result ≡ record_at self.now.trace.records (self.now.first + k) }
        ensures within { IfOk result (λ e. IsEventOf (length self.now.trace.sites) (length self.now.trace.funcs) e) }
        ensures next { R.stands events.new self.now.trace (self.now.first + k + 1) }
    {
        events.read(self.trace, self.first + k)
    }

    /// The event at `k` among its events, where one is known to stand, by a reader that stands there, and stands behind
    /// it then. It is told as [`Reader::read_known`] tells it.
    #[inline(always)]
    pub fn read_known_at<R: Reader>(&self, events: &mut R, k: u32) -> Event
        requires inside { k < self.now.count }
        requires good { IsOk (record_at self.now.trace.records (self.now.first + k)) }
        requires here { R.stands events.old self.now.trace (self.now.first + k) }
        ensures said { record_at self.now.trace.records (self.now.first + k) ≡ Ok result }
        ensures within { IsEventOf (length self.now.trace.sites) (length self.now.trace.funcs) result }
        ensures next { R.stands events.new self.now.trace (self.now.first + k + 1) }
    {
        events.read_known(self.trace, self.first + k)
    }
}
