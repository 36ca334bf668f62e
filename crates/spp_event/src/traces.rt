//! An opened trace.

ghost use Rattle.std.specs.Prelude.{◌≡◌, ◌+◌, ◌<◌, ◌≤◌, ℕ, length, take, map, slice_index, slice_index_or, [], IfOk, IsOk, Ok};
ghost use Rattle.spp_event.specs.Records.{IsEventOf};
ghost use Rattle.spp_event.specs.Header.{HasGoodNames};
ghost use Rattle.spp_event.specs.Readers.{Stands};
ghost use Rattle.spp_event.specs.Recordings.{InLimits, AreEventsOf, record_at, room, filled, version_number};
ghost use Rattle.spp_event.specs.declared.version.Version.TheVariants.{Two};
ghost use Rattle.spp_event.specs.Items.{items};

use crate::layout::Layout;
use crate::places::count_begun;
use crate::reader::Reader;
use crate::readers::Events;
use crate::records::{Event, EventFault};
use std::marker::Model;

/// An opened trace: its names, its root function, and its events. Names and events are borrowed from the bytes that
/// it was opened from.
///
/// Contracts see it as a recording: the names of its functions and of its sites, the root function, one record for each
/// event, which is that event or what is wrong with its bytes, and the version and the body that they were read from.
#[derive(Drop)]
pub struct Trace<'a> {
    pub(crate) funcs: Vec<&'a str>,
    pub(crate) sites: Vec<&'a str>,
    pub(crate) root: u32,
    pub(crate) count: u32,
    pub(crate) body: &'a [u8],
    pub(crate) layout: Layout,
}

impl<'a> Model for Trace<'a> {
    ghost use Rattle.std.specs.Prelude.{◌≡◌, ◌<◌, ◌≤◌, length, map};
    ghost use Rattle.spp_event.specs.Recordings.{Recording, InLimits, records_of, room, filled};
    ghost use Rattle.spp_event.specs.Header.{HasGoodNames, IsSound};
    ghost use Rattle.spp_event.specs.Places.{version_of, IsLayoutOf};

    ghost Value = { Recording };

    ghost view = { λ t. record {
      funcs = map (λ s. s.now) t.funcs.items;
      sites = map (λ s. s.now) t.sites.items;
      root = t.root;
      records = records_of (version_of t.layout) (length t.sites.items) (length t.funcs.items) t.count t.body.now;
      version = version_of t.layout;
      body = t.body.now;
    } };

    ghost invariant = { λ t.
        IsSound (map (λ s. s.now) t.funcs.items) (map (λ s. s.now) t.sites.items) t.root t.count
        × IsLayoutOf t.layout t.body.now
        × (filled (version_of t.layout) t.body.now ≤ room (version_of t.layout) t.count) };
}

/// Bytes are numbers of 8 bits. Its contract is what it is for.
pub(crate) fn are_bytes(bytes: &[u8])
    ensures { (i : ℕ) → slice_index bytes.now i < 256 }
{}

impl<'a> Trace<'a> {
    /// What every opened trace keeps: the limits of a trace, good names, no more in its body than its events have room
    /// for, and that each good record is an event of its sites and functions. Its contract is what it is for.
    pub fn keeps_limits(&self)
        ensures limits { InLimits self.now }
        ensures names { HasGoodNames self.now }
        ensures room { filled self.now.version self.now.body ≤ room self.now.version (length self.now.records) }
        ensures events { AreEventsOf (length self.now.sites) (length self.now.funcs) self.now.records }
    {
        are_bytes(self.body);
    }

    /// How many events the trace has, bad ones among them: at most 2^28. Its clauses also give out what
    /// [`Trace::keeps_limits`] says.
    pub fn count(&self) -> u32
        ensures count { result ≡ length self.now.records }
        ensures limits { InLimits self.now }
        ensures names { HasGoodNames self.now }
        ensures events { AreEventsOf (length self.now.sites) (length self.now.funcs) self.now.records }
    {
        self.keeps_limits();
        self.count
    }

    /// How many functions it names: 1 to 65,536.
    pub fn funcs(&self) -> u32
        ensures { result ≡ length self.now.funcs }
    {
        self.funcs.len() as u32
    }

    /// How many call sites it names: at most 65,536.
    pub fn sites(&self) -> u32
        ensures { result ≡ length self.now.sites }
    {
        self.sites.len() as u32
    }

    /// Its version, as the number that its first eight bytes end with: 1 or 2.
    pub fn version(&self) -> u8
        ensures { result ≡ version_number self.now.version }
    {
        self.layout.version().number()
    }

    /// How many bytes there are behind its header.
    pub fn body_len(&self) -> u64
        ensures { result ≡ length self.now.body }
    {
        self.body.len() as u64
    }

    /// How many items begin at a byte of the body from `from` on, before `to`; for a trace of version 2. The time is
    /// linear in the number of these bytes.
    pub fn items_between(&self, from: u64, to: u64) -> u32
        requires version { self.now.version ≡ Two }
        requires rising { from ≤ to }
        requires within { to ≤ length self.now.body }
        ensures { length (items (take from self.now.body)) + result ≡ length (items (take to self.now.body)) }
    {
        self.keeps_limits();
        count_begun(self.body, from as usize, to as usize) as u32
    }

    /// The function of the root frame, which is open from the start and closed by the end.
    pub fn root(&self) -> u32
        ensures { result ≡ self.now.root }
    {
        self.root
    }

    /// The name of function `n`, which is below [`Trace::funcs`].
    pub fn func_name(&self, n: u32) -> &'a str
        requires { n < length self.now.funcs }
        ensures { result.now ≡ slice_index_or self.now.funcs n [] }
    {
        self.funcs[n as usize]
    }

    /// The name of call site `n`, which is below [`Trace::sites`].
    pub fn site_name(&self, n: u32) -> &'a str
        requires { n < length self.now.sites }
        ensures { result.now ≡ slice_index_or self.now.sites n [] }
    {
        self.sites[n as usize]
    }

    /// The names of its functions.
    pub(crate) fn func_names(&self) -> &[&'a str]
        ensures { map (λ n. n.now) result.now ≡ self.now.funcs }
    {
        &self.funcs
    }

    /// The names of its call sites.
    pub(crate) fn site_names(&self) -> &[&'a str]
        ensures { map (λ n. n.now) result.now ≡ self.now.sites }
    {
        &self.sites
    }

    /// What reads its events in order.
    pub fn events(&self) -> Events
        ensures { Stands result self.now 0 }
    {
        Events::from(self, 0)
    }

    /// The event at position `i`, which is below [`Trace::count`]. It takes no memory. In version 1 the time is
    /// constant; in version 2 it is linear in the bytes of at most 64 items, of which those of good events have at most
    /// 12 each: to read events in order, take [`Trace::events`].
    ///
    /// # Errors
    ///
    /// The first fault of its bytes, in the order of [`EventFault`].
    #[inline(always)]
    pub fn event_at(&self, i: u32) -> Result<Event, EventFault>
        requires { i < length self.now.records }
        ensures said { result ≡ record_at self.now.records i }
        ensures within { IfOk result (λ e. IsEventOf (length self.now.sites) (length self.now.funcs) e) }
    {
        Events::from(self, i).read(self, i)
    }

    /// The event at a position where one is known to stand: what its bytes say. It leaves out the tests that
    /// [`Trace::event_at`] makes.
    #[inline(always)]
    pub fn known_event(&self, i: u32) -> Event
        requires inside { i < length self.now.records }
        requires good { IsOk (record_at self.now.records i) }
        ensures said { record_at self.now.records i ≡ Ok result }
        ensures within { IsEventOf (length self.now.sites) (length self.now.funcs) result }
    {
        Events::from(self, i).read_known(self, i)
    }
}
