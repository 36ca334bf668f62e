//! A trace while its lines are read.

ghost use Rattle.std.specs.Prelude.{◌≡◌, ◌≢◌, ◌<◌, ◌^◌, if◌then◌else◌, not, true, None, Some, List, ℕ, length, map, unwrap_or, IfOk, OnErr, OnOk};
ghost use Rattle.std.specs.List.{flat_map};
ghost use Rattle.std.specs.Str.{bytes_eq};
ghost use Rattle.spp_event.specs.NameSets.{has};
ghost use Rattle.spp_event.specs.Header.{IsTraceOf, header_spelling};
ghost use Rattle.spp_event.specs.Records.{names_site, names_func, spelling, IsEvent};
ghost use Rattle.spp_text.specs.Reading.{nothing, has_event, begins_with, number_in, event_in, opening_fault, read_func, read_site, read_root, set_root as set_root_to, add_event as adds_event, read_event, read_words, read_line};
ghost use Rattle.spp_text.specs.Parsed.{Reads, recording_of};
ghost use Rattle.spp_text.specs.Drafts.{begun, with_event};
ghost use Rattle.spp_text.specs.Steps.{AfterFront};

use crate::events::{event_of, short_number};
use crate::fault::TextWhy;
use crate::record::{push_record, set_count};
use crate::words::words_of;
use bumpalo::Bump;
use spp_event::{Contents, Event, is_name, is_root_name, trace_bytes};
use std::alloc::{AllocError, Global};
use std::collections::BTreeSet;
use std::marker::Model;

/// What the lines that were read have said of a trace.
#[derive(Drop)]
pub(crate) struct Draft<'n> {
    /// The arena with the names.
    names: &'n Bump,
    funcs: Vec<&'n [u8]>,
    sites: Vec<&'n [u8]>,
    site_names: BTreeSet<&'n [u8]>,
    root: Option<u32>,
    /// From the first event on, the bytes of the trace, which still say that it has no events.
    bytes: Vec<u8>,
    /// How many events have come.
    count: u32,
}

impl<'n> Model for Draft<'n> {
    ghost use Rattle.std.specs.Prelude.{map, unwrap_or};
    ghost use Rattle.spp_text.specs.Reading.{Said};
    ghost use Rattle.spp_text.specs.Drafts.{IsKept, last_events};

    ghost Value = { Said };

    ghost view = { λ d. record {
      funcs = map (λ n. n.now) d.funcs.items;
      sites = map (λ n. n.now) d.sites.items;
      root = d.root;
      events = last_events d.count d.bytes.items;
    } };

    ghost invariant = { λ d.
        IsKept d.site_names (map (λ n. n.now) d.funcs.items) (map (λ n. n.now) d.sites.items) (unwrap_or d.root 0) (last_events d.count d.bytes.items) d.bytes.items };
}

/// Notes a site's name, and says whether it was new.
fn note<'a>(seen: &mut BTreeSet<&'a [u8]>, name: &'a [u8]) -> Result<bool, AllocError>
    ensures new { IfOk result (λ new. new ≡ not (has seen.old name.now)) }
    ensures has { OnOk result ((q : List ℕ) → has seen.new q ≡ (if bytes_eq name.now q then true else has seen.old q)) }
    ensures stays { OnErr result ((q : List ℕ) → has seen.new q ≡ has seen.old q) }
{
    Ok(seen.insert(name)?)
}

/// What follows these bytes, where a line begins with them.
fn after<'t>(front: &[u8], line: &'t [u8]) -> Option<&'t [u8]>
    ensures { AfterFront front.now line.now result }
{
    line.strip_prefix(front)
}

impl<'n> Draft<'n> {
    /// Nothing has been said. The names that lines declare are copied to the arena.
    pub(crate) fn new(alloc: Global, names: &'n Bump) -> Self
        ensures { result ≡ nothing }
    {
        Draft {
            names,
            funcs: Vec::new(alloc),
            sites: Vec::new(alloc),
            site_names: BTreeSet::new(alloc),
            root: None,
            bytes: Vec::new(alloc),
            count: 0,
        }
    }

    /// How many events have come.
    fn events(&self) -> u32
        ensures { result ≡ length self.now.events }
    {
        self.count
    }

    /// Whether an event has come.
    fn has_event(&self) -> bool
        ensures { result ≡ has_event self.now }
    {
        self.events() > 0
    }

    /// What has to be said before the first event, or the end of a text without events, and hasn't been.
    #[tactic(auto, unfolding(crate::specs::Reading::opening_fault))]
    pub(crate) fn opening_fault(&self) -> Option<TextWhy>
        ensures { result ≡ opening_fault self.now }
    {
        if self.has_event() {
            return None;
        }
        if self.funcs.is_empty() {
            return Some(TextWhy::NoFunc);
        }
        if self.funcs.len() <= self.root.unwrap_or(0) as usize {
            return Some(TextWhy::Root);
        }
        None
    }

    /// A line declares the next function.
    #[tactic(auto, unfolding(crate::specs::Reading::read_func))]
    fn add_func(&mut self, name: &[u8]) -> Result<(), TextWhy>
        ensures said { Reads result (read_func self.old name.now) self.new }
        ensures stays { OnErr result (self.new ≡ self.old) }
    {
        if self.has_event() {
            return Err(TextWhy::Late);
        }
        if self.funcs.len() >= 65536 {
            return Err(TextWhy::Limits);
        }
        if !is_name(name) {
            return Err(TextWhy::Name);
        }
        let kept = self.names.try_alloc_slice_copy(name)?;
        self.funcs.push(kept)?;
        Ok(())
    }

    /// A line declares the next site.
    #[tactic(auto, unfolding(crate::specs::Reading::read_site))]
    fn add_site(&mut self, name: &[u8]) -> Result<(), TextWhy>
        ensures said { Reads result (read_site self.old name.now) self.new }
        ensures stays { OnErr result (self.new ≡ self.old) }
    {
        if self.has_event() {
            return Err(TextWhy::Late);
        }
        if self.sites.len() >= 65536 {
            return Err(TextWhy::Limits);
        }
        if !is_name(name) {
            return Err(TextWhy::Name);
        }
        if is_root_name(name) {
            return Err(TextWhy::SameName);
        }
        let kept = self.names.try_alloc_slice_copy(name)?;
        self.sites.reserve(1)?;
        if !note(&mut self.site_names, kept)? {
            return Err(TextWhy::SameName);
        }
        self.sites.push(kept)?;
        Ok(())
    }

    /// A line declares the root function by these words behind its first.
    #[tactic(auto, unfolding(crate::specs::Reading::read_root))]
    fn set_root(&mut self, words: &[&[u8]]) -> Result<(), TextWhy>
        ensures said { Reads result (read_root self.old (map (λ w. w.now) words.now)) self.new }
        ensures stays { OnErr result (self.new ≡ self.old) }
    {
        let [word] = words else {
            return Err(TextWhy::Count);
        };
        let Some(root) = short_number(word) else {
            return Err(TextWhy::Number);
        };
        if self.has_event() {
            return Err(TextWhy::Late);
        }
        if self.root.is_some() {
            return Err(TextWhy::Root);
        }
        self.root = Some(root);
        Ok(())
    }

    /// Whether the event's site, where it names one, has been declared.
    fn names_site(&self, event: Event) -> bool
        ensures { result ≡ names_site (length self.now.sites) event }
    {
        match event {
            Event::Call { site, .. } | Event::Spawn { site, .. } => (site as usize)
                < self.sites.len(),
            _ => true,
        }
    }

    /// Whether the event's function, where it names one, has been declared.
    fn names_func(&self, event: Event) -> bool
        ensures { result ≡ names_func (length self.now.funcs) event }
    {
        match event {
            Event::Call { func, .. } | Event::Spawn { func, .. } => (func as usize)
                < self.funcs.len(),
            _ => true,
        }
    }

    /// The bytes of the trace of these names and this root function that has no events.
    fn head(&self) -> Result<Vec<u8>, AllocError>
        requires { opening_fault self.now ≡ None }
        ensures { IfOk result (λ bytes. bytes.items ≡ header_spelling (begun self.now.funcs self.now.sites (unwrap_or self.now.root 0))) }
    {
        let contents = Contents {
            funcs: self.funcs.as_slice(),
            sites: self.sites.as_slice(),
            root: self.root.unwrap_or(0),
            events: &[],
        };
        trace_bytes(*self.bytes.allocator(), &contents)
    }

    /// Writes the bytes of the trace without events, and the record of the first event behind them.
    #[cold]
    #[inline(never)]
    fn push_first(&mut self, event: Event) -> Result<(), AllocError>
        requires opened { opening_fault self.old ≡ None }
        requires first { length self.old.events ≡ 0 }
        requires fits { IsEvent event }
        requires site { names_site (length self.old.sites) event ≡ true }
        requires func { names_func (length self.old.funcs) event ≡ true }
        ensures pushed { OnOk result (self.new ≡ with_event self.old event) }
        ensures stays { OnErr result (self.new ≡ self.old) }
    {
        let mut bytes = self.head()?;
        push_record(&mut bytes, event)?;
        self.bytes = bytes;
        self.count = 1;
        Ok(())
    }

    /// The record of an event more.
    #[inline(always)]
    fn push(&mut self, event: Event) -> Result<(), AllocError>
        requires opened { opening_fault self.old ≡ None }
        requires few { length self.old.events < 2 ^ 28 }
        requires fits { IsEvent event }
        requires site { names_site (length self.old.sites) event ≡ true }
        requires func { names_func (length self.old.funcs) event ≡ true }
        ensures pushed { OnOk result (self.new ≡ with_event self.old event) }
        ensures stays { OnErr result (self.new ≡ self.old) }
    {
        if self.events() == 0 {
            return self.push_first(event);
        }
        push_record(&mut self.bytes, event)?;
        self.count += 1;
        Ok(())
    }

    /// One event more.
    #[inline(always)]
    #[tactic(auto, unfolding(crate::specs::Reading::add_event))]
    fn add_event(&mut self, event: Event) -> Result<(), TextWhy>
        requires opened { opening_fault self.old ≡ None }
        requires fits { IsEvent event }
        ensures said { Reads result (adds_event self.old event) self.new }
        ensures stays { OnErr result (self.new ≡ self.old) }
    {
        if self.events() >= 1 << 28 {
            return Err(TextWhy::Limits);
        }
        if !self.names_site(event) {
            return Err(TextWhy::Site);
        }
        if !self.names_func(event) {
            return Err(TextWhy::Func);
        }
        self.push(event)?;
        Ok(())
    }

    /// A line is read as an event, or has this fault behind its first word.
    #[inline(always)]
    pub(crate) fn add_read(&mut self, read: Result<Event, TextWhy>) -> Result<(), TextWhy>
        requires fits { IfOk read (λ event. IsEvent event) }
        ensures said { Reads result (read_event self.old (Some read)) self.new }
        ensures stays { OnErr result (self.new ≡ self.old) }
    {
        if let Some(why) = self.opening_fault() {
            return Err(why);
        }
        self.add_event(read?)
    }

    /// A line has these words.
    fn add_words(&mut self, words: &[&[u8]]) -> Result<(), TextWhy>
        ensures said { Reads result (read_words self.old (map (λ w. w.now) words.now)) self.new }
        ensures stays { OnErr result (self.new ≡ self.old) }
    {
        let Some((word, others)) = words.split_first() else {
            return Ok(());
        };
        if *word == b"root".as_slice() {
            return self.set_root(others);
        }
        let Some(event) = event_of(word, others) else {
            return Err(TextWhy::Word);
        };
        self.add_read(event)
    }

    /// The bytes of the trace: its header, and the records of its events. Where there are events, the list has no room for
    /// more, unless the memory for a smaller one is refused.
    pub(crate) fn into_bytes(self) -> Result<Vec<u8>, AllocError>
        requires { opening_fault self ≡ None }
        ensures { IfOk result (λ bytes. IsTraceOf bytes.items (recording_of self.entry)) }
    {
        if self.count == 0 {
            return self.head();
        }
        let Draft {
            mut bytes,
            count,
            ..
        } = self;
        set_count(bytes.as_mut_slice(), count);
        bytes.shrink_to_fit();
        Ok(bytes)
    }

    /// One line more. One that is refused leaves what was said as it was.
    #[tactic(auto, using(crate::proofs::CommentLines::comment_line), unfolding(crate::specs::Reading::read_line))]
    pub(crate) fn add_line(&mut self, alloc: Global, line: &[u8]) -> Result<(), TextWhy>
        ensures said { Reads result (read_line self.old line.now) self.new }
        ensures stays { OnErr result (self.new ≡ self.old) }
    {
        if let Some(_) = after(b"#".as_slice(), line) {
            return Ok(());
        }
        if let Some(name) = after(b"func ".as_slice(), line) {
            return self.add_func(name);
        }
        if let Some(name) = after(b"site ".as_slice(), line) {
            return self.add_site(name);
        }
        let words = words_of(alloc, line)?;
        self.add_words(words.as_slice())
    }
}
