//! The bytes of a trace of version 1, written: what `header` and `records` read.

ghost use Rattle.std.specs.Prelude.{◌≡◌, ◌↔◌, ◌++◌, map, OnOk, IfOk, IsTrue};
ghost use Rattle.std.specs.List.{flat_map, AllByRecursion};
ghost use Rattle.spp_event.specs.Records.{word, spelling, IsEventOf};
ghost use Rattle.spp_event.specs.Recordings.{InLimits};
ghost use Rattle.spp_event.specs.Header.{IsName, HasGoodNames, IsTraceOf, head_spelling, name_spelling};
ghost use Rattle.spp_event.specs.Contents.{recording_of, HasOwnEvents};

use crate::layout::RECORD;
use crate::records::{Event, record_of};
use crate::version::Version;
use std::alloc::{AllocError, Global};

/// What a trace is written from.
#[derive(Clone, Copy)]
pub struct Contents<'a> {
    /// The names of the functions, each of 1 to 200 printable ASCII bytes: 1 to 65,536 of them.
    pub funcs: &'a [&'a [u8]],
    /// The names of the call sites, of such bytes, no two alike and none `(root)`: at most 65,536.
    pub sites: &'a [&'a [u8]],
    /// The function of the root frame, below the number of functions.
    pub root: u32,
    /// The events, of these sites and functions: at most 2^28.
    pub events: &'a [Event],
}

impl Contents<'_> {
    /// Whether each event is one of the sites and functions that have names here: what [`trace_bytes`] wants of
    /// them. It takes no memory and a time linear in the number of events.
    pub fn has_own_events(&self) -> bool
        ensures { IsTrue result ↔ HasOwnEvents self.now }
    {
        let sites = self.sites.len();
        let funcs = self.funcs.len();
        self.events.iter().all(|e| is_event_of(*e, sites, funcs))
    }
}

/// Whether an event is one of so many sites and functions.
fn is_event_of(event: Event, sites: usize, funcs: usize) -> bool
    ensures { IsTrue result ↔ IsEventOf sites funcs event }
{
    match event {
        Event::Call { site, func } | Event::Spawn { site, func } => {
            (site as usize) < sites && (func as usize) < funcs
        }
        Event::Strand { .. } | Event::Ret | Event::Sync => true,
    }
}

/// Adds a number of four bytes, the highest first.
fn push_word(bytes: &mut Vec<u8>, n: u32) -> Result<(), AllocError>
    ensures { OnOk result (bytes.new.items ≡ bytes.old.items ++ word n) }
{
    bytes.extend_from_slice(n.to_be_bytes().as_slice())
}

/// Adds the first 24 bytes of a trace: its version, how many functions and sites it names, its root function, and how
/// many events it has.
pub(crate) fn push_head(
    bytes: &mut Vec<u8>,
    version: Version,
    funcs: u32,
    sites: u32,
    root: u32,
    events: u32,
) -> Result<(), AllocError>
    ensures { OnOk result (bytes.new.items ≡ bytes.old.items ++ head_spelling version funcs sites root events) }
{
    bytes.extend_from_slice(version.magic())?;
    push_word(bytes, funcs)?;
    push_word(bytes, sites)?;
    push_word(bytes, root)?;
    push_word(bytes, events)?;
    Ok(())
}

/// Adds a name behind its length.
pub(crate) fn push_name(bytes: &mut Vec<u8>, name: &[u8]) -> Result<(), AllocError>
    requires { IsName name.now }
    ensures { OnOk result (bytes.new.items ≡ bytes.old.items ++ name_spelling name.now) }
{
    let len = name.len() as u16;
    bytes.extend_from_slice(len.to_be_bytes().as_slice())?;
    bytes.extend_from_slice(name)
}

/// Adds names, each behind its length.
fn push_names(bytes: &mut Vec<u8>, names: &[&[u8]]) -> Result<(), AllocError>
    requires { AllByRecursion IsName (map (λ n. n.now) names.now) }
    ensures { OnOk result (bytes.new.items ≡ bytes.old.items ++ flat_map name_spelling (map (λ n. n.now) names.now)) }
{
    for name in names {
        push_name(bytes, name)?;
    }
    Ok(())
}

/// Adds the records of events.
fn push_records(bytes: &mut Vec<u8>, events: &[Event]) -> Result<(), AllocError>
    ensures { OnOk result (bytes.new.items ≡ bytes.old.items ++ flat_map spelling events.now) }
{
    for event in events {
        bytes.extend_from_slice(record_of(*event).as_slice())?;
    }
    Ok(())
}

/// The bytes of the trace of these contents, in version 1: its header, and the record of each event. Opened, they are
/// that trace.
///
/// The time and the memory are linear in the length of the names and the number of events: 16 bytes for each event.
///
/// # Errors
///
/// `AllocError` where an allocation failed.
pub fn trace_bytes(alloc: Global, contents: &Contents<'_>) -> Result<Vec<u8>, AllocError>
    requires limits { InLimits (recording_of contents.now) }
    requires names { HasGoodNames (recording_of contents.now) }
    requires events { HasOwnEvents contents.now }
    ensures { IfOk result (λ bytes. IsTraceOf bytes.items (recording_of contents.now)) }
{
    let mut bytes = Vec::new(alloc);
    let funcs = contents.funcs.len() as u32;
    let sites = contents.sites.len() as u32;
    let events = contents.events.len() as u32;
    push_head(
        &mut bytes,
        Version::One,
        funcs,
        sites,
        contents.root,
        events,
    )?;
    push_names(&mut bytes, contents.funcs)?;
    push_names(&mut bytes, contents.sites)?;
    bytes.reserve(RECORD * contents.events.len())?;
    push_records(&mut bytes, contents.events)?;
    Ok(bytes)
}
