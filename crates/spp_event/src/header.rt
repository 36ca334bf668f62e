//! The header of a trace, with the names of its functions and sites.

ghost use Rattle.std.specs.Prelude.{◌≡◌, ◌≢◌, ◌<◌, ◌≤◌, ◌+◌, ◌^◌, [], Some, true, if◌then◌else◌, not, List, ℕ, length, map, take, None, false, IfOk, IfSome, IfErr, OnOk, MatchResult};
ghost use Rattle.spp_event.specs.NameKeys.{has_by_key};
ghost use Rattle.std.specs.Str.{bytes_eq};
ghost use Rattle.spp_event.specs.declared.header.HeaderFault.TheVariants.{Memory};
ghost use Rattle.spp_event.specs.Records.{word_at};
ghost use Rattle.spp_event.specs.Recordings.{Recording};
ghost use Rattle.spp_event.specs.Texts.{header_fault_text};
ghost use Rattle.spp_event.specs.Header.{IsTraceOf, IsHeaderFault, magic, version_in};
ghost use Rattle.spp_event.specs.Checks.{Gives, name_at, funcs_at, sites_at, trace_at, are_limits};

use crate::layout::Layout;
use crate::name_keys::key_of;
use crate::names::{is_name, is_root_name};
use crate::traces::Trace;
use crate::version::Version;
use std::alloc::{AllocError, AllocFailed, Global};
use std::collections::BTreeSet;
use std::fmt;
use thiserror::Error;

/// Why bytes open as no trace: what is wrong first, or that an allocation failed.
///
/// Names are numbered on: function names from 0, then site names from the number of functions.
#[derive(Clone, Copy, Debug, Error, PartialEq, Eq)]
pub enum HeaderFault {
    /// The bytes end within the header.
    Short,
    /// The first eight bytes are not those of a trace.
    Magic,
    /// The number of functions, sites or events is outside its limits.
    Limits,
    /// A name has a length outside 1 to 200, or a byte that is not printable ASCII.
    Name {
        /// The number of the name.
        number: u32,
    },
    /// A site has the name of an earlier site, or that of the root's row.
    SameName {
        /// The number of the later name.
        number: u32,
    },
    /// The root function is not below the number of functions.
    RootFunc,
    /// More follows the names than the events have room for: 16 bytes each in version 1, an item each in version 2.
    Trailing,
    /// An allocation failed.
    Memory,
}

impl fmt::Display for HeaderFault {
    ghost output = { λ f. Some (header_fault_text f) };

    fn fmt<W: fmt::Write>(&self, f: &mut fmt::Formatter<W>) -> fmt::Result {
        match self {
            HeaderFault::Short => write!(f, "short"),
            HeaderFault::Magic => write!(f, "magic"),
            HeaderFault::Limits => write!(f, "limits"),
            HeaderFault::Name { number } => write!(f, "name {number}"),
            HeaderFault::SameName { number } => write!(f, "same name {number}"),
            HeaderFault::RootFunc => write!(f, "root function"),
            HeaderFault::Trailing => write!(f, "trailing"),
            HeaderFault::Memory => write!(f, "out of memory"),
        }
    }
}

impl From<AllocError> for HeaderFault {
    ghost from_gives = { λ _ e. e ≡ Memory };

    fn from(_e: AllocError) -> HeaderFault {
        HeaderFault::Memory
    }
}

impl<T: Drop> From<AllocFailed<T>> for HeaderFault {
    ghost from_gives = { λ _ e. e ≡ Memory };

    fn from(_e: AllocFailed<T>) -> HeaderFault {
        HeaderFault::Memory
    }
}

/// The name at the front, and the bytes after it.
#[tactic(auto, unfolding(crate::specs::Checks::name_at))]
fn name_of(number: u32, bytes: &[u8]) -> Result<(&str, &[u8]), HeaderFault>
    ensures { Gives (λ x. (x.0.now, x.1.now)) result (name_at number bytes.now) }
{
    if bytes.len() < 2 {
        return Err(HeaderFault::Short);
    }
    let (front, rest) = bytes.split_at(2);
    let len = usize::from(u16::from_be_bytes([front[0], front[1]]));
    if len == 0 || len > 200 {
        return Err(HeaderFault::Name { number });
    }
    if rest.len() < len {
        return Err(HeaderFault::Short);
    }
    let (name, others) = rest.split_at(len);
    if !is_name(name) {
        return Err(HeaderFault::Name { number });
    }
    match str::from_utf8(name) {
        Ok(text) => Ok((text, others)),
        Err(_) => Err(HeaderFault::Name { number }),
    }
}

/// The names of the functions, and the bytes after them.
fn funcs_of(alloc: Global, count: u32, bytes: &[u8]) -> Result<(Vec<&str>, &[u8]), HeaderFault>
    ensures names { Gives (λ x. (map (λ s. s.now) x.0.items, x.1.now)) result (funcs_at count [] bytes.now) }
    ensures count { IfOk result (λ x. length x.0.items ≡ count) }
{
    let mut names = Vec::new(alloc);
    let mut rest = bytes;
    for number in 0..count {
        let (name, others) = name_of(number, rest)?;
        names.push(name)?;
        rest = others;
    }
    Ok((names, rest))
}

/// Notes a site's name, and says whether it was new. Names are ordered by their keys first, since most pairs of names are
/// told apart by these.
fn note<'a>(seen: &mut BTreeSet<(u64, &'a str)>, name: &'a str) -> Result<bool, AllocError>
    ensures new { IfOk result (λ new. new ≡ not (has_by_key seen.old name.now)) }
    ensures has { OnOk result ((q : List ℕ) → has_by_key seen.new q ≡ (if bytes_eq name.now q then true else has_by_key seen.old q)) }
{
    Ok(seen.insert((key_of(name.as_bytes()), name))?)
}

/// The names of the sites, and the bytes after them.
fn sites_of(
    alloc: Global,
    count: u32,
    first: u32,
    bytes: &[u8],
) -> Result<(Vec<&str>, &[u8]), HeaderFault>
    requires { first + count < 2 ^ 32 }
    ensures names { Gives (λ x. (map (λ s. s.now) x.0.items, x.1.now)) result (sites_at count first [] bytes.now) }
    ensures count { IfOk result (λ x. length x.0.items ≡ count) }
{
    let mut names = Vec::new(alloc);
    let mut seen: BTreeSet<(u64, &str)> = BTreeSet::new(alloc);
    let mut rest = bytes;
    for number in 0..count {
        let (name, others) = name_of(first + number, rest)?;
        let fresh = note(&mut seen, name)?;
        if is_root_name(name.as_bytes()) || !fresh {
            return Err(HeaderFault::SameName {
                number: first + number,
            });
        }
        names.push(name)?;
        rest = others;
    }
    Ok((names, rest))
}

/// The version that the first eight bytes say; none where they are not those of a trace.
fn version_of(bytes: &[u8]) -> Option<Version>
    requires { 8 ≤ length bytes.now }
    ensures some { IfSome result (λ v. (v ≡ version_in bytes.now) × (bytes_eq (take 8 bytes.now) (magic (version_in bytes.now)) ≡ true)) }
    ensures none { result ≡ None → bytes_eq (take 8 bytes.now) (magic (version_in bytes.now)) ≡ false }
{
    let version = if bytes[7] == b'2' {
        Version::Two
    } else {
        Version::One
    };
    if &bytes[..8] == version.magic() {
        Some(version)
    } else {
        None
    }
}

/// The number of four bytes at a place of the header.
fn word_of(bytes: &[u8], at: usize) -> u32
    requires { at + 4 ≤ length bytes.now }
    ensures { result ≡ word_at bytes.now at }
{
    let field = &bytes[at..at + 4];
    u32::from_be_bytes([field[0], field[1], field[2], field[3]])
}

/// Whether the numbers of a header are within the limits of a trace.
fn are_in_limits(funcs: u32, sites: u32, count: u32) -> bool
    ensures { result ≡ are_limits funcs sites count }
{
    0 < funcs && funcs <= 65536 && sites <= 65536 && count <= 1 << 28
}

/// The trace that the bytes are, or the first check that fails, unless memory runs out.
#[tactic(auto, unfolding(crate::specs::Checks::trace_at))]
fn checked<'a>(alloc: Global, bytes: &'a [u8]) -> Result<Trace<'a>, HeaderFault>
    ensures { Gives (λ t. t) result (trace_at bytes.now) }
{
    if bytes.len() < 24 {
        return Err(HeaderFault::Short);
    }
    let Some(version) = version_of(bytes) else {
        return Err(HeaderFault::Magic);
    };
    let funcs = word_of(bytes, 8);
    let sites = word_of(bytes, 12);
    let root = word_of(bytes, 16);
    let count = word_of(bytes, 20);
    if !are_in_limits(funcs, sites, count) {
        return Err(HeaderFault::Limits);
    }
    if funcs <= root {
        return Err(HeaderFault::RootFunc);
    }
    let (func_names, rest) = funcs_of(alloc, funcs, &bytes[24..])?;
    let (site_names, body) = sites_of(alloc, sites, funcs, rest)?;
    let Some(layout) = Layout::of(alloc, version, count, body)? else {
        return Err(HeaderFault::Trailing);
    };
    Ok(Trace {
        funcs: func_names,
        sites: site_names,
        root,
        count,
        body,
        layout,
    })
}

/// Opens the bytes of a trace, whose names and records are borrowed from them.
///
/// Events aren't looked at: a bad one is told when it is read ([`Trace::event_at`], [`Reader::read`]). The time is that
/// of reading all names and of about S log S comparisons of numbers made from names, S being the number of sites, or of
/// names where these numbers are equal; for a trace of version 2 it is linear in the body besides. The memory is linear
/// in the number of names that are there, and in version 2 it is 8 bytes for 64 items besides, or up to twice that:
/// nothing is allocated for a number that the header only claims.
///
/// # Errors
///
/// The first fault of the header, by what stands before it being good; `Memory` where an allocation failed.
pub fn open_trace<'a>(alloc: Global, bytes: &'a [u8]) -> Result<Trace<'a>, HeaderFault>
    // What is opened is a trace.
    ensures found { IfOk result (λ t. IsTraceOf bytes.now t) }
    // What is a trace is opened, unless memory runs out.
    ensures only { (t : Recording) → IsTraceOf bytes.now t
        → MatchResult result (λ u. u ≡ t) (λ f. f ≡ Memory) }
    // What is refused has that fault first, unless memory ran out.
    ensures refused { IfErr result (λ f. f ≢ Memory → IsHeaderFault bytes.now f) }
{
    checked(alloc, bytes)
}
