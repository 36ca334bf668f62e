//! How the events lie in the body of a trace.

ghost use Rattle.std.specs.Prelude.{◌≡◌, ◌+◌, ◌*◌, ◌<◌, ◌≤◌, ℕ, length, None, IfOk, IfSome, IsOk, Ok};
ghost use Rattle.spp_event.specs.Items.{read_item};
ghost use Rattle.spp_event.specs.Places.{IsItemPlace, IsLayoutOf, version_of};
ghost use Rattle.spp_event.specs.Records.{IsEventOf};
ghost use Rattle.spp_event.specs.Recordings.{item, place, room, filled};

use crate::items::{event_of_item, front, spelled, within};
use crate::places::{Samples, behind_item};
use crate::records::{Event, EventFault};
use crate::version::Version;
use std::alloc::{AllocError, Global};

/// The bytes of one record.
pub(crate) const RECORD: usize = 16;

/// The bytes of the record at a position; none where the body ends before its end.
#[inline(always)]
pub(crate) fn record_in(body: &[u8], i: u32) -> Option<&[u8; RECORD]>
    ensures some { IfSome result (λ r. r.now ≡ place body.now i) }
    ensures none { result ≡ None → length body.now < i * 16 + 16 }
{
    let first = i as usize * RECORD;
    let record = body.get(first..first + RECORD)?;
    record.first_chunk()
}

/// The bytes of the record at a position, where it is there.
#[inline(always)]
pub(crate) fn record_there(bytes: &[u8], i: u32) -> &[u8; RECORD]
    requires { i * 16 + 16 ≤ length bytes.now }
    ensures { result.now ≡ place bytes.now i }
{
    let first = i as usize * RECORD;
    match bytes[first..first + RECORD].first_chunk() {
        Some(record) => record,
        None => unreachable!(),
    }
}

/// The answer of [`read_item_at`] for an item that is there, by all its bytes. It is a function of its own so that the room for the
/// answers of what it calls is cleared for these items alone.
#[inline(always)]
fn read_whole_item_at(
    body: &[u8],
    place: usize,
    sites: u32,
    funcs: u32,
) -> (Result<Event, EventFault>, usize)
    requires { place < length body.now }
    ensures said { (i : ℕ) → IsItemPlace body.now i place → result.0 ≡ read_item sites funcs (item body.now i) }
    ensures behind { (i : ℕ) → IsItemPlace body.now i place → IsItemPlace body.now (i + 1) result.1 }
    ensures within { IfOk result.0 (λ e. IsEventOf sites funcs e) }
{
    let next = behind_item(body, place);
    (event_of_item(&body[place..next], sites, funcs), next)
}

/// The event of the item that begins at a place, or what is wrong with it first, and the place behind it.
#[inline(always)]
pub(crate) fn read_item_at(
    body: &[u8],
    place: usize,
    sites: u32,
    funcs: u32,
) -> (Result<Event, EventFault>, usize)
    requires { place ≤ length body.now }
    ensures said { (i : ℕ) → IsItemPlace body.now i place → result.0 ≡ read_item sites funcs (item body.now i) }
    ensures behind { (i : ℕ) → IsItemPlace body.now i place → IsItemPlace body.now (i + 1) result.1 }
    ensures within { IfOk result.0 (λ e. IsEventOf sites funcs e) }
{
    if let Some((event, next)) = front(body, place) {
        return (within(event, sites, funcs), next);
    }
    if place == body.len() {
        return (Err(EventFault::Truncated), place);
    }
    read_whole_item_at(body, place, sites, funcs)
}

/// The answer of [`known_item_at`], by all bytes of the item.
#[inline(always)]
fn known_whole_item_at(body: &[u8], place: usize) -> (Event, usize)
    requires { (i sites funcs : ℕ) × IsItemPlace body.now i place × IsOk (read_item sites funcs (item body.now i)) }
    ensures said { (i sites funcs : ℕ) → IsItemPlace body.now i place → IsOk (read_item sites funcs (item body.now i)) → read_item sites funcs (item body.now i) ≡ Ok result.0 }
    ensures behind { (i : ℕ) → IsItemPlace body.now i place → IsItemPlace body.now (i + 1) result.1 }
{
    let next = behind_item(body, place);
    let Some(event) = spelled(&body[place..next]) else {
        unreachable!();
    };
    (event, next)
}

/// The event of the item that begins at a place, where one is known to stand, and the place behind it.
#[inline(always)]
pub(crate) fn known_item_at(body: &[u8], place: usize) -> (Event, usize)
    requires { (i sites funcs : ℕ) × IsItemPlace body.now i place × IsOk (read_item sites funcs (item body.now i)) }
    ensures said { (i sites funcs : ℕ) → IsItemPlace body.now i place → IsOk (read_item sites funcs (item body.now i)) → read_item sites funcs (item body.now i) ≡ Ok result.0 }
    ensures behind { (i : ℕ) → IsItemPlace body.now i place → IsItemPlace body.now (i + 1) result.1 }
{
    if let Some(found) = front(body, place) {
        return found;
    }
    known_whole_item_at(body, place)
}

/// How the events lie in the body of a trace.
#[derive(Drop)]
pub(crate) enum Layout {
    /// As records, of version 1.
    Records,
    /// As items, of version 2, and where some of them begin.
    Items(Samples),
}

impl Layout {
    /// The layout of a body; none where the body has more than `count` events have room for.
    pub(crate) fn of(
        alloc: Global,
        version: Version,
        count: u32,
        body: &[u8],
    ) -> Result<Option<Layout>, AllocError>
        ensures some { IfOk result (λ o. IfSome o (λ l. (version_of l ≡ version) × IsLayoutOf l body.now × (filled version body.now ≤ room version count))) }
        ensures none { IfOk result (λ o. o ≡ None → room version count < filled version body.now) }
    {
        match version {
            Version::One if 16 * u64::from(count) < body.len() as u64 => Ok(None),
            Version::One => Ok(Some(Layout::Records)),
            Version::Two => Ok(Samples::of(alloc, body, count)?.map(Layout::Items)),
        }
    }

    /// The version whose events lie so.
    pub(crate) fn version(&self) -> Version
        ensures { result ≡ version_of self.now }
    {
        match self {
            Layout::Records => Version::One,
            Layout::Items(_) => Version::Two,
        }
    }
}
