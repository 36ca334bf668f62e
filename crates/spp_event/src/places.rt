//! Where the items of a body begin: a sample of their places, from which each other one is a short walk away.

ghost use Rattle.std.specs.Prelude.{◌≡◌, ◌+◌, ◌<◌, ◌≤◌, None, length, take, nat_le, IfOk, IfSome};
ghost use Rattle.std.specs.List.{count_by};
ghost use Rattle.spp_event.specs.Items.{items};
ghost use Rattle.spp_event.specs.Places.{IsItemPlace, IsItemBetween, AreSamples};

use std::alloc::{AllocError, Global};

/// One in so many items has its place noted.
const STRIDE: usize = 64;

/// So many bytes are looked at at a time for how many items begin there: no more than one of them is noted.
const BLOCK: usize = 32;

/// So many bytes are a few.
const FEW: usize = 128;

/// The place behind the item that begins at a place: that of the next item, or the end.
#[inline]
pub(crate) fn behind_item(body: &[u8], place: usize) -> usize
    requires { place < length body.now }
    ensures { IsItemBetween body.now place result }
{
    for k in place + 1..body.len() {
        if body[k] >= 0x80 {
            return k;
        }
    }
    body.len()
}

/// How many of a few bytes are 128 or more. Which of them are can't be foreseen, so it adds and doesn't branch, numbers of 8 bits,
/// of which 16 are added at once.
fn count_few(bytes: &[u8]) -> u8
    requires { length bytes.now < 256 }
    ensures { result ≡ count_by (λ b. nat_le 128 b) bytes.now }
{
    let mut leads: u8 = 0;
    for k in 0..bytes.len() {
        leads += u8::from(bytes[k] >= 0x80);
    }
    leads
}

/// How many of the bytes are 128 or more.
fn count_leads(bytes: &[u8]) -> usize
    ensures { result ≡ count_by (λ b. nat_le 128 b) bytes.now }
{
    let mut leads: usize = 0;
    for block in 0..bytes.len().div_ceil(FEW) {
        let from = block * FEW;
        let to = bytes.len().min(from + FEW);
        leads += usize::from(count_few(&bytes[from..to]));
    }
    leads
}

/// How many items begin at a place of a body from `from` on, before `to`.
pub(crate) fn count_begun(body: &[u8], from: usize, to: usize) -> usize
    requires rising { from ≤ to }
    requires within { to ≤ length body.now }
    ensures { length (items (take from body.now)) + result ≡ length (items (take to body.now)) }
{
    let leads = count_leads(&body[from..to]);
    if from == 0 && from < to && body[0] < 0x80 {
        leads + 1
    } else {
        leads
    }
}

/// The place of an item that begins at a place of a body from `from` on, before `to`: behind so many others that begin
/// there.
fn begun_place(body: &[u8], from: usize, to: usize, others: usize) -> usize
    requires rising { from ≤ to }
    requires within { to ≤ length body.now }
    requires begins { length (items (take from body.now)) + others < length (items (take to body.now)) }
    ensures { IsItemPlace body.now (length (items (take from body.now)) + others) result }
{
    let mut left = others;
    for k in from..to {
        if k > 0 && body[k] < 0x80 {
            continue;
        }
        if left == 0 {
            return k;
        }
        left -= 1;
    }
    unreachable!()
}

/// The places of every 64th item of a body: 8 bytes for each, or up to twice that.
#[derive(Drop)]
pub(crate) struct Samples {
    places: Vec<u64>,
}

impl Samples {
    /// Those of a body; none where it has more than `most` items.
    pub(crate) fn of(alloc: Global, body: &[u8], most: u32) -> Result<Option<Samples>, AllocError>
        ensures some { IfOk result (λ o. IfSome o (λ s. AreSamples body.now s.places.items × (length (items body.now) ≤ most))) }
        ensures none { IfOk result (λ o. o ≡ None → most < length (items body.now)) }
    {
        let mut places: Vec<u64> = Vec::new(alloc);
        let mut begun = 0;
        for block in 0..body.len().div_ceil(BLOCK) {
            let from = block * BLOCK;
            let to = body.len().min(from + BLOCK);
            let more = count_begun(body, from, to);
            if begun + more > most as usize {
                return Ok(None);
            }
            let next = places.len() * STRIDE;
            if next < begun + more {
                let place = begun_place(body, from, to, next - begun);
                places.push(place as u64)?;
            }
            begun += more;
        }
        Ok(Some(Samples { places }))
    }

    /// The place of item `i`; the end where there are not so many. It walks over 63 items at most.
    pub(crate) fn place(&self, body: &[u8], i: u32) -> usize
        requires { AreSamples body.now self.now.places.items }
        ensures { IsItemPlace body.now i result }
    {
        let i = i as usize;
        let Some(first) = self.places.get(i / STRIDE) else {
            return body.len();
        };
        let mut place = *first as usize;
        for _ in 0..i % STRIDE {
            if place < body.len() {
                place = behind_item(body, place);
            }
        }
        place
    }
}
