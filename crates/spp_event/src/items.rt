//! Events as version 2 spells them: items of at most thirteen bytes.

ghost use Rattle.std.specs.Prelude.{◌≡◌, ◌↔◌, ◌++◌, ◌<◌, ◌≤◌, ◌-◌, ◌^◌, nat_lt, ℕ, List, None, length, take, drop, IfOk, IfSome, IsTrue, OnOk};
ghost use Rattle.std.specs.Int.Digits.{digits_of};
ghost use Rattle.spp_event.specs.Items.{operand, item_of, within_trace, read_item};
ghost use Rattle.spp_event.specs.Places.{GoesOn, IsItemBetween};
ghost use Rattle.spp_event.specs.Records.{IsEvent, IsEventOf, names_site, names_func};
ghost use Rattle.spp_event.specs.declared.records.Event.{Event as EventValue};

use crate::records::{Event, EventFault};
use std::alloc::{AllocError, Global};

/// The base of operands, which is also added to the last digit.
const BASE: u64 = 64;

/// Adds the digits of a number in base 64, the highest first; none for 0.
fn push_digits(bytes: &mut Vec<u8>, n: u64) -> Result<(), AllocError>
    ensures { OnOk result (bytes.new.items ≡ bytes.old.items ++ digits_of 64 n) }
{
    if n == 0 {
        return Ok(());
    }
    push_digits(bytes, n / BASE)?;
    bytes.push((n % BASE) as u8)?;
    Ok(())
}

/// Adds a number: its digits, the last of them raised.
fn push_operand(bytes: &mut Vec<u8>, n: u64) -> Result<(), AllocError>
    ensures { OnOk result (bytes.new.items ≡ bytes.old.items ++ operand n) }
{
    push_digits(bytes, n / BASE)?;
    bytes.push((BASE + n % BASE) as u8)?;
    Ok(())
}

/// Adds the item of an event.
#[inline(always)]
pub(crate) fn push_item(bytes: &mut Vec<u8>, event: Event) -> Result<(), AllocError>
    ensures { OnOk result (bytes.new.items ≡ bytes.old.items ++ item_of event) }
{
    match event {
        Event::Strand { count } => {
            bytes.push(0x80)?;
            push_operand(bytes, count)
        }
        Event::Call { site, func } => {
            bytes.push(0x81)?;
            push_operand(bytes, u64::from(site))?;
            push_operand(bytes, u64::from(func))
        }
        Event::Spawn { site, func } => {
            bytes.push(0x82)?;
            push_operand(bytes, u64::from(site))?;
            push_operand(bytes, u64::from(func))
        }
        Event::Ret => Ok(bytes.push(0x83)?),
        Event::Sync => Ok(bytes.push(0x84)?),
    }
}

/// The item of an event: its one spelling in version 2 of the format, the compact one. It has at most thirteen bytes,
/// and twelve where it is an event of a trace.
///
/// # Errors
///
/// Where an allocation failed.
pub fn compact_of(alloc: Global, event: Event) -> Result<Vec<u8>, AllocError>
    ensures { IfOk result (λ bytes. bytes.items ≡ item_of event) }
{
    let mut bytes = Vec::new(alloc);
    push_item(&mut bytes, event)?;
    Ok(bytes)
}

/// The number that the bytes begin with, and the bytes behind it; none where they begin with no number below 2^64 in
/// its one spelling.
#[inline(never)]
fn operand_of(bytes: &[u8]) -> Option<(u64, &[u8])>
    ensures some { IfSome result (λ x. bytes.now ≡ operand x.0 ++ x.1.now) }
    ensures none { result ≡ None → (n : ℕ) (rest : List ℕ) → n < 2 ^ 64 → (bytes.now ≡ operand n ++ rest) → ⊥ }
{
    let mut n: u64 = 0;
    for k in 0..bytes.len() {
        let digit = u64::from(bytes[k]);
        if n >= 1 << 58 || digit >= 2 * BASE || (k == 0 && digit == 0) {
            return None;
        }
        if digit >= BASE {
            return Some((n * BASE + (digit - BASE), &bytes[k + 1..]));
        }
        n = n * BASE + digit;
    }
    None
}

/// The number whose digits are those of `front` and then those that the bytes begin with, and the bytes behind it; none
/// where that is no number below 2^64.
#[inline(never)]
fn operand_behind(front: u64, bytes: &[u8]) -> Option<(u64, &[u8])>
    requires some { 0 < front }
    ensures { IfSome result (λ x. digits_of 64 front ++ bytes.now ≡ operand x.0 ++ x.1.now) }
{
    let mut n = front;
    for k in 0..bytes.len() {
        let digit = u64::from(bytes[k]);
        if n >= 1 << 58 || digit >= 2 * BASE {
            return None;
        }
        if digit >= BASE {
            return Some((n * BASE + (digit - BASE), &bytes[k + 1..]));
        }
        n = n * BASE + digit;
    }
    None
}

/// Calls [`operand_behind`], for numbers of four digits or more. It is a function of its own so that the room for the answer is
/// cleared for these alone.
#[inline(always)]
fn long_operand(front: u64, bytes: &[u8]) -> Option<(u64, &[u8])>
    requires { 0 < front }
    ensures { IfSome result (λ x. digits_of 64 front ++ bytes.now ≡ operand x.0 ++ x.1.now) }
{
    operand_behind(front, bytes)
}

/// The number that [`operand_of`] finds, and the bytes behind it; those of one digit to three, which most are, without a
/// loop.
#[inline(always)]
fn operand_in_front(bytes: &[u8]) -> Option<(u64, &[u8])>
    ensures { IfSome result (λ x. bytes.now ≡ operand x.0 ++ x.1.now) }
{
    let (first, rest) = bytes.split_first()?;
    let digit = u64::from(*first);
    if digit >= BASE && digit < 2 * BASE {
        return Some((digit - BASE, rest));
    }
    let (second, rest) = rest.split_first()?;
    let last = u64::from(*second);
    if digit == 0 || digit >= BASE || last >= 2 * BASE {
        return None;
    }
    if last >= BASE {
        return Some((digit * BASE + (last - BASE), rest));
    }
    let front = digit * BASE + last;
    let (third, rest) = rest.split_first()?;
    let end = u64::from(*third);
    if end >= 2 * BASE {
        return None;
    }
    if end >= BASE {
        return Some((front * BASE + (end - BASE), rest));
    }
    long_operand(front * BASE + end, rest)
}

/// The one number that the bytes are; none where they are no number below 2^64 in its one spelling.
fn one_number(bytes: &[u8]) -> Option<u64>
    ensures some { IfSome result (λ n. bytes.now ≡ operand n) }
    ensures none { result ≡ None → (n : ℕ) → n < 2 ^ 64 → (bytes.now ≡ operand n) → ⊥ }
{
    let (n, rest) = operand_of(bytes)?;
    if rest.is_empty() { Some(n) } else { None }
}

/// The two numbers that the bytes are; none where they are no two numbers below 2^32, each in its one spelling.
fn two_numbers(bytes: &[u8]) -> Option<(u32, u32)>
    ensures some { IfSome result (λ x. bytes.now ≡ operand x.0 ++ operand x.1) }
    ensures none { result ≡ None → (n m : ℕ) → n < 2 ^ 32 → m < 2 ^ 32 → (bytes.now ≡ operand n ++ operand m) → ⊥ }
{
    let (n, rest) = operand_of(bytes)?;
    let m = one_number(rest)?;
    if n >= 1 << 32 || m >= 1 << 32 {
        return None;
    }
    Some((n as u32, m as u32))
}

/// The event whose item the bytes are, if there is one.
pub(crate) fn spelled(item: &[u8]) -> Option<Event>
    ensures some { IfSome result (λ e. (item.now ≡ item_of e) × IsEvent e) }
    ensures none { result ≡ None → (e : EventValue) → IsEvent e → (item.now ≡ item_of e) → ⊥ }
{
    let (lead, rest) = item.split_first()?;
    match *lead {
        0x80 => {
            let count = one_number(rest)?;
            Some(Event::Strand { count })
        }
        0x81 => {
            let (site, func) = two_numbers(rest)?;
            Some(Event::Call { site, func })
        }
        0x82 => {
            let (site, func) = two_numbers(rest)?;
            Some(Event::Spawn { site, func })
        }
        0x83 if rest.is_empty() => Some(Event::Ret),
        0x84 if rest.is_empty() => Some(Event::Sync),
        _ => None,
    }
}

/// Whether the bytes end, or an item begins at the first.
#[inline(always)]
fn goes_on(bytes: &[u8]) -> bool
    ensures { IsTrue result ↔ GoesOn bytes.now }
{
    match bytes.first() {
        Some(next) => *next >= 0x80,
        None => true,
    }
}

/// The event whose item stands at a place, and the place of the bytes behind the item, which are `rest`; none where the item goes on in
/// them.
#[inline(always)]
fn if_it_ends(event: Event, body: &[u8], place: usize, rest: &[u8]) -> Option<(Event, usize)>
    requires within { place ≤ length body.now }
    requires is { drop place body.now ≡ item_of event ++ rest.now }
    requires event { IsEvent event }
    ensures between { IfSome result (λ x. IsItemBetween body.now place x.1) }
    ensures is { IfSome result (λ x. (take (x.1 - place) (drop place body.now) ≡ item_of x.0) × IsEvent x.0) }
{
    if goes_on(rest) {
        Some((event, body.len() - rest.len()))
    } else {
        None
    }
}

/// The event whose item begins at a place, and the place behind it; none where no item begins there, or it is that of no event. The
/// caller then looks at the whole item. Whether the trace has the site and the function isn't looked at.
///
/// Where the item ends is found out in the branch of its kind, so that what a caller does by kinds needs no second jump.
#[inline(always)]
pub(crate) fn front(body: &[u8], place: usize) -> Option<(Event, usize)>
    requires { place ≤ length body.now }
    ensures between { IfSome result (λ x. IsItemBetween body.now place x.1) }
    ensures is { IfSome result (λ x. (take (x.1 - place) (drop place body.now) ≡ item_of x.0) × IsEvent x.0) }
{
    let (lead, rest) = body[place..].split_first()?;
    match *lead {
        0x80 => {
            let (count, rest) = operand_in_front(rest)?;
            if_it_ends(Event::Strand { count }, body, place, rest)
        }
        0x81 => {
            let (site, func, rest) = two_in_front(rest)?;
            if_it_ends(Event::Call { site, func }, body, place, rest)
        }
        0x82 => {
            let (site, func, rest) = two_in_front(rest)?;
            if_it_ends(Event::Spawn { site, func }, body, place, rest)
        }
        0x83 => if_it_ends(Event::Ret, body, place, rest),
        0x84 => if_it_ends(Event::Sync, body, place, rest),
        _ => None,
    }
}

/// The two numbers below 2^32 that the bytes begin with, and the bytes behind them.
#[inline(always)]
fn two_in_front(bytes: &[u8]) -> Option<(u32, u32, &[u8])>
    ensures { IfSome result (λ x. bytes.now ≡ operand x.0 ++ operand x.1 ++ x.2.now) }
{
    let (n, rest) = operand_in_front(bytes)?;
    let (m, rest) = operand_in_front(rest)?;
    if n >= 1 << 32 || m >= 1 << 32 {
        return None;
    }
    Some((n as u32, m as u32, rest))
}

/// An event that names this site and this function, where they are among so many.
#[inline(always)]
fn named_within(
    event: Event,
    site: u32,
    func: u32,
    sites: u32,
    funcs: u32,
) -> Result<Event, EventFault>
    requires site { names_site sites event ≡ nat_lt site sites }
    requires func { names_func funcs event ≡ nat_lt func funcs }
    ensures { result ≡ within_trace sites funcs event }
{
    if site >= sites {
        Err(EventFault::Site)
    } else if func >= funcs {
        Err(EventFault::Func)
    } else {
        Ok(event)
    }
}

/// The event, where the site and the function that it names, if any, are among so many. That too is found out in the branch of its kind.
#[inline(always)]
pub(crate) fn within(event: Event, sites: u32, funcs: u32) -> Result<Event, EventFault>
    requires { IsEvent event }
    ensures said { result ≡ within_trace sites funcs event }
    ensures of_trace { IfOk result (λ e. IsEventOf sites funcs e) }
{
    match event {
        Event::Call { site, func } => named_within(event, site, func, sites, funcs),
        Event::Spawn { site, func } => named_within(event, site, func, sites, funcs),
        Event::Strand { .. } | Event::Ret | Event::Sync => Ok(event),
    }
}

/// What an item says: its event, or what is wrong with it first. An item that isn't there has no bytes.
pub(crate) fn event_of_item(item: &[u8], sites: u32, funcs: u32) -> Result<Event, EventFault>
    ensures said { result ≡ read_item sites funcs item.now }
    ensures of_trace { IfOk result (λ e. IsEventOf sites funcs e) }
{
    let Some(lead) = item.first() else {
        return Err(EventFault::Truncated);
    };
    if *lead < 0x80 || *lead > 0x84 {
        return Err(EventFault::Tag);
    }
    match spelled(item) {
        Some(event) => within(event, sites, funcs),
        None => Err(EventFault::Operand),
    }
}
