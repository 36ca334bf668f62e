//! The lines of events as printing writes them, one space between words, and also with blanks in front or a carriage
//! return at the end. They are read from the front of a text, with no list of their words.

ghost use Rattle.std.specs.Prelude.{IfSome};
ghost use Rattle.spp_text.specs.Usual.{IsNumberFront, IsLineEnd, IsNumberLine, AreNumbersLine, IsEventFront, IsEventLine};

use crate::words::is_gap;
use spp_event::Event;

/// How many bytes are looked at together for the digits of a number: it may have 18, which always fit in 64 bits, and one
/// byte more shows where they end. A number nearer to the end of the text is read word by word.
const WIDTH: usize = 19;

/// `strand ` as a number, each byte eight bits of it, as are the words below.
const STRAND: u64 = 0x73_7472_616e_6420;

/// `return` and a line feed.
const RETURN: u64 = 0x72_6574_7572_6e0a;

/// `return`, a carriage return and a line feed.
const RETURN_CRLF: u64 = 0x7265_7475_726e_0d0a;

/// `spawn `.
const SPAWN: u64 = 0x7370_6177_6e20;

/// `call `.
const CALL: u64 = 0x63_616c_6c20;

/// `sync` and a line feed.
const SYNC: u64 = 0x73_796e_630a;

/// `sync`, a carriage return and a line feed.
const SYNC_CRLF: u64 = 0x7379_6e63_0d0a;

/// The number whose digits a text begins with, and what follows them: at most 18 digits, and something follows.
#[inline(always)]
fn number_front(text: &[u8]) -> Option<(u64, &[u8])>
    ensures { IfSome result (λ x. IsNumberFront text.now x.0 x.1.now) }
{
    let front = text.first_chunk::<WIDTH>()?;
    let mut n: u64 = 0;
    for (i, b) in front.iter().enumerate() {
        let digit = b.wrapping_sub(b'0');
        if digit > 9 {
            return if i == 0 { None } else { Some((n, &text[i..])) };
        }
        n = n * 10 + u64::from(digit);
    }
    None
}

/// What follows the end of a line, which is a line feed or a carriage return and a line feed, where a text begins with one.
#[inline(always)]
fn behind_end(text: &[u8]) -> Option<&[u8]>
    ensures { IfSome result (λ rest. IsLineEnd text.now rest.now) }
{
    if let [b'\n', rest @ ..] = text {
        return Some(rest);
    }
    let [b'\r', b'\n', rest @ ..] = text else {
        return None;
    };
    Some(rest)
}

/// The number that a text begins with, where it fills the rest of its line, and what follows the line.
#[inline(always)]
fn number_line(text: &[u8]) -> Option<(u64, &[u8])>
    ensures { IfSome result (λ x. IsNumberLine text.now x.0 x.1.now) }
{
    let (n, end) = number_front(text)?;
    Some((n, behind_end(end)?))
}

/// The two numbers of 32 bits that a text begins with, where they fill the rest of its line, and what follows the line.
#[inline(always)]
fn numbers_line(text: &[u8]) -> Option<(u32, u32, &[u8])>
    ensures { IfSome result (λ x. AreNumbersLine text.now x.0 x.1 x.2.now) }
{
    let (site, [b' ', others @ ..]) = number_front(text)? else {
        return None;
    };
    let (func, rest) = number_line(others)?;
    let (Ok(site), Ok(func)) = (u32::try_from(site), u32::try_from(func)) else {
        return None;
    };
    Some((site, func, rest))
}

/// The event of the line that a text begins with, and what follows the line. None where the line isn't as printing writes
/// it, but for a carriage return at its end, or has a number of more than 18 digits, or where the text has fewer than eight
/// bytes, or fewer than 19 from the beginning of a number on.
#[inline(always)]
fn event_front(text: &[u8]) -> Option<(Event, &[u8])>
    ensures { IfSome result (λ x. IsEventFront text.now x.0 x.1.now) }
{
    let head = u64::from_be_bytes(*text.first_chunk::<8>()?);
    if head >> 8 == STRAND {
        let (count, rest) = number_line(&text[7..])?;
        return Some((Event::Strand { count }, rest));
    }
    if head >> 8 == RETURN {
        return Some((Event::Ret, &text[7..]));
    }
    if head >> 16 == SPAWN {
        let (site, func, rest) = numbers_line(&text[6..])?;
        return Some((Event::Spawn { site, func }, rest));
    }
    if head >> 24 == CALL {
        let (site, func, rest) = numbers_line(&text[5..])?;
        return Some((Event::Call { site, func }, rest));
    }
    if head >> 24 == SYNC {
        return Some((Event::Sync, &text[5..]));
    }
    if head == RETURN_CRLF {
        return Some((Event::Ret, &text[8..]));
    }
    if head >> 16 == SYNC_CRLF {
        return Some((Event::Sync, &text[6..]));
    }
    None
}

/// The same behind the blanks that a text begins with, where it begins with one.
#[inline(always)]
fn indented_front(text: &[u8]) -> Option<(Event, &[u8])>
    ensures { IfSome result (λ x. IsEventFront text.now x.0 x.1.now) }
{
    for (start, byte) in text.iter().enumerate() {
        if !is_gap(*byte) {
            return if start == 0 {
                None
            } else {
                event_front(&text[start..])
            };
        }
    }
    None
}

/// The same, whether or not blanks stand in front. Where it is None the line is to be read word by word. It takes no
/// memory.
#[inline(always)]
pub(crate) fn event_line(text: &[u8]) -> Option<(Event, &[u8])>
    ensures { IfSome result (λ x. IsEventLine text.now x.0 x.1.now) }
{
    let Some((event, rest)) = event_front(text) else {
        return indented_front(text);
    };
    Some((event, rest))
}
