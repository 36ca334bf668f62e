//! One record: 16 bytes, the one spelling of an event.

ghost use Rattle.std.specs.Prelude.{◌≡◌, IfOk, Some};
ghost use Rattle.spp_event.specs.Records.{spelling, read_record, event_in, IsEvent, IsEventOf};
ghost use Rattle.spp_event.specs.Texts.{event_fault_text};

use std::fmt;
use thiserror::Error;

/// One event of a recorded fork-join run, in serial order: after a spawn come the events of the child, its
/// return, and then the continuation of its parent (Cilk's depth-first order).
#[derive(Clone, Copy, Debug, PartialEq, Eq)]
pub enum Event {
    /// A strand: instructions that run in series, with no call, spawn, return or sync among them.
    Strand {
        /// How many instructions it has.
        count: u64,
    },
    /// A call: opens a frame that runs in series with its caller.
    Call {
        /// The call site, a number below the trace's number of sites.
        site: u32,
        /// The function that is called, a number below the trace's number of functions.
        func: u32,
    },
    /// A spawn: opens a frame that may run beside the continuation of its parent.
    Spawn {
        /// The call site, a number below the trace's number of sites.
        site: u32,
        /// The function that is spawned, a number below the trace's number of functions.
        func: u32,
    },
    /// A return: closes the innermost open frame.
    Ret,
    /// A sync: waits for all children that its frame has spawned so far.
    Sync,
}

/// What is wrong with the bytes of an event: the first of these checks, in this order, that fails.
#[derive(Clone, Copy, Debug, Error, PartialEq, Eq)]
pub enum EventFault {
    /// The bytes end before the record's sixteenth byte; in version 2, there are not so many items.
    Truncated,
    /// The first byte is the tag of no event.
    Tag,
    /// A byte that must be zero is not, in a trace of version 1.
    Padding,
    /// Behind the first byte stands something other than the operands of the event, each in its one spelling, in a
    /// trace of version 2.
    Operand,
    /// The site is not below the trace's number of sites.
    Site,
    /// The function is not below the trace's number of functions.
    Func,
}

impl fmt::Display for EventFault {
    ghost output = { λ f. Some (event_fault_text f) };

    fn fmt<W: fmt::Write>(&self, f: &mut fmt::Formatter<W>) -> fmt::Result {
        match self {
            EventFault::Truncated => write!(f, "truncated"),
            EventFault::Tag => write!(f, "tag"),
            EventFault::Padding => write!(f, "padding"),
            EventFault::Operand => write!(f, "operand"),
            EventFault::Site => write!(f, "site"),
            EventFault::Func => write!(f, "function"),
        }
    }
}

/// The one spelling of an event, as bytes of a trace of version 1.
pub fn record_of(event: Event) -> [u8; 16]
    ensures { result ≡ spelling event }
{
    match event {
        Event::Strand { count } => {
            let [b0, b1, b2, b3, c0, c1, c2, c3] = count.to_be_bytes();
            [0, 0, 0, 0, 0, 0, 0, 0, b0, b1, b2, b3, c0, c1, c2, c3]
        }
        Event::Call { site, func } => {
            let [a0, a1, a2, a3] = site.to_be_bytes();
            let [b0, b1, b2, b3] = func.to_be_bytes();
            [1, 0, 0, 0, a0, a1, a2, a3, b0, b1, b2, b3, 0, 0, 0, 0]
        }
        Event::Spawn { site, func } => {
            let [a0, a1, a2, a3] = site.to_be_bytes();
            let [b0, b1, b2, b3] = func.to_be_bytes();
            [2, 0, 0, 0, a0, a1, a2, a3, b0, b1, b2, b3, 0, 0, 0, 0]
        }
        Event::Ret => [3, 0, 0, 0, 0, 0, 0, 0, 0, 0, 0, 0, 0, 0, 0, 0],
        Event::Sync => [4, 0, 0, 0, 0, 0, 0, 0, 0, 0, 0, 0, 0, 0, 0, 0],
    }
}

/// The event that a whole record of version 1 spells, in a trace of so many sites and functions. The time is constant.
/// It reads two numbers of 64 bits, which is three times as fast as sixteen bytes.
///
/// # Errors
///
/// The first fault of its bytes, in the order of [`EventFault`]; `Truncated` and `Operand` are none of them.
#[inline(always)]
pub fn event_of(r: &[u8; 16], sites: u32, funcs: u32) -> Result<Event, EventFault>
    ensures said { result ≡ read_record sites funcs r.now }
    ensures within { IfOk result (λ e. IsEventOf sites funcs e) }
{
    let [
        a0,
        a1,
        a2,
        a3,
        a4,
        a5,
        a6,
        a7,
        b0,
        b1,
        b2,
        b3,
        b4,
        b5,
        b6,
        b7,
    ] = *r;
    let front = u64::from_be_bytes([a0, a1, a2, a3, a4, a5, a6, a7]);
    let back = u64::from_be_bytes([b0, b1, b2, b3, b4, b5, b6, b7]);
    if front == 0 {
        return Ok(Event::Strand { count: back });
    }
    let tag = front >> 56;
    match tag {
        0 => Err(EventFault::Padding),
        1 | 2 => {
            if (front >> 32) & 0xffffff != 0 || back & 0xffffffff != 0 {
                return Err(EventFault::Padding);
            }
            let site = (front & 0xffffffff) as u32;
            let func = (back >> 32) as u32;
            if site >= sites {
                return Err(EventFault::Site);
            }
            if func >= funcs {
                return Err(EventFault::Func);
            }
            if tag == 1 {
                Ok(Event::Call { site, func })
            } else {
                Ok(Event::Spawn { site, func })
            }
        }
        3 | 4 => {
            if front & 0xffffffffffffff != 0 || back != 0 {
                return Err(EventFault::Padding);
            }
            if tag == 3 {
                Ok(Event::Ret)
            } else {
                Ok(Event::Sync)
            }
        }
        _ => Err(EventFault::Tag),
    }
}

/// The event that the tag and the numbers of a whole record say. It is the record's event where the record spells one.
#[inline(always)]
pub(crate) fn event_said(r: &[u8; 16]) -> Event
    ensures said { result ≡ event_in r.now }
    ensures fits { IsEvent result }
{
    let [tag, _, _, _, a0, a1, a2, a3, b0, b1, b2, b3, b4, b5, b6, b7] = *r;
    let site = u32::from_be_bytes([a0, a1, a2, a3]);
    let func = u32::from_be_bytes([b0, b1, b2, b3]);
    match tag {
        0 => Event::Strand {
            count: u64::from_be_bytes([b0, b1, b2, b3, b4, b5, b6, b7]),
        },
        1 => Event::Call { site, func },
        2 => Event::Spawn { site, func },
        3 => Event::Ret,
        _ => Event::Sync,
    }
}
