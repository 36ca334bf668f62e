//! Whether the frames of a trace nest, and its work.
#![tactic(auto)]

ghost use Rattle.std.specs.Prelude.{◌≡◌, IfOk, IfErr, Some};
ghost use Rattle.spp_frame.specs.Texts.{why_text, fault_text};
ghost use Rattle.spp_frame.specs.Nesting.{IsWellFormed, IsFirstBad, work, FirstBadIsOne, WellFormedHasNone, WellFormedOrBad, WellFormedAreEvents};

mod frames;
mod profile_fault;
mod record_check;

pub use profile_fault::ProfileFault;
pub use record_check::RecordCheck;
use spp_event::{Event, EventFault, Events, Reader, Trace};
use std::fmt;
use thiserror::Error;

/// What is wrong at a position of a trace.
#[derive(Clone, Copy, Debug, Error, PartialEq, Eq)]
pub enum Why {
    /// The record spells no event of the trace.
    Event(EventFault),
    /// A return stands where only the root frame is open.
    RootReturn,
    /// Frames are open at the end.
    Unclosed {
        /// How many, the root frame not counted.
        depth: u32,
    },
}

/// The first bad event of a trace that isn't well-formed.
#[derive(Clone, Copy, Debug, Error, PartialEq, Eq)]
pub struct Fault {
    /// Its position, from 0. The end of the trace is the position after the last event.
    pub at: u32,
    /// What is wrong there.
    pub why: Why,
}

impl fmt::Display for Why {
    ghost output = { λ w. Some (why_text w) };

    fn fmt<W: fmt::Write>(&self, f: &mut fmt::Formatter<W>) -> fmt::Result {
        match self {
            Why::Event(fault) => write!(f, "{fault}"),
            Why::RootReturn => write!(f, "root return"),
            Why::Unclosed { depth } => write!(f, "unclosed {depth}"),
        }
    }
}

impl fmt::Display for Fault {
    ghost output = { λ f. Some (fault_text f) };

    fn fmt<W: fmt::Write>(&self, f: &mut fmt::Formatter<W>) -> fmt::Result {
        let Fault { at, why } = self;
        write!(f, "{at}: {why}")
    }
}

/// What [`check`] says, by a reader that stands at the first event.
fn check_by<R: Reader>(trace: &Trace<'_>, mut events: R) -> Result<u128, Fault>
    requires { R.stands events trace.now 0 }
    ensures work { IfOk result (λ w. IsWellFormed trace.now.records × (w ≡ work trace.now.records)) }
    ensures fault { IfErr result (λ f. IsFirstBad trace.now.records f) }
{
    let mut work: u128 = 0;
    let mut depth: u32 = 0;
    for at in 0..trace.count() {
        let event = match events.read(trace, at) {
            Ok(event) => event,
            Err(fault) => {
                return Err(Fault {
                    at,
                    why: Why::Event(fault),
                });
            }
        };
        match event {
            Event::Strand { count } => work += u128::from(count),
            Event::Call { .. } | Event::Spawn { .. } => depth += 1,
            Event::Ret => {
                if depth == 0 {
                    return Err(Fault {
                        at,
                        why: Why::RootReturn,
                    });
                }
                depth -= 1;
            }
            Event::Sync => {}
        }
    }
    if depth > 0 {
        return Err(Fault {
            at: trace.count(),
            why: Why::Unclosed { depth },
        });
    }
    Ok(work)
}

/// The work of a well-formed trace, in instructions: the sum of the counts of all its strands.
///
/// The time is linear in the number of events and, in version 2, in the length of the body. It takes no memory.
///
/// # Errors
///
/// The first bad event: the least position at which the record is bad, or at which a return stands while only the
/// root frame is open; if there is none and frames are open at the end, that.
pub fn check(trace: &Trace<'_>) -> Result<u128, Fault>
    ensures work { IfOk result (λ w. IsWellFormed trace.now.records × (w ≡ work trace.now.records)) }
    ensures fault { IfErr result (λ f. IsFirstBad trace.now.records f) }
{
    match trace.events() {
        Events::Records(events) => check_by(trace, events),
        Events::Items(events) => check_by(trace, events),
    }
}

/// The laws of first bad events and well-formed traces. Its contract is what it is for.
pub fn nesting_laws()
    ensures one { FirstBadIsOne }
    ensures none { WellFormedHasNone }
    ensures either { WellFormedOrBad }
    ensures events { WellFormedAreEvents }
{}
