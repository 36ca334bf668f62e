//! Cutting a trace into parts.

ghost use Rattle.std.specs.Prelude.{◌≡◌, ◌-◌, ◌<◌, ◌≤◌, ◌∷◌, ◌++◌, [], flat_map, length, IfOk, IfErr, OnOk, Some};
ghost use Rattle.spp_cut.specs.Parts.{IsCut, HasFewParts, part_of, events_in, records_in};
ghost use Rattle.spp_cut.specs.Cuts.{AreEven, AreInOrder, BeginAt, AreGoodTo, IsCutFault};
ghost use Rattle.spp_cut.specs.Texts.{cut_fault_text};
ghost use Rattle.spp_cut.specs.declared.cutting.CutFault.TheVariants.{Memory as MemoryFault};

use crate::part::Part;
use crate::parts::Parts;
use spp_event::Trace;
use std::alloc::{AllocError, Global};
use std::fmt;
use std::marker::Model;
use thiserror::Error;

/// The most cuts: one less than the most parts.
pub(crate) const MOST_CUTS: usize = 65535;

/// A trace, and 1 to 65,536 parts of it that hold its events in order, each once.
#[derive(Drop)]
pub struct Cut<'t, 'a> {
    trace: &'t Trace<'a>,
    parts: Vec<Part<'t, 'a>>,
}

impl<'t, 'a> Model for Cut<'t, 'a> {
    ghost use Rattle.spp_cut.specs.Parts.{CutOf, IsCut, HasFewParts};

    ghost Value = { CutOf };

    ghost view = { λ c. record { trace = c.trace.now; parts = c.parts.items } };

    ghost invariant = { λ c.
        IsCut (record { trace = c.trace.now; parts = c.parts.items })
        × HasFewParts (record { trace = c.trace.now; parts = c.parts.items }) };
}

impl<'t, 'a> Cut<'t, 'a> {
    /// The trace.
    pub fn trace(&self) -> &'t Trace<'a>
        ensures { result.now ≡ self.now.trace }
    {
        self.trace
    }

    /// Its parts, in order: 1 to 65,536. Its clause `all` gives out that they hold all its events, each once.
    #[tactic(auto, using(crate::proofs::Whole::all_records, crate::proofs::Halves::all_events))]
    pub fn parts(&self) -> &[Part<'t, 'a>]
        ensures parts { result.now ≡ self.now.parts }
        ensures few { HasFewParts self.now }
        ensures cut { IsCut self.now }
        ensures all { flat_map records_in self.now.parts ≡ self.now.trace.records }
        ensures events { events_in self.now.parts ≡ length self.now.trace.records }
    {
        &self.parts
    }
}

/// Why a trace isn't cut.
#[derive(Clone, Copy, Debug, Error, PartialEq, Eq)]
pub enum CutFault {
    /// There are more than 65,535 cuts.
    TooMany,
    /// The cut at this place in the list is above the number of events, or of bytes; all before it are good.
    OutOfRange {
        /// The place.
        index: u32,
    },
    /// The cut at this place isn't above the one before it; all before it are good.
    NotRising {
        /// The place.
        index: u32,
    },
    /// An allocation failed.
    Memory,
}

impl fmt::Display for CutFault {
    ghost output = { λ f. Some (cut_fault_text f) };

    fn fmt<W: fmt::Write>(&self, f: &mut fmt::Formatter<W>) -> fmt::Result {
        match self {
            CutFault::TooMany => write!(f, "too many cuts"),
            CutFault::OutOfRange { index } => write!(f, "cut {index} is behind the end"),
            CutFault::NotRising { index } => write!(f, "cut {index} is not above the one before"),
            CutFault::Memory => write!(f, "out of memory"),
        }
    }
}

impl From<AllocError> for CutFault {
    ghost from_gives = { λ _ e. e ≡ MemoryFault };

    fn from(_e: AllocError) -> CutFault {
        CutFault::Memory
    }
}

/// Adds the part of the events from `first` on up to `end`.
fn push_part<'t, 'a>(
    parts: &mut Vec<Part<'t, 'a>>,
    trace: &'t Trace<'a>,
    number: u32,
    first: u32,
    end: u32,
) -> Result<(), AllocError>
    requires rising { first ≤ end }
    requires within { end ≤ length trace.now.records }
    ensures { OnOk result (parts.new.items ≡ parts.old.items ++ part_of trace.now number first (end - first) ∷ []) }
{
    parts.push(Part {
        trace,
        number,
        first,
        count: end - first,
    })?;
    Ok(())
}

/// Cuts a trace of E events into so many parts of about the same size: part k of n begins at k * E / n, rounded down.
/// Some have no event where there are more parts than events. It takes time and memory linear in the number of parts.
///
/// # Errors
///
/// Where an allocation failed.
pub fn cut_even<'t, 'a>(
    alloc: Global,
    trace: &'t Trace<'a>,
    parts: Parts,
) -> Result<Cut<'t, 'a>, AllocError>
    ensures trace { IfOk result (λ c. c.trace ≡ trace.now) }
    ensures cut { IfOk result IsCut }
    ensures even { IfOk result (λ c. AreEven (length trace.now.records) parts c.parts) }
{
    let events = trace.count();
    let count = parts.number();
    let mut cut = Vec::with_capacity(alloc, count as usize)?;
    let mut first = 0;
    for number in 0..count {
        let end = (u64::from(number + 1) * u64::from(events) / u64::from(count)) as u32;
        push_part(&mut cut, trace, number, first, end)?;
        first = end;
    }
    Ok(Cut { trace, parts: cut })
}

/// Looks for the first bad cut.
fn check_cuts(events: u32, cuts: &[u32]) -> Result<(), CutFault>
    ensures good { IfOk result (λ _. AreGoodTo events cuts.now (length cuts.now) × (length cuts.now ≤ 65535)) }
    ensures bad { IfErr result (λ f. IsCutFault events cuts.now f) }
{
    if cuts.len() > MOST_CUTS {
        return Err(CutFault::TooMany);
    }
    for index in 0..cuts.len() {
        if cuts[index] > events {
            return Err(CutFault::OutOfRange {
                index: index as u32,
            });
        }
        if index > 0 && cuts[index] <= cuts[index - 1] {
            return Err(CutFault::NotRising {
                index: index as u32,
            });
        }
    }
    Ok(())
}

/// The parts of a trace that begin at its first event and at these positions, in time and memory linear in their
/// number.
pub(crate) fn parts_at<'t, 'a>(
    alloc: Global,
    trace: &'t Trace<'a>,
    positions: &[u32],
) -> Result<Cut<'t, 'a>, AllocError>
    requires few { length positions.now ≤ 65535 }
    requires in_order { AreInOrder 0 positions.now (length trace.now.records) }
    ensures trace { IfOk result (λ c. c.trace ≡ trace.now) }
    ensures cut { IfOk result IsCut }
    ensures begins { IfOk result (λ c. BeginAt positions.now c.parts) }
{
    let events = trace.count();
    let mut parts = Vec::with_capacity(alloc, positions.len() + 1)?;
    let mut first = 0;
    for (number, end) in positions.iter().enumerate() {
        push_part(&mut parts, trace, number as u32, first, *end)?;
        first = *end;
    }
    push_part(&mut parts, trace, positions.len() as u32, first, events)?;
    Ok(Cut { trace, parts })
}

/// Cuts a trace at these positions, each 0 to the number of events and above the one before it: n cuts make n + 1
/// parts. It takes time and memory linear in the number of cuts.
///
/// # Errors
///
/// `TooMany` where there are more than 65,535, else the first bad cut, `OutOfRange` before `NotRising`, or `Memory`
/// where an allocation failed.
pub fn cut_at<'t, 'a>(
    alloc: Global,
    trace: &'t Trace<'a>,
    cuts: &[u32],
) -> Result<Cut<'t, 'a>, CutFault>
    ensures trace { IfOk result (λ c. c.trace ≡ trace.now) }
    ensures cut { IfOk result IsCut }
    ensures good { IfOk result (λ _. AreGoodTo (length trace.now.records) cuts.now (length cuts.now)) }
    ensures few { IfOk result (λ _. length cuts.now ≤ 65535) }
    ensures begins { IfOk result (λ c. BeginAt cuts.now c.parts) }
    ensures fault { IfErr result (λ f. IsCutFault (length trace.now.records) cuts.now f) }
{
    check_cuts(trace.count(), cuts)?;
    Ok(parts_at(alloc, trace, cuts)?)
}
