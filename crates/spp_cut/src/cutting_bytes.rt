//! Cutting the body of a trace of version 2 into parts.

ghost use Rattle.std.specs.Prelude.{◌≡◌, ◌≤◌, length, map, IfOk, IfErr};
ghost use Rattle.spp_event.specs.declared.version.Version.TheVariants.{Two};
ghost use Rattle.spp_cut.specs.Parts.{IsCut};
ghost use Rattle.spp_cut.specs.Cuts.{AreInOrder, BeginAt, AreGoodTo, IsCutFault, events_before};

use crate::cutting::{Cut, CutFault, MOST_CUTS, parts_at};
use spp_event::Trace;
use std::alloc::{AllocError, Global};

/// Looks for the first bad offset.
fn check_offsets(end: u64, cuts: &[u64]) -> Result<(), CutFault>
    ensures good { IfOk result (λ _. AreGoodTo end cuts.now (length cuts.now) × (length cuts.now ≤ 65535)) }
    ensures bad { IfErr result (λ f. IsCutFault end cuts.now f) }
{
    if cuts.len() > MOST_CUTS {
        return Err(CutFault::TooMany);
    }
    for index in 0..cuts.len() {
        if cuts[index] > end {
            return Err(CutFault::OutOfRange {
                index: index as u32,
            });
        }
        if index > 0 && cuts[index] <= cuts[index - 1] {
            return Err(CutFault::NotRising {
                index: index as u32,
            });
        }
    }
    Ok(())
}

/// How many events come before each of these offsets, in time linear in the last of them.
fn positions_of(alloc: Global, trace: &Trace<'_>, offsets: &[u64]) -> Result<Vec<u32>, AllocError>
    requires version { trace.now.version ≡ Two }
    requires in_order { AreInOrder 0 offsets.now (length trace.now.body) }
    ensures are { IfOk result (λ v. v.items ≡ map (events_before trace.now) offsets.now) }
{
    trace.keeps_limits();
    let mut positions = Vec::with_capacity(alloc, offsets.len())?;
    let mut from = 0;
    let mut before = 0;
    for offset in offsets {
        before += trace.items_between(from, *offset);
        from = *offset;
        positions.push(before)?;
    }
    Ok(positions)
}

/// Cuts a trace of version 2 at these offsets into its body, each 0 to the number of bytes and above the one before it:
/// n cuts make n + 1 parts. A cut within an item moves on to where the next one begins, or to the end. An event whose
/// item is missing is one of the last part. Some parts have no event where no item begins between their cuts.
///
/// It takes time linear in the length of the body and in the number of cuts, and memory linear in the number of cuts.
///
/// # Errors
///
/// `TooMany` where there are more than 65,535, else the first bad cut, `OutOfRange` before `NotRising`, or `Memory`
/// where an allocation failed.
pub fn cut_bytes<'t, 'a>(
    alloc: Global,
    trace: &'t Trace<'a>,
    cuts: &[u64],
) -> Result<Cut<'t, 'a>, CutFault>
    requires { trace.now.version ≡ Two }
    ensures trace { IfOk result (λ c. c.trace ≡ trace.now) }
    ensures cut { IfOk result IsCut }
    ensures good { IfOk result (λ _. AreGoodTo (length trace.now.body) cuts.now (length cuts.now)) }
    ensures few { IfOk result (λ _. length cuts.now ≤ 65535) }
    ensures begins { IfOk result (λ c. BeginAt (map (events_before trace.now) cuts.now) c.parts) }
    ensures fault { IfErr result (λ f. IsCutFault (length trace.now.body) cuts.now f) }
{
    trace.keeps_limits();
    check_offsets(trace.body_len(), cuts)?;
    let positions = positions_of(alloc, trace, cuts)?;
    Ok(parts_at(alloc, trace, &positions)?)
}
