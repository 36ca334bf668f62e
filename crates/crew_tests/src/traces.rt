//! Traces in parts.

use spp_cut::{Cut, Parts, cut_even};
use spp_event::{Event, Trace};
use std::alloc::{AllocError, Global};

/// A trace in so many even parts; none where there can't be so many, or an allocation failed.
pub(crate) fn evenly<'t, 'a>(
    alloc: Global,
    trace: &'t Trace<'a>,
    parts: u32,
) -> Option<Cut<'t, 'a>> {
    cut_even(alloc, trace, Parts::new(parts)?).ok()
}

/// A trace in parts of one event; none where an allocation failed.
pub(crate) fn singly<'t, 'a>(alloc: Global, trace: &'t Trace<'a>) -> Option<Cut<'t, 'a>> {
    evenly(alloc, trace, trace.count().clamp(1, Parts::MOST))
}

/// A thousand frames within one another, which are opened by that event, then a thousand strands of one instruction in
/// the innermost, then all returns.
///
/// # Errors
///
/// Where an allocation failed.
pub(crate) fn thousand(alloc: Global, open: Event) -> Result<Vec<Event>, AllocError> {
    let mut events = Vec::new(alloc);
    for event in [open, Event::Strand { count: 1 }, Event::Ret] {
        push_times(&mut events, event, 1000)?;
    }
    Ok(events)
}

/// Adds the event so many times.
fn push_times(events: &mut Vec<Event>, event: Event, times: u32) -> Result<(), AllocError> {
    for _time in 0..times {
        events.push(event)?;
    }
    Ok(())
}
