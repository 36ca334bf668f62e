//! The summary of a changed run, and its figures.
ghost use Rattle.std.specs.Prelude.{◌≡◌, ◌+◌, ◌<◌, ◌^◌, ℕ, length, IfOk};
ghost use Rattle.spp_event.specs.Readers.{Stands};
ghost use Rattle.spp_frame.specs.Nesting.{IsWellFormed};
ghost use Rattle.spp_dag.specs.Figures.{AreFigures};
ghost use Rattle.spp_change.specs.Changed.{innermost, changed};
ghost use Rattle.spp_piece.specs.Account.{account_of};
ghost use Rattle.spp_piece.specs.Bound.{IsSmall};
ghost use Rattle.spp_piece.specs.Summary.{summary_of};
ghost use Rattle.spp_summary.specs.Reading.{so_far, sites_in, IsLaid};

use crate::reading::Reading;
use crate::summary::Summary;
use spp_change::Change;
use spp_dag::Figures;
use spp_event::{Events, Reader, Trace};
use spp_maxplus::Burdens;
use std::alloc::{AllocError, Global};

impl Reading {
    /// The site by which the innermost open frame was entered; none where none is open.
    #[inline(always)]
    fn innermost(&self) -> Option<u32>
        ensures { result ≡ innermost (sites_in (so_far self.now).frames) }
    {
        match self.opens.last() {
            Some(open) => Some(open.site),
            None => None,
        }
    }

    /// What [`Reading::of_changed`] reads, by a reader that stands at the first event.
    fn of_changed_by<R: Reader>(
        alloc: Global,
        trace: &Trace<'_>,
        change: &Change,
        burdens: Burdens,
        mut reader: R,
    ) -> Result<Reading, AllocError>
        requires here { R.stands reader trace.now 0 }
        ensures value { IfOk result (λ r. so_far r ≡ summary_of burdens 0 (changed change.now trace.now.records)) }
        ensures laid { IfOk result (λ r. IsLaid r) }
        ensures small { IfOk result (λ r. IsSmall burdens (length trace.now.records) (so_far r)) }
    {
        // For what it states: each is a number of 32 bits.
        burdens.are_small();
        let events = trace.count();
        let mut reading = Reading::new(alloc);
        for k in 0..events {
            match reader.read(trace, k) {
                Ok(event) => {
                    let made = change.event(reading.innermost(), event);
                    reading.read(burdens, k, made)?;
                }
                Err(why) => {
                    reading.fault = Some((k, why));
                    return Ok(reading);
                }
            }
        }
        Ok(reading)
    }

    /// Reads the events of the changed run of a trace, up to the first bad record.
    ///
    /// # Errors
    ///
    /// Where an allocation failed.
    fn of_changed(
        alloc: Global,
        trace: &Trace<'_>,
        change: &Change,
        burdens: Burdens,
    ) -> Result<Reading, AllocError>
        ensures value { IfOk result (λ r. so_far r ≡ summary_of burdens 0 (changed change.now trace.now.records)) }
        ensures laid { IfOk result (λ r. IsLaid r) }
        ensures small { IfOk result (λ r. IsSmall burdens (length trace.now.records) (so_far r)) }
    {
        match trace.events() {
            Events::Records(reader) => {
                Reading::of_changed_by(alloc, trace, change, burdens, reader)
            }
            Events::Items(reader) => Reading::of_changed_by(alloc, trace, change, burdens, reader),
        }
    }
}

impl Summary {
    /// The summary of the changed run of a trace, as [`Summary::summarise`] makes that of the run: in the same time and
    /// memory, without a copy of the events.
    ///
    /// # Errors
    ///
    /// Where an allocation failed.
    pub fn of_changed(
        alloc: Global,
        trace: &Trace<'_>,
        change: Change,
        burdens: Burdens,
    ) -> Result<Summary, AllocError>
        ensures { IfOk result (λ s. s ≡ account_of burdens 0 (changed change trace.now.records)) }
    {
        // For what it states: each is a number of 32 bits.
        burdens.are_small();
        let events = trace.count();
        let reading = Reading::of_changed(alloc, trace, &change, burdens)?;
        Ok(Summary {
            burdens,
            first: 0,
            events,
            storage: reading.finish(),
        })
    }
}

/// The figures of the changed run of a well-formed trace, which is well-formed too. The work is below 2^92.
///
/// It takes the time and memory of [`Summary::of_changed`].
///
/// # Errors
///
/// Where an allocation failed.
pub fn changed_figures(
    alloc: Global,
    trace: &Trace<'_>,
    change: Change,
    burdens: Burdens,
) -> Result<Figures, AllocError>
    requires { IsWellFormed trace.now.records }
    ensures figures { IfOk result (λ f. AreFigures (changed change trace.now.records) burdens f) }
    ensures small { IfOk result (λ f. f.work < 2 ^ 92) }
{
    let summary = Summary::of_changed(alloc, trace, change, burdens)?;
    match summary.finish() {
        Ok(figures) => Ok(figures),
        Err(_) => unreachable!(),
    }
}
