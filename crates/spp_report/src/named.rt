//! What a report tells.

use spp_event::Trace;
use spp_site::Profile;

/// The profile of a run, with the trace that has the names.
#[derive(Clone, Copy)]
pub struct Named<'t, 'a> {
    /// The trace of the run.
    pub trace: &'t Trace<'a>,
    /// Its profile.
    pub profile: &'t Profile,
}
