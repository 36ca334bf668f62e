//! What is told of a run whose profile is known.
ghost use Rattle.std.specs.Prelude.{◌≡◌, ◌<◌, ◌^◌, IfOk};
ghost use Rattle.spp_event.specs.Recordings.{Recording};
ghost use Rattle.spp_site.specs.declared.profile.Profile.{Profile};

use spp_report::Named;
use std::alloc::{AllocError, Global};

/// What is told of a run whose profile is known. Of its trace it depends on the names of the call sites alone.
pub(crate) trait Telling {
    /// What is told.
    type Told;

    // that is told of the run of a trace with that profile
    ghost tells: { Self → Recording → Profile → Self.Told → Type 0 };

    /// What is told of a run, whose trace has these names.
    ///
    /// # Errors
    ///
    /// Where an allocation failed.
    fn tell(&self, alloc: Global, named: &Named<'_, '_>) -> Result<Self::Told, AllocError>
        requires { named.now.profile.now.figures.work < 2 ^ 120 }
        ensures { IfOk result (λ told. (trace : Recording) → trace.sites ≡ named.now.trace.now.sites → tells self.now trace named.now.profile.now told) };
}
