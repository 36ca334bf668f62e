//! Why a run has no figures, or no profile.

ghost use Rattle.std.specs.Prelude.{◌≡◌, Some};
ghost use Rattle.spp_frame.specs.Texts.{profile_fault_text};
ghost use Rattle.spp_frame.specs.declared.profile_fault.ProfileFault.TheVariants.{Bad, Memory as MemoryFault};

use crate::Fault;
use std::alloc::AllocError;
use std::fmt;
use thiserror::Error;

/// Why a run has no figures, or no profile.
#[derive(Clone, Copy, Debug, Error, PartialEq, Eq)]
pub enum ProfileFault {
    /// Its trace isn't well-formed; this is the first bad event.
    Bad(Fault),
    /// An allocation failed.
    Memory,
}

impl fmt::Display for ProfileFault {
    ghost output = { λ f. Some (profile_fault_text f) };

    fn fmt<W: fmt::Write>(&self, f: &mut fmt::Formatter<W>) -> fmt::Result {
        match self {
            ProfileFault::Bad(fault) => write!(f, "bad event {fault}"),
            ProfileFault::Memory => write!(f, "out of memory"),
        }
    }
}

impl From<AllocError> for ProfileFault {
    ghost from_gives = { λ _ e. e ≡ MemoryFault };

    fn from(_e: AllocError) -> ProfileFault {
        ProfileFault::Memory
    }
}

impl From<Fault> for ProfileFault {
    ghost from_gives = { λ fault e. e ≡ Bad fault };

    fn from(fault: Fault) -> ProfileFault {
        ProfileFault::Bad(fault)
    }
}
