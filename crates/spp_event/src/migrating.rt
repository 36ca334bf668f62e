//! A trace of either version, written in version 2.

ghost use Rattle.std.specs.Prelude.{◌≡◌, ◌++◌, ◌≤◌, length, map, take, Some, OnOk, IfOk, IfErr};
ghost use Rattle.std.specs.List.{flat_map, AllByRecursion};
ghost use Rattle.spp_event.specs.declared.migrating.MigrateFault.TheVariants.{Memory};
ghost use Rattle.spp_event.specs.Header.{IsName, IsTraceOf, header_spelling, name_spelling};
ghost use Rattle.spp_event.specs.Migrating.{AreGoodTo, IsMigrateFault, compact, item_in};
ghost use Rattle.spp_event.specs.Texts.{migrate_fault_text};

use crate::items::push_item;
use crate::reader::Reader;
use crate::records::EventFault;
use crate::traces::Trace;
use crate::version::Version;
use crate::writing::{push_head, push_name};
use std::alloc::{AllocError, Global};
use std::fmt;
use thiserror::Error;

/// Why a trace isn't written in version 2.
#[derive(Clone, Copy, Debug, Error, PartialEq, Eq)]
pub enum MigrateFault {
    /// The bytes of an event spell none: this is the first such event.
    Bad {
        /// Its position, from 0.
        at: u32,
        /// What is wrong with its bytes.
        why: EventFault,
    },
    /// An allocation failed.
    Memory,
}

impl fmt::Display for MigrateFault {
    ghost output = { λ f. Some (migrate_fault_text f) };

    fn fmt<W: fmt::Write>(&self, f: &mut fmt::Formatter<W>) -> fmt::Result {
        match self {
            MigrateFault::Bad { at, why } => write!(f, "bad event {at}: {why}"),
            MigrateFault::Memory => write!(f, "out of memory"),
        }
    }
}

impl From<AllocError> for MigrateFault {
    ghost from_gives = { λ _ e. e ≡ Memory };

    fn from(_e: AllocError) -> MigrateFault {
        MigrateFault::Memory
    }
}

/// Adds names, each behind its length.
fn push_names(bytes: &mut Vec<u8>, names: &[&str]) -> Result<(), AllocError>
    requires { AllByRecursion IsName (map (λ n. n.now) names.now) }
    ensures { OnOk result (bytes.new.items ≡ bytes.old.items ++ flat_map name_spelling (map (λ n. n.now) names.now)) }
{
    for name in names {
        push_name(bytes, name.as_bytes())?;
    }
    Ok(())
}

/// The header of a trace in version 2.
pub(crate) fn header_of(alloc: Global, trace: &Trace<'_>) -> Result<Vec<u8>, AllocError>
    ensures { IfOk result (λ bytes. bytes.items ≡ header_spelling (compact trace.now)) }
{
    trace.keeps_limits();
    let mut bytes = Vec::new(alloc);
    push_head(
        &mut bytes,
        Version::Two,
        trace.funcs(),
        trace.sites(),
        trace.root(),
        trace.count(),
    )?;
    push_names(&mut bytes, trace.func_names())?;
    push_names(&mut bytes, trace.site_names())?;
    Ok(bytes)
}

/// The bytes of a trace of version 2 that has the names, the root function and the events of this one, whatever its
/// version. Whether its frames nest isn't looked at.
///
/// The time is linear in the length of the names, the number of events and, in version 2, the length of the body. What
/// it gives has at most 12 bytes for each event besides the header, and may have room for twice that.
///
/// # Errors
///
/// The first bad event, or `Memory` where an allocation failed.
pub fn migrate(alloc: Global, trace: &Trace<'_>) -> Result<Vec<u8>, MigrateFault>
    ensures good { IfOk result (λ _. AreGoodTo trace.now.records (length trace.now.records)) }
    ensures bytes { IfOk result (λ bytes. IsTraceOf bytes.items (compact trace.now)) }
    ensures fault { IfErr result (λ f. IsMigrateFault trace.now.records f) }
{
    let mut bytes = header_of(alloc, trace)?;
    let mut events = trace.events();
    for at in 0..trace.count() {
        match events.read(trace, at) {
            Ok(event) => push_item(&mut bytes, event)?,
            Err(why) => return Err(MigrateFault::Bad { at, why }),
        }
    }
    Ok(bytes)
}
