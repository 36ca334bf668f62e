//! A trace as text.

ghost use Rattle.std.specs.Prelude.{◌≡◌, ◌++◌, List, length, IfOk, IfErr, OnOk, decimal, codes, map, Ok};
ghost use Rattle.std.specs.List.{flat_map};
ghost use Rattle.std.specs.String.{string_bytes};
ghost use Rattle.spp_event.specs.declared.records.Event.{Event as AnEvent};
ghost use Rattle.spp_text.specs.Parsed.{Names};
ghost use Rattle.spp_text.specs.Text.{func_line, site_line, root_line, event_line, text_of};
ghost use Rattle.spp_text.specs.Printed.{PrintsEvents, IsPrintFault};
ghost use Rattle.spp_text.specs.declared.print.PrintFault.TheVariants.{Memory};

use itoa::Buffer;
use spp_event::{Event, EventFault, Events, Reader, Trace};
use std::alloc::{AllocError, Global};
use thiserror::Error;

/// Why a trace has no text.
#[derive(Clone, Copy, Debug, Error, PartialEq, Eq)]
pub enum PrintFault {
    /// A record is bad. The least one is told.
    #[error("bad event {at}: {why}")]
    Bad {
        /// Its position, from 0.
        at: u32,
        /// What is wrong with it.
        why: EventFault,
    },
    /// An allocation failed.
    #[error("out of memory")]
    Memory,
}

impl From<AllocError> for PrintFault {
    ghost from_gives = { λ _ e. e ≡ Memory };

    fn from(_e: AllocError) -> PrintFault {
        PrintFault::Memory
    }
}

/// Adds a number in decimal.
fn push_number(text: &mut String, n: u64) -> Result<(), AllocError>
    ensures { OnOk result (string_bytes text.new ≡ string_bytes text.old ++ decimal n) }
{
    let mut digits = Buffer::new();
    text.push_str(digits.format(n))
}

/// Adds the lines that declare the functions.
fn push_funcs(text: &mut String, trace: &Trace<'_>) -> Result<(), AllocError>
    ensures { OnOk result (string_bytes text.new ≡ string_bytes text.old ++ flat_map func_line trace.now.funcs) }
{
    for n in 0..trace.funcs() {
        text.push_str("func ")?;
        text.push_str(trace.func_name(n))?;
        text.push_str("\n")?;
    }
    Ok(())
}

/// Adds the lines that declare the call sites.
fn push_sites(text: &mut String, trace: &Trace<'_>) -> Result<(), AllocError>
    ensures { OnOk result (string_bytes text.new ≡ string_bytes text.old ++ flat_map site_line trace.now.sites) }
{
    for n in 0..trace.sites() {
        text.push_str("site ")?;
        text.push_str(trace.site_name(n))?;
        text.push_str("\n")?;
    }
    Ok(())
}

/// Adds the line that names the root's function.
fn push_root(text: &mut String, root: u32) -> Result<(), AllocError>
    ensures { OnOk result (string_bytes text.new ≡ string_bytes text.old ++ root_line root) }
{
    text.push_str("root ")?;
    push_number(text, u64::from(root))?;
    text.push_str("\n")
}

/// Adds the line of an event that opens a frame, behind its first word.
fn push_open(text: &mut String, site: u32, func: u32) -> Result<(), AllocError>
    ensures { OnOk result (string_bytes text.new ≡ string_bytes text.old ++ (decimal site ++ (codes " " ++ (decimal func ++ codes "\n")))) }
{
    push_number(text, u64::from(site))?;
    text.push_str(" ")?;
    push_number(text, u64::from(func))?;
    text.push_str("\n")
}

/// Adds the line of an event.
fn push_event(text: &mut String, event: Event) -> Result<(), AllocError>
    ensures { OnOk result (string_bytes text.new ≡ string_bytes text.old ++ event_line event) }
{
    match event {
        Event::Strand { count } => {
            text.push_str("strand ")?;
            push_number(text, count)?;
            text.push_str("\n")
        }
        Event::Call { site, func } => {
            text.push_str("call ")?;
            push_open(text, site, func)
        }
        Event::Spawn { site, func } => {
            text.push_str("spawn ")?;
            push_open(text, site, func)
        }
        Event::Ret => text.push_str("return\n"),
        Event::Sync => text.push_str("sync\n"),
    }
}

/// Adds the lines of all events, by a reader that stands at the first.
fn push_events_by<R: Reader>(
    text: &mut String,
    trace: &Trace<'_>,
    mut events: R,
) -> Result<(), PrintFault>
    requires here { R.stands events trace.now 0 }
    ensures lines { OnOk result (PrintsEvents (length trace.now.sites) (length trace.now.funcs) (string_bytes text.old) trace.now.records (string_bytes text.new)) }
    ensures bad { IfErr result (λ fault. IsPrintFault trace.now.records fault) }
{
    for at in 0..trace.count() {
        let event = match events.read(trace, at) {
            Ok(event) => event,
            Err(why) => return Err(PrintFault::Bad { at, why }),
        };
        push_event(text, event)?;
    }
    Ok(())
}

/// Adds the lines of all events.
fn push_events(text: &mut String, trace: &Trace<'_>) -> Result<(), PrintFault>
    ensures lines { OnOk result (PrintsEvents (length trace.now.sites) (length trace.now.funcs) (string_bytes text.old) trace.now.records (string_bytes text.new)) }
    ensures bad { IfErr result (λ fault. IsPrintFault trace.now.records fault) }
{
    match trace.events() {
        Events::Records(events) => push_events_by(text, trace, events),
        Events::Items(events) => push_events_by(text, trace, events),
    }
}

/// The text form of a trace: its `func` lines, its `site` lines, its `root` line and the lines of its events, each
/// with one space between words and numbers without leading zeros.
///
/// The time and the memory are linear in the length of the text.
///
/// # Errors
///
/// `Bad` where a record is bad, with the least; `Memory` where an allocation failed.
pub fn print_text(alloc: Global, trace: &Trace<'_>) -> Result<String, PrintFault>
    ensures text { IfOk result (λ text. (es : List AnEvent) × (trace.now.records ≡ map (λ e. Ok e) es) × (string_bytes text ≡ text_of trace.now es)) }
    // Read again, it names the trace.
    ensures names { IfOk result (λ text. Names (string_bytes text) trace.now) }
    ensures bad { IfErr result (λ fault. IsPrintFault trace.now.records fault) }
{
    trace.keeps_limits();
    let mut text = String::new(alloc);
    push_funcs(&mut text, trace)?;
    push_sites(&mut text, trace)?;
    push_root(&mut text, trace.root())?;
    push_events(&mut text, trace)?;
    Ok(text)
}
