//! What was found where a fault was told, and at which byte.

use crate::front::{
    Header, Name, event_bytes, event_offset, header_of, is_text, name_of, operands, text_line,
};
use crate::input::Input;
use crate::line::Told;
use spp_event::{EventFault, HeaderFault};
use spp_frame::{Fault, Why};
use spp_text::TextFault;
use std::alloc::{AllocError, Global};
use std::io::ErrorKind;

/// The most bytes of a line that are shown.
const SHOWN: usize = 60;

const NO_ROOM: &str = "the system has no more memory";

/// The bytes in hexadecimal, with a blank before each.
fn in_hexadecimal(alloc: Global, bytes: &[u8]) -> Result<String, AllocError> {
    let mut text = String::new(alloc);
    for byte in bytes {
        text.push_str(format!(in alloc; " {byte:02x}")?.as_str())?;
    }
    Ok(text)
}

/// The bytes as a text; a `?` stands for each that is no printable ASCII.
fn as_text(alloc: Global, bytes: &[u8]) -> Result<String, AllocError> {
    let mut text = String::new(alloc);
    for byte in bytes.get(..SHOWN).unwrap_or(bytes) {
        let shown = if matches!(*byte, b' '..=b'~') {
            *byte
        } else {
            b'?'
        };
        text.push(char::from(shown))?;
    }
    if bytes.len() > SHOWN {
        text.push_str("..")?;
    }
    Ok(text)
}

/// What is wrong with the numbers of a header.
fn beyond_limits(alloc: Global, front: &[u8]) -> Result<String, AllocError> {
    let Some(header) = header_of(front) else {
        return "a number is outside its limits".to_string(alloc);
    };
    let (funcs, sites, events) = (header.funcs, header.sites, header.events);
    if funcs == 0 || funcs > 65536 {
        format!(in alloc; "byte 8: {funcs} functions")
    } else if sites > 65536 {
        format!(in alloc; "byte 12: {sites} sites")
    } else {
        format!(in alloc; "byte 20: {events} events")
    }
}

/// Which name it is, and what it is.
fn name_at(alloc: Global, front: &[u8], number: u32) -> Result<String, AllocError> {
    let funcs = header_of(front).map_or(0, |header| header.funcs);
    let whose = if number < funcs {
        format!(in alloc; "function {number}")?
    } else {
        let site = number - funcs;
        format!(in alloc; "site {site}")?
    };
    match name_of(front, number) {
        Some(Name { offset, len, bytes }) => {
            let text = as_text(alloc, bytes)?;
            format!(in alloc; "byte {offset}: the name of {whose}, of length {len}: '{text}'")
        }
        None => format!(in alloc; "the name of {whose}"),
    }
}

/// What follows the events that a header counts.
fn behind_events(alloc: Global, front: &[u8], header: Header) -> Result<String, AllocError> {
    let events = header.events;
    match event_offset(front, header, events) {
        Some(offset) => {
            format!(in alloc;
                "byte {offset}: more follows, and the header's number of events is {events}"
            )
        }
        None => format!(in alloc; "more follows, and the header's number of events is {events}"),
    }
}

fn of_header(alloc: Global, fault: HeaderFault, input: &Input<'_>) -> Result<String, AllocError> {
    let (front, len) = (input.front, input.len);
    match fault {
        HeaderFault::Short if len == 0 => "it is empty".to_string(alloc),
        HeaderFault::Short if !is_text(front) => {
            format!(in alloc; "byte {len}: it ends within its header")
        }
        HeaderFault::Short | HeaderFault::Magic => {
            let first = as_text(alloc, front.get(..8).unwrap_or(front))?;
            format!(in alloc; "byte 0: it begins with '{first}'")
        }
        HeaderFault::Limits => beyond_limits(alloc, front),
        HeaderFault::Name { number } | HeaderFault::SameName { number } => {
            name_at(alloc, front, number)
        }
        HeaderFault::RootFunc => match header_of(front) {
            Some(header) => {
                let (root, funcs) = (header.root, header.funcs);
                format!(in alloc;
                    "byte 16: root function {root}, and there are {funcs}, counted from 0"
                )
            }
            None => "the root function is none of the functions".to_string(alloc),
        },
        HeaderFault::Trailing => match header_of(front) {
            Some(header) => behind_events(alloc, front, header),
            None => "more follows than its events".to_string(alloc),
        },
        HeaderFault::Memory => NO_ROOM.to_string(alloc),
    }
}

/// The words for what is wrong with an event that has these bytes.
fn of_record(alloc: Global, why: Why, record: &[u8], header: Header) -> Result<String, AllocError> {
    let (sites, funcs, events) = (header.sites, header.funcs, header.events);
    match (why, operands(record, header)) {
        (Why::Event(EventFault::Site), Some((site, _))) => {
            format!(in alloc; "site {site}, and there are {sites}, counted from 0")
        }
        (Why::Event(EventFault::Func), Some((_, func))) => {
            format!(in alloc; "function {func}, and there are {funcs}, counted from 0")
        }
        (Why::Event(EventFault::Site), None) => format!(in alloc; "the number of sites is {sites}"),
        (Why::Event(EventFault::Func), None) => format!(in alloc;
            "the number of functions is {funcs}"
        ),
        (Why::Event(EventFault::Truncated), _) => {
            format!(in alloc; "it ends there, and the header's number of events is {events}")
        }
        (Why::Event(EventFault::Tag), _) => "its first byte is that of no event".to_string(alloc),
        (Why::Event(EventFault::Padding), _) => {
            "a byte that must be zero isn't".to_string(alloc)
        }
        (Why::Event(EventFault::Operand), _) => {
            "its numbers aren't in their one spelling".to_string(alloc)
        }
        (Why::RootReturn, _) => "a return while the root frame alone is open".to_string(alloc),
        (Why::Unclosed { depth }, _) => {
            format!(in alloc; "frames that are open where the trace ends: {depth}")
        }
    }
}

fn of_event(alloc: Global, fault: Fault, input: &Input<'_>) -> Result<String, AllocError> {
    let Fault { at, why } = fault;
    let Some(header) = header_of(input.front) else {
        return format!(in alloc; "event {at}: {why}");
    };
    let Some(offset) = event_offset(input.front, header, at) else {
        let what = of_record(alloc, why, &[], header)?;
        return format!(in alloc; "event {at}: {what}");
    };
    let record = event_bytes(input.front, header, offset);
    let what = of_record(alloc, why, record, header)?;
    if record.is_empty() {
        return format!(in alloc; "byte {offset}, event {at}: {what}");
    }
    let bytes = in_hexadecimal(alloc, record)?;
    format!(in alloc; "byte {offset}, event {at}, bytes{bytes}: {what}")
}

fn of_text(alloc: Global, fault: TextFault, input: &Input<'_>) -> Result<String, AllocError> {
    let line = fault.line;
    match text_line(input.front, line) {
        Some(bytes) => {
            let text = as_text(alloc, bytes)?;
            format!(in alloc; "line {line}: '{text}'")
        }
        None => format!(in alloc; "line {line}"),
    }
}

/// What the system told where an input can't be opened or read.
fn of_failure(alloc: Global, failure: Option<ErrorKind>) -> Result<String, AllocError> {
    let told = match failure {
        Some(ErrorKind::NotFound) => "no such file",
        Some(ErrorKind::PermissionDenied) => "no permission to read it",
        Some(ErrorKind::IsADirectory) => "it is a folder",
        Some(ErrorKind::NotADirectory) => "a part of its path is no folder",
        Some(ErrorKind::FilesystemLoop) => "links that lead to each other",
        Some(ErrorKind::InvalidFilename) => "no file can have this name",
        _ => "the system refuses it",
    };
    told.to_string(alloc)
}

/// What was found.
pub(crate) fn found(alloc: Global, told: Told, input: &Input<'_>) -> Result<String, AllocError> {
    match told {
        Told::Header(fault) => of_header(alloc, fault, input),
        Told::Event(fault) => of_event(alloc, fault, input),
        Told::Text(fault) => of_text(alloc, fault, input),
        Told::NoSite => "the trace names no such call site".to_string(alloc),
        Told::CannotOpen | Told::CannotRead => of_failure(alloc, input.failure),
        Told::TooLong => "it has more bytes than an input may have".to_string(alloc),
        Told::CannotWrite => match input.failure {
            Some(ErrorKind::StorageFull) => "there is no room left".to_string(alloc),
            Some(ErrorKind::QuotaExceeded) => "your share of the disk is used up".to_string(alloc),
            _ => "the system refuses to write".to_string(alloc),
        },
        Told::Memory => NO_ROOM.to_string(alloc),
    }
}
