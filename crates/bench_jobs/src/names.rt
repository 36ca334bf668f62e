//! What stands before the events: the header of a trace, or the lines of its text form.

use crate::blocks::Form;
use crate::kinds::Kind;
use std::alloc::{AllocError, Global};

/// Adds a number of four bytes, the highest first.
fn push_number(bytes: &mut Vec<u8>, number: u32) -> Result<(), AllocError> {
    bytes.extend_from_slice(number.to_be_bytes().as_slice())
}

/// The name of a function or of a call site.
fn name(alloc: Global, kind: Kind, number: u32, is_site: bool) -> Result<String, AllocError> {
    if is_site {
        let line = number.wrapping_mul(37) % 100_000;
        format!(in alloc; "{}.c:{line} call {number}", kind.name())
    } else {
        format!(in alloc; "function_{number}")
    }
}

/// Adds so many names, as the form has them.
fn push_names(
    alloc: Global,
    bytes: &mut Vec<u8>,
    kind: Kind,
    form: Form,
    is_site: bool,
) -> Result<(), AllocError> {
    let count = if is_site { kind.sites() } else { kind.funcs() };
    for number in 0..count {
        let text = name(alloc, kind, number, is_site)?;
        match form {
            Form::Records => {
                let len = text.len().min(200) as u16;
                bytes.extend_from_slice(len.to_be_bytes().as_slice())?;
                bytes.extend_from_slice(text.as_bytes())?;
            }
            Form::Lines => {
                let word = if is_site { "site " } else { "func " };
                bytes.extend_from_slice(word.as_bytes())?;
                bytes.extend_from_slice(text.as_bytes())?;
                bytes.extend_from_slice(b"\n")?;
            }
        }
    }
    Ok(())
}

/// What stands before so many events of a run of this kind.
pub(crate) fn front(
    alloc: Global,
    kind: Kind,
    form: Form,
    events: u32,
) -> Result<Vec<u8>, AllocError> {
    let mut bytes = Vec::new(alloc);
    if let Form::Records = form {
        bytes.extend_from_slice(b"SPTRACE1")?;
        push_number(&mut bytes, kind.funcs())?;
        push_number(&mut bytes, kind.sites())?;
        push_number(&mut bytes, 0)?;
        push_number(&mut bytes, events)?;
    }
    push_names(alloc, &mut bytes, kind, form, false)?;
    push_names(alloc, &mut bytes, kind, form, true)?;
    if let Form::Lines = form {
        bytes.extend_from_slice(b"root 0\n")?;
    }
    Ok(bytes)
}
