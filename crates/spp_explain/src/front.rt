//! What stands at the front of an input.

/// The numbers of a trace's header.
#[derive(Clone, Copy, Debug, PartialEq, Eq)]
pub(crate) struct Header {
    /// Whether the trace is in version 2, the compact one.
    pub(crate) is_compact: bool,
    /// How many functions it says.
    pub(crate) funcs: u32,
    /// How many sites.
    pub(crate) sites: u32,
    /// The root frame's function.
    pub(crate) root: u32,
    /// How many events.
    pub(crate) events: u32,
}

/// The bytes at an offset, so many of them.
fn bytes_at(front: &[u8], offset: usize, len: usize) -> Option<&[u8]> {
    front.get(offset..offset.checked_add(len)?)
}

/// The number in the four bytes at an offset.
fn word_at(bytes: &[u8], offset: usize) -> Option<u32> {
    match bytes_at(bytes, offset, 4)? {
        [a, b, c, d] => Some(u32::from_be_bytes([*a, *b, *c, *d])),
        _ => None,
    }
}

/// The number in the two bytes at an offset.
fn half_at(bytes: &[u8], offset: usize) -> Option<u16> {
    match bytes_at(bytes, offset, 2)? {
        [a, b] => Some(u16::from_be_bytes([*a, *b])),
        _ => None,
    }
}

/// The numbers of the header, where the bytes begin as those of a trace.
pub(crate) fn header_of(front: &[u8]) -> Option<Header> {
    let is_compact = match bytes_at(front, 0, 8)? {
        b"SPTRACE1" => false,
        b"SPTRACE2" => true,
        _ => return None,
    };
    Some(Header {
        is_compact,
        funcs: word_at(front, 8)?,
        sites: word_at(front, 12)?,
        root: word_at(front, 16)?,
        events: word_at(front, 20)?,
    })
}

/// A name of a header.
#[derive(Clone, Copy)]
pub(crate) struct Name<'a> {
    /// At which byte its length stands.
    pub(crate) offset: usize,
    /// Its length.
    pub(crate) len: u16,
    /// Its bytes, as far as they were kept.
    pub(crate) bytes: &'a [u8],
}

/// At which byte the name of that number begins, or what follows the names if there are no more; none where that wasn't kept.
fn name_offset(front: &[u8], number: u32) -> Option<usize> {
    let mut offset: usize = 24;
    for _ in 0..number {
        let len = usize::from(half_at(front, offset)?);
        offset = offset.checked_add(2)?.checked_add(len)?;
    }
    Some(offset)
}

/// The name of that number; none where it wasn't kept.
pub(crate) fn name_of(front: &[u8], number: u32) -> Option<Name<'_>> {
    let offset = name_offset(front, number)?;
    let len = half_at(front, offset)?;
    let rest = front.get(offset..)?.get(2..)?;
    let bytes = rest.get(..usize::from(len)).unwrap_or(rest);
    Some(Name { offset, len, bytes })
}

/// At which byte the records or items begin.
pub(crate) fn body_offset(front: &[u8], header: Header) -> Option<usize> {
    name_offset(front, header.funcs.checked_add(header.sites)?)
}

/// At which byte the item of an event begins in a body of version 2 that begins at an offset.
fn item_offset(front: &[u8], body: usize, event: u32) -> Option<usize> {
    let mut items: u32 = 0;
    for (at, byte) in front.get(body..)?.iter().enumerate() {
        if at == 0 || *byte >= 0x80 {
            if items == event {
                return body.checked_add(at);
            }
            items = items.checked_add(1)?;
        }
    }
    None
}

/// At which byte an event begins. In version 1 that needs no more than the names.
pub(crate) fn event_offset(front: &[u8], header: Header, event: u32) -> Option<usize> {
    let body = body_offset(front, header)?;
    if header.is_compact {
        return item_offset(front, body, event);
    }
    usize::try_from(event)
        .ok()?
        .checked_mul(16)?
        .checked_add(body)
}

/// The bytes of an event that begins at an offset, as far as they were kept, and at most 16.
pub(crate) fn event_bytes(front: &[u8], header: Header, offset: usize) -> &[u8] {
    let Some(bytes) = front.get(offset..) else {
        return &[];
    };
    for (len, byte) in bytes.iter().enumerate() {
        if len == 16 || (header.is_compact && len > 0 && *byte >= 0x80) {
            return bytes.get(..len).unwrap_or(bytes);
        }
    }
    bytes
}

/// The number that operands of version 2 begin with, in digits of base 64 of which the last has 40 added, and the rest.
fn operand(bytes: &[u8]) -> Option<(u32, &[u8])> {
    let mut number: u32 = 0;
    for (at, byte) in bytes.iter().enumerate() {
        number = number
            .checked_mul(64)?
            .checked_add(u32::from(*byte & 0x3f))?;
        if *byte >= 0x40 {
            return Some((number, bytes.get(at..)?.get(1..)?));
        }
    }
    None
}

/// The site and the function of a call or a spawn that has these bytes.
pub(crate) fn operands(record: &[u8], header: Header) -> Option<(u32, u32)> {
    if !header.is_compact {
        return Some((word_at(record, 4)?, word_at(record, 8)?));
    }
    let (site, rest) = operand(record.get(1..)?)?;
    Some((site, operand(rest)?.0))
}

/// The line of that number, from 1, as far as it was kept, without its end.
pub(crate) fn text_line(front: &[u8], number: u32) -> Option<&[u8]> {
    let mut rest = front;
    for _ in 1..number {
        let feed = rest.iter().position(|b| *b == b'\n')?;
        rest = rest.get(feed..)?.get(1..)?;
    }
    let end = rest.iter().position(|b| *b == b'\n');
    let line = rest.get(..end.unwrap_or(rest.len())).unwrap_or(rest);
    Some(line.strip_suffix(b"\r").unwrap_or(line))
}

/// Whether the bytes look like a text, and not like the front of a trace: there are some, and the first of them are printable
/// ASCII, blanks or ends of lines.
pub(crate) fn is_text(front: &[u8]) -> bool {
    let first = front.get(..256).unwrap_or(front);
    !first.is_empty()
        && !first.starts_with(b"SPTRACE")
        && first
            .iter()
            .all(|b| matches!(*b, b' '..=b'~' | b'\t' | b'\r' | b'\n'))
}
