//! Where the header of a trace ends, before it is opened.

ghost use Rattle.std.specs.Prelude.{◌≤◌, length};

use spp_event::is_name;

/// The bytes before the names.
const NUMBERS: usize = 24;

/// The most functions that a header may name, and the most sites.
const MOST_NAMES: u32 = 1 << 16;

/// The most events that a header may claim.
const MOST_EVENTS: u32 = 1 << 28;

/// A header that names at most so many functions and sites is opened twice where its trace is read whole: once for its
/// faults, before more is read, and then with the trace. For so few names that takes no time that counts.
const FEW_NAMES: u64 = 1 << 11;

/// A name that begins within so many bytes is judged when it is there, a later one when the header ends.
const JUDGED: usize = 1 << 16;

/// The most bytes that a name may have.
const LONGEST_NAME: usize = 200;

/// Looks for the end of a header in bytes that grow, and for what no trace begins with. It is advice, for opening a header
/// neither before it is there nor long after: what the bytes are is for [`open_trace`](spp_event::open_trace) to say.
#[derive(Drop)]
pub(crate) struct HeaderEnd {
    /// Where the next name begins; none where the numbers before the names weren't there yet.
    at: Option<usize>,
    /// How many names are left.
    names: u64,
    /// How many names are looked at, at most.
    most: u64,
}

/// What stands at the place of a name.
#[derive(Clone, Copy)]
enum Next {
    /// The bytes end before the name does.
    Missing,
    /// Bytes that are no name.
    Bad,
    /// A name that ends before this place.
    Name(usize),
}

/// The number of four bytes at a place; none where the bytes end before.
fn word(bytes: &[u8], at: usize) -> Option<u32> {
    let field = bytes.get(at..)?.first_chunk()?;
    Some(u32::from_be_bytes(*field))
}

/// How many names there are to be, by the numbers before them: 0 where no trace begins with these, `None` where they aren't
/// there.
fn names_behind(bytes: &[u8]) -> Option<u64> {
    let funcs = word(bytes, 8)?;
    let sites = word(bytes, 12)?;
    let root = word(bytes, 16)?;
    let events = word(bytes, 20)?;
    let magic = bytes.first_chunk();
    let is_trace = magic == Some(b"SPTRACE1") || magic == Some(b"SPTRACE2");
    let in_limits = funcs <= MOST_NAMES && sites <= MOST_NAMES && events <= MOST_EVENTS;
    if is_trace && in_limits && root < funcs {
        Some(u64::from(funcs) + u64::from(sites))
    } else {
        Some(0)
    }
}

/// How many of these bytes are the header that they begin with: 24, where no trace begins with its numbers, and all, where a name
/// isn't whole or is bad. It is advice, as [`HeaderEnd`] is.
pub(crate) fn header_len(bytes: &[u8]) -> usize
    ensures { result ≤ length bytes.now }
{
    let Some(names) = names_behind(bytes) else {
        return bytes.len();
    };
    let mut at = NUMBERS;
    for _ in 0..names {
        match next_in(bytes, at) {
            Next::Name(end) => at = end,
            _ => return bytes.len(),
        }
    }
    at.min(bytes.len())
}

/// How many of these bytes are worth opening for their header: where it names few, as many as [`header_len`] says; else all, since
/// to find where many names end takes longer than to go over the events that came.
pub(crate) fn front_len(bytes: &[u8]) -> usize
    ensures { result ≤ length bytes.now }
{
    if is_opened_early(bytes) {
        header_len(bytes)
    } else {
        bytes.len()
    }
}

/// Whether a front is worth opening for its faults alone: it names few functions and sites, or no trace begins with its
/// numbers.
pub(crate) fn is_opened_early(bytes: &[u8]) -> bool {
    names_behind(bytes).is_some_and(|names| names <= FEW_NAMES)
}

/// What stands at a place.
fn next_in(bytes: &[u8], at: usize) -> Next {
    let Some(rest) = bytes.get(at..) else {
        return Next::Missing;
    };
    let Some(field) = rest.first_chunk() else {
        return Next::Missing;
    };
    let len = usize::from(u16::from_be_bytes(*field));
    if len == 0 || len > LONGEST_NAME {
        return Next::Bad;
    }
    match rest.get(..2 + len) {
        Some(spelled) if at > JUDGED || is_name(&spelled[2..]) => Next::Name(at + spelled.len()),
        Some(_) => Next::Bad,
        None => Next::Missing,
    }
}

impl HeaderEnd {
    /// Before the first byte.
    pub(crate) fn new() -> HeaderEnd {
        HeaderEnd {
            at: None,
            names: 0,
            most: u64::MAX,
        }
    }

    /// The same, for a header that is opened early only where it names few: the end of few names is enough.
    pub(crate) fn of_few() -> HeaderEnd {
        HeaderEnd {
            at: None,
            names: 0,
            most: FEW_NAMES,
        }
    }

    /// Where the next name begins; none where the numbers before the names aren't there. Where no trace begins with these,
    /// no name is left.
    fn begun(&mut self, bytes: &[u8]) -> Option<usize> {
        if self.at.is_none() {
            self.names = names_behind(bytes)?.min(self.most);
            self.at = Some(NUMBERS);
        }
        self.at
    }

    /// Whether the header ends within these bytes, or begins with 24 bytes or names that are bad. The bytes are those of the
    /// calls before, and more. Where it ends, two sites may still have one name, and late names be bad. All calls together take a time
    /// linear in the bytes of the header, and in the number of calls.
    pub(crate) fn is_in(&mut self, bytes: &[u8]) -> bool {
        let Some(mut at) = self.begun(bytes) else {
            return false;
        };
        for _ in 0..self.names {
            match next_in(bytes, at) {
                Next::Bad => return true,
                Next::Missing => {
                    self.at = Some(at);
                    return false;
                }
                Next::Name(end) => at = end,
            }
            self.names = self.names.saturating_sub(1);
        }
        true
    }
}
