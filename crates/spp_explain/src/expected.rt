//! What each fault goes against, how a recorder mostly comes to it, and what to do.

use crate::front::{header_of, is_text};
use crate::input::Input;
use crate::line::Told;
use spp_event::{EventFault, HeaderFault};
use spp_frame::Why;
use spp_request::Command;
use spp_text::TextWhy;
use std::io::ErrorKind;

/// What a fault goes against.
#[derive(Clone, Copy)]
pub(crate) struct Expected {
    /// What was expected.
    pub(crate) wanted: &'static str,
    /// How it mostly comes about.
    pub(crate) cause: &'static str,
    /// What to do.
    pub(crate) advice: &'static str,
}

fn of_header(fault: HeaderFault) -> Expected {
    match fault {
        HeaderFault::Short => Expected {
            wanted: "24 bytes, and then each name whole",
            cause: "a program that ended before all was written, or counts of names that weren't written",
            advice: "flush and close the file, and count the names that are written",
        },
        HeaderFault::Magic => Expected {
            wanted: "SPTRACE1 or SPTRACE2 as the first 8 bytes of a trace",
            cause: "other output in the same file, or another file than the recorder's",
            advice: "keep standard output apart, and name the file that the recorder wrote",
        },
        HeaderFault::Limits => Expected {
            wanted: "1 to 65536 functions, up to 65536 sites and up to 268435456 events",
            cause: "no function, numbers with their lowest byte first, or too many events",
            advice: "declare the root's function, write the highest byte first, or record less",
        },
        HeaderFault::Name { number: _ } => Expected {
            wanted: "names of 1 to 200 bytes, each printable ASCII, 0x20 to 0x7e",
            cause: "an empty name, a long one, one with a tab, an accent or a zero at its end, or a length that isn't of two bytes",
            advice: "cut the name and replace such bytes, and write its length in two bytes",
        },
        HeaderFault::SameName { number: _ } => OTHER_NAMES,
        HeaderFault::RootFunc => Expected {
            wanted: "a root function below the number of functions",
            cause: "functions numbered from 1, or a number with its lowest byte first",
            advice: "number functions from 0",
        },
        HeaderFault::Trailing => Expected {
            wanted: "no byte behind the events that the header counts",
            cause: "a count of events that is too small, as a 0 that was never replaced, or a trace appended to another",
            advice: "write the count when the run is over, and don't append",
        },
        HeaderFault::Memory => OF_MEMORY,
    }
}

fn of_event(why: Why) -> Expected {
    match why {
        Why::Event(EventFault::Truncated) => Expected {
            wanted: "as many whole events as the header counts",
            cause: "a count of events that is too great, or a file that was cut: a full disk, a killed program, a lost buffer",
            advice: "check each write and the close, or copy the file again",
        },
        Why::Event(EventFault::Tag) => Expected {
            wanted: "one of the first bytes 0x00 to 0x04 in version 1, 0x80 to 0x84 in version 2",
            cause: "tags numbered from 1, or records that aren't 16 bytes each",
            advice: "write records byte by byte, without a compiler's padding",
        },
        Why::Event(EventFault::Padding) => Expected {
            wanted: "zero in each byte that the event doesn't use",
            cause: "bytes that weren't set to 0, a tag of four bytes, or a number at a wrong place",
            advice: "set the 16 bytes of a record to 0 first",
        },
        Why::Event(EventFault::Operand) => Expected {
            wanted: "each number of the event in digits of base 64, the highest first and none a leading 0, with 0x40 added to the last",
            cause: "a file that was cut, a leading digit 0, no 0x40 added to the last, a number too many or too few, or one that is too great",
            advice: "compare with 'spprof migrate' of the same run",
        },
        Why::Event(EventFault::Site) => Expected {
            wanted: "a site below the number of sites in the header",
            cause: OF_NUMBERS,
            advice: NUMBER_AND_WRITE_LAST,
        },
        Why::Event(EventFault::Func) => Expected {
            wanted: "a function below the number of functions in the header",
            cause: OF_NUMBERS,
            advice: NUMBER_AND_WRITE_LAST,
        },
        Why::RootReturn => Expected {
            wanted: "no more returns than calls and spawns before them",
            cause: "a frame left twice, a return for the root frame, or a frame entered before recording began",
            advice: "return only from frames that were opened, and begin and end in the same function",
        },
        Why::Unclosed { depth: _ } => Expected {
            wanted: "a return for each call and spawn",
            cause: "frames left by exit, an exception, longjmp or an early return",
            advice: "note the return wherever a frame is left, and close what is open at the end",
        },
    }
}

fn of_text(why: TextWhy) -> Expected {
    match why {
        TextWhy::Word => Expected {
            wanted: "a line that begins with func, site, root, strand, call, spawn, return, sync or #",
            cause: "other output between the lines, a blank before func or site, a byte order mark, UTF-16, or bytes that aren't UTF-8",
            advice: "print to a file of its own, in ASCII",
        },
        TextWhy::Count => Expected {
            wanted: "one number behind root and strand, two behind call and spawn, none behind return and sync",
            cause: "a number that is missing or one too many, or a comment behind an event",
            advice: "print one event on a line, and comments on lines of their own",
        },
        TextWhy::Number => Expected {
            wanted: "decimal digits: below 2^64 behind strand, below 2^32 elsewhere",
            cause: "a sign, as of a count that went below 0, a point, an exponent, hexadecimal digits, or a name",
            advice: "print plain decimals without a sign",
        },
        TextWhy::Name => Expected {
            wanted: "a name of 1 to 200 bytes, each printable ASCII, one space behind func or site",
            cause: "an empty name, a long one, or one with a tab or an accent",
            advice: "cut the name and replace such bytes",
        },
        TextWhy::SameName => OTHER_NAMES,
        TextWhy::Limits => Expected {
            wanted: "at most 65536 functions, as many sites, and 268435456 events",
            cause: "names made for each call, as with an address in them",
            advice: "name places, not calls, or record less",
        },
        TextWhy::Late => Expected {
            wanted: "all func, site and root lines before the first event",
            cause: "names that are printed when they are first met",
            advice: "put these lines in front",
        },
        TextWhy::Root => Expected {
            wanted: "one root line at most, with a function that has a func line",
            cause: "two root lines, or functions numbered from 1",
            advice: "print one root line at most, and number functions from 0",
        },
        TextWhy::NoFunc => Expected {
            wanted: "a func line before the first event",
            cause: "an empty file, or events without the lines that name functions",
            advice: "put these lines in front",
        },
        TextWhy::Site => Expected {
            wanted: "a site below the number of site lines",
            cause: OF_PRINTED_NUMBERS,
            advice: NUMBER_AND_PRINT,
        },
        TextWhy::Func => Expected {
            wanted: "a function below the number of func lines",
            cause: OF_PRINTED_NUMBERS,
            advice: NUMBER_AND_PRINT,
        },
        TextWhy::Memory => OF_MEMORY,
    }
}

const OTHER_NAMES: Expected = Expected {
    wanted: "site names that differ from each other and from (root)",
    cause: "one site declared twice, as for two inlined copies of a function, or a site called (root)",
    advice: "look names up before they are added",
};

const OF_NUMBERS: &str =
    "site and function exchanged, numbers from 1 or with their lowest byte first, or names added after the header was written";

const NUMBER_AND_WRITE_LAST: &str =
    "write the site before the function, number from 0, and write header and names last";

const OF_PRINTED_NUMBERS: &str =
    "site and function exchanged, numbers from 1, or a name that isn't printed";

const NUMBER_AND_PRINT: &str =
    "print the site before the function, number from 0, and print a line for each name";

/// Where a trace was wanted and a text came.
const A_TRACE: Expected = Expected {
    wanted: "a trace, which begins with SPTRACE1 or SPTRACE2",
    cause: "a text where a trace is wanted",
    advice: "make a trace of the text: spprof encode TEXT > TRACE",
};

/// Where a text was wanted and a trace came.
const A_TEXT: Expected = Expected {
    wanted: "a trace as text",
    cause: "a trace where a text is wanted",
    advice: "check, figures, profile, advise, compare and migrate read it as it is",
};

const THE_SITE: Expected = Expected {
    wanted: "the name of a call site of the trace, byte for byte",
    cause: "the name of a function, or a name that the shell split or changed",
    advice: "copy the name from the report of profile, as in --site='NAME'",
};

const OF_MEMORY: Expected = Expected {
    wanted: "memory for what the command keeps of what it reads",
    cause: "a trace that is read whole or written, a line of a text, or frames that are open at a time, for which there isn't enough",
    advice: "record less, or with fewer sites",
};

fn of_unopened(failure: Option<ErrorKind>) -> Expected {
    let (cause, advice) = match failure {
        Some(ErrorKind::NotFound) => (
            "a recorder that wasn't loaded, ran in another folder, or had no right to write",
            "name the trace from the root",
        ),
        Some(ErrorKind::PermissionDenied) => (
            "a recorder that ran as another user",
            "ask for the right to read the file",
        ),
        _ => ("a name that leads to no file", "name a file"),
    };
    Expected {
        wanted: "a file that can be opened",
        cause,
        advice,
    }
}

const UNREAD: Expected = Expected {
    wanted: "a file that can be read",
    cause: "a folder in place of a file, or a device that failed",
    advice: "name a file",
};

const TOO_LONG: Expected = Expected {
    wanted: "at most 8589934592 bytes, in as many reads",
    cause: "a text that is too long, or a device without an end",
    advice: "record less",
};

fn of_unwritten(failure: Option<ErrorKind>) -> Expected {
    let (cause, advice) = match failure {
        Some(ErrorKind::StorageFull | ErrorKind::QuotaExceeded) => {
            ("a full disk", "free some room")
        }
        _ => (
            "a closed stream, or a device that failed",
            "write into a file",
        ),
    };
    Expected {
        wanted: "an output that takes all that is written",
        cause,
        advice,
    }
}

/// What is expected where a fault was told of an input, or of the output.
pub(crate) fn expected_at(told: Told, command: Command, input: &Input<'_>) -> Expected {
    match told {
        Told::Header(HeaderFault::Magic | HeaderFault::Short) if is_text(input.front) => A_TRACE,
        Told::Header(fault) => of_header(fault),
        Told::Event(fault) => of_event(fault.why),
        Told::Text(_) if command == Command::Encode && header_of(input.front).is_some() => A_TEXT,
        Told::Text(fault) => of_text(fault.why),
        Told::NoSite => THE_SITE,
        Told::CannotOpen => of_unopened(input.failure),
        Told::CannotRead => UNREAD,
        Told::TooLong => TOO_LONG,
        Told::CannotWrite => of_unwritten(input.failure),
        Told::Memory => OF_MEMORY,
    }
}
