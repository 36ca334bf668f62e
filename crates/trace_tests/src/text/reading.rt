//! Traces out of text.

use super::printing::printed;
use super::{SMALL, TEXT};
use spp_text::{TextFault, TextWhy, parse_text};
use std::alloc::{AllocError, Global};
use std::test::Fail;

/// Whether the text names the trace of these bytes.
fn names(alloc: Global, text: &str, bytes: &[u8]) -> bool {
    match parse_text(alloc, text) {
        Ok(read) => read.as_slice() == bytes,
        Err(_) => false,
    }
}

/// Whether the text is refused for this line and cause.
fn refuses(alloc: Global, text: &str, line: u32, why: TextWhy) -> bool {
    match parse_text(alloc, text) {
        Ok(_) => false,
        Err(fault) => fault == TextFault { line, why },
    }
}

#[test]
fn a_small_text_names_its_trace(rt: HostRuntime) {
    assert!(rt; names(rt.alloc(), TEXT, SMALL));
    let bytes = b"SPTRACE1\x00\x00\x00\x01\x00\x00\x00\x00\x00\x00\x00\x00\x00\x00\x00\x01\
\x00\x04main\x00\x00\x00\x00\x00\x00\x00\x00\x00\x00\x00\x00\x00\x00\x00\x01";
    assert!(rt; names(rt.alloc(), "func main\nstrand 1\n", bytes.as_slice()));
}

#[test]
fn what_is_printed_is_read_as_the_same_bytes(rt: HostRuntime) {
    match printed(rt.alloc(), SMALL) {
        Some(Ok(text)) => assert!(rt; names(rt.alloc(), text.as_str(), SMALL)),
        _ => assert!(rt; false),
    }
}

/// The same text, laid out in other ways.
const LAYOUTS: &[&str] = &[
    // each line ended as on other systems
    "func main\r\nfunc f\r\nsite A\r\nroot 0\r\nstrand 1\r\nspawn 0 1\r\nstrand 10\r\nreturn\r\nstrand 4\r\nsync\r\nstrand 2\r\n",
    // no line feed at the end, and no root line
    "func main\nfunc f\nsite A\nstrand 1\nspawn 0 1\nstrand 10\nreturn\nstrand 4\nsync\nstrand 2",
    // comments, empty lines, blanks round words, leading zeros, and another order of the declarations
    "#\n# a run\n\n \t \nroot 00\nsite A\nfunc main\nfunc f\n\tstrand  1 \nspawn\t000 01\n strand 0010\nreturn\t\n#x\nstrand 4\n\nsync\nstrand 2\n\n",
];

#[test]
fn a_text_may_be_laid_out_freely(rt: HostRuntime) {
    for text in LAYOUTS {
        assert!(rt; names(rt.alloc(), text, SMALL), "{text}");
    }
}

#[test]
fn names_are_taken_as_they_stand(rt: HostRuntime) {
    let bytes = b"SPTRACE1\x00\x00\x00\x04\x00\x00\x00\x02\x00\x00\x00\x02\x00\x00\x00\x00\
\x00\x01 \x00\x06(root)\x00\x03a b\x00\x03a b\x00\x04 a  \x00\x01#";
    let text = "func  \nfunc (root)\nfunc a b\nfunc a b\nsite  a  \nsite #\nroot 2\n";
    assert!(rt; names(rt.alloc(), text, bytes.as_slice()));
}

#[test]
fn a_number_may_have_many_leading_zeros(rt: HostRuntime) -> Result<(), Fail> {
    let mut text = "func main\nstrand ".to_string(rt.alloc())?;
    for _ in 0..500 {
        text.push_str("0")?;
    }
    text.push_str("18446744073709551615")?;
    let bytes = b"SPTRACE1\x00\x00\x00\x01\x00\x00\x00\x00\x00\x00\x00\x00\x00\x00\x00\x01\
\x00\x04main\x00\x00\x00\x00\x00\x00\x00\x00\xff\xff\xff\xff\xff\xff\xff\xff";
    assert!(rt; names(rt.alloc(), text.as_str(), bytes.as_slice()));
    Ok(())
}

/// Texts with one fault.
const FAULTS: &[(&str, u32, TextWhy)] = &[
    ("func f\nfrob\n", 2, TextWhy::Word),
    ("func f\nstrand\n", 2, TextWhy::Count),
    ("func f\nstrand 1 2\n", 2, TextWhy::Count),
    ("func f\nsite A\ncall 0\n", 3, TextWhy::Count),
    ("func f\nsite A\nspawn 0 0 0\n", 3, TextWhy::Count),
    ("func f\nreturn 0\n", 2, TextWhy::Count),
    ("func f\nsync 0\n", 2, TextWhy::Count),
    ("root\n", 1, TextWhy::Count),
    ("func f\nstrand 1x\n", 2, TextWhy::Number),
    ("func f\nstrand 18446744073709551616\n", 2, TextWhy::Number),
    ("func f\ncall 4294967296 0\n", 2, TextWhy::Number),
    ("root 4294967296\n", 1, TextWhy::Number),
    ("func \n", 1, TextWhy::Name),
    ("func f\nsite a\tb\n", 2, TextWhy::Name),
    ("func f\nsite A\nsite B\nsite A\n", 4, TextWhy::SameName),
    ("func f\nsite (root)\n", 2, TextWhy::SameName),
    ("func f\nsync\nfunc g\n", 3, TextWhy::Late),
    ("func f\nsync\nsite A\n", 3, TextWhy::Late),
    ("func f\nsync\nroot 0\n", 3, TextWhy::Late),
    ("func f\nroot 0\nroot 0\n", 3, TextWhy::Root),
    ("func f\nroot 1\nsync\n", 3, TextWhy::Root),
    ("func f\nroot 1\n", 3, TextWhy::Root),
    ("", 1, TextWhy::NoFunc),
    ("strand x\n", 1, TextWhy::NoFunc),
    ("root 7\n ", 3, TextWhy::NoFunc),
    ("func f\ncall 0 0\n", 2, TextWhy::Site),
    ("func f\nsite A\nspawn 4294967295 9\n", 3, TextWhy::Site),
    ("func f\nsite A\ncall 0 1\n", 3, TextWhy::Func),
];

#[test]
fn each_fault_is_told_with_its_line(rt: HostRuntime) {
    for (text, line, why) in FAULTS {
        assert!(rt; refuses(rt.alloc(), text, *line, *why), "{text}");
    }
}

/// Texts with several faults, and the one that is told.
const FIRST_FAULTS: &[(&str, u32, TextWhy)] = &[
    // on the first line of an event: the word, no function, the root, and then the rest
    ("frob\n", 1, TextWhy::Word),
    ("strand\n", 1, TextWhy::NoFunc),
    ("func f\nroot 1\nstrand\n", 3, TextWhy::Root),
    ("func f\ncall 9 x\n", 2, TextWhy::Number),
    ("func f\nsite A\ncall 1 1\n", 3, TextWhy::Site),
    // of a root line: the number of words, the number, late, and then a second one
    ("func f\nsync\nroot x\n", 3, TextWhy::Number),
    ("func f\nroot 0\nsync\nroot 0\n", 4, TextWhy::Late),
    ("func f\nroot 0\nroot\n", 3, TextWhy::Count),
    // a declaration that comes late is told before its name is looked at
    ("func f\nsync\nsite \n", 3, TextWhy::Late),
    // the least line
    ("func f\nstrand x\nfrob\n", 2, TextWhy::Number),
];

#[test]
fn the_first_check_that_fails_is_told(rt: HostRuntime) {
    for (text, line, why) in FIRST_FAULTS {
        assert!(rt; refuses(rt.alloc(), text, *line, *why), "{text}");
    }
}

/// Texts with what only looks like a blank, the end of a line, a word, a number or a name.
const ODD_TEXTS: &[(&str, u32, TextWhy)] = &[
    // a carriage return is dropped only before a line feed, and only one
    ("func f\nsync\r", 2, TextWhy::Word),
    ("func f\nstrand 1\r", 2, TextWhy::Number),
    ("func main\r", 1, TextWhy::Name),
    ("func f\n\r", 2, TextWhy::Word),
    ("func f\n\r\r\n", 2, TextWhy::Word),
    // a declaration begins its line, and one space follows its word
    ("func\n", 1, TextWhy::Word),
    ("site\n", 1, TextWhy::Word),
    ("func\tmain\n", 1, TextWhy::Word),
    (" func main\n", 1, TextWhy::Word),
    ("Func main\n", 1, TextWhy::Word),
    // so does a comment
    (" # x\n", 1, TextWhy::Word),
    // a form feed, a no-break space and a byte order mark are no blanks
    ("func f\n\x0csync\n", 2, TextWhy::Word),
    ("func f\nsync\u{a0}\n", 2, TextWhy::Word),
    ("\u{feff}func f\n", 1, TextWhy::Word),
    // a number has digits alone
    ("func f\nstrand +1\n", 2, TextWhy::Number),
    ("func f\nstrand -1\n", 2, TextWhy::Number),
    ("func f\nstrand 1_0\n", 2, TextWhy::Number),
    ("func f\nstrand 0x1\n", 2, TextWhy::Number),
    ("func f\nstrand \u{661}\n", 2, TextWhy::Number),
    // a name is printable ASCII
    ("func \u{e9}\n", 1, TextWhy::Name),
    ("func \x7f\n", 1, TextWhy::Name),
];

#[test]
fn only_what_is_meant_parts_lines_and_words(rt: HostRuntime) {
    for (text, line, why) in ODD_TEXTS {
        assert!(rt; refuses(rt.alloc(), text, *line, *why), "{text}");
    }
}

/// A text of a function and a site, whose name has so many bytes.
fn with_a_name_of(alloc: Global, bytes: u32) -> Result<String, AllocError> {
    let mut text = "func f\nsite ".to_string(alloc)?;
    for _ in 0..bytes {
        text.push_str("x")?;
    }
    text.push_str("\n")?;
    Ok(text)
}

#[test]
fn a_name_has_at_most_200_bytes(rt: HostRuntime) -> Result<(), Fail> {
    let text = with_a_name_of(rt.alloc(), 200)?;
    assert!(rt; parse_text(rt.alloc(), text.as_str()).is_ok());
    let text = with_a_name_of(rt.alloc(), 201)?;
    assert!(rt; refuses(rt.alloc(), text.as_str(), 2, TextWhy::Name));
    Ok(())
}

/// A text of a function and then so many sites or functions more, which differ in their names.
fn with_many(alloc: Global, word: &str, count: u32) -> Result<String, AllocError> {
    let mut text = "func f\n".to_string(alloc)?;
    for n in 0..count {
        text.push_str(word)?;
        text.push_str(format!(in alloc; " {n}\n")?.as_str())?;
    }
    Ok(text)
}

#[test]
fn there_are_at_most_65536_functions_and_as_many_sites(rt: HostRuntime) -> Result<(), Fail> {
    let mut text = with_many(rt.alloc(), "site", 65536)?;
    assert!(rt; parse_text(rt.alloc(), text.as_str()).is_ok());
    text.push_str("site 0\n")?;
    assert!(rt; refuses(rt.alloc(), text.as_str(), 65538, TextWhy::Limits));
    let mut text = with_many(rt.alloc(), "func", 65535)?;
    assert!(rt; parse_text(rt.alloc(), text.as_str()).is_ok());
    text.push_str("func \n")?;
    assert!(rt; refuses(rt.alloc(), text.as_str(), 65537, TextWhy::Limits));
    Ok(())
}
