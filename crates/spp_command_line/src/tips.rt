//! What the user is shown where the text of `clap` would mislead.

use std::alloc::{AllocError, Global};
use std::convert::AsStr;

/// The numbers that an option takes, as `clap` writes them.
fn range_of(option: &str) -> Option<&'static str> {
    match option {
        "--burden" | "--join-burden" => Some("0..=4294967295"),
        "--parts" => Some("1..=65536"),
        "--workers" => Some("1..=64"),
        "--top" => Some("1..=65536"),
        "--faster" => Some("2..=1000"),
        _ => None,
    }
}

/// Whether a word begins as a number with a minus sign does.
fn is_negative(word: &str) -> bool {
    matches!(word.as_bytes(), [b'-', b'0'..=b'9', ..])
}

/// The text for a number with a minus sign that was given to an option, in the form that `clap` has for other numbers that
/// are out of range.
fn text_of_range(alloc: Global, option: &str, word: &str) -> Result<Option<String>, AllocError> {
    match range_of(option) {
        Some(range) if is_negative(word) => Ok(Some(format!(in alloc;
            "error: invalid value '{word}' for '{option} <N>': {word} is not in {range}\n\nFor more information, try '--help'.\n"
        )?)),
        _ => Ok(None),
    }
}

/// What to do where a command was given a word that it doesn't take; none where the text of `clap` says enough.
fn tip_for(command: &str, word: &str) -> Option<&'static str> {
    match word {
        "--csv" => Some("'--csv' is an option of 'profile' and 'advise'"),
        "--burden" => Some(
            "'--burden' is an option of 'figures', 'profile', 'advise' and 'compare'",
        ),
        "--join-burden" => Some(
            "'--join-burden' is an option of 'figures', 'profile', 'advise' and 'compare'",
        ),
        "--parts" => Some("'--parts' is an option of 'figures', 'profile', 'advise' and 'compare'"),
        "--workers" => Some(
            "'--workers' is an option of 'figures', 'profile', 'advise' and 'compare'",
        ),
        "--top" => Some("'--top' is an option of 'advise'"),
        "--faster" => Some("'--faster' is an option of 'advise'"),
        "--site" => Some("'--site' is an option of 'advise'"),
        _ if word.starts_with('-') => None,
        _ => match command {
            "figures" | "profile" | "advise" => Some(
                "'spprof compare' reads the traces of two runs",
            ),
            _ => None,
        },
    }
}

/// Whether a call site is asked for by its name.
fn names_site<S: AsStr>(words: &[S]) -> bool {
    for word in words {
        let word = word.as_str();
        if word == "--site" || word.starts_with("--site=") {
            return true;
        }
    }
    false
}

/// The text with that tip in place of its own.
fn with_tip(alloc: Global, text: &str, tip: &str) -> Result<Option<String>, AllocError> {
    match (text.split_once("\n\n"), text.split_once("\n\nUsage: ")) {
        (Some((fault, _)), Some((_, usage))) => {
            Ok(Some(format!(in alloc; "{fault}\n\n  tip: {tip}\n\nUsage: {usage}")?))
        }
        _ => Ok(None),
    }
}

/// The word that `clap` refuses by this text, as one that it doesn't expect.
fn refused_word(text: &str) -> Option<&str> {
    let rest = text.strip_prefix("error: unexpected argument '")?;
    Some(rest.split_once("' found")?.0)
}

/// What the user is shown for words that `clap` refuses by this text, in its place; none where it stays.
pub(crate) fn text_in_place<S: AsStr>(
    alloc: Global,
    words: &[S],
    text: &str,
) -> Result<Option<String>, AllocError> {
    let Some(refused) = refused_word(text) else {
        return Ok(None);
    };
    let mut before = "";
    for word in words {
        let word = word.as_str();
        if is_negative(refused) {
            if let Some(own) = text_of_range(alloc, before, word)? {
                return Ok(Some(own));
            }
        }
        before = word;
    }
    let command = words.get(1).map_or("", |word| word.as_str());
    let tip = if command == "advise" && names_site(words) {
        Some("a call site is named by one word, as in --site='NAME'")
    } else {
        tip_for(command, refused)
    };
    match tip {
        Some(tip) => with_tip(alloc, text, tip),
        None => Ok(None),
    }
}
