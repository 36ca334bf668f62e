//! What can be wrong with a text.

ghost use Rattle.std.specs.Prelude.{◌≡◌, Some};
ghost use Rattle.spp_text.specs.declared.fault.TextWhy.TheVariants.{Memory};
ghost use Rattle.spp_text.specs.FaultTexts.{text_why_text};

use std::alloc::{AllocError, AllocFailed};
use std::fmt;
use thiserror::Error;

/// What is wrong with a line of a text: the first of its checks that fails. They come in this order:
///
/// - of a line that declares a function or a site: `Late`, `Limits`, `Name`, `SameName`;
/// - of a line that declares the root function: `Count`, `Number`, `Late`, `Root`;
/// - of another: `Word`; on the first line of an event, `NoFunc` and `Root`; then `Count`, `Number`, `Limits`, `Site`,
///   `Func`;
/// - of the end of a text without events, as of a line behind the last: `NoFunc`, `Root`.
#[derive(Clone, Copy, Debug, Error, PartialEq, Eq)]
pub enum TextWhy {
    /// The first word is none that a line may begin with.
    Word,
    /// The first word is followed by too few or too many others.
    Count,
    /// A word that should be a number is none, or is too great for its field.
    Number,
    /// A name has a length outside 1 to 200, or a byte that is not printable ASCII.
    Name,
    /// A site has the name of an earlier site, or that of the root's row.
    SameName,
    /// There are more functions, sites or events than a trace may have.
    Limits,
    /// A function, a site or the root function is declared behind an event.
    Late,
    /// A second root function is declared, or the one declared isn't below the number of functions.
    Root,
    /// The events begin, or the text ends, with no function declared.
    NoFunc,
    /// The site isn't below the number of sites.
    Site,
    /// The function isn't below the number of functions.
    Func,
    /// An allocation failed.
    Memory,
}

impl fmt::Display for TextWhy {
    ghost output = { λ why. Some (text_why_text why) };

    fn fmt<W: fmt::Write>(&self, f: &mut fmt::Formatter<W>) -> fmt::Result {
        match self {
            TextWhy::Word => write!(f, "word"),
            TextWhy::Count => write!(f, "count"),
            TextWhy::Number => write!(f, "number"),
            TextWhy::Name => write!(f, "name"),
            TextWhy::SameName => write!(f, "same name"),
            TextWhy::Limits => write!(f, "limits"),
            TextWhy::Late => write!(f, "late"),
            TextWhy::Root => write!(f, "root"),
            TextWhy::NoFunc => write!(f, "no function"),
            TextWhy::Site => write!(f, "site"),
            TextWhy::Func => write!(f, "function"),
            TextWhy::Memory => write!(f, "out of memory"),
        }
    }
}

impl From<AllocError> for TextWhy {
    ghost from_gives = { λ _ e. e ≡ Memory };

    fn from(_e: AllocError) -> TextWhy {
        TextWhy::Memory
    }
}

impl<T: Drop> From<AllocFailed<T>> for TextWhy {
    ghost from_gives = { λ _ e. e ≡ Memory };

    fn from(_e: AllocFailed<T>) -> TextWhy {
        TextWhy::Memory
    }
}

/// The first fault of the least line that has one.
#[derive(Clone, Copy, Debug, Error, PartialEq, Eq)]
#[error("line {line}: {why}")]
pub struct TextFault {
    /// The number of the line, from 1, or of the end, as of a line behind the last; 2^32 - 1 for that line and all after
    /// it. Where an allocation failed, too, it is one of these, and no line before it has a fault.
    pub line: u32,
    /// What is wrong with it.
    pub why: TextWhy,
}
