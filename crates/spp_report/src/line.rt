//! The lines of a table whose cells are numbers and ratios.

ghost use Rattle.std.specs.Prelude.{◌≡◌, ◌∷◌, ◌++◌, [], map, OnOk};
ghost use Rattle.spp_report.specs.Figures.{line};
ghost use Rattle.spp_report.specs.Advice.{told_cell};
ghost use Rattle.spp_report.specs.Plain.{row_line, spaced};

use crate::figures::text_of_ratio;
use crate::plain::push_cell;
use itoa::Buffer;
use std::alloc::{AllocError, Global};

/// A cell of a table.
#[derive(Clone, Copy, Debug, PartialEq, Eq)]
pub(crate) enum Cell {
    /// A number.
    Number(u128),
    /// A ratio in hundredths; none where its divisor is 0.
    Ratio(Option<u128>),
}

impl Cell {
    /// Adds it to a line.
    fn push(self, alloc: Global, text: &mut Vec<u8>) -> Result<(), AllocError>
        ensures { OnOk result (text.new.items ≡ text.old.items ++ spaced (told_cell self ∷ [])) }
    {
        match self {
            Cell::Number(n) => push_cell(text, Buffer::new().format(n)),
            Cell::Ratio(hundredths) => {
                let ratio = text_of_ratio(alloc, hundredths)?;
                push_cell(text, ratio.as_str())
            }
        }
    }
}

/// Adds a line: the cells, and then a name.
pub(crate) fn push_line(
    alloc: Global,
    text: &mut Vec<u8>,
    cells: &[Cell],
    name: &str,
) -> Result<(), AllocError>
    ensures { OnOk result (text.new.items ≡ text.old.items ++ row_line (map told_cell cells.now) name.now) }
{
    for cell in cells {
        cell.push(alloc, text)?;
    }
    text.extend_from_slice(name.as_bytes())?;
    text.extend_from_slice(b"\n")
}

/// Adds an empty line, a title, and the names of the columns with the end of their line.
pub(crate) fn push_title(text: &mut Vec<u8>, title: &str, headings: &str) -> Result<(), AllocError>
    ensures { OnOk result (text.new.items ≡ text.old.items ++ (line [] ++ line title.now ++ headings.now)) }
{
    text.extend_from_slice(b"\n")?;
    text.extend_from_slice(title.as_bytes())?;
    text.extend_from_slice(b"\n")?;
    text.extend_from_slice(headings.as_bytes())
}
