//! The figures and tables of a run as text for a reader.

ghost use Rattle.std.specs.Prelude.{◌≡◌, ◌++◌, ◌<◌, ◌^◌, length, codes, IfOk, OnOk};
ghost use Rattle.std.specs.List.{flat_map, range_with_len};
ghost use Rattle.spp_report.specs.Csv.{cells};
ghost use Rattle.spp_report.specs.Plain.{aligned, plain_text as text_of_profile, row_line, site_line, titled_table};

use crate::cells::numbers;
use crate::figures::figures_text;
use crate::named::Named;
use itoa::Buffer;
use spp_event::Trace;
use spp_site::{Row, Table};
use std::alloc::{AllocError, Global};

/// How many places a column has at least.
const WIDTH: usize = 12;

/// As many spaces.
const SPACES: [u8; WIDTH] = [b' '; WIDTH];

/// The names of the columns.
const HEADINGS: &str = "       count        local   site_count    site_work    site_span \
caller_count  caller_work  caller_span name\n";

/// Adds a cell, with spaces before it that fill its column, and one behind it.
pub(crate) fn push_cell(text: &mut Vec<u8>, cell: &str) -> Result<(), AllocError>
    ensures { OnOk result (text.new.items ≡ text.old.items ++ (aligned cell.now ++ codes " ")) }
{
    text.extend_from_slice(&SPACES[cell.len().min(WIDTH)..])?;
    text.extend_from_slice(cell.as_bytes())?;
    text.extend_from_slice(b" ")
}

/// Adds the line of a row.
fn push_row(text: &mut Vec<u8>, row: &Row, name: &str) -> Result<(), AllocError>
    ensures { OnOk result (text.new.items ≡ text.old.items ++ row_line (cells row.now) name.now) }
{
    let mut digits = Buffer::new();
    for number in &numbers(row) {
        push_cell(text, digits.format(*number))?;
    }
    text.extend_from_slice(name.as_bytes())?;
    text.extend_from_slice(b"\n")
}

/// Adds the line of each site that has frames, in order.
fn push_sites(text: &mut Vec<u8>, trace: &Trace<'_>, table: &Table) -> Result<(), AllocError>
    ensures { OnOk result (text.new.items ≡ text.old.items ++ flat_map (site_line trace.now table.now) (range_with_len 0 (length trace.now.sites))) }
{
    for site in 0..trace.sites() {
        let row = table.row(site);
        if row.count > 0 {
            push_row(text, &row, trace.site_name(site))?;
        }
    }
    Ok(())
}

/// Adds an empty line, a title, and a table.
fn push_table(
    text: &mut Vec<u8>,
    title: &str,
    trace: &Trace<'_>,
    table: &Table,
) -> Result<(), AllocError>
    ensures { OnOk result (text.new.items ≡ text.old.items ++ titled_table title.now trace.now table.now) }
{
    text.extend_from_slice(b"\n")?;
    text.extend_from_slice(title.as_bytes())?;
    text.extend_from_slice(b"\n")?;
    text.extend_from_slice(HEADINGS.as_bytes())?;
    push_row(text, &table.root_row(), "(root)")?;
    push_sites(text, trace, table)
}

/// The profile of a run as text: the five lines of [`figures_text`], the table on the whole dag, the table on the first
/// greatest path, and the table on the first greatest burdened path. A table has a line for the root frame, and one for
/// each site with a frame in that table, in the order of the trace; its columns are right-aligned in at least 12 places. Counts are of frames; local counts, works
/// and spans are in instructions. The work is below 2^120. It takes memory linear in the text, and time linear in the
/// text and the number of sites.
///
/// # Errors
///
/// An allocation failed.
pub fn plain_text(alloc: Global, named: &Named<'_, '_>) -> Result<Vec<u8>, AllocError>
    requires { named.now.profile.now.figures.work < 2 ^ 120 }
    ensures { IfOk result (λ text. text.items ≡ text_of_profile named.now.trace.now named.now.profile.now) }
{
    let Named { trace, profile } = *named;
    let mut text = figures_text(alloc, &profile.figures)?;
    push_table(&mut text, "whole dag", trace, &profile.dag)?;
    push_table(&mut text, "first greatest path", trace, &profile.path)?;
    let burdened_path = &profile.burdened_path;
    push_table(
        &mut text,
        "first greatest burdened path",
        trace,
        burdened_path,
    )?;
    Ok(text)
}
