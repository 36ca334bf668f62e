//! The comparison of two runs by call site.

ghost use Rattle.std.specs.Prelude.{◌≡◌, ◌<◌, ◌^◌, ◌∷◌, ◌++◌, [], map, filter, is_none, IfOk, OnOk};
ghost use Rattle.spp_report.specs.Comparison.{both_figures, cell_text, cells_under, compare_line, compare_text as text_of_both, compared, row_after, row_before};
ghost use Rattle.std.specs.Option.{option_map};
ghost use Rattle.std.specs.List.{flat_map};
ghost use Rattle.spp_report.specs.Plain.{spaced};
ghost use Rattle.spp_report.specs.Runs.{told, told_row};

use crate::figures::{hundredths, text_of_ratio};
use crate::plain::push_cell;
use crate::run::{Cells, Run};
use itoa::Buffer;
use spp_dag::Figures;
use std::alloc::{AllocError, Global};
use std::hash::BuildHasher;

/// A row of a comparison.
#[derive(Clone, Copy, Debug, PartialEq, Eq)]
pub struct CompareRow<'n> {
    /// The name of the call site; `(root)` for the root frame.
    pub name: &'n str,
    /// Its cells in the run before; none where that run doesn't have the call site.
    pub before: Option<Cells>,
    /// Its cells in the run after.
    pub after: Option<Cells>,
}

/// Adds the row of each call site of the run before, in order.
fn push_before<'n, S: BuildHasher>(
    rows: &mut Vec<CompareRow<'n>>,
    before: &'n Run<S>,
    after: &Run<S>,
) -> Result<(), AllocError>
    ensures { OnOk result (map told_row rows.new.items ≡ map told_row rows.old.items ++ map (row_before (told after.now)) (told before.now).sites) }
{
    for (name, cells) in before.sites.iter() {
        rows.push(CompareRow {
            name: name.as_str(),
            before: Some(*cells),
            after: after.sites.get(name.as_str()).copied(),
        })?;
    }
    Ok(())
}

/// Adds the row of each call site that the run after alone has, in order.
fn push_after<'n, S: BuildHasher>(
    rows: &mut Vec<CompareRow<'n>>,
    before: &Run<S>,
    after: &'n Run<S>,
) -> Result<(), AllocError>
    ensures { OnOk result (map told_row rows.new.items ≡ map told_row rows.old.items ++ map row_after (filter (λ site. is_none (cells_under site.0 (told before.now))) (told after.now).sites)) }
{
    for (name, cells) in after.sites.iter() {
        if before.sites.contains_key(name.as_str()) {
            continue;
        }
        rows.push(CompareRow {
            name: name.as_str(),
            before: None,
            after: Some(*cells),
        })?;
    }
    Ok(())
}

/// Two runs, call site by call site: the row of the root, under the name `(root)`; the row of each call site of the run
/// before, in order; and that of each call site that the run after alone has, in order. Two call sites are one row where
/// their names are equal. It takes memory linear in the call sites, and as a rule time linear in their names.
///
/// # Errors
///
/// An allocation failed.
pub fn compare<'n, S: BuildHasher>(
    alloc: Global,
    before: &'n Run<S>,
    after: &'n Run<S>,
) -> Result<Vec<CompareRow<'n>>, AllocError>
    ensures { IfOk result (λ rows. map told_row rows.items ≡ compared (told before.now) (told after.now)) }
{
    let mut rows = Vec::new(alloc);
    rows.push(CompareRow {
        name: "(root)",
        before: Some(before.root),
        after: Some(after.root),
    })?;
    push_before(&mut rows, before, after)?;
    push_after(&mut rows, before, after)?;
    Ok(rows)
}

/// The figures of both runs as five lines, each with the figure of the run before, a space, and that of the run after.
fn text_of_figures(alloc: Global, before: &Figures, after: &Figures) -> Result<Vec<u8>, AllocError>
    requires before { before.now.work < 2 ^ 120 }
    requires after { after.now.work < 2 ^ 120 }
    ensures { IfOk result (λ text. text.items ≡ both_figures before.now after.now) }
{
    let (b, a) = (*before, *after);
    let plain_1 = text_of_ratio(alloc, hundredths(b.work, b.span))?;
    let plain_2 = text_of_ratio(alloc, hundredths(a.work, a.span))?;
    let burdened_1 = text_of_ratio(alloc, hundredths(b.work, b.burdened))?;
    let burdened_2 = text_of_ratio(alloc, hundredths(a.work, a.burdened))?;
    let text = format!(in alloc;
        "work {} {}\nspan {} {}\nburdened {} {}\nparallelism {plain_1} {plain_2}\nburdened parallelism {burdened_1} {burdened_2}\n",
        b.work, a.work, b.span, a.span, b.burdened, a.burdened
    )?;
    Ok(text.into_bytes())
}

/// The names of the columns.
const HEADINGS: &str =
    "     count_1      count_2      local_1      local_2       work_1       work_2       \
path_1       path_2 name\n";

/// Adds the cell of a number; a dash where there is none.
fn push_number(text: &mut Vec<u8>, number: Option<u128>) -> Result<(), AllocError>
    ensures { OnOk result (text.new.items ≡ text.old.items ++ spaced (cell_text number ∷ [])) }
{
    match number {
        None => push_cell(text, "-"),
        Some(n) => push_cell(text, Buffer::new().format(n)),
    }
}

/// The four numbers of cells, in the order of the columns; none where the run doesn't have the call site.
fn numbers(cells: Option<Cells>) -> [Option<u128>; 4]
    ensures { result ≡ option_map (λ c. c.count) cells ∷ option_map (λ c. c.local) cells ∷ option_map (λ c. c.site_work) cells ∷ option_map (λ c. c.path_local) cells ∷ [] }
{
    match cells {
        None => [None; 4],
        Some(c) => [
            Some(u128::from(c.count)),
            Some(c.local),
            Some(c.site_work),
            Some(c.path_local),
        ],
    }
}

/// Adds the line of a row.
fn push_row(text: &mut Vec<u8>, row: &CompareRow<'_>) -> Result<(), AllocError>
    ensures { OnOk result (text.new.items ≡ text.old.items ++ compare_line (told_row row.now)) }
{
    let (before, after) = (numbers(row.before), numbers(row.after));
    for column in 0..4 {
        push_number(text, before[column])?;
        push_number(text, after[column])?;
    }
    text.extend_from_slice(row.name.as_bytes())?;
    text.extend_from_slice(b"\n")
}

/// Adds the line of each row, in order.
fn push_rows(text: &mut Vec<u8>, rows: &[CompareRow<'_>]) -> Result<(), AllocError>
    ensures { OnOk result (text.new.items ≡ text.old.items ++ flat_map compare_line (map told_row rows.now)) }
{
    for row in rows {
        push_row(text, row)?;
    }
    Ok(())
}

/// Two runs beside each other as text: the five figures, each with the value of the run before, a space, and that of the
/// run after; an empty line; and a table with a line for each row of [`compare`], with counts of frames, local counts,
/// works, and local counts on the first greatest path of both runs. A dash stands where a run doesn't have the call site.
/// Local counts and works are in instructions. The work of each run is below 2^120. It takes memory linear in the text,
/// and as a rule time linear in it.
///
/// # Errors
///
/// An allocation failed.
pub fn compare_text<S: BuildHasher>(
    alloc: Global,
    before: &Run<S>,
    after: &Run<S>,
) -> Result<Vec<u8>, AllocError>
    requires before { (told before.now).figures.work < 2 ^ 120 }
    requires after { (told after.now).figures.work < 2 ^ 120 }
    ensures { IfOk result (λ text. text.items ≡ text_of_both (told before.now) (told after.now)) }
{
    let rows = compare(alloc, before, after)?;
    let mut text = text_of_figures(alloc, &before.figures, &after.figures)?;
    text.extend_from_slice(b"\n")?;
    text.extend_from_slice(HEADINGS.as_bytes())?;
    push_rows(&mut text, rows.as_slice())?;
    Ok(text)
}
