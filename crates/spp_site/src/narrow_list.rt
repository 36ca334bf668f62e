//! A list of small rows, for what frames of some of many call sites add up to.

ghost use Rattle.std.specs.Prelude.{◌≡◌, ℕ, Option, OnOk};
ghost use Rattle.spp_dag.specs.Shares.{plus, zero_row};
ghost use Rattle.spp_site.specs.Rows.{Fits};
ghost use Rattle.spp_site.specs.Profiles.{key_row};
ghost use Rattle.spp_site.specs.NarrowRows.{known_rows};
ghost use Rattle.spp_site.specs.NarrowTables.{with_known};

use crate::narrow_row::KnownRow;
use crate::noted_table::NotedTable;
use crate::share::Share;
use crate::table::Table;
use std::alloc::{AllocError, Global};
use std::marker::Model;

/// What frames add up to by call site, to which nothing more is added: a narrow row for each site that was met, and a share of
/// what doesn't fit these. Contracts see the sums of both.
///
/// It takes 64 bytes for each narrow row, besides the share.
#[derive(Drop)]
pub struct NarrowList {
    rows: Vec<KnownRow>,
    wide: Share,
}

impl Model for NarrowList {
    ghost use Rattle.spp_site.specs.Table.{Sums, sums_code};

    ghost Value = { Sums };

    ghost coded = { sums_code };

    ghost use Rattle.spp_site.specs.NarrowTables.{with_known};

    ghost view = { λ l. with_known l.wide l.rows.items };
}

/// Adds rows to a table.
fn add_widened(table: &mut Table, known: &[KnownRow]) -> Result<(), AllocError>
    requires { (key : Option ℕ) → Fits (plus (key_row table.old key) (known_rows known.now key)) }
    ensures { OnOk result ((key : Option ℕ) → key_row table.new key ≡ plus (key_row table.old key) (known_rows known.now key)) }
{
    for one in known {
        table.add(u32::from(one.site), &one.row.widened())?;
    }
    Ok(())
}

impl NarrowList {
    /// No rows. It takes no memory.
    pub fn none(alloc: Global) -> Self
        ensures { (key : Option ℕ) → key_row result key ≡ zero_row }
    {
        NarrowList {
            rows: Vec::new(alloc),
            wide: Table::new(alloc).into_share(),
        }
    }

    /// The list of these rows, and of what doesn't fit such.
    pub(crate) fn new(rows: Vec<KnownRow>, wide: Share) -> Self
        ensures { result ≡ with_known wide rows.items }
    {
        NarrowList { rows, wide }
    }

    /// How many rows are stored: what it costs to add this list to a table. Contracts say nothing of it, since they see only
    /// the sums.
    pub fn row_count(&self) -> usize {
        self.rows.len().saturating_add(self.wide.row_count())
    }

    /// Adds the rows to a table with which their sums must fit the types of a row. It takes constant time for each, amortized,
    /// behind a step for each site number up to the greatest.
    ///
    /// # Errors
    ///
    /// Where an allocation failed; some of the rows have been added then.
    pub(crate) fn add_to_noted(&self, table: &mut NotedTable) -> Result<(), AllocError>
        requires { (key : Option ℕ) → Fits (plus (key_row table.old key) (key_row self.now key)) }
        ensures { OnOk result ((key : Option ℕ) → key_row table.new key ≡ plus (key_row table.old key) (key_row self.now key)) }
    {
        table.absorb_wide(&self.wide)?;
        table.add_known(&self.rows)
    }

    /// The same of a [`Table`].
    ///
    /// # Errors
    ///
    /// Where an allocation failed; some of the rows have been added then.
    pub fn add_to(&self, table: &mut Table) -> Result<(), AllocError>
        requires { (key : Option ℕ) → Fits (plus (key_row table.old key) (key_row self.now key)) }
        ensures { OnOk result ((key : Option ℕ) → key_row table.new key ≡ plus (key_row table.old key) (key_row self.now key)) }
    {
        table.absorb(&self.wide)?;
        add_widened(table, &self.rows)
    }
}
