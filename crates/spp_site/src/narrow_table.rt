//! A table of small rows, for frames of many call sites.

ghost use Rattle.std.specs.Prelude.{◌≡◌, ◌<◌, ◌≤◌, ℕ, length, Option, OnOk, OnErr};
ghost use Rattle.spp_dag.specs.Shares.{plus, zero_row};
ghost use Rattle.spp_site.specs.Rows.{Fits};
ghost use Rattle.spp_site.specs.Table.{row_at, IsAdded};
ghost use Rattle.spp_site.specs.Profiles.{key_row};
ghost use Rattle.spp_site.specs.NarrowRows.{narrow_row, narrow_at, known_rows};

use crate::narrow_row::{KnownRow, NarrowRow, ZERO_ROW};
use crate::table::Table;
use spp_dag::Row;
use std::alloc::{AllocError, Global};
use std::marker::Model;

/// What frames add up to by call site, as in a [`Table`]: a narrow row for each site number up to the greatest, and a table of
/// what doesn't fit these. Contracts see the sums of both.
///
/// It takes 56 bytes for each site number up to the greatest that was added to, or up to twice that where it grew bit by bit. A
/// row is found without an index: that of a site lies at the place that the site's number tells.
#[derive(Drop)]
pub struct NarrowTable {
    rows: Vec<NarrowRow>,
    wide: Table,
}

impl Model for NarrowTable {
    ghost use Rattle.std.specs.Prelude.{◌≤◌, length};
    ghost use Rattle.spp_site.specs.Table.{Sums, sums_code};

    ghost Value = { Sums };

    ghost coded = { sums_code };

    ghost use Rattle.spp_site.specs.NarrowTables.{narrow_sums};

    ghost view = { λ t. narrow_sums t.wide t.rows.items };

    ghost invariant = { λ t. length t.rows.items ≤ 65536 };
}

/// Makes rows up to so many. It is seldom called, and inlined would take registers where it isn't.
#[cold]
#[inline(never)]
pub(crate) fn reach(rows: &mut Vec<NarrowRow>, count: usize) -> Result<(), AllocError>
    requires more { length rows.old.items ≤ count }
    requires limit { count ≤ 65536 }
    ensures room { OnOk result (length rows.new.items ≡ count) }
    ensures same { (key : Option ℕ) → narrow_at rows.new.items key ≡ narrow_at rows.old.items key }
    ensures small { length rows.new.items ≤ 65536 }
{
    rows.resize(count, ZERO_ROW)
}

/// Adds narrow rows, which are those of the first sites, to a table.
fn add_widened(table: &mut Table, rows: &[NarrowRow]) -> Result<(), AllocError>
    requires small { length rows.now ≤ 65536 }
    requires fits { (key : Option ℕ) → Fits (plus (key_row table.old key) (narrow_at rows.now key)) }
    ensures { OnOk result ((key : Option ℕ) → key_row table.new key ≡ plus (key_row table.old key) (narrow_at rows.now key)) }
{
    for place in 0..rows.len() {
        let row = &rows[place];
        if *row != ZERO_ROW {
            table.add(place as u32, &row.widened())?;
        }
    }
    Ok(())
}

impl NarrowTable {
    /// No rows. It takes no memory.
    pub fn new(alloc: Global) -> Self
        ensures { (key : Option ℕ) → key_row result key ≡ zero_row }
    {
        NarrowTable {
            rows: Vec::new(alloc),
            wide: Table::new(alloc),
        }
    }

    /// Adds to the row of a site, whose sums must fit the types of a [`Row`]. It takes constant time, amortized, behind a step
    /// for each site number up to the greatest.
    ///
    /// # Errors
    ///
    /// Where an allocation failed; the table then has the rows that it had.
    #[inline(always)]
    pub fn add(&mut self, site: u16, row: &NarrowRow) -> Result<(), AllocError>
        requires { Fits (plus (row_at self.old site) (narrow_row row.now)) }
        ensures added { OnOk result (IsAdded self.old self.new site (narrow_row row.now)) }
        ensures stays { OnErr result ((key : Option ℕ) → key_row self.new key ≡ key_row self.old key) }
    {
        let at = usize::from(site);
        if at >= self.rows.len() {
            reach(&mut self.rows, at + 1)?;
        }
        if let Some(sum) = self.rows[at].checked_add(row) {
            self.rows[at] = sum;
            return Ok(());
        }
        self.wide.add(u32::from(site), &row.widened())
    }

    /// The same of any row. The site is below 65,536, as all sites of a trace are.
    ///
    /// # Errors
    ///
    /// Where an allocation failed; the table then has the rows that it had.
    pub fn add_row(&mut self, site: u32, row: &Row) -> Result<(), AllocError>
        requires limit { site < 65536 }
        requires fits { Fits (plus (row_at self.old site) row.now) }
        ensures added { OnOk result (IsAdded self.old self.new site row.now) }
        ensures stays { OnErr result ((key : Option ℕ) → key_row self.new key ≡ key_row self.old key) }
    {
        match NarrowRow::of_row(row) {
            Some(narrow) => self.add(site as u16, &narrow),
            None => self.wide.add(site, row),
        }
    }

    /// Adds these rows, whose sums with those of the table must fit the types of a [`Row`]. It takes constant time for each,
    /// amortized, behind a step for each site number up to the greatest. To add hundreds at a time takes less time than one by
    /// one, since the processor then waits for several places of a large table at once.
    ///
    /// # Errors
    ///
    /// Where an allocation failed; some of the rows have been added then.
    pub fn add_known(&mut self, known: &[KnownRow]) -> Result<(), AllocError>
        requires { (key : Option ℕ) → Fits (plus (key_row self.old key) (known_rows known.now key)) }
        ensures { OnOk result ((key : Option ℕ) → key_row self.new key ≡ plus (key_row self.old key) (known_rows known.now key)) }
    {
        for one in known {
            self.add(one.site, &one.row)?;
        }
        Ok(())
    }

    /// Adds the rows to a table with which their sums must fit the types of a [`Row`]. It takes a step for each site number up
    /// to the greatest.
    ///
    /// # Errors
    ///
    /// Where an allocation failed; some of the rows have been added then.
    pub fn add_to(self, table: &mut Table) -> Result<(), AllocError>
        requires { (key : Option ℕ) → Fits (plus (key_row table.old key) (key_row self key)) }
        ensures { OnOk result ((key : Option ℕ) → key_row table.new key ≡ plus (key_row table.old key) (key_row self key)) }
    {
        let NarrowTable { rows, wide } = self;
        table.absorb(&wide.into_share())?;
        add_widened(table, &rows)
    }
}
