//! A table of small rows that is used again and again.

ghost use Rattle.std.specs.Prelude.{◌≡◌, ◌<◌, ◌≤◌, ℕ, true, length, Option, OnOk, IfOk};
ghost use Rattle.spp_dag.specs.Shares.{plus, zero_row};
ghost use Rattle.spp_site.specs.Rows.{Fits, frame_row};
ghost use Rattle.spp_site.specs.Table.{row_at, IsAdded};
ghost use Rattle.spp_site.specs.Profiles.{key_row};
ghost use Rattle.spp_site.specs.NarrowRows.{narrow_row, narrow_at, known_rows, is_noted, AreNoted};

use crate::closed_frame::ClosedFrame;
use crate::narrow_list::NarrowList;
use crate::narrow_row::{KnownRow, NarrowRow, ZERO_ROW};
use crate::narrow_table::reach;
use crate::share::Share;
use crate::table::Table;
use std::alloc::{AllocError, Global};
use std::marker::Model;

/// The same as a [`NarrowTable`], with a note of each site whose narrow row may be other than zero: so the rows are taken out,
/// and the table is used again, in a step for each of these sites. Contracts see the sums.
///
/// It takes 56 bytes for each site number up to the greatest that has had a narrow row, 2 bytes for each site that was noted, and
/// some 132 bytes for each that has a wide row; or up to twice that.
///
/// [`NarrowTable`]: crate::NarrowTable
#[derive(Drop)]
pub(crate) struct NotedTable {
    rows: Vec<NarrowRow>,
    noted: Vec<u16>,
    /// What doesn't fit narrow rows, and all that `close_wide` adds.
    wide: Table,
}

impl Model for NotedTable {
    ghost use Rattle.std.specs.Prelude.{◌≤◌, length};
    ghost use Rattle.spp_site.specs.Table.{Sums, sums_code};

    ghost Value = { Sums };

    ghost coded = { sums_code };

    ghost use Rattle.spp_site.specs.NarrowRows.{AreNoted};
    ghost use Rattle.spp_site.specs.NarrowTables.{narrow_sums};

    ghost view = { λ t. narrow_sums t.wide t.rows.items };

    ghost invariant = { λ t. (length t.rows.items ≤ 65536) × AreNoted t.noted.items t.rows.items };
}

/// Makes rows up to that of a site, where they don't reach it.
#[inline(always)]
fn reach_site(rows: &mut Vec<NarrowRow>, site: u16) -> Result<(), AllocError>
    requires { length rows.old.items ≤ 65536 }
    ensures room { OnOk result (site < length rows.new.items) }
    ensures same { (key : Option ℕ) → narrow_at rows.new.items key ≡ narrow_at rows.old.items key }
    ensures small { length rows.new.items ≤ 65536 }
{
    let at = usize::from(site);
    if at >= rows.len() {
        reach(rows, at + 1)?;
    }
    Ok(())
}

/// Notes a site, if its row is zero.
#[inline(always)]
fn note(rows: &[NarrowRow], noted: &mut Vec<u16>, site: u16) -> Result<(), AllocError>
    requires room { site < length rows.now }
    requires noted { AreNoted noted.old.items rows.now }
    ensures noted { AreNoted noted.new.items rows.now }
    ensures one { OnOk result (is_noted noted.new.items site ≡ true) }
{
    if rows[usize::from(site)] == ZERO_ROW {
        noted.push(site)?;
    }
    Ok(())
}

/// Takes the rows of these sites out of a table, which leaves zeros.
fn take_rows(
    alloc: Global,
    rows: &mut Vec<NarrowRow>,
    noted: &[u16],
) -> Result<Vec<KnownRow>, AllocError>
    requires small { length rows.old.items ≤ 65536 }
    requires noted { AreNoted noted.now rows.old.items }
    ensures taken { IfOk result (λ list. (key : Option ℕ) → known_rows list.items key ≡ narrow_at rows.old.items key) }
    ensures none { OnOk result ((key : Option ℕ) → narrow_at rows.new.items key ≡ zero_row) }
    ensures small { length rows.new.items ≤ 65536 }
{
    let mut taken = Vec::with_capacity(alloc, noted.len())?;
    for site in noted {
        let site = *site;
        let at = usize::from(site);
        if at < rows.len() {
            taken.push(KnownRow {
                row: rows[at],
                site,
            })?;
            rows[at] = ZERO_ROW;
        }
    }
    Ok(taken)
}

impl NotedTable {
    /// No rows. It takes no memory.
    pub(crate) fn new(alloc: Global) -> Self
        ensures { (key : Option ℕ) → key_row result key ≡ zero_row }
    {
        NotedTable {
            rows: Vec::new(alloc),
            noted: Vec::new(alloc),
            wide: Table::new(alloc),
        }
    }

    /// Adds to the row of a site, whose sums must fit the types of a row. It takes constant time, amortized, behind a step for
    /// each site number up to the greatest that was added to before.
    #[inline(always)]
    fn add(&mut self, site: u16, row: &NarrowRow) -> Result<(), AllocError>
        requires { Fits (plus (row_at self.old site) (narrow_row row.now)) }
        ensures { OnOk result (IsAdded self.old self.new site (narrow_row row.now)) }
    {
        reach_site(&mut self.rows, site)?;
        note(&self.rows, &mut self.noted, site)?;
        let at = usize::from(site);
        if let Some(sum) = self.rows[at].checked_add(row) {
            self.rows[at] = sum;
            return Ok(());
        }
        self.wide.add(u32::from(site), &row.widened())
    }

    /// Adds these rows, whose sums with those of the table must fit the types of a row: see `NarrowTable::add_known`.
    ///
    /// # Errors
    ///
    /// Where an allocation failed; some of the rows have been added then.
    pub(crate) fn add_known(&mut self, known: &[KnownRow]) -> Result<(), AllocError>
        requires { (key : Option ℕ) → Fits (plus (key_row self.old key) (known_rows known.now key)) }
        ensures { OnOk result ((key : Option ℕ) → key_row self.new key ≡ plus (key_row self.old key) (known_rows known.now key)) }
    {
        for one in known {
            self.add(one.site, &one.row)?;
        }
        Ok(())
    }

    /// Adds the row of a frame that closes to that of its site among the wide ones, though it may fit a narrow one: where these rows
    /// stay in a near cache this takes fewer steps.
    ///
    /// # Errors
    ///
    /// Where an allocation failed.
    #[inline(always)]
    pub(crate) fn close_wide(&mut self, site: u16, frame: &ClosedFrame) -> Result<(), AllocError>
        requires { Fits (plus (row_at self.old site) (frame_row frame.now)) }
        ensures { OnOk result (IsAdded self.old self.new site (frame_row frame.now)) }
    {
        self.wide.close(u32::from(site), frame)
    }

    /// Adds a share to that table.
    ///
    /// # Errors
    ///
    /// Where an allocation failed.
    pub(crate) fn absorb_wide(&mut self, share: &Share) -> Result<(), AllocError>
        requires { (key : Option ℕ) → Fits (plus (key_row self.old key) (key_row share.now key)) }
        ensures { OnOk result ((key : Option ℕ) → key_row self.new key ≡ plus (key_row self.old key) (key_row share.now key)) }
    {
        self.wide.absorb(share)
    }

    /// All rows in a list, and a table that has none, in the memory of this one. It takes constant time for each site that was
    /// added to.
    ///
    /// # Errors
    ///
    /// Where an allocation failed.
    pub(crate) fn into_list(self, alloc: Global) -> Result<(NarrowList, NotedTable), AllocError>
        ensures list { IfOk result (λ p. (key : Option ℕ) → key_row p.0 key ≡ key_row self key) }
        ensures left { IfOk result (λ p. (key : Option ℕ) → key_row p.1 key ≡ zero_row) }
    {
        let NotedTable {
            mut rows,
            mut noted,
            wide,
        } = self;
        let taken = take_rows(alloc, &mut rows, &noted)?;
        noted.clear();
        let list = NarrowList::new(taken, wide.into_share());
        let left = NotedTable {
            rows,
            noted,
            wide: Table::new(alloc),
        };
        Ok((list, left))
    }
}
