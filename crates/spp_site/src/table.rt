//! A table of rows by call site.

ghost use Rattle.std.specs.Prelude.{◌≡◌, ◌<◌, ℕ, OnOk, OnErr, IfOk};
ghost use Rattle.spp_dag.specs.Shares.{plus};
ghost use Rattle.spp_site.specs.Rows.{Fits, frame_row};
ghost use Rattle.spp_site.specs.Slots.{row_in, stored, AreOfSites};
ghost use Rattle.spp_site.specs.Table.{row_at, empty, HasNoZeroRow, IsAdded, IsSum};

use crate::closed_frame::ClosedFrame;
use crate::row_sums::add_to;
use crate::share::Share;
use crate::slots::{SiteRow, make_room, place_of, put_all, reach};
use spp_dag::Row;
use std::alloc::{AllocError, Global};
use std::marker::Model;

/// What the frames of a run, or of a part of it, add up to: a row for the root frame, and one for each call site.
/// Works, spans and local counts are in instructions. A site that was never added to has the zero row.
///
/// A table takes about 128 bytes for each site that was added to, and 4 bytes for each site number up to the greatest
/// of these, or up to twice that where it grew bit by bit; up to four times where shares were added to it, since room is
/// made for all rows of a share before it is known which of them are there.
#[derive(Drop)]
pub struct Table {
    root: Row,
    /// The place of each site's row, counted from 1; 0 where a site has no row. So a row is found without a look at it:
    /// a table of many sites doesn't fit into the processor's caches.
    index: Vec<u32>,
    rows: Vec<SiteRow>,
}

impl Model for Table {
    ghost use Rattle.spp_site.specs.Table.{Sums, sums_code};

    ghost Value = { Sums };

    ghost coded = { sums_code };

    ghost use Rattle.spp_site.specs.Slots.{stored, IsIndexed};

    ghost view = { λ t. stored t.root t.rows.items };

    ghost invariant = { λ t. IsIndexed t.index.items t.rows.items };
}

impl Table {
    /// A table with no row but the root's, which is zero. It takes no memory.
    pub fn new(alloc: Global) -> Table
        ensures { result ≡ empty }
    {
        Table {
            root: Row::default(),
            index: Vec::new(alloc),
            rows: Vec::new(alloc),
        }
    }

    /// The row of the root frame. Its clause `no_zero_row` gives out what every table keeps: no row of a site is zero.
    pub fn root_row(&self) -> Row
        ensures value { result ≡ self.now.root }
        ensures no_zero_row { HasNoZeroRow self.now }
    {
        self.no_row_is_zero();
        self.root
    }

    /// Adds to the row of the root frame, whose sums must fit their types.
    pub fn add_root(&mut self, row: &Row)
        requires { Fits (plus self.old.root row.now) }
        ensures { self.new ≡ record self.old { root = plus self.old.root row.now } }
    {
        add_to(&mut self.root, row);
    }

    /// The row of a site.
    pub fn row(&self, site: u32) -> Row
        ensures { result ≡ row_at self.now site }
    {
        match place_of(&self.index, site) {
            Some(place) => self.rows[place].row,
            None => Row::default(),
        }
    }

    /// Adds to the row of a site, whose sums must fit their types. The site is below 65,536, as all sites of a trace
    /// are.
    ///
    /// It takes constant time where the site has a row. Where it has none the table grows, in constant time, amortized,
    /// for each site number up to the greatest.
    ///
    /// # Errors
    ///
    /// Where an allocation failed; the table then has the rows that it had.
    #[inline(always)]
    pub fn add(&mut self, site: u32, row: &Row) -> Result<(), AllocError>
        requires limit { site < 65536 }
        requires fits { Fits (plus (row_at self.old site) row.now) }
        ensures added { OnOk result (IsAdded self.old self.new site row.now) }
        ensures stays { OnErr result (self.new ≡ self.old) }
        ensures no_zero_row { HasNoZeroRow self.new }
    {
        if let Some(place) = place_of(&self.index, site) {
            add_to(&mut self.rows[place].row, row);
            return Ok(());
        }
        reach(&mut self.index, site)?;
        let place = (self.rows.len() + 1) as u32;
        self.rows.push(SiteRow { site, row: *row })?;
        self.index[site as usize] = place;
        Ok(())
    }

    /// Adds the row of a frame that closes to the row of its site, which is below 65,536, and whose sums must fit their
    /// types: the same as [`Table::add`] of [`ClosedFrame::row`], and faster where the site has a row.
    ///
    /// # Errors
    ///
    /// Where an allocation failed; the table then has the rows that it had.
    #[inline(always)]
    pub fn close(&mut self, site: u32, frame: &ClosedFrame) -> Result<(), AllocError>
        requires limit { site < 65536 }
        requires fits { Fits (plus (row_at self.old site) (frame_row frame.now)) }
        ensures added { OnOk result (IsAdded self.old self.new site (frame_row frame.now)) }
        ensures stays { OnErr result (self.new ≡ self.old) }
        ensures no_zero_row { HasNoZeroRow self.new }
    {
        if let Some(place) = place_of(&self.index, site) {
            frame.add_to(&mut self.rows[place].row);
            return Ok(());
        }
        self.add_first(site, &frame.row())
    }

    /// The same as [`Table::add`], for a site that has no row: it is seldom called, and inlined would take registers where it
    /// isn't.
    #[cold]
    #[inline(never)]
    fn add_first(&mut self, site: u32, row: &Row) -> Result<(), AllocError>
        requires limit { site < 65536 }
        requires fits { Fits (plus (row_at self.old site) row.now) }
        ensures added { OnOk result (IsAdded self.old self.new site row.now) }
        ensures stays { OnErr result (self.new ≡ self.old) }
        ensures no_zero_row { HasNoZeroRow self.new }
    {
        self.add(site, row)
    }

    /// No row of a site is zero. Its contract is what it is for.
    fn no_row_is_zero(&self)
        ensures { HasNoZeroRow self.now }
    {
        let _rows = self.rows.len();
    }

    /// Adds a share, whose sums with these rows must fit their types. It takes time linear in the size of the share,
    /// besides a step, amortized, for each site number up to its greatest.
    ///
    /// # Errors
    ///
    /// Where an allocation failed; the table then has the rows that it had.
    pub fn absorb(&mut self, share: &Share) -> Result<(), AllocError>
        requires root_fits { Fits (plus self.old.root share.now.root) }
        requires sites_fit { (s : ℕ) → Fits (plus (row_at self.old s) (row_at share.now s)) }
        ensures sums { OnOk result (IsSum self.old share.now self.new) }
        ensures stays { OnErr result (self.new ≡ self.old) }
        ensures no_zero_row { HasNoZeroRow self.new }
    {
        self.add_all(share.root(), share.rows())
    }

    /// The table with the rows of a share, where the sums of a site's rows fit their types. It takes time and memory as
    /// [`Table::absorb`].
    ///
    /// # Errors
    ///
    /// Where an allocation failed.
    pub fn from_share(alloc: Global, share: &Share) -> Result<Table, AllocError>
        requires root_fits { Fits share.now.root }
        requires sites_fit { (s : ℕ) → Fits (row_at share.now s) }
        ensures { IfOk result (λ t. t ≡ share.now) }
    {
        let mut table = Table::new(alloc);
        table.absorb(share)?;
        // For what it states.
        share.no_row_is_zero();
        Ok(table)
    }

    /// Adds to the root's row, and these rows to those of their sites.
    fn add_all(&mut self, root: &Row, rows: &[SiteRow]) -> Result<(), AllocError>
        requires limit { AreOfSites rows.now }
        requires root_fits { Fits (plus self.old.root root.now) }
        requires sites_fit { (s : ℕ) → Fits (plus (row_at self.old s) (row_in rows.now s)) }
        ensures sums { OnOk result (IsSum self.old (stored root.now rows.now) self.new) }
        ensures stays { OnErr result (self.new ≡ self.old) }
        ensures no_zero_row { HasNoZeroRow self.new }
    {
        make_room(&mut self.index, &mut self.rows, rows)?;
        put_all(&mut self.index, &mut self.rows, rows);
        add_to(&mut self.root, root);
        Ok(())
    }

    /// The table as a share, to which nothing more is added: the same rows without the index. Spare room stays. It takes
    /// constant time.
    pub fn into_share(self) -> Share
        ensures { result ≡ self }
    {
        Share::new(self.root, self.rows)
    }

    /// A table with the same rows. It takes time linear in the size of the table.
    ///
    /// # Errors
    ///
    /// Where an allocation failed.
    pub fn copy(alloc: Global, table: &Table) -> Result<Table, AllocError>
        ensures same { IfOk result (λ t. t ≡ table.now) }
        ensures no_zero_row { IfOk result HasNoZeroRow }
    {
        let index = Vec::from_slice(alloc, &table.index)?;
        let rows = Vec::from_slice(alloc, &table.rows)?;
        Ok(Table {
            root: table.root,
            index,
            rows,
        })
    }

    /// The table whose rows are the sums of those of two tables, which must fit their types. It takes time linear in
    /// the sizes of both.
    ///
    /// # Errors
    ///
    /// Where an allocation failed.
    pub fn merged(alloc: Global, left: &Table, right: &Table) -> Result<Table, AllocError>
        requires root_fits { Fits (plus left.now.root right.now.root) }
        requires sites_fit { (s : ℕ) → Fits (plus (row_at left.now s) (row_at right.now s)) }
        ensures sums { IfOk result (IsSum left.now right.now) }
        ensures no_zero_row { IfOk result HasNoZeroRow }
    {
        let mut merged = Table::copy(alloc, left)?;
        merged.add_all(&right.root, &right.rows)?;
        Ok(merged)
    }
}
