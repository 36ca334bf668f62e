//! Rows of frames that have closed, kept beside the table of a run.

ghost use Rattle.std.specs.Prelude.{◌≡◌, ◌<◌, [], ℕ, Option, OnOk, OnErr, IfOk};
ghost use Rattle.spp_dag.specs.Shares.{plus, zero_row};
ghost use Rattle.spp_site.specs.Rows.{Fits, frame_row};
ghost use Rattle.spp_site.specs.Profiles.{key_row};
ghost use Rattle.spp_site.specs.NarrowRows.{narrow_row, at_site, known_rows};
ghost use Rattle.spp_ways.specs.Enclosures.{enclosure_of};
ghost use Rattle.spp_pass.specs.CallRows.{calls_row, EachBelow};
ghost use Rattle.spp_pass.specs.CallFrames.{stretch_calls};
ghost use Rattle.spp_pass.specs.OwedRows.{owed_rows};

use crate::owed::OwedCalls;
use crate::stretch_calls::StretchCalls;
use spp_dag::Row;
use spp_site::{ClosedFrame, KnownRow, NarrowRow, NarrowTable, Table};
use spp_ways::Enclosing;
use std::alloc::{AllocError, Global};

/// So many rows fit into the processor's nearest cache. To add that many at a time takes less time than one by one, since the
/// processor then waits for several places of a large table at once.
const MANY_KNOWN: usize = 512;

/// Rows of frames of a run that the run's own table doesn't have: those of another table, and some that no table has yet. Any
/// thread may add them up.
#[derive(Drop)]
pub struct RowsAside {
    table: NarrowTable,
    /// Rows that are as the run's table counts them.
    known: Vec<KnownRow>,
    /// Rows of stretches, with what encloses these.
    owed: Vec<OwedCalls>,
    ghost fits: { (key : Option ℕ) → Fits (plus (plus (key_row table key) (known_rows known.items key)) (owed_rows owed.items key)) },
}

impl RowsAside {
    ghost use Rattle.spp_pass.specs.OwedRows.{owed_row};
    ghost use Rattle.spp_pass.specs.AsideRows.{aside_row};

    /// No rows. It takes no memory.
    pub fn new(alloc: Global) -> Self
        ensures { (key : Option ℕ) → aside_row result key ≡ zero_row }
    {
        RowsAside {
            table: NarrowTable::new(alloc),
            known: Vec::new(alloc),
            owed: Vec::new(alloc),
        }
    }

    /// Whether there are so many rows that no table has yet that another thread should add them up. No clause says when: answers
    /// don't depend on it.
    pub fn owes(&self) -> bool {
        self.should_add_up() || !self.owed.is_empty()
    }

    /// Whether so many rows wait that they should be added up. No clause says when: answers don't depend on it.
    #[inline(always)]
    pub fn should_add_up(&self) -> bool {
        self.known.len() >= MANY_KNOWN
    }

    /// Keeps the row of a frame that closes, which was entered by a site below 65,536. It takes constant time, amortized.
    ///
    /// # Errors
    ///
    /// Where an allocation failed; the rows are then as they were.
    #[inline(always)]
    pub fn close(&mut self, site: u32, frame: &ClosedFrame) -> Result<(), AllocError>
        requires limit { site < 65536 }
        requires fits { (key : Option ℕ) → Fits (plus (aside_row self.old key) (at_site site (frame_row frame.now) key)) }
        ensures kept { OnOk result ((key : Option ℕ) → aside_row self.new key ≡ plus (aside_row self.old key) (at_site site (frame_row frame.now) key)) }
        ensures stays { OnErr result ((key : Option ℕ) → aside_row self.new key ≡ aside_row self.old key) }
    {
        match NarrowRow::of_frame(frame) {
            Some(row) => self.put(site as u16, row),
            None => self.put_row(site, &frame.row()),
        }
    }

    /// Keeps a row of a site.
    ///
    /// # Errors
    ///
    /// Where an allocation failed; the rows are then as they were.
    #[inline(always)]
    fn put(&mut self, site: u16, row: NarrowRow) -> Result<(), AllocError>
        requires fits { (key : Option ℕ) → Fits (plus (aside_row self.old key) (at_site site (narrow_row row) key)) }
        ensures kept { OnOk result ((key : Option ℕ) → aside_row self.new key ≡ plus (aside_row self.old key) (at_site site (narrow_row row) key)) }
        ensures stays { OnErr result ((key : Option ℕ) → aside_row self.new key ≡ aside_row self.old key) }
    {
        self.known.push(KnownRow { row, site })?;
        Ok(())
    }

    /// The same of any row.
    ///
    /// # Errors
    ///
    /// Where an allocation failed; the rows are then as they were.
    fn put_row(&mut self, site: u32, row: &Row) -> Result<(), AllocError>
        requires limit { site < 65536 }
        requires fits { (key : Option ℕ) → Fits (plus (aside_row self.old key) (at_site site row.now key)) }
        ensures kept { OnOk result ((key : Option ℕ) → aside_row self.new key ≡ plus (aside_row self.old key) (at_site site row.now key)) }
        ensures stays { OnErr result ((key : Option ℕ) → aside_row self.new key ≡ aside_row self.old key) }
    {
        match NarrowRow::of_row(row) {
            Some(narrow) => self.put(site as u16, narrow),
            None => self.table.add_row(site, row),
        }
    }

    /// Keeps the rows of a stretch that this encloses. It takes constant time for each, amortized.
    ///
    /// # Errors
    ///
    /// Where an allocation failed.
    pub(crate) fn put_stretch(
        &mut self,
        calls: &StretchCalls,
        enclosing: &Enclosing<'_>,
    ) -> Result<(), AllocError>
        requires below { EachBelow 65536 calls.now.rows.items }
        requires fits { (key : Option ℕ) → Fits (plus (aside_row self.old key) (calls_row (enclosure_of enclosing.now) (stretch_calls calls.now) key)) }
        ensures { OnOk result ((key : Option ℕ) → aside_row self.new key ≡ plus (aside_row self.old key) (calls_row (enclosure_of enclosing.now) (stretch_calls calls.now) key)) }
    {
        for call in &calls.rows {
            self.put_row(call.site, &call.within(enclosing))?;
        }
        for frame in &calls.frames {
            self.put(frame.site, frame.within(enclosing))?;
        }
        Ok(())
    }

    /// These with some more, which no table has yet. It takes constant time, amortized.
    ///
    /// # Errors
    ///
    /// Where an allocation failed.
    pub(crate) fn with(self, owed: OwedCalls) -> Result<Self, AllocError>
        requires { (key : Option ℕ) → Fits (plus (aside_row self key) (owed_row owed key)) }
        ensures { IfOk result (λ r. (key : Option ℕ) → aside_row r key ≡ plus (aside_row self key) (owed_row owed key)) }
    {
        let RowsAside {
            table,
            known,
            owed: mut all,
        } = self;
        all.push(owed)?;
        Ok(RowsAside {
            table,
            known,
            owed: all,
        })
    }

    /// The same rows, all of them in a table. It takes constant time for each that was in none, and for each site number up to the
    /// greatest, which takes 56 bytes or up to twice that.
    ///
    /// # Errors
    ///
    /// Where an allocation failed.
    pub fn added_up(self, alloc: Global) -> Result<Self, AllocError>
        ensures rows { IfOk result (λ r. (key : Option ℕ) → aside_row r key ≡ aside_row self key) }
        ensures none_owed { IfOk result (λ r. r.owed.items ≡ []) }
        ensures none_known { IfOk result (λ r. r.known.items ≡ []) }
    {
        let RowsAside {
            mut table,
            mut known,
            owed,
        } = self;
        table.add_known(&known)?;
        OwedCalls::add_all(&mut table, &owed)?;
        known.clear();
        Ok(RowsAside {
            table,
            known,
            owed: Vec::new(alloc),
        })
    }

    /// Adds the rows to another table. It takes constant time for each, and for each site number up to the greatest of those that
    /// were added up.
    ///
    /// # Errors
    ///
    /// Where an allocation failed.
    pub(crate) fn add_to(self, table: &mut Table) -> Result<(), AllocError>
        requires { (key : Option ℕ) → Fits (plus (key_row table.old key) (aside_row self key)) }
        ensures { OnOk result ((key : Option ℕ) → key_row table.new key ≡ plus (key_row table.old key) (aside_row self key)) }
    {
        let RowsAside {
            table: mut own,
            known,
            owed,
        } = self;
        OwedCalls::add_all(&mut own, &owed)?;
        own.add_to(table)?;
        // Not to the own table, which would need memory for each site number.
        for one in &known {
            table.add(u32::from(one.site), &one.row.widened())?;
        }
        Ok(())
    }
}
