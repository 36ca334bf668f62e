//! Sums of frames by call site, to which most rows are added many at a time.

ghost use Rattle.std.specs.Prelude.{◌≡◌, ℕ, Option, OnOk, IfOk, IfSome};
ghost use Rattle.spp_dag.specs.Shares.{plus, zero_row};
ghost use Rattle.spp_site.specs.Rows.{Fits, frame_row};
ghost use Rattle.spp_site.specs.Profiles.{key_row};
ghost use Rattle.spp_site.specs.NarrowRows.{narrow_row, at_site};

use crate::closed_frame::ClosedFrame;
use crate::empty_sums::EmptySums;
use crate::narrow_list::NarrowList;
use crate::narrow_row::{KnownRow, NarrowRow};
use crate::noted_table::NotedTable;
use std::alloc::{AllocError, Global};
use std::marker::Model;

/// So many rows fit into the processor's nearest cache. To add that many at a time takes less time than one by one, since the
/// processor then waits for several places of a large table at once.
const MANY_KNOWN: usize = 512;

/// The rows of so many sites fit into a near cache. They don't wait: to add a frame to a wide row takes fewer steps, since sums
/// to which it adds nothing aren't touched.
const NEAR_SITES: u16 = 1024;

/// What frames add up to by call site. Frames of sites below 1,024, and those whose numbers don't fit 64 bits, are added to wide
/// rows at once; the others wait, up to 512, and are then added to a table of narrow rows. Contracts see the sums of all. After
/// an error they are of no use.
///
/// It takes 58 bytes for each site number up to the greatest that has a narrow row, 64 bytes for each row that waits, and some
/// 132 bytes for each site that has a wide row; or up to twice that.
#[derive(Drop)]
pub struct NarrowSums {
    table: NotedTable,
    known: Vec<KnownRow>,
}

impl Model for NarrowSums {
    ghost use Rattle.spp_site.specs.Table.{Sums, sums_code};

    ghost Value = { Sums };

    ghost coded = { sums_code };

    ghost use Rattle.spp_site.specs.NarrowTables.{with_known};

    ghost view = { λ s. with_known s.table s.known.items };
}

/// The row of a frame that is to wait, if it should.
#[inline(always)]
fn row_to_wait(site: u16, frame: &ClosedFrame) -> Option<NarrowRow>
    ensures { IfSome result (λ r. narrow_row r ≡ frame_row frame.now) }
{
    if site < NEAR_SITES {
        return None;
    }
    NarrowRow::of_frame(frame)
}

impl NarrowSums {
    /// No rows. It takes no memory.
    pub fn new(alloc: Global) -> Self
        ensures { (key : Option ℕ) → key_row result key ≡ zero_row }
    {
        NarrowSums {
            table: NotedTable::new(alloc),
            known: Vec::new(alloc),
        }
    }

    /// Adds the row of a frame that closes to that of its site; all sums must fit the types of a row. It takes constant time,
    /// amortized, behind a step for each site number up to the greatest.
    ///
    /// # Errors
    ///
    /// Where an allocation failed.
    #[inline(always)]
    pub fn close(&mut self, site: u16, frame: &ClosedFrame) -> Result<(), AllocError>
        requires { (key : Option ℕ) → Fits (plus (key_row self.old key) (at_site site (frame_row frame.now) key)) }
        ensures { OnOk result ((key : Option ℕ) → key_row self.new key ≡ plus (key_row self.old key) (at_site site (frame_row frame.now) key)) }
    {
        let Some(row) = row_to_wait(site, frame) else {
            return self.table.close_wide(site, frame);
        };
        if self.known.len() >= MANY_KNOWN {
            self.add_up()?;
        }
        self.known.push(KnownRow { row, site })?;
        Ok(())
    }

    /// Adds a list; all sums must fit the types of a row. It takes constant time for each of its rows, amortized, behind a step
    /// for each site number up to the greatest.
    ///
    /// # Errors
    ///
    /// Where an allocation failed.
    pub fn absorb(&mut self, list: &NarrowList) -> Result<(), AllocError>
        requires { (key : Option ℕ) → Fits (plus (key_row self.old key) (key_row list.now key)) }
        ensures { OnOk result ((key : Option ℕ) → key_row self.new key ≡ plus (key_row self.old key) (key_row list.now key)) }
    {
        list.add_to_noted(&mut self.table)
    }

    /// Adds the rows that wait to the table.
    #[inline(never)]
    fn add_up(&mut self) -> Result<(), AllocError>
        requires { (key : Option ℕ) → Fits (key_row self.old key) }
        ensures { OnOk result ((key : Option ℕ) → key_row self.new key ≡ key_row self.old key) }
    {
        self.table.add_known(&self.known)?;
        self.known.clear();
        Ok(())
    }

    /// All rows in a list, and the sums without them, in the memory that they have but for that of wide rows; all sums must fit the
    /// types of a row. It takes constant time for each row that waits and each site that was added to. No clause says that their
    /// memory is used again.
    ///
    /// # Errors
    ///
    /// Where an allocation failed.
    pub fn into_list(self, alloc: Global) -> Result<(NarrowList, EmptySums), AllocError>
        requires { (key : Option ℕ) → Fits (key_row self key) }
        ensures { IfOk result (λ p. (key : Option ℕ) → key_row p.0 key ≡ key_row self key) }
    {
        let NarrowSums {
            mut table,
            mut known,
        } = self;
        table.add_known(&known)?;
        known.clear();
        let parts = table.into_list(alloc)?;
        let sums = NarrowSums {
            table: parts.1,
            known,
        };
        Ok((parts.0, EmptySums::of_sums(sums)))
    }
}
