//! The rows of a part of a run.

ghost use Rattle.std.specs.Prelude.{◌≡◌, ℕ, OnOk, OnErr, IfOk};
ghost use Rattle.spp_dag.specs.Shares.{plus};
ghost use Rattle.spp_site.specs.Rows.{Fits};
ghost use Rattle.spp_site.specs.Slots.{stored, AreOfSites};
ghost use Rattle.spp_site.specs.Table.{row_at, HasNoZeroRow, IsSum};

use crate::hints::{make_room, put_all};
use crate::row_sums::add_to;
use crate::slots::SiteRow;
use spp_dag::Row;
use std::alloc::{AllocError, Global};
use std::marker::Model;

/// The share of some neighbouring parts of a run in the run's table: rows that wait to be added to those of other parts
/// ([`Share::merge`]), or to become a table ([`Table::from_share`]).
///
/// It takes memory for its rows and not for other sites, so that as many shares as parts can be kept: about 128 bytes for
/// each row, or up to twice that, and room for four rows at least where it has any; up to four times where shares were
/// added to it, since room is made for all rows of a share before it is known which of them are there; and for hints no
/// more than the rows of both shares took in the merge that lengthened them, or up to twice that. A site can have several
/// rows, since the rows that a part came with have no hints: at most two, besides 2,048 rows that came before there were
/// hints for their sites.
///
/// [`Table::from_share`]: crate::Table::from_share
#[derive(Drop)]
pub struct Share {
    root: Row,
    rows: Vec<SiteRow>,
    /// The place of a row of each site, counted from 1; 0 where none is known. So a merge adds to a row that is there
    /// already. Sites past the last hint have none.
    hints: Vec<u32>,
}

impl Model for Share {
    ghost use Rattle.spp_site.specs.Table.{Sums, sums_code};

    ghost Value = { Sums };

    ghost coded = { sums_code };

    ghost use Rattle.spp_site.specs.Slots.{stored, IsHinted};

    ghost view = { λ s. stored s.root s.rows.items };

    ghost invariant = { λ s. IsHinted s.hints.items s.rows.items };
}

impl Share {
    /// The share with these rows, of which no hint tells.
    pub(crate) fn new(root: Row, rows: Vec<SiteRow>) -> Share
        requires { AreOfSites rows.items }
        ensures { result ≡ stored root rows.items }
    {
        let hints = Vec::new(*rows.allocator());
        Share { root, rows, hints }
    }

    /// The row of the root frame.
    pub(crate) fn root(&self) -> &Row
        ensures { result.now ≡ self.now.root }
    {
        &self.root
    }

    /// The rows of sites, as they are stored.
    pub(crate) fn rows(&self) -> &[SiteRow]
        ensures same { self.now ≡ stored self.now.root result.now }
        ensures limit { AreOfSites result.now }
    {
        &self.rows
    }

    /// No row of a site is zero. Its contract is what it is for.
    pub(crate) fn no_row_is_zero(&self)
        ensures { HasNoZeroRow self.now }
    {
        let _rows = self.rows.len();
    }

    /// How many rows of sites are stored: what it costs to add this share to another. Contracts say nothing of it, since
    /// they see only the sum of the rows of a site.
    pub fn row_count(&self) -> usize {
        self.rows.len()
    }

    /// Adds another share, whose sums with these rows must fit their types. It takes time linear in the other's rows,
    /// amortized.
    ///
    /// # Errors
    ///
    /// Where an allocation failed; the share then has the rows that it had.
    pub fn merge(&mut self, other: &Share) -> Result<(), AllocError>
        requires root_fits { Fits (plus self.old.root other.now.root) }
        requires sites_fit { (s : ℕ) → Fits (plus (row_at self.old s) (row_at other.now s)) }
        ensures sums { OnOk result (IsSum self.old other.now self.new) }
        ensures stays { OnErr result (self.new ≡ self.old) }
    {
        make_room(&mut self.hints, &mut self.rows, &other.rows)?;
        put_all(&mut self.hints, &mut self.rows, &other.rows);
        add_to(&mut self.root, &other.root);
        Ok(())
    }

    /// Adds two other shares, the one to this share and the other to a second one, whose sums must fit their types: both
    /// or neither. It takes the time of two merges.
    ///
    /// # Errors
    ///
    /// Where an allocation failed; both shares then have the rows that they had.
    pub fn merge_both(
        &mut self,
        other: &Share,
        second: &mut Share,
        second_other: &Share,
    ) -> Result<(), AllocError>
        requires root_fits { Fits (plus self.old.root other.now.root) }
        requires sites_fit { (s : ℕ) → Fits (plus (row_at self.old s) (row_at other.now s)) }
        requires second_root_fits { Fits (plus second.old.root second_other.now.root) }
        requires second_sites_fit { (s : ℕ) → Fits (plus (row_at second.old s) (row_at second_other.now s)) }
        ensures sums { OnOk result (IsSum self.old other.now self.new) }
        ensures second_sums { OnOk result (IsSum second.old second_other.now second.new) }
        ensures stays { OnErr result (self.new ≡ self.old) }
        ensures second_stays { OnErr result (second.new ≡ second.old) }
    {
        make_room(&mut second.hints, &mut second.rows, &second_other.rows)?;
        self.merge(other)?;
        put_all(&mut second.hints, &mut second.rows, &second_other.rows);
        add_to(&mut second.root, &second_other.root);
        Ok(())
    }

    /// A share with the same rows. It takes time linear in their number.
    ///
    /// # Errors
    ///
    /// Where an allocation failed.
    pub fn copy(alloc: Global, share: &Share) -> Result<Share, AllocError>
        ensures same { IfOk result (λ t. t ≡ share.now) }
    {
        let rows = Vec::from_slice(alloc, &share.rows)?;
        let hints = Vec::from_slice(alloc, &share.hints)?;
        Ok(Share {
            root: share.root,
            rows,
            hints,
        })
    }
}
