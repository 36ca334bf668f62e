//! The rows of a table in the order in which their sites came, and the index that finds them.

ghost use Rattle.std.specs.Prelude.{◌≡◌, ℕ, ◌+◌, ◌≤◌, ◌<◌, ◌++◌, List, length, get_or, replicate, vec_capacity, IfSome, MatchOption, OnOk, OnErr};
ghost use Rattle.spp_site.specs.declared.slots.SiteRow.{SiteRow as RowOfSite};
ghost use Rattle.spp_dag.specs.Shares.{plus};
ghost use Rattle.spp_site.specs.Rows.{Fits};
ghost use Rattle.spp_site.specs.Slots.{blank, row_in, rows_alone, HasNoRow, IsPlaceOf, IsIndexed, IsHinted, AreReached, AreOfSites};
ghost use Rattle.spp_site.specs.Table.{IsAdded, IsSum};

use crate::row_sums::add_to;
use spp_dag::Row;
use std::alloc::AllocError;

/// The row of a site.
#[derive(Clone, Copy, Debug, PartialEq, Eq)]
pub(crate) struct SiteRow {
    pub(crate) row: Row,
    pub(crate) site: u32,
}

/// The place of a site's row, or none where the site has no row. Of hints it is the place of a row of the site, or none
/// where no hint tells of one.
#[inline(always)]
pub(crate) fn place_of(index: &[u32], site: u32) -> Option<usize>
    ensures indexed { (rows : List RowOfSite) → IsIndexed index.now rows → MatchOption result (HasNoRow rows site) (IsPlaceOf rows site) }
    ensures hinted { (rows : List RowOfSite) → IsHinted index.now rows → IfSome result (IsPlaceOf rows site) }
{
    match index.get(site as usize) {
        None | Some(0) => None,
        Some(place) => Some(*place as usize - 1),
    }
}

/// Lengthens the index, where it doesn't reach a site.
pub(crate) fn reach(index: &mut Vec<u32>, site: u32) -> Result<(), AllocError>
    requires limit { site < 65536 }
    requires small { length index.old.items ≤ 65536 }
    ensures reached { OnOk result (site < length index.new.items) }
    ensures grown { (n : ℕ) × (index.new.items ≡ index.old.items ++ replicate n 0) }
    ensures small { length index.new.items ≤ 65536 }
    ensures stays { OnErr result (index.new.items ≡ index.old.items) }
{
    let at = site as usize;
    if at >= index.len() {
        index.resize(at + 1, 0)?;
    }
    Ok(())
}

/// One past the greatest of the sites of these rows; 0 where there are none.
pub(crate) fn reach_of(rows: &[SiteRow]) -> usize
    requires { AreOfSites rows.now }
    ensures reached { (k : ℕ) → k < length rows.now → (get_or rows.now k blank).site < result }
    ensures small { result ≤ 65536 }
{
    let mut reach = 0;
    for entry in rows {
        reach = reach.max(entry.site as usize + 1);
    }
    reach
}

/// Makes room for these rows, so that none of them needs memory when it is put in. What is stored stays, also where the
/// room was refused.
pub(crate) fn make_room(
    index: &mut Vec<u32>,
    rows: &mut Vec<SiteRow>,
    more: &[SiteRow],
) -> Result<(), AllocError>
    requires limit { AreOfSites more.now }
    requires small { length index.old.items ≤ 65536 }
    ensures reached { OnOk result (AreReached index.new.items more.now) }
    ensures room { OnOk result (length rows.new.items + length more.now ≤ vec_capacity rows.new) }
    ensures grown { (n : ℕ) × (index.new.items ≡ index.old.items ++ replicate n 0) }
    ensures small { length index.new.items ≤ 65536 }
    ensures rows { rows.new.items ≡ rows.old.items }
{
    rows.reserve(more.len())?;
    let reach = reach_of(more);
    if index.len() < reach {
        index.resize(reach, 0)?;
    }
    Ok(())
}

/// Adds a row to that of its site, or puts it in where the site has none. There is room for it.
fn put(index: &mut Vec<u32>, rows: &mut Vec<SiteRow>, entry: &SiteRow)
    requires indexed { IsIndexed index.old.items rows.old.items }
    requires reached { entry.now.site < length index.old.items }
    requires room { length rows.old.items < vec_capacity rows.old }
    requires fits { Fits (plus (row_in rows.old.items entry.now.site) entry.now.row) }
    ensures indexed { IsIndexed index.new.items rows.new.items }
    ensures added { IsAdded (rows_alone rows.old.items) (rows_alone rows.new.items) entry.now.site entry.now.row }
    ensures reach { length index.new.items ≡ length index.old.items }
    ensures count { length rows.new.items ≤ length rows.old.items + 1 }
    ensures capacity { vec_capacity rows.new ≡ vec_capacity rows.old }
{
    if let Some(place) = place_of(index, entry.site) {
        add_to(&mut rows[place].row, &entry.row);
        return;
    }
    let place = (rows.len() + 1) as u32;
    rows.push_reserved(*entry);
    index[entry.site as usize] = place;
}

/// Adds all these rows, for which there is room.
pub(crate) fn put_all(index: &mut Vec<u32>, rows: &mut Vec<SiteRow>, more: &[SiteRow])
    requires indexed { IsIndexed index.old.items rows.old.items }
    requires reached { AreReached index.old.items more.now }
    requires room { length rows.old.items + length more.now ≤ vec_capacity rows.old }
    requires fits { (s : ℕ) → Fits (plus (row_in rows.old.items s) (row_in more.now s)) }
    ensures indexed { IsIndexed index.new.items rows.new.items }
    ensures sum { IsSum (rows_alone rows.old.items) (rows_alone more.now) (rows_alone rows.new.items) }
{
    for entry in more {
        put(index, rows, entry);
    }
}
