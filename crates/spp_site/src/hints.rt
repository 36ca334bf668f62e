//! Rows of sites as a share has them: in any order, several of one site as well, and hints that find a row of a site.

ghost use Rattle.std.specs.Prelude.{◌≡◌, ℕ, ◌+◌, ◌≤◌, ◌<◌, ◌++◌, length, replicate, vec_capacity, OnOk};
ghost use Rattle.spp_dag.specs.Shares.{plus};
ghost use Rattle.spp_site.specs.Rows.{Fits};
ghost use Rattle.spp_site.specs.Slots.{row_in, rows_alone, IsHinted, AreOfSites};
ghost use Rattle.spp_site.specs.Table.{IsAdded, IsSum};

use crate::row_sums::add_to;
use crate::slots::{SiteRow, place_of, reach_of};
use std::alloc::AllocError;

/// How many hints take the memory of one row.
const HINTS_OF_A_ROW: usize = 32;

/// Makes room for these rows, so that none of them needs memory when it is put in; and lengthens the hints up to their
/// sites, where hints then take no more memory than rows do. What is stored stays, also where an allocation failed.
pub(crate) fn make_room(
    hints: &mut Vec<u32>,
    rows: &mut Vec<SiteRow>,
    more: &[SiteRow],
) -> Result<(), AllocError>
    requires limit { AreOfSites more.now }
    requires small { length hints.old.items ≤ 65536 }
    ensures room { OnOk result (length rows.new.items + length more.now ≤ vec_capacity rows.new) }
    ensures grown { (n : ℕ) × (hints.new.items ≡ hints.old.items ++ replicate n 0) }
    ensures small { length hints.new.items ≤ 65536 }
    ensures rows { rows.new.items ≡ rows.old.items }
{
    rows.reserve(more.len())?;
    let reach = reach_of(more);
    if hints.len() < reach && reach / HINTS_OF_A_ROW <= rows.len() + more.len() {
        hints.resize(reach, 0)?;
    }
    Ok(())
}

/// Adds a row to the one of its site that a hint tells of, or else puts it in behind the others; a hint tells of it then,
/// where the hints reach its site. There is room for it.
fn put(hints: &mut Vec<u32>, rows: &mut Vec<SiteRow>, entry: &SiteRow)
    requires hinted { IsHinted hints.old.items rows.old.items }
    requires limit { entry.now.site < 65536 }
    requires room { length rows.old.items < vec_capacity rows.old }
    requires fits { Fits (plus (row_in rows.old.items entry.now.site) entry.now.row) }
    ensures hinted { IsHinted hints.new.items rows.new.items }
    ensures added { IsAdded (rows_alone rows.old.items) (rows_alone rows.new.items) entry.now.site entry.now.row }
    ensures count { length rows.new.items ≤ length rows.old.items + 1 }
    ensures capacity { vec_capacity rows.new ≡ vec_capacity rows.old }
{
    if let Some(place) = place_of(hints, entry.site) {
        add_to(&mut rows[place].row, &entry.row);
        return;
    }
    rows.push_reserved(*entry);
    let site = entry.site as usize;
    // A place that is no u32 stays without a hint.
    if let Ok(place) = u32::try_from(rows.len())
        && site < hints.len()
    {
        hints[site] = place;
    }
}

/// Adds all these rows, for which there is room.
pub(crate) fn put_all(hints: &mut Vec<u32>, rows: &mut Vec<SiteRow>, more: &[SiteRow])
    requires hinted { IsHinted hints.old.items rows.old.items }
    requires limit { AreOfSites more.now }
    requires room { length rows.old.items + length more.now ≤ vec_capacity rows.old }
    requires fits { (s : ℕ) → Fits (plus (row_in rows.old.items s) (row_in more.now s)) }
    ensures hinted { IsHinted hints.new.items rows.new.items }
    ensures sum { IsSum (rows_alone rows.old.items) (rows_alone more.now) (rows_alone rows.new.items) }
{
    for entry in more {
        put(hints, rows, entry);
    }
}
