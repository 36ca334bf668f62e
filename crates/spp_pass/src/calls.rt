//! The frames that close in a stretch of events.

ghost use Rattle.std.specs.Prelude.{◌≡◌, ◌+◌, ◌*◌, ◌<◌, ◌≤◌, ◌^◌, ◌++◌, ◌∷◌, [], ℕ, length, get_or, Option, true, false, IfSome, OnOk};
ghost use Rattle.spp_dag.specs.Shares.{plus};
ghost use Rattle.spp_site.specs.Rows.{Fits, frame_row};
ghost use Rattle.spp_site.specs.Profiles.{key_row};
ghost use Rattle.spp_ways.specs.Enclosures.{enclosure_of};
ghost use Rattle.spp_pass.specs.CallRows.{enclosed_sums, calls_row, no_calls, AreAdded, EachBelow, AreLight, IsLightFrame};

use spp_dag::Row;
use spp_site::{ClosedFrame, Table};
use spp_ways::Enclosing;
use std::alloc::{AllocError, Global};
use std::mem;

/// What some frames add up to that were opened and have closed in a stretch of events, of which it isn't known what encloses
/// it: frames of one call site, whose callers run one function. A site and a function may have several such rows.
#[derive(Clone, Copy)]
pub struct CallRow {
    /// Their row in a table of the stretch alone.
    pub row: Row,
    /// The call site.
    pub site: u32,
    /// The function of their callers, or `OUTER_CALLER`.
    pub caller: u32,
}

impl CallRow {
    /// Their row in the table of a run in which this encloses the stretch.
    #[inline(always)]
    pub(crate) fn within(&self, enclosing: &Enclosing<'_>) -> Row
        ensures { result ≡ enclosed_sums (enclosure_of enclosing.now) self.now.site self.now.caller self.now.row }
    {
        let top_site = enclosing.is_top_site(self.site);
        let top_caller = enclosing.is_top_caller(self.caller);
        let row = &self.row;
        Row {
            count: row.count,
            local: row.local,
            site_count: if top_site { row.site_count } else { 0 },
            site_work: if top_site { row.site_work } else { 0 },
            site_span: if top_site { row.site_span } else { 0 },
            caller_count: if top_caller { row.caller_count } else { 0 },
            caller_work: if top_caller { row.caller_work } else { 0 },
            caller_span: if top_caller { row.caller_span } else { 0 },
        }
    }
}

/// Adds rows to a table, of a stretch that this encloses.
///
/// # Errors
///
/// Where an allocation failed.
pub(crate) fn add_calls(
    table: &mut Table,
    calls: &[CallRow],
    enclosing: &Enclosing<'_>,
) -> Result<(), AllocError>
    requires below { EachBelow 65536 calls.now }
    requires fits { (key : Option ℕ) → Fits (plus (key_row table.old key) (calls_row (enclosure_of enclosing.now) calls.now key)) }
    ensures { OnOk result ((key : Option ℕ) → key_row table.new key ≡ plus (key_row table.old key) (calls_row (enclosure_of enclosing.now) calls.now key)) }
{
    for call in calls {
        table.add(call.site, &call.within(enclosing))?;
    }
    Ok(())
}

/// Where a row may be found.
#[derive(Clone, Copy)]
struct Place {
    /// The row's site.
    site: u32,
    /// Its callers' function; `NO_CALLER` where the place is free.
    caller: u32,
    /// Its number.
    number: usize,
}

/// No function, and not `OUTER_CALLER`.
const NO_CALLER: u32 = u32::MAX;

/// The fewest places, where there are any.
const FEWEST_PLACES: usize = 64;

/// The most places: so many fit into the processor's nearest cache. Of more rows some aren't found again.
const MOST_PLACES: usize = 2048;

/// How many neighbouring places are looked at for a row.
const PROBES: usize = 4;

/// A place that is free.
const FREE: Place = Place {
    site: 0,
    caller: NO_CALLER,
    number: 0,
};

/// What the frames come to that were opened and have closed in a stretch so far: rows, each for some of the frames of a call
/// site and a function that calls by it. Where such pairs are few, most of them have one row.
#[derive(Drop)]
pub struct Calls {
    /// The rows.
    rows: Vec<CallRow>,
    /// Places of rows, found by site and caller: none, or a power of two. At least half of them are free, unless there are the
    /// most. A place says which row to look at, and no more: where it was given to another row, the first isn't found again.
    places: Vec<Place>,
}

/// The first place of the row of a site and a caller, where there are so many, a power of two; where there are none it's any
/// number.
#[inline(always)]
fn first_place(site: u32, caller: u32, places: usize) -> usize {
    let mixed = (site ^ caller.wrapping_mul(0x9e37_79b1)).wrapping_mul(0x85eb_ca6b);
    (mixed >> 15) as usize & places.wrapping_sub(1)
}

impl Calls {
    /// No frames. It takes no memory.
    pub fn new(alloc: Global) -> Self
        ensures { result.rows.items ≡ [] }
    {
        Calls {
            rows: Vec::new(alloc),
            places: Vec::new(alloc),
        }
    }

    /// The number of the row of a site and a caller, if it is at that place.
    #[inline(always)]
    fn at(&self, place: usize, site: u32, caller: u32) -> Option<usize>
        ensures { IfSome result (λ k. (k < length self.now.rows.items) × ((get_or self.now.rows.items k no_calls).site ≡ site) × ((get_or self.now.rows.items k no_calls).caller ≡ caller)) }
    {
        let place = self.places.get(place)?;
        if place.site != site || place.caller != caller {
            return None;
        }
        let number = place.number;
        let row = self.rows.get(number)?;
        if row.site == site && row.caller == caller {
            Some(number)
        } else {
            None
        }
    }

    /// Adds a frame to the row of that number, which is of its site and its caller's function.
    #[inline(always)]
    fn add_at(&mut self, k: usize, frame: &ClosedFrame)
        requires row { k < length self.old.rows.items }
        requires light { (n : ℕ) × (n < 2 ^ 32) × AreLight n self.old.rows.items × IsLightFrame frame.now }
        ensures added { AreAdded (get_or self.old.rows.items k no_calls).site (get_or self.old.rows.items k no_calls).caller frame.now self.old.rows.items self.new.rows.items }
        ensures light { (n : ℕ) → AreLight n self.old.rows.items → IsLightFrame frame.now → AreLight (n + 1) self.new.rows.items }
    {
        frame.add_to(&mut self.rows[k].row);
    }

    /// Adds a frame to the row that is at the first of its places, if there is one; tells whether it did.
    #[inline(always)]
    pub(crate) fn add_first(&mut self, site: u32, caller: u32, frame: &ClosedFrame) -> bool
        requires { (n : ℕ) × (n < 2 ^ 32) × AreLight n self.old.rows.items × IsLightFrame frame.now }
        ensures added { result ≡ true → AreAdded site caller frame.now self.old.rows.items self.new.rows.items }
        ensures light { result ≡ true → (n : ℕ) → AreLight n self.old.rows.items → IsLightFrame frame.now → AreLight (n + 1) self.new.rows.items }
        ensures stays { result ≡ false → self.new ≡ self.old }
    {
        let Some(k) = self.at(first_place(site, caller, self.places.len()), site, caller) else {
            return false;
        };
        self.add_at(k, frame);
        true
    }

    /// The same of its other places.
    pub(crate) fn add_next(&mut self, site: u32, caller: u32, frame: &ClosedFrame) -> bool
        requires { (n : ℕ) × (n < 2 ^ 32) × AreLight n self.old.rows.items × IsLightFrame frame.now }
        ensures added { result ≡ true → AreAdded site caller frame.now self.old.rows.items self.new.rows.items }
        ensures light { result ≡ true → (n : ℕ) → AreLight n self.old.rows.items → IsLightFrame frame.now → AreLight (n + 1) self.new.rows.items }
        ensures stays { result ≡ false → self.new ≡ self.old }
    {
        let first = first_place(site, caller, self.places.len());
        for step in 1..PROBES {
            if let Some(k) = self.at(self.next(first, step), site, caller) {
                self.add_at(k, frame);
                return true;
            }
        }
        false
    }

    /// Adds a frame that has closed, which was entered by that site from a caller that runs that function, or is the
    /// outermost frame of the stretch (`OUTER_CALLER`). It takes constant time, amortized.
    ///
    /// # Errors
    ///
    /// Where an allocation failed.
    #[inline(always)]
    pub fn add(&mut self, site: u32, caller: u32, frame: &ClosedFrame) -> Result<(), AllocError>
        requires { (n : ℕ) × (n < 2 ^ 32) × AreLight n self.old.rows.items × IsLightFrame frame.now }
        ensures added { OnOk result (AreAdded site caller frame.now self.old.rows.items self.new.rows.items) }
        ensures light { OnOk result ((n : ℕ) → AreLight n self.old.rows.items → IsLightFrame frame.now → AreLight (n + 1) self.new.rows.items) }
    {
        if self.add_first(site, caller, frame) {
            return Ok(());
        }
        if self.add_next(site, caller, frame) {
            return Ok(());
        }
        self.push(site, caller, frame)
    }

    /// Whether there are over so many rows besides one for each of the most places.
    pub(crate) fn has_rows_beyond(&self, more: usize) -> bool {
        self.rows.len() > MOST_PLACES.saturating_add(more)
    }

    /// The place so many steps behind.
    #[inline(always)]
    fn next(&self, place: usize, step: usize) -> usize {
        place.wrapping_add(step) & self.places.len().wrapping_sub(1)
    }

    /// Adds a frame as a row behind the others.
    ///
    /// # Errors
    ///
    /// Where an allocation failed.
    pub(crate) fn push(
        &mut self,
        site: u32,
        caller: u32,
        frame: &ClosedFrame,
    ) -> Result<(), AllocError>
        ensures added { OnOk result (AreAdded site caller frame.now self.old.rows.items self.new.rows.items) }
        ensures light { OnOk result ((n : ℕ) → AreLight n self.old.rows.items → IsLightFrame frame.now → AreLight (n + 1) self.new.rows.items) }
    {
        self.make_places()?;
        let number = self.rows.len();
        self.put(site, caller, number);
        self.rows.push(CallRow {
            row: frame.row(),
            site,
            caller,
        })?;
        Ok(())
    }

    /// Makes twice as many places, where half of them are taken.
    ///
    /// # Errors
    ///
    /// Where an allocation failed.
    fn make_places(&mut self) -> Result<(), AllocError>
        ensures { self.new.rows ≡ self.old.rows }
    {
        let places = self.places.len();
        if places >= MOST_PLACES || places > self.rows.len().saturating_mul(2) {
            return Ok(());
        }
        let count = places.saturating_mul(2).max(FEWEST_PLACES);
        self.places.clear();
        self.places.resize(count, FREE)?;
        for number in 0..self.rows.len() {
            let CallRow { site, caller, .. } = self.rows[number];
            self.put(site, caller, number);
        }
        Ok(())
    }

    /// Whether a place is there, and free.
    fn is_free(&self, place: usize) -> bool {
        match self.places.get(place) {
            Some(there) => there.caller == NO_CALLER,
            None => false,
        }
    }

    /// Notes where the row of that number is: at the first of its places that is free, or else at the first of all.
    fn put(&mut self, site: u32, caller: u32, number: usize)
        ensures { self.new.rows ≡ self.old.rows }
    {
        let first = first_place(site, caller, self.places.len());
        let mut place = first;
        for step in 0..PROBES {
            let next = self.next(first, step);
            if self.is_free(next) {
                place = next;
                break;
            }
        }
        if let Some(there) = self.places.get_mut(place) {
            *there = Place {
                site,
                caller,
                number,
            };
        }
    }

    /// Frees the places where a row may be, whichever rows they tell of: for where all rows go.
    fn free(&mut self, row: &CallRow)
        ensures { self.new.rows ≡ self.old.rows }
    {
        let first = first_place(row.site, row.caller, self.places.len());
        for step in 0..PROBES {
            let place = self.next(first, step);
            if let Some(there) = self.places.get_mut(place) {
                *there = FREE;
            }
        }
    }

    /// The rows of a stretch that ends; goes on with none. It takes constant time for each.
    pub fn take(&mut self, alloc: Global) -> Vec<CallRow>
        ensures rows { result.items ≡ self.old.rows.items }
        ensures none { self.new.rows.items ≡ [] }
    {
        let mut rows = Vec::new(alloc);
        mem::swap(&mut self.rows, &mut rows);
        for row in &rows {
            self.free(row);
        }
        rows
    }

    /// The rows.
    pub fn into_rows(self) -> Vec<CallRow>
        ensures { result.items ≡ self.rows.items }
    {
        let Calls { rows, .. } = self;
        rows
    }
}
