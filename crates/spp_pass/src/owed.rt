//! Rows of frames that have closed in a stretch, which no table has yet.

ghost use Rattle.std.specs.Prelude.{◌≡◌, ℕ, Option, OnOk, IfOk};
ghost use Rattle.spp_dag.specs.Shares.{plus};
ghost use Rattle.spp_site.specs.Rows.{Fits};
ghost use Rattle.spp_site.specs.Profiles.{key_row};
ghost use Rattle.spp_ways.specs.Enclosures.{enclosure_of};
ghost use Rattle.spp_pass.specs.CallRows.{calls_row, EachBelow};
ghost use Rattle.spp_pass.specs.CallFrames.{stretch_calls};

use crate::stretch_calls::StretchCalls;
use spp_site::{Marks, NarrowTable};
use spp_ways::Enclosing;
use std::alloc::{AllocError, Global};

/// Adds the frames of a stretch that this encloses to a table.
///
/// # Errors
///
/// Where an allocation failed.
fn add_stretch(
    table: &mut NarrowTable,
    calls: &StretchCalls,
    enclosing: &Enclosing<'_>,
) -> Result<(), AllocError>
    requires below { EachBelow 65536 calls.now.rows.items }
    requires fits { (key : Option ℕ) → Fits (plus (key_row table.old key) (calls_row (enclosure_of enclosing.now) (stretch_calls calls.now) key)) }
    ensures { OnOk result ((key : Option ℕ) → key_row table.new key ≡ plus (key_row table.old key) (calls_row (enclosure_of enclosing.now) (stretch_calls calls.now) key)) }
{
    for call in &calls.rows {
        table.add_row(call.site, &call.within(enclosing))?;
    }
    for frame in &calls.frames {
        table.add(frame.site, &frame.within(enclosing))?;
    }
    Ok(())
}

/// Rows of frames that have closed in a stretch, which no table has yet, with what encloses the stretch.
#[derive(Drop)]
pub struct OwedCalls {
    calls: StretchCalls,
    sites: Marks,
    funcs: Marks,
    direct: bool,
    ghost below: { EachBelow 65536 calls.rows.items },
}

impl OwedCalls {
    ghost use Rattle.spp_pass.specs.OwedRows.{owed_row, owed_rows};

    /// These rows, of a stretch that this encloses. It takes time linear in the greatest number of a site and of a function that
    /// the open frames have had.
    ///
    /// # Errors
    ///
    /// Where an allocation failed.
    pub(crate) fn of(
        alloc: Global,
        calls: StretchCalls,
        enclosing: &Enclosing<'_>,
    ) -> Result<Self, AllocError>
        requires { EachBelow 65536 calls.rows.items }
        ensures { IfOk result (λ o. (key : Option ℕ) → owed_row o key ≡ calls_row (enclosure_of enclosing.now) (stretch_calls calls) key) }
    {
        let sites = Marks::copy(alloc, enclosing.sites)?;
        let funcs = Marks::copy(alloc, enclosing.funcs)?;
        Ok(OwedCalls {
            calls,
            sites,
            funcs,
            direct: enclosing.direct,
        })
    }

    /// Adds the rows to a table.
    ///
    /// # Errors
    ///
    /// Where an allocation failed.
    fn add_to(&self, table: &mut NarrowTable) -> Result<(), AllocError>
        requires { (key : Option ℕ) → Fits (plus (key_row table.old key) (owed_row self.now key)) }
        ensures { OnOk result ((key : Option ℕ) → key_row table.new key ≡ plus (key_row table.old key) (owed_row self.now key)) }
    {
        let enclosing = Enclosing {
            sites: &self.sites,
            funcs: &self.funcs,
            direct: self.direct,
        };
        add_stretch(table, &self.calls, &enclosing)
    }

    /// Adds all these rows to a table.
    ///
    /// # Errors
    ///
    /// Where an allocation failed.
    pub(crate) fn add_all(table: &mut NarrowTable, owed: &[OwedCalls]) -> Result<(), AllocError>
        requires { (key : Option ℕ) → Fits (plus (key_row table.old key) (owed_rows owed.now key)) }
        ensures { OnOk result ((key : Option ℕ) → key_row table.new key ≡ plus (key_row table.old key) (owed_rows owed.now key)) }
    {
        for calls in owed {
            calls.add_to(table)?;
        }
        Ok(())
    }
}
