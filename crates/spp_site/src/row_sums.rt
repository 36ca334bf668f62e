//! Sums of rows.

ghost use Rattle.std.specs.Prelude.{◌≡◌};
ghost use Rattle.spp_dag.specs.Shares.{plus};
ghost use Rattle.spp_site.specs.Rows.{Fits};

use spp_dag::Row;

/// Adds a row, field by field. Sums to which nothing is added aren't written: most frames of a recursion are no top
/// frames.
#[inline(always)]
pub(crate) fn add_to(row: &mut Row, more: &Row)
    requires { Fits (plus row.old more.now) }
    ensures { row.new ≡ plus row.old more.now }
{
    row.count += more.count;
    row.local += more.local;
    if more.site_count != 0 || more.site_work != 0 || more.site_span != 0 {
        row.site_count += more.site_count;
        row.site_work += more.site_work;
        row.site_span += more.site_span;
    }
    if more.caller_count != 0 || more.caller_work != 0 || more.caller_span != 0 {
        row.caller_count += more.caller_count;
        row.caller_work += more.caller_work;
        row.caller_span += more.caller_span;
    }
}
