//! The numbers of a row in the order in which texts tell them.

ghost use Rattle.std.specs.Prelude.{◌≡◌};
ghost use Rattle.spp_report.specs.Csv.{numbers as numbers_of};

use spp_site::Row;

/// The eight numbers of a row: counts of frames, and works and spans in instructions.
pub(crate) fn numbers(row: &Row) -> [u128; 8]
    ensures { result ≡ numbers_of row.now }
{
    [
        u128::from(row.count),
        row.local,
        u128::from(row.site_count),
        row.site_work,
        row.site_span,
        u128::from(row.caller_count),
        row.caller_work,
        row.caller_span,
    ]
}
