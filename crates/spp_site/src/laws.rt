//! The law of tables.

ghost use Rattle.spp_site.specs.Laws.{RowsMakeTable};

/// The law of tables: two that answer alike, and keep no zero row, are equal. Its contract is what it is for.
pub fn table_laws()
    ensures { RowsMakeTable }
{}
