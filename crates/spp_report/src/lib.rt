//! The figures and tables of a run as text, two runs beside each other, and writing a whole text to a device that may take it in pieces, be
//! interrupted, or fail.
#![tactic(auto)]

mod advice;
mod advice_table;
mod advised;
mod bounds;
mod cells;
mod comparison;
mod csv_table;
mod figures;
mod line;
mod named;
mod out_sink;
mod plain;
mod run;
mod sink;
mod writing;

pub use advice::advice_text;
pub use advice_table::advice_csv;
pub use advised::{Advice, ChangedRun, ListedSite};
pub use comparison::{CompareRow, compare, compare_text};
pub use csv_table::csv_text;
pub use figures::{figures_text, hundredths};
pub use named::Named;
pub use out_sink::OutSink;
pub use plain::plain_text;
pub use run::{Cells, Run};
pub use sink::{Sink, SinkFault, WriteFault};
pub use writing::write_out;
