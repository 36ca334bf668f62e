//! The table of rows by call site: the row of the root frame, and one for each site that was added to; the share of a part
//! of a run in it; and tables of smaller rows, which take less time where there are many sites.
#![tactic(auto)]

mod closed_frame;
mod empty_sums;
mod hints;
mod laws;
mod marks;
mod narrow_list;
mod narrow_row;
mod narrow_sums;
mod narrow_table;
mod noted_table;
mod profile;
mod row_sums;
mod share;
mod slots;
mod table;

pub use closed_frame::ClosedFrame;
pub use empty_sums::EmptySums;
pub use laws::table_laws;
pub use marks::Marks;
pub use narrow_list::NarrowList;
pub use narrow_row::{KnownRow, NarrowRow};
pub use narrow_sums::NarrowSums;
pub use narrow_table::NarrowTable;
pub use profile::Profile;
pub use share::Share;
pub use spp_dag::Row;
pub use table::Table;
