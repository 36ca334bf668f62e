//! The shell of the program: reads a request's inputs, answers it, and writes the answer or one line of fault.
#![tactic(auto)]

mod advise_task;
mod advising;
mod beside;
mod block_read;
mod came;
mod check_task;
mod checked_records;
mod compare_task;
mod encode_task;
mod figured_records;
mod figures_task;
mod finding;
mod header_end;
mod in_source;
mod input;
mod laws;
mod migrate_task;
mod migrated_records;
mod opening;
mod place;
mod profile_task;
mod profiled_records;
mod reading;
mod reading_on;
mod record_stream;
mod records;
mod refusal;
mod room;
mod running;
mod source;
pub mod status;
mod tell_input;
mod telling;
mod text_so_far;
mod told_sites;
mod trouble;
mod usage;
mod writing;

pub use in_source::InSource;
pub use laws::migrate_laws;
pub use place::Place;
pub use reading::{INPUT_LIMIT, ReadFault, read_all, read_within};
pub use running::{advise, run};
pub use source::{Source, SourceFault};
pub use usage::{refuse_input, refuse_long_input, show_usage};
