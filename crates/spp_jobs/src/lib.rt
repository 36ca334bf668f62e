//! What workers do with the parts of a cut trace: four jobs, each of which any number of them can share.
#![tactic(auto)]

mod adding;
mod beginnings;
mod laws;
mod lists;
mod pathed;
mod profiled;
mod survey;
mod tabled;

pub use beginnings::entries_of;
pub use laws::name_laws;
pub use pathed::{PathJob, Pathed};
pub use profiled::{ProfileJob, ProfilePiece, join_parts};
pub use survey::{Survey, SurveyJob};
pub use tabled::{TableJob, Tabled};
