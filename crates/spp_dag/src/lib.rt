//! The dag of a recorded run: what spans, paths and rows by call site mean, and the laws that make two numbers for each
//! open frame enough to find the spans and the paths.
#![tactic(auto)]

mod choices;
mod figures;
mod laws;
mod row;
mod stack;

pub use choices::{Choice, Choices, End};
pub use figures::Figures;
pub use laws::{
    choice_laws, limit_laws, path_laws, profile_laws, share_laws, stack_laws, step_laws, walk_laws,
    worked_rows,
};
pub use row::Row;
pub use stack::{EntryFrame, FrameKind, OpenFrame};
