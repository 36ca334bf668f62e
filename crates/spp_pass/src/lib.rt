//! The pass over the events of a run, or of a part of it, that counts its frames by call site on the whole dag and notes
//! the choices that settle its paths, the one without burdens and the one under the burdens.
//!
//! The pass doesn't know whether a bad event comes, and so keeps every sum within bounds whatever comes. An open frame
//! takes 128 bytes and is changed where it lies. Whether an open frame has a site, or runs a function, is one mark for
//! each (`Marks` of spp_site): so a new frame is seen to be a top frame in constant time, and the frame that set a mark
//! takes it out. Strands add to their frame, and a return adds one row to the table, or gives it. Each return of a spawned child
//! is noted in 8 bytes, and each place where one joins in 12 for each of the two paths.
//!
//! A part is read by the same machine: it begins with the innermost of the frames that are open before the part, and
//! comes to the next one below where that returns. The strands of frames that stay open are added to their rows at the
//! part's end.
#![tactic(auto)]

mod aside;
mod calls;
mod counted_frame;
mod counting;
mod narrow_frame;
mod owed;
mod part;
mod stretch_calls;
mod summing;

pub use aside::RowsAside;
pub use calls::{CallRow, Calls};
pub use counting::{Closing, CountedStretch, Counting, Ended, Popped};
pub use owed::OwedCalls;
pub use part::{PartResult, run_part};
pub use stretch_calls::{CallsSoFar, StretchCalls};
