//! The answers to a trace, made by worker threads that share its parts or its blocks.
//!
//! A crew of workers goes through the parts of a cut trace in rounds. In each round the workers draw the numbers of the
//! parts, each once, do the round's job on them, and put what came of it at one desk, whose book joins the pieces in
//! whatever order they come. Figures take one round. A profile takes one, which reads each event once, or three where the
//! trace names more than 1,024 call sites. Marks take three: two of those, and the marking of events, which has no desk: each
//! worker is given neighbouring parts and the bytes of their events.
//!
//! Where there are three, little is done between them, and that by one thread or two: after the first it finds the frames
//! that are open where each part begins, and before the last it settles the paths.
//!
//! A trace of either version can also come block by block, and need not be kept: [`RecordFigures`], [`RecordProfile`]. With
//! several workers each block is posted to a pool of threads, fewer than the workers; whoever reads one leaves in it what it
//! comes to, in a place whose type promises that it is of that block. The calling thread joins the blocks in order, and reads
//! posted ones too while it waits. Where there is one worker, and where blocks are slow to join, it reads each block itself.
//! There is no desk and no round.
#![tactic(auto)]

mod block;
mod figured_blocks;
mod gate;
mod joining;
mod marking;
mod once;
mod pool;
mod posted;
mod profiled_blocks;
mod profiling;
mod record_figures;
mod record_head;
mod record_profile;
mod round;
mod shared_profile;
mod shown;
mod surveying;
mod whole_profile;

pub use gate::{Gate, OpenGate, Round};
pub use marking::{burdened_marks, marks};
pub use once::profile_once;
pub use profiling::{profile_in_rounds, tabled};
pub use record_figures::RecordFigures;
pub use record_head::RecordHead;
pub use record_profile::RecordProfile;
pub use round::run_round;
pub use surveying::{Surveyed, figures, survey};
pub use whole_profile::{FEW_SITES, profile};
