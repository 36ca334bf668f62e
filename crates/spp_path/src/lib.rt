//! The first greatest path of a run, without burdens the critical path of the literature: which spawned children it
//! enters, and its rows by call site. Its span is that of the run; Cilkprof calls the same numbers those "on the span".
//! The path that is greatest under burdens is found from its own choices in the same way.
//!
//! Which children the path enters is settled from the end backwards, by the choices of the parts of a trace alone:
//! [`settle`] goes back over those of all parts ([`settle_by_hops`] leaves out most of those that don't matter to the
//! path), and tells of each part what it needs to know of the path, so that [`part_rows`] and [`mark_part`] can read the
//! parts in any order. The former keeps the weights of each open frame, 48 bytes, for its span, and 48 bytes more of a
//! frame on the path; the latter tells which events of a part are on the path.
#![tactic(auto)]

mod both;
mod entered;
mod flags;
mod hops;
mod marking;
mod part;
mod placing;
mod rows;
mod settled;
mod settling;
mod spans;
mod trail;

pub use both::both_part_rows;
pub use flags::{Flag, Flags};
pub use marking::mark_part;
pub use part::part_rows;
pub use settled::{Settled, Under, settle, settle_by_hops};
