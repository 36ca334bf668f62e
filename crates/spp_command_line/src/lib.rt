//! The command line: from words to a request, or the text that the user is shown in its place.
#![tactic(auto)]

mod asked;
mod command_line;
mod laws;
mod reading;
mod tips;

pub use asked::Asked;
pub use laws::word_laws;
pub use reading::{read_request, read_words};
