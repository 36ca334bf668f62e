//! The text form of a trace, in which people write and read traces by hand.
#![tactic(auto)]

mod draft;
mod events;
mod fault;
mod laws;
mod lines;
mod parse;
mod print;
mod record;
mod text_draft;
mod usual;
mod words;

pub use fault::{TextFault, TextWhy};
pub use laws::text_laws;
pub use parse::parse_text;
pub use print::{PrintFault, print_text};
pub use text_draft::TextDraft;
