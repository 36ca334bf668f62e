//! What a header says.

/// What is needed of a header to read the events behind it.
#[derive(Clone, Copy)]
pub struct RecordHead {
    /// The function of the root frame.
    pub root: u32,
    /// How many call sites it names.
    pub sites: u32,
    /// How many functions.
    pub funcs: u32,
    /// How many events it claims.
    pub count: u32,
}
