//! A row of a table.

/// What the frames that were entered by one call site, or the root frame alone, add up to. Work, spans and local counts
/// are in instructions.
#[derive(Clone, Copy, Debug, Default, PartialEq, Eq)]
pub struct Row {
    /// The number of frames.
    pub count: u64,
    /// The number of the top frames by site: those that no frame of the same site encloses.
    pub site_count: u64,
    /// The number of the top frames by caller: those whose caller is enclosed by no frame of the caller's function.
    pub caller_count: u64,
    /// The sum of the counts of the strands directly in them.
    pub local: u128,
    /// The sum of the works of the top frames by site.
    pub site_work: u128,
    /// The sum of their spans.
    pub site_span: u128,
    /// The sum of the works of the top frames by caller.
    pub caller_work: u128,
    /// The sum of their spans.
    pub caller_span: u128,
}
