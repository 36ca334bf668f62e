//! What is asked of `advise`.

ghost use Rattle.std.specs.Prelude.{◌≡◌, None};

use spp_change::Factor;

/// What is asked of `advise`, beside the request that names the run, its burdens and its workers.
#[derive(Debug, Drop)]
pub struct AdviseOptions {
    /// How many call sites it tells of at most, the root frame not counted. The trace is read up to three times for each.
    pub top: u32,
    /// By how much it makes strands faster.
    pub factor: Factor,
    /// The name of the one call site that it tells of, on a critical path or not; none where it tells of those that weigh most.
    pub site: Option<String>,
}

impl Default for AdviseOptions {
    ghost is_default = { λ o. o ≡ record { top = 10; factor = 2; site = None } };

    fn default() -> AdviseOptions {
        AdviseOptions {
            top: 10,
            factor: Factor::default(),
            site: None,
        }
    }
}
