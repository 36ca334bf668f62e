//! What the words of a command line ask for.

use spp_request::{AdviseOptions, Request};

/// What the words of a command line ask for.
#[derive(Debug, Drop)]
pub struct Asked {
    /// What is to be answered. Whoever asks for advice about a run has the request of one who asks for its profile.
    pub request: Request,
    /// How to advise about the run, where advice is asked for in place of that answer.
    pub advise: Option<AdviseOptions>,
    /// Whether a second line is to explain a line of fault. It changes no answer, no line of fault and no exit status.
    pub explain: bool,
}
