//! Which input of a run a line of fault is about.
ghost use Rattle.std.specs.Prelude.{◌≡◌};
ghost use Rattle.spp_shell.specs.Places.{place_words};

/// Which input of a run a line of fault is about.
#[derive(Clone, Copy, Debug, PartialEq, Eq)]
pub enum Place {
    /// The one input that there is.
    Only,
    /// The first of two, the run before a change.
    Before,
    /// The second of two, the run after it.
    After,
}

impl Place {
    /// The words that a line of fault begins with.
    pub(crate) fn words(self) -> &'static str
        ensures { result.now ≡ place_words self }
    {
        match self {
            Place::Only => "",
            Place::Before => "before: ",
            Place::After => "after: ",
        }
    }
}
