//! Small runs with what they come to where each burden is 3, worked out by hand from the definitions.

use spp_dag::Figures;
use spp_event::Event;
use spp_frame::{Fault, Why};

/// A well-formed run.
pub(crate) struct Good {
    pub(crate) events: &'static [Event],
    pub(crate) figures: Figures,
}

/// A run that isn't well-formed.
pub(crate) struct Bad {
    pub(crate) events: &'static [Event],
    pub(crate) fault: Fault,
}

/// A spawn at the site `A` of the function `f`.
pub(crate) const SPAWN: Event = Event::Spawn { site: 0, func: 1 };

/// A call at the site `A` of the function `f`.
pub(crate) const CALL: Event = Event::Call { site: 0, func: 1 };

/// A return.
pub(crate) const RET: Event = Event::Ret;

/// A sync.
pub(crate) const SYNC: Event = Event::Sync;

/// The longest strand.
pub(crate) const MOST: Event = Event::Strand { count: u64::MAX };

// Strands of so many instructions.
pub(crate) const S1: Event = Event::Strand { count: 1 };

pub(crate) const S2: Event = Event::Strand { count: 2 };

pub(crate) const S3: Event = Event::Strand { count: 3 };

pub(crate) const S4: Event = Event::Strand { count: 4 };

pub(crate) const S5: Event = Event::Strand { count: 5 };

pub(crate) const S6: Event = Event::Strand { count: 6 };

pub(crate) const S7: Event = Event::Strand { count: 7 };

pub(crate) const S10: Event = Event::Strand { count: 10 };

/// The instructions of two of the longest strands.
pub(crate) const TWICE: u128 = 36893488147419103230;

/// A child beside a shorter continuation.
pub(crate) const FORK: [Event; 7] = [S1, SPAWN, S10, RET, S4, SYNC, S2];

/// Three nested calls, each with a strand of one instruction.
pub(crate) const CALLS: [Event; 9] = [CALL, S1, CALL, S1, CALL, S1, RET, RET, RET];

/// A spawn within a spawn, and what follows both: the outer child is waited for at the end.
pub(crate) const NESTED: [Event; 7] = [SPAWN, SPAWN, S3, RET, S1, RET, S2];

/// The same, where a sync waits for the outer child.
pub(crate) const WAITED: [Event; 9] = [SPAWN, SPAWN, S3, RET, S1, RET, S2, SYNC, S1];

/// Two equal children, both waited for at the end.
pub(crate) const EQUAL: [Event; 7] = [SPAWN, S5, RET, SPAWN, S5, RET, SYNC];

/// A spawn within a call, beside a spawned child.
pub(crate) const IN_CALL: [Event; 11] = [SPAWN, S6, RET, CALL, SPAWN, S5, RET, S1, RET, S2, SYNC];

/// Well-formed runs.
pub(crate) const GOOD: &[Good] = &[
    Good {
        events: &[],
        figures: Figures {
            work: 0,
            span: 0,
            burdened: 0,
        },
    },
    Good {
        events: &[MOST, MOST],
        figures: Figures {
            work: TWICE,
            span: TWICE,
            burdened: TWICE,
        },
    },
    Good {
        events: &FORK,
        figures: Figures {
            work: 17,
            span: 13,
            burdened: 16,
        },
    },
    Good {
        events: &[SPAWN, S4, RET, S4, SYNC],
        figures: Figures {
            work: 8,
            span: 4,
            burdened: 7,
        },
    },
    Good {
        events: &[SPAWN, RET, SYNC],
        figures: Figures {
            work: 0,
            span: 0,
            burdened: 3,
        },
    },
    Good {
        events: &EQUAL,
        figures: Figures {
            work: 10,
            span: 5,
            burdened: 11,
        },
    },
    Good {
        events: &[SPAWN, S7, RET, S2],
        figures: Figures {
            work: 9,
            span: 7,
            burdened: 10,
        },
    },
    Good {
        events: &[SPAWN, MOST, MOST, RET],
        figures: Figures {
            work: TWICE,
            span: TWICE,
            burdened: 36893488147419103233,
        },
    },
    Good {
        events: &CALLS,
        figures: Figures {
            work: 3,
            span: 3,
            burdened: 3,
        },
    },
    Good {
        events: &NESTED,
        figures: Figures {
            work: 6,
            span: 3,
            burdened: 9,
        },
    },
    Good {
        events: &WAITED,
        figures: Figures {
            work: 7,
            span: 4,
            burdened: 10,
        },
    },
    Good {
        events: &[SPAWN, S4, RET, S1, SYNC, SPAWN, S2, RET, S5, SYNC],
        figures: Figures {
            work: 12,
            span: 9,
            burdened: 15,
        },
    },
    Good {
        events: &IN_CALL,
        figures: Figures {
            work: 14,
            span: 7,
            burdened: 13,
        },
    },
    Good {
        events: &[
            SPAWN, S6, RET, CALL, SPAWN, S5, RET, S1, RET, S2, SYNC, SYNC,
        ],
        figures: Figures {
            work: 14,
            span: 7,
            burdened: 13,
        },
    },
];

/// Runs that aren't well-formed.
pub(crate) const BAD: &[Bad] = &[
    Bad {
        events: &[S1, RET, S2],
        fault: Fault {
            at: 1,
            why: Why::RootReturn,
        },
    },
    Bad {
        events: &[CALL, S1],
        fault: Fault {
            at: 2,
            why: Why::Unclosed { depth: 1 },
        },
    },
    Bad {
        events: &[SPAWN, RET, RET, RET],
        fault: Fault {
            at: 2,
            why: Why::RootReturn,
        },
    },
    Bad {
        events: &[SPAWN, SPAWN, RET],
        fault: Fault {
            at: 3,
            why: Why::Unclosed { depth: 1 },
        },
    },
    Bad {
        events: &[CALL, SPAWN, RET, SPAWN],
        fault: Fault {
            at: 4,
            why: Why::Unclosed { depth: 2 },
        },
    },
];
