//! Small runs with what they come to, worked out from the definitions, by hand and by another program.

use spp_dag::Figures;
use spp_event::Event;
use spp_maxplus::Burdens;

/// A row: its count and local count, and for its top frames by site and by caller their number, work and span.
pub(crate) type Line = [u128; 8];

/// The rows of the root and of the site `A`.
pub(crate) type Lines = [Line; 2];

/// A well-formed run.
#[derive(Clone, Copy)]
pub(crate) struct Good<'a> {
    pub(crate) events: &'a [Event],
    /// The burdens under which it has these figures and this burdened path.
    pub(crate) burdens: Burdens,
    pub(crate) figures: Figures,
    /// The rows on the whole dag.
    pub(crate) dag: Lines,
    /// Those on the path without burdens.
    pub(crate) path: Lines,
    /// Those on the path under the burdens.
    pub(crate) burdened_path: Lines,
    /// A byte for each event: 1 where it is on the path without burdens, else 0.
    pub(crate) marks: &'a [u8],
    /// The same of the path under the burdens.
    pub(crate) burdened_marks: &'a [u8],
}

/// A spawn at the site `A` of the function `f`.
pub(crate) const SPAWN: Event = Event::Spawn { site: 0, func: 1 };

/// A call at the site `A` of the function `f`.
pub(crate) const CALL: Event = Event::Call { site: 0, func: 1 };

/// A return.
pub(crate) const RET: Event = Event::Ret;

/// A sync.
pub(crate) const SYNC: Event = Event::Sync;

/// The longest strand.
pub(crate) const MOST: Event = Event::Strand { count: u64::MAX };

// Strands of so many instructions.
pub(crate) const S1: Event = Event::Strand { count: 1 };

pub(crate) const S2: Event = Event::Strand { count: 2 };

pub(crate) const S3: Event = Event::Strand { count: 3 };

pub(crate) const S4: Event = Event::Strand { count: 4 };

pub(crate) const S5: Event = Event::Strand { count: 5 };

pub(crate) const S6: Event = Event::Strand { count: 6 };

pub(crate) const S7: Event = Event::Strand { count: 7 };

pub(crate) const S10: Event = Event::Strand { count: 10 };

/// The instructions of two of the longest strands.
const TWICE: u128 = 36893488147419103230;

/// A child beside a shorter continuation.
pub(crate) const FORK: [Event; 7] = [S1, SPAWN, S10, RET, S4, SYNC, S2];

/// A child beside a continuation that weighs the same.
const EVEN: [Event; 5] = [SPAWN, S4, RET, S4, SYNC];

/// Three nested calls, each with a strand of one instruction.
pub(crate) const CALLS: [Event; 9] = [CALL, S1, CALL, S1, CALL, S1, RET, RET, RET];

/// A spawn within a spawn, and what follows both: the outer child is waited for at the end.
const NESTED: [Event; 7] = [SPAWN, SPAWN, S3, RET, S1, RET, S2];

/// The same, where a sync waits for the outer child.
pub(crate) const WAITED: [Event; 9] = [SPAWN, SPAWN, S3, RET, S1, RET, S2, SYNC, S1];

/// Two equal children, both waited for at the end.
pub(crate) const EQUAL: [Event; 7] = [SPAWN, S5, RET, SPAWN, S5, RET, SYNC];

/// A child that is taken, and later one that isn't.
pub(crate) const TWO_SYNCS: [Event; 10] = [SPAWN, S4, RET, S1, SYNC, SPAWN, S2, RET, S5, SYNC];

/// A spawn within a call, beside a spawned child.
pub(crate) const IN_CALL: [Event; 11] = [SPAWN, S6, RET, CALL, SPAWN, S5, RET, S1, RET, S2, SYNC];

/// The same with a sync that waits for nobody.
const IN_CALL_SYNCED: [Event; 12] = [
    SPAWN, S6, RET, CALL, SPAWN, S5, RET, S1, RET, S2, SYNC, SYNC,
];

/// A child that is joined within one that weighs less than its continuation.
pub(crate) const BESIDE: [Event; 8] = [SPAWN, SPAWN, S5, RET, SYNC, RET, S10, SYNC];

/// Spawns in spawned and called frames.
const SPAWNS: [Event; 15] = [
    S3, SPAWN, S5, SPAWN, S5, RET, S5, RET, CALL, S1, SPAWN, RET, RET, SYNC, S1,
];

/// Well-formed runs.
pub(crate) const GOOD: &[Good<'static>] = &[
    Good {
        events: &[],
        burdens: Burdens {
            continuation: 3,
            join: 3,
        },
        figures: Figures {
            work: 0,
            span: 0,
            burdened: 0,
        },
        dag: [[1, 0, 1, 0, 0, 1, 0, 0], [0, 0, 0, 0, 0, 0, 0, 0]],
        path: [[1, 0, 1, 0, 0, 1, 0, 0], [0, 0, 0, 0, 0, 0, 0, 0]],
        burdened_path: [[1, 0, 1, 0, 0, 1, 0, 0], [0, 0, 0, 0, 0, 0, 0, 0]],
        marks: &[],
        burdened_marks: &[],
    },
    Good {
        events: &[MOST, MOST],
        burdens: Burdens {
            continuation: 3,
            join: 3,
        },
        figures: Figures {
            work: TWICE,
            span: TWICE,
            burdened: TWICE,
        },
        dag: [
            [1, TWICE, 1, TWICE, TWICE, 1, TWICE, TWICE],
            [0, 0, 0, 0, 0, 0, 0, 0],
        ],
        path: [
            [1, TWICE, 1, TWICE, TWICE, 1, TWICE, TWICE],
            [0, 0, 0, 0, 0, 0, 0, 0],
        ],
        burdened_path: [
            [1, TWICE, 1, TWICE, TWICE, 1, TWICE, TWICE],
            [0, 0, 0, 0, 0, 0, 0, 0],
        ],
        marks: &[1, 1],
        burdened_marks: &[1, 1],
    },
    Good {
        events: &FORK,
        burdens: Burdens {
            continuation: 3,
            join: 3,
        },
        figures: Figures {
            work: 17,
            span: 13,
            burdened: 16,
        },
        dag: [[1, 7, 1, 17, 13, 1, 17, 13], [1, 10, 1, 10, 10, 1, 10, 10]],
        path: [[1, 3, 1, 17, 13, 1, 17, 13], [1, 10, 1, 10, 10, 1, 10, 10]],
        burdened_path: [[1, 3, 1, 17, 13, 1, 17, 13], [1, 10, 1, 10, 10, 1, 10, 10]],
        marks: &[1, 1, 1, 1, 0, 1, 1],
        burdened_marks: &[1, 1, 1, 1, 0, 1, 1],
    },
    Good {
        events: &EVEN,
        burdens: Burdens {
            continuation: 3,
            join: 3,
        },
        figures: Figures {
            work: 8,
            span: 4,
            burdened: 7,
        },
        dag: [[1, 4, 1, 8, 4, 1, 8, 4], [1, 4, 1, 4, 4, 1, 4, 4]],
        path: [[1, 0, 1, 8, 4, 1, 8, 4], [1, 4, 1, 4, 4, 1, 4, 4]],
        burdened_path: [[1, 0, 1, 8, 4, 1, 8, 4], [1, 4, 1, 4, 4, 1, 4, 4]],
        marks: &[1, 1, 1, 0, 1],
        burdened_marks: &[1, 1, 1, 0, 1],
    },
    Good {
        events: &EVEN,
        burdens: Burdens {
            continuation: 3,
            join: 0,
        },
        figures: Figures {
            work: 8,
            span: 4,
            burdened: 7,
        },
        dag: [[1, 4, 1, 8, 4, 1, 8, 4], [1, 4, 1, 4, 4, 1, 4, 4]],
        path: [[1, 0, 1, 8, 4, 1, 8, 4], [1, 4, 1, 4, 4, 1, 4, 4]],
        burdened_path: [[1, 4, 1, 8, 4, 1, 8, 4], [0, 0, 0, 0, 0, 0, 0, 0]],
        marks: &[1, 1, 1, 0, 1],
        burdened_marks: &[1, 0, 0, 1, 1],
    },
    Good {
        events: &EVEN,
        burdens: Burdens {
            continuation: 0,
            join: 3,
        },
        figures: Figures {
            work: 8,
            span: 4,
            burdened: 7,
        },
        dag: [[1, 4, 1, 8, 4, 1, 8, 4], [1, 4, 1, 4, 4, 1, 4, 4]],
        path: [[1, 0, 1, 8, 4, 1, 8, 4], [1, 4, 1, 4, 4, 1, 4, 4]],
        burdened_path: [[1, 0, 1, 8, 4, 1, 8, 4], [1, 4, 1, 4, 4, 1, 4, 4]],
        marks: &[1, 1, 1, 0, 1],
        burdened_marks: &[1, 1, 1, 0, 1],
    },
    Good {
        events: &[SPAWN, RET, SYNC],
        burdens: Burdens {
            continuation: 3,
            join: 3,
        },
        figures: Figures {
            work: 0,
            span: 0,
            burdened: 3,
        },
        dag: [[1, 0, 1, 0, 0, 1, 0, 0], [1, 0, 1, 0, 0, 1, 0, 0]],
        path: [[1, 0, 1, 0, 0, 1, 0, 0], [1, 0, 1, 0, 0, 1, 0, 0]],
        burdened_path: [[1, 0, 1, 0, 0, 1, 0, 0], [1, 0, 1, 0, 0, 1, 0, 0]],
        marks: &[1, 1, 1],
        burdened_marks: &[1, 1, 1],
    },
    Good {
        events: &[SPAWN, RET, SYNC],
        burdens: Burdens {
            continuation: 0,
            join: 0,
        },
        figures: Figures {
            work: 0,
            span: 0,
            burdened: 0,
        },
        dag: [[1, 0, 1, 0, 0, 1, 0, 0], [1, 0, 1, 0, 0, 1, 0, 0]],
        path: [[1, 0, 1, 0, 0, 1, 0, 0], [1, 0, 1, 0, 0, 1, 0, 0]],
        burdened_path: [[1, 0, 1, 0, 0, 1, 0, 0], [1, 0, 1, 0, 0, 1, 0, 0]],
        marks: &[1, 1, 1],
        burdened_marks: &[1, 1, 1],
    },
    Good {
        events: &EQUAL,
        burdens: Burdens {
            continuation: 3,
            join: 3,
        },
        figures: Figures {
            work: 10,
            span: 5,
            burdened: 11,
        },
        dag: [[1, 0, 1, 10, 5, 1, 10, 5], [2, 10, 2, 10, 10, 2, 10, 10]],
        path: [[1, 0, 1, 10, 5, 1, 10, 5], [1, 5, 1, 5, 5, 1, 5, 5]],
        burdened_path: [[1, 0, 1, 10, 5, 1, 10, 5], [1, 5, 1, 5, 5, 1, 5, 5]],
        marks: &[1, 1, 1, 0, 0, 0, 1],
        burdened_marks: &[1, 0, 0, 1, 1, 1, 1],
    },
    Good {
        events: &EQUAL,
        burdens: Burdens {
            continuation: 3,
            join: 0,
        },
        figures: Figures {
            work: 10,
            span: 5,
            burdened: 8,
        },
        dag: [[1, 0, 1, 10, 5, 1, 10, 5], [2, 10, 2, 10, 10, 2, 10, 10]],
        path: [[1, 0, 1, 10, 5, 1, 10, 5], [1, 5, 1, 5, 5, 1, 5, 5]],
        burdened_path: [[1, 0, 1, 10, 5, 1, 10, 5], [1, 5, 1, 5, 5, 1, 5, 5]],
        marks: &[1, 1, 1, 0, 0, 0, 1],
        burdened_marks: &[1, 0, 0, 1, 1, 1, 1],
    },
    Good {
        events: &EQUAL,
        burdens: Burdens {
            continuation: 0,
            join: 3,
        },
        figures: Figures {
            work: 10,
            span: 5,
            burdened: 8,
        },
        dag: [[1, 0, 1, 10, 5, 1, 10, 5], [2, 10, 2, 10, 10, 2, 10, 10]],
        path: [[1, 0, 1, 10, 5, 1, 10, 5], [1, 5, 1, 5, 5, 1, 5, 5]],
        burdened_path: [[1, 0, 1, 10, 5, 1, 10, 5], [1, 5, 1, 5, 5, 1, 5, 5]],
        marks: &[1, 1, 1, 0, 0, 0, 1],
        burdened_marks: &[1, 1, 1, 0, 0, 0, 1],
    },
    Good {
        events: &[SPAWN, S7, RET, S2],
        burdens: Burdens {
            continuation: 3,
            join: 3,
        },
        figures: Figures {
            work: 9,
            span: 7,
            burdened: 10,
        },
        dag: [[1, 2, 1, 9, 7, 1, 9, 7], [1, 7, 1, 7, 7, 1, 7, 7]],
        path: [[1, 0, 1, 9, 7, 1, 9, 7], [1, 7, 1, 7, 7, 1, 7, 7]],
        burdened_path: [[1, 0, 1, 9, 7, 1, 9, 7], [1, 7, 1, 7, 7, 1, 7, 7]],
        marks: &[1, 1, 1, 0],
        burdened_marks: &[1, 1, 1, 0],
    },
    Good {
        events: &[SPAWN, MOST, MOST, RET],
        burdens: Burdens {
            continuation: 3,
            join: 3,
        },
        figures: Figures {
            work: TWICE,
            span: TWICE,
            burdened: 36893488147419103233,
        },
        dag: [
            [1, 0, 1, TWICE, TWICE, 1, TWICE, TWICE],
            [1, TWICE, 1, TWICE, TWICE, 1, TWICE, TWICE],
        ],
        path: [
            [1, 0, 1, TWICE, TWICE, 1, TWICE, TWICE],
            [1, TWICE, 1, TWICE, TWICE, 1, TWICE, TWICE],
        ],
        burdened_path: [
            [1, 0, 1, TWICE, TWICE, 1, TWICE, TWICE],
            [1, TWICE, 1, TWICE, TWICE, 1, TWICE, TWICE],
        ],
        marks: &[1, 1, 1, 1],
        burdened_marks: &[1, 1, 1, 1],
    },
    Good {
        events: &CALLS,
        burdens: Burdens {
            continuation: 3,
            join: 3,
        },
        figures: Figures {
            work: 3,
            span: 3,
            burdened: 3,
        },
        dag: [[1, 0, 1, 3, 3, 1, 3, 3], [3, 3, 1, 3, 3, 2, 5, 5]],
        path: [[1, 0, 1, 3, 3, 1, 3, 3], [3, 3, 1, 3, 3, 2, 5, 5]],
        burdened_path: [[1, 0, 1, 3, 3, 1, 3, 3], [3, 3, 1, 3, 3, 2, 5, 5]],
        marks: &[1, 1, 1, 1, 1, 1, 1, 1, 1],
        burdened_marks: &[1, 1, 1, 1, 1, 1, 1, 1, 1],
    },
    Good {
        events: &NESTED,
        burdens: Burdens {
            continuation: 3,
            join: 3,
        },
        figures: Figures {
            work: 6,
            span: 3,
            burdened: 9,
        },
        dag: [[1, 2, 1, 6, 3, 1, 6, 3], [2, 4, 1, 4, 3, 2, 7, 6]],
        path: [[1, 0, 1, 6, 3, 1, 6, 3], [2, 3, 1, 4, 3, 2, 7, 6]],
        burdened_path: [[1, 0, 1, 6, 3, 1, 6, 3], [2, 3, 1, 4, 3, 2, 7, 6]],
        marks: &[1, 1, 1, 1, 0, 1, 0],
        burdened_marks: &[1, 1, 1, 1, 0, 1, 0],
    },
    Good {
        events: &WAITED,
        burdens: Burdens {
            continuation: 3,
            join: 3,
        },
        figures: Figures {
            work: 7,
            span: 4,
            burdened: 10,
        },
        dag: [[1, 3, 1, 7, 4, 1, 7, 4], [2, 4, 1, 4, 3, 2, 7, 6]],
        path: [[1, 1, 1, 7, 4, 1, 7, 4], [2, 3, 1, 4, 3, 2, 7, 6]],
        burdened_path: [[1, 1, 1, 7, 4, 1, 7, 4], [2, 3, 1, 4, 3, 2, 7, 6]],
        marks: &[1, 1, 1, 1, 0, 1, 0, 1, 1],
        burdened_marks: &[1, 1, 1, 1, 0, 1, 0, 1, 1],
    },
    Good {
        events: &TWO_SYNCS,
        burdens: Burdens {
            continuation: 3,
            join: 3,
        },
        figures: Figures {
            work: 12,
            span: 9,
            burdened: 15,
        },
        dag: [[1, 6, 1, 12, 9, 1, 12, 9], [2, 6, 2, 6, 6, 2, 6, 6]],
        path: [[1, 5, 1, 12, 9, 1, 12, 9], [1, 4, 1, 4, 4, 1, 4, 4]],
        burdened_path: [[1, 5, 1, 12, 9, 1, 12, 9], [1, 4, 1, 4, 4, 1, 4, 4]],
        marks: &[1, 1, 1, 0, 1, 1, 0, 0, 1, 1],
        burdened_marks: &[1, 1, 1, 0, 1, 1, 0, 0, 1, 1],
    },
    Good {
        events: &IN_CALL,
        burdens: Burdens {
            continuation: 3,
            join: 3,
        },
        figures: Figures {
            work: 14,
            span: 7,
            burdened: 13,
        },
        dag: [[1, 2, 1, 14, 7, 1, 14, 7], [3, 12, 2, 12, 11, 3, 17, 16]],
        path: [[1, 2, 1, 14, 7, 1, 14, 7], [2, 5, 1, 6, 5, 2, 11, 10]],
        burdened_path: [[1, 2, 1, 14, 7, 1, 14, 7], [2, 5, 1, 6, 5, 2, 11, 10]],
        marks: &[1, 0, 0, 1, 1, 1, 1, 0, 1, 1, 1],
        burdened_marks: &[1, 0, 0, 1, 1, 1, 1, 0, 1, 1, 1],
    },
    Good {
        events: &IN_CALL_SYNCED,
        burdens: Burdens {
            continuation: 3,
            join: 3,
        },
        figures: Figures {
            work: 14,
            span: 7,
            burdened: 13,
        },
        dag: [[1, 2, 1, 14, 7, 1, 14, 7], [3, 12, 2, 12, 11, 3, 17, 16]],
        path: [[1, 2, 1, 14, 7, 1, 14, 7], [2, 5, 1, 6, 5, 2, 11, 10]],
        burdened_path: [[1, 2, 1, 14, 7, 1, 14, 7], [2, 5, 1, 6, 5, 2, 11, 10]],
        marks: &[1, 0, 0, 1, 1, 1, 1, 0, 1, 1, 1, 1],
        burdened_marks: &[1, 0, 0, 1, 1, 1, 1, 0, 1, 1, 1, 1],
    },
    Good {
        events: &BESIDE,
        burdens: Burdens {
            continuation: 3,
            join: 3,
        },
        figures: Figures {
            work: 15,
            span: 10,
            burdened: 13,
        },
        dag: [[1, 10, 1, 15, 10, 1, 15, 10], [2, 5, 1, 5, 5, 2, 10, 10]],
        path: [[1, 10, 1, 15, 10, 1, 15, 10], [0, 0, 0, 0, 0, 0, 0, 0]],
        burdened_path: [[1, 10, 1, 15, 10, 1, 15, 10], [0, 0, 0, 0, 0, 0, 0, 0]],
        marks: &[1, 0, 0, 0, 0, 0, 1, 1],
        burdened_marks: &[1, 0, 0, 0, 0, 0, 1, 1],
    },
    Good {
        events: &SPAWNS,
        burdens: Burdens {
            continuation: 2,
            join: 7,
        },
        figures: Figures {
            work: 20,
            span: 14,
            burdened: 28,
        },
        dag: [[1, 4, 1, 20, 14, 1, 20, 14], [4, 16, 2, 16, 11, 4, 21, 16]],
        path: [[1, 4, 1, 20, 14, 1, 20, 14], [2, 10, 1, 15, 10, 2, 20, 15]],
        burdened_path: [[1, 4, 1, 20, 14, 1, 20, 14], [2, 10, 1, 15, 10, 2, 20, 15]],
        marks: &[1, 1, 1, 1, 1, 1, 0, 1, 0, 0, 0, 0, 0, 1, 1],
        burdened_marks: &[1, 1, 1, 1, 1, 1, 0, 1, 0, 0, 0, 0, 0, 1, 1],
    },
];

/// The rows of a thousand nested frames of the site `A`, the innermost with a thousand instructions. All of it is on both
/// paths.
pub(crate) const DEEP: Lines = [
    [1, 0, 1, 1000, 1000, 1, 1000, 1000],
    [1000, 1000, 1, 1000, 1000, 2, 2000, 2000],
];
