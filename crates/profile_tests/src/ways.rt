//! Small runs that aim at the ways into open frames: which children a path takes, and that it has the rows of just the
//! frames that it enters.

use crate::worked::{RET, S1, S2, S3, S4, S5, S6, S7, S10, SYNC};
use spp_dag::Figures;
use spp_event::{Contents, Event, open_trace, trace_bytes};
use spp_frame::ProfileFault;
use spp_maxplus::Burdens;
use spp_serial::profile_serial;
use spp_site::{Row, Table};
use std::alloc::{AllocError, Global};
use std::test::Fail;

/// A row: its count and local count, and for its top frames by site and by caller their number, work and span.
type Line = [u128; 8];

/// The rows of the root and of the sites `A`, `B` and `C`.
type Lines = [Line; 4];

/// The row of a site of which no frame counts.
const NONE: Line = [0; 8];

// Spawns and calls at the sites `A`, `B` and `C`, of the functions `f`, `g` and `h`.
const SPAWN_A: Event = Event::Spawn { site: 0, func: 1 };

const CALL_A: Event = Event::Call { site: 0, func: 1 };

const SPAWN_B: Event = Event::Spawn { site: 1, func: 2 };

const CALL_B: Event = Event::Call { site: 1, func: 2 };

const SPAWN_C: Event = Event::Spawn { site: 2, func: 3 };

const CALL_C: Event = Event::Call { site: 2, func: 3 };

/// A run, its figures, and its rows on the path without burdens and on the one under these, worked out from the
/// definitions by another program.
struct Way {
    events: &'static [Event],
    burdens: Burdens,
    figures: Figures,
    path: &'static Lines,
    burdened_path: &'static Lines,
}

const WAYS: &[Way] = &[
    // a later child that weighs less, with a frame in it
    Way {
        events: &[SPAWN_A, S5, RET, SPAWN_B, CALL_C, S3, RET, RET, S1, SYNC],
        burdens: Burdens {
            continuation: 0,
            join: 0,
        },
        figures: Figures {
            work: 9,
            span: 5,
            burdened: 5,
        },
        path: &[
            [1, 0, 1, 9, 5, 1, 9, 5],
            [1, 5, 1, 5, 5, 1, 5, 5],
            NONE,
            NONE,
        ],
        burdened_path: &[
            [1, 0, 1, 9, 5, 1, 9, 5],
            [1, 5, 1, 5, 5, 1, 5, 5],
            NONE,
            NONE,
        ],
    },
    // the same where the burdens favour the later child
    Way {
        events: &[SPAWN_A, S5, RET, SPAWN_B, CALL_C, S3, RET, RET, S1, SYNC],
        burdens: Burdens {
            continuation: 3,
            join: 3,
        },
        figures: Figures {
            work: 9,
            span: 5,
            burdened: 9,
        },
        path: &[
            [1, 0, 1, 9, 5, 1, 9, 5],
            [1, 5, 1, 5, 5, 1, 5, 5],
            NONE,
            NONE,
        ],
        burdened_path: &[
            [1, 0, 1, 9, 5, 1, 9, 5],
            NONE,
            [1, 0, 1, 3, 3, 1, 3, 3],
            [1, 3, 1, 3, 3, 1, 3, 3],
        ],
    },
    // a child that weighs less than what follows it
    Way {
        events: &[SPAWN_A, CALL_C, S2, RET, RET, S5, SYNC],
        burdens: Burdens {
            continuation: 0,
            join: 2,
        },
        figures: Figures {
            work: 7,
            span: 5,
            burdened: 5,
        },
        path: &[[1, 5, 1, 7, 5, 1, 7, 5], NONE, NONE, NONE],
        burdened_path: &[[1, 5, 1, 7, 5, 1, 7, 5], NONE, NONE, NONE],
    },
    // an earlier child, with a frame in it, beaten by a later one
    Way {
        events: &[SPAWN_A, CALL_C, S3, RET, RET, SPAWN_B, S5, RET, SYNC],
        burdens: Burdens {
            continuation: 0,
            join: 0,
        },
        figures: Figures {
            work: 8,
            span: 5,
            burdened: 5,
        },
        path: &[
            [1, 0, 1, 8, 5, 1, 8, 5],
            NONE,
            [1, 5, 1, 5, 5, 1, 5, 5],
            NONE,
        ],
        burdened_path: &[
            [1, 0, 1, 8, 5, 1, 8, 5],
            NONE,
            [1, 5, 1, 5, 5, 1, 5, 5],
            NONE,
        ],
    },
    // equal children: the earlier one
    Way {
        events: &[SPAWN_A, S5, RET, SPAWN_B, S5, RET, SYNC],
        burdens: Burdens {
            continuation: 0,
            join: 3,
        },
        figures: Figures {
            work: 10,
            span: 5,
            burdened: 8,
        },
        path: &[
            [1, 0, 1, 10, 5, 1, 10, 5],
            [1, 5, 1, 5, 5, 1, 5, 5],
            NONE,
            NONE,
        ],
        burdened_path: &[
            [1, 0, 1, 10, 5, 1, 10, 5],
            [1, 5, 1, 5, 5, 1, 5, 5],
            NONE,
            NONE,
        ],
    },
    // equal children: the later one bears a continuation edge more
    Way {
        events: &[SPAWN_A, S5, RET, SPAWN_B, S5, RET, SYNC],
        burdens: Burdens {
            continuation: 3,
            join: 0,
        },
        figures: Figures {
            work: 10,
            span: 5,
            burdened: 8,
        },
        path: &[
            [1, 0, 1, 10, 5, 1, 10, 5],
            [1, 5, 1, 5, 5, 1, 5, 5],
            NONE,
            NONE,
        ],
        burdened_path: &[
            [1, 0, 1, 10, 5, 1, 10, 5],
            NONE,
            [1, 5, 1, 5, 5, 1, 5, 5],
            NONE,
        ],
    },
    // a child that weighs as much as what follows it
    Way {
        events: &[SPAWN_A, S4, RET, CALL_B, S4, RET, SYNC],
        burdens: Burdens {
            continuation: 0,
            join: 0,
        },
        figures: Figures {
            work: 8,
            span: 4,
            burdened: 4,
        },
        path: &[
            [1, 0, 1, 8, 4, 1, 8, 4],
            [1, 4, 1, 4, 4, 1, 4, 4],
            NONE,
            NONE,
        ],
        burdened_path: &[
            [1, 0, 1, 8, 4, 1, 8, 4],
            [1, 4, 1, 4, 4, 1, 4, 4],
            NONE,
            NONE,
        ],
    },
    // the same where a continuation edge decides
    Way {
        events: &[SPAWN_A, S4, RET, CALL_B, S4, RET, SYNC],
        burdens: Burdens {
            continuation: 3,
            join: 0,
        },
        figures: Figures {
            work: 8,
            span: 4,
            burdened: 7,
        },
        path: &[
            [1, 0, 1, 8, 4, 1, 8, 4],
            [1, 4, 1, 4, 4, 1, 4, 4],
            NONE,
            NONE,
        ],
        burdened_path: &[
            [1, 0, 1, 8, 4, 1, 8, 4],
            NONE,
            [1, 4, 1, 4, 4, 1, 4, 4],
            NONE,
        ],
    },
    // the same in a called frame
    Way {
        events: &[CALL_C, SPAWN_A, CALL_B, S4, RET, RET, S4, SYNC, RET, S1],
        burdens: Burdens {
            continuation: 3,
            join: 0,
        },
        figures: Figures {
            work: 9,
            span: 5,
            burdened: 8,
        },
        path: &[
            [1, 1, 1, 9, 5, 1, 9, 5],
            [1, 0, 1, 4, 4, 1, 4, 4],
            [1, 4, 1, 4, 4, 1, 4, 4],
            [1, 0, 1, 8, 4, 1, 8, 4],
        ],
        burdened_path: &[
            [1, 1, 1, 9, 5, 1, 9, 5],
            NONE,
            NONE,
            [1, 4, 1, 8, 4, 1, 8, 4],
        ],
    },
    // a child that the path under the burdens takes alone
    Way {
        events: &[CALL_C, SPAWN_A, CALL_B, S4, RET, RET, S5, SYNC, RET, S1],
        burdens: Burdens {
            continuation: 0,
            join: 3,
        },
        figures: Figures {
            work: 10,
            span: 6,
            burdened: 8,
        },
        path: &[
            [1, 1, 1, 10, 6, 1, 10, 6],
            NONE,
            NONE,
            [1, 5, 1, 9, 5, 1, 9, 5],
        ],
        burdened_path: &[
            [1, 1, 1, 10, 6, 1, 10, 6],
            [1, 0, 1, 4, 4, 1, 4, 4],
            [1, 4, 1, 4, 4, 1, 4, 4],
            [1, 0, 1, 9, 5, 1, 9, 5],
        ],
    },
    // children within one another, with called frames between them
    Way {
        events: &[
            SPAWN_A, S1, CALL_B, SPAWN_C, CALL_B, S5, RET, RET, S1, SYNC, RET, RET, S2, SYNC,
        ],
        burdens: Burdens {
            continuation: 1,
            join: 1,
        },
        figures: Figures {
            work: 9,
            span: 6,
            burdened: 8,
        },
        path: &[
            [1, 0, 1, 9, 6, 1, 9, 6],
            [1, 1, 1, 7, 6, 1, 7, 6],
            [2, 5, 1, 6, 5, 2, 11, 10],
            [1, 0, 1, 5, 5, 1, 5, 5],
        ],
        burdened_path: &[
            [1, 0, 1, 9, 6, 1, 9, 6],
            [1, 1, 1, 7, 6, 1, 7, 6],
            [2, 5, 1, 6, 5, 2, 11, 10],
            [1, 0, 1, 5, 5, 1, 5, 5],
        ],
    },
    // the same where the outer child is left
    Way {
        events: &[
            SPAWN_A, S1, CALL_B, SPAWN_C, CALL_B, S5, RET, RET, S1, SYNC, RET, RET, S7, SYNC,
        ],
        burdens: Burdens {
            continuation: 3,
            join: 0,
        },
        figures: Figures {
            work: 14,
            span: 7,
            burdened: 10,
        },
        path: &[[1, 7, 1, 14, 7, 1, 14, 7], NONE, NONE, NONE],
        burdened_path: &[[1, 7, 1, 14, 7, 1, 14, 7], NONE, NONE, NONE],
    },
    // paths that part: one into the first child, one along the root
    Way {
        events: &[SPAWN_A, S5, RET, SPAWN_B, S4, RET, S3, SYNC],
        burdens: Burdens {
            continuation: 2,
            join: 0,
        },
        figures: Figures {
            work: 12,
            span: 5,
            burdened: 7,
        },
        path: &[
            [1, 0, 1, 12, 5, 1, 12, 5],
            [1, 5, 1, 5, 5, 1, 5, 5],
            NONE,
            NONE,
        ],
        burdened_path: &[[1, 3, 1, 12, 5, 1, 12, 5], NONE, NONE, NONE],
    },
    // paths that part: one into the first child, one into the second
    Way {
        events: &[SPAWN_A, S5, RET, SPAWN_B, S4, RET, S3, SYNC],
        burdens: Burdens {
            continuation: 4,
            join: 4,
        },
        figures: Figures {
            work: 12,
            span: 5,
            burdened: 12,
        },
        path: &[
            [1, 0, 1, 12, 5, 1, 12, 5],
            [1, 5, 1, 5, 5, 1, 5, 5],
            NONE,
            NONE,
        ],
        burdened_path: &[
            [1, 0, 1, 12, 5, 1, 12, 5],
            NONE,
            [1, 4, 1, 4, 4, 1, 4, 4],
            NONE,
        ],
    },
    // a child that the root takes at the end
    Way {
        events: &[S1, SPAWN_A, CALL_B, S7, RET, RET, S2],
        burdens: Burdens {
            continuation: 3,
            join: 3,
        },
        figures: Figures {
            work: 10,
            span: 8,
            burdened: 11,
        },
        path: &[
            [1, 1, 1, 10, 8, 1, 10, 8],
            [1, 0, 1, 7, 7, 1, 7, 7],
            [1, 7, 1, 7, 7, 1, 7, 7],
            NONE,
        ],
        burdened_path: &[
            [1, 1, 1, 10, 8, 1, 10, 8],
            [1, 0, 1, 7, 7, 1, 7, 7],
            [1, 7, 1, 7, 7, 1, 7, 7],
            NONE,
        ],
    },
    // a child that the root leaves at the end
    Way {
        events: &[SPAWN_A, S2, RET, CALL_B, S7, RET],
        burdens: Burdens {
            continuation: 0,
            join: 3,
        },
        figures: Figures {
            work: 9,
            span: 7,
            burdened: 7,
        },
        path: &[
            [1, 0, 1, 9, 7, 1, 9, 7],
            NONE,
            [1, 7, 1, 7, 7, 1, 7, 7],
            NONE,
        ],
        burdened_path: &[
            [1, 0, 1, 9, 7, 1, 9, 7],
            NONE,
            [1, 7, 1, 7, 7, 1, 7, 7],
            NONE,
        ],
    },
    // children that are beaten one after the other, and then a called frame
    Way {
        events: &[
            SPAWN_A, S5, RET, SPAWN_B, CALL_C, S1, RET, RET, CALL_B, S2, RET, SPAWN_C, S10, RET,
            SYNC, CALL_A, S1, RET,
        ],
        burdens: Burdens {
            continuation: 3,
            join: 3,
        },
        figures: Figures {
            work: 19,
            span: 13,
            burdened: 22,
        },
        path: &[
            [1, 0, 1, 19, 13, 1, 19, 13],
            [1, 1, 1, 1, 1, 1, 1, 1],
            [1, 2, 1, 2, 2, 1, 2, 2],
            [1, 10, 1, 10, 10, 1, 10, 10],
        ],
        burdened_path: &[
            [1, 0, 1, 19, 13, 1, 19, 13],
            [1, 1, 1, 1, 1, 1, 1, 1],
            [1, 2, 1, 2, 2, 1, 2, 2],
            [1, 10, 1, 10, 10, 1, 10, 10],
        ],
    },
    // a child that is left at one sync, and one that is taken at the next
    Way {
        events: &[
            CALL_B, S1, RET, SPAWN_A, CALL_C, S1, RET, RET, S6, SYNC, CALL_C, S2, RET, SPAWN_A, S3,
            RET, S1, SYNC,
        ],
        burdens: Burdens {
            continuation: 1,
            join: 0,
        },
        figures: Figures {
            work: 14,
            span: 12,
            burdened: 13,
        },
        path: &[
            [1, 6, 1, 14, 12, 1, 14, 12],
            [1, 3, 1, 3, 3, 1, 3, 3],
            [1, 1, 1, 1, 1, 1, 1, 1],
            [1, 2, 1, 2, 2, 1, 2, 2],
        ],
        burdened_path: &[
            [1, 6, 1, 14, 12, 1, 14, 12],
            [1, 3, 1, 3, 3, 1, 3, 3],
            [1, 1, 1, 1, 1, 1, 1, 1],
            [1, 2, 1, 2, 2, 1, 2, 2],
        ],
    },
    // a site within itself on the way
    Way {
        events: &[SPAWN_A, S1, SPAWN_A, S5, RET, S2, RET, S3, SYNC],
        burdens: Burdens {
            continuation: 2,
            join: 2,
        },
        figures: Figures {
            work: 11,
            span: 6,
            burdened: 10,
        },
        path: &[
            [1, 0, 1, 11, 6, 1, 11, 6],
            [2, 6, 1, 8, 6, 2, 13, 11],
            NONE,
            NONE,
        ],
        burdened_path: &[
            [1, 0, 1, 11, 6, 1, 11, 6],
            [2, 6, 1, 8, 6, 2, 13, 11],
            NONE,
            NONE,
        ],
    },
];

/// The bytes of a trace of these events; none where they aren't of its sites and functions.
fn bytes_of(alloc: Global, events: &[Event]) -> Result<Option<Vec<u8>>, AllocError> {
    let contents = Contents {
        funcs: &[
            b"main".as_slice(),
            b"f".as_slice(),
            b"g".as_slice(),
            b"h".as_slice(),
        ],
        sites: &[b"A".as_slice(), b"B".as_slice(), b"C".as_slice()],
        root: 0,
        events,
    };
    if events.len() > 1 << 28 || !contents.has_own_events() {
        return Ok(None);
    }
    Ok(Some(trace_bytes(alloc, &contents)?))
}

/// The numbers of a row.
fn line_of(row: Row) -> Line {
    [
        u128::from(row.count),
        row.local,
        u128::from(row.site_count),
        row.site_work,
        row.site_span,
        u128::from(row.caller_count),
        row.caller_work,
        row.caller_span,
    ]
}

/// The rows of the root and of the three sites.
fn lines_of(table: &Table) -> Lines {
    [
        line_of(table.root_row()),
        line_of(table.row(0)),
        line_of(table.row(1)),
        line_of(table.row(2)),
    ]
}

/// A run's figures, and its rows on both paths; none where it has no profile.
fn told(
    alloc: Global,
    events: &[Event],
    burdens: Burdens,
) -> Result<Option<(Figures, Lines, Lines)>, AllocError> {
    let Some(bytes) = bytes_of(alloc, events)? else {
        return Ok(None);
    };
    let Ok(trace) = open_trace(alloc, bytes.as_slice()) else {
        return Ok(None);
    };
    match profile_serial(alloc, &trace, burdens) {
        Ok(profile) => Ok(Some((
            profile.figures,
            lines_of(&profile.path),
            lines_of(&profile.burdened_path),
        ))),
        Err(ProfileFault::Bad(_)) => Ok(None),
        Err(ProfileFault::Memory) => Err(AllocError),
    }
}

#[test]
fn paths_have_the_rows_of_the_frames_that_they_enter(rt: HostRuntime) -> Result<(), Fail> {
    for (i, way) in WAYS.iter().enumerate() {
        let wanted = Some((way.figures, *way.path, *way.burdened_path));
        assert_eq!(rt;
            told(rt.alloc(), way.events, way.burdens)?,
            wanted,
            "run {i}"
        );
    }
    Ok(())
}

/// A child that calls 2,000 frames, and beside it 1,500 in the root frame: more rows than are kept apart.
fn long_run(alloc: Global) -> Result<Vec<Event>, AllocError> {
    let mut events = Vec::new(alloc);
    events.push(SPAWN_A)?;
    for _ in 0..2000 {
        events.push(CALL_B)?;
        events.push(S2)?;
        events.push(RET)?;
    }
    events.push(RET)?;
    for _ in 0..1500 {
        events.push(CALL_C)?;
        events.push(S1)?;
        events.push(RET)?;
    }
    events.push(SYNC)?;
    events.push(S10)?;
    Ok(events)
}

/// Without burdens the child is the longer way, and with a burden on continuation edges what runs beside it.
#[test]
fn rows_that_are_added_up_on_the_way_count(rt: HostRuntime) -> Result<(), Fail> {
    let burdens = Burdens {
        continuation: 10000,
        join: 0,
    };
    let figures = Figures {
        work: 5510,
        span: 4010,
        burdened: 11510,
    };
    let root = [1, 10, 1, 5510, 4010, 1, 5510, 4010];
    let path = [
        root,
        [1, 0, 1, 4000, 4000, 1, 4000, 4000],
        [2000, 4000, 2000, 4000, 4000, 2000, 4000, 4000],
        NONE,
    ];
    let burdened_path = [root, NONE, NONE, [1500; 8]];
    let events = long_run(rt.alloc())?;
    let wanted = Some((figures, path, burdened_path));
    assert_eq!(rt; told(rt.alloc(), events.as_slice(), burdens)?, wanted);
    Ok(())
}
