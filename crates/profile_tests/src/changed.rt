use crate::worked::{RET, S1, S3, S4, S5, S7, SYNC};
use spp_change::{Change, Factor};
use spp_dag::Figures;
use spp_event::{Contents, Event, migrate, open_trace, trace_bytes};
use spp_frame::check;
use spp_maxplus::Burdens;
use spp_summary::changed_figures;
use std::alloc::{AllocError, Global};
use std::test::Fail;

/// A spawn at the site `A` of the function `f`.
const SPAWN_A: Event = Event::Spawn { site: 0, func: 1 };

/// A call at the site `B` of the function `g`.
const CALL_B: Event = Event::Call { site: 1, func: 2 };

/// A strand of nine instructions.
const S9: Event = Event::Strand { count: 9 };

/// A child that calls, and a call beside it. It comes to 29, 20 and 22 where a continuation edge bears 3 and a return
/// edge 2.
const RUN: [Event; 13] = [
    S3, SPAWN_A, S7, CALL_B, S5, RET, S4, RET, CALL_B, S9, RET, SYNC, S1,
];

/// The same bytes in version 1 and in version 2; none where the events aren't of these sites and functions.
fn bytes_of(alloc: Global, events: &[Event]) -> Option<(Vec<u8>, Vec<u8>)> {
    let contents = Contents {
        funcs: &[b"main".as_slice(), b"f".as_slice(), b"g".as_slice()],
        sites: &[b"A".as_slice(), b"B".as_slice()],
        root: 0,
        events,
    };
    if events.len() > 1 << 28 || !contents.has_own_events() {
        return None;
    }
    let one = trace_bytes(alloc, &contents).ok()?;
    let trace = open_trace(alloc, one.as_slice()).ok()?;
    let two = migrate(alloc, &trace).ok()?;
    drop(trace);
    Some((one, two))
}

/// The figures of the changed run; none where the run isn't well-formed.
fn figures_of(alloc: Global, bytes: &[u8], change: Change) -> Result<Option<Figures>, AllocError> {
    let Ok(trace) = open_trace(alloc, bytes) else {
        return Ok(None);
    };
    let Ok(_work) = check(&trace) else {
        return Ok(None);
    };
    let burdens = Burdens {
        continuation: 3,
        join: 2,
    };
    Ok(Some(changed_figures(alloc, &trace, change, burdens)?))
}

/// The changes of the run, and what each comes to.
fn worked() -> Option<[(Change, [u128; 3]); 5]> {
    let (two, three) = (Factor::new(2)?, Factor::new(3)?);
    Some([
        // 7 and 4 instructions are 3 and 2; those of the call within, and the root's, stay.
        (
            Change::Faster {
                site: 0,
                factor: three,
            },
            [23, 14, 16],
        ),
        // 5 and 9 are 3 and 5.
        (
            Change::Faster {
                site: 1,
                factor: two,
            },
            [23, 18, 20],
        ),
        (Change::Called { site: 0 }, [29, 29, 29]),
        // No spawn is of this site.
        (Change::Called { site: 1 }, [29, 20, 22]),
        // The inner one joins at its spawner's return, the outer one at the sync.
        (Change::Spawned { site: 1 }, [29, 16, 20]),
    ])
}

#[test]
fn a_changed_run_has_the_figures_of_the_events_that_it_has(rt: HostRuntime) -> Result<(), Fail> {
    let alloc = rt.alloc();
    let (Some((one, two)), Some(worked)) = (bytes_of(alloc, &RUN), worked()) else {
        return Err(AllocError.into());
    };
    for (change, [work, span, burdened]) in worked {
        let figures = Some(Figures {
            work,
            span,
            burdened,
        });
        assert_eq!(rt;
            figures_of(alloc, one.as_slice(), change)?,
            figures,
            "{change:?}"
        );
        assert_eq!(rt;
            figures_of(alloc, two.as_slice(), change)?,
            figures,
            "{change:?}"
        );
    }
    Ok(())
}
