use spp_advice::{SiteCounts, SpawnCounts, advice_laws, ranked, spawn_counts, weight};
use spp_event::{Contents, Event, Trace, migrate, open_trace, trace_bytes};
use spp_maxplus::Burdens;
use spp_serial::profile_serial;
use std::alloc::{AllocError, Global};
use std::test::Fail;

/// Two equal children, of `A` and `B`, then two calls, from `C` and `D`, of which the second is the longer.
const EVENTS: [Event; 13] = [
    Event::Spawn { site: 0, func: 1 },
    Event::Strand { count: 5 },
    Event::Ret,
    Event::Spawn { site: 1, func: 1 },
    Event::Strand { count: 5 },
    Event::Ret,
    Event::Sync,
    Event::Call { site: 2, func: 1 },
    Event::Strand { count: 5 },
    Event::Ret,
    Event::Call { site: 3, func: 1 },
    Event::Strand { count: 7 },
    Event::Ret,
];

/// Its burdens. Without them its path goes through the child of `A`.
const BURDENS: Burdens = Burdens {
    continuation: 3,
    join: 2,
};

/// Under them it goes past that child, and through the one of `B`.
const MARKS: [u8; 13] = [1, 0, 0, 1, 1, 1, 1, 1, 1, 1, 1, 1, 1];

/// What is told of the run.
#[derive(Drop)]
struct Told {
    counts: SpawnCounts,
    /// The weights of its four sites.
    weights: [u128; 4],
    /// The first of its sites.
    first: Vec<u32>,
}

/// What is told of a trace with these marks, and of so many sites at most; none where it has no profile, or not so many
/// events.
fn ask(alloc: Global, trace: &Trace<'_>, top: u32) -> Result<Option<Told>, AllocError> {
    if trace.count() != 13 {
        return Ok(None);
    }
    let Ok(profile) = profile_serial(alloc, trace, BURDENS) else {
        return Ok(None);
    };
    // For what it states: the profile is light.
    advice_laws();
    let counts = spawn_counts(alloc, trace, &MARKS)?;
    let first = ranked(alloc, &profile, &counts, BURDENS, trace.sites(), top)?;
    let a = weight(&profile, &counts, BURDENS, 0);
    let b = weight(&profile, &counts, BURDENS, 1);
    let c = weight(&profile, &counts, BURDENS, 2);
    let d = weight(&profile, &counts, BURDENS, 3);
    Ok(Some(Told {
        counts,
        weights: [a, b, c, d],
        first,
    }))
}

/// The counts of a site.
const fn met(calls: u32, spawns: u32, past: u32, into: u32) -> SiteCounts {
    SiteCounts {
        calls,
        spawns,
        past,
        into,
    }
}

/// Whether these are the numbers of the run.
fn is_right(told: &Told) -> bool {
    let Told {
        counts,
        weights,
        first,
    } = told;
    counts.site(0) == met(0, 1, 1, 0)
        && counts.site(1) == met(0, 1, 0, 1)
        && counts.site(2) == met(1, 0, 0, 0)
        && counts.site(3) == met(1, 0, 0, 0)
        && counts.site(4) == met(0, 0, 0, 0)
        && counts.site(0).cost(BURDENS) == 3
        && counts.site(1).cost(BURDENS) == 2
        && *weights == [5, 7, 5, 7]
        && first.as_slice() == [1, 3, 0].as_slice()
}

/// The bytes of the run in version 1; none where its events aren't of its sites and functions.
fn run_bytes(alloc: Global) -> Result<Option<Vec<u8>>, AllocError> {
    let contents = Contents {
        funcs: &[b"main".as_slice(), b"f".as_slice()],
        sites: &[
            b"A".as_slice(),
            b"B".as_slice(),
            b"C".as_slice(),
            b"D".as_slice(),
        ],
        root: 0,
        events: &EVENTS,
    };
    if !contents.has_own_events() {
        return Ok(None);
    }
    Ok(Some(trace_bytes(alloc, &contents)?))
}

/// Whether the run has its numbers in both versions; none where there is no such run.
fn has_its_numbers(alloc: Global) -> Result<Option<bool>, AllocError> {
    let Some(first) = run_bytes(alloc)? else {
        return Ok(None);
    };
    let Ok(first) = open_trace(alloc, &first) else {
        return Ok(None);
    };
    let Ok(second) = migrate(alloc, &first) else {
        return Ok(None);
    };
    let Ok(second) = open_trace(alloc, &second) else {
        return Ok(None);
    };
    let Some(of_first) = ask(alloc, &first, 3)? else {
        return Ok(None);
    };
    let Some(of_second) = ask(alloc, &second, 3)? else {
        return Ok(None);
    };
    Ok(Some(is_right(&of_first) && is_right(&of_second)))
}

#[test]
fn sites_are_told_by_what_mending_them_brings(rt: HostRuntime) -> Result<(), Fail> {
    assert_eq!(rt; has_its_numbers(rt.alloc())?, Some(true));
    Ok(())
}
