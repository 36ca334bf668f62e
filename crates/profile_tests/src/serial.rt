use crate::worked::{BAD, CALLS, FORK, GOOD, RET, S1, S4, S5, SPAWN, SYNC};
use spp_dag::Figures;
use spp_event::{Event, EventFault, open_trace, trace_of};
use spp_frame::{Fault, ProfileFault, Why};
use spp_maxplus::Burdens;
use spp_serial::profile_serial;
use spp_site::Row;
use std::alloc::{AllocError, Global};
use std::test::Fail;

/// The figures of a run of these events with a burden of 3, or none where the bytes open as no trace.
fn figures_of(
    alloc: Global,
    events: &[Event],
) -> Result<Option<Result<Figures, ProfileFault>>, AllocError> {
    let bytes = trace_of(alloc, events)?;
    let Ok(trace) = open_trace(alloc, bytes.as_slice()) else {
        return Ok(None);
    };
    match profile_serial(alloc, &trace, Burdens::equal(3)) {
        Ok(profile) => Ok(Some(Ok(profile.figures))),
        Err(fault) => Ok(Some(Err(fault))),
    }
}

/// The rows of the root and of the site `A` in a run of these events on its whole dag, or none where it has no profile.
fn rows_of(alloc: Global, events: &[Event]) -> Result<Option<(Row, Row)>, AllocError> {
    let bytes = trace_of(alloc, events)?;
    let Ok(trace) = open_trace(alloc, bytes.as_slice()) else {
        return Ok(None);
    };
    match profile_serial(alloc, &trace, Burdens::equal(3)) {
        Ok(profile) => Ok(Some((profile.dag.root_row(), profile.dag.row(0)))),
        Err(ProfileFault::Bad(_)) => Ok(None),
        Err(ProfileFault::Memory) => Err(AllocError),
    }
}

/// A row: its count and local count, and for its top frames by site and by caller their number, work and span.
fn row(count: u64, local: u128, site: (u64, u128, u128), caller: (u64, u128, u128)) -> Row {
    Row {
        count,
        local,
        site_count: site.0,
        site_work: site.1,
        site_span: site.2,
        caller_count: caller.0,
        caller_work: caller.1,
        caller_span: caller.2,
    }
}

/// The burdened span of a run under these burdens, and the rows of the root and of the site `A` on the path under them;
/// none where it has no profile.
fn under(
    alloc: Global,
    events: &[Event],
    continuation: u32,
    join: u32,
) -> Result<Option<(u128, Row, Row)>, AllocError> {
    let bytes = trace_of(alloc, events)?;
    let Ok(trace) = open_trace(alloc, bytes.as_slice()) else {
        return Ok(None);
    };
    match profile_serial(alloc, &trace, Burdens { continuation, join }) {
        Ok(profile) => Ok(Some((
            profile.figures.burdened,
            profile.burdened_path.root_row(),
            profile.burdened_path.row(0),
        ))),
        Err(ProfileFault::Bad(_)) => Ok(None),
        Err(ProfileFault::Memory) => Err(AllocError),
    }
}

#[test]
fn a_run_has_its_work_and_spans(rt: HostRuntime) -> Result<(), Fail> {
    for (i, run) in GOOD.iter().enumerate() {
        assert_eq!(rt;
            figures_of(rt.alloc(), run.events)?,
            Some(Ok(run.figures)),
            "run {i}"
        );
    }
    Ok(())
}

#[test]
fn a_bad_run_has_no_profile(rt: HostRuntime) -> Result<(), Fail> {
    for (i, run) in BAD.iter().enumerate() {
        let fault = ProfileFault::Bad(run.fault);
        assert_eq!(rt;
            figures_of(rt.alloc(), run.events)?,
            Some(Err(fault)),
            "run {i}"
        );
    }
    Ok(())
}

#[test]
fn a_bad_record_has_no_profile(rt: HostRuntime) -> Result<(), Fail> {
    let mut bytes = trace_of(rt.alloc(), &[S1, S1, S1])?;
    bytes.truncate(bytes.len().saturating_sub(9));
    let Ok(trace) = open_trace(rt.alloc(), bytes.as_slice()) else {
        return Err("it opens".into());
    };
    let told = profile_serial(rt.alloc(), &trace, Burdens::equal(3)).err();
    let fault = Fault {
        at: 2,
        why: Why::Event(EventFault::Truncated),
    };
    assert_eq!(rt; told, Some(ProfileFault::Bad(fault)));
    Ok(())
}

#[test]
fn a_run_has_its_rows(rt: HostRuntime) -> Result<(), Fail> {
    assert_eq!(rt;
        rows_of(rt.alloc(), &FORK)?,
        Some((
            row(1, 7, (1, 17, 13), (1, 17, 13)),
            row(1, 10, (1, 10, 10), (1, 10, 10))
        ))
    );
    assert_eq!(rt;
        rows_of(rt.alloc(), &CALLS)?,
        Some((
            row(1, 0, (1, 3, 3), (1, 3, 3)),
            row(3, 3, (1, 3, 3), (2, 5, 5))
        ))
    );
    Ok(())
}

#[test]
fn burdens_decide_between_equal_children(rt: HostRuntime) -> Result<(), Fail> {
    let events = [SPAWN, S5, RET, SPAWN, S5, RET, SYNC];
    let root = row(1, 0, (1, 10, 5), (1, 10, 5));
    let one = row(1, 5, (1, 5, 5), (1, 5, 5));
    assert_eq!(rt; under(rt.alloc(), &events, 3, 3)?, Some((11, root, one)));
    assert_eq!(rt; under(rt.alloc(), &events, 3, 0)?, Some((8, root, one)));
    assert_eq!(rt; under(rt.alloc(), &events, 0, 3)?, Some((8, root, one)));
    assert_eq!(rt; under(rt.alloc(), &events, 0, 0)?, Some((5, root, one)));
    Ok(())
}

#[test]
fn a_burden_on_one_edge_leads_the_path_along_the_other(rt: HostRuntime) -> Result<(), Fail> {
    let events = [SPAWN, S4, RET, S4, SYNC];
    let child = row(1, 4, (1, 4, 4), (1, 4, 4));
    let through = row(1, 0, (1, 8, 4), (1, 8, 4));
    let beside = row(1, 4, (1, 8, 4), (1, 8, 4));
    assert_eq!(rt;
        under(rt.alloc(), &events, 3, 0)?,
        Some((7, beside, Row::default()))
    );
    assert_eq!(rt;
        under(rt.alloc(), &events, 0, 3)?,
        Some((7, through, child))
    );
    assert_eq!(rt;
        under(rt.alloc(), &events, 3, 3)?,
        Some((7, through, child))
    );
    Ok(())
}
