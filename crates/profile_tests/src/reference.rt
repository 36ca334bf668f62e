use crate::worked::{BAD, FORK, GOOD};
use spp_dag::{Figures, Row};
use spp_event::{Event, open_trace, trace_of};
use spp_frame::{Fault, ProfileFault};
use spp_maxplus::Burdens;
use spp_reference::{Reference, profile};
use std::alloc::{AllocError, Global};
use std::test::Fail;

/// The profile of a trace of these events with a burden of 3, or none where its bytes open as no trace.
fn profiled(
    alloc: Global,
    events: &[Event],
) -> Result<Option<Result<Reference, ProfileFault>>, AllocError> {
    let bytes = trace_of(alloc, events)?;
    Ok(match open_trace(alloc, bytes.as_slice()) {
        Ok(trace) => Some(profile(alloc, &trace, Burdens::equal(3))),
        Err(_) => None,
    })
}

#[test]
fn a_child_beside_its_continuation(rt: HostRuntime) -> Result<(), Fail> {
    let Some(Ok(told)) = profiled(rt.alloc(), &FORK)? else {
        assert!(rt; false, "no profile");
        return Ok(());
    };
    assert_eq!(rt; (told.work, told.span, told.burdened_span), (17, 13, 16));
    assert_eq!(rt; told.path.as_slice(), [0, 1, 2, 3, 5, 6, 7].as_slice());
    assert_eq!(rt;
        told.marks.as_slice(),
        [true, true, true, true, false, true, true].as_slice()
    );
    let root = Row {
        count: 1,
        local: 3,
        site_count: 1,
        site_work: 17,
        site_span: 13,
        caller_count: 1,
        caller_work: 17,
        caller_span: 13,
    };
    assert_eq!(rt; told.path_rows.root, root);
    assert_eq!(rt; told.burdened_path_rows.root, root);
    assert_eq!(rt; told.dag_rows.root, Row { local: 7, ..root });
    Ok(())
}

/// Whether the definitions give a run these figures.
fn has_figures(alloc: Global, events: &[Event], figures: Figures) -> Result<bool, AllocError> {
    match profiled(alloc, events)? {
        Some(Ok(told)) => {
            let spans = told.span == figures.span && told.burdened_span == figures.burdened;
            Ok(told.work == figures.work && spans)
        }
        _ => Ok(false),
    }
}

#[test]
fn a_run_has_its_work_and_spans(rt: HostRuntime) -> Result<(), Fail> {
    for (i, run) in GOOD.iter().enumerate() {
        assert!(rt;
            has_figures(rt.alloc(), run.events, run.figures)?,
            "run {i}"
        );
    }
    Ok(())
}

/// Whether the definitions give a run this fault.
fn has_fault(alloc: Global, events: &[Event], fault: Fault) -> Result<bool, AllocError> {
    match profiled(alloc, events)? {
        Some(Err(told)) => Ok(told == ProfileFault::Bad(fault)),
        _ => Ok(false),
    }
}

#[test]
fn a_bad_run_has_no_profile(rt: HostRuntime) -> Result<(), Fail> {
    for (i, run) in BAD.iter().enumerate() {
        assert!(rt; has_fault(rt.alloc(), run.events, run.fault)?, "run {i}");
    }
    Ok(())
}
