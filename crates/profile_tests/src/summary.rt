use crate::worked::{BAD, GOOD, MOST, NESTED, RET, S1, S5, SPAWN, TWICE};
use spp_cut::{Cut, cut_at};
use spp_dag::Figures;
use spp_event::{Event, EventFault, open_trace, trace_of};
use spp_frame::{Fault, Why};
use spp_maxplus::{Burdens, ChildKind, Seg, State};
use spp_piece::{Frame, Segs, States, Unmatched};
use spp_summary::Summary;
use std::alloc::{AllocError, Global};
use std::test::Fail;

/// Where a run of up to twelve events is cut into parts of one.
const CUTS: [u32; 11] = [1, 2, 3, 4, 5, 6, 7, 8, 9, 10, 11];

/// The join of two summaries; none where they are no neighbours or an allocation failed.
fn joined(left: Summary, right: Summary) -> Option<Summary> {
    let (first, events) = (left.first(), left.events());
    if left.burdens() != right.burdens() || right.first() != first + events {
        return None;
    }
    Summary::join(left, right).ok()
}

/// The parts of a cut, summarised with a burden of 3 and joined from the left.
fn from_left(alloc: Global, cut: &Cut<'_, '_>) -> Option<Summary> {
    let mut all: Option<Summary> = None;
    for part in cut.parts() {
        let next = Summary::summarise(alloc, part, Burdens::equal(3)).ok()?;
        all = match all {
            None => Some(next),
            Some(before) => Some(joined(before, next)?),
        };
    }
    all
}

/// The same joined from the right.
fn from_right(alloc: Global, cut: &Cut<'_, '_>) -> Option<Summary> {
    let mut all: Option<Summary> = None;
    for part in cut.parts().iter().rev() {
        let before = Summary::summarise(alloc, part, Burdens::equal(3)).ok()?;
        all = match all {
            None => Some(before),
            Some(next) => Some(joined(before, next)?),
        };
    }
    all
}

/// What a summary of a whole trace comes to.
fn finished(all: Option<Summary>) -> Option<Result<Figures, Fault>> {
    let all = all?;
    if all.first() != 0 {
        return None;
    }
    Some(all.finish())
}

/// Whether a run of these events, in parts of one event joined from the left and from the right, comes to this.
fn comes_to(
    alloc: Global,
    bytes: &[u8],
    cuts: &[u32],
    end: Result<Figures, Fault>,
) -> Result<bool, AllocError> {
    let Ok(trace) = open_trace(alloc, bytes) else {
        return Ok(false);
    };
    let Ok(cut) = cut_at(alloc, &trace, cuts) else {
        return Ok(false);
    };
    let left = finished(from_left(alloc, &cut));
    let right = finished(from_right(alloc, &cut));
    Ok(left == Some(end) && right == Some(end))
}

fn fault(at: u32, why: Why) -> Result<Figures, Fault> {
    Err(Fault { at, why })
}

/// The summary of one of the two parts of a run of these events, of which the second begins at that position; none
/// where there is no memory.
fn half(alloc: Global, events: &[Event], second: u32, k: usize) -> Option<Summary> {
    let bytes = trace_of(alloc, events).ok()?;
    let trace = open_trace(alloc, bytes.as_slice()).ok()?;
    let cut = cut_at(alloc, &trace, &[second]).ok()?;
    let part = cut.parts().get(k)?;
    Summary::summarise(alloc, part, Burdens::equal(3)).ok()
}

/// The join of both.
fn both(alloc: Global, events: &[Event], second: u32) -> Option<Summary> {
    let front = half(alloc, events, second, 0)?;
    let back = half(alloc, events, second, 1)?;
    joined(front, back)
}

/// Whether these are the summary's open frames, the innermost first.
fn has_frames(summary: &Summary, frames: &[Frame]) -> bool {
    let mut wanted = frames.iter();
    let same = summary.frames().all(|frame| wanted.next() == Some(&frame));
    same && wanted.next().is_none() && summary.frame_count() == frames.len()
}

/// Whether these are the summary's unmatched returns, in order.
fn has_returns(summary: &Summary, returns: &[Unmatched]) -> bool {
    let mut wanted = returns.iter();
    let same = summary.returns().all(|ret| wanted.next() == Some(&ret));
    same && wanted.next().is_none() && summary.return_count() == returns.len()
}

/// A state with this spine and no child.
fn along(spine: u128) -> State {
    State { spine, child: None }
}

fn spawned(at: u32, spine: u128) -> Frame {
    Frame {
        kind: ChildKind::Spawned,
        at,
        site: 0,
        func: 1,
        before: 0,
        states: States {
            plain: along(spine),
            burdened: along(spine),
        },
    }
}

/// Whether the summary, which matches all its returns and frames, makes of a new frame this state.
fn makes(summary: &Summary, plain: State, burdened: State) -> bool {
    let end = States { plain, burdened };
    has_frames(summary, &[])
        && has_returns(summary, &[])
        && summary.middle().apply(States::start()) == end
}

#[test]
fn a_part_may_leave_frames_open(rt: HostRuntime) -> Result<(), Fail> {
    let Some(front) = half(rt.alloc(), &NESTED, 3, 0) else {
        return Err(AllocError.into());
    };
    assert_eq!(rt; front.work(), 3);
    assert_eq!(rt; front.middle(), Segs::idle());
    assert!(rt; has_returns(&front, &[]));
    assert!(rt; has_frames(&front, &[spawned(1, 3), spawned(0, 0)]));
    Ok(())
}

#[test]
fn a_part_may_close_frames_of_earlier_ones(rt: HostRuntime) -> Result<(), Fail> {
    let Some(back) = half(rt.alloc(), &NESTED, 3, 1) else {
        return Err(AllocError.into());
    };
    let first = Unmatched {
        segs: Segs::idle(),
        at: 3,
    };
    let second = Unmatched {
        segs: Segs::strand(1),
        at: 5,
    };
    assert_eq!(rt; back.work(), 3);
    assert_eq!(rt; back.middle(), Segs::strand(2));
    assert!(rt; has_returns(&back, &[first, second]));
    assert!(rt; has_frames(&back, &[]));
    Ok(())
}

#[test]
fn parts_match_each_other(rt: HostRuntime) -> Result<(), Fail> {
    let Some(both) = both(rt.alloc(), &NESTED, 3) else {
        return Err(AllocError.into());
    };
    let plain = State {
        spine: 2,
        child: Some((3, 0)),
    };
    let burdened = State {
        spine: 5,
        child: Some((9, 0)),
    };
    assert_eq!(rt; both.work(), 6);
    assert!(rt; makes(&both, plain, burdened));
    Ok(())
}

/// A spawned child whose strands come to more than 64 bits can count.
const LONG: [Event; 4] = [SPAWN, MOST, MOST, RET];

#[test]
fn a_return_after_more_than_a_strand_can_count(rt: HostRuntime) -> Result<(), Fail> {
    let Some(back) = half(rt.alloc(), &LONG, 1, 1) else {
        return Err(AllocError.into());
    };
    let along = Seg {
        head: None,
        offer: None,
        add: TWICE,
    };
    let segs = Segs {
        plain: along,
        burdened: along,
    };
    assert_eq!(rt; back.work(), TWICE);
    assert_eq!(rt; back.middle(), Segs::idle());
    assert!(rt; has_returns(&back, &[Unmatched { segs, at: 3 }]));
    Ok(())
}

#[test]
fn a_child_of_more_than_a_strand_can_count(rt: HostRuntime) -> Result<(), Fail> {
    let Some(both) = both(rt.alloc(), &LONG, 1) else {
        return Err(AllocError.into());
    };
    let plain = State {
        spine: 0,
        child: Some((TWICE, 0)),
    };
    let burdened = State {
        spine: 3,
        child: Some((TWICE + 3, 0)),
    };
    assert!(rt; makes(&both, plain, burdened));
    Ok(())
}

/// Whether a run of these events, in parts of one event, comes to this.
fn run_comes_to(
    alloc: Global,
    events: &[Event],
    end: Result<Figures, Fault>,
) -> Result<bool, AllocError> {
    let Some(cuts) = CUTS.get(..events.len().saturating_sub(1)) else {
        return Ok(false);
    };
    let bytes = trace_of(alloc, events)?;
    comes_to(alloc, &bytes, cuts, end)
}

#[test]
fn parts_of_one_event_come_to_the_figures(rt: HostRuntime) -> Result<(), Fail> {
    for (i, run) in GOOD.iter().enumerate() {
        assert!(rt;
            run_comes_to(rt.alloc(), run.events, Ok(run.figures))?,
            "run {i}"
        );
    }
    Ok(())
}

#[test]
fn parts_of_one_event_come_to_the_first_bad_event(rt: HostRuntime) -> Result<(), Fail> {
    for (i, run) in BAD.iter().enumerate() {
        assert!(rt;
            run_comes_to(rt.alloc(), run.events, Err(run.fault))?,
            "run {i}"
        );
    }
    Ok(())
}

#[test]
fn of_a_bad_record_and_a_return_of_the_root_the_first_is_told(rt: HostRuntime) -> Result<(), Fail> {
    let mut bytes = trace_of(rt.alloc(), &[S1, RET, S5])?;
    let last = bytes.len().saturating_sub(16);
    if let Some(tag) = bytes.get_mut(last) {
        *tag = 9;
    }
    assert!(rt; comes_to(rt.alloc(), &bytes, &[1, 2], fault(1, Why::RootReturn))?);
    let mut bytes = trace_of(rt.alloc(), &[SPAWN, RET, RET])?;
    bytes.truncate(bytes.len().saturating_sub(20));
    let cut_off = fault(1, Why::Event(EventFault::Truncated));
    assert!(rt; comes_to(rt.alloc(), &bytes, &[1, 2], cut_off)?);
    Ok(())
}
