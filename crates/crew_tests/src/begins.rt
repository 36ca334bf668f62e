//! The frames that are open where parts begin.

use crate::calls::{CREWS, Crew, stacks_of};
use crate::traces::{evenly, thousand};
use crate::worked::{CALL, CALLS, FORK, RET, S1, S2, S7, SPAWN};
use spp_cut::{Cut, cut_at};
use spp_dag::{EntryFrame, FrameKind};
use spp_event::{Event, open_trace, trace_of};
use spp_maxplus::State;
use spp_stack::Entries;
use std::alloc::{AllocError, Global};
use std::sync::Wait;
use std::test::Fail;
use std::thread::Threads;

/// The open frames where parts begin, told by two workers; none where the trace isn't well-formed or an allocation failed.
fn stacks_of_cut<R: Threads + Wait + Sync>(
    rt: &R,
    alloc: Global,
    cut: &Cut<'_, '_>,
) -> Option<Entries> {
    stacks_of(rt, alloc, cut, Crew::Two).ok()
}

/// The same where the trace of these events is cut at these positions.
fn stacks_at<R: Threads + Wait + Sync>(
    rt: &R,
    alloc: Global,
    events: &[Event],
    cuts: &[u32],
) -> Option<Entries> {
    let bytes = trace_of(alloc, events).ok()?;
    let trace = open_trace(alloc, &bytes).ok()?;
    let cut = cut_at(alloc, &trace, cuts).ok()?;
    stacks_of_cut(rt, alloc, &cut)
}

/// The same where it is cut into so many even parts.
fn stacks_in<R: Threads + Wait + Sync>(
    rt: &R,
    alloc: Global,
    events: &[Event],
    parts: u32,
) -> Option<Entries> {
    let bytes = trace_of(alloc, events).ok()?;
    let trace = open_trace(alloc, &bytes).ok()?;
    let cut = evenly(alloc, &trace, parts)?;
    stacks_of_cut(rt, alloc, &cut)
}

/// The frames where part `k` begins, the innermost first, with their number but the root and the work before.
fn told_at(alloc: Global, stacks: &Entries, k: usize) -> Option<(Vec<EntryFrame>, u32, u128)> {
    if k > stacks.parts() {
        return None;
    }
    let entry = stacks.entry(k);
    let mut frames = Vec::new(alloc);
    for frame in entry.frames() {
        frames.push(frame).ok()?;
    }
    Some((frames, entry.depth(), entry.work()))
}

/// A state with this spine and no child.
fn along(spine: u128) -> State {
    State { spine, child: None }
}

/// The root frame in these states, without burdens and with them.
fn root(state: State, burdened: State) -> EntryFrame {
    EntryFrame {
        kind: FrameKind::Root,
        at: 0,
        site: 0,
        func: 0,
        before: 0,
        state,
        burdened,
        top_site: true,
        top_caller: true,
    }
}

/// A frame of the site `A`, with no child.
fn inner(
    kind: FrameKind,
    at: u32,
    before: u128,
    spine: u128,
    top_site: bool,
    top_caller: bool,
) -> EntryFrame {
    EntryFrame {
        kind,
        at,
        site: 0,
        func: 1,
        before,
        state: along(spine),
        burdened: along(spine),
        top_site,
        top_caller,
    }
}

/// Whether these are the frames, innermost first, where part `k` of the trace begins, of which so many aren't the root,
/// and this the work before.
fn begins_with(
    alloc: Global,
    stacks: &Entries,
    k: usize,
    frames: &[EntryFrame],
    depth: u32,
    work: u128,
) -> bool {
    match told_at(alloc, stacks, k) {
        None => false,
        Some(told) => told.0.as_slice() == frames && told.1 == depth && told.2 == work,
    }
}

#[test]
fn tops_are_judged_on_the_whole_trace(rt: HostRuntime) -> Result<(), Fail> {
    let alloc = rt.alloc();
    let Some(stacks) = stacks_at(&rt, alloc, &CALLS, &[1, 2, 3, 4, 5, 6, 7, 8]) else {
        return Err(AllocError.into());
    };
    let frames = [
        inner(FrameKind::Called, 4, 2, 0, false, false),
        inner(FrameKind::Called, 2, 1, 1, false, true),
        inner(FrameKind::Called, 0, 0, 1, true, true),
        root(along(0), along(0)),
    ];
    assert!(rt; begins_with(alloc, &stacks, 5, &frames, 3, 2));
    Ok(())
}

#[test]
fn a_frame_lives_on_in_later_parts(rt: HostRuntime) -> Result<(), Fail> {
    let alloc = rt.alloc();
    let Some(stacks) = stacks_at(&rt, alloc, &FORK, &[2, 4, 6]) else {
        return Err(AllocError.into());
    };
    let waiting = State {
        spine: 1,
        child: Some((11, 1)),
    };
    let burdened = State {
        spine: 4,
        child: Some((14, 1)),
    };
    assert!(rt; begins_with(alloc, &stacks, 0, &[root(along(0), along(0))], 0, 0));
    let child = inner(FrameKind::Spawned, 1, 1, 0, true, true);
    assert!(rt; begins_with(alloc, &stacks, 1, &[child, root(along(1), along(1))], 1, 1));
    assert!(rt; begins_with(alloc, &stacks, 2, &[root(waiting, burdened)], 0, 11));
    assert!(rt; begins_with(alloc, &stacks, 3, &[root(along(11), along(14))], 0, 15));
    assert!(rt; begins_with(alloc, &stacks, 4, &[root(along(13), along(16))], 0, 17));
    Ok(())
}

#[test]
fn a_child_still_waits_at_the_end(rt: HostRuntime) -> Result<(), Fail> {
    let alloc = rt.alloc();
    let Some(stacks) = stacks_at(&rt, alloc, &[SPAWN, S7, RET, S2], &[1, 2, 3]) else {
        return Err(AllocError.into());
    };
    let waiting = State {
        spine: 2,
        child: Some((7, 0)),
    };
    let burdened = State {
        spine: 5,
        child: Some((10, 0)),
    };
    assert!(rt; begins_with(alloc, &stacks, 4, &[root(waiting, burdened)], 0, 9));
    Ok(())
}

/// The position where part `k` begins, and that of the end behind the last part.
fn position_at(stacks: &Entries, k: usize) -> Option<u32> {
    if k > stacks.parts() {
        return None;
    }
    Some(stacks.entry(k).at())
}

/// Whether the parts begin at these positions, the last of which is the end.
fn begin_at(stacks: &Entries, positions: &[u32]) -> bool {
    let mut told = positions.iter().enumerate();
    let all = told.all(|(k, at)| position_at(stacks, k) == Some(*at));
    all && position_at(stacks, positions.len()).is_none()
}

#[test]
fn entries_have_the_positions_of_their_parts(rt: HostRuntime) -> Result<(), Fail> {
    let alloc = rt.alloc();
    let Some(cut) = stacks_at(&rt, alloc, &FORK, &[2, 4, 6]) else {
        return Err(AllocError.into());
    };
    assert!(rt; begin_at(&cut, &[0, 2, 4, 6, 7]));
    let Some(uneven) = stacks_at(&rt, alloc, &CALLS, &[1, 4, 9]) else {
        return Err(AllocError.into());
    };
    assert!(rt; begin_at(&uneven, &[0, 1, 4, 9, 9]));
    let Some(even) = stacks_in(&rt, alloc, &[S1, S2], 5) else {
        return Err(AllocError.into());
    };
    assert!(rt; begin_at(&even, &[0, 0, 0, 1, 1, 2]));
    let Some(none) = stacks_in(&rt, alloc, &[], 1) else {
        return Err(AllocError.into());
    };
    assert!(rt; begin_at(&none, &[0, 0]));
    Ok(())
}

/// The frame of the node that is told for the beginning of part `k`.
fn top_at(stacks: &Entries, k: usize) -> Option<EntryFrame> {
    if k > stacks.parts() {
        return None;
    }
    let number = stacks.top(k) as usize;
    stacks.nodes().get(number).map(|node| node.frame)
}

/// The innermost frame where part `k` begins, with the number of frames but the root and the work before.
fn innermost_at(alloc: Global, stacks: &Entries, k: usize) -> Option<(EntryFrame, u32, u128)> {
    let (frames, depth, work) = told_at(alloc, stacks, k)?;
    Some((*frames.first()?, depth, work))
}

/// Whether the stacks of a thousand nested calls, in parts of one event, share their frames.
fn are_shared(alloc: Global, stacks: &Entries) -> bool {
    let top = inner(FrameKind::Called, 999, 0, 500, false, false);
    stacks.nodes().len() <= 4001
        && top_at(stacks, 1500) == Some(top)
        && innermost_at(alloc, stacks, 1500) == Some((top, 1000, 500))
}

/// Whether a cut's stacks are shared so, whoever tells them.
fn all_share<R: Threads + Wait + Sync>(rt: &R, alloc: Global, cut: &Cut<'_, '_>) -> bool {
    for crew in CREWS {
        let shared = match stacks_of(rt, alloc, cut, crew) {
            Ok(stacks) => are_shared(alloc, &stacks),
            Err(_) => false,
        };
        if !shared {
            return false;
        }
    }
    true
}

/// The same of a thousand nested calls; none where an allocation failed.
fn deep_stacks_share<R: Threads + Wait + Sync>(rt: &R, alloc: Global) -> Option<bool> {
    let events = thousand(alloc, CALL).ok()?;
    let bytes = trace_of(alloc, &events).ok()?;
    let trace = open_trace(alloc, &bytes).ok()?;
    let cut = evenly(alloc, &trace, 3000)?;
    Some(all_share(rt, alloc, &cut))
}

#[test]
fn stacks_share_their_frames(rt: HostRuntime) -> Result<(), Fail> {
    assert_eq!(rt; deep_stacks_share(&rt, rt.alloc()), Some(true));
    Ok(())
}
