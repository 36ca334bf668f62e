//! Paths that are settled part by part: which children they enter, and what of the open frames is on them.

ghost use Rattle.std.specs.Prelude.{◌≡◌, ◌+◌, ◌<◌, length};

use crate::calls::{CREWS, Crew, THREE, stacks_of};
use crate::worked::{BESIDE, EQUAL, IN_CALL, RET, S1, S2, S5, S7, SPAWN, SYNC, WAITED};
use spp_crew::{OpenGate, tabled};
use spp_cut::{Cut, cut_at};
use spp_dag::Choices;
use spp_event::{Event, open_trace, trace_of};
use spp_frame::ProfileFault;
use spp_jobs::Tabled;
use spp_path::{Flag, Settled, Under, settle, settle_by_hops};
use spp_stack::Entries;
use std::alloc::{AllocError, Global};
use std::sync::Wait;
use std::test::Fail;
use std::thread::Threads;

/// The path enters the frame, and a strand directly in it would be on the path.
const ON: Flag = Flag {
    entered: true,
    running: true,
};

/// The path enters the frame, and a child of it that the frame waits for later.
const AWAY: Flag = Flag {
    entered: true,
    running: false,
};

/// The path doesn't enter the frame.
const OFF: Flag = Flag {
    entered: false,
    running: false,
};

/// A run that is cut at some positions, and one of its paths where each burden is 3.
struct Case {
    events: &'static [Event],
    cuts: &'static [u32],
    under: Under,
    /// The children that the path enters: of each the part and the position of its spawn.
    entered: &'static [(usize, u32)],
    /// The flags of the frames that are open where each part begins and at the end, of each place the innermost first.
    flags: &'static [&'static [Flag]],
}

const CASES: &[Case] = &[
    Case {
        events: &[],
        cuts: &[],
        under: Under::Zero,
        entered: &[],
        flags: &[&[ON], &[ON]],
    },
    Case {
        events: &EQUAL,
        cuts: &[1, 2, 3, 4, 5, 6],
        under: Under::Zero,
        entered: &[(0, 0)],
        flags: &[
            &[ON],
            &[ON, AWAY],
            &[ON, AWAY],
            &[AWAY],
            &[OFF, AWAY],
            &[OFF, AWAY],
            &[AWAY],
            &[ON],
        ],
    },
    Case {
        events: &EQUAL,
        cuts: &[1, 2, 3, 4, 5, 6],
        under: Under::Burdens,
        entered: &[(3, 3)],
        flags: &[
            &[ON],
            &[OFF, ON],
            &[OFF, ON],
            &[ON],
            &[ON, AWAY],
            &[ON, AWAY],
            &[AWAY],
            &[ON],
        ],
    },
    // the inner join lies in a child that the path doesn't enter
    Case {
        events: &BESIDE,
        cuts: &[1, 2, 3, 4, 5, 6, 7],
        under: Under::Zero,
        entered: &[],
        flags: &[
            &[ON],
            &[OFF, ON],
            &[OFF, OFF, ON],
            &[OFF, OFF, ON],
            &[OFF, ON],
            &[OFF, ON],
            &[ON],
            &[ON],
            &[ON],
        ],
    },
    // a part with two entered children, between parts with no event
    Case {
        events: &WAITED,
        cuts: &[0, 4, 9],
        under: Under::Zero,
        entered: &[(1, 0), (1, 1)],
        flags: &[&[ON], &[ON], &[AWAY, AWAY], &[ON], &[ON]],
    },
    // a called frame waits; the frame that called it runs on
    Case {
        events: &IN_CALL,
        cuts: &[2, 5, 7, 8],
        under: Under::Zero,
        entered: &[(1, 4)],
        flags: &[
            &[ON],
            &[OFF, ON],
            &[ON, AWAY, ON],
            &[AWAY, ON],
            &[AWAY, ON],
            &[ON],
        ],
    },
    // a child still waits at the end
    Case {
        events: &[SPAWN, S7, RET, S2],
        cuts: &[1, 2, 3],
        under: Under::Zero,
        entered: &[(0, 0)],
        flags: &[&[ON], &[ON, AWAY], &[ON, AWAY], &[AWAY], &[AWAY]],
    },
];

/// Adds the children, spawned in that part, that a path enters: of each the part and the position of its spawn.
fn push_entered(
    entered: &mut Vec<(usize, u32)>,
    settled: &Settled<'_>,
    part: usize,
) -> Result<(), AllocError>
    requires { part + 1 < length settled.now.starts }
{
    for spawn in settled.entered(part) {
        entered.push((part, *spawn))?;
    }
    Ok(())
}

/// Those of so many parts.
fn entered_in(
    alloc: Global,
    settled: &Settled<'_>,
    parts: usize,
) -> Result<Vec<(usize, u32)>, AllocError>
    requires { parts < length settled.now.starts }
{
    let mut entered = Vec::new(alloc);
    for part in 0..parts {
        push_entered(&mut entered, settled, part)?;
    }
    Ok(entered)
}

/// What of the frames that are open where that part begins is on a path.
fn flags_at(alloc: Global, settled: &Settled<'_>, part: usize) -> Result<Vec<Flag>, AllocError>
    requires { part < length settled.now.starts }
{
    let mut flags = Vec::new(alloc);
    for flag in settled.flags(part) {
        flags.push(flag)?;
    }
    Ok(flags)
}

/// Whether these are the flags of the frames that are open where each part begins and at the end.
fn has_flags(alloc: Global, settled: &Settled<'_>, wanted: &[&[Flag]]) -> Result<bool, AllocError>
    requires { length wanted.now ≡ length settled.now.starts }
{
    for (part, flags) in wanted.iter().enumerate() {
        if flags_at(alloc, settled, part)?.as_slice() != *flags {
            return Ok(false);
        }
    }
    Ok(true)
}

/// Whether a path over so many parts is that of a case.
fn is_path_of(
    alloc: Global,
    settled: &Settled<'_>,
    parts: usize,
    case: &Case,
) -> Result<bool, AllocError>
    requires parts { length settled.now.starts ≡ parts + 1 }
    requires flags { length case.now.flags.now ≡ parts + 1 }
{
    let entered = entered_in(alloc, settled, parts)?;
    let flags = has_flags(alloc, settled, case.flags)?;
    Ok(flags && entered.as_slice() == case.entered)
}

/// Whether the path of a case is settled so over these stacks and choices, with hops and without.
fn is_settled(
    alloc: Global,
    stacks: &Entries,
    choices: &[Choices],
    case: &Case,
) -> Result<bool, AllocError> {
    let parts = choices.len();
    if stacks.parts() != parts || case.flags.len() != parts + 1 {
        return Ok(false);
    }
    let settled = settle(alloc, stacks, choices, case.under)?;
    let hopped = settle_by_hops(alloc, stacks, choices, case.under)?;
    Ok(is_path_of(alloc, &settled, parts, case)? && is_path_of(alloc, &hopped, parts, case)?)
}

/// Whether it is where so many workers tell the stacks and the choices.
fn crew_settles<R: Threads + Wait + Sync>(
    rt: &R,
    alloc: Global,
    cut: &Cut<'_, '_>,
    crew: Crew,
    case: &Case,
) -> Result<bool, ProfileFault> {
    let stacks = stacks_of(rt, alloc, cut, crew)?;
    let Tabled { choices, .. } = tabled(rt, alloc, cut, &stacks, crew.workers(), THREE, &OpenGate)?;
    let choices = choices.into_vec();
    Ok(is_settled(alloc, &stacks, &choices, case)?)
}

/// Whether it is, whichever crew tells; none where an allocation failed.
fn all_settle<R: Threads + Wait + Sync>(rt: &R, alloc: Global, case: &Case) -> Option<bool> {
    let bytes = trace_of(alloc, case.events).ok()?;
    let trace = open_trace(alloc, &bytes).ok()?;
    let cut = cut_at(alloc, &trace, case.cuts).ok()?;
    for crew in CREWS {
        if crew_settles(rt, alloc, &cut, crew, case) != Ok(true) {
            return Some(false);
        }
    }
    Some(true)
}

#[test]
fn each_part_is_told_where_the_path_goes(rt: HostRuntime) -> Result<(), Fail> {
    for (i, case) in CASES.iter().enumerate() {
        let settled = all_settle(&rt, rt.alloc(), case);
        assert_eq!(rt; settled, Some(true), "case {i}");
    }
    Ok(())
}

/// A run whose root has these events, spawns a child in which so many children are spawned and joined, one after the other,
/// goes on for so many instructions, and waits.
fn with_joins(
    alloc: Global,
    front: &[Event],
    joins: u32,
    after: u64,
) -> Result<Vec<Event>, AllocError> {
    let mut events = Vec::new(alloc);
    events.extend_from_slice(front)?;
    events.push(SPAWN)?;
    for _join in 0..joins {
        events.extend_from_slice(&[SPAWN, S5, RET, S1, SYNC])?;
    }
    events.extend_from_slice(&[RET, Event::Strand { count: after }, SYNC])?;
    Ok(events)
}

/// How many children the path without burdens enters in a run that is cut at that position, if it enters the same with
/// hops and without.
fn entered_either_way<R: Threads + Wait + Sync>(
    rt: &R,
    alloc: Global,
    events: &[Event],
    cut: u32,
) -> Option<usize> {
    let bytes = trace_of(alloc, events).ok()?;
    let trace = open_trace(alloc, &bytes).ok()?;
    let cut = cut_at(alloc, &trace, &[cut]).ok()?;
    let stacks = stacks_of(rt, alloc, &cut, CREWS[0]).ok()?;
    let workers = CREWS[0].workers();
    let Tabled { choices, .. } = tabled(rt, alloc, &cut, &stacks, workers, THREE, &OpenGate).ok()?;
    let choices = choices.into_vec();
    let parts = choices.len();
    if stacks.parts() != parts {
        return None;
    }
    let settled = settle(alloc, &stacks, &choices, Under::Zero).ok()?;
    let hopped = settle_by_hops(alloc, &stacks, &choices, Under::Zero).ok()?;
    let entered = entered_in(alloc, &settled, parts).ok()?;
    let by_hops = entered_in(alloc, &hopped, parts).ok()?;
    (entered == by_hops).then_some(entered.len())
}

// Where the root goes on for 1000 the path goes beside the child, which is hopped over where it has 16 events or more.
#[test]
fn hops_enter_the_same_children(rt: HostRuntime) -> Result<(), Fail> {
    for joins in 0..12_u32 {
        for cut in 0..5 * joins + 4 {
            for (after, wanted) in [(0, 1 + joins as usize), (1000, 0)] {
                let events = with_joins(rt.alloc(), &[], joins, after)?;
                let entered = entered_either_way(&rt, rt.alloc(), &events, cut);
                assert_eq!(rt;
                    entered,
                    Some(wanted),
                    "{joins} joins, cut at {cut}, {after} after"
                );
            }
        }
    }
    Ok(())
}

// The path enters the first child, so on its way back it seeks that one's return past its sibling.
#[test]
fn hops_seek_past_a_sibling(rt: HostRuntime) -> Result<(), Fail> {
    let front = [SPAWN, Event::Strand { count: 1000 }, RET];
    for joins in 0..8_u32 {
        let events = with_joins(rt.alloc(), &front, joins, 0)?;
        for cut in 0..5 * joins + 7 {
            let entered = entered_either_way(&rt, rt.alloc(), &events, cut);
            assert_eq!(rt; entered, Some(1), "{joins} joins, cut at {cut}");
        }
    }
    Ok(())
}
