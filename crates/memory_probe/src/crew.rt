//! The calls of a crew: two workers share the parts of a trace.

use super::{Answer, of_fault, trace_in};
use spp_crew::{OpenGate, figures, marks, profile, profile_in_rounds};
use spp_cut::{Cut, Parts, cut_even};
use spp_dag::Figures;
use spp_event::{Event, trace_of};
use spp_frame::ProfileFault;
use spp_maxplus::Burdens;
use spp_site::Profile;
use std::alloc::Global;
use std::sync::Wait;
use std::thread::Threads;

/// Two spawned children, which the root frame waits for.
const EVENTS: [Event; 9] = [
    Event::Strand { count: 1 },
    Event::Spawn { site: 0, func: 1 },
    Event::Strand { count: 4 },
    Event::Ret,
    Event::Spawn { site: 0, func: 1 },
    Event::Strand { count: 2 },
    Event::Ret,
    Event::Sync,
    Event::Strand { count: 3 },
];

/// What the run comes to where each burden is 3.
const FIGURES: Figures = Figures {
    work: 10,
    span: 8,
    burdened: 12,
};

/// Which events are on the path without burdens: it goes through the first child.
const MARKS: [u8; 9] = [1, 1, 1, 1, 0, 0, 0, 1, 1];

/// How many workers there are.
const WORKERS: u32 = 2;

/// What the crew is asked for.
#[derive(Clone, Copy)]
pub enum Task {
    Figures,
    Profile,
    ProfileInRounds,
    Marks,
}

fn good_if(is_right: bool) -> Answer {
    if is_right {
        Answer::Good
    } else {
        Answer::Other
    }
}

fn measured<R: Threads + Wait + Sync>(rt: &R, alloc: Global, cut: &Cut<'_, '_>) -> Answer {
    match figures(rt, alloc, cut, WORKERS, Burdens::equal(3), &OpenGate) {
        Ok(figures) => good_if(figures == FIGURES),
        Err(fault) => of_fault(fault),
    }
}

/// The path without burdens goes through the first child, which has 4 instructions, and that under them through the
/// second, which has 2.
fn of_profile(told: Result<Profile, ProfileFault>) -> Answer {
    match told {
        Ok(profile) => good_if(
            profile.figures == FIGURES
                && profile.dag.row(0).local == 6
                && profile.path.row(0).local == 4
                && profile.burdened_path.row(0).local == 2,
        ),
        Err(fault) => of_fault(fault),
    }
}

fn profiled<R: Threads + Wait + Sync>(rt: &R, alloc: Global, cut: &Cut<'_, '_>) -> Answer {
    of_profile(profile(rt, alloc, cut, WORKERS, Burdens::equal(3), &OpenGate))
}

fn profiled_in_rounds<R: Threads + Wait + Sync>(
    rt: &R,
    alloc: Global,
    cut: &Cut<'_, '_>,
) -> Answer {
    of_profile(profile_in_rounds(rt, alloc, cut, WORKERS, Burdens::equal(3), &OpenGate))
}

fn marked<R: Threads + Wait + Sync>(rt: &R, alloc: Global, cut: &Cut<'_, '_>) -> Answer {
    let Ok(mut bytes) = vec![in alloc; 2; cut.trace().count() as usize] else {
        return Answer::Memory;
    };
    match marks(rt, alloc, cut, WORKERS, &OpenGate, &mut bytes) {
        Ok(()) => good_if(bytes.as_slice() == MARKS.as_slice()),
        Err(fault) => of_fault(fault),
    }
}

/// What the crew answers, where each event is a part.
pub fn asked<R: Threads + Wait + Sync>(rt: &R, alloc: Global, task: Task) -> Answer {
    let Ok(bytes) = trace_of(alloc, &EVENTS) else {
        return Answer::Memory;
    };
    let trace = match trace_in(alloc, bytes.as_slice()) {
        Ok(trace) => trace,
        Err(answer) => return answer,
    };
    let Ok(cut) = cut_even(alloc, &trace, Parts::new(9).unwrap_or_default()) else {
        return Answer::Memory;
    };
    match task {
        Task::Figures => measured(rt, alloc, &cut),
        Task::Profile => profiled(rt, alloc, &cut),
        Task::ProfileInRounds => profiled_in_rounds(rt, alloc, &cut),
        Task::Marks => marked(rt, alloc, &cut),
    }
}
