//! What is done to the events of a run.

ghost use Rattle.std.specs.Prelude.{◌≡◌, ℕ};
ghost use Rattle.spp_change.specs.Changed.{changed_event};
ghost use Rattle.spp_event.specs.Records.{IsEventOf};

use crate::factor::Factor;
use spp_event::Event;

/// What is done to the events of a run: to those of one call site.
#[derive(Clone, Copy, Debug, PartialEq, Eq)]
pub enum Change {
    /// The strands directly in the frames that the site entered take less: each count is divided by the factor, and rounded
    /// up.
    Faster {
        /// The call site.
        site: u32,
        /// By how much.
        factor: Factor,
    },
    /// The spawns by the site are calls.
    Called {
        /// The call site.
        site: u32,
    },
    /// The calls by the site are spawns, which wait for the next sync of their caller, or for its return.
    Spawned {
        /// The call site.
        site: u32,
    },
}

impl Change {
    /// What it makes of an event that is directly in a frame which was entered by that site; no site entered the root.
    #[inline(always)]
    pub fn event(&self, by: Option<u32>, event: Event) -> Event
        ensures value { result ≡ changed_event self.now by event }
        ensures within { (sites funcs : ℕ) → IsEventOf sites funcs event → IsEventOf sites funcs result }
    {
        match *self {
            Change::Faster { site, factor } => match event {
                Event::Strand { count } if by == Some(site) => Event::Strand {
                    count: count.div_ceil(u64::from(factor.number())),
                },
                _ => event,
            },
            Change::Called { site } => match event {
                Event::Spawn { site: s, func } if s == site => Event::Call { site, func },
                _ => event,
            },
            Change::Spawned { site } => match event {
                Event::Call { site: s, func } if s == site => Event::Spawn { site, func },
                _ => event,
            },
        }
    }
}
