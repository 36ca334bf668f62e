//! Bytes for the events of parts, lent out in two halves.

ghost use Rattle.std.specs.Prelude.{◌≡◌, ◌+◌, ◌<◌, ◌≤◌, ◌^◌, ◌++◌, length, take, drop};
ghost use Rattle.std.specs.Borrow.{sem, LendsBoth, Array, u8};
ghost use Rattle.spp_cut.specs.Parts.{events_in};

use crate::part::Part;

/// How many events the parts before `at` have. It takes time linear in `at`.
#[tactic(auto, using(crate::proofs::Halves::events_parted))]
pub fn events_before(parts: &[Part<'_, '_>], at: usize) -> usize
    requires at_a_part { at ≤ length parts.now }
    requires fits { events_in parts.now < 2 ^ 64 }
    ensures value { result ≡ events_in (take at parts.now) }
    ensures others { result + events_in (drop at parts.now) ≡ events_in parts.now }
{
    let mut events = 0;
    for part in &parts[..at] {
        events += part.count() as usize;
    }
    events
}

/// Lends a buffer with one byte for each event of some parts in two halves: the bytes of the first parts, which have
/// so many events, as [`events_before`] counts them, and those of the others. Once both halves are given back, the
/// buffer is what was left in the first followed by what was left in the second.
pub fn lend(marks: &mut [u8], events: usize) -> (&mut [u8], &mut [u8])
    requires { events ≤ length marks.old }
    ensures first { result.0.now ≡ take events marks.old }
    ensures first_bytes { length result.0.now ≡ events }
    ensures second { result.1.now ≡ drop events marks.old }
    ensures second_bytes { events + length result.1.now ≡ length marks.old }
    ensures* writes_back { sem 𝓛 (LendsBoth (Array u8 0) (Array u8 0) (Array u8 0) marks.entry result ◌++◌) }
{
    let (first, second) = marks.split_at_mut(events);
    (first, second)
}
