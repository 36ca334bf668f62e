//! The frames that are open before an event, and the work so far.

ghost use Rattle.std.specs.Prelude.{◌≡◌, ◌+◌, ◌≤◌, ◌<◌, ◌^◌, if◌then◌else◌, Some, None, OnOk, IfOk, IfErr};
ghost use Rattle.spp_frame.specs.Nesting.{wrong, opens_frame, closes_frame, weight};
ghost use Rattle.spp_frame.specs.declared.Why.TheVariants.{Unclosed};

use crate::{Fault, Why};
use spp_event::{Event, EventFault};

/// How many frames besides the root are open before an event, and the work before it.
///
/// The loop over the events of an opened trace has these two numbers and this step written out, which is an instruction
/// less for each event.
#[derive(Clone, Copy)]
pub(crate) struct Frames {
    /// The open frames.
    pub(crate) depth: u32,
    /// The sum of the counts of all strands.
    pub(crate) work: u128,
}

impl Frames {
    /// Those before the first event.
    pub(crate) const ROOT: Frames = Frames { depth: 0, work: 0 };

    /// Goes on behind an event.
    ///
    /// # Errors
    ///
    /// What is wrong there, by what was read; nothing is opened or closed then.
    #[inline(always)]
    pub(crate) fn take(&mut self, event: Result<Event, EventFault>) -> Result<(), Why>
        requires deep { self.old.depth + 1 < 2 ^ 32 }
        requires small { self.old.work + 18446744073709551616 < 2 ^ 128 }
        ensures right { OnOk result (wrong (Some event) self.old.depth ≡ None) }
        ensures depth { OnOk result (self.new.depth + (if closes_frame event then 1 else 0) ≡ self.old.depth + (if opens_frame event then 1 else 0)) }
        ensures work { OnOk result (self.new.work ≡ self.old.work + weight event) }
        ensures deeper { self.new.depth ≤ self.old.depth + 1 }
        ensures more { self.new.work ≤ self.old.work + 18446744073709551616 }
        ensures wrong { IfErr result (λ why. wrong (Some event) self.old.depth ≡ Some why) }
    {
        match event {
            Ok(Event::Strand { count }) => self.work += u128::from(count),
            Ok(Event::Call { .. } | Event::Spawn { .. }) => self.depth += 1,
            Ok(Event::Ret) => {
                if self.depth == 0 {
                    return Err(Why::RootReturn);
                }
                self.depth -= 1;
            }
            Ok(Event::Sync) => {}
            Err(fault) => return Err(Why::Event(fault)),
        }
        Ok(())
    }

    /// The work of a trace that ends here, behind `count` events at which nothing is wrong.
    ///
    /// # Errors
    ///
    /// That frames are open.
    pub(crate) fn end(self, count: u32) -> Result<u128, Fault>
        ensures work { IfOk result (λ w. (w ≡ self.work) × (self.depth ≡ 0)) }
        ensures fault { IfErr result (λ f. (f ≡ record { at = count; why = Unclosed self.depth }) × (0 < self.depth)) }
    {
        if self.depth > 0 {
            return Err(Fault {
                at: count,
                why: Why::Unclosed { depth: self.depth },
            });
        }
        Ok(self.work)
    }
}
