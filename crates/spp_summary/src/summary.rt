//! Summaries, and how they are made and joined.
ghost use Rattle.std.specs.Prelude.{◌≡◌, ◌+◌, ◌*◌, ◌<◌, ◌≤◌, ◌^◌, ◌-◌, ℕ, List, [], ◌∷◌, ◌++◌, length, reverse, Result, Ok, IfOk, IfErr, OnErr, OnOk};
ghost use Rattle.spp_piece.specs.Stack.{Stack, run};
ghost use Rattle.spp_piece.specs.Summary.{Sum, summary_of, joined};
ghost use Rattle.spp_event.specs.declared.records.Event.{Event as EventValue};
ghost use Rattle.spp_event.specs.declared.records.EventFault.{EventFault as FaultValue};
ghost use Rattle.spp_piece.specs.Account.{account_of, together, at_start};
ghost use Rattle.spp_piece.specs.Action.{action};
ghost use Rattle.spp_piece.specs.Ends.{figures_of};
ghost use Rattle.spp_maxplus.specs.declared.state.Burdens.{Burdens as BurdensValue};
ghost use Rattle.spp_event.specs.Recordings.{Record};
ghost use Rattle.spp_frame.specs.Nesting.{IsFirstBad};
ghost use Rattle.spp_cut.specs.Parts.{records_in};
ghost use Rattle.spp_dag.specs.Figures.{AreFigures};
ghost use Rattle.std.specs.List.{AllByRecursion};
ghost use Rattle.spp_piece.specs.Bound.{cost, height, worst};

use crate::frames::FrameReader;
use crate::inward_frames::InwardFrames;
use crate::reading::Reading;
use crate::returns::ReturnReader;
use crate::storage::Storage;
use spp_cut::Part;
use spp_dag::Figures;
use spp_event::EventFault;
use spp_frame::{Fault, Why};
use spp_maxplus::Burdens;
use spp_piece::{Segs, States};
use std::alloc::{AllocError, Global};
use std::marker::Model;

/// What a range of events, however unbalanced, does to the open frames that it meets: the returns that close frames
/// opened before it; what it does to the frame that is then the innermost; and the frames that it opens and leaves
/// open. Reading stops at a bad record.
///
/// Contracts see the burdens, the range, and these. It takes memory for its unmatched returns, and for the most frames that
/// were open at a time while it was made; a copy takes memory for its returns and frames alone.
#[derive(Drop)]
pub struct Summary {
    pub(crate) burdens: Burdens,
    pub(crate) first: u32,
    pub(crate) events: u32,
    pub(crate) storage: Storage,
}

impl Model for Summary {
    ghost use Rattle.spp_piece.specs.Account.{Account};
    ghost use Rattle.spp_summary.specs.Stored.{IsStored};
    ghost use Rattle.spp_summary.specs.Storage.{seen};

    ghost Value = { Account };

    ghost view = { λ a. record { burdens = a.burdens; first = a.first; events = a.events; sum = seen a.storage } };

    ghost invariant = { λ a. IsStored (record { burdens = a.burdens; first = a.first; events = a.events; sum = seen a.storage }) a.storage };
}

/// Two values that weren't joined, since an allocation failed, as they were.
#[derive(Drop)]
pub struct JoinRefused<T> {
    /// The earlier one.
    pub left: T,
    /// The later one.
    pub right: T,
}

impl Summary {
    /// The summary of a part. On every stack it acts as the part's events do one by one.
    ///
    /// It takes time linear in the number of events, and memory linear in the most frames that the part has open at a time
    /// of those that it opens, and in the number of those that it closes and doesn't open. A strand changes one number.
    ///
    /// # Errors
    ///
    /// Where an allocation failed.
    pub fn summarise(
        alloc: Global,
        part: &Part<'_, '_>,
        burdens: Burdens,
    ) -> Result<Summary, AllocError>
        ensures value { IfOk result (λ s. s ≡ account_of burdens part.now.first (records_in part.now)) }
        ensures acts { IfOk result (λ s. (stack : Stack) → action burdens s.sum (Ok stack) ≡ run burdens part.now.first (records_in part.now) (Ok stack)) }
    {
        part.keeps_limits();
        let reading = Reading::of_part(alloc, part, burdens)?;
        Ok(Summary {
            burdens,
            first: part.first(),
            events: part.count(),
            storage: reading.finish(),
        })
    }

    /// The summary of two neighbouring ranges together, with the same burdens: it acts as the one and then the other,
    /// and is the summary of both lists of events.
    ///
    /// Amortized, it takes time linear in the number of frames of the left one that the right one closes; then in the number
    /// of frames of the side that has fewer left, and in the number of unmatched returns of the side that has fewer left,
    /// since those are moved into the list of the other.
    ///
    /// # Errors
    ///
    /// Where an allocation failed; both are handed back.
    pub fn join(left: Summary, right: Summary) -> Result<Summary, JoinRefused<Summary>>
        requires burdens { left.burdens ≡ right.burdens }
        requires neighbours { right.first ≡ left.first + left.events }
        ensures ok { IfOk result (λ s. s ≡ together left right) }
        ensures err { IfErr result (λ r. (r.left ≡ left) × (r.right ≡ right)) }
    {
        let mut left = left;
        let mut right = right;
        match left.storage.make_room(&mut right.storage) {
            Ok(()) => {}
            Err(_) => return Err(JoinRefused { left, right }),
        }
        Ok(Summary {
            burdens: left.burdens,
            first: left.first,
            events: left.events + right.events,
            storage: left.storage.absorb(left.burdens, right.storage),
        })
    }

    /// What continuation edges and return edges bear.
    pub fn burdens(&self) -> Burdens
        ensures { result ≡ self.now.burdens }
    {
        self.burdens
    }

    /// The first position of the range.
    pub fn first(&self) -> u32
        ensures { result ≡ self.now.first }
    {
        self.first
    }

    /// The number of events of the range.
    pub fn events(&self) -> u32
        ensures value { result ≡ self.now.events }
        ensures range { self.now.first + self.now.events ≤ 2 ^ 28 }
    {
        self.events
    }

    /// The work of the range, in instructions.
    pub fn work(&self) -> u128
        ensures value { result ≡ self.now.sum.work }
        ensures bound { result < 2 ^ 92 }
    {
        self.storage.before + self.storage.run
    }

    /// The number of returns whose frames were opened before the range.
    pub fn return_count(&self) -> usize
        ensures { result ≡ length self.now.sum.returns }
    {
        self.storage.returns.len()
    }

    /// The returns whose frames were opened before the range, the first one first.
    pub fn returns(&self) -> ReturnReader<'_>
        ensures value { result ≡ self.now.sum.returns }
        ensures bound { AllByRecursion (λ r. cost r.segs < 2 ^ 94) self.now.sum.returns }
    {
        ReturnReader::new(&self.storage.returns)
    }

    /// What the events after the last unmatched return do to the frame that is then the innermost.
    pub fn middle(&self) -> Segs
        ensures value { result ≡ self.now.sum.middle }
        ensures bound { cost result < 2 ^ 94 }
    {
        self.storage.middle()
    }

    /// The number of frames that are open at the end.
    pub fn frame_count(&self) -> usize
        ensures { result ≡ length self.now.sum.frames }
    {
        self.storage.opens.len()
    }

    /// The frames that are open at the end, the innermost first.
    pub fn frames(&self) -> FrameReader<'_>
        ensures value { result ≡ self.now.sum.frames }
        ensures bound { AllByRecursion (λ f. height f.states < 2 ^ 94) self.now.sum.frames }
    {
        FrameReader::new(&self.storage)
    }

    /// The same frames, the outermost first, in the order in which they were opened: each in constant time and without
    /// memory.
    pub fn inward_frames(&self) -> InwardFrames<'_>
        ensures { result ≡ reverse self.now.sum.frames }
    {
        InwardFrames::new(&self.storage)
    }

    /// The position of the first bad record, and its fault.
    pub fn fault(&self) -> Option<(u32, EventFault)>
        ensures { result ≡ self.now.sum.fault }
    {
        self.storage.fault
    }

    /// The same summary once more. It takes time linear in its unmatched returns and frames.
    ///
    /// # Errors
    ///
    /// Where an allocation failed.
    pub fn copy(alloc: Global, summary: &Summary) -> Result<Summary, AllocError>
        ensures { IfOk result (λ s. s ≡ summary.now) }
    {
        Ok(Summary {
            burdens: summary.burdens,
            first: summary.first,
            events: summary.events,
            storage: summary.storage.copy(alloc)?,
        })
    }

    /// The figures of a whole trace, or its first bad event. It takes no memory. The work is below 2^92.
    ///
    /// # Errors
    ///
    /// The first bad event.
    pub fn finish(&self) -> Result<Figures, Fault>
        requires { self.now.first ≡ 0 }
        ensures value { result ≡ figures_of self.now.events (action self.now.burdens self.now.sum (Ok at_start)) }
        ensures figures { IfOk result (λ f. (rs : List Record) → self.now ≡ account_of self.now.burdens 0 rs → AreFigures rs self.now.burdens f) }
        ensures small { IfOk result (λ f. f.work < 2 ^ 92) }
        ensures fault { IfErr result (λ f. (rs : List Record) → self.now ≡ account_of self.now.burdens 0 rs → IsFirstBad rs f) }
    {
        self.ended()
    }

    /// What the root frame alone comes to.
    fn ended(&self) -> Result<Figures, Fault>
        requires { self.now.first ≡ 0 }
        ensures value { result ≡ figures_of self.now.events (action self.now.burdens self.now.sum (Ok at_start)) }
        ensures small { IfOk result (λ f. f.work < 2 ^ 92) }
    {
        if let Some(unmatched) = self.storage.returns.iter().next() {
            return Err(Fault {
                at: unmatched.at(),
                why: Why::RootReturn,
            });
        }
        if let Some((at, why)) = self.storage.fault {
            return Err(Fault {
                at,
                why: Why::Event(why),
            });
        }
        let depth = self.storage.opens.len();
        if depth > 0 {
            return Err(Fault {
                at: self.events,
                why: Why::Unclosed {
                    depth: depth as u32,
                },
            });
        }
        let states = self.storage.middle().apply(States::start());
        Ok(Figures {
            work: self.work(),
            span: states.plain.close(),
            burdened: states.burdened.close(),
        })
    }
}
