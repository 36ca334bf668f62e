//! The profile of a run so far, some of whose rows other threads add up.

ghost use Rattle.std.specs.Prelude.{◌≡◌, ◌+◌, ◌<◌, ◌^◌, ℕ, Option, length, IfOk, IfErr};
ghost use Rattle.spp_event.specs.Recordings.{Recording, InLimits, AreEventsOf};
ghost use Rattle.spp_frame.specs.Answers.{IsFaultOf};
ghost use Rattle.spp_maxplus.specs.declared.state.Burdens.{Burdens as BurdensValue};
ghost use Rattle.spp_pass.specs.AsideRows.{aside_row};
ghost use Rattle.spp_dag.specs.Shares.{plus};
ghost use Rattle.spp_part.specs.Parts.{IsPartProfile, IsSoFar, IsSoFarBut, Rows};

use crate::whole_profile::FEW_SITES;
use spp_frame::ProfileFault;
use spp_maxplus::Burdens;
use spp_part::{PartProfile, ProfileSoFar};
use spp_pass::RowsAside;
use std::alloc::{AllocError, Global};
use std::snapshot::Snapshot;
use std::thread::{Promise, PromisedHandle, Threads, spawn_with};

/// That a thread brings these rows back. Contracts alone see them.
#[derive(Drop)]
pub(crate) struct SameRows(pub(crate) Snapshot<RowsAside>);

impl Promise<Result<RowsAside, AllocError>> for SameRows {
    ghost kept_by = { λ p rows. IfOk rows (λ r. (key : Option ℕ) → aside_row r key ≡ aside_row p.0.value key) };
}

/// A thread that adds rows up.
type Adder = PromisedHandle<Result<RowsAside, AllocError>, SameRows>;

/// The profile of a run so far. Where the run has many call sites, threads add rows up, in tables of their own, while the next
/// blocks are read and joined: the rows of a block, with a copy of what encloses each of its long stretches.
#[derive(Drop)]
pub(crate) struct SharedProfile {
    so_far: ProfileSoFar,
    /// Whether threads add rows up. The answer doesn't depend on it.
    shares: bool,
    /// The first of two threads that have rows, if there is one. It was started before the other.
    earlier: Option<Adder>,
    /// The other.
    later: Option<Adder>,
}

/// Starts a thread that adds these rows up. Where none can be started, this one does.
fn add_up<R: Threads>(
    rt: &R,
    alloc: Global,
    rows: RowsAside,
) -> Result<Adder, Result<RowsAside, AllocError>>
    ensures thread { IfOk result (λ t. t.promise.0.value ≡ rows) }
    ensures rows { IfErr result (λ added. IfOk added (λ r. (key : Option ℕ) → aside_row r key ≡ aside_row rows key)) }
{
    let promise = SameRows(Snapshot::of(&rows));
    let adding = move || -> Result<RowsAside, AllocError>
        ensures { IfOk result (λ r. (key : Option ℕ) → aside_row r key ≡ aside_row rows key) }
    { rows.added_up(alloc) };
    match spawn_with(rt, promise, adding) {
        Ok(thread) => Ok(thread),
        Err(refused) => Err((refused.value)()),
    }
}

/// Waits for a thread, if there is one, and lets go of its rows.
fn let_go<R: Threads>(rt: &R, adder: Option<Adder>) {
    if let Some(thread) = adder {
        drop(thread.join(rt));
    }
}

impl SharedProfile {
    ghost use Rattle.spp_crew.specs.Shared.{IsShared, adder_row};

    /// Before the first event of a run in whose trace the root frame runs `root`, and which has so many call sites.
    ///
    /// # Errors
    ///
    /// Where an allocation failed.
    pub(crate) fn start(alloc: Global, root: u32, sites: u32) -> Result<Self, AllocError>
        ensures { IfOk result (λ r. (trace : Recording) (burdens : BurdensValue) → trace.root ≡ root → InLimits trace → AreEventsOf (length trace.sites) (length trace.funcs) trace.records → burdens.continuation < 2 ^ 32 → burdens.join < 2 ^ 32 → IsShared trace burdens 0 r) }
    {
        let so_far = ProfileSoFar::start(alloc, root, sites)?;
        Ok(SharedProfile::alone(so_far, sites > FEW_SITES))
    }

    /// That profile, none of whose rows a thread has.
    pub(crate) fn alone(so_far: ProfileSoFar, shares: bool) -> Self
        ensures { (trace : Recording) (burdens : BurdensValue) (i : ℕ) → IsSoFar trace burdens i so_far → IsShared trace burdens i result }
    {
        SharedProfile {
            so_far,
            shares,
            earlier: None,
            later: None,
        }
    }

    /// Whether threads add rows up. No clause says when: answers don't depend on it.
    pub(crate) fn shares_rows(&self) -> bool {
        self.shares
    }

    /// Whether threads add up the rows of a part. They don't where it is slow to join: this one reads the next blocks then, and
    /// would have to wait for them.
    pub(crate) fn shares_rows_of(&self, part: &PartProfile) -> bool {
        self.shares && !part.joins_slowly()
    }

    /// Waits for the threads, if there are any, and lets go of all.
    pub(crate) fn let_go<R: Threads>(self, rt: &R) {
        let SharedProfile { earlier, later, .. } = self;
        let_go(rt, earlier);
        let_go(rt, later);
    }

    /// The profile with the rows that this thread has, for which it waits, if there is one.
    ///
    /// # Errors
    ///
    /// Where an allocation failed.
    fn with_rows_of<R: Threads>(
        rt: &R,
        so_far: ProfileSoFar,
        adder: Option<Adder>,
    ) -> Result<ProfileSoFar, AllocError>
        requires { (lent : Rows) × (trace : Recording) × (burdens : BurdensValue) × (i : ℕ) × IsSoFarBut (λ key. plus (adder_row adder key) (lent key)) trace burdens i so_far }
        ensures { IfOk result (λ r. (lent : Rows) (trace : Recording) (burdens : BurdensValue) (i : ℕ) → IsSoFarBut (λ key. plus (adder_row adder key) (lent key)) trace burdens i so_far → IsSoFarBut lent trace burdens i r) }
    {
        let mut so_far = so_far;
        match adder {
            None => Ok(so_far),
            Some(thread) => {
                let rows = thread.join(rt)?;
                so_far.take_back(rows)?;
                Ok(so_far)
            }
        }
    }

    /// The profile with all its rows: it waits for the threads that have some.
    ///
    /// # Errors
    ///
    /// Where an allocation failed. No thread is left then.
    pub(crate) fn gathered<R: Threads>(self, rt: &R) -> Result<ProfileSoFar, AllocError>
        requires { (trace : Recording) × (burdens : BurdensValue) × (i : ℕ) × IsShared trace burdens i self }
        ensures { IfOk result (λ r. (trace : Recording) (burdens : BurdensValue) (i : ℕ) → IsShared trace burdens i self → IsSoFar trace burdens i r) }
    {
        let SharedProfile {
            so_far,
            earlier,
            later,
            ..
        } = self;
        match SharedProfile::with_rows_of(rt, so_far, earlier) {
            Ok(so_far) => SharedProfile::with_rows_of(rt, so_far, later),
            Err(AllocError) => {
                let_go(rt, later);
                Err(AllocError)
            }
        }
    }

    /// That profile, with a thread that still has rows, and a new one that adds up those that are kept aside, if there are any. Where
    /// none can be started, this one does.
    ///
    /// # Errors
    ///
    /// Where an allocation failed. No thread is left then.
    fn sharing<R: Threads>(
        rt: &R,
        alloc: Global,
        so_far: ProfileSoFar,
        earlier: Option<Adder>,
    ) -> Result<Self, AllocError>
        requires { (trace : Recording) × (burdens : BurdensValue) × (i : ℕ) × IsSoFarBut (adder_row earlier) trace burdens i so_far }
        ensures { IfOk result (λ r. (trace : Recording) (burdens : BurdensValue) (i : ℕ) → IsSoFarBut (adder_row earlier) trace burdens i so_far → IsShared trace burdens i r) }
    {
        let mut so_far = so_far;
        if !so_far.owes_rows() {
            return Ok(SharedProfile {
                so_far,
                shares: true,
                earlier: None,
                later: earlier,
            });
        }
        let rows = so_far.lend(alloc);
        match add_up(rt, alloc, rows) {
            Ok(thread) => Ok(SharedProfile {
                so_far,
                shares: true,
                earlier,
                later: Some(thread),
            }),
            Err(Ok(rows)) => {
                let Ok(()) = so_far.take_back(rows) else {
                    let_go(rt, earlier);
                    return Err(AllocError);
                };
                Ok(SharedProfile {
                    so_far,
                    shares: true,
                    earlier,
                    later: None,
                })
            }
            Err(Err(AllocError)) => {
                let_go(rt, earlier);
                Err(AllocError)
            }
        }
    }

    /// Goes on by a part, and has a thread add its rows up. Two take turns, so that no join waits for the one
    /// that was started last.
    ///
    /// # Errors
    ///
    /// The first bad event of the run, if it is one of the part, or `Memory` where an allocation failed. No thread is left then.
    pub(crate) fn join_and_share<R: Threads>(
        self,
        rt: &R,
        alloc: Global,
        part: PartProfile,
        burdens: Burdens,
    ) -> Result<Self, ProfileFault>
        requires { (trace : Recording) × (i : ℕ) × (count : ℕ) × IsShared trace burdens i self × IsPartProfile trace burdens i count part }
        ensures so_far { IfOk result (λ r. (trace : Recording) (i count : ℕ) → IsShared trace burdens i self → IsPartProfile trace burdens i count part → IsShared trace burdens (i + count) r) }
        ensures fault { IfErr result (λ f. (trace : Recording) (i count : ℕ) → IsShared trace burdens i self → IsPartProfile trace burdens i count part → IsFaultOf trace.records f) }
    {
        let SharedProfile {
            so_far,
            earlier,
            later,
            ..
        } = self;
        let Ok(mut so_far) = SharedProfile::with_rows_of(rt, so_far, earlier) else {
            let_go(rt, later);
            return Err(ProfileFault::Memory);
        };
        match so_far.join_aside(alloc, part, burdens) {
            Ok(()) => Ok(SharedProfile::sharing(rt, alloc, so_far, later)?),
            Err(fault) => {
                let_go(rt, later);
                Err(fault)
            }
        }
    }
}
