//! The greatest weights of walks, and paths.

ghost use Rattle.std.specs.Prelude.{◌≡◌, ◌+◌, ◌≤◌, ◌<◌, ◌^◌, suc, ◌∷◌, length, List, ℕ, true, Some, None, get_or, IfOk};
ghost use Rattle.std.specs.Option.{option_map};
ghost use Rattle.spp_dag.specs.Trace.{is_frame, closing};
ghost use Rattle.spp_dag.specs.Dag.{IsGreatest, IsPath};
ghost use Rattle.spp_reference.specs.Walks.{IsBest, Reaches, weight_along};

use crate::dag::{Dag, Edge};
use spp_maxplus::Burdens;
use std::alloc::{AllocError, Global};

/// What a walk weighs at most that goes along this edge and then on, where something does: `best` has, for each
/// position up to the end of the walk, the greatest weight from there.
fn along(edge: Option<Edge>, best: &[Option<u128>]) -> Option<u128>
    requires { (x w : ℕ) → get_or best.now x None ≡ Some w → w < 2 ^ 127 }
    ensures { result ≡ weight_along edge best.now }
{
    let edge = edge?;
    let rest = (*best.get(edge.to)?)?;
    Some(u128::from(edge.burden) + rest)
}

/// What a walk weighs at most from a position of this weight, by what one weighs at most past it, where there is one.
fn from_here(weight: u64, past: Option<u128>) -> Option<u128>
    requires { (w : ℕ) → past ≡ Some w → weight + w < 2 ^ 128 }
    ensures { result ≡ option_map (λ w. weight + w) past }
{
    let past = past?;
    Some(u128::from(weight) + past)
}

/// For each position up to `end`, the greatest weight of a walk from there to `end`; none where there is no walk.
pub(crate) fn greatest_weights(
    alloc: Global,
    dag: &Dag<'_>,
    burdens: Burdens,
    end: usize,
) -> Result<Vec<Option<u128>>, AllocError>
    requires { end ≤ length dag.now }
    ensures count { IfOk result (λ best. length best.items ≡ suc end) }
    ensures best { IfOk result (λ best. (x : ℕ) → x ≤ end → IsBest dag.now burdens x end (get_or best.items x None)) }
{
    prove!(end <= dag.end());
    let mut best: Vec<Option<u128>> = vec![in alloc; None; end + 1]?;
    best[end] = Some(u128::from(dag.weight(end)));
    for after in 0..end {
        let at = end - 1 - after;
        let edges = dag.edges(burdens, at);
        let first = along(edges.first, best.as_slice());
        let second = along(edges.second, best.as_slice());
        best[at] = from_here(dag.weight(at), first.max(second));
    }
    Ok(best)
}

/// The greatest weight of a walk through the frame that begins at `frame`, from its first position to its last.
pub(crate) fn span(
    alloc: Global,
    dag: &Dag<'_>,
    burdens: Burdens,
    frame: usize,
) -> Result<u128, AllocError>
    requires within { frame ≤ length dag.now }
    requires begins { is_frame dag.now frame ≡ true }
    ensures { IfOk result (λ w. IsGreatest dag.now burdens frame (closing dag.now frame) w) }
{
    prove!(frame <= dag.end());
    let best = greatest_weights(alloc, dag, burdens, dag.closing(frame))?;
    match best[frame] {
        Some(weight) => Ok(weight),
        None => unreachable!(),
    }
}

/// The position that comes after `at` on the first path to the end that is greatest under the burdens; `best` has, for
/// each position, the greatest weight from there to the end.
fn next(dag: &Dag<'_>, burdens: Burdens, best: &[Option<u128>], at: usize) -> usize
    requires within { at < length dag.now }
    requires count { length best.now ≡ suc (length dag.now) }
    requires best { (x : ℕ) → x ≤ length dag.now → IsBest dag.now burdens x (length dag.now) (get_or best.now x None) }
    requires reaches { Reaches dag.now burdens at (length dag.now) }
    ensures onward { at < result }
    ensures within { result ≤ length dag.now }
    ensures reaches { Reaches dag.now burdens result (length dag.now) }
    ensures first { (rest : List ℕ) → IsPath dag.now burdens result (length dag.now) rest → IsPath dag.now burdens at (length dag.now) (result ∷ rest) }
{
    prove!(at < dag.end());
    let edges = dag.edges(burdens, at);
    let first = along(edges.first, best);
    let second = along(edges.second, best);
    let taken = if second <= first {
        edges.first
    } else {
        edges.second
    };
    match taken {
        Some(edge) => edge.to,
        None => unreachable!(),
    }
}

/// The positions of the first path that is greatest under the burdens, from 0 to the end.
pub(crate) fn path(alloc: Global, dag: &Dag<'_>, burdens: Burdens) -> Result<Vec<usize>, AllocError>
    ensures { IfOk result (λ ps. (rest : List ℕ) × (ps.items ≡ 0 ∷ rest) × IsPath dag.now burdens 0 (length dag.now) rest) }
{
    let end = dag.end();
    let best = greatest_weights(alloc, dag, burdens, end)?;
    let mut path = Vec::new(alloc);
    path.push(0)?;
    let mut at = 0;
    while at < end {
        at = next(dag, burdens, best.as_slice(), at);
        path.push(at)?;
    }
    Ok(path)
}
