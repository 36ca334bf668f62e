//! The rows of the tables.

ghost use Rattle.std.specs.Prelude.{◌≡◌, ◌≤◌, ◌<◌, ◌+◌, ◌^◌, suc, length, true, ℕ, get_or, nat_le, nat_eq, ◌&&◌, cond};
ghost use Rattle.spp_dag.specs.Ranges.{sum_where};
ghost use Rattle.spp_dag.specs.Trace.{weight, closing};
ghost use Rattle.spp_dag.specs.Rows.{contains, encloses as encloses_at, entered_by as entered_by_of, function_of as function_in, same_site as are_same, is_top_site as tops_site, is_outermost as stands_outermost, is_top_caller as tops_caller, work as work_of, is_of as belongs, row as row_of, AreSpans};
ghost use Rattle.spp_dag.specs.Shares.{plus};
ghost use Rattle.spp_dag.specs.Limits.{IsSmallRow};
ghost use Rattle.spp_reference.specs.Sums.{term as term_of};
ghost use Rattle.spp_reference.specs.Places.{holds};

use crate::dag::Dag;
use spp_dag::Row;
use spp_event::Event;

/// The positions that a table is about: all, or those of a path.
#[derive(Clone, Copy)]
pub(crate) enum Places<'p> {
    /// The whole dag.
    All,
    /// The positions of a walk.
    On(&'p [usize]),
}

/// Whether the position is one of them.
pub(crate) fn is_in(places: Places<'_>, i: usize) -> bool
    ensures { result ≡ holds places.entry i }
{
    match places {
        Places::All => true,
        Places::On(path) => path.contains(&i),
    }
}

/// Whether the frame that begins at `f` is not the one that begins at `g`, and `g` begins within it.
fn encloses(dag: &Dag<'_>, f: usize, g: usize) -> bool
    requires { f ≤ length dag.now }
    ensures { result ≡ encloses_at dag.now f g }
{
    dag.is_frame(f) && f < g && g <= dag.closing(f)
}

/// The site by which the frame was entered; none for the root.
fn entered_by(dag: &Dag<'_>, f: usize) -> Option<u32>
    ensures { result ≡ entered_by_of dag.now f }
{
    if f == 0 {
        return None;
    }
    match dag.event(f - 1) {
        Some(Event::Call { site, .. } | Event::Spawn { site, .. }) => Some(site),
        _ => None,
    }
}

/// The function that runs in the frame; `root` in the root.
fn function_of(dag: &Dag<'_>, root: u32, f: usize) -> u32
    ensures { result ≡ function_in dag.now root f }
{
    if f == 0 {
        return root;
    }
    match dag.event(f - 1) {
        Some(Event::Call { func, .. } | Event::Spawn { func, .. }) => func,
        _ => 0,
    }
}

/// Whether they are one site.
fn same_site(a: Option<u32>, b: Option<u32>) -> bool
    ensures { result ≡ are_same a b }
{
    match (a, b) {
        (Some(a), Some(b)) => a == b,
        _ => false,
    }
}

/// Whether the frame at `f` encloses that at `g`, and was entered by the same site.
fn is_of_site(dag: &Dag<'_>, f: usize, g: usize) -> bool
    requires { f ≤ length dag.now }
    ensures { result ≡ (encloses_at dag.now f g && are_same (entered_by_of dag.now f) (entered_by_of dag.now g)) }
{
    encloses(dag, f, g) && same_site(entered_by(dag, f), entered_by(dag, g))
}

/// Whether the frame at `f` encloses that at `g`, and runs the same function.
fn is_of_function(dag: &Dag<'_>, root: u32, f: usize, g: usize) -> bool
    requires { f ≤ length dag.now }
    ensures { result ≡ (encloses_at dag.now f g && nat_eq (function_in dag.now root f) (function_in dag.now root g)) }
{
    encloses(dag, f, g) && function_of(dag, root, f) == function_of(dag, root, g)
}

/// Whether no frame that encloses the one at `g` was entered by its site.
fn is_top_site(dag: &Dag<'_>, g: usize) -> bool
    requires { g ≤ length dag.now }
    ensures { result ≡ tops_site dag.now g }
{
    for f in 0..g {
        if is_of_site(dag, f, g) {
            return false;
        }
    }
    true
}

/// Whether no frame that encloses the one at `g` runs its function.
fn is_outermost(dag: &Dag<'_>, root: u32, g: usize) -> bool
    requires { g ≤ length dag.now }
    ensures { result ≡ stands_outermost dag.now root g }
{
    for f in 0..g {
        if is_of_function(dag, root, f, g) {
            return false;
        }
    }
    true
}

/// Whether the caller of the frame at `g` is outermost of its function; so is the root, which has no caller.
fn is_top_caller(dag: &Dag<'_>, root: u32, g: usize) -> bool
    requires { g ≤ length dag.now }
    ensures { result ≡ tops_caller dag.now root g }
{
    g == 0 || is_outermost(dag, root, dag.owner(g - 1))
}

/// The work of the frame at `f`: the weights from its first position to its last.
pub(crate) fn work(dag: &Dag<'_>, f: usize) -> u128
    requires { f ≤ length dag.now }
    ensures { result ≡ work_of dag.now f }
{
    let mut sum: u128 = 0;
    for at in 0..dag.closing(f) + 1 {
        if f <= at {
            sum += u128::from(dag.weight(at));
        }
    }
    sum
}

/// Whether the frame at `f` counts in the row of this site, or in the root's where none is given.
fn is_of(dag: &Dag<'_>, site: Option<u32>, f: usize) -> bool
    ensures { result ≡ belongs dag.now site f }
{
    match site {
        None => f == 0,
        Some(_) => same_site(entered_by(dag, f), site),
    }
}

/// The number where a condition holds, else 0.
fn where_true(holds: bool, n: u128) -> u128
    ensures { result ≡ cond holds n 0 }
{
    if holds { n } else { 0 }
}

/// What position `at` adds to a row: the frame that begins there, and the weight of the position.
fn term(
    dag: &Dag<'_>,
    root: u32,
    spans: &[u128],
    places: Places<'_>,
    site: Option<u32>,
    at: usize,
) -> Row
    requires within { at ≤ length dag.now }
    requires spans { length spans.now ≡ suc (length dag.now) }
    ensures { result ≡ term_of dag.now root (λ f. get_or spans.now f 0) (holds places.entry) site at }
{
    let passes = is_in(places, at);
    let frame = passes && is_of(dag, site, at);
    let top_site = frame && is_top_site(dag, at);
    let top_caller = frame && is_top_caller(dag, root, at);
    let directly = passes && is_of(dag, site, dag.owner(at));
    Row {
        count: u64::from(frame),
        local: where_true(directly, u128::from(dag.weight(at))),
        site_count: u64::from(top_site),
        site_work: where_true(top_site, work(dag, at)),
        site_span: where_true(top_site, spans[at]),
        caller_count: u64::from(top_caller),
        caller_work: where_true(top_caller, work(dag, at)),
        caller_span: where_true(top_caller, spans[at]),
    }
}

/// The sum of two rows.
fn sum(a: Row, b: Row) -> Row
    requires { IsSmallRow (plus a b) }
    ensures { result ≡ plus a b }
{
    Row {
        count: a.count + b.count,
        local: a.local + b.local,
        site_count: a.site_count + b.site_count,
        site_work: a.site_work + b.site_work,
        site_span: a.site_span + b.site_span,
        caller_count: a.caller_count + b.caller_count,
        caller_work: a.caller_work + b.caller_work,
        caller_span: a.caller_span + b.caller_span,
    }
}

/// The row of a site, or of the root where none is given, over these positions. `spans` has the span of each frame, by
/// its first position.
pub(crate) fn row(
    dag: &Dag<'_>,
    root: u32,
    spans: &[u128],
    places: Places<'_>,
    site: Option<u32>,
) -> Row
    requires count { length spans.now ≡ suc (length dag.now) }
    requires spans { AreSpans dag.now (λ f. get_or spans.now f 0) }
    ensures { result ≡ row_of dag.now root (λ f. get_or spans.now f 0) (holds places.entry) site }
{
    let mut row = Row::default();
    for at in 0..dag.end() + 1 {
        row = sum(row, term(dag, root, spans, places, site, at));
    }
    row
}
