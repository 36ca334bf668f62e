//! Shares of neighbouring parts, added up.

ghost use Rattle.std.specs.Prelude.{◌≡◌, ℕ, IfOk, IfErr};
ghost use Rattle.spp_dag.specs.Shares.{plus};
ghost use Rattle.spp_site.specs.Rows.{Fits};
ghost use Rattle.spp_site.specs.Table.{row_at, IsSum};

use spp_book::JoinRefused;
use spp_site::Share;

/// The sum of two shares: the one with fewer rows is added to the other.
///
/// # Errors
///
/// Where an allocation failed; both are handed back.
pub(crate) fn summed(left: Share, right: Share) -> Result<Share, JoinRefused<Share>>
    requires root_fits { Fits (plus left.root right.root) }
    requires sites_fit { (s : ℕ) → Fits (plus (row_at left s) (row_at right s)) }
    ensures sums { IfOk result (IsSum left right) }
    ensures back { IfErr result (λ r. (r.left ≡ left) × (r.right ≡ right)) }
{
    let mut left = left;
    let mut right = right;
    if right.row_count() <= left.row_count() {
        return match left.merge(&right) {
            Ok(()) => Ok(left),
            Err(_) => Err(JoinRefused { left, right }),
        };
    }
    match right.merge(&left) {
        Ok(()) => Ok(right),
        Err(_) => Err(JoinRefused { left, right }),
    }
}
