//! Lists that are open at both ends.
ghost use Rattle.std.specs.Prelude.{◌≡◌, ◌+◌, ◌≤◌, ◌++◌, true, false, IfOk};
ghost use Rattle.std.specs.VecDeque.{deque_len, deque_capacity};

use std::alloc::{AllocError, Global};
use std::collections::VecDeque;

/// The list of the one and then that of the other, where the one of the two that takes the other's elements has room
/// for them.
pub(crate) fn chained<T: Drop>(
    left: VecDeque<T>,
    right: VecDeque<T>,
    into_left: bool,
) -> VecDeque<T>
    requires left { into_left ≡ true → deque_len left + deque_len right ≤ deque_capacity left }
    requires right { into_left ≡ false → deque_len left + deque_len right ≤ deque_capacity right }
    ensures { result.items ≡ left.items ++ right.items }
{
    let mut left = left;
    let mut right = right;
    if into_left {
        while let Some(first) = right.pop_front() {
            left.push_back_reserved(first);
        }
        left
    } else {
        while let Some(last) = left.pop_back() {
            right.push_front_reserved(last);
        }
        right
    }
}

/// The same list once more.
pub(crate) fn copied<T: Copy>(alloc: Global, list: &VecDeque<T>) -> Result<VecDeque<T>, AllocError>
    ensures { IfOk result (λ l. l.items ≡ list.now.items) }
{
    let (front, back) = list.as_slices();
    let mut all = Vec::with_capacity(alloc, list.len())?;
    all.extend_from_slice(front)?;
    all.extend_from_slice(back)?;
    Ok(VecDeque::from_vec(all))
}
