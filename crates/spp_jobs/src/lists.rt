//! Lists of which there is one element for each part, joined.

ghost use Rattle.std.specs.Prelude.{◌≡◌, ◌+◌, ◌<◌, ◌≤◌, ◌++◌, OnOk};
ghost use Rattle.std.specs.VecDeque.{deque_len, deque_capacity};

use std::alloc::AllocError;
use std::collections::VecDeque;

/// Makes room in the longer of the two lists for the elements of the other. Their elements stay.
///
/// # Errors
///
/// Where an allocation failed.
pub(crate) fn make_room<T: Drop>(
    left: &mut VecDeque<T>,
    right: &mut VecDeque<T>,
) -> Result<(), AllocError>
    ensures left { left.new.items ≡ left.old.items }
    ensures right { right.new.items ≡ right.old.items }
    ensures left_room { OnOk result (deque_len right.new ≤ deque_len left.new → deque_len left.new + deque_len right.new ≤ deque_capacity left.new) }
    ensures right_room { OnOk result (deque_len left.new < deque_len right.new → deque_len left.new + deque_len right.new ≤ deque_capacity right.new) }
{
    if right.len() <= left.len() {
        left.reserve(right.len())
    } else {
        right.reserve(left.len())
    }
}

/// The list of the one and then that of the other. It moves the elements of the shorter of the two, for which there is
/// room in the other.
pub(crate) fn chained<T: Drop>(left: VecDeque<T>, right: VecDeque<T>) -> VecDeque<T>
    requires left { deque_len right ≤ deque_len left → deque_len left + deque_len right ≤ deque_capacity left }
    requires right { deque_len left < deque_len right → deque_len left + deque_len right ≤ deque_capacity right }
    ensures { result.items ≡ left.items ++ right.items }
{
    let mut left = left;
    let mut right = right;
    if right.len() <= left.len() {
        while let Some(first) = right.pop_front() {
            left.push_back_reserved(first);
        }
        return left;
    }
    while let Some(last) = left.pop_back() {
        right.push_front_reserved(last);
    }
    right
}
