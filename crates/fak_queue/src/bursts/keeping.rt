//! A bundle takes the items of its burst.

ghost use Rattle.std.specs.Prelude.{◌≡◌, ◌+◌, ◌++◌, ◌≤◌, drop, take};
ghost use Rattle.std.specs.VecDeque.{deque_capacity, deque_len};

use std::collections::VecDeque;

/// Moves the first items to the back of `kept`, which has room for them.
pub(crate) fn keep<T: Drop>(items: &mut VecDeque<T>, kept: &mut VecDeque<T>, count: u64)
    requires some { count ≤ deque_len items.old }
    requires room { deque_len kept.old + count ≤ deque_capacity kept.old }
    ensures items { items.new.items ≡ drop count items.old.items }
    ensures kept { kept.new.items ≡ kept.old.items ++ take count items.old.items }
    ensures capacity { deque_capacity kept.new ≡ deque_capacity kept.old }
    ensures items_capacity { deque_capacity items.new ≡ deque_capacity items.old }
{
    for _ in 0..count {
        let Some(item) = items.pop_front() else {
            unreachable!()
        };
        kept.push_back_reserved(item);
    }
}
