//! Items are copied from an array into a deque, and back.

ghost use Rattle.std.specs.Prelude.{◌≡◌, ◌≤◌, ◌++◌, drop, length, min, take};
ghost use Rattle.std.specs.VecDeque.{deque_capacity, deque_len};

use std::collections::VecDeque;

/// The smaller of two numbers.
pub(crate) fn least(a: usize, b: usize) -> usize
    ensures value { result ≡ min a b }
    ensures first { result ≤ a }
    ensures second { result ≤ b }
{
    if a <= b { a } else { b }
}

/// Puts the first items of an array, this many, into a deque in place of what it had.
pub(crate) fn take_in(items: &[u64], held: &mut VecDeque<u64>, count: usize)
    requires some { count ≤ length items.now }
    requires room { count ≤ deque_capacity held.old }
    ensures items { held.new.items ≡ take count items.now }
    ensures capacity { deque_capacity held.new ≡ deque_capacity held.old }
{
    held.clear();
    for i in 0..count {
        held.push_back_reserved(items[i]);
    }
}

/// Moves the first items of a deque to the first places of an array, as many as there are places. Returns how many they are. It stays a
/// call: else the function that calls it would call nothing, and LLVM would have it write below the stack, which a kernel's interrupts
/// overwrite.
#[inline(never)]
pub(crate) fn hand_out(held: &mut VecDeque<u64>, items: &mut [u64]) -> u64
    ensures many { result ≡ min (length held.old.items) (length items.old) }
    ensures len { length items.new ≡ length items.old }
    ensures items { items.new ≡ take result held.old.items ++ drop result items.old }
    ensures held { held.new.items ≡ drop result held.old.items }
    ensures capacity { deque_capacity held.new ≡ deque_capacity held.old }
{
    let count = least(held.len(), items.len());
    for i in 0..count {
        match held.pop_front() {
            Some(item) => items[i] = item,
            None => unreachable!(),
        }
    }
    count as u64
}
