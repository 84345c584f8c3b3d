//! The items of a burst.

ghost use Rattle.std.specs.Prelude.{◌≡◌, ◌≤◌, length, take};
ghost use Rattle.std.specs.VecDeque.{deque_len};

use std::collections::VecDeque;
use std::marker::Model;

/// The first items of a deque, one for each name that takes part in a burst. They stay where they are. Contracts see their list.
#[derive(Drop)]
pub(crate) struct FirstItems<'a, T> {
    items: &'a VecDeque<T>,
    count: u64,
}

impl<'a, T> Model for FirstItems<'a, T> {
    ghost use Rattle.std.specs.Prelude.{◌≤◌, List, length, take};

    ghost Value = { List T };

    ghost view = { λ f. take f.count f.items.now.items };

    ghost invariant = { λ f. f.count ≤ length f.items.now.items };
}

impl<'a, T> FirstItems<'a, T> {
    /// As many of these items.
    pub(crate) fn of(items: &'a VecDeque<T>, count: u64) -> FirstItems<'a, T>
        requires { count ≤ deque_len items.now }
        ensures { result ≡ take count items.now.items }
    {
        FirstItems { items, count }
    }

    /// How many they are.
    pub(crate) fn len(&self) -> u64
        ensures { result ≡ length self.now }
    {
        self.count
    }
}
