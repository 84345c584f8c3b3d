//! What a queue has left when it is closed.

ghost use Rattle.std.specs.Prelude.{◌≡◌, [], ◌∷◌, MatchOption};
ghost use Rattle.std.specs.Iterator.{YieldsFirst, item_count};

use atomic_table::Closed;
use std::alloc::Global;
use std::fmt;
use std::marker::Model;

/// The items that a closed queue had left: an iterator over them, oldest first. Contracts see the list of them.
pub struct Rest<T> {
    pub(crate) closed: Closed<Option<T>, Global>,
    pub(crate) size: u64,
    pub(crate) next: u64,
    pub(crate) count: u64,
}

impl<T> Model for Rest<T> {
    ghost use Rattle.std.specs.Prelude.{List};
    ghost use Rattle.std.specs.Slots.{slots_items};
    ghost use Rattle.fak_queue.specs.Left.{items_left};
    ghost use Rattle.fak_queue.specs.Rests.{IsRest};

    ghost Value = { List T };

    ghost view = { λ r. items_left r.size (slots_items r.closed.slots) r.next r.count };

    ghost invariant = { λ r. IsRest r.closed r.size r.next r.count };
}

impl<T: Drop> Iterator for Rest<T> {
    type Item = T;

    ghost next_gives = { YieldsFirst (λ left. left) };

    ghost remaining = { item_count (λ left. left) };

    /// Takes out the oldest item that is left.
    fn next(&mut self) -> Option<T>
        ensures { MatchOption result ((self.old ≡ []) × (self.new ≡ [])) (λ x. self.old ≡ x ∷ self.new) }
    {
        if self.count == 0 {
            return None;
        }
        let cell = (self.next % self.size) as usize;
        let item = self.closed.take(cell);
        self.closed.slots.put(cell, None);
        self.next += 1;
        self.count -= 1;
        match item {
            Some(item) => Some(item),
            None => unreachable!(),
        }
    }
}

impl<T> fmt::Debug for Rest<T> {
    fn fmt<W: fmt::Write>(&self, f: &mut fmt::Formatter<W>) -> fmt::Result {
        f.debug_struct("Rest")
            .field("left", &self.count)
            .finish_non_exhaustive()
    }
}

impl<T: Drop> Drop for Rest<T> {
    fn drop(self) {
        let Self {
            mut closed,
            size: _,
            next: _,
            count: _,
        } = self;
        let mut cell = 0;
        while cell < closed.slot_count() {
            drop(closed.take(cell));
            cell += 1;
        }
        closed.free();
    }
}
