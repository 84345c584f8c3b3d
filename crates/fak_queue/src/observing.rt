//! Calls that observe a queue and leave no mark.

ghost use Rattle.std.specs.Prelude.{◌≡◌, ◌↔◌, [], IsTrue};
ghost use Rattle.fak_model.specs.declared.queue.Kind.TheVariants.{Close};
ghost use Rattle.fak_model.specs.Queue.{Has, lower_count, upper_count};
ghost use Rattle.fak_queue.specs.Drained.{IsDrained};
ghost use Rattle.fak_queue.specs.Queues.{Makes, drawn_by, state_of};

use crate::in_use::InUse;
use crate::queue::Queue;
use crate::seat::Seat;

impl<T: Drop> Queue<T> {
    /// How many cells are in use, and whether the queue is shut: one load, which waits for nobody. The seat may be in a call.
    pub fn cells_in_use(&self, seat: &mut Seat<T>) -> InUse
        requires { seat.old.object ≡ self.now.object }
        ensures object { seat.new.object ≡ seat.old.object }
        ensures state { state_of seat.new ≡ state_of seat.old }
        ensures left { drawn_by seat.new ≡ drawn_by seat.old }
        ensures makes { Makes self.now.size [] seat.old seat.new }
        ensures count { result.count ≡ upper_count seat.new.seen }
        ensures shut { IsTrue result.is_shut ↔ Has Close seat.new.seen }
    {
        self.cells_in_use_by(&mut seat.parts)
    }

    /// How many items are ready: insertions that have ended, minus the deletions begun and not withdrawn. One load, which waits
    /// for nobody. The seat may be in a call. Below 0 while deletions are refused.
    pub fn items_ready(&self, seat: &mut Seat<T>) -> i64
        requires { seat.old.object ≡ self.now.object }
        ensures object { seat.new.object ≡ seat.old.object }
        ensures state { state_of seat.new ≡ state_of seat.old }
        ensures left { drawn_by seat.new ≡ drawn_by seat.old }
        ensures makes { Makes self.now.size [] seat.old seat.new }
        ensures count { result ≡ lower_count seat.new.seen }
    {
        self.items_ready_by(&mut seat.parts)
    }

    /// Whether the queue is shut with no cell in use. Then no deletion finds an item from now on
    /// (`laws::a_drained_queue_stays_empty`).
    pub fn is_drained(&self, seat: &mut Seat<T>) -> bool
        requires { seat.old.object ≡ self.now.object }
        ensures object { seat.new.object ≡ seat.old.object }
        ensures state { state_of seat.new ≡ state_of seat.old }
        ensures left { drawn_by seat.new ≡ drawn_by seat.old }
        ensures makes { Makes self.now.size [] seat.old seat.new }
        ensures drained { IsTrue result ↔ IsDrained seat.new.seen }
    {
        let in_use = self.cells_in_use(seat);
        in_use.is_shut && in_use.count <= 0
    }
}
