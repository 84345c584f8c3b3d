//! A queue and a seat of it as one value, whose calls have no condition.

ghost use Rattle.std.specs.Prelude.{◌≡◌, ◌↔◌, ◌+◌, [], IsTrue, MatchResult};
ghost use Rattle.fak_model.specs.declared.queue.Kind.TheVariants.{Close};
ghost use Rattle.fak_model.specs.Queue.{Has, lower_count, upper_count};
ghost use Rattle.fak_queue.specs.Drained.{IsDrained};
ghost use Rattle.fak_queue.specs.Queues.{Deletes, DrawsIfGranted, Inserts, IsIdleSeat, Makes, ShutsAs, drawn_by};
ghost use Rattle.fak_queue.specs.Refusals.{RefusesDeletion, RefusesInsertion};
ghost use Rattle.fak_queue.specs.Retries.{DeletesAfterEmpty, InsertsAfterFull};
ghost use Rattle.fak_queue.specs.Retries.{RefusesWaitingDeletion, RefusesWaitingInsertion};

use crate::fault::{DeleteFault, InsertFault};
use crate::in_use::InUse;
use crate::queue::Queue;
use crate::seat::Seat;
use std::fmt;
use std::sync::Wait;

/// A queue with an idle seat of it. The type keeps what each call of the queue requires, so that the calls of a port
/// require nothing. What they ensure is stated of the port's seat, before and after.
#[derive(Drop)]
pub struct Port<'q, T> {
    /// The queue.
    pub queue: &'q Queue<T>,
    /// The seat, which belongs to this queue and is idle.
    pub seat: Seat<T>,
    pub ghost idle: { IsIdleSeat queue.now.object seat },
}

impl<'q, T: Drop> Port<'q, T> {
    /// The port of this queue with this seat.
    pub fn new(queue: &'q Queue<T>, seat: Seat<T>) -> Port<'q, T>
        requires { IsIdleSeat queue.now.object seat }
        ensures queue { result.queue.now ≡ queue.now }
        ensures seat { result.seat ≡ seat }
    {
        Port { queue, seat }
    }

    /// Inserts the item by one attempt, and returns its ticket.
    ///
    /// # Errors
    ///
    /// `Worn`, `Closed` or `Full`, in this order; the item comes back.
    pub fn insert<R: Wait>(&mut self, rt: &R, item: T) -> Result<u64, InsertFault<T>>
        ensures queue { self.new.queue ≡ self.old.queue }
        ensures left { DrawsIfGranted result self.old.seat self.new.seat }
        ensures call { MatchResult result (λ k. Inserts self.old.queue.now.size k item self.old.seat self.new.seat)
            (RefusesInsertion self.old.queue.now.size item self.old.seat self.new.seat) }
    {
        self.queue.insert(rt, &mut self.seat, item)
    }

    /// Deletes the oldest item by one attempt, and returns its ticket and the item.
    ///
    /// # Errors
    ///
    /// `Worn` or `Empty`, in this order.
    pub fn delete<R: Wait>(&mut self, rt: &R) -> Result<(u64, T), DeleteFault>
        ensures queue { self.new.queue ≡ self.old.queue }
        ensures left { DrawsIfGranted result self.old.seat self.new.seat }
        ensures call { MatchResult result (λ r. Deletes self.old.queue.now.size r.0 r.1 self.old.seat self.new.seat)
            (RefusesDeletion self.old.queue.now.size self.old.seat self.new.seat) }
    {
        self.queue.delete(rt, &mut self.seat)
    }

    /// Inserts the item, and waits while the queue is full. Returns its ticket.
    ///
    /// # Errors
    ///
    /// `Worn` or `Closed`, in this order, and never `Full`; the item comes back.
    pub fn wait_insert<R: Wait>(&mut self, rt: &R, item: T) -> Result<u64, InsertFault<T>>
        ensures queue { self.new.queue ≡ self.old.queue }
        ensures left { DrawsIfGranted result self.old.seat self.new.seat }
        ensures call { MatchResult result
            (λ k. InsertsAfterFull self.old.queue.now.size k item self.old.seat self.new.seat)
            (RefusesWaitingInsertion self.old.queue.now.size item self.old.seat self.new.seat) }
    {
        self.queue.wait_insert(rt, &mut self.seat, item)
    }

    /// Deletes the oldest item, and waits while the queue is empty. Returns its ticket and the item.
    ///
    /// # Errors
    ///
    /// `Worn`, and never `Empty`.
    pub fn wait_delete<R: Wait>(&mut self, rt: &R) -> Result<(u64, T), DeleteFault>
        ensures queue { self.new.queue ≡ self.old.queue }
        ensures left { DrawsIfGranted result self.old.seat self.new.seat }
        ensures call { MatchResult result
            (λ r. DeletesAfterEmpty self.old.queue.now.size r.0 r.1 self.old.seat self.new.seat)
            (RefusesWaitingDeletion self.old.seat self.new.seat) }
    {
        self.queue.wait_delete(rt, &mut self.seat)
    }

    /// Shuts the queue: insertions are refused from now on, deletions go on. Returns whether it was open before.
    pub fn shut(&mut self) -> bool
        ensures queue { self.new.queue ≡ self.old.queue }
        ensures left { drawn_by self.new.seat ≡ drawn_by self.old.seat }
        ensures call { ShutsAs self.old.queue.now.size result self.old.seat self.new.seat }
    {
        self.queue.shut(&mut self.seat)
    }

    /// How many cells are in use, and whether the queue is shut, by one load (`Queue::cells_in_use`).
    pub fn cells_in_use(&mut self) -> InUse
        ensures queue { self.new.queue ≡ self.old.queue }
        ensures left { drawn_by self.new.seat ≡ drawn_by self.old.seat }
        ensures makes { Makes self.old.queue.now.size [] self.old.seat self.new.seat }
        ensures count { result.count ≡ upper_count self.new.seat.seen }
        ensures shut { IsTrue result.is_shut ↔ Has Close self.new.seat.seen }
    {
        self.queue.cells_in_use(&mut self.seat)
    }

    /// How many items are ready, by one load (`Queue::items_ready`).
    pub fn items_ready(&mut self) -> i64
        ensures queue { self.new.queue ≡ self.old.queue }
        ensures left { drawn_by self.new.seat ≡ drawn_by self.old.seat }
        ensures makes { Makes self.old.queue.now.size [] self.old.seat self.new.seat }
        ensures count { result ≡ lower_count self.new.seat.seen }
    {
        self.queue.items_ready(&mut self.seat)
    }

    /// Whether the queue is shut with no cell in use, so that no deletion finds an item from now on.
    pub fn is_drained(&mut self) -> bool
        ensures queue { self.new.queue ≡ self.old.queue }
        ensures left { drawn_by self.new.seat ≡ drawn_by self.old.seat }
        ensures makes { Makes self.old.queue.now.size [] self.old.seat self.new.seat }
        ensures drained { IsTrue result ↔ IsDrained self.new.seat.seen }
    {
        self.queue.is_drained(&mut self.seat)
    }

    /// Leaves the queue to others for a while, if a call has found that they use it too (`Queue::pause`).
    pub fn pause(&mut self)
        ensures queue { self.new.queue ≡ self.old.queue }
        ensures seat { self.new.seat ≡ self.old.seat }
    {
        self.queue.pause(&mut self.seat)
    }

    /// How many tickets are left of the seat's stint.
    pub fn left(&self) -> u64
        ensures { result + drawn_by self.now.seat ≡ self.now.seat.stint }
    {
        self.seat.left()
    }

    /// The seat, which `Tally::of` or `Queue::join` takes.
    pub fn into_seat(self) -> Seat<T>
        ensures idle { IsIdleSeat self.entry.queue.now.object result }
        ensures seat { result ≡ self.entry.seat }
    {
        let Port { queue: _, seat } = self;
        seat
    }
}

impl<'q, T> fmt::Debug for Port<'q, T> {
    fn fmt<W: fmt::Write>(&self, f: &mut fmt::Formatter<W>) -> fmt::Result {
        f.debug_struct("Port")
            .field("queue", self.queue)
            .field("seat", &self.seat)
            .finish()
    }
}
