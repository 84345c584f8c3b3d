//! The calls on the queue by a seat that can sleep. They leave its notes as they are.

ghost use Rattle.std.specs.Prelude.{◌≡◌, ◌↔◌, ℕ, [], IsTrue, MatchOption, MatchResult};
ghost use Rattle.fak_model.specs.declared.queue.Kind.TheVariants.{Close};
ghost use Rattle.fak_model.specs.Queue.{Has, lower_count, upper_count};
ghost use Rattle.fak_queue.specs.declared.state.SeatState.TheVariants.{Deleting, Idle, Inserting};
ghost use Rattle.fak_queue.specs.Drained.{IsDrained};
ghost use Rattle.fak_queue.specs.Queues.{ClaimsIn, ClaimsOut, Deletes, DrawsIfGranted, Fills, Inserts, Makes, ShutsAs, Takes};
ghost use Rattle.fak_queue.specs.Queues.{WaitsToFill, WaitsToTake, drawn_by, state_of};
ghost use Rattle.fak_queue.specs.Refusals.{RefusesDeletion, RefusesDeletionBy, RefusesInsertion, RefusesInsertionBy};
ghost use Rattle.fak_queue.specs.SleeperSeats.{KeepsNotes};

use crate::fault::{DeleteFault, InsertFault};
use crate::in_use::InUse;
use crate::queue::Queue;
use crate::sleeper_seat::SleeperSeat;
use std::sync::Wait;

impl<T: Drop> SleeperSeat<T> {
    /// Inserts the item by one attempt, as `Queue::insert` does, and returns its ticket. The seat must belong to this queue
    /// and be idle.
    ///
    /// # Errors
    ///
    /// `Worn`, `Closed` or `Full`, in this order; the item comes back.
    pub fn insert<R: Wait>(
        &mut self,
        rt: &R,
        queue: &Queue<T>,
        item: T,
    ) -> Result<u64, InsertFault<T>>
        requires object { self.old.seat.object ≡ queue.now.object }
        requires idle { state_of self.old.seat ≡ Idle }
        ensures object { self.new.seat.object ≡ self.old.seat.object }
        ensures notes { KeepsNotes queue.now.size self.old self.new }
        ensures state { state_of self.new.seat ≡ Idle }
        ensures left { DrawsIfGranted result self.old.seat self.new.seat }
        ensures call { MatchResult result (λ k. Inserts queue.now.size k item self.old.seat self.new.seat)
            (RefusesInsertion queue.now.size item self.old.seat self.new.seat) }
    {
        queue.insert_by(rt, &mut self.parts, item)
    }

    /// Deletes the oldest item by one attempt, as `Queue::delete` does, and returns its ticket and the item. The seat must
    /// belong to this queue and be idle.
    ///
    /// # Errors
    ///
    /// `Worn` or `Empty`, in this order.
    pub fn delete<R: Wait>(&mut self, rt: &R, queue: &Queue<T>) -> Result<(u64, T), DeleteFault>
        requires object { self.old.seat.object ≡ queue.now.object }
        requires idle { state_of self.old.seat ≡ Idle }
        ensures object { self.new.seat.object ≡ self.old.seat.object }
        ensures notes { KeepsNotes queue.now.size self.old self.new }
        ensures state { state_of self.new.seat ≡ Idle }
        ensures left { DrawsIfGranted result self.old.seat self.new.seat }
        ensures call { MatchResult result (λ r. Deletes queue.now.size r.0 r.1 self.old.seat self.new.seat)
            (RefusesDeletion queue.now.size self.old.seat self.new.seat) }
    {
        queue.delete_by(rt, &mut self.parts)
    }

    /// Claims room for the item and draws its ticket, as `Queue::claim_insert` does. The seat keeps the item until `try_fill`.
    /// The seat must belong to this queue and be idle.
    ///
    /// # Errors
    ///
    /// `Worn`, `Closed` or `Full`, in this order; the item comes back, and the seat is idle.
    pub fn claim_insert(&mut self, queue: &Queue<T>, item: T) -> Result<u64, InsertFault<T>>
        requires object { self.old.seat.object ≡ queue.now.object }
        requires idle { state_of self.old.seat ≡ Idle }
        ensures object { self.new.seat.object ≡ self.old.seat.object }
        ensures notes { KeepsNotes queue.now.size self.old self.new }
        ensures state { MatchResult result (λ k. state_of self.new.seat ≡ Inserting k) (λ _. state_of self.new.seat ≡ Idle) }
        ensures left { DrawsIfGranted result self.old.seat self.new.seat }
        ensures call { MatchResult result (λ k. ClaimsIn queue.now.size k item self.old.seat self.new.seat)
            (RefusesInsertion queue.now.size item self.old.seat self.new.seat) }
    {
        self.claim_insert_noting(queue, item, &mut false)
    }

    /// As `claim_insert`. `withdraws` becomes whether a claim that was refused had counted, and was withdrawn: only then the seat owes a
    /// look for a sender.
    ///
    /// # Errors
    ///
    /// As `claim_insert`.
    pub fn claim_insert_noting(
        &mut self,
        queue: &Queue<T>,
        item: T,
        withdraws: &mut bool,
    ) -> Result<u64, InsertFault<T>>
        requires object { self.old.seat.object ≡ queue.now.object }
        requires idle { state_of self.old.seat ≡ Idle }
        ensures object { self.new.seat.object ≡ self.old.seat.object }
        ensures notes { KeepsNotes queue.now.size self.old self.new }
        ensures state { MatchResult result (λ k. state_of self.new.seat ≡ Inserting k) (λ _. state_of self.new.seat ≡ Idle) }
        ensures left { DrawsIfGranted result self.old.seat self.new.seat }
        ensures call { MatchResult result (λ k. ClaimsIn queue.now.size k item self.old.seat self.new.seat)
            (RefusesInsertion queue.now.size item self.old.seat self.new.seat) }
        ensures withdraws { MatchResult result (λ _. Unit {0})
            (RefusesInsertionBy withdraws.new queue.now.size self.old.seat self.new.seat) }
    {
        queue.claim_insert_by(&mut self.parts, item, withdraws)
    }

    /// If it is the cell's turn, moves the item into it, ends the insertion and returns its ticket. Else the seat is as
    /// before. The seat must belong to this queue and have claimed room.
    pub fn try_fill(&mut self, queue: &Queue<T>) -> Option<u64>
        requires object { self.old.seat.object ≡ queue.now.object }
        requires inserting { (k : ℕ) × (state_of self.old.seat ≡ Inserting k) }
        ensures object { self.new.seat.object ≡ self.old.seat.object }
        ensures notes { KeepsNotes queue.now.size self.old self.new }
        ensures state { MatchOption result (state_of self.new.seat ≡ state_of self.old.seat)
            (λ _. state_of self.new.seat ≡ Idle) }
        ensures left { drawn_by self.new.seat ≡ drawn_by self.old.seat }
        ensures call { (k : ℕ) → state_of self.old.seat ≡ Inserting k → MatchOption result
            (WaitsToFill queue.now.size k self.old.seat self.new.seat)
            (λ j. (j ≡ k) × Fills queue.now.size k self.old.seat self.new.seat) }
    {
        queue.try_fill_by(&mut self.parts)
    }

    /// Claims an item and draws its ticket, as `Queue::claim_delete` does. `try_take` then hands the item out. The seat must
    /// belong to this queue and be idle.
    ///
    /// # Errors
    ///
    /// `Worn` or `Empty`, in this order; the seat is idle.
    pub fn claim_delete(&mut self, queue: &Queue<T>) -> Result<u64, DeleteFault>
        requires object { self.old.seat.object ≡ queue.now.object }
        requires idle { state_of self.old.seat ≡ Idle }
        ensures object { self.new.seat.object ≡ self.old.seat.object }
        ensures notes { KeepsNotes queue.now.size self.old self.new }
        ensures state { MatchResult result (λ k. state_of self.new.seat ≡ Deleting k) (λ _. state_of self.new.seat ≡ Idle) }
        ensures left { DrawsIfGranted result self.old.seat self.new.seat }
        ensures call { MatchResult result (λ k. ClaimsOut queue.now.size k self.old.seat self.new.seat)
            (RefusesDeletion queue.now.size self.old.seat self.new.seat) }
    {
        self.claim_delete_noting(queue, &mut false)
    }

    /// As `claim_delete`. `withdraws` becomes whether a claim that was refused had counted, and was withdrawn: only then the seat owes a
    /// look for a receiver.
    ///
    /// # Errors
    ///
    /// As `claim_delete`.
    pub fn claim_delete_noting(
        &mut self,
        queue: &Queue<T>,
        withdraws: &mut bool,
    ) -> Result<u64, DeleteFault>
        requires object { self.old.seat.object ≡ queue.now.object }
        requires idle { state_of self.old.seat ≡ Idle }
        ensures object { self.new.seat.object ≡ self.old.seat.object }
        ensures notes { KeepsNotes queue.now.size self.old self.new }
        ensures state { MatchResult result (λ k. state_of self.new.seat ≡ Deleting k) (λ _. state_of self.new.seat ≡ Idle) }
        ensures left { DrawsIfGranted result self.old.seat self.new.seat }
        ensures call { MatchResult result (λ k. ClaimsOut queue.now.size k self.old.seat self.new.seat)
            (RefusesDeletion queue.now.size self.old.seat self.new.seat) }
        ensures withdraws { MatchResult result (λ _. Unit {0})
            (RefusesDeletionBy withdraws.new queue.now.size self.old.seat self.new.seat) }
    {
        queue.claim_delete_by(&mut self.parts, withdraws)
    }

    /// If it is the cell's turn, moves the item out of it, ends the deletion and returns its ticket and the item. Else
    /// the seat is as before. The seat must belong to this queue and have claimed an item.
    pub fn try_take(&mut self, queue: &Queue<T>) -> Option<(u64, T)>
        requires object { self.old.seat.object ≡ queue.now.object }
        requires deleting { (k : ℕ) × (state_of self.old.seat ≡ Deleting k) }
        ensures object { self.new.seat.object ≡ self.old.seat.object }
        ensures notes { KeepsNotes queue.now.size self.old self.new }
        ensures state { MatchOption result (state_of self.new.seat ≡ state_of self.old.seat)
            (λ _. state_of self.new.seat ≡ Idle) }
        ensures left { drawn_by self.new.seat ≡ drawn_by self.old.seat }
        ensures call { (k : ℕ) → state_of self.old.seat ≡ Deleting k → MatchOption result
            (WaitsToTake queue.now.size k self.old.seat self.new.seat)
            (λ r. (r.0 ≡ k) × Takes queue.now.size k r.1 self.old.seat self.new.seat) }
    {
        queue.try_take_by(&mut self.parts)
    }

    /// Shuts the queue: insertions are refused from now on, deletions go on. Returns whether it was open before. The seat must
    /// belong to this queue and be idle.
    pub fn shut(&mut self, queue: &Queue<T>) -> bool
        requires object { self.old.seat.object ≡ queue.now.object }
        requires idle { state_of self.old.seat ≡ Idle }
        ensures object { self.new.seat.object ≡ self.old.seat.object }
        ensures notes { KeepsNotes queue.now.size self.old self.new }
        ensures state { state_of self.new.seat ≡ Idle }
        ensures left { drawn_by self.new.seat ≡ drawn_by self.old.seat }
        ensures call { ShutsAs queue.now.size result self.old.seat self.new.seat }
    {
        queue.shut_by(&mut self.parts)
    }

    /// Leaves the queue to others for a while, if a call of the seat has found that they use it too (`Queue::pause`).
    pub fn pause(&mut self, queue: &Queue<T>)
        ensures { self.new ≡ self.old }
    {
        queue.pause_by(&mut self.parts);
    }

    /// How many cells are in use, and whether the queue is shut, by one load (`Queue::cells_in_use`). The seat must belong to
    /// this queue. It may be in a call.
    pub fn cells_in_use(&mut self, queue: &Queue<T>) -> InUse
        requires { self.old.seat.object ≡ queue.now.object }
        ensures object { self.new.seat.object ≡ self.old.seat.object }
        ensures notes { KeepsNotes queue.now.size self.old self.new }
        ensures state { state_of self.new.seat ≡ state_of self.old.seat }
        ensures left { drawn_by self.new.seat ≡ drawn_by self.old.seat }
        ensures makes { Makes queue.now.size [] self.old.seat self.new.seat }
        ensures count { result.count ≡ upper_count self.new.seat.seen }
        ensures shut { IsTrue result.is_shut ↔ Has Close self.new.seat.seen }
    {
        queue.cells_in_use_by(&mut self.parts)
    }

    /// How many items are ready, by one load (`Queue::items_ready`). The seat must belong to this queue. It may be in a call.
    pub fn items_ready(&mut self, queue: &Queue<T>) -> i64
        requires { self.old.seat.object ≡ queue.now.object }
        ensures object { self.new.seat.object ≡ self.old.seat.object }
        ensures notes { KeepsNotes queue.now.size self.old self.new }
        ensures state { state_of self.new.seat ≡ state_of self.old.seat }
        ensures left { drawn_by self.new.seat ≡ drawn_by self.old.seat }
        ensures makes { Makes queue.now.size [] self.old.seat self.new.seat }
        ensures count { result ≡ lower_count self.new.seat.seen }
    {
        queue.items_ready_by(&mut self.parts)
    }

    /// Whether the queue is shut with no cell in use. Then no deletion finds an item from now on
    /// (`laws::a_drained_queue_stays_empty`). The seat must belong to this queue. It may be in a call.
    pub fn is_drained(&mut self, queue: &Queue<T>) -> bool
        requires { self.old.seat.object ≡ queue.now.object }
        ensures object { self.new.seat.object ≡ self.old.seat.object }
        ensures notes { KeepsNotes queue.now.size self.old self.new }
        ensures state { state_of self.new.seat ≡ state_of self.old.seat }
        ensures left { drawn_by self.new.seat ≡ drawn_by self.old.seat }
        ensures makes { Makes queue.now.size [] self.old.seat self.new.seat }
        ensures drained { IsTrue result ↔ IsDrained self.new.seat.seen }
    {
        let in_use = self.cells_in_use(queue);
        in_use.is_shut && in_use.count <= 0
    }
}
