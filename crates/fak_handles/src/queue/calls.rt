//! The calls of a seat. Each tests the state of the seat, so none has a condition.

ghost use Rattle.std.specs.Prelude.{◌≡◌, ◌↔◌, ◌≤ℤ◌, pos, IsTrue, MatchOption};
ghost use Rattle.fak_model.specs.declared.queue.Kind.TheVariants.{Close};
ghost use Rattle.fak_model.specs.Queue.{Has, lower_count, upper_count};
ghost use Rattle.fak_queue.specs.declared.state.SeatState.TheVariants.{Idle};
ghost use Rattle.fak_queue.specs.Drained.{IsDrained};
ghost use Rattle.fak_queue.specs.Queues.{state_of};
ghost use Rattle.std.specs.Arc.{arc_value};
ghost use Rattle.fak_handles.specs.queue.Calls.{AsksToDelete, AsksToDeleteOnce, AsksToFill, AsksToInsert, AsksToInsertOnce, AsksToShut, AsksToTake, IsBusy, IsNotDeleting, IsNotInserting};
ghost use Rattle.fak_handles.specs.queue.Observing.{Observes};

use crate::queue::seat::QueueDesk;
use fak_queue::{DeleteFault, InUse, InsertFault, SeatState};

impl QueueDesk {
    /// `Queue::claim_insert`; `None` if the seat is not idle.
    pub fn claim_insert(&mut self, item: u64) -> Option<Result<u64, InsertFault<u64>>>
        ensures queue { arc_value self.new.queue ≡ arc_value self.old.queue }
        ensures call { MatchOption result (IsBusy self.old self.new) (λ r. AsksToInsert item r self.old self.new) }
    {
        match self.seat.state() {
            SeatState::Idle => Some(self.queue.claim_insert(&mut self.seat, item)),
            SeatState::Inserting(_) | SeatState::Deleting(_) => None,
        }
    }

    /// `Queue::try_fill`; `None` if the seat is not inserting.
    pub fn try_fill(&mut self) -> Option<Option<u64>>
        ensures queue { arc_value self.new.queue ≡ arc_value self.old.queue }
        ensures call { MatchOption result (IsNotInserting self.old self.new) (λ r. AsksToFill r self.old self.new) }
    {
        match self.seat.state() {
            SeatState::Inserting(_) => Some(self.queue.try_fill(&mut self.seat)),
            SeatState::Idle | SeatState::Deleting(_) => None,
        }
    }

    /// `Queue::claim_delete`; `None` if the seat is not idle.
    pub fn claim_delete(&mut self) -> Option<Result<u64, DeleteFault>>
        ensures queue { arc_value self.new.queue ≡ arc_value self.old.queue }
        ensures call { MatchOption result (IsBusy self.old self.new) (λ r. AsksToDelete r self.old self.new) }
    {
        match self.seat.state() {
            SeatState::Idle => Some(self.queue.claim_delete(&mut self.seat)),
            SeatState::Inserting(_) | SeatState::Deleting(_) => None,
        }
    }

    /// `Queue::try_take`; `None` if the seat is not deleting.
    pub fn try_take(&mut self) -> Option<Option<(u64, u64)>>
        ensures queue { arc_value self.new.queue ≡ arc_value self.old.queue }
        ensures call { MatchOption result (IsNotDeleting self.old self.new) (λ r. AsksToTake r self.old self.new) }
    {
        match self.seat.state() {
            SeatState::Deleting(_) => Some(self.queue.try_take(&mut self.seat)),
            SeatState::Idle | SeatState::Inserting(_) => None,
        }
    }

    /// `Queue::shut`; `None` if the seat is not idle.
    pub fn shut(&mut self) -> Option<bool>
        ensures queue { arc_value self.new.queue ≡ arc_value self.old.queue }
        ensures call { MatchOption result (IsBusy self.old self.new)
            (λ was_open. AsksToShut was_open self.old self.new) }
    {
        match self.seat.state() {
            SeatState::Idle => Some(self.queue.shut(&mut self.seat)),
            SeatState::Inserting(_) | SeatState::Deleting(_) => None,
        }
    }

    /// `Queue::pause`.
    pub fn pause(&mut self)
        ensures { self.new ≡ self.old }
    {
        self.queue.pause(&mut self.seat)
    }

    /// A claim, and if it is granted one try to fill: the ticket, and whether the item is in its cell. `None` if the
    /// seat is not idle.
    pub fn insert(&mut self, item: u64) -> Option<Result<(u64, bool), InsertFault<u64>>>
        ensures queue { arc_value self.new.queue ≡ arc_value self.old.queue }
        ensures call { MatchOption result (IsBusy self.old self.new) (λ r. AsksToInsertOnce item r self.old self.new) }
    {
        match self.claim_insert(item) {
            None => None,
            Some(Err(fault)) => Some(Err(fault)),
            Some(Ok(ticket)) => match self.try_fill() {
                None => unreachable!(),
                Some(None) => Some(Ok((ticket, false))),
                Some(Some(_)) => Some(Ok((ticket, true))),
            },
        }
    }

    /// A claim, and if it is granted one try to take: the ticket, and the item if it is out of its cell. `None` if
    /// the seat is not idle.
    pub fn delete(&mut self) -> Option<Result<(u64, Option<u64>), DeleteFault>>
        ensures queue { arc_value self.new.queue ≡ arc_value self.old.queue }
        ensures call { MatchOption result (IsBusy self.old self.new) (λ r. AsksToDeleteOnce r self.old self.new) }
    {
        match self.claim_delete() {
            None => None,
            Some(Err(fault)) => Some(Err(fault)),
            Some(Ok(ticket)) => match self.try_take() {
                None => unreachable!(),
                Some(None) => Some(Ok((ticket, None))),
                Some(Some((_, item))) => Some(Ok((ticket, Some(item)))),
            },
        }
    }

    /// `Queue::items_ready`.
    pub fn items_ready(&mut self) -> i64
        ensures queue { arc_value self.new.queue ≡ arc_value self.old.queue }
        ensures call { Observes self.old self.new }
        ensures count { result ≡ lower_count self.new.seat.seen }
    {
        self.queue.items_ready(&mut self.seat)
    }

    /// `Queue::cells_in_use`.
    pub fn cells_in_use(&mut self) -> InUse
        ensures queue { arc_value self.new.queue ≡ arc_value self.old.queue }
        ensures call { Observes self.old self.new }
        ensures count { result.count ≡ upper_count self.new.seat.seen }
        ensures least { pos 0 ≤ℤ result.count }
        ensures shut { IsTrue result.is_shut ↔ Has Close self.new.seat.seen }
    {
        self.queue.cells_in_use(&mut self.seat)
    }

    /// `Queue::is_drained`.
    pub fn is_drained(&mut self) -> bool
        ensures queue { arc_value self.new.queue ≡ arc_value self.old.queue }
        ensures call { Observes self.old self.new }
        ensures drained { IsTrue result ↔ IsDrained self.new.seat.seen }
    {
        self.queue.is_drained(&mut self.seat)
    }

    pub(crate) fn is_idle(&self) -> bool
        ensures { IsTrue result ↔ (state_of self.now.seat ≡ Idle) }
    {
        match self.seat.state() {
            SeatState::Idle => true,
            SeatState::Inserting(_) | SeatState::Deleting(_) => false,
        }
    }
}
