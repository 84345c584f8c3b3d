//! The calls of a queue on the parts of a seat, each in one place for `Seat` and `SleeperSeat`.

ghost use Rattle.std.specs.Prelude.{◌≡◌, ◌↔◌, ℕ, [], IsTrue, MatchOption, MatchResult};
ghost use Rattle.fak_model.specs.declared.queue.Kind.TheVariants.{Close};
ghost use Rattle.fak_model.specs.Queue.{Has, lower_count, upper_count};
ghost use Rattle.fak_queue.specs.declared.state.SeatState.TheVariants.{Deleting, Idle, Inserting};
ghost use Rattle.fak_queue.specs.Queues.{ClaimsIn, ClaimsOut, Deletes, DrawsIfGranted, Fills, Inserts, Makes, ShutsAs, Takes};
ghost use Rattle.fak_queue.specs.Queues.{WaitsToFill, WaitsToTake, drawn_by, state_of};
ghost use Rattle.fak_queue.specs.Refusals.{RefusesDeletion, RefusesDeletionBy, RefusesInsertion, RefusesInsertionBy};

use crate::admission::{admit_deletion, admit_insertion};
use crate::fault::{DeleteFault, InsertFault};
use crate::found::refuse_worn;
use crate::in_use::InUse;
use crate::parts::SeatParts;
use crate::queue::Queue;
use crate::steps::observation::{observe_low, observe_up};
use crate::steps::shut;
use crate::turns::{
    empty_cell, fill_cell_from, finds_item, finds_room, wait_to_empty, wait_to_fill,
};
use fak_core::Phase;
use std::marker::Brand;
use std::sync::Wait;

impl<T: Drop> Queue<T> {
    /// `Queue::insert`, on the parts of a seat.
    pub(crate) fn insert_by<R: Wait>(
        &self,
        rt: &R,
        seat: &mut SeatParts<T>,
        item: T,
    ) -> Result<u64, InsertFault<T>>
        requires object { seat.old.seat.object ≡ self.now.object }
        requires idle { state_of seat.old.seat ≡ Idle }
        ensures noted { seat.new.noted ≡ seat.old.noted }
        ensures object { seat.new.seat.object ≡ seat.old.seat.object }
        ensures state { state_of seat.new.seat ≡ Idle }
        ensures left { DrawsIfGranted result seat.old.seat seat.new.seat }
        ensures call { MatchResult result (λ k. Inserts self.now.size k item seat.old.seat seat.new.seat)
            (RefusesInsertion self.now.size item seat.old.seat seat.new.seat) }
    {
        if seat.left == 0 {
            return refuse_worn(item);
        }
        let size = self.cells.size;
        seat.counts.pause_in_call(size, seat.left);
        let words = &self.table.shared;
        let mut withdraws = false;
        match admit_insertion(
            words,
            &mut seat.token,
            size,
            &mut seat.counts,
            &item,
            &mut withdraws,
        ) {
            Ok(ticket) => {
                seat.left -= 1;
                seat.counts.expect_insertion();
                let place = self.cells.place(ticket);
                wait_to_fill(rt, words, &mut seat.token, place, item);
                Ok(ticket)
            }
            Err(reason) => reason.refuse(item),
        }
    }

    /// `Queue::delete`, on the parts of a seat.
    pub(crate) fn delete_by<R: Wait>(
        &self,
        rt: &R,
        seat: &mut SeatParts<T>,
    ) -> Result<(u64, T), DeleteFault>
        requires object { seat.old.seat.object ≡ self.now.object }
        requires idle { state_of seat.old.seat ≡ Idle }
        ensures noted { seat.new.noted ≡ seat.old.noted }
        ensures object { seat.new.seat.object ≡ seat.old.seat.object }
        ensures state { state_of seat.new.seat ≡ Idle }
        ensures left { DrawsIfGranted result seat.old.seat seat.new.seat }
        ensures call { MatchResult result (λ r. Deletes self.now.size r.0 r.1 seat.old.seat seat.new.seat)
            (RefusesDeletion self.now.size seat.old.seat seat.new.seat) }
    {
        if seat.left == 0 {
            return Err(DeleteFault::Worn);
        }
        seat.counts.pause_in_call(self.cells.size, seat.left);
        let words = &self.table.shared;
        let mut withdraws = false;
        match admit_deletion(words, &mut seat.token, &mut seat.counts, &mut withdraws) {
            Ok(ticket) => {
                seat.left -= 1;
                seat.counts.expect_deletion();
                let place = self.cells.place(ticket);
                Ok((ticket, wait_to_empty(rt, words, &mut seat.token, place)))
            }
            Err(lower) => Err(DeleteFault::Empty(lower)),
        }
    }

    /// `Queue::claim_insert`, on the parts of a seat. `withdraws` says whether a claim that was refused had counted, and was withdrawn.
    pub(crate) fn claim_insert_by(
        &self,
        seat: &mut SeatParts<T>,
        item: T,
        withdraws: &mut bool,
    ) -> Result<u64, InsertFault<T>>
        requires object { seat.old.seat.object ≡ self.now.object }
        requires idle { state_of seat.old.seat ≡ Idle }
        ensures noted { seat.new.noted ≡ seat.old.noted }
        ensures object { seat.new.seat.object ≡ seat.old.seat.object }
        ensures state { MatchResult result (λ k. state_of seat.new.seat ≡ Inserting k) (λ _. state_of seat.new.seat ≡ Idle) }
        ensures left { DrawsIfGranted result seat.old.seat seat.new.seat }
        ensures call { MatchResult result (λ k. ClaimsIn self.now.size k item seat.old.seat seat.new.seat)
            (RefusesInsertion self.now.size item seat.old.seat seat.new.seat) }
        ensures withdraws { MatchResult result (λ _. Unit {0})
            (RefusesInsertionBy withdraws.new self.now.size seat.old.seat seat.new.seat) }
    {
        *withdraws = false;
        if seat.left == 0 {
            return refuse_worn(item);
        }
        let words = &self.table.shared;
        match admit_insertion(
            words,
            &mut seat.token,
            self.cells.size,
            &mut seat.counts,
            &item,
            withdraws,
        ) {
            Ok(ticket) => {
                seat.left -= 1;
                seat.counts.expect_insertion();
                seat.phase = Phase::TurnIn(ticket, item);
                Ok(ticket)
            }
            Err(reason) => reason.refuse(item),
        }
    }

    /// `Queue::try_fill`, on the parts of a seat.
    pub(crate) fn try_fill_by(&self, seat: &mut SeatParts<T>) -> Option<u64>
        requires object { seat.old.seat.object ≡ self.now.object }
        requires inserting { (k : ℕ) × (state_of seat.old.seat ≡ Inserting k) }
        ensures noted { seat.new.noted ≡ seat.old.noted }
        ensures object { seat.new.seat.object ≡ seat.old.seat.object }
        ensures state { MatchOption result (state_of seat.new.seat ≡ state_of seat.old.seat) (λ _. state_of seat.new.seat ≡ Idle) }
        ensures left { drawn_by seat.new.seat ≡ drawn_by seat.old.seat }
        ensures call { (k : ℕ) → state_of seat.old.seat ≡ Inserting k → MatchOption result
            (WaitsToFill self.now.size k seat.old.seat seat.new.seat) (λ j. (j ≡ k) × Fills self.now.size k seat.old.seat seat.new.seat) }
    {
        let Phase::TurnIn(ticket, _) = seat.phase else {
            unreachable!()
        };
        let place = self.cells.place(ticket);
        if !finds_room(&self.table.shared, &mut seat.token, place) {
            return None;
        }
        let words = &self.table.shared;
        fill_cell_from(words, &mut seat.token, place, &mut seat.phase);
        Some(ticket)
    }

    /// `Queue::claim_delete`, on the parts of a seat. `withdraws` as for an insertion.
    pub(crate) fn claim_delete_by(
        &self,
        seat: &mut SeatParts<T>,
        withdraws: &mut bool,
    ) -> Result<u64, DeleteFault>
        requires object { seat.old.seat.object ≡ self.now.object }
        requires idle { state_of seat.old.seat ≡ Idle }
        ensures noted { seat.new.noted ≡ seat.old.noted }
        ensures object { seat.new.seat.object ≡ seat.old.seat.object }
        ensures state { MatchResult result (λ k. state_of seat.new.seat ≡ Deleting k) (λ _. state_of seat.new.seat ≡ Idle) }
        ensures left { DrawsIfGranted result seat.old.seat seat.new.seat }
        ensures call { MatchResult result (λ k. ClaimsOut self.now.size k seat.old.seat seat.new.seat)
            (RefusesDeletion self.now.size seat.old.seat seat.new.seat) }
        ensures withdraws { MatchResult result (λ _. Unit {0})
            (RefusesDeletionBy withdraws.new self.now.size seat.old.seat seat.new.seat) }
    {
        *withdraws = false;
        if seat.left == 0 {
            return Err(DeleteFault::Worn);
        }
        let words = &self.table.shared;
        match admit_deletion(words, &mut seat.token, &mut seat.counts, withdraws) {
            Ok(ticket) => {
                seat.left -= 1;
                seat.counts.expect_deletion();
                seat.phase = Phase::TurnOut(ticket);
                Ok(ticket)
            }
            Err(lower) => Err(DeleteFault::Empty(lower)),
        }
    }

    /// `Queue::try_take`, on the parts of a seat.
    pub(crate) fn try_take_by(&self, seat: &mut SeatParts<T>) -> Option<(u64, T)>
        requires object { seat.old.seat.object ≡ self.now.object }
        requires deleting { (k : ℕ) × (state_of seat.old.seat ≡ Deleting k) }
        ensures noted { seat.new.noted ≡ seat.old.noted }
        ensures object { seat.new.seat.object ≡ seat.old.seat.object }
        ensures state { MatchOption result (state_of seat.new.seat ≡ state_of seat.old.seat) (λ _. state_of seat.new.seat ≡ Idle) }
        ensures left { drawn_by seat.new.seat ≡ drawn_by seat.old.seat }
        ensures call { (k : ℕ) → state_of seat.old.seat ≡ Deleting k → MatchOption result
            (WaitsToTake self.now.size k seat.old.seat seat.new.seat)
            (λ r. (r.0 ≡ k) × Takes self.now.size k r.1 seat.old.seat seat.new.seat) }
    {
        let Phase::TurnOut(ticket) = seat.phase else {
            unreachable!()
        };
        let place = self.cells.place(ticket);
        if !finds_item(&self.table.shared, &mut seat.token, place) {
            return None;
        }
        seat.phase = Phase::Idle;
        Some((
            ticket,
            empty_cell(&self.table.shared, &mut seat.token, place),
        ))
    }

    /// `Queue::pause`, on the parts of a seat.
    pub(crate) fn pause_by(&self, seat: &mut SeatParts<T>)
        ensures { seat.new ≡ seat.old }
    {
        seat.counts.pause_if_contended(self.cells.size, seat.left);
    }

    /// `Queue::shut`, on the parts of a seat.
    pub(crate) fn shut_by(&self, seat: &mut SeatParts<T>) -> bool
        requires object { seat.old.seat.object ≡ self.now.object }
        requires idle { state_of seat.old.seat ≡ Idle }
        ensures noted { seat.new.noted ≡ seat.old.noted }
        ensures object { seat.new.seat.object ≡ seat.old.seat.object }
        ensures state { state_of seat.new.seat ≡ Idle }
        ensures left { drawn_by seat.new.seat ≡ drawn_by seat.old.seat }
        ensures call { ShutsAs self.now.size result seat.old.seat seat.new.seat }
    {
        shut::<T, Brand>(&self.table.shared, &mut seat.token)
    }

    /// `Queue::cells_in_use`, on the parts of a seat.
    pub(crate) fn cells_in_use_by(&self, seat: &mut SeatParts<T>) -> InUse
        requires { seat.old.seat.object ≡ self.now.object }
        ensures noted { seat.new.noted ≡ seat.old.noted }
        ensures object { seat.new.seat.object ≡ seat.old.seat.object }
        ensures state { state_of seat.new.seat ≡ state_of seat.old.seat }
        ensures left { drawn_by seat.new.seat ≡ drawn_by seat.old.seat }
        ensures makes { Makes self.now.size [] seat.old.seat seat.new.seat }
        ensures count { result.count ≡ upper_count seat.new.seat.seen }
        ensures shut { IsTrue result.is_shut ↔ Has Close seat.new.seat.seen }
    {
        observe_up::<T, Brand>(&self.table.shared, &mut seat.token)
    }

    /// `Queue::items_ready`, on the parts of a seat.
    pub(crate) fn items_ready_by(&self, seat: &mut SeatParts<T>) -> i64
        requires { seat.old.seat.object ≡ self.now.object }
        ensures noted { seat.new.noted ≡ seat.old.noted }
        ensures object { seat.new.seat.object ≡ seat.old.seat.object }
        ensures state { state_of seat.new.seat ≡ state_of seat.old.seat }
        ensures left { drawn_by seat.new.seat ≡ drawn_by seat.old.seat }
        ensures makes { Makes self.now.size [] seat.old.seat seat.new.seat }
        ensures count { result ≡ lower_count seat.new.seat.seen }
    {
        observe_low::<T, Brand>(&self.table.shared, &mut seat.token)
    }
}
