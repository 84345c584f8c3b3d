//! Downs and ups by steps, none of which waits.

ghost use Rattle.std.specs.Prelude.{◌≡◌, IfOk, MatchOption, MatchResult};
ghost use Rattle.fak_sem.specs.declared.standing.Standing.TheVariants.{Idle};
ghost use Rattle.fak_sem.specs.Semaphores.{CountsDown, CountsUp, Downs, SemSeatInfo, Ups};
ghost use Rattle.fak_sem.specs.Standings.{IsParking, IsWaking};
ghost use Rattle.fak_sem.specs.Steps.{BeginsDown, BeginsUp, ClaimsItemOnce, ClaimsRoomOnce, CountsAsBegun, IsWornStep};
ghost use Rattle.fak_sem.specs.Steps.{ParksOn, ParksSince, SameCredit, StandsAfter, StandsOwing, StepsToPark, StepsToWake};
ghost use Rattle.fak_sem.specs.Steps.{WakesSince};

use crate::claims::{claim_item, claim_room};
use crate::fault::SemWorn;
use crate::semaphore::Semaphore;
use crate::standing::Standing;
use crate::step_seat::StepSeat;
use fak_count::Worn;
use std::mem;

impl<T: Drop> Semaphore<T> {
    /// Begins a down: subtracts 1. If it found at least 1, the item passes and comes back, and the down is done.
    /// Otherwise the seat keeps the item, and claims room for it in the wait queue once; `try_park` goes on.
    ///
    /// The debit comes first, since it decides whether the item is parked. From the debit on, an up may owe this item a wake.
    ///
    /// # Errors
    ///
    /// `SemWorn`, if the seat's stint is used up; the item comes back.
    pub fn claim_down(&self, seat: &mut StepSeat<T>, who: T) -> Result<Option<T>, SemWorn<T>>
        requires object { seat.old.seat.object ≡ self.now.object }
        requires idle { seat.old.standing ≡ Idle }
        ensures object { seat.new.seat.object ≡ seat.old.seat.object }
        ensures state { IfOk result (λ answer. MatchOption answer (IsParking seat.new.standing)
            (λ _. seat.new.standing ≡ Idle)) }
        ensures call { MatchResult result (BeginsDown self.now who seat.old seat.new)
            (λ worn. (worn.0 ≡ who) × IsWornStep seat.old seat.new) }
        ensures claims { IfOk result (ClaimsRoomOnce self.now who seat.old seat.new) }
        ensures counts { IfOk result (CountsDown seat.old.seat seat.new.seat) }
    {
        let Ok(found) = self.credit.debit(&mut seat.credit) else {
            return Err(SemWorn(who));
        };
        let passes = found > 0;
        if passes {
            return Ok(Some(who));
        }
        seat.standing = claim_room(&self.queue, &mut seat.queue, who);
        Ok(None)
    }

    /// Takes one more step of a down that parks its item: claims room for it, or moves it into its cell if it is the
    /// cell's turn. Returns true if the item is parked and the down is done.
    ///
    /// The move comes after a granted claim, which has drawn the ticket of the cell. Once the item is in its cell, an
    /// up can take it out.
    pub fn try_park(&self, seat: &mut StepSeat<T>) -> bool
        requires object { seat.old.seat.object ≡ self.now.object }
        requires parking { IsParking seat.old.standing }
        ensures object { seat.new.seat.object ≡ seat.old.seat.object }
        ensures state { StandsAfter seat.new.standing result }
        ensures credit { SameCredit seat.old seat.new }
        ensures step { StepsToPark self.now seat.old seat.new result }
        ensures call { (began : SemSeatInfo T) (who : T) → ParksSince self.now who began seat.old
            → ParksOn self.now who began seat.new result }
    {
        match mem::replace(&mut seat.standing, Standing::Idle) {
            Standing::Parking(item) => {
                seat.standing = claim_room(&self.queue, &mut seat.queue, item);
                false
            }
            Standing::Inserting => match self.queue.try_fill(&mut seat.queue) {
                Some(_) => true,
                None => {
                    seat.standing = Standing::Inserting;
                    false
                }
            },
            Standing::Idle | Standing::Waking | Standing::Deleting => unreachable!(),
        }
    }

    /// Begins an up: adds 1. If it found at least 0, it wakes no item, the up is done, and it returns false. Otherwise
    /// it owes a wake, and claims an item of the wait queue once; `try_wake` goes on.
    ///
    /// The credit comes first, since it decides whether a wake is owed. The item may still be on its way into the wait queue.
    ///
    /// # Errors
    ///
    /// `Worn`, if the seat's stint is used up.
    pub fn claim_up(&self, seat: &mut StepSeat<T>) -> Result<bool, Worn>
        requires object { seat.old.seat.object ≡ self.now.object }
        requires idle { seat.old.standing ≡ Idle }
        ensures object { seat.new.seat.object ≡ seat.old.seat.object }
        ensures state { IfOk result (StandsOwing seat.new.standing) }
        ensures call { MatchResult result (BeginsUp self.now seat.old seat.new) (λ _. IsWornStep seat.old seat.new) }
        ensures claims { IfOk result (ClaimsItemOnce self.now seat.old seat.new) }
        ensures counts { IfOk result (CountsAsBegun seat.old.seat seat.new.seat) }
    {
        let Ok(found) = self.credit.credit(&mut seat.credit) else {
            return Err(Worn);
        };
        let owes = found < 0;
        if !owes {
            return Ok(false);
        }
        seat.standing = claim_item(&self.queue, &mut seat.queue);
        Ok(true)
    }

    /// Takes one more step of an up that owes a wake: claims an item, or moves it out of its cell if it is the cell's
    /// turn. If it moved the item, it returns it, and the up is done.
    ///
    /// The move comes after a granted claim, which has drawn the ticket of the cell, and after the down that filled the cell.
    pub fn try_wake(&self, seat: &mut StepSeat<T>) -> Option<T>
        requires object { seat.old.seat.object ≡ self.now.object }
        requires waking { IsWaking seat.old.standing }
        ensures object { seat.new.seat.object ≡ seat.old.seat.object }
        ensures state { MatchOption result (IsWaking seat.new.standing) (λ _. seat.new.standing ≡ Idle) }
        ensures credit { SameCredit seat.old seat.new }
        ensures step { StepsToWake self.now seat.old seat.new result }
        ensures call { (began : SemSeatInfo T) → WakesSince self.now began seat.old
            → MatchOption result (WakesSince self.now began seat.new)
            (λ woken. Ups self.now began seat.new.seat (Some woken)) }
    {
        match mem::replace(&mut seat.standing, Standing::Idle) {
            Standing::Waking => {
                seat.standing = claim_item(&self.queue, &mut seat.queue);
                None
            }
            Standing::Deleting => match self.queue.try_take(&mut seat.queue) {
                Some((_, item)) => Some(item),
                None => {
                    seat.standing = Standing::Deleting;
                    None
                }
            },
            Standing::Idle | Standing::Parking(_) | Standing::Inserting => unreachable!(),
        }
    }
}
