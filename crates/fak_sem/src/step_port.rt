//! A semaphore and one of its seats, whose calls go by steps, as one value whose calls have no preconditions.

ghost use Rattle.std.specs.Prelude.{◌≡◌, ◌≢◌, ◌+◌, IfOk, IfSome, MatchOption, MatchResult, Some};
ghost use Rattle.fak_count.specs.Credits.{calls_made};
ghost use Rattle.fak_sem.specs.declared.standing.Standing.TheVariants.{Idle};
ghost use Rattle.fak_sem.specs.Ports.{IsNotParking, IsNotWaking, RefusesDown, RefusesUp};
ghost use Rattle.fak_sem.specs.Semaphores.{CountsDown, IsIdleSemSeat, SemSeatInfo, Ups, credit_part};
ghost use Rattle.fak_sem.specs.Standings.{IsParking, IsWaking, state_in};
ghost use Rattle.fak_sem.specs.Steps.{BeginsDown, BeginsUp, ClaimsItemOnce, ClaimsRoomOnce, CountsAsBegun, ParksOn};
ghost use Rattle.fak_sem.specs.Steps.{ParksSince, SameCredit, StandsAfter, StandsOwing, StepsToPark, StepsToWake, WakesSince};

use crate::fault::{DownFault, SemWorn, UpFault};
use crate::seat::SemSeat;
use crate::semaphore::Semaphore;
use crate::standing::StepState;
use crate::step_seat::StepSeat;
use fak_count::Worn;
use std::fmt;

/// A semaphore with one of its seats, whose calls go by steps that never wait. The type guarantees that the seat
/// belongs to the semaphore, and a call is refused if the seat is in the wrong state for it. So the calls of a port
/// require nothing. Their contracts are about the port's seat, before and after.
#[derive(Drop)]
pub struct StepPort<'s, T> {
    /// The semaphore.
    pub semaphore: &'s Semaphore<T>,
    /// The seat, which belongs to this semaphore.
    pub seat: StepSeat<T>,
    pub ghost of_semaphore: { seat.seat.object ≡ semaphore.now.object },
}

impl<'s, T: Drop> StepPort<'s, T> {
    /// The port of this semaphore with this seat, whose calls go by steps from now on.
    pub fn new(semaphore: &'s Semaphore<T>, seat: SemSeat<T>) -> StepPort<'s, T>
        requires { IsIdleSemSeat semaphore.now.object seat }
        ensures semaphore { result.semaphore.now ≡ semaphore.now }
        ensures seat { result.seat.seat ≡ seat }
        ensures idle { result.seat.standing ≡ Idle }
    {
        StepPort {
            semaphore,
            seat: StepSeat::of(seat),
        }
    }

    /// Begins a down: subtracts 1. If it found at least 1, the item passes and comes back, and the down is done.
    /// Otherwise the seat keeps the item, and claims room for it in the wait queue once; `try_park` goes on.
    ///
    /// # Errors
    ///
    /// `InCall` or `Worn`, in this order; the item comes back.
    pub fn claim_down(&mut self, who: T) -> Result<Option<T>, DownFault<T>>
        ensures semaphore { self.new.semaphore ≡ self.old.semaphore }
        ensures idle { IfOk result (λ _. self.old.seat.standing ≡ Idle) }
        ensures state { IfOk result (λ passed. MatchOption passed (IsParking self.new.seat.standing)
            (λ _. self.new.seat.standing ≡ Idle)) }
        ensures call { MatchResult result (BeginsDown self.old.semaphore.now who self.old.seat self.new.seat)
            (RefusesDown who self.old.seat self.new.seat) }
        ensures claims { IfOk result (ClaimsRoomOnce self.old.semaphore.now who self.old.seat self.new.seat) }
        ensures counts { IfOk result (CountsDown self.old.seat.seat self.new.seat.seat) }
    {
        match self.state() {
            StepState::Idle => match self.semaphore.claim_down(&mut self.seat, who) {
                Ok(passed) => Ok(passed),
                Err(SemWorn(item)) => Err(DownFault::Worn { item }),
            },
            StepState::Parking | StepState::Waking => Err(DownFault::InCall { item: who }),
        }
    }

    /// Takes one more step of a down that parks its item (`Semaphore::try_park`). Returns true if the item is parked
    /// and the down is done, and `None` if no down is open.
    pub fn try_park(&mut self) -> Option<bool>
        ensures semaphore { self.new.semaphore ≡ self.old.semaphore }
        ensures parking { MatchOption result (IsNotParking self.old.seat self.new.seat)
            (λ _. IsParking self.old.seat.standing) }
        ensures state { IfSome result (StandsAfter self.new.seat.standing) }
        ensures credit { SameCredit self.old.seat self.new.seat }
        ensures step { IfSome result (StepsToPark self.old.semaphore.now self.old.seat self.new.seat) }
        ensures call { IfSome result (λ done. (began : SemSeatInfo T) (who : T)
            → ParksSince self.old.semaphore.now who began self.old.seat
            → ParksOn self.old.semaphore.now who began self.new.seat done) }
    {
        match self.state() {
            StepState::Parking => Some(self.semaphore.try_park(&mut self.seat)),
            StepState::Idle | StepState::Waking => None,
        }
    }

    /// Begins an up: adds 1. If it found at least 0, it wakes no item, the up is done, and it returns false. Otherwise
    /// it owes a wake, and claims an item of the wait queue once; `try_wake` goes on.
    ///
    /// # Errors
    ///
    /// `InCall` or `Worn`, in this order.
    pub fn claim_up(&mut self) -> Result<bool, UpFault>
        ensures semaphore { self.new.semaphore ≡ self.old.semaphore }
        ensures idle { IfOk result (λ _. self.old.seat.standing ≡ Idle) }
        ensures state { IfOk result (StandsOwing self.new.seat.standing) }
        ensures call { MatchResult result (BeginsUp self.old.semaphore.now self.old.seat self.new.seat)
            (RefusesUp self.old.seat self.new.seat) }
        ensures claims { IfOk result (ClaimsItemOnce self.old.semaphore.now self.old.seat self.new.seat) }
        ensures counts { IfOk result (CountsAsBegun self.old.seat.seat self.new.seat.seat) }
    {
        match self.state() {
            StepState::Idle => match self.semaphore.claim_up(&mut self.seat) {
                Ok(owes) => Ok(owes),
                Err(Worn) => Err(UpFault::Worn),
            },
            StepState::Parking | StepState::Waking => Err(UpFault::InCall),
        }
    }

    /// Takes one more step of an up that owes a wake (`Semaphore::try_wake`). Returns the item that it woke if the up
    /// is done, `Some(None)` if it is not done yet, and `None` if no up is open.
    pub fn try_wake(&mut self) -> Option<Option<T>>
        ensures semaphore { self.new.semaphore ≡ self.old.semaphore }
        ensures waking { MatchOption result (IsNotWaking self.old.seat self.new.seat)
            (λ _. IsWaking self.old.seat.standing) }
        ensures state { IfSome result (λ woken. MatchOption woken (IsWaking self.new.seat.standing)
            (λ _. self.new.seat.standing ≡ Idle)) }
        ensures credit { SameCredit self.old.seat self.new.seat }
        ensures step { IfSome result (StepsToWake self.old.semaphore.now self.old.seat self.new.seat) }
        ensures call { IfSome result (λ woken. (began : SemSeatInfo T)
            → WakesSince self.old.semaphore.now began self.old.seat
            → MatchOption woken (WakesSince self.old.semaphore.now began self.new.seat)
            (λ item. Ups self.old.semaphore.now began self.new.seat.seat (Some item))) }
    {
        match self.state() {
            StepState::Waking => Some(self.semaphore.try_wake(&mut self.seat)),
            StepState::Idle | StepState::Parking => None,
        }
    }

    /// The seat as it was opened, if no call is open. It can be joined, or used by a `SemPort`.
    ///
    /// # Errors
    ///
    /// If a call is open, the port comes back.
    pub fn into_seat(self) -> Result<SemSeat<T>, StepPort<'s, T>>
        ensures idle { MatchResult result (IsIdleSemSeat self.entry.semaphore.now.object)
            (λ port. port.semaphore ≡ self.entry.semaphore) }
        ensures seat { MatchResult result
            (λ seat. (self.entry.seat.standing ≡ Idle) × (seat ≡ self.entry.seat.seat))
            (λ port. (self.entry.seat.standing ≢ Idle) × (port.seat ≡ self.entry.seat)) }
    {
        match self.state() {
            StepState::Idle => {
                let StepPort { semaphore: _, seat } = self;
                Ok(seat.into_seat())
            }
            StepState::Parking | StepState::Waking => Err(self),
        }
    }
}

impl<'s, T> StepPort<'s, T> {
    /// Which call is open.
    pub fn state(&self) -> StepState
        ensures { result ≡ state_in self.now.seat.standing }
    {
        self.seat.state()
    }

    /// The number of downs and ups that are left of the seat's stint.
    pub fn left(&self) -> u64
        ensures { result + calls_made (credit_part self.now.seat.seat) ≡ self.now.seat.seat.stint }
    {
        self.seat.left()
    }
}

impl<'s, T> fmt::Debug for StepPort<'s, T> {
    fn fmt<W: fmt::Write>(&self, f: &mut fmt::Formatter<W>) -> fmt::Result {
        f.debug_struct("StepPort")
            .field("semaphore", self.semaphore)
            .field("seat", &self.seat)
            .finish()
    }
}
