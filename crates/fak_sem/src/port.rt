//! A semaphore and one of its seats as one value, whose calls have no preconditions.

ghost use Rattle.std.specs.Prelude.{◌≡◌, ◌+◌, IfOk, MatchResult};
ghost use Rattle.fak_count.specs.Credits.{calls_made};
ghost use Rattle.fak_sem.specs.Semaphores.{CountsDown, CountsUp, Downs, IsIdleSemSeat, IsWornSeat, Ups, credit_part};

use crate::fault::SemWorn;
use crate::seat::SemSeat;
use crate::semaphore::Semaphore;
use fak_count::Worn;
use std::fmt;
use std::sync::Wait;

/// A semaphore with one of its seats. The type guarantees what each call of the semaphore requires, so the calls of a
/// port require nothing. Their contracts are about the port's seat, before and after.
#[derive(Drop)]
pub struct SemPort<'s, T> {
    /// The semaphore.
    pub semaphore: &'s Semaphore<T>,
    /// The seat, which belongs to this semaphore.
    pub seat: SemSeat<T>,
    pub ghost idle: { IsIdleSemSeat semaphore.now.object seat },
}

impl<'s, T: Drop> SemPort<'s, T> {
    /// The port of this semaphore with this seat.
    pub fn new(semaphore: &'s Semaphore<T>, seat: SemSeat<T>) -> SemPort<'s, T>
        requires { IsIdleSemSeat semaphore.now.object seat }
        ensures semaphore { result.semaphore.now ≡ semaphore.now }
        ensures seat { result.seat ≡ seat }
    {
        SemPort { semaphore, seat }
    }

    /// Subtracts 1. If it found at least 1, the item passes and comes back. Otherwise the item is parked; the call
    /// waits for room in the wait queue.
    ///
    /// # Errors
    ///
    /// `SemWorn`, if the seat's stint is used up; the item comes back.
    pub fn down<R: Wait>(&mut self, rt: &R, who: T) -> Result<Option<T>, SemWorn<T>>
        ensures semaphore { self.new.semaphore ≡ self.old.semaphore }
        ensures call { MatchResult result (Downs self.old.semaphore.now who self.old.seat self.new.seat)
            (λ worn. (worn.0 ≡ who) × IsWornSeat self.old.seat self.new.seat) }
        ensures counts { IfOk result (CountsDown self.old.seat self.new.seat) }
    {
        self.semaphore.down(rt, &mut self.seat, who)
    }

    /// Adds 1. If it found less than 0, it wakes the oldest parked item and returns it; the call waits for an item in
    /// the wait queue.
    ///
    /// # Errors
    ///
    /// `Worn`, if the seat's stint is used up.
    pub fn up<R: Wait>(&mut self, rt: &R) -> Result<Option<T>, Worn>
        ensures semaphore { self.new.semaphore ≡ self.old.semaphore }
        ensures call { MatchResult result (Ups self.old.semaphore.now self.old.seat self.new.seat)
            (λ _. IsWornSeat self.old.seat self.new.seat) }
        ensures counts { IfOk result (CountsUp self.old.seat self.new.seat) }
    {
        self.semaphore.up(rt, &mut self.seat)
    }

    /// The number of downs and ups that are left of the seat's stint.
    pub fn left(&self) -> u64
        ensures { result + calls_made (credit_part self.now.seat) ≡ self.now.seat.stint }
    {
        self.seat.credit.left()
    }

    /// The seat, which `SemTally::of` or `Semaphore::join` takes.
    pub fn into_seat(self) -> SemSeat<T>
        ensures idle { IsIdleSemSeat self.entry.semaphore.now.object result }
        ensures seat { result ≡ self.entry.seat }
    {
        let SemPort { semaphore: _, seat } = self;
        seat
    }
}

impl<'s, T> fmt::Debug for SemPort<'s, T> {
    fn fmt<W: fmt::Write>(&self, f: &mut fmt::Formatter<W>) -> fmt::Result {
        f.debug_struct("SemPort")
            .field("semaphore", self.semaphore)
            .field("seat", &self.seat)
            .finish()
    }
}
