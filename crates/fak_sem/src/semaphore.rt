//! A semaphore that threads share.

ghost use Rattle.std.specs.Prelude.{◌≡◌, IfOk, MatchResult};
ghost use Rattle.fak_sem.specs.Semaphores.{CountsDown, CountsUp, Downs, IsWornSeat, Ups, fresh_sem_seats, seats_of, JoinsSeat};
ghost use Rattle.fak_model.specs.Calls.{fresh_seats};
ghost use Rattle.fak_model.specs.Limits.{IsInLargeRange, IsLargeFault};
ghost use Rattle.fak_sem.specs.Opening.{AreLargeSizes, IsInRange, IsOpenFault};
ghost use Rattle.fak_model.specs.Queue.{contents};
ghost use Rattle.fak_model.specs.Seats.{IsWhole};
ghost use Rattle.fak_sem.specs.Grants.{IsSettled};

use crate::fault::{OpenFault, SemWorn};
use crate::opening::{SeatLimits, opened_credit, opened_large_credit};
use crate::retries::{delete_at_last, insert_at_last};
use crate::seat::SemSeat;
use crate::tally::SemTally;
use fak_count::{Credit, CreditSeat, Worn};
use fak_model::LargeFault;
use fak_queue::{Queue, Rest, Seat};
use std::alloc::{AllocError, Global};
use std::fmt;
use std::marker::Model;
use std::sync::Wait;

/// A counting semaphore over moved values. Its count is a credit, and the items that wait are in a bounded queue.
/// Contracts see which semaphore it is and the size of its wait queue.
#[derive(Drop)]
pub struct Semaphore<T> {
    pub(crate) credit: Credit,
    pub(crate) queue: Queue<T>,
}

impl<T> Model for Semaphore<T> {
    ghost use Rattle.std.specs.Prelude.{◌≡◌};
    ghost use Rattle.fak_sem.specs.Semaphores.{SemInfo, sem_info};

    ghost Value = { SemInfo };

    ghost view = { λ s. sem_info s.credit s.queue };

    ghost invariant = { λ s. s.queue.object.seats ≡ s.credit.object.seats };
}

impl<T: Drop> Semaphore<T> {
    /// Opens a semaphore at `start` with an empty wait queue of `size` cells, and its seats. Each seat may perform
    /// `stint` calls, downs and ups together.
    ///
    /// `start` is 0 to 4,294,967,296, `size` 1 to 4,096, `seats` 1 to 64, `stint` 1 to 2^40.
    ///
    /// # Errors
    ///
    /// `BadSize`, `BadSeats`, `BadStint` or `Memory`, in this order.
    pub fn open(
        alloc: Global,
        start: u64,
        size: u64,
        seats: u64,
        stint: u64,
    ) -> Result<(Semaphore<T>, Vec<SemSeat<T>>), OpenFault>
        ensures { MatchResult result (λ r. IsInRange start size seats stint × (r.0.object.start ≡ start)
            × (r.0.size ≡ size) × (seats_of r.0.object ≡ seats) × (r.0.object.queue.seats ≡ seats)
            × (r.1.items ≡ fresh_sem_seats r.0.object stint 0 seats)) (IsOpenFault start size seats stint) }
    {
        let (credit, credit_seats) = match opened_credit(alloc, start, size, seats, stint) {
            Ok(opened) => opened,
            Err(fault) => return Err(fault),
        };
        let Ok((queue, queue_seats)) = Queue::open(alloc, size, seats, stint) else {
            return Err(OpenFault::Memory);
        };
        let semaphore = Semaphore { credit, queue };
        let limits = SeatLimits {
            start,
            seats,
            stint,
        };
        match semaphore.paired(alloc, limits, credit_seats, queue_seats) {
            Ok(paired) => Ok((semaphore, paired)),
            Err(_) => Err(OpenFault::Memory),
        }
    }

    /// Opens a large semaphore: the same semaphore, with the same calls, but a larger wait queue and more seats.
    ///
    /// `start` is 0 to 4,294,967,296, `size` 1 to `LARGE_SIZE`, and `seats` 1 to `LARGE_SEATS`. `stint` is at least 1,
    /// and `seats` times `stint` at most `LARGE_TICKETS`.
    ///
    /// # Errors
    ///
    /// `BadSize`, `BadSeats`, `BadStint` or `Memory`, in this order.
    pub fn open_large(
        alloc: Global,
        start: u64,
        size: u64,
        seats: u64,
        stint: u64,
    ) -> Result<(Semaphore<T>, Vec<SemSeat<T>>), LargeFault>
        ensures { MatchResult result (λ r. IsInLargeRange (AreLargeSizes start size) seats stint
            × (r.0.object.start ≡ start) × (r.0.size ≡ size)
            × (seats_of r.0.object ≡ seats) × (r.0.object.queue.seats ≡ seats)
            × (r.1.items ≡ fresh_sem_seats r.0.object stint 0 seats))
            (IsLargeFault (AreLargeSizes start size) seats stint) }
    {
        let (credit, credit_seats) = match opened_large_credit(alloc, start, size, seats, stint) {
            Ok(opened) => opened,
            Err(fault) => return Err(fault),
        };
        let Ok((queue, queue_seats)) = Queue::open_large(alloc, size, seats, stint) else {
            return Err(LargeFault::Memory);
        };
        let semaphore = Semaphore { credit, queue };
        let limits = SeatLimits {
            start,
            seats,
            stint,
        };
        match semaphore.paired(alloc, limits, credit_seats, queue_seats) {
            Ok(paired) => Ok((semaphore, paired)),
            Err(_) => Err(LargeFault::Memory),
        }
    }

    /// The seats of the semaphore: each is made of a seat of the credit and the wait queue's seat with the same name.
    fn paired(
        &self,
        alloc: Global,
        limits: SeatLimits,
        credit_seats: Vec<CreditSeat>,
        queue_seats: Vec<Seat<T>>,
    ) -> Result<Vec<SemSeat<T>>, AllocError>
        requires start { self.now.object.start ≡ limits.start }
        requires seats { (self.now.object.credit.seats ≡ limits.seats) × (self.now.object.queue.seats ≡ limits.seats) }
        requires credit { credit_seats.items ≡ fresh_seats self.now.object.credit limits.stint 0 limits.seats }
        requires queue { queue_seats.items ≡ fresh_seats self.now.object.queue limits.stint 0 limits.seats }
        ensures { IfOk result (λ r. r.items ≡ fresh_sem_seats self.now.object limits.stint 0 limits.seats) }
    {
        let mut paired = Vec::with_capacity(alloc, limits.seats as usize)?;
        let mut credits = credit_seats.into_iter();
        let mut queues = queue_seats.into_iter();
        for _name in 0..limits.seats {
            let Some(credit) = credits.next() else {
                unreachable!()
            };
            let Some(queue) = queues.next() else {
                unreachable!()
            };
            paired.push(SemSeat {
                start: limits.start,
                credit,
                queue,
            })?;
        }
        Ok(paired)
    }

    /// Subtracts 1. If it found at least 1, the item passes and comes back. Otherwise the item is parked; the call
    /// waits for room in the wait queue.
    ///
    /// The debit comes before the insertion, since it decides whether there is one. From the debit on, an up may owe
    /// this item a wake, and waits until it is in the wait queue.
    ///
    /// # Errors
    ///
    /// `SemWorn`, if the seat's stint is used up; the item comes back.
    pub fn down<R: Wait>(
        &self,
        rt: &R,
        seat: &mut SemSeat<T>,
        who: T,
    ) -> Result<Option<T>, SemWorn<T>>
        requires { seat.old.object ≡ self.now.object }
        ensures object { seat.new.object ≡ seat.old.object }
        ensures call { MatchResult result (Downs self.now who seat.old seat.new)
            (λ worn. (worn.0 ≡ who) × IsWornSeat seat.old seat.new) }
        ensures counts { IfOk result (CountsDown seat.old seat.new) }
    {
        let Ok(found) = self.credit.debit(&mut seat.credit) else {
            return Err(SemWorn(who));
        };
        let passes = found > 0;
        if passes {
            return Ok(Some(who));
        }
        insert_at_last(&self.queue, rt, &mut seat.queue, who);
        Ok(None)
    }

    /// Adds 1. If it found less than 0, it wakes the oldest parked item and returns it; the call waits for an item in
    /// the wait queue.
    ///
    /// The credit comes before the deletion, since it decides whether there is one. Each up that found less than 0 is matched by
    /// a down that parks. The item of that down is in the wait queue or on its way there, so the deletion has one to wait for.
    ///
    /// # Errors
    ///
    /// `Worn`, if the seat's stint is used up.
    pub fn up<R: Wait>(&self, rt: &R, seat: &mut SemSeat<T>) -> Result<Option<T>, Worn>
        requires { seat.old.object ≡ self.now.object }
        ensures object { seat.new.object ≡ seat.old.object }
        ensures call { MatchResult result (Ups self.now seat.old seat.new) (λ _. IsWornSeat seat.old seat.new) }
        ensures counts { IfOk result (CountsUp seat.old seat.new) }
    {
        let Ok(found) = self.credit.credit(&mut seat.credit) else {
            return Err(Worn);
        };
        let owes = found < 0;
        if !owes {
            return Ok(None);
        }
        Ok(Some(delete_at_last(&self.queue, rt, &mut seat.queue)))
    }

    /// The tally with this seat added.
    pub fn join(&self, tally: SemTally<T>, seat: SemSeat<T>) -> SemTally<T>
        requires object { (tally.object ≡ self.now.object) × (seat.object ≡ self.now.object) }
        ensures joined { JoinsSeat self.now.size tally seat result }
        ensures object { result.object ≡ self.now.object }
    {
        let SemTally {
            start,
            credit,
            queue,
        } = tally;
        let SemSeat {
            start: _,
            credit: credit_seat,
            queue: queue_seat,
        } = seat;
        SemTally {
            start,
            credit: self.credit.join(credit, credit_seat),
            queue: self.queue.join(queue, queue_seat),
        }
    }

    /// Closes the semaphore, once all seats are in the tally. Returns the items of the downs that neither passed nor
    /// were woken, oldest first.
    pub fn close(self, tally: SemTally<T>) -> Rest<T>
        requires object { tally.object ≡ self.object }
        requires whole { IsWhole (seats_of self.object) tally.names }
        ensures rest { result ≡ contents tally.queue_seen }
        ensures settled { IsSettled self.object.start tally.credit_seen tally.queue_seen }
    {
        let Semaphore { credit: _, queue } = self;
        let SemTally {
            start: _,
            credit: _,
            queue: parked,
        } = tally;
        queue.close(parked)
    }
}

impl<T> fmt::Debug for Semaphore<T> {
    fn fmt<W: fmt::Write>(&self, f: &mut fmt::Formatter<W>) -> fmt::Result {
        f.debug_struct("Semaphore").finish_non_exhaustive()
    }
}
