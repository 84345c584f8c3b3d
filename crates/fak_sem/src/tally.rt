//! Seats of a semaphore that were joined.

ghost use Rattle.std.specs.Prelude.{◌≡◌, ◌↔◌, ℕ, IsTrue};
ghost use Rattle.fak_model.specs.Credit.{IsCreditHistory, credit_rules};
ghost use Rattle.fak_model.specs.Histories.{AreNamed, IsAtRest};
ghost use Rattle.fak_model.specs.Queue.{IsQueueHistory, queue_rules};
ghost use Rattle.fak_model.specs.Seats.{In, IsWhole, mine};
ghost use Rattle.fak_count.specs.Credits.{seat_of as credit_name};
ghost use Rattle.fak_queue.specs.Queues.{seat_of as queue_name, size_of};
ghost use Rattle.fak_sem.specs.Grants.{IsMatched};
ghost use Rattle.fak_sem.specs.Semaphores.{sem_tally_of, seats_of};

use crate::seat::SemSeat;
use fak_count::CreditTally;
use fak_queue::Tally;
use std::fmt;
use std::marker::Model;

/// Seats of a semaphore that were joined and perform no more calls. Contracts see its semaphore, the names of the
/// seats, and the longest histories of the credit and of the wait queue that one of them has seen.
#[derive(Drop)]
pub struct SemTally<T> {
    pub(crate) start: u64,
    pub(crate) credit: CreditTally,
    pub(crate) queue: Tally<T>,
}

impl<T> Model for SemTally<T> {
    ghost use Rattle.fak_sem.specs.Semaphores.{SemTallyInfo, IsSemTally, sem_tally};

    ghost Value = { SemTallyInfo T };

    ghost view = { λ t. sem_tally t.start t.credit t.queue };

    ghost invariant = { λ t. IsSemTally t.start t.credit t.queue };
}

impl<T: Drop> SemTally<T> {
    /// The tally of one seat.
    pub fn of(seat: SemSeat<T>) -> SemTally<T>
        ensures tally { result ≡ sem_tally_of seat }
        ensures lawful { IsQueueHistory (size_of result.object.queue) result.queue_seen }
        ensures credit_named { AreNamed credit_rules (seats_of result.object) result.credit_seen }
        ensures queue_named { AreNamed (queue_rules (size_of result.object.queue))
            (seats_of result.object) result.queue_seen }
    {
        let SemSeat {
            start,
            credit,
            queue,
        } = seat;
        SemTally {
            start,
            credit: CreditTally::of(credit),
            queue: Tally::of(queue),
        }
    }

    /// Whether all seats of the semaphore are in the tally. Then each mark of both histories belongs to one of them,
    /// and no call is cut short.
    pub fn is_whole(&self) -> bool
        ensures whole { IsTrue result ↔ IsWhole (seats_of self.now.object) self.now.names }
        ensures credit { IsTrue result → mine credit_name self.now.names self.now.credit_seen ≡ self.now.credit_seen }
        ensures queue { IsTrue result → mine queue_name self.now.names self.now.queue_seen ≡ self.now.queue_seen }
        ensures lawful { IsCreditHistory self.now.credit_seen
            × IsQueueHistory (size_of self.now.object.queue) self.now.queue_seen }
        ensures credit_named { AreNamed credit_rules (seats_of self.now.object) self.now.credit_seen }
        ensures queue_named { AreNamed (queue_rules (size_of self.now.object.queue))
            (seats_of self.now.object) self.now.queue_seen }
        ensures credit_rest { IsTrue result → IsAtRest credit_rules self.now.credit_seen }
        ensures queue_rest { IsTrue result → IsAtRest
            (queue_rules (size_of self.now.object.queue)) self.now.queue_seen }
        ensures matched { (name : ℕ) → In name self.now.names
            → IsMatched self.now.object.start name self.now.credit_seen self.now.queue_seen }
    {
        self.queue.is_whole()
    }
}

impl<T> fmt::Debug for SemTally<T> {
    fn fmt<W: fmt::Write>(&self, f: &mut fmt::Formatter<W>) -> fmt::Result {
        f.debug_struct("SemTally")
            .field("start", &self.start)
            .finish_non_exhaustive()
    }
}
