//! A seat of a semaphore.

use fak_count::CreditSeat;
use fak_queue::Seat;
use std::fmt;
use std::marker::Model;

/// The right to downs and ups on a `Semaphore`, as many times as its stint. Contracts see its semaphore, its name, its
/// stint, and the histories of the credit and of the wait queue that it has seen.
#[derive(Drop)]
pub struct SemSeat<T> {
    pub(crate) start: u64,
    pub(crate) credit: CreditSeat,
    pub(crate) queue: Seat<T>,
}

impl<T> Model for SemSeat<T> {
    ghost use Rattle.fak_sem.specs.Semaphores.{SemSeatInfo, IsSemSeat, sem_seat};

    ghost Value = { SemSeatInfo T };

    ghost view = { λ s. sem_seat s.start s.credit s.queue };

    ghost invariant = { λ s. IsSemSeat s.start s.credit s.queue };
}

impl<T> fmt::Debug for SemSeat<T> {
    fn fmt<W: fmt::Write>(&self, f: &mut fmt::Formatter<W>) -> fmt::Result {
        f.debug_struct("SemSeat")
            .field("start", &self.start)
            .field("left", &self.credit.left())
            .finish_non_exhaustive()
    }
}
