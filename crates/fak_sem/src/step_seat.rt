//! A seat of a semaphore whose calls go by steps that never wait.

ghost use Rattle.std.specs.Prelude.{◌≡◌, ◌+◌};
ghost use Rattle.fak_count.specs.Credits.{calls_made};
ghost use Rattle.fak_sem.specs.declared.standing.Standing.TheVariants.{Idle};
ghost use Rattle.fak_sem.specs.Semaphores.{credit_part};
ghost use Rattle.fak_sem.specs.Standings.{state_in};

use crate::seat::SemSeat;
use crate::standing::{Standing, StepState};
use fak_count::CreditSeat;
use fak_queue::Seat;
use std::fmt;
use std::marker::Model;

/// The right to downs and ups on a `Semaphore` by steps that never wait, as many times as its stint. Between the steps
/// of a call it keeps the item that is to be parked. Contracts see what they see of a `SemSeat`, and its state.
#[derive(Drop)]
pub struct StepSeat<T> {
    pub(crate) start: u64,
    pub(crate) credit: CreditSeat,
    pub(crate) queue: Seat<T>,
    pub(crate) standing: Standing<T>,
}

impl<T> Model for StepSeat<T> {
    ghost use Rattle.fak_sem.specs.Steps.{StepSeatInfo, IsStepSeat, step_seat};

    ghost Value = { StepSeatInfo T };

    ghost view = { λ s. step_seat s.start s.credit s.queue s.standing };

    ghost invariant = { λ s. IsStepSeat s.start s.credit s.queue s.standing };
}

impl<T: Drop> StepSeat<T> {
    /// A seat whose calls go by steps from now on.
    pub fn of(seat: SemSeat<T>) -> StepSeat<T>
        ensures seat { result.seat ≡ seat }
        ensures idle { result.standing ≡ Idle }
    {
        let SemSeat {
            start,
            credit,
            queue,
        } = seat;
        // This call's clause states that the calls performed are within the stint.
        let _left = credit.left();
        StepSeat {
            start,
            credit,
            queue,
            standing: Standing::Idle,
        }
    }

    /// The seat as it was before `of`, if no call is open. It can be joined, or used for calls that wait.
    pub fn into_seat(self) -> SemSeat<T>
        requires { self.standing ≡ Idle }
        ensures { result ≡ self.seat }
    {
        let StepSeat {
            start,
            credit,
            queue,
            standing: _,
        } = self;
        SemSeat {
            start,
            credit,
            queue,
        }
    }
}

impl<T> StepSeat<T> {
    /// Which call is open.
    pub fn state(&self) -> StepState
        ensures { result ≡ state_in self.now.standing }
    {
        self.standing.state()
    }

    /// The number of downs and ups that are left of the stint.
    pub fn left(&self) -> u64
        ensures { result + calls_made (credit_part self.now.seat) ≡ self.now.seat.stint }
    {
        self.credit.left()
    }
}

impl<T> fmt::Debug for StepSeat<T> {
    fn fmt<W: fmt::Write>(&self, f: &mut fmt::Formatter<W>) -> fmt::Result {
        f.debug_struct("StepSeat")
            .field("start", &self.start)
            .field("left", &self.left())
            .field("state", &self.standing.state())
            .finish_non_exhaustive()
    }
}
