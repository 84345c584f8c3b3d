//! The calls of a seat of a semaphore. Each tests the state of the seat, so none has a condition.

ghost use Rattle.std.specs.Prelude.{◌≡◌, ◌↔◌, IsTrue, MatchOption};
ghost use Rattle.std.specs.Arc.{arc_value};
ghost use Rattle.fak_sem.specs.declared.standing.Standing.TheVariants.{Idle};
ghost use Rattle.fak_handles.specs.semaphore.Calls.{AsksDown, AsksToPark, AsksToWake, AsksUp, IsInCall, IsNotParking, IsNotWaking, SameSemaphore};

use crate::semaphore::seat::SemDesk;
use fak_sem::{SemWorn, StepState, Worn};

impl SemDesk {
    /// `Semaphore::claim_down`; `None` if a call is open.
    pub fn claim_down(&mut self, item: u64) -> Option<Result<Option<u64>, SemWorn<u64>>>
        ensures same { SameSemaphore self.old self.new }
        ensures call { MatchOption result (IsInCall self.old self.new) (λ r. AsksDown item r self.old self.new) }
    {
        match self.seat.state() {
            StepState::Idle => Some(self.semaphore.claim_down(&mut self.seat, item)),
            StepState::Parking | StepState::Waking => None,
        }
    }

    /// `Semaphore::try_park`; `None` if no down is open.
    pub fn try_park(&mut self) -> Option<bool>
        ensures same { SameSemaphore self.old self.new }
        ensures call { MatchOption result (IsNotParking self.old self.new) (λ r. AsksToPark r self.old self.new) }
    {
        match self.seat.state() {
            StepState::Parking => Some(self.semaphore.try_park(&mut self.seat)),
            StepState::Idle | StepState::Waking => None,
        }
    }

    /// `Semaphore::claim_up`; `None` if a call is open.
    pub fn claim_up(&mut self) -> Option<Result<bool, Worn>>
        ensures same { SameSemaphore self.old self.new }
        ensures call { MatchOption result (IsInCall self.old self.new) (λ r. AsksUp r self.old self.new) }
    {
        match self.seat.state() {
            StepState::Idle => Some(self.semaphore.claim_up(&mut self.seat)),
            StepState::Parking | StepState::Waking => None,
        }
    }

    /// `Semaphore::try_wake`; `None` if no up is open.
    pub fn try_wake(&mut self) -> Option<Option<u64>>
        ensures same { SameSemaphore self.old self.new }
        ensures call { MatchOption result (IsNotWaking self.old self.new) (λ r. AsksToWake r self.old self.new) }
    {
        match self.seat.state() {
            StepState::Waking => Some(self.semaphore.try_wake(&mut self.seat)),
            StepState::Idle | StepState::Parking => None,
        }
    }

    pub(crate) fn is_idle(&self) -> bool
        ensures { IsTrue result ↔ (self.now.seat.standing ≡ Idle) }
    {
        match self.seat.state() {
            StepState::Idle => true,
            StepState::Parking | StepState::Waking => false,
        }
    }
}
