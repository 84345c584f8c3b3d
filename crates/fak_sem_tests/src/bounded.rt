//! Downs and ups of a bounded number of steps. They show that the clauses of the steps together give those of `down` and `up`.

ghost use Rattle.std.specs.Prelude.{◌≡◌, MatchOption, MatchResult};
ghost use Rattle.fak_sem.specs.declared.standing.Standing.TheVariants.{Idle};
ghost use Rattle.fak_sem.specs.Semaphores.{Downs, Ups};
ghost use Rattle.fak_sem.specs.Steps.{IsWornStep, ParksSince, WakesSince};

use fak_sem::{SemSeat, SemWorn, Semaphore, StepSeat, StepState, Worn};
use std::process::Abort;

/// Returns what `down` returns, or `None` if the down is still open after this many steps.
pub fn try_down<T: Drop>(
    semaphore: &Semaphore<T>,
    seat: &mut StepSeat<T>,
    who: T,
    steps: u64,
) -> Result<Option<Option<T>>, SemWorn<T>>
    requires object { seat.old.seat.object ≡ semaphore.now.object }
    requires idle { seat.old.standing ≡ Idle }
    ensures object { seat.new.seat.object ≡ seat.old.seat.object }
    ensures call { MatchResult result
        (λ r. MatchOption r (ParksSince semaphore.now who seat.old.seat seat.new)
        (Downs semaphore.now who seat.old.seat seat.new.seat))
        (λ worn. (worn.0 ≡ who) × IsWornStep seat.old seat.new) }
{
    match semaphore.claim_down(seat, who) {
        Err(worn) => return Err(worn),
        Ok(Some(passed)) => return Ok(Some(Some(passed))),
        Ok(None) => {}
    }
    for _ in 0..steps {
        if semaphore.try_park(seat) {
            return Ok(Some(None));
        }
    }
    Ok(None)
}

/// Returns what `up` returns, or `None` if the up is still open after this many steps.
pub fn try_up<T: Drop>(
    semaphore: &Semaphore<T>,
    seat: &mut StepSeat<T>,
    steps: u64,
) -> Result<Option<Option<T>>, Worn>
    requires object { seat.old.seat.object ≡ semaphore.now.object }
    requires idle { seat.old.standing ≡ Idle }
    ensures object { seat.new.seat.object ≡ seat.old.seat.object }
    ensures call { MatchResult result
        (λ r. MatchOption r (WakesSince semaphore.now seat.old.seat seat.new)
        (Ups semaphore.now seat.old.seat seat.new.seat))
        (λ _. IsWornStep seat.old seat.new) }
{
    match semaphore.claim_up(seat) {
        Err(worn) => return Err(worn),
        Ok(false) => return Ok(Some(None)),
        Ok(true) => {}
    }
    for _ in 0..steps {
        if let Some(woken) = semaphore.try_wake(seat) {
            return Ok(Some(Some(woken)));
        }
    }
    Ok(None)
}

/// The seat for calls that wait, once the call by steps is done.
pub fn ended(rt: &impl Abort, semaphore: &Semaphore<u64>, seat: StepSeat<u64>) -> SemSeat<u64>
    requires { seat.seat.object ≡ semaphore.now.object }
    ensures { result.object ≡ semaphore.now.object }
{
    match seat.state() {
        StepState::Idle => seat.into_seat(),
        StepState::Parking | StepState::Waking => panic!(rt; "a call that stays open"),
    }
}

/// A down by steps, as many as it takes.
pub fn down_by_steps(
    rt: &impl Abort,
    semaphore: &Semaphore<u64>,
    seat: SemSeat<u64>,
    who: u64,
) -> (SemSeat<u64>, Option<u64>)
    requires { seat.object ≡ semaphore.now.object }
    ensures { result.0.object ≡ semaphore.now.object }
{
    let mut steps = StepSeat::of(seat);
    let Ok(Some(passed)) = try_down(semaphore, &mut steps, who, u64::MAX) else {
        panic!(rt; "a down that never parked, or a seat that is worn")
    };
    (ended(rt, semaphore, steps), passed)
}

/// An up by steps, as many as it takes.
pub fn up_by_steps(
    rt: &impl Abort,
    semaphore: &Semaphore<u64>,
    seat: SemSeat<u64>,
) -> (SemSeat<u64>, Option<u64>)
    requires { seat.object ≡ semaphore.now.object }
    ensures { result.0.object ≡ semaphore.now.object }
{
    let mut steps = StepSeat::of(seat);
    let Ok(Some(woken)) = try_up(semaphore, &mut steps, u64::MAX) else {
        panic!(rt; "an up that never woke, or a seat that is worn")
    };
    (ended(rt, semaphore, steps), woken)
}
