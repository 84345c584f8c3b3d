//! Downs and ups by steps, which are repeated until the call is done.

ghost use Rattle.std.specs.Prelude.{◌≡◌};
ghost use Rattle.fak_sem.specs.declared.standing.Standing.TheVariants.{Idle};
ghost use Rattle.fak_sem.specs.Standings.{IsParking, IsWaking};

use crossbeam_utils::Backoff;
use fak_sem::{Semaphore, StepSeat};
use std::sync::Wait;

/// A down of the item. Returns the item if it passes, and `None` if it is parked or the seat is worn.
pub fn down_by_steps<R: Wait>(
    rt: &R,
    semaphore: &Semaphore<u64>,
    seat: &mut StepSeat<u64>,
    who: u64,
) -> Option<u64>
    requires object { seat.old.seat.object ≡ semaphore.now.object }
    requires idle { seat.old.standing ≡ Idle }
    ensures object { seat.new.seat.object ≡ semaphore.now.object }
    ensures idle { seat.new.standing ≡ Idle }
{
    match semaphore.claim_down(seat, who) {
        Ok(Some(passed)) => Some(passed),
        Ok(None) => {
            park(rt, semaphore, seat);
            None
        }
        Err(_) => None,
    }
}

/// Tries to park the item until it is parked.
fn park<R: Wait>(rt: &R, semaphore: &Semaphore<u64>, seat: &mut StepSeat<u64>)
    requires object { seat.old.seat.object ≡ semaphore.now.object }
    requires parking { IsParking seat.old.standing }
    ensures object { seat.new.seat.object ≡ semaphore.now.object }
    ensures idle { seat.new.standing ≡ Idle }
{
    let backoff = Backoff::new();
    for _ in rt.forever() {
        if semaphore.try_park(seat) {
            return;
        }
        backoff.snooze();
    }
    unreachable!()
}

/// An up. Returns the item that it wakes, or `None` if it wakes none or the seat is worn.
pub fn up_by_steps<R: Wait>(
    rt: &R,
    semaphore: &Semaphore<u64>,
    seat: &mut StepSeat<u64>,
) -> Option<u64>
    requires object { seat.old.seat.object ≡ semaphore.now.object }
    requires idle { seat.old.standing ≡ Idle }
    ensures object { seat.new.seat.object ≡ semaphore.now.object }
    ensures idle { seat.new.standing ≡ Idle }
{
    match semaphore.claim_up(seat) {
        Ok(true) => Some(wake(rt, semaphore, seat)),
        Ok(false) | Err(_) => None,
    }
}

/// Tries to wake an item until one is woken.
fn wake<R: Wait>(rt: &R, semaphore: &Semaphore<u64>, seat: &mut StepSeat<u64>) -> u64
    requires object { seat.old.seat.object ≡ semaphore.now.object }
    requires waking { IsWaking seat.old.standing }
    ensures object { seat.new.seat.object ≡ semaphore.now.object }
    ensures idle { seat.new.standing ≡ Idle }
{
    let backoff = Backoff::new();
    for _ in rt.forever() {
        if let Some(who) = semaphore.try_wake(seat) {
            return who;
        }
        backoff.snooze();
    }
    unreachable!()
}
