//! Calls of semaphores: whole ones, and by steps.

use super::sentinels::{begin, end};
use fak_sem::{SemPort, Semaphore, StepPort, StepState};
use std::sync::Wait;

/// The calls of two ports of a semaphore that begins at 1.
fn park_and_wake<R: Wait>(
    rt: &R,
    first: &mut SemPort<'_, u64>,
    second: &mut SemPort<'_, u64>,
) -> bool {
    first.down(rt, 100) == Ok(Some(100))
        && second.down(rt, 101) == Ok(None)
        && first.up(rt) == Ok(Some(101))
        && second.up(rt) == Ok(None)
        && first.left() == 8
}

/// Whole calls.
pub(super) fn call_ports(rt: &(impl Print + AllocGlobal + Wait)) -> bool {
    let Ok((semaphore, mut seats)) = Semaphore::<u64>::open(rt.alloc(), 1, 4, 2, 10) else {
        return false;
    };
    let Some(seat) = seats.pop() else {
        unreachable!()
    };
    let mut first = SemPort::new(&semaphore, seat);
    let Some(seat) = seats.pop() else {
        unreachable!()
    };
    let mut second = SemPort::new(&semaphore, seat);
    begin(rt);
    let are_as_expected = park_and_wake(rt, &mut first, &mut second);
    end(rt, "SemPort: down, up, left", are_as_expected);
    true
}

/// A down that parks and an up that wakes, by steps of two ports of a semaphore that begins at 0.
fn step(first: &mut StepPort<'_, u64>, second: &mut StepPort<'_, u64>) -> bool {
    first.claim_down(100) == Ok(None)
        && first.state() == StepState::Parking
        && first.try_park() == Some(true)
        && second.claim_up() == Ok(true)
        && second.try_wake() == Some(Some(100))
        && second.state() == StepState::Idle
        && second.left() == 9
}

/// Calls by steps.
pub(super) fn call_steps(rt: &(impl Print + AllocGlobal)) -> bool {
    let Ok((semaphore, mut seats)) = Semaphore::<u64>::open(rt.alloc(), 0, 4, 2, 10) else {
        return false;
    };
    let Some(seat) = seats.pop() else {
        unreachable!()
    };
    let mut first = StepPort::new(&semaphore, seat);
    let Some(seat) = seats.pop() else {
        unreachable!()
    };
    let mut second = StepPort::new(&semaphore, seat);
    begin(rt);
    let are_as_expected = step(&mut first, &mut second);
    end(
        rt,
        "StepPort: claim_down, try_park, claim_up, try_wake, state, left",
        are_as_expected,
    );
    true
}
