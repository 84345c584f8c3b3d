//! Large semaphores: a larger wait queue and more seats than `open` allows.

ghost use Rattle.std.specs.Prelude.{◌≡◌, All};

use crate::assertions::assert_equal;
use crate::steps::{Step, close, joined, take, walk};
use fak_sem::{
    LARGE_SEATS, LARGE_SIZE, LARGE_TICKETS, LARGEST_BOUND, LARGEST_SIZE, LargeFault, MOST_SEATS,
    SemSeat, Semaphore,
};
use std::alloc::Global;
use std::process::Abort;
use std::sync::Wait;

/// Limits that are refused, each with its fault: the start, the size, the number of seats, and the stint.
const REFUSED: &[((u64, u64, u64, u64), LargeFault)] = &[
    ((LARGEST_BOUND + 1, 1, 1, 1), LargeFault::BadSize),
    ((0, LARGE_SIZE + 1, 1, 1), LargeFault::BadSize),
    ((0, 0, 0, 0), LargeFault::BadSize),
    ((0, 1, 0, 0), LargeFault::BadSeats),
    ((0, 1, LARGE_SEATS + 1, 0), LargeFault::BadSeats),
    ((0, 1, LARGE_SEATS, 0), LargeFault::BadStint),
    ((0, 1, 1, LARGE_TICKETS + 1), LargeFault::BadStint),
];

#[test]
fn large_limits_are_tested(rt: HostRuntime) {
    for &((start, size, seats, stint), fault) in REFUSED {
        let found = Semaphore::<u64>::open_large(rt.alloc(), start, size, seats, stint);
        assert_equal(&rt, found.expect_err(&rt, "opened"), fault);
    }
}

/// An open large semaphore with all its seats.
fn open(
    rt: &impl Abort,
    alloc: Global,
    limits: (u64, u64, u64, u64),
) -> (Semaphore<u64>, Vec<SemSeat<u64>>)
    ensures { All (λ s. s.object ≡ result.0.object) result.1.items }
{
    let (start, size, seats, stint) = limits;
    let Ok((semaphore, seats)) = Semaphore::<u64>::open_large(alloc, start, size, seats, stint)
    else {
        panic!(rt; "open")
    };
    (semaphore, seats)
}

/// Opens a semaphore with start 1. The last seat's down parks nothing, the first seat's down parks its item, and the
/// last seat's up wakes it.
fn parks_and_wakes<R: Abort + Wait>(rt: &R, alloc: Global, size: u64, many: u64, stint: u64) {
    let (semaphore, mut seats) = open(rt, alloc, (1, size, many, stint));
    assert_equal(rt, seats.len() as u64, many);
    let last = seats.len().saturating_sub(1);
    let steps = [
        (last, Step::Down(7, Ok(Some(7)))),
        (0, Step::Down(8, Ok(None))),
        (last, Step::Up(Ok(Some(8)))),
        (0, Step::Up(Ok(None))),
    ];
    walk(rt, &semaphore, &mut seats, &steps);
}

#[test]
fn semaphores_of_many_seats(rt: HostRuntime) {
    for seats in [MOST_SEATS, MOST_SEATS + 1, 1000, LARGE_SEATS] {
        parks_and_wakes(&rt, rt.alloc(), seats, seats, LARGE_TICKETS / seats);
    }
}

#[test]
fn semaphores_of_long_wait_queues(rt: HostRuntime) {
    for size in [LARGEST_SIZE, LARGEST_SIZE + 1, 200_003] {
        parks_and_wakes(&rt, rt.alloc(), size, 2, LARGE_TICKETS / 2);
    }
}

/// Opens a semaphore at 0 with this many seats, each of which parks an item and wakes it. The last seat parks one more, which is
/// left. The tally is whole only once the last seat has joined.
fn each_seat_parks_and_wakes<R: Abort + Wait>(rt: &R, alloc: Global, many: u64) {
    let (semaphore, mut seats) = open(rt, alloc, (0, 3, many, 3));
    for name in 0..seats.len() {
        let who = name as u64;
        let steps = [
            (name, Step::Down(who, Ok(None))),
            (name, Step::Up(Ok(Some(who)))),
        ];
        walk(rt, &semaphore, &mut seats, &steps);
    }
    let mut last = take(rt, &semaphore, &mut seats);
    assert_equal(rt, semaphore.down(rt, &mut last, many), Ok(None));
    let tally = joined(rt, &semaphore, seats);
    assert_equal(rt, tally.is_whole(), false);
    let tally = semaphore.join(tally, last);
    let mut rest = close(rt, semaphore, tally);
    assert_equal(rt, rest.next(), Some(many));
    assert_equal(rt, rest.next(), None);
}

#[test]
fn each_seat_of_a_large_semaphore_parks_and_wakes(rt: HostRuntime) {
    each_seat_parks_and_wakes(&rt, rt.alloc(), MOST_SEATS + 1);
    each_seat_parks_and_wakes(&rt, rt.alloc(), LARGE_SEATS);
}
