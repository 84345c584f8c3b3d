//! Worked rows, on one thread.

ghost use Rattle.std.specs.Prelude.{◌≡◌, ◌+◌, IsTrue, length, pos};
ghost use Rattle.fak_model.specs.Queue.{contents, lower_count};
ghost use Rattle.fak_sem.specs.Semaphores.{IsIdleSemSeat, passed_by};

#[cfg(test)]
use crate::assertions::{assert_equal, assert_written};
#[cfg(test)]
use crate::steps::{A, B, Step, close, joined, leaves_nothing, open, take, walk};
use fak_model::laws::queue::a_queue_at_rest_counts_its_items;
#[cfg(test)]
use fak_sem::{DownFault, UpFault};
use fak_sem::{OpenFault, SemSeat, SemTally, SemWorn, Semaphore, StepSeat, Worn};
use std::alloc::Global;
#[cfg(test)]
use std::fmt::Display;
use std::process::Abort;
use std::sync::Wait;

#[test]
fn a_down_that_passes_and_one_that_is_woken(rt: HostRuntime) {
    const STEPS: &[(usize, Step)] = &[
        (A, Step::Down(100, Ok(Some(100)))),
        (B, Step::Down(101, Ok(None))),
        (A, Step::Up(Ok(Some(101)))),
    ];
    let (semaphore, mut seats) = open(&rt, rt.alloc(), (1, 4, 2, 10));
    walk(&rt, &semaphore, &mut seats, STEPS);
    let b = take(&rt, &semaphore, &mut seats);
    let first = joined(&rt, &semaphore, seats);
    assert!(rt; !first.is_whole());
    let tally = semaphore.join(first, b);
    leaves_nothing(&rt, semaphore, tally);
}

#[test]
fn seats_with_one_call(rt: HostRuntime) {
    const STEPS: &[(usize, Step)] = &[
        (A, Step::Down(5, Ok(None))),
        (A, Step::Up(Err(Worn))),
        (B, Step::Up(Ok(Some(5)))),
        (B, Step::Down(6, Err(SemWorn(6)))),
    ];
    let (semaphore, mut seats) = open(&rt, rt.alloc(), (0, 1, 2, 1));
    walk(&rt, &semaphore, &mut seats, STEPS);
    let tally = joined(&rt, &semaphore, seats);
    leaves_nothing(&rt, semaphore, tally);
}

/// A value that is moved and never copied.
#[derive(Debug, PartialEq, Drop)]
struct Load {
    id: u64,
}

/// An up that wakes no item, a down that passes, three that park, and an up that wakes the oldest.
#[cfg(test)]
fn call_with_loads<R: Abort + Wait>(rt: &R, semaphore: &Semaphore<Load>, seat: &mut SemSeat<Load>)
    requires { seat.old.object ≡ semaphore.now.object }
    ensures { seat.new.object ≡ semaphore.now.object }
{
    assert_equal(rt, semaphore.up(rt, seat), Ok(None));
    assert_equal(
        rt,
        semaphore.down(rt, seat, Load { id: 1 }),
        Ok(Some(Load { id: 1 })),
    );
    assert_equal(rt, semaphore.down(rt, seat, Load { id: 2 }), Ok(None));
    assert_equal(rt, semaphore.down(rt, seat, Load { id: 3 }), Ok(None));
    assert_equal(rt, semaphore.down(rt, seat, Load { id: 4 }), Ok(None));
    assert_equal(rt, semaphore.up(rt, seat), Ok(Some(Load { id: 2 })));
}

#[test]
fn items_that_nobody_woke(rt: HostRuntime) {
    let (semaphore, mut seats) = open::<Load>(&rt, rt.alloc(), (0, 4, 1, 10));
    let mut a = take(&rt, &semaphore, &mut seats);
    call_with_loads(&rt, &semaphore, &mut a);
    let mut rest = close(&rt, semaphore, SemTally::of(a));
    assert_equal(&rt, rest.next(), Some(Load { id: 3 }));
    assert_equal(&rt, rest.next(), Some(Load { id: 4 }));
    assert_equal(&rt, rest.next(), None);
}

/// Checks that opening a semaphore with these limits is refused for this fault.
#[cfg(test)]
fn refuses(rt: &impl Abort, alloc: Global, limits: (u64, u64, u64, u64), fault: OpenFault) {
    let (start, size, seats, stint) = limits;
    let found = Semaphore::<u64>::open(alloc, start, size, seats, stint).expect_err(
        rt,
        "it opened",
    );
    assert!(rt; found == fault, "{limits:?}");
}

#[test]
fn the_ranges_of_an_opening(rt: HostRuntime) {
    const REFUSED: &[((u64, u64, u64, u64), OpenFault)] = &[
        (((1 << 32) + 1, 1, 1, 1), OpenFault::BadSize),
        ((0, 4097, 1, 1), OpenFault::BadSize),
        ((0, 0, 0, 0), OpenFault::BadSize),
        ((0, 1, 65, 0), OpenFault::BadSeats),
        ((0, 1, 0, 1), OpenFault::BadSeats),
        ((0, 1, 1, 0), OpenFault::BadStint),
        ((0, 1, 1, (1 << 40) + 1), OpenFault::BadStint),
    ];
    let alloc = rt.alloc();
    let (_, seats) = open::<u64>(&rt, alloc, (1 << 32, 4096, 64, 1 << 40));
    assert_equal(&rt, seats.len(), 64);
    drop(seats);
    for &(limits, fault) in REFUSED {
        refuses(&rt, alloc, limits, fault);
    }
}

/// Performs downs of the numbers below `count`, and returns how many passed. Stops early if the seat is worn.
fn down_below<R: Wait>(
    rt: &R,
    semaphore: &Semaphore<u64>,
    seat: &mut SemSeat<u64>,
    count: u64,
) -> u64
    requires { IsIdleSemSeat semaphore.now.object seat.old }
    ensures idle { IsIdleSemSeat semaphore.now.object seat.new }
    ensures passed { passed_by seat.new ≡ passed_by seat.old + result }
{
    let mut passed = 0u64;
    for who in 0..count {
        match semaphore.down(rt, seat, who) {
            Ok(Some(_)) => passed += 1,
            Ok(None) => {}
            Err(_) => return passed,
        }
    }
    passed
}

/// Whether all seats are in the tally. If so, the counts of the wait queue are the number of parked items.
fn counts_the_parked(tally: &SemTally<u64>) -> bool
    ensures { IsTrue result → lower_count tally.now.queue_seen ≡ pos (length (contents tally.now.queue_seen)) }
{
    a_queue_at_rest_counts_its_items::<u64>();
    tally.is_whole()
}

#[test]
fn downs_that_passed_are_counted(rt: HostRuntime) {
    let (semaphore, mut seats) = open(&rt, rt.alloc(), (2, 4, 1, 4));
    let mut a = take(&rt, &semaphore, &mut seats);
    assert_equal(&rt, down_below(&rt, &semaphore, &mut a, 3), 2);
    assert_equal(&rt, semaphore.up(&rt, &mut a), Ok(Some(2)));
    assert!(rt; counts_the_parked(&SemTally::of(a)));
}

#[test]
fn worn_seats_do_not_wait(rt: HostRuntime) {
    // the wait queue is full, and then empty
    const STEPS: &[(usize, Step)] = &[
        (A, Step::Down(5, Ok(None))),
        (A, Step::Down(6, Err(SemWorn(6)))),
        (B, Step::Up(Ok(Some(5)))),
        (B, Step::Up(Err(Worn))),
        (A, Step::Up(Err(Worn))),
    ];
    let (semaphore, mut seats) = open(&rt, rt.alloc(), (0, 1, 2, 1));
    walk(&rt, &semaphore, &mut seats, STEPS);
}

#[test]
fn what_debug_prints(rt: HostRuntime) {
    let (semaphore, mut seats) = open::<u64>(&rt, rt.alloc(), (3, 4, 2, 10));
    let mut a = StepSeat::of(take(&rt, &semaphore, &mut seats));
    assert_equal(&rt, semaphore.claim_down(&mut a, 7), Ok(Some(7)));
    assert_written(&rt, &semaphore, "Semaphore { .. }");
    assert_written(&rt, &seats, "[SemSeat { start: 3, left: 10, .. }]");
    assert_written(&rt, &a, "StepSeat { start: 3, left: 9, state: Idle, .. }");
}

#[test]
fn what_tallies_print(rt: HostRuntime) {
    let (semaphore, seats) = open::<u64>(&rt, rt.alloc(), (3, 4, 2, 10));
    assert_written(
        &rt,
        &joined(&rt, &semaphore, seats),
        "SemTally { start: 3, .. }",
    );
    assert_written(&rt, &SemWorn(7u64), "SemWorn(7)");
}

/// Checks that each fault is written as its text.
#[cfg(test)]
fn have_texts<F: Display>(rt: &(impl Abort + AllocGlobal), rows: &[(F, &str)]) {
    for (fault, text) in rows {
        let written = fault.to_string(rt.alloc()).expect(rt, "memory");
        assert_equal(rt, written.as_str(), *text);
    }
}

#[test]
fn what_faults_say(rt: HostRuntime) {
    const OPENS: &[(OpenFault, &str)] = &[
        (
            OpenFault::BadSize,
            "the start is above 4294967296, or the size is not 1 to 4096",
        ),
        (OpenFault::BadSeats, "the number of seats is not 1 to 64"),
        (OpenFault::BadStint, "the stint is not 1 to 1099511627776"),
        (OpenFault::Memory, "out of memory"),
    ];
    const DOWNS: &[(DownFault<u64>, &str)] = &[
        (DownFault::InCall { item: 7 }, "a call of the seat is open"),
        (DownFault::Worn { item: 7 }, "the stint is used up"),
    ];
    const UPS: &[(UpFault, &str)] = &[
        (UpFault::InCall, "a call of the seat is open"),
        (UpFault::Worn, "the stint is used up"),
    ];
    have_texts(&rt, OPENS);
    have_texts(&rt, DOWNS);
    have_texts(&rt, UPS);
    have_texts(&rt, &[(SemWorn(7u64), "the stint is used up")]);
}
