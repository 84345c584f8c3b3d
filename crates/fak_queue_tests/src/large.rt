//! Large queues: more cells and more seats than `open` allows.

ghost use Rattle.std.specs.Prelude.{◌≡◌, All};
ghost use Rattle.fak_queue.specs.Queues.{IsIdleSeat};

use super::assertions::{assert_case, assert_equal};
use super::steps::{assert_idle, close, close_all, take};
use fak_queue::{
    InsertFault, LARGE_SEATS, LARGE_SIZE, LARGE_TICKETS, LARGEST_SIZE, LONGEST_STINT, LargeFault,
    MOST_SEATS, Queue, Rest, Seat, Tally,
};
use std::process::Abort;
use std::sync::{Mutex, Wait};
use std::test::*;
use std::thread::{Threads, map_vec};

/// An open large queue with all its seats.
pub fn open<T: Drop>(
    rt: &(impl Abort + AllocGlobal),
    limits: (u64, u64, u64),
) -> (Queue<T>, Vec<Seat<T>>)
    ensures { All (λ s. s.object ≡ result.0.object) result.1.items }
{
    let (size, seats, stint) = limits;
    Queue::<T>::open_large(rt.alloc(), size, seats, stint).expect(rt, "open_large")
}

/// Limits that are refused, each with the fault.
const REFUSED: &[(u64, u64, u64, LargeFault)] = &[
    (0, 0, 0, LargeFault::BadSize),
    (LARGE_SIZE + 1, 1, 1, LargeFault::BadSize),
    (1, 0, 0, LargeFault::BadSeats),
    (LARGE_SIZE, LARGE_SEATS + 1, 1, LargeFault::BadSeats),
    (1, 1, 0, LargeFault::BadStint),
    (1, 1, LARGE_TICKETS + 1, LargeFault::BadStint),
    (1, LARGE_SEATS, LONGEST_STINT + 1, LargeFault::BadStint),
];

#[test]
fn large_limits_are_tested(rt: HostRuntime) {
    for &(size, seats, stint, fault) in REFUSED {
        let refused = Queue::<u64>::open_large(rt.alloc(), size, seats, stint);
        assert_case(&rt, &(size, seats, stint), refused.err() == Some(fault));
    }
}

#[test]
fn each_number_of_large_seats(rt: HostRuntime) {
    for seats in [1, MOST_SEATS, MOST_SEATS + 1, 1000, LARGE_SEATS] {
        let (queue, dealt) = open::<u64>(&rt, (1, seats, LARGE_TICKETS / seats));
        assert_equal(&rt, dealt.len() as u64, seats);
        assert_equal(&rt, close_all(&rt, queue, dealt).next(), None);
    }
}

/// Inserts the numbers below `count`, and checks that their tickets follow one another.
fn fills<R: Abort + Wait>(
    rt: &R,
    queue: &Queue<u64>,
    seat: &mut Seat<u64>,
    first_ticket: u64,
    count: u64,
)
    requires { IsIdleSeat queue.now.object seat.old }
    ensures { IsIdleSeat queue.now.object seat.new }
{
    for item in 0..count {
        let ticket = queue.insert(rt, seat, item);
        assert_case(rt, &item, ticket == Ok(first_ticket.wrapping_add(item)));
    }
}

/// Checks that the numbers below `count` come out in their order.
fn empties<R: Abort + Wait>(rt: &R, queue: &Queue<u64>, seat: &mut Seat<u64>, count: u64)
    requires { IsIdleSeat queue.now.object seat.old }
    ensures { IsIdleSeat queue.now.object seat.new }
{
    for wanted in 0..count {
        let (_, item) = queue.delete(rt, seat).expect(rt, "an item");
        assert_case(rt, &wanted, item == wanted);
    }
}

/// Checks that exactly the numbers below `count` are left, in their order.
fn leaves(rt: &impl Abort, mut rest: Rest<u64>, count: u64) {
    for wanted in 0..count {
        assert_case(rt, &wanted, rest.next() == Some(wanted));
    }
    assert_equal(rt, rest.next(), None);
}

/// Fills a queue of this size, checks that it is full, goes round its cells more than once, and closes it while it is full.
fn goes_round<R: Abort + AllocGlobal + Wait>(rt: &R, size: u64) {
    let (queue, mut seats) = open(rt, (size, 2, LARGE_TICKETS / 2));
    let mut seat = take(rt, &queue, &mut seats);
    fills(rt, &queue, &mut seat, 0, size);
    let full = InsertFault::Full {
        upper: i64::try_from(size).expect(rt, "a size"),
        item: 7,
    };
    assert_equal(rt, queue.insert(rt, &mut seat, 7), Err(full));
    empties(rt, &queue, &mut seat, size);
    fills(rt, &queue, &mut seat, size, size / 2);
    empties(rt, &queue, &mut seat, size / 2);
    fills(rt, &queue, &mut seat, size.wrapping_add(size / 2), size);
    let tally = queue.join(Tally::of(seat), take(rt, &queue, &mut seats));
    leaves(rt, close(rt, queue, tally), size);
}

#[test]
fn large_queues_hold_as_many_items_as_they_say(rt: HostRuntime) {
    for size in [LARGEST_SIZE, LARGEST_SIZE + 1, 65_535, 200_003] {
        goes_round(&rt, size);
    }
}

/// Inserts the numbers below 100, deletes ninety items, and returns the sum of these.
fn insert_and_delete<R: Abort + Wait>(rt: &R, queue: &Queue<u64>, seat: &mut Seat<u64>) -> u64
    requires { IsIdleSeat queue.now.object seat.old }
    ensures { IsIdleSeat queue.now.object seat.new }
{
    let mut sum = 0u64;
    for item in 0..100u64 {
        let inserted = queue.wait_insert(rt, seat, item);
        assert_case(rt, &item, inserted.is_ok());
        if item < 90 {
            let (_, found) = queue.wait_delete(rt, seat).expect(rt, "an item");
            sum = sum.wrapping_add(found);
        }
    }
    sum
}

/// A seat's part of a storm.
fn work<R: Abort + Wait>(
    rt: &R,
    queue: &Queue<u64>,
    sum: &Mutex<u64>,
    mut seat: Seat<u64>,
) -> Seat<u64>
    requires { seat.object ≡ queue.now.object }
    ensures { result.object ≡ queue.now.object }
{
    assert_idle(rt, queue, &seat);
    let found = insert_and_delete(rt, queue, &mut seat);
    let mut all = sum.lock(rt);
    *all = all.wrapping_add(found);
    seat
}

/// Lets all seats work at once, each in a thread of its own.
fn work_all<R: Abort + AllocGlobal + Threads + Wait + Sync>(
    rt: &R,
    queue: &Queue<u64>,
    sum: &Mutex<u64>,
    seats: Vec<Seat<u64>>,
) -> Vec<Seat<u64>>
    requires { All (λ s. s.object ≡ queue.now.object) seats.items }
    ensures { All (λ s. s.object ≡ queue.now.object) result.items }
{
    let part = move |seat: Seat<u64>| -> Seat<u64>
        requires { seat.object ≡ queue.now.object }
        ensures { result.object ≡ queue.entry.now.object }
    { work(rt, queue, sum, seat) };
    map_vec(rt, seats, &part).expect(rt, "memory for the threads")
}

/// Returns how many items are left, and their sum.
fn drain(mut rest: Rest<u64>) -> (u64, u64) {
    let mut count = 0u64;
    let mut sum = 0u64;
    while let Some(item) = rest.next() {
        count = count.wrapping_add(1);
        sum = sum.wrapping_add(item);
    }
    (count, sum)
}

/// A storm of this many seats, of which 128 come after the first 64.
const SEATS_OF_A_STORM: u64 = MOST_SEATS + 128;

#[test]
fn a_storm_of_many_seats_in_a_million_cells(rt: HostRuntime) {
    let (queue, seats) = open(&rt, (1 << 20, SEATS_OF_A_STORM, 1 << 30));
    let sum = Mutex::new(0u64);
    let seats = work_all(&rt, &queue, &sum, seats);
    let (count, left) = drain(close_all(&rt, queue, seats));
    assert_equal(&rt, count, SEATS_OF_A_STORM * 10);
    assert_equal(
        &rt,
        sum.into_inner().wrapping_add(left),
        SEATS_OF_A_STORM * 4950,
    );
}
