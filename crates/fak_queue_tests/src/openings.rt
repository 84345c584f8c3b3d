//! Queues of each size in range are opened, with all their seats, and hold as many items as their size states.

ghost use Rattle.fak_queue.specs.Queues.{IsIdleSeat};

use super::assertions::{assert_case, assert_equal};
use super::steps::{open, open_one};
use fak_queue::{DeleteFault, InsertFault, LARGEST_SIZE, LONGEST_STINT, MOST_SEATS, Queue, Seat};
use std::process::Abort;
use std::sync::Wait;
use std::test::*;

/// The stint of this row: the powers of two in turn, the numbers next to them, and pseudo-random ones.
fn stint_of(row: u64) -> u64 {
    let power = 1u64 << (row % 41);
    let drawn = row.wrapping_mul(11_400_714_819_323_198_485) >> 24;
    let stint = match row / 41 % 4 {
        0 => power,
        1 => power - 1,
        2 => power + 1,
        _ => drawn % power,
    };
    stint.max(1).min(LONGEST_STINT)
}

/// Opens a queue of items of any type, each of whose seats may draw the whole stint.
fn opens(rt: &(impl Abort + AllocGlobal), size: u64, seats: u64, stint: u64) {
    let (_queue, dealt) = open::<Vec<u8>>(rt, (size, seats, stint));
    assert_equal(rt, dealt.len() as u64, seats);
    have_left(rt, dealt.as_slice(), stint);
}

/// Checks that each seat may draw this number of tickets.
fn have_left<T>(rt: &impl Abort, seats: &[Seat<T>], stint: u64) {
    for seat in seats {
        assert_equal(rt, seat.left(), stint);
    }
}

#[test]
fn queues_of_each_size(rt: HostRuntime) {
    for size in 1..LARGEST_SIZE + 1 {
        opens(&rt, size, size % MOST_SEATS + 1, stint_of(size));
    }
    for seats in 1..MOST_SEATS + 1 {
        opens(&rt, 5, seats, 9);
    }
}

/// Checks that the numbers below `size` go in, and no more.
fn fills<R: Abort + Wait>(rt: &R, queue: &Queue<u64>, seat: &mut Seat<u64>, size: u64)
    requires { IsIdleSeat queue.now.object seat.old }
    ensures { IsIdleSeat queue.now.object seat.new }
{
    for item in 0..size {
        assert_case(rt, &(size, item), queue.insert(rt, seat, item).is_ok());
    }
    let full = InsertFault::Full {
        upper: i64::try_from(size).expect(rt, "a size"),
        item: size,
    };
    assert_equal(rt, queue.insert(rt, seat, size), Err(full));
}

/// Checks that the numbers below `size` come out in their order, and no more.
fn empties<R: Abort + Wait>(rt: &R, queue: &Queue<u64>, seat: &mut Seat<u64>, size: u64)
    requires { IsIdleSeat queue.now.object seat.old }
    ensures { IsIdleSeat queue.now.object seat.new }
{
    for wanted in 0..size {
        let (_, item) = queue.delete(rt, seat).expect(rt, "an item");
        assert_case(rt, &(size, wanted), item == wanted);
    }
    assert_equal(rt, queue.delete(rt, seat), Err(DeleteFault::Empty(0)));
}

/// Opens a queue of this size, and fills and empties it twice.
fn holds_twice<R: Abort + AllocGlobal + Wait>(rt: &R, size: u64) {
    let (queue, mut seat) = open_one(rt, size, LONGEST_STINT);
    fills(rt, &queue, &mut seat, size);
    empties(rt, &queue, &mut seat, size);
    fills(rt, &queue, &mut seat, size);
    empties(rt, &queue, &mut seat, size);
}

#[test]
fn queues_hold_as_many_items_as_they_say(rt: HostRuntime) {
    for size in 1..129 {
        holds_twice(&rt, size);
    }
    for width in 7..12u32 {
        let power = 1u64 << width;
        for size in [power - 1, power + 1, power + power / 3, 2 * power] {
            holds_twice(&rt, size);
        }
    }
}
