//! Objects of each size in range are opened with all their seats, and count as far as their limits allow.

use super::assertions::assert_equal;
use fak_count::{Credit, Room, TirFault};
use std::alloc::Global;
use std::process::Abort;
use std::test::*;

const WIDEST: u64 = 4_294_967_296;

const LONGEST: u64 = 1_099_511_627_776;

/// The powers of two up to `most`, the numbers next to them, and as many drawn numbers of each width.
fn spread(rt: &impl Abort, alloc: Global, most: u64) -> Vec<u64> {
    let mut numbers = Vec::new(alloc);
    let mut drawn = 1u64;
    for width in 0..41u32 {
        drawn = drawn
            .wrapping_mul(6_364_136_223_846_793_005)
            .wrapping_add(1_442_695_040_888_963_407);
        let power = 1u64 << width;
        for number in [power - 1, power, power + 1, drawn >> 23 >> (40 - width)] {
            if number <= most {
                numbers.push(number).expect(rt, "memory for a number");
            }
        }
    }
    numbers
}

/// The stint of this row, out of those that were spread.
fn stint_of(stints: &[u64], row: usize) -> u64 {
    let Some(stint) = stints.get(row.wrapping_mul(29) % 127) else {
        return LONGEST;
    };
    (*stint).max(1)
}

/// Opens the room, and checks that it has this many seats, all of them new.
fn room_has_seats(rt: &impl Abort, alloc: Global, bound: u64, seats: u64, stint: u64) {
    let (_room, dealt) = Room::open(alloc, bound, seats, stint).expect(rt, "room");
    assert_equal(rt, dealt.len() as u64, seats);
    for seat in dealt {
        assert_equal(rt, (seat.left(), seat.held()), (stint, 0));
    }
}

/// Opens the room with this many seats. Opens it again with one seat, which claims as much as one claim may, and more.
fn opens_room(rt: &impl Abort, alloc: Global, bound: u64, seats: u64, stint: u64) {
    room_has_seats(rt, alloc, bound, seats, stint);
    let (room, mut one) = Room::open(alloc, bound, 1, stint).expect(rt, "room");
    let mut seat = one.pop().expect(rt, "one seat");
    if bound > 0 {
        assert_equal(rt, room.tir(&mut seat, bound.min(1024)), Ok(0));
    }
    if bound < 1024 {
        let refusal = if bound > 0 && stint == 1 {
            TirFault::Worn
        } else {
            TirFault::AtBound(bound as i64)
        };
        assert_equal(rt, room.tir(&mut seat, 1025 - bound.max(1)), Err(refusal));
    }
}

#[test]
fn rooms_of_every_width(rt: HostRuntime) {
    let stints = spread(&rt, rt.alloc(), LONGEST);
    for (row, bound) in spread(&rt, rt.alloc(), WIDEST).into_iter().enumerate() {
        let stint = stint_of(stints.as_slice(), row);
        opens_room(&rt, rt.alloc(), bound, row as u64 % 64 + 1, stint);
    }
    for stint in stints {
        opens_room(&rt, rt.alloc(), 5, 1, stint.max(1));
    }
    for seats in 1..65 {
        opens_room(&rt, rt.alloc(), 5, seats, 2);
    }
}

/// Opens the credit, and checks that it has this many seats, all of them new.
fn credit_has_seats(rt: &impl Abort, alloc: Global, start: u64, seats: u64, stint: u64) {
    let (_credit, dealt) = Credit::open(alloc, start, seats, stint).expect(rt, "credit");
    assert_equal(rt, dealt.len() as u64, seats);
    for seat in dealt {
        assert_equal(rt, seat.left(), stint);
    }
}

/// Opens the credit with this many seats. Opens it again with one seat, which finds the start.
fn opens_credit(rt: &impl Abort, alloc: Global, start: u64, seats: u64, stint: u64) {
    credit_has_seats(rt, alloc, start, seats, stint);
    let (credit, mut one) = Credit::open(alloc, start, 1, stint).expect(rt, "credit");
    let mut seat = one.pop().expect(rt, "one seat");
    assert_equal(rt, credit.value(&mut seat), start as i64);
    assert_equal(rt, credit.debit(&mut seat), Ok(start as i64));
}

#[test]
fn credits_of_every_width(rt: HostRuntime) {
    let stints = spread(&rt, rt.alloc(), LONGEST);
    for (row, start) in spread(&rt, rt.alloc(), WIDEST).into_iter().enumerate() {
        let stint = stint_of(stints.as_slice(), row);
        opens_credit(&rt, rt.alloc(), start, row as u64 % 64 + 1, stint);
    }
    for stint in stints {
        opens_credit(&rt, rt.alloc(), 5, 1, stint.max(1));
    }
    for seats in 1..65 {
        opens_credit(&rt, rt.alloc(), 5, seats, 2);
    }
}
