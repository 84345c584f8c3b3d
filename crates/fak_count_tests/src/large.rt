//! Large rooms and credits: more seats than `open` allows.

ghost use Rattle.std.specs.Prelude.{◌≤◌, All};
ghost use Rattle.fak_count.specs.Seats.{IsSeatOf};

use super::assertions::assert_equal;
use fak_count::{
    Credit, CreditSeat, CreditTally, LARGE_SEATS, LARGE_TICKETS, LARGEST_BOUND, LargeFault,
    MOST_SEATS, Room, RoomSeat, RoomTally, TirFault,
};
use std::alloc::Global;
use std::process::Abort;
use std::test::*;

/// Numbers of seats on both sides of what `open` allows.
const SEATS: [u64; 4] = [MOST_SEATS, MOST_SEATS + 1, 1000, LARGE_SEATS];

/// Limits that are refused, each with its fault.
const REFUSED: &[(u64, u64, u64, LargeFault)] = &[
    (LARGEST_BOUND + 1, 0, 0, LargeFault::BadSize),
    (LARGEST_BOUND, 0, 0, LargeFault::BadSeats),
    (1, LARGE_SEATS + 1, 0, LargeFault::BadSeats),
    (1, LARGE_SEATS, 0, LargeFault::BadStint),
    (1, 1, LARGE_TICKETS + 1, LargeFault::BadStint),
    (
        1,
        LARGE_SEATS,
        LARGE_TICKETS / LARGE_SEATS + 1,
        LargeFault::BadStint,
    ),
];

#[test]
fn large_limits_are_tested(rt: HostRuntime) {
    for &(size, seats, stint, fault) in REFUSED {
        let room = Room::open_large(rt.alloc(), size, seats, stint).expect_err(&rt, "opened");
        assert_equal(&rt, room, fault);
        let credit = Credit::open_large(rt.alloc(), size, seats, stint).expect_err(&rt, "opened");
        assert_equal(&rt, credit, fault);
    }
}

#[test]
fn rooms_of_many_seats(rt: HostRuntime) {
    for seats in SEATS {
        let stint = LARGE_TICKETS / seats;
        let (_room, dealt) = Room::open_large(rt.alloc(), LARGEST_BOUND, seats, stint).expect(
            &rt, "room",
        );
        assert_equal(&rt, dealt.len() as u64, seats);
        for seat in dealt {
            assert_equal(&rt, (seat.left(), seat.held()), (stint, 0));
        }
    }
}

#[test]
fn credits_of_many_seats(rt: HostRuntime) {
    for seats in SEATS {
        let stint = LARGE_TICKETS / seats;
        let (_credit, dealt) = Credit::open_large(rt.alloc(), 3, seats, stint).expect(
            &rt, "credit",
        );
        assert_equal(&rt, dealt.len() as u64, seats);
        for seat in dealt {
            assert_equal(&rt, seat.left(), stint);
        }
    }
}

#[test]
fn a_large_room_is_a_room(rt: HostRuntime) {
    let (room, mut one) = Room::open_large(rt.alloc(), 5, 1, LARGE_TICKETS).expect(&rt, "room");
    let mut seat = one.pop().expect(&rt, "one seat");
    assert_equal(&rt, room.tir(&mut seat, 3), Ok(0));
    assert_equal(&rt, room.tir(&mut seat, 3), Err(TirFault::AtBound(3)));
    assert_equal(&rt, seat.left(), LARGE_TICKETS - 1);
}

#[test]
fn a_large_credit_is_a_credit(rt: HostRuntime) {
    let (credit, mut one) = Credit::open_large(rt.alloc(), 5, 1, LARGE_TICKETS).expect(
        &rt, "credit",
    );
    let mut seat = one.pop().expect(&rt, "one seat");
    assert_equal(&rt, credit.debit(&mut seat), Ok(5));
    assert_equal(&rt, credit.credit(&mut seat), Ok(4));
    assert_equal(&rt, seat.left(), LARGE_TICKETS - 2);
}

/// An open large room with all its seats. Each may be granted one claim.
fn open_room(rt: &impl Abort, alloc: Global, bound: u64, seats: u64) -> (Room, Vec<RoomSeat>)
    ensures { All (IsSeatOf result.0.object) result.1.items }
{
    let Ok((room, seats)) = Room::open_large(alloc, bound, seats, 1) else {
        panic!(rt; "open")
    };
    (room, seats)
}

/// Takes out the last seat, which claims 2 and gives 1 back. Its claim must find this value.
fn claim_next(rt: &impl Abort, room: &Room, seats: &mut Vec<RoomSeat>, before: i64) -> RoomSeat
    requires { All (IsSeatOf room.now.object) seats.old.items }
    ensures seat { IsSeatOf room.now.object result }
    ensures others { All (IsSeatOf room.now.object) seats.new.items }
{
    let mut seat = seats.pop().expect(rt, "a seat");
    let Ok(found) = room.tir(&mut seat, 2) else {
        panic!(rt; "a claim that is refused")
    };
    assert_equal(rt, found, before);
    assert_equal(rt, room.release(&mut seat, 1), before.wrapping_add(2));
    seat
}

/// Opens a room with this many seats. Each claims and joins the tally, the last one first. The tally is whole only once the first
/// seat has joined.
fn each_seat_claims(rt: &impl Abort, alloc: Global, many: u64)
    requires { many ≤ 1024 }
{
    let (room, mut seats) = open_room(rt, alloc, LARGEST_BOUND, many);
    let room = &room;
    let mut tally = RoomTally::of(claim_next(rt, room, &mut seats, 0));
    for before in 1..many {
        assert_equal(rt, tally.is_whole(), false);
        tally = room.join(tally, claim_next(rt, room, &mut seats, before as i64));
    }
    assert_equal(rt, tally.is_whole(), true);
}

#[test]
fn each_seat_of_a_large_room_claims(rt: HostRuntime) {
    each_seat_claims(&rt, rt.alloc(), MOST_SEATS + 1);
    each_seat_claims(&rt, rt.alloc(), LARGE_SEATS);
}

/// An open large credit at 0 with all its seats. Each may perform three calls.
fn open_credit(rt: &impl Abort, alloc: Global, seats: u64) -> (Credit, Vec<CreditSeat>)
    ensures { All (IsSeatOf result.0.object) result.1.items }
{
    let Ok((credit, seats)) = Credit::open_large(alloc, 0, seats, 3) else {
        panic!(rt; "open")
    };
    (credit, seats)
}

/// Takes out the last seat, which credits 2 and debits 1. Its first call must find this value.
fn credit_next(
    rt: &impl Abort,
    credit: &Credit,
    seats: &mut Vec<CreditSeat>,
    before: i64,
) -> CreditSeat
    requires { All (IsSeatOf credit.now.object) seats.old.items }
    ensures seat { IsSeatOf credit.now.object result }
    ensures others { All (IsSeatOf credit.now.object) seats.new.items }
{
    let mut seat = seats.pop().expect(rt, "a seat");
    assert_equal(rt, credit.credit(&mut seat), Ok(before));
    assert_equal(rt, credit.credit(&mut seat), Ok(before.wrapping_add(1)));
    assert_equal(rt, credit.debit(&mut seat), Ok(before.wrapping_add(2)));
    seat
}

/// Opens a credit with this many seats. Each calls and joins the tally, the last one first. The tally is whole only once the first
/// seat has joined.
fn each_seat_credits(rt: &impl Abort, alloc: Global, many: u64)
    requires { many ≤ 1024 }
{
    let (credit, mut seats) = open_credit(rt, alloc, many);
    let credit = &credit;
    let mut tally = CreditTally::of(credit_next(rt, credit, &mut seats, 0));
    for before in 1..many {
        assert_equal(rt, tally.is_whole(), false);
        tally = credit.join(tally, credit_next(rt, credit, &mut seats, before as i64));
    }
    assert_equal(rt, tally.is_whole(), true);
}

#[test]
fn each_seat_of_a_large_credit_credits(rt: HostRuntime) {
    each_seat_credits(&rt, rt.alloc(), MOST_SEATS + 1);
    each_seat_credits(&rt, rt.alloc(), LARGE_SEATS);
}
