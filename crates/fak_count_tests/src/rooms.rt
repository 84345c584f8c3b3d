//! Rooms.

ghost use Rattle.std.specs.Prelude.{◌≡◌, ◌≤◌, IsTrue, pos};
ghost use Rattle.fak_model.specs.Histories.{sum_below};
ghost use Rattle.fak_model.specs.Room.{amount_held, value};
ghost use Rattle.fak_count.specs.Seats.{IsSeatOf};

use super::assertions::assert_equal;
use super::counted::is_counted;
use fak_count::{OpenFault, Room, RoomSeat, RoomTally, TirFault};
use fak_model::laws::room::amounts_held_in_a_room_fit;
use std::alloc::Global;
use std::process::Abort;
use std::test::*;
use std::thread::{Threads, join};

/// A room with two seats.
fn open_two(rt: &impl Abort, alloc: Global, bound: u64, stint: u64) -> (Room, RoomSeat, RoomSeat)
    ensures first { IsSeatOf result.0.object result.1 }
    ensures second { IsSeatOf result.0.object result.2 }
{
    let (room, mut seats) = Room::open(alloc, bound, 2, stint).expect(rt, "open");
    let b = seats.pop().expect(rt, "two seats");
    let a = seats.pop().expect(rt, "two seats");
    (room, a, b)
}

#[test]
fn claims_and_releases_in_turn(rt: HostRuntime) {
    let (room, mut a, mut b) = open_two(&rt, rt.alloc(), 5, 2);
    assert_equal(&rt, room.tir(&mut a, 3), Ok(0));
    assert_equal(&rt, room.tir(&mut b, 3), Err(TirFault::AtBound(3)));
    assert_equal(&rt, room.tir(&mut b, 2), Ok(3));
    assert_equal(&rt, a.held(), 3);
    if a.held() < 3 {
        panic!(rt; "held")
    }
    assert_equal(&rt, room.release(&mut a, 3), 5);
    assert_equal(&rt, a.left(), 1);
    assert_equal(&rt, room.tir(&mut a, 1), Ok(2));
    assert_equal(&rt, room.tir(&mut a, 1), Err(TirFault::Worn));
    assert_equal(&rt, (a.left(), a.held()), (0, 1));
    let one = RoomTally::of(a);
    assert_equal(&rt, one.is_whole(), false);
    let all = room.join(one, b);
    assert_equal(&rt, all.is_whole(), true);
}

#[test]
fn a_room_of_bound_0_is_full(rt: HostRuntime) {
    let (room, mut seats) = Room::open(rt.alloc(), 0, 1, 1).expect(&rt, "open");
    let mut a = seats.pop().expect(&rt, "one seat");
    assert_equal(&rt, room.tir(&mut a, 1), Err(TirFault::AtBound(0)));
    assert_equal(&rt, a.left(), 1);
    assert_equal(&rt, RoomTally::of(a).is_whole(), true);
}

#[test]
fn a_worn_seat_is_told_so_in_a_full_room(rt: HostRuntime) {
    let (room, mut a, mut b) = open_two(&rt, rt.alloc(), 1, 1);
    assert_equal(&rt, room.tir(&mut a, 1), Ok(0));
    assert_equal(&rt, room.tir(&mut b, 1), Err(TirFault::AtBound(1)));
    assert_equal(&rt, room.tir(&mut a, 1), Err(TirFault::Worn));
    assert_equal(&rt, room.tir(&mut a, 1024), Err(TirFault::Worn));
    assert_equal(&rt, (a.left(), a.held()), (0, 1));
}

/// Whether one seat may claim this amount of a room of 1,024 and give it back, while a claim of the other seat is
/// refused: one more than is left.
fn fits(room: &Room, a: &mut RoomSeat, b: &mut RoomSeat, d: u64) -> bool
    requires amount { (1 ≤ d) × (d ≤ 1024) }
    requires seats { IsSeatOf room.now.object a.old × IsSeatOf room.now.object b.old }
    ensures seats { IsSeatOf room.now.object a.new × IsSeatOf room.now.object b.new }
{
    let Ok(0) = room.tir(a, d) else {
        return false;
    };
    if room.tir(b, 1025 - d) != Err(TirFault::AtBound(d as i64)) {
        return false;
    }
    room.release(a, d) == d as i64
}

/// Claims and gives back each amount that a claim may have.
fn each_amount_fits(rt: &impl Abort, room: &Room, mut a: RoomSeat, mut b: RoomSeat)
    requires { IsSeatOf room.now.object a × IsSeatOf room.now.object b }
{
    for d in 1..1025 {
        assert!(rt; fits(room, &mut a, &mut b, d), "{d}");
    }
    assert_equal(
        rt,
        (a.left(), a.held(), b.left(), b.held()),
        (0, 0, 1024, 0),
    );
}

#[test]
fn amounts_from_1_to_1_024(rt: HostRuntime) {
    let (room, a, b) = open_two(&rt, rt.alloc(), 1024, 1024);
    each_amount_fits(&rt, &room, a, b);
}

#[test]
fn rooms_out_of_range_are_not_opened(rt: HostRuntime) {
    for &(bound, seats, stint, fault) in &[
        (4_294_967_297, 1, 1, OpenFault::BadSize),
        (4_294_967_297, 0, 0, OpenFault::BadSize),
        (0, 0, 0, OpenFault::BadSeats),
        (1, 65, 1, OpenFault::BadSeats),
        (1, 1, 0, OpenFault::BadStint),
        (1, 1, 1_099_511_627_777, OpenFault::BadStint),
    ] {
        let found = Room::open(rt.alloc(), bound, seats, stint).expect_err(&rt, "opened");
        assert_equal(&rt, found, fault);
    }
    let (_widest, seats) = Room::open(rt.alloc(), 4_294_967_296, 64, 1_099_511_627_776).expect(
        &rt, "widest",
    );
    assert_equal(&rt, seats.len(), 64);
}

/// Performs this many claims of 1, each followed by its release if it is granted.
fn rounds(room: &Room, mut seat: RoomSeat, count: usize) -> RoomSeat
    requires { seat.object ≡ room.now.object }
    ensures { result.object ≡ room.now.object }
{
    for _ in 0..count {
        if room.tir(&mut seat, 1).is_ok() {
            room.release(&mut seat, 1);
        }
    }
    seat
}

#[test]
fn two_threads_leave_a_room_empty(rt: HostRuntime) {
    let (room, mut seats) = Room::open(rt.alloc(), 1, 3, 1000).expect(&rt, "open");
    let mut c = seats.pop().expect(&rt, "three seats");
    let b = seats.pop().expect(&rt, "three seats");
    let a = seats.pop().expect(&rt, "three seats");
    let room = &room;
    let (a, b) = join(
        &rt,
        move || -> RoomSeat
            requires { a.object ≡ room.now.object }
            ensures { result.object ≡ room.entry.now.object }
        { rounds(room, a, 1000) },
        move || -> RoomSeat
            requires { b.object ≡ room.now.object }
            ensures { result.object ≡ room.entry.now.object }
        { rounds(room, b, 1000) },
    );
    assert_equal(&rt, room.tir(&mut c, 1), Ok(0));
    let all = room.join(room.join(RoomTally::of(c), a), b);
    assert_equal(&rt, all.is_whole(), true);
}

/// The tally of these two seats, and whether they are all seats of the room. What they hold together is within its
/// bound; if they are all, it is also the value.
fn fit_together(room: &Room, a: RoomSeat, b: RoomSeat) -> (RoomTally, bool)
    requires { IsSeatOf room.now.object a × IsSeatOf room.now.object b }
    ensures fits { sum_below (λ seat. amount_held seat result.0.seen) result.0.object.seats ≤ room.now.bound }
    ensures counts { IsTrue result.1
        → value result.0.seen ≡ pos (sum_below (λ seat. amount_held seat result.0.seen) result.0.object.seats) }
{
    amounts_held_in_a_room_fit();
    let tally = room.join(RoomTally::of(a), b);
    let whole = tally.is_whole();
    (tally, whole)
}

#[test]
fn a_whole_room_is_counted(rt: HostRuntime) {
    let (room, a, mut b) = open_two(&rt, rt.alloc(), 5, 2);
    assert_equal(&rt, room.tir(&mut b, 3), Ok(0));
    let (tally, whole) = fit_together(&room, a, b);
    assert_equal(&rt, whole, true);
    assert_equal(&rt, is_counted(&tally), true);
}
