//! Ports: a room or a credit and one of its seats as one value. The calls of a port require nothing, so their callers
//! state nothing.

use super::assertions::{assert_equal, assert_written};
use fak_count::{ClaimFault, Credit, CreditPort, CreditTally, Room, RoomPort, RoomTally, Worn};
use std::test::*;
use std::thread::join;

#[test]
fn a_port_claims_and_releases(rt: HostRuntime) {
    let (room, mut seats) = Room::open(rt.alloc(), 5, 1, 2).expect(&rt, "open");
    let mut port = RoomPort::new(&room, seats.pop().expect(&rt, "one seat"));
    assert_equal(&rt, port.tir(0), Err(ClaimFault::BadAmount));
    assert_equal(&rt, port.tir(1025), Err(ClaimFault::BadAmount));
    assert_equal(&rt, port.tir(6), Err(ClaimFault::AtBound(0)));
    assert_equal(&rt, port.tir(3), Ok(0));
    assert_equal(&rt, port.tir(1024), Err(ClaimFault::AtBound(3)));
    assert_equal(&rt, port.tir(2), Ok(3));
    assert_equal(&rt, (port.held(), port.left()), (5, 0));
    assert_equal(&rt, port.tir(1), Err(ClaimFault::Worn));
    assert_equal(&rt, port.release(0), None);
    assert_equal(&rt, port.release(6), None);
    assert_equal(&rt, port.release(1025), None);
    assert_equal(&rt, port.release(4), Some(5));
    assert_equal(&rt, port.release(2), None);
    assert_equal(&rt, port.release(1), Some(1));
    assert_equal(&rt, port.held(), 0);
    let tally = RoomTally::of(port.into_seat());
    assert_equal(&rt, tally.is_whole(), true);
}

#[test]
fn a_port_claims_and_releases_the_largest_amount(rt: HostRuntime) {
    let (room, mut seats) = Room::open(rt.alloc(), 2048, 1, 2).expect(&rt, "open");
    let mut port = RoomPort::new(&room, seats.pop().expect(&rt, "one seat"));
    assert_equal(&rt, port.tir(1024), Ok(0));
    assert_equal(&rt, port.tir(1024), Ok(1024));
    assert_equal(&rt, port.release(1025), None);
    assert_equal(&rt, port.release(1024), Some(2048));
    assert_equal(&rt, port.held(), 1024);
}

#[test]
fn a_port_debits_and_credits(rt: HostRuntime) {
    let (credit, mut seats) = Credit::open(rt.alloc(), 1, 1, 4).expect(&rt, "open");
    let mut port = CreditPort::new(&credit, seats.pop().expect(&rt, "one seat"));
    assert_equal(&rt, port.debit(), Ok(1));
    assert_equal(&rt, port.debit(), Ok(0));
    assert_equal(&rt, port.value(), -1);
    assert_equal(&rt, port.credit(), Ok(-1));
    assert_equal(&rt, port.left(), 1);
    assert_equal(&rt, port.credit(), Ok(0));
    assert_equal(&rt, port.credit(), Err(Worn));
    assert_equal(&rt, port.debit(), Err(Worn));
    assert_equal(&rt, port.value(), 1);
    let tally = CreditTally::of(port.into_seat());
    assert_equal(&rt, tally.is_whole(), true);
}

#[test]
fn ports_print_their_count_and_their_seat(rt: HostRuntime) {
    let (room, mut seats) = Room::open(rt.alloc(), 5, 1, 9).expect(&rt, "open");
    let port = RoomPort::new(&room, seats.pop().expect(&rt, "one seat"));
    let text =
        "RoomPort { room: Room { bound: 5, .. }, seat: RoomSeat { name: 0, held: 0, left: 9, .. } }";
    assert_written(&rt, &port, text);
    let (credit, mut seats) = Credit::open(rt.alloc(), 5, 1, 9).expect(&rt, "open");
    let port = CreditPort::new(&credit, seats.pop().expect(&rt, "one seat"));
    let text = "CreditPort { credit: Credit { .. }, seat: CreditSeat { name: 0, left: 9, .. } }";
    assert_written(&rt, &port, text);
}

/// Claims 1 and gives it back this many times. Returns the number of claims that were granted.
fn rounds(mut port: RoomPort<'_>, count: u64) -> u64 {
    let mut granted = 0u64;
    for _ in 0..count {
        if port.tir(1).is_ok() && port.release(1).is_some() {
            granted = granted.wrapping_add(1);
        }
    }
    granted
}

#[test]
fn ports_of_two_threads(rt: HostRuntime) {
    // there is room for both, so no claim is refused
    let (room, mut seats) = Room::open(rt.alloc(), 2, 3, 1000).expect(&rt, "open");
    let mut last = RoomPort::new(&room, seats.pop().expect(&rt, "three seats"));
    let first = RoomPort::new(&room, seats.pop().expect(&rt, "three seats"));
    let second = RoomPort::new(&room, seats.pop().expect(&rt, "three seats"));
    let granted = join(
        &rt,
        move || -> u64 { rounds(first, 1000) },
        move || -> u64 { rounds(second, 1000) },
    );
    assert_equal(&rt, granted, (1000, 1000));
    assert_equal(&rt, last.tir(2), Ok(0));
}
