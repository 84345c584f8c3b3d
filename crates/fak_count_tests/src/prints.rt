//! What objects, seats and faults print.

use super::assertions::{assert_equal, assert_written};
use fak_count::{ClaimFault, Credit, CreditTally, OpenFault, Room, RoomTally, TirFault, Worn};
use std::fmt::Display;
use std::process::Abort;

#[test]
fn rooms_print_their_numbers(rt: HostRuntime) {
    let (room, mut seats) = Room::open(rt.alloc(), 5, 2, 9).expect(&rt, "open");
    assert_written(&rt, &room, "Room { bound: 5, .. }");
    let mut seat = seats.pop().expect(&rt, "two seats");
    assert_equal(&rt, room.tir(&mut seat, 3), Ok(0));
    assert_written(&rt, &seat, "RoomSeat { name: 1, held: 3, left: 8, .. }");
    let tally = RoomTally::of(seat);
    assert_written(&rt, &tally, "RoomTally { seats: 2, is_whole: false, .. }");
}

#[test]
fn refusals_of_rooms_print_their_names(rt: HostRuntime) {
    let refused = Room::open(rt.alloc(), 5, 0, 9).expect_err(&rt, "a room of no seats");
    assert_equal(&rt, refused, OpenFault::BadSeats);
    assert_written(&rt, &refused, "BadSeats");
    assert_written(&rt, &TirFault::AtBound(-1), "AtBound(-1)");
}

#[test]
fn credits_print_their_numbers(rt: HostRuntime) {
    let (credit, mut seats) = Credit::open(rt.alloc(), 5, 1, 9).expect(&rt, "open");
    assert_written(&rt, &credit, "Credit { .. }");
    let mut seat = seats.pop().expect(&rt, "one seat");
    assert_equal(&rt, credit.debit(&mut seat), Ok(5));
    assert_written(&rt, &seat, "CreditSeat { name: 0, left: 8, .. }");
    assert_written(&rt, &Worn, "Worn");
    let tally = CreditTally::of(seat);
    assert_written(&rt, &tally, "CreditTally { seats: 1, is_whole: true, .. }");
}

/// Checks that each fault is written as its text.
fn have_texts<F: Display>(rt: &(impl Abort + AllocGlobal), rows: &[(F, &str)]) {
    for (fault, text) in rows {
        let written = fault.to_string(rt.alloc()).expect(rt, "memory");
        assert_equal(rt, written.as_str(), *text);
    }
}

#[test]
fn faults_say_what_is_the_matter(rt: HostRuntime) {
    const OPENS: &[(OpenFault, &str)] = &[
        (
            OpenFault::BadSize,
            "the bound or the start is above 4294967296",
        ),
        (OpenFault::BadSeats, "the number of seats is not 1 to 64"),
        (OpenFault::BadStint, "the stint is not 1 to 1099511627776"),
        (OpenFault::Memory, "out of memory"),
    ];
    const CLAIMS: &[(TirFault, &str)] = &[
        (TirFault::Worn, "the stint is used up"),
        (
            TirFault::AtBound(5),
            "the room is at its bound: its value was 5",
        ),
    ];
    const PORTS: &[(ClaimFault, &str)] = &[
        (ClaimFault::BadAmount, "the amount is not 1 to 1024"),
        (ClaimFault::Worn, "the stint is used up"),
        (
            ClaimFault::AtBound(5),
            "the room is at its bound: its value was 5",
        ),
    ];
    have_texts(&rt, OPENS);
    have_texts(&rt, CLAIMS);
    have_texts(&rt, PORTS);
    have_texts(&rt, &[(Worn, "the stint is used up")]);
}
