//! Rooms and credits, and seats of them that are joined.

use super::assertions::assert_equal;
use crate::credits::{debit_alone, debit_lawfully, value_lawfully};
use crate::joins::{give_back_and_join, join_unused, join_weights, tally_of_marks, tally_of_only};
use crate::rooms::{claim_first, count_at_rest, give_back, join_within_bound};
use fak_count::{Credit, Room, TirFault, Worn};

#[test]
fn two_seats_are_counted(rt: HostRuntime) {
    let (room, mut seats) = Room::open(rt.alloc(), 5, 2, 9).expect(&rt, "open");
    let b = seats.pop().expect(&rt, "two seats");
    let mut a = seats.pop().expect(&rt, "two seats");
    assert!(rt; matches!(room.tir(&mut a, 3), Ok(0)));
    assert_equal(&rt, give_back(&room, &mut a), 3);
    assert_equal(&rt, a.held(), 2);
    let tally = count_at_rest(&room, a, b).expect(&rt, "all seats");
    assert!(rt; tally.is_whole());
}

#[test]
fn a_seat_more_is_not_all_seats(rt: HostRuntime) {
    let (room, mut seats) = Room::open(rt.alloc(), 5, 3, 9).expect(&rt, "open");
    let c = seats.pop().expect(&rt, "three seats");
    let b = seats.pop().expect(&rt, "three seats");
    let a = seats.pop().expect(&rt, "three seats");
    let tally = join_within_bound(&room, a, b);
    assert!(rt; !tally.is_whole());
    assert!(rt; room.join(tally, c).is_whole());
}

#[test]
fn what_is_given_back_may_be_claimed_again(rt: HostRuntime) {
    let (room, mut seats) = Room::open(rt.alloc(), 1, 3, 9).expect(&rt, "open");
    let mut c = seats.pop().expect(&rt, "three seats");
    let b = seats.pop().expect(&rt, "three seats");
    let mut a = seats.pop().expect(&rt, "three seats");
    assert_equal(&rt, room.tir(&mut a, 1), Ok(0));
    if a.held() < 1 {
        panic!(rt; "held")
    }
    assert!(rt; !give_back_and_join(&room, a, b).is_whole());
    assert_equal(&rt, room.tir(&mut c, 1), Ok(0));
}

#[test]
fn a_first_claim_is_refused_by_bound_0_alone(rt: HostRuntime) {
    for (bound, claimed) in [(0, Err(TirFault::AtBound(0))), (1, Ok(0))] {
        let (room, mut seats) = Room::open(rt.alloc(), bound, 1, 1).expect(&rt, "open");
        let mut a = seats.pop().expect(&rt, "one seat");
        assert_equal(&rt, claim_first(&room, &mut a), claimed);
    }
}

#[test]
fn an_only_seat_is_all_seats(rt: HostRuntime) {
    let (_room, mut seats) = Room::open(rt.alloc(), 5, 1, 9).expect(&rt, "open");
    let a = seats.pop().expect(&rt, "one seat");
    assert!(rt; tally_of_only(a).is_whole());
}

#[test]
fn tallies_grow_by_a_seat(rt: HostRuntime) {
    let (room, mut seats) = Room::open(rt.alloc(), 5, 3, 9).expect(&rt, "open");
    let c = seats.pop().expect(&rt, "three seats");
    let b = seats.pop().expect(&rt, "three seats");
    let a = seats.pop().expect(&rt, "three seats");
    let one = tally_of_marks(a);
    assert!(rt; !one.is_whole());
    let two = join_weights(&room, one, b);
    assert!(rt; !two.is_whole());
    assert!(rt; join_unused(&room, two, c).is_whole());
}

#[test]
fn a_credit_is_debited_and_read(rt: HostRuntime) {
    let (credit, mut seats) = Credit::open(rt.alloc(), 1, 1, 2).expect(&rt, "open");
    let mut a = seats.pop().expect(&rt, "one seat");
    assert_equal(&rt, debit_alone(&credit, &mut a), Ok(1));
    assert_equal(&rt, debit_lawfully(&credit, &mut a), Ok(0));
    assert_equal(&rt, debit_lawfully(&credit, &mut a), Err(Worn));
    assert_equal(&rt, value_lawfully(&credit, &mut a), -1);
}
