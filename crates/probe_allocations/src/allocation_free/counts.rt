//! Calls of rooms and credits.

use super::sentinels::{begin, end};
use fak_count::{ClaimFault, Credit, CreditPort, Room, RoomPort};

/// The calls of two ports of a room with the bound 5, each of which may claim twice.
fn claim_and_release(first: &mut RoomPort<'_>, second: &mut RoomPort<'_>) -> bool {
    first.tir(3) == Ok(0)
        && second.tir(3) == Err(ClaimFault::AtBound(3))
        && second.tir(2) == Ok(3)
        && first.release(3) == Some(5)
        && first.release(1) == None
        && first.tir(1) == Ok(2)
        && first.tir(1) == Err(ClaimFault::Worn)
        && first.held() == 1
        && second.left() == 1
}

/// Calls of a room.
pub(super) fn call_room(rt: &(impl Print + AllocGlobal)) -> bool {
    let Ok((room, mut seats)) = Room::open(rt.alloc(), 5, 2, 2) else {
        return false;
    };
    let Some(seat) = seats.pop() else {
        unreachable!()
    };
    let mut first = RoomPort::new(&room, seat);
    let Some(seat) = seats.pop() else {
        unreachable!()
    };
    let mut second = RoomPort::new(&room, seat);
    begin(rt);
    let are_as_expected = claim_and_release(&mut first, &mut second);
    end(rt, "RoomPort: tir, release, held, left", are_as_expected);
    true
}

/// The calls of two ports of a credit that begins at 1.
fn debit_and_credit(first: &mut CreditPort<'_>, second: &mut CreditPort<'_>) -> bool {
    first.debit() == Ok(1)
        && second.value() == 0
        && second.credit() == Ok(0)
        && first.value() == 1
        && first.left() == 3
}

/// Calls of a credit.
pub(super) fn call_credit(rt: &(impl Print + AllocGlobal)) -> bool {
    let Ok((credit, mut seats)) = Credit::open(rt.alloc(), 1, 2, 4) else {
        return false;
    };
    let Some(seat) = seats.pop() else {
        unreachable!()
    };
    let mut first = CreditPort::new(&credit, seat);
    let Some(seat) = seats.pop() else {
        unreachable!()
    };
    let mut second = CreditPort::new(&credit, seat);
    begin(rt);
    let are_as_expected = debit_and_credit(&mut first, &mut second);
    end(
        rt,
        "CreditPort: debit, credit, value, left",
        are_as_expected,
    );
    true
}
