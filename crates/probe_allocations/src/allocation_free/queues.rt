//! Calls of a queue's seats: whole calls by ports, and claims and tries.

ghost use Rattle.fak_queue.specs.Queues.{IsIdleSeat};

use super::sentinels::{begin, end};
use fak_queue::{DeleteFault, InUse, InsertFault, Port, Queue, Seat, SeatState};
use std::sync::Wait;

/// Whole calls of two ports of a queue with one cell.
fn call_two<R: Wait>(rt: &R, first: &mut Port<'_, u64>, second: &mut Port<'_, u64>) -> bool {
    first.insert(rt, 9) == Ok(0)
        && first.insert(rt, 10) == Err(InsertFault::Full { upper: 1, item: 10 })
        && second.items_ready() == 1
        && second.delete(rt) == Ok((0, 9))
        && second.delete(rt) == Err(DeleteFault::Empty(0))
        && first.wait_insert(rt, 10) == Ok(1)
        && second.wait_delete(rt) == Ok((1, 10))
        && first.left() == 8
}

/// What two ports do at the end.
fn shut_by_two<R: Wait>(rt: &R, first: &mut Port<'_, u64>, second: &mut Port<'_, u64>) -> bool {
    const SHUT: InUse = InUse {
        count: 0,
        is_shut: true,
    };
    first.pause();
    first.shut()
        && !second.shut()
        && first.insert(rt, 11) == Err(InsertFault::Closed { item: 11 })
        && second.cells_in_use() == SHUT
        && second.is_drained()
}

/// Whole calls.
pub(super) fn call_ports(rt: &(impl Print + AllocGlobal + Wait)) -> bool {
    let Ok((queue, mut seats)) = Queue::<u64>::open(rt.alloc(), 1, 2, 10) else {
        return false;
    };
    let Some(seat) = seats.pop() else {
        unreachable!()
    };
    let mut first = Port::new(&queue, seat);
    let Some(seat) = seats.pop() else {
        unreachable!()
    };
    let mut second = Port::new(&queue, seat);
    begin(rt);
    let are_as_expected = call_two(rt, &mut first, &mut second)
        && shut_by_two(rt, &mut first, &mut second);
    end(
        rt,
        "Port: insert, delete, wait_insert, wait_delete, shut, cells_in_use, items_ready, is_drained, pause, left",
        are_as_expected,
    );
    true
}

/// An insertion by a claim, and the try that fills the cell.
fn insert_by_claim(queue: &Queue<u64>, seat: &mut Seat<u64>) -> bool
    requires { IsIdleSeat queue.now.object seat.old }
{
    if queue.claim_insert(seat, 7) != Ok(0) {
        return false;
    }
    match seat.state() {
        SeatState::Inserting(0) => queue.try_fill(seat) == Some(0),
        _ => false,
    }
}

/// A deletion by a claim, and the try that takes the item.
fn delete_by_claim(queue: &Queue<u64>, seat: &mut Seat<u64>) -> bool
    requires { IsIdleSeat queue.now.object seat.old }
{
    if queue.claim_delete(seat) != Ok(0) {
        return false;
    }
    match seat.state() {
        SeatState::Deleting(0) => queue.try_take(seat) == Some((0, 7)),
        _ => false,
    }
}

/// Claims and tries.
pub(super) fn call_seats(rt: &(impl Print + AllocGlobal)) -> bool {
    let Ok((queue, mut seats)) = Queue::<u64>::open(rt.alloc(), 1, 2, 10) else {
        return false;
    };
    let Some(mut first) = seats.pop() else {
        unreachable!()
    };
    let Some(mut second) = seats.pop() else {
        unreachable!()
    };
    begin(rt);
    first.set_pauses_in_calls(false);
    let are_as_expected = insert_by_claim(&queue, &mut first)
        && delete_by_claim(&queue, &mut second)
        && first.left() == 9;
    end(
        rt,
        "Seat: claim_insert, try_fill, claim_delete, try_take, state, left, set_pauses_in_calls",
        are_as_expected,
    );
    true
}
