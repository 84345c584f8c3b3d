//! Calls that wait and try again, and what their callers may promise on.

ghost use Rattle.std.specs.Prelude.{◌≡◌, ◌+◌, IfOk, IsTrue, MatchOption, ⊤, length, pos};
ghost use Rattle.fak_model.specs.Queue.{contents, lower_count, upper_count};
ghost use Rattle.fak_queue.specs.Queues.{IsIdleSeat, drawn_by};

#[cfg(test)]
use crate::assertions::{assert_equal, assert_left};
#[cfg(test)]
use crate::steps::{A, B, Step, open_and_walk, open_one};
use fak_model::laws::queue::a_queue_at_rest_counts_its_items;
use fak_queue::{DeleteFault, InsertFault, Queue, Rest, Seat, Tally};
use std::sync::Wait;

/// Inserts the numbers below `count`, and waits while the queue is full.
fn insert_below<R: Wait>(
    rt: &R,
    queue: &Queue<u64>,
    seat: &mut Seat<u64>,
    count: u64,
) -> Result<(), InsertFault<u64>>
    requires { IsIdleSeat queue.now.object seat.old }
    ensures idle { IsIdleSeat queue.now.object seat.new }
    ensures drawn { IfOk result (λ _. drawn_by seat.new ≡ drawn_by seat.old + count) }
{
    for item in 0..count {
        if let Err(fault) = queue.wait_insert(rt, seat, item) {
            return Err(fault);
        }
    }
    Ok(())
}

/// Whether all seats are in the tally. Then both counts are the number of items left.
fn counts_its_items(tally: &Tally<u64>) -> bool
    ensures lower { IsTrue result → lower_count tally.now.seen ≡ pos (length (contents tally.now.seen)) }
    ensures upper { IsTrue result → upper_count tally.now.seen ≡ pos (length (contents tally.now.seen)) }
{
    a_queue_at_rest_counts_its_items::<u64>();
    tally.is_whole()
}

/// What a queue with a whole tally leaves: as many items as both counts say.
fn close_counted(queue: Queue<u64>, tally: Tally<u64>) -> Option<Rest<u64>>
    requires { tally.object ≡ queue.object }
    ensures { MatchOption result ⊤ (λ rest. upper_count tally.seen ≡ pos (length rest)) }
{
    a_queue_at_rest_counts_its_items::<u64>();
    let whole = tally.is_whole();
    if whole {
        return Some(queue.close(tally));
    }
    None
}

#[test]
fn worn_seats_do_not_wait(rt: HostRuntime) {
    const STEPS: &[(usize, Step<u64>)] = &[
        (A, Step::WaitInsert(7, Ok(0))),
        (A, Step::WaitInsert(8, Err(InsertFault::Worn { item: 8 }))),
        (B, Step::WaitDelete(Ok((0, 7)))),
        (B, Step::WaitDelete(Err(DeleteFault::Worn))),
        (B, Step::Delete(Err(DeleteFault::Worn))),
    ];
    open_and_walk(&rt, (1, 2, 1), STEPS);
}

#[test]
fn a_shut_queue_does_not_keep_a_seat_waiting(rt: HostRuntime) {
    const STEPS: &[(usize, Step<u64>)] = &[
        (A, Step::WaitInsert(7, Ok(0))),
        (A, Step::Shut(true)),
        (A, Step::WaitInsert(8, Err(InsertFault::Closed { item: 8 }))),
        (A, Step::WaitDelete(Ok((0, 7)))),
    ];
    open_and_walk(&rt, (1, 1, 9), STEPS);
}

#[test]
fn items_that_were_inserted_and_left(rt: HostRuntime) {
    let (queue, mut a) = open_one(&rt, 3, 9);
    assert_equal(&rt, insert_below(&rt, &queue, &mut a, 3), Ok(()));
    assert_equal(&rt, a.left(), 6);
    assert_equal(&rt, queue.wait_delete(&rt, &mut a), Ok((0, 0)));
    let tally = Tally::of(a);
    assert_equal(&rt, counts_its_items(&tally), true);
    let rest = close_counted(queue, tally).expect(&rt, "whole");
    assert_left(&rt, rest, &[1, 2]);
}
