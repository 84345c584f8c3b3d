//! What seats observe of a queue: its counts, that it is shut, and that it is drained.

ghost use Rattle.std.specs.Prelude.{◌≡◌, [], IsTrue};
ghost use Rattle.fak_model.specs.Queue.{contents};
ghost use Rattle.fak_model.specs.Seats.{Begins};
ghost use Rattle.fak_queue.specs.Queues.{IsIdleSeat};

use super::assertions::assert_equal;
use super::steps::{A, B, C, Step, in_use, open, open_and_walk, take};
use fak_queue::laws::a_drained_queue_stays_empty;
use fak_queue::{DeleteFault, InsertFault, Queue, Seat, SeatState};

#[test]
fn claims_count_before_their_items_are_ready(rt: HostRuntime) {
    const STEPS: &[(usize, Step<u64>)] = &[
        (A, Step::OpenWith(0)),
        (A, Step::ItemsReady(0)),
        (A, Step::ClaimInsert(10, Ok(0))),
        (A, Step::OpenWith(1)),
        (B, Step::OpenWith(1)),
        (A, Step::ItemsReady(0)),
        (A, Step::State(SeatState::Inserting(0))),
        (A, Step::TryFill(Some(0))),
        (A, Step::ItemsReady(1)),
        (B, Step::Insert(11, Ok(1))),
        (B, Step::OpenWith(2)),
        (B, Step::ItemsReady(2)),
        (C, Step::ClaimDelete(Ok(0))),
        (C, Step::OpenWith(2)),
        (C, Step::ItemsReady(1)),
        (C, Step::State(SeatState::Deleting(0))),
        (C, Step::TryTake(Some((0, 10)))),
        (C, Step::OpenWith(1)),
        (C, Step::Left(8)),
    ];
    open_and_walk(&rt, (2, 3, 9), STEPS);
}

#[test]
fn a_shut_queue_is_drained_once_its_last_deletion_has_ended(rt: HostRuntime) {
    const STEPS: &[(usize, Step<u64>)] = &[
        (A, Step::IsDrained(false)),
        (A, Step::Insert(10, Ok(0))),
        (A, Step::ClaimInsert(11, Ok(1))),
        (B, Step::Shut(true)),
        (B, Step::ShutWith(2)),
        (B, Step::IsDrained(false)),
        (C, Step::Delete(Ok((0, 10)))),
        (C, Step::ShutWith(1)),
        (C, Step::Delete(Err(DeleteFault::Empty(0)))),
        (C, Step::IsDrained(false)),
        (A, Step::TryFill(Some(1))),
        (C, Step::ClaimDelete(Ok(1))),
        (C, Step::ItemsReady(0)),
        (C, Step::IsDrained(false)),
        (C, Step::TryTake(Some((1, 11)))),
        (C, Step::ShutWith(0)),
        (C, Step::IsDrained(true)),
        (B, Step::Insert(12, Err(InsertFault::Closed { item: 12 }))),
        (A, Step::IsDrained(true)),
        (C, Step::Delete(Err(DeleteFault::Empty(0)))),
    ];
    open_and_walk(&rt, (2, 3, 9), STEPS);
}

/// Whether a consumer may stop: nothing is left in the queue.
fn may_stop(queue: &Queue<u64>, seat: &mut Seat<u64>) -> bool
    requires { IsIdleSeat queue.now.object seat.old }
    ensures idle { IsIdleSeat queue.now.object seat.new }
    ensures more { Begins seat.old.seen seat.new.seen }
    ensures none { IsTrue result → contents seat.new.seen ≡ [] }
{
    a_drained_queue_stays_empty::<u64>();
    queue.is_drained(seat)
}

#[test]
fn an_open_queue_that_is_empty_is_not_drained(rt: HostRuntime) {
    let (queue, mut seats) = open::<u64>(&rt, (4, 1, 9));
    let mut seat = take(&rt, &queue, &mut seats);
    assert_equal(&rt, queue.cells_in_use(&mut seat), in_use(0, false));
    assert_equal(&rt, queue.is_drained(&mut seat), false);
    assert_equal(&rt, queue.shut(&mut seat), true);
    assert_equal(&rt, queue.cells_in_use(&mut seat), in_use(0, true));
    assert_equal(&rt, may_stop(&queue, &mut seat), true);
}
