//! Insertions and deletions within a seat's stint, which are tried again until they are granted.

ghost use Rattle.std.specs.Prelude.{◌≡◌, MatchOption};
ghost use Rattle.fak_queue.specs.declared.state.SeatState.TheVariants.{Idle};
ghost use Rattle.fak_queue.specs.Queues.{drawn_by, state_of};
ghost use Rattle.fak_queue.specs.Retries.{ClosesAfterFull, DeletesAtLast, InsertsAfterFull, InsertsAtLast};
ghost use Rattle.fak_sem.specs.Tickets.{HasTicket};

use crossbeam_utils::Backoff;
use fak_queue::{DeleteFault, InsertFault, Queue, Seat};
use std::sync::Wait;

/// One insertion, which waits while the queue is full. If the queue is shut, the item comes back.
fn insert_unless_shut<T: Drop, R: Wait>(
    queue: &Queue<T>,
    rt: &R,
    seat: &mut Seat<T>,
    item: T,
) -> Option<T>
    requires { HasTicket queue.now.object seat.old }
    ensures object { seat.new.object ≡ seat.old.object }
    ensures idle { state_of seat.new ≡ Idle }
    ensures call { MatchOption result ((k : _) × InsertsAfterFull queue.now.size k item seat.old seat.new)
        (λ x. (x ≡ item) × (drawn_by seat.new ≡ drawn_by seat.old) × ClosesAfterFull queue.now.size seat.old seat.new) }
{
    match queue.wait_insert(rt, seat, item) {
        Ok(_) => None,
        Err(InsertFault::Worn { item: _ }) => unreachable!(),
        Err(InsertFault::Closed { item }) => Some(item),
        Err(InsertFault::Full { upper: _, item: _ }) => unreachable!(),
    }
}

/// Inserts the item, and tries again while the queue is full or shut.
pub(crate) fn insert_at_last<T: Drop, R: Wait>(
    queue: &Queue<T>,
    rt: &R,
    seat: &mut Seat<T>,
    item: T,
)
    requires { HasTicket queue.now.object seat.old }
    ensures object { seat.new.object ≡ seat.old.object }
    ensures idle { state_of seat.new ≡ Idle }
    ensures call { InsertsAtLast queue.now.size item seat.old seat.new }
{
    let backoff = Backoff::new();
    let mut waiting = item;
    for _ in rt.forever() {
        let Some(back) = insert_unless_shut(queue, rt, seat, waiting) else {
            return;
        };
        waiting = back;
        backoff.snooze();
    }
    unreachable!()
}

/// Deletes an item, and tries again while the queue is empty.
pub(crate) fn delete_at_last<T: Drop, R: Wait>(queue: &Queue<T>, rt: &R, seat: &mut Seat<T>) -> T
    requires { HasTicket queue.now.object seat.old }
    ensures object { seat.new.object ≡ seat.old.object }
    ensures idle { state_of seat.new ≡ Idle }
    ensures call { DeletesAtLast queue.now.size result seat.old seat.new }
{
    match queue.wait_delete(rt, seat) {
        Ok((_, item)) => item,
        Err(DeleteFault::Worn) => unreachable!(),
        Err(DeleteFault::Empty(_)) => unreachable!(),
    }
}
