//! Insertions and deletions by single attempts, which are repeated if the queue is full or empty.

ghost use Rattle.fak_queue.specs.Queues.{IsIdleSeat};

use crossbeam_utils::Backoff;
use fak_queue::{DeleteFault, InsertFault, Queue, Seat};
use std::sync::Wait;

/// Inserts the item, at the first attempt that the queue is not full for.
pub fn insert_again<T: Drop, R: Wait>(
    rt: &R,
    queue: &Queue<T>,
    seat: &mut Seat<T>,
    item: T,
) -> Result<u64, InsertFault<T>>
    requires { IsIdleSeat queue.now.object seat.old }
    ensures { IsIdleSeat queue.now.object seat.new }
{
    let backoff = Backoff::new();
    let mut waiting = item;
    for _ in rt.forever() {
        match queue.insert(rt, seat, waiting) {
            Err(InsertFault::Full { upper: _, item }) => waiting = item,
            answer => return answer,
        }
        backoff.snooze();
    }
    unreachable!()
}

/// Deletes an item, at the first attempt that the queue is not empty for.
pub fn delete_again<T: Drop, R: Wait>(
    rt: &R,
    queue: &Queue<T>,
    seat: &mut Seat<T>,
) -> Result<(u64, T), DeleteFault>
    requires { IsIdleSeat queue.now.object seat.old }
    ensures { IsIdleSeat queue.now.object seat.new }
{
    let backoff = Backoff::new();
    for _ in rt.forever() {
        match queue.delete(rt, seat) {
            Err(DeleteFault::Empty(_)) => backoff.snooze(),
            answer => return answer,
        }
    }
    unreachable!()
}
