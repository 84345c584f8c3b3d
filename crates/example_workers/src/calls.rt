//! The calls on the queue, with what this program promises of them.

ghost use Rattle.std.specs.Prelude.{◌≡◌, ◌+◌, ◌<◌, IsTrue, IfSome, MatchOption};
ghost use Rattle.fak_queue.specs.Queues.{IsIdleSeat, drawn_by};
ghost use Rattle.fak_queue.specs.Sums.{Adds};
ghost use Rattle.example_workers.specs.Counts.{leaps};

use crate::work::Work;
use fak_queue::{Queue, Seat};
use std::sync::Wait;

/// Puts a piece of work into the queue, and returns whether it was accepted.
pub fn put<R: Wait>(rt: &R, queue: &Queue<Work>, seat: &mut Seat<Work>, work: Work) -> bool
    requires { IsIdleSeat queue.now.object seat.old }
    ensures idle { IsIdleSeat queue.now.object seat.new }
    ensures adds { IsTrue result → Adds leaps (leaps work) 0 seat.old seat.new }
{
    queue.wait_insert(rt, seat, work).is_ok()
}

/// Takes a piece of work out of the queue; `None` if the seat has drawn all its tickets.
pub fn take<R: Wait>(rt: &R, queue: &Queue<Work>, seat: &mut Seat<Work>) -> Option<Work>
    requires { IsIdleSeat queue.now.object seat.old }
    ensures idle { IsIdleSeat queue.now.object seat.new }
    ensures adds { MatchOption result (Adds leaps 0 0 seat.old seat.new)
        (λ work. Adds leaps 0 (leaps work) seat.old seat.new) }
    ensures drawn { IfSome result
        (λ _. (drawn_by seat.new ≡ drawn_by seat.old + 1) × (drawn_by seat.old < seat.old.stint)) }
    ensures stint { seat.new.stint ≡ seat.old.stint }
{
    match queue.wait_delete(rt, seat) {
        Ok((_, work)) => Some(work),
        Err(_) => None,
    }
}
