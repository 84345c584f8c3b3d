//! The calls whose single times are measured, as one thread calls them.

ghost use Rattle.std.specs.Prelude.{◌≡◌};
ghost use Rattle.fak_queue.specs.Queues.{IsIdleSeat};

use crate::queue_handle::{QueueHandle, SeatQueue, SharedHandle, SharedQueue};
use crossbeam_utils::Backoff;
use fak_queue::{Queue, Seat};
use std::sync::Wait;

/// A queue in the hands of one thread, whose calls may be refused.
pub trait Attempts: Drop {
    /// Tries to put the number in. Returns whether it went in.
    fn try_put<R: Wait>(&mut self, rt: &R, number: u64) -> bool;

    /// Tries to take the oldest number out.
    fn try_get<R: Wait>(&mut self, rt: &R) -> Option<u64>;

    /// What the thread does between two calls, which is not timed.
    fn pause(&mut self);
}

/// How a seat calls.
#[derive(Clone, Copy)]
pub enum Manner {
    /// `insert` and `delete`.
    Attempt,
    /// `wait_insert` and `wait_delete`.
    Wait,
    /// Claims and tries.
    Claim,
    /// Claims and tries, with `Queue::pause` between them and the next.
    ClaimAndPause,
}

/// A seat of this repository's queue, which calls in this manner.
#[derive(Drop)]
pub struct SeatAttempts<'q> {
    pub handle: SeatQueue<'q, u64>,
    pub manner: Manner,
}

/// Claims room for the number, and tries until it is in its cell. Returns whether the claim was granted.
fn claim_put<R: Wait>(rt: &R, queue: &Queue<u64>, seat: &mut Seat<u64>, number: u64) -> bool
    requires { IsIdleSeat queue.now.object seat.old }
    ensures { IsIdleSeat queue.now.object seat.new }
{
    if queue.claim_insert(seat, number).is_err() {
        return false;
    }
    let backoff = Backoff::new();
    for _ in rt.forever() {
        if queue.try_fill(seat).is_some() {
            return true;
        }
        backoff.snooze();
    }
    unreachable!()
}

/// Claims a number, and tries until it is out of its cell.
fn claim_get<R: Wait>(rt: &R, queue: &Queue<u64>, seat: &mut Seat<u64>) -> Option<u64>
    requires { IsIdleSeat queue.now.object seat.old }
    ensures { IsIdleSeat queue.now.object seat.new }
{
    if queue.claim_delete(seat).is_err() {
        return None;
    }
    let backoff = Backoff::new();
    for _ in rt.forever() {
        if let Some((_, number)) = queue.try_take(seat) {
            return Some(number);
        }
        backoff.snooze();
    }
    unreachable!()
}

impl<'q> Attempts for SeatAttempts<'q> {
    fn try_put<R: Wait>(&mut self, rt: &R, number: u64) -> bool {
        let handle = &mut self.handle;
        match self.manner {
            Manner::Attempt => handle.queue.insert(rt, &mut handle.seat, number).is_ok(),
            Manner::Wait => handle.put(rt, number),
            Manner::Claim | Manner::ClaimAndPause => {
                claim_put(rt, handle.queue, &mut handle.seat, number)
            }
        }
    }

    fn try_get<R: Wait>(&mut self, rt: &R) -> Option<u64> {
        let handle = &mut self.handle;
        match self.manner {
            Manner::Attempt => match handle.queue.delete(rt, &mut handle.seat) {
                Ok((_, number)) => Some(number),
                Err(_) => None,
            },
            Manner::Wait => handle.get(rt),
            Manner::Claim | Manner::ClaimAndPause => {
                claim_get(rt, handle.queue, &mut handle.seat)
            }
        }
    }

    fn pause(&mut self) {
        let handle = &mut self.handle;
        if let Manner::ClaimAndPause = self.manner {
            handle.queue.pause(&mut handle.seat);
        }
    }
}

impl<'q, Q: SharedQueue<Item = u64>> Attempts for SharedHandle<'q, Q> {
    fn try_put<R: Wait>(&mut self, rt: &R, number: u64) -> bool {
        self.queue.try_push(rt, number).is_ok()
    }

    fn try_get<R: Wait>(&mut self, rt: &R) -> Option<u64> {
        self.queue.try_pop(rt)
    }

    fn pause(&mut self) {}
}

/// No queue: the numbers come from nowhere, in order. Its times are only those of the clock.
#[derive(Drop)]
pub struct NoQueue {
    pub next: u64,
}

impl Attempts for NoQueue {
    fn try_put<R: Wait>(&mut self, _rt: &R, _number: u64) -> bool {
        true
    }

    fn try_get<R: Wait>(&mut self, _rt: &R) -> Option<u64> {
        let number = self.next;
        self.next = number.wrapping_add(1);
        Some(number)
    }

    fn pause(&mut self) {}
}
