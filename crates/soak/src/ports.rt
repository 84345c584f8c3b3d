//! What a thread does with a port of a queue.

ghost use Rattle.fak_queue.specs.Queues.{IsIdleSeat};

use crate::crew::Seen;
use crate::items::{Arrivals, item_of};
use fak_queue::{Port, Seat};
use std::sync::Wait;

/// Inserts this many numbers of a lane, and pauses if others use the queue. Returns the port's seat, and what went in.
pub fn send_all<R: Wait>(
    rt: &R,
    mut port: Port<'_, u64>,
    lane: u64,
    numbers: u64,
) -> (Seat<u64>, Seen)
    ensures { IsIdleSeat port.entry.queue.now.object result.0 }
{
    let mut seen = Seen::NONE;
    for number in 0..numbers {
        let item = item_of(lane, number);
        if port.wait_insert(rt, item).is_ok() {
            seen = seen.with(item);
        }
        port.pause();
    }
    (port.into_seat(), seen)
}

/// Deletes this many numbers, and pauses if others use the queue. Returns the port's seat, and what came out.
pub fn receive_all<R: Wait>(rt: &R, mut port: Port<'_, u64>, numbers: u64) -> (Seat<u64>, Arrivals)
    ensures { IsIdleSeat port.entry.queue.now.object result.0 }
{
    let mut arrivals = Arrivals::new();
    for _ in 0..numbers {
        if let Ok((_, item)) = port.wait_delete(rt) {
            arrivals.add(item);
        }
        port.pause();
    }
    (port.into_seat(), arrivals)
}
