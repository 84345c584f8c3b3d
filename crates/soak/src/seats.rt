//! Queues with their seats: how they are opened and closed.

ghost use Rattle.std.specs.Prelude.{◌≡◌, IfOk, IfSome};
ghost use Rattle.soak.specs.Seats.{AreIdleSeats};

use crate::fault::Fault;
use fak_queue::{LONGEST_STINT, Queue, Rest, Seat, Tally};
use std::alloc::Global;

/// An open queue with its seats.
pub fn open<T: Drop>(
    alloc: Global,
    size: u64,
    seats: u64,
) -> Result<(Queue<T>, Vec<Seat<T>>), Fault>
    ensures { IfOk result (λ r. AreIdleSeats r.0.object r.1.items) }
{
    let Ok((queue, seats)) = Queue::<T>::open(alloc, size, seats, LONGEST_STINT) else {
        return Err(Fault::Memory);
    };
    Ok((queue, seats))
}

/// The tally of these seats, or `None` if there are no seats.
fn joined<T: Drop>(queue: &Queue<T>, mut seats: Vec<Seat<T>>) -> Option<Tally<T>>
    requires { AreIdleSeats queue.now.object seats.items }
    ensures { IfSome result (λ tally. tally.object ≡ queue.now.object) }
{
    let Some(seat) = seats.pop() else {
        return None;
    };
    let mut tally = Tally::of(seat);
    while let Some(seat) = seats.pop() {
        tally = queue.join(tally, seat);
    }
    Some(tally)
}

/// What is left in a queue whose seats are all back, or `None` if one is missing.
pub fn close_all<T: Drop>(queue: Queue<T>, seats: Vec<Seat<T>>) -> Option<Rest<T>>
    requires { AreIdleSeats queue.object seats.items }
{
    let Some(tally) = joined(&queue, seats) else {
        return None;
    };
    close(queue, tally)
}

/// What is left in a queue, or `None` if a seat is not in the tally.
fn close<T: Drop>(queue: Queue<T>, tally: Tally<T>) -> Option<Rest<T>>
    requires { tally.object ≡ queue.object }
{
    if !tally.is_whole() {
        return None;
    }
    Some(queue.close(tally))
}
