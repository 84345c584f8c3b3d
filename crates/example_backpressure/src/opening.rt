//! How a channel is opened and closed.

ghost use Rattle.std.specs.Prelude.{◌≡◌, ◌≢◌, ◌^◌, [], IfSome, IsTrue};
ghost use Rattle.fak_model.specs.Calls.{seat_info};
ghost use Rattle.fak_queue.specs.Queues.{IsIdleSeat};
ghost use Rattle.fak_sem.specs.Semaphores.{queue_part};
ghost use Rattle.example_backpressure.specs.Passing.{AllOut, AreEnds, AreFreshSemaphoreSeats, IsFresh};

use crate::channel::{Buffer, Channel, Ends};
use fak_model::laws::queue::a_queue_weighs_what_was_put;
use fak_queue::{LONGEST_STINT, Queue, Seat, Tally};
use fak_sem::{SemSeat, SemTally, Semaphore};
use std::alloc::Global;

/// The cells of the queue, and those of the semaphore's wait queue.
const CELLS: u64 = 64;

/// An empty queue and its two seats.
fn open_queue(alloc: Global) -> Option<(Queue<Buffer>, Seat<Buffer>, Seat<Buffer>)>
    ensures { IfSome result (λ r. (r.1 ≡ seat_info r.0.object 1 (2 ^ 40) [])
        × (r.2 ≡ seat_info r.0.object 0 (2 ^ 40) [])) }
{
    let Ok((queue, mut seats)) = Queue::open(alloc, CELLS, 2, LONGEST_STINT) else {
        return None;
    };
    let Some(a) = seats.pop() else { unreachable!() };
    let Some(b) = seats.pop() else { unreachable!() };
    Some((queue, a, b))
}

/// A semaphore that lets `room` buffers through, and its two seats.
fn open_semaphore(
    alloc: Global,
    room: u64,
) -> Option<(Semaphore<Buffer>, SemSeat<Buffer>, SemSeat<Buffer>)>
    ensures { IfSome result (λ r. AreFreshSemaphoreSeats r.0.object r.1 r.2) }
{
    let Ok((semaphore, mut seats)) = Semaphore::open(alloc, room, CELLS, 2, LONGEST_STINT) else {
        return None;
    };
    let Some(a) = seats.pop() else { unreachable!() };
    let Some(b) = seats.pop() else { unreachable!() };
    Some((semaphore, a, b))
}

/// An empty channel, and its ends for two threads.
pub fn open_channel(alloc: Global, room: u64) -> Option<(Channel, Ends, Ends)>
    ensures ends { IfSome result (λ r. AreEnds r.0.queue.object r.0.semaphore.object r.1
        × AreEnds r.0.queue.object r.0.semaphore.object r.2) }
    ensures fresh { IfSome result (λ r. IsFresh 1 r.1 × IsFresh 0 r.2) }
{
    let opened = open_queue(alloc)?;
    let (semaphore, first, second) = open_semaphore(alloc, room)?;
    let (queue, a, b) = opened;
    let a = Ends {
        queue: a,
        semaphore: first,
    };
    let b = Ends {
        queue: b,
        semaphore: second,
    };
    Some((Channel { queue, semaphore }, a, b))
}

/// Closes the queue, and returns whether both seats are back and nothing is left in it.
fn queue_is_empty(queue: Queue<Buffer>, a: Seat<Buffer>, b: Seat<Buffer>) -> bool
    requires seats { IsIdleSeat queue.object a × IsIdleSeat queue.object b }
    requires apart { b.name ≢ a.name }
    ensures { IsTrue result → AllOut a b }
{
    a_queue_weighs_what_was_put::<Buffer>();
    let tally = queue.join(Tally::of(a), b);
    let whole = tally.is_whole();
    if !whole {
        return false;
    }
    queue.close(tally).next().is_none()
}

/// Closes the semaphore, and returns whether both seats are back and nothing is held back.
fn semaphore_is_empty(semaphore: Semaphore<Buffer>, a: SemSeat<Buffer>, b: SemSeat<Buffer>) -> bool
    requires seats { (a.object ≡ semaphore.object) × (b.object ≡ semaphore.object) }
    requires apart { b.name ≢ a.name }
    ensures { IsTrue result → AllOut (queue_part a) (queue_part b) }
{
    a_queue_weighs_what_was_put::<Buffer>();
    let tally = semaphore.join(SemTally::of(a), b);
    let whole = tally.is_whole();
    if !whole {
        return false;
    }
    semaphore.close(tally).next().is_none()
}

/// Closes the channel, and returns whether nothing is left in it.
pub fn is_empty(channel: Channel, a: Ends, b: Ends) -> bool
    requires ends { AreEnds channel.queue.object channel.semaphore.object a
        × AreEnds channel.queue.object channel.semaphore.object b }
    requires apart { (b.queue.name ≢ a.queue.name) × (b.semaphore.name ≢ a.semaphore.name) }
    ensures { IsTrue result → AllOut a.queue b.queue × AllOut (queue_part a.semaphore) (queue_part b.semaphore) }
{
    let no_buffer_queued = queue_is_empty(channel.queue, a.queue, b.queue);
    let none_held_back = semaphore_is_empty(channel.semaphore, a.semaphore, b.semaphore);
    no_buffer_queued && none_held_back
}
