//! A machine of two processors that take frames and give them back.

ghost use Rattle.std.specs.Prelude.{◌≡◌, ℕ, [], ◌∷◌, IfSome, IsTrue};
ghost use Rattle.std.specs.List.{sum_by};
ghost use Rattle.fak_queue.specs.Queues.{IsIdleSeat};
ghost use Rattle.example_frames.specs.Frames.{HasPut, Keeps, is_number, none, one_of};

use crate::frame::Frame;
use crate::free_list::{give_back, take};
use fak_queue::{LONGEST_STINT, Port, Queue, Rest, Seat, Tally};
use std::alloc::Global;
use std::sync::Wait;
use std::thread::{Threads, join};

/// Puts all frames of the machine into the list. Returns the seat, and whether none was refused.
fn fill<R: Wait>(rt: &R, free: &Queue<Frame>, seat: Seat<Frame>, frames: u64) -> (Seat<Frame>, bool)
    requires idle { IsIdleSeat free.now.object seat }
    requires put { HasPut none seat }
    ensures idle { IsIdleSeat free.now.object result.0 }
    ensures all { IsTrue result.1 → HasPut (one_of frames) result.0 }
{
    let mut port = Port::new(free, seat);
    for number in 0..frames {
        let Ok(()) = give_back(rt, &mut port, Frame { number }) else {
            return (port.into_seat(), false);
        };
    }
    (port.into_seat(), true)
}

/// Takes a frame, uses it and gives it back, if there is one. Returns whether it was taken back.
fn use_one<R: Wait>(rt: &R, free: &mut Port<'_, Frame>) -> bool
    ensures list { free.new.queue ≡ free.old.queue }
    ensures same { IsTrue result → Keeps free.old.seat free.new.seat }
{
    match take(rt, free) {
        Some(frame) => give_back(rt, free, frame).is_ok(),
        None => true,
    }
}

/// A processor, which uses a frame this many times. Returns its seat, and whether all were taken back.
fn churn<R: Wait>(rt: &R, free: &Queue<Frame>, seat: Seat<Frame>, times: u64) -> (Seat<Frame>, bool)
    requires { IsIdleSeat free.now.object seat }
    ensures idle { IsIdleSeat free.now.object result.0 }
    ensures same { IsTrue result.1 → Keeps seat result.0 }
{
    let mut port = Port::new(free, seat);
    for _ in 0..times {
        if !use_one(rt, &mut port) {
            return (port.into_seat(), false);
        }
    }
    (port.into_seat(), true)
}

/// Both processors at once.
fn churn_both<R: Threads + Wait + Sync>(
    rt: &R,
    free: &Queue<Frame>,
    a: Seat<Frame>,
    b: Seat<Frame>,
    times: u64,
) -> ((Seat<Frame>, bool), (Seat<Frame>, bool))
    requires { IsIdleSeat free.now.object a × IsIdleSeat free.now.object b }
    ensures idle { IsIdleSeat free.now.object result.0.0 × IsIdleSeat free.now.object result.1.0 }
    ensures same { (IsTrue result.0.1 → Keeps a result.0.0) × (IsTrue result.1.1 → Keeps b result.1.0) }
{
    join(
        rt,
        move || -> (Seat<Frame>, bool)
            requires { IsIdleSeat free.now.object a }
            ensures { IsIdleSeat free.entry.now.object result.0 × (IsTrue result.1 → Keeps a result.0) }
        { churn(rt, free, a, times) },
        move || -> (Seat<Frame>, bool)
            requires { IsIdleSeat free.now.object b }
            ensures { IsIdleSeat free.entry.now.object result.0 × (IsTrue result.1 → Keeps b result.0) }
        { churn(rt, free, b, times) },
    )
}

/// Closes the list, once both seats are back.
fn close(free: Queue<Frame>, a: Seat<Frame>, b: Seat<Frame>, frames: u64) -> Option<Rest<Frame>>
    requires idle { IsIdleSeat free.object a × IsIdleSeat free.object b }
    requires two { free.object.seats ≡ 2 }
    requires put { HasPut (one_of frames) a × HasPut none b }
    ensures { IfSome result (λ left. (n : ℕ) → sum_by (is_number n) left ≡ one_of frames n) }
{
    let tally = free.join(Tally::of(a), b);
    let whole = tally.is_whole();
    if !whole {
        return None;
    }
    Some(free.close(tally))
}

/// Two processors that each take a frame and give it back this many times, on a machine with this many frames. Returns the
/// free list at the end, which has each frame once.
///
/// `None` if there was no memory, or a frame was refused.
pub fn churn_all<R: Threads + Wait + Sync>(
    rt: &R,
    alloc: Global,
    frames: u64,
    times: u64,
) -> Option<Rest<Frame>>
    ensures { IfSome result (λ left. (n : _) → sum_by (is_number n) left ≡ one_of frames n) }
{
    let (free, a, b) = open_list(alloc, frames)?;
    let (a, filled) = fill(rt, &free, a, frames);
    let ((a, first), (b, second)) = churn_both(rt, &free, a, b, times);
    if !filled || !first || !second {
        return None;
    }
    close(free, a, b, frames)
}

/// An empty list, and the seats of two processors.
fn open_list(alloc: Global, frames: u64) -> Option<(Queue<Frame>, Seat<Frame>, Seat<Frame>)>
    ensures idle { IfSome result (λ r. IsIdleSeat r.0.object r.1 × IsIdleSeat r.0.object r.2) }
    ensures two { IfSome result (λ r. r.0.object.seats ≡ 2) }
    ensures put { IfSome result (λ r. HasPut none r.1 × HasPut none r.2) }
{
    let Ok((free, mut seats)) = Queue::<Frame>::open(alloc, frames, 2, LONGEST_STINT) else {
        return None;
    };
    let Some(a) = seats.pop() else { unreachable!() };
    let Some(b) = seats.pop() else { unreachable!() };
    Some((free, a, b))
}
