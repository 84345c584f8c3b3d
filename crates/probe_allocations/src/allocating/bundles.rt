//! Bundles of a queue's seats, made and broken up.

ghost use Rattle.std.specs.Prelude.{◌≡◌, IfSome};
ghost use Rattle.std.specs.List.{All};
ghost use Rattle.fak_queue.specs.BundleCalls.{IsIdleBundle};
ghost use Rattle.fak_queue.specs.Queues.{IsIdleSeat};

use crate::printing::{show_count, tell_fault};
use crate::retrying::try_twice;
use fak_queue::laws::new_seats_are_idle;
use fak_queue::{Bundle, BundleFault, Queue, Seat};
use std::alloc::{AllocError, Global};

/// The bundle of these seats. The seats that a refusal gives back make it a second time.
fn bundle_of(
    rt: &impl Eprint,
    alloc: Global,
    queue: &Queue<u64>,
    seats: Vec<Seat<u64>>,
) -> Option<Bundle<u64>>
    requires { All (IsIdleSeat queue.now.object) seats.items }
    ensures { IfSome result (IsIdleBundle queue.now.object) }
{
    match Bundle::of(alloc, queue, seats) {
        Ok(bundle) => Some(bundle),
        Err(BundleFault::NoSeats) => None,
        Err(BundleFault::Memory { seats }) => {
            tell_fault(rt, "Bundle::of", &AllocError);
            Bundle::of(alloc, queue, seats).ok()
        }
    }
}

/// The seats of the bundle. A bundle that a refusal gives back is broken up a second time.
fn seats_of(
    rt: &impl Eprint,
    alloc: Global,
    queue: &Queue<u64>,
    bundle: Bundle<u64>,
) -> Option<Vec<Seat<u64>>>
    requires { IsIdleBundle queue.now.object bundle }
{
    match bundle.into_seats(alloc, queue) {
        Ok(seats) => Some(seats),
        Err(bundle) => {
            tell_fault(rt, "Bundle::into_seats", &AllocError);
            bundle.into_seats(alloc, queue).ok()
        }
    }
}

/// Makes a bundle of the seats of a queue, and breaks it up.
pub(super) fn bundle_seats(rt: &(impl Print + Eprint + AllocGlobal)) -> bool {
    let alloc = rt.alloc();
    new_seats_are_idle::<u64>();
    let (queue, seats) = try_twice!(rt, "Queue::open", Queue::<u64>::open(alloc, 8, 5, 100));
    let Some(bundle) = bundle_of(rt, alloc, &queue, seats) else {
        return false;
    };
    show_count(rt, "Bundle::of", bundle.seats() as usize, "seats");
    let Some(seats) = seats_of(rt, alloc, &queue, bundle) else {
        return false;
    };
    show_count(rt, "Bundle::into_seats", seats.len(), "seats");
    true
}
