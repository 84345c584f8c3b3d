//! How queues with bundles are opened for C: each handle gets a seat, or a bundle of seats.

ghost use Rattle.std.specs.Prelude.{◌≡◌, ◌++◌, ◌<◌, ◌+◌, ◌*◌, IsTrue, MatchBool, MatchOption, length};
ghost use Rattle.std.specs.Arc.{arc_value};
ghost use Rattle.std.specs.List.{All};
ghost use Rattle.std.specs.Vec.Iter.{into_iter_items};
ghost use Rattle.fak_model.specs.Calls.{fresh_seats};
ghost use Rattle.fak_queue.specs.Queues.{IsIdleSeat};
ghost use Rattle.fak_handles.specs.bundle.Opening.{AreNumbersOfSeats, IsBundleDesk, IsFreshBundle, OpensBundles};
ghost use Rattle.fak_handles.specs.Openings.{AreSeatedBelow, IsFreshQueue};

use crate::bundle::seat::BundleDesk;
use crate::code::{BAD_LIMIT, MEMORY, OK};
use crate::desk::Desk;
use crate::opening::clear;
use crate::padded_handle::PaddedHandle;
use crate::queue::opening::seat_queue;
use fak_model::{LARGE_SEATS, LargeFault};
use fak_queue::{Bundle, Queue, Seat};
use std::alloc::Global;
use std::collections::VecDeque;
use std::sync::Arc;
use std::vec::IntoIter;

/// Whether a queue may have this many seats and bundles of this width.
pub fn are_numbers_of_seats(seats: usize, bundles: usize, width: u64) -> bool
    ensures { MatchBool result (AreNumbersOfSeats seats bundles width) (¬ AreNumbersOfSeats seats bundles width) }
{
    if bundles == 0 || width == 0 {
        return false;
    }
    if seats as u64 > LARGE_SEATS || bundles as u64 > LARGE_SEATS || width > LARGE_SEATS {
        return false;
    }
    seats as u64 + bundles as u64 * width <= LARGE_SEATS
}

/// Takes as many seats off the front. `None` if there are fewer, or memory ran out.
fn next_seats(alloc: Global, rest: &mut IntoIter<Seat<u64>>, count: usize) -> Option<Vec<Seat<u64>>>
    ensures { MatchOption result Unit (λ own. (length own.items ≡ count)
        × (into_iter_items rest.old ≡ own.items ++ into_iter_items rest.new)) }
{
    let Ok(mut own) = Vec::with_capacity(alloc, count) else {
        return None;
    };
    for _ in 0..count {
        let Some(seat) = rest.next() else {
            return None;
        };
        if own.push(seat).is_err() {
            return None;
        }
    }
    Some(own)
}

/// A bundle of these seats with a share of their queue. `None` if memory ran out.
fn bundle_desk(
    alloc: Global,
    queue: &Arc<Queue<u64>, Global>,
    seats: Vec<Seat<u64>>,
) -> Option<Box<Desk, Global>>
    requires some { 0 < length seats.items }
    requires idle { All (IsIdleSeat (arc_value queue.now).object) seats.items }
    ensures { MatchOption result Unit (λ b. IsBundleDesk (arc_value queue.now) seats.items b.value) }
{
    let width = seats.len();
    let Ok(held) = VecDeque::with_capacity(alloc, width) else {
        return None;
    };
    let Ok(share) = Arc::try_clone(queue) else {
        return None;
    };
    let Ok(bundle) = Bundle::of(alloc, queue, seats) else {
        return None;
    };
    let desk = BundleDesk::of(share, bundle, held);
    let Ok(inner) = Box::new(alloc, desk) else {
        return None;
    };
    match Box::new(alloc, Desk::Bundle(inner)) {
        Ok(desk) => Some(desk),
        Err(_) => None,
    }
}

/// Gives each handle a bundle of the next seats, which are named from `first` on. False if memory ran out.
fn seat_bundles(
    alloc: Global,
    queue: &Arc<Queue<u64>, Global>,
    stint: u64,
    first: usize,
    width: usize,
    mut rest: IntoIter<Seat<u64>>,
    handles: &mut [PaddedHandle],
) -> bool
    requires some { 0 < width }
    requires fresh { into_iter_items rest ≡ fresh_seats (arc_value queue.now).object stint first (length handles.old * width) }
    ensures len { length handles.new ≡ length handles.old }
    ensures seated { IsTrue result → AreSeatedBelow (IsFreshBundle (arc_value queue.now) stint first width)
        (length handles.old) handles.new }
{
    for i in 0..handles.len() {
        let Some(own) = next_seats(alloc, &mut rest, width) else {
            return false;
        };
        let Some(desk) = bundle_desk(alloc, queue, own) else {
            return false;
        };
        handles[i].put(desk);
    }
    true
}

/// Gives the first handles a seat each, and the others a bundle each. False if memory ran out.
fn seat_all(
    alloc: Global,
    queue: &Arc<Queue<u64>, Global>,
    stint: u64,
    width: usize,
    all: Vec<Seat<u64>>,
    seats: &mut [PaddedHandle],
    bundles: &mut [PaddedHandle],
) -> bool
    requires some { 0 < width }
    requires fresh { all.items ≡ fresh_seats (arc_value queue.now).object stint 0 (length seats.old + length bundles.old * width) }
    ensures len { length seats.new ≡ length seats.old }
    ensures bundles { length bundles.new ≡ length bundles.old }
    ensures seated { IsTrue result → AreSeatedBelow (IsFreshQueue (arc_value queue.now) stint)
        (length seats.old) seats.new }
    ensures bundled { IsTrue result → AreSeatedBelow (IsFreshBundle (arc_value queue.now) stint (length seats.old) width)
        (length bundles.old) bundles.new }
{
    let mut rest = all.into_iter();
    let Some(own) = next_seats(alloc, &mut rest, seats.len()) else {
        return false;
    };
    if !seat_queue(alloc, queue, stint, own, seats) {
        return false;
    }
    seat_bundles(alloc, queue, stint, seats.len(), width, rest, bundles)
}

/// Opens a queue with a seat for each handle of the first array, and a bundle of `width` seats for each of the second. What the handles
/// held is given up.
pub fn open_bundles(
    alloc: Global,
    seats: &mut [PaddedHandle],
    bundles: &mut [PaddedHandle],
    width: u64,
    size: u64,
    stint: u64,
) -> i32
    requires { AreNumbersOfSeats (length seats.old) (length bundles.old) width }
    ensures len { length seats.new ≡ length seats.old }
    ensures bundles { length bundles.new ≡ length bundles.old }
    ensures opens { OpensBundles result size stint width seats.new bundles.new }
{
    clear(alloc, seats);
    clear(alloc, bundles);
    let count = seats.len() as u64 + bundles.len() as u64 * width;
    match Queue::<u64>::open_large(alloc, size, count, stint) {
        Ok((queue, all)) => {
            let Ok(queue) = Arc::new(alloc, queue) else {
                return MEMORY;
            };
            if seat_all(alloc, &queue, stint, width as usize, all, seats, bundles) {
                OK
            } else {
                clear(alloc, seats);
                clear(alloc, bundles);
                MEMORY
            }
        }
        Err(LargeFault::Memory) => MEMORY,
        Err(LargeFault::BadSize | LargeFault::BadSeats | LargeFault::BadStint) => BAD_LIMIT,
    }
}
