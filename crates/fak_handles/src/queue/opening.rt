//! How queues are opened for C: each handle gets a seat.

ghost use Rattle.std.specs.Prelude.{◌≡◌, IsTrue, length};
ghost use Rattle.std.specs.Arc.{arc_value};
ghost use Rattle.fak_model.specs.Calls.{fresh_seats};
ghost use Rattle.fak_handles.specs.Openings.{AreSeatedBelow, IsFreshQueue, OpensQueue};

use crate::code::{BAD_LIMIT, MEMORY, OK};
use crate::desk::Desk;
use crate::opening::clear;
use crate::padded_handle::PaddedHandle;
use crate::queue::seat::QueueDesk;
use fak_model::LargeFault;
use fak_queue::{Queue, Seat};
use std::alloc::Global;
use std::sync::Arc;

/// Gives each handle one of the seats, with a share of the object. False if memory ran out.
pub(crate) fn seat_queue(
    alloc: Global,
    queue: &Arc<Queue<u64>, Global>,
    stint: u64,
    seats: Vec<Seat<u64>>,
    handles: &mut [PaddedHandle],
) -> bool
    requires { seats.items ≡ fresh_seats (arc_value queue.now).object stint 0 (length handles.old) }
    ensures len { length handles.new ≡ length handles.old }
    ensures seated { IsTrue result → AreSeatedBelow (IsFreshQueue (arc_value queue.now) stint)
        (length handles.old) handles.new }
{
    let mut rest = seats.into_iter();
    for i in 0..handles.len() {
        let Some(seat) = rest.next() else {
            return false;
        };
        let Ok(share) = Arc::try_clone(queue) else {
            return false;
        };
        let desk = QueueDesk::of(share, seat);
        let Ok(desk) = Box::new(alloc, Desk::Queue(desk)) else {
            return false;
        };
        handles[i].put(desk);
    }
    true
}

/// Opens the object with a seat for each handle. What the handles held is given up.
pub fn open_queue(alloc: Global, handles: &mut [PaddedHandle], size: u64, stint: u64) -> i32
    ensures len { length handles.new ≡ length handles.old }
    ensures opens { OpensQueue result size stint handles.new }
{
    clear(alloc, handles);
    match Queue::<u64>::open_large(alloc, size, handles.len() as u64, stint) {
        Ok((queue, seats)) => {
            let Ok(queue) = Arc::new(alloc, queue) else {
                return MEMORY;
            };
            if seat_queue(alloc, &queue, stint, seats, handles) {
                OK
            } else {
                clear(alloc, handles);
                MEMORY
            }
        }
        Err(LargeFault::Memory) => MEMORY,
        Err(LargeFault::BadSize | LargeFault::BadSeats | LargeFault::BadStint) => BAD_LIMIT,
    }
}
