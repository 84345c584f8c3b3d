//! How semaphores are opened for C: each handle gets a seat.

ghost use Rattle.std.specs.Prelude.{◌≡◌, IsTrue, length};
ghost use Rattle.std.specs.Arc.{arc_value};
ghost use Rattle.fak_sem.specs.Semaphores.{fresh_sem_seats};
ghost use Rattle.fak_handles.specs.Openings.{AreSeatedBelow, IsFreshSem, OpensSem};

use crate::code::{BAD_LIMIT, MEMORY, OK};
use crate::desk::Desk;
use crate::opening::clear;
use crate::padded_handle::PaddedHandle;
use crate::semaphore::seat::SemDesk;
use fak_model::LargeFault;
use fak_sem::{SemSeat, Semaphore, StepSeat};
use std::alloc::Global;
use std::sync::Arc;

/// Gives each handle one of the seats, with a share of the object. False if memory ran out.
fn seat_semaphore(
    alloc: Global,
    semaphore: &Arc<Semaphore<u64>, Global>,
    stint: u64,
    seats: Vec<SemSeat<u64>>,
    handles: &mut [PaddedHandle],
) -> bool
    requires { seats.items ≡ fresh_sem_seats (arc_value semaphore.now).object stint 0 (length handles.old) }
    ensures len { length handles.new ≡ length handles.old }
    ensures seated { IsTrue result → AreSeatedBelow (IsFreshSem (arc_value semaphore.now) stint)
        (length handles.old) handles.new }
{
    let mut rest = seats.into_iter();
    for i in 0..handles.len() {
        let Some(seat) = rest.next() else {
            return false;
        };
        let Ok(share) = Arc::try_clone(semaphore) else {
            return false;
        };
        let desk = SemDesk::of(share, StepSeat::of(seat));
        let Ok(desk) = Box::new(alloc, Desk::Semaphore(desk)) else {
            return false;
        };
        handles[i].put(desk);
    }
    true
}

/// Opens the object with a seat for each handle. What the handles held is given up.
pub fn open_semaphore(
    alloc: Global,
    handles: &mut [PaddedHandle],
    start: u64,
    size: u64,
    stint: u64,
) -> i32
    ensures len { length handles.new ≡ length handles.old }
    ensures opens { OpensSem result start size stint handles.new }
{
    clear(alloc, handles);
    match Semaphore::<u64>::open_large(alloc, start, size, handles.len() as u64, stint) {
        Ok((semaphore, seats)) => {
            let Ok(semaphore) = Arc::new(alloc, semaphore) else {
                return MEMORY;
            };
            if seat_semaphore(alloc, &semaphore, stint, seats, handles) {
                OK
            } else {
                clear(alloc, handles);
                MEMORY
            }
        }
        Err(LargeFault::Memory) => MEMORY,
        Err(LargeFault::BadSize | LargeFault::BadSeats | LargeFault::BadStint) => BAD_LIMIT,
    }
}
