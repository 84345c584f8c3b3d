//! How credits are opened for C: each handle gets a seat.

ghost use Rattle.std.specs.Prelude.{◌≡◌, IsTrue, length};
ghost use Rattle.std.specs.Arc.{arc_value};
ghost use Rattle.fak_model.specs.Calls.{fresh_seats};
ghost use Rattle.fak_handles.specs.Openings.{AreSeatedBelow, IsFreshCredit, OpensCredit};

use crate::code::{BAD_LIMIT, MEMORY, OK};
use crate::credit::seat::CreditDesk;
use crate::desk::Desk;
use crate::opening::clear;
use crate::padded_handle::PaddedHandle;
use fak_count::{Credit, CreditSeat};
use fak_model::LargeFault;
use std::alloc::Global;
use std::sync::Arc;

/// Gives each handle one of the seats, with a share of the object. False if memory ran out.
fn seat_credit(
    alloc: Global,
    credit: &Arc<Credit, Global>,
    stint: u64,
    seats: Vec<CreditSeat>,
    handles: &mut [PaddedHandle],
) -> bool
    requires { seats.items ≡ fresh_seats (arc_value credit.now).object stint 0 (length handles.old) }
    ensures len { length handles.new ≡ length handles.old }
    ensures seated { IsTrue result → AreSeatedBelow (IsFreshCredit (arc_value credit.now) stint)
        (length handles.old) handles.new }
{
    let mut rest = seats.into_iter();
    for i in 0..handles.len() {
        let Some(seat) = rest.next() else {
            return false;
        };
        let Ok(share) = Arc::try_clone(credit) else {
            return false;
        };
        let desk = CreditDesk::of(share, seat);
        let Ok(desk) = Box::new(alloc, Desk::Credit(desk)) else {
            return false;
        };
        handles[i].put(desk);
    }
    true
}

/// Opens the object with a seat for each handle. What the handles held is given up.
pub fn open_credit(alloc: Global, handles: &mut [PaddedHandle], start: u64, stint: u64) -> i32
    ensures len { length handles.new ≡ length handles.old }
    ensures opens { OpensCredit result start stint handles.new }
{
    clear(alloc, handles);
    match Credit::open_large(alloc, start, handles.len() as u64, stint) {
        Ok((credit, seats)) => {
            let Ok(credit) = Arc::new(alloc, credit) else {
                return MEMORY;
            };
            if seat_credit(alloc, &credit, stint, seats, handles) {
                OK
            } else {
                clear(alloc, handles);
                MEMORY
            }
        }
        Err(LargeFault::Memory) => MEMORY,
        Err(LargeFault::BadSize | LargeFault::BadSeats | LargeFault::BadStint) => BAD_LIMIT,
    }
}
