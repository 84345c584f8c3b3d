//! How rooms are opened for C: each handle gets a seat.

ghost use Rattle.std.specs.Prelude.{◌≡◌, IsTrue, length};
ghost use Rattle.std.specs.Arc.{arc_value};
ghost use Rattle.fak_model.specs.Calls.{fresh_seats};
ghost use Rattle.fak_handles.specs.Openings.{AreSeatedBelow, IsFreshRoom, OpensRoom};

use crate::code::{BAD_LIMIT, MEMORY, OK};
use crate::desk::Desk;
use crate::opening::clear;
use crate::padded_handle::PaddedHandle;
use crate::room::seat::RoomDesk;
use fak_count::{Room, RoomSeat};
use fak_model::LargeFault;
use std::alloc::Global;
use std::sync::Arc;

/// Gives each handle one of the seats, with a share of the object. False if memory ran out.
fn seat_room(
    alloc: Global,
    room: &Arc<Room, Global>,
    stint: u64,
    seats: Vec<RoomSeat>,
    handles: &mut [PaddedHandle],
) -> bool
    requires { seats.items ≡ fresh_seats (arc_value room.now).object stint 0 (length handles.old) }
    ensures len { length handles.new ≡ length handles.old }
    ensures seated { IsTrue result → AreSeatedBelow (IsFreshRoom (arc_value room.now) stint)
        (length handles.old) handles.new }
{
    let mut rest = seats.into_iter();
    for i in 0..handles.len() {
        let Some(seat) = rest.next() else {
            return false;
        };
        let Ok(share) = Arc::try_clone(room) else {
            return false;
        };
        let desk = RoomDesk::of(share, seat);
        let Ok(desk) = Box::new(alloc, Desk::Room(desk)) else {
            return false;
        };
        handles[i].put(desk);
    }
    true
}

/// Opens the object with a seat for each handle. What the handles held is given up.
pub fn open_room(alloc: Global, handles: &mut [PaddedHandle], bound: u64, stint: u64) -> i32
    ensures len { length handles.new ≡ length handles.old }
    ensures opens { OpensRoom result bound stint handles.new }
{
    clear(alloc, handles);
    match Room::open_large(alloc, bound, handles.len() as u64, stint) {
        Ok((room, seats)) => {
            let Ok(room) = Arc::new(alloc, room) else {
                return MEMORY;
            };
            if seat_room(alloc, &room, stint, seats, handles) {
                OK
            } else {
                clear(alloc, handles);
                MEMORY
            }
        }
        Err(LargeFault::Memory) => MEMORY,
        Err(LargeFault::BadSize | LargeFault::BadSeats | LargeFault::BadStint) => BAD_LIMIT,
    }
}
