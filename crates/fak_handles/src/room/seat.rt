//! A seat of a room, with a share of the room.

ghost use Rattle.std.specs.Prelude.{◌≡◌};
ghost use Rattle.std.specs.Arc.{arc_value};

use crate::desk::Desk;
use crate::seat_kind::SeatKind;
use fak_count::{Room, RoomSeat};
use std::alloc::Global;
use std::sync::Arc;

/// A seat with a share of its room.
#[derive(Drop)]
#[repr(C)]
pub struct RoomDesk {
    pub(crate) before: [u64; 8],
    pub(crate) room: Arc<Room, Global>,
    pub seat: RoomSeat,
    pub(crate) after: [u64; 8],
    pub ghost same: { seat.object ≡ (arc_value room).object },
}

impl RoomDesk {
    pub(crate) fn of(room: Arc<Room, Global>, seat: RoomSeat) -> RoomDesk
        requires same { seat.object ≡ (arc_value room).object }
        ensures object { arc_value result.room ≡ arc_value room }
        ensures seat { result.seat ≡ seat }
    {
        RoomDesk {
            before: [0; 8],
            room,
            seat,
            after: [0; 8],
        }
    }
}

impl SeatKind for RoomDesk {
    ghost use Rattle.std.specs.Prelude.{refl};
    ghost use Rattle.fak_handles.specs.Kinds.{room_in, with_room};

    ghost seat_in = { room_in };

    ghost with_seat = { with_room };

    fn lend(desk: &mut Desk) -> Option<&mut RoomDesk> {
        match desk {
            Desk::Room(desk) => Some(desk),
            _ => None,
        }
    }

    ghost no_desk = { refl };
}
