//! The exported calls of seats of rooms.

ghost use Rattle.std.specs.Prelude.{◌≡◌};
ghost use Rattle.fak_handles.specs.Calls.{Called};
ghost use Rattle.fak_handles.specs.room.Calls.{LooksAtRoom, Releases, SameRoom, TriesRoom};
ghost use Rattle.fak_handles.specs.Kinds.{Spares, room_in};

use fak_handles::code::{NO_SEAT, OK};
use fak_handles::padded_handle::PaddedHandle;
use fak_handles::room::codes::{of_release, of_tir};
use fak_handles::room::seat::RoomDesk;

/// Claims the amount, 1 to 1,024, and writes the value that was found.
///
/// `OK`, `WORN`, `FULL`, `BAD_LIMIT` or `NO_SEAT`.
#[unsafe(no_mangle)]
pub extern "C" fn fak_c_room_tir(seat: &mut PaddedHandle, amount: u64, found: &mut i64) -> i32
    ensures call { Called result (found.new ≡ found.old) SameRoom (TriesRoom result amount found.old found.new)
        (room_in seat.old.handle.desk) (room_in seat.new.handle.desk) }
    ensures spares { Spares room_in seat.old.handle.desk seat.new.handle.desk }
{
    let Some(desk) = seat.lend::<RoomDesk>() else {
        return NO_SEAT;
    };
    let claimed = desk.tir(amount);
    of_tir(&claimed, found)
}

/// Gives the amount back, and writes the value that was found.
///
/// `OK`, `BAD_LIMIT` if it is out of range or more than the seat holds, or `NO_SEAT`.
#[unsafe(no_mangle)]
pub extern "C" fn fak_c_room_release(seat: &mut PaddedHandle, amount: u64, found: &mut i64) -> i32
    ensures call { Called result (found.new ≡ found.old) SameRoom (Releases result amount found.old found.new)
        (room_in seat.old.handle.desk) (room_in seat.new.handle.desk) }
    ensures spares { Spares room_in seat.old.handle.desk seat.new.handle.desk }
{
    let Some(desk) = seat.lend::<RoomDesk>() else {
        return NO_SEAT;
    };
    let released = desk.release(amount);
    of_release(released, found)
}

/// Writes how much the seat holds, and how many claims are left of its stint.
///
/// `OK` or `NO_SEAT`.
#[unsafe(no_mangle)]
pub extern "C" fn fak_c_room_state(seat: &mut PaddedHandle, held: &mut u64, left: &mut u64) -> i32
    ensures call { Called result ((held.new ≡ held.old) × (left.new ≡ left.old)) SameRoom
        (LooksAtRoom result held.new left.new) (room_in seat.old.handle.desk) (room_in seat.new.handle.desk) }
    ensures spares { Spares room_in seat.old.handle.desk seat.new.handle.desk }
{
    let Some(desk) = seat.lend::<RoomDesk>() else {
        return NO_SEAT;
    };
    *held = desk.seat.held();
    *left = desk.seat.left();
    OK
}
