//! The exported calls of seats of file tables.

ghost use Rattle.std.specs.Prelude.{◌≡◌};
ghost use Rattle.fak_model.specs.declared.file.FileField.TheVariants.{Inode, Uses};
ghost use Rattle.fak_files.specs.declared.phase.Access.TheVariants.{Read, Write};
ghost use Rattle.fak_handles.specs.Calls.{Called};
ghost use Rattle.fak_handles.specs.Kinds.{Spares, files_in};
ghost use Rattle.fak_handles.specs.files.Calls.{Ends, Gets, LooksAtHold, SameTable, Sets, TriesHold};

use fak_handles::code::{NO_SEAT, OK};
use fak_handles::files::codes::{of_done, of_get, of_held, of_hold};
use fak_handles::files::seat::FileDesk;
use fak_handles::padded_handle::PaddedHandle;
use fak_model::FileField;

/// A reader's hold.
///
/// `OK`, `WORN`, `BUSY` with the count that was found, `NO_SEAT` or `WRONG_STATE`.
#[unsafe(no_mangle)]
pub extern "C" fn fak_c_files_try_read(seat: &mut PaddedHandle, count: &mut i64) -> i32
    ensures call { Called result (count.new ≡ count.old) SameTable (TriesHold Read result count.old count.new)
        (files_in seat.old.handle.desk) (files_in seat.new.handle.desk) }
    ensures spares { Spares files_in seat.old.handle.desk seat.new.handle.desk }
{
    let Some(desk) = seat.lend::<FileDesk>() else {
        return NO_SEAT;
    };
    let tried = desk.try_read();
    of_hold(&tried, count)
}

/// A writer's hold.
///
/// `OK`, `WORN`, `BUSY` with the count that was found, `NO_SEAT` or `WRONG_STATE`.
#[unsafe(no_mangle)]
pub extern "C" fn fak_c_files_try_write(seat: &mut PaddedHandle, count: &mut i64) -> i32
    ensures call { Called result (count.new ≡ count.old) SameTable (TriesHold Write result count.old count.new)
        (files_in seat.old.handle.desk) (files_in seat.new.handle.desk) }
    ensures spares { Spares files_in seat.old.handle.desk seat.new.handle.desk }
{
    let Some(desk) = seat.lend::<FileDesk>() else {
        return NO_SEAT;
    };
    let tried = desk.try_write();
    of_hold(&tried, count)
}

/// Writes an entry, in a hold.
///
/// `OK`, `WRONG_STATE` with no hold or no such entry, or `NO_SEAT`.
#[unsafe(no_mangle)]
pub extern "C" fn fak_c_files_get(
    seat: &mut PaddedHandle,
    entry: u64,
    inode: &mut u64,
    uses: &mut u64,
) -> i32
    ensures call { Called result ((inode.new ≡ inode.old) × (uses.new ≡ uses.old)) SameTable
        (Gets result entry inode.old inode.new uses.old uses.new) (files_in seat.old.handle.desk)
        (files_in seat.new.handle.desk) }
    ensures spares { Spares files_in seat.old.handle.desk seat.new.handle.desk }
{
    let Some(desk) = seat.lend::<FileDesk>() else {
        return NO_SEAT;
    };
    let got = desk.get(entry);
    of_get(&got, inode, uses)
}

/// Sets the inode of an entry, in a writer's hold.
///
/// `OK`, `WRONG_STATE` with no such hold or entry, or `NO_SEAT`.
#[unsafe(no_mangle)]
pub extern "C" fn fak_c_files_set_inode(seat: &mut PaddedHandle, entry: u64, to: u64) -> i32
    ensures call { Called result Unit SameTable (Sets result entry Inode to) (files_in seat.old.handle.desk)
        (files_in seat.new.handle.desk) }
    ensures spares { Spares files_in seat.old.handle.desk seat.new.handle.desk }
{
    let Some(desk) = seat.lend::<FileDesk>() else {
        return NO_SEAT;
    };
    of_done(desk.set(entry, FileField::Inode, to))
}

/// Sets the uses of an entry, in a writer's hold.
///
/// `OK`, `WRONG_STATE` with no such hold or entry, or `NO_SEAT`.
#[unsafe(no_mangle)]
pub extern "C" fn fak_c_files_set_uses(seat: &mut PaddedHandle, entry: u64, to: u64) -> i32
    ensures call { Called result Unit SameTable (Sets result entry Uses to) (files_in seat.old.handle.desk)
        (files_in seat.new.handle.desk) }
    ensures spares { Spares files_in seat.old.handle.desk seat.new.handle.desk }
{
    let Some(desk) = seat.lend::<FileDesk>() else {
        return NO_SEAT;
    };
    of_done(desk.set(entry, FileField::Uses, to))
}

/// Gives the hold back.
///
/// `OK`, `WRONG_STATE` with no hold, or `NO_SEAT`.
#[unsafe(no_mangle)]
pub extern "C" fn fak_c_files_end(seat: &mut PaddedHandle) -> i32
    ensures call { Called result Unit SameTable (Ends result) (files_in seat.old.handle.desk)
        (files_in seat.new.handle.desk) }
    ensures spares { Spares files_in seat.old.handle.desk seat.new.handle.desk }
{
    let Some(desk) = seat.lend::<FileDesk>() else {
        return NO_SEAT;
    };
    of_done(desk.end())
}

/// Writes what the seat holds, 0 nothing, 1 as a reader, 2 as a writer.
///
/// `OK` or `NO_SEAT`.
#[unsafe(no_mangle)]
pub extern "C" fn fak_c_files_hold(seat: &mut PaddedHandle, hold: &mut u32) -> i32
    ensures call { Called result (hold.new ≡ hold.old) SameTable (LooksAtHold result hold.new)
        (files_in seat.old.handle.desk) (files_in seat.new.handle.desk) }
    ensures spares { Spares files_in seat.old.handle.desk seat.new.handle.desk }
{
    let Some(desk) = seat.lend::<FileDesk>() else {
        return NO_SEAT;
    };
    *hold = of_held(desk.seat.hold());
    OK
}
