//! The exported functions. Here those that open objects, move seats and give them up; the calls of each kind of seat have a module each.

ghost use Rattle.std.specs.Prelude.{◌≡◌, length};
ghost use Rattle.fak_handles.specs.Kinds.{GivesUp, Moves};
ghost use Rattle.fak_handles.specs.Openings.{OpensChannel, OpensCredit, OpensOrKeeps, OpensQueue, OpensRoom, OpensSem, OpensTable};

mod bundle;
mod channel;
mod credit;
mod files;
mod lending;
mod queue;
mod room;
mod semaphore;

use fak_handles::code::{BAD_LIMIT, NO_SEAT, OK, WRONG_STATE};
use fak_handles::opening::is_number_of_seats;
use fak_handles::padded_handle::PaddedHandle;
use std::alloc::Global;

/// Opens a queue of `size` cells, and gives each of 1 to 1,024 handles a seat of it with this stint. What the handles held is
/// given up. A failed call leaves them empty, but keeps them if their number is out of range.
///
/// `OK`, `BAD_LIMIT` or `MEMORY`.
#[unsafe(no_mangle)]
pub extern "C" fn fak_c_open(
    alloc: Global,
    seats: &mut [PaddedHandle],
    size: u64,
    stint: u64,
) -> i32
    ensures len { length seats.new ≡ length seats.old }
    ensures opens { OpensOrKeeps result seats.old seats.new (OpensQueue result size stint seats.new) }
{
    if !is_number_of_seats(seats.len()) {
        return BAD_LIMIT;
    }
    fak_handles::queue::opening::open_queue(alloc, seats, size, stint)
}

/// Gives up a seat at rest; its handle is empty then. The last seat of an object frees it.
///
/// `OK`, `NO_SEAT`, or `WRONG_STATE` during a call or a hold: then the handle keeps the seat.
#[unsafe(no_mangle)]
pub extern "C" fn fak_c_leave(alloc: Global, seat: &mut PaddedHandle) -> i32
    ensures { GivesUp result seat.old.handle.desk seat.new.handle.desk }
{
    let Some(desk) = seat.take(alloc) else {
        return NO_SEAT;
    };
    if desk.is_at_rest() {
        drop(desk);
        OK
    } else {
        seat.put(desk);
        WRONG_STATE
    }
}

/// Opens a room with this bound, and gives each handle a seat of it. Like `fak_c_open`.
#[unsafe(no_mangle)]
pub extern "C" fn fak_c_room_open(
    alloc: Global,
    seats: &mut [PaddedHandle],
    bound: u64,
    stint: u64,
) -> i32
    ensures len { length seats.new ≡ length seats.old }
    ensures opens { OpensOrKeeps result seats.old seats.new (OpensRoom result bound stint seats.new) }
{
    if !is_number_of_seats(seats.len()) {
        return BAD_LIMIT;
    }
    fak_handles::room::opening::open_room(alloc, seats, bound, stint)
}

/// Opens a credit that begins at `start`, and gives each handle a seat of it. Like `fak_c_open`.
#[unsafe(no_mangle)]
pub extern "C" fn fak_c_credit_open(
    alloc: Global,
    seats: &mut [PaddedHandle],
    start: u64,
    stint: u64,
) -> i32
    ensures len { length seats.new ≡ length seats.old }
    ensures opens { OpensOrKeeps result seats.old seats.new (OpensCredit result start stint seats.new) }
{
    if !is_number_of_seats(seats.len()) {
        return BAD_LIMIT;
    }
    fak_handles::credit::opening::open_credit(alloc, seats, start, stint)
}

/// Opens a file table of this many entries, and gives each handle a seat of it. Like `fak_c_open`.
#[unsafe(no_mangle)]
pub extern "C" fn fak_c_files_open(
    alloc: Global,
    seats: &mut [PaddedHandle],
    entries: u64,
    stint: u64,
) -> i32
    ensures len { length seats.new ≡ length seats.old }
    ensures opens { OpensOrKeeps result seats.old seats.new (OpensTable result entries stint seats.new) }
{
    if !is_number_of_seats(seats.len()) {
        return BAD_LIMIT;
    }
    fak_handles::files::opening::open_table(alloc, seats, entries, stint)
}

/// Opens a semaphore that begins at `start`, with a wait queue of `size` cells, and gives each handle a seat of it. Like `fak_c_open`.
#[unsafe(no_mangle)]
pub extern "C" fn fak_c_sem_open(
    alloc: Global,
    seats: &mut [PaddedHandle],
    start: u64,
    size: u64,
    stint: u64,
) -> i32
    ensures len { length seats.new ≡ length seats.old }
    ensures opens { OpensOrKeeps result seats.old seats.new (OpensSem result start size stint seats.new) }
{
    if !is_number_of_seats(seats.len()) {
        return BAD_LIMIT;
    }
    fak_handles::semaphore::opening::open_semaphore(alloc, seats, start, size, stint)
}

/// Opens an empty channel of `size` cells, and gives each handle an end of it, numbered by its place. Like `fak_c_open`.
#[unsafe(no_mangle)]
pub extern "C" fn fak_channel_open(
    alloc: Global,
    ends: &mut [PaddedHandle],
    size: u64,
    stint: u64,
) -> i32
    ensures len { length ends.new ≡ length ends.old }
    ensures opens { OpensOrKeeps result ends.old ends.new (OpensChannel result size stint ends.new) }
{
    if !is_number_of_seats(ends.len()) {
        return BAD_LIMIT;
    }
    fak_handles::channel::opening::open_channel(alloc, ends, size, stint)
}

/// Moves the seat of a handle to an empty one.
///
/// `OK`, `NO_SEAT`, or `WRONG_STATE` if the other has a seat.
#[unsafe(no_mangle)]
pub extern "C" fn fak_c_move(alloc: Global, seat: &mut PaddedHandle, to: &mut PaddedHandle) -> i32
    ensures { Moves result seat.old.handle.desk to.old.handle.desk seat.new.handle.desk to.new.handle.desk }
{
    let Some(desk) = seat.take(alloc) else {
        return NO_SEAT;
    };
    match to.take(alloc) {
        None => {
            to.put(desk);
            OK
        }
        Some(there) => {
            to.put(there);
            seat.put(desk);
            WRONG_STATE
        }
    }
}
