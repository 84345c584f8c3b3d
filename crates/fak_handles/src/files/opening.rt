//! How file tables are opened for C: each handle gets a seat.

ghost use Rattle.std.specs.Prelude.{◌≡◌, IsTrue, length};
ghost use Rattle.std.specs.Arc.{arc_value};
ghost use Rattle.fak_model.specs.Calls.{fresh_seats};
ghost use Rattle.fak_files.specs.Calls.{idle_seats};
ghost use Rattle.fak_handles.specs.Openings.{AreSeatedBelow, IsFreshFile, OpensTable};

use crate::code::{BAD_LIMIT, MEMORY, OK};
use crate::desk::Desk;
use crate::files::seat::FileDesk;
use crate::opening::clear;
use crate::padded_handle::PaddedHandle;
use fak_files::{FileSeat, FileTable};
use fak_model::LargeFault;
use std::alloc::Global;
use std::sync::Arc;

/// Gives each handle one of the seats, with a share of the object. False if memory ran out.
fn seat_table(
    alloc: Global,
    table: &Arc<FileTable, Global>,
    entries: u64,
    stint: u64,
    seats: Vec<FileSeat>,
    handles: &mut [PaddedHandle],
) -> bool
    requires fresh { seats.items ≡ idle_seats (fresh_seats (arc_value table.now).object stint 0 (length handles.old)) }
    requires many { entries ≡ (arc_value table.now).entries }
    ensures len { length handles.new ≡ length handles.old }
    ensures seated { IsTrue result → AreSeatedBelow (IsFreshFile (arc_value table.now) stint)
        (length handles.old) handles.new }
{
    let mut rest = seats.into_iter();
    for i in 0..handles.len() {
        let Some(seat) = rest.next() else {
            return false;
        };
        let Ok(share) = Arc::try_clone(table) else {
            return false;
        };
        let desk = FileDesk::of(share, seat, entries);
        let Ok(desk) = Box::new(alloc, Desk::Files(desk)) else {
            return false;
        };
        handles[i].put(desk);
    }
    true
}

/// Opens the object with a seat for each handle. What the handles held is given up.
pub fn open_table(alloc: Global, handles: &mut [PaddedHandle], entries: u64, stint: u64) -> i32
    ensures len { length handles.new ≡ length handles.old }
    ensures opens { OpensTable result entries stint handles.new }
{
    clear(alloc, handles);
    match FileTable::open_large(alloc, entries, handles.len() as u64, stint) {
        Ok((table, seats)) => {
            let Ok(table) = Arc::new(alloc, table) else {
                return MEMORY;
            };
            if seat_table(alloc, &table, entries, stint, seats, handles) {
                OK
            } else {
                clear(alloc, handles);
                MEMORY
            }
        }
        Err(LargeFault::Memory) => MEMORY,
        Err(LargeFault::BadSize | LargeFault::BadSeats | LargeFault::BadStint) => BAD_LIMIT,
    }
}
