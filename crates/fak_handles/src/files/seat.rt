//! A seat of a file table, with a share of the table.

ghost use Rattle.std.specs.Prelude.{◌≡◌};
ghost use Rattle.std.specs.Arc.{arc_value};

use crate::desk::Desk;
use crate::seat_kind::SeatKind;
use fak_files::{FileSeat, FileTable};
use std::alloc::Global;
use std::sync::Arc;

/// A seat with a share of its table, and how many entries that has.
#[derive(Drop)]
#[repr(C)]
pub struct FileDesk {
    pub(crate) before: [u64; 8],
    pub(crate) table: Arc<FileTable, Global>,
    pub(crate) entries: u64,
    pub seat: FileSeat,
    pub(crate) after: [u64; 8],
    pub ghost same: { seat.seat.object ≡ (arc_value table).object },
    pub ghost many: { entries ≡ (arc_value table).entries },
}

impl FileDesk {
    pub(crate) fn of(table: Arc<FileTable, Global>, seat: FileSeat, entries: u64) -> FileDesk
        requires same { seat.seat.object ≡ (arc_value table).object }
        requires many { entries ≡ (arc_value table).entries }
        ensures object { arc_value result.table ≡ arc_value table }
        ensures seat { result.seat ≡ seat }
    {
        FileDesk {
            before: [0; 8],
            table,
            entries,
            seat,
            after: [0; 8],
        }
    }
}

impl SeatKind for FileDesk {
    ghost use Rattle.std.specs.Prelude.{refl};
    ghost use Rattle.fak_handles.specs.Kinds.{files_in, with_files};

    ghost seat_in = { files_in };

    ghost with_seat = { with_files };

    fn lend(desk: &mut Desk) -> Option<&mut FileDesk> {
        match desk {
            Desk::Files(desk) => Some(desk),
            _ => None,
        }
    }

    ghost no_desk = { refl };
}
