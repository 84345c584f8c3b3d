//! A seat of a file table.

ghost use Rattle.std.specs.Prelude.{◌+◌, ◌≡◌};
ghost use Rattle.fak_files.specs.Calls.{IsHoldOf, holds_had};

use crate::phase::Hold;
use crate::steps::FileToken;
use std::fmt;
use std::marker::Model;

/// The right to hold a `FileTable`, as many times as its stint. Contracts see its object, its name, its stint, the
/// history that it has seen, and what it holds.
#[derive(Drop)]
pub struct FileSeat {
    pub(crate) token: FileToken,
    pub(crate) name: u64,
    pub(crate) seats: u64,
    pub(crate) left: u64,
    pub(crate) hold: Hold,
}

impl Model for FileSeat {
    ghost use Rattle.fak_model.specs.Calls.{object_id};
    ghost use Rattle.fak_files.specs.Calls.{FileSeatInfo};
    ghost use Rattle.fak_files.specs.SeatTokens.{seat_now, IsFileSeat};

    ghost Value = { FileSeatInfo };

    ghost view = { λ s. seat_now (object_id s.token.table_id s.seats) s.name s.left s.hold s.token.me };

    ghost invariant = { λ s. IsFileSeat s.name s.seats s.hold s.token.me };
}

impl FileSeat {
    /// What the seat holds, which its marks show too.
    pub fn hold(&self) -> Hold
        ensures hold { result ≡ self.now.hold }
        ensures marks { IsHoldOf self.now.seat self.now.hold }
    {
        self.hold
    }

    /// The number of holds that are left of the stint.
    pub fn left(&self) -> u64
        ensures { result + holds_had self.now.seat ≡ self.now.seat.stint }
    {
        self.left
    }
}

impl fmt::Debug for FileSeat {
    fn fmt<W: fmt::Write>(&self, f: &mut fmt::Formatter<W>) -> fmt::Result {
        f.debug_struct("FileSeat")
            .field("name", &self.name)
            .field("hold", &self.hold)
            .field("left", &self.left)
            .finish_non_exhaustive()
    }
}
