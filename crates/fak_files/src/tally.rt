//! Seats of a file table that were joined.

ghost use Rattle.std.specs.Prelude.{◌≡◌, ◌↔◌, IsTrue};
ghost use Rattle.fak_model.specs.Histories.{AreNamed, IsAtRest};
ghost use Rattle.fak_model.specs.File.{IsFileHistory, seat_of, file_rules};
ghost use Rattle.fak_model.specs.Seats.{IsWhole, mine};
ghost use Rattle.fak_model.specs.Calls.{tally_of};
ghost use Rattle.fak_files.specs.declared.phase.Hold.TheVariants.{Nothing};

use crate::seat::FileSeat;
use crate::steps::FileToken;
use fak_model::NameSet;
use std::fmt;
use std::marker::Model;

/// Seats of a file table that were joined and perform no more calls. Contracts see their object, their names, and the
/// longest history that one of them has seen.
#[derive(Drop)]
pub struct FileTally {
    pub(crate) token: FileToken,
    pub(crate) names: NameSet,
    pub(crate) seats: u64,
}

impl Model for FileTally {
    ghost use Rattle.std.specs.Prelude.{reverse};
    ghost use Rattle.fak_model.specs.declared.file.FileMark.{FileMark};
    ghost use Rattle.fak_model.specs.File.{seat_of};
    ghost use Rattle.fak_model.specs.Names.{HasJust};
    ghost use Rattle.fak_model.specs.Calls.{TallyInfo, tally_info, object_id};
    ghost use Rattle.fak_model.specs.Tokens.{IsTallyToken};
    ghost use Rattle.fak_files.specs.SeatTokens.{IsSettled};
    ghost use Rattle.fak_files.specs.declared.phase.FilePhase.TheVariants.{Idle};

    ghost Value = { TallyInfo FileMark };

    ghost view = { λ t. tally_info (object_id t.token.table_id t.seats) t.token.me.0.names
        (reverse t.token.me.0.seen) };

    ghost invariant = { λ t. IsTallyToken seat_of t.seats Idle t.token.me × HasJust t.names t.token.me.0.names
        × IsSettled t.seats t.token.me.0.names (reverse t.token.me.0.seen) };
}

impl FileTally {
    /// The tally of one seat, which holds nothing.
    pub fn of(seat: FileSeat) -> FileTally
        requires { seat.hold ≡ Nothing }
        ensures tally { result ≡ tally_of seat.seat }
        ensures lawful { IsFileHistory result.object.seats result.seen }
        ensures named { AreNamed (file_rules result.object.seats) result.object.seats result.seen }
    {
        let FileSeat {
            token,
            name,
            seats,
            left: _,
            hold: _,
        } = seat;
        FileTally {
            token,
            names: NameSet::of(name),
            seats,
        }
    }

    /// Whether all seats of the table are in the tally. Then each mark of its history belongs to one of them, and no
    /// call is cut short. Its history is lawful in any case.
    pub fn is_whole(&self) -> bool
        ensures whole { IsTrue result ↔ IsWhole self.now.object.seats self.now.names }
        ensures mine { IsTrue result → mine seat_of self.now.names self.now.seen ≡ self.now.seen }
        ensures lawful { IsFileHistory self.now.object.seats self.now.seen }
        ensures named { AreNamed (file_rules self.now.object.seats) self.now.object.seats self.now.seen }
        ensures rest { IsTrue result → IsAtRest (file_rules self.now.object.seats) self.now.seen }
    {
        self.names.has_all(self.seats)
    }
}

impl fmt::Debug for FileTally {
    fn fmt<W: fmt::Write>(&self, f: &mut fmt::Formatter<W>) -> fmt::Result {
        f.debug_struct("FileTally")
            .field("seats", &self.seats)
            .field("is_whole", &self.is_whole())
            .finish_non_exhaustive()
    }
}
