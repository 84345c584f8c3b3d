//! Seats of a room that were joined.

ghost use Rattle.std.specs.Prelude.{◌≡◌, ◌↔◌, ℕ, IsTrue, pos};
ghost use Rattle.fak_model.specs.Histories.{AreNamed, IsAtRest, sum_below};
ghost use Rattle.fak_model.specs.Seats.{IsWhole, mine};
ghost use Rattle.fak_model.specs.Calls.{tally_of};
ghost use Rattle.fak_model.specs.Room.{IsRoomHistory, amount_held, room_rules, seat_of, value};

use crate::rooms::seat::RoomSeat;
use crate::rooms::steps::RoomToken;
use fak_model::NameSet;
use std::fmt;
use std::marker::Model;

/// Seats of a room that were joined and perform no more calls. Contracts see its object, the names of the seats and the
/// longest history that one of them has seen.
#[derive(Drop)]
pub struct RoomTally {
    pub(crate) token: RoomToken,
    pub(crate) names: NameSet,
    pub(crate) seats: u64,
}

impl Model for RoomTally {
    ghost use Rattle.std.specs.Prelude.{reverse};
    ghost use Rattle.fak_model.specs.declared.room.RoomMark.{RoomMark};
    ghost use Rattle.fak_model.specs.Names.{HasJust};
    ghost use Rattle.fak_model.specs.Calls.{TallyInfo, tally_info, object_id};
    ghost use Rattle.fak_model.specs.Tokens.{IsTallyToken};
    ghost use Rattle.fak_core.specs.declared.room.phase.RoomPhase.TheVariants.{Idle};
    ghost use Rattle.fak_model.specs.Room.{seat_of};
    ghost use Rattle.fak_count.specs.Rooms.{IsSettled};

    ghost Value = { TallyInfo RoomMark };

    ghost view = { λ t. tally_info (object_id t.token.table_id t.seats) t.token.me.0.names
        (reverse t.token.me.0.seen) };

    ghost invariant = { λ t. IsTallyToken seat_of t.seats Idle t.token.me × HasJust t.names t.token.me.0.names
        × IsSettled t.token.me.0.names (reverse t.token.me.0.seen) };
}

impl RoomTally {
    /// The tally of one seat. Its history is lawful for the bound of its room.
    pub fn of(seat: RoomSeat) -> RoomTally
        ensures tally { result ≡ tally_of seat }
        ensures lawful { (bound : ℕ) × IsRoomHistory bound result.seen }
        ensures named { (bound : ℕ) → AreNamed (room_rules bound) result.object.seats result.seen }
    {
        let RoomSeat {
            token,
            name,
            seats,
            left: _,
            held: _,
        } = seat;
        RoomTally {
            token,
            names: NameSet::of(name),
            seats,
        }
    }

    /// Whether all seats of the room are in the tally. Then each mark of its history belongs to one of them, no call is
    /// cut short, and the value is what all seats hold.
    pub fn is_whole(&self) -> bool
        ensures whole { IsTrue result ↔ IsWhole self.now.object.seats self.now.names }
        ensures mine { IsTrue result → mine seat_of self.now.names self.now.seen ≡ self.now.seen }
        ensures lawful { (bound : ℕ) × IsRoomHistory bound self.now.seen }
        ensures named { (bound : ℕ) → AreNamed (room_rules bound) self.now.object.seats self.now.seen }
        ensures rest { IsTrue result → (bound : ℕ) → IsAtRest (room_rules bound) self.now.seen }
        ensures counts { IsTrue result
            → value self.now.seen ≡ pos (sum_below (λ seat. amount_held seat self.now.seen) self.now.object.seats) }
    {
        self.names.has_all(self.seats)
    }
}

impl fmt::Debug for RoomTally {
    fn fmt<W: fmt::Write>(&self, f: &mut fmt::Formatter<W>) -> fmt::Result {
        f.debug_struct("RoomTally")
            .field("seats", &self.seats)
            .field("is_whole", &self.is_whole())
            .finish_non_exhaustive()
    }
}
