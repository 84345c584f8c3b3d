//! A seat of a room.

ghost use Rattle.std.specs.Prelude.{◌≡◌, ◌+◌};
ghost use Rattle.fak_count.specs.Rooms.{granted_claims, held_amount};

use crate::rooms::steps::RoomToken;
use std::fmt;
use std::marker::Model;

/// The right to claim from a `Room`, and to give back what it holds. The stint is the number of claims that may be
/// granted. Contracts see its object, its name, its stint and the history that it has seen.
#[derive(Drop)]
pub struct RoomSeat {
    pub(crate) token: RoomToken,
    pub(crate) name: u64,
    pub(crate) seats: u64,
    pub(crate) left: u64,
    pub(crate) held: u64,
}

impl Model for RoomSeat {
    ghost use Rattle.std.specs.Prelude.{◌≡◌, [], ◌∷◌, reverse};
    ghost use Rattle.fak_model.specs.declared.room.RoomMark.{RoomMark};
    ghost use Rattle.fak_model.specs.Room.{seat_of, amount_held};
    ghost use Rattle.fak_model.specs.Calls.{SeatInfo, object_id};
    ghost use Rattle.fak_model.specs.Tokens.{IsSeatToken};
    ghost use Rattle.fak_core.specs.declared.room.phase.RoomPhase.TheVariants.{Idle};
    ghost use Rattle.fak_count.specs.Rooms.{IsSettled, room_seat};

    ghost Value = { SeatInfo RoomMark };

    ghost view = { λ s. room_seat (object_id s.token.table_id s.seats) s.name s.left s.token.me };

    ghost invariant = { λ s. IsSeatToken seat_of s.seats s.name Idle 0 s.token.me
        × (s.held ≡ amount_held s.name (reverse s.token.me.0.seen))
        × IsSettled (s.name ∷ []) (reverse s.token.me.0.seen) };
}

impl RoomSeat {
    /// The amount that the seat holds.
    pub fn held(&self) -> u64
        ensures { result ≡ held_amount self.now }
    {
        self.held
    }

    /// The number of claims that are left of the stint.
    pub fn left(&self) -> u64
        ensures { result + granted_claims self.now ≡ self.now.stint }
    {
        self.left
    }
}

impl fmt::Debug for RoomSeat {
    fn fmt<W: fmt::Write>(&self, f: &mut fmt::Formatter<W>) -> fmt::Result {
        f.debug_struct("RoomSeat")
            .field("name", &self.name)
            .field("held", &self.held)
            .field("left", &self.left)
            .finish_non_exhaustive()
    }
}
