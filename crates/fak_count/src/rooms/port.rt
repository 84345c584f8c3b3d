//! A room and one of its seats as one value, whose calls have no preconditions.

ghost use Rattle.std.specs.Prelude.{◌≡◌, ◌+◌, MatchOption, MatchResult, if◌then◌else◌, is_ok};
ghost use Rattle.fak_count.specs.Ports.{ClaimsOf, RefusesClaim, RefusesRelease, Releases};
ghost use Rattle.fak_count.specs.Rooms.{granted_claims, held_amount};
ghost use Rattle.fak_count.specs.Seats.{IsSeatOf};

use crate::fault::{ClaimFault, TirFault};
use crate::rooms::room::Room;
use crate::rooms::seat::RoomSeat;
use std::fmt;

/// The largest amount of a call.
const MOST_AMOUNT: u64 = 1024;

/// A room with one of its seats. The type guarantees that the seat belongs to the room, and its calls refuse amounts
/// that the room's calls do not allow. So the calls of a port require nothing. Their contracts are about the port's
/// seat, before and after.
#[derive(Drop)]
pub struct RoomPort<'r> {
    /// The room.
    pub room: &'r Room,
    /// The seat, which belongs to this room.
    pub seat: RoomSeat,
    pub ghost of_room: { IsSeatOf room.now.object seat },
}

impl<'r> RoomPort<'r> {
    /// The port of this room with this seat.
    pub fn new(room: &'r Room, seat: RoomSeat) -> RoomPort<'r>
        requires { IsSeatOf room.now.object seat }
        ensures room { result.room.now ≡ room.now }
        ensures seat { result.seat ≡ seat }
    {
        RoomPort { room, seat }
    }

    /// Claims `d`, 1 to 1,024, if it fits on top of the value, and returns the value that the add found.
    ///
    /// # Errors
    ///
    /// `BadAmount`, `Worn` or `AtBound`, in this order.
    pub fn tir(&mut self, d: u64) -> Result<i64, ClaimFault>
        ensures room { self.new.room ≡ self.old.room }
        ensures call { MatchResult result (ClaimsOf d self.old.room.now self.old.seat self.new.seat)
            (RefusesClaim d self.old.room.now self.old.seat self.new.seat) }
        ensures held { held_amount self.new.seat ≡ held_amount self.old.seat + (if is_ok result then d else 0) }
    {
        if d == 0 || d > MOST_AMOUNT {
            return Err(ClaimFault::BadAmount);
        }
        match self.room.tir(&mut self.seat, d) {
            Ok(value) => Ok(value),
            Err(TirFault::Worn) => Err(ClaimFault::Worn),
            Err(TirFault::AtBound(value)) => Err(ClaimFault::AtBound(value)),
        }
    }

    /// Gives back `d`, 1 to 1,024, of what the seat holds, and returns the value before. Returns `None` if `d` is out
    /// of range or more than the seat holds.
    pub fn release(&mut self, d: u64) -> Option<i64>
        ensures room { self.new.room ≡ self.old.room }
        ensures call { MatchOption result (RefusesRelease d self.old.seat self.new.seat)
            (Releases d self.old.room.now self.old.seat self.new.seat) }
    {
        if d == 0 || d > MOST_AMOUNT || d > self.held() {
            return None;
        }
        Some(self.room.release(&mut self.seat, d))
    }

    /// The amount that the seat holds.
    pub fn held(&self) -> u64
        ensures { result ≡ held_amount self.now.seat }
    {
        self.seat.held()
    }

    /// The number of claims that are left of the seat's stint.
    pub fn left(&self) -> u64
        ensures { result + granted_claims self.now.seat ≡ self.now.seat.stint }
    {
        self.seat.left()
    }

    /// The seat, which `RoomTally::of` or `Room::join` takes.
    pub fn into_seat(self) -> RoomSeat
        ensures room { IsSeatOf self.entry.room.now.object result }
        ensures seat { result ≡ self.entry.seat }
    {
        let RoomPort { room: _, seat } = self;
        seat
    }
}

impl<'r> fmt::Debug for RoomPort<'r> {
    fn fmt<W: fmt::Write>(&self, f: &mut fmt::Formatter<W>) -> fmt::Result {
        f.debug_struct("RoomPort")
            .field("room", self.room)
            .field("seat", &self.seat)
            .finish()
    }
}
