//! A room that threads share.

ghost use Rattle.std.specs.Prelude.{◌≡◌, ◌+◌, ◌≤◌, IfOk, MatchResult, if◌then◌else◌, is_ok};
ghost use Rattle.fak_model.specs.declared.room.RoomKind.TheVariants.{Release};
ghost use Rattle.fak_count.specs.Rooms.{held_amount, IsGranted, IsRefused, MakesCall};
ghost use Rattle.fak_count.specs.Seats.{IsSeatOf};
ghost use Rattle.fak_model.specs.Calls.{fresh_seats, IsJoined};
ghost use Rattle.fak_count.specs.Opening.{IsCount, IsInRange, IsOpenFault};
ghost use Rattle.fak_model.specs.Limits.{IsInLargeRange, IsLargeFault};
ghost use Rattle.fak_model.specs.Room.{room_rules};

use crate::fault::{OpenFault, TirFault};
use crate::opening::{tested_large_limits, tested_limits};
use crate::rooms::limits::RoomLimits;
use crate::rooms::rule::{RoomRule, RoomView};
use crate::rooms::seat::RoomSeat;
use crate::rooms::steps::{add, hear, release, test, withdraw};
use crate::rooms::tally::RoomTally;
use crate::words::{COUNT, WORDS};
use atomic_table::Table;
use fak_model::{BIAS, Both, Deal, LargeFault, count_of};
use std::alloc::{AllocError, Global};
use std::fmt;
use std::marker::{Brand, Model};

/// A count that claims raise within a bound, by test, increment and retest, and that releases lower (Gottlieb,
/// Lubachevsky and Rudolph, TOPLAS 5(2), 1983).
#[derive(Drop)]
pub struct Room {
    pub(crate) table: Table<(), RoomView, RoomLimits, RoomRule, Global>,
    pub(crate) bound: u64,
}

impl Model for Room {
    ghost use Rattle.std.specs.Prelude.{◌≡◌};
    ghost use Rattle.fak_model.specs.Calls.{object_id};
    ghost use Rattle.fak_count.specs.Opening.{IsCount};
    ghost use Rattle.fak_count.specs.Rooms.{RoomInfo, room_info};
    ghost use Rattle.fak_count.specs.Words.{width};

    ghost Value = { RoomInfo };

    ghost view = { λ r. room_info (object_id r.table.shared.table_id r.table.shared.key.seats)
        r.table.shared.key.bound };

    ghost invariant = { λ r. (r.table.shared.table_id.words ≡ width) × (r.bound ≡ r.table.shared.key.bound)
        × IsCount r.bound };
}

impl Room {
    /// Opens a room whose count is 0, with its seats. Each seat may be granted `stint` claims.
    ///
    /// `bound` is 0 to 4,294,967,296, `seats` 1 to 64, `stint` 1 to 2^40.
    ///
    /// # Errors
    ///
    /// `BadSize`, `BadSeats`, `BadStint` or `Memory`, in this order.
    pub fn open(
        alloc: Global,
        bound: u64,
        seats: u64,
        stint: u64,
    ) -> Result<(Room, Vec<RoomSeat>), OpenFault>
        ensures { MatchResult result (λ r. IsInRange bound seats stint × (r.0.bound ≡ bound)
            × (r.0.object.seats ≡ seats)
            × (r.1.items ≡ fresh_seats r.0.object stint 0 seats)) (IsOpenFault bound seats stint) }
    {
        if let Err(fault) = tested_limits(bound, seats, stint) {
            return Err(fault);
        }
        match Room::with_limits(alloc, bound, seats, stint) {
            Ok(opened) => Ok(opened),
            Err(AllocError) => Err(OpenFault::Memory),
        }
    }

    /// Opens a large room: the same room, with the same calls, but more seats.
    ///
    /// `bound` is 0 to 4,294,967,296, and `seats` 1 to `LARGE_SEATS`. `stint` is at least 1, and `seats` times `stint`
    /// at most `LARGE_TICKETS`.
    ///
    /// # Errors
    ///
    /// `BadSize`, `BadSeats`, `BadStint` or `Memory`, in this order.
    pub fn open_large(
        alloc: Global,
        bound: u64,
        seats: u64,
        stint: u64,
    ) -> Result<(Room, Vec<RoomSeat>), LargeFault>
        ensures { MatchResult result (λ r. IsInLargeRange (IsCount bound) seats stint × (r.0.bound ≡ bound)
            × (r.0.object.seats ≡ seats)
            × (r.1.items ≡ fresh_seats r.0.object stint 0 seats)) (IsLargeFault (IsCount bound) seats stint) }
    {
        if let Err(fault) = tested_large_limits(bound, seats, stint) {
            return Err(fault);
        }
        match Room::with_limits(alloc, bound, seats, stint) {
            Ok(opened) => Ok(opened),
            Err(AllocError) => Err(LargeFault::Memory),
        }
    }

    /// A room with its seats; the caller has tested the limits.
    fn with_limits(
        alloc: Global,
        bound: u64,
        seats: u64,
        stint: u64,
    ) -> Result<(Room, Vec<RoomSeat>), AllocError>
        requires { IsInLargeRange (IsCount bound) seats stint }
        ensures { IfOk result (λ r. (r.0.bound ≡ bound) × (r.0.object.seats ≡ seats)
            × (r.1.items ≡ fresh_seats r.0.object stint 0 seats)) }
    {
        let mut words = [0; WORDS];
        words[COUNT] = BIAS;
        let Ok((table, mut rest)) = Table::of_words(alloc, &words, &RoomLimits { bound, seats })
        else {
            return Err(AllocError);
        };
        let Ok(mut dealt) = Vec::with_capacity(alloc, seats as usize) else {
            return Err(AllocError);
        };
        for name in 0..seats {
            let seat = RoomSeat {
                token: table.shared.split_seat::<Deal>(&mut rest),
                name,
                seats,
                left: stint,
                held: 0,
            };
            if dealt.push(seat).is_err() {
                return Err(AllocError);
            }
        }
        Ok((Room { table, bound }, dealt))
    }

    /// Claims `d`, 1 to 1,024, if it fits on top of the value, and returns the value that the add found.
    ///
    /// # Errors
    ///
    /// `Worn` or `AtBound`, in this order.
    pub fn tir(&self, seat: &mut RoomSeat, d: u64) -> Result<i64, TirFault>
        requires amount { (1 ≤ d) × (d ≤ 1024) }
        requires object { IsSeatOf self.now.object seat.old }
        ensures object { seat.new.object ≡ seat.old.object }
        ensures call { MatchResult result (IsGranted d self.now seat.old seat.new)
            (IsRefused d self.now seat.old seat.new) }
        ensures held { held_amount seat.new ≡ held_amount seat.old + (if is_ok result then d else 0) }
    {
        if seat.left == 0 {
            return Err(TirFault::Worn);
        }
        let limit = BIAS + self.bound;
        let tested = test::<Brand>(&self.table.shared, &mut seat.token, d);
        let fits = tested + d <= limit;
        if !fits {
            return Err(TirFault::AtBound(count_of(tested)));
        }
        let found = add::<Brand>(&self.table.shared, &mut seat.token, d);
        let still_fits = found + d <= limit;
        if !still_fits {
            withdraw::<Brand>(&self.table.shared, &mut seat.token, d);
            return Err(TirFault::AtBound(count_of(found)));
        }
        seat.left -= 1;
        seat.held += d;
        Ok(count_of(found))
    }

    /// Gives back `d`, 1 to 1,024, of what the seat holds, and returns the value before.
    pub fn release(&self, seat: &mut RoomSeat, d: u64) -> i64
        requires amount { (1 ≤ d) × (d ≤ 1024) }
        requires object { IsSeatOf self.now.object seat.old }
        requires holds { d ≤ held_amount seat.old }
        ensures object { seat.new.object ≡ seat.old.object }
        ensures call { MakesCall (Release d) self.now seat.old seat.new result }
        ensures held { held_amount seat.new + d ≡ held_amount seat.old }
    {
        let found = release::<Brand>(&self.table.shared, &mut seat.token, d);
        seat.held -= d;
        count_of(found)
    }

    /// The tally with this seat added.
    pub fn join(&self, tally: RoomTally, seat: RoomSeat) -> RoomTally
        requires object { (tally.object ≡ self.now.object) × IsSeatOf self.now.object seat }
        ensures joined { IsJoined (room_rules self.now.bound) tally seat result }
        ensures object { result.object ≡ self.now.object }
    {
        let RoomTally {
            mut token,
            mut names,
            seats,
        } = tally;
        let RoomSeat {
            token: other,
            name,
            seats: _,
            left: _,
            held: _,
        } = seat;
        self.table.shared.join_seat::<Both>(&mut token, other);
        hear::<Brand>(&self.table.shared, &mut token);
        names.insert(name);
        RoomTally {
            token,
            names,
            seats,
        }
    }
}

impl fmt::Debug for Room {
    fn fmt<W: fmt::Write>(&self, f: &mut fmt::Formatter<W>) -> fmt::Result {
        f.debug_struct("Room")
            .field("bound", &self.bound)
            .finish_non_exhaustive()
    }
}
