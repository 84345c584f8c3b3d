//! What callers conclude of seats that are brought together.

ghost use Rattle.std.specs.Prelude.{◌≡◌, ◌⊎◌, ℕ, ◌+◌, ◌≤◌, ◌++◌, ◌∷◌, []};
ghost use Rattle.std.specs.List.{sum_by};
ghost use Rattle.fak_model.specs.declared.room.RoomMark.{RoomMark};
ghost use Rattle.fak_model.specs.Calls.{mine_of, tally_of};
ghost use Rattle.fak_model.specs.Room.{seat_of};
ghost use Rattle.fak_model.specs.Seats.{Begins, In, marks_of, mine};
ghost use Rattle.fak_count.specs.Rooms.{held_amount};
ghost use Rattle.fak_count.specs.Seats.{IsSeatOf};

use fak_count::{Room, RoomSeat, RoomTally};
use fak_model::RoomMark;
use fak_model::laws::seats::{
    a_seat_without_a_call_adds_nothing, a_tally_knows_what_its_seats_know,
    seats_that_join_have_seen_one_history,
};

/// Gives 1 back by one seat, and then joins the two. What one of them had seen at first is a prefix of what the other had seen.
pub fn give_back_and_join(room: &Room, mut a: RoomSeat, b: RoomSeat) -> RoomTally
    requires object { IsSeatOf room.now.object a × IsSeatOf room.now.object b }
    requires holds { 1 ≤ held_amount a }
    ensures object { result.object ≡ room.now.object }
    ensures one { Begins a.seen b.seen ⊎ Begins b.seen a.seen }
{
    seats_that_join_have_seen_one_history::<RoomMark>();
    room.release(&mut a, 1);
    room.join(RoomTally::of(a), b)
}

/// The tally of the only seat of a room: each mark that it knows belongs to that seat.
pub fn tally_of_only(seat: RoomSeat) -> RoomTally
    requires { (seat.object.seats ≡ 1) × (seat.name ≡ 0) }
    ensures { mine seat_of result.names result.seen ≡ result.seen }
{
    seats_that_join_have_seen_one_history::<RoomMark>();
    RoomTally::of(seat)
}

/// The tally of a seat knows that seat's marks.
pub fn tally_of_marks(seat: RoomSeat) -> RoomTally
    ensures tally { result ≡ tally_of seat }
    ensures marks { mine seat_of result.names result.seen ≡ mine_of seat_of seat }
{
    a_tally_knows_what_its_seats_know::<RoomMark>();
    RoomTally::of(seat)
}

/// Joins a seat with a new name to a tally. Under every weight of marks, the two know together what each knew.
pub fn join_weights(room: &Room, tally: RoomTally, seat: RoomSeat) -> RoomTally
    requires object { (tally.object ≡ room.now.object) × IsSeatOf room.now.object seat }
    requires new { ¬ In seat.name tally.names }
    ensures object { result.object ≡ room.now.object }
    ensures joined { (weight : RoomMark → ℕ) → sum_by weight (mine seat_of (tally.names ++ seat.name ∷ []) result.seen)
        ≡ sum_by weight (mine seat_of tally.names tally.seen) + sum_by weight (mine_of seat_of seat) }
    ensures more { (weight : RoomMark → ℕ) → sum_by weight (mine seat_of (tally.names ++ seat.name ∷ []) result.seen)
        ≡ sum_by weight (mine seat_of tally.names result.seen) + sum_by weight
        (marks_of seat_of seat.name result.seen) }
    ensures known { mine seat_of tally.names result.seen ≡ mine seat_of tally.names tally.seen }
{
    a_tally_knows_what_its_seats_know::<RoomMark>();
    room.join(tally, seat)
}

/// Joins a seat without a call: it adds no marks to those of the tally's names. A name that the room does not have
/// has no marks either.
pub fn join_unused(room: &Room, tally: RoomTally, seat: RoomSeat) -> RoomTally
    requires object { (tally.object ≡ room.now.object) × IsSeatOf room.now.object seat }
    requires unused { seat.seen ≡ [] }
    ensures object { result.object ≡ room.now.object }
    ensures mine { mine seat_of (tally.names ++ seat.name ∷ []) result.seen ≡ mine seat_of tally.names result.seen }
    ensures beyond { marks_of seat_of room.now.object.seats result.seen ≡ [] }
{
    a_seat_without_a_call_adds_nothing::<RoomMark>();
    room.join(tally, seat)
}
