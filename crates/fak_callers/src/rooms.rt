//! What callers of a room conclude.

ghost use Rattle.std.specs.Prelude.{◌≡◌, ◌+◌, ◌≤◌, IfErr, IfSome, [], pos};
ghost use Rattle.fak_model.specs.Histories.{sum_below};
ghost use Rattle.fak_model.specs.Room.{IsRoomHistory, amount_held, release_amount, total, up_amount, value};
ghost use Rattle.fak_count.specs.Rooms.{held_amount};
ghost use Rattle.fak_count.specs.Seats.{IsSeatOf};

use fak_count::{Room, RoomSeat, RoomTally, TirFault};
use fak_model::RoomMark;
use fak_model::laws::room::{
    a_beginning_of_a_room_history_is_one, a_room_at_rest_counts_what_is_held,
    a_room_refuses_at_its_bound,
};
use fak_model::laws::seats::an_only_seat_has_seen_its_own_marks;

/// Brings both seats of a room together. If they are all its seats, the value is what they hold.
pub fn count_at_rest(room: &Room, a: RoomSeat, b: RoomSeat) -> Option<RoomTally>
    requires { IsSeatOf room.now.object a × IsSeatOf room.now.object b }
    ensures { IfSome result (λ tally. value tally.seen ≡ pos
        (sum_below (λ seat. amount_held seat tally.seen) tally.object.seats)) }
{
    a_room_at_rest_counts_what_is_held();
    let tally = room.join(RoomTally::of(a), b);
    if tally.is_whole() {
        return Some(tally);
    }
    None
}

/// Brings two seats of a room together: what was granted is at most the bound plus what was given back.
pub fn join_within_bound(room: &Room, a: RoomSeat, b: RoomSeat) -> RoomTally
    requires { IsSeatOf room.now.object a × IsSeatOf room.now.object b }
    ensures object { result.object ≡ room.now.object }
    ensures bound { total up_amount result.seen ≤ room.now.bound + total release_amount result.seen }
{
    a_room_refuses_at_its_bound();
    room.join(RoomTally::of(a), b)
}

/// Gives 1 back: what the seat had seen before is lawful by the room's bound.
pub fn give_back(room: &Room, seat: &mut RoomSeat) -> i64
    requires object { IsSeatOf room.now.object seat.old }
    requires holds { 1 ≤ held_amount seat.old }
    ensures object { IsSeatOf room.now.object seat.new }
    ensures before { IsRoomHistory room.now.bound seat.old.seen }
{
    a_beginning_of_a_room_history_is_one();
    room.release(seat, 1)
}

/// Claims 1 by the only seat of a room in which nothing was claimed. If it is refused, what was granted has reached the
/// bound: both are 0.
pub fn claim_first(room: &Room, seat: &mut RoomSeat) -> Result<i64, TirFault>
    requires object { IsSeatOf room.now.object seat.old }
    requires only { (room.now.object.seats ≡ 1) × (seat.old.name ≡ 0) × (seat.old.seen ≡ []) }
    requires stint { 1 ≤ seat.old.stint }
    ensures object { IsSeatOf room.now.object seat.new }
    ensures refused { IfErr result (λ _. room.now.bound ≤ total up_amount seat.new.seen) }
{
    a_room_refuses_at_its_bound();
    an_only_seat_has_seen_its_own_marks::<RoomMark>();
    match room.tir(seat, 1) {
        Ok(found) => Ok(found),
        Err(TirFault::Worn) => Err(TirFault::Worn),
        Err(TirFault::AtBound(found)) => Err(TirFault::AtBound(found)),
    }
}
