//! The laws of a room's histories.

ghost use Rattle.std.specs.Prelude.{◌≡◌, ℕ, ◌++◌, ◌+◌, ◌<◌, ◌≤◌, List, pos};
ghost use Rattle.fak_model.specs.Histories.{AreNamed, IsAtRest, sum_below};
ghost use Rattle.fak_model.specs.Room.{IsRoomHistory, room_rules, amount_held, release_amount, total, up_amount, value};
ghost use Rattle.fak_model.specs.Weights.{other_amount, refusal_of};

use crate::room::RoomMark;

/// The amounts held by all seats sum to at most the bound.
pub fn amounts_held_in_a_room_fit()
    ensures { (bound seats : ℕ) (h : List RoomMark) → IsRoomHistory bound h → AreNamed (room_rules bound) seats h
        → sum_below (λ seat. amount_held seat h) seats ≤ bound }
{}

/// If no call is cut short, the value is the sum of what all seats hold.
pub fn a_room_at_rest_counts_what_is_held()
    ensures { (bound seats : ℕ) (h : List RoomMark) → IsRoomHistory bound h → AreNamed (room_rules bound) seats h
        → IsAtRest (room_rules bound) h → value h ≡ pos (sum_below (λ seat. amount_held seat h) seats) }
{}

/// If every refused claim asked for 1, none is refused before the amounts granted reach the bound. In all, no more is
/// granted than the bound plus what was given back.
pub fn a_room_refuses_at_its_bound()
    ensures refused { (bound : ℕ) (h : List RoomMark) → IsRoomHistory bound h → total other_amount h ≡ 0
        → 0 < total refusal_of h → bound ≤ total up_amount h }
    ensures granted { (bound seats : ℕ) (h : List RoomMark) → IsRoomHistory bound h
        → AreNamed (room_rules bound) seats h → total up_amount h ≤ bound + total release_amount h }
{}

/// Every prefix of a room's history is a history.
pub fn a_beginning_of_a_room_history_is_one()
    ensures { (bound : ℕ) (h rest : List RoomMark) → IsRoomHistory bound (h ++ rest) → IsRoomHistory bound h }
{}
