//! What a caller can conclude about all seats of a room.

ghost use Rattle.std.specs.Prelude.{◌≡◌, IsTrue, pos};
ghost use Rattle.fak_model.specs.Histories.{sum_below};
ghost use Rattle.fak_model.specs.Room.{amount_held, value};

use fak_count::RoomTally;

/// Whether the tally is whole. The value of a whole room is what all its seats hold.
pub fn is_counted(tally: &RoomTally) -> bool
    ensures { IsTrue result
        → value tally.now.seen ≡ pos (sum_below (λ seat. amount_held seat tally.now.seen) tally.now.object.seats) }
{
    tally.is_whole()
}
