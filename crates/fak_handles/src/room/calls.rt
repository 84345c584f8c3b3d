//! The calls of a seat of a room. What they ask is tested, so none has a condition.

ghost use Rattle.std.specs.Prelude.{◌≡◌, ◌↔◌, IsTrue, MatchOption};
ghost use Rattle.std.specs.Arc.{arc_value};
ghost use Rattle.fak_model.specs.declared.room.RoomKind.TheVariants.{Release};
ghost use Rattle.fak_count.specs.Rooms.{MakesCall, held_amount};
ghost use Rattle.fak_handles.specs.room.Calls.{AsksRoom, IsBadAmount, IsBadRelease, SameRoom};

use crate::room::seat::RoomDesk;
use fak_count::TirFault;

const MOST_AMOUNT: u64 = 1024;

impl RoomDesk {
    /// `Room::tir`; `None` if the amount is out of range.
    pub fn tir(&mut self, amount: u64) -> Option<Result<i64, TirFault>>
        ensures same { SameRoom self.old self.new }
        ensures call { MatchOption result (IsBadAmount amount self.old self.new)
            (λ r. AsksRoom amount r self.old self.new) }
    {
        if amount == 0 || amount > MOST_AMOUNT {
            return None;
        }
        Some(self.room.tir(&mut self.seat, amount))
    }

    /// `Room::release`; `None` if the amount is out of range or more than the seat holds.
    pub fn release(&mut self, amount: u64) -> Option<i64>
        ensures same { SameRoom self.old self.new }
        ensures call { MatchOption result (IsBadRelease amount self.old self.new)
            (MakesCall (Release amount) (arc_value self.old.room) self.old.seat self.new.seat) }
    {
        if amount == 0 || amount > MOST_AMOUNT || amount > self.seat.held() {
            return None;
        }
        Some(self.room.release(&mut self.seat, amount))
    }

    pub(crate) fn holds_nothing(&self) -> bool
        ensures { IsTrue result ↔ (held_amount self.now.seat ≡ 0) }
    {
        self.seat.held() == 0
    }
}
