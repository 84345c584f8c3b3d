//! The rule of a room's table.

use crate::rooms::limits::RoomLimits;
use atomic_table::TableRule;
use fak_core::room::phase::RoomPhase;
use fak_model::{RoomMark, View};

/// What a seat of a room knows. Rooms draw no tickets.
pub type RoomView = View<RoomMark, RoomPhase>;

/// The rule of a room's table.
pub struct RoomRule;

impl TableRule<(), RoomView, RoomLimits> for RoomRule {
    ghost use Rattle.fak_count.specs.RoomShown.{IsShownRoom, opened_room};

    ghost holds = { IsShownRoom };

    ghost first = { opened_room };
}
