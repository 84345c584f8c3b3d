//! One atomic step of a seat of a room, as data.

use super::phase::CoreSeat;
use crate::line::CoreMove;
use fak_model::RoomKind;

/// One atomic step of a seat: which it is, the mark that it leaves, and the count and the seat after it.
#[derive(Clone, Copy, Debug)]
pub struct RoomMove {
    pub step: CoreMove,
    pub mark: Option<RoomKind>,
    pub count: i64,
    pub seat: CoreSeat,
}
