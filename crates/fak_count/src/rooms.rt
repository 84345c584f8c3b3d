//! Rooms: counts that claims raise up to a bound, and releases lower.

mod limits;
mod plays;
mod port;
mod room;
mod rule;
mod seat;
mod steps;
mod tally;

pub use port::RoomPort;
pub use room::Room;
pub use seat::RoomSeat;
pub use tally::RoomTally;
