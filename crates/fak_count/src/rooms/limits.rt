//! What the table of a room is made with.

/// The bound of a room, and its number of seats.
#[derive(Drop)]
pub struct RoomLimits {
    pub bound: u64,
    pub seats: u64,
}
