//! The numbers of a queue that its rule is about.

/// The numbers of a queue, fixed at its opening.
#[derive(Drop)]
pub struct QueueLimits {
    /// Its cells.
    pub size: u64,
    /// Its seats.
    pub seats: u64,
    /// The tickets of each seat.
    pub stint: u64,
}
