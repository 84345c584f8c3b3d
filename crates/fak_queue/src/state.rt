//! The state of a seat between two calls.

/// The state of a queue's seat between two calls.
#[derive(Clone, Copy, Debug, PartialEq, Eq, Drop)]
pub enum SeatState {
    /// No call is open.
    Idle,
    /// An insertion with this ticket was claimed; its item waits for its cell.
    Inserting(u64),
    /// A deletion with this ticket was claimed; it waits for its cell.
    Deleting(u64),
}
