//! The calls that a seat of a core may begin.

/// A call on a room.
#[derive(Clone, Copy, Debug, PartialEq, Eq)]
pub enum RoomCall {
    /// Claim this amount, 1 to 1,024, by test, increment and retest.
    Tir(u64),
    /// Give this amount back, 1 to 1,024.
    Release(u64),
}

/// A call on a bounded queue.
#[derive(Clone, Copy, Debug, PartialEq, Eq)]
pub enum QueueCall {
    /// Insert this item.
    Insert(u64),
    /// Delete the oldest item.
    Delete,
    /// Shut the queue: later insertions are refused.
    Shut,
}
