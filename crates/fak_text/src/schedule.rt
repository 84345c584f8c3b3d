//! Schedules: which seat of a core begins which call, or steps, in order.

use fak_core::{QueueCall, RoomCall};

/// The object that a schedule runs.
#[derive(Clone, Copy, Debug, PartialEq, Eq)]
pub enum Object {
    /// A room with this bound, 0 to 4,294,967,296.
    Room(u64),
    /// A queue of this size, 1 to 4,096.
    Queue(u64),
}

/// What a seat does.
#[derive(Clone, Copy, Debug, PartialEq, Eq)]
pub enum Act {
    /// It takes this many steps, 1 to 64.
    Steps(u64),
    /// It begins a call on a room.
    Room(RoomCall),
    /// It begins a call on a queue.
    Queue(QueueCall),
}

/// One event of a schedule. The seat may be one that the object doesn't have.
#[derive(Clone, Copy, Debug, PartialEq, Eq)]
pub struct Event {
    pub seat: u64,
    pub act: Act,
}

/// A schedule of an object with 1 to 64 seats.
#[derive(Debug, PartialEq, Eq, Drop)]
pub struct Schedule {
    pub object: Object,
    pub seats: u64,
    /// At most 16,384 events, each a step or a call on the object.
    pub events: Vec<Event>,
}
