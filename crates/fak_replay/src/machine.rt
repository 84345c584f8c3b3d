//! The core that a schedule runs.

use fak_core::{QueueCore, RoomCore};

/// The core that a schedule runs.
#[derive(Drop)]
pub enum Machine {
    Room(RoomCore),
    Queue(QueueCore),
}
