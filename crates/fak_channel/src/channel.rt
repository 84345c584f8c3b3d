//! A channel that its ends share.

use crate::parker::Parker;
use fak_queue::Queue;
use std::fmt;

/// A bounded first-in-first-out channel. Threads sleep while it is full or empty. Its items are in a queue, whose table also has
/// a bit for each end that sleeps. Contracts see the queue, and how many ends there are.
#[derive(Drop)]
pub struct Channel<T> {
    pub(crate) queue: Queue<T>,
    /// The word of each end, on which its thread sleeps.
    pub(crate) parkers: Vec<Parker>,
    /// The number of cells.
    pub(crate) size: i64,
    /// The number of ends.
    pub(crate) ends: u64,
}

impl<T> fmt::Debug for Channel<T> {
    fn fmt<W: fmt::Write>(&self, f: &mut fmt::Formatter<W>) -> fmt::Result {
        f.debug_struct("Channel")
            .field("queue", &self.queue)
            .finish_non_exhaustive()
    }
}
