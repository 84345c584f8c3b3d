//! Why the pool returns no result.

/// Why the pool returns no result.
#[derive(Clone, Copy, Debug, PartialEq, Eq, Drop)]
pub enum Fault {
    /// There are 1 to 63 workers.
    BadWorkers,
    /// There was no memory for the queue.
    Memory,
    /// An insertion was refused, or work was left in the queue.
    Unfinished,
}
