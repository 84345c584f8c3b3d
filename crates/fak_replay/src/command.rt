//! The commands.

/// What the program is asked to do.
#[derive(Clone, Copy, Debug, PartialEq, Eq)]
pub enum Command {
    /// Replay a schedule of atomic steps.
    Replay,
    /// Judge a recorded history of a queue.
    Check,
    /// Run a script of processes on this many processors.
    Run(u64),
}
