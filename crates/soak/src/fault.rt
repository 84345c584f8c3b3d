//! Why a run failed.

use std::alloc::{AllocError, AllocFailed};
use std::io;
use thiserror::Error;

/// Why a run failed. Its text is one line on standard error.
#[derive(Debug, Clone, Copy, Error)]
pub enum Fault {
    /// The words of the command line ask for nothing that the program does.
    #[error("soak: usage: soak [--millions 1..1000]")]
    Usage,
    /// Memory ran out.
    #[error("soak: out of memory")]
    Memory,
    /// Not all threads of a part came to its start.
    #[error("soak: a part had too few threads")]
    Threads,
    /// A part with a queue: an item was lost, came out twice or out of order, or was left.
    #[error("soak: a queue did not pass each item on once and in order")]
    Queue,
    /// A part with bursts, as a part with a queue.
    #[error("soak: bursts did not pass each item on once and in order")]
    Bursts,
    /// A part with a channel: an item was lost, came out twice or out of order, or came back changed; or the channel was not closed once.
    #[error("soak: a channel did not pass each item on once and in order")]
    Channel,
    /// A part that shuts queues: an inserted item was neither deleted nor left, or an item was not dropped exactly once.
    #[error("soak: a shut queue did not hand out or drop each item once")]
    Shut,
    /// A part with a semaphore: an item neither passed nor was woken nor is left, or more than one of these happened.
    #[error("soak: a semaphore did not let each item through once")]
    Semaphore,
    /// A part with a room: it let in more than its bound, or a claim was not given back.
    #[error("soak: a room did not keep to its bound")]
    Room,
    /// A part with a credit: it ended at another value.
    #[error("soak: a credit did not count each call once")]
    Credit,
    /// A part with a file table: half of a write was seen, or a write was lost.
    #[error("soak: a file table did not keep a write whole")]
    Files,
    /// The lines could not be written.
    #[error("soak: output could not be written")]
    Write,
}

impl From<AllocError> for Fault {
    fn from(_e: AllocError) -> Fault {
        Fault::Memory
    }
}

impl<T: Drop> From<AllocFailed<T>> for Fault {
    fn from(_e: AllocFailed<T>) -> Fault {
        Fault::Memory
    }
}

impl From<io::Error> for Fault {
    fn from(_e: io::Error) -> Fault {
        Fault::Write
    }
}

impl Fault {
    /// The program's exit status: 2 for bad usage, 1 for every other fault.
    pub fn status(&self) -> u8 {
        match self {
            Fault::Usage => 2,
            _ => 1,
        }
    }
}
