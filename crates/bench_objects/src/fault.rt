//! Why there are no figures.

use std::alloc::{AllocError, AllocFailed};
use std::io;
use thiserror::Error;

/// Why there are no figures. Its text is one line on standard error.
#[derive(Debug, Clone, Copy, Error)]
pub enum Fault {
    /// The words of the command line ask for nothing that the program does.
    #[error("bench_objects: usage: bench_objects [--figures | --tails] [--rounds 1..1000] [--items 1..10000000]")]
    Usage,
    /// There was no memory.
    #[error("bench_objects: out of memory")]
    Memory,
    /// Not all threads of a run came to its start.
    #[error("bench_objects: a run had too few threads")]
    Threads,
    /// The clock could not be read.
    #[error("bench_objects: the clock could not be read")]
    Clock,
    /// What went in did not come out once.
    #[error("bench_objects: an item was lost or came out twice")]
    Lost,
    /// The figures could not be written.
    #[error("bench_objects: output could not be written")]
    Write,
}

impl From<AllocError> for Fault {
    fn from(_e: AllocError) -> Fault {
        Fault::Memory
    }
}

impl<T: Drop> From<AllocFailed<T>> for Fault {
    fn from(_e: AllocFailed<T>) -> Fault {
        Fault::Memory
    }
}

impl From<io::Error> for Fault {
    fn from(_e: io::Error) -> Fault {
        Fault::Write
    }
}

impl Fault {
    /// The program's exit status: 2 for bad usage, 1 for what it lacked.
    pub fn status(&self) -> u8 {
        match self {
            Fault::Usage => 2,
            _ => 1,
        }
    }
}
