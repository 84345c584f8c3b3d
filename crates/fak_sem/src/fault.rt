//! The errors of opening a semaphore, and of calls on it.

use std::error::Error;
use std::fmt;

/// Why a semaphore was not opened. If there are several faults, the first one is returned.
#[derive(Clone, Copy, Debug, PartialEq, Eq, Drop)]
pub enum OpenFault {
    /// The start is above 4,294,967,296, or the size of the wait queue is not 1 to 4,096.
    BadSize,
    /// The number of seats is not 1 to 64.
    BadSeats,
    /// The stint is not 1 to 1,099,511,627,776.
    BadStint,
    /// Memory ran out.
    Memory,
}

/// The seat has performed all the downs and ups of its stint. The item of the down comes back.
#[derive(Clone, Copy, Debug, PartialEq, Eq, Drop)]
pub struct SemWorn<T>(pub T);

/// Why a down by steps did not begin. The item comes back. If there are several reasons, the first one is returned.
#[derive(Clone, Copy, Debug, PartialEq, Eq, Drop)]
pub enum DownFault<T> {
    /// A call of the seat is open.
    InCall {
        /// The item of the down.
        item: T,
    },
    /// The seat has performed all the downs and ups of its stint.
    Worn {
        /// The item of the down.
        item: T,
    },
}

/// Why an up by steps did not begin. If there are several reasons, the first one is returned.
#[derive(Clone, Copy, Debug, PartialEq, Eq, Drop)]
pub enum UpFault {
    /// A call of the seat is open.
    InCall,
    /// The seat has performed all the downs and ups of its stint.
    Worn,
}

impl fmt::Display for OpenFault {
    fn fmt<W: fmt::Write>(&self, f: &mut fmt::Formatter<W>) -> fmt::Result {
        f.write_str(match self {
            OpenFault::BadSize => "the start is above 4294967296, or the size is not 1 to 4096",
            OpenFault::BadSeats => "the number of seats is not 1 to 64",
            OpenFault::BadStint => "the stint is not 1 to 1099511627776",
            OpenFault::Memory => "out of memory",
        })
    }
}

impl Error for OpenFault {}

impl<T> fmt::Display for SemWorn<T> {
    fn fmt<W: fmt::Write>(&self, f: &mut fmt::Formatter<W>) -> fmt::Result {
        f.write_str("the stint is used up")
    }
}

impl<T> fmt::Display for DownFault<T> {
    fn fmt<W: fmt::Write>(&self, f: &mut fmt::Formatter<W>) -> fmt::Result {
        f.write_str(match self {
            DownFault::InCall { item: _ } => "a call of the seat is open",
            DownFault::Worn { item: _ } => "the stint is used up",
        })
    }
}

impl fmt::Display for UpFault {
    fn fmt<W: fmt::Write>(&self, f: &mut fmt::Formatter<W>) -> fmt::Result {
        f.write_str(match self {
            UpFault::InCall => "a call of the seat is open",
            UpFault::Worn => "the stint is used up",
        })
    }
}

impl Error for UpFault {}
