//! Why a queue was not opened, or a call on it was refused.

use crate::seat::Seat;
use std::error::Error;
use std::fmt;

/// Why a queue was not opened. If several faults apply, the first is returned.
#[derive(Clone, Copy, Debug, PartialEq, Eq, Drop)]
pub enum OpenFault {
    /// The size isn't 1 to 4,096.
    BadSize,
    /// The number of seats isn't 1 to 64.
    BadSeats,
    /// The stint isn't 1 to 1,099,511,627,776.
    BadStint,
    /// There was no memory.
    Memory,
}

/// Why an insertion was refused. The item comes back. If several refusals apply, the first is returned.
#[derive(Clone, Copy, Debug, PartialEq, Eq, Drop)]
pub enum InsertFault<T> {
    /// The seat has drawn all the tickets of its stint.
    Worn {
        /// The item that was not inserted.
        item: T,
    },
    /// The queue was shut.
    Closed {
        /// The item that was not inserted.
        item: T,
    },
    /// The queue had no room.
    Full {
        /// The upper count that the test or the add found.
        upper: i64,
        /// The item that was not inserted.
        item: T,
    },
}

/// Why a burst of insertions was refused. All its items stay with the caller. If several refusals apply, the first is
/// returned.
#[derive(Clone, Copy, Debug, PartialEq, Eq, Drop)]
pub enum BurstFault {
    /// The bundle's seats have drawn all the tickets of their stint.
    Worn,
    /// The queue was shut.
    Closed,
    /// The queue had no room.
    Full {
        /// The upper count that the test or the add found.
        upper: i64,
    },
}

/// Why no bundle was made. If several faults apply, the first is returned.
#[derive(Drop)]
pub enum BundleFault<T> {
    /// There was no seat.
    NoSeats,
    /// There was no memory. The seats come back.
    Memory {
        /// The seats that stay as they were.
        seats: Vec<Seat<T>>,
    },
}

/// Why a deletion was refused. If several refusals apply, the first is returned.
#[derive(Clone, Copy, Debug, PartialEq, Eq, Drop)]
pub enum DeleteFault {
    /// The seat has drawn all the tickets of its stint.
    Worn,
    /// The queue had no item. This is the lower count that the test or the subtraction found.
    Empty(i64),
}

impl fmt::Display for OpenFault {
    fn fmt<W: fmt::Write>(&self, f: &mut fmt::Formatter<W>) -> fmt::Result {
        f.write_str(match self {
            OpenFault::BadSize => "the size is not 1 to 4096",
            OpenFault::BadSeats => "the number of seats is not 1 to 64",
            OpenFault::BadStint => "the stint is not 1 to 1099511627776",
            OpenFault::Memory => "out of memory",
        })
    }
}

impl Error for OpenFault {}

impl<T> fmt::Display for InsertFault<T> {
    fn fmt<W: fmt::Write>(&self, f: &mut fmt::Formatter<W>) -> fmt::Result {
        match self {
            InsertFault::Worn { item: _ } => f.write_str("the stint is used up"),
            InsertFault::Closed { item: _ } => f.write_str("the queue is shut"),
            InsertFault::Full { upper, item: _ } => {
                write!(f, "the queue is full: its upper count was {upper}")
            }
        }
    }
}

impl fmt::Display for BurstFault {
    fn fmt<W: fmt::Write>(&self, f: &mut fmt::Formatter<W>) -> fmt::Result {
        match self {
            BurstFault::Worn => f.write_str("the stint is used up"),
            BurstFault::Closed => f.write_str("the queue is shut"),
            BurstFault::Full { upper } => {
                write!(f, "the queue is full: its upper count was {upper}")
            }
        }
    }
}

impl Error for BurstFault {}

impl fmt::Display for DeleteFault {
    fn fmt<W: fmt::Write>(&self, f: &mut fmt::Formatter<W>) -> fmt::Result {
        match self {
            DeleteFault::Worn => f.write_str("the stint is used up"),
            DeleteFault::Empty(lower) => {
                write!(f, "the queue is empty: its lower count was {lower}")
            }
        }
    }
}

impl Error for DeleteFault {}

impl<T: Drop> Error for BundleFault<T> {}

impl<T> fmt::Debug for BundleFault<T> {
    fn fmt<W: fmt::Write>(&self, f: &mut fmt::Formatter<W>) -> fmt::Result {
        match self {
            BundleFault::NoSeats => f.write_str("NoSeats"),
            BundleFault::Memory { seats } => f
                .debug_struct("Memory")
                .field("seats", seats)
                .finish(),
        }
    }
}

impl<T> fmt::Display for BundleFault<T> {
    fn fmt<W: fmt::Write>(&self, f: &mut fmt::Formatter<W>) -> fmt::Result {
        f.write_str(match self {
            BundleFault::NoSeats => "there is no seat",
            BundleFault::Memory { seats: _ } => "out of memory",
        })
    }
}
