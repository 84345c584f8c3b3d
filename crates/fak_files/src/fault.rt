//! The errors of opening a file table, and of its calls.

use std::error::Error;
use std::fmt;

/// Why no file table was opened. If there are several faults, the first one is returned.
#[derive(Clone, Copy, Debug, PartialEq, Eq)]
pub enum OpenFault {
    /// The number of entries is not 1 to 16.
    BadSize,
    /// The number of seats is not 1 to 64.
    BadSeats,
    /// The stint is not 1 to 2^40.
    BadStint,
    /// Memory ran out.
    Memory,
}

/// Why a hold was refused.
#[derive(Clone, Copy, Debug, PartialEq, Eq)]
pub enum FileFault {
    /// The seat has had as many holds as its stint.
    Worn,
    /// Others hold too much. The number is the count that was found.
    Busy(i64),
}

/// Why a port refused a hold by one attempt. If there are several reasons, the first one is returned.
#[derive(Clone, Copy, Debug, PartialEq, Eq)]
pub enum HoldFault {
    /// The seat has a hold already.
    Holding,
    /// The seat has had as many holds as its stint.
    Worn,
    /// Others hold too much. The number is the count that was found.
    Busy(i64),
}

/// Why a port refused a hold that it would wait for. If there are several reasons, the first one is returned.
#[derive(Clone, Copy, Debug, PartialEq, Eq)]
pub enum WaitFault {
    /// The seat has a hold already.
    Holding,
    /// The seat has had as many holds as its stint.
    Worn,
}

/// The seat's stint is used up.
#[derive(Clone, Copy, Debug, PartialEq, Eq)]
pub struct Worn;

impl fmt::Display for OpenFault {
    fn fmt<W: fmt::Write>(&self, f: &mut fmt::Formatter<W>) -> fmt::Result {
        f.write_str(match self {
            OpenFault::BadSize => "the number of entries is not 1 to 16",
            OpenFault::BadSeats => "the number of seats is not 1 to 64",
            OpenFault::BadStint => "the stint is not 1 to 1099511627776",
            OpenFault::Memory => "out of memory",
        })
    }
}

impl Error for OpenFault {}

impl fmt::Display for FileFault {
    fn fmt<W: fmt::Write>(&self, f: &mut fmt::Formatter<W>) -> fmt::Result {
        match self {
            FileFault::Worn => f.write_str("the stint is used up"),
            FileFault::Busy(count) => write!(f, "others hold the table: its count was {count}"),
        }
    }
}

impl Error for FileFault {}

impl fmt::Display for HoldFault {
    fn fmt<W: fmt::Write>(&self, f: &mut fmt::Formatter<W>) -> fmt::Result {
        match self {
            HoldFault::Holding => f.write_str("the seat has a hold"),
            HoldFault::Worn => f.write_str("the stint is used up"),
            HoldFault::Busy(count) => write!(f, "others hold the table: its count was {count}"),
        }
    }
}

impl Error for HoldFault {}

impl fmt::Display for WaitFault {
    fn fmt<W: fmt::Write>(&self, f: &mut fmt::Formatter<W>) -> fmt::Result {
        f.write_str(match self {
            WaitFault::Holding => "the seat has a hold",
            WaitFault::Worn => "the stint is used up",
        })
    }
}

impl Error for WaitFault {}

impl fmt::Display for Worn {
    fn fmt<W: fmt::Write>(&self, f: &mut fmt::Formatter<W>) -> fmt::Result {
        f.write_str("the stint is used up")
    }
}

impl Error for Worn {}
