//! The errors of opening an object, and of calls on it.

use std::error::Error;
use std::fmt;

/// Why an object was not opened. If there are several faults, the first one is returned.
#[derive(Clone, Copy, Debug, PartialEq, Eq)]
pub enum OpenFault {
    /// The bound of a room, or the start of a credit, is above 4,294,967,296.
    BadSize,
    /// The number of seats is not 1 to 64.
    BadSeats,
    /// The stint is not 1 to 1,099,511,627,776.
    BadStint,
    /// Memory ran out.
    Memory,
}

/// Why a claim was refused.
#[derive(Clone, Copy, Debug, PartialEq, Eq)]
pub enum TirFault {
    /// The seat has been granted as many claims as its stint.
    Worn,
    /// The claim did not fit on top of this value, which the test or the failed add found.
    AtBound(i64),
}

/// Why a claim by a port was refused. If there are several reasons, the first one is returned.
#[derive(Clone, Copy, Debug, PartialEq, Eq)]
pub enum ClaimFault {
    /// The amount is not 1 to 1,024.
    BadAmount,
    /// The seat has been granted as many claims as its stint.
    Worn,
    /// The claim did not fit on top of this value, which the test or the failed add found.
    AtBound(i64),
}

/// The seat has performed all the calls of its stint.
#[derive(Clone, Copy, Debug, PartialEq, Eq)]
pub struct Worn;

impl fmt::Display for OpenFault {
    fn fmt<W: fmt::Write>(&self, f: &mut fmt::Formatter<W>) -> fmt::Result {
        f.write_str(match self {
            OpenFault::BadSize => "the bound or the start is above 4294967296",
            OpenFault::BadSeats => "the number of seats is not 1 to 64",
            OpenFault::BadStint => "the stint is not 1 to 1099511627776",
            OpenFault::Memory => "out of memory",
        })
    }
}

impl Error for OpenFault {}

impl fmt::Display for TirFault {
    fn fmt<W: fmt::Write>(&self, f: &mut fmt::Formatter<W>) -> fmt::Result {
        match self {
            TirFault::Worn => f.write_str("the stint is used up"),
            TirFault::AtBound(value) => {
                write!(f, "the room is at its bound: its value was {value}")
            }
        }
    }
}

impl Error for TirFault {}

impl fmt::Display for ClaimFault {
    fn fmt<W: fmt::Write>(&self, f: &mut fmt::Formatter<W>) -> fmt::Result {
        match self {
            ClaimFault::BadAmount => f.write_str("the amount is not 1 to 1024"),
            ClaimFault::Worn => f.write_str("the stint is used up"),
            ClaimFault::AtBound(value) => {
                write!(f, "the room is at its bound: its value was {value}")
            }
        }
    }
}

impl Error for ClaimFault {}

impl fmt::Display for Worn {
    fn fmt<W: fmt::Write>(&self, f: &mut fmt::Formatter<W>) -> fmt::Result {
        f.write_str("the stint is used up")
    }
}

impl Error for Worn {}
