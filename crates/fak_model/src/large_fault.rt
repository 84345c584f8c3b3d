//! Why a large object was not opened.

use std::error::Error;
use std::fmt;

/// Why a large object was not opened. If several faults apply, the first in this order is returned.
#[derive(Clone, Copy, Debug, PartialEq, Eq, Drop)]
pub enum LargeFault {
    /// One of these is out of range: the size of a queue, 1 to 16,777,216; the bound of a room or the start of a
    /// credit, at most 4,294,967,296; the number of entries of a file table, 1 to 16.
    BadSize,
    /// The number of seats is not 1 to 1,024.
    BadSeats,
    /// The stint is 0, or the stints of all seats together are above 2^50.
    BadStint,
    /// Memory ran out.
    Memory,
}

impl fmt::Display for LargeFault {
    fn fmt<W: fmt::Write>(&self, f: &mut fmt::Formatter<W>) -> fmt::Result {
        f.write_str(match self {
            LargeFault::BadSize => "the size, bound, start or number of entries is out of range",
            LargeFault::BadSeats => "the number of seats is not 1 to 1024",
            LargeFault::BadStint => {
                "the stint is 0, or the stints of all seats together are above 1125899906842624"
            }
            LargeFault::Memory => "out of memory",
        })
    }
}

impl Error for LargeFault {}
