//! Why a call on a core was refused.

/// Why a call on a core was refused. A refused call changes nothing.
#[derive(Clone, Copy, Debug, PartialEq, Eq)]
pub enum CoreFault {
    /// The bound of a room, or the size of a queue, is out of range.
    BadSize,
    /// The number of seats is not 1 to 64.
    BadSeats,
    /// No seat has this number.
    NoSuchSeat,
    /// The seat has an open call.
    MidCall,
    /// The seat has no open call.
    IdleSeat,
    /// The seat holds less than it would release.
    NotHeld,
    /// Memory ran out.
    Memory,
}
