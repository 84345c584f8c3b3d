//! The largest values that shared objects may be opened with, and larger ones for large objects.

ghost use Rattle.std.specs.Prelude.{IfErr, MatchResult};
ghost use Rattle.fak_model.specs.Limits.{IsLargeFault, IsLargeNumberOfSeats, IsLargeStint, IsOfRange};

use crate::large_fault::LargeFault;

/// The largest bound of a room, and the largest start of a credit.
pub const LARGEST_BOUND: u64 = 1 << 32;

/// The largest number of cells of a queue that is not large.
pub const LARGEST_SIZE: u64 = 4096;

/// The largest number of seats of an object that is not large.
pub const MOST_SEATS: u64 = 64;

/// The longest stint of a seat of an object that is not large, in tickets, changes of a count, or holds.
pub const LONGEST_STINT: u64 = 1 << 40;

/// The largest number of cells of a large queue.
pub const LARGE_SIZE: u64 = 1 << 24;

/// The largest number of seats of a large object, and so of any object.
pub const LARGE_SEATS: u64 = 1024;

/// The largest stint of all seats of a large object together, in tickets, changes of a count, or holds.
pub const LARGE_TICKETS: u64 = 1 << 50;

/// Tests the number of seats of a large object, then the stint of each seat.
///
/// # Errors
///
/// `BadSeats` or `BadStint`; the first in this order if both apply.
pub fn tested_large_seats(seats: u64, stint: u64) -> Result<(), LargeFault>
    ensures tested { MatchResult result (λ _. IsLargeNumberOfSeats seats × IsLargeStint seats stint)
        (IsLargeFault (Unit {0}) seats stint) }
    ensures range { IfErr result IsOfRange }
{
    if seats == 0 || seats > LARGE_SEATS {
        return Err(LargeFault::BadSeats);
    }
    if stint == 0 || stint > LARGE_TICKETS / seats {
        return Err(LargeFault::BadStint);
    }
    Ok(())
}
