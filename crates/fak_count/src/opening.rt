//! The ranges of what an object is opened with.

ghost use Rattle.std.specs.Prelude.{IfErr, MatchResult};
ghost use Rattle.fak_count.specs.Opening.{IsCount, IsInRange, IsRangeFault};
ghost use Rattle.fak_model.specs.Limits.{IsInLargeRange, IsLargeFault, IsOfRange};

use crate::fault::OpenFault;
use fak_model::{LARGEST_BOUND, LONGEST_STINT, LargeFault, MOST_SEATS, tested_large_seats};

/// Tests the bound or start, the number of seats and the stint of an object, in this order. Returns the first fault.
pub(crate) fn tested_limits(count: u64, seats: u64, stint: u64) -> Result<(), OpenFault>
    ensures { MatchResult result (λ _. IsInRange count seats stint) (IsRangeFault count seats stint) }
{
    if count > LARGEST_BOUND {
        return Err(OpenFault::BadSize);
    }
    if seats == 0 || seats > MOST_SEATS {
        return Err(OpenFault::BadSeats);
    }
    if stint == 0 || stint > LONGEST_STINT {
        return Err(OpenFault::BadStint);
    }
    Ok(())
}

/// Tests the same limits of a large object, in the same order.
pub(crate) fn tested_large_limits(count: u64, seats: u64, stint: u64) -> Result<(), LargeFault>
    ensures tested { MatchResult result (λ _. IsInLargeRange (IsCount count) seats stint)
        (IsLargeFault (IsCount count) seats stint) }
    ensures range { IfErr result IsOfRange }
{
    if count > LARGEST_BOUND {
        return Err(LargeFault::BadSize);
    }
    tested_large_seats(seats, stint)
}
