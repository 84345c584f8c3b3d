//! The ranges of what a file table is opened with.

ghost use Rattle.std.specs.Prelude.{IfErr, MatchResult};
ghost use Rattle.fak_files.specs.Opening.{IsInRange, IsNumberOfEntries, IsRangeFault};
ghost use Rattle.fak_model.specs.Limits.{IsInLargeRange, IsLargeFault, IsOfRange};

use crate::fault::OpenFault;
use crate::words::{FIELDS, MOST_ENTRIES};
use fak_model::{LONGEST_STINT, LargeFault, MOST_SEATS, tested_large_seats};

/// The number of words of a table with the most entries.
pub(crate) const WORDS: usize = FIELDS + 2 * MOST_ENTRIES;

/// Tests the number of entries, the number of seats and the stint, in this order. Returns the first fault.
pub(crate) fn tested_limits(entries: u64, seats: u64, stint: u64) -> Result<(), OpenFault>
    ensures { MatchResult result (λ _. IsInRange entries seats stint) (IsRangeFault entries seats stint) }
{
    if entries == 0 || entries > MOST_ENTRIES as u64 {
        return Err(OpenFault::BadSize);
    }
    if seats == 0 || seats > MOST_SEATS {
        return Err(OpenFault::BadSeats);
    }
    if stint == 0 || stint > LONGEST_STINT {
        return Err(OpenFault::BadStint);
    }
    Ok(())
}

/// Tests the same limits of a large table, in the same order.
pub(crate) fn tested_large_limits(entries: u64, seats: u64, stint: u64) -> Result<(), LargeFault>
    ensures tested { MatchResult result (λ _. IsInLargeRange (IsNumberOfEntries entries) seats stint)
        (IsLargeFault (IsNumberOfEntries entries) seats stint) }
    ensures range { IfErr result IsOfRange }
{
    if entries == 0 || entries > MOST_ENTRIES as u64 {
        return Err(LargeFault::BadSize);
    }
    tested_large_seats(seats, stint)
}
