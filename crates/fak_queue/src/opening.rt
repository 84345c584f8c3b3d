//! How a queue's limits are tested, and its table made.

ghost use Rattle.std.specs.Prelude.{◌≡◌, ◌+◌, [], IfErr, IfOk, MatchResult};
ghost use Rattle.fak_model.specs.Limits.{IsInLargeRange, IsLargeFault, IsOfRange};
ghost use Rattle.fak_queue.specs.Refusals.{IsInRange, IsLargeSize, IsRangeFault};
ghost use Rattle.fak_queue.specs.Shown.{opened_queue};

use crate::fault::OpenFault;
use crate::limits::QueueLimits;
use crate::phases::Phases;
use crate::rule::QueueRule;
use crate::steps::QueueToken;
use crate::words::{LOWER, MARGIN, TURNS, UPPER};
use atomic_table::Table;
use fak_model::{
    BIAS, LARGE_SIZE, LARGEST_SIZE, LONGEST_STINT, LargeFault, MOST_SEATS, Mark, View,
    tested_large_seats,
};
use std::alloc::{AllocError, Global};

/// Tests the size, the number of seats and the stint, in this order.
pub(crate) fn tested_limits(size: u64, seats: u64, stint: u64) -> Result<(), OpenFault>
    ensures { MatchResult result (λ _. IsInRange size seats stint) (IsRangeFault size seats stint) }
{
    if size == 0 || size > LARGEST_SIZE {
        return Err(OpenFault::BadSize);
    }
    if seats == 0 || seats > MOST_SEATS {
        return Err(OpenFault::BadSeats);
    }
    if stint == 0 || stint > LONGEST_STINT {
        return Err(OpenFault::BadStint);
    }
    Ok(())
}

/// Tests the same of a large queue, in the same order.
pub(crate) fn tested_large_limits(size: u64, seats: u64, stint: u64) -> Result<(), LargeFault>
    ensures tested { MatchResult result (λ _. IsInLargeRange (IsLargeSize size) seats stint)
        (IsLargeFault (IsLargeSize size) seats stint) }
    ensures range { IfErr result IsOfRange }
{
    if size == 0 || size > LARGE_SIZE {
        return Err(LargeFault::BadSize);
    }
    tested_large_seats(seats, stint)
}

/// The table of a queue of such items.
pub(crate) type QueueTable<T> = Table<
    Option<T>,
    View<Mark<T>, Phases<T>>,
    QueueLimits,
    QueueRule,
    Global,
>;

/// The table of an empty queue, with a token for all names.
pub(crate) fn empty_table<T>(
    alloc: Global,
    key: &QueueLimits,
) -> Result<(QueueTable<T>, QueueToken<T>), AllocError>
    requires { IsInLargeRange (IsLargeSize key.now.size) key.now.seats key.now.stint }
    ensures { IfOk result (λ r. (r.0.shared.table_id.words ≡ 96 + key.now.size)
        × (r.0.shared.table_id.slots ≡ key.now.size)
        × (r.0.shared.key ≡ key.now) × (r.1.table_id ≡ r.0.shared.table_id) × (r.1.me ≡ (opened_queue key.now, []))) }
{
    let cells = key.size as usize;
    let Ok(mut words) = Vec::from_elem(alloc, 0u64, cells + TURNS + MARGIN) else {
        return Err(AllocError);
    };
    words[UPPER] = BIAS;
    words[LOWER] = BIAS;
    Table::vacant(alloc, words.as_slice(), cells, key)
}
