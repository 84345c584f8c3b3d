//! Why an insertion is refused.

ghost use Rattle.std.specs.Prelude.{◌≡◌, Err};
ghost use Rattle.fak_queue.specs.declared.fault.InsertFault.TheVariants.{Worn};
ghost use Rattle.fak_queue.specs.Parts.{burst_fault_of, fault_of};

use crate::fault::{BurstFault, InsertFault};

/// Why a load of the upper count's word, or an add to it, found no room for an insertion.
#[derive(Clone, Copy, Debug, PartialEq, Eq, Drop)]
pub enum NoRoom {
    /// The upper count, which was at least the queue's size.
    Full(i64),
    /// The queue was shut.
    Shut,
}

impl NoRoom {
    /// Refuses an insertion of this item.
    pub(crate) fn refuse<T>(self, item: T) -> Result<u64, InsertFault<T>>
        ensures { result ≡ Err (fault_of self item) }
    {
        match self {
            NoRoom::Full(upper) => Err(InsertFault::Full { upper, item }),
            NoRoom::Shut => Err(InsertFault::Closed { item }),
        }
    }

    /// Refuses a burst of insertions.
    pub(crate) fn refuse_burst(self) -> BurstFault
        ensures { result ≡ burst_fault_of self }
    {
        match self {
            NoRoom::Full(upper) => BurstFault::Full { upper },
            NoRoom::Shut => BurstFault::Closed,
        }
    }
}

/// Refuses an insertion of this item on a seat that has drawn its stint.
pub(crate) fn refuse_worn<T>(item: T) -> Result<u64, InsertFault<T>>
    ensures { result ≡ Err (Worn item) }
{
    Err(InsertFault::Worn { item })
}
