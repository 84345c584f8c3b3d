//! The words of a queue's table.
//!
//! A queue has four words of its own and one for each cell. Sixteen words before them and sixteen behind them are for the
//! bits of a channel's sleepers.
//!
//! - The upper count U: insertions that were claimed, or claimed beyond the bound and not withdrawn yet, minus the
//!   deletions that have ended. An insertion tests U and adds 1 to it before it draws a ticket. A deletion ends by
//!   subtracting 1. If the queue is shut, the word's top bit is set.
//! - The lower count L: insertions that have ended, minus the deletions that were claimed, or claimed below 1 and not
//!   withdrawn yet. A deletion tests L and subtracts 1 from it. An insertion ends by adding 1.
//! - The ticket counters I and D: the next ticket of an insertion, and of a deletion. Ticket k has cell k mod size in
//!   round k div size.
//! - The turn of a cell: 2 r while round r may fill it, 2 r + 1 while round r may take from it.
//!
//! Both counts can pass their bounds, L below 0 too, so a count is kept as count + 2^62, the bias. The
//! four words are 128 bytes apart from one another, from the turns and from both ends of the table, so that none of
//! them shares a cache line with another, or with anything else in memory.

ghost use Rattle.std.specs.Prelude.{◌+◌, ◌<◌, ◌^◌};
ghost use Rattle.fak_queue.specs.Words.{IsInUse, IsLowerCount, IsUpperCount};

use crate::found::NoRoom;
use crate::in_use::InUse;
use fak_model::{BIAS, count_of};

/// The number of words of bits before the first counter, and after the last turn; and how far the counters are apart.
pub(crate) const MARGIN: usize = 16;

/// The upper count, U.
pub(crate) const UPPER: usize = MARGIN;

/// The lower count, L.
pub(crate) const LOWER: usize = UPPER + MARGIN;

/// The counter of insertions' tickets, I.
pub(crate) const DRAWS_IN: usize = LOWER + MARGIN;

/// The counter of deletions' tickets, D.
pub(crate) const DRAWS_OUT: usize = DRAWS_IN + MARGIN;

/// The first cell's turn.
pub(crate) const TURNS: usize = DRAWS_OUT + MARGIN;

/// The bit of the upper count's word that is set if the queue is shut.
pub(crate) const SHUT: u64 = 1 << 63;

/// Whether this word of the upper count shows room in a queue of this size, or why not.
pub(crate) fn read_upper(found: u64, size: u64) -> Result<(), NoRoom>
    requires { size < 2 ^ 62 }
    ensures { IsUpperCount size found result }
{
    if found >= SHUT {
        Err(NoRoom::Shut)
    } else if found >= BIAS + size {
        Err(NoRoom::Full(count_of(found)))
    } else {
        Ok(())
    }
}

/// Whether this word of the lower count shows an item, or the count that it shows.
pub(crate) fn read_lower(found: u64) -> Result<(), i64>
    ensures { IsLowerCount found result }
{
    if found > BIAS {
        Ok(())
    } else {
        Err(count_of(found))
    }
}

/// The upper count that this word shows, and whether the queue is shut.
pub(crate) fn read_in_use(found: u64) -> InUse
    ensures { IsInUse found result }
{
    if found >= SHUT {
        InUse {
            count: count_of(found - SHUT),
            is_shut: true,
        }
    } else {
        InUse {
            count: count_of(found),
            is_shut: false,
        }
    }
}
