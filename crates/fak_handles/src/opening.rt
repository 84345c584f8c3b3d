//! How objects are opened for C, the part that serves all kinds.

ghost use Rattle.std.specs.Prelude.{◌≡◌, length, MatchBool};
ghost use Rattle.fak_model.specs.Limits.{IsLargeNumberOfSeats};
ghost use Rattle.fak_handles.specs.Openings.{AreEmpty};

use crate::padded_handle::PaddedHandle;
use fak_model::LARGE_SEATS;
use std::alloc::Global;

/// Whether an object may have this many seats.
pub fn is_number_of_seats(count: usize) -> bool
    ensures { MatchBool result (IsLargeNumberOfSeats count) (¬ IsLargeNumberOfSeats count) }
{
    count >= 1 && count as u64 <= LARGE_SEATS
}

/// Empties all handles.
pub(crate) fn clear(alloc: Global, handles: &mut [PaddedHandle])
    ensures len { length handles.new ≡ length handles.old }
    ensures empty { AreEmpty handles.new }
{
    for i in 0..handles.len() {
        drop(handles[i].take(alloc));
    }
}
