//! What callers of a semaphore conclude.

ghost use Rattle.std.specs.Prelude.{◌≡◌, ◌+◌};
ghost use Rattle.fak_model.specs.Credit.{debits};
ghost use Rattle.fak_model.specs.Seats.{marks_of};
ghost use Rattle.fak_count.specs.Credits.{seat_of};
ghost use Rattle.fak_sem.specs.Semaphores.{IsIdleSemSeat, parked_by, passed_by};

use fak_sem::laws::each_down_passes_or_parks;
use fak_sem::{SemSeat, SemWorn, Semaphore};
use std::sync::Wait;

/// Makes a down: the seat's downs that passed and those that parked are all its debits.
pub fn down_counted<R: Wait>(
    rt: &R,
    semaphore: &Semaphore<u64>,
    seat: &mut SemSeat<u64>,
    item: u64,
) -> Result<Option<u64>, SemWorn<u64>>
    requires { IsIdleSemSeat semaphore.now.object seat.old }
    ensures idle { IsIdleSemSeat semaphore.now.object seat.new }
    ensures downs { passed_by seat.new + parked_by seat.new ≡ debits
        (marks_of seat_of seat.new.name seat.new.credit_seen) }
{
    each_down_passes_or_parks();
    semaphore.down(rt, seat, item)
}
