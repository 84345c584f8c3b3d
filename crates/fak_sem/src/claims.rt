//! One claim in the wait queue, within a seat's stint.

ghost use Rattle.std.specs.Prelude.{◌≡◌};
ghost use Rattle.fak_sem.specs.Standings.{IsParking, IsWaking};
ghost use Rattle.fak_sem.specs.Steps.{ClaimsItem, ClaimsRoom};
ghost use Rattle.fak_sem.specs.Tickets.{HasTicket};

use crate::standing::Standing;
use fak_queue::{DeleteFault, InsertFault, Queue, Seat};

/// Claims room for the item once, after the debit of its down. If the queue is full or shut, the item is to be claimed
/// for again. Once the claim is granted, the item is to be moved into its cell.
pub(crate) fn claim_room<T: Drop>(queue: &Queue<T>, seat: &mut Seat<T>, item: T) -> Standing<T>
    requires { HasTicket queue.now.object seat.old }
    ensures object { seat.new.object ≡ seat.old.object }
    ensures stands { IsParking result }
    ensures call { ClaimsRoom queue.now.size item seat.old seat.new result }
{
    match queue.claim_insert(seat, item) {
        Ok(_) => Standing::Inserting,
        Err(InsertFault::Worn { item: _ }) => unreachable!(),
        Err(InsertFault::Closed { item }) => Standing::Parking(item),
        Err(InsertFault::Full { upper: _, item }) => Standing::Parking(item),
    }
}

/// Claims an item once, after the credit of its up. If the queue is empty, the item is to be claimed again: the debit
/// of a down comes before its item. Once the claim is granted, the item is to be moved out of its cell.
pub(crate) fn claim_item<T: Drop>(queue: &Queue<T>, seat: &mut Seat<T>) -> Standing<T>
    requires { HasTicket queue.now.object seat.old }
    ensures object { seat.new.object ≡ seat.old.object }
    ensures stands { IsWaking result }
    ensures call { ClaimsItem queue.now.size seat.old seat.new result }
{
    match queue.claim_delete(seat) {
        Ok(_) => Standing::Deleting,
        Err(DeleteFault::Worn) => unreachable!(),
        Err(DeleteFault::Empty(_)) => Standing::Waking,
    }
}
