//! The exported calls of seats of queues.

ghost use Rattle.std.specs.Prelude.{◌≡◌};
ghost use Rattle.fak_handles.specs.queue.Calls.{Deletes, DeletesOnce, Inserts, InsertsOnce, Looks, Pauses, SameQueue, Shuts, TriesToFill, TriesToTake};
ghost use Rattle.fak_handles.specs.Calls.{Called};
ghost use Rattle.fak_handles.specs.Kinds.{Spares, queue_in};
ghost use Rattle.fak_handles.specs.queue.Observing.{Counts, CountsCells, TellsDrained};

use fak_handles::code::{NO_SEAT, OK};
use fak_handles::padded_handle::PaddedHandle;
use fak_handles::queue::codes::{
    of_delete, of_delete_once, of_fill, of_insert, of_insert_once, of_shut, of_state, of_take,
};
use fak_handles::queue::seat::QueueDesk;

/// Claims room for the item, and writes its ticket. `fak_c_try_fill` then moves the item in.
///
/// `OK`, `WORN`, `CLOSED`, `FULL`, `NO_SEAT` or `WRONG_STATE`.
#[unsafe(no_mangle)]
pub extern "C" fn fak_c_claim_insert(seat: &mut PaddedHandle, item: u64, ticket: &mut u64) -> i32
    ensures call { Called result (ticket.new ≡ ticket.old) SameQueue (Inserts result item ticket.old ticket.new)
        (queue_in seat.old.handle.desk) (queue_in seat.new.handle.desk) }
    ensures spares { Spares queue_in seat.old.handle.desk seat.new.handle.desk }
{
    let Some(desk) = seat.lend::<QueueDesk>() else {
        return NO_SEAT;
    };
    let claimed = desk.claim_insert(item);
    of_insert(&claimed, ticket)
}

/// Moves the item of a claimed insertion into its cell, if it is the cell's turn.
///
/// `OK`, `NOT_YET`, `NO_SEAT` or `WRONG_STATE`.
#[unsafe(no_mangle)]
pub extern "C" fn fak_c_try_fill(seat: &mut PaddedHandle) -> i32
    ensures call { Called result Unit SameQueue (TriesToFill result) (queue_in seat.old.handle.desk)
        (queue_in seat.new.handle.desk) }
    ensures spares { Spares queue_in seat.old.handle.desk seat.new.handle.desk }
{
    let Some(desk) = seat.lend::<QueueDesk>() else {
        return NO_SEAT;
    };
    let tried = desk.try_fill();
    of_fill(&tried)
}

/// Claims an item, and writes its ticket. `fak_c_try_take` then hands the item out.
///
/// `OK`, `WORN`, `EMPTY`, `NO_SEAT` or `WRONG_STATE`.
#[unsafe(no_mangle)]
pub extern "C" fn fak_c_claim_delete(seat: &mut PaddedHandle, ticket: &mut u64) -> i32
    ensures call { Called result (ticket.new ≡ ticket.old) SameQueue (Deletes result ticket.old ticket.new)
        (queue_in seat.old.handle.desk) (queue_in seat.new.handle.desk) }
    ensures spares { Spares queue_in seat.old.handle.desk seat.new.handle.desk }
{
    let Some(desk) = seat.lend::<QueueDesk>() else {
        return NO_SEAT;
    };
    let claimed = desk.claim_delete();
    of_delete(&claimed, ticket)
}

/// Moves the item of a claimed deletion out of its cell, if it is the cell's turn.
///
/// `OK`, `NOT_YET`, `NO_SEAT` or `WRONG_STATE`.
#[unsafe(no_mangle)]
pub extern "C" fn fak_c_try_take(seat: &mut PaddedHandle, item: &mut u64) -> i32
    ensures call { Called result (item.new ≡ item.old) SameQueue (TriesToTake result item.old item.new)
        (queue_in seat.old.handle.desk) (queue_in seat.new.handle.desk) }
    ensures spares { Spares queue_in seat.old.handle.desk seat.new.handle.desk }
{
    let Some(desk) = seat.lend::<QueueDesk>() else {
        return NO_SEAT;
    };
    let tried = desk.try_take();
    of_take(&tried, item)
}

/// Claims room for the item, writes its ticket, and tries once to move the item in.
///
/// `OK`, `NOT_YET` if the claim is kept for `fak_c_try_fill`, `WORN`, `CLOSED`, `FULL`, `NO_SEAT` or `WRONG_STATE`.
#[unsafe(no_mangle)]
pub extern "C" fn fak_c_insert(seat: &mut PaddedHandle, item: u64, ticket: &mut u64) -> i32
    ensures call { Called result (ticket.new ≡ ticket.old) SameQueue (InsertsOnce result item ticket.old ticket.new)
        (queue_in seat.old.handle.desk) (queue_in seat.new.handle.desk) }
    ensures spares { Spares queue_in seat.old.handle.desk seat.new.handle.desk }
{
    let Some(desk) = seat.lend::<QueueDesk>() else {
        return NO_SEAT;
    };
    let made = desk.insert(item);
    of_insert_once(&made, ticket)
}

/// Claims an item, writes its ticket, and tries once to hand the item out.
///
/// `OK`, `NOT_YET` if the claim is kept for `fak_c_try_take`, `WORN`, `EMPTY`, `NO_SEAT` or `WRONG_STATE`.
#[unsafe(no_mangle)]
pub extern "C" fn fak_c_delete(seat: &mut PaddedHandle, ticket: &mut u64, item: &mut u64) -> i32
    ensures call { Called result ((ticket.new ≡ ticket.old) × (item.new ≡ item.old)) SameQueue
        (DeletesOnce result ticket.old ticket.new item.old item.new) (queue_in seat.old.handle.desk)
        (queue_in seat.new.handle.desk) }
    ensures spares { Spares queue_in seat.old.handle.desk seat.new.handle.desk }
{
    let Some(desk) = seat.lend::<QueueDesk>() else {
        return NO_SEAT;
    };
    let made = desk.delete();
    of_delete_once(&made, ticket, item)
}

/// Shuts the queue: insertions are refused from now on. Writes whether it was open before.
///
/// `OK`, `NO_SEAT` or `WRONG_STATE`.
#[unsafe(no_mangle)]
pub extern "C" fn fak_c_shut(seat: &mut PaddedHandle, was_open: &mut bool) -> i32
    ensures call { Called result (was_open.new ≡ was_open.old) SameQueue (Shuts result was_open.old was_open.new)
        (queue_in seat.old.handle.desk) (queue_in seat.new.handle.desk) }
    ensures spares { Spares queue_in seat.old.handle.desk seat.new.handle.desk }
{
    let Some(desk) = seat.lend::<QueueDesk>() else {
        return NO_SEAT;
    };
    let shut = desk.shut();
    of_shut(shut, was_open)
}

/// Leaves the queue to others for a while, if a call of the seat has found since the last pause that others use it too.
///
/// `OK` or `NO_SEAT`.
#[unsafe(no_mangle)]
pub extern "C" fn fak_c_pause(seat: &mut PaddedHandle) -> i32
    ensures call { Called result Unit SameQueue (Pauses result) (queue_in seat.old.handle.desk)
        (queue_in seat.new.handle.desk) }
    ensures spares { Spares queue_in seat.old.handle.desk seat.new.handle.desk }
{
    let Some(desk) = seat.lend::<QueueDesk>() else {
        return NO_SEAT;
    };
    desk.pause();
    OK
}

/// Writes the state of the seat, 0 idle, 1 inserting, 2 deleting, with the ticket of the open call, and how many tickets are left.
///
/// `OK` or `NO_SEAT`.
#[unsafe(no_mangle)]
pub extern "C" fn fak_c_state(
    seat: &mut PaddedHandle,
    state: &mut u32,
    ticket: &mut u64,
    left: &mut u64,
) -> i32
    ensures call { Called result ((state.new ≡ state.old) × (ticket.new ≡ ticket.old) × (left.new ≡ left.old)) SameQueue
        (Looks result state.new ticket.old ticket.new left.new) (queue_in seat.old.handle.desk)
        (queue_in seat.new.handle.desk) }
    ensures spares { Spares queue_in seat.old.handle.desk seat.new.handle.desk }
{
    let Some(desk) = seat.lend::<QueueDesk>() else {
        return NO_SEAT;
    };
    of_state(desk.seat.state(), state, ticket);
    *left = desk.seat.left();
    OK
}

/// Writes how many items are ready: insertions that have ended, minus the deletions begun and not withdrawn.
///
/// `OK` or `NO_SEAT`.
#[unsafe(no_mangle)]
pub extern "C" fn fak_c_count(seat: &mut PaddedHandle, items: &mut i64) -> i32
    ensures call { Called result (items.new ≡ items.old) SameQueue (Counts result items.new)
        (queue_in seat.old.handle.desk) (queue_in seat.new.handle.desk) }
    ensures spares { Spares queue_in seat.old.handle.desk seat.new.handle.desk }
{
    let Some(desk) = seat.lend::<QueueDesk>() else {
        return NO_SEAT;
    };
    *items = desk.items_ready();
    OK
}

/// Writes how many cells are in use, insertions begun and not withdrawn, minus deletions that have ended, and whether the queue is shut.
///
/// `OK` or `NO_SEAT`.
#[unsafe(no_mangle)]
pub extern "C" fn fak_c_in_use(seat: &mut PaddedHandle, cells: &mut i64, is_shut: &mut bool) -> i32
    ensures call { Called result ((cells.new ≡ cells.old) × (is_shut.new ≡ is_shut.old)) SameQueue
        (CountsCells result cells.new is_shut.new) (queue_in seat.old.handle.desk) (queue_in seat.new.handle.desk) }
    ensures spares { Spares queue_in seat.old.handle.desk seat.new.handle.desk }
{
    let Some(desk) = seat.lend::<QueueDesk>() else {
        return NO_SEAT;
    };
    let in_use = desk.cells_in_use();
    *cells = in_use.count;
    *is_shut = in_use.is_shut;
    OK
}

/// Writes whether the queue is shut with no cell in use: then no deletion finds an item from now on.
///
/// `OK` or `NO_SEAT`.
#[unsafe(no_mangle)]
pub extern "C" fn fak_c_drained(seat: &mut PaddedHandle, is_drained: &mut bool) -> i32
    ensures call { Called result (is_drained.new ≡ is_drained.old) SameQueue (TellsDrained result is_drained.new)
        (queue_in seat.old.handle.desk) (queue_in seat.new.handle.desk) }
    ensures spares { Spares queue_in seat.old.handle.desk seat.new.handle.desk }
{
    let Some(desk) = seat.lend::<QueueDesk>() else {
        return NO_SEAT;
    };
    *is_drained = desk.is_drained();
    OK
}
