//! The exported calls of bundles.

ghost use Rattle.std.specs.Prelude.{◌≡◌, length};
ghost use Rattle.fak_handles.specs.bundle.Opening.{OpensBundles, OpensOrKeepsBundles};
ghost use Rattle.fak_handles.specs.bundle.Calls.{DeletesBurstTo, FillsOpenBurst, InsertsBurstOf, LooksAtBundle, SameQueueOf, TakesOpenBurst};
ghost use Rattle.fak_handles.specs.Calls.{Called};
ghost use Rattle.fak_handles.specs.Kinds.{Spares, bundle_in};

use fak_handles::bundle::codes::{of_delete_burst, of_fill_burst, of_insert_burst, of_take_burst};
use fak_handles::bundle::opening::are_numbers_of_seats;
use fak_handles::bundle::seat::BundleDesk;
use fak_handles::code::{BAD_LIMIT, NO_SEAT, OK};
use fak_handles::padded_handle::PaddedHandle;
use std::alloc::Global;

/// Opens a queue of `size` cells, gives each handle of the first array a seat of it with this stint, and each of the second a bundle of
/// `width` seats, which share `width` stints. There may be no seats. There is at least one bundle, `width` is at least 1, and there are at
/// most 1,024 seats in all. What the handles held is given up. A failed call leaves them empty, but keeps them if these numbers are out of
/// range.
///
/// `OK`, `BAD_LIMIT` or `MEMORY`.
#[unsafe(no_mangle)]
pub extern "C" fn fak_c_open_bundles(
    alloc: Global,
    seats: &mut [PaddedHandle],
    bundles: &mut [PaddedHandle],
    width: u64,
    size: u64,
    stint: u64,
) -> i32
    ensures len { length seats.new ≡ length seats.old }
    ensures len_bundles { length bundles.new ≡ length bundles.old }
    ensures opens { OpensOrKeepsBundles result width seats.old seats.new bundles.old bundles.new
        (OpensBundles result size stint width seats.new bundles.new) }
{
    if !are_numbers_of_seats(seats.len(), bundles.len(), width) {
        return BAD_LIMIT;
    }
    fak_handles::bundle::opening::open_bundles(alloc, seats, bundles, width, size, stint)
}

/// Claims room for the first items by one claim, as many as find it, writes the first ticket and how many were claimed, and tries once
/// to move these items in. `BAD_LIMIT` if there are no items.
///
/// `OK`, `NOT_YET` if the rest of the claimed items is kept for `fak_c_try_fill_burst`, `WORN`, `CLOSED`, `FULL`, `BAD_LIMIT`, `NO_SEAT`
/// or `WRONG_STATE`.
#[unsafe(no_mangle)]
pub extern "C" fn fak_c_insert_burst(
    bundle: &mut PaddedHandle,
    items: &[u64],
    ticket: &mut u64,
    count: &mut u64,
) -> i32
    ensures call { Called result ((ticket.new ≡ ticket.old) × (count.new ≡ count.old)) SameQueueOf
        (InsertsBurstOf result items.now ticket.old ticket.new count.old count.new)
        (bundle_in bundle.old.handle.desk) (bundle_in bundle.new.handle.desk) }
    ensures spares { Spares bundle_in bundle.old.handle.desk bundle.new.handle.desk }
{
    let Some(desk) = bundle.lend::<BundleDesk>() else {
        return NO_SEAT;
    };
    if items.is_empty() {
        return BAD_LIMIT;
    }
    let made = desk.insert(items);
    of_insert_burst(&made, ticket, count)
}

/// Moves items of a claimed burst into their cells, until one's turn has not come, and writes how many are left.
///
/// `OK`, `NOT_YET`, `NO_SEAT` or `WRONG_STATE`.
#[unsafe(no_mangle)]
pub extern "C" fn fak_c_try_fill_burst(bundle: &mut PaddedHandle, left: &mut u64) -> i32
    ensures call { Called result (left.new ≡ left.old) SameQueueOf (FillsOpenBurst result left.old left.new)
        (bundle_in bundle.old.handle.desk) (bundle_in bundle.new.handle.desk) }
    ensures spares { Spares bundle_in bundle.old.handle.desk bundle.new.handle.desk }
{
    let Some(desk) = bundle.lend::<BundleDesk>() else {
        return NO_SEAT;
    };
    let tried = desk.try_fill();
    of_fill_burst(tried, left)
}

/// Claims the oldest items by one claim, at most one for each place, writes the first ticket and how many were claimed, and tries once
/// to hand these items out to the first places. Writes how many came. The other places stay as they were.
///
/// `OK`, `NOT_YET` if the rest is claimed for `fak_c_try_take_burst`, `WORN`, `EMPTY`, `BAD_LIMIT` if there is no place, `NO_SEAT` or
/// `WRONG_STATE`.
#[unsafe(no_mangle)]
pub extern "C" fn fak_c_delete_burst(
    bundle: &mut PaddedHandle,
    items: &mut [u64],
    ticket: &mut u64,
    count: &mut u64,
    taken: &mut u64,
) -> i32
    ensures len { length items.new ≡ length items.old }
    ensures call { Called result ((items.new ≡ items.old) × (ticket.new ≡ ticket.old)
        × (count.new ≡ count.old) × (taken.new ≡ taken.old)) SameQueueOf
        (DeletesBurstTo result items.old items.new ticket.old ticket.new count.old count.new taken.old taken.new)
        (bundle_in bundle.old.handle.desk) (bundle_in bundle.new.handle.desk) }
    ensures spares { Spares bundle_in bundle.old.handle.desk bundle.new.handle.desk }
{
    let Some(desk) = bundle.lend::<BundleDesk>() else {
        return NO_SEAT;
    };
    if items.is_empty() {
        return BAD_LIMIT;
    }
    let made = desk.delete(items);
    of_delete_burst(&made, ticket, count, taken)
}

/// Hands out items of a claimed burst to the first places, in the order of their tickets, as many as there are places, until the turn of
/// one has not come. Writes how many came, and how many are left. What comes out of the queue and finds no place waits in the bundle.
///
/// `OK` if none is left, `NOT_YET`, `NO_SEAT` or `WRONG_STATE`.
#[unsafe(no_mangle)]
pub extern "C" fn fak_c_try_take_burst(
    bundle: &mut PaddedHandle,
    items: &mut [u64],
    taken: &mut u64,
    left: &mut u64,
) -> i32
    ensures len { length items.new ≡ length items.old }
    ensures call { Called result ((items.new ≡ items.old) × (taken.new ≡ taken.old) × (left.new ≡ left.old)) SameQueueOf
        (TakesOpenBurst result items.old items.new taken.old taken.new left.old left.new)
        (bundle_in bundle.old.handle.desk) (bundle_in bundle.new.handle.desk) }
    ensures spares { Spares bundle_in bundle.old.handle.desk bundle.new.handle.desk }
{
    let Some(desk) = bundle.lend::<BundleDesk>() else {
        return NO_SEAT;
    };
    let tried = desk.try_take(items);
    of_take_burst(tried, taken, left)
}

/// Writes the state of the bundle, 0 idle, 1 inserting, 2 deleting, how many seats it has, and how many tickets are left. In a burst also
/// the ticket of the first item that is not in its cell, or not handed out, and how many of these items there are.
///
/// `OK` or `NO_SEAT`.
#[unsafe(no_mangle)]
pub extern "C" fn fak_c_bundle_state(
    bundle: &mut PaddedHandle,
    state: &mut u32,
    ticket: &mut u64,
    waiting: &mut u64,
    width: &mut u64,
    left: &mut u64,
) -> i32
    ensures call { Called result ((state.new ≡ state.old) × (ticket.new ≡ ticket.old)
        × (waiting.new ≡ waiting.old) × (width.new ≡ width.old) × (left.new ≡ left.old)) SameQueueOf
        (LooksAtBundle result state.new ticket.old ticket.new waiting.old waiting.new width.new left.new)
        (bundle_in bundle.old.handle.desk) (bundle_in bundle.new.handle.desk) }
    ensures spares { Spares bundle_in bundle.old.handle.desk bundle.new.handle.desk }
{
    let Some(desk) = bundle.lend::<BundleDesk>() else {
        return NO_SEAT;
    };
    desk.state(state, ticket, waiting);
    *width = desk.bundle.seats();
    *left = desk.bundle.left();
    OK
}
