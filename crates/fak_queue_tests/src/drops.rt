//! A value that is dropped with its queue, its seat or its rest is dropped once.

ghost use Rattle.fak_queue.specs.Queues.{IsIdleSeat};

use super::assertions::{assert_case, assert_equal};
use super::steps::{close, open, open_one, take};
use fak_queue::{Queue, Seat, Tally};
use std::process::Abort;
use std::sync::{Arc, Wait};

/// One more holder of the value.
fn held(rt: &impl Abort, shared: &Arc<u8>) -> Arc<u8> {
    Arc::try_clone(shared).expect(rt, "memory")
}

/// Fails if the value has another number of holders.
fn assert_holders(rt: &impl Abort, shared: &Arc<u8>, holders: usize) {
    assert_equal(rt, Arc::strong_count(shared), holders);
}

/// Inserts this many holders.
fn insert_held<R: Abort + Wait>(
    rt: &R,
    queue: &Queue<Arc<u8>>,
    seat: &mut Seat<Arc<u8>>,
    shared: &Arc<u8>,
    count: usize,
)
    requires { IsIdleSeat queue.now.object seat.old }
    ensures { IsIdleSeat queue.now.object seat.new }
{
    for number in 0..count {
        let is_inserted = queue.insert(rt, seat, held(rt, shared)).is_ok();
        assert_case(rt, &number, is_inserted);
    }
}

/// Deletes this many holders.
fn delete_held<R: Abort + Wait>(
    rt: &R,
    queue: &Queue<Arc<u8>>,
    seat: &mut Seat<Arc<u8>>,
    count: usize,
)
    requires { IsIdleSeat queue.now.object seat.old }
    ensures { IsIdleSeat queue.now.object seat.new }
{
    for number in 0..count {
        let is_deleted = queue.delete(rt, seat).is_ok();
        assert_case(rt, &number, is_deleted);
    }
}

/// A full queue of this many cells leaves all of them, the oldest at the cell of this number. This many are taken from what
/// is left, and the others are dropped with it.
fn drop_rest<R: Abort + AllocGlobal + Wait>(
    rt: &R,
    shared: &Arc<u8>,
    size: usize,
    oldest: usize,
    taken: usize,
) {
    let (queue, mut a) = open_one::<Arc<u8>>(rt, size as u64, 20_000);
    insert_held(rt, &queue, &mut a, shared, oldest);
    delete_held(rt, &queue, &mut a, oldest);
    insert_held(rt, &queue, &mut a, shared, size);
    let mut rest = close(rt, queue, Tally::of(a));
    for left in 0..taken {
        assert_holders(rt, shared, size.wrapping_add(1).wrapping_sub(left));
        drop(rest.next());
    }
    assert_holders(rt, shared, size.wrapping_add(1).wrapping_sub(taken));
    drop(rest);
    assert_holders(rt, shared, 1);
}

#[test]
fn values_are_dropped_once(rt: HostRuntime) {
    let shared = Arc::new(rt.alloc(), 7u8).expect(&rt, "memory");
    let (queue, mut seats) = open::<Arc<u8>>(&rt, (4, 2, 100));
    let mut a = take(&rt, &queue, &mut seats);
    insert_held(&rt, &queue, &mut a, &shared, 2);
    let claimed = queue.claim_insert(&mut a, held(&rt, &shared)).ok();
    assert_equal(&rt, claimed, Some(2));
    assert_holders(&rt, &shared, 4);
    drop(a);
    assert_holders(&rt, &shared, 3);
    drop(queue);
    assert_holders(&rt, &shared, 1);
    drop(seats);
}

#[test]
fn what_a_rest_hands_out_is_moved(rt: HostRuntime) {
    let shared = Arc::new(rt.alloc(), 7u8).expect(&rt, "memory");
    let (queue, mut a) = open_one::<Arc<u8>>(&rt, 4, 100);
    insert_held(&rt, &queue, &mut a, &shared, 2);
    let mut rest = close(&rt, queue, Tally::of(a));
    let first = rest.next();
    assert_equal(&rt, first.is_some(), true);
    assert_holders(&rt, &shared, 3);
    drop(rest);
    assert_holders(&rt, &shared, 2);
    drop(first);
    assert_holders(&rt, &shared, 1);
}

#[test]
fn a_rest_drops_the_items_of_all_cells(rt: HostRuntime) {
    const SIZES: &[usize] = &[1, 2, 3, 4, 5, 6, 7, 8, 9, 63, 64, 65, 1000, 4095, 4096];
    let shared = Arc::new(rt.alloc(), 7u8).expect(&rt, "memory");
    for &size in SIZES {
        drop_rest(&rt, &shared, size, 0, 0);
        drop_rest(&rt, &shared, size, size.wrapping_sub(1), 0);
    }
}

#[test]
fn a_rest_drops_what_was_not_taken_out(rt: HostRuntime) {
    let shared = Arc::new(rt.alloc(), 7u8).expect(&rt, "memory");
    for size in 1..10usize {
        for taken in 0..size.wrapping_add(1) {
            drop_rest(&rt, &shared, size, 0, taken);
            drop_rest(&rt, &shared, size, size.wrapping_sub(1), taken);
        }
    }
}
