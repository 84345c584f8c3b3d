//! Storms of bursts that wait, and of bursts and single calls that are attempts: some bundles and seats insert while others delete,
//! each pair in a thread of its own.

ghost use Rattle.std.specs.Prelude.{◌≡◌, All};
ghost use Rattle.fak_queue.specs.BundleCalls.{IsIdleBundle};
ghost use Rattle.fak_queue.specs.Queues.{IsIdleSeat};

use super::assertions::assert_case;
use super::attempts::{delete_again, insert_again};
use super::bundle_steps::{bundle_of, delete_numbers, granted, numbers, wait_delete_numbers};
use super::items::{add, are_all, rise};
use super::steps::{close, open, take};
use super::storms::Calls;
use crossbeam_utils::Backoff;
use fak_queue::{Bundle, BurstFault, Queue, Seat, Tally};
use std::collections::VecDeque;
use std::process::Abort;
use std::sync::{Mutex, Wait};
use std::thread::{Threads, map_vec};

/// A bundle and a seat, whose attempts alternate. If calls wait, only the bundle makes them.
#[derive(Drop)]
struct Worker {
    bundle: Bundle<u64>,
    seat: Seat<u64>,
}

/// The lists that no worker has begun to insert, and what each of the others deleted.
#[derive(Drop)]
struct Lists {
    calls: Calls,
    waiting: Mutex<Vec<VecDeque<u64>>>,
    deleted: Mutex<Vec<Vec<u64>>>,
}

/// Inserts the first items by a burst, if the queue has room for one.
fn insert_some<R: Abort + Wait>(
    rt: &R,
    queue: &Queue<u64>,
    bundle: &mut Bundle<u64>,
    items: &mut VecDeque<u64>,
)
    requires { IsIdleBundle queue.now.object bundle.old }
    ensures { IsIdleBundle queue.now.object bundle.new }
{
    if items.is_empty() {
        return;
    }
    match queue.insert_burst(rt, bundle, items) {
        Ok(_) | Err(BurstFault::Full { upper: _ }) => {}
        Err(_) => panic!(rt; "a burst that is refused"),
    }
}

/// Inserts the items by bursts that wait, the first of the list first.
fn insert_waiting<R: Abort + Wait>(
    rt: &R,
    queue: &Queue<u64>,
    mut worker: Worker,
    mut items: VecDeque<u64>,
) -> Worker
    requires { IsIdleBundle queue.now.object worker.bundle × IsIdleSeat queue.now.object worker.seat }
    ensures { IsIdleBundle queue.now.object result.bundle × IsIdleSeat queue.now.object result.seat }
{
    for _ in rt.forever() {
        if items.is_empty() {
            return worker;
        }
        let inserted = queue.wait_insert_burst(rt, &mut worker.bundle, &mut items);
        assert!(rt; inserted.is_ok(), "a burst that is refused");
    }
    unreachable!()
}

/// Inserts the items by attempts, the first of the list first.
fn insert_items<R: Abort + Wait>(
    rt: &R,
    queue: &Queue<u64>,
    mut worker: Worker,
    mut items: VecDeque<u64>,
) -> Worker
    requires { IsIdleBundle queue.now.object worker.bundle × IsIdleSeat queue.now.object worker.seat }
    ensures { IsIdleBundle queue.now.object result.bundle × IsIdleSeat queue.now.object result.seat }
{
    let backoff = Backoff::new();
    for _ in rt.forever() {
        insert_some(rt, queue, &mut worker.bundle, &mut items);
        let Some(item) = items.pop_front() else {
            return worker;
        };
        let _ = insert_again(rt, queue, &mut worker.seat, item);
        backoff.snooze();
    }
    unreachable!()
}

/// Deletes one item by the seat, into this list. Returns how many it deleted.
fn delete_one<R: Abort + Wait>(
    rt: &R,
    queue: &Queue<u64>,
    seat: &mut Seat<u64>,
    into: &mut Vec<u64>,
) -> u64
    requires { IsIdleSeat queue.now.object seat.old }
    ensures { IsIdleSeat queue.now.object seat.new }
{
    match delete_again(rt, queue, seat) {
        Ok((_, item)) => {
            add(rt, into, item);
            1
        }
        Err(_) => 0,
    }
}

/// Adds the numbers to this list.
fn add_numbers(rt: &impl Abort, mut items: VecDeque<u64>, into: &mut Vec<u64>) {
    for _ in 0..items.len() {
        if let Some(item) = items.pop_front() {
            add(rt, into, item);
        }
    }
}

/// Deletes at most this many items by a burst, into this list. Returns how many it deleted.
fn delete_some<R: Abort + AllocGlobal + Wait>(
    rt: &R,
    queue: &Queue<u64>,
    bundle: &mut Bundle<u64>,
    most: u64,
    into: &mut Vec<u64>,
) -> u64
    requires { IsIdleBundle queue.now.object bundle.old }
    ensures { IsIdleBundle queue.now.object bundle.new }
{
    let (answer, items) = delete_numbers(rt, queue, bundle, most);
    add_numbers(rt, items, into);
    granted(answer)
}

/// Deletes this many items by bursts that wait, into this list. A burst asks for no more than are left to this worker. So if it
/// waits, more items will come: together the workers delete as many as are inserted.
fn delete_waiting<R: Abort + AllocGlobal + Wait>(
    rt: &R,
    queue: &Queue<u64>,
    mut worker: Worker,
    deletions: u64,
    into: &mut Vec<u64>,
) -> Worker
    requires { IsIdleBundle queue.now.object worker.bundle × IsIdleSeat queue.now.object worker.seat }
    ensures { IsIdleBundle queue.now.object result.bundle × IsIdleSeat queue.now.object result.seat }
{
    let mut left = deletions;
    for _ in rt.forever() {
        if left == 0 {
            return worker;
        }
        let most = left.min(5);
        let (answer, items) = wait_delete_numbers(rt, queue, &mut worker.bundle, most);
        assert!(rt; answer.is_ok(), "a burst that is refused");
        add_numbers(rt, items, into);
        left = left.wrapping_sub(granted(answer));
    }
    unreachable!()
}

/// Deletes this many items by attempts, into this list.
fn delete_items<R: Abort + AllocGlobal + Wait>(
    rt: &R,
    queue: &Queue<u64>,
    mut worker: Worker,
    deletions: u64,
    into: &mut Vec<u64>,
) -> Worker
    requires { IsIdleBundle queue.now.object worker.bundle × IsIdleSeat queue.now.object worker.seat }
    ensures { IsIdleBundle queue.now.object result.bundle × IsIdleSeat queue.now.object result.seat }
{
    let backoff = Backoff::new();
    let mut left = deletions;
    for _ in rt.forever() {
        if left == 0 {
            return worker;
        }
        let most = left.min(5);
        left = left.wrapping_sub(delete_some(rt, queue, &mut worker.bundle, most, into));
        if left > 0 {
            left = left.wrapping_sub(delete_one(rt, queue, &mut worker.seat, into));
        }
        backoff.snooze();
    }
    unreachable!()
}

/// Deletes this many items, and adds the list of them to those that were deleted.
fn delete_list<R: Abort + AllocGlobal + Wait>(
    rt: &R,
    queue: &Queue<u64>,
    lists: &Lists,
    deletions: u64,
    worker: Worker,
) -> Worker
    requires { IsIdleBundle queue.now.object worker.bundle × IsIdleSeat queue.now.object worker.seat }
    ensures { IsIdleBundle queue.now.object result.bundle × IsIdleSeat queue.now.object result.seat }
{
    let mut items = Vec::new(rt.alloc());
    let worker = match lists.calls {
        Calls::Waiting => delete_waiting(rt, queue, worker, deletions, &mut items),
        Calls::Attempts => delete_items(rt, queue, worker, deletions, &mut items),
    };
    add(rt, &mut lists.deleted.lock(rt), items);
    worker
}

/// Inserts one of the lists. If none is waiting, deletes this many items.
fn work<R: Abort + AllocGlobal + Wait>(
    rt: &R,
    queue: &Queue<u64>,
    lists: &Lists,
    deletions: u64,
    worker: Worker,
) -> Worker
    requires { IsIdleBundle queue.now.object worker.bundle × IsIdleSeat queue.now.object worker.seat }
    ensures { IsIdleBundle queue.now.object result.bundle × IsIdleSeat queue.now.object result.seat }
{
    let list = lists.waiting.lock(rt).pop();
    match (list, lists.calls) {
        (Some(items), Calls::Waiting) => insert_waiting(rt, queue, worker, items),
        (Some(items), Calls::Attempts) => insert_items(rt, queue, worker, items),
        (None, _) => delete_list(rt, queue, lists, deletions, worker),
    }
}

/// Has all workers work at once.
fn work_all<R: Abort + AllocGlobal + Threads + Wait + Sync>(
    rt: &R,
    queue: &Queue<u64>,
    lists: &Lists,
    deletions: u64,
    workers: Vec<Worker>,
) -> Vec<Worker>
    requires { All (λ w. IsIdleBundle queue.now.object w.bundle × IsIdleSeat queue.now.object w.seat) workers.items }
    ensures { All (λ w. IsIdleBundle queue.now.object w.bundle × IsIdleSeat queue.now.object w.seat) result.items }
{
    let part = move |worker: Worker| -> Worker
        requires { IsIdleBundle queue.now.object worker.bundle × IsIdleSeat queue.now.object worker.seat }
        ensures { IsIdleBundle queue.entry.now.object result.bundle × IsIdleSeat queue.entry.now.object result.seat }
    { work(rt, queue, lists, deletions, worker) };
    map_vec(rt, workers, &part).expect(rt, "memory for the threads")
}

/// This many workers, whose bundles have this many seats each.
fn workers_of(
    rt: &(impl Abort + AllocGlobal),
    queue: &Queue<u64>,
    mut seats: Vec<Seat<u64>>,
    count: u64,
    bundled: u64,
) -> Vec<Worker>
    requires { All (λ s. s.object ≡ queue.now.object) seats.items }
    ensures { All (λ w. IsIdleBundle queue.now.object w.bundle × IsIdleSeat queue.now.object w.seat) result.items }
{
    let mut workers = Vec::new(rt.alloc());
    for _ in 0..count {
        let bundle = bundle_of(rt, queue, &mut seats, bundled);
        let seat = take(rt, queue, &mut seats);
        add(rt, &mut workers, Worker { bundle, seat });
    }
    workers
}

/// Takes out the last of the workers.
fn take_worker(rt: &impl Abort, queue: &Queue<u64>, workers: &mut Vec<Worker>) -> Worker
    requires { All (λ w. IsIdleBundle queue.now.object w.bundle × IsIdleSeat queue.now.object w.seat) workers.old.items }
    ensures worker { IsIdleBundle queue.now.object result.bundle × IsIdleSeat queue.now.object result.seat }
    ensures others { All (λ w. IsIdleBundle queue.now.object w.bundle × IsIdleSeat queue.now.object w.seat) workers.new.items }
{
    workers.pop().expect(rt, "no worker is left")
}

/// Closes the queue, whose seats the workers have. No item may be left.
fn close_empty(rt: &impl Abort, queue: Queue<u64>, mut workers: Vec<Worker>)
    requires { All (λ w. IsIdleBundle queue.object w.bundle × IsIdleSeat queue.object w.seat) workers.items }
{
    let Worker { bundle, seat } = take_worker(rt, &queue, &mut workers);
    let mut tally = queue.join(Tally::of_bundle(&queue, bundle), seat);
    for _ in 0..workers.len() {
        let Worker { bundle, seat } = take_worker(rt, &queue, &mut workers);
        tally = queue.join(queue.join_bundle(tally, bundle), seat);
    }
    let left = close(rt, queue, tally).next();
    assert!(rt; left.is_none(), "an item that was left");
}

/// For each of these, one worker inserts the fifty numbers from it on. The other workers delete them all.
fn storm_of_bursts<R: Abort + AllocGlobal + Threads + Wait + Sync>(
    rt: &R,
    calls: Calls,
    firsts: &[u64],
    workers: u64,
    bundled: u64,
    deletions: u64,
) {
    let mut waiting = Vec::new(rt.alloc());
    for &first in firsts {
        add(rt, &mut waiting, numbers(rt, first, 50));
    }
    let lists = Lists {
        calls,
        waiting: Mutex::new(waiting),
        deleted: Mutex::new(Vec::new(rt.alloc())),
    };
    let seats = workers.wrapping_mul(bundled.wrapping_add(1));
    let (queue, seats) = open(rt, (8, seats, 100));
    let workers = workers_of(rt, &queue, seats, workers, bundled);
    let workers = work_all(rt, &queue, &lists, deletions, workers);
    close_empty(rt, queue, workers);
    let Lists {
        calls: _,
        waiting: _,
        deleted,
    } = lists;
    check_all(rt, deleted.into_inner().as_slice(), firsts);
}

/// Stops unless what each worker deleted rises among the fifty numbers from each of these on. Together the workers must
/// have deleted exactly all these numbers.
fn check_all(rt: &(impl Abort + AllocGlobal), lists: &[Vec<u64>], firsts: &[u64]) {
    let mut all = Vec::new(rt.alloc());
    for list in lists {
        for &first in firsts {
            assert_case(rt, &first, rise(list.as_slice(), first));
        }
        for &item in list.as_slice() {
            add(rt, &mut all, item);
        }
    }
    assert!(rt; are_all(rt, all, firsts));
}

#[test]
fn a_storm_of_one_pair_of_bundles(rt: HostRuntime) {
    storm_of_bursts(&rt, Calls::Waiting, &[1001], 2, 4, 50);
}

#[test]
fn a_storm_of_one_pair_of_bundles_by_attempts(rt: HostRuntime) {
    storm_of_bursts(&rt, Calls::Attempts, &[1001], 2, 4, 50);
}

#[test]
fn a_storm_of_two_pairs_of_bundles(rt: HostRuntime) {
    storm_of_bursts(&rt, Calls::Waiting, &[1001, 2001], 4, 3, 50);
}

#[test]
fn a_storm_of_two_pairs_of_bundles_by_attempts(rt: HostRuntime) {
    storm_of_bursts(&rt, Calls::Attempts, &[1001, 2001], 4, 3, 50);
}

#[test]
fn a_storm_of_two_bundles_and_one_that_deletes(rt: HostRuntime) {
    storm_of_bursts(&rt, Calls::Waiting, &[1001, 2001], 3, 8, 100);
}

#[test]
fn a_storm_of_two_bundles_and_one_that_deletes_by_attempts(rt: HostRuntime) {
    storm_of_bursts(&rt, Calls::Attempts, &[1001, 2001], 3, 8, 100);
}

#[test]
fn a_storm_of_one_bundle_and_two_that_delete(rt: HostRuntime) {
    storm_of_bursts(&rt, Calls::Waiting, &[1001], 3, 4, 25);
}
