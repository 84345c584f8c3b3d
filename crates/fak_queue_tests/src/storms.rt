//! Storms: some seats insert while others delete, each in a thread of its own.

ghost use Rattle.std.specs.Prelude.{◌≡◌, All};
ghost use Rattle.fak_queue.specs.Queues.{IsIdleSeat};

use super::assertions::assert_case;
use super::attempts::{delete_again, insert_again};
use super::items::{Load, add, are_all, fifty, ids_of, loads_of, rise};
use super::steps::{assert_idle, close_all, open};
use fak_queue::{Queue, Seat};
use std::process::Abort;
use std::sync::{Mutex, Wait};
use std::thread::{Threads, map_vec};

/// How a storm inserts and deletes: by calls that wait, or by attempts that are made again.
#[derive(Clone, Copy)]
pub enum Calls {
    Waiting,
    Attempts,
}

/// The lists that no seat has begun to insert, and what each of the other seats deleted.
#[derive(Drop)]
struct Lists<T> {
    calls: Calls,
    waiting: Mutex<Vec<Vec<T>>>,
    deleted: Mutex<Vec<Vec<T>>>,
}

/// Inserts the items, the last of the list first.
fn insert_all<T: Drop, R: Wait>(
    rt: &R,
    queue: &Queue<T>,
    mut seat: Seat<T>,
    calls: Calls,
    mut items: Vec<T>,
) -> Seat<T>
    requires { IsIdleSeat queue.now.object seat }
    ensures { result.object ≡ queue.now.object }
{
    while let Some(item) = items.pop() {
        let _ = match calls {
            Calls::Waiting => queue.wait_insert(rt, &mut seat, item),
            Calls::Attempts => insert_again(rt, queue, &mut seat, item),
        };
    }
    seat
}

/// Deletes this many items, into this list.
fn delete_all<T: Drop, R: Abort + Wait>(
    rt: &R,
    queue: &Queue<T>,
    mut seat: Seat<T>,
    calls: Calls,
    deletions: usize,
    into: &mut Vec<T>,
) -> Seat<T>
    requires { IsIdleSeat queue.now.object seat }
    ensures { result.object ≡ queue.now.object }
{
    for _ in 0..deletions {
        let deleted = match calls {
            Calls::Waiting => queue.wait_delete(rt, &mut seat),
            Calls::Attempts => delete_again(rt, queue, &mut seat),
        };
        if let Ok((_, item)) = deleted {
            add(rt, into, item);
        }
    }
    seat
}

/// Inserts one of the lists; if none is waiting, deletes this many items.
fn work<T: Drop, R: Abort + AllocGlobal + Wait>(
    rt: &R,
    queue: &Queue<T>,
    lists: &Lists<T>,
    deletions: usize,
    seat: Seat<T>,
) -> Seat<T>
    requires { seat.object ≡ queue.now.object }
    ensures { result.object ≡ queue.now.object }
{
    assert_idle(rt, queue, &seat);
    let list = lists.waiting.lock(rt).pop();
    match list {
        Some(items) => insert_all(rt, queue, seat, lists.calls, items),
        None => delete_list(rt, queue, lists, deletions, seat),
    }
}

/// Deletes this many items, and adds the list of them to those that were deleted.
fn delete_list<T: Drop, R: Abort + AllocGlobal + Wait>(
    rt: &R,
    queue: &Queue<T>,
    lists: &Lists<T>,
    deletions: usize,
    seat: Seat<T>,
) -> Seat<T>
    requires { IsIdleSeat queue.now.object seat }
    ensures { result.object ≡ queue.now.object }
{
    let mut items = Vec::new(rt.alloc());
    let seat = delete_all(rt, queue, seat, lists.calls, deletions, &mut items);
    add(rt, &mut lists.deleted.lock(rt), items);
    seat
}

/// Has all seats work at once.
fn work_all<T: Drop + Send, R: Abort + AllocGlobal + Threads + Wait + Sync>(
    rt: &R,
    queue: &Queue<T>,
    lists: &Lists<T>,
    deletions: usize,
    seats: Vec<Seat<T>>,
) -> Vec<Seat<T>>
    requires { All (λ s. s.object ≡ queue.now.object) seats.items }
    ensures { All (λ s. s.object ≡ queue.now.object) result.items }
{
    let part = move |seat: Seat<T>| -> Seat<T>
        requires { seat.object ≡ queue.now.object }
        ensures { result.object ≡ queue.entry.now.object }
    { work(rt, queue, lists, deletions, seat) };
    map_vec(rt, seats, &part).expect(rt, "memory for the threads")
}

/// Has this many seats of a queue insert the lists and delete what they inserted. Nothing is to be left.
fn work_through<T: Drop + Send, R: Abort + AllocGlobal + Threads + Wait + Sync>(
    rt: &R,
    lists: &Lists<T>,
    seats: u64,
    deletions: usize,
) {
    let (queue, seats) = open(rt, (8, seats, 100));
    let seats = work_all(rt, &queue, lists, deletions, seats);
    let left = close_all(rt, queue, seats).next();
    assert!(rt; left.is_none(), "an item that was left");
}

/// What each seat deleted, where the lists are inserted by a seat each while as many others delete.
fn storm<T: Drop + Send, R: Abort + AllocGlobal + Threads + Wait + Sync>(
    rt: &R,
    calls: Calls,
    lists: Vec<Vec<T>>,
    deleters: u64,
    deletions: usize,
) -> Vec<Vec<T>> {
    let seats = deleters.wrapping_add(lists.len() as u64);
    let lists = Lists {
        calls,
        waiting: Mutex::new(lists),
        deleted: Mutex::new(Vec::new(rt.alloc())),
    };
    work_through(rt, &lists, seats, deletions);
    let Lists {
        calls: _,
        waiting: _,
        deleted,
    } = lists;
    deleted.into_inner()
}

/// Fails if the numbers that each seat deleted do not rise from each of these on, or are not all of them.
fn check_all(rt: &(impl Abort + AllocGlobal), lists: &[Vec<u64>], firsts: &[u64]) {
    let mut all = Vec::new(rt.alloc());
    for list in lists {
        check_rise(rt, list.as_slice(), firsts);
        add_all(rt, &mut all, list.as_slice());
    }
    assert!(rt; are_all(rt, all, firsts));
}

/// Fails if the numbers do not rise from each of these on.
fn check_rise(rt: &impl Abort, list: &[u64], firsts: &[u64]) {
    for &first in firsts {
        assert_case(rt, &first, rise(list, first));
    }
}

/// Adds the numbers to the list.
fn add_all(rt: &impl Abort, list: &mut Vec<u64>, items: &[u64]) {
    for &item in items {
        add(rt, list, item);
    }
}

/// Fifty numbers from each of these on.
fn lists_of(rt: &(impl Abort + AllocGlobal), firsts: &[u64]) -> Vec<Vec<u64>> {
    let mut lists = Vec::new(rt.alloc());
    for &first in firsts {
        add(rt, &mut lists, fifty(rt, first));
    }
    lists
}

/// Fifty numbers from each of these on go in by a seat each, and come out by as many others.
fn storm_of_numbers<R: Abort + AllocGlobal + Threads + Wait + Sync>(
    rt: &R,
    calls: Calls,
    firsts: &[u64],
    deleters: u64,
    deletions: usize,
) {
    let lists = lists_of(rt, firsts);
    let got = storm(rt, calls, lists, deleters, deletions);
    check_all(rt, got.as_slice(), firsts);
}

#[test]
fn a_storm_of_one_pair(rt: HostRuntime) {
    storm_of_numbers(&rt, Calls::Waiting, &[1001], 1, 50);
}

#[test]
fn a_storm_of_two_pairs(rt: HostRuntime) {
    storm_of_numbers(&rt, Calls::Waiting, &[1001, 2001], 2, 50);
}

#[test]
fn a_storm_of_four_pairs(rt: HostRuntime) {
    storm_of_numbers(&rt, Calls::Waiting, &[1001, 2001, 3001, 4001], 4, 50);
}

#[test]
fn two_inserters_and_a_deleter(rt: HostRuntime) {
    storm_of_numbers(&rt, Calls::Waiting, &[1001, 2001], 1, 100);
}

#[test]
fn two_inserters_and_a_deleter_that_try_again(rt: HostRuntime) {
    storm_of_numbers(&rt, Calls::Attempts, &[1001, 2001], 1, 100);
}

#[test]
fn two_inserters_of_loads_and_a_deleter(rt: HostRuntime) {
    const FIRSTS: &[u64] = &[1001, 2001];
    let ids = lists_of(&rt, FIRSTS);
    let loads = loads_of_all(&rt, ids.as_slice());
    let got = storm(&rt, Calls::Waiting, loads, 1, 100);
    let ids = ids_of_all(&rt, got.as_slice());
    check_all(&rt, ids.as_slice(), FIRSTS);
}

/// Loads with the numbers of each list.
fn loads_of_all(rt: &(impl Abort + AllocGlobal), lists: &[Vec<u64>]) -> Vec<Vec<Load>> {
    let mut loads = Vec::new(rt.alloc());
    for ids in lists {
        add(rt, &mut loads, loads_of(rt, ids.as_slice()));
    }
    loads
}

/// The numbers of the loads of each list.
fn ids_of_all(rt: &(impl Abort + AllocGlobal), lists: &[Vec<Load>]) -> Vec<Vec<u64>> {
    let mut ids = Vec::new(rt.alloc());
    for loads in lists {
        add(rt, &mut ids, ids_of(rt, loads.as_slice()));
    }
    ids
}
