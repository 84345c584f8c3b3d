//! The openings of the objects, each with many seats.

use crate::printing::show_count;
use crate::retrying::try_twice;
use fak_count::{Credit, Room};
use fak_files::FileTable;
use fak_queue::Queue;
use fak_sem::Semaphore;

/// Opens a room and a credit.
fn open_counts(rt: &(impl Print + Eprint + AllocGlobal)) -> bool {
    let (_room, seats) = try_twice!(rt, "Room::open", Room::open(rt.alloc(), 5, 64, 2));
    show_count(rt, "Room::open", seats.len(), "seats");
    let (_credit, seats) = try_twice!(rt, "Credit::open", Credit::open(rt.alloc(), 5, 33, 2));
    show_count(rt, "Credit::open", seats.len(), "seats");
    true
}

/// Opens a queue.
fn open_queue(rt: &(impl Print + Eprint + AllocGlobal)) -> bool {
    let (_queue, seats) = try_twice!(rt, "Queue::open", Queue::<u64>::open(rt.alloc(), 100, 7, 2));
    show_count(rt, "Queue::open", seats.len(), "seats");
    true
}

/// Opens a semaphore.
fn open_semaphore(rt: &(impl Print + Eprint + AllocGlobal)) -> bool {
    let (_semaphore, seats) = try_twice!(
        rt,
        "Semaphore::open",
        Semaphore::<u64>::open(rt.alloc(), 1, 100, 9, 2)
    );
    show_count(rt, "Semaphore::open", seats.len(), "seats");
    true
}

/// Opens a file table.
fn open_table(rt: &(impl Print + Eprint + AllocGlobal)) -> bool {
    let (_table, seats) = try_twice!(rt, "FileTable::open", FileTable::open(rt.alloc(), 16, 5, 2));
    show_count(rt, "FileTable::open", seats.len(), "seats");
    true
}

/// Opens a room and a credit with more seats than others may have.
fn open_large_counts(rt: &(impl Print + Eprint + AllocGlobal)) -> bool {
    let (_room, seats) = try_twice!(
        rt,
        "Room::open_large",
        Room::open_large(rt.alloc(), 5, 1024, 2)
    );
    show_count(rt, "Room::open_large", seats.len(), "seats");
    let (_credit, seats) = try_twice!(
        rt,
        "Credit::open_large",
        Credit::open_large(rt.alloc(), 5, 1024, 2)
    );
    show_count(rt, "Credit::open_large", seats.len(), "seats");
    true
}

/// Opens a queue with more cells and seats than others may have.
fn open_large_queue(rt: &(impl Print + Eprint + AllocGlobal)) -> bool {
    let (_queue, seats) = try_twice!(
        rt,
        "Queue::open_large",
        Queue::<u64>::open_large(rt.alloc(), 5000, 1024, 2)
    );
    show_count(rt, "Queue::open_large", seats.len(), "seats");
    true
}

/// Opens a semaphore with a larger wait queue and more seats than others may have.
fn open_large_semaphore(rt: &(impl Print + Eprint + AllocGlobal)) -> bool {
    let (_semaphore, seats) = try_twice!(
        rt,
        "Semaphore::open_large",
        Semaphore::<u64>::open_large(rt.alloc(), 1, 5000, 1024, 2)
    );
    show_count(rt, "Semaphore::open_large", seats.len(), "seats");
    true
}

/// Opens a file table with more seats than others may have.
fn open_large_table(rt: &(impl Print + Eprint + AllocGlobal)) -> bool {
    let (_table, seats) = try_twice!(
        rt,
        "FileTable::open_large",
        FileTable::open_large(rt.alloc(), 16, 1024, 2)
    );
    show_count(rt, "FileTable::open_large", seats.len(), "seats");
    true
}

/// Opens one of each object, and a large one of each.
pub(super) fn open_all(rt: &(impl Print + Eprint + AllocGlobal)) -> bool {
    open_counts(rt)
        && open_queue(rt)
        && open_semaphore(rt)
        && open_table(rt)
        && open_large_counts(rt)
        && open_large_queue(rt)
        && open_large_semaphore(rt)
        && open_large_table(rt)
}
