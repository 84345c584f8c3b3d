//! The cases of queues: one thread that puts an item in and takes it out, or pairs of a producer and a consumer.

ghost use Rattle.std.specs.Prelude.{◌<◌};
ghost use Rattle.bench_objects.specs.Seats.{AreIdleSeats};

use crate::fault::Fault;
use crate::item::{Item, OwnedItem};
use crate::passing::{Passing, Workload};
use crate::queue_handle::{QueueHandle, Row, SeatQueue, SharedQueue, shared_handles};
use crate::run::{Machine, numbers_below, run_all};
use crossbeam_queue::ArrayQueue;
use fak_queue::{LONGEST_STINT, Queue, Seat};
use std::alloc::{AllocError, Global};
use std::sync::Mutex;

/// Which queue.
#[derive(Clone, Copy)]
pub enum Implementation {
    /// This repository's.
    Seats,
    /// The kit's by compare-and-swap.
    Ring,
    /// A row under a lock.
    Lock,
}

/// Which items.
#[derive(Clone, Copy)]
pub enum ItemKind {
    /// A `u64`.
    Number,
    /// A struct that holds a `Vec`.
    OwnedItem,
}

/// A queue of this many cells, with this many pairs of threads; with none, one thread does both.
#[derive(Clone, Copy)]
pub struct QueueCase {
    pub implementation: Implementation,
    pub item_kind: ItemKind,
    pub size: u64,
    pub pairs: u64,
    ghost some: { 0 < size },
}

/// A handle for each seat.
fn seat_handles<'q, T: Item>(
    alloc: Global,
    queue: &'q Queue<T>,
    mut seats: Vec<Seat<T>>,
) -> Result<Vec<SeatQueue<'q, T>>, AllocError>
    requires { AreIdleSeats queue.now.object seats.items }
{
    let mut handles = Vec::new(alloc);
    while let Some(seat) = seats.pop() {
        handles.push(SeatQueue { alloc, queue, seat })?;
    }
    Ok(handles)
}

/// What the thread of this number does: with no pairs one does both, else the first of each pair puts in and the second takes out.
pub fn part_of(number: u64, pairs: u64, items: u64) -> Workload {
    if pairs == 0 {
        return Workload::Both { count: items };
    }
    if number % 2 != 0 {
        return Workload::Get { count: items };
    }
    let first = (number / 2).wrapping_mul(items);
    let end = first.wrapping_add(items);
    Workload::Put { first, end }
}

/// What each thread does.
fn jobs_of<P: QueueHandle>(
    alloc: Global,
    mut handles: Vec<P>,
    pairs: u64,
    items: u64,
) -> Result<Vec<Passing<P>>, AllocError> {
    let mut jobs = Vec::new(alloc);
    let mut number = 0u64;
    while let Some(handle) = handles.pop() {
        let workload = part_of(number, pairs, items);
        jobs.push(Passing { handle, workload })?;
        number = number.wrapping_add(1);
    }
    Ok(jobs)
}

impl QueueCase {
    /// How many threads there are.
    fn threads(&self) -> u64 {
        self.pairs.saturating_mul(2).max(1)
    }

    /// How many items go through.
    fn total(&self, items: u64) -> u64 {
        self.pairs.max(1).saturating_mul(items)
    }

    /// One run over these handles, in nanoseconds for each item.
    fn over<R: Machine, P: QueueHandle + Send>(
        &self,
        rt: &R,
        alloc: Global,
        handles: Vec<P>,
        items: u64,
    ) -> Result<u64, Fault> {
        let total = self.total(items);
        let jobs = jobs_of(alloc, handles, self.pairs, items)?;
        let nanos = run_all(rt, jobs, numbers_below(total))?;
        Ok(nanos / total.max(1))
    }

    fn by_seats<T: Item + Send, R: Machine>(
        &self,
        rt: &R,
        alloc: Global,
        items: u64,
    ) -> Result<u64, Fault> {
        let Ok((queue, seats)) = Queue::<T>::open(alloc, self.size, self.threads(), LONGEST_STINT)
        else {
            return Err(Fault::Memory);
        };
        let handles = seat_handles(alloc, &queue, seats)?;
        self.over(rt, alloc, handles, items)
    }

    fn by_ring<T: Item + Send, R: Machine>(
        &self,
        rt: &R,
        alloc: Global,
        items: u64,
    ) -> Result<u64, Fault> {
        let ring = ArrayQueue::<T>::open(alloc, self.size as usize)?;
        let handles = shared_handles(alloc, &ring, self.threads())?;
        self.over(rt, alloc, handles, items)
    }

    fn by_lock<T: Item + Send, R: Machine>(
        &self,
        rt: &R,
        alloc: Global,
        items: u64,
    ) -> Result<u64, Fault> {
        let row = Mutex::<Row<T>>::open(alloc, self.size as usize)?;
        let handles = shared_handles(alloc, &row, self.threads())?;
        self.over(rt, alloc, handles, items)
    }

    fn with_items<T: Item + Send, R: Machine>(
        &self,
        rt: &R,
        alloc: Global,
        items: u64,
    ) -> Result<u64, Fault> {
        match self.implementation {
            Implementation::Seats => self.by_seats::<T, R>(rt, alloc, items),
            Implementation::Ring => self.by_ring::<T, R>(rt, alloc, items),
            Implementation::Lock => self.by_lock::<T, R>(rt, alloc, items),
        }
    }

    /// Runs it once, and returns the nanoseconds for each item.
    pub fn once<R: Machine>(&self, rt: &R, alloc: Global, items: u64) -> Result<u64, Fault> {
        match self.item_kind {
            ItemKind::Number => self.with_items::<u64, R>(rt, alloc, items),
            ItemKind::OwnedItem => self.with_items::<OwnedItem, R>(rt, alloc, items),
        }
    }
}
