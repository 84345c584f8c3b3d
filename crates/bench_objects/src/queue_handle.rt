//! The queues that are measured, each as one thread has it: puts and gets that wait.

ghost use Rattle.std.specs.Prelude.{◌<◌};
ghost use Rattle.fak_queue.specs.Queues.{IsIdleSeat};

use crate::item::Item;
use crossbeam_queue::ArrayQueue;
use crossbeam_utils::Backoff;
use fak_queue::{Queue, Seat};
use std::alloc::{AllocError, Global};
use std::collections::VecDeque;
use std::marker::Sync;
use std::sync::{Mutex, Wait};

/// A queue in the hands of one thread.
pub trait QueueHandle: Drop {
    /// Puts the item of this number in, and waits while there is no room. Returns whether it went in.
    fn put<R: Wait>(&mut self, rt: &R, number: u64) -> bool;

    /// Takes the oldest item out, and waits while there is none. Returns its number.
    fn get<R: Wait>(&mut self, rt: &R) -> Option<u64>;
}

/// A seat of this repository's queue.
#[derive(Drop)]
pub struct SeatQueue<'q, T> {
    pub queue: &'q Queue<T>,
    pub alloc: Global,
    pub seat: Seat<T>,
    ghost idle: { IsIdleSeat queue.now.object seat },
}

impl<'q, T: Item> QueueHandle for SeatQueue<'q, T> {
    fn put<R: Wait>(&mut self, rt: &R, number: u64) -> bool {
        let item = T::of(self.alloc, number);
        self.queue.wait_insert(rt, &mut self.seat, item).is_ok()
    }

    fn get<R: Wait>(&mut self, rt: &R) -> Option<u64> {
        match self.queue.wait_delete(rt, &mut self.seat) {
            Ok((_, item)) => Some(item.number()),
            Err(_) => None,
        }
    }
}

/// A queue without seats, whose calls are refused if there is no room, or no item.
pub trait SharedQueue: Sync + Drop {
    type Item: Item;

    /// An empty queue with room for this many items.
    fn open(alloc: Global, size: usize) -> Result<Self, AllocError>
        requires { 0 < size };

    /// Puts the item in; it comes back if there is no room.
    fn try_push<R: Wait>(&self, rt: &R, item: Self::Item) -> Result<(), Self::Item>;

    /// Takes the oldest item out.
    fn try_pop<R: Wait>(&self, rt: &R) -> Option<Self::Item>;
}

/// The kit's queue by compare-and-swap.
impl<T: Item + Send> SharedQueue for ArrayQueue<T> {
    type Item = T;

    fn open(alloc: Global, size: usize) -> Result<ArrayQueue<T>, AllocError> {
        ArrayQueue::new(alloc, size)
    }

    fn try_push<R: Wait>(&self, rt: &R, item: T) -> Result<(), T> {
        self.push(rt, item)
    }

    fn try_pop<R: Wait>(&self, rt: &R) -> Option<T> {
        self.pop(rt)
    }
}

/// A bounded row of items.
#[derive(Drop)]
pub struct Row<T> {
    items: VecDeque<T>,
    size: usize,
}

impl<T: Drop> Row<T> {
    /// An empty row with room for this many items.
    pub fn open(alloc: Global, size: usize) -> Result<Row<T>, AllocError> {
        let items = VecDeque::with_capacity(alloc, size)?;
        Ok(Row { items, size })
    }

    /// Whether there is no room.
    pub fn is_full(&self) -> bool {
        self.items.len() >= self.size
    }

    /// Whether there is no item.
    pub fn is_empty(&self) -> bool {
        self.items.is_empty()
    }

    /// Takes the oldest item out.
    pub fn pop(&mut self) -> Option<T> {
        self.items.pop_front()
    }

    /// Puts the item in; it comes back if there is no room.
    pub fn push(&mut self, item: T) -> Result<(), T> {
        if self.is_full() {
            return Err(item);
        }
        match self.items.push_back(item) {
            Ok(()) => Ok(()),
            Err(failed) => Err(failed.value),
        }
    }
}

/// Such a row under a lock.
impl<T: Item + Send> SharedQueue for Mutex<Row<T>> {
    type Item = T;

    fn open(alloc: Global, size: usize) -> Result<Mutex<Row<T>>, AllocError> {
        Ok(Mutex::new(Row::open(alloc, size)?))
    }

    fn try_push<R: Wait>(&self, rt: &R, item: T) -> Result<(), T> {
        self.lock(rt).push(item)
    }

    fn try_pop<R: Wait>(&self, rt: &R) -> Option<T> {
        self.lock(rt).pop()
    }
}

/// A user of a queue without seats.
#[derive(Drop)]
pub struct SharedHandle<'q, Q> {
    pub alloc: Global,
    pub queue: &'q Q,
}

impl<'q, Q: SharedQueue> QueueHandle for SharedHandle<'q, Q> {
    fn put<R: Wait>(&mut self, rt: &R, number: u64) -> bool {
        let backoff = Backoff::new();
        let mut waiting = Q::Item::of(self.alloc, number);
        for _ in rt.forever() {
            match self.queue.try_push(rt, waiting) {
                Ok(()) => return true,
                Err(back) => waiting = back,
            }
            backoff.snooze();
        }
        unreachable!()
    }

    fn get<R: Wait>(&mut self, rt: &R) -> Option<u64> {
        let backoff = Backoff::new();
        for _ in rt.forever() {
            if let Some(item) = self.queue.try_pop(rt) {
                return Some(item.number());
            }
            backoff.snooze();
        }
        unreachable!()
    }
}

/// This many users of the queue.
pub fn shared_handles<'q, Q: SharedQueue>(
    alloc: Global,
    queue: &'q Q,
    count: u64,
) -> Result<Vec<SharedHandle<'q, Q>>, AllocError> {
    let mut handles = Vec::new(alloc);
    for _ in 0..count {
        handles.push(SharedHandle { alloc, queue })?;
    }
    Ok(handles)
}
