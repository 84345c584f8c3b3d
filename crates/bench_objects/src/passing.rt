//! What a thread does with a queue.

use crate::queue_handle::QueueHandle;
use crate::run::{Job, Passed};
use std::sync::Wait;
use std::time::Clock;

/// What a thread does with its handle.
#[derive(Clone, Copy)]
pub enum Workload {
    /// It puts the items of these numbers in.
    Put { first: u64, end: u64 },
    /// It takes this many items out.
    Get { count: u64 },
    /// It puts an item in and takes it out, this many times.
    Both { count: u64 },
}

/// A thread with its handle.
#[derive(Drop)]
pub struct Passing<P> {
    pub handle: P,
    pub workload: Workload,
}

/// Puts the items of these numbers in, until one does not go in.
fn put_all<R: Wait, P: QueueHandle>(rt: &R, handle: &mut P, first: u64, end: u64) {
    for number in first..end {
        if !handle.put(rt, number) {
            return;
        }
    }
}

/// Takes this many items out.
fn get_all<R: Wait, P: QueueHandle>(rt: &R, handle: &mut P, count: u64) -> Passed {
    let mut passed = Passed::NONE;
    for _ in 0..count {
        if let Some(number) = handle.get(rt) {
            passed = passed.with(number);
        }
    }
    passed
}

/// Puts an item in and takes it out, this many times.
fn pass_all<R: Wait, P: QueueHandle>(rt: &R, handle: &mut P, count: u64) -> Passed {
    let mut passed = Passed::NONE;
    for number in 0..count {
        if !handle.put(rt, number) {
            return passed;
        }
        if let Some(number) = handle.get(rt) {
            passed = passed.with(number);
        }
    }
    passed
}

impl<P: QueueHandle + Send> Job for Passing<P> {
    fn work<R: Wait + Clock>(&mut self, rt: &R) -> Passed {
        match self.workload {
            Workload::Put { first, end } => {
                put_all(rt, &mut self.handle, first, end);
                Passed::NONE
            }
            Workload::Get { count } => get_all(rt, &mut self.handle, count),
            Workload::Both { count } => pass_all(rt, &mut self.handle, count),
        }
    }
}
