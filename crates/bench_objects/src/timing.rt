//! A thread that times each of its calls.

use crate::attempts::Attempts;
use crate::passing::Workload;
use crate::run::{Job, Passed};
use crossbeam_utils::Backoff;
use std::sync::{Mutex, Wait};
use std::time::{Clock, Instant};

/// A thread with its handle. It times each call that is not refused, and adds the times to the list of all threads at its end.
#[derive(Drop)]
pub struct Timing<'t, P> {
    pub handle: P,
    pub workload: Workload,
    pub times: Vec<u64>,
    pub all: &'t Mutex<Vec<u64>>,
}

/// The nanoseconds since then; `None` if the clock cannot be read.
fn nanos_since<R: Clock>(rt: &R, begun: Instant) -> Option<u64> {
    match Instant::now(rt) {
        Ok(ended) => u64::try_from(ended.duration_since(begun).as_nanos()).ok(),
        Err(_) => None,
    }
}

/// Puts the number in, by attempts. Returns the nanoseconds of the one that was not refused.
fn put_one<R: Wait + Clock, P: Attempts>(rt: &R, handle: &mut P, number: u64) -> Option<u64> {
    let backoff = Backoff::new();
    for _ in rt.forever() {
        let Ok(begun) = Instant::now(rt) else {
            return None;
        };
        let is_in = handle.try_put(rt, number);
        let nanos = nanos_since(rt, begun);
        if is_in {
            return nanos;
        }
        backoff.snooze();
    }
    unreachable!()
}

/// Takes a number out, by attempts. Returns it with the nanoseconds of the one that was not refused.
fn get_one<R: Wait + Clock, P: Attempts>(rt: &R, handle: &mut P) -> Option<(u64, u64)> {
    let backoff = Backoff::new();
    for _ in rt.forever() {
        let Ok(begun) = Instant::now(rt) else {
            return None;
        };
        let taken = handle.try_get(rt);
        let nanos = nanos_since(rt, begun);
        match (taken, nanos) {
            (Some(number), Some(nanos)) => return Some((number, nanos)),
            (Some(_), None) => return None,
            (None, _) => backoff.snooze(),
        }
    }
    unreachable!()
}

impl<'t, P: Attempts> Timing<'t, P> {
    /// Puts these numbers in, until one is not timed.
    fn put_all<R: Wait + Clock>(&mut self, rt: &R, first: u64, end: u64) {
        for number in first..end {
            let Some(nanos) = put_one(rt, &mut self.handle, number) else {
                return;
            };
            if self.times.push(nanos).is_err() {
                return;
            }
            self.handle.pause();
        }
    }

    /// Takes this many numbers out, until one is not timed.
    fn get_all<R: Wait + Clock>(&mut self, rt: &R, count: u64) -> Passed {
        let mut passed = Passed::NONE;
        for _ in 0..count {
            let Some((number, nanos)) = get_one(rt, &mut self.handle) else {
                return passed;
            };
            if self.times.push(nanos).is_err() {
                return passed;
            }
            passed = passed.with(number);
            self.handle.pause();
        }
        passed
    }

    /// Adds the times to those of all threads. If there is no memory they are lost, and the reader of the list counts that.
    fn hand_in<R: Wait>(&mut self, rt: &R) {
        let mut all = self.all.lock(rt);
        for nanos in self.times.as_slice() {
            if all.push(*nanos).is_err() {
                return;
            }
        }
    }
}

impl<'t, P: Attempts + Send> Job for Timing<'t, P> {
    fn work<R: Wait + Clock>(&mut self, rt: &R) -> Passed {
        let passed = match self.workload {
            Workload::Put { first, end } => {
                self.put_all(rt, first, end);
                Passed::NONE
            }
            Workload::Get { count } | Workload::Both { count } => self.get_all(rt, count),
        };
        self.hand_in(rt);
        passed
    }
}
