//! The word on which the thread of an end sleeps, and by which another thread wakes it.

use crossbeam_utils::CachePadded;
use std::sync::Wait;
use std::sync::atomic::{AtomicU64, Ordering};
use std::time::{Clock, Duration, Instant};

/// Nobody has woken the thread since it last returned from a park.
const WAITS: u64 = 0;

/// The thread was woken, and is not to park.
const WOKEN: u64 = 1;

/// The time that is left until the deadline; none, if the clock cannot be read.
pub(crate) fn time_left(clock: &impl Clock, deadline: Instant) -> Duration {
    match Instant::now(clock) {
        Ok(now) => deadline.saturating_duration_since(now),
        Err(_) => Duration::ZERO,
    }
}

/// The word of one end. A wake before a park is kept: the park then returns at once. The word says nothing of the end's bit, so
/// the thread looks at its bit again after each park.
#[derive(Drop)]
pub(crate) struct Parker {
    word: CachePadded<AtomicU64>,
}

impl Parker {
    pub(crate) fn new() -> Parker {
        Parker {
            word: CachePadded::new(AtomicU64::new(WAITS)),
        }
    }

    /// Parks the thread until it is woken. The store comes before the next look at the bit: a wake before the store has cleared
    /// the bit before, and a wake after it is kept for the next park.
    pub(crate) fn park<R: Wait>(&self, rt: &R) {
        self.word.park(rt, WAITS as u32);
        self.word.store(WAITS, Ordering::SeqCst);
    }

    /// Parks the thread until it is woken, for this time at most.
    pub(crate) fn park_timeout<R: Wait>(&self, rt: &R, left: Duration) {
        self.word.park_timeout(rt, WAITS as u32, left);
        self.word.store(WAITS, Ordering::SeqCst);
    }

    /// Wakes the thread. It comes after its bit was cleared.
    pub(crate) fn wake(&self) {
        self.word.store(WOKEN, Ordering::SeqCst);
        self.word.wake_one();
    }
}
