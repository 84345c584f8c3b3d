//! The threads of a part, which begin at the same time, and what they have seen.

use crate::fault::Fault;
use std::sync::atomic::{AtomicU64, Ordering};
use std::thread;

/// The number of threads of each part.
pub const THREADS: u64 = 4;

/// Half of the threads: those that put something in, or those that take it out.
pub const PAIRS: u64 = THREADS / 2;

/// What a thread that gave up adds to the number of threads that have come.
const GIVEN_UP: u64 = 1 << 32;

/// The number of times that a thread looks for the others before it gives up.
const LOOKS: u64 = 5_000_000;

/// The numbers that a thread has seen: how many they are, their sum, and the sum of their squares.
#[derive(Clone, Copy, PartialEq, Drop)]
pub struct Seen {
    pub count: u64,
    pub sum: u64,
    pub squares: u64,
}

impl Seen {
    /// No numbers.
    pub const NONE: Seen = Seen {
        count: 0,
        sum: 0,
        squares: 0,
    };

    /// These numbers, and one more.
    pub fn with(self, number: u64) -> Seen {
        Seen {
            count: self.count.wrapping_add(1),
            sum: self.sum.wrapping_add(number),
            squares: self.squares.wrapping_add(number.wrapping_mul(number)),
        }
    }
}

/// The numbers that several threads have seen.
#[derive(Drop)]
pub struct Sums {
    count: AtomicU64,
    sum: AtomicU64,
    squares: AtomicU64,
}

impl Sums {
    /// No numbers.
    fn new() -> Sums {
        Sums {
            count: AtomicU64::new(0),
            sum: AtomicU64::new(0),
            squares: AtomicU64::new(0),
        }
    }

    /// Adds what one thread has seen.
    pub fn add(&self, seen: Seen) {
        self.count.fetch_add(seen.count, Ordering::SeqCst);
        self.sum.fetch_add(seen.sum, Ordering::SeqCst);
        self.squares.fetch_add(seen.squares, Ordering::SeqCst);
    }

    /// What all threads have seen.
    pub fn seen(&self) -> Seen {
        Seen {
            count: self.count.load(Ordering::SeqCst),
            sum: self.sum.load(Ordering::SeqCst),
            squares: self.squares.load(Ordering::SeqCst),
        }
    }
}

/// The threads of a part, what went in and what came out, and whether anything was wrong.
#[derive(Drop)]
pub struct Crew {
    pub went_in: Sums,
    pub came_out: Sums,
    come: AtomicU64,
    wrong: AtomicU64,
}

impl Crew {
    /// A crew of which no thread has come yet.
    pub fn new() -> Crew {
        Crew {
            went_in: Sums::new(),
            came_out: Sums::new(),
            come: AtomicU64::new(0),
            wrong: AtomicU64::new(0),
        }
    }

    /// Waits until all threads have come. Returns how many came before this one, or `None` if too few came.
    pub fn meet(&self) -> Option<u64> {
        let turn = self.come.fetch_add(1, Ordering::SeqCst);
        for _ in 0..LOOKS {
            let come = self.come.load(Ordering::SeqCst);
            if come >= GIVEN_UP {
                return None;
            }
            if come >= THREADS {
                return Some(turn);
            }
            thread::yield_now();
        }
        self.come.fetch_add(GIVEN_UP, Ordering::SeqCst);
        None
    }

    /// Notes that something was wrong if this does not hold.
    pub fn expect(&self, holds: bool) {
        if !holds {
            self.wrong.fetch_add(1, Ordering::SeqCst);
        }
    }

    /// The result of a part: `Threads` if too few threads came; this fault if anything was wrong, or if other numbers
    /// came out than went in.
    pub fn verdict(&self, count: u64, fault: Fault) -> Result<(), Fault> {
        if self.come.load(Ordering::SeqCst) >= GIVEN_UP {
            return Err(Fault::Threads);
        }
        let went_in = self.went_in.seen();
        let are_right = self.wrong.load(Ordering::SeqCst) == 0
            && went_in.count == count
            && went_in == self.came_out.seen();
        if are_right { Ok(()) } else { Err(fault) }
    }
}
