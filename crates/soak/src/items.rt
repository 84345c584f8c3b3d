//! The numbers that go through queues and semaphores, and their order.

use crate::crew::Seen;

/// The numbers of one thread are below this, and those of the next thread begin with it.
const LANE: u64 = 1 << 40;

/// There are fewer threads than this that put numbers in.
const LANES: usize = 4;

/// The number that the thread of this lane puts in after this many others.
pub fn item_of(lane: u64, number: u64) -> u64 {
    lane.wrapping_mul(LANE).wrapping_add(number)
}

/// The numbers that came to one thread, and whether those of each lane came in rising order.
#[derive(Drop)]
pub struct Arrivals {
    pub seen: Seen,
    pub are_in_order: bool,
    next: [u64; LANES],
}

impl Arrivals {
    /// No number has come yet.
    pub fn new() -> Arrivals {
        Arrivals {
            seen: Seen::NONE,
            are_in_order: true,
            next: [0; LANES],
        }
    }

    /// Adds one more number that has come.
    pub fn add(&mut self, item: u64) {
        self.seen = self.seen.with(item);
        let lane = (item / LANE) as usize;
        if lane >= LANES || item < self.next[lane] {
            self.are_in_order = false;
            return;
        }
        self.next[lane] = item.wrapping_add(1);
    }
}
