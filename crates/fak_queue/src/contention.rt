//! How a seat leaves its queue to others for a while.
//!
//! Two seats that call by turns fetch each cache line from one another in each call. So a seat soon pauses by `Backoff` if a
//! test shows that others have changed its count since the seat's last call. It pauses before an `insert`, a
//! `delete` or a burst, or when `Queue::pause` is called. Meanwhile another seat keeps each line in its own cache.
//!
//! A pause takes about as long as a hundred calls, and on average a seat pauses at most once for 100 tickets. So 99 of 100
//! calls for one item are as fast as without pauses, and faster while others pause. A claim never pauses.

use crossbeam_utils::Backoff;

/// A seat draws this many tickets for each of its pauses: a little more than 100. So one call in 100 pauses at most, if each is
/// for one item.
const TICKETS_FOR_A_PAUSE: u64 = 112;

/// A seat saves tickets for this many pauses at most. If many seats meet at once, they need a few pauses in a row until only
/// one of them goes on.
const MOST_SAVED_PAUSES: u64 = 4;

/// A seat draws at least this many tickets between two pauses. So if two seats meet, the one that has just paused goes on.
const FEWEST_TICKETS_BETWEEN: u64 = 16;

/// With fewer cells no seat pauses: the queue is full or empty before a pause is worth its time.
const FEWEST_CELLS: u64 = 64;

/// A pause in a queue of more cells is no longer than in one of this many.
const MOST_CELLS: u64 = 1024;

/// How often a pause spins for each cell.
const SPINS_FOR_A_CELL: u64 = 6;

/// In its longest rounds `Backoff` spins this many times.
const LONGEST_ROUND: u64 = 64;

/// The number of the first rounds of `Backoff`, which are shorter.
const SHORT_ROUNDS: u64 = 6;

/// What a seat knows of the counts of its queue, which others change too.
#[derive(Drop)]
pub(crate) struct SharedCounts {
    /// The word of the upper count as the seat left it.
    upper: u64,
    /// The word of the lower count as the seat left it.
    lower: u64,
    /// Whether others have changed a count, as a test has found since this flag was last cleared.
    is_contended: bool,
    /// Whether insertions and deletions pause by themselves.
    pub(crate) pauses_in_calls: bool,
    /// The tickets that were left at the last pause; at first the stint.
    left_then: u64,
    /// The tickets that were still saved for pauses after that pause.
    saved_then: u64,
}

impl SharedCounts {
    /// The counts before the first test of a seat that may draw this many tickets.
    pub(crate) fn new(stint: u64) -> SharedCounts {
        SharedCounts {
            upper: 0,
            lower: 0,
            is_contended: false,
            pauses_in_calls: true,
            left_then: stint,
            saved_then: 0,
        }
    }

    /// A test of the upper count has found this word. Nothing is written if it is the expected one, since an atomic step
    /// waits for the writes before it.
    pub(crate) fn found_upper(&mut self, found: u64) {
        if found != self.upper {
            self.is_contended = true;
            self.upper = found;
        }
    }

    /// A test of the lower count has found this word.
    pub(crate) fn found_lower(&mut self, found: u64) {
        if found != self.lower {
            self.is_contended = true;
            self.lower = found;
        }
    }

    /// The seat inserts an item, which adds 1 to both counts.
    pub(crate) fn expect_insertion(&mut self) {
        self.upper = self.upper.wrapping_add(1);
        self.lower = self.lower.wrapping_add(1);
    }

    /// The seats of a bundle insert this many items.
    pub(crate) fn expect_insertions(&mut self, count: u64) {
        self.upper = self.upper.wrapping_add(count);
        self.lower = self.lower.wrapping_add(count);
    }

    /// The seats of a bundle delete this many items.
    pub(crate) fn expect_deletions(&mut self, count: u64) {
        self.upper = self.upper.wrapping_sub(count);
        self.lower = self.lower.wrapping_sub(count);
    }

    /// The seat deletes an item, which subtracts 1 from both counts.
    pub(crate) fn expect_deletion(&mut self) {
        self.upper = self.upper.wrapping_sub(1);
        self.lower = self.lower.wrapping_sub(1);
    }

    /// Pauses in a call, if the seat's calls pause by themselves.
    pub(crate) fn pause_in_call(&mut self, size: u64, left: u64) {
        if self.pauses_in_calls {
            self.pause_if_contended(size, left);
        }
    }

    /// Pauses if others changed a count, the queue has cells enough, and the seat has drawn and saved tickets enough.
    pub(crate) fn pause_if_contended(&mut self, size: u64, left: u64) {
        if !self.is_contended {
            return;
        }
        self.is_contended = false;
        let drawn = self.left_then.wrapping_sub(left);
        let saved = self
            .saved_then
            .saturating_add(drawn)
            .min(MOST_SAVED_PAUSES * TICKETS_FOR_A_PAUSE);
        if size < FEWEST_CELLS || drawn < FEWEST_TICKETS_BETWEEN || saved < TICKETS_FOR_A_PAUSE {
            return;
        }
        self.left_then = left;
        self.saved_then = saved - TICKETS_FOR_A_PAUSE;
        pause(size);
    }
}

/// Spins a few times for each cell, by rounds of `Backoff`.
fn pause(size: u64) {
    let backoff = Backoff::new();
    for _ in 0..size.min(MOST_CELLS) * SPINS_FOR_A_CELL / LONGEST_ROUND + SHORT_ROUNDS {
        backoff.spin();
    }
}
