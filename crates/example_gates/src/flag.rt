//! A flag between processors.

use std::hint::spin_loop;
use std::sync::atomic::{AtomicBool, Ordering};

/// A flag that one processor sets and another waits for, this many turns at most.
#[derive(Drop)]
pub struct Flag {
    turns: u64,
    is_set: AtomicBool,
}

impl Flag {
    /// A flag that is not set.
    pub fn new(turns: u64) -> Flag {
        Flag {
            turns,
            is_set: AtomicBool::new(false),
        }
    }

    /// Sets it, for as long as it lives.
    pub fn set(&self) {
        self.is_set.store(true, Ordering::SeqCst);
    }

    /// Waits until it is set; false if it was not.
    pub fn wait(&self) -> bool {
        for _ in 0..self.turns {
            if self.is_set.load(Ordering::SeqCst) {
                return true;
            }
            spin_loop();
        }
        false
    }
}
