//! A gate that holds a processor until another one is far.

use crate::flag::Flag;
use fak_kernel::Gate;

/// Holds the first pass of one of two processors until the other one comes to its pass with step 7, and refuses its second.
#[derive(Drop)]
pub struct Holding {
    held: u64,
    is_far: Flag,
}

impl Holding {
    /// A gate that holds the processor of number `held`, for this many turns at most.
    pub fn new(held: u64, turns: u64) -> Holding {
        Holding {
            held,
            is_far: Flag::new(turns),
        }
    }
}

impl Gate for Holding {
    fn may_refuse(&self) -> bool {
        true
    }

    fn pass(&self, processor: u64, step: u64) -> bool {
        if processor == self.held {
            return step == 0 && self.is_far.wait();
        }
        if step == 7 {
            self.is_far.set();
        }
        true
    }
}
