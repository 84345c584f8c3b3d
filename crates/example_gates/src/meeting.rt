//! A gate at which two processors meet.

use crate::flag::Flag;
use fak_kernel::Gate;

/// Holds the first pass of each of two processors until the other one comes to its own.
#[derive(Drop)]
pub struct Meeting {
    first: Flag,
    second: Flag,
}

impl Meeting {
    /// A gate at which each of the two waits this many turns at most.
    pub fn new(turns: u64) -> Meeting {
        Meeting {
            first: Flag::new(turns),
            second: Flag::new(turns),
        }
    }
}

impl Gate for Meeting {
    fn may_refuse(&self) -> bool {
        true
    }

    fn pass(&self, processor: u64, step: u64) -> bool {
        if step > 0 {
            return true;
        }
        if processor == 0 {
            self.first.set();
            return self.second.wait();
        }
        self.second.set();
        self.first.wait()
    }
}
