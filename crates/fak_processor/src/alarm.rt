//! How processors learn that another one met a fault.

ghost use Rattle.std.specs.Prelude.{◌≡◌, ◌<◌, true};

use std::fmt;
use std::marker::Model;
use std::sync::atomic::{AtomicBool, Ordering};

/// A word that a processor sets if it meets a fault, and that the others read. Contracts see only the number of
/// processors.
#[derive(Drop)]
pub struct Alarm {
    processors: u64,
    rung: AtomicBool,
}

impl Model for Alarm {
    ghost use Rattle.std.specs.Prelude.{ℕ};

    ghost Value = { ℕ };

    ghost view = { λ a. a.processors };
}

impl Alarm {
    /// An alarm for this many processors, not rung yet.
    pub fn new(processors: u64) -> Alarm
        ensures { result ≡ processors }
    {
        Alarm {
            processors,
            rung: AtomicBool::new(false),
        }
    }

    /// Tells the other processors that one has met a fault. They would loop forever otherwise: a process that the fault
    /// stopped stays counted as busy. So this step comes before the threads are joined.
    pub fn ring(&self) {
        self.rung.store(true, Ordering::SeqCst);
    }

    /// Whether another processor has met a fault; false if there is only one processor. A processor reads the word before
    /// each look at the ready queue, so it finishes the turn that it has begun.
    pub fn is_rung(&self) -> bool
        ensures { result ≡ true → 1 < self.now }
    {
        self.processors > 1 && self.rung.load(Ordering::SeqCst)
    }
}

impl fmt::Debug for Alarm {
    fn fmt<W: fmt::Write>(&self, f: &mut fmt::Formatter<W>) -> fmt::Result {
        f.debug_struct("Alarm")
            .field("processors", &self.processors)
            .field("rung", &self.rung.load(Ordering::SeqCst))
            .finish()
    }
}
