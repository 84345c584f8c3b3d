//! The semaphores that are measured, each as one thread has it: ups, and downs that wait.

ghost use Rattle.std.specs.Prelude.{◌≡◌};

use fak_sem::{SemSeat, Semaphore};
use std::sync::{Condvar, Mutex, Wait};
use std::thread::Parker;

/// A counting semaphore in the hands of one thread.
pub trait SemaphoreHandle: Drop {
    /// Adds 1, and wakes a thread that waits. Returns whether it did.
    fn up<R: Wait>(&mut self, rt: &R) -> bool;

    /// Subtracts 1, and waits until there is 1. Returns whether it did.
    fn down<R: Wait>(&mut self, rt: &R) -> bool;
}

/// A seat of this repository's semaphore, of which one thread waits. What is parked there represents that thread, and the thread that wakes
/// it rings the bell.
#[derive(Drop)]
pub struct SeatSemaphore<'s> {
    pub semaphore: &'s Semaphore<()>,
    pub bell: &'s Parker,
    pub seat: SemSeat<()>,
    ghost same: { seat.object ≡ semaphore.now.object },
}

impl<'s> SemaphoreHandle for SeatSemaphore<'s> {
    fn up<R: Wait>(&mut self, rt: &R) -> bool {
        match self.semaphore.up(rt, &mut self.seat) {
            Ok(Some(())) => {
                self.bell.unpark();
                true
            }
            Ok(None) => true,
            Err(_) => false,
        }
    }

    fn down<R: Wait>(&mut self, rt: &R) -> bool {
        match self.semaphore.down(rt, &mut self.seat, ()) {
            Ok(Some(())) => true,
            Ok(None) => {
                self.bell.park(rt);
                true
            }
            Err(_) => false,
        }
    }
}

/// A count under a lock, and those that wait for it to rise.
#[derive(Clone, Copy, Drop)]
pub struct LockedSemaphore<'s> {
    pub count: &'s Mutex<u64>,
    pub risen: &'s Condvar,
}

impl<'s> SemaphoreHandle for LockedSemaphore<'s> {
    fn up<R: Wait>(&mut self, rt: &R) -> bool {
        let mut count = self.count.lock(rt);
        let Some(more) = count.checked_add(1) else {
            return false;
        };
        *count = more;
        drop(count);
        self.risen.notify_one();
        true
    }

    fn down<R: Wait>(&mut self, rt: &R) -> bool {
        let mut count = self
            .risen
            .wait_while(rt, self.count.lock(rt), |count| *count == 0);
        *count -= 1;
        true
    }
}
