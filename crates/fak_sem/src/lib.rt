#![tactic(auto)]
//! Counting semaphores whose waiting items are in a wait queue, by fetch-and-add, with the queue of A. Gottlieb, B. D.
//! Lubachevsky and L. Rudolph (ACM TOPLAS 5(2), 1983). A down subtracts 1; it passes if it found at least 1, otherwise
//! its item is parked. An up adds 1, and wakes one parked item if it found less than 0.
//!
//! - `Semaphore::<T>::open(alloc, start, size, seats, stint)` returns the semaphore and its seats; `size` is the wait queue's.
//! - `down(rt, &mut seat, item)` returns the item if it passes, and none if it was parked. No thread sleeps: the item
//!   is what waits, such as the context of a process.
//! - `up(rt, &mut seat)` returns the item that it woke, which the caller then goes on with.
//! - `StepSeat::of(seat)` has calls by steps, none of which waits: `claim_down` and `try_park`, `claim_up` and
//!   `try_wake`. `into_seat` returns the seat for calls that wait, if no call is open.
//! - `SemPort::new(&semaphore, seat)` and `StepPort::new` are the semaphore with a seat as one value, whose calls
//!   require nothing.
//! - `SemTally::of`, `join`, `close`: as for a queue; what is left is the items that nobody woke, oldest first.
//! - Callers without a port must prove that a seat belongs to this semaphore: `seat.old.object ≡ semaphore.now.object`.
//! - To cite: `Downs`, `Ups`, `CountsDown`, `CountsUp` (`specs/Semaphores.antt`), and `IsSettled` at the close. Between the
//!   steps of a call, `ParksSince` and `WakesSince` (`specs/Steps.antt`), which the last step turns into `Downs` or `Ups`.
//!
//! `docs/GUIDE.md` is the guide for callers.

mod claims;
mod fault;
pub mod laws;
mod opening;
mod port;
mod retries;
mod seat;
mod semaphore;
mod standing;
mod step_port;
mod step_seat;
mod steps;
mod tally;

pub use fak_count::Worn;
pub use fak_model::{
    LARGE_SEATS, LARGE_SIZE, LARGE_TICKETS, LARGEST_BOUND, LARGEST_SIZE, LONGEST_STINT, LargeFault,
    MOST_SEATS,
};
pub use fak_queue::Rest;
pub use fault::{DownFault, OpenFault, SemWorn, UpFault};
pub use port::SemPort;
pub use seat::SemSeat;
pub use semaphore::Semaphore;
pub use standing::StepState;
pub use step_port::StepPort;
pub use step_seat::StepSeat;
pub use tally::SemTally;
