#![tactic(auto)]
//! A bounded first-in-first-out queue that processors share without a lock, by fetch-and-add, after A. Gottlieb, B. D.
//! Lubachevsky and L. Rudolph (ACM TOPLAS 5(2), 1983). Its cells own moved values.
//!
//! - `Queue::<T>::open(alloc, size, seats, stint)` returns the queue and all its seats. A thread calls with a seat of its own.
//!   `open_large` opens a queue of more cells and seats.
//! - `Port::new(&queue, seat)` is a queue and its seat as one value, whose calls have no condition. Begin with it.
//! - `insert` and `delete` make one attempt; `wait_insert` and `wait_delete` wait while the queue is full or empty;
//!   `claim_insert` with `try_fill`, and `claim_delete` with `try_take`, never wait.
//! - `Bundle::of(alloc, &queue, seats)` is several seats that call together: `insert_burst` and `delete_burst` claim for several
//!   items at once, and have forms that wait, and forms that never do.
//! - `shut` refuses later insertions; deletions go on. `cells_in_use`, `items_ready` and `is_drained` observe the counts.
//! - `Queue::open_sleepers` opens a queue whose seats can sleep: a `SleeperSeat` also has the steps of a channel's end on the bits of
//!   sleepers in the queue's table.
//! - `Tally::of(seat)` and `Queue::join` bring the seats back together; with all of them `Queue::close` returns a `Rest`, what is left.
//! - Callers owe that a seat belongs to this queue and is idle: `IsIdleSeat queue.now.object seat`.
//! - To cite: `Inserts`, `Deletes` and their like (`specs/Queues.antt`, `specs/Retries.antt`), and the laws of `fak_model::laws`.
//!
//! `docs/GUIDE.md` is the guide for callers; `crates/example_workers` and `crates/example_frames` are programs to copy.

mod admission;
mod bundle;
mod bundle_deletions;
mod bundle_insertions;
mod bundling;
mod burst;
mod bursts;
mod cells;
mod contention;
mod fault;
mod found;
mod in_use;
pub mod laws;
mod limits;
mod observing;
mod opening;
mod parts;
mod parts_calls;
mod phases;
mod plays;
mod port;
mod queue;
mod rest;
mod resting;
mod role;
mod rule;
mod seat;
mod sleeper_calls;
mod sleeper_seat;
mod sleeper_steps;
mod state;
mod steps;
mod tally;
mod ticket_cell;
mod turns;
mod undealt;
mod words;

pub use bundle::{Bundle, BundleState};
pub use burst::Burst;
pub use fak_model::{
    LARGE_SEATS, LARGE_SIZE, LARGE_TICKETS, LARGEST_SIZE, LONGEST_STINT, LargeFault, MOST_SEATS,
};
pub use fault::{BundleFault, BurstFault, DeleteFault, InsertFault, OpenFault};
pub use found::NoRoom;
pub use in_use::InUse;
pub use port::Port;
pub use queue::Queue;
pub use rest::Rest;
pub use role::Role;
pub use seat::Seat;
pub use sleeper_seat::SleeperSeat;
pub use state::SeatState;
pub use tally::Tally;
pub use undealt::UndealtSeats;
