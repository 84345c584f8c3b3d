#![tactic(auto)]
//! Counts that threads share, by fetch-and-add: rooms and credits. Claims raise a room up to a bound by test, increment
//! and retest (A. Gottlieb, B. D. Lubachevsky and L. Rudolph, ACM TOPLAS 5(2), 1983). Debits and credits move a credit
//! by 1 with no test.
//!
//! - `Room::open(alloc, bound, seats, stint)` and `Credit::open(alloc, start, seats, stint)` return the count and its
//!   seats. `open_large` of each opens a count with more seats.
//! - `Room::tir(&mut seat, d)` claims `d`, 1 to 1,024, or is refused with the value that it found; `release` gives back.
//! - `Credit::debit` and `credit` return the value before; `Credit::value` loads it.
//! - No call waits. `RoomTally` and `CreditTally` bring seats back together; the value of a room at rest is what its seats hold.
//! - `RoomPort::new(&room, seat)` and `CreditPort::new` are the count with a seat as one value, whose calls require nothing.
//! - Callers without a port must prove that a seat belongs to this count (`IsSeatOf`), and that no more is released
//!   than is held.
//! - To cite: `IsGranted`, `IsRefused`, `MakesCall` (`specs/Rooms.antt`, `specs/Credits.antt`), and the laws of
//!   `fak_model::laws::room` and `credit`.
//!
//! `docs/GUIDE.md` is the guide for callers.

mod credits;
mod fault;
mod opening;
mod rooms;
mod words;

pub use credits::{Credit, CreditPort, CreditSeat, CreditTally};
pub use fak_model::{
    LARGE_SEATS, LARGE_TICKETS, LARGEST_BOUND, LONGEST_STINT, LargeFault, MOST_SEATS,
};
pub use fault::{ClaimFault, OpenFault, TirFault, Worn};
pub use rooms::{Room, RoomPort, RoomSeat, RoomTally};
