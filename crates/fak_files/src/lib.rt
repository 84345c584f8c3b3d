#![tactic(auto)]
//! A file table of a few entries that seats share as readers and writers, by one count and fetch-and-add with a test
//! and a retest (A. Gottlieb, B. D. Lubachevsky and L. Rudolph, ACM TOPLAS 5(2), 1983). A reader lowers the count by 1,
//! a writer by the number of seats, so no other seat holds while a writer does. Each call occurs once in one history.
//!
//! - `FileTable::open(alloc, entries, seats, stint)` returns the table and its seats. `open_large` opens a table with
//!   more seats.
//! - `try_read` and `try_write` take a hold or are refused; `read` and `write` wait for it. `end` gives it back.
//! - During a hold `get` reads an entry; during a writer's hold `set` sets a field. A hold reads one version.
//! - `FileTally::of`, `join` and `close` bring the seats back together. `close` returns the last fields as a `FileRest`.
//! - `FilePort::new(&table, seat)` is the table with a seat as one value, whose calls require nothing.
//! - Callers without a port must prove that a seat belongs to this table (`IsFileSeatOf`), and that it holds nothing,
//!   something, or as a writer.
//! - To cite: `IsGranted`, `IsGot`, `IsSet`, `IsEnded` (`specs/Calls.antt`), and the laws, such as `a_writer_is_alone`.
//!
//! `docs/GUIDE.md` is the guide for callers.

mod admission;
mod ending;
mod fault;
pub mod laws;
mod limits;
mod opening;
mod phase;
mod plays;
mod port;
mod rest;
mod rule;
mod seat;
mod steps;
mod table;
mod tally;
mod words;

pub use fak_model::{
    FileEntry, FileField, LARGE_SEATS, LARGE_TICKETS, LONGEST_STINT, LargeFault, MOST_SEATS,
};
pub use fault::{FileFault, HoldFault, OpenFault, WaitFault, Worn};
pub use phase::Hold;
pub use port::FilePort;
pub use rest::FileRest;
pub use seat::FileSeat;
pub use table::FileTable;
pub use tally::FileTally;
