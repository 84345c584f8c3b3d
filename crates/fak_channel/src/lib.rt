#![tactic(auto)]
//! A bounded first-in-first-out channel whose threads sleep while they wait. Its items are in a queue, whose table has a bit
//! for each end that sleeps. An end that makes room or an item looks for a set bit, and clears it, which wakes its end.
//!
//! - `Channel::<T>::open(alloc, size, ends, stint)` returns the channel and a seat for each of its ends. `channel.ends(alloc,
//!   seats)` returns the ends, and `End::new(&channel, seat)` one of them. The calls of an end have no preconditions.
//! - `send` and `receive` sleep while the channel is full or empty; `send_deadline` and `receive_deadline` until a time
//!   at most; `try_send` and `try_receive` do not sleep.
//! - `close` refuses later sends. Receivers get what is left, and then `Closed`.
//! - `len`, `is_empty` and `is_closed` look, and change nothing.
//! - All these calls are one loop over `Channel::step`, which takes one step and never waits. Callers that may not sleep here
//!   use it too: `begin_send`, `step`, `steps`, `give_up` and their like.
//! - `Lender` lends ends to threads that have none. Its tries do not sleep for an end.
//! - `End::into_seat`, then `Channel::tally`, `join` and `into_rest`, return what is left once all seats are back.
//! - To cite: `Sends`, `Receives`, `IsOver`, `ClosesAs` and similar (`specs/Channels.antt`), and `Moves`, which says what each
//!   step does (`specs/Moves.antt`).
//!
//! `docs/GUIDE.md` is the guide for callers, and `crates/example_channel` is an example program.

mod beginning;
mod calling;
mod channel;
mod claiming;
mod dealing;
mod end;
mod fault;
mod joining;
pub mod laws;
mod lender;
mod lender_fault;
mod napping;
mod observing;
mod opening;
mod parker;
mod paying;
mod progress;
mod running;
mod searching;
mod seat;
mod shelves;
mod standing;
mod stepping;
mod undealt;

pub use channel::Channel;
pub use end::End;
pub use fak_queue::{LARGE_SEATS, LARGE_SIZE, LARGE_TICKETS, LargeFault, Rest, Tally};
pub use fault::{ChannelWorn, ReceiveFault, SendFault};
pub use lender::Lender;
pub use lender_fault::{LenderReceiveFault, LenderSendFault};
pub use seat::{ChannelSeat, ChannelStepSeat};
pub use shelves::Loan;
pub use standing::{ChannelState, ChannelStep, Outcome, Wish};
pub use stepping::STEPS_AT_ONCE;
pub use undealt::UndealtSeats;
