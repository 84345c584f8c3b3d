//! What the library for C is made of: handles, each of which owns a seat of any kind with a share of its object. A handle lends its seat
//! to a call, whose result becomes a code. No call waits.
#![tactic(auto)]

pub mod bundle;
pub mod callers;
pub mod channel;
pub mod code;
pub mod credit;
pub mod desk;
pub mod files;
pub mod handle;
pub mod opening;
pub mod padded_handle;
mod parts;
pub mod queue;
pub mod room;
pub mod seat_kind;
pub mod semaphore;
