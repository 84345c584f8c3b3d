//! Bundles of seats of queues.

mod calls;
pub mod codes;
mod copying;
pub mod opening;
pub mod seat;
