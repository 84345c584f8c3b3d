//! Ends of channels, and which of them are lent.

mod calls;
pub mod codes;
pub mod lending;
pub mod opening;
pub mod seat;
