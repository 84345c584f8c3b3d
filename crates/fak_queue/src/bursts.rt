//! Bursts: several insertions, or several deletions, by one claim of a bundle of seats.
//!
//! Each atomic operation of a burst is a block of single steps, one of each name that takes part, in a row. So a run with bursts is
//! a run of single calls, in which each name makes its own.

pub(crate) mod admission;
pub(crate) mod admission_out;
pub(crate) mod claimants;
pub(crate) mod deletion;
pub(crate) mod emptying;
pub(crate) mod filling;
pub(crate) mod first_items;
pub(crate) mod insertion;
pub(crate) mod keeping;
pub(crate) mod plays;
pub(crate) mod progress;
pub(crate) mod turns;
pub(crate) mod waiting;
