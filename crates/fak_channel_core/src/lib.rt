//! The algorithm of a channel whose threads sleep, over plain data, one atomic step at a time.
#![tactic(auto)]

pub mod callers;
pub mod laws;
