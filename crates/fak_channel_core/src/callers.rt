//! Callers of the laws: each cites one law and concludes something in other words.

pub mod sleepers;
