//! The laws of the core, for every schedule. Each law is the contract of a function with an empty body; it states
//! something of the definitions only, not of running code.

pub mod sleeper_examples;
pub mod sleepers;
