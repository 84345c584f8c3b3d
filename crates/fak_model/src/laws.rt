//! The laws of lawful histories. Each law is the contract of a function with an empty body; it states something of the
//! definitions only, not of running code.

pub mod credit;
pub mod examples;
pub mod file;
pub mod queue;
pub mod room;
pub mod seats;
