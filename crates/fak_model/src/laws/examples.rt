//! Examples on both sides of each part of what makes a history lawful: after some marks one mark may come, and another
//! may not, because exactly that part forbids it. A credit has no such examples: every list of its marks is lawful. One
//! more example shows which names are distinct.

pub mod file;
pub mod queue;
pub mod room;
pub mod seats;
