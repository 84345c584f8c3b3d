//! The algorithms of rooms and bounded queues over plain data, one atomic step at a time.
#![tactic(auto)]

pub mod call;
pub mod fault;
pub mod laws;
pub mod line;
pub mod queue;
pub mod room;

pub use call::{QueueCall, RoomCall};
pub use fault::CoreFault;
pub use line::{CoreMove, Line, LineMark};
pub use queue::QueueCore;
pub use queue::phase::Phase;
pub use queue::step::{Found, QueueMove, Write};
pub use room::RoomCore;
