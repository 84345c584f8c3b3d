//! Credits: counts that debits lower and credits raise.

mod credit;
mod limits;
mod plays;
mod port;
mod rule;
mod seat;
mod steps;
mod tally;

pub use credit::Credit;
pub use port::CreditPort;
pub use seat::CreditSeat;
pub use tally::CreditTally;
