//! What the processors of a run share, how it is opened and its seats dealt, and what each processor does, step by step.
#![tactic(auto)]

mod alarm;
mod fault;
mod objects;
mod plan;
mod processor;
mod seats;
mod station;
mod undealt;
mod worker;

pub use alarm::Alarm;
pub use fault::{LoopFault, StepFault};
pub use objects::Objects;
pub use plan::{Opened, Plan};
pub use processor::Processor;
pub use seats::Seats;
pub use seats::files::Files;
