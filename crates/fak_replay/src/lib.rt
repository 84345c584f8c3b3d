//! The commands that call no shared object, from bytes to bytes: `replay` takes the atomic steps of a schedule, and `check` judges a
//! recorded history. The answer of a command, and the faults in place of an answer, are declared here for all of them.
#![tactic(auto)]

pub mod answer;
pub mod check_command;
pub mod command;
mod events;
pub mod fault;
mod machine;
pub mod replay_command;
mod row;
mod trace;

pub use answer::Answer;
pub use check_command::check;
pub use command::Command;
pub use fault::MainFault;
pub use replay_command::replay;
