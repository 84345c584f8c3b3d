//! The commands of the program `fak`, for any program: from words to a command, and from the bytes of an input to those of its answer.
#![tactic(auto)]

mod command;
pub mod laws;
mod program;
mod run_command;
mod service;

pub use command::command_of;
pub use fak_replay::{Answer, Command, MainFault, check, replay};
pub use program::{conclude, run_words};
pub use run_command::run_script;
pub use service::serve;
