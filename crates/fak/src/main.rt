//! The program `fak`: replays schedules of atomic steps, judges recorded histories, and runs process scripts.
#![tactic(auto)]

mod process;

pub use fak_commands::{Answer, Command, MainFault, check, command_of, replay, run_script, serve};
use std::process::ExitCode;

fn main(rt: HostRuntime) -> ExitCode {
    process::run_process(&rt, &mut rt.stderr())
}
