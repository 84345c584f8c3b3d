//! Performs calls that wait, tries and steps on small shared objects, by four threads at once, and checks that all results
//! are right.
//!
//! A part is one object with its threads. Each number that goes into a queue, a channel or a semaphore comes out once, and
//! those of one thread come out in their order, by bursts too. No room lets in more than its bound, a credit ends at its sum, and nobody
//! sees half of a write to a file table. Each dropped item is dropped exactly once.
//!
//! Without words each part is short. With `--millions N` a part performs up to N million calls, and prints a line.
#![tactic(auto)]

mod burst_forms;
mod bursts;
mod channels;
mod command;
mod counts;
mod crew;
mod fault;
mod files;
mod forms;
mod items;
mod parts;
mod ports;
mod queues;
mod seats;
mod semaphores;
mod shuts;
mod stepwise;

pub use fault::Fault;
pub use parts::run_parts;
use std::process::ExitCode;

fn main(rt: HostRuntime) -> ExitCode {
    command::run_process(&rt, &mut rt.stderr())
}
