//! Measures the queue, the semaphore, the file table and the channel from Rust, next to what the toolchain has.
//!
//! Without words it runs each case once for a short time, and prints that what went in came out once. With `--figures` it prints,
//! for each case, the best, the median and the worst of several rounds, in nanoseconds for an item or a call. With `--tails` it
//! prints percentiles of the times of single calls. A run's times count only if the run's numbers come out right
//! (`nanos_of`).
#![tactic(auto)]

mod attempts;
mod case;
mod channel_handle;
mod channels;
mod command;
mod entry_handle;
mod fault;
mod handover;
mod item;
mod passing;
mod queue_handle;
mod queues;
mod report;
mod run;
mod semaphore_handle;
mod spread;
mod table;
mod tail;
mod tail_case;
mod tail_table;
mod timing;
mod visits;

pub use case::Plan;
pub use command::plan_of;
pub use fault::Fault;
pub use report::{measure, try_each};
use std::process::ExitCode;

fn main(rt: HostRuntime) -> ExitCode {
    command::run_process(&rt, &mut rt.stderr())
}
