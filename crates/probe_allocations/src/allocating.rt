//! Calls that allocate. Each is made a second time if it is refused, and must then return what it returns with ample memory.

mod bundles;
mod channels;
mod commands;
mod cores;
mod inputs;
mod kernel_runs;
mod openings;
mod readers;
mod texts;

use std::marker::Sync;
use std::sync::Wait;
use std::thread::Threads;

/// Makes each call, and prints what it returns. False if a call was refused twice.
pub(crate) fn make_calls(rt: &(impl Print + Eprint + AllocGlobal + Threads + Wait + Sync)) -> bool {
    cores::step_room(rt)
        && cores::step_queue(rt)
        && openings::open_all(rt)
        && bundles::bundle_seats(rt)
        && channels::open_all(rt)
        && readers::read_all(rt)
        && texts::make_all(rt)
        && kernel_runs::run_on_one_processor(rt)
        && kernel_runs::run_idle_script(rt)
        && commands::run_idle_script(rt)
        && commands::do_all(rt)
}

/// Runs a script on two processors. It comes last: each processor allocates when it is its turn, and how often differs from run to
/// run.
pub(crate) fn run_on_two_processors(
    rt: &(impl Print + Eprint + AllocGlobal + Threads + Wait + Sync),
) -> bool {
    kernel_runs::run_on_two_processors(rt)
}
