//! Performs public calls, and prints what each returns, for two checks. `allocating` has the calls that allocate:
//! `tools/check/failed-growths` lets each of their allocations fail in turn. `allocation_free` has the others:
//! `tools/check/no-allocation` checks that they allocate nothing.
#![tactic(auto)]

mod allocating;
mod allocation_free;
mod printing;
mod retrying;

use std::process::ExitCode;

fn main(rt: HostRuntime) -> ExitCode {
    if allocating::make_calls(&rt)
        && allocation_free::make_calls(&rt)
        && allocating::run_on_two_processors(&rt)
    {
        return ExitCode::from(0);
    }
    ExitCode::from(3)
}
