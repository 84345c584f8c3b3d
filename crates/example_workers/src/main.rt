//! A pool of workers that share a queue of jobs: a program to copy.
//!
//! The calling thread puts jobs into a `fak_queue::Queue`, then one `Stop` for each worker, and shuts the queue. Each
//! worker takes jobs in a thread of its own until it gets a `Stop`. Then the seats are joined and the queue is closed.
//! Proved: the pool's result is that of one thread (`leap_years`).
#![tactic(auto)]

mod calls;
mod fault;
mod pool;
mod work;

pub use fault::Fault;
pub use pool::leap_years;
use std::io;
pub use work::Work;

fn main(rt: HostRuntime) -> io::Result<()> {
    let mut years = Vec::new(rt.alloc());
    for year in 1901..2026u64 {
        years.push(year)?;
    }
    for workers in 1..5u64 {
        match leap_years(&rt, rt.alloc(), years.as_slice(), workers) {
            Ok(count) => println!(rt; "workers {workers}: {count} leap years")?,
            Err(fault) => println!(rt; "workers {workers}: {fault:?}")?,
        }
    }
    Ok(())
}
