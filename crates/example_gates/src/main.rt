//! Gates as a caller of `fak_kernel` writes them, each by its two methods: one that has two processors meet, and one that
//! holds a processor until the other one is far. With each the run gives the same report.
#![tactic(auto)]

mod flag;
mod holding;
mod meeting;

use fak_kernel::{Fault, Gate, report_text, run};
use fak_text::{Script, read_script};
pub use flag::Flag;
pub use holding::Holding;
pub use meeting::Meeting;
use std::alloc::Global;
use std::io;
use std::io::Write;
use std::marker::Sync;
use std::sync::Wait;
use std::thread::Threads;

/// Two processes that wake each other.
const SCRIPT: &str = r#"{"version":1,"slots":2,"births":0,"quantum":1,"semaphores":[0,0],"files":1,
"programs":[[["say","ping"],["up",1],["down",0]],[["down",1],["say","pong"],["up",0]]],"start":[0,1]}"#;

/// The text of a run's report, or of its fault.
fn text_of<G: Gate + Sync>(
    rt: &(impl Threads + Wait + Sync),
    alloc: Global,
    script: &Script,
    processors: u64,
    gate: &G,
) -> Result<Vec<u8>, Fault> {
    let report = run::<G>(rt, alloc, script, processors, gate)?;
    report_text(alloc, &report)
}

/// Writes what a run gave.
fn print(rt: &HostRuntime, given: Result<Vec<u8>, Fault>) -> io::Result<()> {
    match given {
        Ok(text) => rt.stdout().write_all(text.as_slice()),
        Err(fault) => println!(rt; "{fault}"),
    }
}

fn main(rt: HostRuntime) -> io::Result<()> {
    let Ok(script) = read_script(rt.alloc(), SCRIPT.as_bytes()) else {
        return println!(rt; "no script");
    };
    print(
        &rt,
        text_of(&rt, rt.alloc(), &script, 2, &Meeting::new(100_000_000)),
    )?;
    print(
        &rt,
        text_of(&rt, rt.alloc(), &script, 2, &Holding::new(0, 100_000_000)),
    )?;
    print(
        &rt,
        text_of(&rt, rt.alloc(), &script, 2, &Holding::new(1, 100_000_000)),
    )?;
    print(
        &rt,
        text_of(&rt, rt.alloc(), &script, 1, &Meeting::new(1_000)),
    )?;
    print(
        &rt,
        text_of(&rt, rt.alloc(), &script, 9, &Meeting::new(1_000)),
    )
}
