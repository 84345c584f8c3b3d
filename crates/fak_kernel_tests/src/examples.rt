//! Scripts that more than one test runs, and checks of their runs.

use fak_kernel::{
    Fault, FreeGate, Gate, Printed, Report, report_text, run, run_one, run_one_to_text, run_to_text,
};
use fak_text::{Script, read_script};
use std::alloc::Global;
use std::fmt::Debug;
use std::marker::Sync;
use std::process::Abort;
use std::sync::Wait;
use std::thread::Threads;

/// Two opens of one file, a close, and a child.
pub const READER: &str =
    r#"{"version":1,"slots":2,"births":1,"quantum":4,"semaphores":[0],"files":1,
"programs":[[["open",7],["open",7],["close",7],["stat",7],["spawn",1]],[["say","hi"]]],"start":[0]}"#;

/// Its report.
pub const READER_REPORT: &str = "process 0 program 0 slot 0 ended
  open 7 entry 0
  open 7 entry 0
  close 7 entry 0
  stat 7 uses 1
  spawn 0.0
process 0.0 program 1 slot 1 ended
  say hi
file 0 inode 7 uses 1
births 1 of 1
ended 2 stuck 0
";

/// Two processes that wake each other.
pub const PING_PONG: &str =
    r#"{"version":1,"slots":2,"births":0,"quantum":1,"semaphores":[0,0],"files":1,
"programs":[[["say","ping"],["up",1],["down",0]],[["down",1],["say","pong"],["up",0]]],
"start":[0,1]}"#;

/// Their report.
pub const PING_PONG_REPORT: &str = "process 0 program 0 slot 0 ended
  say ping
  up 1
  down 0
process 1 program 1 slot 1 ended
  down 1
  say pong
  up 0
births 0 of 0
ended 2 stuck 0
";

/// A run in which the ready queue is shut.
pub const CURFEW: &str =
    r#"{"version":2,"slots":3,"births":0,"quantum":2,"semaphores":[0],"files":1,
"programs":[[["shutdown"],["say","last"],["say","never"]],[["say","a"],["say","b"]],[["down",0]]],
"start":[0,1,2]}"#;

/// Stops the test if this is not so, and says what was found instead, and with which numbers.
pub fn assert_with<T: Debug + Drop>(
    rt: &impl Abort,
    is_so: bool,
    what: &str,
    found: T,
    number: u64,
    processors: u64,
) {
    assert!(rt; is_so, "{found:?}, {number}, {processors}: {what}");
}

/// Adds each part as often as its number says.
pub fn add_parts(rt: &impl Abort, text: &mut String, parts: &[(u64, &str)]) {
    for &(times, part) in parts {
        for _ in 0..times {
            text.push_str(part).expect(rt, "a script");
        }
    }
}

/// The script of these parts.
pub fn script_in_parts(rt: &impl Abort, alloc: Global, parts: &[(u64, &str)]) -> Script {
    let mut text = String::new(alloc);
    add_parts(rt, &mut text, parts);
    script_of(rt, alloc, &text)
}

pub fn script_of(rt: &impl Abort, alloc: Global, text: &str) -> Script {
    read_script(alloc, text.as_bytes()).expect(rt, text)
}

/// The report of a script on one processor.
pub fn report_of<R: Abort + Wait>(rt: &R, alloc: Global, script: &str) -> Report {
    let script = script_of(rt, alloc, script);
    run_one(rt, alloc, &script).expect(rt, "a report")
}

/// The report of a script on this number of processors, without threads if it is 0.
pub fn run_on<R: Abort + Threads + Wait + Sync>(
    rt: &R,
    alloc: Global,
    script: &Script,
    processors: u64,
) -> Result<Report, Fault> {
    match processors {
        0 => run_one(rt, alloc, script),
        _ => run(rt, alloc, script, processors, &FreeGate),
    }
}

/// What such a run prints that returns only the text.
pub fn run_on_to_text<R: Abort + Threads + Wait + Sync>(
    rt: &R,
    alloc: Global,
    script: &Script,
    processors: u64,
) -> Result<Printed, Fault> {
    match processors {
        0 => run_one_to_text(rt, alloc, script),
        _ => run_to_text(rt, alloc, script, processors, &FreeGate),
    }
}

/// The fault of a run with this gate.
pub fn fault_of<R: Abort + Threads + Wait + Sync, G: Gate + Sync>(
    rt: &R,
    alloc: Global,
    script: &str,
    processors: u64,
    gate: &G,
) -> Option<Fault> {
    let script = script_of(rt, alloc, script);
    fault_with(rt, alloc, &script, processors, gate)
}

/// The same of a script that is read already.
pub fn fault_with<R: Abort + Threads + Wait + Sync, G: Gate + Sync>(
    rt: &R,
    alloc: Global,
    script: &Script,
    processors: u64,
    gate: &G,
) -> Option<Fault> {
    run(rt, alloc, script, processors, gate).err()
}

/// Checks that the run ended with this fault, and that no processor was left behind.
pub fn is_left(
    rt: &impl Abort,
    found: Option<Fault>,
    wanted: Fault,
    is_left_behind: bool,
    chosen: u64,
    processors: u64,
) {
    let what = if is_left_behind {
        "one left behind"
    } else {
        "the fault"
    };
    let is_so = found == Some(wanted) && !is_left_behind;
    assert_with(rt, is_so, what, found, chosen, processors);
}

/// Checks that this is the text of a report.
pub fn has_text(rt: &impl Abort, alloc: Global, report: &Report, processors: u64, text: &str) {
    let written = report_text(alloc, report).expect(rt, "a text");
    let is_same = written.as_slice() == text.as_bytes();
    assert_with(rt, is_same, text, "another text", 0, processors);
}

/// Checks that this text was printed, with this exit status.
pub fn is_printed(
    rt: &impl Abort,
    printed: Result<Printed, Fault>,
    processors: u64,
    text: &str,
    status: u8,
) {
    let printed = printed.expect(rt, text);
    let is_same = printed.text.as_slice() == text.as_bytes() && printed.status == status;
    assert_with(rt, is_same, text, printed.status, status as u64, processors);
}
