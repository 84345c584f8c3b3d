//! Scripts whose reports are known.

use super::examples::{
    CURFEW, PING_PONG, PING_PONG_REPORT, READER, READER_REPORT, assert_with, has_text, is_printed,
    report_of, script_of,
};
use fak_kernel::{Outcome, ProcessRow, run_one_to_text};
use std::alloc::Global;
use std::process::Abort;
use std::sync::Wait;

/// Checks that the report of a script on one processor has this text and exit status.
fn is_reported<R: Abort + Wait>(rt: &R, alloc: Global, script: &str, text: &str, status: u8) {
    let report = report_of(rt, alloc, script);
    has_text(rt, alloc, &report, 0, text);
    let found = report.exit_status();
    assert_with(rt, found == status, text, found, status as u64, 0);
}

/// Checks the same of the report, and of what a run prints that returns only the text.
pub(super) fn answers<R: Abort + Wait>(
    rt: &R,
    alloc: Global,
    script: &str,
    text: &str,
    status: u8,
) {
    is_reported(rt, alloc, script, text, status);
    let script = script_of(rt, alloc, script);
    let printed = run_one_to_text(rt, alloc, &script);
    is_printed(rt, printed, 0, text, status);
}

const FAMILY: &str = r#"{"version":1,"slots":3,"births":2,"quantum":1,"semaphores":[0,0],"files":2,
"programs":[
[["say","ping"],["up",1],["down",0],["spawn",2],["spawn",2],["yield"],["spawn",2],["spawn",2]],
[["down",1],["say","pong"],["open",7],["up",0],["stat",7],["close",7]],
[["say","child"],["yield"]]],
"start":[0,1]}"#;

const FAMILY_REPORT: &str = "process 0 program 0 slot 0 ended
  say ping
  up 1
  down 0
  spawn 0.0
  spawn no-slot
  yield
  spawn 0.1
  spawn no-birth
process 0.0 program 2 slot 2 ended
  say child
  yield
process 0.1 program 2 slot 1 ended
  say child
  yield
process 1 program 1 slot 1 ended
  down 1
  say pong
  open 7 entry 0
  up 0
  stat 7 uses 1
  close 7 entry 0
births 2 of 2
ended 4 stuck 0
";

#[test]
fn every_step_of_version_1(rt: HostRuntime) {
    answers(&rt, rt.alloc(), FAMILY, FAMILY_REPORT, 0);
}

#[test]
fn two_processes_wake_each_other(rt: HostRuntime) {
    answers(&rt, rt.alloc(), PING_PONG, PING_PONG_REPORT, 0);
}

#[test]
fn a_process_that_nobody_wakes(rt: HostRuntime) {
    let script =
        r#"{"version":1,"slots":1,"births":0,"quantum":4,"semaphores":[0],"files":1,"programs":[[["say","a"],["down",0]]],"start":[0]}"#;
    let report = "process 0 program 0 slot 0 stuck
  say a
births 0 of 0
ended 0 stuck 1
";
    answers(&rt, rt.alloc(), script, report, 3);
}

#[test]
fn semaphores_that_start_with_the_most_units(rt: HostRuntime) {
    let script =
        r#"{"version":1,"slots":1,"births":0,"quantum":2,"semaphores":[1000000,1000000],"files":1,"programs":[[["down",0],["up",1]]],"start":[0]}"#;
    let report = "process 0 program 0 slot 0 ended
  down 0
  up 1
births 0 of 0
ended 1 stuck 0
";
    answers(&rt, rt.alloc(), script, report, 0);
}

#[test]
fn an_empty_program(rt: HostRuntime) {
    let script =
        r#"{"version":1,"slots":1,"births":0,"quantum":4,"semaphores":[0],"files":1,"programs":[[]],"start":[0]}"#;
    let report = "process 0 program 0 slot 0 ended
births 0 of 0
ended 1 stuck 0
";
    answers(&rt, rt.alloc(), script, report, 0);
}

#[test]
fn nobody_is_started(rt: HostRuntime) {
    let script =
        r#"{"version":1,"slots":1,"births":0,"quantum":4,"semaphores":[],"files":1,"programs":[],"start":[]}"#;
    let report = "births 0 of 0
ended 0 stuck 0
";
    answers(&rt, rt.alloc(), script, report, 0);
}

#[test]
fn files_and_a_child(rt: HostRuntime) {
    answers(&rt, rt.alloc(), READER, READER_REPORT, 0);
}

#[test]
fn files_that_are_not_there(rt: HostRuntime) {
    let script = r#"{"version":1,"slots":1,"births":0,"quantum":2,"semaphores":[],"files":2,
"programs":[[["stat",5],["close",5],["open",5],["open",6],["open",7],["close",5],["stat",5],["open",7],["stat",6]]],"start":[0]}"#;
    let report = "process 0 program 0 slot 0 ended
  stat 5 none
  close 5 none
  open 5 entry 0
  open 6 entry 1
  open 7 no-entry
  close 5 entry 0
  stat 5 none
  open 7 entry 0
  stat 6 uses 1
file 0 inode 7 uses 1
file 1 inode 6 uses 1
births 0 of 0
ended 1 stuck 0
";
    answers(&rt, rt.alloc(), script, report, 0);
}

/// Whether the rows are of processes that were left so, after this many steps.
fn are_left(rows: &[ProcessRow], wanted: &[(Outcome, u64)]) -> bool {
    for (row, &(outcome, position)) in rows.iter().zip(wanted.iter()) {
        if row.outcome != outcome || row.position != position {
            return false;
        }
    }
    rows.len() == wanted.len()
}

/// What is left of the curfew.
const LEFT: &[(Outcome, u64)] = &[
    (Outcome::Halted, 2),
    (Outcome::Ended, 2),
    (Outcome::Halted, 0),
];

#[test]
fn the_ready_queue_is_shut(rt: HostRuntime) {
    let text = "process 0 program 0 slot 0 halted
  shutdown
  say last
process 1 program 1 slot 1 ended
  say a
  say b
process 2 program 2 slot 2 halted
births 0 of 0
ended 1 stuck 0 halted 2
";
    answers(&rt, rt.alloc(), CURFEW, text, 0);
    let report = report_of(&rt, rt.alloc(), CURFEW);
    assert!(rt; report.version == 2);
    assert!(rt; are_left(&report.rows, LEFT));
}

#[test]
fn version_2_without_a_shutdown(rt: HostRuntime) {
    let empty =
        r#"{"version":2,"slots":1,"births":0,"quantum":4,"semaphores":[0],"files":1,"programs":[[]],"start":[0]}"#;
    let report = "process 0 program 0 slot 0 ended
births 0 of 0
ended 1 stuck 0 halted 0
";
    answers(&rt, rt.alloc(), empty, report, 0);
    let alone =
        r#"{"version":2,"slots":1,"births":0,"quantum":4,"semaphores":[0],"files":1,"programs":[[["say","a"],["down",0]]],"start":[0]}"#;
    let report = "process 0 program 0 slot 0 stuck
  say a
births 0 of 0
ended 0 stuck 1 halted 0
";
    answers(&rt, rt.alloc(), alone, report, 3);
}

#[test]
fn a_child_that_is_halted(rt: HostRuntime) {
    let script =
        r#"{"version":2,"slots":2,"births":1,"quantum":4,"semaphores":[],"files":1,"programs":[[["shutdown"],["spawn",1]],[["say","never"]]],"start":[0]}"#;
    let report = "process 0 program 0 slot 0 ended
  shutdown
  spawn 0.0
process 0.0 program 1 slot 1 halted
births 1 of 1
ended 1 stuck 0 halted 1
";
    answers(&rt, rt.alloc(), script, report, 0);
}

#[test]
fn a_sleeper_that_is_woken_after_the_shutdown(rt: HostRuntime) {
    let script = r#"{"version":2,"slots":2,"births":0,"quantum":4,"semaphores":[0],"files":1,
"programs":[[["down",0],["say","never"]],[["shutdown"],["up",0]]],"start":[0,1]}"#;
    let report = "process 0 program 0 slot 0 halted
  down 0
process 1 program 1 slot 1 ended
  shutdown
  up 0
births 0 of 0
ended 1 stuck 0 halted 1
";
    answers(&rt, rt.alloc(), script, report, 0);
}

/// Whether these are the names of the rows.
fn are_named(rows: &[ProcessRow], names: &[&[u64]]) -> bool {
    for (row, name) in rows.iter().zip(names.iter()) {
        if row.name.as_slice() != *name {
            return false;
        }
    }
    rows.len() == names.len()
}

/// The names of the rows, two of them of children.
const NAMES: &[&[u64]] = &[
    &[0],
    &[1],
    &[1, 0],
    &[1, 0, 0],
    &[2],
    &[3],
    &[4],
    &[5],
    &[6],
    &[7],
    &[8],
    &[9],
    &[10],
];

#[test]
fn names_are_sorted_by_numbers(rt: HostRuntime) {
    let script = r#"{"version":1,"slots":12,"births":2,"quantum":9,"semaphores":[],"files":1,
"programs":[[],[["spawn",2]],[["spawn",0]]],"start":[0,1,0,0,0,0,0,0,0,0,0]}"#;
    let report = report_of(&rt, rt.alloc(), script);
    assert!(rt; are_named(&report.rows, NAMES));
    assert!(rt; report.births == 2);
}

const MOST_ENTRIES_REPORT: &str = "process 0 program 0 slot 0 ended
  open 1 entry 0
  open 2 entry 1
  open 3 entry 2
  open 4 entry 3
  open 5 entry 4
  open 6 entry 5
  open 7 entry 6
  open 8 entry 7
  open 9 entry 8
  open 10 entry 9
  open 11 entry 10
  open 12 entry 11
  open 13 entry 12
  open 14 entry 13
  open 15 entry 14
  open 16 entry 15
  open 17 no-entry
  close 5 entry 4
  open 17 entry 4
  close 16 entry 15
  stat 16 none
  open 16 entry 15
  open 16 entry 15
  stat 16 uses 2
  stat 17 uses 1
file 0 inode 1 uses 1
file 1 inode 2 uses 1
file 2 inode 3 uses 1
file 3 inode 4 uses 1
file 4 inode 17 uses 1
file 5 inode 6 uses 1
file 6 inode 7 uses 1
file 7 inode 8 uses 1
file 8 inode 9 uses 1
file 9 inode 10 uses 1
file 10 inode 11 uses 1
file 11 inode 12 uses 1
file 12 inode 13 uses 1
file 13 inode 14 uses 1
file 14 inode 15 uses 1
file 15 inode 16 uses 2
births 0 of 0
ended 1 stuck 0
";

#[test]
fn the_most_entries_are_closed_and_opened_again(rt: HostRuntime) {
    let script =
        r#"{"version":1,"slots":1,"births":0,"quantum":50,"semaphores":[],"files":16,"programs":[[
["open",1],["open",2],["open",3],["open",4],["open",5],["open",6],["open",7],["open",8],
["open",9],["open",10],["open",11],["open",12],["open",13],["open",14],["open",15],["open",16],
["open",17],["close",5],["open",17],["close",16],["stat",16],["open",16],["open",16],["stat",16],["stat",17]]],"start":[0]}"#;
    answers(&rt, rt.alloc(), script, MOST_ENTRIES_REPORT, 0);
}
