//! What ends a turn, and what does not: scripts whose reports are known.

use super::scripts::answers;

/// A stat, a close and a spawn that are refused, in the middle of a turn. The second process finds no free entry.
const REFUSED: &str = r#"{"version":1,"slots":2,"births":0,"quantum":9,"semaphores":[],"files":1,
"programs":[[["stat",7],["close",7],["spawn",1],["open",7],["stat",7]],[["open",8],["stat",7]]],"start":[0,1]}"#;

const REFUSED_REPORT: &str = "process 0 program 0 slot 0 ended
  stat 7 none
  close 7 none
  spawn no-birth
  open 7 entry 0
  stat 7 uses 1
process 1 program 1 slot 1 ended
  open 8 no-entry
  stat 7 uses 1
file 0 inode 7 uses 1
births 0 of 0
ended 2 stuck 0
";

/// The same with a birth, and no slot.
const SLOTLESS: &str = r#"{"version":1,"slots":2,"births":1,"quantum":9,"semaphores":[],"files":1,
"programs":[[["stat",7],["close",7],["spawn",1],["open",7],["stat",7]],[["open",8],["stat",7]]],"start":[0,1]}"#;

const SLOTLESS_REPORT: &str = "process 0 program 0 slot 0 ended
  stat 7 none
  close 7 none
  spawn no-slot
  open 7 entry 0
  stat 7 uses 1
process 1 program 1 slot 1 ended
  open 8 no-entry
  stat 7 uses 1
file 0 inode 7 uses 1
births 0 of 1
ended 2 stuck 0
";

/// Every kind of step except a yield in one turn. Only the last, a stat, shows whether another process ran meanwhile.
const UNHURRIED: &str =
    r#"{"version":2,"slots":4,"births":2,"quantum":20,"semaphores":[0,0],"files":2,
"programs":[
[["say","a"],["up",0],["down",0],["up",1],["open",5],["stat",5],["close",5],["stat",5],["spawn",2],["spawn",2],["shutdown"],["stat",7]],
[["down",1]],
[["open",7]]],"start":[1,0,2]}"#;

const UNHURRIED_REPORT: &str = "process 0 program 1 slot 0 ended
  down 1
process 1 program 0 slot 1 ended
  say a
  up 0
  down 0
  up 1
  open 5 entry 0
  stat 5 uses 1
  close 5 entry 0
  stat 5 none
  spawn 1.0
  spawn no-slot
  shutdown
  stat 7 none
process 1.0 program 2 slot 3 ended
  open 7 entry 0
process 2 program 2 slot 2 ended
  open 7 entry 0
file 0 inode 7 uses 2
births 1 of 2
ended 4 stuck 0 halted 0
";

/// Turns that end after the ready queue was shut, by a quantum and by a yield.
const LATECOMERS: &str = r#"{"version":2,"slots":3,"births":0,"quantum":1,"semaphores":[],"files":1,
"programs":[[["shutdown"],["yield"]],[["yield"],["yield"],["yield"]]],"start":[1,0,1]}"#;

const LATECOMERS_REPORT: &str = "process 0 program 1 slot 0 halted
  yield
  yield
process 1 program 0 slot 1 halted
  shutdown
process 2 program 1 slot 2 halted
  yield
births 0 of 0
ended 0 stuck 0 halted 3
";

/// Each script, and its report.
const ROWS: &[(&str, &str)] = &[
    (REFUSED, REFUSED_REPORT),
    (SLOTLESS, SLOTLESS_REPORT),
    (UNHURRIED, UNHURRIED_REPORT),
    (LATECOMERS, LATECOMERS_REPORT),
];

#[test]
fn what_ends_a_turn(rt: HostRuntime) {
    for &(script, report) in ROWS {
        answers(&rt, rt.alloc(), script, report, 0);
    }
}
