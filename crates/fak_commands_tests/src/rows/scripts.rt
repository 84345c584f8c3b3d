//! The scripts of `crates/fak/scenarios/`, made by `tools/build/rows`.

use crate::rows::Row;

/// All of them.
pub(crate) const ROWS: &[Row] = &[
    SCRIPT_EMPTY_PROGRAM,
    SCRIPT_EVERY_STEP,
    SCRIPT_FILE_AND_CHILD,
    SCRIPT_HALTED_CHILD,
    SCRIPT_NO_SLOT_AFTER_A_HALT,
    SCRIPT_ONE_PROCESSOR,
    SCRIPT_OPEN_FILE,
    SCRIPT_PING_PONG,
    SCRIPT_SHUTDOWN,
    SCRIPT_SLEEPERS_IN_ORDER,
    SCRIPT_SLOTS_IN_ORDER,
    SCRIPT_STUCK,
    SCRIPT_TWO_PROCESSORS,
    SCRIPT_VERSION_2,
    SCRIPT_VERSION_2_STUCK,
];

pub(crate) const SCRIPT_EMPTY_PROGRAM: Row = Row {
    name: "script-empty-program",
    line: "fak run",
    input: r#"{"version":1,"slots":1,"births":0,"quantum":4,"semaphores":[0],"files":1,"programs":[[]],"start":[0]}
"#,
    status: 0,
    output: r"process 0 program 0 slot 0 ended
births 0 of 0
ended 1 stuck 0
",
    faults: "",
};

pub(crate) const SCRIPT_EVERY_STEP: Row = Row {
    name: "script-every-step",
    line: "fak run",
    input: r#"{"version":1,"slots":3,"births":2,"quantum":1,"semaphores":[0,0],"files":2,
"programs":[
[["say","ping"],["up",1],["down",0],["spawn",2],["spawn",2],["yield"],["spawn",2],["spawn",2]],
[["down",1],["say","pong"],["open",7],["up",0],["stat",7],["close",7]],
[["say","child"],["yield"]]],
"start":[0,1]}
"#,
    status: 0,
    output: r"process 0 program 0 slot 0 ended
  say ping
  up 1
  down 0
  spawn 0.0
  spawn no-slot
  yield
  spawn 0.1
  spawn no-birth
process 0.0 program 2 slot 2 ended
  say child
  yield
process 0.1 program 2 slot 1 ended
  say child
  yield
process 1 program 1 slot 1 ended
  down 1
  say pong
  open 7 entry 0
  up 0
  stat 7 uses 1
  close 7 entry 0
births 2 of 2
ended 4 stuck 0
",
    faults: "",
};

pub(crate) const SCRIPT_FILE_AND_CHILD: Row = Row {
    name: "script-file-and-child",
    line: "fak run",
    input: r#"{"version":1,"slots":2,"births":1,"quantum":4,"semaphores":[0],"files":1,"programs":[[["open",7],["open",7],["close",7],["stat",7],["spawn",1]],[["say","hi"]]],"start":[0]}
"#,
    status: 0,
    output: r"process 0 program 0 slot 0 ended
  open 7 entry 0
  open 7 entry 0
  close 7 entry 0
  stat 7 uses 1
  spawn 0.0
process 0.0 program 1 slot 1 ended
  say hi
file 0 inode 7 uses 1
births 1 of 1
ended 2 stuck 0
",
    faults: "",
};

pub(crate) const SCRIPT_HALTED_CHILD: Row = Row {
    name: "script-halted-child",
    line: "fak run",
    input: r#"{"version":2,"slots":2,"births":1,"quantum":4,"semaphores":[],"files":1,"programs":[[["shutdown"],["spawn",1]],[["say","never"]]],"start":[0]}
"#,
    status: 0,
    output: r"process 0 program 0 slot 0 ended
  shutdown
  spawn 0.0
process 0.0 program 1 slot 1 halted
births 1 of 1
ended 1 stuck 0 halted 1
",
    faults: "",
};

pub(crate) const SCRIPT_NO_SLOT_AFTER_A_HALT: Row = Row {
    name: "script-no-slot-after-a-halt",
    line: "fak run",
    input: r#"{"version":2,"slots":2,"births":2,"quantum":4,"semaphores":[],"files":1,"programs":[[["shutdown"],["spawn",1],["spawn",1]],[["say","never"]]],"start":[0]}
"#,
    status: 0,
    output: r"process 0 program 0 slot 0 ended
  shutdown
  spawn 0.0
  spawn no-slot
process 0.0 program 1 slot 1 halted
births 1 of 2
ended 1 stuck 0 halted 1
",
    faults: "",
};

pub(crate) const SCRIPT_ONE_PROCESSOR: Row = Row {
    name: "script-one-processor",
    line: "fak run --processors=1",
    input: r#"{"version":1,"slots":2,"births":0,"quantum":1,"semaphores":[0,0],"files":1,
"programs":[[["say","ping"],["up",1],["down",0]],[["down",1],["say","pong"],["up",0]]],
"start":[0,1]}
"#,
    status: 0,
    output: r"process 0 program 0 slot 0 ended
  say ping
  up 1
  down 0
process 1 program 1 slot 1 ended
  down 1
  say pong
  up 0
births 0 of 0
ended 2 stuck 0
",
    faults: "",
};

pub(crate) const SCRIPT_OPEN_FILE: Row = Row {
    name: "script-open-file",
    line: "fak run",
    input: r#"{"version":1,"slots":2,"births":1,"quantum":4,"semaphores":[],"files":1,"programs":[[["open",7],["open",7],["spawn",1]],[["say","hi"]]],"start":[0]}
"#,
    status: 0,
    output: r"process 0 program 0 slot 0 ended
  open 7 entry 0
  open 7 entry 0
  spawn 0.0
process 0.0 program 1 slot 1 ended
  say hi
file 0 inode 7 uses 2
births 1 of 1
ended 2 stuck 0
",
    faults: "",
};

pub(crate) const SCRIPT_PING_PONG: Row = Row {
    name: "script-ping-pong",
    line: "fak run",
    input: r#"{"version":1,"slots":2,"births":0,"quantum":1,"semaphores":[0,0],"files":1,
"programs":[[["say","ping"],["up",1],["down",0]],[["down",1],["say","pong"],["up",0]]],
"start":[0,1]}
"#,
    status: 0,
    output: r"process 0 program 0 slot 0 ended
  say ping
  up 1
  down 0
process 1 program 1 slot 1 ended
  down 1
  say pong
  up 0
births 0 of 0
ended 2 stuck 0
",
    faults: "",
};

pub(crate) const SCRIPT_SHUTDOWN: Row = Row {
    name: "script-shutdown",
    line: "fak run",
    input: r#"{"version":2,"slots":3,"births":0,"quantum":2,"semaphores":[0],"files":1,
"programs":[[["shutdown"],["say","last"],["say","never"]],[["say","a"],["say","b"]],[["down",0]]],
"start":[0,1,2]}
"#,
    status: 0,
    output: r"process 0 program 0 slot 0 halted
  shutdown
  say last
process 1 program 1 slot 1 ended
  say a
  say b
process 2 program 2 slot 2 halted
births 0 of 0
ended 1 stuck 0 halted 2
",
    faults: "",
};

pub(crate) const SCRIPT_SLEEPERS_IN_ORDER: Row = Row {
    name: "script-sleepers-in-order",
    line: "fak run",
    input: r#"{"version":1,"slots":5,"births":0,"quantum":4,"semaphores":[1],"files":1,"programs":[[["down",0],["open",7],["stat",7]],[["up",0],["up",0],["up",0]],[["open",7],["stat",7],["yield"],["stat",7]]],"start":[0,0,0,1,2]}
"#,
    status: 0,
    output: r"process 0 program 0 slot 0 ended
  down 0
  open 7 entry 0
  stat 7 uses 1
process 1 program 0 slot 1 ended
  down 0
  open 7 entry 0
  stat 7 uses 3
process 2 program 0 slot 2 ended
  down 0
  open 7 entry 0
  stat 7 uses 4
process 3 program 1 slot 3 ended
  up 0
  up 0
  up 0
process 4 program 2 slot 4 ended
  open 7 entry 0
  stat 7 uses 2
  yield
  stat 7 uses 4
file 0 inode 7 uses 4
births 0 of 0
ended 5 stuck 0
",
    faults: "",
};

pub(crate) const SCRIPT_SLOTS_IN_ORDER: Row = Row {
    name: "script-slots-in-order",
    line: "fak run",
    input: r#"{"version":1,"slots":3,"births":2,"quantum":4,"semaphores":[],"files":1,"programs":[[["spawn",1],["yield"],["spawn",1]],[]],"start":[0]}
"#,
    status: 0,
    output: r"process 0 program 0 slot 0 ended
  spawn 0.0
  yield
  spawn 0.1
process 0.0 program 1 slot 1 ended
process 0.1 program 1 slot 2 ended
births 2 of 2
ended 3 stuck 0
",
    faults: "",
};

pub(crate) const SCRIPT_STUCK: Row = Row {
    name: "script-stuck",
    line: "fak run",
    input: r#"{"version":1,"slots":1,"births":0,"quantum":4,"semaphores":[0],"files":1,"programs":[[["say","a"],["down",0]]],"start":[0]}
"#,
    status: 3,
    output: r"process 0 program 0 slot 0 stuck
  say a
births 0 of 0
ended 0 stuck 1
",
    faults: "",
};

pub(crate) const SCRIPT_TWO_PROCESSORS: Row = Row {
    name: "script-two-processors",
    line: "fak run --processors 2",
    input: r#"{"version":1,"slots":2,"births":0,"quantum":1,"semaphores":[0,0],"files":1,
"programs":[[["say","ping"],["up",1],["down",0]],[["down",1],["say","pong"],["up",0]]],
"start":[0,1]}
"#,
    status: 0,
    output: r"process 0 program 0 slot 0 ended
  say ping
  up 1
  down 0
process 1 program 1 slot 1 ended
  down 1
  say pong
  up 0
births 0 of 0
ended 2 stuck 0
",
    faults: "",
};

pub(crate) const SCRIPT_VERSION_2: Row = Row {
    name: "script-version-2",
    line: "fak run",
    input: r#"{"version":2,"slots":1,"births":0,"quantum":4,"semaphores":[0],"files":1,"programs":[[]],"start":[0]}
"#,
    status: 0,
    output: r"process 0 program 0 slot 0 ended
births 0 of 0
ended 1 stuck 0 halted 0
",
    faults: "",
};

pub(crate) const SCRIPT_VERSION_2_STUCK: Row = Row {
    name: "script-version-2-stuck",
    line: "fak run",
    input: r#"{"version":2,"slots":1,"births":0,"quantum":4,"semaphores":[0],"files":1,"programs":[[["say","a"],["down",0]]],"start":[0]}
"#,
    status: 3,
    output: r"process 0 program 0 slot 0 stuck
  say a
births 0 of 0
ended 0 stuck 1 halted 0
",
    faults: "",
};
