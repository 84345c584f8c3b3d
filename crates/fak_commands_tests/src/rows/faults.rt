//! The faults of `crates/fak/scenarios/`, made by `tools/build/rows`.

use crate::rows::Row;

/// All of them.
pub(crate) const ROWS: &[Row] = &[
    FAULT_FIELD_OUT_OF_RANGE,
    FAULT_MISSING_FIELD,
    FAULT_NINE_PROCESSORS,
    FAULT_NO_QUANTUM,
    FAULT_NOT_JSON,
    FAULT_QUANTUM_OUT_OF_RANGE,
    FAULT_SCRIPT_CUT_OFF,
    FAULT_UNKNOWN_OPERATION,
    FAULT_UNKNOWN_STEP,
    FAULT_USAGE,
    FAULT_WORN_SEAT,
];

pub(crate) const FAULT_FIELD_OUT_OF_RANGE: Row = Row {
    name: "fault-field-out-of-range",
    line: "fak replay",
    input: r#"{"object":"room","bound":4294967297}"#,
    status: 2,
    output: "",
    faults: r"fak: field bound out of range
",
};

pub(crate) const FAULT_MISSING_FIELD: Row = Row {
    name: "fault-missing-field",
    line: "fak replay",
    input: r#"{"object":"room","bound":1}"#,
    status: 2,
    output: "",
    faults: r"fak: missing field seats
",
};

pub(crate) const FAULT_NINE_PROCESSORS: Row = Row {
    name: "fault-nine-processors",
    line: "fak run --processors 9",
    input: r#"{"version":1,"slots":2,"births":0,"quantum":1,"semaphores":[0,0],"files":1,
"programs":[[["say","ping"],["up",1],["down",0]],[["down",1],["say","pong"],["up",0]]],
"start":[0,1]}
"#,
    status: 2,
    output: "",
    faults: r"fak: usage: fak replay, fak check, fak run --processors N
",
};

pub(crate) const FAULT_NO_QUANTUM: Row = Row {
    name: "fault-no-quantum",
    line: "fak run",
    input: r#"{"version":1,"slots":1,"births":0,"semaphores":[0],"files":1,"programs":[[]],"start":[0]}
"#,
    status: 2,
    output: "",
    faults: r"fak: missing field quantum
",
};

pub(crate) const FAULT_NOT_JSON: Row = Row {
    name: "fault-not-json",
    line: "fak replay",
    input: r#"{"object":"room","#,
    status: 2,
    output: "",
    faults: r"fak: input is not JSON
",
};

pub(crate) const FAULT_QUANTUM_OUT_OF_RANGE: Row = Row {
    name: "fault-quantum-out-of-range",
    line: "fak run",
    input: r#"{"version":1,"slots":1,"births":0,"quantum":0,"semaphores":[0],"files":1,"programs":[[]],"start":[0]}
"#,
    status: 2,
    output: "",
    faults: r"fak: field quantum out of range
",
};

pub(crate) const FAULT_SCRIPT_CUT_OFF: Row = Row {
    name: "fault-script-cut-off",
    line: "fak run",
    input: r#"{"version":1,
"#,
    status: 2,
    output: "",
    faults: r"fak: input is not JSON
",
};

pub(crate) const FAULT_UNKNOWN_OPERATION: Row = Row {
    name: "fault-unknown-operation",
    line: "fak replay",
    input: r#"{"object":"room","bound":1,"seats":1,"events":[[0,"step"],[0,"insert",1]]}"#,
    status: 2,
    output: "",
    faults: r"fak: unknown operation at 1
",
};

pub(crate) const FAULT_UNKNOWN_STEP: Row = Row {
    name: "fault-unknown-step",
    line: "fak run",
    input: r#"{"version":1,"slots":1,"births":0,"quantum":4,"semaphores":[0],"files":1,"programs":[[["say","a"],["jump",1]]],"start":[0]}
"#,
    status: 2,
    output: "",
    faults: r"fak: unknown operation at 1
",
};

pub(crate) const FAULT_USAGE: Row = Row {
    name: "fault-usage",
    line: "fak copy",
    input: "{}",
    status: 2,
    output: "",
    faults: r"fak: usage: fak replay, fak check, fak run --processors N
",
};

pub(crate) const FAULT_WORN_SEAT: Row = Row {
    name: "fault-worn-seat",
    line: "fak run",
    input: r#"{"version":1,"slots":1,"births":0,"quantum":4,"stint":1,"semaphores":[0],"files":1,"programs":[[]],"start":[0]}
"#,
    status: 1,
    output: "",
    faults: r"fak: a seat is worn
",
};
