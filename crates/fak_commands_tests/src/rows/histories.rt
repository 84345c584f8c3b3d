//! The histories of `crates/fak/scenarios/`, made by `tools/build/rows`.

use crate::rows::Row;

/// All of them.
pub(crate) const ROWS: &[Row] = &[
    HISTORY_CLOSED,
    HISTORY_FILLED_TOO_EARLY,
    HISTORY_LEGAL,
    HISTORY_REPEATED_KEY,
];

pub(crate) const HISTORY_CLOSED: Row = Row {
    name: "history-closed",
    line: "fak check",
    input: r#"{"size":1,"marks":[[0,"close"],[1,"closed"],[1,"claim-in"]]}
"#,
    status: 3,
    output: r"fault at 2
",
    faults: "",
};

pub(crate) const HISTORY_FILLED_TOO_EARLY: Row = Row {
    name: "history-filled-too-early",
    line: "fak check",
    input: r#"{"size":2,"marks":[[0,"claim-in"],[0,"put",10],[0,"fill",0],[0,"end-in"],[0,"claim-in"],[0,"put",11],[0,"fill",1],[0,"end-in"],[1,"claim-out"],[1,"got",10],[2,"claim-out"],[2,"got",11],[2,"take",1],[2,"end-out"],[0,"claim-in"],[0,"put",12],[0,"fill",2]]}
"#,
    status: 3,
    output: r"fault at 16
",
    faults: "",
};

pub(crate) const HISTORY_LEGAL: Row = Row {
    name: "history-legal",
    line: "fak check",
    input: r#"{"size":2,"marks":[[0,"claim-in"],[0,"put",10],[0,"fill",0],[0,"end-in"],[0,"claim-in"],[0,"put",11],[0,"fill",1],[0,"end-in"],[1,"claim-out"],[1,"got",10],[2,"claim-out"],[2,"got",11],[2,"take",1],[2,"end-out"],[0,"claim-in"],[0,"put",12],[1,"take",0],[0,"fill",2]]}
"#,
    status: 0,
    output: r"legal
",
    faults: "",
};

pub(crate) const HISTORY_REPEATED_KEY: Row = Row {
    name: "history-repeated-key",
    line: "fak check",
    input: r#"{"size":1,"marks":[[0,"no-room"]],"size":4096,"marks":[]}
"#,
    status: 0,
    output: r"legal
",
    faults: "",
};
