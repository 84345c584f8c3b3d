//! The schedules of `crates/fak/scenarios/`, made by `tools/build/rows`.

use crate::rows::Row;

/// All of them.
pub(crate) const ROWS: &[Row] = &[
    QUEUE_CELLS_WAIT_FOR_THEIR_TURNS,
    QUEUE_FULL,
    QUEUE_INSERTION_NOT_ENDED,
    QUEUE_ONE_ITEM,
    QUEUE_REFUSED_BY_AN_OVER_CLAIM,
    QUEUE_REFUSED_DELETIONS,
    QUEUE_SHUT,
    ROOM_NO_EVENTS,
    ROOM_REFUSED_AT_ITS_TEST,
    ROOM_REFUSED_EVENTS,
    ROOM_WITHDRAWN_AFTER_ITS_ADD,
];

pub(crate) const QUEUE_CELLS_WAIT_FOR_THEIR_TURNS: Row = Row {
    name: "queue-cells-wait-for-their-turns",
    line: "fak replay",
    input: r#"{"object":"queue","size":3,"seats":4,"events":[[0,"insert",10],[0,"step",3],[1,"insert",11],[1,"step",7],[2,"delete"],[2,"step",4],[1,"insert",12],[1,"step",7],[3,"delete"],[3,"step",7],[1,"insert",13],[1,"step",4],[0,"step",4],[2,"step",4],[1,"step",4]]}
"#,
    status: 0,
    output: r"0 test-up 0 -
0 add-up 0 claim-in
0 ticket-in 0 put 10
1 test-up 1 -
1 add-up 1 claim-in
1 ticket-in 1 put 11
1 turn-in 0 -
1 store-item 11 -
1 set-full 1 fill 1
1 end-in 0 end-in
2 test-low 1 -
2 sub-low 1 claim-out
2 ticket-out 0 got 10
2 turn-out 0 -
1 test-up 2 -
1 add-up 2 claim-in
1 ticket-in 2 put 12
1 turn-in 0 -
1 store-item 12 -
1 set-full 1 fill 2
1 end-in 0 end-in
3 test-low 1 -
3 sub-low 1 claim-out
3 ticket-out 1 got 11
3 turn-out 1 -
3 load-item 11 -
3 set-free 2 take 1
3 end-out 3 end-out
1 test-up 2 -
1 add-up 2 claim-in
1 ticket-in 3 put 13
1 turn-in 0 -
0 turn-in 0 -
0 store-item 10 -
0 set-full 1 fill 0
0 end-in 0 end-in
2 turn-out 1 -
2 load-item 10 -
2 set-free 2 take 0
2 end-out 3 end-out
1 turn-in 2 -
1 store-item 13 -
1 set-full 3 fill 3
1 end-in 1 end-in
",
    faults: "",
};

pub(crate) const QUEUE_FULL: Row = Row {
    name: "queue-full",
    line: "fak replay",
    input: r#"{"object":"queue","size":1,"seats":1,"events":[[0,"insert",7],[0,"step",7],[0,"insert",8],[0,"step"]]}
"#,
    status: 0,
    output: r"0 test-up 0 -
0 add-up 0 claim-in
0 ticket-in 0 put 7
0 turn-in 0 -
0 store-item 7 -
0 set-full 1 fill 0
0 end-in 0 end-in
0 test-up 1 no-room
",
    faults: "",
};

pub(crate) const QUEUE_INSERTION_NOT_ENDED: Row = Row {
    name: "queue-insertion-not-ended",
    line: "fak replay",
    input: r#"{"object":"queue","size":1,"seats":2,"events":[[0,"insert",7],[0,"step",6],[1,"delete"],[1,"step"]]}
"#,
    status: 0,
    output: r"0 test-up 0 -
0 add-up 0 claim-in
0 ticket-in 0 put 7
0 turn-in 0 -
0 store-item 7 -
0 set-full 1 fill 0
1 test-low 0 no-item
",
    faults: "",
};

pub(crate) const QUEUE_ONE_ITEM: Row = Row {
    name: "queue-one-item",
    line: "fak replay",
    input: r#"{"object":"queue","size":1,"seats":1,"events":[[0,"insert",7],[0,"step",7],[0,"delete"],[0,"step",7]]}
"#,
    status: 0,
    output: r"0 test-up 0 -
0 add-up 0 claim-in
0 ticket-in 0 put 7
0 turn-in 0 -
0 store-item 7 -
0 set-full 1 fill 0
0 end-in 0 end-in
0 test-low 1 -
0 sub-low 1 claim-out
0 ticket-out 0 got 7
0 turn-out 1 -
0 load-item 7 -
0 set-free 2 take 0
0 end-out 1 end-out
",
    faults: "",
};

pub(crate) const QUEUE_REFUSED_BY_AN_OVER_CLAIM: Row = Row {
    name: "queue-refused-by-an-over-claim",
    line: "fak replay",
    input: r#"{"object":"queue","size":1,"seats":3,"events":[[0,"insert",7],[1,"insert",8],[0,"step"],[1,"step"],[0,"step"],[1,"step"],[0,"step",5],[0,"delete"],[0,"step",7],[2,"insert",9],[2,"step"],[1,"step"]]}
"#,
    status: 0,
    output: r"0 test-up 0 -
1 test-up 0 -
0 add-up 0 claim-in
1 add-up 1 over-in
0 ticket-in 0 put 7
0 turn-in 0 -
0 store-item 7 -
0 set-full 1 fill 0
0 end-in 0 end-in
0 test-low 1 -
0 sub-low 1 claim-out
0 ticket-out 0 got 7
0 turn-out 1 -
0 load-item 7 -
0 set-free 2 take 0
0 end-out 2 end-out
2 test-up 1 no-room
1 back-up 1 back-in
",
    faults: "",
};

pub(crate) const QUEUE_REFUSED_DELETIONS: Row = Row {
    name: "queue-refused-deletions",
    line: "fak replay",
    input: r#"{"object":"queue","size":1,"seats":3,"events":[[0,"delete"],[0,"step"],[0,"insert",7],[0,"step",7],[1,"delete"],[1,"step"],[2,"delete"],[2,"step",2],[1,"step"],[0,"delete"],[0,"step"],[1,"step"]]}
"#,
    status: 0,
    output: r"0 test-low 0 no-item
0 test-up 0 -
0 add-up 0 claim-in
0 ticket-in 0 put 7
0 turn-in 0 -
0 store-item 7 -
0 set-full 1 fill 0
0 end-in 0 end-in
1 test-low 1 -
2 test-low 1 -
2 sub-low 1 claim-out
1 sub-low 0 over-out
0 test-low -1 no-item
1 back-low -1 back-out
",
    faults: "",
};

pub(crate) const QUEUE_SHUT: Row = Row {
    name: "queue-shut",
    line: "fak replay",
    input: r#"{"object":"queue","size":2,"seats":2,"events":[[0,"insert",5],[0,"step"],[1,"shut"],[1,"step"],[0,"step",2],[1,"insert",6],[1,"step"],[1,"delete"],[1,"step"]]}
"#,
    status: 0,
    output: r"0 test-up 0 -
1 shut 0 close
0 add-up 0 late-in
0 back-up 1 back-in
1 test-up 0 closed
1 test-low 0 no-item
",
    faults: "",
};

pub(crate) const ROOM_NO_EVENTS: Row = Row {
    name: "room-no-events",
    line: "fak replay",
    input: r#"{"object":"room","bound":1,"seats":2,"events":[]}
"#,
    status: 0,
    output: "",
    faults: "",
};

pub(crate) const ROOM_REFUSED_AT_ITS_TEST: Row = Row {
    name: "room-refused-at-its-test",
    line: "fak replay",
    input: r#"{"object":"room","bound":1,"seats":2,"events":[[0,"tir",1],[0,"step",2],[1,"tir",1],[1,"step"]]}
"#,
    status: 0,
    output: r"0 test 0 -
0 add 0 up 1
1 test 1 no 1
",
    faults: "",
};

pub(crate) const ROOM_REFUSED_EVENTS: Row = Row {
    name: "room-refused-events",
    line: "fak replay",
    input: r#"{"object":"room","bound":5,"seats":2,"events":[[0,"tir",3],[0,"step",2],[1,"tir",3],[1,"step"],[1,"tir",2],[1,"tir",2],[1,"step",3],[0,"release",4],[0,"release",3],[0,"step"],[2,"step"]]}
"#,
    status: 0,
    output: r"0 test 0 -
0 add 0 up 3
1 test 3 no 3
1 refused mid-call
1 test 3 -
1 add 3 up 2
1 refused idle-seat
0 refused not-held
0 release 5 release 3
2 refused no-such-seat
",
    faults: "",
};

pub(crate) const ROOM_WITHDRAWN_AFTER_ITS_ADD: Row = Row {
    name: "room-withdrawn-after-its-add",
    line: "fak replay",
    input: r#"{"object":"room","bound":1,"seats":2,"events":[[0,"tir",1],[1,"tir",1],[0,"step"],[1,"step"],[0,"step"],[1,"step",2]]}
"#,
    status: 0,
    output: r"0 test 0 -
1 test 0 -
0 add 0 up 1
1 add 1 over 1
1 back 2 back 1
",
    faults: "",
};
