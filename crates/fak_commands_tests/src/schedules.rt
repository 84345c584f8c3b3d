//! Replays, and the faults of schedules.

use crate::answers::have_faults;
use crate::rows::{are_answered, schedules};
use fak_commands::Command;
use fak_text::{Field, TextFault};

#[test]
fn scenarios(rt: HostRuntime) {
    are_answered(&rt, schedules::ROWS);
}

#[test]
fn faults_of_an_input(rt: HostRuntime) {
    const ROWS: &[(&str, TextFault)] = &[
        ("", TextFault::NotJson),
        (r#"{"object":"room","#, TextFault::NotJson),
        ("[1]", TextFault::Range(Field::Input)),
        ("{}", TextFault::Missing(Field::Object)),
        (r#"{"object":"heap"}"#, TextFault::Range(Field::Object)),
        (r#"{"object":"room"}"#, TextFault::Missing(Field::Bound)),
        (
            r#"{"object":"room","bound":4294967297}"#,
            TextFault::Range(Field::Bound),
        ),
        (
            r#"{"object":"room","bound":1,"seats":1,"events":[[0,"step"],[0,"insert",1]]}"#,
            TextFault::UnknownOp(1),
        ),
        (
            r#"{"object":"queue","size":1,"seats":1,"events":[[0,"step"],[0,"tir",1]]}"#,
            TextFault::UnknownOp(1),
        ),
        (
            r#"{"object":"queue","size":1,"seats":1,"events":[[0,"step",65]]}"#,
            TextFault::Range(Field::Events),
        ),
        (
            r#"{"object":"queue","size":1,"seats":1,"events":[[0,"insert"]]}"#,
            TextFault::Range(Field::Events),
        ),
        (
            r#"{"object":"queue","size":1,"seats":1,"events":[[0,"delete",1]]}"#,
            TextFault::Range(Field::Events),
        ),
    ];
    have_faults(&rt, Command::Replay, ROWS);
}
