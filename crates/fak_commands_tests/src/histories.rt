//! Verdicts on histories, and their faults.

use crate::answers::{has_answer, have_faults};
use crate::rows::{are_answered, histories};
use fak_commands::Command;
use fak_text::{Field, TextFault};

#[test]
fn verdicts(rt: HostRuntime) {
    const ROWS: &[(&str, u8, &str)] = &[
        (r#"{"size":1,"marks":[]}"#, 0, "legal\n"),
        (
            r#"{"size":1,"marks":[[0,"claim-in"],[0,"put",7]]}"#,
            0,
            "legal\n",
        ),
        (r#"{"size":1,"marks":[[0,"no-room"]]}"#, 3, "fault at 0\n"),
        (
            r#"{"size":1,"marks":[[0,"close"],[1,"no-room"]]}"#,
            3,
            "fault at 1\n",
        ),
        (r#"{"size":1,"marks":[[0,"closed"]]}"#, 3, "fault at 0\n"),
        (
            r#"{"size":1,"marks":[[0,"close"],[1,"late-in"],[0,"close"],[1,"back-in"]]}"#,
            0,
            "legal\n",
        ),
    ];
    for &(input, status, text) in ROWS {
        has_answer(&rt, Command::Check, input, status, text);
    }
}

#[test]
fn scenarios(rt: HostRuntime) {
    are_answered(&rt, histories::ROWS);
}

#[test]
fn faults_of_an_input(rt: HostRuntime) {
    const ROWS: &[(&str, TextFault)] = &[
        (r#"{"size":0}"#, TextFault::Range(Field::Size)),
        (r#"{"size":1}"#, TextFault::Missing(Field::Marks)),
        (
            r#"{"size":1,"marks":[[64,"put",1]]}"#,
            TextFault::Range(Field::Marks),
        ),
        (
            r#"{"size":1,"marks":[[0,"put"]]}"#,
            TextFault::Range(Field::Marks),
        ),
        (
            r#"{"size":1,"marks":[[0,"shut"]]}"#,
            TextFault::UnknownOp(0),
        ),
    ];
    have_faults(&rt, Command::Check, ROWS);
}
