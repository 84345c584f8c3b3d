//! Inputs that are too long, too deep, or cut off.

use crate::answers::{ROOM, fault_at, has_answer, have_faults};
use fak_commands::{Command, MainFault};
use fak_text::{Field, TextFault};
use std::alloc::AllocError;
use std::marker::Sync;
use std::sync::Wait;
use std::thread::Threads;

#[test]
fn each_beginning_of_an_input_is_not_json(rt: HostRuntime) {
    let input = ROOM.input.trim_end();
    for end in 0..input.len() {
        let fault = fault_at(&rt, Command::Replay, &input.as_bytes()[..end]);
        assert!(rt;
            fault == Some(MainFault::Text(TextFault::NotJson)),
            "at {end}"
        );
    }
    has_answer(&rt, Command::Replay, input, 0, ROOM.output);
}

/// The fault of a replay of this many pieces, and then of as many others.
fn fault_of_repeated(
    rt: &(impl AllocGlobal + Threads + Wait + Sync),
    left: &str,
    right: &str,
    count: usize,
) -> Result<Option<MainFault>, AllocError> {
    let right = right.repeat(rt.alloc(), count)?;
    let mut text = left.repeat(rt.alloc(), count)?;
    text.push_str(&right)?;
    Ok(fault_at(rt, Command::Replay, text.as_bytes()))
}

#[test]
fn an_input_of_spaces(rt: HostRuntime) {
    let fault = MainFault::Text(TextFault::Range(Field::Input));
    assert!(rt; fault_of_repeated(&rt, " ", "", 1_048_577) == Ok(Some(fault)));
    let fault = MainFault::Text(TextFault::NotJson);
    assert!(rt; fault_of_repeated(&rt, " ", "", 1_048_576) == Ok(Some(fault)));
}

#[test]
fn an_input_is_nested_at_most_127_deep(rt: HostRuntime) {
    let fault = MainFault::Text(TextFault::Range(Field::Input));
    assert!(rt; fault_of_repeated(&rt, "[", "]", 127) == Ok(Some(fault)));
    let fault = MainFault::Text(TextFault::NotJson);
    assert!(rt; fault_of_repeated(&rt, "[", "]", 128) == Ok(Some(fault)));
}

#[test]
fn versions_of_a_script(rt: HostRuntime) {
    const ROWS: &[(&str, TextFault)] = &[
        (
            r#"{"slots":1,"births":0,"quantum":4,"semaphores":[0],"files":1,"programs":[[]],"start":[0]}"#,
            TextFault::Missing(Field::Version),
        ),
        (
            r#"{"version":0,"slots":1,"births":0,"quantum":4,"semaphores":[0],"files":1,"programs":[[]],"start":[0]}"#,
            TextFault::Range(Field::Version),
        ),
        (
            r#"{"version":3,"slots":1,"births":0,"quantum":4,"semaphores":[0],"files":1,"programs":[[]],"start":[0]}"#,
            TextFault::Range(Field::Version),
        ),
        (
            r#"{"version":"1","slots":1,"births":0,"quantum":4,"semaphores":[0],"files":1,"programs":[[]],"start":[0]}"#,
            TextFault::Range(Field::Version),
        ),
        (
            r#"{"version":1,"slots":1,"births":0,"quantum":4,"semaphores":[0],"files":1,"programs":[[]],"start":[0,0]}"#,
            TextFault::Range(Field::Start),
        ),
    ];
    have_faults(&rt, Command::Run(1), ROWS);
}
