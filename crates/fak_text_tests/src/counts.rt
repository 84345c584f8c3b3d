//! Each list of each format, at each length or many of them, and texts of each length and character.

use crate::inputs::{first_step, holds_at};
use crate::numbers::{EVENTS, MARKS, PROGRAMS, Place, SEMAPHORES, START, STEPS, has_number};
use crate::script::with_many;
use fak_text::{Field, Script, Step, TextFault, read_script};
use std::alloc::{AllocError, Global};
use std::process::Abort;

/// A list: the place of its length, its text before, one item, its text after, how many items it may have, and the key
/// at fault if it has more.
pub(crate) type Row<'a> = (Place, &'a str, &'a str, &'a str, usize, Field);

/// The text of the row with this many items.
pub(crate) fn text_of(
    rt: &impl AllocGlobal,
    row: &Row<'_>,
    count: usize,
) -> Result<String, AllocError> {
    with_many(rt, row.1, row.2, count, row.3)
}

/// Checks that the row is read with this many items, or refused.
pub(crate) fn has_count(rt: &(impl Abort + AllocGlobal), row: &Row<'_>, count: usize) {
    let of = (row.0, 0, row.4 as u64, row.5);
    has_number(rt, of, count as u64, text_of(rt, row, count), row.1);
}

/// Checks that the row is read with each count of items below this one, or refused.
fn has_each_count(rt: &(impl Abort + AllocGlobal), row: &Row<'_>, end: usize) {
    for count in 0..end {
        has_count(rt, row, count);
    }
}

#[test]
fn each_count_of_short_lists(rt: HostRuntime) {
    const ROWS: &[Row<'static>] = &[
        (
            SEMAPHORES,
            r#"{"version":1,"slots":1,"births":0,"quantum":1,"semaphores":["#,
            "7",
            r#"],"files":1,"programs":[],"start":[]}"#,
            16,
            Field::Semaphores,
        ),
        (
            SEMAPHORES,
            r#"{"version":2,"slots":1,"births":0,"quantum":1,"semaphores":["#,
            "7",
            r#"],"files":1,"programs":[],"start":[]}"#,
            16,
            Field::Semaphores,
        ),
        (
            PROGRAMS,
            r#"{"version":1,"slots":1,"births":0,"quantum":1,"semaphores":[],"files":1,"programs":["#,
            "[]",
            r#"],"start":[]}"#,
            64,
            Field::Programs,
        ),
        (
            PROGRAMS,
            r#"{"version":2,"slots":1,"births":0,"quantum":1,"semaphores":[],"files":1,"programs":["#,
            "[]",
            r#"],"start":[]}"#,
            64,
            Field::Programs,
        ),
    ];
    for row in ROWS {
        has_each_count(&rt, row, 100);
    }
}

/// Checks that the row is read with as many items as each power of two, and refused beyond its bound.
fn has_powers(rt: &(impl Abort + AllocGlobal), row: &Row<'_>) {
    for place in 0..14u32 {
        let count = 1usize << place;
        if count < row.4 {
            has_count(rt, row, count);
        }
    }
    has_count(rt, row, row.4.saturating_sub(1));
    has_count(rt, row, row.4);
    has_count(rt, row, row.4.saturating_add(1));
}

/// Checks that the row is read with the first multiples of a step, or refused.
fn has_multiples(rt: &(impl Abort + AllocGlobal), row: &Row<'_>, step: usize, multiples: usize) {
    for multiple in 1..=multiples {
        has_count(rt, row, step.saturating_mul(multiple));
    }
}

/// Checks that the row is read with each count below the end, each power of two, and the first multiples of a step.
fn has_counts(
    rt: &(impl Abort + AllocGlobal),
    row: &Row<'_>,
    end: usize,
    step: usize,
    multiples: usize,
) {
    has_powers(rt, row);
    has_each_count(rt, row, end);
    has_multiples(rt, row, step, multiples);
}

#[test]
fn many_counts_of_steps(rt: HostRuntime) {
    const ROWS: &[Row<'static>] = &[
        (
            STEPS,
            r#"{"version":1,"slots":1,"births":0,"quantum":1,"semaphores":[],"files":1,"programs":[["#,
            r#"["yield"]"#,
            r#"]],"start":[]}"#,
            1_000,
            Field::Programs,
        ),
        (
            STEPS,
            r#"{"version":2,"slots":1,"births":0,"quantum":1,"semaphores":[],"files":1,"programs":[["#,
            r#"["yield"]"#,
            r#"]],"start":[]}"#,
            1_000,
            Field::Programs,
        ),
    ];
    for row in ROWS {
        has_counts(&rt, row, 130, 100, 10);
    }
}

#[test]
fn many_counts_of_marks(rt: HostRuntime) {
    const ROW: Row<'static> = (
        MARKS,
        r#"{"size":1,"marks":["#,
        r#"[0,"put",7]"#,
        "]}",
        4_096,
        Field::Marks,
    );
    has_counts(&rt, &ROW, 300, 100, 40);
}

const ROOM_EVENTS: Row<'static> = (
    EVENTS,
    r#"{"object":"room","bound":1,"seats":1,"events":["#,
    r#"[0,"tir",1]"#,
    "]}",
    16_384,
    Field::Events,
);

#[test]
fn many_counts_of_events_of_a_room(rt: HostRuntime) {
    has_powers(&rt, &ROOM_EVENTS);
    has_each_count(&rt, &ROOM_EVENTS, 300);
}

#[test]
fn thousands_of_events_of_a_room(rt: HostRuntime) {
    has_multiples(&rt, &ROOM_EVENTS, 1_000, 16);
}

const QUEUE_EVENTS: Row<'static> = (
    EVENTS,
    r#"{"object":"queue","size":1,"seats":1,"events":["#,
    r#"[0,"delete"]"#,
    "]}",
    16_384,
    Field::Events,
);

#[test]
fn many_counts_of_events_of_a_queue(rt: HostRuntime) {
    has_powers(&rt, &QUEUE_EVENTS);
    has_each_count(&rt, &QUEUE_EVENTS, 300);
}

#[test]
fn thousands_of_events_of_a_queue(rt: HostRuntime) {
    has_multiples(&rt, &QUEUE_EVENTS, 1_000, 16);
}

/// The text before the processes at the start, in a script of this many slots.
fn before_start(alloc: Global, slots: usize) -> Result<String, AllocError> {
    format!(in alloc;
        r#"{{"version":1,"slots":{slots},"births":0,"quantum":1,"semaphores":[],"files":1,"programs":[[]],"start":["#
    )
}

#[test]
fn as_many_processes_start_as_there_are_slots(rt: HostRuntime) {
    for slots in 1..65usize {
        let before = before_start(rt.alloc(), slots).expect(&rt, "memory");
        let row = (START, before.as_str(), "0", "]}", slots, Field::Start);
        has_each_count(&rt, &row, 67);
    }
}

/// Whether the first step of a script says this text.
fn says(script: &Script, text: &[u8]) -> bool {
    match first_step(script) {
        Some(Step::Say(said)) => said.as_bytes() == text,
        _ => false,
    }
}

/// Whether this text is said, if it is read as the first step.
fn is_said(alloc: Global, input: &[u8], text: &[u8]) -> Result<bool, TextFault> {
    match read_script(alloc, input) {
        Ok(script) => Ok(says(&script, text)),
        Err(fault) => Err(fault),
    }
}

const BEFORE_SAID: &str =
    r#"{"version":1,"slots":1,"births":0,"quantum":1,"semaphores":[],"files":1,"programs":[[["say",""#;

/// Checks that this text is said if it is written so, or refused if it may not be said.
fn has_said(rt: &(impl Abort + AllocGlobal), written: &str, text: &[u8], may: bool) {
    let want = if may {
        Ok(true)
    } else {
        Err(TextFault::Range(Field::Programs))
    };
    let input = [BEFORE_SAID, written, r#""]]],"start":[]}"#].concat(rt.alloc());
    let input = input.expect(rt, "memory");
    let found = is_said(rt.alloc(), input.as_bytes(), text);
    holds_at(rt, found == want, written);
}

#[test]
fn texts_of_each_length(rt: HostRuntime) {
    for length in 0..200usize {
        let text = "~".repeat(rt.alloc(), length).expect(&rt, "memory");
        has_said(&rt, &text, text.as_bytes(), length <= 80);
    }
}

#[test]
fn texts_of_each_character(rt: HostRuntime) {
    for code in 0..0x180u32 {
        let written = format!(in rt.alloc(); "\\u{code:04x}").expect(&rt, "memory");
        has_said(
            &rt,
            &written,
            &[(code % 128) as u8],
            32 <= code && code <= 126,
        );
    }
}
