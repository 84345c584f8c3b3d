//! Each number of each format, on either side of both of its bounds and all over its range.

use crate::numbers::{
    BIRTHS, EXTENT, FILES, OF_ACT, OF_MARK, OF_START, OF_STEP, Place, QUANTUM, SEAT_OF_EVENT,
    SEAT_OF_MARK, SEATS, SEMAPHORE, SIZE, SLOTS, STINT, VERSION, has_number,
};
use crate::spread::{add_about, add_spread};
use fak_text::Field;
use std::alloc::{AllocError, Global};
use std::process::Abort;

/// A number between two texts: its place, its least and its greatest, and the key at fault beyond them.
type Row = (Place, &'static str, &'static str, u64, u64, Field);

/// The text after this head, if the row has this number.
fn text_with(alloc: Global, head: &str, row: &Row, number: u64) -> Result<String, AllocError> {
    format!(in alloc; "{head}{}{number}{}", row.1, row.2)
}

/// Adds the whole range of a row if it is short, else its bounds, with what lies next to them.
fn add_range(numbers: &mut Vec<u64>, row: &Row) -> Result<(), AllocError> {
    if row.4 <= 4_096 {
        add_about(numbers, 0, row.4.saturating_add(100))
    } else {
        add_about(numbers, row.3, 100)?;
        add_about(numbers, row.4, 100)
    }
}

/// Checks that the row reads its numbers in range after the head, and refuses those beyond.
fn has_range(rt: &(impl Abort + AllocGlobal), head: &str, row: &Row) {
    let of = (row.0, row.3, row.4, row.5);
    let mut numbers = Vec::new(rt.alloc());
    add_spread(&mut numbers).expect(rt, "memory");
    add_range(&mut numbers, row).expect(rt, "memory");
    for &number in &numbers {
        let made = text_with(rt.alloc(), head, row, number);
        has_number(rt, of, number, made, row.1);
    }
}

/// Checks that each row reads its numbers in range after the head, and refuses those beyond.
fn have_ranges(rt: &(impl Abort + AllocGlobal), head: &str, rows: &[Row]) {
    for row in rows {
        has_range(rt, head, row);
    }
}

const MOST: u64 = u64::MAX;

const MOST_FILE: u64 = 4_294_967_296;

const EVENTS: Field = Field::Events;

const MARKS: Field = Field::Marks;

const PROGRAMS: Field = Field::Programs;

#[test]
fn the_numbers_of_schedules(rt: HostRuntime) {
    const OF_ROOM: &[Row] = &[
        (
            EXTENT,
            r#""bound":"#,
            r#","seats":1,"events":[]}"#,
            0,
            4_294_967_296,
            Field::Bound,
        ),
        (
            SEATS,
            r#""bound":1,"seats":"#,
            r#","events":[]}"#,
            1,
            64,
            Field::Seats,
        ),
    ];
    have_ranges(&rt, r#"{"object":"room","#, OF_ROOM);
    const OF_QUEUE: &[Row] = &[
        (
            EXTENT,
            r#""size":"#,
            r#","seats":1,"events":[]}"#,
            1,
            4_096,
            Field::Size,
        ),
        (
            SEATS,
            r#""size":1,"seats":"#,
            r#","events":[]}"#,
            1,
            64,
            Field::Seats,
        ),
    ];
    have_ranges(&rt, r#"{"object":"queue","#, OF_QUEUE);
    const OF_ROOM_CALLS: &[Row] = &[
        (OF_ACT, r#""tir","#, "]]}", 1, 1_024, EVENTS),
        (OF_ACT, r#""release","#, "]]}", 1, 1_024, EVENTS),
        (OF_ACT, r#""step","#, "]]}", 1, 64, EVENTS),
    ];
    have_ranges(
        &rt,
        r#"{"object":"room","bound":1,"seats":1,"events":[[0,"#,
        OF_ROOM_CALLS,
    );
    const OF_QUEUE_CALLS: &[Row] = &[
        (OF_ACT, r#""step","#, "]]}", 1, 64, EVENTS),
        (OF_ACT, r#""insert","#, "]]}", 0, MOST, EVENTS),
    ];
    have_ranges(
        &rt,
        r#"{"object":"queue","size":1,"seats":1,"events":[[0,"#,
        OF_QUEUE_CALLS,
    );
}

/// Checks that the seat of an event between the head and each of these texts is read over its range.
fn have_seats_of_events(rt: &(impl Abort + AllocGlobal), head: &str, texts: &[&'static str]) {
    for text in texts {
        has_range(rt, head, &(SEAT_OF_EVENT, "", *text, 0, MOST, EVENTS));
    }
}

#[test]
fn the_seats_of_schedules(rt: HostRuntime) {
    const ROOM: &str = r#"{"object":"room","bound":1,"seats":1,"events":[["#;
    const TEXTS: &[&'static str] = &[
        r#","step"]]}"#,
        r#","step",7]]}"#,
        r#","tir",7]]}"#,
        r#","release",7]]}"#,
    ];
    have_seats_of_events(&rt, ROOM, TEXTS);
    const QUEUE: &str = r#"{"object":"queue","size":1,"seats":1,"events":[["#;
    const TEXTS_2: &[&'static str] = &[
        r#","step"]]}"#,
        r#","step",7]]}"#,
        r#","insert",7]]}"#,
        r#","delete"]]}"#,
        r#","shut"]]}"#,
    ];
    have_seats_of_events(&rt, QUEUE, TEXTS_2);
}

#[test]
fn the_seats_of_histories(rt: HostRuntime) {
    const TEXTS: &[&'static str] = &[
        r#","claim-in"]]}"#,
        r#","over-in"]]}"#,
        r#","back-in"]]}"#,
        r#","no-room"]]}"#,
        r#","end-in"]]}"#,
        r#","claim-out"]]}"#,
        r#","over-out"]]}"#,
        r#","back-out"]]}"#,
        r#","no-item"]]}"#,
        r#","end-out"]]}"#,
        r#","close"]]}"#,
        r#","closed"]]}"#,
        r#","late-in"]]}"#,
        r#","put",7]]}"#,
        r#","fill",7]]}"#,
        r#","got",7]]}"#,
        r#","take",7]]}"#,
    ];
    for text in TEXTS {
        let row = (SEAT_OF_MARK, r#"{"size":1,"marks":[["#, *text, 0, 63, MARKS);
        has_range(&rt, "", &row);
    }
}

#[test]
fn the_numbers_of_histories(rt: HostRuntime) {
    const OF_HISTORY: &[Row] = &[(SIZE, "", r#","marks":[]}"#, 1, 4_096, Field::Size)];
    have_ranges(&rt, r#"{"size":"#, OF_HISTORY);
    const OF_MARKS: &[Row] = &[
        (OF_MARK, r#""put","#, "]]}", 0, MOST, MARKS),
        (OF_MARK, r#""fill","#, "]]}", 0, MOST, MARKS),
        (OF_MARK, r#""got","#, "]]}", 0, MOST, MARKS),
        (OF_MARK, r#""take","#, "]]}", 0, MOST, MARKS),
    ];
    have_ranges(&rt, r#"{"size":1,"marks":[[0,"#, OF_MARKS);
}

#[test]
fn the_numbers_of_scripts(rt: HostRuntime) {
    const VERSIONS: &[Row] = &[(
        VERSION,
        "",
        r#","slots":1,"births":0,"quantum":1,"semaphores":[],"files":1,"programs":[],"start":[]}"#,
        1,
        2,
        Field::Version,
    )];
    have_ranges(&rt, r#"{"version":"#, VERSIONS);
    const OF_EACH_VERSION: &[Row] = &[
        (
            SLOTS,
            r#","slots":"#,
            r#","births":0,"quantum":1,"semaphores":[],"files":1,"programs":[],"start":[]}"#,
            1,
            64,
            Field::Slots,
        ),
        (
            BIRTHS,
            r#","slots":1,"births":"#,
            r#","quantum":1,"semaphores":[],"files":1,"programs":[],"start":[]}"#,
            0,
            1_000,
            Field::Births,
        ),
        (
            QUANTUM,
            r#","slots":1,"births":0,"quantum":"#,
            r#","semaphores":[],"files":1,"programs":[],"start":[]}"#,
            1,
            1_000,
            Field::Quantum,
        ),
        (
            STINT,
            r#","slots":1,"births":0,"quantum":1,"stint":"#,
            r#","semaphores":[],"files":1,"programs":[],"start":[]}"#,
            1,
            1_099_511_627_776,
            Field::Stint,
        ),
        (
            SEMAPHORE,
            r#","slots":1,"births":0,"quantum":1,"semaphores":["#,
            r#"],"files":1,"programs":[],"start":[]}"#,
            0,
            1_000_000,
            Field::Semaphores,
        ),
        (
            FILES,
            r#","slots":1,"births":0,"quantum":1,"semaphores":[],"files":"#,
            r#","programs":[],"start":[]}"#,
            1,
            16,
            Field::Files,
        ),
    ];
    have_ranges(&rt, r#"{"version":1"#, OF_EACH_VERSION);
    have_ranges(&rt, r#"{"version":2"#, OF_EACH_VERSION);
}

const AFTER_STEP: &str = r#"]],[],[]],"start":[]}"#;

#[test]
fn the_numbers_of_steps(rt: HostRuntime) {
    const ROWS: &[Row] = &[
        (OF_STEP, r#"[["down","#, AFTER_STEP, 0, 2, PROGRAMS),
        (OF_STEP, r#"[["up","#, AFTER_STEP, 0, 2, PROGRAMS),
        (OF_STEP, r#"[["open","#, AFTER_STEP, 1, MOST_FILE, PROGRAMS),
        (OF_STEP, r#"[["close","#, AFTER_STEP, 1, MOST_FILE, PROGRAMS),
        (OF_STEP, r#"[["stat","#, AFTER_STEP, 1, MOST_FILE, PROGRAMS),
        (OF_STEP, r#"[["spawn","#, AFTER_STEP, 0, 2, PROGRAMS),
        (OF_START, r#"[],[],[]],"start":["#, "]}", 0, 2, Field::Start),
    ];
    let head_1 =
        r#"{"version":1,"slots":1,"births":0,"quantum":1,"semaphores":[0,0,0],"files":1,"programs":["#;
    have_ranges(&rt, head_1, ROWS);
    let head_2 =
        r#"{"version":2,"slots":1,"births":0,"quantum":1,"semaphores":[0,0,0],"files":1,"programs":["#;
    have_ranges(&rt, head_2, ROWS);
}
