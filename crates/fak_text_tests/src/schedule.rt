use crate::counts::{Row, has_count};
use crate::inputs::{Input, have_faults, holds_at};
use crate::numbers;
use fak_core::{QueueCall, RoomCall};
use fak_text::{Act, Event, Field, Object, TextFault, read_schedule};
use std::alloc::Global;

const EVENTS: TextFault = TextFault::Range(Field::Events);

const ROOM: &str = r#"{"object":"room","bound":1,"seats":1,"events":["#;

const QUEUE: &str = r#"{"object":"queue","size":1,"seats":1,"events":["#;

/// Whether the text is a schedule of these parts.
fn has_parts(alloc: Global, text: &str, object: Object, seats: u64, events: &[Event]) -> bool {
    match read_schedule(alloc, text.as_bytes()) {
        Ok(schedule) => {
            schedule.object == object
                && schedule.seats == seats
                && schedule.events.as_slice() == events
        }
        Err(_) => false,
    }
}

#[test]
fn a_schedule_of_a_room(rt: HostRuntime) {
    const TEXT: &str =
        r#"{"object":"room","bound":4294967296,"seats":64,"events":[[0,"tir",1024],[1,"release",1],[2,"step"],[18446744073709551615,"step",64]]}"#;
    const EVENTS: &[Event] = &[
        Event {
            seat: 0,
            act: Act::Room(RoomCall::Tir(1024)),
        },
        Event {
            seat: 1,
            act: Act::Room(RoomCall::Release(1)),
        },
        Event {
            seat: 2,
            act: Act::Steps(1),
        },
        Event {
            seat: 18446744073709551615,
            act: Act::Steps(64),
        },
    ];
    let is_so = has_parts(rt.alloc(), TEXT, Object::Room(4294967296), 64, EVENTS);
    holds_at(&rt, is_so, TEXT);
}

#[test]
fn a_schedule_of_a_queue(rt: HostRuntime) {
    const TEXT: &str =
        r#"{"events":[[0,"insert",18446744073709551615],[1,"delete"],[1,"shut"],[1,"step",2]],"seats":1,"more":{},"size":4096,"object":"queue"}"#;
    const EVENTS: &[Event] = &[
        Event {
            seat: 0,
            act: Act::Queue(QueueCall::Insert(18446744073709551615)),
        },
        Event {
            seat: 1,
            act: Act::Queue(QueueCall::Delete),
        },
        Event {
            seat: 1,
            act: Act::Queue(QueueCall::Shut),
        },
        Event {
            seat: 1,
            act: Act::Steps(2),
        },
    ];
    let is_so = has_parts(rt.alloc(), TEXT, Object::Queue(4096), 1, EVENTS);
    holds_at(&rt, is_so, TEXT);
}

#[test]
fn the_first_fault_of_the_keys(rt: HostRuntime) {
    const ROWS: &[(&str, TextFault)] = &[
        (
            r#"{"seats":0,"events":7}"#,
            TextFault::Missing(Field::Object),
        ),
        (r#"{"object":7,"seats":0}"#, TextFault::Range(Field::Object)),
        (
            r#"{"object":"rooms","seats":0}"#,
            TextFault::Range(Field::Object),
        ),
        (
            r#"{"object":"room","size":1,"seats":0}"#,
            TextFault::Missing(Field::Bound),
        ),
        (
            r#"{"object":"room","bound":4294967297}"#,
            TextFault::Range(Field::Bound),
        ),
        (
            r#"{"object":"room","bound":-1}"#,
            TextFault::Range(Field::Bound),
        ),
        (
            r#"{"object":"room","bound":-0}"#,
            TextFault::Range(Field::Bound),
        ),
        (
            r#"{"object":"room","bound":1.0}"#,
            TextFault::Range(Field::Bound),
        ),
        (
            r#"{"object":"room","bound":1e3}"#,
            TextFault::Range(Field::Bound),
        ),
        (
            r#"{"object":"room","bound":"1"}"#,
            TextFault::Range(Field::Bound),
        ),
        (
            r#"{"object":"room","bound":null}"#,
            TextFault::Range(Field::Bound),
        ),
        (
            r#"{"object":"queue","bound":1,"seats":0}"#,
            TextFault::Missing(Field::Size),
        ),
        (
            r#"{"object":"queue","size":0,"seats":0}"#,
            TextFault::Range(Field::Size),
        ),
        (
            r#"{"object":"queue","size":4097}"#,
            TextFault::Range(Field::Size),
        ),
        (
            r#"{"object":"room","bound":0,"events":7}"#,
            TextFault::Missing(Field::Seats),
        ),
        (
            r#"{"object":"room","bound":0,"seats":0,"events":7}"#,
            TextFault::Range(Field::Seats),
        ),
        (
            r#"{"object":"room","bound":0,"seats":65}"#,
            TextFault::Range(Field::Seats),
        ),
        (
            r#"{"object":"room","bound":0,"seats":18446744073709551616}"#,
            TextFault::Range(Field::Seats),
        ),
        (
            r#"{"object":"room","bound":0,"seats":1}"#,
            TextFault::Missing(Field::Events),
        ),
        (
            r#"{"object":"room","bound":0,"seats":1,"events":{}}"#,
            EVENTS,
        ),
        // the last of two equal keys counts
        (
            r#"{"object":"room","bound":0,"seats":0,"seats":1}"#,
            TextFault::Missing(Field::Events),
        ),
        (
            r#"{"object":"room","bound":0,"seats":1,"seats":0}"#,
            TextFault::Range(Field::Seats),
        ),
    ];
    have_faults(&rt, Input::Schedule, "", "", ROWS);
}

#[test]
fn the_first_fault_of_the_events(rt: HostRuntime) {
    const OF_ROOM: &[(&str, TextFault)] = &[
        (r#"7"#, EVENTS),
        (r#"{}"#, EVENTS),
        (r#"[]"#, EVENTS),
        (r#"[0]"#, EVENTS),
        (r#"["0","step"]"#, EVENTS),
        (r#"[-1,"step"]"#, EVENTS),
        (r#"[18446744073709551616,"step"]"#, EVENTS),
        (r#"[0,1]"#, EVENTS),
        (r#"[0,"jump"]"#, TextFault::UnknownOp(0)),
        (r#"[0,"Tir",1]"#, TextFault::UnknownOp(0)),
        (r#"[0,"insert",1]"#, TextFault::UnknownOp(0)),
        (r#"[0,"delete"]"#, TextFault::UnknownOp(0)),
        (r#"[0,"shut"]"#, TextFault::UnknownOp(0)),
        (r#"[0,"step"],[0,"jump",1,2]"#, TextFault::UnknownOp(1)),
        (r#"[0,"tir",0],[0,"jump"]"#, EVENTS),
        (r#"[0,"step",1,1]"#, EVENTS),
        (r#"[0,"step",0]"#, EVENTS),
        (r#"[0,"step",65]"#, EVENTS),
        (r#"[0,"step","1"]"#, EVENTS),
        (r#"[0,"tir"]"#, EVENTS),
        (r#"[0,"tir",1,1]"#, EVENTS),
        (r#"[0,"tir",1025]"#, EVENTS),
        (r#"[0,"release"]"#, EVENTS),
        (r#"[0,"release",0]"#, EVENTS),
        (r#"[0,"release",1025]"#, EVENTS),
    ];
    have_faults(&rt, Input::Schedule, ROOM, "]}", OF_ROOM);
    const OF_QUEUE: &[(&str, TextFault)] = &[
        (r#"[0,"tir",1]"#, TextFault::UnknownOp(0)),
        (r#"[0,"release",1]"#, TextFault::UnknownOp(0)),
        (r#"[0,"insert"]"#, EVENTS),
        (r#"[0,"insert",-1]"#, EVENTS),
        (r#"[0,"insert",1,1]"#, EVENTS),
        (r#"[0,"insert",18446744073709551616]"#, EVENTS),
        (r#"[0,"delete",1]"#, EVENTS),
        (r#"[0,"shut",1]"#, EVENTS),
        (r#"[0,"step",65]"#, EVENTS),
    ];
    have_faults(&rt, Input::Schedule, QUEUE, "]}", OF_QUEUE);
}

#[test]
fn a_schedule_has_at_most_16384_events(rt: HostRuntime) {
    const MANY: &Row<'static> = &(
        numbers::EVENTS,
        ROOM,
        r#"[0,"step"]"#,
        "]}",
        16_384,
        Field::Events,
    );
    has_count(&rt, MANY, 16_384);
    // their number is tested before the first event is
    const TOO_MANY: &Row<'static> = &(
        numbers::EVENTS,
        r#"{"object":"room","bound":1,"seats":1,"events":[[0,"jump"],"#,
        r#"[0,"step"]"#,
        "]}",
        16_383,
        Field::Events,
    );
    has_count(&rt, TOO_MANY, 16_384);
}
