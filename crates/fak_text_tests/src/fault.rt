use crate::inputs::{Input, holds_at, is_made};
use fak_text::{Field, TextFault};
use std::alloc::{AllocError, Global};
use std::process::Abort;

#[test]
fn faults_are_one_line_each(rt: HostRuntime) {
    const ROWS: &[(TextFault, &str)] = &[
        (TextFault::NotJson, "fak: input is not JSON"),
        (
            TextFault::Missing(Field::Quantum),
            "fak: missing field quantum",
        ),
        (
            TextFault::Range(Field::Input),
            "fak: field input out of range",
        ),
        (
            TextFault::Range(Field::Semaphores),
            "fak: field semaphores out of range",
        ),
        (TextFault::UnknownOp(17), "fak: unknown operation at 17"),
        (TextFault::Memory, "fak: out of memory"),
    ];
    for (fault, want) in ROWS {
        is_made(&rt, fault.to_string(rt.alloc()), want);
    }
}

#[test]
fn fields_are_named_as_their_keys(rt: HostRuntime) {
    const ROWS: &[(Field, &str)] = &[
        (Field::Input, "input"),
        (Field::Object, "object"),
        (Field::Bound, "bound"),
        (Field::Size, "size"),
        (Field::Seats, "seats"),
        (Field::Events, "events"),
        (Field::Marks, "marks"),
        (Field::Version, "version"),
        (Field::Slots, "slots"),
        (Field::Births, "births"),
        (Field::Quantum, "quantum"),
        (Field::Stint, "stint"),
        (Field::Semaphores, "semaphores"),
        (Field::Files, "files"),
        (Field::Programs, "programs"),
        (Field::Start, "start"),
    ];
    for (field, want) in ROWS {
        is_made(&rt, field.to_string(rt.alloc()), want);
        holds_at(&rt, field.name() == *want, want);
    }
}

/// The faults of these bytes as a schedule, a history and a script.
fn faults(alloc: Global, bytes: &[u8]) -> [Option<TextFault>; 3] {
    [
        Input::Schedule.fault(alloc, bytes),
        Input::History.fault(alloc, bytes),
        Input::Script.fault(alloc, bytes),
    ]
}

/// Checks that each text has this fault, whatever it is read as.
fn have_fault(rt: &(impl Abort + AllocGlobal), texts: &[&str], fault: TextFault) {
    for &text in texts {
        holds_at(
            rt,
            faults(rt.alloc(), text.as_bytes()) == [Some(fault); 3],
            text,
        );
    }
}

#[test]
fn bytes_that_are_no_json(rt: HostRuntime) {
    // not UTF-8, cut short, nothing, a number that fits no float, a lone surrogate, a byte order mark, two values, a
    // number that begins with 0
    let fault = Input::Schedule.fault(rt.alloc(), &[123, 34, 255, 34, 125]);
    holds_at(&rt, fault == Some(TextFault::NotJson), "no UTF-8");
    const TEXTS: &[&str] = &[
        "{\"version\":1,",
        "",
        " ",
        "1e999",
        "\"\\ud800\"",
        "\u{feff}{}",
        "{} {}",
        "01",
        "{'a':1}",
    ];
    have_fault(&rt, TEXTS, TextFault::NotJson);
}

#[test]
fn values_that_are_no_object(rt: HostRuntime) {
    const TEXTS: &[&str] = &["[]", "7", "null", "\"object\"", "true"];
    have_fault(&rt, TEXTS, TextFault::Range(Field::Input));
}

/// A history with a list so deep in the object.
fn nested(alloc: Global, depth: usize) -> Result<String, AllocError> {
    let left = "[".repeat(alloc, depth)?;
    let right = "]".repeat(alloc, depth)?;
    [r#"{"size":1,"marks":[],"other":"#, &left, &right, "}"].concat(alloc)
}

#[test]
fn nesting_is_read_to_depth_127(rt: HostRuntime) {
    let fault = Input::History.fault_of(rt.alloc(), nested(rt.alloc(), 126));
    holds_at(&rt, fault == None, "126 lists");
    let fault = Input::History.fault_of(rt.alloc(), nested(rt.alloc(), 127));
    holds_at(&rt, fault == Some(TextFault::NotJson), "127 lists");
}

/// Checks that this text after 1,048,574 spaces has these faults.
fn have_faults_behind(rt: &(impl Abort + AllocGlobal), text: &str, wanted: [Option<TextFault>; 3]) {
    let mut input = " ".repeat(rt.alloc(), 1_048_574).expect(rt, "memory");
    input.push_str(text).expect(rt, "memory");
    holds_at(rt, faults(rt.alloc(), input.as_bytes()) == wanted, text);
}

const MISSING: [Option<TextFault>; 3] = [
    Some(TextFault::Missing(Field::Object)),
    Some(TextFault::Missing(Field::Size)),
    Some(TextFault::Missing(Field::Version)),
];

#[test]
fn an_input_has_at_most_1048576_bytes(rt: HostRuntime) {
    have_faults_behind(&rt, "{}", MISSING);
    // the length is tested before the JSON is read
    have_faults_behind(&rt, "{}}", [Some(TextFault::Range(Field::Input)); 3]);
}
