//! Statuses, and which of the two outputs a text goes to.

use crate::answers::{is_text, words_of};
use crate::rows::{are_answered, faults};
use fak_commands::{MainFault, conclude, run_words};
use fak_kernel::Fault;
use fak_text::{Field, TextFault};
use std::alloc::{AllocError, Global};
use std::io;
use std::io::{ErrorKind, Read};
use std::marker::Sync;
use std::process::Abort;
use std::sync::Wait;
use std::thread::Threads;

/// A reader that fails.
#[derive(Drop)]
struct Broken;

impl Read for Broken {
    fn read(&mut self, _buf: &mut [u8]) -> io::Result<usize> {
        Err(io::Error::from(ErrorKind::Other))
    }
}

/// Whether the program with the words of a line ends with this status, and these texts in its output and that of faults.
pub(crate) fn ends<R: Read>(
    rt: &(impl Threads + Wait + Sync),
    alloc: Global,
    line: &str,
    reader: &mut R,
    want: (u8, &str, &str),
) -> Result<bool, AllocError> {
    let words = words_of(alloc, line)?;
    let mut output = Vec::new(alloc);
    let mut faults = Vec::new(alloc);
    let status = run_words(rt, alloc, words, reader, &mut output, &mut faults);
    let is_output = is_text(&output, want.1);
    let are_faults = is_text(&faults, want.2);
    Ok(status == want.0 && is_output && are_faults)
}

/// Checks that the lines, each with the input next to it, end with these statuses and texts.
fn have_ends(
    rt: &(impl Abort + AllocGlobal + Threads + Wait + Sync),
    rows: &[(&str, &str, (u8, &str, &str))],
) {
    for &(line, input, want) in rows {
        if ends(rt, rt.alloc(), line, &mut input.as_bytes(), want) != Ok(true) {
            panic!(rt; "{line} at {input}")
        }
    }
}

#[test]
fn an_answer_goes_to_the_output(rt: HostRuntime) {
    const ROWS: &[(&str, &str, (u8, &str, &str))] = &[
        ("fak check", r#"{"size":1,"marks":[]}"#, (0, "legal\n", "")),
        (
            "fak check",
            r#"{"size":1,"marks":[[0,"no-room"]]}"#,
            (3, "fault at 0\n", ""),
        ),
        (
            "fak replay",
            r#"{"object":"room","bound":1,"seats":1,"events":[[1,"step"]]}"#,
            (0, "1 refused no-such-seat\n", ""),
        ),
        (
            "fak run",
            r#"{"version":1,"slots":1,"births":0,"quantum":4,"semaphores":[0],"files":1,"programs":[[["down",0]]],"start":[0]}"#,
            (
                3,
                "process 0 program 0 slot 0 stuck\nbirths 0 of 0\nended 0 stuck 1\n",
                "",
            ),
        ),
        (
            "fak run --processors 2",
            r#"{"version":1,"slots":1,"births":0,"quantum":4,"semaphores":[0],"files":1,"programs":[[["down",0]]],"start":[0]}"#,
            (
                3,
                "process 0 program 0 slot 0 stuck\nbirths 0 of 0\nended 0 stuck 1\n",
                "",
            ),
        ),
    ];
    have_ends(&rt, ROWS);
}

#[test]
fn a_fault_goes_to_the_output_of_faults(rt: HostRuntime) {
    const ROWS: &[(&str, &str, (u8, &str, &str))] = &[
        ("fak replay", "[", (2, "", "fak: input is not JSON\n")),
        ("fak check", "{}", (2, "", "fak: missing field size\n")),
        (
            "fak run",
            r#"{"version":3}"#,
            (2, "", "fak: field version out of range\n"),
        ),
        (
            "fak check",
            r#"{"size":1,"marks":[[0,"shut"]]}"#,
            (2, "", "fak: unknown operation at 0\n"),
        ),
        (
            "fak copy",
            "{}",
            (
                2,
                "",
                "fak: usage: fak replay, fak check, fak run --processors N\n",
            ),
        ),
    ];
    have_ends(&rt, ROWS);
}

#[test]
fn scenarios_of_faults(rt: HostRuntime) {
    are_answered(&rt, faults::ROWS);
}

#[test]
fn a_read_fault_has_status_1(rt: HostRuntime) {
    let want = (1, "", "fak: input could not be read\n");
    assert!(rt; ends(&rt, rt.alloc(), "fak run", &mut Broken, want) == Ok(true));
}

/// Whether the program ends with this status after the fault, and writes this text as a line.
fn is_told(rt: &(impl Abort + AllocGlobal), fault: MainFault, status: u8, text: &str) -> bool {
    let mut faults = Vec::new(rt.alloc());
    let ended = conclude(Err(fault), &mut faults);
    let written = fault.to_string(rt.alloc()).expect(rt, "memory");
    let line = format!(in rt.alloc(); "{text}\n").expect(rt, "memory");
    ended == status
        && fault.status() == status
        && written.as_str() == text
        && is_text(&faults, &line)
}

/// Checks that each fault has this status and this text.
fn have_texts(rt: &(impl Abort + AllocGlobal), rows: &[(MainFault, u8, &str)]) {
    for &(fault, status, text) in rows {
        assert!(rt; is_told(rt, fault, status, text), "{fault:?}");
    }
}

#[test]
fn the_text_and_status_of_each_fault(rt: HostRuntime) {
    const ROWS: &[(MainFault, u8, &str)] = &[
        (
            MainFault::Usage,
            2,
            "fak: usage: fak replay, fak check, fak run --processors N",
        ),
        (
            MainFault::Text(TextFault::NotJson),
            2,
            "fak: input is not JSON",
        ),
        (
            MainFault::Text(TextFault::UnknownOp(0)),
            2,
            "fak: unknown operation at 0",
        ),
        (
            MainFault::Text(TextFault::UnknownOp(u64::MAX)),
            2,
            "fak: unknown operation at 18446744073709551615",
        ),
        (MainFault::Text(TextFault::Memory), 2, "fak: out of memory"),
        (
            MainFault::Kernel(Fault::BadProcessors),
            2,
            "fak: processors out of range",
        ),
        (MainFault::Kernel(Fault::Worn), 1, "fak: a seat is worn"),
        (MainFault::Kernel(Fault::Gate), 1, "fak: the gate refused"),
        (MainFault::Kernel(Fault::NoThread), 1, "fak: no thread"),
        (MainFault::Kernel(Fault::Memory), 1, "fak: out of memory"),
        (MainFault::Memory, 1, "fak: out of memory"),
        (MainFault::Read, 1, "fak: input could not be read"),
        (MainFault::Write, 1, "fak: output could not be written"),
    ];
    have_texts(&rt, ROWS);
}

/// Finds the texts of the faults of this key, which is missing or out of range.
fn have_texts_of(rt: &(impl Abort + AllocGlobal), field: Field, name: &str) {
    let missing = format!(in rt.alloc(); "fak: missing field {name}").expect(rt, "memory");
    have_texts(
        rt,
        &[(MainFault::Text(TextFault::Missing(field)), 2, &missing)],
    );
    let range = format!(in rt.alloc(); "fak: field {name} out of range").expect(rt, "memory");
    have_texts(rt, &[(MainFault::Text(TextFault::Range(field)), 2, &range)]);
}

#[test]
fn the_text_of_the_fault_of_each_key(rt: HostRuntime) {
    const FIELDS: &[(Field, &str)] = &[
        (Field::Input, "input"),
        (Field::Object, "object"),
        (Field::Bound, "bound"),
        (Field::Size, "size"),
        (Field::Seats, "seats"),
        (Field::Events, "events"),
        (Field::Marks, "marks"),
        (Field::Version, "version"),
        (Field::Slots, "slots"),
        (Field::Births, "births"),
        (Field::Quantum, "quantum"),
        (Field::Stint, "stint"),
        (Field::Semaphores, "semaphores"),
        (Field::Files, "files"),
        (Field::Programs, "programs"),
        (Field::Start, "start"),
    ];
    for &(field, name) in FIELDS {
        have_texts_of(&rt, field, name);
    }
}

#[test]
fn an_answer_ends_with_its_status(rt: HostRuntime) {
    for status in 0..=255u8 {
        let mut faults = Vec::new(rt.alloc());
        assert!(rt; conclude(Ok(status), &mut faults) == status && is_text(&faults, ""));
    }
}
