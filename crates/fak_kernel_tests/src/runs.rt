//! Runs on several processors: each report is judged, and gates show that the processors run at once.

use super::drawn_scripts::drawn_script;
use super::examples::{
    CURFEW, PING_PONG, PING_PONG_REPORT, READER, READER_REPORT, add_parts, assert_with, fault_of,
    has_text, is_left, is_printed, run_on, run_on_to_text, script_in_parts, script_of,
};
use super::gates::{Holding, Meeting, Refusing};
use super::judge::keeps_promises;
use crate::Draws;
use fak_kernel::{Fault, FreeGate, Gate, Printed, Report, report_text, run, run_to_text};
use fak_text::Script;
use std::alloc::Global;
use std::marker::Sync;
use std::process::Abort;
use std::sync::Wait;
use std::thread::Threads;

/// A processor is held this many turns at most, if another one comes, and if none does.
const MANY: u64 = 100_000_000;

const FEW: u64 = 1_000;

/// One empty program, and seats that have one call each.
const WORN: &str =
    r#"{"version":1,"slots":1,"births":0,"quantum":1,"stint":1,"semaphores":[],"files":1,
"programs":[[]],
"start":[0]}"#;

/// The report of a run.
fn report_on<R: Abort + Threads + Wait + Sync, G: Gate + Sync>(
    rt: &R,
    alloc: Global,
    script: &Script,
    processors: u64,
    gate: &G,
) -> Report {
    run(rt, alloc, script, processors, gate).expect(rt, "a report")
}

/// Checks that a run has this report.
fn reports<R: Abort + Threads + Wait + Sync, G: Gate + Sync>(
    rt: &R,
    alloc: Global,
    script: &str,
    processors: u64,
    gate: &G,
    text: &str,
) {
    let script = script_of(rt, alloc, script);
    let report = report_on(rt, alloc, &script, processors, gate);
    has_text(rt, alloc, &report, processors, text);
}

/// Checks that a run ends with this fault.
fn fails<R: Abort + Threads + Wait + Sync, G: Gate + Sync>(
    rt: &R,
    alloc: Global,
    script: &str,
    processors: u64,
    gate: &G,
    wanted: Fault,
) {
    let fault = fault_of(rt, alloc, script, processors, gate);
    is_left(rt, fault, wanted, false, 0, processors);
}

/// Checks that this many processors meet, and that one less is refused.
fn meet<R: Abort + Threads + Wait + Sync>(rt: &R, alloc: Global, processors: u64) {
    let gate = Meeting::new(processors, MANY);
    assert!(rt; gate.may_refuse());
    reports(rt, alloc, PING_PONG, processors, &gate, PING_PONG_REPORT);
    let gate = Meeting::new(processors, FEW);
    let fewer = processors.saturating_sub(1);
    fails(rt, alloc, PING_PONG, fewer, &gate, Fault::Gate);
}

#[test]
fn two_processors_meet(rt: HostRuntime) {
    meet(&rt, rt.alloc(), 2);
}

#[test]
fn three_processors_meet(rt: HostRuntime) {
    meet(&rt, rt.alloc(), 3);
}

#[test]
fn one_processor_is_held_until_the_other_is_done(rt: HostRuntime) {
    for held in 0..2u64 {
        let gate = Holding::new(held, MANY);
        reports(&rt, rt.alloc(), PING_PONG, 2, &gate, PING_PONG_REPORT);
    }
    fails(
        &rt,
        rt.alloc(),
        PING_PONG,
        1,
        &Holding::new(0, FEW),
        Fault::Gate,
    );
}

/// Scripts, and their reports.
const KNOWN: [(&str, &str); 2] = [(PING_PONG, PING_PONG_REPORT), (READER, READER_REPORT)];

#[test]
fn known_reports_on_1_to_8(rt: HostRuntime) {
    for processors in 1..9u64 {
        for &(script, report) in &KNOWN {
            reports(&rt, rt.alloc(), script, processors, &FreeGate, report);
        }
    }
}

/// What a run prints that returns only the text.
fn printed_on<R: Abort + Threads + Wait + Sync>(
    rt: &R,
    alloc: Global,
    script: &str,
    processors: u64,
) -> Result<Printed, Fault> {
    let script = script_of(rt, alloc, script);
    run_to_text(rt, alloc, &script, processors, &FreeGate)
}

/// Checks that such a run prints this, with status 0.
fn prints<R: Abort + Threads + Wait + Sync>(
    rt: &R,
    alloc: Global,
    script: &str,
    processors: u64,
    text: &str,
) {
    let printed = printed_on(rt, alloc, script, processors);
    is_printed(rt, printed, processors, text, 0);
}

#[test]
fn known_texts_on_1_to_8(rt: HostRuntime) {
    for processors in 1..9u64 {
        prints(&rt, rt.alloc(), PING_PONG, processors, PING_PONG_REPORT);
    }
    let refused = printed_on(&rt, rt.alloc(), PING_PONG, 9).err();
    is_left(&rt, refused, Fault::BadProcessors, false, 0, 9);
}

#[test]
fn other_numbers_of_processors(rt: HostRuntime) {
    for &processors in &[0u64, 9, 18_446_744_073_709_551_615] {
        fails(
            &rt,
            rt.alloc(),
            PING_PONG,
            processors,
            &FreeGate,
            Fault::BadProcessors,
        );
    }
}

#[test]
fn a_stint_of_one_call_is_worn(rt: HostRuntime) {
    for &processors in &[1u64, 3] {
        fails(&rt, rt.alloc(), WORN, processors, &FreeGate, Fault::Worn);
    }
}

#[test]
fn a_gate_refuses(rt: HostRuntime) {
    fails(
        &rt,
        rt.alloc(),
        PING_PONG,
        4,
        &Refusing::new(1),
        Fault::Gate,
    );
}

/// A report that keeps all promises.
fn judged_report<R: Abort + Threads + Wait + Sync>(
    rt: &R,
    alloc: Global,
    script: &str,
    processors: u64,
) -> Report {
    let text = script;
    let script = script_of(rt, alloc, text);
    let report = report_on(rt, alloc, &script, processors, &FreeGate);
    keeps_promises(rt, alloc, &script, &report, processors, text);
    report
}

#[test]
fn a_shutdown_on_two(rt: HostRuntime) {
    let report = judged_report(&rt, rt.alloc(), CURFEW, 2);
    assert!(rt; report.rows.len() == 3);
}

#[test]
fn drawn_scripts_keep_their_promises(rt: HostRuntime) {
    let mut draws = Draws::new(88_172_645_463_325_252);
    for _ in 0..64 {
        let script = drawn_script(&rt, rt.alloc(), &mut draws);
        for &processors in &[2u64, 4, 8] {
            drop(judged_report(&rt, rt.alloc(), &script, processors));
        }
    }
}

#[test]
fn a_thousand_children(rt: HostRuntime) {
    let script = r#"{"version":1,"slots":64,"births":1000,"quantum":1,"semaphores":[1],"files":1,
"programs":[[["spawn",0],["down",0],["spawn",0],["up",0],["spawn",0]]],"start":[0,0,0,0,0,0,0,0,0,0,0,0]}"#;
    let report = judged_report(&rt, rt.alloc(), script, 8);
    assert!(rt; report.births > 63);
}

/// 64 processes that say one text each.
const MANY_ROWS: [(u64, &str); 3] = [
    (
        1,
        r#"{"version":1,"slots":64,"births":0,"quantum":1,"semaphores":[],"files":1,"programs":[[["say","a"]]],"start":[0"#,
    ),
    (63, ",0"),
    (1, "]}"),
];

/// One process that says a text of each length from 0 to 80.
fn long_texts(rt: &impl Abort, alloc: Global) -> Script {
    let mut text = String::new(alloc);
    add_parts(rt, &mut text, &LONG_TEXTS_FRONT);
    for length in 1..81u64 {
        add_parts(
            rt,
            &mut text,
            &[(1, r#",["say",""#), (length, "x"), (1, r#""]"#)],
        );
    }
    add_parts(rt, &mut text, &[(1, r#"]],"start":[0]}"#)]);
    script_of(rt, alloc, &text)
}

const LONG_TEXTS_FRONT: [(u64, &str); 1] = [(
    1,
    r#"{"version":1,"slots":1,"births":0,"quantum":9,"semaphores":[],"files":1,"programs":[[["say",""]"#,
)];

/// The text of the report of a run.
fn whole_text<R: Abort + Threads + Wait + Sync>(
    rt: &R,
    alloc: Global,
    script: &Script,
    processors: u64,
) -> Vec<u8> {
    let report = run_on(rt, alloc, script, processors).expect(rt, "a report");
    report_text(alloc, &report).expect(rt, "a text")
}

/// How many lines are ended.
fn lines_of(text: &[u8]) -> u64 {
    let mut lines = 0u64;
    for byte in text {
        if *byte == b'\n' {
            lines = lines.saturating_add(1);
        }
    }
    lines
}

/// Checks that both texts are the same, and have this many lines.
fn are_same(rt: &impl Abort, whole: &[u8], printed: &[u8], lines: u64, processors: u64) {
    let found = lines_of(whole);
    let is_same = whole == printed && found == lines;
    assert_with(
        rt,
        is_same,
        "lines, or another text",
        found,
        lines,
        processors,
    );
}

/// Checks that this is the text that a run prints that returns only the text.
fn is_the_same_text<R: Abort + Threads + Wait + Sync>(
    rt: &R,
    alloc: Global,
    script: Script,
    lines: u64,
) {
    for processors in 0..9u64 {
        let whole = whole_text(rt, alloc, &script, processors);
        let printed = run_on_to_text(rt, alloc, &script, processors).expect(rt, "a text");
        are_same(rt, &whole, &printed.text, lines, processors);
    }
}

#[test]
fn a_report_has_the_text_that_is_printed(rt: HostRuntime) {
    let script = script_in_parts(&rt, rt.alloc(), &MANY_ROWS);
    is_the_same_text(&rt, rt.alloc(), script, 130);
    let script = long_texts(&rt, rt.alloc());
    is_the_same_text(&rt, rt.alloc(), script, 84);
}
