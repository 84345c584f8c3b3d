//! The judge finds what is broken in reports that were changed.

use super::examples::{READER, assert_with, report_of, script_of};
use super::judge::{broken_promise, keeps_promises};
use fak_kernel::{Outcome, ProcessRow, Report};
use fak_text::{Note, Script};
use std::alloc::Global;
use std::process::Abort;
use std::sync::Wait;

/// Two sleepers.
const SLEEPERS: &str = r#"{"version":1,"slots":2,"births":0,"quantum":4,"semaphores":[0],"files":1,
"programs":[[["down",0]]],"start":[0,0]}"#;

#[derive(Clone, Copy, Drop)]
enum Change {
    Version,
    Order,
    Row,
    Outcome,
    Slot,
    Pass,
    Program,
    Parent,
    Entry,
}

/// Makes the change, if it can be made.
fn apply(report: &mut Report, what: Change) -> bool {
    match what {
        Change::Version => {
            report.version = 2;
            true
        }
        Change::Order => {
            report.rows.as_mut_slice().reverse();
            true
        }
        Change::Row => report.rows.pop().is_some(),
        Change::Entry => report.entries.pop().is_some(),
        _ => match report.rows.get_mut(0) {
            Some(row) => apply_to_row(row, what),
            None => false,
        },
    }
}

fn apply_to_row(row: &mut ProcessRow, what: Change) -> bool {
    match what {
        Change::Slot => row.slot = 1,
        Change::Program => row.program = row.program.wrapping_add(1),
        Change::Parent => return row.name.push(0).is_ok(),
        Change::Pass => {
            row.position = 1;
            row.outcome = Outcome::Ended;
            return row.journal.push(Note::Down(0)).is_ok();
        }
        _ => row.outcome = Outcome::Halted,
    }
    true
}

/// What the judge says of the changed report, if it said nothing before.
fn verdict_after(
    rt: &impl Abort,
    alloc: Global,
    script: &Script,
    report: &mut Report,
    what: Change,
) -> Option<&'static str> {
    keeps_promises(rt, alloc, script, report, 0, "nothing was changed yet");
    assert!(rt; apply(report, what), "a change");
    broken_promise(rt, alloc, script, report)
}

/// The same of the report of a script on one processor.
fn verdict<R: Abort + Wait>(
    rt: &R,
    alloc: Global,
    script: &str,
    what: Change,
) -> Option<&'static str> {
    let mut report = report_of(rt, alloc, script);
    let script = script_of(rt, alloc, script);
    verdict_after(rt, alloc, &script, &mut report, what)
}

/// Each change, of the report of a script, and what it breaks.
const CHANGES: [(&str, Change, &str); 9] = [
    (READER, Change::Version, "version and bound"),
    (READER, Change::Order, "names"),
    (READER, Change::Program, "names"),
    (SLEEPERS, Change::Parent, "names"),
    (READER, Change::Row, "births"),
    (READER, Change::Outcome, "rows that fit"),
    (SLEEPERS, Change::Slot, "slots"),
    (SLEEPERS, Change::Pass, "semaphores"),
    (READER, Change::Entry, "files"),
];

#[test]
fn each_promise_can_be_broken(rt: HostRuntime) {
    for &(script, what, broken) in &CHANGES {
        let found = verdict(&rt, rt.alloc(), script, what);
        assert_with(&rt, found == Some(broken), broken, found, 0, 0);
    }
}
