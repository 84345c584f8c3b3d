//! A plain judge of what a report promises, by counting and searching.

mod files;
mod fits;
mod lines;
mod names;

use super::examples::assert_with;
use fak_kernel::Report;
use fak_text::Script;
use std::alloc::Global;
use std::process::Abort;

/// Checks that the report of this script, by this number of processors, breaks no promise.
pub(super) fn keeps_promises(
    rt: &impl Abort,
    alloc: Global,
    script: &Script,
    report: &Report,
    processors: u64,
    text: &str,
) {
    let broken = broken_promise(rt, alloc, script, report);
    assert_with(rt, broken.is_none(), text, broken, processors, 0);
}

/// The promise that the report breaks.
pub(super) fn broken_promise(
    rt: &impl Abort,
    alloc: Global,
    script: &Script,
    report: &Report,
) -> Option<&'static str> {
    let broken = broken_row(script, report);
    if broken.is_some() || files::replay(rt, alloc, script, report) {
        return broken;
    }
    Some("files")
}

/// The same, except for the files.
fn broken_row(script: &Script, report: &Report) -> Option<&'static str> {
    let rows = report.rows.as_slice();
    if report.version != script.version() || report.bound != script.births() {
        return Some("version and bound");
    }
    if !names::rise(rows) || !names::have_origins(script, rows) {
        return Some("names");
    }
    if !names::are_counted(script, report) {
        return Some("births");
    }
    if !fits::all_fit(script, rows) {
        return Some("rows that fit");
    }
    if !fits::have_own_slots(script, rows) {
        return Some("slots");
    }
    if !lines::are_granted(script, rows) {
        return Some("semaphores");
    }
    None
}
