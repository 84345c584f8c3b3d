//! The runs of scripts, and the texts of their reports.

use super::inputs::{IDLE, ONE_PROCESS, SCRIPT};
use crate::printing::{On, show_count, show_text};
use crate::retrying::try_twice;
use fak_kernel::{
    FreeGate, Printed, Report, report_text, run, run_one, run_one_to_text, run_to_text,
};
use fak_text::read_script;
use std::marker::Sync;
use std::sync::Wait;
use std::thread::Threads;

/// Makes the text of a report.
fn show_report(rt: &(impl Print + Eprint + AllocGlobal), report: &Report) -> bool {
    let text = try_twice!(rt, "report_text", report_text(rt.alloc(), report));
    show_text(rt, "report_text", &text);
    true
}

/// Prints what the run of this name has printed.
fn show_printed(rt: &impl Print, name: &str, printed: &Printed) {
    let _ = println!(rt; "status {}", printed.status);
    show_text(rt, name, &printed.text);
}

/// Runs a script on one processor.
pub(super) fn run_on_one_processor(rt: &(impl Print + Eprint + AllocGlobal + Wait)) -> bool {
    let alloc = rt.alloc();
    let script = try_twice!(rt, "read_script", read_script(alloc, SCRIPT.as_bytes()));
    let report = try_twice!(rt, "run_one", run_one(rt, alloc, &script));
    show_count(rt, "run_one", report.rows.len(), "rows");
    if !show_report(rt, &report) {
        return false;
    }
    let printed = try_twice!(rt, "run_one_to_text", run_one_to_text(rt, alloc, &script));
    show_printed(rt, "run_one_to_text", &printed);
    true
}

/// Runs the script that has nothing to do on 1 to 8 processors. It comes before other runs on several processors, which do not
/// allocate as often each time.
pub(super) fn run_idle_script(
    rt: &(impl Print + Eprint + AllocGlobal + Threads + Wait + Sync),
) -> bool {
    let alloc = rt.alloc();
    let script = try_twice!(rt, "read_script", read_script(alloc, IDLE.as_bytes()));
    for processors in 1..9u64 {
        let report = try_twice!(
            rt,
            On("run", processors),
            run(rt, alloc, &script, processors, &FreeGate)
        );
        let _ = println!(rt; "run on {processors}: {} rows", report.rows.len());
    }
    true
}

/// Runs a script on two processors.
pub(super) fn run_on_two_processors(
    rt: &(impl Print + Eprint + AllocGlobal + Threads + Wait + Sync),
) -> bool {
    let alloc = rt.alloc();
    let script = try_twice!(
        rt,
        "read_script",
        read_script(alloc, ONE_PROCESS.as_bytes())
    );
    let report = try_twice!(rt, "run", run(rt, alloc, &script, 2, &FreeGate));
    show_count(rt, "run", report.rows.len(), "rows");
    if !show_report(rt, &report) {
        return false;
    }
    let printed = try_twice!(
        rt,
        "run_to_text",
        run_to_text(rt, alloc, &script, 2, &FreeGate)
    );
    show_printed(rt, "run_to_text", &printed);
    true
}
