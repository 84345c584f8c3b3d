//! How a run ends: the seats of all processors are joined, the objects are closed, and what is left is reported.

ghost use Rattle.std.specs.Prelude.{◌≡◌, ◌<◌, ◌≤◌, [], ℕ, vec_len, slice_index_or, IfOk};
ghost use Rattle.fak_run.specs.ListScheduler.{turn_over};
ghost use Rattle.fak_run.specs.Report.{ListSchedulerReports};
ghost use Rattle.fak_run.specs.RunReports.{RunReports};
ghost use Rattle.fak_processor.specs.Processors.{IsReached, ProcessorOf, lists_of};
ghost use Rattle.fak_processor.specs.Opened.{AreSeated};
ghost use Rattle.fak_processor.specs.Begun.{IsLeftBy};
ghost use Rattle.fak_run.specs.Told.{told_report};
ghost use Rattle.fak_run.specs.Views.{report_of};

pub mod closing;
pub mod gather;
pub mod joined;
pub mod reporting;

use closing::close;
use fak_processor::{Objects, Plan, Seats};
use fak_run::{Report, Run};
use reporting::{report_with, rows_of};
use std::alloc::AllocError;

/// The report of a run that all processors have left, in the order of their numbers, without its said texts. The report
/// of a run on one processor is the list scheduler's.
pub(crate) fn report_of_run<K: Run>(
    plan: &Plan<'_, K>,
    objects: Objects<K>,
    left: Vec<Seats<K>>,
) -> Result<Report, AllocError>
    requires seated { AreSeated (vec_len left) objects }
    requires some { 1 ≤ vec_len left }
    requires left { (i : ℕ) (d : ProcessorOf) → i < vec_len left
        → IsLeftBy K.script objects i (slice_index_or left.items i d) }
    ensures general { IfOk result (λ report. RunReports K.script (told_report K.script (report_of report))) }
    ensures alone { vec_len left ≡ 1 → ((d : ProcessorOf)
        → IsReached K.script (slice_index_or left.items 0 d)
        (turn_over (lists_of K.script (slice_index_or left.items 0 d)))
        × ((lists_of K.script (slice_index_or left.items 0 d)).ready ≡ [])) → (d : ProcessorOf)
        → IfOk result (λ report. ListSchedulerReports K.script (told_report K.script (report_of report))) }
{
    // Only the proof needs this field: naming it shows that the objects were opened for this script.
    let _ready = &objects.ready;
    let alloc = plan.alloc;
    let script = plan.script;
    let all = gather::gather(alloc, &objects, left)?;
    let remains = close(alloc, objects, all.tallies, script.files())?;
    let rows = rows_of(alloc, all.ended, all.halted, remains.asleep)?;
    Ok(report_with(script, rows, remains.entries))
}
