//! The report of what all processors have left, without its said texts.

ghost use Rattle.std.specs.Prelude.{◌≡◌, ◌≤◌, ◌-◌, nat_lt, length, map, IfOk};
ghost use Rattle.std.specs.List.Sorted.{IsPermutation};
ghost use Rattle.fak_run.specs.Report.{IsSortedByName, sleepers_outcome};
ghost use Rattle.fak_run.specs.Ledger.{shuts_of};
ghost use Rattle.fak_run.specs.Whole.{lines_of};
ghost use Rattle.fak_kernel.specs.Closing.{rows_left, shut_lines};
ghost use Rattle.fak_run.specs.Told.{told_rows};
ghost use Rattle.fak_run.specs.Views.{report_of, row_of};

use fak_model::FileEntry;
use fak_run::{Context, Outcome, ProcessRow, Report, Run, add_rows, sort_rows};
use fak_text::Script;
use std::alloc::{AllocError, Global};

/// Whether one of the processes made a shutdown.
fn has_shutdown<K: Run>(contexts: &[Context<K>]) -> bool
    ensures { result ≡ nat_lt 0 (lines_of shuts_of contexts.now) }
{
    contexts.iter().any(|context| context.has_shutdown())
}

/// What becomes of the sleepers: they are halted if a process made a shutdown, otherwise stuck.
fn outcome_of_sleepers<K: Run>(
    ended: &[Context<K>],
    halted: &[Context<K>],
    asleep: &[Context<K>],
) -> Outcome
    ensures { result ≡ sleepers_outcome (nat_lt 0 (shut_lines ended.now halted.now asleep.now)) }
{
    if has_shutdown(ended) || has_shutdown(halted) || has_shutdown(asleep) {
        Outcome::Halted
    } else {
        Outcome::Stuck
    }
}

/// A row for each process, sorted by name.
pub(crate) fn rows_of<K: Run>(
    alloc: Global,
    ended: Vec<Context<K>>,
    halted: Vec<Context<K>>,
    asleep: Vec<Context<K>>,
) -> Result<Vec<ProcessRow>, AllocError>
    ensures rows { IfOk result (λ rows. IsPermutation (rows_left ended.items halted.items asleep.items)
        (told_rows K.script (map row_of rows.items))) }
    ensures sorted { IfOk result (λ rows. IsSortedByName (told_rows K.script (map row_of rows.items))) }
{
    let outcome = outcome_of_sleepers(ended.as_slice(), halted.as_slice(), asleep.as_slice());
    let mut rows = Vec::new(alloc);
    add_rows(&mut rows, ended, Outcome::Ended)?;
    add_rows(&mut rows, halted, Outcome::Halted)?;
    add_rows(&mut rows, asleep, outcome)?;
    sort_rows(&mut rows)?;
    Ok(rows)
}

/// The report with these rows and entries. The rows are those of the started processes and of their children.
pub(crate) fn report_with(script: &Script, rows: Vec<ProcessRow>, entries: Vec<FileEntry>) -> Report
    requires { length script.now.start ≤ length rows.items }
    ensures { report_of result ≡ record {
      version = script.now.version;
      rows = map row_of rows.items;
      births = length rows.items - length script.now.start;
      bound = script.now.births;
      entries = entries.items;
    } }
{
    let started = script.start().len();
    let births = (rows.len() - started) as u64;
    Report {
        version: script.version(),
        rows,
        births,
        bound: script.births(),
        entries,
    }
}
