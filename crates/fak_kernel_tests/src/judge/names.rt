//! The names of a report's rows.

use super::lines::{births, count};
use fak_kernel::{ProcessRow, Report};
use fak_text::{Note, Script, Step};

/// Whether each name is above the one before, and the first is not empty.
pub fn rise(rows: &[ProcessRow]) -> bool {
    let mut last: &[u64] = &[];
    for row in rows {
        let name = row.name.as_slice();
        if name <= last {
            return false;
        }
        last = name;
    }
    true
}

/// Whether each row belongs to a process that was started, or to a child that a row names, with its program.
pub fn have_origins(script: &Script, rows: &[ProcessRow]) -> bool {
    for row in rows {
        if program_of(script, rows, row) != Some(row.program) {
            return false;
        }
    }
    true
}

/// The program that the process of this name was to run.
fn program_of(script: &Script, rows: &[ProcessRow], row: &ProcessRow) -> Option<u64> {
    let (last, parent) = row.name.as_slice().split_last()?;
    if parent.is_empty() {
        return script.start().get(*last as usize).copied();
    }
    child_program(script, row_of(rows, parent)?, *last)
}

/// The row of this name.
fn row_of<'a>(rows: &'a [ProcessRow], name: &[u64]) -> Option<&'a ProcessRow> {
    for row in rows {
        if row.name.as_slice() == name {
            return Some(row);
        }
    }
    None
}

/// The program of the child of this number.
fn child_program(script: &Script, parent: &ProcessRow, number: u64) -> Option<u64> {
    let steps = script.programs().get(parent.program as usize)?;
    for (step, note) in steps.iter().zip(parent.journal.iter()) {
        if let (Step::Spawn(program), Note::Spawned(child)) = (step, note) {
            if *child == number {
                return Some(*program);
            }
        }
    }
    None
}

/// Whether there is a row for each process that was started or spawned, and births are counted, and were refused only at
/// the bound.
pub fn are_counted(script: &Script, report: &Report) -> bool {
    let rows = report.rows.as_slice();
    let spawned = births(rows);
    let refused = count(rows, &Note::NoBirth);
    let claimed = spawned.saturating_add(count(rows, &Note::NoSlot));
    let started = script.start().len() as u64;
    rows.len() as u64 == started.saturating_add(spawned)
        && report.births == spawned
        && spawned <= script.births()
        && (refused == 0 || claimed >= script.births())
}
