//! Adds the texts of the script to reports without said texts.

ghost use Rattle.std.specs.Prelude.{◌≡◌, map, string_bytes, IfOk, IfErr};
ghost use Rattle.fak_text.specs.Script.{say, steps_of};
ghost use Rattle.fak_text.specs.Views.{note_of, step_of, steps_view};
ghost use Rattle.fak_run.specs.Told.{told, told_notes, told_report, told_row, told_rows};
ghost use Rattle.fak_run.specs.Views.{report_of, row_of};

use crate::fault::Fault;
use crate::report::{ProcessRow, Report};
use fak_text::{Note, Script, Step};
use std::alloc::{AllocError, Global};

/// The steps of a program; none if the script has no such program.
pub(crate) fn steps_at(script: &Script, program: u64) -> &[Step]
    ensures { steps_view result.now ≡ steps_of script.now program }
{
    match script.programs().get(program as usize) {
        Some(steps) => steps.as_slice(),
        None => &[],
    }
}

/// The note, with this text if it is one of a said text.
fn with_text(note: Note, text: &String) -> Result<Note, AllocError>
    ensures told { IfOk result (λ full. note_of full ≡ told (say (string_bytes text.now)) (note_of note)) }
{
    match note {
        Note::Say(_) => Ok(Note::Say(text.clone()?)),
        other => Ok(other),
    }
}

/// The note of this step, with the text that the step says.
fn told_note(note: Note, step: &Step) -> Result<Note, AllocError>
    ensures told { IfOk result (λ full. note_of full ≡ told (step_of step.now) (note_of note)) }
{
    match step {
        Step::Say(text) => with_text(note, text),
        _ => Ok(note),
    }
}

/// The notes of these steps, with the texts that the steps say.
fn told_all(alloc: Global, steps: &[Step], notes: Vec<Note>) -> Result<Vec<Note>, AllocError>
    ensures told { IfOk result (λ full. map note_of full.items ≡ told_notes (steps_view steps.now)
        (map note_of notes.items)) }
{
    let mut full = Vec::with_capacity(alloc, notes.len())?;
    let mut steps = steps.iter();
    for note in notes {
        let note = match steps.next() {
            Some(step) => told_note(note, step)?,
            None => note,
        };
        full.push(note)?;
    }
    Ok(full)
}

/// The row of a process of this script, with its said texts.
fn told_to_row(alloc: Global, script: &Script, row: ProcessRow) -> Result<ProcessRow, AllocError>
    ensures told { IfOk result (λ full. row_of full ≡ told_row script.now (row_of row)) }
{
    let ProcessRow {
        name,
        program,
        slot,
        position,
        outcome,
        journal,
    } = row;
    let journal = told_all(alloc, steps_at(script, program), journal)?;
    Ok(ProcessRow {
        name,
        program,
        slot,
        position,
        outcome,
        journal,
    })
}

fn told_to_rows(
    alloc: Global,
    script: &Script,
    rows: Vec<ProcessRow>,
) -> Result<Vec<ProcessRow>, AllocError>
    ensures told { IfOk result (λ full. map row_of full.items ≡ told_rows script.now (map row_of rows.items)) }
{
    let mut full = Vec::with_capacity(alloc, rows.len())?;
    for row in rows {
        full.push(told_to_row(alloc, script, row)?)?;
    }
    Ok(full)
}

/// The report of a run of this script, with the said texts that were left out.
///
/// # Errors
///
/// Only `Memory`.
pub fn told_in_full(alloc: Global, script: &Script, brief: Report) -> Result<Report, Fault>
    ensures told { IfOk result (λ report. report_of report ≡ told_report script.now (report_of brief)) }
    ensures memory { IfErr result (λ fault. fault ≡ Fault.Memory) }
{
    let Report {
        version,
        rows,
        births,
        bound,
        entries,
    } = brief;
    let rows = told_to_rows(alloc, script, rows)?;
    Ok(Report {
        version,
        rows,
        births,
        bound,
        entries,
    })
}
