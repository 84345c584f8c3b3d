//! The text of a report.

ghost use Rattle.std.specs.Prelude.{◌≡◌, [], ◌∷◌, ◌++◌, map, option_map, string_bytes, IfOk, IfErr};
ghost use Rattle.fak_text.specs.JournalText.{text_of_journal};
ghost use Rattle.fak_text.specs.Views.{note_of, step_of, steps_view};
ghost use Rattle.fak_run.specs.Report.{exit_status, is_ended, is_stuck, is_halted};
ghost use Rattle.std.specs.List.{flat_map};
ghost use Rattle.fak_run.specs.ReportText.{line_of_row, text_of_row, text_of_entry, text_of_entries, text_of_births, count_rows, text_of_outcomes, text_of_report};
ghost use Rattle.fak_run.specs.Told.{told_by, told_notes, told_report, told_row, told_rows};
ghost use Rattle.fak_run.specs.Views.{row_of, report_of};

use crate::fault::Fault;
use crate::report::{ProcessRow, Report};
use crate::told_report::steps_at;
use fak_model::FileEntry;
use fak_text::{Note, Script, Step, append_journal, append_name};
use std::alloc::{AllocError, Global};
use std::fmt::Write;
use std::slice;

/// The text of a report, and the exit status of the program that prints it.
#[derive(Debug, PartialEq, Eq, Drop)]
pub struct Printed {
    pub text: Vec<u8>,
    /// 3 if a process is stuck, else 0.
    pub status: u8,
}

/// The text of a report: each process with its journal, the open files, the births, and the number of processes with
/// each outcome.
///
/// # Errors
///
/// Only `Memory`.
pub fn report_text(alloc: Global, report: &Report) -> Result<Vec<u8>, Fault>
    ensures text { IfOk result (λ v. v.items ≡ text_of_report (report_of report.now)) }
    ensures memory { IfErr result (λ fault. fault ≡ Fault.Memory) }
{
    let mut text = String::new(alloc);
    add_rows(&mut text, report.rows.as_slice())?;
    add_entries(&mut text, report.entries.as_slice())?;
    add_births(&mut text, report)?;
    add_outcomes(&mut text, report)?;
    Ok(text.into_bytes())
}

fn add_rows(text: &mut String, rows: &[ProcessRow]) -> Result<(), AllocError>
    ensures text { IfOk result (λ _. string_bytes text.new ≡ string_bytes text.old ++ flat_map text_of_row
        (map row_of rows.now)) }
{
    for row in rows {
        add_row(text, row)?;
    }
    Ok(())
}

fn add_row(text: &mut String, row: &ProcessRow) -> Result<(), AllocError>
    ensures text { IfOk result (λ _. string_bytes text.new ≡ string_bytes text.old ++ text_of_row (row_of row.now)) }
{
    add_row_line(text, row)?;
    append_journal(text, row.name.as_slice(), row.journal.as_slice())?;
    Ok(())
}

/// The text of a report without said texts: they are read from the script.
///
/// # Errors
///
/// Only `Memory`.
pub fn print_brief(alloc: Global, script: &Script, brief: &Report) -> Result<Printed, Fault>
    ensures text { IfOk result (λ printed. printed.text.items ≡ text_of_report
        (told_report script.now (report_of brief.now))) }
    ensures status { IfOk result (λ printed. printed.status ≡ exit_status
        (told_report script.now (report_of brief.now))) }
    ensures memory { IfErr result (λ fault. fault ≡ Fault.Memory) }
{
    let mut text = String::new(alloc);
    add_told_rows(&mut text, script, brief.rows.as_slice())?;
    add_entries(&mut text, brief.entries.as_slice())?;
    add_births(&mut text, brief)?;
    add_outcomes(&mut text, brief)?;
    Ok(Printed {
        text: text.into_bytes(),
        status: brief.exit_status(),
    })
}

fn add_told_rows(text: &mut String, script: &Script, rows: &[ProcessRow]) -> Result<(), AllocError>
    ensures text { IfOk result (λ _. string_bytes text.new ≡ string_bytes text.old ++ flat_map text_of_row
        (told_rows script.now (map row_of rows.now))) }
{
    for row in rows {
        add_told_row(text, script, row)?;
    }
    Ok(())
}

fn add_told_row(text: &mut String, script: &Script, row: &ProcessRow) -> Result<(), AllocError>
    ensures text { IfOk result (λ _. string_bytes text.new ≡ string_bytes text.old ++ text_of_row
        (told_row script.now (row_of row.now))) }
{
    add_row_line(text, row)?;
    let steps = steps_at(script, row.program);
    add_told_notes(text, row.name.as_slice(), steps, row.journal.as_slice())
}

/// Appends the lines of the notes of these steps, which the process of this name took.
fn add_told_notes(
    text: &mut String,
    name: &[u64],
    steps: &[Step],
    notes: &[Note],
) -> Result<(), AllocError>
    ensures text { IfOk result (λ _. string_bytes text.new ≡ string_bytes text.old ++ text_of_journal name.now
        (told_notes (steps_view steps.now) (map note_of notes.now))) }
{
    let mut steps = steps.iter();
    for note in notes {
        add_told_note(text, name, steps.next(), note)?;
    }
    Ok(())
}

fn add_told_note(
    text: &mut String,
    name: &[u64],
    step: Option<&Step>,
    note: &Note,
) -> Result<(), AllocError>
    ensures text { IfOk result (λ _. string_bytes text.new ≡ string_bytes text.old ++ text_of_journal name.now
        (told_by (option_map (λ s. step_of s.now) step.entry) (note_of note.now) ∷ [])) }
{
    match (note, step) {
        (Note::Say(_), Some(Step::Say(said))) => {
            text.push_str("  say ")?;
            text.push_str(said)?;
            text.push_str("\n")?;
        }
        _ => append_journal(text, name, slice::from_ref(note))?,
    }
    Ok(())
}

fn add_row_line(text: &mut String, row: &ProcessRow) -> Result<(), AllocError>
    ensures text { IfOk result (λ _. string_bytes text.new ≡ string_bytes text.old ++ line_of_row (row_of row.now)) }
{
    let program = row.program;
    let slot = row.slot;
    let outcome = row.outcome;
    text.push_str("process ")?;
    append_name(text, row.name.as_slice())?;
    write!(text, " program {program} slot {slot} {outcome}\n")?;
    Ok(())
}

fn add_entries(text: &mut String, entries: &[FileEntry]) -> Result<(), AllocError>
    ensures text { IfOk result (λ _. string_bytes text.new ≡ string_bytes text.old ++ text_of_entries 0 entries.now) }
{
    for (i, entry) in entries.iter().enumerate() {
        add_entry(text, i, *entry)?;
    }
    Ok(())
}

fn add_entry(text: &mut String, i: usize, entry: FileEntry) -> Result<(), AllocError>
    ensures text { IfOk result (λ _. string_bytes text.new ≡ string_bytes text.old ++ text_of_entry i entry) }
{
    let FileEntry { inode, uses } = entry;
    if inode != 0 {
        write!(text, "file {i} inode {inode} uses {uses}\n")?;
    }
    Ok(())
}

fn add_births(text: &mut String, report: &Report) -> Result<(), AllocError>
    ensures text { IfOk result (λ _. string_bytes text.new ≡ string_bytes text.old ++ text_of_births
        (report_of report.now)) }
{
    let births = report.births;
    let bound = report.bound;
    write!(text, "births {births} of {bound}\n")?;
    Ok(())
}

fn add_outcomes(text: &mut String, report: &Report) -> Result<(), AllocError>
    ensures text { IfOk result (λ _. string_bytes text.new ≡ string_bytes text.old ++ text_of_outcomes
        (report_of report.now)) }
{
    let rows = report.rows.as_slice();
    let ended = count_ended(rows);
    let stuck = count_stuck(rows);
    if report.version == 2 {
        let halted = count_halted(rows);
        write!(text, "ended {ended} stuck {stuck} halted {halted}\n")?;
    } else {
        write!(text, "ended {ended} stuck {stuck}\n")?;
    }
    Ok(())
}

fn count_ended(rows: &[ProcessRow]) -> usize
    ensures { result ≡ count_rows is_ended (map row_of rows.now) }
{
    rows.iter().filter(|row| row.outcome.is_ended()).count()
}

fn count_stuck(rows: &[ProcessRow]) -> usize
    ensures { result ≡ count_rows is_stuck (map row_of rows.now) }
{
    rows.iter().filter(|row| row.outcome.is_stuck()).count()
}

fn count_halted(rows: &[ProcessRow]) -> usize
    ensures { result ≡ count_rows is_halted (map row_of rows.now) }
{
    rows.iter().filter(|row| row.outcome.is_halted()).count()
}
