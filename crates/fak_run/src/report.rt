//! How each process of a run ended.

ghost use Rattle.std.specs.Prelude.{◌≡◌, Some};
ghost use Rattle.std.specs.List.{list_any};
ghost use Rattle.fak_run.specs.Report.{is_stuck};

use fak_model::FileEntry;
use fak_text::Note;
use std::fmt;

/// How a process ended.
#[derive(Clone, Copy, Debug, PartialEq, Eq)]
pub enum Outcome {
    /// It reached the end of its program.
    Ended,
    /// It sleeps at a semaphore, and no process is left that could wake it.
    Stuck,
    /// It would have become ready, or sleeps, after the ready queue was shut.
    Halted,
}

impl fmt::Display for Outcome {
    ghost use Rattle.fak_run.specs.ReportText.{outcome_name};

    ghost output = { λ outcome. Some (outcome_name outcome) };

    fn fmt<W: fmt::Write>(&self, f: &mut fmt::Formatter<W>) -> fmt::Result {
        let name = match self {
            Outcome::Ended => "ended",
            Outcome::Stuck => "stuck",
            Outcome::Halted => "halted",
        };
        f.write_str(name)
    }
}

impl Outcome {
    ghost use Rattle.fak_run.specs.Report.{is_ended, is_stuck, is_halted};

    /// Whether the process reached the end of its program.
    pub fn is_ended(self) -> bool
        ensures { result ≡ is_ended self }
    {
        matches!(self, Outcome::Ended)
    }

    /// Whether no process is left that could wake it.
    pub fn is_stuck(self) -> bool
        ensures { result ≡ is_stuck self }
    {
        matches!(self, Outcome::Stuck)
    }

    /// Whether it found the ready queue shut.
    pub fn is_halted(self) -> bool
        ensures { result ≡ is_halted self }
    {
        matches!(self, Outcome::Halted)
    }
}

/// A process at the end of a run.
#[derive(Debug, PartialEq, Eq, Drop)]
pub struct ProcessRow {
    /// The numbers on the path from the process that was started first: started process i is `i`, its child j is `i.j`.
    pub name: Vec<u64>,
    /// The number of its program in the script.
    pub program: u64,
    /// The number of its slot.
    pub slot: u64,
    /// The number of steps of its program that it took.
    pub position: u64,
    pub outcome: Outcome,
    /// One note for each of these steps, in order.
    pub journal: Vec<Note>,
}

/// A run of a script, at its end.
#[derive(Debug, PartialEq, Eq, Drop)]
pub struct Report {
    /// The version of the script.
    pub version: u64,
    /// The processes, sorted by name, number by number, a prefix first.
    pub rows: Vec<ProcessRow>,
    /// The number of children that were started.
    pub births: u64,
    /// The number of children that may be started.
    pub bound: u64,
    /// The entries of the file table.
    pub entries: Vec<FileEntry>,
}

impl Report {
    ghost use Rattle.std.specs.List.{list_any};
    ghost use Rattle.fak_run.specs.Report.{exit_status, is_stuck};
    ghost use Rattle.fak_run.specs.Views.{report_of};

    /// The exit status of the program that prints the report: 3 if a process is stuck, else 0.
    pub fn exit_status(&self) -> u8
        ensures { result ≡ exit_status (report_of self.now) }
    {
        if self.has_stuck() { 3 } else { 0 }
    }

    fn has_stuck(&self) -> bool
        ensures { result ≡ list_any (λ row. is_stuck row.outcome) (report_of self.now).rows }
    {
        has_stuck_row(self.rows.as_slice())
    }
}

fn has_stuck_row(rows: &[ProcessRow]) -> bool
    ensures { result ≡ list_any (λ row. is_stuck row.outcome) rows.now }
{
    rows.iter().any(|row| row.outcome.is_stuck())
}
