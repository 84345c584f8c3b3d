//! The rows of a report, without the said texts.

ghost use Rattle.std.specs.Prelude.{◌≡◌, ◌++◌, map, IfOk};
ghost use Rattle.std.specs.List.Sorted.{IsPermutation};
ghost use Rattle.fak_run.specs.Report.{IsSortedByName, rows_with};
ghost use Rattle.fak_run.specs.Told.{told_rows};
ghost use Rattle.fak_run.specs.Views.{row_of};

use crate::context::{Context, Run};
use crate::report::{Outcome, ProcessRow};
use std::alloc::AllocError;

/// Appends a row for each process, all with this outcome.
pub fn add_rows<K: Run>(
    rows: &mut Vec<ProcessRow>,
    contexts: Vec<Context<K>>,
    outcome: Outcome,
) -> Result<(), AllocError>
    ensures added { IfOk result (λ _. told_rows K.script (map row_of rows.new.items) ≡ told_rows K.script
        (map row_of rows.old.items) ++ rows_with outcome contexts.items) }
{
    for context in contexts {
        rows.push(context.into_row(outcome))?;
    }
    Ok(())
}

/// Sorts rows by name, number by number, a prefix first.
pub fn sort_rows(rows: &mut Vec<ProcessRow>) -> Result<(), AllocError>
    ensures permutation { IsPermutation (map row_of rows.old.items) (map row_of rows.new.items) }
    ensures sorted { IfOk result (λ _. IsSortedByName (map row_of rows.new.items)) }
{
    rows.sort_by(|a, b| a.name.cmp(&b.name))?;
    Ok(())
}
