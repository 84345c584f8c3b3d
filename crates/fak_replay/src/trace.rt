//! The text of a replay, as it grows.

ghost use Rattle.std.specs.Prelude.{◌≡◌, ◌++◌, [], ◌∷◌, IfErr, IsTrue, OnOk, Some, string_bytes};
ghost use Rattle.fak_replay.specs.Replay.{IsShownRow, text_of_row};
ghost use Rattle.fak_replay.specs.Trace.{KeepsItsLine};
ghost use Rattle.fak_replay.specs.declared.fault.MainFault.TheVariants.{Memory};

use crate::fault::MainFault;
use crate::row::Row;
use fak_core::Line;
use fak_text::{append_line, append_refusal};
use std::alloc::Global;

/// The text of a replay so far. The last row and its line are kept, since a seat that waits or is refused has the
/// same row at each step.
#[derive(Drop)]
pub(crate) struct Trace {
    text: String,
    last: Option<Row>,
    line: String,
}

/// Whether the rows are surely the same. Rows with marks are not compared, since no core has one twice in a row.
fn is_repeated(last: Row, row: Row) -> bool
    ensures { IsTrue result → last ≡ row }
{
    match (last, row) {
        (Row::Refused(a, first), Row::Refused(b, second)) => a == b && first == second,
        (Row::Moved(a), Row::Moved(b)) => is_unmarked_alike(a, b),
        _ => false,
    }
}

/// Whether the lines are the same and bear no mark.
fn is_unmarked_alike(a: Line, b: Line) -> bool
    ensures { IsTrue result → a ≡ b }
{
    a.mark.is_none()
        && b.mark.is_none()
        && a.seat == b.seat
        && a.step == b.step
        && a.found == b.found
}

/// Appends a row and a newline.
fn append_row(text: &mut String, row: Row) -> Result<(), MainFault>
    requires { IsShownRow row }
    ensures ok { OnOk result (string_bytes text.new ≡ string_bytes text.old ++ (text_of_row row ++ 10 ∷ [])) }
    ensures err { IfErr result (λ fault. fault ≡ Memory) }
{
    match row {
        Row::Moved(line) => append_line(text, &line)?,
        Row::Refused(seat, fault) => append_refusal(text, seat, &fault)?,
    }
    text.push_str("\n")?;
    Ok(())
}

impl Trace {
    /// The text of no row.
    pub(crate) fn new(alloc: Global) -> Trace
        ensures text { string_bytes result.text ≡ [] }
        ensures kept { KeepsItsLine result }
    {
        Trace {
            text: String::new(alloc),
            last: None,
            line: String::new(alloc),
        }
    }

    /// Whether the row is surely the last one.
    fn repeats(&self, row: Row) -> bool
        ensures { IsTrue result → self.now.last ≡ Some row }
    {
        match self.last {
            Some(last) => is_repeated(last, row),
            None => false,
        }
    }

    /// Keeps the line of a row as the last.
    fn keep(&mut self, row: Row) -> Result<(), MainFault>
        requires { IsShownRow row }
        ensures ok { OnOk result ((self.new.text ≡ self.old.text)
            × (string_bytes self.new.line ≡ text_of_row row ++ 10 ∷ [])
            × (self.new.last ≡ Some row)) }
        ensures err { IfErr result (λ fault. fault ≡ Memory) }
    {
        self.line.clear();
        append_row(&mut self.line, row)?;
        self.last = Some(row);
        Ok(())
    }

    /// Appends a row and a newline.
    pub(crate) fn push(&mut self, row: Row) -> Result<(), MainFault>
        requires shown { IsShownRow row }
        requires kept { KeepsItsLine self.old }
        ensures ok { OnOk result (string_bytes self.new.text ≡ string_bytes self.old.text ++
            (text_of_row row ++ 10 ∷ [])) }
        ensures kept { OnOk result (KeepsItsLine self.new) }
        ensures err { IfErr result (λ fault. fault ≡ Memory) }
    {
        if !self.repeats(row) {
            self.keep(row)?;
        }
        self.text.push_str(&self.line)?;
        Ok(())
    }

    /// The text.
    pub(crate) fn into_text(self) -> Vec<u8>
        ensures { result.items ≡ string_bytes self.text }
    {
        self.text.into_bytes()
    }
}
