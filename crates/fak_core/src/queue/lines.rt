//! The lines of the steps.

ghost use Rattle.std.specs.Prelude.{◌≡◌};
ghost use Rattle.fak_core.specs.QueueFields as fields;

use crate::line::{Line, LineMark};
use crate::queue::step::{Found, QueueMove};
use fak_model::Kind;

/// The line that records a step of this seat.
pub fn line_of(seat: u64, step: QueueMove<u64>) -> Line
    ensures { result ≡ fields.line_of seat step }
{
    Line {
        seat,
        step: step.step,
        found: number_found(step.found),
        mark: line_mark(step.mark),
    }
}

/// What a step found, as a number.
fn number_found(found: Found<u64>) -> i128
    ensures { result ≡ fields.number_found found }
{
    match found {
        Found::Count(count) => count as i128,
        Found::Word(word) => word as i128,
        Found::Item(Some(item)) => item as i128,
        Found::Item(None) => 0,
    }
}

/// The mark of a line.
fn line_mark(mark: Option<Kind<u64>>) -> Option<LineMark>
    ensures { result ≡ fields.line_mark mark }
{
    match mark {
        Some(kind) => Some(LineMark::Queue(kind)),
        None => None,
    }
}
