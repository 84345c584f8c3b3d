//! How far a burst got.

ghost use Rattle.std.specs.Prelude.{◌+◌, ◌<◌, ◌≤◌, ◌^◌};

use crate::cells::Cells;

/// The tickets that a burst has drawn, one for each of the first names of its bundle, and at how many of their cells it is done. At
/// least one is left.
#[derive(Clone, Copy, Drop)]
pub(crate) struct Progress<'a> {
    /// The names of the bundle.
    pub names: &'a [u64],
    /// The cells of the queue.
    pub cells: &'a Cells,
    /// The first ticket.
    pub ticket: u64,
    /// The names that have ended their calls.
    pub done: u64,
    /// The names that have drawn tickets.
    pub granted: u64,
    ghost few_tickets: { ticket + granted ≤ 2 ^ 50 },
    ghost some_left: { done < granted },
}
