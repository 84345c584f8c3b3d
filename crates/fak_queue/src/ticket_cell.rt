//! The cell and the round of a ticket.

ghost use Rattle.std.specs.Prelude.{◌^◌, ◌<◌, ◌≤◌};
ghost use Rattle.fak_model.specs.Limits.{large_size};

/// A ticket, with the cell and the round in which it has its turn.
#[derive(Clone, Copy, Drop)]
pub struct TicketCell {
    pub ticket: u64,
    pub cell: usize,
    pub round: u64,
    ghost few_tickets: { ticket < 2 ^ 50 },
    ghost low_cell: { cell < large_size },
    ghost low_round: { round ≤ ticket },
}
