//! Cells and rounds of a queue's tickets.

ghost use Rattle.std.specs.Prelude.{◌≡◌, ◌≤◌, ◌%◌, ◌/◌};

/// The cell of a ticket, in a queue of this size. Tickets use the cells in turn, from the first to the last and again.
pub fn cell_of(ticket: u64, size: u64) -> u64
    requires { 1 ≤ size }
    ensures { result ≡ ticket % size }
{
    ticket % size
}

/// The round of a ticket, in a queue of this size: the number of earlier tickets of its cell.
pub fn round_of(ticket: u64, size: u64) -> u64
    requires { 1 ≤ size }
    ensures { result ≡ ticket / size }
{
    ticket / size
}
