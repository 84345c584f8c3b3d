//! The kinds of seats that a desk can have.

ghost use Rattle.std.specs.Prelude.{◌≡◌, MatchOption, None, Option, Some};
ghost use Rattle.std.specs.Borrow.{LendsIf, sem};
ghost use Rattle.fak_handles.specs.declared.desk.Desk.{Desk};
ghost use Rattle.fak_handles.specs.contracts.desk.Desk.{the_row};

use crate::desk::Desk;

/// A kind of seat, with a share of its object. A desk that has such a seat lends it.
pub trait SeatKind: Drop {
    // The seat of this kind that a handle has.
    ghost seat_in: { Option Desk → Option Self };

    // The desk with this seat in place of its own.
    ghost with_seat: { Desk → Self → Desk };

    /// Lends the seat of this kind. `None` if the desk has another kind.
    fn lend(desk: &mut Desk) -> Option<&mut Self>
        ensures* writes_back { sem 𝓛 (LendsIf the_row Self.row desk.entry result (with_seat desk.entry.now)
            desk.entry.now) }
        ensures value { MatchOption result (seat_in (Some desk.old) ≡ None)
            (λ r. seat_in (Some desk.old) ≡ Some r.now) };

    ghost no_desk: { seat_in None ≡ None };
}
