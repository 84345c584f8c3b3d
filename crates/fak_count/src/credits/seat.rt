//! A seat of a credit.

ghost use Rattle.std.specs.Prelude.{◌≡◌, ◌+◌};
ghost use Rattle.fak_count.specs.Credits.{calls_made};

use crate::credits::steps::CreditToken;
use std::fmt;
use std::marker::Model;

/// The right to debit and credit a `Credit`, as many times as its stint. Contracts see its object, its name, its stint
/// and the history that it has seen.
#[derive(Drop)]
pub struct CreditSeat {
    pub(crate) token: CreditToken,
    pub(crate) name: u64,
    pub(crate) seats: u64,
    pub(crate) left: u64,
}

impl Model for CreditSeat {
    ghost use Rattle.fak_model.specs.declared.credit.CreditMark.{CreditMark};
    ghost use Rattle.fak_model.specs.Calls.{SeatInfo, object_id};
    ghost use Rattle.fak_model.specs.Tokens.{IsSeatToken};
    ghost use Rattle.fak_count.specs.Credits.{seat_of, credit_seat};

    ghost Value = { SeatInfo CreditMark };

    ghost view = { λ s. credit_seat (object_id s.token.table_id s.seats) s.name s.left s.token.me };

    ghost invariant = { λ s. IsSeatToken seat_of s.seats s.name tt s.left s.token.me };
}

impl CreditSeat {
    /// The number of debits and credits together that are left of the stint.
    pub fn left(&self) -> u64
        ensures { result + calls_made self.now ≡ self.now.stint }
    {
        self.left
    }
}

impl fmt::Debug for CreditSeat {
    fn fmt<W: fmt::Write>(&self, f: &mut fmt::Formatter<W>) -> fmt::Result {
        f.debug_struct("CreditSeat")
            .field("name", &self.name)
            .field("left", &self.left)
            .finish_non_exhaustive()
    }
}
