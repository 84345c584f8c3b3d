//! Seats of a credit that were joined.

ghost use Rattle.std.specs.Prelude.{◌≡◌, ◌↔◌, IsTrue};
ghost use Rattle.fak_model.specs.Credit.{IsCreditHistory, credit_rules};
ghost use Rattle.fak_model.specs.Histories.{AreNamed, IsAtRest};
ghost use Rattle.fak_model.specs.Seats.{IsWhole, mine};
ghost use Rattle.fak_model.specs.Calls.{tally_of};
ghost use Rattle.fak_count.specs.Credits.{seat_of};

use crate::credits::seat::CreditSeat;
use crate::credits::steps::CreditToken;
use fak_model::NameSet;
use std::fmt;
use std::marker::Model;

/// Seats of a credit that were joined and perform no more calls. Contracts see its object, the names of the seats and
/// the longest history that one of them has seen.
#[derive(Drop)]
pub struct CreditTally {
    pub(crate) token: CreditToken,
    pub(crate) names: NameSet,
    pub(crate) seats: u64,
}

impl Model for CreditTally {
    ghost use Rattle.std.specs.Prelude.{reverse};
    ghost use Rattle.fak_model.specs.declared.credit.CreditMark.{CreditMark};
    ghost use Rattle.fak_model.specs.Names.{HasJust};
    ghost use Rattle.fak_model.specs.Calls.{TallyInfo, tally_info, object_id};
    ghost use Rattle.fak_model.specs.Tokens.{IsTallyToken};
    ghost use Rattle.fak_count.specs.Credits.{seat_of};

    ghost Value = { TallyInfo CreditMark };

    ghost view = { λ t. tally_info (object_id t.token.table_id t.seats) t.token.me.0.names
        (reverse t.token.me.0.seen) };

    ghost invariant = { λ t. IsTallyToken seat_of t.seats tt t.token.me × HasJust t.names t.token.me.0.names };
}

impl CreditTally {
    /// The tally of one seat.
    pub fn of(seat: CreditSeat) -> CreditTally
        ensures tally { result ≡ tally_of seat }
        ensures lawful { IsCreditHistory result.seen }
        ensures named { AreNamed credit_rules result.object.seats result.seen }
    {
        let CreditSeat {
            token,
            name,
            seats,
            left: _,
        } = seat;
        CreditTally {
            token,
            names: NameSet::of(name),
            seats,
        }
    }

    /// Whether all seats of the credit are in the tally. Then each mark of its history belongs to one of them. Each
    /// mark is a whole call.
    pub fn is_whole(&self) -> bool
        ensures whole { IsTrue result ↔ IsWhole self.now.object.seats self.now.names }
        ensures mine { IsTrue result → mine seat_of self.now.names self.now.seen ≡ self.now.seen }
        ensures lawful { IsCreditHistory self.now.seen }
        ensures named { AreNamed credit_rules self.now.object.seats self.now.seen }
        ensures rest { IsAtRest credit_rules self.now.seen }
    {
        self.names.has_all(self.seats)
    }
}

impl fmt::Debug for CreditTally {
    fn fmt<W: fmt::Write>(&self, f: &mut fmt::Formatter<W>) -> fmt::Result {
        f.debug_struct("CreditTally")
            .field("seats", &self.seats)
            .field("is_whole", &self.is_whole())
            .finish_non_exhaustive()
    }
}
