//! A credit and one of its seats as one value, whose calls have no preconditions.

ghost use Rattle.std.specs.Prelude.{◌≡◌, ◌+◌, MatchResult};
ghost use Rattle.fak_model.specs.declared.credit.CreditKind.TheVariants.{Debit, Credit as Credited};
ghost use Rattle.fak_count.specs.Credits.{IsWorn, MakesCall, Observes, calls_made};
ghost use Rattle.fak_count.specs.Seats.{IsSeatOf};

use crate::credits::credit::Credit;
use crate::credits::seat::CreditSeat;
use crate::fault::Worn;
use std::fmt;

/// A credit with one of its seats. The type guarantees that the seat belongs to the credit, so the calls of a port
/// require nothing. Their contracts are about the port's seat, before and after.
#[derive(Drop)]
pub struct CreditPort<'c> {
    /// The credit.
    pub credit: &'c Credit,
    /// The seat, which belongs to this credit.
    pub seat: CreditSeat,
    pub ghost of_credit: { IsSeatOf credit.now.object seat },
}

impl<'c> CreditPort<'c> {
    /// The port of this credit with this seat.
    pub fn new(credit: &'c Credit, seat: CreditSeat) -> CreditPort<'c>
        requires { IsSeatOf credit.now.object seat }
        ensures credit { result.credit.now ≡ credit.now }
        ensures seat { result.seat ≡ seat }
    {
        CreditPort { credit, seat }
    }

    /// Subtracts 1, and returns the value before.
    ///
    /// # Errors
    ///
    /// `Worn`, if the seat's stint is used up.
    pub fn debit(&mut self) -> Result<i64, Worn>
        ensures credit { self.new.credit ≡ self.old.credit }
        ensures call { MatchResult result (MakesCall Debit self.old.credit.now self.old.seat self.new.seat)
            (λ _. IsWorn self.old.seat self.new.seat) }
    {
        self.credit.debit(&mut self.seat)
    }

    /// Adds 1, and returns the value before.
    ///
    /// # Errors
    ///
    /// `Worn`, if the seat's stint is used up.
    pub fn credit(&mut self) -> Result<i64, Worn>
        ensures credit { self.new.credit ≡ self.old.credit }
        ensures call { MatchResult result (MakesCall Credited self.old.credit.now self.old.seat self.new.seat)
            (λ _. IsWorn self.old.seat self.new.seat) }
    {
        self.credit.credit(&mut self.seat)
    }

    /// Loads the value.
    pub fn value(&mut self) -> i64
        ensures credit { self.new.credit ≡ self.old.credit }
        ensures call { Observes self.old.credit.now self.old.seat self.new.seat result }
    {
        self.credit.value(&mut self.seat)
    }

    /// The number of debits and credits together that are left of the seat's stint.
    pub fn left(&self) -> u64
        ensures { result + calls_made self.now.seat ≡ self.now.seat.stint }
    {
        self.seat.left()
    }

    /// The seat, which `CreditTally::of` or `Credit::join` takes.
    pub fn into_seat(self) -> CreditSeat
        ensures credit { IsSeatOf self.entry.credit.now.object result }
        ensures seat { result ≡ self.entry.seat }
    {
        let CreditPort { credit: _, seat } = self;
        seat
    }
}

impl<'c> fmt::Debug for CreditPort<'c> {
    fn fmt<W: fmt::Write>(&self, f: &mut fmt::Formatter<W>) -> fmt::Result {
        f.debug_struct("CreditPort")
            .field("credit", self.credit)
            .field("seat", &self.seat)
            .finish()
    }
}
