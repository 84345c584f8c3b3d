//! The calls of a seat of a credit.

ghost use Rattle.std.specs.Prelude.{◌≡◌, MatchResult};
ghost use Rattle.std.specs.Arc.{arc_value};
ghost use Rattle.fak_model.specs.declared.credit.CreditKind.TheVariants.{Credit as Credited, Debit};
ghost use Rattle.fak_count.specs.Credits.{IsWorn, MakesCall, Observes};
ghost use Rattle.fak_handles.specs.credit.Calls.{SameCredit};

use crate::credit::seat::CreditDesk;
use fak_count::Worn;

impl CreditDesk {
    /// `Credit::debit`.
    pub fn debit(&mut self) -> Result<i64, Worn>
        ensures same { SameCredit self.old self.new }
        ensures call { MatchResult result (MakesCall Debit (arc_value self.old.credit) self.old.seat self.new.seat)
            (λ _. IsWorn self.old.seat self.new.seat) }
    {
        self.credit.debit(&mut self.seat)
    }

    /// `Credit::credit`.
    pub fn credit(&mut self) -> Result<i64, Worn>
        ensures same { SameCredit self.old self.new }
        ensures call { MatchResult result (MakesCall Credited (arc_value self.old.credit) self.old.seat self.new.seat)
            (λ _. IsWorn self.old.seat self.new.seat) }
    {
        self.credit.credit(&mut self.seat)
    }

    /// `Credit::value`.
    pub fn value(&mut self) -> i64
        ensures same { SameCredit self.old self.new }
        ensures call { Observes (arc_value self.old.credit) self.old.seat self.new.seat result }
    {
        self.credit.value(&mut self.seat)
    }
}
