//! What the histories of a semaphore show about one name's downs.

ghost use Rattle.std.specs.Prelude.{◌≡◌, ◌+◌, ℕ, List};
ghost use Rattle.fak_model.specs.declared.credit.CreditMark.{CreditMark};
ghost use Rattle.fak_model.specs.Credit.{debits};
ghost use Rattle.fak_model.specs.Seats.{marks_of};
ghost use Rattle.fak_count.specs.Credits.{seat_of};
ghost use Rattle.fak_sem.specs.Grants.{downs_parked_by, downs_passed_by};

/// A name's downs that found at least 1 passed, and its other downs parked their items.
pub fn each_down_passes_or_parks()
    ensures { (start name : ℕ) (h : List CreditMark)
        → downs_passed_by name start h + downs_parked_by name start h ≡ debits (marks_of seat_of name h) }
{}
