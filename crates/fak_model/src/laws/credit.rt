//! The laws of a credit's histories.

ghost use Rattle.std.specs.Prelude.{◌≡◌, ℕ, ◌++◌, ◌+◌, List, min};
ghost use Rattle.fak_model.specs.Credit.{IsCreditHistory, credits, debits, grants_made};

use crate::credit::CreditMark;

/// The number of grants is the smaller of two numbers: the debits, and the start plus the credits.
pub fn a_credit_grants_what_it_can()
    ensures { (start : ℕ) (h : List CreditMark) → IsCreditHistory h
        → grants_made start h ≡ min (debits h) (start + credits h) }
{}

/// Every list of marks is a credit's history: each debit and each credit is a whole call, and none is refused.
pub fn every_credit_mark_is_lawful()
    ensures { (h : List CreditMark) → IsCreditHistory h }
{}

/// Every prefix of a credit's history is a history.
pub fn a_beginning_of_a_credit_history_is_one()
    ensures { (h rest : List CreditMark) → IsCreditHistory (h ++ rest) → IsCreditHistory h }
{}
