//! The laws of a file table's histories.

ghost use Rattle.std.specs.Prelude.{◌≡◌, ℕ, ◌++◌, ◌≤◌, List, pos};
ghost use Rattle.fak_model.specs.Histories.{AreNamed, IsAtRest, sum_below};
ghost use Rattle.fak_model.specs.File.{IsFileHistory, file_rules, amount_held, count};

use crate::file::FileMark;

/// The amounts held by all seats sum to at most the number of seats.
pub fn amounts_held_in_a_file_table_fit()
    ensures { (k seats : ℕ) (h : List FileMark) → IsFileHistory k h → AreNamed (file_rules k) seats h
        → sum_below (λ seat. amount_held seat h) seats ≤ k }
{}

/// If no call is cut short, no seat holds anything, and the count is the number of seats.
pub fn a_file_table_at_rest_is_free()
    ensures { (k seats : ℕ) (h : List FileMark) → IsFileHistory k h → AreNamed (file_rules k) seats h
        → IsAtRest (file_rules k) h → count k h ≡ pos k }
{}

/// Every prefix of a file table's history is a history.
pub fn a_beginning_of_a_file_history_is_one()
    ensures { (k : ℕ) (h rest : List FileMark) → IsFileHistory k (h ++ rest) → IsFileHistory k h }
{}
