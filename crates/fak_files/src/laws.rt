//! What the histories of a file table show about holds.

ghost use Rattle.std.specs.Prelude.{ℕ, ◌≡◌, ◌≢◌, ◌<◌, ◌≤◌, true, List, [], ◌∷◌, ◌++◌};
ghost use Rattle.fak_model.specs.declared.file.FileField.{FileField};
ghost use Rattle.fak_model.specs.Histories.{AreNamed};
ghost use Rattle.fak_model.specs.File.{IsFileHistory, file_rules, amount_held, field, seat_of};
ghost use Rattle.fak_model.specs.Seats.{marks_of};
ghost use Rattle.fak_files.specs.Versions.{is_take, is_set, KeepsHold, prefix_through_take, marks_since_take};

use fak_model::FileMark;

/// While one seat holds as much as there are seats, no other seat holds anything.
pub fn a_writer_is_alone()
    ensures { (k seats : ℕ) (h : List FileMark) → IsFileHistory k h → AreNamed (file_rules k) seats h
        → (writer other : ℕ) → writer < seats → other < seats → writer ≢ other → amount_held writer h ≡ k
        → amount_held other h ≡ 0 }
{}

/// Between a Take and its Give only that seat sets fields.
pub fn no_set_of_another_seat_lies_in_a_hold()
    ensures { (k : ℕ) → 1 ≤ k → (seats : ℕ) (h : List FileMark) → IsFileHistory k h → AreNamed (file_rules k) seats h
        → (before mid after : List FileMark) (take set : FileMark) → before ++ take ∷ (mid ++ set ∷ after) ≡ h
        → is_take take.kind ≡ true → KeepsHold take.seat mid → is_set set.kind ≡ true → set.seat ≡ take.seat }
{}

/// While a seat holds, each field is what it was at the seat's Take, except for what the seat has set since.
pub fn the_fields_of_a_hold_are_those_of_its_take()
    ensures { (k seats : ℕ) (h : List FileMark) → IsFileHistory k h → AreNamed (file_rules k) seats h
        → (name : ℕ) → name < seats → 0 < amount_held name h
        → (i : ℕ) (f : FileField) → field h i f ≡ field (prefix_through_take name h ++ marks_since_take name h) i f }
{}

/// What a seat reads during a hold stays the same while it leaves no mark.
pub fn what_a_hold_reads_stays()
    ensures { (name : ℕ) (h rest : List FileMark) → marks_of seat_of name rest ≡ []
        → (prefix_through_take name (h ++ rest) ≡ prefix_through_take name h)
        × (marks_since_take name (h ++ rest) ≡ marks_since_take name h) }
{}

/// At its Take a seat reads all that it has seen.
pub fn a_take_reads_all_before_it()
    ensures { (h : List FileMark) (take : FileMark) → is_take take.kind ≡ true
        → (prefix_through_take take.seat (h ++ take ∷ []) ≡ h ++ take ∷ [])
        × (marks_since_take take.seat (h ++ take ∷ []) ≡ []) }
{}
