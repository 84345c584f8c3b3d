//! Conclusions about the entries of a file table.

ghost use Rattle.std.specs.Prelude.{◌≡◌, [], ◌∷◌, false, Some, None};
ghost use Rattle.fak_run.specs.Examples.{changed, used};
ghost use Rattle.fak_run.specs.Files.{close_change, free_entry, open_change, uses_of};
ghost use Rattle.fak_run.specs.ListScheduler.{Lists, Turn, make};
ghost use Rattle.fak_run.specs.SmallSteps.{on_turn, turn_after};
ghost use Rattle.fak_text.specs.Journal.{statted};
ghost use Rattle.fak_text.specs.Script.{ScriptOf, stat};

use fak_run::laws::file_tables::each_open_and_close_is_counted;
use fak_run::laws::small_steps::each_step_of_a_turn_is_known;
use fak_run::laws::the_rules_of_a_file_table_are_known;

/// After a close an entry of 6,000 uses has 5,999, and the entries next to it stay the same. One more open gives an
/// entry its most uses, and a further one changes nothing.
pub fn a_file_of_many_uses_stays_open()
    ensures closed { close_change (used 5 1 ∷ used 7 6000 ∷ used 9 3 ∷ []) 7
        ≡ changed (Some 1) (used 5 1 ∷ used 7 5999 ∷ used 9 3 ∷ []) }
    ensures freed { close_change (used 5 1 ∷ used 7 1 ∷ used 9 3 ∷ []) 7
        ≡ changed (Some 1) (used 5 1 ∷ free_entry ∷ used 9 3 ∷ []) }
    ensures opened { open_change (used 5 1 ∷ used 7 4294967294 ∷ []) 7
        ≡ changed (Some 1) (used 5 1 ∷ used 7 4294967295 ∷ []) }
    ensures most { open_change (used 5 1 ∷ used 7 4294967295 ∷ []) 7
        ≡ changed None (used 5 1 ∷ used 7 4294967295 ∷ []) }
    ensures taken { open_change (used 5 1 ∷ free_entry ∷ []) 7 ≡ changed (Some 1) (used 5 1 ∷ used 7 1 ∷ []) }
    ensures full { open_change (used 5 1 ∷ used 6 2 ∷ []) 7 ≡ changed None (used 5 1 ∷ used 6 2 ∷ []) }
    ensures unopened { close_change (used 5 1 ∷ free_entry ∷ []) 7 ≡ changed None (used 5 1 ∷ free_entry ∷ []) }
    ensures uses { uses_of (used 5 1 ∷ used 7 6000 ∷ []) 7 ≡ Some 6000 }
    ensures no_uses { uses_of (used 5 1 ∷ used 6 2 ∷ []) 7 ≡ None }
{
    each_open_and_close_is_counted();
}

/// An open and then a close of an entry in use change nothing. The first open of a file takes the first free entry, and
/// the last close frees it. A stat shows the uses of an entry in the journal.
pub fn small_tables_change_as_known()
    ensures first { (open_change (free_entry ∷ free_entry ∷ []) 7).entries ≡ used 7 1 ∷ free_entry ∷ [] }
    ensures back { (close_change (open_change (free_entry ∷ used 7 1 ∷ []) 7).entries 7).entries
        ≡ free_entry ∷ used 7 1 ∷ [] }
    ensures beside { (open_change (used 7 1 ∷ free_entry ∷ free_entry ∷ []) 8).entry ≡ Some 1 }
    ensures full { (open_change (used 7 1 ∷ used 8 1 ∷ []) 9).entry ≡ None }
    ensures most { (open_change (used 7 4294967294 ∷ []) 7).entries ≡ used 7 4294967295 ∷ [] }
    ensures too_often { (open_change (used 7 4294967295 ∷ free_entry ∷ []) 7).entries
        ≡ used 7 4294967295 ∷ free_entry ∷ [] }
    ensures frees { (close_change (used 8 3 ∷ used 7 1 ∷ []) 7).entries ≡ used 8 3 ∷ free_entry ∷ [] }
    ensures unopened { (close_change (used 7 1 ∷ []) 8).entry ≡ None }
    ensures stat { (script : ScriptOf) (s : Lists) (t : Turn) → s.entries ≡ free_entry ∷ used 7 3 ∷ []
        → make script s t (stat 7) ≡ on_turn s (turn_after t (statted 7 (Some 3)) false) }
    ensures no_stat { (script : ScriptOf) (s : Lists) (t : Turn) → s.entries ≡ free_entry ∷ used 7 3 ∷ []
        → make script s t (stat 8) ≡ on_turn s (turn_after t (statted 8 None) false) }
{
    the_rules_of_a_file_table_are_known();
    each_step_of_a_turn_is_known();
}
