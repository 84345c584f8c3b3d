//! Conclusions about the begin of a run, and about a run without an end.

ghost use Rattle.std.specs.Prelude.{◌≡◌, ◌≢◌, ℕ, ◌+◌, ◌<◌, ◌≤◌, List, [], ◌∷◌, ◌++◌, length, slice_get, slice_index_or, Some};
ghost use Rattle.fak_text.specs.Journal.{Process, new_process};
ghost use Rattle.fak_text.specs.Script.{ScriptOf};
ghost use Rattle.fak_run.specs.Examples.{unending};
ghost use Rattle.fak_run.specs.Files.{free_entry};
ghost use Rattle.fak_run.specs.ListScheduler.{Turn, enter_ready, opening};
ghost use Rattle.fak_run.specs.Report.{ListSchedulerReports, ReportOf};
ghost use Rattle.fak_run.specs.ReportText.{ListSchedulerPrints};

use fak_run::laws::small_steps::{each_turn_is_known, the_first_lists_are_known};
use fak_run::laws::turns_without_steps_never_end;

/// At the start of a run with programs 4, 6 and 8 the second process runs program 6 in slot 1. With five slots, slots 3 and
/// 4 are free. Counts are those of the script, nobody sleeps, has ended or is halted, and no birth is taken.
pub fn a_run_begins_with_its_first_lists()
    ensures running { (script : ScriptOf) (turn : Turn) → (opening script).running ≢ Some turn }
    ensures ready { (script : ScriptOf) → script.start ≡ 4 ∷ 6 ∷ 8 ∷ []
        → slice_get (opening script).lists.ready 1 ≡ Some (new_process (1 ∷ []) 6 1) }
    ensures processes { (script : ScriptOf) → script.start ≡ 4 ∷ 6 ∷ 8 ∷ []
        → length (opening script).lists.ready ≡ 3 }
    ensures slots { (script : ScriptOf) → script.start ≡ 4 ∷ 6 ∷ 8 ∷ [] → script.slots ≡ 5
        → length (opening script).lists.free_slots ≡ 2 }
    ensures free { (script : ScriptOf) → script.start ≡ 4 ∷ 6 ∷ 8 ∷ [] → script.slots ≡ 5
        → slice_get (opening script).lists.free_slots 1 ≡ Some 4 }
    ensures counts { (script : ScriptOf) → script.semaphores ≡ 7 ∷ 9 ∷ []
        → slice_get (opening script).lists.counts 1 ≡ Some 9 }
    ensures sleepers { (script : ScriptOf) (p : Process) → slice_index_or (opening script).lists.sleepers 15 [] ≢ p ∷ [] }
    ensures entries { (script : ScriptOf) → script.files ≡ 9
        → slice_get (opening script).lists.entries 8 ≡ Some free_entry }
    ensures births { (script : ScriptOf) → 1 ≤ script.births → (opening script).lists.births < script.births }
    ensures is_open { (script : ScriptOf) (p : Process) → enter_ready (opening script).lists p
        ≡ record (opening script).lists { ready = (opening script).lists.ready ++ p ∷ [] } }
    ensures nobody { (script : ScriptOf)
        → length (opening script).lists.ended + length (opening script).lists.halted ≡ 0 }
{
    the_first_lists_are_known();
    each_turn_is_known();
}

/// If turns have no step, a script of one step has no report, and no text is printed.
pub fn a_run_without_steps_reports_nothing()
    ensures report { (report : ReportOf) → ListSchedulerReports unending report → ⊥ }
    ensures text { (text : List ℕ) (status : ℕ) → ListSchedulerPrints unending text status → ⊥ }
{
    turns_without_steps_never_end();
}
