//! Conclusions about reports: what a run may print, and what no run prints.

ghost use Rattle.std.specs.Prelude.{◌≡◌, ◌≢◌, ℕ, ◌≤◌, List, [], ◌∷◌, ◌++◌, codes, decimal, length, Some, None};
ghost use Rattle.fak_text.specs.Journal.{downed, no_birth, opened, said, shut_down, spawned, statted, upped, yielded};
ghost use Rattle.fak_text.specs.Script.{ScriptOf, down, say, stat, up};
ghost use Rattle.fak_run.specs.Examples.{used};
ghost use Rattle.fak_run.specs.Files.{free_entry};
ghost use Rattle.fak_run.specs.declared.report.Outcome.TheVariants.{Ended, Halted, Stuck};
ghost use Rattle.fak_run.specs.ReportExamples.{child_row, family_rows, halted_report, left_row, opener, pair_at, parent, parent_row, shutter, small, stuck_report, tells};
ghost use Rattle.fak_run.specs.ReportText.{RunPrints, line_of_row, text_of_births, text_of_entries, text_of_report};

use fak_run::laws::reports::{
    known_reports_are_allowed, known_reports_have_known_statuses, known_reports_have_known_texts,
    reports_with_rows_that_do_not_fit_are_refused, reports_with_wrong_lines_are_refused,
    reports_with_wrong_names_are_refused,
};

/// Runs may print these reports: of a child that is born, of one that is not, and of two downs. Also of a process that
/// halts, and of a file that stays open. The exit status is 3 if a process is stuck, else 0.
pub fn runs_may_print_known_reports()
    ensures child { RunPrints (parent 1) (text_of_report (tells 1 1 1 family_rows free_entry)) 0 }
    ensures no_birth { RunPrints (parent 0) (text_of_report (tells 1 0 0 (parent_row (no_birth ∷ []) ∷ [])
        free_entry)) 0 }
    ensures passed { RunPrints (pair_at 1) (text_of_report (tells 1 0 0 (left_row (0 ∷ []) 0 0 (downed 0 ∷ []) Ended ∷
        left_row (1 ∷ []) 0 0 [] Stuck ∷ []) free_entry)) 3 }
    ensures halted { RunPrints shutter (text_of_report (tells 2 0 0 (left_row (0 ∷ []) 0 0 (shut_down ∷ []) Halted ∷
        []) free_entry)) 0 }
    ensures opened { RunPrints opener (text_of_report (tells 1 0 0 (parent_row (opened 7 (Some 0) ∷ []) ∷ []) (used 7
        1))) 0 }
{
    known_reports_are_allowed();
}

/// No run prints another version, bound or count of births, or rows in another order. Nor does it print a child with
/// another name or program, too many children, or a spawn without its child.
pub fn no_run_prints_wrong_names()
    ensures version { (text : List ℕ) (status : ℕ) (run : RunPrints (parent 1) text status) → run.report
        ≢ tells 2 1 1 family_rows free_entry }
    ensures bound { (text : List ℕ) (status : ℕ) (run : RunPrints (parent 1) text status) → run.report
        ≢ tells 1 1 2 family_rows free_entry }
    ensures births { (text : List ℕ) (status : ℕ) (run : RunPrints (parent 1) text status) → run.report
        ≢ tells 1 0 1 family_rows free_entry }
    ensures order { (text : List ℕ) (status : ℕ) (run : RunPrints (parent 1) text status) → run.report
        ≢ tells 1 1 1 (child_row ∷ parent_row (spawned 0 ∷ []) ∷ []) free_entry }
    ensures name { (text : List ℕ) (status : ℕ) (run : RunPrints (parent 1) text status) → run.report
        ≢ tells 1 1 1 (parent_row (spawned 0 ∷ []) ∷ left_row (0 ∷ 1 ∷ []) 1 1 [] Ended ∷ []) free_entry }
    ensures program { (text : List ℕ) (status : ℕ) (run : RunPrints (parent 1) text status) → run.report
        ≢ tells 1 1 1 (parent_row (spawned 0 ∷ []) ∷ left_row (0 ∷ 0 ∷ []) 2 1 [] Ended ∷ []) free_entry }
    ensures lost { (text : List ℕ) (status : ℕ) (run : RunPrints (parent 1) text status) → run.report
        ≢ tells 1 1 1 (parent_row (spawned 0 ∷ []) ∷ []) free_entry }
    ensures too_many { (text : List ℕ) (status : ℕ) (run : RunPrints (parent 0) text status) → run.report
        ≢ tells 1 1 0 family_rows free_entry }
    ensures no_birth { (text : List ℕ) (status : ℕ) (run : RunPrints (parent 1) text status) → run.report
        ≢ tells 1 0 1 (parent_row (no_birth ∷ []) ∷ []) free_entry }
{
    reports_with_wrong_names_are_refused();
}

/// No run prints a row with a wrong slot, position or outcome. Nor does it print a line that its program does not have.
pub fn no_run_prints_rows_that_do_not_fit()
    ensures slot { (text : List ℕ) (status : ℕ) (run : RunPrints (parent 1) text status) → run.report
        ≢ tells 1 1 1 (parent_row (spawned 0 ∷ []) ∷ left_row (0 ∷ 0 ∷ []) 1 3 [] Ended ∷ []) free_entry }
    ensures position { (text : List ℕ) (status : ℕ) (run : RunPrints (parent 0) text status) → run.report
        ≢ tells 1 0 0 (record (parent_row (no_birth ∷ [])) {
          process = record (parent_row (no_birth ∷ [])).process {
            position = 2;
          };
        } ∷ []) free_entry }
    ensures line { (text : List ℕ) (status : ℕ) (run : RunPrints (parent 1) text status) → run.report
        ≢ tells 1 0 1 (parent_row (yielded ∷ []) ∷ []) free_entry }
    ensures text { (text : List ℕ) (status : ℕ) (run : RunPrints (small 1 0 [] ((say (codes "a") ∷ []) ∷ []) (0 ∷ []))
        text status) → run.report
        ≢ tells 1 0 0 (parent_row (said (codes "b") ∷ []) ∷ []) free_entry }
    ensures semaphore { (text : List ℕ) (status : ℕ) (run : RunPrints (small 1 0 (0 ∷ 0 ∷ []) ((up 0 ∷ []) ∷ []) (0 ∷
        [])) text status) → run.report
        ≢ tells 1 0 0 (parent_row (upped 1 ∷ []) ∷ []) free_entry }
    ensures inode { (text : List ℕ) (status : ℕ) (run : RunPrints opener text status) → run.report
        ≢ tells 1 0 0 (parent_row (opened 8 (Some 0) ∷ []) ∷ []) (used 8 1) }
    ensures number { (text : List ℕ) (status : ℕ) (run : RunPrints (parent 1) text status) → run.report
        ≢ tells 1 1 1 (parent_row (spawned 1 ∷ []) ∷ left_row (0 ∷ 1 ∷ []) 1 1 [] Ended ∷ []) free_entry }
    ensures unended { (text : List ℕ) (status : ℕ) (run : RunPrints (parent 1) text status) → run.report
        ≢ tells 1 0 1 (parent_row [] ∷ []) free_entry }
    ensures unstuck { (text : List ℕ) (status : ℕ) (run : RunPrints (parent 1) text status) → run.report
        ≢ tells 1 1 1 (parent_row (spawned 0 ∷ []) ∷ left_row (0 ∷ 0 ∷ []) 1 1 [] Stuck ∷ []) free_entry }
    ensures halted { (text : List ℕ) (status : ℕ) (run : RunPrints (parent 1) text status) → run.report
        ≢ tells 1 1 1 (parent_row (spawned 0 ∷ []) ∷ left_row (0 ∷ 0 ∷ []) 1 1 [] Halted ∷ []) free_entry }
    ensures stuck { (text : List ℕ) (status : ℕ) (run : RunPrints shutter text status) → run.report
        ≢ tells 2 0 0 (left_row (0 ∷ []) 0 0 (shut_down ∷ []) Stuck ∷ []) free_entry }
{
    reports_with_rows_that_do_not_fit_are_refused();
}

/// No run prints two sleepers in one slot, a down without a unit, or a sleeper while a unit is left. Nor does it print entries
/// that its lines do not make.
pub fn no_run_prints_wrong_lines()
    ensures one_slot { (text : List ℕ) (status : ℕ) (run : RunPrints (pair_at 0) text status) → run.report
        ≢ tells 1 0 0 (left_row (0 ∷ []) 0 0 [] Stuck ∷ left_row (1 ∷ []) 0 0 [] Stuck ∷ []) free_entry }
    ensures halted_slot { (text : List ℕ) (status : ℕ) (run : RunPrints (record shutter { start = 0 ∷ 0 ∷ [] }) text
        status) → run.report
        ≢ tells 2 0 0 (left_row (0 ∷ []) 0 0 (shut_down ∷ []) Halted ∷ left_row (1 ∷ []) 0 0 (shut_down ∷ []) Halted ∷
        []) free_entry }
    ensures passed { (text : List ℕ) (status : ℕ) (run : RunPrints (pair_at 0) text status) → run.report
        ≢ tells 1 0 0 (left_row (0 ∷ []) 0 0 (downed 0 ∷ []) Ended ∷ left_row (1 ∷ []) 0 0 [] Stuck ∷ []) free_entry }
    ensures asleep { (text : List ℕ) (status : ℕ) (run : RunPrints (pair_at 1) text status) → run.report
        ≢ tells 1 0 0 (left_row (0 ∷ []) 0 0 [] Stuck ∷ left_row (1 ∷ []) 0 1 [] Stuck ∷ []) free_entry }
    ensures upped { (text : List ℕ) (status : ℕ) (run : RunPrints (small 1 0 (0 ∷ []) ((down 0 ∷ []) ∷ (up 0 ∷ []) ∷
        []) (0 ∷ 1 ∷ [])) text status) → run.report
        ≢ tells 1 0 0 (left_row (0 ∷ []) 0 0 [] Stuck ∷ left_row (1 ∷ []) 1 1 (upped 0 ∷ []) Ended ∷ []) free_entry }
    ensures second { (text : List ℕ) (status : ℕ) (run : RunPrints (small 1 0 (0 ∷ 1 ∷ []) ((down 1 ∷ []) ∷ []) (0 ∷
        [])) text status) → run.report
        ≢ tells 1 0 0 (left_row (0 ∷ []) 0 0 [] Stuck ∷ []) free_entry }
    ensures other { (text : List ℕ) (status : ℕ) (run : RunPrints (pair_at 0) text status) → run.report
        ≢ tells 1 0 0 (left_row (0 ∷ []) 0 0 (downed 1 ∷ []) Ended ∷ left_row (1 ∷ []) 0 0 [] Stuck ∷ []) free_entry }
    ensures entry { (text : List ℕ) (status : ℕ) (run : RunPrints opener text status) → run.report
        ≢ tells 1 0 0 (parent_row (opened 7 (Some 0) ∷ []) ∷ []) free_entry }
    ensures unopened { (text : List ℕ) (status : ℕ) (run : RunPrints opener text status) → run.report
        ≢ tells 1 0 0 (parent_row (opened 7 None ∷ []) ∷ []) free_entry }
    ensures uses { (text : List ℕ) (status : ℕ) (run : RunPrints (small 1 0 [] ((stat 7 ∷ []) ∷ []) (0 ∷ [])) text
        status) → run.report
        ≢ tells 1 0 0 (parent_row (statted 7 (Some 5) ∷ []) ∷ []) free_entry }
{
    reports_with_wrong_lines_are_refused();
}

/// A run that prints a stuck process ends with the status 3, and a run whose processes have ended or halted with 0.
pub fn a_stuck_process_shows_in_the_status()
    ensures stuck { (script : ScriptOf) (text : List ℕ) (status : ℕ) (run : RunPrints script text status) → run.report
        ≡ tells 1 0 0 (left_row (0 ∷ []) 0 0 [] Ended ∷ left_row (1 ∷ []) 0 0 [] Stuck ∷ []) free_entry → status ≡ 3 }
    ensures others { (script : ScriptOf) (text : List ℕ) (status : ℕ) (run : RunPrints script text status) → run.report
        ≡ tells 2 0 0 (left_row (0 ∷ []) 0 0 [] Ended ∷ left_row (1 ∷ []) 0 0 [] Halted ∷ []) free_entry → status ≡ 0 }
    ensures printed { (text : List ℕ) (status : ℕ) (run : RunPrints (pair_at 1) text status) → run.report
        ≡ tells 1 0 0 (left_row (0 ∷ []) 0 0 (downed 0 ∷ []) Ended ∷ left_row (1 ∷ []) 0 0 [] Stuck ∷ []) free_entry
        → status ≢ 0 }
{
    known_reports_have_known_statuses();
}

/// What runs with known reports print, letter by letter; and the lines of a row, an entry and the births with many
/// digits. Each run prints some text.
pub fn known_reports_are_printed()
    ensures stuck { (script : ScriptOf) (text : List ℕ) (status : ℕ) (run : RunPrints script text status)
        → run.report ≡ stuck_report → text
        ≡ codes "process 0 program 1 slot 2 ended\n"
        ++ codes "  say a b\n"
        ++ codes "  spawn 0.0\n"
        ++ codes "process 0.0 program 3 slot 0 ended\n"
        ++ codes "  yield\n"
        ++ codes "process 1 program 4 slot 5 stuck\n"
        ++ codes "file 0 inode 7 uses 2\n"
        ++ codes "file 2 inode 9 uses 8\n"
        ++ codes "births 1 of 6\n"
        ++ codes "ended 2 stuck 1\n" }
    ensures halted { (script : ScriptOf) (text : List ℕ) (status : ℕ) (run : RunPrints script text status)
        → run.report ≡ halted_report → text
        ≡ codes "process 0 program 0 slot 0 halted\n"
        ++ codes "process 1 program 1 slot 1 ended\n"
        ++ codes "  shutdown\n"
        ++ codes "process 2 program 0 slot 2 halted\n"
        ++ codes "births 0 of 3\n"
        ++ codes "ended 1 stuck 0 halted 2\n" }
    ensures row { line_of_row (left_row (12 ∷ []) 63 1063 [] Ended)
        ≡ codes "process " ++ decimal 12 ++ codes " program " ++ decimal 63 ++ codes " slot " ++ decimal 1063
        ++ codes " ended\n" }
    ensures entry { text_of_entries 15 (used 4294967296 4294967295 ∷ [])
        ≡ codes "file " ++ decimal 15 ++ codes " inode " ++ decimal 4294967296 ++ codes " uses " ++ decimal 4294967295
        ++ codes "\n" }
    ensures births { text_of_births (tells 1 1000 1024 [] free_entry)
        ≡ codes "births " ++ decimal 1000 ++ codes " of " ++ decimal 1024 ++ codes "\n" }
    ensures some { (script : ScriptOf) (text : List ℕ) (status : ℕ) → RunPrints script text status → 1 ≤ length text }
{
    known_reports_have_known_texts();
}
