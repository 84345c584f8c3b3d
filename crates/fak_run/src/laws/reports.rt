//! What a run may and may not report, with reports of small scripts on both sides of each promise; and the texts of
//! reports.

ghost use Rattle.std.specs.Prelude.{◌≡◌, ℕ, ◌<◌, List, [], ◌∷◌, ◌++◌, codes, decimal, Some, None};
ghost use Rattle.fak_text.specs.Journal.{downed, no_birth, opened, said, shut_down, spawned, statted, upped, yielded};
ghost use Rattle.fak_text.specs.Script.{ScriptOf, down, say, stat, up};
ghost use Rattle.fak_run.specs.Examples.{used};
ghost use Rattle.fak_run.specs.Files.{free_entry};
ghost use Rattle.fak_run.specs.declared.report.Outcome.TheVariants.{Ended, Halted, Stuck};
ghost use Rattle.fak_run.specs.ReportExamples.{child_row, family_rows, halted_report, left_row, opener, pair_at, parent, parent_row, shutter, small, stuck_report, tells};
ghost use Rattle.fak_run.specs.Report.{exit_status};
ghost use Rattle.fak_run.specs.ReportText.{RunPrints, line_of_row, text_of_births, text_of_entries, text_of_report};
ghost use Rattle.fak_run.specs.RunReports.{RunReports};

/// Reports that runs of known scripts may have: births that are named and counted, downs that pass and downs that
/// sleep, a process that halts, and a file that is opened.
pub fn known_reports_are_allowed()
    ensures child { RunReports (parent 1) (tells 1 1 1 family_rows free_entry) }
    ensures no_birth { RunReports (parent 0) (tells 1 0 0 (parent_row (no_birth ∷ []) ∷ []) free_entry) }
    ensures passed { RunReports (pair_at 1)
        (tells 1 0 0 (left_row (0 ∷ []) 0 0 (downed 0 ∷ []) Ended ∷ left_row (1 ∷ []) 0 0 [] Stuck ∷ []) free_entry) }
    ensures halted { RunReports shutter (tells 2 0 0 (left_row (0 ∷ []) 0 0 (shut_down ∷ []) Halted ∷ []) free_entry) }
    ensures opened { RunReports opener (tells 1 0 0 (parent_row (opened 7 (Some 0) ∷ []) ∷ []) (used 7 1)) }
{}

/// A version or bound that is not the script's, a wrong count of births, and rows in another order. A child with
/// another name or program, a lost child, and more children than are allowed.
pub fn reports_with_wrong_names_are_refused()
    ensures version { RunReports (parent 1) (tells 2 1 1 family_rows free_entry) → ⊥ }
    ensures bound { RunReports (parent 1) (tells 1 1 2 family_rows free_entry) → ⊥ }
    ensures births { RunReports (parent 1) (tells 1 0 1 family_rows free_entry) → ⊥ }
    ensures order { RunReports (parent 1) (tells 1 1 1 (child_row ∷ parent_row (spawned 0 ∷ []) ∷ []) free_entry) → ⊥ }
    ensures name { RunReports (parent 1)
        (tells 1 1 1 (parent_row (spawned 0 ∷ []) ∷ left_row (0 ∷ 1 ∷ []) 1 1 [] Ended ∷ []) free_entry) → ⊥ }
    ensures program { RunReports (parent 1)
        (tells 1 1 1 (parent_row (spawned 0 ∷ []) ∷ left_row (0 ∷ 0 ∷ []) 2 1 [] Ended ∷ []) free_entry) → ⊥ }
    ensures lost { RunReports (parent 1) (tells 1 1 1 (parent_row (spawned 0 ∷ []) ∷ []) free_entry) → ⊥ }
    ensures too_many { RunReports (parent 0) (tells 1 1 0 family_rows free_entry) → ⊥ }
    ensures no_birth { RunReports (parent 1) (tells 1 0 1 (parent_row (no_birth ∷ []) ∷ []) free_entry) → ⊥ }
{}

/// A slot out of range, and a position that does not match the journal. An outcome that does not fit the position or
/// needs a shutdown. A line of another step, text, semaphore or inode, and a child of another number.
pub fn reports_with_rows_that_do_not_fit_are_refused()
    ensures slot { RunReports (parent 1)
        (tells 1 1 1 (parent_row (spawned 0 ∷ []) ∷ left_row (0 ∷ 0 ∷ []) 1 3 [] Ended ∷ []) free_entry) → ⊥ }
    ensures position { RunReports (parent 0)
        (tells 1 0 0 (record (parent_row (no_birth ∷ [])) {
          process = record (parent_row (no_birth ∷ [])).process { position = 2 };
        } ∷ []) free_entry) → ⊥ }
    ensures line { RunReports (parent 1) (tells 1 0 1 (parent_row (yielded ∷ []) ∷ []) free_entry) → ⊥ }
    ensures text { RunReports (small 1 0 [] ((say (codes "a") ∷ []) ∷ []) (0 ∷ []))
        (tells 1 0 0 (parent_row (said (codes "b") ∷ []) ∷ []) free_entry) → ⊥ }
    ensures semaphore { RunReports (small 1 0 (0 ∷ 0 ∷ []) ((up 0 ∷ []) ∷ []) (0 ∷ []))
        (tells 1 0 0 (parent_row (upped 1 ∷ []) ∷ []) free_entry) → ⊥ }
    ensures inode { RunReports opener (tells 1 0 0 (parent_row (opened 8 (Some 0) ∷ []) ∷ []) (used 8 1)) → ⊥ }
    ensures number { RunReports (parent 1)
        (tells 1 1 1 (parent_row (spawned 1 ∷ []) ∷ left_row (0 ∷ 1 ∷ []) 1 1 [] Ended ∷ []) free_entry) → ⊥ }
    ensures unended { RunReports (parent 1) (tells 1 0 1 (parent_row [] ∷ []) free_entry) → ⊥ }
    ensures unstuck { RunReports (parent 1)
        (tells 1 1 1 (parent_row (spawned 0 ∷ []) ∷ left_row (0 ∷ 0 ∷ []) 1 1 [] Stuck ∷ []) free_entry) → ⊥ }
    ensures halted { RunReports (parent 1)
        (tells 1 1 1 (parent_row (spawned 0 ∷ []) ∷ left_row (0 ∷ 0 ∷ []) 1 1 [] Halted ∷ []) free_entry) → ⊥ }
    ensures stuck { RunReports shutter (tells 2 0 0 (left_row (0 ∷ []) 0 0 (shut_down ∷ []) Stuck ∷ []) free_entry)
        → ⊥ }
{}

/// Two sleepers or two halted processes in one slot, an entry that no line opened, and lines that do not lead to the
/// entries. A down that passed although the count was 0, and a down of another semaphore. A down that sleeps although
/// the count was 1, from the start or by an up.
pub fn reports_with_wrong_lines_are_refused()
    ensures one_slot { RunReports (pair_at 0)
        (tells 1 0 0 (left_row (0 ∷ []) 0 0 [] Stuck ∷ left_row (1 ∷ []) 0 0 [] Stuck ∷ []) free_entry) → ⊥ }
    ensures halted_slot { RunReports (record shutter { start = 0 ∷ 0 ∷ [] })
        (tells 2 0 0 (left_row (0 ∷ []) 0 0 (shut_down ∷ []) Halted ∷ left_row (1 ∷ []) 0 0 (shut_down ∷ []) Halted ∷ [])
        free_entry) → ⊥ }
    ensures passed { RunReports (pair_at 0)
        (tells 1 0 0 (left_row (0 ∷ []) 0 0 (downed 0 ∷ []) Ended ∷ left_row (1 ∷ []) 0 0 [] Stuck ∷ []) free_entry)
        → ⊥ }
    ensures asleep { RunReports (pair_at 1)
        (tells 1 0 0 (left_row (0 ∷ []) 0 0 [] Stuck ∷ left_row (1 ∷ []) 0 1 [] Stuck ∷ []) free_entry) → ⊥ }
    ensures upped { RunReports (small 1 0 (0 ∷ []) ((down 0 ∷ []) ∷ (up 0 ∷ []) ∷ []) (0 ∷ 1 ∷ []))
        (tells 1 0 0 (left_row (0 ∷ []) 0 0 [] Stuck ∷ left_row (1 ∷ []) 1 1 (upped 0 ∷ []) Ended ∷ []) free_entry)
        → ⊥ }
    ensures second { RunReports (small 1 0 (0 ∷ 1 ∷ []) ((down 1 ∷ []) ∷ []) (0 ∷ []))
        (tells 1 0 0 (left_row (0 ∷ []) 0 0 [] Stuck ∷ []) free_entry) → ⊥ }
    ensures other { RunReports (pair_at 0)
        (tells 1 0 0 (left_row (0 ∷ []) 0 0 (downed 1 ∷ []) Ended ∷ left_row (1 ∷ []) 0 0 [] Stuck ∷ []) free_entry)
        → ⊥ }
    ensures entry { RunReports opener (tells 1 0 0 (parent_row (opened 7 (Some 0) ∷ []) ∷ []) free_entry) → ⊥ }
    ensures unopened { RunReports opener (tells 1 0 0 (parent_row (opened 7 None ∷ []) ∷ []) free_entry) → ⊥ }
    ensures uses { RunReports (small 1 0 [] ((stat 7 ∷ []) ∷ []) (0 ∷ []))
        (tells 1 0 0 (parent_row (statted 7 (Some 5) ∷ []) ∷ []) free_entry) → ⊥ }
{}

/// The exit status is 3 exactly if a process is stuck. No run prints a report with a stuck process and the status 0.
pub fn known_reports_have_known_statuses()
    ensures stuck { exit_status (tells 1 0 0 (left_row (0 ∷ []) 0 0 [] Ended ∷ left_row (1 ∷ []) 0 0 [] Stuck ∷ [])
        free_entry) ≡ 3 }
    ensures others { exit_status (tells 2 0 0 (left_row (0 ∷ []) 0 0 [] Ended ∷ left_row (1 ∷ []) 0 0 [] Halted ∷ [])
        free_entry) ≡ 0 }
    ensures printed { (text : List ℕ) (run : RunPrints (pair_at 1) text 0) → run.report
        ≡ tells 1 0 0 (left_row (0 ∷ []) 0 0 (downed 0 ∷ []) Ended ∷ left_row (1 ∷ []) 0 0 [] Stuck ∷ []) free_entry
        → ⊥ }
{}

/// The whole texts of two reports, letter by letter; and the text of a row, an entry and the births, for any numbers.
/// No run prints an empty text.
pub fn known_reports_have_known_texts()
    ensures stuck { text_of_report stuck_report
        ≡ codes "process 0 program 1 slot 2 ended\n"
        ++ codes "  say a b\n"
        ++ codes "  spawn 0.0\n"
        ++ codes "process 0.0 program 3 slot 0 ended\n"
        ++ codes "  yield\n"
        ++ codes "process 1 program 4 slot 5 stuck\n"
        ++ codes "file 0 inode 7 uses 2\n"
        ++ codes "file 2 inode 9 uses 8\n"
        ++ codes "births 1 of 6\n"
        ++ codes "ended 2 stuck 1\n" }
    ensures halted { text_of_report halted_report
        ≡ codes "process 0 program 0 slot 0 halted\n"
        ++ codes "process 1 program 1 slot 1 ended\n"
        ++ codes "  shutdown\n"
        ++ codes "process 2 program 0 slot 2 halted\n"
        ++ codes "births 0 of 3\n"
        ++ codes "ended 1 stuck 0 halted 2\n" }
    ensures row { (name program slot : ℕ) → line_of_row (left_row (name ∷ []) program slot [] Ended)
        ≡ codes "process " ++ decimal name ++ codes " program " ++ decimal program ++ codes " slot " ++ decimal slot
        ++ codes " ended\n" }
    ensures entry { (i inode uses : ℕ) → 0 < inode → text_of_entries i (used inode uses ∷ [])
        ≡ codes "file " ++ decimal i ++ codes " inode " ++ decimal inode ++ codes " uses " ++ decimal uses
        ++ codes "\n" }
    ensures births { (births bound : ℕ) → text_of_births (tells 1 births bound [] free_entry)
        ≡ codes "births " ++ decimal births ++ codes " of " ++ decimal bound ++ codes "\n" }
    ensures empty { (script : ScriptOf) (status : ℕ) → RunPrints script [] status → ⊥ }
{}
