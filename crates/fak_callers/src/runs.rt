//! Conclusions about runs.

ghost use Rattle.std.specs.Prelude.{◌≡◌, ◌≢◌, ℕ, ◌≤◌, List, [], ◌∷◌, length};
ghost use Rattle.std.specs.List.{All};
ghost use Rattle.std.specs.List.Sorted.{IsPermutation};
ghost use Rattle.fak_model.specs.declared.file.FileEntry.{FileEntry};
ghost use Rattle.fak_text.specs.Script.{IsInRange, ScriptOf};
ghost use Rattle.fak_run.specs.Examples.{ping_pong};
ghost use Rattle.fak_run.specs.Ledger.{Balanced, FitsRow, Ledger, joined};
ghost use Rattle.fak_run.specs.ListScheduler.{EndsIn, Lists};
ghost use Rattle.fak_run.specs.Report.{ListSchedulerReports, ReportOf, RowOf};
ghost use Rattle.fak_run.specs.Whole.{Gathered, Histories, rows_of};

use fak_run::laws::{
    a_gathered_run_keeps_its_promises, ledgers_balance_together,
    the_list_scheduler_ends_every_script, the_list_scheduler_ends_in_one_way,
    the_list_scheduler_ends_known_scripts, the_list_scheduler_reports_each_name_once,
};

/// The list scheduler ends every script in range. It ends a known script in the known way, with no unit in its two
/// semaphores.
pub fn a_script_in_range_ends()
    ensures ends { (script : ScriptOf) → IsInRange script → (lists : Lists) × EndsIn script lists }
    ensures counts { (lists : Lists) → EndsIn ping_pong lists → lists.counts ≡ 0 ∷ 0 ∷ [] }
{
    the_list_scheduler_ends_every_script();
    the_list_scheduler_ends_in_one_way();
    the_list_scheduler_ends_known_scripts();
}

/// No report of the list scheduler has the same name in two rows, and two reports of a script have the same births.
pub fn a_report_names_each_process_once()
    ensures twice { (script : ScriptOf) (a b : RowOf) (version births bound : ℕ) (entries : List FileEntry)
        → ListSchedulerReports script (record {
          version = version;
          rows = a ∷ b ∷ [];
          births = births;
          bound = bound;
          entries = entries;
        }) → a.process.name ≢ b.process.name }
    ensures births { (script : ScriptOf) (a b : ReportOf) → ListSchedulerReports script a
        → ListSchedulerReports script b → a.births ≡ b.births }
{
    the_list_scheduler_reports_each_name_once();
}

/// If the ledgers of three processors balance, so does their joined ledger.
pub fn three_ledgers_balance()
    ensures { (script : ScriptOf) (a b d : Ledger) → Balanced script 16 [] [] a → Balanced script 16 [] [] b
        → Balanced script 16 [] [] d → Balanced script 16 [] [] (joined (joined a b) d) }
{
    ledgers_balance_together();
}

/// A run of a script in range has at most 1,064 rows, and no name in two of them.
pub fn a_run_has_few_rows()
    ensures few { (script : ScriptOf) (h : Histories) (l : Ledger) (rows : List RowOf) → IsInRange script
        → Gathered script 8 h l → All (FitsRow script) (rows_of script h l)
        → IsPermutation (rows_of script h l) rows → length rows ≤ 1064 }
    ensures twice { (script : ScriptOf) (h : Histories) (l : Ledger) (a b : RowOf) → Gathered script 8 h l
        → All (FitsRow script) (rows_of script h l) → IsPermutation (rows_of script h l) (a ∷ b ∷ [])
        → a.process.name ≢ b.process.name }
{
    a_gathered_run_keeps_its_promises();
}
