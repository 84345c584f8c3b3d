//! Laws of the list scheduler, and of what the processors of a run have done together.

pub mod file_tables;
pub mod gates;
pub mod reports;
pub mod small_steps;

ghost use Rattle.std.specs.Prelude.{◌≡◌, ◌≤◌, ℕ, List, [], ◌∷◌, Some, None};
ghost use Rattle.fak_text.specs.Script.{ScriptOf};
ghost use Rattle.fak_run.specs.ListScheduler.{EndsIn, Lists};
ghost use Rattle.fak_run.specs.Examples.{ping_pong, ping_pong_left, family, family_left, crowd, crowd_left, heirs, heirs_left, alone, alone_left, plenty, plenty_left, curfew, curfew_left, late_child, late_child_left, reader, reader_left, refused, refused_left, unending, unhurried, unhurried_left, latecomers, latecomers_left, counted, counted_left, changed, used};
ghost use Rattle.fak_run.specs.Files.{open_change, close_change, uses_of, free_entry};
ghost use Rattle.std.specs.List.{All, AllPairs};
ghost use Rattle.std.specs.List.Sorted.{IsPermutation};
ghost use Rattle.fak_text.specs.Journal.{Process, no_birth, no_slot};
ghost use Rattle.fak_run.specs.Report.{ListSchedulerReports, ReportOf, RowOf};
ghost use Rattle.fak_run.specs.Ledger.{Balanced, FitsRow, Ledger, joined};
ghost use Rattle.fak_run.specs.Whole.{Gathered, Histories, rows_of};
ghost use Rattle.fak_run.specs.Promises.{Promised};

/// The state in which the list scheduler ends for known scripts: all its lists, its counts and its births.
pub fn the_list_scheduler_ends_known_scripts()
    ensures wakes { EndsIn ping_pong ping_pong_left }
    ensures children { EndsIn family family_left }
    ensures sleepers { EndsIn crowd crowd_left }
    ensures slots { EndsIn heirs heirs_left }
    ensures stuck { EndsIn alone alone_left }
    ensures most_units { EndsIn plenty plenty_left }
    ensures shut { EndsIn curfew curfew_left }
    ensures halted_child { EndsIn late_child late_child_left }
    ensures files { EndsIn reader reader_left }
    ensures unborn { EndsIn (refused 0) (refused_left no_birth) }
    ensures slotless { EndsIn (refused 1) (refused_left no_slot) }
    ensures long_turn { EndsIn unhurried unhurried_left }
    ensures late { EndsIn latecomers latecomers_left }
    ensures counted { EndsIn counted counted_left }
{}

/// What opens, closes and stats find and change in known tables. An open takes the entry with the inode, even if a free
/// entry comes before it, and never exceeds the largest number of uses. A close frees the entry with its last use.
pub fn the_rules_of_a_file_table_are_known()
    ensures first { open_change (free_entry ∷ free_entry ∷ []) 7 ≡ changed (Some 0) (used 7 1 ∷ free_entry ∷ []) }
    ensures again { open_change (free_entry ∷ used 7 1 ∷ []) 7 ≡ changed (Some 1) (free_entry ∷ used 7 2 ∷ []) }
    ensures beside { open_change (used 7 1 ∷ free_entry ∷ free_entry ∷ []) 8 ≡ changed (Some 1)
        (used 7 1 ∷ used 8 1 ∷ free_entry ∷ []) }
    ensures full { open_change (used 7 1 ∷ used 8 1 ∷ []) 9 ≡ changed None (used 7 1 ∷ used 8 1 ∷ []) }
    ensures most { open_change (used 7 4294967294 ∷ []) 7 ≡ changed (Some 0) (used 7 4294967295 ∷ []) }
    ensures too_often { open_change (used 7 4294967295 ∷ free_entry ∷ []) 7 ≡ changed None
        (used 7 4294967295 ∷ free_entry ∷ []) }
    ensures closes { close_change (free_entry ∷ used 7 2 ∷ []) 7 ≡ changed (Some 1) (free_entry ∷ used 7 1 ∷ []) }
    ensures frees { close_change (used 8 3 ∷ used 7 1 ∷ []) 7 ≡ changed (Some 1) (used 8 3 ∷ free_entry ∷ []) }
    ensures unopened { close_change (used 7 1 ∷ []) 8 ≡ changed None (used 7 1 ∷ []) }
    ensures stat { uses_of (free_entry ∷ used 7 3 ∷ []) 7 ≡ Some 3 }
    ensures no_stat { uses_of (free_entry ∷ used 7 3 ∷ []) 8 ≡ None }
{}

/// The list scheduler ends a script in at most one way.
pub fn the_list_scheduler_ends_in_one_way()
    ensures { (script : ScriptOf) (a b : Lists) → EndsIn script a → EndsIn script b → a ≡ b }
{}

/// The list scheduler ends every script whose turns have at least one step.
pub fn the_list_scheduler_ends_every_script()
    ensures { (script : ScriptOf) → 1 ≤ script.quantum → (lists : Lists) × EndsIn script lists }
{}

/// If turns have no step, it does not end a script of one step.
pub fn turns_without_steps_never_end()
    ensures { (lists : Lists) → EndsIn unending lists → ⊥ }
{}

/// The names in the list scheduler's report are distinct, so a script has one report.
pub fn the_list_scheduler_reports_each_name_once()
    ensures once { (script : ScriptOf) (report : ReportOf) → ListSchedulerReports script report
        → AllPairs (λ a b. a.process.name ≡ b.process.name → ⊥) report.rows }
    ensures one { (script : ScriptOf) (a b : ReportOf) → ListSchedulerReports script a → ListSchedulerReports script b
        → a ≡ b }
{}

/// If two ledgers balance, so does the ledger of one followed by the other.
pub fn ledgers_balance_together()
    ensures { (script : ScriptOf) (n : ℕ) (before between after : List Process) (a b : Ledger)
        → Balanced script n before between a
        → Balanced script n between after b → Balanced script n before after (joined a b) }
{}

/// The rows of a run have the properties that its report promises.
pub fn a_gathered_run_keeps_its_promises()
    ensures { (script : ScriptOf) (seats : ℕ) (h : Histories) (l : Ledger) (rows : List RowOf)
        → Gathered script seats h l
        → All (FitsRow script) (rows_of script h l) → IsPermutation (rows_of script h l) rows → Promised script rows }
{}
