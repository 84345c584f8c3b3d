//! The laws of scripts, journals and names.

ghost use Rattle.std.specs.Prelude.{◌≡◌, ◌≢◌, ℕ, suc, ◌+◌, pos, negsuc, List, [], ◌∷◌, ◌++◌, map, codes, decimal, Option, Some, None};
ghost use Rattle.fak_model.specs.declared.queue.Kind.TheVariants as kinds;
ghost use Rattle.fak_model.specs.declared.room.RoomKind.TheVariants as room_kinds;
ghost use Rattle.fak_core.specs.declared.line.CoreMove.{CoreMove};
ghost use Rattle.fak_core.specs.declared.line.CoreMove.TheVariants as moves;
ghost use Rattle.fak_core.specs.declared.line.LineMark.{LineMark};
ghost use Rattle.fak_core.specs.declared.line.LineMark.TheVariants as marks;
ghost use Rattle.fak_core.specs.declared.fault.CoreFault.{CoreFault};
ghost use Rattle.fak_core.specs.declared.fault.CoreFault.TheVariants as faults;
ghost use Rattle.fak_text.specs.Examples.{LineReads, NoteReads, RefusalReads, queue_marks, room_marks};
ghost use Rattle.fak_text.specs.Journal.{NoteOf, births_of, child_count, said, yielded, downed, upped, opened, closed, statted, spawned, no_birth, no_slot, shut_down};
ghost use Rattle.fak_text.specs.JournalText.{journal_line, text_of_journal, text_of_name};
ghost use Rattle.fak_text.specs.LineText.{mark_or_dash};
ghost use Rattle.fak_text.specs.Names.{move_name, refusal_name};
ghost use Rattle.fak_text.specs.Laws.{EachStepIsInRange, EachNewProcessFits, EachAllowedNoteFits, EachPositionIsInProgram, EachMarkIsReadByItsName};

/// Each step of a script is in range.
pub fn each_step_of_a_script_is_in_range()
    ensures { EachStepIsInRange }
{}

/// A process at the start of one of the script's programs fits the script.
pub fn a_new_process_fits()
    ensures { EachNewProcessFits }
{}

/// A process that fits its script still does when it has done its next step with a result that the step allows.
pub fn an_allowed_note_still_fits()
    ensures { EachAllowedNoteFits }
{}

/// The children of a process are the spawns of its journal that gave it one, and no other note counts.
pub fn each_spawn_is_counted()
    ensures none { child_count [] ≡ 0 }
    ensures spawned { (j : ℕ) (notes : List NoteOf) → child_count (spawned j ∷ notes) ≡ child_count notes + 1 }
    ensures others { (note : NoteOf) (notes : List NoteOf) → ((j : ℕ) → note ≢ spawned j)
        → child_count (note ∷ notes) ≡ child_count notes }
{}

/// The position of a process that fits its script is in its program, or at its end.
pub fn a_process_that_fits_stands_in_its_program()
    ensures { EachPositionIsInProgram }
{}

/// The reader of histories reads each kind of mark by the name that lines give it.
pub fn each_mark_is_read_by_its_name()
    ensures { EachMarkIsReadByItsName }
{}

/// The texts of lines that are known: of steps with and without a mark, a number, a negative number, and of refusals.
pub fn the_texts_of_lines_are_known()
    ensures bare { (seat found : ℕ) → LineReads seat moves.Test (pos found) None
        (decimal seat ++ codes " " ++ codes "test" ++ codes " " ++ decimal found ++ codes " " ++ codes "-") }
    ensures negative { (seat found : ℕ) → LineReads seat moves.TestLow (negsuc found) (Some (marks.Queue kinds.NoItem))
        (decimal seat ++ codes " " ++ codes "test-low" ++ codes " " ++ (45 ∷ decimal (suc found)) ++ codes " "
        ++ codes "no-item") }
    ensures amount { (seat found d : ℕ) → LineReads seat moves.Add (pos found) (Some (marks.Room (room_kinds.Up d)))
        (decimal seat ++ codes " " ++ codes "add" ++ codes " " ++ decimal found ++ codes " " ++
        (codes "up " ++ decimal d)) }
    ensures item { (seat found x : ℕ) → LineReads seat moves.TicketIn (pos found) (Some (marks.Queue (kinds.Put x)))
        (decimal seat ++ codes " " ++ codes "ticket-in" ++ codes " " ++ decimal found ++ codes " " ++
        (codes "put " ++ decimal x)) }
    ensures ticket { (seat found k : ℕ) → LineReads seat moves.SetFree (pos found) (Some (marks.Queue (kinds.Take k)))
        (decimal seat ++ codes " " ++ codes "set-free" ++ codes " " ++ decimal found ++ codes " " ++
        (codes "take " ++ decimal k)) }
    ensures refusal { (seat : ℕ) → RefusalReads seat faults.MidCall
        (decimal seat ++ codes " refused " ++ codes "mid-call") }
    ensures other_refusal { (seat : ℕ) → RefusalReads seat faults.NoSuchSeat
        (decimal seat ++ codes " refused " ++ codes "no-such-seat") }
{}

/// The text of each line, whatever its seat, step, value found and mark: a value below 0 has a minus before it. And the text of
/// each refusal.
pub fn each_line_has_its_text()
    ensures found { (seat found : ℕ) (step : CoreMove) (mark : Option LineMark) → LineReads seat step (pos found) mark
        (decimal seat ++ codes " " ++ move_name step ++ codes " " ++ decimal found ++ codes " " ++ mark_or_dash mark) }
    ensures negative { (seat found : ℕ) (step : CoreMove) (mark : Option LineMark) → LineReads seat step (negsuc found) mark
        (decimal seat ++ codes " " ++ move_name step ++ codes " " ++ (45 ∷ decimal (suc found)) ++ codes " " ++
        mark_or_dash mark) }
    ensures refusal { (seat : ℕ) (fault : CoreFault) → RefusalReads seat fault
        (decimal seat ++ codes " refused " ++ refusal_name fault) }
{}

/// The name of each step, and of each refusal.
pub fn each_step_has_its_name()
    ensures claims { map move_name (moves.Test ∷ moves.Add ∷ moves.Back ∷ moves.Release ∷ moves.TestUp ∷ moves.AddUp ∷
        moves.BackUp ∷ moves.TestLow ∷ moves.SubLow ∷ moves.BackLow ∷ [])
        ≡ codes "test" ∷ codes "add" ∷ codes "back" ∷ codes "release" ∷ codes "test-up" ∷ codes "add-up" ∷
        codes "back-up" ∷ codes "test-low" ∷ codes "sub-low" ∷ codes "back-low" ∷ [] }
    ensures tickets { map move_name (moves.TicketIn ∷ moves.TurnIn ∷ moves.StoreItem ∷ moves.SetFull ∷ moves.EndIn ∷
        moves.TicketOut ∷ moves.TurnOut ∷ moves.LoadItem ∷ moves.SetFree ∷ moves.EndOut ∷ moves.Shut ∷ [])
        ≡ codes "ticket-in" ∷ codes "turn-in" ∷ codes "store-item" ∷ codes "set-full" ∷ codes "end-in" ∷
        codes "ticket-out" ∷ codes "turn-out" ∷ codes "load-item" ∷ codes "set-free" ∷ codes "end-out" ∷ codes "shut" ∷
        [] }
    ensures refusals { map refusal_name (faults.NoSuchSeat ∷ faults.MidCall ∷ faults.IdleSeat ∷ faults.NotHeld ∷ [])
        ≡ codes "no-such-seat" ∷ codes "mid-call" ∷ codes "idle-seat" ∷ codes "not-held" ∷ [] }
{}

/// The text of each mark, whatever its amount, item or ticket; and the dash of a step without one.
pub fn each_mark_has_its_text()
    ensures amounts { (d : ℕ) → room_marks (room_kinds.Up d ∷ room_kinds.Over d ∷ room_kinds.Back d ∷ room_kinds.No d ∷
        room_kinds.Release d ∷ [])
        ≡ (codes "up " ++ decimal d) ∷ (codes "over " ++ decimal d) ∷ (codes "back " ++ decimal d) ∷
        (codes "no " ++ decimal d) ∷ (codes "release " ++ decimal d) ∷ [] }
    ensures numbers { (n : ℕ) → queue_marks (kinds.Put n ∷ kinds.Fill n ∷ kinds.Got n ∷ kinds.Take n ∷ [])
        ≡ (codes "put " ++ decimal n) ∷ (codes "fill " ++ decimal n) ∷ (codes "got " ++ decimal n) ∷
        (codes "take " ++ decimal n) ∷ [] }
    ensures insertions { queue_marks (kinds.ClaimIn ∷ kinds.OverIn ∷ kinds.BackIn ∷ kinds.NoRoom ∷ kinds.EndIn ∷
        kinds.LateIn ∷ kinds.Close ∷ kinds.Closed ∷ [])
        ≡ codes "claim-in" ∷ codes "over-in" ∷ codes "back-in" ∷ codes "no-room" ∷ codes "end-in" ∷ codes "late-in" ∷
        codes "close" ∷ codes "closed" ∷ [] }
    ensures deletions { queue_marks (kinds.ClaimOut ∷ kinds.OverOut ∷ kinds.BackOut ∷ kinds.NoItem ∷ kinds.EndOut ∷ [])
        ≡ codes "claim-out" ∷ codes "over-out" ∷ codes "back-out" ∷ codes "no-item" ∷ codes "end-out" ∷ [] }
    ensures none { mark_or_dash None ≡ codes "-" }
{}

/// The texts of journals that are known, with a note of each kind, and of the names of processes.
pub fn the_texts_of_journals_are_known()
    ensures said { NoteReads [] (said (codes "a b")) (codes "  say a b\n") }
    ensures yielded { NoteReads [] yielded (codes "  yield\n") }
    ensures downed { (s : ℕ) → NoteReads [] (downed s) (codes "  down " ++ decimal s ++ codes "\n") }
    ensures upped { (s : ℕ) → NoteReads [] (upped s) (codes "  up " ++ decimal s ++ codes "\n") }
    ensures opened { (n i : ℕ) → NoteReads [] (opened n (Some i))
        (codes "  open " ++ (decimal n ++ (codes " entry " ++ decimal i)) ++ codes "\n") }
    ensures not_opened { (n : ℕ) → NoteReads [] (opened n None)
        (codes "  open " ++ (decimal n ++ codes " no-entry") ++ codes "\n") }
    ensures closed { (n i : ℕ) → NoteReads [] (closed n (Some i))
        (codes "  close " ++ (decimal n ++ (codes " entry " ++ decimal i)) ++ codes "\n") }
    ensures not_closed { (n : ℕ) → NoteReads [] (closed n None)
        (codes "  close " ++ (decimal n ++ codes " none") ++ codes "\n") }
    ensures statted { (n u : ℕ) → NoteReads [] (statted n (Some u))
        (codes "  stat " ++ (decimal n ++ (codes " uses " ++ decimal u)) ++ codes "\n") }
    ensures not_statted { (n : ℕ) → NoteReads [] (statted n None)
        (codes "  stat " ++ (decimal n ++ codes " none") ++ codes "\n") }
    ensures spawned { (i j : ℕ) → NoteReads (i ∷ []) (spawned j)
        (codes "  spawn " ++ (decimal i ++ (codes "." ++ decimal j)) ++ codes "\n") }
    ensures no_birth { NoteReads [] no_birth (codes "  spawn no-birth\n") }
    ensures no_slot { NoteReads [] no_slot (codes "  spawn no-slot\n") }
    ensures shut_down { NoteReads [] shut_down (codes "  shutdown\n") }
    ensures order { text_of_journal [] (yielded ∷ shut_down ∷ []) ≡ codes "  yield\n  shutdown\n" }
    ensures child { (i j : ℕ) → text_of_journal (i ∷ []) (spawned j ∷ []) ≡ codes "  spawn " ++
        (decimal i ++ (codes "." ++ decimal j)) ++ codes "\n" ++ [] }
    ensures empty { text_of_journal [] [] ≡ [] }
    ensures name { (i j k : ℕ) → text_of_name (i ∷ j ∷ k ∷ []) ≡ decimal i ++
        (codes "." ++ (decimal j ++ (codes "." ++ decimal k))) }
    ensures first_name { (i : ℕ) → text_of_name (i ∷ []) ≡ decimal i }
{}

/// A journal has a line for each note, in order. What was said is shown as it is, and a child by its name; any other note reads
/// alike in all journals. A name is its numbers with a dot between two.
pub fn each_journal_has_its_lines()
    ensures order { (name : List ℕ) (note : NoteOf) (notes : List NoteOf) → text_of_journal name (note ∷ notes)
        ≡ journal_line (λ j. text_of_name (name ++ j ∷ [])) note ++ text_of_journal name notes }
    ensures said { (name text : List ℕ) → NoteReads name (said text) (codes "  " ++ (codes "say " ++ text) ++ codes "\n") }
    ensures child { (name : List ℕ) (j : ℕ) → NoteReads name (spawned j)
        (codes "  " ++ (codes "spawn " ++ text_of_name (name ++ j ∷ [])) ++ codes "\n") }
    ensures others { (name : List ℕ) (note : NoteOf) → births_of note ≡ 0
        → NoteReads name note (journal_line decimal note) }
    ensures name { (i j : ℕ) (name : List ℕ) → text_of_name (i ∷ j ∷ name)
        ≡ decimal i ++ (codes "." ++ text_of_name (j ∷ name)) }
{}
