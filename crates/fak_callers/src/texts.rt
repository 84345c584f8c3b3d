//! Conclusions about texts.

ghost use Rattle.std.specs.Prelude.{◌≡◌, ℕ, List, [], ◌∷◌, ◌++◌, codes, decimal, length, negsuc, pos, Some, None};
ghost use Rattle.fak_core.specs.declared.fault.CoreFault.TheVariants as faults;
ghost use Rattle.fak_core.specs.declared.line.CoreMove.TheVariants as moves;
ghost use Rattle.fak_core.specs.declared.line.LineMark.TheVariants as marks;
ghost use Rattle.fak_model.specs.declared.queue.Kind.TheVariants as kinds;
ghost use Rattle.fak_model.specs.declared.room.RoomKind.TheVariants as room_kinds;
ghost use Rattle.fak_text.specs.Examples.{LineReads, NoteReads, RefusalReads};
ghost use Rattle.fak_text.specs.HistoryText.{kind_named};
ghost use Rattle.fak_text.specs.Journal.{child_count, closed, downed, no_birth, no_slot, opened, said, shut_down, spawned, statted, upped, yielded};
ghost use Rattle.fak_text.specs.JournalText.{text_of_journal, text_of_name};
ghost use Rattle.fak_text.specs.LineText.{mark_or_dash};
ghost use Rattle.fak_text.specs.Names.{move_name};

use fak_text::laws::{
    each_journal_has_its_lines, each_line_has_its_text, each_mark_has_its_text,
    each_mark_is_read_by_its_name, each_spawn_is_counted, each_step_has_its_name,
    the_texts_of_journals_are_known, the_texts_of_lines_are_known,
};

/// Lines that found a number of two digits below 0, the largest number of a word, and an amount; one of them has no
/// mark. A mark and a step, by their names.
pub fn lines_of_many_numbers_are_known()
    ensures below { LineReads 63 moves.BackLow (negsuc 11) (Some (marks.Queue kinds.BackOut))
        (decimal 63 ++ codes " " ++ codes "back-low" ++ codes " " ++ (45 ∷ decimal 12) ++ codes " " ++
        codes "back-out") }
    ensures largest { LineReads 0 moves.LoadItem (pos 18446744073709551615) None
        (decimal 0 ++ codes " " ++ codes "load-item" ++ codes " " ++ decimal 18446744073709551615 ++ codes " " ++
        codes "-") }
    ensures over { mark_or_dash (Some (marks.Room (room_kinds.Over 1024))) ≡ codes "over " ++ decimal 1024 }
    ensures end_out { move_name moves.EndOut ≡ codes "end-out" }
    ensures amount { LineReads 7 moves.Release (pos 1024) (Some (marks.Room (room_kinds.Release 1024)))
        (decimal 7 ++ codes " " ++ codes "release" ++ codes " " ++ decimal 1024 ++ codes " " ++
        (codes "release " ++ decimal 1024)) }
{
    each_line_has_its_text();
    each_mark_has_its_text();
    each_step_has_its_name();
}

/// The marks that two names are read as.
pub fn marks_are_read_by_their_names()
    ensures put { kind_named (codes "put") 7 ≡ Some (kinds.Put 7) }
    ensures late { kind_named (codes "late-in") 0 ≡ Some kinds.LateIn }
{
    each_mark_is_read_by_its_name();
}

/// The journal of a child that says a text, performs an up of a semaphore and begins its second child.
pub fn a_journal_is_its_lines()
    ensures text { (text : List ℕ) → text_of_journal (0 ∷ 3 ∷ []) (said text ∷ upped 12 ∷ spawned 1 ∷ [])
        ≡ codes "  " ++ (codes "say " ++ text) ++ codes "\n"
        ++ (codes "  " ++ (codes "up " ++ decimal 12) ++ codes "\n"
        ++ (codes "  " ++ (codes "spawn " ++ (decimal 0 ++ (codes "." ++ (decimal 3 ++ (codes "." ++ decimal 1)))))
        ++ codes "\n" ++ [])) }
    ensures children { child_count (spawned 0 ∷ no_birth ∷ upped 12 ∷ spawned 1 ∷ []) ≡ 2 }
{
    each_journal_has_its_lines();
    each_spawn_is_counted();
}

/// Known lines with known numbers: with and without a mark, with a value below 0, and refusals.
pub fn known_lines_have_known_texts()
    ensures bare { LineReads 63 moves.Test (pos 1024) None
        (decimal 63 ++ codes " " ++ codes "test" ++ codes " " ++ decimal 1024 ++ codes " " ++ codes "-") }
    ensures negative { LineReads 0 moves.TestLow (negsuc 11) (Some (marks.Queue kinds.NoItem))
        (decimal 0 ++ codes " " ++ codes "test-low" ++ codes " " ++ (45 ∷ decimal 12) ++ codes " " ++ codes "no-item") }
    ensures amount { LineReads 7 moves.Add (pos 0) (Some (marks.Room (room_kinds.Up 4294967295)))
        (decimal 7 ++ codes " " ++ codes "add" ++ codes " " ++ decimal 0 ++ codes " " ++
        (codes "up " ++ decimal 4294967295)) }
    ensures item { LineReads 1 moves.TicketIn (pos 4095) (Some (marks.Queue (kinds.Put 9)))
        (decimal 1 ++ codes " " ++ codes "ticket-in" ++ codes " " ++ decimal 4095 ++ codes " " ++
        (codes "put " ++ decimal 9)) }
    ensures ticket { LineReads 2 moves.SetFree (pos 3) (Some (marks.Queue (kinds.Take 1)))
        (decimal 2 ++ codes " " ++ codes "set-free" ++ codes " " ++ decimal 3 ++ codes " " ++
        (codes "take " ++ decimal 1)) }
    ensures refusal { RefusalReads 5 faults.MidCall (decimal 5 ++ codes " refused " ++ codes "mid-call") }
    ensures other_refusal { RefusalReads 64 faults.NoSuchSeat (decimal 64 ++ codes " refused " ++ codes "no-such-seat") }
{
    the_texts_of_lines_are_known();
}

/// Known notes with known numbers, one of each kind; and the names of processes.
pub fn known_notes_have_known_texts()
    ensures said { NoteReads [] (said (codes "a b")) (codes "  say a b\n") }
    ensures yielded { NoteReads [] yielded (codes "  yield\n") }
    ensures downed { NoteReads [] (downed 15) (codes "  down " ++ decimal 15 ++ codes "\n") }
    ensures upped { NoteReads [] (upped 0) (codes "  up " ++ decimal 0 ++ codes "\n") }
    ensures opened { NoteReads [] (opened 7 (Some 63))
        (codes "  open " ++ (decimal 7 ++ (codes " entry " ++ decimal 63)) ++ codes "\n") }
    ensures not_opened { NoteReads [] (opened 4294967296 None)
        (codes "  open " ++ (decimal 4294967296 ++ codes " no-entry") ++ codes "\n") }
    ensures closed { NoteReads [] (closed 7 (Some 0))
        (codes "  close " ++ (decimal 7 ++ (codes " entry " ++ decimal 0)) ++ codes "\n") }
    ensures not_closed { NoteReads [] (closed 8 None) (codes "  close " ++ (decimal 8 ++ codes " none") ++ codes "\n") }
    ensures statted { NoteReads [] (statted 7 (Some 4294967295))
        (codes "  stat " ++ (decimal 7 ++ (codes " uses " ++ decimal 4294967295)) ++ codes "\n") }
    ensures not_statted { NoteReads [] (statted 9 None) (codes "  stat " ++ (decimal 9 ++ codes " none") ++ codes "\n") }
    ensures spawned { NoteReads (3 ∷ []) (spawned 1)
        (codes "  spawn " ++ (decimal 3 ++ (codes "." ++ decimal 1)) ++ codes "\n") }
    ensures no_birth { NoteReads [] no_birth (codes "  spawn no-birth\n") }
    ensures no_slot { NoteReads [] no_slot (codes "  spawn no-slot\n") }
    ensures shut_down { NoteReads [] shut_down (codes "  shutdown\n") }
    ensures order { text_of_journal [] (yielded ∷ shut_down ∷ []) ≡ codes "  yield\n  shutdown\n" }
    ensures child { text_of_journal (3 ∷ []) (spawned 1 ∷ []) ≡ codes "  spawn " ++
        (decimal 3 ++ (codes "." ++ decimal 1)) ++ codes "\n" ++ [] }
    ensures empty { length (text_of_journal [] []) ≡ 0 }
    ensures name { text_of_name (0 ∷ 12 ∷ 3 ∷ []) ≡ decimal 0 ++ (codes "." ++ (decimal 12 ++ (codes "." ++ decimal 3))) }
    ensures first_name { text_of_name (63 ∷ []) ≡ decimal 63 }
{
    the_texts_of_journals_are_known();
}
