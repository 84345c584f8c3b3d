//! What callers of a file table conclude.

ghost use Rattle.std.specs.Prelude.{◌≡◌, ◌≢◌, ℕ, ◌<◌, ◌≤◌, ◌++◌, ◌∷◌, if◌then◌else◌, true, IsTrue, List, length};
ghost use Rattle.fak_model.specs.declared.file.FileMark.{FileMark};
ghost use Rattle.fak_model.specs.Histories.{sum_below};
ghost use Rattle.fak_model.specs.File.{IsFileHistory, amount_held};
ghost use Rattle.fak_model.specs.Seats.{IsWhole};
ghost use Rattle.fak_files.specs.Calls.{IsFileSeatOf, IsFreeSeatOf};
ghost use Rattle.fak_files.specs.Versions.{KeepsHold, entry_of, is_set, is_take, prefix_through_take};
ghost use Rattle.fak_files.specs.declared.phase.Hold.TheVariants.{Nothing, Reading, Writing};

use fak_files::laws::{
    a_take_reads_all_before_it, a_writer_is_alone, no_set_of_another_seat_lies_in_a_hold,
    the_fields_of_a_hold_are_those_of_its_take, what_a_hold_reads_stays,
};
use fak_files::{FileEntry, FileRest, FileSeat, FileTable, FileTally};
use fak_model::laws::file::{
    a_beginning_of_a_file_history_is_one, amounts_held_in_a_file_table_fit,
};

/// Ends a hold: what the seat had seen before is lawful.
pub fn end_lawfully(table: &FileTable, seat: &mut FileSeat)
    requires { IsFileSeatOf table.now.object seat.old × (seat.old.hold ≢ Nothing) }
    ensures idle { IsFreeSeatOf table.now.object seat.new }
    ensures before { IsFileHistory table.now.object.seats seat.old.seat.seen }
{
    a_beginning_of_a_file_history_is_one();
    table.end(seat);
}

/// Brings two seats together: what all seats hold is at most the number of seats.
pub fn join_within_seats(table: &FileTable, a: FileSeat, b: FileSeat) -> FileTally
    requires { IsFreeSeatOf table.now.object a × IsFreeSeatOf table.now.object b }
    ensures object { result.object ≡ table.now.object }
    ensures within { sum_below (λ name. amount_held name result.seen) result.object.seats ≤ table.now.object.seats }
{
    amounts_held_in_a_file_table_fit();
    table.join(FileTally::of(a), b)
}

/// Takes a writer's hold. If it is granted, no other seat holds.
pub fn write_alone(table: &FileTable, seat: &mut FileSeat) -> bool
    requires idle { IsFreeSeatOf table.now.object seat.old }
    requires name { seat.old.seat.name < seat.old.seat.object.seats }
    ensures hold { IsFileSeatOf table.now.object seat.new × (seat.new.hold ≡ (if result then Writing else Nothing)) }
    ensures alone { IsTrue result → (other : ℕ) → other < seat.new.seat.object.seats → seat.new.seat.name ≢ other
        → amount_held other seat.new.seat.seen ≡ 0 }
{
    a_writer_is_alone();
    match table.try_write(seat) {
        Ok(()) => {
            let _hold = seat.hold();
            true
        }
        Err(_) => false,
    }
}

/// Reads an entry in a reader's hold: it is that of the newest state that the seat has seen.
pub fn read_newest(table: &FileTable, seat: &mut FileSeat, i: u64) -> FileEntry
    requires held { IsFileSeatOf table.now.object seat.old × (seat.old.hold ≡ Reading) }
    requires name { seat.old.seat.name < seat.old.seat.object.seats }
    requires entry { i < table.now.entries }
    ensures hold { IsFileSeatOf table.now.object seat.new × (seat.new.hold ≡ Reading) }
    ensures newest { result ≡ entry_of seat.new.seat.seen i }
{
    the_fields_of_a_hold_are_those_of_its_take();
    let entry = table.get(seat, i);
    let _hold = seat.hold();
    entry
}

/// Reads an entry twice in a hold: both reads return the same.
pub fn read_twice(table: &FileTable, seat: &mut FileSeat, i: u64) -> (FileEntry, FileEntry)
    requires held { IsFileSeatOf table.now.object seat.old × (seat.old.hold ≢ Nothing) }
    requires entry { i < table.now.entries }
    ensures hold { IsFileSeatOf table.now.object seat.new × (seat.new.hold ≡ seat.old.hold) }
    ensures same { result.0 ≡ result.1 }
{
    what_a_hold_reads_stays();
    let first = table.get(seat, i);
    let second = table.get(seat, i);
    (first, second)
}

/// Takes a reader's hold. If it is granted, it reads all that the seat has seen.
pub fn read_all_seen(table: &FileTable, seat: &mut FileSeat) -> bool
    requires { IsFreeSeatOf table.now.object seat.old }
    ensures hold { IsFileSeatOf table.now.object seat.new × (seat.new.hold ≡ (if result then Reading else Nothing)) }
    ensures name { (seat.new.seat.name ≡ seat.old.seat.name) × (seat.new.seat.object ≡ seat.old.seat.object) }
    ensures all { IsTrue result → prefix_through_take seat.old.seat.name seat.new.seat.seen ≡ seat.new.seat.seen }
{
    a_take_reads_all_before_it();
    match table.try_read(seat) {
        Ok(()) => true,
        Err(_) => false,
    }
}

/// Closes a table: in its whole history no seat set a field while another held.
pub fn close_with_holds_apart(table: FileTable, tally: FileTally) -> FileRest
    requires whole { (tally.object ≡ table.object) × IsWhole tally.object.seats tally.names }
    requires seats { 1 ≤ table.object.seats }
    ensures number { length result ≡ table.entries }
    ensures apart { (before mid after : List FileMark) (take set : FileMark)
        → before ++ take ∷ (mid ++ set ∷ after) ≡ tally.seen
        → is_take take.kind ≡ true → KeepsHold take.seat mid → is_set set.kind ≡ true → set.seat ≡ take.seat }
{
    no_set_of_another_seat_lies_in_a_hold();
    table.close(tally)
}
