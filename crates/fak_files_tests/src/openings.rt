//! Tables of each size in range are opened with all their seats, and keep what was set.

ghost use Rattle.std.specs.Prelude.{◌≡◌, ◌≢◌};
ghost use Rattle.fak_files.specs.declared.phase.Hold.TheVariants.{Nothing, Writing};

use super::assertions::assert_equal;
use super::calls::open_one;
use fak_files::{FileEntry, FileField, FileSeat, FileTable, FileTally};
use std::alloc::Global;
use std::process::Abort;
use std::test::*;

/// The longest stint of a seat is this power of two.
const WIDEST_STINT: u64 = 40;

/// What is set in an entry of a table.
fn entry_of(i: u64) -> FileEntry {
    FileEntry {
        inode: i.wrapping_add(1),
        uses: i.wrapping_add(101),
    }
}

/// Sets both fields of each entry, during a writer's hold.
fn set_each(table: &FileTable, seat: &mut FileSeat, entries: u64)
    requires entries { entries ≡ table.now.entries }
    requires object { seat.old.seat.object ≡ table.now.object }
    requires held { seat.old.hold ≡ Writing }
    ensures object { seat.new.seat.object ≡ table.now.object }
    ensures held { seat.new.hold ≡ Writing }
{
    for i in 0..entries {
        let to = entry_of(i);
        table.set(seat, i, FileField::Inode, to.inode);
        table.set(seat, i, FileField::Uses, to.uses);
    }
}

/// Whether each entry is what was set, during a hold.
fn shows_each(table: &FileTable, seat: &mut FileSeat, entries: u64) -> bool
    requires entries { entries ≡ table.now.entries }
    requires object { seat.old.seat.object ≡ table.now.object }
    requires held { seat.old.hold ≢ Nothing }
    ensures object { seat.new.seat.object ≡ table.now.object }
    ensures held { seat.new.hold ≡ seat.old.hold }
{
    for i in 0..entries {
        if table.get(seat, i) != entry_of(i) {
            return false;
        }
    }
    true
}

/// Opens the table, and checks that it has this many seats.
fn has_seats(rt: &impl Abort, alloc: Global, entries: u64, seats: u64, stint: u64) {
    let (_table, dealt) = FileTable::open(alloc, entries, seats, stint).expect(rt, "table");
    assert_equal(rt, dealt.len() as u64, seats);
}

/// Opens the table with this many seats. Opens it again with one seat, which writes each entry and reads it. The
/// entries that are left at the close are the same.
fn opens_table(rt: &impl Abort, alloc: Global, entries: u64, seats: u64, stint: u64) {
    has_seats(rt, alloc, entries, seats, stint);
    let (table, mut seat) = open_one(rt, alloc, entries, stint);
    let Ok(()) = table.try_write(&mut seat) else {
        panic!(rt; "write")
    };
    set_each(&table, &mut seat, entries);
    assert!(rt; shows_each(&table, &mut seat, entries), "{entries}");
    table.end(&mut seat);
    let tally = FileTally::of(seat);
    if !tally.is_whole() {
        panic!(rt; "one seat")
    }
    let rest = table.close(tally);
    for i in 0..entries {
        assert_equal(rt, rest.get(i), entry_of(i));
    }
}

#[test]
fn tables_of_each_size(rt: HostRuntime) {
    for entries in 1..17u64 {
        for seats in 1..65u64 {
            let stint = 1u64 << ((entries * 64 + seats) % (WIDEST_STINT + 1));
            opens_table(&rt, rt.alloc(), entries, seats, stint);
        }
    }
}

#[test]
fn stints_of_each_width(rt: HostRuntime) {
    for width in 0..WIDEST_STINT + 1 {
        let power = 1u64 << width;
        for stint in [
            power.wrapping_sub(1).max(1),
            power,
            (power / 2).wrapping_add(1),
        ] {
            opens_table(&rt, rt.alloc(), 5, 1, stint);
        }
    }
}
