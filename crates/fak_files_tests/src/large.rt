//! Large file tables: more seats than `open` allows.

ghost use Rattle.std.specs.Prelude.{◌≡◌, ◌<◌, All};
ghost use Rattle.fak_files.specs.Calls.{IsFreeSeatOf};

use super::assertions::assert_equal;
use super::calls::last_file;
use fak_files::{
    FileField, FileSeat, FileTable, FileTally, LARGE_SEATS, LARGE_TICKETS, LargeFault, MOST_SEATS,
};
use std::alloc::Global;
use std::process::Abort;
use std::test::*;

/// Limits that are refused, each with its fault.
const REFUSED: &[(u64, u64, u64, LargeFault)] = &[
    (0, 0, 0, LargeFault::BadSize),
    (17, 1, 1, LargeFault::BadSize),
    (16, 0, 0, LargeFault::BadSeats),
    (1, LARGE_SEATS + 1, 0, LargeFault::BadSeats),
    (1, LARGE_SEATS, 0, LargeFault::BadStint),
    (1, 1, LARGE_TICKETS + 1, LargeFault::BadStint),
    (
        1,
        LARGE_SEATS,
        LARGE_TICKETS / LARGE_SEATS + 1,
        LargeFault::BadStint,
    ),
];

#[test]
fn large_limits_are_tested(rt: HostRuntime) {
    for &(entries, seats, stint, fault) in REFUSED {
        let found = FileTable::open_large(rt.alloc(), entries, seats, stint);
        assert_equal(&rt, found.expect_err(&rt, "opened"), fault);
    }
}

#[test]
fn tables_of_many_seats(rt: HostRuntime) {
    for seats in [MOST_SEATS, MOST_SEATS + 1, 1000, LARGE_SEATS] {
        let (_table, dealt) = FileTable::open_large(
            rt.alloc(),
            16,
            seats,
            LARGE_TICKETS / seats,
        ).expect(&rt, "table");
        assert_equal(&rt, dealt.len() as u64, seats);
    }
}

#[test]
fn a_large_table_is_a_table(rt: HostRuntime) {
    let (table, mut one) = FileTable::open_large(rt.alloc(), 3, 1, LARGE_TICKETS).expect(
        &rt, "table",
    );
    let mut seat = one.pop().expect(&rt, "one seat");
    let Ok(()) = table.try_write(&mut seat) else {
        panic!(rt; "write")
    };
    table.set(&mut seat, 2, FileField::Inode, 7);
    assert_equal(&rt, table.get(&mut seat, 2).inode, 7);
    table.end(&mut seat);
}

/// An open large table of one entry with all its seats. Each may have two holds.
fn open(rt: &impl Abort, alloc: Global, seats: u64) -> (FileTable, Vec<FileSeat>)
    ensures seats { All (IsFreeSeatOf result.0.object) result.1.items }
    ensures entries { result.0.entries ≡ 1 }
{
    let Ok((table, seats)) = FileTable::open_large(alloc, 1, seats, 2) else {
        panic!(rt; "open")
    };
    (table, seats)
}

/// Takes out the last seat, which writes the next inode after this one, and reads it.
fn write_next(
    rt: &impl Abort,
    table: &FileTable,
    seats: &mut Vec<FileSeat>,
    before: u64,
) -> FileSeat
    requires seats { All (IsFreeSeatOf table.now.object) seats.old.items }
    requires entry { 0 < table.now.entries }
    ensures seat { IsFreeSeatOf table.now.object result }
    ensures others { All (IsFreeSeatOf table.now.object) seats.new.items }
{
    let mut seat = seats.pop().expect(rt, "a seat");
    let Ok(()) = table.try_write(&mut seat) else {
        panic!(rt; "write")
    };
    assert_equal(rt, table.get(&mut seat, 0).inode, before);
    table.set(&mut seat, 0, FileField::Inode, before.wrapping_add(1));
    table.end(&mut seat);
    let Ok(()) = table.try_read(&mut seat) else {
        panic!(rt; "read")
    };
    assert_equal(rt, table.get(&mut seat, 0).inode, before.wrapping_add(1));
    table.end(&mut seat);
    seat
}

/// Opens a table with this many seats. Each writes and joins the tally, the last one first. The tally is whole only once the first
/// seat has joined, and what that seat wrote is left.
fn each_seat_writes(rt: &impl Abort, alloc: Global, many: u64) {
    let (table, mut seats) = open(rt, alloc, many);
    let mut tally = FileTally::of(write_next(rt, &table, &mut seats, 0));
    for before in 1..many {
        assert_equal(rt, tally.is_whole(), false);
        tally = table.join(tally, write_next(rt, &table, &mut seats, before));
    }
    if !tally.is_whole() {
        panic!(rt; "a tally of all seats")
    }
    assert_equal(rt, last_file(table, tally, 0), many);
}

#[test]
fn each_seat_of_a_large_table_writes(rt: HostRuntime) {
    each_seat_writes(&rt, rt.alloc(), MOST_SEATS + 1);
    each_seat_writes(&rt, rt.alloc(), LARGE_SEATS);
}
