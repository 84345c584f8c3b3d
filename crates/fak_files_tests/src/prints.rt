//! What tables, seats, tallies and faults print.

use super::assertions::{assert_equal, assert_written};
use super::calls::open_one;
use fak_files::{FileFault, FileField, FileTally, Hold, HoldFault, OpenFault, WaitFault, Worn};
use std::fmt::Display;
use std::process::Abort;

#[test]
fn file_tables_print_their_numbers(rt: HostRuntime) {
    let (table, mut seat) = open_one(&rt, rt.alloc(), 2, 9);
    assert_written(&rt, &table, "FileTable { entries: 2, .. }");
    let Ok(()) = table.try_write(&mut seat) else {
        panic!(rt; "the hold")
    };
    assert_written(
        &rt,
        &seat,
        "FileSeat { name: 0, hold: Writing, left: 8, .. }",
    );
    table.set(&mut seat, 1, FileField::Uses, 3);
    table.end(&mut seat);
    let tally = FileTally::of(seat);
    assert_written(&rt, &tally, "FileTally { seats: 1, is_whole: true, .. }");
    if !tally.is_whole() {
        panic!(rt; "one seat")
    }
    let text =
        "FileRest { entries: [FileEntry { inode: 0, uses: 0 }, FileEntry { inode: 0, uses: 3 }] }";
    assert_written(&rt, &table.close(tally), text);
}

#[test]
fn a_new_seat_holds_nothing(rt: HostRuntime) {
    let (_table, seat) = open_one(&rt, rt.alloc(), 2, 9);
    assert_equal(&rt, seat.hold(), Hold::Nothing);
}

/// Checks that each fault is written as its text.
fn have_texts<F: Display>(rt: &(impl Abort + AllocGlobal), rows: &[(F, &str)]) {
    for (fault, text) in rows {
        let written = fault.to_string(rt.alloc()).expect(rt, "memory");
        assert_equal(rt, written.as_str(), *text);
    }
}

#[test]
fn faults_say_what_is_the_matter(rt: HostRuntime) {
    const OPENS: &[(OpenFault, &str)] = &[
        (OpenFault::BadSize, "the number of entries is not 1 to 16"),
        (OpenFault::BadSeats, "the number of seats is not 1 to 64"),
        (OpenFault::BadStint, "the stint is not 1 to 1099511627776"),
        (OpenFault::Memory, "out of memory"),
    ];
    const HOLDS: &[(FileFault, &str)] = &[
        (FileFault::Worn, "the stint is used up"),
        (FileFault::Busy(2), "others hold the table: its count was 2"),
    ];
    const ATTEMPTS: &[(HoldFault, &str)] = &[
        (HoldFault::Holding, "the seat has a hold"),
        (HoldFault::Worn, "the stint is used up"),
        (HoldFault::Busy(2), "others hold the table: its count was 2"),
    ];
    const WAITS: &[(WaitFault, &str)] = &[
        (WaitFault::Holding, "the seat has a hold"),
        (WaitFault::Worn, "the stint is used up"),
    ];
    have_texts(&rt, OPENS);
    have_texts(&rt, HOLDS);
    have_texts(&rt, ATTEMPTS);
    have_texts(&rt, WAITS);
    have_texts(&rt, &[(Worn, "the stint is used up")]);
}
