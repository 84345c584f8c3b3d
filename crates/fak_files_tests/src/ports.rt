//! Ports: a file table and one of its seats as one value. The calls of a port require nothing, so their callers state nothing.

use super::assertions::{assert_equal, assert_written};
use super::calls::open_one;
use fak_files::{FileEntry, FileField, FilePort, FileTable, FileTally, Hold, HoldFault, WaitFault};
use std::process::Abort;
use std::sync::Wait;
use std::test::*;
use std::thread::join;

/// A call of a port, and what it should return.
#[derive(Drop)]
enum Call {
    TryRead(Result<(), HoldFault>),
    TryWrite(Result<(), HoldFault>),
    Read(Result<(), WaitFault>),
    Write(Result<(), WaitFault>),
    Get(u64, Option<FileEntry>),
    Set(u64, FileField, u64, bool),
    End(bool),
}

/// Performs the call. Returns whether it returned this and left the seat with this hold.
fn meets<R: Wait>(rt: &R, port: &mut FilePort<'_>, call: &Call, hold: Hold) -> bool {
    let met = match call {
        Call::TryRead(returned) => port.try_read() == *returned,
        Call::TryWrite(returned) => port.try_write() == *returned,
        Call::Read(returned) => port.read(rt) == *returned,
        Call::Write(returned) => port.write(rt) == *returned,
        Call::Get(i, returned) => port.get(*i) == *returned,
        Call::Set(i, field, to, returned) => port.set(*i, *field, *to) == *returned,
        Call::End(returned) => port.end() == *returned,
    };
    met && port.hold() == hold
}

#[test]
fn a_port_makes_each_call(rt: HostRuntime) {
    use Call::{End, Get, Read, Set, TryRead, TryWrite, Write};
    use FileField::{Inode, Uses};
    use Hold::{Nothing, Reading, Writing};
    const EMPTY: FileEntry = FileEntry { inode: 0, uses: 0 };
    const FULL: FileEntry = FileEntry { inode: 7, uses: 1 };
    const ROWS: &[(Call, Hold)] = &[
        (Get(0, None), Nothing),
        (Set(0, Inode, 7, false), Nothing),
        (End(false), Nothing),
        (TryRead(Ok(())), Reading),
        (TryRead(Err(HoldFault::Holding)), Reading),
        (TryWrite(Err(HoldFault::Holding)), Reading),
        (Read(Err(WaitFault::Holding)), Reading),
        (Write(Err(WaitFault::Holding)), Reading),
        (Get(1, Some(EMPTY)), Reading),
        (Get(2, None), Reading),
        (Set(1, Inode, 7, false), Reading),
        (End(true), Nothing),
        (TryWrite(Ok(())), Writing),
        (Set(1, Inode, 7, true), Writing),
        (Set(1, Uses, 1, true), Writing),
        (Set(2, Uses, 1, false), Writing),
        (Get(1, Some(FULL)), Writing),
        (Get(2, None), Writing),
        (End(true), Nothing),
        (Read(Ok(())), Reading),
        (Get(1, Some(FULL)), Reading),
        (End(true), Nothing),
        (Write(Ok(())), Writing),
        (End(true), Nothing),
        (TryRead(Err(HoldFault::Worn)), Nothing),
        (TryWrite(Err(HoldFault::Worn)), Nothing),
        (Read(Err(WaitFault::Worn)), Nothing),
        (Write(Err(WaitFault::Worn)), Nothing),
    ];
    let (table, seat) = open_one(&rt, rt.alloc(), 2, 4);
    let mut port = FilePort::new(&table, seat);
    assert_equal(&rt, port.left(), 4);
    for (row, (call, hold)) in ROWS.iter().enumerate() {
        if !meets(&rt, &mut port, call, *hold) {
            panic!(rt; "row {row}")
        }
    }
    assert_equal(&rt, port.left(), 0);
    let tally = FileTally::of(port.into_seat());
    assert_equal(&rt, tally.is_whole(), true);
}

#[test]
fn a_port_is_refused_beside_another(rt: HostRuntime) {
    let (table, mut seats) = FileTable::open(rt.alloc(), 1, 2, 9).expect(&rt, "open");
    let mut a = FilePort::new(&table, seats.pop().expect(&rt, "two seats"));
    let mut b = FilePort::new(&table, seats.pop().expect(&rt, "two seats"));
    assert_equal(&rt, a.try_read(), Ok(()));
    assert_equal(&rt, b.try_write(), Err(HoldFault::Busy(1)));
    assert_equal(&rt, a.end(), true);
    assert_equal(&rt, b.try_write(), Ok(()));
    assert_equal(&rt, a.try_read(), Err(HoldFault::Busy(0)));
}

#[test]
fn a_port_hands_back_its_seat_without_a_hold(rt: HostRuntime) {
    let (table, seat) = open_one(&rt, rt.alloc(), 1, 2);
    let mut port = FilePort::new(&table, seat);
    assert_equal(&rt, port.try_write(), Ok(()));
    assert_equal(&rt, port.set(0, FileField::Uses, 3), true);
    let tally = FileTally::of(port.into_seat());
    if !tally.is_whole() {
        panic!(rt; "one seat")
    }
    let text = "FileRest { entries: [FileEntry { inode: 0, uses: 3 }] }";
    assert_written(&rt, &table.close(tally), text);
}

#[test]
fn ports_print_their_table_and_their_seat(rt: HostRuntime) {
    let (table, seat) = open_one(&rt, rt.alloc(), 2, 9);
    let port = FilePort::new(&table, seat);
    let text =
        "FilePort { table: FileTable { entries: 2, .. }, seat: FileSeat { name: 0, hold: Nothing, left: 9, .. } }";
    assert_written(&rt, &port, text);
}

/// Raises both fields of entry 0 by 1 this many times, each time in a writer's hold of its own. Returns whether every
/// call succeeded.
fn raise_often<R: Wait>(rt: &R, mut port: FilePort<'_>, count: u64) -> bool {
    let mut all = true;
    for _ in 0..count {
        all &= port.write(rt).is_ok();
        if let Some(entry) = port.get(0) {
            all &= port.set(0, FileField::Inode, entry.inode.wrapping_add(1));
            all &= port.set(0, FileField::Uses, entry.uses.wrapping_add(1));
        }
        all &= port.end();
    }
    all
}

/// Reads entry 0 this many times. Returns whether every call succeeded and both fields were always the same.
fn read_often<R: Wait>(rt: &R, mut port: FilePort<'_>, count: u64) -> bool {
    let mut all = true;
    for _ in 0..count {
        all &= port.read(rt).is_ok();
        if let Some(entry) = port.get(0) {
            all &= entry.inode == entry.uses;
        }
        all &= port.end();
    }
    all
}

#[test]
fn ports_of_two_threads(rt: HostRuntime) {
    let (table, mut seats) = FileTable::open(rt.alloc(), 1, 3, 1000).expect(&rt, "open");
    let mut last = FilePort::new(&table, seats.pop().expect(&rt, "three seats"));
    let first = FilePort::new(&table, seats.pop().expect(&rt, "three seats"));
    let second = FilePort::new(&table, seats.pop().expect(&rt, "three seats"));
    let rt = &rt;
    let met = join(
        rt,
        move || -> bool { raise_often(rt, first, 1000) },
        move || -> bool { read_often(rt, second, 1000) },
    );
    assert_equal(rt, met, (true, true));
    assert_equal(rt, last.try_read(), Ok(()));
    let entry = last.get(0).expect(rt, "entry 0");
    assert_equal(rt, (entry.inode, entry.uses), (1000, 1000));
}
