//! File tables.

ghost use Rattle.std.specs.Prelude.{◌≡◌, ◌<◌, IsTrue, pos};
ghost use Rattle.fak_model.specs.File.{amount_held, count, field};
ghost use Rattle.fak_model.specs.Seats.{IsWhole};
ghost use Rattle.fak_model.specs.declared.file.FileField.TheVariants.{Inode};
ghost use Rattle.fak_files.specs.Calls.{IsFreeSeatOf};
ghost use Rattle.fak_files.specs.declared.phase.Hold.TheVariants.{Nothing};

#[cfg(test)]
use super::assertions::assert_equal;
use fak_files::{FileFault, FileField, FileSeat, FileTable, FileTally, Hold, OpenFault, Worn};
use fak_model::laws::file::a_file_table_at_rest_is_free;
use std::alloc::Global;
use std::hint;
#[cfg(test)]
use std::process::Abort;
use std::sync::Wait;
use std::sync::atomic::{AtomicU64, Ordering};
use std::test::*;
use std::thread::{Threads, join};

/// A table with one seat.
#[cfg(test)]
pub(crate) fn open_one(
    rt: &impl Abort,
    alloc: Global,
    entries: u64,
    stint: u64,
) -> (FileTable, FileSeat)
    ensures table { (result.0.entries ≡ entries) × (result.0.object.seats ≡ 1) }
    ensures seat { IsFreeSeatOf result.0.object result.1 }
{
    let Ok((table, mut seats)) = FileTable::open(alloc, entries, 1, stint) else {
        panic!(rt; "open")
    };
    (table, seats.pop().expect(rt, "one seat"))
}

/// A table with two seats.
#[cfg(test)]
fn open_two(
    rt: &impl Abort,
    alloc: Global,
    entries: u64,
    stint: u64,
) -> (FileTable, FileSeat, FileSeat)
    ensures table { (result.0.entries ≡ entries) × (result.0.object.seats ≡ 2) }
    ensures first { IsFreeSeatOf result.0.object result.1 }
    ensures second { IsFreeSeatOf result.0.object result.2 }
{
    let Ok((table, mut seats)) = FileTable::open(alloc, entries, 2, stint) else {
        panic!(rt; "open")
    };
    let b = seats.pop().expect(rt, "two seats");
    let a = seats.pop().expect(rt, "two seats");
    (table, a, b)
}

/// A call of a seat, and what it should return.
#[cfg(test)]
#[derive(Drop)]
enum Call {
    TryRead(Result<(), FileFault>),
    TryWrite(Result<(), FileFault>),
    Read(Result<(), Worn>),
    Write(Result<(), Worn>),
    End,
}

/// Performs the call of this row of a test. Stops if it returns something else, or if the seat does not hold this afterwards.
#[cfg(test)]
fn makes<R: Abort + Wait>(
    rt: &R,
    table: &FileTable,
    seat: &mut FileSeat,
    row: u64,
    call: &Call,
    hold: Hold,
)
    requires { seat.old.seat.object ≡ table.now.object }
    ensures same { seat.new.seat.object ≡ table.now.object }
    ensures hold { seat.new.hold ≡ hold }
{
    let met = match (seat.hold(), call) {
        (Hold::Nothing, Call::TryRead(answer)) => table.try_read(seat) == *answer,
        (Hold::Nothing, Call::TryWrite(answer)) => table.try_write(seat) == *answer,
        (Hold::Nothing, Call::Read(answer)) => table.read(rt, seat) == *answer,
        (Hold::Nothing, Call::Write(answer)) => table.write(rt, seat) == *answer,
        (Hold::Reading | Hold::Writing, Call::End) => {
            table.end(seat);
            true
        }
        _ => false,
    };
    if !met || seat.hold() != hold {
        panic!(rt; "row {row}")
    }
}

/// Checks that each call for a hold returns that the seat is worn.
#[cfg(test)]
fn is_worn<R: Abort + Wait>(rt: &R, table: &FileTable, seat: &mut FileSeat)
    requires { seat.old.seat.object ≡ table.now.object }
    ensures { IsFreeSeatOf table.now.object seat.new }
{
    const TRY_READ: &Call = &Call::TryRead(Err(FileFault::Worn));
    const TRY_WRITE: &Call = &Call::TryWrite(Err(FileFault::Worn));
    makes(rt, table, seat, 11, TRY_READ, Hold::Nothing);
    makes(rt, table, seat, 12, TRY_WRITE, Hold::Nothing);
    makes(rt, table, seat, 13, &Call::Read(Err(Worn)), Hold::Nothing);
    makes(rt, table, seat, 14, &Call::Write(Err(Worn)), Hold::Nothing);
}

/// A writer is refused while another seat reads, and a reader while another seat writes. What the writer set is read
/// after its end.
#[test]
fn one_thread(rt: HostRuntime) {
    const GRANTED: &Call = &Call::TryRead(Ok(()));
    const WRITE_REFUSED: &Call = &Call::TryWrite(Err(FileFault::Busy(1)));
    const READ_REFUSED: &Call = &Call::TryRead(Err(FileFault::Busy(0)));
    let (table, mut a, mut b) = open_two(&rt, rt.alloc(), 1, 10);
    makes(&rt, &table, &mut a, 1, GRANTED, Hold::Reading);
    makes(&rt, &table, &mut b, 2, WRITE_REFUSED, Hold::Nothing);
    makes(&rt, &table, &mut a, 3, &Call::End, Hold::Nothing);
    makes(
        &rt,
        &table,
        &mut b,
        4,
        &Call::TryWrite(Ok(())),
        Hold::Writing,
    );
    makes(&rt, &table, &mut a, 5, READ_REFUSED, Hold::Nothing);
    table.set(&mut b, 0, FileField::Inode, 7);
    table.set(&mut b, 0, FileField::Uses, 1);
    assert_equal(&rt, table.get(&mut b, 0).inode, 7);
    table.end(&mut b);
    makes(&rt, &table, &mut a, 6, GRANTED, Hold::Reading);
    let entry = table.get(&mut a, 0);
    assert_equal(&rt, entry.inode, 7);
    assert_equal(&rt, entry.uses, 1);
    table.end(&mut a);
    let tally = FileTally::of(b);
    assert_equal(&rt, tally.is_whole(), false);
    let tally = table.join(tally, a);
    if !tally.is_whole() {
        panic!(rt; "a tally of both seats")
    }
    let rest = table.close(tally);
    let entry = rest.get(0);
    assert_equal(&rt, entry.inode, 7);
    assert_equal(&rt, entry.uses, 1);
}

/// A seat that is dropped while it reads keeps what it took: writers are refused, readers are not, and no tally is whole.
#[test]
fn a_reader_is_dropped(rt: HostRuntime) {
    const GRANTED: &Call = &Call::TryRead(Ok(()));
    const REFUSED: &Call = &Call::TryWrite(Err(FileFault::Busy(2)));
    let (table, mut seats) = FileTable::open(rt.alloc(), 1, 3, 10).expect(&rt, "open");
    let mut c = seats.pop().expect(&rt, "three seats");
    let mut b = seats.pop().expect(&rt, "three seats");
    let mut a = seats.pop().expect(&rt, "three seats");
    makes(&rt, &table, &mut a, 1, GRANTED, Hold::Reading);
    drop(a);
    makes(&rt, &table, &mut b, 2, REFUSED, Hold::Nothing);
    makes(&rt, &table, &mut b, 3, GRANTED, Hold::Reading);
    table.end(&mut b);
    assert_equal(&rt, c.hold(), Hold::Nothing);
    let tally = table.join(FileTally::of(b), c);
    assert_equal(&rt, tally.is_whole(), false);
}

/// A seat has as many holds as its stint, by tries and by waiting; refused tries do not count.
#[test]
fn a_seat_is_worn(rt: HostRuntime) {
    const REFUSED: &Call = &Call::TryWrite(Err(FileFault::Busy(1)));
    let (table, mut a, mut b) = open_two(&rt, rt.alloc(), 2, 2);
    makes(&rt, &table, &mut a, 1, &Call::Read(Ok(())), Hold::Reading);
    makes(&rt, &table, &mut b, 2, REFUSED, Hold::Nothing);
    makes(&rt, &table, &mut a, 3, &Call::End, Hold::Nothing);
    makes(&rt, &table, &mut a, 4, &Call::Write(Ok(())), Hold::Writing);
    makes(&rt, &table, &mut a, 5, &Call::End, Hold::Nothing);
    is_worn(&rt, &table, &mut a);
    makes(
        &rt,
        &table,
        &mut b,
        6,
        &Call::TryWrite(Ok(())),
        Hold::Writing,
    );
    table.set(&mut b, 1, FileField::Uses, 5);
    assert_equal(&rt, table.get(&mut b, 1).uses, 5);
    assert_equal(&rt, table.get(&mut b, 0).uses, 0);
    table.end(&mut b);
}

/// While another seat holds, a worn seat is refused at once; if it waited, the wait would not end.
#[test]
fn a_worn_seat_does_not_wait(rt: HostRuntime) {
    let (table, mut a, mut b) = open_two(&rt, rt.alloc(), 1, 1);
    makes(&rt, &table, &mut a, 1, &Call::Read(Ok(())), Hold::Reading);
    makes(&rt, &table, &mut a, 2, &Call::End, Hold::Nothing);
    makes(&rt, &table, &mut b, 3, &Call::Write(Ok(())), Hold::Writing);
    is_worn(&rt, &table, &mut a);
    assert_equal(&rt, is_alone(&b, 2), true);
    table.end(&mut b);
    let tally = table.join(FileTally::of(b), a);
    assert_equal(&rt, is_free(&tally), true);
    if tally.is_whole() {
        close_free(table, tally);
    }
}

/// Whether the seat writes. If so, it holds as much as there are seats.
fn is_alone(seat: &FileSeat, seats: u64) -> bool
    requires { seat.now.seat.object.seats ≡ seats }
    ensures { IsTrue result → amount_held seat.now.seat.name seat.now.seat.seen ≡ seats }
{
    seat.hold() == Hold::Writing
}

/// Whether all seats are joined. If so, the table is free.
fn is_free(tally: &FileTally) -> bool
    ensures { IsTrue result → count tally.now.object.seats tally.now.seen ≡ pos tally.now.object.seats }
{
    a_file_table_at_rest_is_free();
    tally.is_whole()
}

/// Closes the table; its clause states that the table was free.
fn close_free(table: FileTable, tally: FileTally)
    requires { (tally.object ≡ table.object) × IsWhole tally.object.seats tally.names }
    ensures { count table.object.seats tally.seen ≡ pos table.object.seats }
{
    a_file_table_at_rest_is_free();
    let _rest = table.close(tally);
}

/// Closes the table, and returns the inode of an entry, which is the last one that was set.
pub(crate) fn last_file(table: FileTable, tally: FileTally, i: u64) -> u64
    requires tally { (tally.object ≡ table.object) × IsWhole tally.object.seats tally.names }
    requires entry { i < table.entries }
    ensures { result ≡ field tally.seen i Inode }
{
    table.close(tally).get(i).inode
}

/// Takes this many writer's holds, in each of which the entry stays as it is.
fn hold_often(table: &FileTable, mut seat: FileSeat, holds: u64) -> FileSeat
    requires { IsFreeSeatOf table.now.object seat }
    ensures { IsFreeSeatOf table.now.object result }
{
    for _ in 0..holds {
        if table.try_write(&mut seat).is_ok() {
            table.end(&mut seat);
        }
    }
    seat
}

#[test]
fn what_callers_conclude(rt: HostRuntime) {
    let (table, a) = open_one(&rt, rt.alloc(), 2, 10);
    let mut a = hold_often(&table, a, 3);
    let Ok(()) = table.try_write(&mut a) else {
        panic!(rt; "the write")
    };
    table.set(&mut a, 1, FileField::Inode, 7);
    table.end(&mut a);
    let tally = FileTally::of(a);
    assert!(rt; tally.is_whole());
    assert_equal(&rt, last_file(table, tally, 1), 7);
}

fn fault_of(alloc: Global, entries: u64, seats: u64, stint: u64) -> Option<OpenFault> {
    FileTable::open(alloc, entries, seats, stint).err()
}

/// The fault is that of the first value that is out of range.
#[test]
fn ranges(rt: HostRuntime) {
    for &(entries, seats, stint, fault) in &[
        (17, 0, 0, Some(OpenFault::BadSize)),
        (0, 1, 1, Some(OpenFault::BadSize)),
        (1, 0, 0, Some(OpenFault::BadSeats)),
        (1, 65, 1, Some(OpenFault::BadSeats)),
        (1, 1, 0, Some(OpenFault::BadStint)),
        (1, 1, 1_099_511_627_777, Some(OpenFault::BadStint)),
        (16, 64, 1_099_511_627_776, None),
    ] {
        assert_equal(&rt, fault_of(rt.alloc(), entries, seats, stint), fault);
    }
}

/// Waits until both threads are here, so that their holds meet. The wait is bounded, since the other may have no thread.
fn meet(here: &AtomicU64) {
    here.fetch_add(1, Ordering::SeqCst);
    for _ in 0..100_000_000 {
        if here.load(Ordering::SeqCst) >= 2 {
            return;
        }
        hint::spin_loop();
    }
}

/// Takes this many writer's holds; the j-th sets both fields of entry 0 to j.
fn write_in_turn<R: Wait>(rt: &R, table: &FileTable, mut seat: FileSeat, count: u64) -> FileSeat
    requires object { (seat.seat.object ≡ table.now.object) × (0 < table.now.entries) }
    requires idle { seat.hold ≡ Nothing }
    ensures table { result.seat.object ≡ table.now.object }
    ensures idle { result.hold ≡ Nothing }
{
    for j in 0..count {
        let Ok(()) = table.write(rt, &mut seat) else {
            return seat;
        };
        table.set(&mut seat, 0, FileField::Inode, j + 1);
        table.set(&mut seat, 0, FileField::Uses, j + 1);
        table.end(&mut seat);
    }
    seat
}

/// Takes this many reader's holds, and reads entry 0 twice in each. Returns whether both reads and both fields were
/// equal, and no read found less than an earlier one.
fn read_in_turn<R: Wait>(
    rt: &R,
    table: &FileTable,
    mut seat: FileSeat,
    count: u64,
) -> (FileSeat, bool)
    requires object { (seat.seat.object ≡ table.now.object) × (0 < table.now.entries) }
    requires idle { seat.hold ≡ Nothing }
    ensures table { result.0.seat.object ≡ table.now.object }
    ensures idle { result.0.hold ≡ Nothing }
{
    let mut last = 0;
    for _ in 0..count {
        let Ok(()) = table.read(rt, &mut seat) else {
            return (seat, false);
        };
        let first = table.get(&mut seat, 0);
        let second = table.get(&mut seat, 0);
        table.end(&mut seat);
        if first != second || first.inode != first.uses || first.inode < last {
            return (seat, false);
        }
        last = first.inode;
    }
    (seat, true)
}

/// Runs both in threads. Returns whether the joined seats and the closed table show the right values then.
fn run_two<R: Threads + Wait + Sync>(rt: &R, table: FileTable, a: FileSeat, b: FileSeat) -> bool
    requires object { (a.seat.object ≡ table.object) × (b.seat.object ≡ table.object) × (table.entries ≡ 1) }
    requires idle { (a.hold ≡ Nothing) × (b.hold ≡ Nothing) }
{
    let shared = &table;
    let arrived = AtomicU64::new(0);
    let here = &arrived;
    let (a, (b, seen_well)) = join(
        rt,
        move || -> FileSeat
            requires { (a.seat.object ≡ shared.now.object) × (0 < shared.now.entries) × (a.hold ≡ Nothing) }
            ensures { (result.seat.object ≡ shared.entry.now.object) × (result.hold ≡ Nothing) }
        {
            meet(here);
            write_in_turn(rt, shared, a, 100)
        },
        move || -> (FileSeat, bool)
            requires { (b.seat.object ≡ shared.now.object) × (0 < shared.now.entries) × (b.hold ≡ Nothing) }
            ensures { (result.0.seat.object ≡ shared.entry.now.object) × (result.0.hold ≡ Nothing) }
        {
            meet(here);
            read_in_turn(rt, shared, b, 100)
        },
    );
    let tally = table.join(FileTally::of(a), b);
    if !tally.is_whole() {
        return false;
    }
    let entry = table.close(tally).get(0);
    seen_well && entry.inode == 100 && entry.uses == 100
}

#[test]
fn two_threads(rt: HostRuntime) {
    let (table, a, b) = open_two(&rt, rt.alloc(), 1, 1000);
    assert!(rt; run_two(&rt, table, a, b));
}

/// Whichever allocation fails, the only fault of limits in range is `Memory`.
#[test]
fn memory(rt: HostRuntime) {
    let fault = fault_of(rt.alloc(), 16, 64, 1);
    assert!(rt; fault.is_none() || fault == Some(OpenFault::Memory));
}
