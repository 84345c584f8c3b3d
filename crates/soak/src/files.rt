//! The part of the file table: threads read an entry, and write it from time to time.

ghost use Rattle.std.specs.Prelude.{◌≡◌, ◌<◌, IfOk};
ghost use Rattle.fak_files.specs.Calls.{IsFileSeatOf, IsFreeSeatOf};
ghost use Rattle.fak_files.specs.declared.phase.Hold.TheVariants.{Reading, Writing};
ghost use Rattle.soak.specs.Seats.{AreFree};

use crate::crew::{Crew, Seen, THREADS};
use crate::fault::Fault;
use crate::parts::{Job, Machine, run_all};
use fak_files::{FileEntry, FileField, FileSeat, FileTable};
use fak_queue::LONGEST_STINT;
use std::alloc::{AllocError, Global};
use std::sync::Wait;

/// Out of this many calls, one writes by a call that waits, and one tries once to write.
const PERIOD: u64 = 10;

/// A thread that visits the first entry this many times.
#[derive(Drop)]
struct Visit<'t> {
    table: &'t FileTable,
    seat: FileSeat,
    calls: u64,
    ghost free: { IsFreeSeatOf table.now.object seat },
    ghost some: { 0 < table.now.entries },
}

/// Whether both fields of the entry are the same.
fn is_whole(entry: FileEntry) -> bool {
    entry.inode == entry.uses
}

/// Ends a read. Returns whether the entry was whole.
fn end_read(table: &FileTable, seat: &mut FileSeat) -> bool
    requires object { IsFileSeatOf table.now.object seat.old }
    requires reading { seat.old.hold ≡ Reading }
    requires some { 0 < table.now.entries }
    ensures { IsFreeSeatOf table.now.object seat.new }
{
    let entry = table.get(seat, 0);
    table.end(seat);
    is_whole(entry)
}

/// Adds 1 to both fields, and ends the write. Returns whether the entry was whole.
fn end_write(table: &FileTable, seat: &mut FileSeat) -> bool
    requires object { IsFileSeatOf table.now.object seat.old }
    requires writing { seat.old.hold ≡ Writing }
    requires some { 0 < table.now.entries }
    ensures { IsFreeSeatOf table.now.object seat.new }
{
    let entry = table.get(seat, 0);
    table.set(seat, 0, FileField::Inode, entry.inode.wrapping_add(1));
    table.set(seat, 0, FileField::Uses, entry.uses.wrapping_add(1));
    table.end(seat);
    is_whole(entry)
}

impl<'t> Visit<'t> {
    /// Reads, by a call that waits or by one attempt. Returns whether nothing was wrong.
    fn read<R: Wait>(&mut self, rt: &R, waits: bool) -> bool {
        if waits {
            return self.table.read(rt, &mut self.seat).is_ok()
                && end_read(self.table, &mut self.seat);
        }
        self.table.try_read(&mut self.seat).is_err() || end_read(self.table, &mut self.seat)
    }

    /// Writes by a call that waits. Returns 1 if it wrote an entry that was whole, otherwise 0.
    fn write<R: Wait>(&mut self, rt: &R) -> u64 {
        if self.table.write(rt, &mut self.seat).is_err() {
            return 0;
        }
        u64::from(end_write(self.table, &mut self.seat))
    }

    /// Writes by one attempt. Returns 1 if it wrote an entry that was whole, otherwise 0.
    fn try_write(&mut self) -> u64 {
        if self.table.try_write(&mut self.seat).is_err() {
            return 0;
        }
        u64::from(end_write(self.table, &mut self.seat))
    }
}

impl<'t> Job for Visit<'t> {
    fn work<R: Wait>(&mut self, rt: &R, crew: &Crew) {
        let mut written = 0u64;
        let mut are_whole = true;
        for number in 0..self.calls {
            match number % PERIOD {
                4 => written = written.wrapping_add(self.try_write()),
                9 => written = written.wrapping_add(self.write(rt)),
                place => are_whole &= self.read(rt, place % 2 == 0),
            }
        }
        crew.expect(are_whole);
        let mut seen = Seen::NONE;
        seen.count = written;
        crew.went_in.add(seen);
    }
}

/// A thread's part for each seat.
fn visits<'t>(
    alloc: Global,
    table: &'t FileTable,
    mut seats: Vec<FileSeat>,
    calls: u64,
) -> Result<Vec<Visit<'t>>, AllocError>
    requires idle { AreFree table.now.object seats.items }
    requires some { 0 < table.now.entries }
{
    let mut jobs = Vec::new(alloc);
    while let Some(seat) = seats.pop() {
        jobs.push(Visit { table, seat, calls })?;
    }
    Ok(jobs)
}

/// An open table of one entry, with its seats.
fn open_table(alloc: Global) -> Result<(FileTable, Vec<FileSeat>), Fault>
    ensures seats { IfOk result (λ r. AreFree r.0.object r.1.items) }
    ensures some { IfOk result (λ r. 0 < r.0.entries) }
{
    let Ok((table, seats)) = FileTable::open(alloc, 1, THREADS + 1, LONGEST_STINT) else {
        return Err(Fault::Memory);
    };
    Ok((table, seats))
}

/// Threads that perform this many calls each on an entry. At the end the entry has been raised once for each write.
pub fn file_part<R: Machine>(rt: &R, alloc: Global, calls: u64) -> Result<(), Fault> {
    let (table, mut seats) = open_table(alloc)?;
    let Some(mut last) = seats.pop() else {
        return Err(Fault::Files);
    };
    let crew = Crew::new();
    run_all(rt, &crew, visits(alloc, &table, seats, calls)?)?;
    let written = crew.went_in.seen();
    let Ok(()) = table.read(rt, &mut last) else {
        return Err(Fault::Files);
    };
    let entry = table.get(&mut last, 0);
    table.end(&mut last);
    crew.expect(entry.inode == written.count && is_whole(entry));
    crew.came_out.add(written);
    crew.verdict(written.count, Fault::Files)
}
