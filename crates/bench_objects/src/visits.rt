//! The cases of the file table: threads that read an entry, and that write it now and then.

ghost use Rattle.std.specs.Prelude.{◌<◌};
ghost use Rattle.bench_objects.specs.Seats.{AreFree};

use crate::entry_handle::{EntryHandle, LockedEntry, ReadersEntry, SeatEntry};
use crate::fault::Fault;
use crate::run::{Job, Machine, Passed, run_all};
use fak_files::{FileEntry, FileSeat, FileTable};
use fak_queue::LONGEST_STINT;
use std::alloc::{AllocError, Global};
use std::sync::{Mutex, RwLock, Wait};
use std::time::Clock;

/// An entry that nobody has written.
const BLANK: FileEntry = FileEntry { inode: 0, uses: 0 };

/// The number of calls of which the last one writes.
const PERIOD: u64 = 100;

/// A thread that visits an entry this many times, and writes in every hundredth call, or never.
#[derive(Drop)]
struct Visit<S> {
    handle: S,
    calls: u64,
    writes: bool,
}

impl<S: EntryHandle + Send> Job for Visit<S> {
    /// Counts the calls in which the two fields were equal, and adds up the writes.
    fn work<R: Wait + Clock>(&mut self, rt: &R) -> Passed {
        let mut passed = Passed::NONE;
        for number in 0..self.calls {
            if self.writes && number % PERIOD == PERIOD - 1 {
                if self.handle.write(rt) {
                    passed = passed.with(1);
                }
            } else if let Some(entry) = self.handle.read(rt) {
                if entry.inode == entry.uses {
                    passed = passed.with(0);
                }
            }
        }
        passed
    }
}

/// Which table.
#[derive(Clone, Copy)]
pub enum TableKind {
    /// This repository's file table.
    Seats,
    /// A lock that readers share.
    Readers,
    /// A lock that nobody shares.
    Lock,
}

/// An entry, with this many threads that read it, and write it in one call of a hundred or never.
#[derive(Clone, Copy)]
pub struct TableCase {
    pub table_kind: TableKind,
    pub threads: u64,
    pub writes: bool,
}

/// A handle for each seat.
fn seat_handles<'t>(
    alloc: Global,
    table: &'t FileTable,
    mut seats: Vec<FileSeat>,
) -> Result<Vec<SeatEntry<'t>>, AllocError>
    requires idle { AreFree table.now.object seats.items }
    requires some { 0 < table.now.entries }
{
    let mut handles = Vec::new(alloc);
    while let Some(seat) = seats.pop() {
        handles.push(SeatEntry { table, seat })?;
    }
    Ok(handles)
}

/// The same handle this many times.
fn copies_of<S: Copy + Drop>(alloc: Global, handle: S, count: u64) -> Result<Vec<S>, AllocError> {
    let mut handles = Vec::new(alloc);
    for _ in 0..count {
        handles.push(handle)?;
    }
    Ok(handles)
}

impl TableCase {
    /// How many calls of a thread write.
    fn writes_of(&self, items: u64) -> u64 {
        if self.writes { items / PERIOD } else { 0 }
    }

    /// One run over these handles and one more, by which the entry is read at the end.
    fn over<R: Machine, S: EntryHandle + Send>(
        &self,
        rt: &R,
        alloc: Global,
        mut handles: Vec<S>,
        items: u64,
    ) -> Result<u64, Fault> {
        let Some(mut last) = handles.pop() else {
            return Err(Fault::Lost);
        };
        let count = self.threads.saturating_mul(items);
        let sum = self.threads.saturating_mul(self.writes_of(items));
        let mut jobs = Vec::new(alloc);
        for handle in handles {
            jobs.push(Visit {
                handle,
                calls: items,
                writes: self.writes,
            })?;
        }
        let nanos = run_all(rt, jobs, Passed { count, sum })?;
        match last.read(rt) {
            Some(entry) if entry.inode == sum && entry.uses == sum => Ok(nanos / count.max(1)),
            _ => Err(Fault::Lost),
        }
    }

    fn by_seats<R: Machine>(&self, rt: &R, alloc: Global, items: u64) -> Result<u64, Fault> {
        let seats = self.threads.saturating_add(1);
        let Ok((table, seats)) = FileTable::open(alloc, 1, seats, LONGEST_STINT) else {
            return Err(Fault::Memory);
        };
        let handles = seat_handles(alloc, &table, seats)?;
        self.over(rt, alloc, handles, items)
    }

    fn by_readers<R: Machine>(&self, rt: &R, alloc: Global, items: u64) -> Result<u64, Fault> {
        let entry = RwLock::new(BLANK);
        let seats = self.threads.saturating_add(1);
        let handles = copies_of(alloc, ReadersEntry { entry: &entry }, seats)?;
        self.over(rt, alloc, handles, items)
    }

    fn by_lock<R: Machine>(&self, rt: &R, alloc: Global, items: u64) -> Result<u64, Fault> {
        let entry = Mutex::new(BLANK);
        let seats = self.threads.saturating_add(1);
        let handles = copies_of(alloc, LockedEntry { entry: &entry }, seats)?;
        self.over(rt, alloc, handles, items)
    }

    /// Runs it once, and returns the nanoseconds for each call.
    pub fn once<R: Machine>(&self, rt: &R, alloc: Global, items: u64) -> Result<u64, Fault> {
        match self.table_kind {
            TableKind::Seats => self.by_seats(rt, alloc, items),
            TableKind::Readers => self.by_readers(rt, alloc, items),
            TableKind::Lock => self.by_lock(rt, alloc, items),
        }
    }
}
