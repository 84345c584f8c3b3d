//! The tables that are measured, each as one thread has it: an entry that many read and one may write.

ghost use Rattle.std.specs.Prelude.{◌<◌};
ghost use Rattle.fak_files.specs.Calls.{IsFreeSeatOf};

use fak_files::{FileEntry, FileField, FileSeat, FileTable};
use std::sync::{Mutex, RwLock, Wait};

/// An entry in the hands of one thread.
pub trait EntryHandle: Drop {
    /// Reads the entry.
    fn read<R: Wait>(&mut self, rt: &R) -> Option<FileEntry>;

    /// Adds 1 to both fields of the entry, at once. Returns whether it did.
    fn write<R: Wait>(&mut self, rt: &R) -> bool;
}

/// The entry with 1 more in both fields.
fn raised(entry: FileEntry) -> FileEntry {
    FileEntry {
        inode: entry.inode.wrapping_add(1),
        uses: entry.uses.wrapping_add(1),
    }
}

/// A seat of this repository's file table.
#[derive(Drop)]
pub struct SeatEntry<'t> {
    pub table: &'t FileTable,
    pub seat: FileSeat,
    ghost free: { IsFreeSeatOf table.now.object seat },
    ghost some: { 0 < table.now.entries },
}

/// Reads the first entry.
fn read_first<R: Wait>(rt: &R, table: &FileTable, seat: &mut FileSeat) -> Option<FileEntry>
    requires { IsFreeSeatOf table.now.object seat.old × (0 < table.now.entries) }
    ensures { IsFreeSeatOf table.now.object seat.new }
{
    let Ok(()) = table.read(rt, seat) else {
        return None;
    };
    let entry = table.get(seat, 0);
    table.end(seat);
    Some(entry)
}

/// Adds 1 to both fields of the first entry.
fn raise_first<R: Wait>(rt: &R, table: &FileTable, seat: &mut FileSeat) -> bool
    requires { IsFreeSeatOf table.now.object seat.old × (0 < table.now.entries) }
    ensures { IsFreeSeatOf table.now.object seat.new }
{
    let Ok(()) = table.write(rt, seat) else {
        return false;
    };
    let entry = raised(table.get(seat, 0));
    table.set(seat, 0, FileField::Inode, entry.inode);
    table.set(seat, 0, FileField::Uses, entry.uses);
    table.end(seat);
    true
}

impl<'t> EntryHandle for SeatEntry<'t> {
    fn read<R: Wait>(&mut self, rt: &R) -> Option<FileEntry> {
        read_first(rt, self.table, &mut self.seat)
    }

    fn write<R: Wait>(&mut self, rt: &R) -> bool {
        raise_first(rt, self.table, &mut self.seat)
    }
}

/// An entry under a lock that readers share.
#[derive(Clone, Copy, Drop)]
pub struct ReadersEntry<'t> {
    pub entry: &'t RwLock<FileEntry>,
}

impl<'t> EntryHandle for ReadersEntry<'t> {
    fn read<R: Wait>(&mut self, rt: &R) -> Option<FileEntry> {
        Some(*self.entry.read(rt))
    }

    fn write<R: Wait>(&mut self, rt: &R) -> bool {
        let mut entry = self.entry.write(rt);
        *entry = raised(*entry);
        true
    }
}

/// An entry under a lock that nobody shares.
#[derive(Clone, Copy, Drop)]
pub struct LockedEntry<'t> {
    pub entry: &'t Mutex<FileEntry>,
}

impl<'t> EntryHandle for LockedEntry<'t> {
    fn read<R: Wait>(&mut self, rt: &R) -> Option<FileEntry> {
        Some(*self.entry.lock(rt))
    }

    fn write<R: Wait>(&mut self, rt: &R) -> bool {
        let mut entry = self.entry.lock(rt);
        *entry = raised(*entry);
        true
    }
}
