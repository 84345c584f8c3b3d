//! File steps on a shared table: each works on a copy of the entries, in a hold of its own.

ghost use Rattle.std.specs.Prelude.{◌≡◌, ◌≢◌, ◌<◌, [], length, map, IfSome, IfOk, IfErr, MatchOption};
ghost use Rattle.fak_files.specs.declared.phase.Hold.TheVariants.{Nothing, Writing};
ghost use Rattle.fak_run.specs.Files.{open_change, close_change, uses_of};
ghost use Rattle.fak_model.specs.File.{set_mark};
ghost use Rattle.fak_text.specs.Journal.{opened, closed, statted};
ghost use Rattle.fak_run.specs.Making.{HasJustTaken, HasMade, Left, sets_of};
ghost use Rattle.fak_run.specs.OnlyFiles.{IsOnlyFiles, KeepsFiles, StoresEntry, ChangesFiles, entries_now};
ghost use Rattle.fak_processor.specs.Faults.{IsSpentFile};
ghost use Rattle.fak_processor.specs.Processors.{HoldsTable};

use crate::seats::files::Files;
use fak_count::Worn;
use fak_files::{FileField, FileSeat, FileTable};
use std::sync::Wait;

impl Files {
    /// Reads all entries, in a hold.
    fn refresh(&mut self, table: &FileTable, seat: &mut FileSeat)
        requires held { seat.old.hold ≢ Nothing }
        requires fits { HoldsTable table.now seat.old.hold seat.old self.old }
        ensures fits { HoldsTable table.now seat.old.hold seat.new self.new }
        ensures left { Left [] seat.old.seat seat.new.seat }
        ensures read { HasJustTaken seat.old.seat → self.new ≡ entries_now table.now.entries seat.old }
        ensures only { IsOnlyFiles seat.old → KeepsFiles seat.old seat.new
            × (self.new ≡ entries_now table.now.entries seat.old) }
    {
        for i in 0..self.entries.len() {
            self.entries[i] = table.get(seat, i as u64);
        }
    }

    /// Writes an entry, in a writer's hold.
    fn store(&self, table: &FileTable, seat: &mut FileSeat, entry: Option<u64>)
        requires fits { HoldsTable table.now Writing seat.old self.now }
        requires within { IfSome entry (λ i. i < length self.now) }
        ensures fits { HoldsTable table.now Writing seat.new self.now }
        ensures left { Left (map set_mark (sets_of self.now entry)) seat.old.seat seat.new.seat }
        ensures only { IsOnlyFiles seat.old → MatchOption entry (KeepsFiles seat.old seat.new)
            (λ i. StoresEntry self.now i seat.old seat.new) }
    {
        let Some(i) = entry else {
            return;
        };
        let e = self.entries[i as usize];
        table.set(seat, i, FileField::Inode, e.inode);
        table.set(seat, i, FileField::Uses, e.uses);
    }

    /// Opens an inode, in a writer's hold of its own.
    ///
    /// # Errors
    ///
    /// `Worn`, if the seat at the table has no holds left.
    pub fn open_shared<R: Wait>(
        &mut self,
        rt: &R,
        table: &FileTable,
        seat: &mut FileSeat,
        inode: u64,
    ) -> Result<Option<u64>, Worn>
        requires fits { HoldsTable table.now Nothing seat.old self.old }
        ensures fits { HoldsTable table.now Nothing seat.new self.new }
        ensures within { IfOk result (λ entry. IfSome entry (λ i. i < table.now.entries)) }
        ensures made { IfOk result (λ entry. HasMade table.now.entries
            (opened inode entry) seat.old.seat seat.new.seat) }
        ensures only { IsOnlyFiles seat.old → IfOk result (λ entry. ChangesFiles table.now.entries entry
            (open_change (entries_now table.now.entries seat.old) inode) seat.new) }
        ensures spent { IfErr result (λ _. IsSpentFile seat.new) }
    {
        let Ok(()) = table.write(rt, seat) else {
            return Err(Worn);
        };
        self.refresh(table, seat);
        let entry = self.open(inode);
        self.store(table, seat, entry);
        table.end(seat);
        Ok(entry)
    }

    /// Closes an inode, in a writer's hold of its own.
    ///
    /// # Errors
    ///
    /// `Worn`, if the seat at the table has no holds left.
    pub fn close_shared<R: Wait>(
        &mut self,
        rt: &R,
        table: &FileTable,
        seat: &mut FileSeat,
        inode: u64,
    ) -> Result<Option<u64>, Worn>
        requires fits { HoldsTable table.now Nothing seat.old self.old }
        ensures fits { HoldsTable table.now Nothing seat.new self.new }
        ensures within { IfOk result (λ entry. IfSome entry (λ i. i < table.now.entries)) }
        ensures made { IfOk result (λ entry. HasMade table.now.entries
            (closed inode entry) seat.old.seat seat.new.seat) }
        ensures only { IsOnlyFiles seat.old → IfOk result (λ entry. ChangesFiles table.now.entries entry
            (close_change (entries_now table.now.entries seat.old) inode) seat.new) }
        ensures spent { IfErr result (λ _. IsSpentFile seat.new) }
    {
        let Ok(()) = table.write(rt, seat) else {
            return Err(Worn);
        };
        self.refresh(table, seat);
        let entry = self.close(inode);
        self.store(table, seat, entry);
        table.end(seat);
        Ok(entry)
    }

    /// The uses of an inode, in a reader's hold of its own.
    ///
    /// # Errors
    ///
    /// `Worn`, if the seat at the table has no holds left.
    pub fn uses_shared<R: Wait>(
        &mut self,
        rt: &R,
        table: &FileTable,
        seat: &mut FileSeat,
        inode: u64,
    ) -> Result<Option<u64>, Worn>
        requires fits { HoldsTable table.now Nothing seat.old self.old }
        ensures fits { HoldsTable table.now Nothing seat.new self.new }
        ensures made { IfOk result (λ uses. HasMade table.now.entries
            (statted inode uses) seat.old.seat seat.new.seat) }
        ensures only { IsOnlyFiles seat.old → IfOk result
            (λ uses. KeepsFiles seat.old seat.new × (uses ≡ uses_of (entries_now table.now.entries seat.old) inode)) }
        ensures spent { IfErr result (λ _. IsSpentFile seat.new) }
    {
        let Ok(()) = table.read(rt, seat) else {
            return Err(Worn);
        };
        self.refresh(table, seat);
        let uses = self.uses(inode);
        table.end(seat);
        Ok(uses)
    }
}
