//! The calls of a seat of a file table. What the seat holds is tested, so none has a condition.

ghost use Rattle.std.specs.Prelude.{◌≡◌, ◌↔◌, IsTrue, MatchOption};
ghost use Rattle.fak_files.specs.declared.phase.Access.TheVariants.{Read, Write};
ghost use Rattle.fak_files.specs.declared.phase.Hold.TheVariants.{Nothing};
ghost use Rattle.fak_files.specs.Calls.{IsEnded, IsGot, IsSet};
ghost use Rattle.fak_handles.specs.files.Calls.{AsksHold, IsHolding, IsNotHolding, MayNotGet, MayNotSet, SameTable};

use crate::files::seat::FileDesk;
use fak_files::{FileFault, Hold};
use fak_model::{FileEntry, FileField};

impl FileDesk {
    /// `FileTable::try_read`; `None` if the seat holds.
    pub fn try_read(&mut self) -> Option<Result<(), FileFault>>
        ensures same { SameTable self.old self.new }
        ensures call { MatchOption result (IsHolding self.old self.new) (λ r. AsksHold Read r self.old self.new) }
    {
        match self.seat.hold() {
            Hold::Nothing => Some(self.table.try_read(&mut self.seat)),
            Hold::Reading | Hold::Writing => None,
        }
    }

    /// `FileTable::try_write`; `None` if the seat holds.
    pub fn try_write(&mut self) -> Option<Result<(), FileFault>>
        ensures same { SameTable self.old self.new }
        ensures call { MatchOption result (IsHolding self.old self.new) (λ r. AsksHold Write r self.old self.new) }
    {
        match self.seat.hold() {
            Hold::Nothing => Some(self.table.try_write(&mut self.seat)),
            Hold::Reading | Hold::Writing => None,
        }
    }

    /// `FileTable::get`; `None` if the seat holds nothing, or there is no such entry.
    pub fn get(&mut self, i: u64) -> Option<FileEntry>
        ensures same { SameTable self.old self.new }
        ensures call { MatchOption result (MayNotGet i self.old self.new)
            (λ entry. IsGot i self.old.seat self.new.seat entry) }
    {
        if i >= self.entries {
            return None;
        }
        match self.seat.hold() {
            Hold::Nothing => None,
            Hold::Reading | Hold::Writing => Some(self.table.get(&mut self.seat, i)),
        }
    }

    /// `FileTable::set`; `None` if the seat does not hold as a writer, or there is no such entry.
    pub fn set(&mut self, i: u64, field: FileField, to: u64) -> Option<()>
        ensures same { SameTable self.old self.new }
        ensures call { MatchOption result (MayNotSet i self.old self.new)
            (λ _. IsSet i field to self.old.seat self.new.seat) }
    {
        if i >= self.entries {
            return None;
        }
        match self.seat.hold() {
            Hold::Writing => {
                self.table.set(&mut self.seat, i, field, to);
                Some(())
            }
            Hold::Nothing | Hold::Reading => None,
        }
    }

    /// `FileTable::end`; `None` if the seat holds nothing.
    pub fn end(&mut self) -> Option<()>
        ensures same { SameTable self.old self.new }
        ensures call { MatchOption result (IsNotHolding self.old self.new) (λ _. IsEnded self.old.seat self.new.seat) }
    {
        match self.seat.hold() {
            Hold::Nothing => None,
            Hold::Reading | Hold::Writing => {
                self.table.end(&mut self.seat);
                Some(())
            }
        }
    }

    pub(crate) fn holds_nothing(&self) -> bool
        ensures { IsTrue result ↔ (self.now.seat.hold ≡ Nothing) }
    {
        match self.seat.hold() {
            Hold::Nothing => true,
            Hold::Reading | Hold::Writing => false,
        }
    }
}
