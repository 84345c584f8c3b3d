//! A file table and one of its seats as one value, whose calls have no preconditions.

ghost use Rattle.std.specs.Prelude.{◌+◌, ◌≡◌, ◌↔◌, ◌<◌, IsTrue, MatchOption, MatchResult};
ghost use Rattle.fak_files.specs.Calls.{IsFileSeatOf, IsFreeSeatOf, IsGot, IsHoldOf, holds_had};
ghost use Rattle.fak_files.specs.Ports.{EndsIfHeld, EndsOrNot, MayNotGet, RefusesHold, RefusesWait, SetsOrNot, TakesHold, WaitsForHold};
ghost use Rattle.fak_files.specs.declared.phase.Access.TheVariants.{Read, Write};

use crate::fault::{FileFault, HoldFault, WaitFault, Worn};
use crate::phase::{Access, Hold};
use crate::seat::FileSeat;
use crate::table::FileTable;
use fak_model::{FileEntry, FileField};
use std::fmt;
use std::sync::Wait;

/// A file table with one of its seats. The type guarantees that the seat belongs to the table. A call is refused if the
/// seat has the wrong hold for it, or if there is no such entry. So the calls of a port require nothing. Their
/// contracts are about the port's seat, before and after.
#[derive(Drop)]
pub struct FilePort<'t> {
    /// The file table.
    pub table: &'t FileTable,
    /// The seat, which belongs to this table.
    pub seat: FileSeat,
    pub ghost of_table: { IsFileSeatOf table.now.object seat },
}

impl<'t> FilePort<'t> {
    /// The port of this table with this seat.
    pub fn new(table: &'t FileTable, seat: FileSeat) -> FilePort<'t>
        requires { IsFileSeatOf table.now.object seat }
        ensures table { result.table.now ≡ table.now }
        ensures seat { result.seat ≡ seat }
    {
        FilePort { table, seat }
    }

    /// Takes a hold for this access by one attempt, or returns why it is refused.
    fn try_hold(&mut self, access: Access) -> Result<(), HoldFault>
        ensures table { self.new.table ≡ self.old.table }
        ensures call { MatchResult result (λ _. TakesHold access self.old.seat self.new.seat)
            (RefusesHold access self.old.seat self.new.seat) }
    {
        match self.hold() {
            Hold::Nothing => match self.table.try_hold(&mut self.seat, access) {
                Ok(()) => Ok(()),
                Err(FileFault::Worn) => Err(HoldFault::Worn),
                Err(FileFault::Busy(count)) => Err(HoldFault::Busy(count)),
            },
            Hold::Reading | Hold::Writing => Err(HoldFault::Holding),
        }
    }

    /// Takes a reader's hold, which others may have at the same time.
    ///
    /// # Errors
    ///
    /// `Holding`, `Worn` or `Busy`, in this order. `Busy` has the count that was found, if a writer holds or has just tried to.
    pub fn try_read(&mut self) -> Result<(), HoldFault>
        ensures table { self.new.table ≡ self.old.table }
        ensures call { MatchResult result (λ _. TakesHold Read self.old.seat self.new.seat)
            (RefusesHold Read self.old.seat self.new.seat) }
    {
        self.try_hold(Access::Read)
    }

    /// Takes a writer's hold, during which no other seat holds.
    ///
    /// # Errors
    ///
    /// `Holding`, `Worn` or `Busy`, in this order. `Busy` has the count that was found, if others hold or have just tried to.
    pub fn try_write(&mut self) -> Result<(), HoldFault>
        ensures table { self.new.table ≡ self.old.table }
        ensures call { MatchResult result (λ _. TakesHold Write self.old.seat self.new.seat)
            (RefusesHold Write self.old.seat self.new.seat) }
    {
        self.try_hold(Access::Write)
    }

    /// Takes a hold for this access, which is tried until it is granted, or returns why it is refused.
    fn wait_hold<R: Wait>(&mut self, rt: &R, access: Access) -> Result<(), WaitFault>
        ensures table { self.new.table ≡ self.old.table }
        ensures call { MatchResult result (λ _. WaitsForHold access self.old.seat self.new.seat)
            (RefusesWait self.old.seat self.new.seat) }
    {
        match self.hold() {
            Hold::Nothing => match self.table.wait_hold(rt, &mut self.seat, access) {
                Ok(()) => Ok(()),
                Err(Worn) => Err(WaitFault::Worn),
            },
            Hold::Reading | Hold::Writing => Err(WaitFault::Holding),
        }
    }

    /// Takes a reader's hold; tries again while a writer holds.
    ///
    /// # Errors
    ///
    /// `Holding` or `Worn`, in this order.
    pub fn read<R: Wait>(&mut self, rt: &R) -> Result<(), WaitFault>
        ensures table { self.new.table ≡ self.old.table }
        ensures call { MatchResult result (λ _. WaitsForHold Read self.old.seat self.new.seat)
            (RefusesWait self.old.seat self.new.seat) }
    {
        self.wait_hold(rt, Access::Read)
    }

    /// Takes a writer's hold; tries again while others hold.
    ///
    /// # Errors
    ///
    /// `Holding` or `Worn`, in this order.
    pub fn write<R: Wait>(&mut self, rt: &R) -> Result<(), WaitFault>
        ensures table { self.new.table ≡ self.old.table }
        ensures call { MatchResult result (λ _. WaitsForHold Write self.old.seat self.new.seat)
            (RefusesWait self.old.seat self.new.seat) }
    {
        self.wait_hold(rt, Access::Write)
    }

    /// Whether the table has an entry `i`.
    fn has_entry(&self, i: u64) -> bool
        ensures { IsTrue result ↔ (i < self.now.table.now.entries) }
    {
        let table = self.table;
        i < table.entries
    }

    /// The entry `i`, read during a hold: as it was when the hold was granted, with what the seat has set since.
    /// Returns `None` if the seat holds nothing, or if there is no such entry.
    pub fn get(&mut self, i: u64) -> Option<FileEntry>
        ensures table { self.new.table ≡ self.old.table }
        ensures call { MatchOption result (MayNotGet i self.old.table.now self.old.seat self.new.seat)
            (IsGot i self.old.seat self.new.seat) }
    {
        if !self.has_entry(i) {
            return None;
        }
        match self.hold() {
            Hold::Nothing => None,
            Hold::Reading | Hold::Writing => Some(self.table.get(&mut self.seat, i)),
        }
    }

    /// Sets a field of the entry `i` during a writer's hold. Returns false if the seat does not hold as a writer, or if
    /// there is no such entry.
    pub fn set(&mut self, i: u64, field: FileField, to: u64) -> bool
        ensures table { self.new.table ≡ self.old.table }
        ensures call { SetsOrNot i field to self.old.table.now self.old.seat self.new.seat result }
    {
        if !self.has_entry(i) {
            return false;
        }
        match self.hold() {
            Hold::Writing => {
                self.table.set(&mut self.seat, i, field, to);
                true
            }
            Hold::Nothing | Hold::Reading => false,
        }
    }

    /// Gives the hold back. Returns false if the seat holds nothing.
    pub fn end(&mut self) -> bool
        ensures table { self.new.table ≡ self.old.table }
        ensures call { EndsOrNot self.old.seat self.new.seat result }
    {
        match self.hold() {
            Hold::Nothing => false,
            Hold::Reading | Hold::Writing => {
                self.table.end(&mut self.seat);
                true
            }
        }
    }

    /// What the seat holds, which its marks show too.
    pub fn hold(&self) -> Hold
        ensures hold { result ≡ self.now.seat.hold }
        ensures marks { IsHoldOf self.now.seat.seat self.now.seat.hold }
    {
        self.seat.hold()
    }

    /// The number of holds that are left of the seat's stint.
    pub fn left(&self) -> u64
        ensures { result + holds_had self.now.seat.seat ≡ self.now.seat.seat.stint }
    {
        self.seat.left()
    }

    /// The seat, which `FileTally::of` or `FileTable::join` takes. If it has a hold, that is given back first.
    pub fn into_seat(self) -> FileSeat
        ensures free { IsFreeSeatOf self.entry.table.now.object result }
        ensures seat { EndsIfHeld self.entry.seat result }
    {
        let mut port = self;
        port.end();
        let FilePort { table: _, seat } = port;
        seat
    }
}

impl<'t> fmt::Debug for FilePort<'t> {
    fn fmt<W: fmt::Write>(&self, f: &mut fmt::Formatter<W>) -> fmt::Result {
        f.debug_struct("FilePort")
            .field("table", self.table)
            .field("seat", &self.seat)
            .finish()
    }
}
