//! A file table that threads share.

ghost use Rattle.std.specs.Prelude.{◌≡◌, ◌≢◌, ◌<◌, IfOk, MatchResult, is_ok, if◌then◌else◌, ◌≤◌, ℕ, length, slice_get, Some};
ghost use Rattle.fak_files.specs.Calls.{IsFileSeatOf, IsFreeSeatOf, IsGranted, IsRefused, IsGot, IsSet, IsEnded, idle_seats, IsWaitedFor, IsWorn, entries_after};
ghost use Rattle.fak_files.specs.Phases.{hold_for};
ghost use Rattle.fak_files.specs.declared.phase.Access.TheVariants.{Read, Write};
ghost use Rattle.fak_files.specs.declared.phase.Hold.TheVariants.{Nothing, Reading, Writing};
ghost use Rattle.fak_model.specs.Calls.{fresh_seats, IsJoined};
ghost use Rattle.fak_files.specs.Opening.{IsInRange, IsNumberOfEntries, IsOpenFault};
ghost use Rattle.fak_model.specs.Limits.{IsInLargeRange, IsLargeFault};
ghost use Rattle.fak_model.specs.Histories.{AreNamed, IsAtRest};
ghost use Rattle.fak_model.specs.File.{IsFileHistory, file_rules};
ghost use Rattle.fak_model.specs.Seats.{IsWhole};
ghost use Rattle.fak_files.specs.Versions.{entry_of};
ghost use Rattle.fak_files.specs.Words.{width};

use crate::admission::admit;
use crate::ending::entries_of;
use crate::fault::{FileFault, OpenFault, Worn};
use crate::limits::FileLimits;
use crate::opening::{WORDS, tested_large_limits, tested_limits};
use crate::phase::{Access, Hold};
use crate::rest::FileRest;
use crate::rule::{FileRule, FileView};
use crate::seat::FileSeat;
use crate::steps::{get_field, give, hear, set_field};
use crate::tally::FileTally;
use crate::words::{COUNT, FIELDS};
use atomic_table::Table;
use crossbeam_utils::Backoff;
use fak_model::{BIAS, Both, Deal, FileEntry, FileField, LargeFault};
use std::alloc::{AllocError, Global};
use std::fmt;
use std::marker::{Brand, Model};
use std::sync::Wait;

/// Entries that many seats may read at once, or only one seat may write.
#[derive(Drop)]
pub struct FileTable {
    pub(crate) table: Table<(), FileView, FileLimits, FileRule, Global>,
    pub(crate) entries: u64,
}

impl Model for FileTable {
    ghost use Rattle.std.specs.Prelude.{◌≡◌, ◌≤◌};
    ghost use Rattle.fak_model.specs.Calls.{object_id};
    ghost use Rattle.fak_files.specs.Calls.{FileTableInfo, table_info};
    ghost use Rattle.fak_files.specs.Words.{width};

    ghost Value = { FileTableInfo };

    ghost view = { λ t. table_info (object_id t.table.shared.table_id t.table.shared.key.seats) t.entries };

    ghost invariant = { λ t. (t.table.shared.key.entries ≡ t.entries)
        × (t.table.shared.table_id.words ≡ width t.entries)
        × (t.table.shared.table_id.slots ≡ 0) × (t.entries ≤ 16) };
}

impl FileTable {
    /// Opens a table of free entries, with its seats. Each seat may have `stint` holds.
    ///
    /// `entries` is 1 to 16, `seats` 1 to 64, `stint` 1 to 2^40.
    ///
    /// # Errors
    ///
    /// `BadSize`, `BadSeats`, `BadStint` or `Memory`, in this order.
    pub fn open(
        alloc: Global,
        entries: u64,
        seats: u64,
        stint: u64,
    ) -> Result<(FileTable, Vec<FileSeat>), OpenFault>
        ensures { MatchResult result (λ r. IsInRange entries seats stint × (r.0.entries ≡ entries)
            × (r.0.object.seats ≡ seats)
            × (r.1.items ≡ idle_seats (fresh_seats r.0.object stint 0 seats))) (IsOpenFault entries seats stint) }
    {
        if let Err(fault) = tested_limits(entries, seats, stint) {
            return Err(fault);
        }
        match FileTable::with_limits(alloc, entries, seats, stint) {
            Ok(opened) => Ok(opened),
            Err(AllocError) => Err(OpenFault::Memory),
        }
    }

    /// Opens a large table: the same table, with the same calls, but more seats.
    ///
    /// `entries` is 1 to 16, and `seats` 1 to `LARGE_SEATS`. `stint` is at least 1, and `seats` times `stint` at most
    /// `LARGE_TICKETS`.
    ///
    /// # Errors
    ///
    /// `BadSize`, `BadSeats`, `BadStint` or `Memory`, in this order.
    pub fn open_large(
        alloc: Global,
        entries: u64,
        seats: u64,
        stint: u64,
    ) -> Result<(FileTable, Vec<FileSeat>), LargeFault>
        ensures { MatchResult result (λ r. IsInLargeRange (IsNumberOfEntries entries) seats stint × (r.0.entries ≡ entries)
            × (r.0.object.seats ≡ seats)
            × (r.1.items ≡ idle_seats (fresh_seats r.0.object stint 0 seats))) (IsLargeFault (IsNumberOfEntries entries) seats stint) }
    {
        if let Err(fault) = tested_large_limits(entries, seats, stint) {
            return Err(fault);
        }
        match FileTable::with_limits(alloc, entries, seats, stint) {
            Ok(opened) => Ok(opened),
            Err(AllocError) => Err(LargeFault::Memory),
        }
    }

    /// A table of free entries with its seats; the caller has tested the limits.
    fn with_limits(
        alloc: Global,
        entries: u64,
        seats: u64,
        stint: u64,
    ) -> Result<(FileTable, Vec<FileSeat>), AllocError>
        requires { IsInLargeRange (IsNumberOfEntries entries) seats stint }
        ensures { IfOk result (λ r. (r.0.entries ≡ entries) × (r.0.object.seats ≡ seats)
            × (r.1.items ≡ idle_seats (fresh_seats r.0.object stint 0 seats))) }
    {
        let mut words = [0; WORDS];
        words[COUNT] = BIAS + seats;
        let limits = FileLimits { entries, seats };
        let words = &words[..FIELDS + 2 * entries as usize];
        let Ok((table, mut rest)) = Table::of_words(alloc, words, &limits) else {
            return Err(AllocError);
        };
        let Ok(mut dealt) = Vec::with_capacity(alloc, seats as usize) else {
            return Err(AllocError);
        };
        for name in 0..seats {
            let seat = FileSeat {
                token: table.shared.split_seat::<Deal>(&mut rest),
                name,
                seats,
                left: stint,
                hold: Hold::Nothing,
            };
            if dealt.push(seat).is_err() {
                return Err(AllocError);
            }
        }
        Ok((FileTable { table, entries }, dealt))
    }

    /// Takes a hold for this access, or returns why it is refused.
    pub(crate) fn try_hold(&self, seat: &mut FileSeat, access: Access) -> Result<(), FileFault>
        requires { IsFreeSeatOf self.now.object seat.old }
        ensures call { MatchResult result (λ _. IsGranted access seat.old seat.new)
            (λ fault. IsRefused access seat.old seat.new fault) }
        ensures hold { seat.new.hold ≡ (if is_ok result then hold_for access else Nothing) }
        ensures object { seat.new.seat.object ≡ self.now.object }
    {
        if seat.left == 0 {
            return Err(FileFault::Worn);
        }
        let amount = access.amount(seat.seats);
        match admit::<Brand>(&self.table.shared, &mut seat.token, amount, access) {
            Err(count) => Err(FileFault::Busy(count)),
            Ok(()) => {
                seat.left -= 1;
                seat.hold = access.hold();
                Ok(())
            }
        }
    }

    /// Takes a reader's hold, which others may have at the same time.
    ///
    /// # Errors
    ///
    /// `Worn` or `Busy`, in this order. `Busy` has the count that was found, if a writer holds or has just tried to.
    pub fn try_read(&self, seat: &mut FileSeat) -> Result<(), FileFault>
        requires object { IsFileSeatOf self.now.object seat.old }
        requires idle { seat.old.hold ≡ Nothing }
        ensures call { MatchResult result (λ _. IsGranted Read seat.old seat.new)
            (λ fault. IsRefused Read seat.old seat.new fault) }
        ensures hold { seat.new.hold ≡ (if is_ok result then Reading else Nothing) }
        ensures object { seat.new.seat.object ≡ self.now.object }
    {
        self.try_hold(seat, Access::Read)
    }

    /// Takes a writer's hold, during which no other seat holds.
    ///
    /// # Errors
    ///
    /// `Worn` or `Busy`, in this order. `Busy` has the count that was found, if others hold or have just tried to.
    pub fn try_write(&self, seat: &mut FileSeat) -> Result<(), FileFault>
        requires object { IsFileSeatOf self.now.object seat.old }
        requires idle { seat.old.hold ≡ Nothing }
        ensures call { MatchResult result (λ _. IsGranted Write seat.old seat.new)
            (λ fault. IsRefused Write seat.old seat.new fault) }
        ensures hold { seat.new.hold ≡ (if is_ok result then Writing else Nothing) }
        ensures object { seat.new.seat.object ≡ self.now.object }
    {
        self.try_hold(seat, Access::Write)
    }

    /// The entry `i`, read during a hold: as it was when the hold was granted, with what the seat has set since.
    pub fn get(&self, seat: &mut FileSeat, i: u64) -> FileEntry
        requires object { IsFileSeatOf self.now.object seat.old }
        requires held { seat.old.hold ≢ Nothing }
        requires entry { i < self.now.entries }
        ensures call { IsGot i seat.old seat.new result }
        ensures hold { seat.new.hold ≡ seat.old.hold }
        ensures object { seat.new.seat.object ≡ self.now.object }
    {
        let access = seat.hold.access();
        let words = &self.table.shared;
        let inode = get_field::<Brand>(words, &mut seat.token, access, i, FileField::Inode);
        let uses = get_field::<Brand>(words, &mut seat.token, access, i, FileField::Uses);
        FileEntry { inode, uses }
    }

    /// Sets a field of the entry `i` during a writer's hold.
    pub fn set(&self, seat: &mut FileSeat, i: u64, field: FileField, to: u64)
        requires object { IsFileSeatOf self.now.object seat.old }
        requires held { seat.old.hold ≡ Writing }
        requires entry { i < self.now.entries }
        ensures call { IsSet i field to seat.old seat.new }
        ensures hold { seat.new.hold ≡ Writing }
        ensures object { seat.new.seat.object ≡ self.now.object }
    {
        set_field::<Brand>(&self.table.shared, &mut seat.token, i, field, to);
    }

    /// Gives the hold back.
    pub fn end(&self, seat: &mut FileSeat)
        requires object { IsFileSeatOf self.now.object seat.old }
        requires held { seat.old.hold ≢ Nothing }
        ensures call { IsEnded seat.old seat.new }
        ensures hold { seat.new.hold ≡ Nothing }
        ensures object { seat.new.seat.object ≡ self.now.object }
    {
        let access = seat.hold.access();
        let amount = access.amount(seat.seats);
        give::<Brand>(&self.table.shared, &mut seat.token, amount, access);
        seat.hold = Hold::Nothing;
    }

    /// Takes a hold for this access; tries until it is granted.
    pub(crate) fn wait_hold<R: Wait>(
        &self,
        rt: &R,
        seat: &mut FileSeat,
        access: Access,
    ) -> Result<(), Worn>
        requires { IsFreeSeatOf self.now.object seat.old }
        ensures call { MatchResult result (λ _. IsWaitedFor access seat.old seat.new) (λ _. IsWorn seat.old seat.new) }
        ensures hold { seat.new.hold ≡ (if is_ok result then hold_for access else Nothing) }
        ensures object { seat.new.seat.object ≡ self.now.object }
    {
        let backoff = Backoff::new();
        for _ in rt.forever() {
            match self.try_hold(seat, access) {
                Ok(()) => return Ok(()),
                Err(FileFault::Worn) => return Err(Worn),
                Err(FileFault::Busy(_)) => backoff.snooze(),
            }
        }
        unreachable!()
    }

    /// Takes a reader's hold; tries again while a writer holds.
    ///
    /// # Errors
    ///
    /// `Worn`, if the seat has had as many holds as its stint.
    pub fn read<R: Wait>(&self, rt: &R, seat: &mut FileSeat) -> Result<(), Worn>
        requires object { IsFileSeatOf self.now.object seat.old }
        requires idle { seat.old.hold ≡ Nothing }
        ensures call { MatchResult result (λ _. IsWaitedFor Read seat.old seat.new) (λ _. IsWorn seat.old seat.new) }
        ensures hold { seat.new.hold ≡ (if is_ok result then Reading else Nothing) }
        ensures object { seat.new.seat.object ≡ self.now.object }
    {
        self.wait_hold(rt, seat, Access::Read)
    }

    /// Takes a writer's hold; tries again while others hold.
    ///
    /// # Errors
    ///
    /// `Worn`, if the seat has had as many holds as its stint.
    pub fn write<R: Wait>(&self, rt: &R, seat: &mut FileSeat) -> Result<(), Worn>
        requires object { IsFileSeatOf self.now.object seat.old }
        requires idle { seat.old.hold ≡ Nothing }
        ensures call { MatchResult result (λ _. IsWaitedFor Write seat.old seat.new) (λ _. IsWorn seat.old seat.new) }
        ensures hold { seat.new.hold ≡ (if is_ok result then Writing else Nothing) }
        ensures object { seat.new.seat.object ≡ self.now.object }
    {
        self.wait_hold(rt, seat, Access::Write)
    }

    /// The tally with this seat added, which holds nothing.
    pub fn join(&self, tally: FileTally, seat: FileSeat) -> FileTally
        requires object { (tally.object ≡ self.now.object) × IsFileSeatOf self.now.object seat }
        requires idle { seat.hold ≡ Nothing }
        ensures joined { IsJoined (file_rules self.now.object.seats) tally seat.seat result }
        ensures object { result.object ≡ self.now.object }
    {
        let FileTally {
            mut token,
            mut names,
            seats,
        } = tally;
        let FileSeat {
            token: other,
            name,
            seats: _,
            left: _,
            hold: _,
        } = seat;
        self.table.shared.join_seat::<Both>(&mut token, other);
        hear::<Brand>(&self.table.shared, &mut token);
        names.insert(name);
        FileTally {
            token,
            names,
            seats,
        }
    }

    /// Closes the table, once all seats are in the tally, and returns the entries that are left. They are as after the
    /// whole history, which is lawful, and in which no call is cut short.
    pub fn close(self, tally: FileTally) -> FileRest
        requires object { tally.object ≡ self.object }
        requires whole { IsWhole tally.object.seats tally.names }
        ensures entries { result ≡ entries_after tally.seen 0 self.entries }
        ensures each { (i : ℕ) → i < self.entries → slice_get result i ≡ Some (entry_of tally.seen i) }
        ensures number { length result ≡ self.entries }
        ensures lawful { IsFileHistory self.object.seats tally.seen }
        ensures named { AreNamed (file_rules self.object.seats) self.object.seats tally.seen }
        ensures rest { IsAtRest (file_rules self.object.seats) tally.seen }
    {
        let FileTable {
            table,
            entries: count,
        } = self;
        let FileTally {
            token,
            names: _names,
            seats: _,
        } = tally;
        let closed = table.close_with(token);
        let entries = entries_of(&closed, count);
        closed.free();
        FileRest { entries, count }
    }
}

impl fmt::Debug for FileTable {
    fn fmt<W: fmt::Write>(&self, f: &mut fmt::Formatter<W>) -> fmt::Result {
        f.debug_struct("FileTable")
            .field("entries", &self.entries)
            .finish_non_exhaustive()
    }
}
