//! The queue that its seats share, with all its calls: open, insert, delete, wait, claim and try, shut, join and close.

ghost use Rattle.std.specs.Prelude.{◌≡◌, ℕ, IfOk, MatchOption, MatchResult};
ghost use Rattle.fak_model.specs.Calls.{IsJoined, fresh_seats};
ghost use Rattle.fak_model.specs.Histories.{AreNamed, IsAtRest};
ghost use Rattle.fak_model.specs.Limits.{IsInLargeRange, IsLargeFault};
ghost use Rattle.fak_model.specs.Queue.{IsQueueHistory, contents, queue_rules};
ghost use Rattle.fak_model.specs.Seats.{IsWhole};
ghost use Rattle.fak_queue.specs.declared.state.SeatState.TheVariants.{Deleting, Idle, Inserting};
ghost use Rattle.fak_queue.specs.Queues.{ClaimsIn, ClaimsOut, Deletes, DrawsIfGranted, Fills, Inserts, ShutsAs, Takes};
ghost use Rattle.fak_queue.specs.Queues.{WaitsToFill, WaitsToTake, drawn_by, state_of};
ghost use Rattle.fak_queue.specs.Refusals.{IsInRange, IsLargeSize, IsOpenFault, RefusesDeletion, RefusesInsertion};
ghost use Rattle.fak_queue.specs.Retries.{DeletesAfterEmpty, InsertsAfterFull};
ghost use Rattle.fak_queue.specs.Retries.{RefusesWaitingDeletion, RefusesWaitingInsertion};

use crate::cells::Cells;
use crate::contention::SharedCounts;
use crate::fault::{DeleteFault, InsertFault, OpenFault};
use crate::limits::QueueLimits;
use crate::opening::{empty_table, tested_large_limits, tested_limits};
use crate::parts::SeatParts;
use crate::phases::Phases;
use crate::rest::Rest;
use crate::rule::QueueRule;
use crate::seat::Seat;
use crate::steps::hear;
use crate::tally::Tally;
use crate::words::{DRAWS_IN, DRAWS_OUT};
use atomic_table::Table;
use crossbeam_utils::Backoff;
use fak_core::Phase;
use fak_model::{Both, Deal, LargeFault, Mark, View};
use std::alloc::{AllocError, Global};
use std::fmt;
use std::marker::{Brand, Model};
use std::sync::Wait;

/// A bounded first-in-first-out queue, whose cells own the values in it. Its seats insert and delete at once, with
/// no lock. Contracts see which object it is and its size.
#[derive(Drop)]
pub struct Queue<T> {
    pub(crate) table: Table<Option<T>, View<Mark<T>, Phases<T>>, QueueLimits, QueueRule, Global>,
    pub(crate) cells: Cells,
}

impl<T> Model for Queue<T> {
    ghost use Rattle.fak_model.specs.Calls.{object_id};
    ghost use Rattle.fak_queue.specs.Queues.{QueueInfo, IsQueue, queue_info};

    ghost Value = { QueueInfo };

    ghost view = { λ q. queue_info (object_id q.table.shared.table_id q.table.shared.key.seats) };

    ghost invariant = { λ q. IsQueue q.cells.size q.table.shared.table_id };
}

impl<T: Drop> Queue<T> {
    /// An empty queue of `size` cells, with its seats, each of which may draw `stint` tickets, insertions and deletions
    /// together.
    ///
    /// `size` is 1 to `LARGEST_SIZE`, `seats` 1 to `MOST_SEATS`, `stint` 1 to `LONGEST_STINT`.
    ///
    /// # Errors
    ///
    /// `BadSize`, `BadSeats`, `BadStint` or `Memory`, in this order.
    pub fn open(
        alloc: Global,
        size: u64,
        seats: u64,
        stint: u64,
    ) -> Result<(Queue<T>, Vec<Seat<T>>), OpenFault>
        ensures { MatchResult result (λ r. IsInRange size seats stint × (r.0.size ≡ size) × (r.0.object.seats ≡ seats)
            × (r.1.items ≡ fresh_seats r.0.object stint 0 seats)) (IsOpenFault size seats stint) }
    {
        if let Err(fault) = tested_limits(size, seats, stint) {
            return Err(fault);
        }
        match Queue::with_limits(alloc, size, seats, stint) {
            Ok(opened) => Ok(opened),
            Err(AllocError) => Err(OpenFault::Memory),
        }
    }

    /// A large queue: the same queue, with the same calls, of more cells and seats.
    ///
    /// `size` is 1 to `LARGE_SIZE`, and `seats` 1 to `LARGE_SEATS`. `stint` is at least 1, and `seats` times `stint` at most
    /// `LARGE_TICKETS`.
    ///
    /// # Errors
    ///
    /// `BadSize`, `BadSeats`, `BadStint` or `Memory`, in this order.
    pub fn open_large(
        alloc: Global,
        size: u64,
        seats: u64,
        stint: u64,
    ) -> Result<(Queue<T>, Vec<Seat<T>>), LargeFault>
        ensures { MatchResult result (λ r. IsInLargeRange (IsLargeSize size) seats stint × (r.0.size ≡ size)
            × (r.0.object.seats ≡ seats)
            × (r.1.items ≡ fresh_seats r.0.object stint 0 seats)) (IsLargeFault (IsLargeSize size) seats stint) }
    {
        if let Err(fault) = tested_large_limits(size, seats, stint) {
            return Err(fault);
        }
        match Queue::with_limits(alloc, size, seats, stint) {
            Ok(opened) => Ok(opened),
            Err(AllocError) => Err(LargeFault::Memory),
        }
    }

    /// An empty queue with its seats, whose limits have been tested.
    fn with_limits(
        alloc: Global,
        size: u64,
        seats: u64,
        stint: u64,
    ) -> Result<(Queue<T>, Vec<Seat<T>>), AllocError>
        requires { IsInLargeRange (IsLargeSize size) seats stint }
        ensures { IfOk result (λ r. (r.0.size ≡ size) × (r.0.object.seats ≡ seats)
            × (r.1.items ≡ fresh_seats r.0.object stint 0 seats)) }
    {
        let key = QueueLimits { size, seats, stint };
        let Ok((table, mut rest)) = empty_table(alloc, &key) else {
            return Err(AllocError);
        };
        let Ok(mut dealt) = Vec::with_capacity(alloc, seats as usize) else {
            return Err(AllocError);
        };
        for name in 0..seats {
            let parts = SeatParts {
                token: table.shared.split_seat::<Deal>(&mut rest),
                name,
                seats,
                left: stint,
                phase: Phase::Idle,
                counts: SharedCounts::new(stint),
            };
            if dealt.push(Seat { parts }).is_err() {
                return Err(AllocError);
            }
        }
        let cells = Cells::new(size);
        Ok((Queue { table, cells }, dealt))
    }

    /// Inserts the item by one attempt: one claim, and if it is granted, tries until it is the cell's turn. Returns
    /// the ticket.
    ///
    /// # Errors
    ///
    /// `Worn`, `Closed` or `Full`, in this order; the item comes back.
    pub fn insert<R: Wait>(
        &self,
        rt: &R,
        seat: &mut Seat<T>,
        item: T,
    ) -> Result<u64, InsertFault<T>>
        requires object { seat.old.object ≡ self.now.object }
        requires idle { state_of seat.old ≡ Idle }
        ensures object { seat.new.object ≡ seat.old.object }
        ensures state { state_of seat.new ≡ Idle }
        ensures left { DrawsIfGranted result seat.old seat.new }
        ensures call { MatchResult result (λ k. Inserts self.now.size k item seat.old seat.new)
            (RefusesInsertion self.now.size item seat.old seat.new) }
    {
        self.insert_by(rt, &mut seat.parts, item)
    }

    /// Deletes the oldest item by one attempt: one claim, and if it is granted, tries until it is the cell's turn.
    /// Returns the ticket and the item.
    ///
    /// # Errors
    ///
    /// `Worn` or `Empty`, in this order.
    pub fn delete<R: Wait>(&self, rt: &R, seat: &mut Seat<T>) -> Result<(u64, T), DeleteFault>
        requires object { seat.old.object ≡ self.now.object }
        requires idle { state_of seat.old ≡ Idle }
        ensures object { seat.new.object ≡ seat.old.object }
        ensures state { state_of seat.new ≡ Idle }
        ensures left { DrawsIfGranted result seat.old seat.new }
        ensures call { MatchResult result (λ r. Deletes self.now.size r.0 r.1 seat.old seat.new)
            (RefusesDeletion self.now.size seat.old seat.new) }
    {
        self.delete_by(rt, &mut seat.parts)
    }

    /// Inserts the item, and tries again while the queue is full. Returns the ticket.
    ///
    /// # Errors
    ///
    /// `Worn` or `Closed`, in this order, and never `Full`; the item comes back.
    pub fn wait_insert<R: Wait>(
        &self,
        rt: &R,
        seat: &mut Seat<T>,
        item: T,
    ) -> Result<u64, InsertFault<T>>
        requires object { seat.old.object ≡ self.now.object }
        requires idle { state_of seat.old ≡ Idle }
        ensures object { seat.new.object ≡ seat.old.object }
        ensures state { state_of seat.new ≡ Idle }
        ensures left { DrawsIfGranted result seat.old seat.new }
        ensures call { MatchResult result (λ k. InsertsAfterFull self.now.size k item seat.old seat.new)
            (RefusesWaitingInsertion self.now.size item seat.old seat.new) }
    {
        let backoff = Backoff::new();
        let mut waiting = item;
        for _ in rt.forever() {
            match self.insert(rt, seat, waiting) {
                Ok(ticket) => return Ok(ticket),
                Err(InsertFault::Worn { item }) => return Err(InsertFault::Worn { item }),
                Err(InsertFault::Closed { item }) => return Err(InsertFault::Closed { item }),
                Err(InsertFault::Full { upper: _, item }) => waiting = item,
            }
            backoff.snooze();
        }
        unreachable!()
    }

    /// Deletes the oldest item, and tries again while the queue is empty. Returns the ticket and the item.
    ///
    /// # Errors
    ///
    /// `Worn`, and never `Empty`.
    pub fn wait_delete<R: Wait>(&self, rt: &R, seat: &mut Seat<T>) -> Result<(u64, T), DeleteFault>
        requires object { seat.old.object ≡ self.now.object }
        requires idle { state_of seat.old ≡ Idle }
        ensures object { seat.new.object ≡ seat.old.object }
        ensures state { state_of seat.new ≡ Idle }
        ensures left { DrawsIfGranted result seat.old seat.new }
        ensures call { MatchResult result (λ r. DeletesAfterEmpty self.now.size r.0 r.1 seat.old seat.new)
            (RefusesWaitingDeletion seat.old seat.new) }
    {
        let backoff = Backoff::new();
        for _ in rt.forever() {
            match self.delete(rt, seat) {
                Ok((ticket, item)) => return Ok((ticket, item)),
                Err(DeleteFault::Worn) => return Err(DeleteFault::Worn),
                Err(DeleteFault::Empty(_)) => backoff.snooze(),
            }
        }
        unreachable!()
    }

    /// Claims room for the item and draws its ticket. The seat keeps the item until `try_fill`.
    ///
    /// # Errors
    ///
    /// `Worn`, `Closed` or `Full`, in this order; the item comes back, and the seat is idle.
    pub fn claim_insert(&self, seat: &mut Seat<T>, item: T) -> Result<u64, InsertFault<T>>
        requires object { seat.old.object ≡ self.now.object }
        requires idle { state_of seat.old ≡ Idle }
        ensures object { seat.new.object ≡ seat.old.object }
        ensures state { MatchResult result (λ k. state_of seat.new ≡ Inserting k) (λ _. state_of seat.new ≡ Idle) }
        ensures left { DrawsIfGranted result seat.old seat.new }
        ensures call { MatchResult result (λ k. ClaimsIn self.now.size k item seat.old seat.new)
            (RefusesInsertion self.now.size item seat.old seat.new) }
    {
        self.claim_insert_by(&mut seat.parts, item, &mut false)
    }

    /// If it is the cell's turn, moves the item into it, ends the insertion and returns its ticket. Else the seat is as
    /// before.
    pub fn try_fill(&self, seat: &mut Seat<T>) -> Option<u64>
        requires object { seat.old.object ≡ self.now.object }
        requires inserting { (k : ℕ) × (state_of seat.old ≡ Inserting k) }
        ensures object { seat.new.object ≡ seat.old.object }
        ensures state { MatchOption result (state_of seat.new ≡ state_of seat.old) (λ _. state_of seat.new ≡ Idle) }
        ensures left { drawn_by seat.new ≡ drawn_by seat.old }
        ensures call { (k : ℕ) → state_of seat.old ≡ Inserting k → MatchOption result
            (WaitsToFill self.now.size k seat.old seat.new) (λ j. (j ≡ k) × Fills self.now.size k seat.old seat.new) }
    {
        self.try_fill_by(&mut seat.parts)
    }

    /// Claims an item and draws its ticket. `try_take` then hands the item out.
    ///
    /// # Errors
    ///
    /// `Worn` or `Empty`, in this order; the seat is idle.
    pub fn claim_delete(&self, seat: &mut Seat<T>) -> Result<u64, DeleteFault>
        requires object { seat.old.object ≡ self.now.object }
        requires idle { state_of seat.old ≡ Idle }
        ensures object { seat.new.object ≡ seat.old.object }
        ensures state { MatchResult result (λ k. state_of seat.new ≡ Deleting k) (λ _. state_of seat.new ≡ Idle) }
        ensures left { DrawsIfGranted result seat.old seat.new }
        ensures call { MatchResult result (λ k. ClaimsOut self.now.size k seat.old seat.new)
            (RefusesDeletion self.now.size seat.old seat.new) }
    {
        self.claim_delete_by(&mut seat.parts, &mut false)
    }

    /// If it is the cell's turn, moves the item out of it, ends the deletion and returns its ticket and the item. Else
    /// the seat is as before.
    pub fn try_take(&self, seat: &mut Seat<T>) -> Option<(u64, T)>
        requires object { seat.old.object ≡ self.now.object }
        requires deleting { (k : ℕ) × (state_of seat.old ≡ Deleting k) }
        ensures object { seat.new.object ≡ seat.old.object }
        ensures state { MatchOption result (state_of seat.new ≡ state_of seat.old) (λ _. state_of seat.new ≡ Idle) }
        ensures left { drawn_by seat.new ≡ drawn_by seat.old }
        ensures call { (k : ℕ) → state_of seat.old ≡ Deleting k → MatchOption result
            (WaitsToTake self.now.size k seat.old seat.new)
            (λ r. (r.0 ≡ k) × Takes self.now.size k r.1 seat.old seat.new) }
    {
        self.try_take_by(&mut seat.parts)
    }

    /// Leaves the queue to others for a while, if a call of the seat has found that they use it too. The seat must have drawn
    /// tickets enough since its last pause, and the queue must have cells enough. The pause spins, for some 40 microseconds at
    /// most in code that LLVM builds, and waits for nobody.
    ///
    /// `insert`, `delete` and the calls that wait begin with such a pause, unless `Seat::set_pauses_in_calls` has turned this
    /// off. Claims never pause. No contract mentions a pause.
    pub fn pause(&self, seat: &mut Seat<T>)
        ensures { seat.new ≡ seat.old }
    {
        self.pause_by(&mut seat.parts);
    }

    /// Shuts the queue: insertions are refused from now on, deletions go on. Returns whether it was open before.
    pub fn shut(&self, seat: &mut Seat<T>) -> bool
        requires object { seat.old.object ≡ self.now.object }
        requires idle { state_of seat.old ≡ Idle }
        ensures object { seat.new.object ≡ seat.old.object }
        ensures state { state_of seat.new ≡ Idle }
        ensures left { drawn_by seat.new ≡ drawn_by seat.old }
        ensures call { ShutsAs self.now.size result seat.old seat.new }
    {
        self.shut_by(&mut seat.parts)
    }

    /// The tally with one more seat.
    pub fn join(&self, tally: Tally<T>, seat: Seat<T>) -> Tally<T>
        requires object { (tally.object ≡ self.now.object) × (seat.object ≡ self.now.object) }
        requires idle { state_of seat ≡ Idle }
        ensures joined { IsJoined (queue_rules self.now.size) tally seat result }
        ensures object { result.object ≡ self.now.object }
    {
        let Tally {
            mut token,
            mut names,
            seats,
        } = tally;
        let Seat { parts } = seat;
        let SeatParts {
            token: other,
            name,
            seats: _,
            left: _,
            phase: _,
            counts: _,
        } = parts;
        self.table.shared.join_seat::<Both>(&mut token, other);
        hear::<T, Brand>(&self.table.shared, &mut token);
        names.insert(name);
        Tally {
            token,
            names,
            seats,
        }
    }

    /// Closes the queue, once all seats are in the tally. What is left is what the whole history leaves, in which no call
    /// is cut short.
    pub fn close(self, tally: Tally<T>) -> Rest<T>
        requires object { tally.object ≡ self.object }
        requires whole { IsWhole self.object.seats tally.names }
        ensures rest { result ≡ contents tally.seen }
        ensures lawful { IsQueueHistory self.size tally.seen }
        ensures named { AreNamed (queue_rules self.size) self.object.seats tally.seen }
        ensures at_rest { IsAtRest (queue_rules self.size) tally.seen }
    {
        let Queue { table, cells } = self;
        let Tally {
            token,
            names: _,
            seats: _,
        } = tally;
        let closed = table.close_with(token);
        let put = closed.word(DRAWS_IN);
        let got = closed.word(DRAWS_OUT);
        Rest {
            closed,
            size: cells.size,
            next: got,
            count: put - got,
        }
    }
}

impl<T> fmt::Debug for Queue<T> {
    fn fmt<W: fmt::Write>(&self, f: &mut fmt::Formatter<W>) -> fmt::Result {
        f.debug_struct("Queue")
            .field("size", &self.cells.size)
            .finish_non_exhaustive()
    }
}
