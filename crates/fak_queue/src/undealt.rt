//! Queues whose seats can sleep: opening, dealing and joining.

ghost use Rattle.std.specs.Prelude.{◌≡◌, MatchResult, Some};
ghost use Rattle.fak_model.specs.Calls.{IsJoined, tally_of};
ghost use Rattle.fak_model.specs.Histories.{AreNamed};
ghost use Rattle.fak_model.specs.Limits.{IsInLargeRange, IsLargeFault};
ghost use Rattle.fak_model.specs.Queue.{IsQueueHistory, queue_rules};
ghost use Rattle.fak_queue.specs.declared.state.SeatState.TheVariants.{Idle};
ghost use Rattle.fak_queue.specs.Queues.{size_of, state_of};
ghost use Rattle.fak_queue.specs.Refusals.{IsLargeSize};
ghost use Rattle.fak_queue.specs.SleeperSeats.{DealsNext, undealt_info};

use crate::cells::Cells;
use crate::contention::SharedCounts;
use crate::limits::QueueLimits;
use crate::opening::{empty_table, tested_large_limits};
use crate::parts::SeatParts;
use crate::queue::Queue;
use crate::sleeper_seat::SleeperSeat;
use crate::steps::QueueToken;
use crate::tally::Tally;
use fak_core::Phase;
use fak_model::{Deal, LargeFault};
use std::alloc::Global;
use std::fmt;
use std::marker::Model;

/// The seats of a queue that are still to be dealt, in the order of their numbers. Contracts see the object, the stint and the
/// number of the next seat.
#[derive(Drop)]
pub struct UndealtSeats<T> {
    pub(crate) rest: QueueToken<T>,
    pub(crate) next: u64,
    pub(crate) seats: u64,
    pub(crate) stint: u64,
}

impl<T> Model for UndealtSeats<T> {
    ghost use Rattle.fak_model.specs.Calls.{object_id};
    ghost use Rattle.fak_queue.specs.SleeperSeats.{AreUndealt, UndealtInfo, undealt_info};

    ghost Value = { UndealtInfo };

    ghost view = { λ u. undealt_info (object_id u.rest.table_id u.seats) u.stint u.next };

    ghost invariant = { λ u. AreUndealt u.seats u.stint u.next u.rest.me };
}

impl<T: Drop> UndealtSeats<T> {
    /// The next seat, or `None` once all are dealt. It allocates nothing. The seats must belong to this queue.
    pub fn next(&mut self, queue: &Queue<T>) -> Option<SleeperSeat<T>>
        requires { self.old.object ≡ queue.now.object }
        ensures { DealsNext self.old self.new result }
    {
        if self.next == self.seats {
            return None;
        }
        let name = self.next;
        let parts = SeatParts {
            token: queue.table.shared.split_seat::<Deal>(&mut self.rest),
            name,
            seats: self.seats,
            left: self.stint,
            phase: Phase::Idle,
            counts: SharedCounts::new(self.stint),
        };
        self.next += 1;
        Some(SleeperSeat { parts })
    }
}

impl<T> fmt::Debug for UndealtSeats<T> {
    fn fmt<W: fmt::Write>(&self, f: &mut fmt::Formatter<W>) -> fmt::Result {
        f.debug_struct("UndealtSeats")
            .field("next", &self.next)
            .field("seats", &self.seats)
            .finish_non_exhaustive()
    }
}

impl<T: Drop> Queue<T> {
    /// A large queue whose seats can sleep, with all its seats still to be dealt.
    ///
    /// `size` is 1 to `LARGE_SIZE`, and `seats` 1 to `LARGE_SEATS`. `stint` is at least 1, and `seats` times `stint` at most
    /// `LARGE_TICKETS`.
    ///
    /// # Errors
    ///
    /// `BadSize`, `BadSeats`, `BadStint` or `Memory`, in this order.
    pub fn open_sleepers(
        alloc: Global,
        size: u64,
        seats: u64,
        stint: u64,
    ) -> Result<(Queue<T>, UndealtSeats<T>), LargeFault>
        ensures { MatchResult result (λ r. IsInLargeRange (IsLargeSize size) seats stint × (r.0.size ≡ size)
            × (r.0.object.seats ≡ seats)
            × (r.1 ≡ undealt_info r.0.object stint 0)) (IsLargeFault (IsLargeSize size) seats stint) }
    {
        if let Err(fault) = tested_large_limits(size, seats, stint) {
            return Err(fault);
        }
        let key = QueueLimits { size, seats, stint };
        let Ok((table, rest)) = empty_table(alloc, &key) else {
            return Err(LargeFault::Memory);
        };
        let cells = Cells::new(size);
        let undealt = UndealtSeats {
            rest,
            next: 0,
            seats,
            stint,
        };
        Ok((Queue { table, cells }, undealt))
    }

    /// The tally with one more seat, as `Queue::join` returns it. Both must belong to this queue, and the seat must be idle.
    pub fn join_sleeper(&self, tally: Tally<T>, seat: SleeperSeat<T>) -> Tally<T>
        requires object { (tally.object ≡ self.now.object) × (seat.seat.object ≡ self.now.object) }
        requires idle { state_of seat.seat ≡ Idle }
        ensures joined { IsJoined (queue_rules self.now.size) tally seat.seat result }
        ensures object { result.object ≡ self.now.object }
    {
        self.join(tally, seat.into_seat())
    }
}

impl<T: Drop> Tally<T> {
    /// The tally of one seat, which must be idle.
    pub fn of_sleeper(seat: SleeperSeat<T>) -> Tally<T>
        requires { state_of seat.seat ≡ Idle }
        ensures tally { result ≡ tally_of seat.seat }
        ensures lawful { IsQueueHistory (size_of result.object) result.seen }
        ensures named { AreNamed (queue_rules (size_of result.object)) result.object.seats result.seen }
    {
        Tally::of(seat.into_seat())
    }
}
