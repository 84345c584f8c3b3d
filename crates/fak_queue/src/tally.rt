//! Seats of a queue that were joined.

ghost use Rattle.std.specs.Prelude.{◌≡◌, ◌↔◌, IsTrue};
ghost use Rattle.fak_model.specs.Histories.{AreNamed, IsAtRest};
ghost use Rattle.fak_model.specs.Queue.{IsQueueHistory, queue_rules};
ghost use Rattle.fak_model.specs.Seats.{IsWhole, mine};
ghost use Rattle.fak_model.specs.Calls.{tally_of};
ghost use Rattle.fak_queue.specs.declared.state.SeatState.TheVariants.{Idle};
ghost use Rattle.fak_queue.specs.Queues.{seat_of, size_of, state_of};

use crate::parts::SeatParts;
use crate::seat::Seat;
use crate::steps::QueueToken;
use fak_model::NameSet;
use std::fmt;
use std::marker::Model;

/// Seats of a queue that were joined and no longer call. Contracts see its object, the names of the seats and the longest
/// history that one of them has seen.
#[derive(Drop)]
pub struct Tally<T> {
    pub(crate) token: QueueToken<T>,
    pub(crate) names: NameSet,
    pub(crate) seats: u64,
}

impl<T> Model for Tally<T> {
    ghost use Rattle.std.specs.Prelude.{reverse};
    ghost use Rattle.fak_model.specs.declared.queue.Mark.{Mark};
    ghost use Rattle.fak_model.specs.Calls.{TallyInfo, tally_info, object_id};
    ghost use Rattle.fak_queue.specs.Queues.{IsQueueTally};

    ghost Value = { TallyInfo (Mark T) };

    ghost view = { λ t.
        tally_info (object_id t.token.table_id t.seats) t.token.me.0.names (reverse t.token.me.0.seen) };

    ghost invariant = { λ t. IsQueueTally t.token.table_id.slots t.seats t.names t.token.me };
}

impl<T: Drop> Tally<T> {
    /// The tally of one seat.
    pub fn of(seat: Seat<T>) -> Tally<T>
        requires { state_of seat ≡ Idle }
        ensures tally { result ≡ tally_of seat }
        ensures lawful { IsQueueHistory (size_of result.object) result.seen }
        ensures named { AreNamed (queue_rules (size_of result.object)) result.object.seats result.seen }
    {
        let Seat { parts } = seat;
        let SeatParts {
            token,
            name,
            seats,
            left: _,
            phase: _,
            counts: _,
        } = parts;
        Tally {
            token,
            names: NameSet::of(name),
            seats,
        }
    }

    /// Whether all seats of the queue are in it. Then each mark of its history belongs to one of them, and no call is cut
    /// short.
    pub fn is_whole(&self) -> bool
        ensures whole { IsTrue result ↔ IsWhole self.now.object.seats self.now.names }
        ensures mine { IsTrue result → mine seat_of self.now.names self.now.seen ≡ self.now.seen }
        ensures lawful { IsQueueHistory (size_of self.now.object) self.now.seen }
        ensures named { AreNamed (queue_rules (size_of self.now.object)) self.now.object.seats self.now.seen }
        ensures rest { IsTrue result → IsAtRest (queue_rules (size_of self.now.object)) self.now.seen }
    {
        self.names.has_all(self.seats)
    }
}

impl<T: Drop> fmt::Debug for Tally<T> {
    fn fmt<W: fmt::Write>(&self, f: &mut fmt::Formatter<W>) -> fmt::Result {
        f.debug_struct("Tally")
            .field("seats", &self.seats)
            .field("is_whole", &self.is_whole())
            .finish_non_exhaustive()
    }
}
