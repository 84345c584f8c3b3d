//! A seat of a queue that can sleep, as an end of a channel.

ghost use Rattle.std.specs.Prelude.{◌≡◌, ◌+◌, ◌<◌, ◌≤◌};
ghost use Rattle.fak_model.specs.Limits.{large_seats};
ghost use Rattle.fak_queue.specs.Queues.{IsState, drawn_by, state_of};

use crate::parts::SeatParts;
use crate::seat::Seat;
use crate::state::SeatState;
use std::fmt;
use std::marker::Model;

/// A seat of a queue that can sleep until another seat wakes it: the end of a channel whose sleepers are bits in the queue's
/// table. Contracts see the seat, and its notes of the steps on the bits. Both together tell its account: the looks for
/// sleepers that it owes, and how far it is on its way to sleep.
#[derive(Drop)]
pub struct SleeperSeat<T> {
    pub(crate) parts: SeatParts<T>,
}

impl<T> Model for SleeperSeat<T> {
    ghost use Rattle.fak_queue.specs.SleeperSeats.{KnowsNotes, SleeperInfo, sleeper_info};

    ghost Value = { SleeperInfo T };

    ghost view = { λ s. sleeper_info s.parts };

    ghost invariant = { λ s. KnowsNotes s.parts };
}

impl<T> SleeperSeat<T> {
    /// The state of the seat between two calls on the queue.
    pub fn state(&self) -> SeatState
        ensures value { result ≡ state_of self.now.seat }
        ensures read_off_seen { IsState self.now.seat result }
    {
        self.parts.state()
    }

    /// How many tickets are left of the stint.
    pub fn left(&self) -> u64
        ensures { result + drawn_by self.now.seat ≡ self.now.seat.stint }
    {
        self.parts.left()
    }

    /// The number of the seat among those of its queue, from 0.
    pub fn number(&self) -> u64
        ensures value { result ≡ self.now.seat.name }
        ensures below { result < self.now.seat.object.seats }
        ensures few { self.now.seat.object.seats ≤ large_seats }
    {
        self.parts.name()
    }

    /// The number of seats of its queue, at most `LARGE_SEATS`. 64 of them share a word of bits.
    pub fn seats(&self) -> u64
        ensures value { result ≡ self.now.seat.object.seats }
        ensures few { result ≤ large_seats }
    {
        self.parts.seats()
    }

    /// Sets whether `insert` and `delete` begin with a pause, as `Seat::set_pauses_in_calls` does.
    pub fn set_pauses_in_calls(&mut self, pauses: bool)
        ensures { self.new ≡ self.old }
    {
        self.parts.set_pauses_in_calls(pauses);
    }

    /// The same seat without its notes. It can no longer sleep.
    pub fn into_seat(self) -> Seat<T>
        ensures { result ≡ self.seat }
    {
        let SleeperSeat { parts } = self;
        Seat { parts }
    }
}

impl<T> fmt::Debug for SleeperSeat<T> {
    fn fmt<W: fmt::Write>(&self, f: &mut fmt::Formatter<W>) -> fmt::Result {
        f.debug_struct("SleeperSeat")
            .field("name", &self.number())
            .field("state", &self.state())
            .field("left", &self.left())
            .finish_non_exhaustive()
    }
}
