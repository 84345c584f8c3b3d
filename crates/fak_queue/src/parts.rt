//! The parts of a seat, which `Seat` and `SleeperSeat` share.

ghost use Rattle.std.specs.Prelude.{◌≡◌, ◌+◌, ◌<◌, ◌≤◌};
ghost use Rattle.fak_model.specs.Limits.{large_seats};
ghost use Rattle.fak_queue.specs.Queues.{IsState, drawn_by, state_of};

use crate::contention::SharedCounts;
use crate::state::SeatState;
use crate::steps::QueueToken;
use fak_core::Phase;
use std::marker::Model;

/// What a seat consists of. Contracts see the seat as callers do, and what it has noted of its steps on the bits of sleepers.
#[derive(Drop)]
pub struct SeatParts<T> {
    pub(crate) token: QueueToken<T>,
    pub(crate) name: u64,
    pub(crate) seats: u64,
    pub(crate) left: u64,
    pub(crate) phase: Phase<T>,
    pub(crate) counts: SharedCounts,
}

impl<T> Model for SeatParts<T> {
    ghost use Rattle.fak_model.specs.Calls.{object_id};
    ghost use Rattle.fak_queue.specs.Queues.{IsQueueSeat};
    ghost use Rattle.fak_queue.specs.SeatParts.{PartsInfo, queue_parts};

    ghost Value = { PartsInfo T };

    ghost view = { λ s. queue_parts (object_id s.token.table_id s.seats) s.name s.left s.token.me };

    ghost invariant = { λ s. IsQueueSeat s.token.table_id.slots s.seats s.name s.phase s.left s.token.me };
}

impl<T> SeatParts<T> {
    /// `Seat::state`.
    pub(crate) fn state(&self) -> SeatState
        ensures value { result ≡ state_of self.now.seat }
        ensures read_off_seen { IsState self.now.seat result }
    {
        match self.phase {
            Phase::Idle => SeatState::Idle,
            Phase::TurnIn(ticket, _) => SeatState::Inserting(ticket),
            Phase::TurnOut(ticket) => SeatState::Deleting(ticket),
            _ => unreachable!(),
        }
    }

    /// `Seat::left`.
    pub(crate) fn left(&self) -> u64
        ensures { result + drawn_by self.now.seat ≡ self.now.seat.stint }
    {
        self.left
    }

    /// The name of the seat.
    pub(crate) fn name(&self) -> u64
        ensures value { result ≡ self.now.seat.name }
        ensures below { result < self.now.seat.object.seats }
        ensures few { self.now.seat.object.seats ≤ large_seats }
    {
        self.name
    }

    /// The number of seats of its queue.
    pub(crate) fn seats(&self) -> u64
        ensures value { result ≡ self.now.seat.object.seats }
        ensures few { result ≤ large_seats }
    {
        self.seats
    }

    /// `Seat::set_pauses_in_calls`.
    pub(crate) fn set_pauses_in_calls(&mut self, pauses: bool)
        ensures { self.new ≡ self.old }
    {
        self.counts.pauses_in_calls = pauses;
    }
}
