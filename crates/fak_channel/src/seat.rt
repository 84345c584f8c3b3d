//! A seat of a channel.

ghost use Rattle.std.specs.Prelude.{◌≡◌, ◌+◌};
ghost use Rattle.fak_queue.specs.Queues.{drawn_by};
ghost use Rattle.fak_channel.specs.Standings.{IsBetweenCalls, IsSeatOf, IsStepSeatOf, call_state};

use crate::channel::Channel;
use crate::standing::{CallStanding, ChannelState};
use fak_queue::SleeperSeat;
use std::fmt;

/// The right to send to a channel, to receive from it and to close it. Between the steps of a call it keeps the item that is to
/// be sent. Contracts see its seat of the queue with its notes, and how far its call has come.
#[derive(Drop)]
pub struct ChannelSeat<T> {
    pub(crate) queue: SleeperSeat<T>,
    pub(crate) standing: CallStanding<T>,
}

/// A seat whose calls go by steps: any seat of a channel is one.
pub type ChannelStepSeat<T> = ChannelSeat<T>;

impl<T: Drop> Channel<T> {
    /// A seat whose calls go by steps from now on: the same seat. It must belong to this channel and be between two calls.
    pub fn step_seat(&self, seat: ChannelSeat<T>) -> ChannelSeat<T>
        requires { IsSeatOf self.now seat }
        ensures seat { result ≡ seat }
        ensures idle { IsBetweenCalls result }
        ensures stands { IsStepSeatOf self.now result }
    {
        seat
    }

    /// The seat as it was before `step_seat`: the same seat. It must belong to this channel and be between two calls.
    pub fn into_seat(&self, seat: ChannelSeat<T>) -> ChannelSeat<T>
        requires stands { IsStepSeatOf self.now seat }
        requires idle { IsBetweenCalls seat }
        ensures seat { result ≡ seat }
        ensures of { IsSeatOf self.now result }
    {
        seat
    }
}

impl<T> ChannelSeat<T> {
    /// Whether a call is open, and whether it sleeps.
    pub fn state(&self) -> ChannelState
        ensures { result ≡ call_state self.now.standing.next }
    {
        self.standing.state()
    }

    /// The number of the end. The ends of a channel are numbered from 0, in the order in which they were opened.
    pub fn number(&self) -> u64
        ensures { result ≡ self.now.queue.seat.name }
    {
        self.queue.number()
    }

    /// How many tickets are left of the stint. Each send or receive that is granted takes one. At 0 no call begins, except a
    /// close.
    pub fn left(&self) -> u64
        ensures { result + drawn_by self.now.queue.seat ≡ self.now.queue.seat.stint }
    {
        self.queue.left()
    }
}

impl<T> fmt::Debug for ChannelSeat<T> {
    fn fmt<W: fmt::Write>(&self, f: &mut fmt::Formatter<W>) -> fmt::Result {
        f.debug_struct("ChannelSeat")
            .field("queue", &self.queue)
            .field("state", &self.standing.state())
            .finish_non_exhaustive()
    }
}
