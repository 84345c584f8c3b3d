//! A channel and one of its seats as one value, whose calls have no preconditions.

ghost use Rattle.std.specs.Prelude.{◌≡◌, ◌↔◌, pos, ◌≤ℤ◌, IfOk, IsOk, IsTrue, MatchResult};
ghost use Rattle.fak_model.specs.Queue.{Has, lower_count};
ghost use Rattle.fak_model.specs.declared.queue.Kind.TheVariants.{Close};
ghost use Rattle.fak_channel.specs.Channels.{ClosesAs, IsLength, OnlyLooks, Receives, RefusesReceive};
ghost use Rattle.fak_channel.specs.Channels.{RefusesReceiveUntil, RefusesSend, RefusesSendUntil, RefusesTryReceive};
ghost use Rattle.fak_channel.specs.Channels.{RefusesTrySend, Sends, StaysAwake};
ghost use Rattle.fak_channel.specs.Standings.{IsSeatOf};

use crate::channel::Channel;
use crate::fault::{ChannelWorn, ReceiveFault, SendFault};
use crate::seat::ChannelSeat;
use std::fmt;
use std::sync::Wait;
use std::time::{Clock, Instant};

/// A channel with one of its seats, by which one thread at a time sends and receives. The type guarantees that the seat
/// belongs to the channel and that no call of it is open, so the calls of an end require nothing. Their contracts are
/// about the seat, before and after.
#[derive(Drop)]
pub struct End<'c, T> {
    /// The channel.
    pub channel: &'c Channel<T>,
    /// The seat, which belongs to this channel, and of which no call is open.
    pub seat: ChannelSeat<T>,
    pub ghost of_channel: { ∥ IsSeatOf channel.now seat ∥₁ },
}

impl<'c, T: Drop> End<'c, T> {
    /// The end of this channel with this seat.
    pub fn new(channel: &'c Channel<T>, seat: ChannelSeat<T>) -> End<'c, T>
        requires { IsSeatOf channel.now seat }
        ensures channel { result.channel.now ≡ channel.now }
        ensures seat { result.seat ≡ seat }
    {
        End { channel, seat }
    }

    /// Sends the item. The thread sleeps while the channel is full.
    ///
    /// # Errors
    ///
    /// `Worn` or `Closed`, in this order; the item comes back.
    pub fn send<R: Wait>(&mut self, rt: &R, item: T) -> Result<(), SendFault<T>>
        ensures channel { self.new.channel ≡ self.old.channel }
        ensures call { MatchResult result (λ _. Sends self.old.channel.now.queue.size item self.old.seat self.new.seat)
            (RefusesSend self.old.channel.now.queue.size item self.old.seat self.new.seat) }
    {
        self.channel.send(rt, &mut self.seat, item)
    }

    /// Sends the item. The thread sleeps while the channel is full, until the deadline at most. A clock that cannot be read ends
    /// the wait.
    ///
    /// # Errors
    ///
    /// `Worn`, `Closed` or `TimedOut`; the item comes back.
    pub fn send_deadline<R: Wait + Clock>(
        &mut self,
        rt: &R,
        item: T,
        deadline: Instant,
    ) -> Result<(), SendFault<T>>
        ensures channel { self.new.channel ≡ self.old.channel }
        ensures call { MatchResult result (λ _. Sends self.old.channel.now.queue.size item self.old.seat self.new.seat)
            (RefusesSendUntil self.old.channel.now.queue.size item self.old.seat self.new.seat) }
    {
        self.channel
            .send_deadline(rt, &mut self.seat, item, deadline)
    }

    /// Sends the item if there is a free cell. The thread does not sleep.
    ///
    /// # Errors
    ///
    /// `Worn`, `Closed` or `Full`, in this order; the item comes back.
    pub fn try_send<R: Wait>(&mut self, rt: &R, item: T) -> Result<(), SendFault<T>>
        ensures channel { self.new.channel ≡ self.old.channel }
        ensures call { MatchResult result (λ _. Sends self.old.channel.now.queue.size item self.old.seat self.new.seat)
            (RefusesTrySend self.old.channel.now.queue.size item self.old.seat self.new.seat) }
        ensures awake { StaysAwake self.old.seat.queue self.new.seat.queue }
    {
        self.channel.try_send(rt, &mut self.seat, item)
    }

    /// Receives the oldest item. The thread sleeps while the channel is empty.
    ///
    /// # Errors
    ///
    /// `Worn`; `Closed` if the channel is closed and all its items were received.
    pub fn receive<R: Wait>(&mut self, rt: &R) -> Result<T, ReceiveFault>
        ensures channel { self.new.channel ≡ self.old.channel }
        ensures call { MatchResult result (λ x. Receives self.old.channel.now.queue.size x self.old.seat self.new.seat)
            (RefusesReceive self.old.channel.now.queue.size self.old.seat self.new.seat) }
    {
        self.channel.receive(rt, &mut self.seat)
    }

    /// Receives the oldest item. The thread sleeps while the channel is empty, until the deadline at most. A clock that cannot be
    /// read ends the wait.
    ///
    /// # Errors
    ///
    /// As `receive`, and `TimedOut`.
    pub fn receive_deadline<R: Wait + Clock>(
        &mut self,
        rt: &R,
        deadline: Instant,
    ) -> Result<T, ReceiveFault>
        ensures channel { self.new.channel ≡ self.old.channel }
        ensures call { MatchResult result (λ x. Receives self.old.channel.now.queue.size x self.old.seat self.new.seat)
            (RefusesReceiveUntil self.old.channel.now.queue.size self.old.seat self.new.seat) }
    {
        self.channel.receive_deadline(rt, &mut self.seat, deadline)
    }

    /// Receives the oldest item if there is one. The thread does not sleep.
    ///
    /// # Errors
    ///
    /// As `receive`, and `Empty`.
    pub fn try_receive<R: Wait>(&mut self, rt: &R) -> Result<T, ReceiveFault>
        ensures channel { self.new.channel ≡ self.old.channel }
        ensures call { MatchResult result (λ x. Receives self.old.channel.now.queue.size x self.old.seat self.new.seat)
            (RefusesTryReceive self.old.channel.now.queue.size self.old.seat self.new.seat) }
        ensures awake { StaysAwake self.old.seat.queue self.new.seat.queue }
    {
        self.channel.try_receive(rt, &mut self.seat)
    }

    /// Closes the channel: later sends are refused, and receivers get `Closed` once they have received what is left. Sleeping
    /// senders wake up, and sleeping receivers too once nothing is left. Returns whether the channel was open before.
    ///
    /// # Errors
    ///
    /// None: a close needs no ticket.
    pub fn close<R: Wait>(&mut self, rt: &R) -> Result<bool, ChannelWorn>
        ensures channel { self.new.channel ≡ self.old.channel }
        ensures call { IfOk result (λ was_open. ClosesAs self.old.channel.now.queue.size was_open self.old.seat self.new.seat) }
        ensures never_fails { IsOk result }
    {
        self.channel.close(rt, &mut self.seat)
    }

    /// The number of items in the channel that no receiver has claimed, at one moment.
    pub fn len(&mut self) -> u64
        ensures channel { self.new.channel ≡ self.old.channel }
        ensures looks { OnlyLooks self.old.channel.now.queue.size self.old.seat self.new.seat }
        ensures count { IsLength result self.new.seat }
    {
        self.channel.step_len(&mut self.seat)
    }

    /// Whether there is no such item, at one moment.
    pub fn is_empty(&mut self) -> bool
        ensures channel { self.new.channel ≡ self.old.channel }
        ensures looks { OnlyLooks self.old.channel.now.queue.size self.old.seat self.new.seat }
        ensures empty { IsTrue result ↔ (lower_count self.new.seat.queue.seat.seen ≤ℤ pos 0) }
    {
        self.channel.look_down(&mut self.seat) <= 0
    }

    /// Whether the channel is closed.
    pub fn is_closed(&mut self) -> bool
        ensures channel { self.new.channel ≡ self.old.channel }
        ensures looks { OnlyLooks self.old.channel.now.queue.size self.old.seat self.new.seat }
        ensures closed { IsTrue result ↔ Has Close self.new.seat.queue.seat.seen }
    {
        self.channel.step_is_closed(&mut self.seat)
    }

    /// The seat, which `Channel::tally` or `Channel::join` takes.
    pub fn into_seat(self) -> ChannelSeat<T>
        ensures of_channel { IsSeatOf self.entry.channel.now result }
        ensures seat { result ≡ self.entry.seat }
    {
        let End { channel: _, seat } = self;
        seat
    }
}

impl<'c, T> fmt::Debug for End<'c, T> {
    fn fmt<W: fmt::Write>(&self, f: &mut fmt::Formatter<W>) -> fmt::Result {
        f.debug_struct("End")
            .field("channel", self.channel)
            .field("seat", &self.seat)
            .finish()
    }
}
