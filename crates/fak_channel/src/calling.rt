//! The calls of an end, each of which begins and takes its steps until it is done.

ghost use Rattle.std.specs.Prelude.{IfOk, IsOk, MatchResult};
ghost use Rattle.fak_channel.specs.Channels.{ClosesAs, Receives, RefusesReceive, RefusesReceiveUntil, RefusesSend};
ghost use Rattle.fak_channel.specs.Channels.{RefusesSendUntil, RefusesTryReceive, RefusesTrySend, Sends, StaysAwake};
ghost use Rattle.fak_channel.specs.Standings.{IsSeatOf};

use crate::channel::Channel;
use crate::fault::{ChannelWorn, ReceiveFault, SendFault};
use crate::seat::ChannelSeat;
use crate::standing::{Outcome, Wish};
use std::sync::Wait;
use std::time::{Clock, Instant};

impl<T: Drop> Channel<T> {
    /// Sends the item. Sleeps while the channel is full.
    pub(crate) fn send<R: Wait>(
        &self,
        rt: &R,
        seat: &mut ChannelSeat<T>,
        item: T,
    ) -> Result<(), SendFault<T>>
        requires { IsSeatOf self.now seat.old }
        ensures seat { IsSeatOf self.now seat.new }
        ensures call { MatchResult result (λ _. Sends self.now.queue.size item seat.old seat.new)
            (RefusesSend self.now.queue.size item seat.old seat.new) }
    {
        if let Err(fault) = self.begin_sending(seat, false, item) {
            return Err(fault);
        }
        match self.finish(rt, seat) {
            Outcome::Sent => Ok(()),
            Outcome::Refused(item) => Err(SendFault::Closed { item }),
            _ => unreachable!(),
        }
    }

    /// Sends the item. Sleeps while the channel is full, until the deadline at most.
    pub(crate) fn send_deadline<R: Wait + Clock>(
        &self,
        rt: &R,
        seat: &mut ChannelSeat<T>,
        item: T,
        deadline: Instant,
    ) -> Result<(), SendFault<T>>
        requires { IsSeatOf self.now seat.old }
        ensures seat { IsSeatOf self.now seat.new }
        ensures call { MatchResult result (λ _. Sends self.now.queue.size item seat.old seat.new)
            (RefusesSendUntil self.now.queue.size item seat.old seat.new) }
    {
        if let Err(fault) = self.begin_sending(seat, false, item) {
            return Err(fault);
        }
        match self.finish_until(rt, seat, deadline) {
            Ok(Outcome::Sent) => Ok(()),
            Ok(Outcome::Refused(item)) => Err(SendFault::Closed { item }),
            Err(Wish::Send(item)) => Err(SendFault::TimedOut { item }),
            _ => unreachable!(),
        }
    }

    /// Sends the item if there is a free cell, and does not sleep.
    pub(crate) fn try_send<R: Wait>(
        &self,
        rt: &R,
        seat: &mut ChannelSeat<T>,
        item: T,
    ) -> Result<(), SendFault<T>>
        requires { IsSeatOf self.now seat.old }
        ensures seat { IsSeatOf self.now seat.new }
        ensures call { MatchResult result (λ _. Sends self.now.queue.size item seat.old seat.new)
            (RefusesTrySend self.now.queue.size item seat.old seat.new) }
        ensures awake { StaysAwake seat.old.queue seat.new.queue }
    {
        if let Err(fault) = self.begin_sending(seat, true, item) {
            return Err(fault);
        }
        match self.finish_try(rt, seat) {
            Ok(Outcome::Sent) => Ok(()),
            Ok(Outcome::Refused(item)) => Err(SendFault::Closed { item }),
            Err(Wish::Send(item)) => Err(SendFault::Full { item }),
            _ => unreachable!(),
        }
    }

    /// Receives the oldest item. Sleeps while the channel is empty.
    pub(crate) fn receive<R: Wait>(
        &self,
        rt: &R,
        seat: &mut ChannelSeat<T>,
    ) -> Result<T, ReceiveFault>
        requires { IsSeatOf self.now seat.old }
        ensures seat { IsSeatOf self.now seat.new }
        ensures call { MatchResult result (λ x. Receives self.now.queue.size x seat.old seat.new)
            (RefusesReceive self.now.queue.size seat.old seat.new) }
    {
        if let Err(fault) = self.begin_receiving(seat, false) {
            return Err(fault);
        }
        match self.finish(rt, seat) {
            Outcome::Received(item) => Ok(item),
            Outcome::Drained => Err(ReceiveFault::Closed),
            _ => unreachable!(),
        }
    }

    /// Receives the oldest item. Sleeps while the channel is empty, until the deadline at most.
    pub(crate) fn receive_deadline<R: Wait + Clock>(
        &self,
        rt: &R,
        seat: &mut ChannelSeat<T>,
        deadline: Instant,
    ) -> Result<T, ReceiveFault>
        requires { IsSeatOf self.now seat.old }
        ensures seat { IsSeatOf self.now seat.new }
        ensures call { MatchResult result (λ x. Receives self.now.queue.size x seat.old seat.new)
            (RefusesReceiveUntil self.now.queue.size seat.old seat.new) }
    {
        if let Err(fault) = self.begin_receiving(seat, false) {
            return Err(fault);
        }
        match self.finish_until(rt, seat, deadline) {
            Ok(Outcome::Received(item)) => Ok(item),
            Ok(Outcome::Drained) => Err(ReceiveFault::Closed),
            Err(Wish::Receive) => Err(ReceiveFault::TimedOut),
            _ => unreachable!(),
        }
    }

    /// Receives the oldest item if there is one, and does not sleep.
    pub(crate) fn try_receive<R: Wait>(
        &self,
        rt: &R,
        seat: &mut ChannelSeat<T>,
    ) -> Result<T, ReceiveFault>
        requires { IsSeatOf self.now seat.old }
        ensures seat { IsSeatOf self.now seat.new }
        ensures call { MatchResult result (λ x. Receives self.now.queue.size x seat.old seat.new)
            (RefusesTryReceive self.now.queue.size seat.old seat.new) }
        ensures awake { StaysAwake seat.old.queue seat.new.queue }
    {
        if let Err(fault) = self.begin_receiving(seat, true) {
            return Err(fault);
        }
        match self.finish_try(rt, seat) {
            Ok(Outcome::Received(item)) => Ok(item),
            Ok(Outcome::Drained) => Err(ReceiveFault::Closed),
            Err(Wish::Receive) => Err(ReceiveFault::Empty),
            _ => unreachable!(),
        }
    }

    /// Shuts the queue, and wakes the sleepers that this concerns. Returns whether it was open.
    pub(crate) fn close<R: Wait>(
        &self,
        rt: &R,
        seat: &mut ChannelSeat<T>,
    ) -> Result<bool, ChannelWorn>
        requires { IsSeatOf self.now seat.old }
        ensures seat { IsSeatOf self.now seat.new }
        ensures call { IfOk result (λ was_open. ClosesAs self.now.queue.size was_open seat.old seat.new) }
        ensures never_fails { IsOk result }
    {
        if let Err(fault) = self.begin_close(seat) {
            return Err(fault);
        }
        match self.finish(rt, seat) {
            Outcome::Closed => Ok(true),
            Outcome::WasClosed => Ok(false),
            _ => unreachable!(),
        }
    }
}
