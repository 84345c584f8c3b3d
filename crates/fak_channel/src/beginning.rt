//! How calls by steps begin. None of these calls waits.

ghost use Rattle.std.specs.Prelude.{◌≡◌, ◌<ℤ◌, pos, IfOk, IsOk, MatchResult, false};
ghost use Rattle.fak_model.specs.Queue.{upper_count};
ghost use Rattle.fak_channel.specs.Channels.{RefusesReceive, RefusesSend};
ghost use Rattle.fak_channel.specs.ChannelSteps.{BeginsAfterLook, BeginsAs, RefusesBeginTryReceive, RefusesBeginTrySend};
ghost use Rattle.fak_channel.specs.ChannelSteps.Asked.{Closing, Receiving, Sending};
ghost use Rattle.fak_channel.specs.Standings.{IsBetweenCalls, IsStepSeatOf};

use crate::channel::Channel;
use crate::fault::{ChannelWorn, ReceiveFault, SendFault};
use crate::seat::ChannelSeat;
use crate::standing::{Next, Wish};

impl<T: Drop> Channel<T> {
    /// Begins to send the item, by a try or not.
    pub(crate) fn begin_sending(
        &self,
        seat: &mut ChannelSeat<T>,
        is_try: bool,
        item: T,
    ) -> Result<(), SendFault<T>>
        requires stands { IsStepSeatOf self.now seat.old }
        requires idle { IsBetweenCalls seat.old }
        ensures stands { IsStepSeatOf self.now seat.new }
        ensures same { seat.new.queue ≡ seat.old.queue }
        ensures call { MatchResult result (λ _. BeginsAs self.now.queue.size is_try (Sending item) seat.old seat.new)
            (λ fault. RefusesSend self.now.queue.size item seat.old seat.new fault × IsBetweenCalls seat.new) }
    {
        if seat.queue.left() == 0 {
            return Err(SendFault::Worn { item });
        }
        seat.standing.tries = is_try;
        seat.standing.set_next(Next::Claiming(Wish::Send(item)));
        Ok(())
    }

    /// Begins to receive an item, by a try or not.
    pub(crate) fn begin_receiving(
        &self,
        seat: &mut ChannelSeat<T>,
        is_try: bool,
    ) -> Result<(), ReceiveFault>
        requires stands { IsStepSeatOf self.now seat.old }
        requires idle { IsBetweenCalls seat.old }
        ensures stands { IsStepSeatOf self.now seat.new }
        ensures same { seat.new.queue ≡ seat.old.queue }
        ensures call { MatchResult result (λ _. BeginsAs self.now.queue.size is_try Receiving seat.old seat.new)
            (λ fault. RefusesReceive self.now.queue.size seat.old seat.new fault × IsBetweenCalls seat.new) }
    {
        if seat.queue.left() == 0 {
            return Err(ReceiveFault::Worn);
        }
        seat.standing.tries = is_try;
        seat.standing.set_next(Next::Claiming(Wish::Receive));
        Ok(())
    }

    /// Begins to send the item, which the seat keeps. The seat must belong to this channel and be between two calls.
    ///
    /// # Errors
    ///
    /// `Worn`; the item comes back.
    pub fn begin_send(&self, seat: &mut ChannelSeat<T>, item: T) -> Result<(), SendFault<T>>
        requires stands { IsStepSeatOf self.now seat.old }
        requires idle { IsBetweenCalls seat.old }
        ensures stands { IsStepSeatOf self.now seat.new }
        ensures same { seat.new.queue ≡ seat.old.queue }
        ensures call { MatchResult result (λ _. BeginsAs self.now.queue.size false (Sending item) seat.old seat.new)
            (λ fault. RefusesSend self.now.queue.size item seat.old seat.new fault × IsBetweenCalls seat.new) }
    {
        self.begin_sending(seat, false, item)
    }

    /// Begins to receive an item. The seat must belong to this channel and be between two calls.
    ///
    /// # Errors
    ///
    /// `Worn`.
    pub fn begin_receive(&self, seat: &mut ChannelSeat<T>) -> Result<(), ReceiveFault>
        requires stands { IsStepSeatOf self.now seat.old }
        requires idle { IsBetweenCalls seat.old }
        ensures stands { IsStepSeatOf self.now seat.new }
        ensures same { seat.new.queue ≡ seat.old.queue }
        ensures call { MatchResult result (λ _. BeginsAs self.now.queue.size false Receiving seat.old seat.new)
            (λ fault. RefusesReceive self.now.queue.size seat.old seat.new fault × IsBetweenCalls seat.new) }
    {
        self.begin_receiving(seat, false)
    }

    /// Begins to close the channel. The seat must belong to this channel and be between two calls.
    ///
    /// # Errors
    ///
    /// None: a close needs no ticket.
    pub fn begin_close(&self, seat: &mut ChannelSeat<T>) -> Result<(), ChannelWorn>
        requires stands { IsStepSeatOf self.now seat.old }
        requires idle { IsBetweenCalls seat.old }
        ensures stands { IsStepSeatOf self.now seat.new }
        ensures same { seat.new.queue ≡ seat.old.queue }
        ensures call { IfOk result (λ _. BeginsAs self.now.queue.size false Closing seat.old seat.new) }
        ensures never_fails { IsOk result }
    {
        seat.standing.tries = false;
        seat.standing.set_next(Next::Shutting);
        Ok(())
    }

    /// Looks whether there is a free cell. If there is, begins a try to send the item, which the seat keeps. A try never
    /// sleeps: as soon as a step returns `Sleeps`, give it up. The seat must belong to this channel and be between two calls.
    ///
    /// # Errors
    ///
    /// `Worn`, `Closed` or `Full`, in this order; the item comes back.
    pub fn begin_try_send(&self, seat: &mut ChannelSeat<T>, item: T) -> Result<(), SendFault<T>>
        requires stands { IsStepSeatOf self.now seat.old }
        requires idle { IsBetweenCalls seat.old }
        ensures stands { IsStepSeatOf self.now seat.new }
        ensures call { MatchResult result (λ _. BeginsAfterLook self.now.queue.size (Sending item) seat.old seat.new)
            (λ fault. RefusesBeginTrySend self.now.queue.size item seat.old seat.new fault × IsBetweenCalls seat.new) }
        ensures room { IfOk result (λ _. upper_count seat.new.queue.seat.seen <ℤ self.now.size) }
    {
        if seat.queue.left() == 0 {
            return Err(SendFault::Worn { item });
        }
        let in_use = self.look_up(seat);
        if in_use.is_shut {
            return Err(SendFault::Closed { item });
        }
        if in_use.count >= self.size {
            return Err(SendFault::Full { item });
        }
        seat.standing.tries = true;
        seat.standing.set_next(Next::Claiming(Wish::Send(item)));
        Ok(())
    }

    /// Looks whether there is an item. If there is, begins a try to receive one. A try never sleeps: as soon as a step returns
    /// `Sleeps`, give it up. The seat must belong to this channel and be between two calls.
    ///
    /// # Errors
    ///
    /// `Worn`; `Closed` if the channel is closed and has no item; `Empty`.
    pub fn begin_try_receive(&self, seat: &mut ChannelSeat<T>) -> Result<(), ReceiveFault>
        requires stands { IsStepSeatOf self.now seat.old }
        requires idle { IsBetweenCalls seat.old }
        ensures stands { IsStepSeatOf self.now seat.new }
        ensures call { MatchResult result (λ _. BeginsAfterLook self.now.queue.size Receiving seat.old seat.new)
            (λ fault. RefusesBeginTryReceive self.now.queue.size seat.old seat.new fault × IsBetweenCalls seat.new) }
        ensures stock { IfOk result (λ _. pos 0 <ℤ upper_count seat.new.queue.seat.seen) }
    {
        if seat.queue.left() == 0 {
            return Err(ReceiveFault::Worn);
        }
        let in_use = self.look_up(seat);
        if in_use.count <= 0 {
            return Err(if in_use.is_shut {
                ReceiveFault::Closed
            } else {
                ReceiveFault::Empty
            });
        }
        seat.standing.tries = true;
        seat.standing.set_next(Next::Claiming(Wish::Receive));
        Ok(())
    }
}
