//! The calls of an end of a channel. Each tests the state of the end, so none has a condition.

ghost use Rattle.std.specs.Prelude.{◌≡◌, ◌↔◌, IsTrue, MatchOption};
ghost use Rattle.fak_model.specs.declared.queue.Kind.TheVariants.{Close};
ghost use Rattle.fak_model.specs.Queue.{Has};
ghost use Rattle.fak_channel.specs.Channels.{IsLength, OnlyLooks};
ghost use Rattle.fak_channel.specs.Standings.{IsBetweenCalls};
ghost use Rattle.fak_handles.specs.channel.Calls.{AsksToClose, AsksToGiveUp, AsksToReceive, AsksToSend, AsksToStep, AsksToTryReceive, AsksToTrySend, HasNoCall, HasOpenCall, IsNotAsleep, SameChannel, size_at};

use crate::channel::seat::{ChannelDesk, Item};
use fak_channel::{ChannelState, ChannelStep, ChannelWorn, ReceiveFault, SendFault, Wish};

impl ChannelDesk {
    /// `Channel::begin_send`; `None` if a call is open.
    pub fn begin_send(&mut self, item: Item) -> Option<Result<(), SendFault<Item>>>
        ensures same { SameChannel self.old self.new }
        ensures call { MatchOption result (HasOpenCall self.old self.new) (λ r. AsksToSend item r self.old self.new) }
    {
        match self.seat.state() {
            ChannelState::Idle => Some(self.channel.begin_send(&mut self.seat, item)),
            ChannelState::Open | ChannelState::Sleeping => None,
        }
    }

    /// `Channel::begin_try_send`; `None` if a call is open.
    pub fn begin_try_send(&mut self, item: Item) -> Option<Result<(), SendFault<Item>>>
        ensures same { SameChannel self.old self.new }
        ensures call { MatchOption result (HasOpenCall self.old self.new) (λ r. AsksToTrySend item r self.old self.new) }
    {
        match self.seat.state() {
            ChannelState::Idle => Some(self.channel.begin_try_send(&mut self.seat, item)),
            ChannelState::Open | ChannelState::Sleeping => None,
        }
    }

    /// `Channel::begin_receive`; `None` if a call is open.
    pub fn begin_receive(&mut self) -> Option<Result<(), ReceiveFault>>
        ensures same { SameChannel self.old self.new }
        ensures call { MatchOption result (HasOpenCall self.old self.new) (λ r. AsksToReceive r self.old self.new) }
    {
        match self.seat.state() {
            ChannelState::Idle => Some(self.channel.begin_receive(&mut self.seat)),
            ChannelState::Open | ChannelState::Sleeping => None,
        }
    }

    /// `Channel::begin_try_receive`; `None` if a call is open.
    pub fn begin_try_receive(&mut self) -> Option<Result<(), ReceiveFault>>
        ensures same { SameChannel self.old self.new }
        ensures call { MatchOption result (HasOpenCall self.old self.new) (λ r. AsksToTryReceive r self.old self.new) }
    {
        match self.seat.state() {
            ChannelState::Idle => Some(self.channel.begin_try_receive(&mut self.seat)),
            ChannelState::Open | ChannelState::Sleeping => None,
        }
    }

    /// `Channel::begin_close`; `None` if a call is open.
    pub fn begin_close(&mut self) -> Option<Result<(), ChannelWorn>>
        ensures same { SameChannel self.old self.new }
        ensures call { MatchOption result (HasOpenCall self.old self.new) (λ r. AsksToClose r self.old self.new) }
    {
        match self.seat.state() {
            ChannelState::Idle => Some(self.channel.begin_close(&mut self.seat)),
            ChannelState::Open | ChannelState::Sleeping => None,
        }
    }

    /// `Channel::steps`; `None` if no call is open.
    pub fn steps(&mut self) -> Option<ChannelStep<Item>>
        ensures same { SameChannel self.old self.new }
        ensures call { MatchOption result (HasNoCall self.old self.new) (λ s. AsksToStep s self.old self.new) }
    {
        match self.seat.state() {
            ChannelState::Open | ChannelState::Sleeping => Some(self.channel.steps(&mut self.seat)),
            ChannelState::Idle => None,
        }
    }

    /// `Channel::give_up`; `None` if no call sleeps.
    pub fn give_up(&mut self) -> Option<Option<Wish<Item>>>
        ensures same { SameChannel self.old self.new }
        ensures call { MatchOption result (IsNotAsleep self.old self.new) (λ w. AsksToGiveUp w self.old self.new) }
    {
        match self.seat.state() {
            ChannelState::Sleeping => Some(self.channel.give_up(&mut self.seat)),
            ChannelState::Idle | ChannelState::Open => None,
        }
    }

    /// `Channel::step_len`.
    pub fn len(&mut self) -> u64
        ensures same { SameChannel self.old self.new }
        ensures looks { OnlyLooks (size_at self.old) self.old.seat self.new.seat }
        ensures count { IsLength result self.new.seat }
    {
        self.channel.step_len(&mut self.seat)
    }

    /// `Channel::step_is_closed`.
    pub fn is_closed(&mut self) -> bool
        ensures same { SameChannel self.old self.new }
        ensures looks { OnlyLooks (size_at self.old) self.old.seat self.new.seat }
        ensures closed { IsTrue result ↔ Has Close self.new.seat.queue.seat.seen }
    {
        self.channel.step_is_closed(&mut self.seat)
    }

    pub(crate) fn is_idle(&self) -> bool
        ensures { IsTrue result ↔ IsBetweenCalls self.now.seat }
    {
        match self.seat.state() {
            ChannelState::Idle => true,
            ChannelState::Open | ChannelState::Sleeping => false,
        }
    }
}
