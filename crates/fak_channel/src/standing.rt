//! How far the open call of a seat has come, and the results of its steps.

use std::mem;

/// What a call wants that may wait.
#[derive(Clone, Copy, Debug, PartialEq, Eq, Drop)]
pub enum Wish<T> {
    /// To send this item.
    Send(T),
    /// To receive an item.
    Receive,
}

/// How a call by steps ended.
#[derive(Clone, Copy, Debug, PartialEq, Eq, Drop)]
pub enum Outcome<T> {
    /// The item was sent.
    Sent,
    /// The channel was closed, and the item comes back.
    Refused(T),
    /// This item was received.
    Received(T),
    /// The channel was closed, and all its items were received.
    Drained,
    /// The stint was used up in the middle of a call. No call ends so: a call that has begun has a ticket.
    Worn,
    /// The channel was open, and now it is closed.
    Closed,
    /// The channel had been closed before.
    WasClosed,
}

/// The result of a step of a call.
#[derive(Clone, Copy, Debug, PartialEq, Eq, Drop)]
pub enum ChannelStep<T> {
    /// The call goes on with its next step.
    GoesOn,
    /// The call waits for a step of another end's call that has begun.
    NotYet,
    /// The call sleeps until another end wakes it. A try would have to sleep, and is to be given up.
    Sleeps,
    /// The caller is to wake the thread of the end with this number now. Then the call goes on.
    Wakes(u64),
    /// The call is done.
    Ends(Outcome<T>),
}

/// Whether an end has an open call by steps.
#[derive(Clone, Copy, Debug, PartialEq, Eq, Drop)]
pub enum ChannelState {
    /// No call is open.
    Idle,
    /// A call is open.
    Open,
    /// A call is open and sleeps, or it is a try that would have to sleep.
    Sleeping,
}

/// A look for a sleeper on one side of the channel: whether the end owes one, and how far it has come. 64 ends share a word
/// of bits.
#[derive(Clone, Copy, Drop)]
pub struct Looks {
    /// Whether a look is owed.
    pub(crate) is_owed: bool,
    /// The end from which on the next load looks for a set bit. Between two looks it is the one behind the end that was woken
    /// last, so that no sleeper is passed over again and again.
    pub(crate) from: u64,
    /// How many words are still to be loaded.
    pub(crate) left: u64,
    /// The end whose bit a load found set: it is to be cleared next.
    pub(crate) found: Option<u64>,
}

/// What a call does next, once it owes nothing.
#[derive(Drop)]
pub enum Next<T> {
    /// No call is open.
    Idle,
    /// The item, or room for it, is to be claimed in the queue.
    Claiming(Wish<T>),
    /// Room was claimed: the item is to be moved into its cell.
    Inserting,
    /// An item was claimed: it is to be moved out of its cell.
    Deleting,
    /// No item was found: a check whether the channel is drained.
    Checking,
    /// There was no room, or no item: the own bit is to be set.
    Registering(Wish<T>),
    /// The own bit is set: the second test.
    Testing(Wish<T>),
    /// The second test found no item: the rest of it, whether the channel is drained.
    TestingDrained,
    /// The second test found what the call waits for: the own bit is to be cleared.
    TakingBack(Wish<T>),
    /// The second test found nothing: a look at the own bit.
    Sleeping(Wish<T>),
    /// A try found no room, or no item.
    Refusing(Wish<T>),
    /// The same, and its caller has been told.
    Refused(Wish<T>),
    /// The queue is to be shut.
    Shutting,
    /// All is done; the last step only returns how the call ended.
    Ending(Outcome<T>),
}

/// How far a call has come: what the end owes to others, which it does first, and what comes next.
#[derive(Drop)]
pub struct CallStanding<T> {
    /// The look for a sender that sleeps.
    pub(crate) senders: Looks,
    /// The look for a receiver that sleeps.
    pub(crate) receivers: Looks,
    /// Whether a check is owed whether the channel is drained.
    pub(crate) checks: bool,
    /// Whether the call is a try, which never sleeps.
    pub(crate) tries: bool,
    /// What comes next.
    pub(crate) next: Next<T>,
}

impl<T> CallStanding<T> {
    ghost use Rattle.std.specs.Prelude.{◌≡◌};
    ghost use Rattle.fak_channel.specs.Standings.{call_state, fresh_standing};

    /// That of a seat that has begun no call.
    pub(crate) fn new() -> CallStanding<T>
        ensures { result ≡ fresh_standing }
    {
        CallStanding {
            senders: Looks::new(),
            receivers: Looks::new(),
            checks: false,
            tries: false,
            next: Next::Idle,
        }
    }

    pub(crate) fn state(&self) -> ChannelState
        ensures { result ≡ call_state self.now.next }
    {
        match self.next {
            Next::Idle => ChannelState::Idle,
            Next::Sleeping(_) | Next::Refused(_) => ChannelState::Sleeping,
            Next::Claiming(_)
            | Next::Inserting
            | Next::Deleting
            | Next::Checking
            | Next::Registering(_)
            | Next::Testing(_)
            | Next::TestingDrained
            | Next::TakingBack(_)
            | Next::Refusing(_)
            | Next::Shutting
            | Next::Ending(_) => ChannelState::Open,
        }
    }
}

impl<T: Drop> CallStanding<T> {
    ghost use Rattle.std.specs.Prelude.{◌≡◌, MatchBool};
    ghost use Rattle.fak_channel.specs.Moves.{IsDone, with_next};

    /// Whether nothing is owed, and only the outcome of the call is left to return.
    pub(crate) fn is_done(&self) -> bool
        ensures { MatchBool result (IsDone self.now) (¬ IsDone self.now) }
    {
        if self.senders.is_owed || self.receivers.is_owed || self.checks {
            return false;
        }
        match self.next {
            Next::Ending(_) => true,
            _ => false,
        }
    }

    /// Sets what comes next. As a function of its own it would copy the item by SSE registers, which no step from C may write.
    #[inline(always)]
    pub(crate) fn set_next(&mut self, next: Next<T>)
        ensures { self.new ≡ with_next next self.old }
    {
        drop(mem::replace(&mut self.next, next));
    }
}
