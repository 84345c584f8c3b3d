//! The errors of calls on a channel.

use std::error::Error;
use std::fmt;

/// Why an item was not sent. The item comes back.
#[derive(Clone, Copy, Debug, PartialEq, Eq, Drop)]
pub enum SendFault<T> {
    /// The end's stint is used up.
    Worn {
        /// The item that was not sent.
        item: T,
    },
    /// The channel was closed.
    Closed {
        /// The item that was not sent.
        item: T,
    },
    /// The channel had no free cell.
    Full {
        /// The item that was not sent.
        item: T,
    },
    /// The deadline came before a free cell.
    TimedOut {
        /// The item that was not sent.
        item: T,
    },
}

/// Why no item was received.
#[derive(Clone, Copy, Debug, PartialEq, Eq, Drop)]
pub enum ReceiveFault {
    /// The end's stint is used up.
    Worn,
    /// The channel was closed, and all its items were received.
    Closed,
    /// The channel had no item.
    Empty,
    /// The deadline came before an item.
    TimedOut,
}

/// The end's stint is used up.
#[derive(Clone, Copy, Debug, PartialEq, Eq, Drop)]
pub struct ChannelWorn;

impl<T> SendFault<T> {
    ghost use Rattle.std.specs.Prelude.{◌≡◌};
    ghost use Rattle.fak_channel.specs.Faults.{item_in};

    /// The item that was not sent.
    pub fn into_item(self) -> T
        ensures { result ≡ item_in self }
    {
        match self {
            SendFault::Worn { item }
            | SendFault::Closed { item }
            | SendFault::Full { item }
            | SendFault::TimedOut { item } => item,
        }
    }
}

impl<T> fmt::Display for SendFault<T> {
    fn fmt<W: fmt::Write>(&self, f: &mut fmt::Formatter<W>) -> fmt::Result {
        f.write_str(match self {
            SendFault::Worn { item: _ } => "the stint is used up",
            SendFault::Closed { item: _ } => "the channel is closed",
            SendFault::Full { item: _ } => "the channel is full",
            SendFault::TimedOut { item: _ } => "the channel was full until the deadline",
        })
    }
}

impl fmt::Display for ReceiveFault {
    fn fmt<W: fmt::Write>(&self, f: &mut fmt::Formatter<W>) -> fmt::Result {
        f.write_str(match self {
            ReceiveFault::Worn => "the stint is used up",
            ReceiveFault::Closed => "the channel is closed, and has no item left",
            ReceiveFault::Empty => "the channel is empty",
            ReceiveFault::TimedOut => "the channel was empty until the deadline",
        })
    }
}

impl Error for ReceiveFault {}

impl fmt::Display for ChannelWorn {
    fn fmt<W: fmt::Write>(&self, f: &mut fmt::Formatter<W>) -> fmt::Result {
        f.write_str("the stint is used up")
    }
}

impl Error for ChannelWorn {}
