//! The errors of a lender's tries.

use crate::fault::{ReceiveFault, SendFault};
use std::error::Error;
use std::fmt;

/// Why a lender's try sent no item. The item comes back.
#[derive(Clone, Copy, Debug, PartialEq, Eq, Drop)]
pub enum LenderSendFault<T> {
    /// All ends were lent.
    Busy {
        /// The item that was not sent.
        item: T,
    },
    /// The borrowed end refused the item.
    Refused {
        /// The fault of its call.
        fault: SendFault<T>,
    },
}

/// Why a lender's try received no item.
#[derive(Clone, Copy, Debug, PartialEq, Eq, Drop)]
pub enum LenderReceiveFault {
    /// All ends were lent.
    Busy,
    /// The borrowed end received no item.
    Refused {
        /// The fault of its call.
        fault: ReceiveFault,
    },
}

impl<T> LenderSendFault<T> {
    ghost use Rattle.std.specs.Prelude.{◌≡◌};
    ghost use Rattle.fak_channel.specs.Faults.{lender_item_in};

    /// The item that was not sent.
    pub fn into_item(self) -> T
        ensures { result ≡ lender_item_in self }
    {
        match self {
            LenderSendFault::Busy { item } => item,
            LenderSendFault::Refused { fault } => fault.into_item(),
        }
    }
}

impl<T> fmt::Display for LenderSendFault<T> {
    fn fmt<W: fmt::Write>(&self, f: &mut fmt::Formatter<W>) -> fmt::Result {
        match self {
            LenderSendFault::Busy { item: _ } => f.write_str("all ends are lent"),
            LenderSendFault::Refused { fault } => fault.fmt(f),
        }
    }
}

impl fmt::Display for LenderReceiveFault {
    fn fmt<W: fmt::Write>(&self, f: &mut fmt::Formatter<W>) -> fmt::Result {
        match self {
            LenderReceiveFault::Busy => f.write_str("all ends are lent"),
            LenderReceiveFault::Refused { fault } => fault.fmt(f),
        }
    }
}

impl Error for LenderReceiveFault {}
