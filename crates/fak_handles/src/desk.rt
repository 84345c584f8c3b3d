//! What a handle owns: a seat of one kind, with a share of its object.

use crate::bundle::seat::BundleDesk;
use crate::channel::seat::ChannelDesk;
use crate::credit::seat::CreditDesk;
use crate::files::seat::FileDesk;
use crate::queue::seat::QueueDesk;
use crate::room::seat::RoomDesk;
use crate::semaphore::seat::SemDesk;
use std::alloc::Global;

/// A seat of one kind, with a share of its object.
#[derive(Drop)]
pub enum Desk {
    Queue(QueueDesk),
    Semaphore(SemDesk),
    Room(RoomDesk),
    Credit(CreditDesk),
    Files(FileDesk),
    /// An end of a channel, which takes more room than any other seat, and so lies by itself.
    Channel(Box<ChannelDesk, Global>),
    /// A bundle of seats of a queue, which lies by itself too.
    Bundle(Box<BundleDesk, Global>),
}

impl Desk {
    ghost use Rattle.std.specs.Prelude.{◌↔◌, IsTrue};
    ghost use Rattle.fak_handles.specs.Kinds.{IsAtRest};

    /// Whether no call of the seat is open, and it holds nothing.
    pub fn is_at_rest(&self) -> bool
        ensures { IsTrue result ↔ IsAtRest self.now }
    {
        match self {
            Desk::Queue(desk) => desk.is_idle(),
            Desk::Semaphore(desk) => desk.is_idle(),
            Desk::Room(desk) => desk.holds_nothing(),
            Desk::Credit(_) => true,
            Desk::Files(desk) => desk.holds_nothing(),
            Desk::Channel(desk) => desk.is_idle(),
            Desk::Bundle(desk) => desk.is_idle(),
        }
    }
}
