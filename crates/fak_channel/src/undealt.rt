//! The seats of a channel that are still to be dealt.

ghost use Rattle.std.specs.Prelude.{ℕ};
ghost use Rattle.fak_channel.specs.declared.channel.Channel.{Channel};
ghost use Rattle.fak_channel.specs.Undealt.{AreUndealt, DealsNext};

use crate::seat::ChannelSeat;
use crate::standing::CallStanding;
use fak_queue::SleeperSeat;
use std::vec::IntoIter;

/// The seats of a channel that are still to be dealt, in the order of their numbers.
#[derive(Drop)]
pub struct UndealtSeats<T> {
    pub(crate) queues: IntoIter<SleeperSeat<T>>,
}

impl<T: Drop> UndealtSeats<T> {
    /// The next seat, or `None` once all are dealt.
    pub fn next(&mut self) -> Option<ChannelSeat<T>>
        ensures { (c : Channel T) (stint name left : ℕ) → AreUndealt c stint name left self.old
            → DealsNext c stint name left self.new result }
    {
        let queue = self.queues.next()?;
        Some(ChannelSeat {
            queue,
            standing: CallStanding::new(),
        })
    }
}
