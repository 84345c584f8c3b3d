//! Looks at a channel, which leave no mark. A call of the seat may be open.

ghost use Rattle.std.specs.Prelude.{◌≡◌, ◌↔◌, IsTrue};
ghost use Rattle.fak_model.specs.Queue.{Has, lower_count, upper_count};
ghost use Rattle.fak_model.specs.declared.queue.Kind.TheVariants.{Close};
ghost use Rattle.fak_queue.specs.Queues.{drawn_by};
ghost use Rattle.fak_channel.specs.Channels.{IsLength, OnlyLooks};
ghost use Rattle.fak_channel.specs.Standings.{IsStepSeatOf};

use crate::channel::Channel;
use crate::seat::ChannelSeat;
use fak_queue::InUse;

impl<T: Drop> Channel<T> {
    /// How many cells are in use, and whether the queue is shut.
    pub(crate) fn look_up(&self, seat: &mut ChannelSeat<T>) -> InUse
        requires { IsStepSeatOf self.now seat.old }
        ensures stands { IsStepSeatOf self.now seat.new }
        ensures looks { OnlyLooks self.now.queue.size seat.old seat.new }
        ensures left { drawn_by seat.new.queue.seat ≡ drawn_by seat.old.queue.seat }
        ensures count { result.count ≡ upper_count seat.new.queue.seat.seen }
        ensures shut { IsTrue result.is_shut ↔ Has Close seat.new.queue.seat.seen }
    {
        seat.queue.cells_in_use(&self.queue)
    }

    /// How many items are ready.
    pub(crate) fn look_down(&self, seat: &mut ChannelSeat<T>) -> i64
        requires { IsStepSeatOf self.now seat.old }
        ensures stands { IsStepSeatOf self.now seat.new }
        ensures looks { OnlyLooks self.now.queue.size seat.old seat.new }
        ensures left { drawn_by seat.new.queue.seat ≡ drawn_by seat.old.queue.seat }
        ensures count { result ≡ lower_count seat.new.queue.seat.seen }
    {
        seat.queue.items_ready(&self.queue)
    }

    /// The number of items that no receiver has claimed. A call by steps of the seat may be open. The seat must belong to this
    /// channel.
    pub fn step_len(&self, seat: &mut ChannelSeat<T>) -> u64
        requires { IsStepSeatOf self.now seat.old }
        ensures stands { IsStepSeatOf self.now seat.new }
        ensures looks { OnlyLooks self.now.queue.size seat.old seat.new }
        ensures count { IsLength result seat.new }
    {
        let ready = self.look_down(seat);
        if ready < 0 { 0 } else { ready as u64 }
    }

    /// Whether the queue is shut. A call by steps of the seat may be open. The seat must belong to this channel.
    pub fn step_is_closed(&self, seat: &mut ChannelSeat<T>) -> bool
        requires { IsStepSeatOf self.now seat.old }
        ensures stands { IsStepSeatOf self.now seat.new }
        ensures looks { OnlyLooks self.now.queue.size seat.old seat.new }
        ensures closed { IsTrue result ↔ Has Close seat.new.queue.seat.seen }
    {
        self.look_up(seat).is_shut
    }
}
