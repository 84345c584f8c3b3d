//! How seats come back together, and what a channel leaves.

ghost use Rattle.std.specs.Prelude.{◌≡◌};
ghost use Rattle.fak_model.specs.Calls.{IsJoined, tally_of};
ghost use Rattle.fak_model.specs.Histories.{AreNamed, IsAtRest};
ghost use Rattle.fak_model.specs.Queue.{IsQueueHistory, contents, queue_rules};
ghost use Rattle.fak_model.specs.Seats.{IsWhole};
ghost use Rattle.fak_channel.specs.Standings.{IsSeatOf};

use crate::channel::Channel;
use crate::seat::ChannelSeat;
use fak_queue::{Rest, Tally};

impl<T: Drop> Channel<T> {
    /// The tally of one seat, whose end performs no more calls.
    pub fn tally(&self, seat: ChannelSeat<T>) -> Tally<T>
        requires { IsSeatOf self.now seat }
        ensures tally { result ≡ tally_of seat.queue.seat }
        ensures object { result.object ≡ self.now.queue.object }
        ensures lawful { IsQueueHistory self.now.queue.size result.seen }
    {
        let ChannelSeat { queue, standing: _ } = seat;
        Tally::of_sleeper(queue)
    }

    /// The tally with this seat added.
    pub fn join(&self, tally: Tally<T>, seat: ChannelSeat<T>) -> Tally<T>
        requires tally { tally.object ≡ self.now.queue.object }
        requires seat { IsSeatOf self.now seat }
        ensures joined { IsJoined (queue_rules self.now.queue.size) tally seat.queue.seat result }
        ensures object { result.object ≡ self.now.queue.object }
    {
        let ChannelSeat { queue, standing: _ } = seat;
        self.queue.join_sleeper(tally, queue)
    }

    /// The items that nobody received, oldest first, once all seats are in the tally.
    pub fn into_rest(self, tally: Tally<T>) -> Rest<T>
        requires object { tally.object ≡ self.queue.object }
        requires whole { IsWhole self.queue.object.seats tally.names }
        ensures rest { result ≡ contents tally.seen }
        ensures lawful { IsQueueHistory self.queue.size tally.seen }
        ensures named { AreNamed (queue_rules self.queue.size) self.queue.object.seats tally.seen }
        ensures at_rest { IsAtRest (queue_rules self.queue.size) tally.seen }
    {
        let Channel {
            queue,
            parkers: _,
            size: _,
            ends: _,
        } = self;
        queue.close(tally)
    }
}
