//! The steps of a call on its way to sleep, and when it wakes. An end that has to wait sets its bit and tests again before it
//! sleeps. So an end that makes room or an item either is found by that test or finds the bit.

ghost use Rattle.std.specs.Prelude.{◌≡◌};
ghost use Rattle.fak_channel_core.specs.SleeperSides.{Asleep, PastLower, Registered, Awake};
ghost use Rattle.fak_channel.specs.declared.standing.Next.TheVariants.{Registering, Sleeping, TakingBack, Testing, TestingDrained};
ghost use Rattle.fak_channel.specs.declared.standing.Wish.TheVariants.{Receive, Send};
ghost use Rattle.fak_queue.specs.SleeperSeats.{account_of_seat};
ghost use Rattle.fak_channel.specs.Moves.{GivesUpSleep, MovesNext, at_next, step_of};
ghost use Rattle.fak_channel.specs.Standings.{HasSet, IsAwake, MayClaim, StageFor, StagesAre, role_of};

use crate::channel::Channel;
use crate::progress::Progress;
use crate::seat::ChannelSeat;
use crate::standing::{Next, Wish};
use fak_queue::{NoRoom, Role};

impl<T> Wish<T> {
    /// The role of an end with this wish.
    fn role(&self) -> Role
        ensures { result ≡ role_of self.now }
    {
        match self {
            Wish::Send(_) => Role::Sender,
            Wish::Receive => Role::Receiver,
        }
    }
}

impl<T: Drop> Channel<T> {
    /// Sets the own bit. It comes before the second test.
    pub(crate) fn register(&self, seat: &mut ChannelSeat<T>, wish: Wish<T>) -> Progress
        requires object { seat.old.queue.seat.object ≡ self.now.queue.object }
        requires may { MayClaim seat.old.queue }
        requires awake { IsAwake (account_of_seat seat.old.queue) }
        ensures { MovesNext self.now (at_next (Registering wish) seat.old) seat.new (Registering wish) (step_of result) }
    {
        seat.queue.set_bit(&self.queue, wish.role());
        seat.standing.set_next(Next::Testing(wish));
        Progress::GoesOn
    }

    /// The second test of a sender. If there is room, or the channel is closed, the own bit is to be cleared. Otherwise the
    /// sender sleeps.
    pub(crate) fn test_room(&self, seat: &mut ChannelSeat<T>, item: T) -> Progress
        requires object { seat.old.queue.seat.object ≡ self.now.queue.object }
        requires may { MayClaim seat.old.queue }
        requires stage { StageFor (Send item) Registered (account_of_seat seat.old.queue) }
        ensures { MovesNext self.now (at_next (Testing (Send item)) seat.old) seat.new (Testing (Send item)) (step_of result) }
    {
        match seat.queue.test_room_again(&self.queue) {
            Ok(()) => {
                seat.standing.set_next(Next::TakingBack(Wish::Send(item)));
                Progress::GoesOn
            }
            Err(NoRoom::Shut) => {
                seat.standing.set_next(Next::TakingBack(Wish::Send(item)));
                Progress::GoesOn
            }
            Err(NoRoom::Full(_)) => {
                seat.standing.set_next(Next::Sleeping(Wish::Send(item)));
                Progress::GoesOn
            }
        }
    }

    /// The second test of a receiver. If there is an item, the own bit is to be cleared.
    pub(crate) fn test_item(&self, seat: &mut ChannelSeat<T>) -> Progress
        requires object { seat.old.queue.seat.object ≡ self.now.queue.object }
        requires may { MayClaim seat.old.queue }
        requires stage { StagesAre Awake Registered (account_of_seat seat.old.queue) }
        ensures { MovesNext self.now (at_next (Testing Receive) seat.old) seat.new (Testing Receive) (step_of result) }
    {
        match seat.queue.test_item_again(&self.queue) {
            Ok(()) => {
                seat.standing.set_next(Next::TakingBack(Wish::Receive));
                Progress::GoesOn
            }
            Err(_) => {
                seat.standing.set_next(Next::TestingDrained);
                Progress::GoesOn
            }
        }
    }

    /// The rest of the second test of a receiver. If the channel is drained, the own bit is to be cleared. Otherwise the
    /// receiver sleeps.
    pub(crate) fn test_drained(&self, seat: &mut ChannelSeat<T>) -> Progress
        requires object { seat.old.queue.seat.object ≡ self.now.queue.object }
        requires may { MayClaim seat.old.queue }
        requires stage { StagesAre Awake PastLower (account_of_seat seat.old.queue) }
        ensures { MovesNext self.now (at_next TestingDrained seat.old) seat.new TestingDrained (step_of result) }
    {
        if seat.queue.test_drained_again(&self.queue) {
            seat.standing.set_next(Next::TakingBack(Wish::Receive));
            return Progress::GoesOn;
        }
        seat.standing.set_next(Next::Sleeping(Wish::Receive));
        Progress::GoesOn
    }

    /// Clears the own bit. If it was clear, another end has woken this one. Either way the call claims again, so a wake is
    /// not lost.
    pub(crate) fn take_back(&self, seat: &mut ChannelSeat<T>, wish: Wish<T>) -> Progress
        requires object { seat.old.queue.seat.object ≡ self.now.queue.object }
        requires may { MayClaim seat.old.queue }
        requires set { HasSet wish (account_of_seat seat.old.queue) }
        ensures { MovesNext self.now (at_next (TakingBack wish) seat.old) seat.new (TakingBack wish) (step_of result) }
    {
        let _was_set = seat.queue.take_back(&self.queue, wish.role());
        seat.standing.set_next(Next::Claiming(wish));
        Progress::GoesOn
    }

    /// Looks at the own bit. If it is clear, another end has woken this one, and the call claims again.
    pub(crate) fn sleep(&self, seat: &mut ChannelSeat<T>, wish: Wish<T>) -> Progress
        requires object { seat.old.queue.seat.object ≡ self.now.queue.object }
        requires may { MayClaim seat.old.queue }
        requires stage { StageFor wish Asleep (account_of_seat seat.old.queue) }
        ensures { MovesNext self.now (at_next (Sleeping wish) seat.old) seat.new (Sleeping wish) (step_of result) }
    {
        if seat.queue.see_bit(&self.queue, wish.role()) {
            seat.standing.set_next(Next::Sleeping(wish));
            return Progress::Sleeps;
        }
        seat.standing.set_next(Next::Claiming(wish));
        Progress::GoesOn
    }

    /// Gives up a call that sleeps: clears the own bit. If it was set, nobody has woken this end, and the call is over.
    /// Otherwise the call claims again, so the wake is not lost.
    pub(crate) fn give_up_sleep(&self, seat: &mut ChannelSeat<T>, wish: Wish<T>) -> Option<Wish<T>>
        requires object { seat.old.queue.seat.object ≡ self.now.queue.object }
        requires may { MayClaim seat.old.queue }
        requires stage { StageFor wish Asleep (account_of_seat seat.old.queue) }
        ensures { GivesUpSleep self.now (at_next (Sleeping wish) seat.old) seat.new wish result }
    {
        if seat.queue.take_back(&self.queue, wish.role()) {
            seat.standing.set_next(Next::Idle);
            return Some(wish);
        }
        seat.standing.set_next(Next::Claiming(wish));
        None
    }
}
