//! The steps of a call on the queue.

ghost use Rattle.std.specs.Prelude.{◌≡◌, ◌≤◌};
ghost use Rattle.fak_model.specs.Limits.{large_seats};
ghost use Rattle.fak_channel.specs.declared.standing.Next.TheVariants.{Checking, Claiming, Deleting, Inserting, Shutting};
ghost use Rattle.fak_channel.specs.declared.standing.Wish.TheVariants.{Receive, Send};
ghost use Rattle.fak_channel.specs.Moves.{MovesNext, at_next, item_made, item_made_if, refused_next, room_made, room_made_if, step_of};
ghost use Rattle.fak_channel.specs.Standings.{IsDeleting, IsIdle, IsInserting, MayClaim};

use crate::channel::Channel;
use crate::progress::Progress;
use crate::seat::ChannelSeat;
use crate::standing::{CallStanding, Next, Outcome, Wish};
use fak_queue::{DeleteFault, InsertFault};

impl<T> CallStanding<T> {
    /// The call has made room, or may have: it owes a look for a sender, and a check.
    fn owe_for_room(&mut self, ends: u64)
        requires { ends ≤ large_seats }
        ensures { self.new ≡ room_made ends self.old }
    {
        self.senders = self.senders.owing(ends);
        self.checks = true;
    }

    /// The same if a claim was withdrawn.
    fn owe_for_room_if(&mut self, withdraws: bool, ends: u64)
        requires { ends ≤ large_seats }
        ensures { self.new ≡ room_made_if withdraws ends self.old }
    {
        if withdraws {
            self.owe_for_room(ends);
        }
    }

    /// The call has made an item, or may have: it owes a look for a receiver.
    fn owe_for_item(&mut self, ends: u64)
        requires { ends ≤ large_seats }
        ensures { self.new ≡ item_made ends self.old }
    {
        self.receivers = self.receivers.owing(ends);
    }

    /// The same if a claim was withdrawn.
    fn owe_for_item_if(&mut self, withdraws: bool, ends: u64)
        requires { ends ≤ large_seats }
        ensures { self.new ≡ item_made_if withdraws ends self.old }
    {
        if withdraws {
            self.owe_for_item(ends);
        }
    }

    /// After a refused claim a try is refused, and another call sets its bit.
    fn refused(&self, wish: Wish<T>) -> Next<T>
        ensures { result ≡ refused_next self.now wish }
    {
        if self.tries {
            Next::Refusing(wish)
        } else {
            Next::Registering(wish)
        }
    }
}

impl<T: Drop> Channel<T> {
    /// Claims room for the item. A claim that was withdrawn, or found the queue shut, owes a look for a sender, and a check.
    pub(crate) fn claim_room(&self, seat: &mut ChannelSeat<T>, item: T) -> Progress
        requires object { seat.old.queue.seat.object ≡ self.now.queue.object }
        requires few { self.now.ends ≤ large_seats }
        requires may { MayClaim seat.old.queue }
        ensures { MovesNext self.now (at_next (Claiming (Send item)) seat.old) seat.new (Claiming (Send item)) (step_of result) }
    {
        let mut withdraws = false;
        match seat
            .queue
            .claim_insert_noting(&self.queue, item, &mut withdraws)
        {
            Ok(_) => {
                seat.standing.set_next(Next::Inserting);
                Progress::GoesOn
            }
            Err(InsertFault::Full { upper: _, item }) => {
                seat.standing.owe_for_room_if(withdraws, self.ends);
                let next = seat.standing.refused(Wish::Send(item));
                seat.standing.set_next(next);
                Progress::GoesOn
            }
            Err(InsertFault::Closed { item }) => {
                seat.standing.owe_for_room(self.ends);
                seat.standing.set_next(Next::Ending(Outcome::Refused(item)));
                Progress::GoesOn
            }
            Err(InsertFault::Worn { item: _ }) => unreachable!(),
        }
    }

    /// Claims an item. A claim that was withdrawn owes a look for a receiver.
    pub(crate) fn claim_item(&self, seat: &mut ChannelSeat<T>) -> Progress
        requires object { seat.old.queue.seat.object ≡ self.now.queue.object }
        requires few { self.now.ends ≤ large_seats }
        requires may { MayClaim seat.old.queue }
        ensures { MovesNext self.now (at_next (Claiming Receive) seat.old) seat.new (Claiming Receive) (step_of result) }
    {
        let mut withdraws = false;
        match seat.queue.claim_delete_noting(&self.queue, &mut withdraws) {
            Ok(_) => {
                seat.standing.set_next(Next::Deleting);
                Progress::GoesOn
            }
            Err(DeleteFault::Empty(_)) => {
                seat.standing.owe_for_item_if(withdraws, self.ends);
                seat.standing.set_next(Next::Checking);
                Progress::GoesOn
            }
            Err(DeleteFault::Worn) => unreachable!(),
        }
    }

    /// Moves the item into its cell, if it is the cell's turn. Then an item is there for a receiver.
    pub(crate) fn fill(&self, seat: &mut ChannelSeat<T>) -> Progress
        requires object { seat.old.queue.seat.object ≡ self.now.queue.object }
        requires few { self.now.ends ≤ large_seats }
        requires inserting { IsInserting seat.old.queue }
        ensures { MovesNext self.now (at_next Inserting seat.old) seat.new Inserting (step_of result) }
    {
        match seat.queue.try_fill(&self.queue) {
            None => {
                seat.standing.set_next(Next::Inserting);
                Progress::NotYet
            }
            Some(_) => {
                seat.standing.owe_for_item(self.ends);
                seat.standing.set_next(Next::Ending(Outcome::Sent));
                Progress::GoesOn
            }
        }
    }

    /// Moves the item out of its cell, if it is the cell's turn. Then the cell is free for a sender, and the channel may be
    /// drained.
    pub(crate) fn take_out(&self, seat: &mut ChannelSeat<T>) -> Progress
        requires object { seat.old.queue.seat.object ≡ self.now.queue.object }
        requires few { self.now.ends ≤ large_seats }
        requires deleting { IsDeleting seat.old.queue }
        ensures { MovesNext self.now (at_next Deleting seat.old) seat.new Deleting (step_of result) }
    {
        match seat.queue.try_take(&self.queue) {
            None => {
                seat.standing.set_next(Next::Deleting);
                Progress::NotYet
            }
            Some((_, item)) => {
                seat.standing.owe_for_room(self.ends);
                let next = Next::Ending(Outcome::Received(item));
                seat.standing.set_next(next);
                Progress::GoesOn
            }
        }
    }

    /// Checks whether the channel is drained, after a claim that found no item. If it is, the call is over, and a look for
    /// the next receiver is owed.
    pub(crate) fn check_empty(&self, seat: &mut ChannelSeat<T>) -> Progress
        requires object { seat.old.queue.seat.object ≡ self.now.queue.object }
        requires few { self.now.ends ≤ large_seats }
        requires may { MayClaim seat.old.queue }
        ensures { MovesNext self.now (at_next Checking seat.old) seat.new Checking (step_of result) }
    {
        if seat.queue.check_drained(&self.queue) {
            seat.standing.owe_for_item(self.ends);
            seat.standing.checks = false;
            seat.standing.set_next(Next::Ending(Outcome::Drained));
            return Progress::GoesOn;
        }
        seat.standing.checks = false;
        let next = seat.standing.refused(Wish::Receive);
        seat.standing.set_next(next);
        Progress::GoesOn
    }

    /// Shuts the queue. It comes before the looks: each sender that is woken finds the queue shut.
    pub(crate) fn shut(&self, seat: &mut ChannelSeat<T>) -> Progress
        requires object { seat.old.queue.seat.object ≡ self.now.queue.object }
        requires few { self.now.ends ≤ large_seats }
        requires idle { IsIdle seat.old.queue }
        ensures { MovesNext self.now (at_next Shutting seat.old) seat.new Shutting (step_of result) }
    {
        if seat.queue.shut(&self.queue) {
            seat.standing.owe_for_room(self.ends);
            seat.standing.set_next(Next::Ending(Outcome::Closed));
            return Progress::GoesOn;
        }
        seat.standing.owe_for_room(self.ends);
        seat.standing.set_next(Next::Ending(Outcome::WasClosed));
        Progress::GoesOn
    }
}
