//! The steps of a call, of which none waits, and how a call is given up.

ghost use Rattle.std.specs.Prelude.{◌≡◌, ◌≢◌, MatchOption};
ghost use Rattle.fak_channel.specs.ChannelSteps.{GivesUp, Runs, StandsAfter, Steps};
ghost use Rattle.fak_channel.specs.declared.standing.ChannelStep.TheVariants.{Ends};
ghost use Rattle.fak_channel.specs.declared.standing.Next.TheVariants.{Ending};
ghost use Rattle.fak_channel.specs.declared.standing.Outcome.{Outcome};
ghost use Rattle.fak_channel.specs.Moves.{GivesUpAt, IsDone, Moves, MovesNext, step_of};
ghost use Rattle.fak_channel.specs.Standings.{IsAsleep, IsBetweenCalls, IsInCall, IsStepSeatOf};

use crate::channel::Channel;
use crate::parker::Parker;
use crate::progress::Progress;
use crate::seat::ChannelSeat;
use crate::standing::{ChannelStep, Next, Outcome, Wish};
use fak_queue::Role;
use std::mem;

/// The most steps that `steps` takes.
pub const STEPS_AT_ONCE: u64 = 16;

/// The thread of this end is to be woken, since its bit was cleared. It cannot be dropped, and only this file can take it apart. So
/// no step loses a wake: other files can only deliver it.
pub(crate) struct Wake {
    number: u64,
}

impl Wake {
    /// The wake of the end with this number.
    pub(crate) fn of(number: u64) -> Wake
        ensures { result.number ≡ number }
    {
        Wake { number }
    }

    /// Wakes the thread of that end by its parker.
    pub(crate) fn deliver(self, parkers: &[Parker]) {
        let Wake { number } = self;
        if let Some(parker) = parkers.get(number as usize) {
            parker.wake();
        }
    }
}

impl<T: Drop> Channel<T> {
    /// The outcome of a call that is done. No call is open then.
    pub(crate) fn take_outcome(&self, seat: &mut ChannelSeat<T>) -> Outcome<T>
        requires { IsDone seat.old.standing }
        ensures { Moves self.now seat.old seat.new (Ends result) }
    {
        match mem::replace(&mut seat.standing.next, Next::Idle) {
            Next::Ending(outcome) => outcome,
            _ => unreachable!(),
        }
    }

    /// Takes one more step of the open call, which is not done. It does not wait. What the end owes to others comes first.
    pub(crate) fn advance(&self, seat: &mut ChannelSeat<T>) -> Progress
        requires stands { IsStepSeatOf self.now seat.old }
        requires in_call { IsInCall seat.old }
        requires not_done { ¬ IsDone seat.old.standing }
        ensures { Moves self.now seat.old seat.new (step_of result) }
    {
        if seat.standing.senders.is_owed {
            return self.look(seat, Role::Sender);
        }
        if seat.standing.receivers.is_owed {
            return self.look(seat, Role::Receiver);
        }
        if seat.standing.checks {
            self.check(seat);
            return Progress::GoesOn;
        }
        self.go_on(seat)
    }

    /// The step by what comes next.
    fn go_on(&self, seat: &mut ChannelSeat<T>) -> Progress
        requires stands { IsStepSeatOf self.now seat.old }
        requires in_call { IsInCall seat.old }
        requires not_ending { (o : Outcome T) → seat.old.standing.next ≢ Ending o }
        ensures { MovesNext self.now seat.old seat.new seat.old.standing.next (step_of result) }
    {
        match mem::replace(&mut seat.standing.next, Next::Idle) {
            Next::Idle | Next::Ending(_) => unreachable!(),
            Next::Claiming(Wish::Send(item)) => self.claim_room(seat, item),
            Next::Claiming(Wish::Receive) => self.claim_item(seat),
            Next::Inserting => self.fill(seat),
            Next::Deleting => self.take_out(seat),
            Next::Checking => self.check_empty(seat),
            Next::Registering(wish) => self.register(seat, wish),
            Next::Testing(Wish::Send(item)) => self.test_room(seat, item),
            Next::Testing(Wish::Receive) => self.test_item(seat),
            Next::TestingDrained => self.test_drained(seat),
            Next::TakingBack(wish) => self.take_back(seat, wish),
            Next::Sleeping(wish) => self.sleep(seat, wish),
            Next::Refusing(wish) => {
                seat.standing.set_next(Next::Refused(wish));
                Progress::Sleeps
            }
            Next::Refused(wish) => {
                seat.standing.set_next(Next::Claiming(wish));
                Progress::GoesOn
            }
            Next::Shutting => self.shut(seat),
        }
    }

    /// Takes one more step of the open call. It does not wait.
    pub fn step(&self, seat: &mut ChannelSeat<T>) -> ChannelStep<T>
        requires stands { IsStepSeatOf self.now seat.old }
        requires in_call { IsInCall seat.old }
        ensures stands { IsStepSeatOf self.now seat.new }
        ensures after { StandsAfter seat.new result }
        ensures moves { Moves self.now seat.old seat.new result }
        ensures call { Steps self.now.queue.size seat.old seat.new result }
    {
        if seat.standing.is_done() {
            return ChannelStep::Ends(self.take_outcome(seat));
        }
        match self.advance(seat) {
            Progress::GoesOn => ChannelStep::GoesOn,
            Progress::NotYet => ChannelStep::NotYet,
            Progress::Sleeps => ChannelStep::Sleeps,
            Progress::Wakes(Wake { number }) => ChannelStep::Wakes(number),
        }
    }

    /// Takes steps of the open call until one does not go on, or `STEPS_AT_ONCE` of them are taken. None of them waits.
    pub fn steps(&self, seat: &mut ChannelSeat<T>) -> ChannelStep<T>
        requires stands { IsStepSeatOf self.now seat.old }
        requires in_call { IsInCall seat.old }
        ensures stands { IsStepSeatOf self.now seat.new }
        ensures after { StandsAfter seat.new result }
        ensures call { Steps self.now.queue.size seat.old seat.new result }
        ensures runs { Runs self.now seat.old seat.new result }
    {
        for _taken in 0..STEPS_AT_ONCE {
            match self.step(seat) {
                ChannelStep::GoesOn => {}
                ChannelStep::NotYet => return ChannelStep::NotYet,
                ChannelStep::Sleeps => return ChannelStep::Sleeps,
                ChannelStep::Wakes(number) => return ChannelStep::Wakes(number),
                ChannelStep::Ends(outcome) => return ChannelStep::Ends(outcome),
            }
        }
        ChannelStep::GoesOn
    }

    /// Gives up a call that sleeps, or a try that would have to. What was asked comes back, and no call is open then. Returns
    /// `None` if another end had woken the call before: then the call goes on with its next step.
    pub fn give_up(&self, seat: &mut ChannelSeat<T>) -> Option<Wish<T>>
        requires stands { IsStepSeatOf self.now seat.old }
        requires asleep { IsAsleep seat.old }
        ensures stands { IsStepSeatOf self.now seat.new }
        ensures after { MatchOption result (IsInCall seat.new) (λ _. IsBetweenCalls seat.new) }
        ensures tries { seat.new.standing.tries ≡ seat.old.standing.tries }
        ensures moves { GivesUpAt self.now seat.old seat.new seat.old.standing.next result }
        ensures call { GivesUp self.now.queue.size seat.old seat.new result }
    {
        match mem::replace(&mut seat.standing.next, Next::Idle) {
            Next::Sleeping(wish) => self.give_up_sleep(seat, wish),
            Next::Refused(wish) => Some(wish),
            _ => unreachable!(),
        }
    }
}
