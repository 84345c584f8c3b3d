//! How a thread takes the steps of a call: it waits for steps of other ends, wakes the threads whose bits it has cleared, and
//! parks while its own bit is set.

ghost use Rattle.std.specs.Prelude.{◌≡◌, MatchOption, MatchResult, false, true};
ghost use Rattle.fak_channel.specs.Channels.{StaysAwake};
ghost use Rattle.fak_channel.specs.ChannelSteps.{EndsAll, GivesUp, KeepsAwake, RefusesAll, StopsAt, WakesNone};
ghost use Rattle.fak_channel.specs.Standings.{IsAsleep, IsBetweenCalls, IsInCall, IsSeatOf, IsStepSeatOf};

use crate::channel::Channel;
use crate::parker::time_left;
use crate::progress::{Progress, Stop};
use crate::seat::ChannelSeat;
use crate::standing::{Outcome, Wish};
use crossbeam_utils::Backoff;
use std::hint;
use std::sync::Wait;
use std::time::{Clock, Instant};

/// How often a thread looks at its own bit before it parks: some microseconds. Most wakes come in that time, and then no thread
/// has to be woken by the system.
const POLLS: u64 = 128;

impl<T: Drop> Channel<T> {
    /// Takes steps of the open call until it sleeps or ends.
    fn run<R: Wait>(&self, rt: &R, seat: &mut ChannelSeat<T>) -> Stop<T>
        requires stands { IsStepSeatOf self.now seat.old }
        requires in_call { IsInCall seat.old }
        ensures stands { IsStepSeatOf self.now seat.new }
        ensures tries { seat.new.standing.tries ≡ seat.old.standing.tries }
        ensures awake { KeepsAwake seat.old seat.new }
        ensures call { StopsAt self.now.queue.size seat.old seat.new result }
    {
        let backoff = Backoff::new();
        for _ in rt.forever() {
            if seat.standing.is_done() {
                return Stop::Ends(self.take_outcome(seat));
            }
            match self.advance(seat) {
                Progress::GoesOn => {}
                Progress::NotYet => backoff.snooze(),
                Progress::Sleeps => return Stop::Sleeps,
                Progress::Wakes(wake) => wake.deliver(&self.parkers),
            }
        }
        unreachable!()
    }

    /// Rests once while the own bit is set: looks again at once, or parks the thread after `POLLS` looks. Returns how many
    /// looks came since the last park.
    fn rest<R: Wait>(&self, rt: &R, number: u64, polls: u64) -> u64 {
        if polls < POLLS {
            hint::spin_loop();
            return polls + 1;
        }
        if let Some(parker) = self.parkers.get(number as usize) {
            parker.park(rt);
        }
        0
    }

    /// Takes steps of the open call until it ends. The thread sleeps while the call does.
    pub(crate) fn finish<R: Wait>(&self, rt: &R, seat: &mut ChannelSeat<T>) -> Outcome<T>
        requires stands { IsStepSeatOf self.now seat.old }
        requires in_call { IsInCall seat.old }
        ensures seat { IsSeatOf self.now seat.new }
        ensures call { EndsAll self.now.queue.size seat.old seat.new result }
    {
        let mut polls = 0;
        for _ in rt.forever() {
            match self.run(rt, seat) {
                Stop::Ends(outcome) => return outcome,
                Stop::Sleeps => polls = self.rest(rt, seat.queue.number(), polls),
            }
        }
        unreachable!()
    }

    /// Rests once while the own bit is set, as `rest`. At the deadline it gives the call up instead of a park: then what was
    /// asked comes back, unless another end has woken the call.
    fn rest_until<R: Wait + Clock>(
        &self,
        rt: &R,
        seat: &mut ChannelSeat<T>,
        deadline: Instant,
        polls: &mut u64,
    ) -> Option<Wish<T>>
        requires stands { IsStepSeatOf self.now seat.old }
        requires asleep { IsAsleep seat.old }
        ensures stands { IsStepSeatOf self.now seat.new }
        ensures after { MatchOption result (IsInCall seat.new) (λ _. IsBetweenCalls seat.new) }
        ensures tries { seat.new.standing.tries ≡ seat.old.standing.tries }
        ensures call { GivesUp self.now.queue.size seat.old seat.new result }
    {
        if *polls < POLLS {
            hint::spin_loop();
            *polls += 1;
            return None;
        }
        let left = time_left(rt, deadline);
        if left.is_zero() {
            return self.give_up(seat);
        }
        if let Some(parker) = self.parkers.get(seat.queue.number() as usize) {
            parker.park_timeout(rt, left);
        }
        *polls = 0;
        None
    }

    /// Takes steps of the open call until it ends. The thread sleeps while the call does, until the deadline at most: then the
    /// call is given up, and what was asked comes back.
    pub(crate) fn finish_until<R: Wait + Clock>(
        &self,
        rt: &R,
        seat: &mut ChannelSeat<T>,
        deadline: Instant,
    ) -> Result<Outcome<T>, Wish<T>>
        requires stands { IsStepSeatOf self.now seat.old }
        requires in_call { IsInCall seat.old }
        requires no_try { seat.old.standing.tries ≡ false }
        ensures seat { IsSeatOf self.now seat.new }
        ensures call { MatchResult result (EndsAll self.now.queue.size seat.old seat.new)
            (WakesNone self.now.queue.size seat.old seat.new) }
    {
        let mut polls = 0;
        for _ in rt.forever() {
            match self.run(rt, seat) {
                Stop::Ends(outcome) => return Ok(outcome),
                Stop::Sleeps => {
                    if let Some(wish) = self.rest_until(rt, seat, deadline, &mut polls) {
                        return Err(wish);
                    }
                }
            }
        }
        unreachable!()
    }

    /// Takes steps of an open try until it ends or would have to sleep: then it is given up, and what was asked comes back.
    pub(crate) fn finish_try<R: Wait>(
        &self,
        rt: &R,
        seat: &mut ChannelSeat<T>,
    ) -> Result<Outcome<T>, Wish<T>>
        requires stands { IsStepSeatOf self.now seat.old }
        requires in_call { IsInCall seat.old }
        requires is_try { seat.old.standing.tries ≡ true }
        ensures seat { IsSeatOf self.now seat.new }
        ensures awake { StaysAwake seat.old.queue seat.new.queue }
        ensures call { MatchResult result (EndsAll self.now.queue.size seat.old seat.new)
            (RefusesAll self.now.queue.size seat.old seat.new) }
    {
        for _ in rt.forever() {
            match self.run(rt, seat) {
                Stop::Ends(outcome) => return Ok(outcome),
                Stop::Sleeps => {
                    if let Some(wish) = self.give_up(seat) {
                        return Err(wish);
                    }
                }
            }
        }
        unreachable!()
    }
}
