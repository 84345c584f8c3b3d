//! Ends whose calls go by steps, for tests: the test decides who waits, and how.

ghost use Rattle.fak_channel.specs.Standings.{IsStepSeatOf};
ghost use Rattle.fak_channel.proofs.OneProof.{stands_prop};

use fak_channel::{
    Channel, ChannelState, ChannelStep, ChannelStepSeat, ChannelWorn, End, Outcome, ReceiveFault,
    SendFault, Wish,
};
use std::process::Abort;
use std::sync::Wait;
use std::sync::atomic::{AtomicU64, Ordering};
use std::thread;

/// A word for each end, which is 1 if the end's thread should wake up.
#[derive(Drop)]
pub(crate) struct Tokens {
    words: Vec<AtomicU64>,
}

impl Tokens {
    pub(crate) fn new(rt: &(impl Abort + AllocGlobal), ends: u64) -> Tokens {
        let mut words = Vec::new(rt.alloc());
        for _end in 0..ends {
            words.push(AtomicU64::new(0)).expect(rt, "memory");
        }
        Tokens { words }
    }

    fn of<R: Abort>(&self, rt: &R, number: u64) -> &AtomicU64 {
        self.words.get(number as usize).expect(rt, "a token")
    }

    /// Sleeps until the end's token is set, and clears it.
    fn park<R: Abort + Wait>(&self, rt: &R, number: u64) {
        let word = self.of(rt, number);
        for _ in rt.forever() {
            if word.swap(0, Ordering::SeqCst) == 1 {
                return;
            }
            word.park(rt, 0);
        }
    }

    /// Sets the end's token, and wakes its thread.
    fn unpark<R: Abort>(&self, rt: &R, number: u64) {
        let word = self.of(rt, number);
        word.store(1, Ordering::SeqCst);
        word.wake_one();
    }
}

/// How a call ended.
#[derive(Clone, Copy, Debug, PartialEq, Eq, Drop)]
pub(crate) enum Ended {
    Done(Outcome<u64>),
    GaveUp(Wish<u64>),
}

/// An end whose calls go by steps, with the tokens of all ends. Its patience is the number of sleeps of a call before
/// it gives up.
#[derive(Drop)]
pub(crate) struct Stepper<'c> {
    channel: &'c Channel<u64>,
    seat: ChannelStepSeat<u64>,
    tokens: &'c Tokens,
    patience: u64,
    ghost stands: { IsStepSeatOf channel.now seat } by { stands_prop channel.now seat },
}

impl<'c> Stepper<'c> {
    pub(crate) fn new(end: End<'c, u64>, tokens: &'c Tokens, patience: u64) -> Stepper<'c> {
        let channel = end.channel;
        let seat = channel.step_seat(end.into_seat());
        Stepper {
            channel,
            seat,
            tokens,
            patience,
        }
    }

    pub(crate) fn state(&self) -> ChannelState {
        self.seat.state()
    }

    pub(crate) fn number(&self) -> u64 {
        self.seat.number()
    }

    pub(crate) fn left(&self) -> u64 {
        self.seat.left()
    }

    pub(crate) fn len(&mut self) -> u64 {
        self.channel.step_len(&mut self.seat)
    }

    pub(crate) fn is_closed(&mut self) -> bool {
        self.channel.step_is_closed(&mut self.seat)
    }

    pub(crate) fn begin_send(&mut self, rt: &impl Abort, item: u64) -> Result<(), SendFault<u64>> {
        match self.seat.state() {
            ChannelState::Idle => self.channel.begin_send(&mut self.seat, item),
            ChannelState::Open | ChannelState::Sleeping => panic!(rt; "in a call"),
        }
    }

    pub(crate) fn begin_try_send(
        &mut self,
        rt: &impl Abort,
        item: u64,
    ) -> Result<(), SendFault<u64>> {
        match self.seat.state() {
            ChannelState::Idle => self.channel.begin_try_send(&mut self.seat, item),
            ChannelState::Open | ChannelState::Sleeping => panic!(rt; "in a call"),
        }
    }

    pub(crate) fn begin_receive(&mut self, rt: &impl Abort) -> Result<(), ReceiveFault> {
        match self.seat.state() {
            ChannelState::Idle => self.channel.begin_receive(&mut self.seat),
            ChannelState::Open | ChannelState::Sleeping => panic!(rt; "in a call"),
        }
    }

    pub(crate) fn begin_try_receive(&mut self, rt: &impl Abort) -> Result<(), ReceiveFault> {
        match self.seat.state() {
            ChannelState::Idle => self.channel.begin_try_receive(&mut self.seat),
            ChannelState::Open | ChannelState::Sleeping => panic!(rt; "in a call"),
        }
    }

    pub(crate) fn begin_close(&mut self, rt: &impl Abort) -> Result<(), ChannelWorn> {
        match self.seat.state() {
            ChannelState::Idle => self.channel.begin_close(&mut self.seat),
            ChannelState::Open | ChannelState::Sleeping => panic!(rt; "in a call"),
        }
    }

    /// Takes one step of the open call.
    pub(crate) fn step(&mut self, rt: &impl Abort) -> ChannelStep<u64> {
        match self.seat.state() {
            ChannelState::Idle => panic!(rt; "in no call"),
            ChannelState::Open | ChannelState::Sleeping => self.channel.step(&mut self.seat),
        }
    }

    /// Takes steps of the open call.
    pub(crate) fn steps(&mut self, rt: &impl Abort) -> ChannelStep<u64> {
        match self.seat.state() {
            ChannelState::Idle => panic!(rt; "in no call"),
            ChannelState::Open | ChannelState::Sleeping => self.channel.steps(&mut self.seat),
        }
    }

    /// Gives up the open call, which sleeps.
    pub(crate) fn give_up(&mut self, rt: &impl Abort) -> Option<Wish<u64>> {
        match self.seat.state() {
            ChannelState::Sleeping => self.channel.give_up(&mut self.seat),
            ChannelState::Idle | ChannelState::Open => panic!(rt; "no call sleeps"),
        }
    }

    /// Sleeps, or gives up if the patience is used up. With the largest patience a call never gives up.
    fn sleep<R: Abort + Wait>(&mut self, rt: &R, slept: u64) -> Option<Wish<u64>> {
        if self.patience == u64::MAX {
            self.tokens.park(rt, self.seat.number());
            return None;
        }
        thread::yield_now();
        if slept < self.patience {
            return None;
        }
        self.give_up(rt)
    }

    /// Goes on with the open call until it ends.
    pub(crate) fn finish<R: Abort + Wait>(&mut self, rt: &R) -> Ended {
        let mut slept = 0u64;
        for _ in rt.forever() {
            match self.steps(rt) {
                ChannelStep::GoesOn => {}
                ChannelStep::NotYet => thread::yield_now(),
                ChannelStep::Wakes(number) => self.tokens.unpark(rt, number),
                ChannelStep::Ends(outcome) => return Ended::Done(outcome),
                ChannelStep::Sleeps => {
                    if let Some(wish) = self.sleep(rt, slept) {
                        return Ended::GaveUp(wish);
                    }
                    slept = slept.wrapping_add(1);
                }
            }
        }
        unreachable!()
    }
}
