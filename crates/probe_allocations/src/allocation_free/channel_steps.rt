//! Calls of a channel's ends by steps.

ghost use Rattle.fak_channel.specs.Standings.{IsSeatOf};
ghost use Rattle.fak_channel.specs.Standings.{IsStepSeatOf};
ghost use Rattle.fak_channel.proofs.OneProof.{stands_prop};

use super::sentinels::{begin, end};
use fak_channel::{
    Channel, ChannelSeat, ChannelState, ChannelStep, ChannelStepSeat, Outcome, ReceiveFault,
    SendFault, Wish,
};

/// An end that goes by steps. Its seat belongs to the channel.
#[derive(Drop)]
struct Stepper<'c> {
    channel: &'c Channel<u64>,
    seat: ChannelStepSeat<u64>,
    ghost stands: { IsStepSeatOf channel.now seat } by { stands_prop channel.now seat },
}

impl<'c> Stepper<'c> {
    fn new(channel: &'c Channel<u64>, seat: ChannelSeat<u64>) -> Stepper<'c>
        requires { IsSeatOf channel.now seat }
    {
        let seat = channel.step_seat(seat);
        Stepper { channel, seat }
    }

    /// Begins to send the item. Returns whether it has begun.
    fn sends(&mut self, item: u64) -> bool {
        match self.seat.state() {
            ChannelState::Idle => self.channel.begin_send(&mut self.seat, item).is_ok(),
            ChannelState::Open | ChannelState::Sleeping => false,
        }
    }

    /// Looks, and begins to send the item. `None` if a call is open.
    fn tries_to_send(&mut self, item: u64) -> Option<Result<(), SendFault<u64>>> {
        match self.seat.state() {
            ChannelState::Idle => Some(self.channel.begin_try_send(&mut self.seat, item)),
            ChannelState::Open | ChannelState::Sleeping => None,
        }
    }

    /// Begins to receive. Returns whether it has begun.
    fn receives(&mut self) -> bool {
        match self.seat.state() {
            ChannelState::Idle => self.channel.begin_receive(&mut self.seat).is_ok(),
            ChannelState::Open | ChannelState::Sleeping => false,
        }
    }

    /// Looks, and begins to receive. `None` if a call is open.
    fn tries_to_receive(&mut self) -> Option<Result<(), ReceiveFault>> {
        match self.seat.state() {
            ChannelState::Idle => Some(self.channel.begin_try_receive(&mut self.seat)),
            ChannelState::Open | ChannelState::Sleeping => None,
        }
    }

    /// Begins to close. Returns whether it has begun.
    fn closes(&mut self) -> bool {
        match self.seat.state() {
            ChannelState::Idle => self.channel.begin_close(&mut self.seat).is_ok(),
            ChannelState::Open | ChannelState::Sleeping => false,
        }
    }

    /// One step of the open call. `None` if no call is open.
    fn step(&mut self) -> Option<ChannelStep<u64>> {
        match self.seat.state() {
            ChannelState::Idle => None,
            ChannelState::Open | ChannelState::Sleeping => Some(self.channel.step(&mut self.seat)),
        }
    }

    /// Steps of the open call until one does not go on, at most `STEPS_AT_ONCE`. `None` if no call is open.
    fn steps(&mut self) -> Option<ChannelStep<u64>> {
        match self.seat.state() {
            ChannelState::Idle => None,
            ChannelState::Open | ChannelState::Sleeping => Some(self.channel.steps(&mut self.seat)),
        }
    }

    /// Gives up the open call. `None` if it does not sleep.
    fn gives_up(&mut self) -> Option<Option<Wish<u64>>> {
        match self.seat.state() {
            ChannelState::Sleeping => Some(self.channel.give_up(&mut self.seat)),
            ChannelState::Idle | ChannelState::Open => None,
        }
    }

    /// Whether the open call ends with this outcome within its next steps.
    fn ends(&mut self, outcome: Outcome<u64>) -> bool {
        self.steps() == Some(ChannelStep::Ends(outcome))
    }

    /// How many items the channel has, whether it is closed, and what is left of the stint.
    fn looks(&mut self) -> (u64, bool, u64) {
        (
            self.channel.step_len(&mut self.seat),
            self.channel.step_is_closed(&mut self.seat),
            self.seat.left(),
        )
    }
}

/// A receive that sleeps and gives up, and then a send and a receive that look first.
fn give_up_and_try(receiver: &mut Stepper<'_>, sender: &mut Stepper<'_>) -> bool {
    sender.looks() == (0, false, 100)
        && receiver.tries_to_receive() == Some(Err(ReceiveFault::Empty))
        && receiver.receives()
        && receiver.steps() == Some(ChannelStep::Sleeps)
        && receiver.gives_up() == Some(Some(Wish::Receive))
        && sender.tries_to_send(10) == Some(Ok(()))
        && sender.ends(Outcome::Sent)
        && sender.tries_to_send(11) == Some(Err(SendFault::Full { item: 11 }))
        && receiver.tries_to_receive() == Some(Ok(()))
        && receiver.ends(Outcome::Received(10))
}

/// A receive that sleeps, and the send that wakes it.
fn sleep_and_wake(receiver: &mut Stepper<'_>, sender: &mut Stepper<'_>) -> bool {
    receiver.receives()
        && receiver.steps() == Some(ChannelStep::Sleeps)
        && sender.sends(12)
        && sender.step() == Some(ChannelStep::GoesOn)
        && sender.steps() == Some(ChannelStep::Wakes(receiver.seat.number()))
        && sender.ends(Outcome::Sent)
        && receiver.ends(Outcome::Received(12))
}

/// A close, and what is refused after it.
fn close(receiver: &mut Stepper<'_>, sender: &mut Stepper<'_>) -> bool {
    sender.closes()
        && sender.ends(Outcome::Closed)
        && sender.sends(13)
        && sender.ends(Outcome::Refused(13))
        && receiver.receives()
        && receiver.ends(Outcome::Drained)
        && receiver.closes()
        && receiver.ends(Outcome::WasClosed)
}

/// Calls by steps of two ends of a channel with one cell.
pub(super) fn call_steps(rt: &(impl Print + AllocGlobal)) -> bool {
    let Ok((channel, mut seats)) = Channel::<u64>::open(rt.alloc(), 1, 2, 100) else {
        return false;
    };
    let Some(seat) = seats.pop() else {
        unreachable!()
    };
    let mut receiver = Stepper::new(&channel, seat);
    let Some(seat) = seats.pop() else {
        unreachable!()
    };
    let mut sender = Stepper::new(&channel, seat);
    begin(rt);
    let are_as_expected = give_up_and_try(&mut receiver, &mut sender)
        && sleep_and_wake(&mut receiver, &mut sender)
        && close(&mut receiver, &mut sender);
    end(
        rt,
        "Channel: begin_(try_)send, begin_(try_)receive, begin_close, step, steps, give_up, step_len, step_is_closed; number, left",
        are_as_expected,
    );
    true
}
