//! The results of the calls of an end of a channel as numbers. Those that begin or give up a call stay calls: else their exports would call
//! nothing, and LLVM would have them write below the stack, which a kernel's interrupts overwrite.

ghost use Rattle.std.specs.Prelude.{◌≡◌};
ghost use Rattle.fak_handles.specs.channel.Calls.{begin_close_code, begin_receive_code, begin_send_code, channel_state_code, give_up_code, given_up_or, roused_or, step_code, stepped_or};
ghost use Rattle.fak_handles.specs.channel.Lending.{lent_or, loan_code, return_code, wakes_or};

use crate::channel::lending::BorrowOutcome;
use crate::channel::seat::Item;
use crate::code::{CLOSED, EMPTY, FULL, GAVE_UP, NOT_YET, OK, SLEEPS, WAKES, WORN, WRONG_STATE};
use fak_channel::{ChannelState, ChannelStep, ChannelWorn, Outcome, ReceiveFault, SendFault, Wish};

#[inline(never)]
pub fn of_begin_send(begun: &Option<Result<(), SendFault<Item>>>) -> i32
    ensures { result ≡ begin_send_code begun.now }
{
    match begun {
        None => WRONG_STATE,
        Some(Ok(())) => OK,
        Some(Err(SendFault::Worn { item: _ })) => WORN,
        Some(Err(SendFault::Closed { item: _ })) => CLOSED,
        Some(Err(SendFault::Full { item: _ })) => FULL,
        Some(Err(SendFault::TimedOut { item: _ })) => GAVE_UP,
    }
}

#[inline(never)]
pub fn of_begin_receive(begun: &Option<Result<(), ReceiveFault>>) -> i32
    ensures { result ≡ begin_receive_code begun.now }
{
    match begun {
        None => WRONG_STATE,
        Some(Ok(())) => OK,
        Some(Err(ReceiveFault::Worn)) => WORN,
        Some(Err(ReceiveFault::Closed)) => CLOSED,
        Some(Err(ReceiveFault::Empty)) => EMPTY,
        Some(Err(ReceiveFault::TimedOut)) => GAVE_UP,
    }
}

#[inline(never)]
pub fn of_begin_close(begun: &Option<Result<(), ChannelWorn>>) -> i32
    ensures { result ≡ begin_close_code begun.now }
{
    match begun {
        None => WRONG_STATE,
        Some(Ok(())) => OK,
        Some(Err(ChannelWorn)) => WORN,
    }
}

pub fn of_steps(stepped: &Option<ChannelStep<Item>>, item: &mut Item, number: &mut u64) -> i32
    ensures code { result ≡ step_code stepped.now }
    ensures item { item.new ≡ stepped_or item.old stepped.now }
    ensures number { number.new ≡ roused_or number.old stepped.now }
{
    match stepped {
        None => WRONG_STATE,
        Some(ChannelStep::GoesOn) => NOT_YET,
        Some(ChannelStep::NotYet) => NOT_YET,
        Some(ChannelStep::Sleeps) => SLEEPS,
        Some(ChannelStep::Wakes(woken)) => {
            *number = *woken;
            WAKES
        }
        Some(ChannelStep::Ends(Outcome::Sent)) => OK,
        Some(ChannelStep::Ends(Outcome::Refused(back))) => {
            *item = *back;
            CLOSED
        }
        Some(ChannelStep::Ends(Outcome::Received(out))) => {
            *item = *out;
            OK
        }
        Some(ChannelStep::Ends(Outcome::Drained)) => CLOSED,
        Some(ChannelStep::Ends(Outcome::Worn)) => WORN,
        Some(ChannelStep::Ends(Outcome::Closed)) => OK,
        Some(ChannelStep::Ends(Outcome::WasClosed)) => CLOSED,
    }
}

#[inline(never)]
pub fn of_give_up(given: &Option<Option<Wish<Item>>>, item: &mut Item) -> i32
    ensures code { result ≡ give_up_code given.now }
    ensures item { item.new ≡ given_up_or item.old given.now }
{
    match given {
        None => WRONG_STATE,
        Some(None) => NOT_YET,
        Some(Some(Wish::Send(back))) => {
            *item = *back;
            GAVE_UP
        }
        Some(Some(Wish::Receive)) => GAVE_UP,
    }
}

pub fn of_channel_state(state: ChannelState) -> u32
    ensures { result ≡ channel_state_code state }
{
    match state {
        ChannelState::Idle => 0,
        ChannelState::Open => 1,
        ChannelState::Sleeping => 2,
    }
}

/// Writes the number of an end that was lent.
pub fn of_loan(loan: &BorrowOutcome, number: &mut u64) -> i32
    ensures code { result ≡ loan_code loan.now }
    ensures number { number.new ≡ lent_or number.old loan.now }
{
    match loan {
        BorrowOutcome::Lent(lent) => {
            *number = *lent;
            OK
        }
        BorrowOutcome::Worn => WORN,
        BorrowOutcome::GivenUp => GAVE_UP,
        BorrowOutcome::Waits => SLEEPS,
    }
}

/// Writes whether a waiting caller is to be woken.
pub fn of_return(answer: Option<bool>, wakes: &mut bool) -> i32
    ensures code { result ≡ return_code answer }
    ensures wakes { wakes.new ≡ wakes_or wakes.old answer }
{
    match answer {
        None => WRONG_STATE,
        Some(is_due) => {
            *wakes = is_due;
            OK
        }
    }
}
