//! Calls by steps: of one thread, and storms of threads that sleep on tokens of their own, or give up.

use super::assertions::{assert_case, assert_equal};
use super::stepper::{Ended, Stepper, Tokens};
use super::steps::open;
use fak_channel::{ChannelState, ChannelStep, End, Outcome, ReceiveFault, SendFault, Wish};
use std::process::Abort;
use std::sync::Wait;
use std::sync::atomic::{AtomicU64, Ordering};
use std::thread::{Threads, map_vec};

/// Sends the item by steps.
fn send<R: Abort + Wait>(rt: &R, end: &mut Stepper<'_>, item: u64) -> Ended {
    assert_equal(rt, end.begin_send(rt, item), Ok(()));
    end.finish(rt)
}

/// Receives an item by steps.
fn receive<R: Abort + Wait>(rt: &R, end: &mut Stepper<'_>) -> Ended {
    assert_equal(rt, end.begin_receive(rt), Ok(()));
    end.finish(rt)
}

/// Closes the channel by steps.
fn close<R: Abort + Wait>(rt: &R, end: &mut Stepper<'_>) -> Ended {
    assert_equal(rt, end.begin_close(rt), Ok(()));
    end.finish(rt)
}

/// Takes the last of the ends. Its calls go by steps, and it gives up each call that sleeps.
fn next<'c>(rt: &impl Abort, ends: &mut Vec<End<'c, u64>>, tokens: &'c Tokens) -> Stepper<'c> {
    let end = ends.pop().expect(rt, "an end");
    Stepper::new(end, tokens, 0)
}

#[test]
fn an_end_makes_each_call_by_steps(rt: HostRuntime) {
    let (channel, seats) = open::<u64>(&rt, 1, 1, 100);
    let tokens = Tokens::new(&rt, 1);
    let mut ends = channel.ends(rt.alloc(), seats).expect(&rt, "memory");
    let mut end = next(&rt, &mut ends, &tokens);
    assert_equal(&rt, end.number(), 0);
    assert_equal(&rt, end.left(), 100);
    assert_equal(&rt, end.begin_try_receive(&rt), Err(ReceiveFault::Empty));
    assert_equal(&rt, receive(&rt, &mut end), Ended::GaveUp(Wish::Receive));
    assert_equal(&rt, send(&rt, &mut end, 10), Ended::Done(Outcome::Sent));
    assert_equal(&rt, end.len(), 1);
    let full = SendFault::Full { item: 11 };
    assert_equal(&rt, end.begin_try_send(&rt, 11), Err(full));
    assert_equal(&rt, send(&rt, &mut end, 12), Ended::GaveUp(Wish::Send(12)));
    assert_equal(&rt, end.begin_try_receive(&rt), Ok(()));
    assert_equal(&rt, end.state(), ChannelState::Open);
    assert_equal(&rt, end.finish(&rt), Ended::Done(Outcome::Received(10)));
    assert_equal(&rt, end.begin_try_send(&rt, 13), Ok(()));
    assert_equal(&rt, end.finish(&rt), Ended::Done(Outcome::Sent));
    assert_equal(&rt, end.is_closed(), false);
    assert_equal(&rt, close(&rt, &mut end), Ended::Done(Outcome::Closed));
    assert_equal(&rt, end.is_closed(), true);
    let closed = SendFault::Closed { item: 14 };
    assert_equal(&rt, end.begin_try_send(&rt, 14), Err(closed));
    assert_equal(
        &rt,
        send(&rt, &mut end, 15),
        Ended::Done(Outcome::Refused(15)),
    );
    assert_equal(
        &rt,
        receive(&rt, &mut end),
        Ended::Done(Outcome::Received(13)),
    );
    assert_equal(&rt, receive(&rt, &mut end), Ended::Done(Outcome::Drained));
    assert_equal(&rt, end.begin_try_receive(&rt), Err(ReceiveFault::Closed));
    assert_equal(&rt, close(&rt, &mut end), Ended::Done(Outcome::WasClosed));
    assert_equal(&rt, end.state(), ChannelState::Idle);
}

#[test]
fn an_end_with_a_stint_of_1_makes_one_call_and_closes(rt: HostRuntime) {
    let (channel, seats) = open::<u64>(&rt, 1, 1, 1);
    let tokens = Tokens::new(&rt, 1);
    let mut ends = channel.ends(rt.alloc(), seats).expect(&rt, "memory");
    let mut end = next(&rt, &mut ends, &tokens);
    assert_equal(&rt, end.left(), 1);
    assert_equal(&rt, send(&rt, &mut end, 10), Ended::Done(Outcome::Sent));
    assert_equal(&rt, end.left(), 0);
    let worn = SendFault::Worn { item: 11 };
    assert_equal(&rt, end.begin_send(&rt, 11), Err(worn));
    assert_equal(&rt, end.begin_try_send(&rt, 11), Err(worn));
    assert_equal(&rt, end.begin_receive(&rt), Err(ReceiveFault::Worn));
    assert_equal(&rt, end.begin_try_receive(&rt), Err(ReceiveFault::Worn));
    assert_equal(&rt, close(&rt, &mut end), Ended::Done(Outcome::Closed));
}

/// Takes steps of the call, one by one, until one does not go on.
fn goes_on(rt: &impl Abort, end: &mut Stepper<'_>) -> ChannelStep<u64> {
    let mut step = ChannelStep::GoesOn;
    for _ in 0..99 {
        if step == ChannelStep::GoesOn {
            step = end.step(rt);
        }
    }
    step
}

#[test]
fn a_send_wakes_the_receiver_that_sleeps(rt: HostRuntime) {
    let (channel, seats) = open::<u64>(&rt, 1, 2, 100);
    let tokens = Tokens::new(&rt, 2);
    let mut ends = channel.ends(rt.alloc(), seats).expect(&rt, "memory");
    let mut receiver = next(&rt, &mut ends, &tokens);
    let mut sender = next(&rt, &mut ends, &tokens);
    assert_equal(&rt, receiver.begin_receive(&rt), Ok(()));
    assert_equal(&rt, goes_on(&rt, &mut receiver), ChannelStep::Sleeps);
    assert_equal(&rt, receiver.steps(&rt), ChannelStep::Sleeps);
    assert_equal(&rt, receiver.state(), ChannelState::Sleeping);
    assert_equal(&rt, sender.begin_send(&rt, 10), Ok(()));
    assert_equal(&rt, sender.steps(&rt), ChannelStep::Wakes(1));
    // The wake-up came before the thread gave up.
    assert_equal(&rt, receiver.give_up(&rt), None);
    assert_equal(&rt, sender.finish(&rt), Ended::Done(Outcome::Sent));
    assert_equal(
        &rt,
        receiver.finish(&rt),
        Ended::Done(Outcome::Received(10)),
    );
}

/// Closes the channel while the call of end 1 sleeps. The close wakes it, and its call ends with this outcome.
fn close_wakes<R: Abort + Wait>(
    rt: &R,
    closer: &mut Stepper<'_>,
    sleeper: &mut Stepper<'_>,
    outcome: Outcome<u64>,
) {
    assert_equal(rt, goes_on(rt, sleeper), ChannelStep::Sleeps);
    assert_equal(rt, closer.begin_close(rt), Ok(()));
    assert_equal(rt, goes_on(rt, closer), ChannelStep::Wakes(1));
    assert_equal(rt, closer.finish(rt), Ended::Done(Outcome::Closed));
    assert_equal(rt, sleeper.finish(rt), Ended::Done(outcome));
}

#[test]
fn a_close_wakes_the_receiver_that_sleeps(rt: HostRuntime) {
    let (channel, seats) = open::<u64>(&rt, 1, 2, 100);
    let tokens = Tokens::new(&rt, 2);
    let mut ends = channel.ends(rt.alloc(), seats).expect(&rt, "memory");
    let mut receiver = next(&rt, &mut ends, &tokens);
    let mut closer = next(&rt, &mut ends, &tokens);
    assert_equal(&rt, receiver.begin_receive(&rt), Ok(()));
    close_wakes(&rt, &mut closer, &mut receiver, Outcome::Drained);
}

#[test]
fn a_close_wakes_the_sender_that_sleeps(rt: HostRuntime) {
    let (channel, seats) = open::<u64>(&rt, 1, 2, 100);
    let tokens = Tokens::new(&rt, 2);
    let mut ends = channel.ends(rt.alloc(), seats).expect(&rt, "memory");
    let mut sender = next(&rt, &mut ends, &tokens);
    let mut closer = next(&rt, &mut ends, &tokens);
    assert_equal(&rt, send(&rt, &mut sender, 10), Ended::Done(Outcome::Sent));
    assert_equal(&rt, sender.begin_send(&rt, 11), Ok(()));
    close_wakes(&rt, &mut closer, &mut sender, Outcome::Refused(11));
}

/// What a thread does. It sends items from the first number on, as many as the second number; or it receives until the end.
#[derive(Clone, Copy, Debug, Drop)]
enum Role {
    Sends(u64, u64),
    Receives,
}

/// An end and what its thread does.
#[derive(Drop)]
struct Job<'c> {
    end: Stepper<'c>,
    role: Role,
}

/// Sends the items, and sends an item again if its call gave up.
fn send_all<R: Abort + Wait>(rt: &R, end: &mut Stepper<'_>, first: u64, count: u64) {
    let mut sent = 0u64;
    for _ in rt.forever() {
        if sent == count {
            return;
        }
        let item = first.wrapping_add(sent);
        match send(rt, end, item) {
            Ended::Done(Outcome::Sent) => sent = sent.wrapping_add(1),
            other => assert_equal(rt, other, Ended::GaveUp(Wish::Send(item))),
        }
    }
}

/// Receives until the channel is closed and empty. Returns the sum of the items.
fn receive_all<R: Abort + Wait>(rt: &R, end: &mut Stepper<'_>) -> u64 {
    let mut sum = 0u64;
    for _ in rt.forever() {
        match receive(rt, end) {
            Ended::Done(Outcome::Received(item)) => sum = sum.wrapping_add(item),
            Ended::Done(Outcome::Drained) => return sum,
            other => assert_equal(rt, other, Ended::GaveUp(Wish::Receive)),
        }
    }
    sum
}

/// Does what the thread should do. The last sender closes the channel. Returns the sum of what the thread received.
fn work<R: Abort + Wait>(rt: &R, senders_left: &AtomicU64, job: Job<'_>) -> u64 {
    let Job { mut end, role } = job;
    match role {
        Role::Sends(first, count) => {
            send_all(rt, &mut end, first, count);
            if senders_left.fetch_sub(1, Ordering::SeqCst) == 1 {
                assert_equal(rt, close(rt, &mut end), Ended::Done(Outcome::Closed));
            }
            0
        }
        Role::Receives => receive_all(rt, &mut end),
    }
}

/// Lets threads send and receive by steps. Checks that the sum of what they receive is the sum of what they send.
fn rage<R: Abort + AllocGlobal + Threads + Wait + Sync>(
    rt: &R,
    shape: (u64, u64, u64),
    patience: u64,
) {
    const ITEMS: u64 = 200;
    let (size, senders, receivers) = shape;
    let count = senders.wrapping_add(receivers);
    let (channel, seats) = open::<u64>(rt, size, count, 1 << 30);
    let tokens = Tokens::new(rt, count);
    let ends = channel.ends(rt.alloc(), seats).expect(rt, "memory");
    let mut jobs = Vec::new(rt.alloc());
    for end in ends {
        let end = Stepper::new(end, &tokens, patience);
        let number = end.number();
        let role = if number < senders {
            Role::Sends(number.wrapping_mul(ITEMS), ITEMS)
        } else {
            Role::Receives
        };
        jobs.push(Job { end, role }).expect(rt, "memory");
    }
    let left = AtomicU64::new(senders);
    let sums = map_vec(rt, jobs, &|job| work(rt, &left, job)).expect(rt, "memory");
    let mut sum = 0u64;
    for part in sums {
        sum = sum.wrapping_add(part);
    }
    let all = senders.wrapping_mul(ITEMS);
    assert_case(
        rt,
        &(shape, patience, sum),
        sum.wrapping_mul(2) == all.wrapping_mul(all.wrapping_sub(1)),
    );
}

/// Storms over channels of one and more cells.
fn rage_in_all_shapes<R: Abort + AllocGlobal + Threads + Wait + Sync>(rt: &R, patience: u64) {
    rage(rt, (1, 1, 1), patience);
    rage(rt, (1, 3, 5), patience);
    rage(rt, (2, 6, 2), patience);
    rage(rt, (5, 3, 3), patience);
}

#[test]
fn calls_by_steps_that_sleep(rt: HostRuntime) {
    rage_in_all_shapes(&rt, u64::MAX);
}

#[test]
fn calls_by_steps_that_give_up(rt: HostRuntime) {
    rage_in_all_shapes(&rt, 3);
}
