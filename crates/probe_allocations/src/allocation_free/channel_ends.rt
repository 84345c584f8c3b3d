//! Calls of a channel's ends by one thread.

use super::sentinels::{begin, end};
use fak_channel::{Channel, End, ReceiveFault, SendFault};
use std::sync::Wait;
use std::time::{Clock, Duration, Instant};

/// Sends and receives of two ends of a channel with one cell.
fn send_and_receive<R: Wait>(rt: &R, first: &mut End<'_, u64>, second: &mut End<'_, u64>) -> bool {
    second.try_receive(rt) == Err(ReceiveFault::Empty)
        && first.send(rt, 10) == Ok(())
        && first.try_send(rt, 11) == Err(SendFault::Full { item: 11 })
        && second.len() == 1
        && !second.is_empty()
        && second.receive(rt) == Ok(10)
        && first.try_send(rt, 11) == Ok(())
        && second.try_receive(rt) == Ok(11)
}

/// What two ends do at the end.
fn close_by_two<R: Wait>(rt: &R, first: &mut End<'_, u64>, second: &mut End<'_, u64>) -> bool {
    first.close(rt) == Ok(true)
        && second.close(rt) == Ok(false)
        && first.send(rt, 12) == Err(SendFault::Closed { item: 12 })
        && second.receive(rt) == Err(ReceiveFault::Closed)
        && second.is_closed()
}

/// Calls of ends.
pub(super) fn call_ends(rt: &(impl Print + AllocGlobal + Wait)) -> bool {
    let Ok((channel, mut seats)) = Channel::<u64>::open(rt.alloc(), 1, 2, 100) else {
        return false;
    };
    let Some(seat) = seats.pop() else {
        unreachable!()
    };
    let mut first = End::new(&channel, seat);
    let Some(seat) = seats.pop() else {
        unreachable!()
    };
    let mut second = End::new(&channel, seat);
    begin(rt);
    let are_as_expected = send_and_receive(rt, &mut first, &mut second)
        && close_by_two(rt, &mut first, &mut second);
    end(
        rt,
        "End: send, try_send, receive, try_receive, close, len, is_empty, is_closed",
        are_as_expected,
    );
    true
}

/// The time a millisecond from now, if there is a clock.
fn soon<R: Clock>(rt: &R) -> Option<Instant> {
    let now = Instant::now(rt).ok()?;
    now.checked_add(Duration::from_millis(1))
}

/// Calls of the only end of a channel with one cell, which sleep until their deadlines.
fn sleep_until_deadlines<R: Wait + Clock>(rt: &R, end: &mut End<'_, u64>) -> bool {
    let Some(deadline) = soon(rt) else {
        return false;
    };
    if end.receive_deadline(rt, deadline) != Err(ReceiveFault::TimedOut) {
        return false;
    }
    let Some(deadline) = soon(rt) else {
        return false;
    };
    end.send_deadline(rt, 10, deadline) == Ok(())
        && end.send_deadline(rt, 11, deadline) == Err(SendFault::TimedOut { item: 11 })
}

/// Calls that sleep until a deadline.
pub(super) fn time_out(rt: &(impl Print + AllocGlobal + Wait + Clock)) -> bool {
    let Ok((channel, mut seats)) = Channel::<u64>::open(rt.alloc(), 1, 1, 100) else {
        return false;
    };
    let Some(seat) = seats.pop() else {
        unreachable!()
    };
    let mut only = End::new(&channel, seat);
    begin(rt);
    let are_as_expected = sleep_until_deadlines(rt, &mut only);
    end(
        rt,
        "End: send_deadline, receive_deadline, which time out",
        are_as_expected,
    );
    true
}
