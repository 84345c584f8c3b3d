//! Sends and receives of two threads, each of which sleeps until the other has sent.

use super::sentinels::{begin, end};
use fak_channel::{Channel, End};
use std::marker::Sync;
use std::sync::Wait;
use std::thread;
use std::thread::Threads;

/// How many items go to and fro.
const ROUNDS: u64 = 1000;

/// Sends an item, and then sends back each item that it receives, until the channel is closed.
fn send_back<R: Wait>(rt: &R, mut there: End<'_, u64>, mut back: End<'_, u64>) -> bool {
    if back.send(rt, ROUNDS).is_err() {
        return false;
    }
    for _ in rt.forever() {
        match there.receive(rt) {
            Ok(item) => {
                if back.send(rt, item).is_err() {
                    return false;
                }
            }
            Err(_) => return true,
        }
    }
    unreachable!()
}

/// Sends items, and receives each of them before it sends the next.
fn send_to_and_fro<R: Wait>(rt: &R, there: &mut End<'_, u64>, back: &mut End<'_, u64>) -> bool {
    for item in 0..ROUNDS {
        if there.send(rt, item) != Ok(()) || back.receive(rt) != Ok(item) {
            return false;
        }
    }
    true
}

/// Calls of two threads. The other thread has begun, with all that it allocates, when its first item is here.
fn call_from_both<R: Print + AllocGlobal + Threads + Wait + Sync>(
    rt: &R,
    mut there: End<'_, u64>,
    mut back: End<'_, u64>,
    other_there: End<'_, u64>,
    other_back: End<'_, u64>,
) -> bool {
    thread::scope(thread::scope_env(), rt, move |scope| {
        let Ok(other) = scope.spawn(move || send_back(rt, other_there, other_back)) else {
            return false;
        };
        let has_begun = back.receive(rt) == Ok(ROUNDS);
        begin(rt);
        let are_as_expected = has_begun && send_to_and_fro(rt, &mut there, &mut back);
        end(
            rt,
            "End: send, receive, by threads that sleep",
            are_as_expected,
        );
        let is_closed = there.close(rt) == Ok(true);
        other.join(rt) && is_closed
    })
}

/// Opens a channel for each way, and has two threads call.
pub(super) fn call_in_two_threads<R: Print + AllocGlobal + Threads + Wait + Sync>(rt: &R) -> bool {
    let Ok((there, mut theres)) = Channel::<u64>::open(rt.alloc(), 1, 2, 1 << 20) else {
        return false;
    };
    let Ok((back, mut backs)) = Channel::<u64>::open(rt.alloc(), 1, 2, 1 << 20) else {
        return false;
    };
    let Some(seat) = theres.pop() else {
        unreachable!()
    };
    let first_there = End::new(&there, seat);
    let Some(seat) = theres.pop() else {
        unreachable!()
    };
    let second_there = End::new(&there, seat);
    let Some(seat) = backs.pop() else {
        unreachable!()
    };
    let first_back = End::new(&back, seat);
    let Some(seat) = backs.pop() else {
        unreachable!()
    };
    let second_back = End::new(&back, seat);
    call_from_both(rt, first_there, first_back, second_there, second_back)
}
