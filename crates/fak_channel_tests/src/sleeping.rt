//! Threads that sleep, and what wakes them.

use super::assertions::{assert_case, assert_equal};
use super::steps::{Step, meets, open, soon};
use fak_channel::{End, ReceiveFault, SendFault};
use std::process::Abort;
use std::sync::Wait;
use std::thread::{Threads, map_vec, sleep};
use std::time::{Clock, CpuClock, Duration, Instant};

/// The steps of a thread, and the number of milliseconds after which it begins.
type Part = (u64, &'static [Step]);

/// An end and its part.
#[derive(Drop)]
struct Job<'c> {
    end: End<'c, u64>,
    part: Part,
}

/// Performs the steps of the job in their order.
fn work<R: Abort + Wait + Clock>(rt: &R, job: Job<'_>) {
    let Job { mut end, part } = job;
    sleep(rt, Duration::from_millis(part.0));
    for step in part.1 {
        let holds = meets(rt, &mut end, step);
        assert_case(rt, step, holds);
    }
}

/// An end for each of the parts. The end that is taken first has sent these items.
fn jobs_of<'c, R: Abort + AllocGlobal + Wait>(
    rt: &R,
    mut ends: Vec<End<'c, u64>>,
    before: &[u64],
    parts: &[Part],
) -> Vec<Job<'c>> {
    let mut first = ends.pop().expect(rt, "an end");
    for item in before {
        assert_equal(rt, first.send(rt, *item), Ok(()));
    }
    ends.push(first).expect(rt, "room");
    let mut jobs = Vec::new(rt.alloc());
    for part in parts {
        let end = ends.pop().expect(rt, "an end");
        jobs.push(Job { end, part: *part }).expect(rt, "memory");
    }
    jobs
}

/// Sends these items into a channel of `size` cells, and then runs a thread for each of the parts.
fn at_once<R: Abort + AllocGlobal + Threads + Wait + Clock + Sync>(
    rt: &R,
    size: u64,
    before: &[u64],
    parts: &[Part],
) {
    let (channel, seats) = open(rt, size, parts.len() as u64, 100);
    let ends = channel.ends(rt.alloc(), seats).expect(rt, "memory");
    let jobs = jobs_of(rt, ends, before, parts);
    map_vec(rt, jobs, &|job| work(rt, job)).expect(rt, "memory for the threads");
}

#[test]
fn a_receiver_wakes_up_at_an_item(rt: HostRuntime) {
    const PARTS: &[Part] = &[
        (0, &[Step::Receive(Ok(10)), Step::Receive(Ok(11))]),
        (20, &[Step::Send(10, Ok(())), Step::Send(11, Ok(()))]),
    ];
    at_once(&rt, 1, &[], PARTS);
}

#[test]
fn a_sender_wakes_up_at_a_free_cell(rt: HostRuntime) {
    const PARTS: &[Part] = &[
        (0, &[Step::Send(12, Ok(())), Step::Send(13, Ok(()))]),
        (
            20,
            &[
                Step::Receive(Ok(10)),
                Step::Receive(Ok(11)),
                Step::Receive(Ok(12)),
                Step::Receive(Ok(13)),
            ],
        ),
    ];
    at_once(&rt, 2, &[10, 11], PARTS);
}

#[test]
fn receivers_wake_up_at_a_close(rt: HostRuntime) {
    const OVER: &[Step] = &[Step::Receive(Err(ReceiveFault::Closed))];
    const PARTS: &[Part] = &[
        (0, OVER),
        (0, OVER),
        (0, OVER),
        (0, OVER),
        (0, OVER),
        (20, &[Step::Close(Ok(true))]),
    ];
    at_once(&rt, 1, &[], PARTS);
}

#[test]
fn senders_wake_up_at_a_close(rt: HostRuntime) {
    const PARTS: &[Part] = &[
        (0, &[Step::Send(11, Err(SendFault::Closed { item: 11 }))]),
        (0, &[Step::Send(12, Err(SendFault::Closed { item: 12 }))]),
        (0, &[Step::Send(13, Err(SendFault::Closed { item: 13 }))]),
        (0, &[Step::Send(14, Err(SendFault::Closed { item: 14 }))]),
        (
            20,
            &[
                Step::Close(Ok(true)),
                Step::Receive(Ok(10)),
                Step::Receive(Err(ReceiveFault::Closed)),
            ],
        ),
    ];
    at_once(&rt, 1, &[10], PARTS);
}

#[test]
fn a_deadline_ends_a_sleep_that_takes_no_processor_time(rt: HostRuntime) {
    let (channel, seats) = open::<u64>(&rt, 1, 1, 100);
    let mut ends = channel.ends(rt.alloc(), seats).expect(&rt, "memory");
    let mut end = ends.pop().expect(&rt, "an end");
    let began = Instant::now(&rt).ok().expect(&rt, "a clock");
    let used = rt.thread_cpu_time().ok().expect(&rt, "a clock");
    let received = end.receive_deadline(&rt, soon(&rt, 300));
    assert_equal(&rt, received, Err(ReceiveFault::TimedOut));
    let slept = began.elapsed(&rt).ok().expect(&rt, "a clock");
    let used_then = rt.thread_cpu_time().ok().expect(&rt, "a clock");
    assert_case(&rt, &slept, slept >= Duration::from_millis(300));
    let spent = used_then.checked_sub(used).expect(&rt, "a time");
    assert_case(&rt, &spent, spent < Duration::from_millis(100));
}
