//! Storms: some threads send while others receive, by calls of each kind, and each item is handled exactly once.

use super::assertions::{assert_case, assert_equal};
use super::steps::{Received, Sent, open};
use fak_channel::{End, ReceiveFault, SendFault};
use std::process::Abort;
use std::sync::Wait;
use std::sync::atomic::{AtomicU64, Ordering};
use std::thread::{Threads, map_vec};
use std::time::{Clock, Duration, Instant};

/// The parameters of a storm.
#[derive(Clone, Copy, Debug, Drop)]
struct Storm {
    size: u64,
    senders: u64,
    receivers: u64,
    /// The number of items that each sender sends.
    items: u64,
    /// The number of kinds of calls: calls that sleep, tries, and calls with a deadline, in this order.
    kinds: u64,
    /// Whether the first sender closes the channel halfway. Otherwise the last sender closes it when it is done.
    closes_early: bool,
}

/// Which items were handled: their number, their sum, and the sum of their scrambled values.
#[derive(Clone, Copy, Debug, PartialEq, Eq, Drop)]
struct Handled {
    count: u64,
    sum: u64,
    scrambled: u64,
}

impl Handled {
    fn none() -> Handled {
        Handled {
            count: 0,
            sum: 0,
            scrambled: 0,
        }
    }

    fn add(&mut self, other: Handled) {
        self.count = self.count.wrapping_add(other.count);
        self.sum = self.sum.wrapping_add(other.sum);
        self.scrambled = self.scrambled.wrapping_add(other.scrambled);
    }

    fn of(item: u64) -> Handled {
        let scrambled = item.wrapping_mul(11_400_714_819_323_198_485);
        Handled {
            count: 1,
            sum: item,
            scrambled: scrambled ^ (scrambled >> 29),
        }
    }
}

/// What a thread does.
#[derive(Clone, Copy, Debug, Drop)]
enum Role {
    /// Sends items from this one on.
    Sends(u64),
    /// Receives until the channel is closed and empty.
    Receives,
}

/// An end and what its thread does.
#[derive(Drop)]
struct Job<'c> {
    end: End<'c, u64>,
    role: Role,
}

/// What the threads of a storm share.
#[derive(Drop)]
struct Shared {
    storm: Storm,
    senders_left: AtomicU64,
}

/// What a thread sent, and what it received.
#[derive(Clone, Copy, Debug, Drop)]
struct Done {
    sent: Handled,
    received: Handled,
}

/// A few microseconds from now, or now.
fn soon<R: Abort + Clock>(rt: &R, step: u64) -> Instant {
    let now = Instant::now(rt).ok().expect(rt, "a clock");
    now.checked_add(Duration::from_micros(step % 7 * 3))
        .expect(rt, "a time")
}

/// Sends the item by the kind of call for this step.
fn send_by<R: Abort + Wait + Clock>(
    rt: &R,
    end: &mut End<'_, u64>,
    item: u64,
    step: u64,
    kinds: u64,
) -> Sent {
    match step % kinds.max(1) {
        0 => end.send(rt, item),
        1 => end.try_send(rt, item),
        _ => end.send_deadline(rt, item, soon(rt, step)),
    }
}

/// Receives by the kind of call for this step.
fn receive_by<R: Abort + Wait + Clock>(
    rt: &R,
    end: &mut End<'_, u64>,
    step: u64,
    kinds: u64,
) -> Received {
    match step % kinds.max(1) {
        0 => end.receive(rt),
        1 => end.try_receive(rt),
        _ => end.receive_deadline(rt, soon(rt, step)),
    }
}

/// Whether the sender goes on. Checks that the item that was not sent came back.
fn goes_on<R: Abort>(rt: &R, item: u64, fault: SendFault<u64>) -> bool {
    let (goes, back) = match fault {
        SendFault::Closed { item } => (false, item),
        SendFault::Worn { item: _ } => panic!(rt; "worn"),
        SendFault::Full { item } => (true, item),
        SendFault::TimedOut { item } => (true, item),
    };
    assert_equal(rt, back, item);
    goes
}

/// Sends items from this one on, and tries again if the channel is full.
fn send_all<R: Abort + Wait + Clock>(
    rt: &R,
    end: &mut End<'_, u64>,
    storm: Storm,
    first: u64,
) -> Handled {
    let mut sent = Handled::none();
    let mut step = first;
    for _ in rt.forever() {
        if sent.count >= storm.items {
            break;
        }
        let item = first.wrapping_add(sent.count);
        step = step.wrapping_add(1);
        match send_by(rt, end, item, step, storm.kinds) {
            Ok(()) => sent.add(Handled::of(item)),
            Err(fault) => {
                if !goes_on(rt, item, fault) {
                    break;
                }
            }
        }
        if storm.closes_early && first == 0 && sent.count == storm.items / 2 {
            assert_case(rt, &storm, end.close(rt).is_ok());
        }
    }
    sent
}

/// Receives until the channel is closed and empty.
fn receive_all<R: Abort + Wait + Clock>(rt: &R, end: &mut End<'_, u64>, storm: Storm) -> Handled {
    let mut received = Handled::none();
    let mut step = 0u64;
    for _ in rt.forever() {
        step = step.wrapping_add(1);
        match receive_by(rt, end, step, storm.kinds) {
            Ok(item) => received.add(Handled::of(item)),
            Err(ReceiveFault::Closed) => break,
            Err(ReceiveFault::Worn) => panic!(rt; "worn"),
            Err(ReceiveFault::Empty) => {}
            Err(ReceiveFault::TimedOut) => {}
        }
    }
    received
}

/// Does what the thread should do. The last sender closes the channel.
fn work<R: Abort + Wait + Clock>(rt: &R, shared: &Shared, job: Job<'_>) -> Done {
    let Job { mut end, role } = job;
    let mut done = Done {
        sent: Handled::none(),
        received: Handled::none(),
    };
    match role {
        Role::Sends(first) => {
            done.sent = send_all(rt, &mut end, shared.storm, first);
            if shared.senders_left.fetch_sub(1, Ordering::SeqCst) == 1 {
                assert_case(rt, &shared.storm, end.close(rt).is_ok());
            }
        }
        Role::Receives => done.received = receive_all(rt, &mut end, shared.storm),
    }
    done
}

/// A job for each end: the first ends send.
fn jobs_of<'c, R: Abort + AllocGlobal>(
    rt: &R,
    storm: Storm,
    ends: Vec<End<'c, u64>>,
) -> Vec<Job<'c>> {
    let mut jobs = Vec::new(rt.alloc());
    let mut number = 0u64;
    for end in ends {
        let role = if number < storm.senders {
            Role::Sends(number.wrapping_mul(storm.items))
        } else {
            Role::Receives
        };
        number = number.wrapping_add(1);
        jobs.push(Job { end, role }).expect(rt, "memory");
    }
    jobs
}

/// Lets the threads of a storm send and receive. Checks that what was received is what was sent.
fn rage<R: Abort + AllocGlobal + Threads + Wait + Clock + Sync>(rt: &R, storm: Storm) {
    let ends = storm.senders.wrapping_add(storm.receivers);
    let (channel, seats) = open(rt, storm.size, ends, 1 << 40);
    let ends = channel.ends(rt.alloc(), seats).expect(rt, "memory");
    let jobs = jobs_of(rt, storm, ends);
    let shared = Shared {
        storm,
        senders_left: AtomicU64::new(storm.senders),
    };
    let all = map_vec(rt, jobs, &|job| work(rt, &shared, job)).expect(rt, "memory");
    let mut sent = Handled::none();
    let mut received = Handled::none();
    for done in all {
        sent.add(done.sent);
        received.add(done.received);
    }
    assert_equal(rt, received, sent);
    let wanted = storm.senders.wrapping_mul(storm.items);
    assert_case(
        rt,
        &(storm, sent),
        storm.closes_early || sent.count == wanted,
    );
}

/// Storms of each shape, over channels of one and more cells.
fn rage_in_all_shapes<R: Abort + AllocGlobal + Threads + Wait + Clock + Sync>(
    rt: &R,
    kinds: u64,
    closes_early: bool,
) {
    const SHAPES: &[(u64, u64, u64)] = &[
        (1, 1, 1),
        (1, 3, 5),
        (1, 12, 2),
        (2, 2, 12),
        (2, 8, 8),
        (5, 3, 3),
    ];
    for (size, senders, receivers) in SHAPES {
        rage(
            rt,
            Storm {
                size: *size,
                senders: *senders,
                receivers: *receivers,
                items: 600,
                kinds,
                closes_early,
            },
        );
    }
}

#[test]
fn calls_that_sleep(rt: HostRuntime) {
    rage_in_all_shapes(&rt, 1, false);
    rage_in_all_shapes(&rt, 1, true);
}

#[test]
fn calls_that_sleep_among_tries(rt: HostRuntime) {
    rage_in_all_shapes(&rt, 2, false);
    rage_in_all_shapes(&rt, 2, true);
}

#[test]
fn calls_of_all_kinds(rt: HostRuntime) {
    rage_in_all_shapes(&rt, 3, false);
    rage_in_all_shapes(&rt, 3, true);
}
