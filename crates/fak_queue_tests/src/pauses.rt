//! Pauses, which leave answers and seats as they are, and take their time where seats meet.

use super::assertions::{assert_case, assert_equal, assert_left};
use super::steps::{A, B, Step, close, open, open_and_walk, open_one, take};
use crossbeam_utils::Backoff;
use fak_queue::{Port, SeatState, Tally};
use std::process::Abort;
use std::sync::Wait;
use std::time::{Clock, Instant};

#[test]
fn a_seat_pauses_in_each_state(rt: HostRuntime) {
    const STEPS: &[(usize, Step<u64>)] = &[
        (A, Step::Pause),
        (A, Step::ClaimInsert(7, Ok(0))),
        (A, Step::Pause),
        (A, Step::State(SeatState::Inserting(0))),
        (A, Step::TryFill(Some(0))),
        (B, Step::ClaimDelete(Ok(0))),
        (B, Step::Pause),
        (B, Step::State(SeatState::Deleting(0))),
        (B, Step::TryTake(Some((0, 7)))),
        (B, Step::Pause),
        (B, Step::State(SeatState::Idle)),
        (B, Step::Left(8)),
    ];
    open_and_walk(&rt, (1, 2, 9), STEPS);
}

/// Passes 400 numbers from one port to the other, each of which pauses after each call.
fn pass_all<R: Abort + Wait>(rt: &R, mut sender: Port<'_, u64>, mut receiver: Port<'_, u64>) {
    for number in 0..400u64 {
        assert_equal(rt, sender.insert(rt, number), Ok(number));
        sender.pause();
        assert_equal(rt, receiver.delete(rt), Ok((number, number)));
        receiver.pause();
    }
    assert_equal(rt, [sender.left(), receiver.left()], [600, 600]);
}

#[test]
fn ports_that_take_turns_pause(rt: HostRuntime) {
    let (queue, mut seats) = open::<u64>(&rt, (64, 2, 1000));
    let mut seat = take(&rt, &queue, &mut seats);
    seat.set_pauses_in_calls(false);
    let receiver = Port::new(&queue, take(&rt, &queue, &mut seats));
    pass_all(&rt, Port::new(&queue, seat), receiver);
}

#[test]
fn a_seat_whose_calls_do_not_pause_is_told_to_again(rt: HostRuntime) {
    let (queue, mut seat) = open_one::<u64>(&rt, 64, 9);
    seat.set_pauses_in_calls(false);
    assert_equal(&rt, queue.wait_insert(&rt, &mut seat, 7), Ok(0));
    seat.set_pauses_in_calls(true);
    assert_equal(&rt, queue.wait_insert(&rt, &mut seat, 8), Ok(1));
    assert_equal(&rt, seat.left(), 7);
    assert_left(&rt, close(&rt, queue, Tally::of(seat)), &[7, 8]);
}

/// What a test times.
#[derive(Clone, Copy, Debug)]
enum Work {
    /// Ports that pause in their calls.
    InCalls,
    /// Ports that pause between their calls.
    Between,
    /// Only the spins of their pauses.
    Spins,
}

/// Passes 1,000 numbers from one port to the other, each of which pauses eight times: once for 112 tickets.
fn pass_thousand<R: Abort + AllocGlobal + Wait>(rt: &R, in_calls: bool) {
    let (queue, mut seats) = open::<u64>(rt, (1024, 2, 1000));
    let mut first = take(rt, &queue, &mut seats);
    let mut second = take(rt, &queue, &mut seats);
    first.set_pauses_in_calls(in_calls);
    second.set_pauses_in_calls(in_calls);
    let mut sender = Port::new(&queue, first);
    let mut receiver = Port::new(&queue, second);
    for number in 0..1000u64 {
        assert_equal(rt, sender.insert(rt, number), Ok(number));
        assert_equal(rt, receiver.delete(rt), Ok((number, number)));
        if !in_calls {
            sender.pause();
            receiver.pause();
        }
    }
}

/// Spins as often as the pauses of both ports: 102 rounds in each.
fn spin() {
    for _ in 0..16u64 {
        let backoff = Backoff::new();
        for _ in 0..102u64 {
            backoff.spin();
        }
    }
}

/// The nanoseconds that the work takes, the fewest of five times.
fn fewest_nanos<R: Abort + AllocGlobal + Clock + Wait>(rt: &R, work: Work) -> u128 {
    let mut fewest = u128::MAX;
    for _ in 0..5u64 {
        let begun = Instant::now(rt).expect(rt, "a clock");
        match work {
            Work::InCalls => pass_thousand(rt, true),
            Work::Between => pass_thousand(rt, false),
            Work::Spins => spin(),
        }
        let ended = Instant::now(rt).expect(rt, "a clock");
        fewest = fewest.min(ended.duration_since(begun).as_nanos());
    }
    fewest
}

#[test]
fn seats_that_meet_pause_as_long_as_they_spin(rt: HostRuntime) {
    let spins = fewest_nanos(&rt, Work::Spins);
    for work in [Work::InCalls, Work::Between] {
        // A pause takes no less than its spins. A quarter of that is more than all calls take without pauses.
        let is_long = fewest_nanos(&rt, work).saturating_mul(4) >= spins;
        assert_case(&rt, &work, is_long);
    }
}
