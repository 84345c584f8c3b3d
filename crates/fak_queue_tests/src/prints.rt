//! What queues, seats and faults print.

use super::assertions::{assert_equal, assert_written};
use super::bundle_steps::open_bundle;
use super::steps::{A, Step, close, joined, open, open_one, walk};
use fak_queue::{BurstFault, DeleteFault, InsertFault, OpenFault, Port, Queue};
use std::fmt::Display;
use std::process::Abort;

/// An insertion in two calls, after a deletion that is refused.
const INSERTION: &[(usize, Step<u64>)] = &[
    (A, Step::ClaimDelete(Err(DeleteFault::Empty(0)))),
    (A, Step::ClaimInsert(7, Ok(0))),
    (A, Step::TryFill(Some(0))),
];

#[test]
fn queues_print_their_numbers(rt: HostRuntime) {
    let (queue, mut seats) = open(&rt, (3, 1, 9));
    walk(&rt, &queue, &mut seats, &INSERTION[..2]);
    assert_written(&rt, &queue, "Queue { size: 3, .. }");
    assert_written(
        &rt,
        &seats,
        "[Seat { name: 0, state: Inserting(0), left: 8, .. }]",
    );
    walk(&rt, &queue, &mut seats, &INSERTION[2..]);
    let tally = joined(&rt, &queue, seats);
    assert_written(&rt, &tally, "Tally { seats: 1, is_whole: true, .. }");
    assert_written(&rt, &close(&rt, queue, tally), "Rest { left: 1, .. }");
}

#[test]
fn faults_print_what_they_hand_back(rt: HostRuntime) {
    let fault = Queue::<u64>::open(rt.alloc(), 0, 1, 1).expect_err(&rt, "a queue of no cells");
    assert_equal(&rt, fault, OpenFault::BadSize);
    assert_written(&rt, &fault, "BadSize");
    let full = InsertFault::Full { upper: 1, item: 7 };
    assert_written(&rt, &full, "Full { upper: 1, item: 7 }");
    assert_written(&rt, &DeleteFault::Empty(-1), "Empty(-1)");
}

#[test]
fn ports_print_their_queue_and_their_seat(rt: HostRuntime) {
    let (queue, seat) = open_one::<u64>(&rt, 3, 9);
    let port = Port::new(&queue, seat);
    let text =
        "Port { queue: Queue { size: 3, .. }, seat: Seat { name: 0, state: Idle, left: 9, .. } }";
    assert_written(&rt, &port, text);
}

#[test]
fn bundles_print_their_seats(rt: HostRuntime) {
    let (_, bundle, _) = open_bundle(&rt, 3, 2, 0, 9);
    assert_written(
        &rt,
        &bundle,
        "Bundle { names: [1, 0], state: Idle, left: 18, .. }",
    );
}

/// Checks that each fault prints as its text.
fn have_texts<F: Display>(rt: &(impl Abort + AllocGlobal), rows: &[(F, &str)]) {
    for (fault, text) in rows {
        let written = fault.to_string(rt.alloc()).expect(rt, "memory");
        assert_equal(rt, written.as_str(), *text);
    }
}

#[test]
fn faults_say_what_is_the_matter(rt: HostRuntime) {
    const OPENS: [(OpenFault, &str); 4] = [
        (OpenFault::BadSize, "the size is not 1 to 4096"),
        (OpenFault::BadSeats, "the number of seats is not 1 to 64"),
        (OpenFault::BadStint, "the stint is not 1 to 1099511627776"),
        (OpenFault::Memory, "out of memory"),
    ];
    const INSERTIONS: [(InsertFault<u64>, &str); 3] = [
        (InsertFault::Worn { item: 7 }, "the stint is used up"),
        (InsertFault::Closed { item: 7 }, "the queue is shut"),
        (
            InsertFault::Full { upper: 3, item: 7 },
            "the queue is full: its upper count was 3",
        ),
    ];
    const DELETIONS: [(DeleteFault, &str); 2] = [
        (DeleteFault::Worn, "the stint is used up"),
        (
            DeleteFault::Empty(0),
            "the queue is empty: its lower count was 0",
        ),
    ];
    const BURSTS: [(BurstFault, &str); 3] = [
        (BurstFault::Worn, "the stint is used up"),
        (BurstFault::Closed, "the queue is shut"),
        (
            BurstFault::Full { upper: 3 },
            "the queue is full: its upper count was 3",
        ),
    ];
    have_texts(&rt, &BURSTS);
    have_texts(&rt, &OPENS);
    have_texts(&rt, &INSERTIONS);
    have_texts(&rt, &DELETIONS);
}
