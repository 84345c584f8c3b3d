//! Ports: a queue and a seat of it as one value. No call of a port requires anything, so its callers state nothing.

use super::assertions::{assert_case, assert_equal, assert_left};
use super::steps::{Step, close, in_use, open, open_one, take};
use fak_queue::{DeleteFault, InsertFault, Port, Tally};
use std::process::Abort;
use std::sync::Wait;
use std::thread::join;

/// Takes the step. Returns whether its result is the wanted one.
fn meets<R: Wait>(rt: &R, port: &mut Port<'_, u64>, step: &Step<u64>) -> bool {
    match step {
        Step::Insert(item, answer) => port.insert(rt, *item) == *answer,
        Step::WaitInsert(item, answer) => port.wait_insert(rt, *item) == *answer,
        Step::Delete(answer) => port.delete(rt) == *answer,
        Step::WaitDelete(answer) => port.wait_delete(rt) == *answer,
        Step::Shut(answer) => port.shut() == *answer,
        Step::OpenWith(count) => port.cells_in_use() == in_use(*count, false),
        Step::ShutWith(count) => port.cells_in_use() == in_use(*count, true),
        Step::ItemsReady(answer) => port.items_ready() == *answer,
        Step::IsDrained(answer) => port.is_drained() == *answer,
        Step::Left(answer) => port.left() == *answer,
        _ => false,
    }
}

/// Walks the steps, in their order, with a port of the only seat of a queue with one cell.
fn walk<R: Abort + AllocGlobal + Wait>(rt: &R, stint: u64, steps: &[Step<u64>]) {
    let (queue, seat) = open_one(rt, 1, stint);
    let mut port = Port::new(&queue, seat);
    for (row, step) in steps.iter().enumerate() {
        assert_case(rt, &row, meets(rt, &mut port, step));
    }
}

#[test]
fn a_port_makes_single_attempts(rt: HostRuntime) {
    const STEPS: &[Step<u64>] = &[
        Step::Left(3),
        Step::Delete(Err(DeleteFault::Empty(0))),
        Step::Insert(7, Ok(0)),
        Step::Insert(8, Err(InsertFault::Full { upper: 1, item: 8 })),
        Step::Delete(Ok((0, 7))),
        Step::Left(1),
    ];
    walk(&rt, 3, STEPS);
}

#[test]
fn a_port_shuts_its_queue(rt: HostRuntime) {
    const STEPS: &[Step<u64>] = &[
        Step::WaitInsert(7, Ok(0)),
        Step::Shut(true),
        Step::Shut(false),
        Step::WaitInsert(8, Err(InsertFault::Closed { item: 8 })),
        Step::WaitDelete(Ok((0, 7))),
        Step::WaitDelete(Err(DeleteFault::Worn)),
    ];
    walk(&rt, 2, STEPS);
}

#[test]
fn a_port_observes_its_queue(rt: HostRuntime) {
    const STEPS: &[Step<u64>] = &[
        Step::ItemsReady(0),
        Step::WaitInsert(7, Ok(0)),
        Step::OpenWith(1),
        Step::ItemsReady(1),
        Step::Shut(true),
        Step::ShutWith(1),
        Step::IsDrained(false),
        Step::WaitDelete(Ok((0, 7))),
        Step::IsDrained(true),
        Step::ItemsReady(0),
        Step::Left(0),
    ];
    walk(&rt, 2, STEPS);
}

#[test]
fn a_port_hands_back_its_seat(rt: HostRuntime) {
    let (queue, seat) = open_one(&rt, 3, 9);
    let mut port = Port::new(&queue, seat);
    assert_equal(&rt, port.wait_insert(&rt, 10), Ok(0));
    assert_equal(&rt, port.insert(&rt, 11), Ok(1));
    let seat = port.into_seat();
    assert_left(&rt, close(&rt, queue, Tally::of(seat)), &[10, 11]);
}

/// Inserts the numbers below `count`, and waits if the queue is full. Returns false if the seat was worn or the queue shut.
fn send_below<R: Wait>(rt: &R, mut port: Port<'_, u64>, count: u64) -> bool {
    let mut sent = true;
    for item in 0..count {
        sent &= port.wait_insert(rt, item).is_ok();
    }
    sent
}

/// Deletes this many items, and waits if the queue is empty. Returns their sum.
fn receive<R: Abort + Wait>(rt: &R, mut port: Port<'_, u64>, count: u64) -> u64 {
    let mut sum = 0u64;
    for _ in 0..count {
        let (_, item) = port.wait_delete(rt).expect(rt, "an item");
        sum = sum.wrapping_add(item);
    }
    sum
}

#[test]
fn ports_of_two_threads(rt: HostRuntime) {
    let (queue, mut seats) = open::<u64>(&rt, (2, 2, 1000));
    let sender = Port::new(&queue, take(&rt, &queue, &mut seats));
    let receiver = Port::new(&queue, take(&rt, &queue, &mut seats));
    let rt = &rt;
    let answers = join(
        rt,
        move || -> bool { send_below(rt, sender, 1000) },
        move || -> u64 { receive(rt, receiver, 1000) },
    );
    assert_equal(rt, answers, (true, 499_500));
}
