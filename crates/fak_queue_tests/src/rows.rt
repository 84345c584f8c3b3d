//! Worked rows, on one thread.

use super::assertions::{assert_case, assert_equal};
use super::steps::{A, B, Step, open, open_and_walk};
use fak_queue::{DeleteFault, InsertFault, OpenFault, Queue, SeatState};
use std::process::Abort;

#[test]
fn a_cell_that_is_full_and_one_that_is_not(rt: HostRuntime) {
    const STEPS: &[(usize, Step<u64>)] = &[
        (A, Step::ClaimInsert(7, Ok(0))),
        (B, Step::ClaimDelete(Err(DeleteFault::Empty(0)))),
        (A, Step::TryFill(Some(0))),
        (
            A,
            Step::ClaimInsert(8, Err(InsertFault::Full { upper: 1, item: 8 })),
        ),
        (A, Step::State(SeatState::Idle)),
        (A, Step::Left(9)),
    ];
    open_and_walk(&rt, (1, 2, 10), STEPS);
}

#[test]
fn a_seat_that_drew_its_stint(rt: HostRuntime) {
    const STEPS: &[(usize, Step<u64>)] = &[
        (A, Step::Insert(5, Ok(0))),
        (A, Step::Insert(6, Ok(1))),
        (A, Step::Insert(7, Err(InsertFault::Worn { item: 7 }))),
        (A, Step::Delete(Err(DeleteFault::Worn))),
        (A, Step::Left(0)),
        (A, Step::State(SeatState::Idle)),
        (B, Step::Delete(Ok((0, 5)))),
    ];
    open_and_walk(&rt, (4, 2, 2), STEPS);
}

#[test]
fn a_seat_with_one_ticket(rt: HostRuntime) {
    const STEPS: &[(usize, Step<u64>)] = &[
        (A, Step::Insert(7, Ok(0))),
        (A, Step::Left(0)),
        (A, Step::Insert(8, Err(InsertFault::Worn { item: 8 }))),
        (B, Step::Delete(Ok((0, 7)))),
        (B, Step::Delete(Err(DeleteFault::Worn))),
    ];
    open_and_walk(&rt, (1, 2, 1), STEPS);
}

#[test]
fn a_queue_that_was_shut(rt: HostRuntime) {
    const STEPS: &[(usize, Step<u64>)] = &[
        (A, Step::Insert(5, Ok(0))),
        (B, Step::Shut(true)),
        (B, Step::Shut(false)),
        (A, Step::Insert(6, Err(InsertFault::Closed { item: 6 }))),
        (B, Step::Delete(Ok((0, 5)))),
        (B, Step::Delete(Err(DeleteFault::Empty(0)))),
    ];
    open_and_walk(&rt, (2, 2, 10), STEPS);
}

#[test]
fn a_worn_seat_is_told_so_of_a_shut_queue(rt: HostRuntime) {
    const STEPS: &[(usize, Step<u64>)] = &[
        (A, Step::Insert(5, Ok(0))),
        (B, Step::Shut(true)),
        (A, Step::Insert(6, Err(InsertFault::Worn { item: 6 }))),
        (A, Step::ClaimInsert(7, Err(InsertFault::Worn { item: 7 }))),
        (A, Step::WaitInsert(8, Err(InsertFault::Worn { item: 8 }))),
        (A, Step::ClaimDelete(Err(DeleteFault::Worn))),
        (
            B,
            Step::ClaimInsert(9, Err(InsertFault::Closed { item: 9 })),
        ),
        (B, Step::Delete(Ok((0, 5)))),
        (B, Step::ClaimInsert(9, Err(InsertFault::Worn { item: 9 }))),
        (B, Step::ClaimDelete(Err(DeleteFault::Worn))),
    ];
    open_and_walk(&rt, (1, 2, 1), STEPS);
}

/// Checks that no queue is opened, and that this is the fault.
fn refuses(rt: &(impl Abort + AllocGlobal), limits: (u64, u64, u64), fault: OpenFault) {
    let (size, seats, stint) = limits;
    let refusal = Queue::<u64>::open(rt.alloc(), size, seats, stint).err();
    assert_case(rt, &limits, refusal == Some(fault));
}

#[test]
fn the_ranges_of_an_opening(rt: HostRuntime) {
    let (_, seats) = open::<u64>(&rt, (4096, 64, 1 << 40));
    assert_equal(&rt, seats.len(), 64);
    drop(seats);
    const REFUSED: &[((u64, u64, u64), OpenFault)] = &[
        ((4097, 1, 1), OpenFault::BadSize),
        ((0, 0, 0), OpenFault::BadSize),
        ((1, 65, 1), OpenFault::BadSeats),
        ((1, 1, 0), OpenFault::BadStint),
        ((1, 1, (1 << 40) + 1), OpenFault::BadStint),
    ];
    for &(limits, fault) in REFUSED {
        refuses(&rt, limits, fault);
    }
}
